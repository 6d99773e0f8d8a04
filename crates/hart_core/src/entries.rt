ghost use Rattle.std.specs.Prelude.{◌≡◌, ◌<◌, ◌^◌, length, map, slice_get};
ghost use Rattle.std.specs.List.Sorted.{IsStrictlyIncreasing};
ghost use Rattle.hart_core.specs.Entering.{entry_at, arrival, header_of, headers_of};

use image_writer::Entry;
use serial_run::Machine;

/// An entry that a hart has arrived at.
#[derive(Clone, Copy, PartialEq, Eq, Debug)]
pub struct Found {
    /// Its number, counted from 0.
    pub number: u32,
    /// The address of the first word of its stub.
    pub stub: u64,
}

/// The entry at an address.
#[tactic(auto, unfolding(crate::specs::Entering::entry_at))]
pub(crate) fn find_entry(entries: &[Entry], pc: u64) -> Option<Found>
    requires ascending { IsStrictlyIncreasing (headers_of entries.now) }
    requires few { length entries.now < 2 ^ 32 }
    ensures { result ≡ entry_at entries.now pc }
{
    match entries.binary_search_by_key(&pc, |e| e.header) {
        Ok(i) => Some(Found {
            number: i as u32,
            stub: entries[i].stub,
        }),
        Err(_) => None,
    }
}

/// The entry that a machine has arrived at, where its run has not ended.
pub(crate) fn find_arrival(entries: &[Entry], m: &Machine) -> Option<Found>
    requires ascending { IsStrictlyIncreasing (headers_of entries.now) }
    requires few { length entries.now < 2 ^ 32 }
    ensures { result ≡ arrival entries.now m.now }
{
    match m.ended {
        Some(_) => None,
        None => find_entry(entries, m.pc),
    }
}

/// The header of the entry of a number, or 0 where there is none.
pub(crate) fn header_at(entries: &[Entry], number: u32) -> u64
    ensures { result ≡ header_of (slice_get entries.now number) }
{
    match entries.get(number as usize) {
        Some(e) => e.header,
        None => 0,
    }
}
