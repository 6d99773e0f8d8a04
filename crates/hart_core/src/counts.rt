ghost use Rattle.std.specs.Prelude.{◌≡◌, ◌+◌, ◌%◌, ◌^◌, List, map, IfOk, slice_index};
ghost use Rattle.hart_core.specs.Machine.{capped};
ghost use Rattle.hart_core.specs.Start.{no_count};
ghost use Rattle.hart_core.specs.Entering.{changed_count, one_arrival, with_arrival, next_place, place_of_entry};
ghost use Rattle.hart_core.specs.Rows.{one_division, divided_turns};
ghost use Rattle.hart_core.specs.Shown.{place_of};

use crate::entries::Found;
use image_writer::Entry;
use std::alloc::{AllocError, Global};

/// What is counted of an entry. A count stands still at its type's end.
#[derive(Clone, Copy, PartialEq, Eq, Debug)]
pub struct LoopCount {
    /// The address of the loop's header.
    pub header: u64,
    /// How often hart 0 has left the original there.
    pub arrivals: u64,
    /// How often turns were divided among the harts.
    pub divided: u64,
    /// How many turns these were.
    pub turns: u64,
}

/// What is counted of a run.
#[derive(Drop)]
pub struct Counts {
    /// The counts of each entry, by header.
    pub loops: Vec<LoopCount>,
    /// For each hart the events that have done something.
    pub harts: Vec<u64>,
    /// How many these are of all harts.
    pub steps: u64,
}

/// Where hart 0 stands.
#[derive(Clone, Copy, PartialEq, Eq, Debug)]
pub enum Place {
    /// It has left the original at the entry of this number, counted from 0, and has executed no word of its stub.
    Arrived(u32),
    /// It has just started all other harts.
    Forked,
    Other,
}

// Counts of these entries that are all 0.
pub(crate) fn no_counts(alloc: Global, entries: &[Entry]) -> Result<Vec<LoopCount>, AllocError>
    ensures { IfOk result (λ v. v.items ≡ map no_count entries.now) }
{
    let mut counts = Vec::with_capacity(alloc, entries.len())?;
    for e in entries {
        counts.push(LoopCount {
            header: e.header,
            arrivals: 0,
            divided: 0,
            turns: 0,
        })?;
    }
    Ok(counts)
}

// Counts the arrival at an entry.
pub(crate) fn count_arrival(loops: &mut Vec<LoopCount>, found: Option<Found>)
    ensures { loops.new.items ≡ with_arrival loops.old.items found }
{
    let Some(found) = found else { return };
    let i = found.number as usize;
    if i < loops.len() {
        let old = loops[i];
        loops[i] = LoopCount {
            arrivals: old.arrivals.saturating_add(1),
            ..old
        };
    }
}

// Counts a division of the loop of an entry.
pub(crate) fn count_division(loops: &mut Vec<LoopCount>, entry: u32, turns: u64)
    ensures { loops.new.items ≡ changed_count loops.old.items entry (one_division turns) }
{
    let i = entry as usize;
    if i < loops.len() {
        let old = loops[i];
        loops[i] = LoopCount {
            divided: old.divided.saturating_add(1),
            turns: old.turns.saturating_add(turns),
            ..old
        };
    }
}

// The number of turns that are divided at a fork, by the slots.
pub(crate) fn turns_in(slots: &[u64; 32]) -> u64
    ensures { result ≡ divided_turns slots.now }
{
    slots[23].wrapping_add(1)
}

// Where hart 0 stands once it may have arrived at an entry.
pub(crate) fn place_at(found: Option<Found>) -> Place
    ensures { place_of result ≡ place_of_entry found }
{
    match found {
        Some(found) => Place::Arrived(found.number),
        None => Place::Other,
    }
}

// Where hart 0 stands after an event of hart k, which has led it to a new place if it is its own.
pub(crate) fn next_of(k: usize, new: Place, old: Place) -> Place
    ensures { place_of result ≡ next_place k (place_of new) (place_of old) }
{
    if k == 0 {
        return new;
    }
    match old {
        Place::Arrived(entry) => Place::Arrived(entry),
        Place::Forked => Place::Other,
        Place::Other => Place::Other,
    }
}
