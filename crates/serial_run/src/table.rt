ghost use Rattle.std.specs.Prelude.{◌≡◌, ◌/◌, ◌%◌, ℕ, length, slice_index_or, true, false, Some, IfOk, IfErr};
ghost use Rattle.rv64_decode.specs.Fetched.{instr_at};
ghost use Rattle.rv64_meaning.specs.Mnemonics.{instr_of};
ghost use Rattle.serial_run.specs.Table.{EndsAt, IsTableOf};
ghost use Rattle.serial_run.specs.declared.table.Entry.{Entry as Shown};

use crate::machine::End;
use guest_memory::Memory;
use rv64_decode::{Fault, decode};
use rv64_meaning::Decoded;

/// How many places a table of decoded instructions has. An instruction has one place, by its address.
pub(crate) const PLACES: usize = 4096;

/// A decoded instruction and its address. Code never changes, so that each word is decoded once while
/// its place is not taken by another.
#[derive(Clone, Copy)]
pub(crate) struct Entry {
    pub at: u64,
    pub decoded: Decoded,
}

// The place of an address.
#[inline(always)]
fn place_of(addr: u64) -> usize
    ensures { result ≡ addr / 4 % 4096 }
{
    (addr / 4 % PLACES as u64) as usize
}

/// The instruction at an address, or the ending where none is to be executed there.
#[tactic(auto, unfolding(crate::specs::Serial::step))]
pub(crate) fn decoded_from(memory: &Memory, pc: u64) -> Result<Decoded, End>
    ensures instr { IfOk result (λ d. instr_at memory.now pc ≡ Some (instr_of d)) }
    ensures ends { IfErr result (EndsAt memory.now pc) }
{
    match memory.fetch(pc) {
        Err(_) => Err(End::Faulted {
            kind: Fault::Fetch,
            pc,
            addr: pc,
        }),
        Ok(word) => match decode(word) {
            None => Err(End::Faulted {
                kind: Fault::Illegal,
                pc,
                addr: word as u64,
            }),
            Some(i) => Ok(Decoded::new(i)),
        },
    }
}

// Puts the instruction at an address into the table, and says whether there is one; where there is
// none it tells the ending.
#[inline(never)]
fn refill(memory: &Memory, table: &mut [Entry], pc: u64, end: &mut End) -> bool
    requires places { length table.old ≡ 4096 }
    requires table { IsTableOf memory.now table.old }
    ensures table { IsTableOf memory.now table.new }
    ensures entry { result ≡ true → (d : Shown) → (slice_index_or table.new (pc / 4 % 4096) d).at ≡ pc }
    ensures ends { result ≡ false → EndsAt memory.now pc end.new }
{
    match decoded_from(memory, pc) {
        Ok(decoded) => {
            table[place_of(pc)] = Entry { at: pc, decoded };
            true
        }
        Err(why) => {
            *end = why;
            false
        }
    }
}

/// Whether there is an instruction at an address, which has its place in the table of the memory's
/// instructions then; where there is none, `end` is the ending.
#[inline(always)]
pub(crate) fn find_instr(memory: &Memory, table: &mut [Entry], pc: u64, end: &mut End) -> bool
    requires places { length table.old ≡ 4096 }
    requires table { IsTableOf memory.now table.old }
    ensures table { IsTableOf memory.now table.new }
    ensures entry { result ≡ true → (d : Shown) → (slice_index_or table.new (pc / 4 % 4096) d).at ≡ pc }
    ensures ends { result ≡ false → EndsAt memory.now pc end.new }
{
    table[place_of(pc)].at == pc || refill(memory, table, pc, end)
}

/// The instruction of an address, which has its place in the table.
#[inline(always)]
pub(crate) fn decoded_in<'a>(memory: &Memory, table: &'a [Entry], pc: u64) -> &'a Decoded
    requires places { length table.now ≡ 4096 }
    requires table { IsTableOf memory.now table.now }
    requires entry { (d : Shown) → (slice_index_or table.now (pc / 4 % 4096) d).at ≡ pc }
    ensures { instr_at memory.now pc ≡ Some (instr_of result.now) }
{
    &table[place_of(pc)].decoded
}
