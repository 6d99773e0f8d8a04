ghost use Rattle.std.specs.Prelude.{ℕ, ◌≡◌, ◌<◌, true, false, nat_lt, if◌then◌else◌, Some, length, slice_index_or};
ghost use Rattle.loop_data.specs.Locations.{writes_register, writes_cell, instr_writes};
ghost use Rattle.induction.specs.Masks.{place_writes};
ghost use Rattle.induction.specs.Writers.{with_writer, AreWriters};
ghost use Rattle.induction.specs.declared.writers.Writers.TheVariants.{Nowhere};

use loop_data::Flow;
use loop_data::value_rows::{is_store, target_of};
use rv64_decode::Instr;

/// Which words of a loop write a location.
#[derive(Clone, Copy, PartialEq, Eq, Debug)]
pub enum Writers {
    /// None does.
    Nowhere,
    /// The one at this place, and no other.
    At(usize),
    /// Two or more.
    Several,
}

impl Writers {
    /// The words up to a place, which writes the location, where those below it are these.
    fn with(self, place: usize) -> Writers
        ensures { result ≡ with_writer self place true }
    {
        match self {
            Writers::Nowhere => Writers::At(place),
            _ => Writers::Several,
        }
    }
}

/// Takes the word at a place up among those that write the register that its instruction writes.
fn add_register(writers: &mut [Writers; 48], instr: &Instr, place: usize)
    ensures { (r : ℕ) → r < 48 → slice_index_or writers.new r Nowhere
        ≡ with_writer (slice_index_or writers.old r Nowhere) place
        (if nat_lt r 32 then writes_register instr.now r else false) }
{
    let r = target_of(instr) as usize;
    if r != 0 && r < 32 {
        writers[r] = writers[r].with(place);
    }
}

/// Takes the word at a place up among those that write the cell that it accesses, where it writes it.
fn add_cell(writers: &mut [Writers; 48], instr: &Instr, cell: u8, place: usize)
    ensures { (r : ℕ) → r < 48 → slice_index_or writers.new r Nowhere
        ≡ with_writer (slice_index_or writers.old r Nowhere) place
        (if nat_lt r 32 then false else writes_cell instr.now (Some cell) r) }
{
    let r = 32 + cell as usize;
    if r < 48 && is_store(instr) {
        writers[r] = writers[r].with(place);
    }
}

/// Takes the word at a place, which accesses this cell, if any, up among those that write what it writes.
fn add_instr(writers: &mut [Writers; 48], instr: &Instr, cell: Option<u8>, place: usize)
    ensures { (r : ℕ) → r < 48 → slice_index_or writers.new r Nowhere
        ≡ with_writer (slice_index_or writers.old r Nowhere) place (instr_writes (Some instr.now) cell r) }
{
    add_register(writers, instr, place);
    if let Some(cell) = cell {
        add_cell(writers, instr, cell, place);
    }
}

/// Takes the word at a place up among those that write what it writes.
fn add_word(writers: &mut [Writers; 48], flow: &Flow, place: usize)
    requires within { place < length flow.now.instrs.items }
    requires uses { length flow.now.uses.items ≡ length flow.now.instrs.items }
    ensures { (r : ℕ) → r < 48 → slice_index_or writers.new r Nowhere
        ≡ with_writer (slice_index_or writers.old r Nowhere) place (place_writes flow.now place r) }
{
    if let Some(instr) = &flow.instrs[place] {
        add_instr(writers, instr, flow.uses[place], place);
    }
}

/// Which words write each location.
pub fn writers_of(flow: &Flow) -> [Writers; 48]
    requires uses { length flow.now.uses.items ≡ length flow.now.instrs.items }
    ensures { (r : ℕ) → r < 48
        → AreWriters flow.now (length flow.now.instrs.items) r (slice_index_or result r Nowhere) }
{
    let mut writers = [Writers::Nowhere; 48];
    for p in 0..flow.instrs.len() {
        add_word(&mut writers, flow, p);
    }
    writers
}
