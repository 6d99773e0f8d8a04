ghost use Rattle.std.specs.Prelude.{◌≡◌, ◌++◌, string_bytes, IfOk};
ghost use Rattle.std.specs.Fmt.{signed_decimal};
ghost use Rattle.report_text.specs.Lines.{verdict_at, cell_text, carried_text, entries_text, distance_text, dependence_text};
ghost use Rattle.report_text.specs.Lines.{parallel_text, verdict_text, loop_line};

use linear_forms::Loc;
use loop_choice::Judged;
use loop_data::{Cell, Verdict};
use std::alloc::{AllocError, Global};

// The name of a verdict and the address that decides.
fn verdict_at(alloc: Global, name: &str, at: u64) -> Result<String, AllocError>
    ensures { IfOk result (λ s. string_bytes s ≡ verdict_at name.now at) }
{
    format!(in alloc; "{name} 0x{at:08x}")
}

// A cell of memory.
fn cell_text(alloc: Global, cell: Cell) -> Result<String, AllocError>
    ensures { IfOk result (λ s. string_bytes s ≡ cell_text cell) }
{
    let offset = cell.offset;
    let bytes: u8 = if cell.wide { 8 } else { 4 };
    match cell.base {
        Some(base) => format!(in alloc; "x{base} {offset} {bytes}"),
        None => format!(in alloc; "abs {offset} {bytes}"),
    }
}

// A location that a turn leaves for the next one.
fn carried_text(alloc: Global, loc: Loc, cell: Option<Cell>) -> Result<String, AllocError>
    ensures { IfOk result (λ s. string_bytes s ≡ carried_text loc cell) }
{
    match (loc, cell) {
        (Loc::Reg(register), _) => format!(in alloc; "carried x{register}"),
        (Loc::Cell(_), Some(cell)) => {
            let text = cell_text(alloc, cell)?;
            format!(in alloc; "carried cell {text}")
        }
        (Loc::Cell(_), None) => String::from_str(alloc, "carried cell"),
    }
}

// The entries of a distance behind the first.
fn entries_text(alloc: Global, entries: &[i64]) -> Result<String, AllocError>
    ensures { IfOk result (λ s. string_bytes s ≡ entries_text entries.now) }
{
    let mut text = String::new(alloc);
    for entry in entries {
        let number = *entry;
        let more = format!(in alloc; ", {number}")?;
        text.push_str(more.as_str())?;
    }
    Ok(text)
}

// A distance with this many entries behind the first.
fn distance_text(
    alloc: Global,
    common: u32,
    distance: Option<[i64; 3]>,
) -> Result<String, AllocError>
    ensures { IfOk result (λ s. string_bytes s ≡ distance_text common distance) }
{
    let Some(entries) = distance else {
        return String::from_str(alloc, "none");
    };
    let root = entries[0];
    let count = (common as usize).min(2);
    let inner = entries_text(alloc, &entries[1..1 + count])?;
    format!(in alloc; "({root}{inner})")
}

// Two accesses, and their distance with this many entries behind the first.
fn dependence_text(
    alloc: Global,
    first: u64,
    second: u64,
    common: u32,
    distance: Option<[i64; 3]>,
) -> Result<String, AllocError>
    ensures { IfOk result (λ s. string_bytes s ≡ dependence_text first second common distance) }
{
    let text = distance_text(alloc, common, distance)?;
    format!(in alloc; "dependence 0x{first:08x} 0x{second:08x} distance {text}")
}

// Whether a parallel loop is chosen.
fn parallel_text(chosen: bool) -> &'static str
    ensures { result.now ≡ parallel_text chosen }
{
    if chosen {
        "parallel chosen"
    } else {
        "parallel"
    }
}

// What is said of a loop of this verdict.
fn verdict_text(alloc: Global, verdict: Verdict, chosen: bool) -> Result<String, AllocError>
    ensures { IfOk result (λ s. string_bytes s ≡ verdict_text verdict chosen) }
{
    match verdict {
        Verdict::MultiEntry { from, to } => {
            format!(in alloc; "multi-entry 0x{from:08x} -> 0x{to:08x}")
        }
        Verdict::Limit { at } => verdict_at(alloc, "limit", at),
        Verdict::Call { at } => verdict_at(alloc, "call", at),
        Verdict::System { at } => verdict_at(alloc, "system", at),
        Verdict::Indirect { at } => verdict_at(alloc, "indirect", at),
        Verdict::Unsupported { at } => verdict_at(alloc, "unsupported", at),
        Verdict::Shape { at } => verdict_at(alloc, "shape", at),
        Verdict::MixedCell { at } => verdict_at(alloc, "mixed-cell", at),
        Verdict::Carried { loc, cell } => carried_text(alloc, loc, cell),
        Verdict::NoTrip { at } => verdict_at(alloc, "no-trip", at),
        Verdict::Irregular { at } => verdict_at(alloc, "irregular", at),
        Verdict::Dependence {
            first,
            second,
            common,
            distance,
        } => dependence_text(alloc, first, second, common, distance),
        Verdict::Parallel => String::from_str(alloc, parallel_text(chosen)),
    }
}

/// The line of a loop that is judged, with its line feed: what is found of it, and whether it is chosen.
/// Addresses have 8 hexadecimal digits. A cell is told by its base register, its offset and its bytes, or by
/// its address, and a distance by its entries for the root and for the common inner loops.
pub fn loop_line(alloc: Global, judged: &Judged, chosen: bool) -> Result<String, AllocError>
    ensures { IfOk result (λ s. string_bytes s ≡ loop_line judged.now chosen) }
{
    let header = judged.header;
    let text = verdict_text(alloc, judged.verdict, chosen)?;
    format!(in alloc; "loop 0x{header:08x} {text}\n")
}
