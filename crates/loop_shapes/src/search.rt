ghost use Rattle.std.specs.Prelude.{◌≡◌, ◌≢◌, ◌<◌, ◌≤◌, ◌+◌, ℕ, ◌++◌, ◌∷◌, [], length, IfOk, OnOk, IsTrue, ◌↔◌};
ghost use Rattle.std.specs.List.{Contains};
ghost use Rattle.loop_shapes.specs.Search.{IsIndexed, HasTried, HasRoom, HasSearched, ArePairs};
ghost use Rattle.loop_data.specs.Flows.{AreRowsWithin, row_at, rows};

use std::alloc::AllocError;

// The number of words that a loop may have.
const LIMIT: usize = 256;

/// Whether a number is found.
pub fn is_found(found: &[usize], slots: &[usize], x: usize) -> bool
    requires within { x < length slots.now }
    requires indexed { IsIndexed found.now slots.now }
    ensures { IsTrue result ↔ Contains found.now x }
{
    let slot = slots[x];
    slot < found.len() && found[slot] == x
}

/// Puts a new number to those that are found.
pub fn push_new(found: &mut Vec<usize>, slots: &mut [usize], x: usize) -> Result<(), AllocError>
    requires within { x < length slots.old }
    requires indexed { IsIndexed found.old.items slots.old }
    requires absent { ¬ Contains found.old.items x }
    ensures items { OnOk result (found.new.items ≡ found.old.items ++ x ∷ []) }
    ensures indexed { OnOk result (IsIndexed found.new.items slots.new) }
{
    slots[x] = found.len();
    found.push(x)?;
    Ok(())
}

// Puts a number to those that are found, where it is not among them; whether there was room.
fn add_new(found: &mut Vec<usize>, slots: &mut [usize], x: usize) -> Result<bool, AllocError>
    requires within { x < length slots.old }
    requires indexed { IsIndexed found.old.items slots.old }
    requires bound { length found.old.items ≤ 256 }
    ensures { IfOk result (λ room. HasTried room found.old.items (x ∷ []) found.new.items slots.new) }
{
    if is_found(found, slots, x) {
        return Ok(true);
    }
    if found.len() == LIMIT {
        return Ok(false);
    }
    push_new(found, slots, x)?;
    Ok(true)
}

// Puts numbers to those that are found; whether there was room.
fn add_all(found: &mut Vec<usize>, slots: &mut [usize], more: &[usize]) -> Result<bool, AllocError>
    requires within { (x : ℕ) → Contains more.now x → x < length slots.old }
    requires indexed { IsIndexed found.old.items slots.old }
    requires bound { length found.old.items ≤ 256 }
    ensures { IfOk result (λ room. HasTried room found.old.items more.now found.new.items slots.new) }
{
    for x in more {
        if !add_new(found, slots, *x)? {
            return Ok(false);
        }
    }
    Ok(true)
}

// Puts two numbers to those that are found; whether there was room.
fn add_pair(
    found: &mut Vec<usize>,
    slots: &mut [usize],
    first: usize,
    second: usize,
) -> Result<bool, AllocError>
    requires first { first < length slots.old }
    requires second { second < length slots.old }
    requires indexed { IsIndexed found.old.items slots.old }
    requires bound { length found.old.items ≤ 256 }
    ensures { IfOk result (λ room. HasTried room found.old.items (first ∷ second ∷ []) found.new.items slots.new) }
{
    if !add_new(found, slots, first)? {
        return Ok(false);
    }
    add_new(found, slots, second)
}

// Puts the numbers of a row to those that are found; whether there was room.
fn add_row(
    before: &[Vec<usize>],
    pairs: &[Option<(usize, usize)>],
    slots: &mut [usize],
    found: &mut Vec<usize>,
    at: usize,
) -> Result<bool, AllocError>
    requires within { AreRowsWithin (rows before.now) }
    requires pairs { ArePairs (rows before.now) pairs.now }
    requires count { length slots.old ≡ length before.now }
    requires at { at < length before.now }
    requires indexed { IsIndexed found.old.items slots.old }
    requires bound { length found.old.items ≤ 256 }
    ensures { IfOk result (λ room. HasTried room found.old.items
        (row_at (rows before.now) at) found.new.items slots.new) }
{
    let known = pairs[at];
    match known {
        Some(pair) => add_pair(found, slots, pair.0, pair.1),
        None => add_all(found, slots, before[at].as_slice()),
    }
}

// Begins a search with the header and the sources; whether there was room.
fn start(
    slots: &mut [usize],
    found: &mut Vec<usize>,
    header: usize,
    sources: &[usize],
) -> Result<bool, AllocError>
    requires header { header < length slots.old }
    requires sources { (x : ℕ) → Contains sources.now x → x < length slots.old }
    ensures { IfOk result (λ room. HasTried room (header ∷ []) sources.now found.new.items slots.new) }
{
    found.clear();
    push_new(found, slots, header)?;
    add_all(found, slots, sources)
}

/// Searches backwards from `sources` and stops at `header`: whether the edges from the sources to `header`
/// close at most 256 words into a loop, whose places `found` then has. What `slots` holds before does not
/// matter. `pairs` has the rows of `before` that are short, at one look less.
pub fn search(
    before: &[Vec<usize>],
    pairs: &[Option<(usize, usize)>],
    slots: &mut [usize],
    found: &mut Vec<usize>,
    header: usize,
    sources: &[usize],
) -> Result<bool, AllocError>
    requires within { AreRowsWithin (rows before.now) }
    requires pairs { ArePairs (rows before.now) pairs.now }
    requires count { length slots.old ≡ length before.now }
    requires header { header < length before.now }
    requires sources { (x : ℕ) → Contains sources.now x → x < length before.now }
    ensures places { IfOk result (λ small. HasSearched small (rows before.now) header sources.now found.new.items) }
    ensures indexed { OnOk result (IsIndexed found.new.items slots.new) }
{
    if !start(slots, found, header, sources)? {
        return Ok(false);
    }
    let mut next = 1;
    while next < found.len() {
        let at = found[next];
        if !add_row(before, pairs, slots, found, at)? {
            return Ok(false);
        }
        next += 1;
    }
    Ok(true)
}
