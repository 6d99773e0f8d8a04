ghost use Rattle.std.specs.Prelude.{◌≡◌, ◌<◌, ◌≤◌, ◌+◌, ℕ, ◌++◌, ◌∷◌, [], length, IfOk, IfSome, IfNone, OnOk, IsTrue};
ghost use Rattle.std.specs.Prelude.{vec_len, slice_index, slice_index_or, ◌↔◌, slice_set, replicate, false};
ghost use Rattle.std.specs.List.{Contains};
ghost use Rattle.std.specs.List.Sorted.{IsStrictlyIncreasing};
ghost use Rattle.loop_data.specs.Paths.{addresses, IsInOrder};
ghost use Rattle.loop_shapes.specs.Places.{HasPredecessors, AreFlags, Marked, count_of};
ghost use Rattle.loop_data.specs.Flows.{Added, row_at, rows};

use loop_data::Graph;
use loop_data::flow::{empty_rows, place_of, unset_flags};
use std::alloc::{AllocError, Global};

// Puts a number at the end of a row.
fn add(before: &mut [Vec<usize>], to: usize, from: usize) -> Result<(), AllocError>
    requires { to < length before.old }
    ensures ok { OnOk result (rows before.new
        ≡ slice_set (rows before.old) to (row_at (rows before.old) to ++ from ∷ [])) }
{
    before[to].push(from)?;
    Ok(())
}

// The place at which an address stands, if there are no gaps between it and the one at another place.
fn guess(at: &[u64], near: usize, x: u64) -> usize {
    if near >= at.len() {
        return near;
    }
    let y = at[near];
    if y <= x {
        return near.wrapping_add(((x - y) / 4) as usize);
    }
    near.wrapping_sub(((y - x) / 4) as usize)
}

/// The place of an address among addresses in order, looked for first where it stands if there are no gaps
/// between it and the address at a place near it.
pub fn place_near(at: &[u64], near: usize, x: u64) -> Option<usize>
    requires { IsStrictlyIncreasing at.now }
    ensures found { IfSome result (λ i. (i < length at.now) × (slice_index at.now i ≡ x)) }
    ensures none { IfNone result (¬ Contains at.now x) }
{
    let place = guess(at, near, x);
    if place < at.len() {
        if at[place] == x {
            return Some(place);
        }
    }
    place_of(at, x)
}

// Puts a place into the row of an address.
fn add_step(before: &mut [Vec<usize>], at: &[u64], y: u64, from: usize) -> Result<(), AllocError>
    requires ordered { IsStrictlyIncreasing at.now }
    requires count { length before.old ≡ length at.now }
    ensures { OnOk result (Added at.now from (Contains (y ∷ [])) (rows before.old) (rows before.new)) }
{
    match place_near(at, from, y) {
        Some(to) => add(before, to, from),
        None => Ok(()),
    }
}

// Puts a place into the rows of these addresses.
fn add_steps(
    before: &mut [Vec<usize>],
    at: &[u64],
    steps: &[u64],
    from: usize,
) -> Result<(), AllocError>
    requires ordered { IsStrictlyIncreasing at.now }
    requires count { length before.old ≡ length at.now }
    ensures { OnOk result (Added at.now from (Contains steps.now) (rows before.old) (rows before.new)) }
{
    for y in steps {
        add_step(before, at, *y, from)?;
    }
    Ok(())
}

// Puts the place of a word into the rows of the words that it leads to.
fn add_word(
    before: &mut [Vec<usize>],
    at: &[u64],
    graph: &Graph,
    from: usize,
) -> Result<(), AllocError>
    requires ordered { IsInOrder graph.now }
    requires addresses { at.now ≡ addresses graph.now }
    requires count { length before.old ≡ length at.now }
    requires within { from < length at.now }
    requires below { HasPredecessors graph.now from (rows before.old) }
    ensures { OnOk result (HasPredecessors graph.now (from + 1) (rows before.new)) }
{
    add_steps(
        before,
        at,
        graph.words.as_slice()[from].steps.as_slice(),
        from,
    )
}

/// For each word the places of the words that lead to it.
pub fn sources(alloc: Global, graph: &Graph, at: &[u64]) -> Result<Vec<Vec<usize>>, AllocError>
    requires ordered { IsInOrder graph.now }
    requires addresses { at.now ≡ addresses graph.now }
    ensures { IfOk result (λ v. HasPredecessors graph.now (count_of graph.now) (rows v.items)) }
{
    let mut before = empty_rows(alloc, at.len())?;
    for i in 0..at.len() {
        add_word(&mut before, at, graph, i)?;
    }
    Ok(before)
}

/// The addresses of the words.
pub fn address_list(alloc: Global, graph: &Graph) -> Result<Vec<u64>, AllocError>
    ensures { IfOk result (λ v. v.items ≡ addresses graph.now) }
{
    graph.words.as_slice().iter().map(|w| w.at).collect(alloc)
}

/// Sets the flag at the place of an address.
pub fn mark(flags: &mut [bool], at: &[u64], x: u64)
    requires ordered { IsStrictlyIncreasing at.now }
    requires count { length flags.old ≡ length at.now }
    ensures { Marked at.now x flags.old flags.new }
{
    if let Some(i) = place_of(at, x) {
        flags[i] = true;
    }
}

// Sets the flags of these addresses, and no other.
fn mark_all(flags: &mut [bool], at: &[u64], graph: &Graph, xs: &[u64])
    requires ordered { IsInOrder graph.now }
    requires addresses { at.now ≡ addresses graph.now }
    requires unset { flags.old ≡ replicate (count_of graph.now) false }
    ensures { AreFlags graph.now (Contains xs.now) flags.new }
{
    for x in xs {
        mark(flags, at, *x);
    }
}

/// Which words are start words.
pub fn start_flags(alloc: Global, graph: &Graph, at: &[u64]) -> Result<Vec<bool>, AllocError>
    requires ordered { IsInOrder graph.now }
    requires addresses { at.now ≡ addresses graph.now }
    ensures { IfOk result (λ v. AreFlags graph.now (Contains graph.now.starts) v.items) }
{
    let mut flags = unset_flags(alloc, at.len())?;
    mark_all(&mut flags, at, graph, graph.starts.as_slice());
    Ok(flags)
}
