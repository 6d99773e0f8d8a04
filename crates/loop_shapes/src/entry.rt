ghost use Rattle.std.specs.Prelude.{◌≡◌, ◌≢◌, ◌↔◌, ◌<◌, ◌≤◌, ◌∷◌, [], ◌⊎◌, ℕ, IfOk, MatchOption, IsTrue, length, ⊤};
ghost use Rattle.std.specs.List.{Contains};
ghost use Rattle.std.specs.List.Sorted.{IsStrictlyIncreasing};
ghost use Rattle.loop_data.specs.Bodies.{IsHeader, InPart};
ghost use Rattle.loop_shapes.specs.Entry.{IsBefore, IsLeastEdge, IsStartWord, IsStartAmong};
ghost use Rattle.loop_data.specs.Listed.{HasVerdict};
ghost use Rattle.loop_shapes.specs.Net.{IsNet, graph_of};
ghost use Rattle.loop_data.specs.Paths.{Leads, Reaches};
ghost use Rattle.loop_shapes.specs.Places.{at, count_of};
ghost use Rattle.loop_data.specs.Sets.{IsListOf, IsLeast, HasAtMost};

use crate::body::{in_order, push_addresses};
use crate::closed::part;
use crate::edges::edges;
use crate::net::{Net, find};
use crate::place_set::PlaceSet;
use crate::reach::reached_within;
use crate::sets::minus;
use loop_data::Verdict;
use std::alloc::{AllocError, Global};

// Whether an edge is at or before another, by its source and then by its target.
fn is_before(a: (u64, u64), b: (u64, u64)) -> bool
    ensures { IsTrue result ↔ IsBefore a b }
{
    if a.0 == b.0 { a.1 <= b.1 } else { a.0 < b.0 }
}

// The lesser of two edges.
fn lesser(a: (u64, u64), b: (u64, u64)) -> (u64, u64)
    ensures first { IsBefore result a }
    ensures second { IsBefore result b }
    ensures one { (result ≡ a) ⊎ (result ≡ b) }
{
    if is_before(a, b) { a } else { b }
}

// The least of some edges.
fn least_edge(all: &[(u64, u64)]) -> Option<(u64, u64)>
    ensures { MatchOption result (length all.now ≡ 0) (IsLeastEdge all.now) }
{
    if all.is_empty() {
        return None;
    }
    let mut least = all[0];
    for e in all {
        least = lesser(least, *e);
    }
    Some(least)
}

// Whether a start word stands at an address.
fn is_start(net: &Net, x: u64) -> bool
    requires { IsNet net.now }
    ensures { IsTrue result ↔ IsStartWord (graph_of net.now) x }
{
    match find(net, x) {
        Some(place) => net.starts[place],
        None => false,
    }
}

// The first start word among addresses in order.
fn first_start(net: &Net, xs: &[u64]) -> Option<u64>
    requires net { IsNet net.now }
    requires ordered { IsStrictlyIncreasing xs.now }
    ensures { MatchOption result ((x : ℕ) → ¬ IsStartAmong (graph_of net.now) xs.now x)
        (IsLeast (IsStartAmong (graph_of net.now) xs.now)) }
{
    for x in xs {
        if is_start(net, *x) {
            return Some(*x);
        }
    }
    None
}

/// The addresses of the words that an edge closes into a loop, in order, where they are at most 256.
pub fn part_list(
    net: &Net,
    set: &mut PlaceSet,
    header: usize,
    source: usize,
) -> Result<Option<Vec<u64>>, AllocError>
    requires net { IsNet net.now }
    requires header { header < count_of (graph_of net.now) }
    requires source { source < count_of (graph_of net.now) }
    ensures { IfOk result (λ o. MatchOption o
        (¬ HasAtMost 256 (InPart (graph_of net.now) (at (graph_of net.now) header) (at (graph_of net.now) source)))
        (λ v. IsListOf (InPart (graph_of net.now) (at (graph_of net.now) header)
        (at (graph_of net.now) source)) v.items)) }
{
    if !part(net, set, header, source)? {
        return Ok(None);
    }
    let mut all = Vec::new(set.alloc);
    push_addresses(net.at.as_slice(), &set.found, &mut all)?;
    Ok(Some(in_order(all)))
}

/// The other entry of a cycle that closes into no loop, from its words.
pub fn entry_of(
    alloc: Global,
    net: &Net,
    words: &[u64],
    header: u64,
    source: u64,
) -> Result<Verdict, AllocError>
    requires net { IsNet net.now }
    requires words { IsListOf (InPart (graph_of net.now) header source) words.now }
    requires small { HasAtMost 256 (InPart (graph_of net.now) header source) }
    requires edge { Leads (graph_of net.now) source header }
    requires returns { Reaches (Leads (graph_of net.now)) (λ _. ⊤) header source }
    requires no_loop { ¬ IsHeader (graph_of net.now) header }
    ensures { IfOk result (HasVerdict (graph_of net.now) header source) }
{
    let core = reached_within(alloc, net, words, header)?;
    let others = minus(alloc, words, core.as_slice())?;
    let inner = minus(alloc, core.as_slice(), &[header])?;
    let entering = edges(alloc, net, others.as_slice(), inner.as_slice(), true)?;
    if let Some(e) = least_edge(entering.as_slice()) {
        return Ok(Verdict::MultiEntry { from: e.0, to: e.1 });
    }
    let Some(start) = first_start(net, inner.as_slice()) else {
        unreachable!()
    };
    Ok(Verdict::MultiEntry {
        from: start,
        to: start,
    })
}
