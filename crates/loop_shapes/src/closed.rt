ghost use Rattle.std.specs.Prelude.{◌≡◌, ◌<◌, ◌+◌, ◌↔◌, [], ℕ, IfOk, OnOk, IsTrue, length};
ghost use Rattle.std.specs.List.{Contains};
ghost use Rattle.loop_shapes.specs.Around.{AreAroundSoFar, AreAround};
ghost use Rattle.loop_data.specs.Bodies.{IsClosed, InBody};
ghost use Rattle.loop_shapes.specs.Net.{IsNet, IsOnlyEntry, IsPart, HasPart, HasTriedEdge, graph_of};
ghost use Rattle.loop_data.specs.Paths.{Leads};
ghost use Rattle.loop_shapes.specs.Places.{at, count_of};
ghost use Rattle.loop_shapes.specs.PlaceSet.{IsPlaceSet};
ghost use Rattle.loop_shapes.specs.Ranks.{AreRanks};
ghost use Rattle.loop_data.specs.Sets.{IsListOf};
ghost use Rattle.loop_shapes.specs.Lines.{AreRowsOf, IsRowOf};
ghost use Rattle.loop_data.specs.Flows.{rows};

use crate::around::{Around, is_wider, settle};
use crate::net::Net;
use crate::place_set::PlaceSet;
use crate::word_ranks::leads_up;
use loop_data::flow;
use std::alloc::{AllocError, Global};

/// Whether the words that an edge closes into a loop are at most 256; the set then has their places.
pub fn part(net: &Net, set: &mut PlaceSet, header: usize, source: usize) -> Result<bool, AllocError>
    requires net { IsNet net.now }
    requires header { header < count_of (graph_of net.now) }
    requires source { source < count_of (graph_of net.now) }
    ensures part { IfOk result (λ small. HasPart small (graph_of net.now) header source set.new.found.items) }
    ensures set { OnOk result (IsPlaceSet (count_of (graph_of net.now)) set.new) }
{
    set.search(
        net.before.as_slice(),
        net.pairs.as_slice(),
        header,
        &[source],
    )
}

// Whether a start word stands only at one of these places.
fn is_only_entry(starts: &[bool], found: &[usize], header: usize) -> bool
    requires { (i : ℕ) → Contains found.now i → i < length starts.now }
    ensures { IsTrue result ↔ IsOnlyEntry starts.now found.now header }
{
    for i in found {
        if starts[*i] && *i != header {
            return false;
        }
    }
    true
}

// Whether an edge is closed; the set then has the places of the words that it closes into a loop.
fn is_closed(
    net: &Net,
    set: &mut PlaceSet,
    header: usize,
    source: usize,
) -> Result<bool, AllocError>
    requires net { IsNet net.now }
    requires header { header < count_of (graph_of net.now) }
    requires source { source < count_of (graph_of net.now) }
    requires edge { Leads (graph_of net.now) (at (graph_of net.now) source) (at (graph_of net.now) header) }
    ensures closed { IfOk result (λ b. IsTrue b
        ↔ IsClosed (graph_of net.now) (at (graph_of net.now) header) (at (graph_of net.now) source)) }
    ensures part { IfOk result (λ b. IsTrue b → IsPart (graph_of net.now) header source set.new.found.items) }
    ensures set { OnOk result (IsPlaceSet (count_of (graph_of net.now)) set.new) }
{
    if !part(net, set, header, source)? {
        return Ok(false);
    }
    Ok(is_only_entry(net.starts.as_slice(), &set.found, header))
}

// Puts a place to a row, where a closed edge leads from it, and the loop round its words.
fn add_closed(
    net: &Net,
    set: &mut PlaceSet,
    around: &mut Around,
    ranks: &[usize],
    row: &mut Vec<usize>,
    header: usize,
    source: usize,
) -> Result<(), AllocError>
    requires net { IsNet net.now }
    requires ranks { AreRanks (graph_of net.now) ranks.now }
    requires header { header < count_of (graph_of net.now) }
    requires source { source < count_of (graph_of net.now) }
    requires edge { Leads (graph_of net.now) (at (graph_of net.now) source) (at (graph_of net.now) header) }
    requires around { AreAroundSoFar (graph_of net.now) header row.old.items around.old }
    ensures tried { OnOk result (HasTriedEdge (graph_of net.now) header source row.old.items row.new.items) }
    ensures around { OnOk result (AreAroundSoFar (graph_of net.now) header row.new.items around.new) }
{
    if leads_up(ranks, source, header) {
        return Ok(());
    }
    if !is_closed(net, set, header, source)? {
        return Ok(());
    }
    row.push(source)?;
    settle(&set.found, &set.slots, &mut around.innermost, header, true);
    if !is_wider(&set.found, &set.slots, around.outermost.as_slice(), header) {
        return Ok(());
    }
    settle(&set.found, &set.slots, &mut around.outermost, header, false);
    Ok(())
}

// The places of the words from which closed edges lead to a word.
fn closed_row(
    net: &Net,
    set: &mut PlaceSet,
    around: &mut Around,
    ranks: &[usize],
    header: usize,
) -> Result<Vec<usize>, AllocError>
    requires net { IsNet net.now }
    requires ranks { AreRanks (graph_of net.now) ranks.now }
    requires header { header < count_of (graph_of net.now) }
    requires around { AreAroundSoFar (graph_of net.now) header [] around.old }
    ensures closed { IfOk result (λ v. IsRowOf (graph_of net.now) (IsClosed (graph_of net.now)) header v.items) }
    ensures around { OnOk result (AreAroundSoFar (graph_of net.now) (header + 1) [] around.new) }
{
    let mut row = Vec::new(set.alloc);
    for source in flow::row(net.before.as_slice(), header) {
        add_closed(net, set, around, ranks, &mut row, header, *source)?;
    }
    Ok(row)
}

/// For each word the places of the words from which closed edges lead to it, and the loops round it; from the
/// ranks of the words.
pub fn closed_rows(
    net: &Net,
    set: &mut PlaceSet,
    around: &mut Around,
    ranks: &[usize],
) -> Result<Vec<Vec<usize>>, AllocError>
    requires net { IsNet net.now }
    requires ranks { AreRanks (graph_of net.now) ranks.now }
    requires around { AreAroundSoFar (graph_of net.now) 0 [] around.old }
    ensures closed { IfOk result (λ v. AreRowsOf (graph_of net.now) (IsClosed (graph_of net.now)) (rows v.items)) }
    ensures around { OnOk result (AreAround (graph_of net.now) around.new) }
{
    let mut all = Vec::new(set.alloc);
    for header in 0..net.at.len() {
        all.push(closed_row(net, set, around, ranks, header)?)?;
    }
    Ok(all)
}
