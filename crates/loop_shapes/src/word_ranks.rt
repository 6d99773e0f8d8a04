ghost use Rattle.std.specs.Prelude.{◌≡◌, ◌<◌, ◌+◌, ◌⊎◌, ◌↔◌, ℕ, IfOk, IsTrue, length, slice_index, replicate};
ghost use Rattle.std.specs.List.{Contains};
ghost use Rattle.loop_shapes.specs.Net.{IsNet, graph_of};
ghost use Rattle.loop_shapes.specs.Numbers.{AreNodes};
ghost use Rattle.loop_shapes.specs.Places.{at, count_of};
ghost use Rattle.loop_shapes.specs.Ranks.{AreRanks, AreRanksBelow, HasLower, HasRanked};
ghost use Rattle.loop_shapes.specs.Walk.{AreBelow};
ghost use Rattle.loop_data.specs.Flows.{row_at, rows};

use crate::net::Net;
use crate::walk::left_in_order;
use loop_data::flow::row;
use std::alloc::{AllocError, Global};
use strong_components::Successors;

// Whether a word has a rank.
fn is_ranked(ranks: &[usize], place: usize) -> bool
    requires { place < length ranks.now }
    ensures { IsTrue result ↔ (0 < slice_index ranks.now place) }
{
    ranks[place] != 0
}

// Whether one of some words has a rank.
fn has_ranked(ranks: &[usize], places: &[usize]) -> bool
    requires { AreBelow (length ranks.now) places.now }
    ensures { IsTrue result → HasRanked ranks.now places.now }
{
    for place in places {
        if is_ranked(ranks, *place) {
            return true;
        }
    }
    false
}

// Whether a word may have a rank: whether it is a start word, or a word that has a rank leads to it.
fn may_have_rank(net: &Net, ranks: &[usize], place: usize) -> bool
    requires net { IsNet net.now }
    requires count { length ranks.now ≡ count_of (graph_of net.now) }
    requires within { place < count_of (graph_of net.now) }
    ensures { IsTrue result → Contains (graph_of net.now).starts (at (graph_of net.now) place)
        ⊎ HasRanked ranks.now (row_at (rows net.now.before.items) place) }
{
    if net.starts[place] {
        return true;
    }
    has_ranked(ranks, row(net.before.as_slice(), place))
}

// Gives a word a rank above all others, where it has none and may have one.
fn give_rank(net: &Net, ranks: &mut [usize], place: usize, rank: usize)
    requires net { IsNet net.now }
    requires within { place < count_of (graph_of net.now) }
    requires above { 0 < rank }
    requires ranks { AreRanksBelow (graph_of net.now) rank ranks.old }
    ensures { AreRanksBelow (graph_of net.now) (rank + 1) ranks.new }
{
    if is_ranked(ranks, place) {
        return;
    }
    if !may_have_rank(net, ranks, place) {
        return;
    }
    ranks[place] = rank;
}

// Gives words ranks, the last one first.
fn give_ranks(net: &Net, ranks: &mut [usize], places: &[usize])
    requires net { IsNet net.now }
    requires within { AreBelow (count_of (graph_of net.now)) places.now }
    requires none { ranks.old ≡ replicate (count_of (graph_of net.now)) 0 }
    ensures { AreRanks (graph_of net.now) ranks.new }
{
    for k in 0..places.len() {
        give_rank(net, ranks, places[places.len() - 1 - k], k + 1);
    }
}

/// The ranks of words, 0 where a word has none. One that has is a start word, or a word of lower rank leads to
/// it. A word is ranked before all that a walk in depth leaves earlier: of the edges to a word of lower rank
/// most close a loop.
pub fn ranks_of(alloc: Global, net: &Net, steps: &[Successors]) -> Result<Vec<usize>, AllocError>
    requires net { IsNet net.now }
    requires steps { AreNodes (graph_of net.now) steps.now }
    ensures { IfOk result (λ v. AreRanks (graph_of net.now) v.items) }
{
    let left = left_in_order(alloc, net.starts.as_slice(), steps)?;
    let mut ranks = vec![in alloc; 0; net.at.len()]?;
    give_ranks(net, &mut ranks, left.as_slice());
    Ok(ranks)
}

/// Whether the ranks of two words tell that an edge from one to the other closes no loop.
pub fn leads_up(ranks: &[usize], source: usize, header: usize) -> bool
    requires source { source < length ranks.now }
    requires header { header < length ranks.now }
    ensures { IsTrue result → (0 < slice_index ranks.now source)
        × (slice_index ranks.now source < slice_index ranks.now header) }
{
    if !is_ranked(ranks, source) {
        return false;
    }
    ranks[source] < ranks[header]
}
