ghost use Rattle.std.specs.Prelude.{◌≡◌, ◌<◌, ◌++◌, ℕ, IfOk, OnOk, length, map, slice_index};
ghost use Rattle.std.specs.List.{Contains};
ghost use Rattle.loop_data.specs.Bodies.{IsClosed, InBody, InPart};
ghost use Rattle.loop_shapes.specs.Net.{IsNet, IsAmong, IsPartOf, graph_of};
ghost use Rattle.loop_shapes.specs.Places.{at, count_of};
ghost use Rattle.loop_data.specs.Sets.{IsListOf};
ghost use Rattle.loop_shapes.specs.Lines.{IsRowOf};
ghost use Rattle.loop_shapes.specs.Gains.{Gained, HasAll};

use crate::closed::part;
use crate::net::Net;
use crate::place_set::PlaceSet;
use std::alloc::{AllocError, Global};

// The address at a place.
fn address_at(at: &[u64], i: usize) -> u64
    requires { i < length at.now }
    ensures { result ≡ slice_index at.now i }
{
    at[i]
}

/// Puts the addresses at these places to others.
pub fn push_addresses(at: &[u64], places: &[usize], all: &mut Vec<u64>) -> Result<(), AllocError>
    requires { (i : ℕ) → Contains places.now i → i < length at.now }
    ensures { OnOk result (all.new.items ≡ all.old.items ++ map (slice_index at.now) places.now) }
{
    for i in places {
        all.push(address_at(at, *i))?;
    }
    Ok(())
}

// Puts the addresses of the words that a closed edge makes a loop of to others.
fn add_part(
    net: &Net,
    set: &mut PlaceSet,
    all: &mut Vec<u64>,
    header: usize,
    source: usize,
) -> Result<(), AllocError>
    requires net { IsNet net.now }
    requires header { header < count_of (graph_of net.now) }
    requires source { source < count_of (graph_of net.now) }
    requires closed { IsClosed (graph_of net.now) (at (graph_of net.now) header) (at (graph_of net.now) source) }
    ensures { OnOk result (Gained (InPart (graph_of net.now) (at (graph_of net.now) header)
        (at (graph_of net.now) source)) all.old.items all.new.items) }
{
    if !part(net, set, header, source)? {
        return Ok(());
    }
    push_addresses(net.at.as_slice(), &set.found, all)
}

// The addresses of a loop's words, in any order.
fn all_parts(
    net: &Net,
    set: &mut PlaceSet,
    header: usize,
    closed: &[usize],
) -> Result<Vec<u64>, AllocError>
    requires net { IsNet net.now }
    requires header { header < count_of (graph_of net.now) }
    requires closed { IsRowOf (graph_of net.now) (IsClosed (graph_of net.now)) header closed.now }
    ensures { IfOk result (λ v. HasAll (IsPartOf (graph_of net.now) header closed.now) v.items) }
{
    let mut all = Vec::new(set.alloc);
    for source in closed {
        add_part(net, set, &mut all, header, *source)?;
    }
    Ok(all)
}

/// The addresses in order, each once.
pub fn in_order(mut all: Vec<u64>) -> Vec<u64>
    ensures { IsListOf (Contains all.items) result.items }
{
    all.sort_unstable();
    all.dedup();
    all
}

/// The addresses of the words of the loop at a place, in order, from the places of the words from which
/// closed edges lead to it; none where no loop stands there.
pub fn body_of(
    net: &Net,
    set: &mut PlaceSet,
    header: usize,
    closed: &[usize],
) -> Result<Vec<u64>, AllocError>
    requires net { IsNet net.now }
    requires header { header < count_of (graph_of net.now) }
    requires closed { IsRowOf (graph_of net.now) (IsClosed (graph_of net.now)) header closed.now }
    ensures { IfOk result (λ v. IsListOf (InBody (graph_of net.now) (at (graph_of net.now) header)) v.items) }
{
    Ok(in_order(all_parts(net, set, header, closed)?))
}

/// The addresses at some places, in order.
pub fn addresses_at(alloc: Global, net: &Net, places: &[usize]) -> Result<Vec<u64>, AllocError>
    requires net { IsNet net.now }
    requires within { (i : ℕ) → Contains places.now i → i < count_of (graph_of net.now) }
    ensures { IfOk result (λ v. IsListOf (IsAmong (graph_of net.now) places.now) v.items) }
{
    let mut all = Vec::new(alloc);
    push_addresses(net.at.as_slice(), places, &mut all)?;
    Ok(in_order(all))
}
