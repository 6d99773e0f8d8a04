ghost use Rattle.std.specs.Prelude.{◌≡◌, ◌<◌, ℕ, min, IfOk, MatchOption, length};
ghost use Rattle.std.specs.List.{Contains};
ghost use Rattle.loop_data.specs.Bodies.{InPart};
ghost use Rattle.loop_shapes.specs.Lines.{IsRowOf, HasLarge};
ghost use Rattle.loop_data.specs.Listed.{IsListed, IsLine};
ghost use Rattle.loop_shapes.specs.Net.{IsNet, graph_of};
ghost use Rattle.loop_shapes.specs.Places.{at, count_of};
ghost use Rattle.loop_data.specs.Sets.{IsLeast};

use crate::closed::part;
use crate::entry::{entry_of, part_list};
use crate::net::{Net, address_of};
use crate::place_set::PlaceSet;
use loop_data::Verdict;
use std::alloc::{AllocError, Global};

// Whether the words of one of these edges pass the limit.
fn has_large(
    net: &Net,
    set: &mut PlaceSet,
    header: usize,
    row: &[usize],
) -> Result<bool, AllocError>
    requires net { IsNet net.now }
    requires header { header < count_of (graph_of net.now) }
    requires row { (i : ℕ) → Contains row.now i → i < count_of (graph_of net.now) }
    ensures { IfOk result (λ b. HasLarge b (graph_of net.now) header row.now) }
{
    for source in row {
        if !part(net, set, header, *source)? {
            return Ok(true);
        }
    }
    Ok(false)
}

// The lesser of two places.
fn lesser(a: usize, b: usize) -> usize
    ensures { result ≡ min a b }
{
    a.min(b)
}

// The least of some places.
fn least_place(row: &[usize]) -> Option<usize>
    ensures { MatchOption result (length row.now ≡ 0) (IsLeast (Contains row.now)) }
{
    if row.is_empty() {
        return None;
    }
    let mut least = row[0];
    for x in row {
        least = lesser(least, *x);
    }
    Some(least)
}

/// The line of the listed edges to a word, from the places of their sources.
pub fn line_of(
    net: &Net,
    set: &mut PlaceSet,
    header: usize,
    row: &[usize],
) -> Result<Option<Verdict>, AllocError>
    requires net { IsNet net.now }
    requires header { header < count_of (graph_of net.now) }
    requires row { IsRowOf (graph_of net.now) (IsListed (graph_of net.now)) header row.now }
    ensures { IfOk result (λ o. MatchOption o ((u : ℕ) → ¬ IsListed (graph_of net.now) (at (graph_of net.now) header) u)
        (IsLine (graph_of net.now) (at (graph_of net.now) header))) }
{
    let Some(source) = least_place(row) else {
        return Ok(None);
    };
    let at = address_of(net, header);
    if has_large(net, set, header, row)? {
        return Ok(Some(Verdict::Limit { at }));
    }
    let Some(words) = part_list(net, set, header, source)? else {
        unreachable!()
    };
    let from = address_of(net, source);
    Ok(Some(entry_of(set.alloc, net, words.as_slice(), at, from)?))
}
