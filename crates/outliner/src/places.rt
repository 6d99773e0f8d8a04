ghost use Rattle.std.specs.Prelude.{◌≡◌, ◌<◌, ◌≤◌, ◌^◌, ℕ, IfOk, length};
ghost use Rattle.std.specs.List.Sorted.{IsStrictlyIncreasing};
ghost use Rattle.loop_data.specs.declared.cells.Cells.{Cells};
ghost use Rattle.loop_data.specs.declared.graph.Graph.{Graph};
ghost use Rattle.turn_copies.specs.Copies.{copy_size, place_in, arrive, in_order};
ghost use Rattle.outliner.specs.Sizes.{places_from, loop_code, IsCopied};

use crate::copies::size_of;
use crate::words::instr_of;
use loop_data::cells::use_at;
use loop_data::flow::place_of;
use loop_data::{Cells, Graph, Level};
use std::alloc::{AllocError, Global};

/// How many words the copy of the word at an address has.
fn copy_size(graph: &Graph, cells: &Cells, level: &Level, at: u64) -> u32
    requires { IsCopied graph.now cells.now level.now }
    ensures value { result ≡ copy_size level.now (loop_code graph.now cells.now) at }
    ensures few { result ≤ 3 }
{
    match instr_of(graph, at) {
        Some(i) => {
            let uses = use_at(cells.uses.as_slice(), at);
            size_of(level, at, at == level.exit, uses, &i)
        }
        None => 0,
    }
}

/// The places of the copies of a loop's words, where the first stands at place `p`, and then the place behind them.
pub(crate) fn places_of(
    alloc: Global,
    graph: &Graph,
    cells: &Cells,
    level: &Level,
    p: u32,
) -> Result<Vec<u32>, AllocError>
    requires copied { IsCopied graph.now cells.now level.now }
    requires small { p < 2 ^ 31 }
    ensures { IfOk result (λ v. v.items ≡ places_from level.now (loop_code graph.now cells.now) p level.now.body) }
{
    let body = level.body.as_slice();
    let mut places = Vec::with_capacity(alloc, body.len() + 1)?;
    let mut place = p;
    for k in 0..body.len() {
        places.push(place)?;
        place += copy_size(graph, cells, level, body[k]);
    }
    places.push(place)?;
    Ok(places)
}

/// The place of the copy of the word at an address; the place behind all copies where there is none.
pub(crate) fn place_at(level: &Level, places: &[u32], at: u64) -> u32
    requires { (length level.now.body < length places.now) × IsStrictlyIncreasing level.now.body }
    ensures { (G : Graph) (C : Cells) (p : ℕ) → places.now ≡ places_from level.now (loop_code G C) p level.now.body
        → result ≡ place_in level.now (loop_code G C) level.now.body p at }
{
    let body = level.body.as_slice();
    match place_of(body, at) {
        Some(k) => places[k],
        None => places[body.len()],
    }
}

/// Where a copy goes on for an address: behind the turn where it is the header's.
pub(crate) fn arrival(level: &Level, places: &[u32], at: u64) -> u32
    requires { (length level.now.body < length places.now) × IsStrictlyIncreasing level.now.body }
    ensures { (G : Graph) (C : Cells) (p : ℕ) → places.now ≡ places_from level.now (loop_code G C) p level.now.body
        → result ≡ arrive level.now (in_order level.now (loop_code G C) p) at }
{
    if at == level.header {
        places[level.body.as_slice().len()]
    } else {
        place_at(level, places, at)
    }
}
