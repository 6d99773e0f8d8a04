ghost use Rattle.std.specs.Prelude.{◌≡◌, ◌<◌, ℕ, IfOk, length, slice_index};
ghost use Rattle.stub_laws.specs.Code.{Appended};
ghost use Rattle.turn_copies.specs.Copies.{copy_code, in_order, body_code};
ghost use Rattle.outliner.specs.Sizes.{loop_code, IsCopied, ArePlaces};

use crate::copies::{push_copy, target_of};
use crate::places::{arrival, place_at};
use crate::words::instr_of;
use loop_data::cells::use_at;
use loop_data::{Cells, Graph, Level};
use std::alloc::AllocError;

/// Appends the copy of the word with number `k` of a loop, by the places of all copies.
fn push_copy_of(
    code: &mut Vec<u32>,
    graph: &Graph,
    cells: &Cells,
    level: &Level,
    places: &[u32],
    k: usize,
) -> Result<(), AllocError>
    requires copied { IsCopied graph.now cells.now level.now }
    requires inside { k < length level.now.body }
    requires places { ArePlaces graph.now cells.now level.now (slice_index places.now 0) places.now }
    ensures { IfOk result (λ u. Appended code.old.items code.new.items
        (copy_code level.now (loop_code graph.now cells.now)
        (in_order level.now (loop_code graph.now cells.now) (slice_index places.now 0))
        (slice_index level.now.body k))) }
{
    let body = level.body.as_slice();
    let at = body[k];
    match instr_of(graph, at) {
        Some(i) => {
            let leaving = at == level.exit;
            let uses = use_at(cells.uses.as_slice(), at);
            let here = place_at(level, places, at);
            let to = arrival(level, places, target_of(level, at, leaving, &i));
            let end = places[body.len()];
            push_copy(code, level, at, here, to, end, leaving, uses, &i)
        }
        None => Ok(()),
    }
}

/// Appends the copies of a loop's words in address order, by their places and the place behind them.
pub fn push_body(
    code: &mut Vec<u32>,
    graph: &Graph,
    cells: &Cells,
    level: &Level,
    places: &[u32],
) -> Result<(), AllocError>
    requires copied { IsCopied graph.now cells.now level.now }
    requires places { ArePlaces graph.now cells.now level.now (slice_index places.now 0) places.now }
    ensures { IfOk result (λ u. Appended code.old.items code.new.items
        (body_code level.now (loop_code graph.now cells.now) (slice_index places.now 0))) }
{
    let body = level.body.as_slice();
    for k in 0..body.len() {
        push_copy_of(code, graph, cells, level, places, k)?;
    }
    Ok(())
}
