ghost use Rattle.std.specs.Prelude.{◌≡◌, [], IfOk};
ghost use Rattle.loop_data.specs.LoopWords.{AreNest};
ghost use Rattle.loop_data.specs.Lookups.{cell_map, AreNumbered};
ghost use Rattle.loop_data.specs.Paths.{IsInOrder};
ghost use Rattle.loop_data.specs.Results.{AreEquations, AreSmallSteps};

use crate::duties::duties_of;
use crate::passes::solved_points;
use crate::unconfirmed::unconfirmed;
use loop_data::{Cells, Classes, Duties, Equations, Graph, LoopShape, loop_flow};
use std::alloc::{AllocError, Global};

/// The forms of the locations at the words of a listed loop with these cells, whose classes are these, what the words
/// owe, and the least induction that is not written with its header's form and the step.
pub fn solve(
    alloc: Global,
    shape: &LoopShape,
    graph: &Graph,
    cells: &Cells,
    classes: &Classes,
) -> Result<Equations, AllocError>
    requires graph { IsInOrder graph.now }
    requires cells { AreNumbered cells.now }
    requires nest { AreNest graph.now shape.now.levels }
    requires steps { AreSmallSteps classes.now }
    ensures { IfOk result (AreEquations graph.now shape.now.levels (cell_map cells.now) classes.now) }
{
    let levels = shape.levels.as_slice();
    let flow = loop_flow(alloc, graph, cells, levels, 0)?;
    let points = solved_points(alloc, graph, cells, levels, classes, &flow)?;
    let duties = duties_of(alloc, levels, &flow, &points)?;
    let unconfirmed = unconfirmed(levels, classes, &flow, &points);
    Ok(Equations {
        points,
        duties: Duties::new(duties),
        unconfirmed,
    })
}
