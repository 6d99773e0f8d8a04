ghost use Rattle.std.specs.Prelude.{◌≡◌, ◌<◌, ◌≤◌, [], length, IfOk, IfErr};
ghost use Rattle.loop_data.specs.LoopWords.{AreNest};
ghost use Rattle.loop_data.specs.Lookups.{cell_map, AreNumbered};
ghost use Rattle.loop_data.specs.Paths.{IsInOrder};
ghost use Rattle.induction.specs.Results.{IsRootRow, IsInnerRow, AreInnerRows, IsRefusal};
ghost use Rattle.loop_data.specs.Results.{AreClasses};

use crate::refusal::ClassErr;
use crate::rows::{inner_row, root_row};
use crate::words::words_of;
use loop_data::{Cells, Class, Classes, Graph, LoopShape};
use std::alloc::{AllocError, Global};

/// The classes of the locations in the root.
fn root_classes(
    alloc: Global,
    shape: &LoopShape,
    graph: &Graph,
    cells: &Cells,
) -> Result<[Option<Class>; 48], ClassErr>
    requires graph { IsInOrder graph.now }
    requires cells { AreNumbered cells.now }
    requires nest { AreNest graph.now shape.now.levels }
    ensures ok { IfOk result (IsRootRow graph.now shape.now.levels (cell_map cells.now)) }
    ensures err { IfErr result (IsRefusal graph.now shape.now.levels (cell_map cells.now)) }
{
    let levels = shape.levels.as_slice();
    let words = words_of(alloc, shape, 0, graph, cells)?;
    match root_row(levels, &levels[0], &words) {
        Ok(row) => Ok(row),
        Err(loc) => Err(ClassErr::Carried { loc }),
    }
}

/// The inductions of the loop at a place among the levels.
fn inductions(
    alloc: Global,
    shape: &LoopShape,
    level: usize,
    graph: &Graph,
    cells: &Cells,
) -> Result<[Option<Class>; 48], AllocError>
    requires graph { IsInOrder graph.now }
    requires cells { AreNumbered cells.now }
    requires nest { AreNest graph.now shape.now.levels }
    requires within { level < length shape.now.levels }
    ensures { IfOk result (IsInnerRow graph.now shape.now.levels (cell_map cells.now) level) }
{
    let levels = shape.levels.as_slice();
    let words = words_of(alloc, shape, level, graph, cells)?;
    Ok(inner_row(levels, &levels[level], &words))
}

/// The inductions of the inner loops.
fn inner_classes(
    alloc: Global,
    shape: &LoopShape,
    graph: &Graph,
    cells: &Cells,
) -> Result<[[Option<Class>; 48]; 3], AllocError>
    requires graph { IsInOrder graph.now }
    requires cells { AreNumbered cells.now }
    requires nest { AreNest graph.now shape.now.levels }
    ensures { IfOk result (AreInnerRows graph.now shape.now.levels (cell_map cells.now) (length shape.now.levels)) }
{
    let mut inner = [[None; 48]; 3];
    for level in 1..shape.levels.as_slice().len() {
        inner[level - 1] = inductions(alloc, shape, level, graph, cells)?;
    }
    Ok(inner)
}

/// The classes of the locations of a listed loop.
pub fn classes(
    alloc: Global,
    shape: &LoopShape,
    graph: &Graph,
    cells: &Cells,
) -> Result<Classes, ClassErr>
    requires graph { IsInOrder graph.now }
    requires cells { AreNumbered cells.now }
    requires nest { AreNest graph.now shape.now.levels }
    ensures ok { IfOk result (AreClasses graph.now shape.now.levels (cell_map cells.now)) }
    ensures err { IfErr result (IsRefusal graph.now shape.now.levels (cell_map cells.now)) }
{
    let root = match root_classes(alloc, shape, graph, cells) {
        Ok(row) => row,
        Err(error) => return Err(error),
    };
    match inner_classes(alloc, shape, graph, cells) {
        Ok(inner) => Ok(Classes { root, inner }),
        Err(_) => Err(ClassErr::OutOfMemory),
    }
}
