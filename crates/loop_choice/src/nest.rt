ghost use Rattle.std.specs.Prelude.{◌≡◌, None, IfOk};
ghost use Rattle.elf_image.specs.Layout.{IsLoadable};
ghost use Rattle.loop_data.specs.declared.verdict.Verdict.TheVariants.{Carried};
ghost use Rattle.loop_data.specs.Locations.{cell_at};
ghost use Rattle.loop_data.specs.LoopWords.{AreNest};
ghost use Rattle.loop_data.specs.Lookups.{AreNumbered, cell_map};
ghost use Rattle.loop_data.specs.Paths.{IsInOrder};
ghost use Rattle.loop_data.specs.Results.{AreClasses};
ghost use Rattle.loop_choice.specs.Analysis.{cell_of, AreSound, AreConfirmed, AreFound};
ghost use Rattle.loop_choice.specs.Outcomes.{IsOutcome};

use crate::copies::same_shape;
use crate::dependence::{dependence_at, first_hopeless};
use crate::entries::have_all_entries;
use crate::outcome::Outcome;
use crate::trips::trips_of;
use affine_addresses::{Irregular, accesses};
use alias_checks::check_of;
use elf_image::Elf;
use induction::{ClassErr, classes};
use linear_forms::Loc;
use loop_data::{Accesses, Cell, Cells, Classes, Equations, Graph, LoopShape, Plan, Trip, Verdict};
use register_equations::solve;
use stack_slots::{cells, cells_are_found, cells_are_limited};
use std::alloc::{AllocError, Global};
use trip_counts::NoTrip;

/// The cell of a number, if there is one.
#[tactic(auto, using(crate::proofs::Outcomes::cell_here, crate::proofs::Outcomes::cell_past))]
fn cell_at(cells: &[Cell], number: usize) -> Option<Cell>
    ensures { result ≡ cell_at cells.now number }
{
    if number < cells.len() {
        Some(cells[number])
    } else {
        None
    }
}

/// The cell that a location is, if it is one.
fn cell_of(cells: &Cells, loc: Loc) -> Option<Cell>
    ensures { result ≡ cell_of cells.now.list.items loc }
{
    match loc {
        Loc::Reg(_) => None,
        Loc::Cell(number) => cell_at(cells.list.as_slice(), number as usize),
    }
}

/// That a location is carried.
fn carried(cells: &Cells, loc: Loc) -> Verdict
    ensures { result ≡ Carried loc (cell_of cells.now.list.items loc) }
{
    Verdict::Carried {
        loc,
        cell: cell_of(cells, loc),
    }
}

/// What a nest with these accesses ends in.
fn with_accesses(
    alloc: Global,
    graph: &Graph,
    elf: &Elf,
    shape: &LoopShape,
    cells: Cells,
    classes: Classes,
    equations: &Equations,
    trips: &[Trip],
    accesses: &Accesses,
) -> Result<Outcome, AllocError>
    requires loadable { IsLoadable elf.now }
    requires early { shape.now.early ≡ None }
    requires found { AreFound graph.now shape.now.levels cells classes equations.now trips.now
        accesses.now.list.items }
    ensures { IfOk result (IsOutcome graph.now elf.now shape.now) }
{
    let list = accesses.list.as_slice();
    match first_hopeless(list) {
        Some((i, j)) => {
            let verdict = dependence_at(list, i, j);
            Ok(Outcome::Against(verdict))
        }
        None => {
            let check = check_of(alloc, &cells, trips, equations, accesses, elf)?;
            let shape = same_shape(alloc, shape)?;
            let plan = Plan {
                shape,
                cells,
                classes,
            };
            have_all_entries(&plan, &check);
            Ok(Outcome::Free { plan, check })
        }
    }
}

/// What a nest whose inductions are confirmed ends in.
#[tactic(auto, using(crate::proofs::Outcomes::by_trips, crate::proofs::Outcomes::by_addresses, crate::proofs::Outcomes::are_found))]
fn with_forms(
    alloc: Global,
    graph: &Graph,
    elf: &Elf,
    shape: &LoopShape,
    cells: Cells,
    classes: Classes,
    equations: &Equations,
) -> Result<Outcome, AllocError>
    requires loadable { IsLoadable elf.now }
    requires graph { IsInOrder graph.now }
    requires nest { AreNest graph.now shape.now.levels }
    requires early { shape.now.early ≡ None }
    requires confirmed { AreConfirmed graph.now shape.now.levels cells classes equations.now }
    ensures { IfOk result (IsOutcome graph.now elf.now shape.now) }
{
    cells_are_limited();
    let trips = match trips_of(alloc, shape, graph, equations)? {
        Ok(trips) => trips,
        Err(NoTrip { at }) => return Ok(Outcome::Against(Verdict::NoTrip { at })),
    };
    match accesses(shape, graph, &cells, equations) {
        Ok(accesses) => with_accesses(
            alloc,
            graph,
            elf,
            shape,
            cells,
            classes,
            equations,
            trips.as_slice(),
            &accesses,
        ),
        Err(Irregular { at }) => Ok(Outcome::Against(Verdict::Irregular { at })),
    }
}

/// What a nest none of whose locations is carried by its class ends in.
#[tactic(auto, using(crate::proofs::Outcomes::by_forms, crate::proofs::Outcomes::are_confirmed))]
fn with_classes(
    alloc: Global,
    graph: &Graph,
    elf: &Elf,
    shape: &LoopShape,
    cells: Cells,
    classes: Classes,
) -> Result<Outcome, AllocError>
    requires loadable { IsLoadable elf.now }
    requires graph { IsInOrder graph.now }
    requires nest { AreNest graph.now shape.now.levels }
    requires early { shape.now.early ≡ None }
    requires sound { AreSound graph.now shape.now.levels cells }
    requires numbered { AreNumbered cells }
    requires classes { AreClasses graph.now shape.now.levels (cell_map cells) classes }
    ensures { IfOk result (IsOutcome graph.now elf.now shape.now) }
{
    let equations = solve(alloc, shape, graph, &cells, &classes)?;
    match equations.unconfirmed {
        Some(loc) => Ok(Outcome::Against(carried(&cells, loc))),
        None => with_forms(alloc, graph, elf, shape, cells, classes, &equations),
    }
}

/// What a nest with these cells ends in.
fn with_cells(
    alloc: Global,
    graph: &Graph,
    elf: &Elf,
    shape: &LoopShape,
    cells: Cells,
) -> Result<Outcome, AllocError>
    requires loadable { IsLoadable elf.now }
    requires graph { IsInOrder graph.now }
    requires nest { AreNest graph.now shape.now.levels }
    requires early { shape.now.early ≡ None }
    requires sound { AreSound graph.now shape.now.levels cells }
    requires numbered { AreNumbered cells }
    ensures { IfOk result (IsOutcome graph.now elf.now shape.now) }
{
    match classes(alloc, shape, graph, &cells) {
        Ok(classes) => with_classes(alloc, graph, elf, shape, cells, classes),
        Err(ClassErr::Carried { loc }) => Ok(Outcome::Against(carried(&cells, loc))),
        Err(ClassErr::OutOfMemory) => Err(AllocError),
    }
}

/// What a nest ends in.
pub(crate) fn outcome_of(
    alloc: Global,
    graph: &Graph,
    elf: &Elf,
    shape: &LoopShape,
) -> Result<Outcome, AllocError>
    requires loadable { IsLoadable elf.now }
    requires graph { IsInOrder graph.now }
    requires nest { AreNest graph.now shape.now.levels }
    requires early { shape.now.early ≡ None }
    ensures { IfOk result (IsOutcome graph.now elf.now shape.now) }
{
    cells_are_found();
    cells_are_limited();
    let cells = cells(alloc, shape, graph)?;
    match cells.fault {
        Some(verdict) => Ok(Outcome::Against(verdict)),
        None => with_cells(alloc, graph, elf, shape, cells),
    }
}
