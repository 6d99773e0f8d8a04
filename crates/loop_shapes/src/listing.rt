ghost use Rattle.std.specs.Prelude.{◌≡◌, ◌<◌, ◌+◌, ◌^◌, ℕ, IfOk, OnOk, length};
ghost use Rattle.loop_shapes.specs.Below.{HasShapeAt, AreLoopsBelow};
ghost use Rattle.loop_shapes.specs.Lines.{AreRowsOf};
ghost use Rattle.loop_shapes.specs.Marks.{AreWordMarks};
ghost use Rattle.loop_data.specs.Listed.{IsListed};
ghost use Rattle.loop_data.specs.Loops.{AreLoops};
ghost use Rattle.loop_shapes.specs.Net.{IsNet, graph_of};
ghost use Rattle.loop_data.specs.Paths.{IsInOrder};
ghost use Rattle.loop_shapes.specs.Places.{at, count_of};
ghost use Rattle.loop_shapes.specs.Program.{IsProgram, program_graph};
ghost use Rattle.loop_data.specs.Starts.{AreFromStarts};
ghost use Rattle.loop_data.specs.Flows.{rows};

use crate::early::with_clean;
use crate::levels::{judged, loop_at};
use crate::line::line_of;
use crate::listed::listed_rows;
use crate::marks::{Marks, marks_of};
use crate::nest::nest_flags;
use crate::net::{Net, address_of, net_of};
use crate::numbers::numbers_of;
use crate::place_set::PlaceSet;
use crate::program::{Program, is_header_at, program_of};
use loop_data::{Graph, LoopShape, flow};
use std::alloc::{AllocError, Global};

// The listed loop at a word, where there is one.
fn shape_at(
    program: &Program,
    marks: &Marks,
    listed: &[Vec<usize>],
    set: &mut PlaceSet,
    others: &mut PlaceSet,
    place: usize,
) -> Result<Option<LoopShape>, AllocError>
    requires program { IsProgram program.now }
    requires marks { AreWordMarks (program_graph program.now) marks.now }
    requires listed { AreRowsOf (program_graph program.now) (IsListed (program_graph program.now)) (rows listed.now) }
    requires within { place < count_of (program_graph program.now) }
    ensures { IfOk result (HasShapeAt (program_graph program.now) (at (program_graph program.now) place)) }
{
    if is_header_at(program, place) {
        let shape = loop_at(program, marks, set, others, place)?;
        return Ok(Some(shape));
    }
    let x = address_of(&program.net, place);
    match line_of(&program.net, set, place, flow::row(listed, place))? {
        Some(verdict) => Ok(Some(judged(set.alloc, x, verdict))),
        None => Ok(None),
    }
}

// Puts the listed loop at a word to those before it.
fn add_shape(
    program: &Program,
    marks: &Marks,
    listed: &[Vec<usize>],
    set: &mut PlaceSet,
    others: &mut PlaceSet,
    place: usize,
    all: &mut Vec<LoopShape>,
) -> Result<(), AllocError>
    requires program { IsProgram program.now }
    requires marks { AreWordMarks (program_graph program.now) marks.now }
    requires listed { AreRowsOf (program_graph program.now) (IsListed (program_graph program.now)) (rows listed.now) }
    requires within { place < count_of (program_graph program.now) }
    requires below { AreLoopsBelow (program_graph program.now) place all.old.items }
    ensures { OnOk result (AreLoopsBelow (program_graph program.now) (place + 1) all.new.items) }
{
    match shape_at(program, marks, listed, set, others, place)? {
        Some(shape) => {
            all.push(shape)?;
            Ok(())
        }
        None => Ok(()),
    }
}

// The listed loops of a program.
fn shapes_of(program: &Program, set: &mut PlaceSet) -> Result<Vec<LoopShape>, AllocError>
    requires program { IsProgram program.now }
    requires few { count_of (program_graph program.now) < 2 ^ 32 }
    ensures { IfOk result (λ v. AreLoops (program_graph program.now) v.items) }
{
    let numbers = numbers_of(set.alloc, &program.net, program.next.as_slice())?;
    let mut others = PlaceSet::new(set.alloc);
    let flags = nest_flags(program, set, &mut others)?;
    let marks = marks_of(program, flags, set)?;
    let marks = with_clean(program, marks, set)?;
    let listed = listed_rows(set.alloc, program, numbers.as_slice())?;
    let mut all = Vec::new(set.alloc);
    for place in 0..program.net.at.len() {
        add_shape(
            program,
            &marks,
            listed.as_slice(),
            set,
            &mut others,
            place,
            &mut all,
        )?;
    }
    Ok(all)
}

/// All listed loops of a program, by header. Words of a program that was read are fewer than 2 to the
/// 32nd and in address order.
pub fn loops(alloc: Global, graph: &Graph) -> Result<Vec<LoopShape>, AllocError>
    requires ordered { IsInOrder graph.now }
    requires few { count_of graph.now < 2 ^ 32 }
    requires from_starts { AreFromStarts graph.now }
    ensures { IfOk result (λ v. AreLoops graph.now v.items) }
{
    let net = net_of(alloc, graph)?;
    let mut set = PlaceSet::new(alloc);
    let program = program_of(net, &mut set)?;
    shapes_of(&program, &mut set)
}
