ghost use Rattle.std.specs.Prelude.{◌≡◌, ◌<◌, ℕ, IfOk, OnOk, length, [], Some, None};
ghost use Rattle.std.specs.List.{Contains};
ghost use Rattle.loop_data.specs.Bodies.{IsHeader, InBody};
ghost use Rattle.loop_data.specs.Loops.{IsLevel, AreLevels, IsSoundNest, IsLoop};
ghost use Rattle.loop_shapes.specs.Marks.{AreWordMarks};
ghost use Rattle.loop_shapes.specs.Places.{at, count_of};
ghost use Rattle.loop_shapes.specs.Program.{IsProgram, program_graph};
ghost use Rattle.loop_data.specs.Sets.{IsListOf};
ghost use Rattle.loop_data.specs.Shape.{InNest};

use crate::body::{addresses_at, in_order};
use crate::early::{early_verdict, is_clean, is_past_limits};
use crate::marks::Marks;
use crate::nest::{headers_of, is_small_nest, round_of};
use crate::net::{address_of, find};
use crate::place_set::PlaceSet;
use crate::program::{Program, find_body};
use crate::sets::minus;
use crate::shape::own_shape_at;
use loop_data::{Addresses, Level, Levels, LoopShape, Verdict};
use std::alloc::{AllocError, Global};

// A loop of a nest.
fn level(
    program: &Program,
    set: &mut PlaceSet,
    others: &mut PlaceSet,
    nest: &[u64],
    x: u64,
) -> Result<Level, AllocError>
    requires program { IsProgram program.now }
    requires nest { IsSoundNest (program_graph program.now) nest.now }
    requires among { Contains nest.now x }
    ensures header { IfOk result (λ l. l.header ≡ x) }
    ensures level { IfOk result (λ l. (h : ℕ) → IsListOf (InNest (program_graph program.now) h) nest.now
        → IsLevel (program_graph program.now) h l) }
{
    let Some(place) = find(&program.net, x) else {
        unreachable!()
    };
    if !find_body(program, set, place)? {
        unreachable!()
    }
    let Some(shape) = own_shape_at(program, set, others, false, place)? else {
        unreachable!()
    };
    let body = addresses_at(set.alloc, &program.net, &set.found)?;
    let round = round_of(program, set, nest, x)?;
    let depth = round.len() as u32;
    Ok(Level {
        header: x,
        body: Addresses::new(body),
        back: address_of(&program.net, shape.0),
        exit: address_of(&program.net, shape.1),
        depth,
    })
}

// The loops of a nest, that of the root first.
fn levels_of(
    program: &Program,
    set: &mut PlaceSet,
    others: &mut PlaceSet,
    nest: &[u64],
    header: u64,
) -> Result<Vec<Level>, AllocError>
    requires program { IsProgram program.now }
    requires nest { IsSoundNest (program_graph program.now) nest.now }
    requires is { IsListOf (InNest (program_graph program.now) header) nest.now }
    requires among { Contains nest.now header }
    ensures { IfOk result (λ v. AreLevels (program_graph program.now) header v.items) }
{
    let inner = minus(set.alloc, nest, &[header])?;
    let mut all = Vec::new(set.alloc);
    all.push(level(program, set, others, nest, header)?)?;
    for x in inner.as_slice() {
        all.push(level(program, set, others, nest, *x)?)?;
    }
    Ok(all)
}

/// A loop with an early verdict.
pub fn judged(alloc: Global, header: u64, verdict: Verdict) -> LoopShape
    ensures header { result.header ≡ header }
    ensures early { result.early ≡ Some verdict }
    ensures levels { result.levels ≡ [] }
{
    LoopShape {
        header,
        levels: Levels::new(Vec::new(alloc)),
        early: Some(verdict),
    }
}

/// The loop at the word at a place.
pub fn loop_at(
    program: &Program,
    marks: &Marks,
    set: &mut PlaceSet,
    others: &mut PlaceSet,
    place: usize,
) -> Result<LoopShape, AllocError>
    requires program { IsProgram program.now }
    requires marks { AreWordMarks (program_graph program.now) marks.now }
    requires within { place < count_of (program_graph program.now) }
    requires header { IsHeader (program_graph program.now) (at (program_graph program.now) place) }
    ensures header { IfOk result (λ s. s.header ≡ at (program_graph program.now) place) }
    ensures is { IfOk result (IsLoop (program_graph program.now)) }
{
    let header = address_of(&program.net, place);
    if is_past_limits(program, marks, place) {
        return Ok(judged(set.alloc, header, Verdict::Limit { at: header }));
    }
    if !find_body(program, set, place)? {
        return Ok(judged(set.alloc, header, Verdict::Limit { at: header }));
    }
    let clean = is_clean(program, marks, place);
    if let Some(verdict) = early_verdict(&program.net, marks, &set.found, header, clean) {
        return Ok(judged(set.alloc, header, verdict));
    }
    let Some(headers) = headers_of(program, set)? else {
        return Ok(judged(set.alloc, header, Verdict::Limit { at: header }));
    };
    let nest = in_order(headers);
    if !is_small_nest(program, set, nest.as_slice())? {
        return Ok(judged(set.alloc, header, Verdict::Limit { at: header }));
    }
    let levels = levels_of(program, set, others, nest.as_slice(), header)?;
    Ok(LoopShape {
        header,
        levels: Levels::new(levels),
        early: None,
    })
}
