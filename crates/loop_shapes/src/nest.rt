ghost use Rattle.std.specs.Prelude.{◌≡◌, ◌≢◌, ◌↔◌, ◌<◌, ◌≤◌, ℕ, IfOk, OnOk, MatchOption, IsTrue, length};
ghost use Rattle.std.specs.List.{Contains};
ghost use Rattle.loop_data.specs.Bodies.{InBody};
ghost use Rattle.loop_data.specs.Early.{IsRound, IsSmallNest};
ghost use Rattle.loop_shapes.specs.Gains.{Gained, HasAll};
ghost use Rattle.loop_shapes.specs.Net.{AreAt};
ghost use Rattle.loop_shapes.specs.Nested.{HasTriedHeader};
ghost use Rattle.loop_shapes.specs.Marks.{AreNestFlags};
ghost use Rattle.loop_shapes.specs.Outer.{AreKnown, IsAcyclic, IsCrowded};
ghost use Rattle.loop_shapes.specs.Places.{at, count_of};
ghost use Rattle.loop_shapes.specs.Program.{IsProgram, program_graph};
ghost use Rattle.loop_shapes.specs.PlaceSet.{IsPlaceSet};
ghost use Rattle.loop_data.specs.Sets.{IsListOf, HasAtMost};
ghost use Rattle.loop_data.specs.Shape.{IsShaped, InNest};

use crate::body::in_order;
use crate::net::address_of;
use crate::outer::{is_outer, is_under};
use crate::place_set::PlaceSet;
use crate::program::{Program, body_at, find_body, is_among, is_header_at};
use crate::shape::{is_acyclic_at, own_shape_at};
use std::alloc::AllocError;

// The number of loops that a nest may have.
const LOOPS: usize = 4;

// The number of loops of a nest that may lie round one of them.
const ROUND: usize = 2;

/// What is known of the loop at each word.
#[derive(Drop)]
pub struct NestFlags {
    /// Whether a loop stands there that has the shape, whatever its inner loops have.
    pub shaped: Vec<bool>,
    /// Whether a loop stands there of at most 256 words, with more than 4 loops in its nest.
    pub crowded: Vec<bool>,
}

// Whether an outermost loop stands at a place that has no cycle but through back edges.
fn is_acyclic_outer(
    program: &Program,
    set: &mut PlaceSet,
    others: &mut PlaceSet,
    place: usize,
) -> Result<bool, AllocError>
    requires program { IsProgram program.now }
    requires within { place < count_of (program_graph program.now) }
    ensures { IfOk result (λ b. IsTrue b
        → IsAcyclic (program_graph program.now) (at (program_graph program.now) place)) }
{
    if !is_outer(program, place) {
        return Ok(false);
    }
    if !find_body(program, set, place)? {
        return Ok(false);
    }
    let acyclic = is_acyclic_at(program, set, others, place)?;
    Ok(acyclic)
}

// At which words outermost loops stand that have no cycle but through back edges.
fn acyclic_flags(
    program: &Program,
    set: &mut PlaceSet,
    others: &mut PlaceSet,
) -> Result<Vec<bool>, AllocError>
    requires program { IsProgram program.now }
    ensures { IfOk result (λ v. AreKnown (program_graph program.now) (IsAcyclic
        (program_graph program.now)) v.items) }
{
    let mut all = Vec::new(set.alloc);
    for place in 0..program.net.at.len() {
        all.push(is_acyclic_outer(program, set, others, place)?)?;
    }
    Ok(all)
}

// Puts the address at a place to others, where a loop stands there.
fn add_header(program: &Program, place: usize, all: &mut Vec<u64>) -> Result<(), AllocError>
    requires program { IsProgram program.now }
    requires within { place < count_of (program_graph program.now) }
    ensures { OnOk result (HasTriedHeader (program_graph program.now)
        (at (program_graph program.now) place) all.old.items all.new.items) }
{
    if !is_header_at(program, place) {
        return Ok(());
    }
    all.push(address_of(&program.net, place))?;
    Ok(())
}

/// The headers of the loops of a nest, from the places of its root's words, unless they are more than 4.
pub fn headers_of(program: &Program, set: &PlaceSet) -> Result<Option<Vec<u64>>, AllocError>
    requires program { IsProgram program.now }
    requires set { IsPlaceSet (count_of (program_graph program.now)) set.now }
    ensures { IfOk result (λ o. (h : ℕ)
        → AreAt (program_graph program.now) (InBody (program_graph program.now) h) set.now.found.items
        → MatchOption o (¬ HasAtMost 4 (InNest (program_graph program.now) h))
        (λ v. HasAll (InNest (program_graph program.now) h) v.items)) }
{
    let mut all = Vec::new(set.alloc);
    for place in set.found.as_slice() {
        if all.len() > LOOPS {
            return Ok(None);
        }
        add_header(program, *place, &mut all)?;
    }
    Ok(Some(all))
}

// Whether a nest has more than 4 loops, from the places of its root's words.
fn is_crowded(program: &Program, set: &PlaceSet) -> Result<bool, AllocError>
    requires program { IsProgram program.now }
    requires set { IsPlaceSet (count_of (program_graph program.now)) set.now }
    ensures { IfOk result (λ b. (h : ℕ)
        → AreAt (program_graph program.now) (InBody (program_graph program.now) h) set.now.found.items
        → IsTrue b → ¬ HasAtMost 4 (InNest (program_graph program.now) h)) }
{
    match headers_of(program, set)? {
        Some(_) => Ok(false),
        None => Ok(true),
    }
}

// Whether the loop at a place has the shape, whatever its inner loops have, and whether it is known that it has
// at most 256 words and its nest more than 4 loops.
fn flags_at(
    program: &Program,
    set: &mut PlaceSet,
    others: &mut PlaceSet,
    acyclic: &[bool],
    place: usize,
) -> Result<(bool, bool), AllocError>
    requires program { IsProgram program.now }
    requires acyclic { AreKnown (program_graph program.now) (IsAcyclic (program_graph program.now)) acyclic.now }
    requires within { place < count_of (program_graph program.now) }
    ensures shaped { IfOk result (λ b. IsTrue b.0
        ↔ IsShaped (program_graph program.now) (at (program_graph program.now) place)) }
    ensures crowded { IfOk result (λ b. IsTrue b.1
        → IsCrowded (program_graph program.now) (at (program_graph program.now) place)) }
{
    if !is_header_at(program, place) {
        return Ok((false, false));
    }
    if !find_body(program, set, place)? {
        return Ok((false, false));
    }
    let crowded = is_crowded(program, set)?;
    let known = is_under(program, acyclic, place);
    match own_shape_at(program, set, others, known, place)? {
        Some(_) => Ok((true, crowded)),
        None => Ok((false, crowded)),
    }
}

/// At which words loops stand that have the shape, whatever their inner loops have, and at which loops of at
/// most 256 words with more than 4 loops in their nests.
pub fn nest_flags(
    program: &Program,
    set: &mut PlaceSet,
    others: &mut PlaceSet,
) -> Result<NestFlags, AllocError>
    requires program { IsProgram program.now }
    ensures { IfOk result (AreNestFlags (program_graph program.now)) }
{
    let acyclic = acyclic_flags(program, set, others)?;
    let mut shaped = Vec::new(set.alloc);
    let mut crowded = Vec::new(set.alloc);
    for place in 0..program.net.at.len() {
        let flags = flags_at(program, set, others, acyclic.as_slice(), place)?;
        shaped.push(flags.0)?;
        crowded.push(flags.1)?;
    }
    Ok(NestFlags { shaped, crowded })
}

// Puts a loop to others, where it lies round another.
fn add_round(
    program: &Program,
    set: &mut PlaceSet,
    x: u64,
    round: u64,
    all: &mut Vec<u64>,
) -> Result<(), AllocError>
    requires program { IsProgram program.now }
    ensures { OnOk result (Gained (λ z. (z ≡ round)
        × ((round ≢ x) × InBody (program_graph program.now) round x)) all.old.items all.new.items) }
{
    if round == x {
        return Ok(());
    }
    let body = body_at(program, set, round)?;
    if !is_among(body.as_slice(), x) {
        return Ok(());
    }
    all.push(round)?;
    Ok(())
}

/// The loops of a nest that lie round one of them, in order.
pub fn round_of(
    program: &Program,
    set: &mut PlaceSet,
    nest: &[u64],
    x: u64,
) -> Result<Vec<u64>, AllocError>
    requires program { IsProgram program.now }
    ensures { IfOk result (λ v. (h : ℕ) → IsListOf (InNest (program_graph program.now) h) nest.now
        → IsListOf (IsRound (program_graph program.now) h x) v.items) }
{
    let mut all = Vec::new(set.alloc);
    for round in nest {
        add_round(program, set, x, *round, &mut all)?;
    }
    Ok(in_order(all))
}

/// Whether a nest is within the limits.
pub fn is_small_nest(
    program: &Program,
    set: &mut PlaceSet,
    nest: &[u64],
) -> Result<bool, AllocError>
    requires program { IsProgram program.now }
    ensures { IfOk result (λ b. (h : ℕ) → IsListOf (InNest (program_graph program.now) h) nest.now
        → IsTrue b ↔ IsSmallNest (program_graph program.now) h) }
{
    if nest.len() > LOOPS {
        return Ok(false);
    }
    for x in nest {
        if round_of(program, set, nest, *x)?.len() > ROUND {
            return Ok(false);
        }
    }
    Ok(true)
}
