ghost use Rattle.std.specs.Prelude.{◌≡◌, ◌↔◌, ◌<◌, ℕ, IfOk, OnOk, IsTrue, MatchOption, length, if◌then◌else◌, Some};
ghost use Rattle.std.specs.Prelude.{slice_index_or, false};
ghost use Rattle.std.specs.List.{Contains};
ghost use Rattle.loop_data.specs.Bodies.{IsHeader};
ghost use Rattle.loop_shapes.specs.Class.{AreClasses};
ghost use Rattle.loop_shapes.specs.Kinds.{HasKind};
ghost use Rattle.loop_shapes.specs.Marks.{AreWordMarks, AreNestFlags, ArePlacesShaped, lesser_of};
ghost use Rattle.loop_shapes.specs.Outer.{AreKnown, IsSound, IsUnsound};
ghost use Rattle.loop_shapes.specs.Net.{IsNet, graph_of};
ghost use Rattle.loop_shapes.specs.Places.{AreFlags, at, count_of};
ghost use Rattle.loop_shapes.specs.Program.{IsProgram, program_graph};
ghost use Rattle.loop_data.specs.Sets.{IsLeast};
ghost use Rattle.loop_data.specs.Shape.{IsShaped};
ghost use Rattle.loop_data.specs.Flows.{IsSet};

use crate::kind::{Class, Kind, classes_of, has_kind_at};
use crate::nest::NestFlags;
use crate::net::Net;
use crate::outer::{is_outer, is_under};
use crate::place_set::PlaceSet;
use crate::program::{Program, find_body, is_header_at};
use loop_data::flow::unset_flags;
use std::alloc::{AllocError, Global};

/// What is known of each word.
#[derive(Drop)]
pub struct Marks {
    /// Whether it calls.
    pub calls: Vec<bool>,
    /// Whether it makes a system call.
    pub asks: Vec<bool>,
    /// Whether it jumps to an address that is not known.
    pub jumps: Vec<bool>,
    /// Whether it stands for no instruction.
    pub nothing: Vec<bool>,
    /// Whether a loop stands there that has not the shape.
    pub unsound: Vec<bool>,
    /// Whether it is known that the loop there is clean: neither its words nor its inner loops decide a verdict.
    pub clean: Vec<bool>,
    /// Whether it is known that the loop there has at most 256 words, and its nest more than 4 loops.
    pub crowded: Vec<bool>,
}

// Which words do this.
fn kind_flags(
    alloc: Global,
    net: &Net,
    classes: &[Class],
    kind: Kind,
) -> Result<Vec<bool>, AllocError>
    requires net { IsNet net.now }
    requires classes { AreClasses (graph_of net.now) classes.now }
    ensures { IfOk result (λ v. AreFlags (graph_of net.now) (HasKind kind (graph_of net.now)) v.items) }
{
    let mut all = Vec::new(alloc);
    for place in 0..net.at.len() {
        all.push(has_kind_at(net, classes, place, kind))?;
    }
    Ok(all)
}

// Whether a loop that has not the shape, whatever its inner loops have, stands at a place.
fn is_unshaped(program: &Program, shaped: &[bool], place: usize) -> bool
    requires program { IsProgram program.now }
    requires flags { AreFlags (program_graph program.now) (IsShaped (program_graph program.now)) shaped.now }
    requires within { place < count_of (program_graph program.now) }
    ensures { IsTrue result ↔ (IsHeader (program_graph program.now) (at (program_graph program.now) place)
        × ¬ IsShaped (program_graph program.now) (at (program_graph program.now) place)) }
{
    if shaped[place] {
        return false;
    }
    is_header_at(program, place)
}

// Whether there is such a loop at a place that is found.
fn has_unshaped(program: &Program, shaped: &[bool], found: &[usize]) -> bool
    requires program { IsProgram program.now }
    requires flags { AreFlags (program_graph program.now) (IsShaped (program_graph program.now)) shaped.now }
    requires each { (i : ℕ) → Contains found.now i → i < count_of (program_graph program.now) }
    ensures { ArePlacesShaped result (program_graph program.now) found.now }
{
    for place in found {
        if is_unshaped(program, shaped, *place) {
            return true;
        }
    }
    false
}

// Whether a loop that has not the shape stands at a place.
fn is_unsound(
    program: &Program,
    shaped: &[bool],
    set: &mut PlaceSet,
    place: usize,
) -> Result<bool, AllocError>
    requires program { IsProgram program.now }
    requires flags { AreFlags (program_graph program.now) (IsShaped (program_graph program.now)) shaped.now }
    requires within { place < count_of (program_graph program.now) }
    ensures { IfOk result (λ b. IsTrue b
        ↔ IsUnsound (program_graph program.now) (at (program_graph program.now) place)) }
{
    if !is_header_at(program, place) {
        return Ok(false);
    }
    if !shaped[place] {
        return Ok(true);
    }
    if !find_body(program, set, place)? {
        return Ok(true);
    }
    Ok(has_unshaped(program, shaped, &set.found))
}

// Whether an outermost loop stands at a place that has the shape.
fn is_sound_outer(
    program: &Program,
    shaped: &[bool],
    set: &mut PlaceSet,
    place: usize,
) -> Result<bool, AllocError>
    requires program { IsProgram program.now }
    requires flags { AreFlags (program_graph program.now) (IsShaped (program_graph program.now)) shaped.now }
    requires within { place < count_of (program_graph program.now) }
    ensures { IfOk result (λ b. IsTrue b
        → ¬ IsUnsound (program_graph program.now) (at (program_graph program.now) place)) }
{
    if !is_outer(program, place) {
        return Ok(false);
    }
    if is_unsound(program, shaped, set, place)? {
        return Ok(false);
    }
    Ok(true)
}

// At which words outermost loops stand that have the shape.
fn sound_flags(
    program: &Program,
    shaped: &[bool],
    set: &mut PlaceSet,
) -> Result<Vec<bool>, AllocError>
    requires program { IsProgram program.now }
    requires flags { AreFlags (program_graph program.now) (IsShaped (program_graph program.now)) shaped.now }
    ensures { IfOk result (λ v. AreKnown (program_graph program.now) (IsSound (program_graph program.now)) v.items) }
{
    let mut all = Vec::new(set.alloc);
    for place in 0..program.net.at.len() {
        all.push(is_sound_outer(program, shaped, set, place)?)?;
    }
    Ok(all)
}

// Whether a loop that has not the shape stands at a place; where an outermost loop that has it lies round the
// place, none does.
fn is_unsound_in(
    program: &Program,
    shaped: &[bool],
    sound: &[bool],
    set: &mut PlaceSet,
    place: usize,
) -> Result<bool, AllocError>
    requires program { IsProgram program.now }
    requires flags { AreFlags (program_graph program.now) (IsShaped (program_graph program.now)) shaped.now }
    requires sound { AreKnown (program_graph program.now) (IsSound (program_graph program.now)) sound.now }
    requires within { place < count_of (program_graph program.now) }
    ensures { IfOk result (λ b. IsTrue b
        ↔ IsUnsound (program_graph program.now) (at (program_graph program.now) place)) }
{
    if is_under(program, sound, place) {
        return Ok(false);
    }
    is_unsound(program, shaped, set, place)
}

// At which words loops stand that have not the shape.
fn unsound_flags(
    program: &Program,
    shaped: &[bool],
    set: &mut PlaceSet,
) -> Result<Vec<bool>, AllocError>
    requires program { IsProgram program.now }
    requires flags { AreFlags (program_graph program.now) (IsShaped (program_graph program.now)) shaped.now }
    ensures { IfOk result (λ v. AreFlags (program_graph program.now) (IsUnsound (program_graph program.now)) v.items) }
{
    let sound = sound_flags(program, shaped, set)?;
    let mut all = Vec::new(set.alloc);
    for place in 0..program.net.at.len() {
        all.push(is_unsound_in(program, shaped, sound.as_slice(), set, place)?)?;
    }
    Ok(all)
}

/// What is known of each word, from the loops that have the shape, whatever their inner loops have, and from
/// crowded nests; it is not known yet which loops are clean.
pub fn marks_of(
    program: &Program,
    flags: NestFlags,
    set: &mut PlaceSet,
) -> Result<Marks, AllocError>
    requires program { IsProgram program.now }
    requires flags { AreNestFlags (program_graph program.now) flags }
    ensures { IfOk result (AreWordMarks (program_graph program.now)) }
{
    let net = &program.net;
    let classes = classes_of(set.alloc, net)?;
    let classes = classes.as_slice();
    Ok(Marks {
        calls: kind_flags(set.alloc, net, classes, Kind::Calls)?,
        asks: kind_flags(set.alloc, net, classes, Kind::Asks)?,
        jumps: kind_flags(set.alloc, net, classes, Kind::JumpsAnywhere)?,
        nothing: kind_flags(set.alloc, net, classes, Kind::IsNothing)?,
        unsound: unsound_flags(program, flags.shaped.as_slice(), set)?,
        clean: unset_flags(set.alloc, net.at.len())?,
        crowded: flags.crowded,
    })
}

// The lesser of two places, where there are two.
fn lesser(least: Option<usize>, place: usize) -> usize
    ensures { result ≡ lesser_of least place }
{
    match least {
        None => place,
        Some(other) => other.min(place),
    }
}

// The least place so far, with one more where it is flagged.
fn with_place(flags: &[bool], least: Option<usize>, place: usize) -> Option<usize>
    requires { place < length flags.now }
    ensures { result ≡ (if slice_index_or flags.now place false then Some (lesser_of least place) else least) }
{
    if flags[place] {
        return Some(lesser(least, place));
    }
    least
}

/// The least place found that is flagged.
pub fn least_flagged(found: &[usize], flags: &[bool]) -> Option<usize>
    requires { (i : ℕ) → Contains found.now i → i < length flags.now }
    ensures { MatchOption result ((i : ℕ) → Contains found.now i → ¬ IsSet flags.now i)
        (IsLeast (λ i. Contains found.now i × IsSet flags.now i)) }
{
    let mut least = None;
    for place in found {
        least = with_place(flags, least, *place);
    }
    least
}
