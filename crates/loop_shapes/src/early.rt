ghost use Rattle.std.specs.Prelude.{◌≡◌, ◌<◌, ◌≤◌, ℕ, IfOk, IsTrue, MatchOption, length, Some};
ghost use Rattle.std.specs.List.{Contains};
ghost use Rattle.loop_data.specs.Bodies.{InBody, IsHeader};
ghost use Rattle.loop_data.specs.Early.{IsMisshapen, IsPlain, IsShort, IsSmallNest, IsEarly};
ghost use Rattle.loop_shapes.specs.Marks.{AreWordMarks, IsFirst};
ghost use Rattle.loop_shapes.specs.Net.{IsNet, AreAt, graph_of};
ghost use Rattle.loop_shapes.specs.Outer.{AreKnown, IsClean};
ghost use Rattle.loop_shapes.specs.Places.{at, count_of};
ghost use Rattle.loop_shapes.specs.Program.{IsProgram, program_graph};

use crate::marks::{Marks, least_flagged};
use crate::net::{Net, address_of};
use crate::outer::{is_outer, is_under};
use crate::place_set::PlaceSet;
use crate::program::{Program, find_body};
use loop_data::Verdict;
use std::alloc::{AllocError, Global};

// The address of the least place found that is flagged.
fn first_flagged(net: &Net, found: &[usize], flags: &[bool]) -> Option<u64>
    requires net { IsNet net.now }
    requires each { (i : ℕ) → Contains found.now i → i < count_of (graph_of net.now) }
    requires count { length flags.now ≡ count_of (graph_of net.now) }
    ensures { IsFirst (graph_of net.now) found.now flags.now result }
{
    match least_flagged(found, flags) {
        Some(place) => Some(address_of(net, place)),
        None => None,
    }
}

/// The verdict on the words and the inner loops of a short body, from the places of its words, and whether
/// it is known that there is none.
pub fn early_verdict(
    net: &Net,
    marks: &Marks,
    found: &[usize],
    header: u64,
    clean: bool,
) -> Option<Verdict>
    requires net { IsNet net.now }
    requires marks { AreWordMarks (graph_of net.now) marks.now }
    requires body { AreAt (graph_of net.now) (InBody (graph_of net.now) header) found.now }
    requires short { length found.now ≤ 256 }
    requires clean { IsTrue clean → IsClean (graph_of net.now) header }
    ensures { MatchOption result (IsPlain (graph_of net.now) header
        × ((k : ℕ) → ¬ IsMisshapen (graph_of net.now) header k))
        (λ v. IsEarly (graph_of net.now) header (Some v)) }
{
    if clean {
        return None;
    }
    if let Some(at) = first_flagged(net, found, marks.calls.as_slice()) {
        return Some(Verdict::Call { at });
    }
    if let Some(at) = first_flagged(net, found, marks.asks.as_slice()) {
        return Some(Verdict::System { at });
    }
    if let Some(at) = first_flagged(net, found, marks.jumps.as_slice()) {
        return Some(Verdict::Indirect { at });
    }
    if let Some(at) = first_flagged(net, found, marks.nothing.as_slice()) {
        return Some(Verdict::Unsupported { at });
    }
    if let Some(at) = first_flagged(net, found, marks.unsound.as_slice()) {
        return Some(Verdict::Shape { at });
    }
    None
}

/// Whether it is known that neither the words nor the inner loops of the loop at a place decide a verdict.
pub fn is_clean(program: &Program, marks: &Marks, place: usize) -> bool
    requires program { IsProgram program.now }
    requires marks { AreWordMarks (program_graph program.now) marks.now }
    requires within { place < count_of (program_graph program.now) }
    ensures { IsTrue result → IsHeader (program_graph program.now) (at (program_graph program.now) place)
        → IsShort (program_graph program.now) (at (program_graph program.now) place)
        → IsClean (program_graph program.now) (at (program_graph program.now) place) }
{
    is_under(program, marks.clean.as_slice(), place)
}

/// Whether it is known that only the number of loops in its nest decides the verdict on the loop at a place.
pub fn is_past_limits(program: &Program, marks: &Marks, place: usize) -> bool
    requires program { IsProgram program.now }
    requires marks { AreWordMarks (program_graph program.now) marks.now }
    requires within { place < count_of (program_graph program.now) }
    requires header { IsHeader (program_graph program.now) (at (program_graph program.now) place) }
    ensures clean { IsTrue result → IsClean (program_graph program.now) (at (program_graph program.now) place) }
    ensures many { IsTrue result → ¬ IsSmallNest (program_graph program.now) (at (program_graph program.now) place) }
{
    if !marks.crowded[place] {
        return false;
    }
    is_clean(program, marks, place)
}

// Whether an outermost loop stands at a place, and neither its words nor its inner loops decide a verdict.
fn is_clean_outer(
    program: &Program,
    marks: &Marks,
    set: &mut PlaceSet,
    place: usize,
) -> Result<bool, AllocError>
    requires program { IsProgram program.now }
    requires marks { AreWordMarks (program_graph program.now) marks.now }
    requires within { place < count_of (program_graph program.now) }
    ensures { IfOk result (λ b. IsTrue b → IsClean (program_graph program.now) (at (program_graph program.now) place)) }
{
    if !is_outer(program, place) {
        return Ok(false);
    }
    if !find_body(program, set, place)? {
        return Ok(false);
    }
    let header = address_of(&program.net, place);
    match early_verdict(&program.net, marks, &set.found, header, false) {
        Some(_) => Ok(false),
        None => Ok(true),
    }
}

/// At which outermost loops neither words nor inner loops decide a verdict.
pub fn clean_flags(
    program: &Program,
    marks: &Marks,
    set: &mut PlaceSet,
) -> Result<Vec<bool>, AllocError>
    requires program { IsProgram program.now }
    requires marks { AreWordMarks (program_graph program.now) marks.now }
    ensures { IfOk result (λ v. AreKnown (program_graph program.now) (IsClean (program_graph program.now)) v.items) }
{
    let mut all = Vec::new(set.alloc);
    for place in 0..program.net.at.len() {
        all.push(is_clean_outer(program, marks, set, place)?)?;
    }
    Ok(all)
}

/// The marks with the outermost loops at which neither words nor inner loops decide a verdict.
pub fn with_clean(
    program: &Program,
    mut marks: Marks,
    set: &mut PlaceSet,
) -> Result<Marks, AllocError>
    requires program { IsProgram program.now }
    requires marks { AreWordMarks (program_graph program.now) marks }
    ensures { IfOk result (AreWordMarks (program_graph program.now)) }
{
    let clean = clean_flags(program, &marks, set)?;
    marks.clean = clean;
    Ok(marks)
}
