ghost use Rattle.std.specs.Prelude.{◌≡◌, ◌↔◌, ◌<◌, ◌≤◌, ◌+◌, ℕ, IfOk, IfSome, IfNone, IsTrue, OnOk, length};
ghost use Rattle.std.specs.Prelude.{slice_index};
ghost use Rattle.std.specs.List.{Contains};
ghost use Rattle.loop_data.specs.Bodies.{IsClosed, InBody, ReachesPast};
ghost use Rattle.loop_data.specs.Shape.{IsOneBack, IsOneExit, IsSide, IsInner};
ghost use Rattle.loop_shapes.specs.LoopBody.{IsLoopBody, IsLeftFrom, IsLeftOnlyFrom, body_graph, header_of};
ghost use Rattle.loop_shapes.specs.PlaceSet.{IsPlaceSet};
ghost use Rattle.loop_shapes.specs.Places.{at, count_of};
ghost use Rattle.loop_shapes.specs.Program.{IsProgram, program_graph};

use crate::closed::part;
use crate::edges::only_place;
use crate::loop_body::LoopBody;
use crate::numbers::word_steps;
use crate::place_set::PlaceSet;
use crate::program::{Program, sources_of};
use std::alloc::AllocError;

/// The place of the word from which the only closed edge to a word leads.
pub fn back_of(program: &Program, header: usize) -> Option<usize>
    requires program { IsProgram program.now }
    requires within { header < count_of (program_graph program.now) }
    ensures within { IfSome result (λ u. u < count_of (program_graph program.now)) }
    ensures some { IfSome result (λ u. IsOneBack (program_graph program.now) (at (program_graph program.now) header)
        (at (program_graph program.now) u)) }
    ensures none { IfNone result ((u : ℕ)
        → ¬ IsOneBack (program_graph program.now) (at (program_graph program.now) header) u) }
{
    let Some(source) = only_place(sources_of(program, header)) else {
        return None;
    };
    Some(source)
}

// Whether an edge leaves a loop from the word at a place.
fn leaves(body: &LoopBody, place: usize) -> bool
    requires body { IsLoopBody body.now }
    requires among { Contains body.now.places.now place }
    ensures { IsTrue result ↔ IsLeftFrom (body_graph body.now) (header_of body.now) (at (body_graph body.now) place) }
{
    if body.program.astray[place] {
        return true;
    }
    let node = body.program.next[place];
    if body.leads_out(node.first) {
        return true;
    }
    body.leads_out(node.second)
}

// Where among a loop's places the first from `from` on stands from which an edge leaves it, or their number.
fn next_exit(body: &LoopBody, from: usize) -> usize
    requires body { IsLoopBody body.now }
    requires from { from ≤ length body.now.places.now }
    ensures from { from ≤ result }
    ensures within { result ≤ length body.now.places.now }
    ensures left { result < length body.now.places.now
        → IsLeftFrom (body_graph body.now) (header_of body.now)
        (at (body_graph body.now) (slice_index body.now.places.now result)) }
    ensures none { (k : ℕ) → from ≤ k → k < result
        → ¬ IsLeftFrom (body_graph body.now) (header_of body.now)
        (at (body_graph body.now) (slice_index body.now.places.now k)) }
{
    let mut i = from;
    while i < body.places.len() {
        if leaves(body, body.places[i]) {
            return i;
        }
        i += 1;
    }
    i
}

/// The place of the only word from which edges leave a loop.
pub fn exit_of(body: &LoopBody) -> Option<usize>
    requires { IsLoopBody body.now }
    ensures among { IfSome result (Contains body.now.places.now) }
    ensures some { IfSome result (λ e. IsLeftOnlyFrom (body_graph body.now) (header_of body.now)
        (at (body_graph body.now) e)) }
    ensures none { IfNone result ((x : ℕ) → ¬ IsLeftOnlyFrom (body_graph body.now) (header_of body.now) x) }
{
    let first = next_exit(body, 0);
    if first == body.places.len() {
        return None;
    }
    if next_exit(body, first + 1) < body.places.len() {
        return None;
    }
    Some(body.places[first])
}

/// Whether a step from a word stays in a loop. One edge at most leaves it from that word then.
pub fn stays(body: &LoopBody, exit: usize) -> bool
    requires body { IsLoopBody body.now }
    requires among { Contains body.now.places.now exit }
    ensures stays { IsTrue result ↔ IsSide (body_graph body.now) (header_of body.now) (at (body_graph body.now) exit) }
    ensures one { IsLeftOnlyFrom (body_graph body.now) (header_of body.now) (at (body_graph body.now) exit)
        → IsSide (body_graph body.now) (header_of body.now) (at (body_graph body.now) exit)
        → (to : ℕ) × IsOneExit (body_graph body.now) (header_of body.now) (at (body_graph body.now) exit, to) }
{
    let _steps = word_steps(&body.program.net, exit);
    let node = body.program.next[exit];
    if body.leads_in(node.first) {
        return true;
    }
    body.leads_in(node.second)
}

/// Whether a word of a loop lies in none of its inner loops.
pub fn is_outermost(body: &LoopBody, exit: usize) -> bool
    requires body { IsLoopBody body.now }
    requires among { Contains body.now.places.now exit }
    ensures { IsTrue result ↔ ((k : ℕ) → IsInner (body_graph body.now) (header_of body.now) k
        → ¬ InBody (body_graph body.now) k (at (body_graph body.now) exit)) }
{
    match body.program.around.innermost[exit] {
        Some(inner) => inner == body.header,
        None => false,
    }
}

/// Whether a word of a loop lies on every way from its header to its back edge: whether the header is not
/// found where one searches backwards from that edge and does not pass the word.
pub fn is_passed(
    body: &LoopBody,
    others: &mut PlaceSet,
    back: usize,
    exit: usize,
) -> Result<bool, AllocError>
    requires body { IsLoopBody body.now }
    requires back { back < count_of (body_graph body.now) }
    requires closed { IsClosed (body_graph body.now) (header_of body.now) (at (body_graph body.now) back) }
    requires among { Contains body.now.places.now exit }
    ensures { IfOk result (λ b. IsTrue b
        ↔ (¬ ReachesPast (body_graph body.now) (at (body_graph body.now) exit) (header_of body.now)
        (at (body_graph body.now) back))) }
{
    if exit == body.header {
        return Ok(true);
    }
    if !part(&body.program.net, others, exit, back)? {
        return Ok(false);
    }
    Ok(!others.has(body.header))
}
