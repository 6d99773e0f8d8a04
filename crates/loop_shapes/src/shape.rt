ghost use Rattle.std.specs.Prelude.{◌≡◌, ◌↔◌, ◌<◌, ◌≤◌, ℕ, IfOk, OnOk, MatchOption, IsTrue, length};
ghost use Rattle.std.specs.List.{Contains};
ghost use Rattle.loop_data.specs.Bodies.{IsClosed, InBody};
ghost use Rattle.loop_data.specs.Shape.{IsExitBranch, IsOneExit, IsShaped, IsSide};
ghost use Rattle.loop_shapes.specs.LoopBody.{IsLoopBody, IsLeftOnlyFrom, HasOwnShapeAt, body_graph, header_of};
ghost use Rattle.loop_shapes.specs.Net.{AreAt};
ghost use Rattle.loop_shapes.specs.Outer.{IsAcyclic};
ghost use Rattle.loop_shapes.specs.PlaceSet.{IsPlaceSet};
ghost use Rattle.loop_shapes.specs.Places.{at, count_of};
ghost use Rattle.loop_shapes.specs.Program.{IsProgram, program_graph};

use crate::cycles::is_acyclic;
use crate::exits::{back_of, exit_of, is_outermost, is_passed, stays};
use crate::kind::{Kind, has_kind};
use crate::loop_body::LoopBody;
use crate::net::address_of;
use crate::place_set::PlaceSet;
use crate::program::Program;
use std::alloc::AllocError;

// Whether a loop may be left at a word, by the shape.
fn is_exit_branch(
    body: &LoopBody,
    others: &mut PlaceSet,
    back: usize,
    exit: usize,
) -> Result<bool, AllocError>
    requires body { IsLoopBody body.now }
    requires back { back < count_of (body_graph body.now) }
    requires closed { IsClosed (body_graph body.now) (header_of body.now) (at (body_graph body.now) back) }
    requires among { Contains body.now.places.now exit }
    ensures branch { IfOk result (λ b. IsTrue b
        ↔ IsExitBranch (body_graph body.now) (header_of body.now) (at (body_graph body.now) back)
        (at (body_graph body.now) exit)) }
    ensures one { IsLeftOnlyFrom (body_graph body.now) (header_of body.now) (at (body_graph body.now) exit)
        → IsSide (body_graph body.now) (header_of body.now) (at (body_graph body.now) exit)
        → (to : ℕ) × IsOneExit (body_graph body.now) (header_of body.now) (at (body_graph body.now) exit, to) }
{
    if !stays(body, exit) {
        return Ok(false);
    }
    if !is_outermost(body, exit) {
        return Ok(false);
    }
    if !has_kind(
        &body.program.net,
        address_of(&body.program.net, exit),
        Kind::Branches,
    ) {
        return Ok(false);
    }
    if !is_passed(body, others, back, exit)? {
        return Ok(false);
    }
    is_acyclic(body, others)
}

// The places of the source of the back edge and of the exit branch of a loop that has the shape, whatever
// its inner loops have.
fn own_shape(body: &LoopBody, others: &mut PlaceSet) -> Result<Option<(usize, usize)>, AllocError>
    requires body { IsLoopBody body.now }
    ensures { IfOk result (λ o. MatchOption o (¬ IsShaped (body_graph body.now) (header_of body.now))
        (HasOwnShapeAt (body_graph body.now) (header_of body.now))) }
{
    let Some(back) = back_of(body.program, body.header) else {
        return Ok(None);
    };
    let Some(exit) = exit_of(body) else {
        return Ok(None);
    };
    if !is_exit_branch(body, others, back, exit)? {
        return Ok(None);
    }
    Ok(Some((back, exit)))
}

/// The places of the source of the back edge and of the exit branch of the loop at a place, where it has the
/// shape, whatever its inner loops have; from the places of its words, and whether it is known that it has no
/// cycle but through back edges.
pub fn own_shape_at(
    program: &Program,
    set: &PlaceSet,
    others: &mut PlaceSet,
    acyclic: bool,
    header: usize,
) -> Result<Option<(usize, usize)>, AllocError>
    requires program { IsProgram program.now }
    requires set { IsPlaceSet (count_of (program_graph program.now)) set.now }
    requires short { length set.now.found.items ≤ 256 }
    requires header { header < count_of (program_graph program.now) }
    requires words { AreAt (program_graph program.now)
        (InBody (program_graph program.now) (at (program_graph program.now) header)) set.now.found.items }
    requires known { IsTrue acyclic → IsAcyclic (program_graph program.now) (at (program_graph program.now) header) }
    ensures { IfOk result (λ o. MatchOption o
        (¬ IsShaped (program_graph program.now) (at (program_graph program.now) header))
        (HasOwnShapeAt (program_graph program.now) (at (program_graph program.now) header))) }
{
    let body = LoopBody {
        program,
        header,
        places: set.found.as_slice(),
        slots: set.slots.as_slice(),
        acyclic,
    };
    own_shape(&body, others)
}

/// Whether the loop at a place has no cycle but through back edges, from the places of its words.
pub fn is_acyclic_at(
    program: &Program,
    set: &PlaceSet,
    others: &mut PlaceSet,
    header: usize,
) -> Result<bool, AllocError>
    requires program { IsProgram program.now }
    requires set { IsPlaceSet (count_of (program_graph program.now)) set.now }
    requires short { length set.now.found.items ≤ 256 }
    requires header { header < count_of (program_graph program.now) }
    requires words { AreAt (program_graph program.now)
        (InBody (program_graph program.now) (at (program_graph program.now) header)) set.now.found.items }
    ensures { IfOk result (λ b. IsTrue b
        ↔ IsAcyclic (program_graph program.now) (at (program_graph program.now) header)) }
{
    let body = LoopBody {
        program,
        header,
        places: set.found.as_slice(),
        slots: set.slots.as_slice(),
        acyclic: false,
    };
    is_acyclic(&body, others)
}
