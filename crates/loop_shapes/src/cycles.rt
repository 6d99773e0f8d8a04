ghost use Rattle.std.specs.Prelude.{◌≡◌, ◌↔◌, ◌<◌, ℕ, Some, IfOk, OnOk, IsTrue, length};
ghost use Rattle.std.specs.List.{Contains};
ghost use Rattle.loop_shapes.specs.Cycles.{HasGone};
ghost use Rattle.loop_shapes.specs.LoopBody.{IsLoopBody, LeadsOn, LeadsOnFrom, body_graph, header_of};
ghost use Rattle.loop_shapes.specs.Outer.{IsAcyclic};
ghost use Rattle.loop_shapes.specs.PlaceSet.{IsPlaceSet};
ghost use Rattle.loop_shapes.specs.Places.{count_of};

use crate::loop_body::LoopBody;
use crate::place_set::PlaceSet;
use loop_data::flow;
use std::alloc::AllocError;

// Whether the word at a place is in a loop and not gone.
fn is_left(body: &LoopBody, gone: &PlaceSet, place: usize) -> bool
    requires body { IsLoopBody body.now }
    requires gone { IsPlaceSet (count_of (body_graph body.now)) gone.now }
    requires within { place < count_of (body_graph body.now) }
    ensures { IsTrue result ↔ (Contains body.now.places.now place × ¬ Contains gone.now.found.items place) }
{
    if !body.has(place) {
        return false;
    }
    !gone.has(place)
}

// Whether a step leads to a word of a loop that is not gone.
fn is_step_on(body: &LoopBody, gone: &PlaceSet, target: Option<u32>) -> bool
    requires body { IsLoopBody body.now }
    requires gone { IsPlaceSet (count_of (body_graph body.now)) gone.now }
    requires within { (b : ℕ) → target ≡ Some b → b < count_of (body_graph body.now) }
    ensures { IsTrue result ↔ LeadsOn body.now.places.now gone.now.found.items target }
{
    match target {
        Some(node) => is_left(body, gone, node as usize),
        None => false,
    }
}

// Whether an edge that is not closed leads from a word to one of a loop that is not gone.
fn leads_on(body: &LoopBody, gone: &PlaceSet, place: usize) -> bool
    requires body { IsLoopBody body.now }
    requires gone { IsPlaceSet (count_of (body_graph body.now)) gone.now }
    requires within { place < count_of (body_graph body.now) }
    ensures { IsTrue result
        ↔ LeadsOnFrom body.now.program.now.open_next.items body.now.places.now gone.now.found.items place }
{
    let node = body.program.open_next[place];
    if is_step_on(body, gone, node.first) {
        return true;
    }
    is_step_on(body, gone, node.second)
}

// Takes a word of a loop out, where it is not gone and no such edge leads on from it.
fn take_out(body: &LoopBody, gone: &mut PlaceSet, place: usize) -> Result<(), AllocError>
    requires body { IsLoopBody body.now }
    requires gone { IsPlaceSet (count_of (body_graph body.now)) gone.old }
    requires within { place < count_of (body_graph body.now) }
    ensures gone { OnOk result (IsPlaceSet (count_of (body_graph body.now)) gone.new) }
    ensures more { OnOk result (HasGone body.now.program.now.open_next.items body.now.places.now
        (λ i. i ≡ place) gone.old.found.items gone.new.found.items) }
{
    if !is_left(body, gone, place) {
        return Ok(());
    }
    if leads_on(body, gone, place) {
        return Ok(());
    }
    gone.add(place)?;
    Ok(())
}

// Takes those of these words out.
fn take_out_all(body: &LoopBody, gone: &mut PlaceSet, places: &[usize]) -> Result<(), AllocError>
    requires body { IsLoopBody body.now }
    requires gone { IsPlaceSet (count_of (body_graph body.now)) gone.old }
    requires within { (i : ℕ) → Contains places.now i → i < count_of (body_graph body.now) }
    ensures gone { OnOk result (IsPlaceSet (count_of (body_graph body.now)) gone.new) }
    ensures more { OnOk result (HasGone body.now.program.now.open_next.items body.now.places.now
        (Contains places.now) gone.old.found.items gone.new.found.items) }
{
    for place in places {
        take_out(body, gone, *place)?;
    }
    Ok(())
}

/// Whether a loop has no cycle but through back edges. Words from which no other edge leads on are taken
/// out, then those that lead to them, and so on; words of a cycle are left.
pub fn is_acyclic(body: &LoopBody, gone: &mut PlaceSet) -> Result<bool, AllocError>
    requires { IsLoopBody body.now }
    ensures { IfOk result (λ b. IsTrue b ↔ IsAcyclic (body_graph body.now) (header_of body.now)) }
{
    if body.acyclic {
        return Ok(true);
    }
    gone.clear(body.slots.len())?;
    take_out_all(body, gone, body.places)?;
    let mut next = 0;
    while next < gone.found.len() {
        if gone.found.len() == body.places.len() {
            return Ok(true);
        }
        let at = gone.found[next];
        take_out_all(
            body,
            gone,
            flow::row(body.program.net.before.as_slice(), at),
        )?;
        next += 1;
    }
    Ok(gone.found.len() == body.places.len())
}
