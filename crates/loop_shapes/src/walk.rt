ghost use Rattle.std.specs.Prelude.{◌≡◌, ◌<◌, ◌≤◌, ◌+◌, ℕ, Some, IfOk, OnOk, length};
ghost use Rattle.std.specs.List.{Contains};
ghost use Rattle.strong_components.specs.Graph.{LeadsInside};
ghost use Rattle.loop_shapes.specs.PlaceSet.{IsPlaceSet};
ghost use Rattle.loop_shapes.specs.Walk.{AreBelow, IsWalk, turns_left};

use crate::place_set::PlaceSet;
use std::alloc::{AllocError, Global};
use strong_components::Successors;

/// A walk in depth over the words of a program, by their places.
#[derive(Drop)]
pub struct Walk {
    /// The words to go to or to leave, the next one last.
    pub stack: Vec<usize>,
    /// The words that were entered.
    pub entered: PlaceSet,
    /// The words that were left, in this order.
    pub left: PlaceSet,
}

// Puts the word to which a step leads on the stack, where it was not entered.
fn push_step(
    stack: &mut Vec<usize>,
    entered: &PlaceSet,
    target: Option<u32>,
) -> Result<(), AllocError>
    requires entered { IsPlaceSet (length entered.now.slots.items) entered.now }
    requires within { (b : ℕ) → target ≡ Some b → b < length entered.now.slots.items }
    requires stack { AreBelow (length entered.now.slots.items) stack.old.items }
    ensures stack { OnOk result (AreBelow (length entered.now.slots.items) stack.new.items) }
    ensures count { OnOk result (length stack.new.items ≤ length stack.old.items + 1) }
{
    match target {
        Some(node) => {
            if entered.has(node as usize) {
                return Ok(());
            }
            stack.push(node as usize)?;
            Ok(())
        }
        None => Ok(()),
    }
}

// Enters a word, and puts the words to which it leads on the stack.
fn enter(walk: &mut Walk, steps: &[Successors], place: usize) -> Result<(), AllocError>
    requires steps { LeadsInside steps.now }
    requires within { place < length steps.now }
    requires walk { IsWalk (length steps.now) walk.old }
    requires absent { ¬ Contains walk.old.entered.found.items place }
    ensures walk { OnOk result (IsWalk (length steps.now) walk.new) }
    ensures fewer { OnOk result (turns_left (length steps.now) walk.new < turns_left (length steps.now) walk.old) }
{
    walk.entered.add(place)?;
    let node = steps[place];
    push_step(&mut walk.stack, &walk.entered, node.first)?;
    push_step(&mut walk.stack, &walk.entered, node.second)
}

// Takes a word from the stack, and leaves it where that was not done before.
fn leave(walk: &mut Walk, count: usize, place: usize) -> Result<(), AllocError>
    requires within { place < count }
    requires walk { IsWalk count walk.old }
    requires some { 0 < length walk.old.stack.items }
    ensures walk { OnOk result (IsWalk count walk.new) }
    ensures fewer { OnOk result (turns_left count walk.new < turns_left count walk.old) }
{
    walk.stack.pop();
    if walk.left.has(place) {
        return Ok(());
    }
    walk.left.add(place)
}

// Enters the last word on the stack, or leaves it where it was entered before.
fn turn(walk: &mut Walk, steps: &[Successors], place: usize) -> Result<(), AllocError>
    requires steps { LeadsInside steps.now }
    requires within { place < length steps.now }
    requires walk { IsWalk (length steps.now) walk.old }
    requires some { 0 < length walk.old.stack.items }
    ensures walk { OnOk result (IsWalk (length steps.now) walk.new) }
    ensures fewer { OnOk result (turns_left (length steps.now) walk.new < turns_left (length steps.now) walk.old) }
{
    if walk.entered.has(place) {
        return leave(walk, steps.len(), place);
    }
    enter(walk, steps, place)
}

// Puts a place to others, where a start word stands there.
fn add_start(all: &mut Vec<usize>, starts: &[bool], place: usize) -> Result<(), AllocError>
    requires within { place < length starts.now }
    requires below { AreBelow (length starts.now) all.old.items }
    ensures { OnOk result (AreBelow (length starts.now) all.new.items) }
{
    if !starts[place] {
        return Ok(());
    }
    all.push(place)?;
    Ok(())
}

// The places of the start words.
fn start_places(alloc: Global, starts: &[bool]) -> Result<Vec<usize>, AllocError>
    ensures { IfOk result (λ v. AreBelow (length starts.now) v.items) }
{
    let mut all = Vec::new(alloc);
    for place in 0..starts.len() {
        add_start(&mut all, starts, place)?;
    }
    Ok(all)
}

/// The places of words, in the order in which a walk in depth from the start words leaves them.
pub fn left_in_order(
    alloc: Global,
    starts: &[bool],
    steps: &[Successors],
) -> Result<Vec<usize>, AllocError>
    requires steps { LeadsInside steps.now }
    requires count { length starts.now ≡ length steps.now }
    ensures { IfOk result (λ v. AreBelow (length steps.now) v.items) }
{
    let stack = start_places(alloc, starts)?;
    let mut entered = PlaceSet::new(alloc);
    entered.clear(steps.len())?;
    let mut left = PlaceSet::new(alloc);
    left.clear(steps.len())?;
    let mut walk = Walk {
        stack,
        entered,
        left,
    };
    while let Some(place) = walk.stack.last().copied() {
        turn(&mut walk, steps, place)?;
    }
    let left = walk.left;
    Ok(left.found)
}
