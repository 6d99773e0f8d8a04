ghost use Rattle.std.specs.Prelude.{◌≡◌, ◌↔◌, ◌<◌, ◌≤◌, ◌^◌, ℕ, IfOk, IfSome, IfNone, IsTrue, length, slice_index};
ghost use Rattle.std.specs.List.{Contains};
ghost use Rattle.loop_shapes.specs.Astray.{LeadsAstray};
ghost use Rattle.loop_shapes.specs.Net.{IsNet, graph_of};
ghost use Rattle.loop_shapes.specs.Numbers.{AreNodes, AreNumbers};
ghost use Rattle.loop_data.specs.Paths.{IsWord, Leads};
ghost use Rattle.loop_shapes.specs.Places.{AreFlags, at, count_of};
ghost use Rattle.strong_components.specs.Graph.{LeadsTo};

use crate::net::{Net, find_near};
use std::alloc::{AllocError, Global};
use strong_components::{Successors, components};

/// Where the step edges of the word at a place lead.
pub fn word_steps<'a>(net: &'a Net, place: usize) -> &'a [u64]
    requires net { IsNet net.now }
    requires within { place < count_of (graph_of net.now) }
    ensures steps { (y : ℕ) → Contains result.now y ↔ Leads (graph_of net.now) (at (graph_of net.now) place) y }
    ensures few { length result.now ≤ 2 }
{
    net.graph.words.as_slice()[place].steps.as_slice()
}

// The place to which one of the steps of the word at a place leads.
fn step_at(net: &Net, place: usize, steps: &[u64], k: usize) -> Option<u32>
    requires net { IsNet net.now }
    requires few { count_of (graph_of net.now) < 2 ^ 32 }
    ensures some { IfSome result (λ j. (j < count_of (graph_of net.now)) × (k < length steps.now)
        × (at (graph_of net.now) j ≡ slice_index steps.now k)) }
    ensures none { IfNone result (k < length steps.now → ¬ IsWord (graph_of net.now) (slice_index steps.now k)) }
{
    if k >= steps.len() {
        return None;
    }
    match find_near(net, place, steps[k]) {
        Some(j) => Some(j as u32),
        None => None,
    }
}

// The words to which the step edges of the word at a place lead.
fn successors_at(net: &Net, place: usize) -> Successors
    requires net { IsNet net.now }
    requires few { count_of (graph_of net.now) < 2 ^ 32 }
    requires within { place < count_of (graph_of net.now) }
    ensures { (j : ℕ) → LeadsTo result j
        ↔ ((j < count_of (graph_of net.now))
        × Leads (graph_of net.now) (at (graph_of net.now) place) (at (graph_of net.now) j)) }
{
    let steps = word_steps(net, place);
    Successors {
        first: step_at(net, place, steps, 0),
        second: step_at(net, place, steps, 1),
    }
}

/// The graph of the step edges between words.
pub fn nodes(alloc: Global, net: &Net) -> Result<Vec<Successors>, AllocError>
    requires net { IsNet net.now }
    requires few { count_of (graph_of net.now) < 2 ^ 32 }
    ensures { IfOk result (λ v. AreNodes (graph_of net.now) v.items) }
{
    let mut all = Vec::new(alloc);
    for place in 0..net.at.len() {
        all.push(successors_at(net, place))?;
    }
    Ok(all)
}

// Whether a word stands at an address, near to the word at a place.
fn is_word(net: &Net, near: usize, x: u64) -> bool
    requires { IsNet net.now }
    ensures { IsTrue result ↔ IsWord (graph_of net.now) x }
{
    match find_near(net, near, x) {
        Some(_) => true,
        None => false,
    }
}

// Whether a step edge leads to no word from the word at a place.
fn leads_astray(net: &Net, place: usize) -> bool
    requires net { IsNet net.now }
    requires within { place < count_of (graph_of net.now) }
    ensures { IsTrue result ↔ LeadsAstray (graph_of net.now) (at (graph_of net.now) place) }
{
    for y in word_steps(net, place) {
        if !is_word(net, place, *y) {
            return true;
        }
    }
    false
}

/// From which words step edges lead to no word.
pub fn astray_flags(alloc: Global, net: &Net) -> Result<Vec<bool>, AllocError>
    requires { IsNet net.now }
    ensures { IfOk result (λ v. AreFlags (graph_of net.now) (LeadsAstray (graph_of net.now)) v.items) }
{
    let mut all = Vec::new(alloc);
    for place in 0..net.at.len() {
        all.push(leads_astray(net, place))?;
    }
    Ok(all)
}

/// Numbers for the words of which each is reached from the other, from where the step edges lead.
pub fn numbers_of(alloc: Global, net: &Net, steps: &[Successors]) -> Result<Vec<u32>, AllocError>
    requires net { IsNet net.now }
    requires few { count_of (graph_of net.now) < 2 ^ 32 }
    requires steps { AreNodes (graph_of net.now) steps.now }
    ensures { IfOk result (λ v. AreNumbers (graph_of net.now) v.items) }
{
    let all = components(alloc, steps)?;
    Ok(all)
}
