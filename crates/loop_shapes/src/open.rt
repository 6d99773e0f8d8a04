ghost use Rattle.std.specs.Prelude.{◌≡◌, ◌≢◌, ◌↔◌, ◌<◌, ℕ, IfOk, Some, length};
ghost use Rattle.std.specs.List.{Contains};
ghost use Rattle.loop_shapes.specs.Open.{IsCut, AreCut};
ghost use Rattle.strong_components.specs.Graph.{LeadsTo};
ghost use Rattle.loop_data.specs.Flows.{row_at, rows};

use loop_data::flow;
use std::alloc::{AllocError, Global};
use strong_components::Successors;

// Where an edge leads, if it does not lead to this place.
fn past(target: Option<u32>, place: usize) -> Option<u32>
    ensures { (b : ℕ) → (result ≡ Some b) ↔ ((target ≡ Some b) × (b ≢ place)) }
{
    match target {
        Some(node) => {
            if node as usize == place {
                None
            } else {
                Some(node)
            }
        }
        None => None,
    }
}

// The edges that do not lead to this place.
fn cut(node: Successors, place: usize) -> Successors
    ensures { (b : ℕ) → LeadsTo result b ↔ (LeadsTo node b × (b ≢ place)) }
{
    Successors {
        first: past(node.first, place),
        second: past(node.second, place),
    }
}

// Takes out the edges to a place from these places.
fn cut_all(nodes: &mut Vec<Successors>, to: usize, from: &[usize])
    requires { (a : ℕ) → Contains from.now a → a < length nodes.old.items }
    ensures { IsCut to from.now nodes.old.items nodes.new.items }
{
    for place in from {
        let node = nodes[*place];
        nodes[*place] = cut(node, to);
    }
}

/// The edges of nodes without those that rows have: to the place of a row from each place in it.
pub fn without(
    alloc: Global,
    nodes: &[Successors],
    all: &[Vec<usize>],
) -> Result<Vec<Successors>, AllocError>
    requires { (a b : ℕ) → Contains (row_at (rows all.now) b) a → a < length nodes.now }
    ensures { IfOk result (λ v. AreCut (rows all.now) nodes.now v.items) }
{
    let mut left = Vec::from_slice(alloc, nodes)?;
    for to in 0..all.len() {
        cut_all(&mut left, to, flow::row(all, to));
    }
    Ok(left)
}
