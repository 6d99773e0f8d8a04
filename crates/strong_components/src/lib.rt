// The strongly connected components of a directed graph over indices, in linear time.
#![tactic(auto)]

pub mod graph;
mod search;
#[cfg(test)]
mod tests;

ghost use Rattle.std.specs.Prelude.{ℕ, ◌≡◌, ◌+◌, ◌<◌, ◌≤◌, ◌^◌, ◌↔◌, length, slice_index, vec_len, Contains, IfOk};
ghost use Rattle.strong_components.specs.Graph.{IsEdge, LeadsInside, HasPath};

pub use graph::{Successors, leads_inside};
use search::Search;
use std::alloc::{AllocError, Global};

/// The number of each node's strongly connected component, from 0 without a gap. Two nodes have the same number
/// exactly where each is reached from the other. Along an edge the number does not rise, so a component
/// comes before those that lead to it. It takes time linear in the nodes, and about 40 bytes for each.
/// Whether a graph's edges lead inside it, [`leads_inside`] tells.
pub fn components(alloc: Global, nodes: &[Successors]) -> Result<Vec<u32>, AllocError>
    requires few { length nodes.now < 2 ^ 32 }
    requires inside { LeadsInside nodes.now }
    ensures each { IfOk result (λ numbers. vec_len numbers ≡ length nodes.now) }
    ensures below { IfOk result (λ numbers. (a : ℕ) → a < length nodes.now
        → slice_index numbers.items a < length nodes.now) }
    ensures from_zero { IfOk result (λ numbers. (a k : ℕ) → a < length nodes.now
        → k ≤ slice_index numbers.items a → Contains numbers.items k) }
    ensures same { IfOk result (λ numbers. (a b : ℕ) → a < length nodes.now → b < length nodes.now
        → (slice_index numbers.items a ≡ slice_index numbers.items b)
        ↔ (HasPath nodes.now a b × HasPath nodes.now b a)) }
    ensures order { IfOk result (λ numbers. (a b : ℕ) → IsEdge nodes.now a b
        → slice_index numbers.items b ≤ slice_index numbers.items a) }
{
    let mut search = Search::new(alloc, nodes.len())?;
    for root in 0..nodes.len() {
        search.explore(nodes, root as u32)?;
    }
    search.numbers(alloc)
}
