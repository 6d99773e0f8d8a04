ghost use Rattle.std.specs.Prelude.{◌≡◌, ◌↔◌, ◌<◌, [], ℕ, IfOk, OnOk, IfSome, IfNone, IsTrue, length};
ghost use Rattle.std.specs.List.{Contains};
ghost use Rattle.std.specs.List.Sorted.{IsStrictlyIncreasing};
ghost use Rattle.loop_shapes.specs.Edges.{IsChosen, IsEdgeFrom, IsEdgeBetween};
ghost use Rattle.loop_shapes.specs.Gains.{Gained, HasAll, IsOnly};
ghost use Rattle.loop_shapes.specs.Net.{IsNet, graph_of};
ghost use Rattle.loop_data.specs.Paths.{Leads};

use crate::net::Net;
use crate::program::{is_among, steps_of};
use std::alloc::{AllocError, Global};

// Puts an edge to others, where it leads inside, or outside.
fn add_edge(
    to: &[u64],
    inside: bool,
    x: u64,
    y: u64,
    all: &mut Vec<(u64, u64)>,
) -> Result<(), AllocError>
    requires { IsStrictlyIncreasing to.now }
    ensures { OnOk result (Gained (λ (e : ℕ × ℕ). (e.0 ≡ x) × (e.1 ≡ y)
        × IsChosen inside to.now y) all.old.items all.new.items) }
{
    if is_among(to, y) != inside {
        return Ok(());
    }
    all.push((x, y))?;
    Ok(())
}

// Puts the edges from an address to others, where they lead inside, or outside.
fn add_edges(
    net: &Net,
    to: &[u64],
    inside: bool,
    x: u64,
    all: &mut Vec<(u64, u64)>,
) -> Result<(), AllocError>
    requires net { IsNet net.now }
    requires ordered { IsStrictlyIncreasing to.now }
    ensures { OnOk result (Gained (IsEdgeFrom (graph_of net.now) to.now inside x) all.old.items all.new.items) }
{
    for y in steps_of(net, x) {
        add_edge(to, inside, x, *y, all)?;
    }
    Ok(())
}

/// The step edges from the addresses `from` that lead to those in `to`, or to any but those in `to`.
pub fn edges(
    alloc: Global,
    net: &Net,
    from: &[u64],
    to: &[u64],
    inside: bool,
) -> Result<Vec<(u64, u64)>, AllocError>
    requires net { IsNet net.now }
    requires ordered { IsStrictlyIncreasing to.now }
    ensures { IfOk result (λ v. HasAll (IsEdgeBetween (graph_of net.now) from.now to.now inside) v.items) }
{
    let mut all = Vec::new(alloc);
    for x in from {
        add_edges(net, to, inside, *x, &mut all)?;
    }
    Ok(all)
}

/// The only place among these.
pub fn only_place(all: &[usize]) -> Option<usize>
    ensures some { IfSome result (IsOnly all.now) }
    ensures none { IfNone result ((e : ℕ) → ¬ IsOnly all.now e) }
{
    if all.is_empty() {
        return None;
    }
    let e = all[0];
    for f in all {
        if *f != e {
            return None;
        }
    }
    Some(e)
}
