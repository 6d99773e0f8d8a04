ghost use Rattle.std.specs.Prelude.{◌≡◌, ◌↔◌, ◌<◌, ◌∷◌, [], ℕ, IfOk, OnOk, IsTrue, length};
ghost use Rattle.std.specs.List.{Contains};
ghost use Rattle.std.specs.List.Sorted.{IsStrictlyIncreasing};
ghost use Rattle.loop_shapes.specs.Gains.{HasAll};
ghost use Rattle.loop_shapes.specs.Net.{IsNet, graph_of};
ghost use Rattle.loop_data.specs.Paths.{Leads, Reaches};
ghost use Rattle.loop_shapes.specs.Reach.{Extended};

use crate::net::Net;
use crate::program::{has, is_among, steps_of};
use std::alloc::{AllocError, Global};

// Puts an address to those that are reached, where it is in the set and not there yet.
fn reach_one(set: &[u64], reached: &mut Vec<u64>, y: u64) -> Result<(), AllocError>
    requires { IsStrictlyIncreasing set.now }
    ensures { OnOk result (Extended set.now (y ∷ []) reached.old.items reached.new.items) }
{
    if !is_among(set, y) || has(reached, y) {
        return Ok(());
    }
    reached.push(y)?;
    Ok(())
}

// Puts addresses to those that are reached.
fn reach_all(set: &[u64], reached: &mut Vec<u64>, ys: &[u64]) -> Result<(), AllocError>
    requires { IsStrictlyIncreasing set.now }
    ensures { OnOk result (Extended set.now ys.now reached.old.items reached.new.items) }
{
    for y in ys {
        reach_one(set, reached, *y)?;
    }
    Ok(())
}

/// The addresses that are reached from `start` by step edges inside a set.
pub fn reached_within(
    alloc: Global,
    net: &Net,
    set: &[u64],
    start: u64,
) -> Result<Vec<u64>, AllocError>
    requires net { IsNet net.now }
    requires ordered { IsStrictlyIncreasing set.now }
    ensures { IfOk result (λ v. HasAll (Reaches (Leads (graph_of net.now)) (Contains set.now) start) v.items) }
{
    let mut reached = Vec::new(alloc);
    reach_one(set, &mut reached, start)?;
    let mut next = 0;
    while next < reached.len() {
        let x = reached[next];
        reach_all(set, &mut reached, steps_of(net, x))?;
        next += 1;
    }
    Ok(reached)
}
