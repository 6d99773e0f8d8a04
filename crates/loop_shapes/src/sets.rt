ghost use Rattle.std.specs.Prelude.{◌≡◌, ℕ, ◌↔◌, IfOk, OnOk, IsTrue, List};
ghost use Rattle.std.specs.List.{Contains};
ghost use Rattle.loop_shapes.specs.Gains.{Gained};
ghost use Rattle.loop_shapes.specs.Difference.{InDifference};
ghost use Rattle.loop_data.specs.Sets.{IsListOf};

use crate::body::in_order;
use crate::program::has;
use std::alloc::{AllocError, Global};

// Puts an address to others, where it is not among some.
fn add_outside(ys: &[u64], x: u64, all: &mut Vec<u64>) -> Result<(), AllocError>
    ensures { OnOk result (Gained (λ z. (z ≡ x) × ¬ Contains ys.now x) all.old.items all.new.items) }
{
    if has(ys, x) {
        return Ok(());
    }
    all.push(x)?;
    Ok(())
}

/// The addresses among `xs` that are not among `ys`, in order.
pub fn minus(alloc: Global, xs: &[u64], ys: &[u64]) -> Result<Vec<u64>, AllocError>
    ensures { IfOk result (λ v. IsListOf (InDifference xs.now ys.now) v.items) }
{
    let mut all = Vec::new(alloc);
    for x in xs {
        add_outside(ys, *x, &mut all)?;
    }
    Ok(in_order(all))
}
