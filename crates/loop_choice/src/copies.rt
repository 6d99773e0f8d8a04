ghost use Rattle.std.specs.Prelude.{◌≡◌, IfOk};

use loop_data::{Addresses, Level, Levels, LoopShape};
use std::alloc::{AllocError, Global};

/// The same addresses.
pub(crate) fn same_addresses(alloc: Global, addresses: &Addresses) -> Result<Addresses, AllocError>
    ensures { IfOk result (λ a. a ≡ addresses.now) }
{
    let mut copies = Vec::new(alloc);
    copies.extend_from_slice(addresses.as_slice())?;
    Ok(Addresses::new(copies))
}

/// The same loop.
fn same_level(alloc: Global, level: &Level) -> Result<Level, AllocError>
    ensures { IfOk result (λ l. l ≡ level.now) }
{
    Ok(Level {
        header: level.header,
        body: same_addresses(alloc, &level.body)?,
        back: level.back,
        exit: level.exit,
        depth: level.depth,
    })
}

/// The same loops.
fn same_levels(alloc: Global, levels: &[Level]) -> Result<Vec<Level>, AllocError>
    ensures { IfOk result (λ v. v.items ≡ levels.now) }
{
    let mut copies = Vec::with_capacity(alloc, levels.len())?;
    for level in levels {
        copies.push(same_level(alloc, level)?)?;
    }
    Ok(copies)
}

/// The same loop with its inner loops.
pub(crate) fn same_shape(alloc: Global, shape: &LoopShape) -> Result<LoopShape, AllocError>
    ensures { IfOk result (λ s. s ≡ shape.now) }
{
    let levels = same_levels(alloc, shape.levels.as_slice())?;
    Ok(LoopShape {
        header: shape.header,
        levels: Levels::new(levels),
        early: shape.early,
    })
}
