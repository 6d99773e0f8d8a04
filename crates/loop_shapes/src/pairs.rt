ghost use Rattle.std.specs.Prelude.{IfOk, IfSome, ◌<◌, length};
ghost use Rattle.loop_data.specs.Flows.{row_at, rows};
ghost use Rattle.loop_shapes.specs.Search.{ArePairs, IsPair};

use loop_data::flow::row;
use std::alloc::{AllocError, Global};

// The numbers of a row that has one, which then stands twice, or two.
fn pair_of(row: &[usize]) -> Option<(usize, usize)>
    ensures { IfSome result (λ p. IsPair row.now p.0 p.1) }
{
    if row.len() == 1 {
        let one = row[0];
        return Some((one, one));
    }
    if row.len() == 2 {
        let first = row[0];
        let second = row[1];
        return Some((first, second));
    }
    None
}

/// The numbers of the rows that have one or two, side by side, so that they are had at one look.
pub fn pairs_of(
    alloc: Global,
    all: &[Vec<usize>],
) -> Result<Vec<Option<(usize, usize)>>, AllocError>
    ensures { IfOk result (λ v. ArePairs (rows all.now) v.items) }
{
    let mut pairs = Vec::new(alloc);
    for i in 0..all.len() {
        pairs.push(pair_of(row(all, i)))?;
    }
    Ok(pairs)
}
