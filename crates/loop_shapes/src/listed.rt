ghost use Rattle.std.specs.Prelude.{◌≡◌, ◌↔◌, ◌<◌, ◌≤◌, ℕ, IfOk, OnOk, IsTrue, length, slice_index};
ghost use Rattle.std.specs.List.{Contains};
ghost use Rattle.loop_data.specs.Bodies.{InBody};
ghost use Rattle.loop_shapes.specs.Gains.{Gained};
ghost use Rattle.loop_shapes.specs.Lines.{IsRowOf, AreRowsOf, AreShared};
ghost use Rattle.loop_data.specs.Listed.{IsListed};
ghost use Rattle.loop_shapes.specs.Numbers.{AreNumbers};
ghost use Rattle.loop_shapes.specs.Places.{at, count_of};
ghost use Rattle.loop_shapes.specs.Program.{IsProgram, program_graph};
ghost use Rattle.loop_data.specs.Flows.{rows};

use crate::program::{Program, is_header_at};
use loop_data::flow;
use std::alloc::{AllocError, Global};

// Whether a loop has the words at two places.
fn is_shared(program: &Program, a: usize, b: usize) -> bool
    requires program { IsProgram program.now }
    requires a { a < count_of (program_graph program.now) }
    requires b { b < count_of (program_graph program.now) }
    ensures { IsTrue result ↔ AreShared (program_graph program.now) (at (program_graph program.now) a)
        (at (program_graph program.now) b) }
{
    let Some(first) = program.around.outermost[a] else {
        return false;
    };
    let Some(second) = program.around.outermost[b] else {
        return false;
    };
    first == second
}

// Puts a place to a row, where it does not stand before another, has its number and no loop has both words.
fn add_listed(
    program: &Program,
    numbers: &[u32],
    to: usize,
    from: usize,
    row: &mut Vec<usize>,
) -> Result<(), AllocError>
    requires program { IsProgram program.now }
    requires count { length numbers.now ≡ count_of (program_graph program.now) }
    requires to { to < count_of (program_graph program.now) }
    requires from { from < count_of (program_graph program.now) }
    ensures { OnOk result (Gained (λ z. (z ≡ from)
        × ((to ≤ from) × ((slice_index numbers.now to ≡ slice_index numbers.now from)
        × ¬ AreShared (program_graph program.now) (at (program_graph program.now) to)
        (at (program_graph program.now) from)))) row.old.items row.new.items) }
{
    if from < to {
        return Ok(());
    }
    if numbers[to] != numbers[from] {
        return Ok(());
    }
    if is_shared(program, to, from) {
        return Ok(());
    }
    row.push(from)?;
    Ok(())
}

// The places from which edges lead back to a word that are listed and close no loop.
fn listed_row(
    alloc: Global,
    program: &Program,
    numbers: &[u32],
    to: usize,
) -> Result<Vec<usize>, AllocError>
    requires program { IsProgram program.now }
    requires numbers { AreNumbers (program_graph program.now) numbers.now }
    requires within { to < count_of (program_graph program.now) }
    ensures { IfOk result (λ v. IsRowOf (program_graph program.now) (IsListed (program_graph program.now)) to v.items) }
{
    let mut all = Vec::new(alloc);
    if is_header_at(program, to) {
        return Ok(all);
    }
    for from in flow::row(program.net.before.as_slice(), to) {
        add_listed(program, numbers, to, *from, &mut all)?;
    }
    Ok(all)
}

/// For each word the places from which edges lead to it that are listed and close no loop.
pub fn listed_rows(
    alloc: Global,
    program: &Program,
    numbers: &[u32],
) -> Result<Vec<Vec<usize>>, AllocError>
    requires program { IsProgram program.now }
    requires numbers { AreNumbers (program_graph program.now) numbers.now }
    ensures { IfOk result (λ v. AreRowsOf (program_graph program.now) (IsListed (program_graph program.now))
        (rows v.items)) }
{
    let mut all = Vec::new(alloc);
    for to in 0..program.net.at.len() {
        all.push(listed_row(alloc, program, numbers, to)?)?;
    }
    Ok(all)
}
