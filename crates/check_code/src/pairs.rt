ghost use Rattle.std.specs.Prelude.{◌≡◌, ◌+◌, ◌<◌, ◌≤◌, ◌^◌, IfOk, nat_lt, pos};
ghost use Rattle.std.specs.List.{All};
ghost use Rattle.dependence_tests.specs.Terms.{IsTermOf, IsSized};
ghost use Rattle.stub_laws.specs.Code.{Appended};
ghost use Rattle.check_code.specs.Macros.{rise_code};
ghost use Rattle.check_code.specs.PairCode.{ranges_code, distance_code, passes_code, far_code, far_length, remainder_code, residue_code, residue_length, residue_part, lane_code, lane_length, lane_part, block_code, four_code, front_code, same_code, pair_code};

use crate::accesses::{push_disjoint, push_end, push_first, push_least};
use crate::macros::{push_open, push_span};
use crate::steps::{push_get, push_immediate, push_more, push_operation, push_over, push_value};
use linear_forms::Form;
use loop_data::{Access, Term};
use rv64_decode::{AluOp, BranchOp, ImmOp, Reg};
use std::alloc::AllocError;

/// Appends the test of two accesses of different shape.
fn push_ranges(code: &mut Vec<u32>, a: &Access, b: &Access) -> Result<(), AllocError>
    ensures { IfOk result (λ u. Appended code.old.items code.new.items (ranges_code a.now b.now)) }
{
    push_least(code, 5, a)?;
    push_end(code, 6, a)?;
    push_least(code, 7, b)?;
    push_end(code, 28, b)?;
    push_disjoint(code)?;
    Ok(())
}

/// Appends the difference of x6 and x5 into x28, its size into x5, and 0 into x6.
fn push_distance(code: &mut Vec<u32>) -> Result<(), AllocError>
    ensures { IfOk result (λ u. Appended code.old.items code.new.items distance_code) }
{
    push_operation(code, AluOp::Sub, 28, 6, 5)?;
    push_immediate(code, ImmOp::Srai, 6, 28, 63)?;
    push_operation(code, AluOp::Xor, 5, 28, 6)?;
    push_operation(code, AluOp::Sub, 5, 5, 6)?;
    push_immediate(code, ImmOp::Addi, 6, 0, 0)?;
    Ok(())
}

/// Appends what adds so many times a slot's word to x6, unless that is no time.
fn push_size(code: &mut Vec<u32>, size: u64, slot: u8) -> Result<(), AllocError>
    requires size { size < 2 ^ 30 }
    requires slot { slot < 32 }
    ensures { IfOk result (λ u. Appended code.old.items code.new.items (rise_code 6 (pos size) slot)) }
{
    if 0 < size {
        push_span(code, Reg::new(6), size as i64, slot)?;
    }
    Ok(())
}

/// Appends what adds to x6 how far the passes of the inner loops lead.
fn push_passes(code: &mut Vec<u32>, inner: &[u64; 3]) -> Result<(), AllocError>
    requires { All (λ n. n < 2 ^ 30) inner.now }
    ensures { IfOk result (λ u. Appended code.old.items code.new.items (passes_code inner.now)) }
{
    push_size(code, inner[0], 24)?;
    push_size(code, inner[1], 25)?;
    push_size(code, inner[2], 26)?;
    Ok(())
}

/// How many words the last test has.
const FAR: usize = 6;

/// Appends the test whether the distance is beyond all turns, passes and the width.
fn push_far(code: &mut Vec<u32>, width: u64) -> Result<(), AllocError>
    requires { width ≤ 8 }
    ensures { IfOk result (λ u. Appended code.old.items code.new.items (far_code width)) }
{
    push_get(code, 31, 23)?;
    push_operation(code, AluOp::Mul, 31, 31, 29)?;
    push_operation(code, AluOp::Add, 31, 31, 6)?;
    push_more(code, 31, 31, width)?;
    push_over(code, BranchOp::Bge, 5, 31, 1)?;
    push_open(code)?;
    Ok(())
}

/// Appends the remainder of the difference, which is not negative, into x7, and the divisor into x30.
fn push_remainder(code: &mut Vec<u32>, residue: u64) -> Result<(), AllocError>
    requires { residue < 2 ^ 30 }
    ensures { IfOk result (λ u. Appended code.old.items code.new.items (remainder_code residue)) }
{
    push_value(code, 30, residue)?;
    push_operation(code, AluOp::Rem, 7, 28, 30)?;
    push_over(code, BranchOp::Bge, 7, 0, 1)?;
    push_operation(code, AluOp::Add, 7, 7, 30)?;
    Ok(())
}

/// Appends the test whether the addresses stay a width away from each other modulo the divisor of all strides, with
/// so many words between it and the end.
fn push_residue(
    code: &mut Vec<u32>,
    residue: u64,
    width: u64,
    words: usize,
) -> Result<(), AllocError>
    requires residue { residue < 2 ^ 30 }
    requires width { width ≤ 8 }
    requires words { words < 100 }
    ensures { IfOk result (λ u. Appended code.old.items code.new.items (residue_code residue width words)) }
{
    push_remainder(code, residue)?;
    push_more(code, 31, 0, width)?;
    push_over(code, BranchOp::Blt, 7, 31, 2)?;
    push_operation(code, AluOp::Sub, 30, 30, 7)?;
    push_over(code, BranchOp::Bge, 30, 31, words)?;
    Ok(())
}

/// How many words that test has.
fn residue_length(residue: u64) -> usize
    ensures value { result ≡ residue_length (nat_lt 0 residue) }
    ensures few { result ≤ 9 }
{
    if 0 < residue { 9 } else { 0 }
}

/// Appends that test, where some stride is not 0.
fn push_residue_part(code: &mut Vec<u32>, residue: u64, width: u64) -> Result<(), AllocError>
    requires residue { residue < 2 ^ 30 }
    requires width { width ≤ 8 }
    ensures { IfOk result (λ u. Appended code.old.items code.new.items
        (residue_part (nat_lt 0 residue) residue width)) }
{
    if 0 < residue {
        push_residue(code, residue, width, FAR)?;
    }
    Ok(())
}

/// Appends the test whether the stride of the root, in x29, is beyond the distance, and all turns stay within one step
/// of the inner loops, with so many words between it and the end.
fn push_lanes(code: &mut Vec<u32>, lanes: u64, width: u64, words: usize) -> Result<(), AllocError>
    requires lanes { lanes < 2 ^ 30 }
    requires width { width ≤ 8 }
    requires words { words < 100 }
    ensures { IfOk result (λ u. Appended code.old.items code.new.items (lane_code lanes width words)) }
{
    push_more(code, 7, 5, width)?;
    push_over(code, BranchOp::Blt, 29, 7, 6)?;
    push_get(code, 31, 23)?;
    push_operation(code, AluOp::Mul, 31, 31, 29)?;
    push_operation(code, AluOp::Add, 7, 7, 31)?;
    push_value(code, 30, lanes)?;
    push_over(code, BranchOp::Bge, 30, 7, words)?;
    Ok(())
}

/// How many words that test has.
fn lane_length(lanes: u64) -> usize
    ensures value { result ≡ lane_length (nat_lt 0 lanes) }
    ensures few { result ≤ 8 }
{
    if 0 < lanes { 8 } else { 0 }
}

/// Appends that test, where an inner stride is not 0.
fn push_lane_part(
    code: &mut Vec<u32>,
    lanes: u64,
    width: u64,
    words: usize,
) -> Result<(), AllocError>
    requires lanes { lanes < 2 ^ 30 }
    requires width { width ≤ 8 }
    requires words { words < 100 }
    ensures { IfOk result (λ u. Appended code.old.items code.new.items
        (lane_part (nat_lt 0 lanes) lanes width words)) }
{
    if 0 < lanes {
        push_lanes(code, lanes, width, words)?;
    }
    Ok(())
}

/// Appends the test whether the stride of the root is beyond the distance, the passes and the width, with so many words
/// between it and the end.
fn push_blocks(code: &mut Vec<u32>, root: u64, width: u64, words: usize) -> Result<(), AllocError>
    requires root { root < 2 ^ 30 }
    requires width { width ≤ 8 }
    requires words { words < 100 }
    ensures { IfOk result (λ u. Appended code.old.items code.new.items (block_code root width words)) }
{
    push_operation(code, AluOp::Add, 7, 5, 6)?;
    push_more(code, 7, 7, width)?;
    push_value(code, 29, root)?;
    push_over(code, BranchOp::Bge, 29, 7, words)?;
    Ok(())
}

/// Appends the four tests of accesses of the same shape in turn.
fn push_four(
    code: &mut Vec<u32>,
    root: u64,
    lanes: u64,
    residue: u64,
    width: u64,
) -> Result<(), AllocError>
    requires root { root < 2 ^ 30 }
    requires lanes { lanes < 2 ^ 30 }
    requires residue { residue < 2 ^ 30 }
    requires width { width ≤ 8 }
    ensures { IfOk result (λ u. Appended code.old.items code.new.items
        (four_code (nat_lt 0 lanes) (nat_lt 0 residue) root lanes residue width)) }
{
    let behind = residue_length(residue) + FAR;
    push_blocks(code, root, width, lane_length(lanes) + behind)?;
    push_lane_part(code, lanes, width, behind)?;
    push_residue_part(code, residue, width)?;
    push_far(code, width)?;
    Ok(())
}

/// Appends what the tests of accesses of the same shape work with.
fn push_front(code: &mut Vec<u32>, f: &Form, g: &Form, inner: &[u64; 3]) -> Result<(), AllocError>
    requires { All (λ n. n < 2 ^ 30) inner.now }
    ensures { IfOk result (λ u. Appended code.old.items code.new.items (front_code f.now g.now inner.now)) }
{
    push_first(code, 5, f)?;
    push_first(code, 6, g)?;
    push_distance(code)?;
    push_passes(code, inner)?;
    Ok(())
}

/// Appends what goes on where two accesses of different turns have no byte in common, by the test of their term, and to
/// the open target elsewhere.
pub fn push_pair(code: &mut Vec<u32>, a: &Access, b: &Access, term: &Term) -> Result<(), AllocError>
    requires term { IsTermOf a.now b.now term.now }
    requires sized { IsSized term.now }
    ensures { IfOk result (λ u. Appended code.old.items code.new.items (pair_code a.now b.now term.now)) }
{
    match *term {
        Term::Same {
            root,
            inner,
            lanes,
            residue,
            width,
            known: _,
        } => {
            push_front(code, &a.form, &b.form, &inner)?;
            push_four(code, root, lanes, residue, width)?;
            Ok(())
        }
        Term::Apart => push_ranges(code, a, b),
    }
}
