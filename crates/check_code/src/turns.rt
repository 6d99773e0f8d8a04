ghost use Rattle.std.specs.Prelude.{◌≡◌, ◌<◌, [], ◌∷◌, IfOk};
ghost use Rattle.std.specs.Int.RustNames.{unsigned_abs};
ghost use Rattle.stub_laws.specs.Code.{Appended};
ghost use Rattle.check_numbers.specs.TripWords.{is_strict, is_up, branch_of, swapped, side};
ghost use Rattle.check_code.specs.TurnCode.{difference_code, gap_code, less_code, end_code, count_code, counted_code, order_code, trip_code, last_turn_code, last_pass_code, root_code, inner_code};

use crate::numbered::{form, need, number, put};
use crate::steps::{push_immediate, push_operation, push_over};
use linear_forms::Form;
use loop_data::{Relation, Trip};
use rv64_decode::{AluOp, BranchOp, ImmOp};
use std::alloc::AllocError;

/// Whether a word that is the bound is outside the relation.
fn is_strict(relation: Relation) -> bool
    ensures { result ≡ is_strict relation }
{
    match relation {
        Relation::Less => true,
        Relation::More => true,
        _ => false,
    }
}

/// Whether the word that moves comes to its bound from below.
fn is_up(relation: Relation) -> bool
    ensures { result ≡ is_up relation }
{
    match relation {
        Relation::Less => true,
        Relation::AtMost => true,
        _ => false,
    }
}

/// The branch that is taken where an order has ended.
fn branch_of(signed: bool, strict: bool) -> BranchOp
    ensures { result ≡ branch_of signed strict }
{
    match (signed, strict) {
        (true, true) => BranchOp::Bge,
        (true, false) => BranchOp::Blt,
        (false, true) => BranchOp::Bgeu,
        (false, false) => BranchOp::Bltu,
    }
}

/// The operands of that branch, of the register of a value and that of the bound.
fn operands(strict: bool, up: bool, value: u8, bound: u8) -> (u8, u8)
    ensures first { result.0 ≡ side (swapped strict up) value bound }
    ensures second { result.1 ≡ side (swapped strict up) bound value }
{
    if strict == up {
        (value, bound)
    } else {
        (bound, value)
    }
}

/// Appends the number of turns until a difference, which gains a step in each, is 0.
fn push_difference(code: &mut Vec<u32>, f: &Form, step: i64) -> Result<(), AllocError>
    ensures { IfOk result (λ u. Appended code.old.items code.new.items (difference_code f.now step)) }
{
    form(code, 5, f)?;
    number(code, 6, step)?;
    push_operation(code, AluOp::Sub, 5, 0, 5)?;
    push_operation(code, AluOp::Rem, 7, 5, 6)?;
    need(code, BranchOp::Beq, 7, 0)?;
    push_operation(code, AluOp::Div, 5, 5, 6)?;
    need(code, BranchOp::Bge, 5, 0)?;
    Ok(())
}

/// Appends how far the bound is ahead of the start.
fn push_gap(code: &mut Vec<u32>, up: bool) -> Result<(), AllocError>
    ensures { IfOk result (λ u. Appended code.old.items code.new.items (gap_code up ∷ [])) }
{
    if up {
        push_operation(code, AluOp::Sub, 7, 6, 5)
    } else {
        push_operation(code, AluOp::Sub, 7, 5, 6)
    }
}

/// Appends where the steps lead from the start.
fn push_end(code: &mut Vec<u32>, up: bool) -> Result<(), AllocError>
    ensures { IfOk result (λ u. Appended code.old.items code.new.items (end_code up ∷ [])) }
{
    if up {
        push_operation(code, AluOp::Add, 28, 5, 28)
    } else {
        push_operation(code, AluOp::Sub, 28, 5, 28)
    }
}

/// Appends that the bound itself is left out, where it is.
fn push_less_one(code: &mut Vec<u32>, strict: bool) -> Result<(), AllocError>
    ensures { IfOk result (λ u. Appended code.old.items code.new.items (less_code strict ∷ [])) }
{
    if strict {
        push_immediate(code, ImmOp::Addi, 7, 7, -1)
    } else {
        push_immediate(code, ImmOp::Addi, 7, 7, 0)
    }
}

/// Appends how often a turn stays by steps of this size, and the value then.
fn push_count(code: &mut Vec<u32>, strict: bool, up: bool, size: u64) -> Result<(), AllocError>
    ensures { IfOk result (λ u. Appended code.old.items code.new.items (count_code strict up size)) }
{
    push_gap(code, up)?;
    push_less_one(code, strict)?;
    number(code, 28, size.cast_signed())?;
    push_operation(code, AluOp::Divu, 7, 7, 28)?;
    push_immediate(code, ImmOp::Addi, 7, 7, 1)?;
    push_operation(code, AluOp::Mul, 28, 7, 28)?;
    push_end(code, up)?;
    Ok(())
}

/// Appends how often an order of two words holds: never, or as often as is counted.
fn push_order(
    code: &mut Vec<u32>,
    signed: bool,
    strict: bool,
    up: bool,
    f: &Form,
    g: &Form,
    size: u64,
) -> Result<(), AllocError>
    ensures { IfOk result (λ u. Appended code.old.items code.new.items (order_code signed strict up f.now g.now size)) }
{
    form(code, 5, f)?;
    form(code, 6, g)?;
    push_immediate(code, ImmOp::Addi, 7, 0, 0)?;
    let op = branch_of(signed, strict);
    let (first, second) = operands(strict, up, 5, 6);
    push_over(code, op, first, second, 10)?;
    push_count(code, strict, up, size)?;
    let (first, second) = operands(strict, up, 28, 6);
    need(code, op, first, second)?;
    push_immediate(code, ImmOp::Addi, 5, 7, 0)?;
    Ok(())
}

/// Appends how often the exit branch of a loop stays into x5, or the jump to the open target where the trip
/// tells no number. It works with x5 to x7, x28, x30 and x31.
pub fn push_trip(code: &mut Vec<u32>, trip: &Trip) -> Result<(), AllocError>
    ensures { IfOk result (λ u. Appended code.old.items code.new.items (trip_code trip.now)) }
{
    let relation = trip.relation;
    match relation {
        Relation::Differ => push_difference(code, &trip.start, trip.step),
        _ => {
            let size = trip.step.unsigned_abs();
            let signed = trip.signed;
            push_order(
                code,
                signed,
                is_strict(relation),
                is_up(relation),
                &trip.start,
                &trip.bound,
                size,
            )
        }
    }
}

/// Appends that x5 is from 16 to 2^31, and one less into slot 23.
fn push_last_turn(code: &mut Vec<u32>) -> Result<(), AllocError>
    ensures { IfOk result (λ u. Appended code.old.items code.new.items last_turn_code) }
{
    push_immediate(code, ImmOp::Addi, 6, 0, 16)?;
    need(code, BranchOp::Bge, 5, 6)?;
    push_immediate(code, ImmOp::Addi, 6, 0, 1)?;
    push_immediate(code, ImmOp::Slli, 6, 6, 31)?;
    need(code, BranchOp::Bge, 6, 5)?;
    push_immediate(code, ImmOp::Addi, 5, 5, -1)?;
    put(code, 23, 5)?;
    Ok(())
}

/// Appends that x5 is below 2^31, and x5 into a slot.
fn push_last_pass(code: &mut Vec<u32>, slot: u8) -> Result<(), AllocError>
    requires { slot < 32 }
    ensures { IfOk result (λ u. Appended code.old.items code.new.items (last_pass_code slot)) }
{
    push_immediate(code, ImmOp::Srli, 6, 5, 31)?;
    need(code, BranchOp::Beq, 6, 0)?;
    put(code, slot, 5)?;
    Ok(())
}

/// Appends the test of the root's turns, of which there have to be from 16 to 2^31. The number of the last goes into
/// slot 23.
pub fn push_root(code: &mut Vec<u32>, trip: &Trip) -> Result<(), AllocError>
    ensures { IfOk result (λ u. Appended code.old.items code.new.items (root_code trip.now)) }
{
    push_trip(code, trip)?;
    push_last_turn(code)?;
    Ok(())
}

/// Appends the test of the passes of an inner loop, of which there may be up to 2^31. The number of the last goes into
/// this slot.
pub fn push_inner(code: &mut Vec<u32>, slot: u8, trip: &Trip) -> Result<(), AllocError>
    requires { slot < 32 }
    ensures { IfOk result (λ u. Appended code.old.items code.new.items (inner_code slot trip.now)) }
{
    push_trip(code, trip)?;
    push_last_pass(code, slot)?;
    Ok(())
}
