ghost use Rattle.std.specs.Prelude.{◌≡◌, ◌<◌, ◌≤◌, ◌+◌, ◌-◌, ◌^◌, [], ◌∷◌, false, pos, Some, IfOk, IfSome};
ghost use Rattle.rv64_decode.specs.Aim.{IsNear};
ghost use Rattle.rv64_decode.specs.declared.instr.ImmOp.TheVariants.{Addi};
ghost use Rattle.rv64_decode.specs.declared.instr.Instr.TheVariants.{AluImm};
ghost use Rattle.rv64_decode.specs.declared.xinstr.XInstr.TheVariants.{Base, Get, Id, Harts, Join};
ghost use Rattle.stub_laws.specs.Code.{Appended};
ghost use Rattle.stub_laws.specs.Locations.{slot_of};
ghost use Rattle.loop_data.specs.Lookups.{role_by};
ghost use Rattle.turn_copies.specs.StubCode.{block_code, fork_code, with_moving, movings, taken_from, put_into, advance_code, advances_code, begin_code, next_code};
ghost use Rattle.outliner.specs.Moves.{roles_in, moved};

use crate::ends::push_restore;
use crate::steps::{alu, branch, get, harts, id, imm, jump, number, put};
use check_code::macros::push;
use loop_data::Class;
use rv64_decode::{AluOp, BranchOp, ImmOp, XInstr};
use std::alloc::AllocError;

/// Appends the hart's number into x5, the number of harts into x6 and the number of turns into x7.
fn push_numbers(code: &mut Vec<u32>) -> Result<(), AllocError>
    ensures { IfOk result (λ u. Appended code.old.items code.new.items
        (Id 5 ∷ Harts 6 ∷ Get 7 23 ∷ Base (AluImm Addi 7 7 (pos 1)) ∷ [])) }
{
    id(code, 5)?;
    harts(code, 6)?;
    get(code, 7, 23)?;
    imm(code, ImmOp::Addi, 7, 7, 1)?;
    Ok(())
}

/// Appends the first turn of the hart's block into x29, and how many it has into x28 and slot 28. The turns are
/// divided evenly, and hart 0 has the last of them.
fn push_block(code: &mut Vec<u32>) -> Result<(), AllocError>
    ensures { IfOk result (λ u. Appended code.old.items code.new.items block_code) }
{
    push_numbers(code)?;
    alu(code, AluOp::Add, 28, 5, 6)?;
    imm(code, ImmOp::Addi, 28, 28, -1)?;
    alu(code, AluOp::Remu, 28, 28, 6)?;
    alu(code, AluOp::Mul, 29, 28, 7)?;
    alu(code, AluOp::Divu, 29, 29, 6)?;
    imm(code, ImmOp::Addi, 28, 28, 1)?;
    alu(code, AluOp::Mul, 28, 28, 7)?;
    alu(code, AluOp::Divu, 28, 28, 6)?;
    alu(code, AluOp::Sub, 28, 28, 29)?;
    put(code, 28, 28)?;
    Ok(())
}

/// Appends what all harts execute first, from place `p` on, which is behind the fork: a hart without a turn goes on at
/// the place `join`.
pub fn push_fork(code: &mut Vec<u32>, p: u32, join: u32) -> Result<(), AllocError>
    requires small { p < 2 ^ 31 }
    requires near { IsNear join (p + 15) }
    ensures { IfOk result (λ u. Appended code.old.items code.new.items (fork_code p join)) }
{
    push_block(code)?;
    branch(code, BranchOp::Bne, 28, 0, 8)?;
    jump(code, join, p + 15)?;
    Ok(())
}

/// The slot of a location, if it has one: that of a register that added code works with, or a cell's.
fn slot_of(loc: u8) -> Option<u8>
    requires { loc < 48 }
    ensures value { result ≡ slot_of loc }
    ensures below { IfSome result (λ s. s < 32) }
{
    match loc {
        5 => Some(16),
        6 => Some(17),
        7 => Some(18),
        28 => Some(19),
        29 => Some(20),
        30 => Some(21),
        31 => Some(22),
        _ => { if loc < 32 { None } else { Some(loc - 32) } }
    }
}

/// Appends the value of a location into x5.
fn push_taken(code: &mut Vec<u32>, loc: u8) -> Result<(), AllocError>
    requires { loc < 48 }
    ensures { IfOk result (λ u. Appended code.old.items code.new.items (taken_from 5 loc (slot_of loc) ∷ [])) }
{
    match slot_of(loc) {
        Some(slot) => get(code, 5, slot),
        None => imm(code, ImmOp::Addi, 5, loc, 0),
    }
}

/// Appends what gives x5 to a location.
fn push_given(code: &mut Vec<u32>, loc: u8) -> Result<(), AllocError>
    requires { loc < 48 }
    ensures { IfOk result (λ u. Appended code.old.items code.new.items (put_into loc (slot_of loc) ∷ [])) }
{
    match slot_of(loc) {
        Some(slot) => put(code, slot, 5),
        None => imm(code, ImmOp::Addi, loc, 5, 0),
    }
}

/// Appends what moves a location on by its step as often as x29 says.
fn push_advance(code: &mut Vec<u32>, loc: u8, step: i64) -> Result<(), AllocError>
    requires { loc < 48 }
    ensures { IfOk result (λ u. Appended code.old.items code.new.items
        (advance_code (record { loc = loc; step = step }))) }
{
    push_taken(code, loc)?;
    number(code, 6, step)?;
    alu(code, AluOp::Mul, 6, 6, 29)?;
    alu(code, AluOp::Add, 5, 5, 6)?;
    push_given(code, loc)?;
    Ok(())
}

/// Appends that for a location of this class, where it moves on.
fn push_known_class(code: &mut Vec<u32>, loc: u8, class: Class) -> Result<(), AllocError>
    requires { loc < 48 }
    ensures { IfOk result (λ u. Appended code.old.items code.new.items
        (advances_code (with_moving (role_by false (Some class)) loc []))) }
{
    match class {
        Class::Induction(step) => push_advance(code, loc, step),
        Class::Private => Ok(()),
    }
}

/// Appends that for a location of this class, if it has one.
fn push_class(code: &mut Vec<u32>, loc: u8, class: Option<Class>) -> Result<(), AllocError>
    requires { loc < 48 }
    ensures { IfOk result (λ u. Appended code.old.items code.new.items
        (advances_code (with_moving (role_by false class) loc []))) }
{
    match class {
        Some(class) => push_known_class(code, loc, class),
        None => Ok(()),
    }
}

/// Appends that for all locations that move on, in the order of their numbers.
pub fn push_advances(code: &mut Vec<u32>, classes: &[Option<Class>; 48]) -> Result<(), AllocError>
    ensures { IfOk result (λ u. Appended code.old.items code.new.items
        (advances_code (movings (roles_in classes.now)))) }
{
    for k in 0..48usize {
        let class = classes[k];
        push_class(code, k as u8, class)?;
    }
    Ok(())
}

/// The place behind words that were appended from place `p` on, where the code had so many words before and has so
/// many now.
pub(crate) fn place_behind(p: u32, start: usize, end: usize) -> u32
    requires small { p < 2 ^ 31 }
    requires order { start ≤ end }
    requires few { end ≤ start + 2 ^ 20 }
    ensures { result ≡ p + (end - start) }
{
    p + (end - start) as u32
}

/// Appends, from place `p` on, what brings the locations to the hart's first turn, and the jump to the first copy.
pub fn push_begin(
    code: &mut Vec<u32>,
    classes: &[Option<Class>; 48],
    p: u32,
    body: u32,
) -> Result<(), AllocError>
    requires small { p < 2 ^ 31 }
    requires from { p ≤ body }
    requires near { body ≤ p + 2 ^ 16 }
    ensures { IfOk result (λ u. Appended code.old.items code.new.items
        (begin_code (moved classes.now) p body)) }
{
    let start = code.len();
    push_advances(code, classes)?;
    push_restore(code)?;
    let end = code.len();
    jump(code, body, place_behind(p, start, end))?;
    Ok(())
}

/// Appends, from place `p` on, what a hart executes behind a turn: where it has more of them it goes on at the first
/// copy.
pub fn push_next(code: &mut Vec<u32>, p: u32, body: u32) -> Result<(), AllocError>
    requires small { p < 2 ^ 31 }
    requires near { IsNear body (p + 6) }
    ensures { IfOk result (λ u. Appended code.old.items code.new.items (next_code p body)) }
{
    put(code, 29, 5)?;
    get(code, 5, 28)?;
    imm(code, ImmOp::Addi, 5, 5, -1)?;
    put(code, 28, 5)?;
    branch(code, BranchOp::Beq, 5, 0, 12)?;
    get(code, 5, 29)?;
    jump(code, body, p + 6)?;
    get(code, 5, 29)?;
    Ok(())
}

/// Appends the join.
pub fn push_join(code: &mut Vec<u32>) -> Result<(), AllocError>
    ensures { IfOk result (λ u. Appended code.old.items code.new.items (Join ∷ [])) }
{
    push(code, XInstr::Join)
}
