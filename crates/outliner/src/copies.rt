ghost use Rattle.std.specs.Prelude.{ℕ, ◌≡◌, ◌<◌, ◌≤◌, ◌+◌, ◌^◌, ◌==◌, ◌&&◌, [], ◌∷◌, if◌then◌else◌, pos, IfOk, IfSome, Option};
ghost use Rattle.std.specs.List.Sorted.{IsStrictlyIncreasing};
ghost use Rattle.rv64_decode.specs.Aim.{IsNear, distance};
ghost use Rattle.rv64_decode.specs.Form.{IsSigned, InForm};
ghost use Rattle.rv64_decode.specs.Row.{plus_offset, next_pc};
ghost use Rattle.rv64_decode.specs.declared.instr.ImmOp.TheVariants.{Addiw};
ghost use Rattle.rv64_decode.specs.declared.instr.Instr.TheVariants.{AluImm, Branch, Load};
ghost use Rattle.rv64_decode.specs.declared.xinstr.XInstr.TheVariants.{Base, Get};
ghost use Rattle.stub_laws.specs.Code.{Appended};
ghost use Rattle.turn_copies.specs.Copies.{OfCell, Plain, kind_by, staying, falls_through, jump_to, word_size, back_size};
ghost use Rattle.outliner.specs.Words.{target_of, word_at, copy_at};

use crate::steps::{bytes_to, jump};
use check_code::macros::{push, push_number};
use loop_data::Level;
use loop_data::flow::is_in;
use rv64_decode::{BranchOp, ImmOp, Instr, LoadOp, Reg, UpperOp, XInstr};
use std::alloc::AllocError;

/// An address and an offset from it.
fn plus_offset(address: u64, offset: i32) -> u64
    ensures { result ≡ plus_offset address offset }
{
    address.wrapping_add((offset as i64).cast_unsigned())
}

/// The address of the next word.
fn next_pc(address: u64) -> u64
    ensures { result ≡ next_pc address }
{
    address.wrapping_add(4)
}

/// Of the two words to which a branch at an address leads, the one in the loop.
fn staying(level: &Level, at: u64, i: Instr) -> u64
    requires { IsStrictlyIncreasing level.now.body }
    ensures { result ≡ staying level.now at i }
{
    match i {
        Instr::Branch { imm, .. } => {
            let target = plus_offset(at, imm);
            if is_in(level.body.as_slice(), target) {
                target
            } else {
                next_pc(at)
            }
        }
        _ => next_pc(at),
    }
}

/// Where the copy of a branch or a jump at an address has to lead, as an address of the loop.
pub(crate) fn target_of(level: &Level, at: u64, leaving: bool, i: &Instr) -> u64
    requires { IsStrictlyIncreasing level.now.body }
    ensures { (uses : Option ℕ) → result ≡ target_of level.now at (kind_by leaving uses) i.now }
{
    if leaving {
        return staying(level, at, *i);
    }
    match *i {
        Instr::Branch { imm, .. } => plus_offset(at, imm),
        Instr::Jal { imm, .. } => plus_offset(at, imm),
        _ => next_pc(at),
    }
}

/// Appends what gets a cell's slot into a register, as a signed number of 32 bits.
fn push_short_load(code: &mut Vec<u32>, k: u8, rd: Reg) -> Result<(), AllocError>
    requires { k < 32 }
    ensures { IfOk result (λ u. Appended code.old.items code.new.items
        (Get rd k ∷ Base (AluImm Addiw rd rd (pos 0)) ∷ [])) }
{
    push(code, XInstr::Get { rd, slot: k })?;
    let extend = Instr::AluImm {
        op: ImmOp::Addiw,
        rd,
        rs1: rd,
        imm: 0,
    };
    push(code, XInstr::Base(extend))?;
    Ok(())
}

/// Appends what gets a cell's slot into the register of a load.
fn push_load(code: &mut Vec<u32>, k: u8, op: LoadOp, rd: Reg) -> Result<(), AllocError>
    requires { k < 32 }
    ensures { IfOk result (λ u. Appended code.old.items code.new.items
        (word_at 0 0 0 (OfCell k) (Load op rd 0 (pos 0)))) }
{
    match op {
        LoadOp::Lw => push_short_load(code, k, rd),
        _ => push(code, XInstr::Get { rd, slot: k }),
    }
}

/// Appends what stands for an access of the cell with number `k`.
fn push_access(code: &mut Vec<u32>, k: u8, i: Instr) -> Result<(), AllocError>
    requires { k < 32 }
    ensures { IfOk result (λ u. Appended code.old.items code.new.items (word_at 0 0 0 (OfCell k) i)) }
{
    match i {
        Instr::Load { op, rd, .. } => push_load(code, k, op, rd),
        Instr::Store { rs2, .. } => push(code, XInstr::Put { slot: k, rs1: rs2 }),
        _ => Ok(()),
    }
}

/// Appends, at place `p`, a branch to the place `to`.
fn push_branch(
    code: &mut Vec<u32>,
    op: BranchOp,
    rs1: Reg,
    rs2: Reg,
    p: u32,
    to: u32,
) -> Result<(), AllocError>
    requires near { IsSigned 13 (distance to p) }
    ensures { IfOk result (λ u. Appended code.old.items code.new.items
        (Base (Branch op rs1 rs2 (distance to p)) ∷ [])) }
{
    let branch = Instr::Branch {
        op,
        rs1,
        rs2,
        imm: bytes_to(to, p),
    };
    push(code, XInstr::Base(branch))
}

/// Appends what stands for the instruction at an address that accesses no cell, at place `p`; where it branches or
/// jumps, it leads to the place `to`.
fn push_plain(code: &mut Vec<u32>, at: u64, p: u32, to: u32, i: &Instr) -> Result<(), AllocError>
    requires form { InForm i.now }
    requires near { IsSigned 13 (distance to p) }
    ensures { IfOk result (λ u. Appended code.old.items code.new.items (word_at at p to Plain i.now)) }
{
    match *i {
        Instr::Upper {
            op: UpperOp::Auipc,
            rd,
            imm,
        } => push_number(code, rd, plus_offset(at, imm).cast_signed()),
        Instr::Branch { op, rs1, rs2, .. } => push_branch(code, op, rs1, rs2, p, to),
        Instr::Jal { .. } => jump(code, to, p),
        _ => push(code, XInstr::Base(*i)),
    }
}

/// Appends what stands for the instruction at an address, whether it is the branch at which the loop is left, and
/// whichever cell it accesses.
fn push_word(
    code: &mut Vec<u32>,
    at: u64,
    p: u32,
    to: u32,
    leaving: bool,
    uses: Option<u8>,
    i: &Instr,
) -> Result<(), AllocError>
    requires form { InForm i.now }
    requires slot { IfSome uses (λ k. k < 32) }
    requires near { IsSigned 13 (distance to p) }
    ensures { IfOk result (λ u. Appended code.old.items code.new.items (word_at at p to (kind_by leaving uses) i.now)) }
{
    if leaving {
        return jump(code, to, p);
    }
    match uses {
        Some(k) => push_access(code, k, *i),
        None => push_plain(code, at, p, to, i),
    }
}

/// How many words stand for an access of a cell.
fn access_size(i: Instr) -> u32
    ensures value { (k : ℕ) → result ≡ word_size (OfCell k) i }
    ensures few { result ≤ 2 }
{
    match i {
        Instr::Load { op: LoadOp::Lw, .. } => 2,
        Instr::Load { .. } => 1,
        Instr::Store { .. } => 1,
        _ => 0,
    }
}

/// How many words stand for an instruction that accesses no cell.
fn plain_size(i: Instr) -> u32
    ensures value { result ≡ word_size Plain i }
    ensures few { result ≤ 2 }
{
    match i {
        Instr::Upper {
            op: UpperOp::Auipc,
            ..
        } => 2,
        _ => 1,
    }
}

/// How many words stand for an instruction.
fn word_size(leaving: bool, uses: Option<u8>, i: &Instr) -> u32
    ensures value { result ≡ word_size (kind_by leaving uses) i.now }
    ensures few { result ≤ 2 }
{
    if leaving {
        return 1;
    }
    match uses {
        Some(_) => access_size(*i),
        None => plain_size(*i),
    }
}

/// Whether the word behind the instruction at an address may be the next one and is the loop's header.
fn leads_back(level: &Level, at: u64, i: &Instr) -> bool
    ensures { result ≡ falls_through i.now && (next_pc at == level.now.header) }
{
    match *i {
        Instr::Jal { .. } => false,
        _ => next_pc(at) == level.header,
    }
}

/// How many words stand behind it for that.
fn back_size(level: &Level, at: u64, i: &Instr) -> u32
    ensures value { result ≡ back_size level.now at i.now }
    ensures few { result ≤ 1 }
{
    if leads_back(level, at, i) { 1 } else { 0 }
}

/// How many words the copy of an instruction has.
pub(crate) fn size_of(level: &Level, at: u64, leaving: bool, uses: Option<u8>, i: &Instr) -> u32
    ensures value { result ≡ word_size (kind_by leaving uses) i.now + back_size level.now at i.now }
    ensures few { result ≤ 3 }
{
    word_size(leaving, uses, i) + back_size(level, at, i)
}

/// Appends, at place `p`, the jump to the place `end` behind a turn, where the header is the next word.
fn push_back(
    code: &mut Vec<u32>,
    level: &Level,
    at: u64,
    p: u32,
    end: u32,
    i: &Instr,
) -> Result<(), AllocError>
    requires { IsNear end p }
    ensures { IfOk result (λ u. Appended code.old.items code.new.items
        (if falls_through i.now && (next_pc at == level.now.header) then jump_to end p ∷ [] else [])) }
{
    if leads_back(level, at, i) {
        return jump(code, end, p);
    }
    Ok(())
}

/// Appends, from place `p` on, the copy of the instruction at an address, which leads to the place `to` where it
/// branches or jumps, and to the place `end` where the header is the next word.
pub(crate) fn push_copy(
    code: &mut Vec<u32>,
    level: &Level,
    at: u64,
    p: u32,
    to: u32,
    end: u32,
    leaving: bool,
    uses: Option<u8>,
    i: &Instr,
) -> Result<(), AllocError>
    requires form { InForm i.now }
    requires slot { IfSome uses (λ k. k < 32) }
    requires small { p < 2 ^ 31 }
    requires near { IsSigned 13 (distance to p) }
    requires end { (p ≤ end) × (end ≤ p + 2 ^ 12) }
    ensures { IfOk result (λ u. Appended code.old.items code.new.items
        (copy_at level.now at p to end (kind_by leaving uses) i.now)) }
{
    push_word(code, at, p, to, leaving, uses, i)?;
    let behind = p + word_size(leaving, uses, i);
    push_back(code, level, at, behind, end, i)?;
    Ok(())
}
