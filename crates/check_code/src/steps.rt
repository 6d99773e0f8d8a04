ghost use Rattle.std.specs.Prelude.{◌≡◌, ◌<◌, ◌≤◌, ◌^◌, [], ◌∷◌, IfOk, pos};
ghost use Rattle.rv64_decode.specs.Form.{ImmForm};
ghost use Rattle.rv64_decode.specs.declared.instr.ImmOp.TheVariants.{Addi};
ghost use Rattle.rv64_decode.specs.declared.instr.Instr.TheVariants.{Alu, AluImm};
ghost use Rattle.rv64_decode.specs.declared.xinstr.XInstr.TheVariants.{Base, Get};
ghost use Rattle.stub_laws.specs.Code.{Appended};
ghost use Rattle.check_code.specs.Macros.{number_code};
ghost use Rattle.check_code.specs.PairCode.{over_words};

use crate::macros::{push, push_number};
use rv64_decode::{AluOp, BranchOp, ImmOp, Instr, Reg, XInstr};
use std::alloc::AllocError;

/// Appends an operation on two registers, which are given by their numbers.
pub(crate) fn push_operation(
    code: &mut Vec<u32>,
    op: AluOp,
    rd: u8,
    rs1: u8,
    rs2: u8,
) -> Result<(), AllocError>
    requires rd { rd < 32 }
    requires rs1 { rs1 < 32 }
    requires rs2 { rs2 < 32 }
    ensures { IfOk result (λ u. Appended code.old.items code.new.items (Base (Alu op rd rs1 rs2) ∷ [])) }
{
    let i = Instr::Alu {
        op,
        rd: Reg::new(rd),
        rs1: Reg::new(rs1),
        rs2: Reg::new(rs2),
    };
    push(code, XInstr::Base(i))
}

/// Appends an operation on a register and an immediate.
pub(crate) fn push_immediate(
    code: &mut Vec<u32>,
    op: ImmOp,
    rd: u8,
    rs1: u8,
    imm: i32,
) -> Result<(), AllocError>
    requires rd { rd < 32 }
    requires rs1 { rs1 < 32 }
    requires imm { ImmForm op imm }
    ensures { IfOk result (λ u. Appended code.old.items code.new.items (Base (AluImm op rd rs1 imm) ∷ [])) }
{
    let i = Instr::AluImm {
        op,
        rd: Reg::new(rd),
        rs1: Reg::new(rs1),
        imm,
    };
    push(code, XInstr::Base(i))
}

/// Appends a slot into a register.
pub(crate) fn push_get(code: &mut Vec<u32>, rd: u8, slot: u8) -> Result<(), AllocError>
    requires rd { rd < 32 }
    requires slot { slot < 32 }
    ensures { IfOk result (λ u. Appended code.old.items code.new.items (Get rd slot ∷ [])) }
{
    let rd = Reg::new(rd);
    push(code, XInstr::Get { rd, slot })
}

/// Appends a branch over so many words.
pub(crate) fn push_over(
    code: &mut Vec<u32>,
    op: BranchOp,
    rs1: u8,
    rs2: u8,
    words: usize,
) -> Result<(), AllocError>
    requires rs1 { rs1 < 32 }
    requires rs2 { rs2 < 32 }
    requires words { words < 1000 }
    ensures { IfOk result (λ u. Appended code.old.items code.new.items (over_words op rs1 rs2 words ∷ [])) }
{
    let i = Instr::Branch {
        op,
        rs1: Reg::new(rs1),
        rs2: Reg::new(rs2),
        imm: words as i32 * 4 + 4,
    };
    push(code, XInstr::Base(i))
}

/// Appends a number below 2^31 into a register, in two words.
pub(crate) fn push_value(code: &mut Vec<u32>, rd: u8, value: u64) -> Result<(), AllocError>
    requires rd { rd < 32 }
    requires value { value < 2 ^ 31 }
    ensures { IfOk result (λ u. Appended code.old.items code.new.items (number_code rd (pos value))) }
{
    push_number(code, Reg::new(rd), value as i64)
}

/// Appends a register and a few bytes more into a register.
pub(crate) fn push_more(code: &mut Vec<u32>, rd: u8, rs1: u8, bytes: u64) -> Result<(), AllocError>
    requires rd { rd < 32 }
    requires rs1 { rs1 < 32 }
    requires bytes { bytes ≤ 8 }
    ensures { IfOk result (λ u. Appended code.old.items code.new.items (Base (AluImm Addi rd rs1 (pos bytes)) ∷ [])) }
{
    push_immediate(code, ImmOp::Addi, rd, rs1, bytes as i32)
}
