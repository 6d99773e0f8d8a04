ghost use Rattle.std.specs.Prelude.{◌≡◌, ◌<◌, [], ◌∷◌, IfOk};
ghost use Rattle.rv64_decode.specs.Form.{IsSigned, IsMultiple, ImmForm};
ghost use Rattle.rv64_decode.specs.Aim.{distance, IsNear};
ghost use Rattle.rv64_decode.specs.declared.instr.Instr.TheVariants.{Alu, AluImm, Branch, Store};
ghost use Rattle.rv64_decode.specs.declared.xinstr.XInstr.TheVariants.{Base, Put, Get, Id, Harts};
ghost use Rattle.stub_laws.specs.Code.{Appended};
ghost use Rattle.turn_copies.specs.Copies.{jump_to, number_into};

use check_code::macros::{push, push_number};
use rv64_decode::{AluOp, BranchOp, ImmOp, Instr, Reg, StoreOp, XInstr};
use std::alloc::AllocError;

/// Appends an operation on two registers. Registers are given by their numbers.
pub(crate) fn alu(
    code: &mut Vec<u32>,
    op: AluOp,
    rd: u8,
    rs1: u8,
    rs2: u8,
) -> Result<(), AllocError>
    requires { (rd < 32) × (rs1 < 32) × (rs2 < 32) }
    ensures { IfOk result (λ u. Appended code.old.items code.new.items (Base (Alu op rd rs1 rs2) ∷ [])) }
{
    let i = Instr::Alu {
        op,
        rd: Reg::new(rd),
        rs1: Reg::new(rs1),
        rs2: Reg::new(rs2),
    };
    push(code, XInstr::Base(i))
}

/// Appends an operation on a register and an immediate.
pub(crate) fn imm(
    code: &mut Vec<u32>,
    op: ImmOp,
    rd: u8,
    rs1: u8,
    imm: i32,
) -> Result<(), AllocError>
    requires registers { (rd < 32) × (rs1 < 32) }
    requires form { ImmForm op imm }
    ensures { IfOk result (λ u. Appended code.old.items code.new.items (Base (AluImm op rd rs1 imm) ∷ [])) }
{
    let i = Instr::AluImm {
        op,
        rd: Reg::new(rd),
        rs1: Reg::new(rs1),
        imm,
    };
    push(code, XInstr::Base(i))
}

/// Appends a branch by so many bytes.
pub(crate) fn branch(
    code: &mut Vec<u32>,
    op: BranchOp,
    rs1: u8,
    rs2: u8,
    imm: i32,
) -> Result<(), AllocError>
    requires registers { (rs1 < 32) × (rs2 < 32) }
    requires form { IsSigned 13 imm × IsMultiple 1 imm }
    ensures { IfOk result (λ u. Appended code.old.items code.new.items (Base (Branch op rs1 rs2 imm) ∷ [])) }
{
    let i = Instr::Branch {
        op,
        rs1: Reg::new(rs1),
        rs2: Reg::new(rs2),
        imm,
    };
    push(code, XInstr::Base(i))
}

/// Appends a store of the register `rs2` at an offset from the register `rs1`.
pub(crate) fn store(
    code: &mut Vec<u32>,
    op: StoreOp,
    rs1: u8,
    rs2: u8,
    imm: i32,
) -> Result<(), AllocError>
    requires registers { (rs1 < 32) × (rs2 < 32) }
    requires form { IsSigned 12 imm }
    ensures { IfOk result (λ u. Appended code.old.items code.new.items (Base (Store op rs1 rs2 imm) ∷ [])) }
{
    let i = Instr::Store {
        op,
        rs1: Reg::new(rs1),
        rs2: Reg::new(rs2),
        imm,
    };
    push(code, XInstr::Base(i))
}

/// Appends what puts a register into a slot.
pub(crate) fn put(code: &mut Vec<u32>, slot: u8, rs1: u8) -> Result<(), AllocError>
    requires { (slot < 32) × (rs1 < 32) }
    ensures { IfOk result (λ u. Appended code.old.items code.new.items (Put slot rs1 ∷ [])) }
{
    let rs1 = Reg::new(rs1);
    push(code, XInstr::Put { slot, rs1 })
}

/// Appends what gets a slot into a register.
pub(crate) fn get(code: &mut Vec<u32>, rd: u8, slot: u8) -> Result<(), AllocError>
    requires { (rd < 32) × (slot < 32) }
    ensures { IfOk result (λ u. Appended code.old.items code.new.items (Get rd slot ∷ [])) }
{
    let rd = Reg::new(rd);
    push(code, XInstr::Get { rd, slot })
}

/// Appends what gets the hart's number into a register.
pub(crate) fn id(code: &mut Vec<u32>, rd: u8) -> Result<(), AllocError>
    requires { rd < 32 }
    ensures { IfOk result (λ u. Appended code.old.items code.new.items (Id rd ∷ [])) }
{
    let rd = Reg::new(rd);
    push(code, XInstr::Id { rd })
}

/// Appends what gets the number of harts into a register.
pub(crate) fn harts(code: &mut Vec<u32>, rd: u8) -> Result<(), AllocError>
    requires { rd < 32 }
    ensures { IfOk result (λ u. Appended code.old.items code.new.items (Harts rd ∷ [])) }
{
    let rd = Reg::new(rd);
    push(code, XInstr::Harts { rd })
}

/// Appends a number into a register.
pub(crate) fn number(code: &mut Vec<u32>, r: u8, v: i64) -> Result<(), AllocError>
    requires { r < 32 }
    ensures { IfOk result (λ u. Appended code.old.items code.new.items (number_into r v)) }
{
    push_number(code, Reg::new(r), v)
}

/// How many bytes a jump goes from one place to another.
pub(crate) fn bytes_to(to: u32, from: u32) -> i32
    requires { IsNear to from }
    ensures value { result ≡ distance to from }
    ensures even { IsMultiple 1 result }
{
    let bytes = (to as i64 - from as i64) * 4;
    bytes as i32
}

/// Appends the jump from the place `from` to the place `to`.
pub(crate) fn jump(code: &mut Vec<u32>, to: u32, from: u32) -> Result<(), AllocError>
    requires { IsNear to from }
    ensures { IfOk result (λ u. Appended code.old.items code.new.items (jump_to to from ∷ [])) }
{
    let i = Instr::Jal {
        rd: Reg::new(0),
        imm: bytes_to(to, from),
    };
    push(code, XInstr::Base(i))
}
