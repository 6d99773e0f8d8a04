ghost use Rattle.std.specs.Prelude.{◌≡◌};
ghost use Rattle.rv64_meaning.specs.Mnemonics.{instr_of};

use crate::mnemonic::Mnemonic;
use rv64_decode::{Instr, Reg};

/// A decoded instruction in one form for all: its mnemonic, and each field that some form has. One jump
/// finds what it does, where an [`Instr`] takes one by its form and one by its operation.
#[derive(Clone, Copy, PartialEq, Eq, Debug)]
pub struct Decoded {
    pub mnemonic: Mnemonic,
    pub rd: Reg,
    pub rs1: Reg,
    pub rs2: Reg,
    pub imm: i32,
}

fn form(mnemonic: Mnemonic, rd: Reg, rs1: Reg, rs2: Reg, imm: i32) -> Decoded
    ensures { result ≡ record { mnemonic = mnemonic; rd = rd; rs1 = rs1; rs2 = rs2; imm = imm } }
{
    Decoded {
        mnemonic,
        rd,
        rs1,
        rs2,
        imm,
    }
}

impl Decoded {
    /// An instruction in this form. A field that its own form has not is 0, and means nothing.
    pub fn new(i: Instr) -> Decoded
        ensures { instr_of result ≡ i }
    {
        let x0 = Reg::new(0);
        match i {
            Instr::Alu { op, rd, rs1, rs2 } => form(Mnemonic::of_alu(op), rd, rs1, rs2, 0),
            Instr::AluImm { op, rd, rs1, imm } => form(Mnemonic::of_imm(op), rd, rs1, x0, imm),
            Instr::Upper { op, rd, imm } => form(Mnemonic::of_upper(op), rd, x0, x0, imm),
            Instr::Load { op, rd, rs1, imm } => form(Mnemonic::of_load(op), rd, rs1, x0, imm),
            Instr::Store { op, rs1, rs2, imm } => form(Mnemonic::of_store(op), x0, rs1, rs2, imm),
            Instr::Branch { op, rs1, rs2, imm } => form(Mnemonic::of_branch(op), x0, rs1, rs2, imm),
            Instr::Jal { rd, imm } => form(Mnemonic::Jal, rd, x0, x0, imm),
            Instr::Jalr { rd, rs1, imm } => form(Mnemonic::Jalr, rd, rs1, x0, imm),
            Instr::Fence { rd, rs1, imm } => form(Mnemonic::Fence, rd, rs1, x0, imm),
            Instr::Ecall => form(Mnemonic::Ecall, x0, x0, x0, 0),
            Instr::Ebreak => form(Mnemonic::Ebreak, x0, x0, x0, 0),
        }
    }
}
