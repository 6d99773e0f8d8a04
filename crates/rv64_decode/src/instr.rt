ghost use Rattle.std.specs.Prelude.{◌≡◌};
ghost use Rattle.rv64_decode.specs.Row.{load_width, store_width};

use crate::memory::Width;
use crate::registers::Reg;

/// An operation on two registers: the form R of the RISC-V unprivileged manual, chapters "RV32I" and
/// "RV64I Base Integer Instruction Set", "Integer Register-Register Operations", and "M Extension for
/// Integer Multiplication and Division". The names are the manual's mnemonics.
#[derive(Clone, Copy, PartialEq, Eq, Debug)]
pub enum AluOp {
    // on 64 bits
    Add,
    Sub,
    Sll,
    Slt,
    Sltu,
    Xor,
    Srl,
    Sra,
    Or,
    And,
    // on the low 32 bits, sign-extended
    Addw,
    Subw,
    Sllw,
    Srlw,
    Sraw,
    // multiplication and division, on 64 bits
    Mul,
    Mulh,
    Mulhsu,
    Mulhu,
    Div,
    Divu,
    Rem,
    Remu,
    // multiplication and division, on the low 32 bits, sign-extended
    Mulw,
    Divw,
    Divuw,
    Remw,
    Remuw,
}

/// An operation on a register and an immediate: "Integer Register-Immediate Instructions" of RV32I
/// and RV64I.
#[derive(Clone, Copy, PartialEq, Eq, Debug)]
pub enum ImmOp {
    // on 64 bits, with a signed number of 12 bits
    Addi,
    Slti,
    Sltiu,
    Xori,
    Ori,
    Andi,
    // on 64 bits, with an amount from 0 to 63
    Slli,
    Srli,
    Srai,
    // on the low 32 bits, sign-extended, with a signed number of 12 bits
    Addiw,
    // on the low 32 bits, sign-extended, with an amount from 0 to 31
    Slliw,
    Srliw,
    Sraiw,
}

/// An operation with a 20-bit upper immediate: the form U.
#[derive(Clone, Copy, PartialEq, Eq, Debug)]
pub enum UpperOp {
    Lui,
    Auipc,
}

/// A load, by how many bytes it reads and how it extends them: "Load and Store Instructions" of RV32I
/// and RV64I.
#[derive(Clone, Copy, PartialEq, Eq, Debug)]
pub enum LoadOp {
    // sign-extended
    Lb,
    Lh,
    Lw,
    // zero-extended
    Lbu,
    Lhu,
    Lwu,
    // all 64 bits
    Ld,
}

impl LoadOp {
    /// How many bytes it reads.
    #[inline]
    pub fn width(self) -> Width
        ensures { result ≡ load_width self }
    {
        match self {
            LoadOp::Lb | LoadOp::Lbu => Width::One,
            LoadOp::Lh | LoadOp::Lhu => Width::Two,
            LoadOp::Lw | LoadOp::Lwu => Width::Four,
            LoadOp::Ld => Width::Eight,
        }
    }
}

/// A store, by how many bytes it writes: "Load and Store Instructions" of RV32I and RV64I.
#[derive(Clone, Copy, PartialEq, Eq, Debug)]
pub enum StoreOp {
    Sb,
    Sh,
    Sw,
    Sd,
}

impl StoreOp {
    /// How many bytes it writes.
    #[inline]
    pub fn width(self) -> Width
        ensures { result ≡ store_width self }
    {
        match self {
            StoreOp::Sb => Width::One,
            StoreOp::Sh => Width::Two,
            StoreOp::Sw => Width::Four,
            StoreOp::Sd => Width::Eight,
        }
    }
}

/// A comparison of two whole registers: "Conditional Branches" of RV32I.
#[derive(Clone, Copy, PartialEq, Eq, Debug)]
pub enum BranchOp {
    // equal or not
    Beq,
    Bne,
    // signed
    Blt,
    Bge,
    // unsigned
    Bltu,
    Bgeu,
}

/// An instruction of RV64IM, grouped by the forms of the manual's "RV32/64G Instruction Set Listings".
///
/// `rd` is the register that is written, `rs1` and `rs2` are those that are read. `imm` is the signed
/// number that the word's immediate stands for: an offset in bytes for loads, stores, branches and
/// jumps, the amount for a shift, and for lui and auipc the number with its low 12 bits 0.
#[derive(Clone, Copy, PartialEq, Eq, Debug)]
pub enum Instr {
    /// A register from two registers.
    Alu {
        op: AluOp,
        rd: Reg,
        rs1: Reg,
        rs2: Reg,
    },
    /// A register from a register and an immediate.
    AluImm {
        op: ImmOp,
        rd: Reg,
        rs1: Reg,
        imm: i32,
    },
    /// A register from an upper immediate, for auipc added to pc.
    Upper {
        op: UpperOp,
        rd: Reg,
        imm: i32,
    },
    /// A register from memory at `rs1` plus `imm`.
    Load {
        op: LoadOp,
        rd: Reg,
        rs1: Reg,
        imm: i32,
    },
    /// `rs2` into memory at `rs1` plus `imm`.
    Store {
        op: StoreOp,
        rs1: Reg,
        rs2: Reg,
        imm: i32,
    },
    /// A jump to pc plus `imm` where the comparison holds.
    Branch {
        op: BranchOp,
        rs1: Reg,
        rs2: Reg,
        imm: i32,
    },
    /// A jump to pc plus `imm`; `rd` gets the address after this instruction.
    Jal {
        rd: Reg,
        imm: i32,
    },
    /// A jump to `rs1` plus `imm`, with bit 0 cleared; `rd` gets the address after this instruction.
    Jalr {
        rd: Reg,
        rs1: Reg,
        imm: i32,
    },
    /// An ordering of memory accesses, which one hart with one memory need not act on. All fields are
    /// kept as they stand in the word ("Memory Ordering Instructions").
    Fence {
        rd: Reg,
        rs1: Reg,
        imm: i32,
    },
    /// A call of the environment ("Environment Call and Breakpoints").
    Ecall,
    /// A return to a debugger.
    Ebreak,
}
