ghost use Rattle.std.specs.Prelude.{◌≡◌, Some};
ghost use Rattle.rv64_meaning.specs.Mnemonics.{alu_op, imm_op, upper_op, load_op, store_op, branch_op};

use rv64_decode::{AluOp, BranchOp, ImmOp, LoadOp, StoreOp, UpperOp};

/// What an instruction does, by its mnemonic, whatever its form: a row of the RISC-V unprivileged
/// manual's "RV32/64G Instruction Set Listings".
#[derive(Clone, Copy, PartialEq, Eq, Debug)]
pub enum Mnemonic {
    // an operation on two registers
    Add,
    Sub,
    Sll,
    Slt,
    Sltu,
    Xor,
    Srl,
    Sra,
    Or,
    And,
    Addw,
    Subw,
    Sllw,
    Srlw,
    Sraw,
    Mul,
    Mulh,
    Mulhsu,
    Mulhu,
    Div,
    Divu,
    Rem,
    Remu,
    Mulw,
    Divw,
    Divuw,
    Remw,
    Remuw,
    // an operation on a register and an immediate
    Addi,
    Slti,
    Sltiu,
    Xori,
    Ori,
    Andi,
    Slli,
    Srli,
    Srai,
    Addiw,
    Slliw,
    Srliw,
    Sraiw,
    // an upper immediate
    Lui,
    Auipc,
    // a load
    Lb,
    Lh,
    Lw,
    Lbu,
    Lhu,
    Lwu,
    Ld,
    // a store
    Sb,
    Sh,
    Sw,
    Sd,
    // a branch
    Beq,
    Bne,
    Blt,
    Bge,
    Bltu,
    Bgeu,
    // a form without operations
    Jal,
    Jalr,
    Fence,
    Ecall,
    Ebreak,
}

impl Mnemonic {
    // The mnemonic of an operation on two registers.
    pub(crate) fn of_alu(op: AluOp) -> Mnemonic
        ensures { alu_op result ≡ Some op }
    {
        match op {
            AluOp::Add => Mnemonic::Add,
            AluOp::Sub => Mnemonic::Sub,
            AluOp::Sll => Mnemonic::Sll,
            AluOp::Slt => Mnemonic::Slt,
            AluOp::Sltu => Mnemonic::Sltu,
            AluOp::Xor => Mnemonic::Xor,
            AluOp::Srl => Mnemonic::Srl,
            AluOp::Sra => Mnemonic::Sra,
            AluOp::Or => Mnemonic::Or,
            AluOp::And => Mnemonic::And,
            AluOp::Addw => Mnemonic::Addw,
            AluOp::Subw => Mnemonic::Subw,
            AluOp::Sllw => Mnemonic::Sllw,
            AluOp::Srlw => Mnemonic::Srlw,
            AluOp::Sraw => Mnemonic::Sraw,
            AluOp::Mul => Mnemonic::Mul,
            AluOp::Mulh => Mnemonic::Mulh,
            AluOp::Mulhsu => Mnemonic::Mulhsu,
            AluOp::Mulhu => Mnemonic::Mulhu,
            AluOp::Div => Mnemonic::Div,
            AluOp::Divu => Mnemonic::Divu,
            AluOp::Rem => Mnemonic::Rem,
            AluOp::Remu => Mnemonic::Remu,
            AluOp::Mulw => Mnemonic::Mulw,
            AluOp::Divw => Mnemonic::Divw,
            AluOp::Divuw => Mnemonic::Divuw,
            AluOp::Remw => Mnemonic::Remw,
            AluOp::Remuw => Mnemonic::Remuw,
        }
    }

    // The mnemonic of an operation on a register and an immediate.
    pub(crate) fn of_imm(op: ImmOp) -> Mnemonic
        ensures { imm_op result ≡ Some op }
    {
        match op {
            ImmOp::Addi => Mnemonic::Addi,
            ImmOp::Slti => Mnemonic::Slti,
            ImmOp::Sltiu => Mnemonic::Sltiu,
            ImmOp::Xori => Mnemonic::Xori,
            ImmOp::Ori => Mnemonic::Ori,
            ImmOp::Andi => Mnemonic::Andi,
            ImmOp::Slli => Mnemonic::Slli,
            ImmOp::Srli => Mnemonic::Srli,
            ImmOp::Srai => Mnemonic::Srai,
            ImmOp::Addiw => Mnemonic::Addiw,
            ImmOp::Slliw => Mnemonic::Slliw,
            ImmOp::Srliw => Mnemonic::Srliw,
            ImmOp::Sraiw => Mnemonic::Sraiw,
        }
    }

    // The mnemonic of an upper immediate.
    pub(crate) fn of_upper(op: UpperOp) -> Mnemonic
        ensures { upper_op result ≡ Some op }
    {
        match op {
            UpperOp::Lui => Mnemonic::Lui,
            UpperOp::Auipc => Mnemonic::Auipc,
        }
    }

    // The mnemonic of a load.
    pub(crate) fn of_load(op: LoadOp) -> Mnemonic
        ensures { load_op result ≡ Some op }
    {
        match op {
            LoadOp::Lb => Mnemonic::Lb,
            LoadOp::Lh => Mnemonic::Lh,
            LoadOp::Lw => Mnemonic::Lw,
            LoadOp::Lbu => Mnemonic::Lbu,
            LoadOp::Lhu => Mnemonic::Lhu,
            LoadOp::Lwu => Mnemonic::Lwu,
            LoadOp::Ld => Mnemonic::Ld,
        }
    }

    // The mnemonic of a store.
    pub(crate) fn of_store(op: StoreOp) -> Mnemonic
        ensures { store_op result ≡ Some op }
    {
        match op {
            StoreOp::Sb => Mnemonic::Sb,
            StoreOp::Sh => Mnemonic::Sh,
            StoreOp::Sw => Mnemonic::Sw,
            StoreOp::Sd => Mnemonic::Sd,
        }
    }

    // The mnemonic of a branch.
    pub(crate) fn of_branch(op: BranchOp) -> Mnemonic
        ensures { branch_op result ≡ Some op }
    {
        match op {
            BranchOp::Beq => Mnemonic::Beq,
            BranchOp::Bne => Mnemonic::Bne,
            BranchOp::Blt => Mnemonic::Blt,
            BranchOp::Bge => Mnemonic::Bge,
            BranchOp::Bltu => Mnemonic::Bltu,
            BranchOp::Bgeu => Mnemonic::Bgeu,
        }
    }
}
