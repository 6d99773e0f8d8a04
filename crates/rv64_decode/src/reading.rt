ghost use Rattle.std.specs.Prelude.{◌≡◌, ◌≢◌, ◌↔◌, ◌+◌, ◌-◌, ◌*◌, ◌/◌, ◌%◌, ◌<◌, ◌≤◌, ◌^◌, Some, IfSome};
ghost use Rattle.rv64_decode.specs.Fields.{opcode, signed_by, rd_of, rs1_of, rs2_of, imm_i, imm_s, imm_b, imm_u, imm_j};
ghost use Rattle.rv64_decode.specs.Operations.{alu_by, alu_w_by, imm_by, imm_w_by, load_by, store_by, branch_by};
ghost use Rattle.rv64_decode.specs.Table.{Means, decoded, imm_for};
ghost use Rattle.rv64_decode.specs.Form.{InForm};
ghost use Rattle.rv64_decode.specs.declared.instr.Instr.{Instr};

use crate::instr::{AluOp, BranchOp, ImmOp, Instr, LoadOp, StoreOp, UpperOp};
use crate::registers::Reg;

fn signed(half: u32, value: u32) -> i32
    requires most { half ≤ 2 ^ 20 }
    requires fits { value < 2 * half }
    ensures { result ≡ signed_by half value }
{
    if value < half {
        value as i32
    } else {
        value as i32 - half as i32 - half as i32
    }
}

fn i_immediate(word: u32) -> i32
    ensures { result ≡ imm_i word }
{
    signed(0x800, word >> 20)
}

fn s_immediate(word: u32) -> i32
    ensures { result ≡ imm_s word }
{
    signed(0x800, (word >> 25) * 32 + (word >> 7) % 32)
}

fn b_immediate(word: u32) -> i32
    ensures { result ≡ imm_b word }
{
    let high = (word >> 31) * 4096 + (word >> 7) % 2 * 2048;
    signed(0x1000, high + (word >> 25) % 64 * 32 + (word >> 8) % 16 * 2)
}

fn u_immediate(word: u32) -> i32
    ensures { result ≡ imm_u word }
{
    ((word >> 12) * 4096).cast_signed()
}

fn j_immediate(word: u32) -> i32
    ensures { result ≡ imm_j word }
{
    let high = (word >> 31) * 0x10_0000 + (word >> 12) % 256 * 4096;
    signed(
        0x10_0000,
        high + (word >> 20) % 2 * 2048 + (word >> 21) % 1024 * 2,
    )
}

pub(crate) fn rd(word: u32) -> Reg
    ensures { result ≡ rd_of word }
{
    Reg::new(((word >> 7) % 32) as u8)
}

pub(crate) fn rs1(word: u32) -> Reg
    ensures { result ≡ rs1_of word }
{
    Reg::new(((word >> 15) % 32) as u8)
}

pub(crate) fn rs2(word: u32) -> Reg
    ensures { result ≡ rs2_of word }
{
    Reg::new(((word >> 20) % 32) as u8)
}

fn alu_op(three: u32, high: u32) -> Option<AluOp>
    ensures { result ≡ alu_by three high }
{
    match (three, high) {
        (0, 0) => Some(AluOp::Add),
        (1, 0) => Some(AluOp::Sll),
        (2, 0) => Some(AluOp::Slt),
        (3, 0) => Some(AluOp::Sltu),
        (4, 0) => Some(AluOp::Xor),
        (5, 0) => Some(AluOp::Srl),
        (6, 0) => Some(AluOp::Or),
        (7, 0) => Some(AluOp::And),
        (0, 32) => Some(AluOp::Sub),
        (5, 32) => Some(AluOp::Sra),
        (0, 1) => Some(AluOp::Mul),
        (1, 1) => Some(AluOp::Mulh),
        (2, 1) => Some(AluOp::Mulhsu),
        (3, 1) => Some(AluOp::Mulhu),
        (4, 1) => Some(AluOp::Div),
        (5, 1) => Some(AluOp::Divu),
        (6, 1) => Some(AluOp::Rem),
        (7, 1) => Some(AluOp::Remu),
        _ => None,
    }
}

fn alu_w_op(three: u32, high: u32) -> Option<AluOp>
    ensures { result ≡ alu_w_by three high }
{
    match (three, high) {
        (0, 0) => Some(AluOp::Addw),
        (1, 0) => Some(AluOp::Sllw),
        (5, 0) => Some(AluOp::Srlw),
        (0, 32) => Some(AluOp::Subw),
        (5, 32) => Some(AluOp::Sraw),
        (0, 1) => Some(AluOp::Mulw),
        (4, 1) => Some(AluOp::Divw),
        (5, 1) => Some(AluOp::Divuw),
        (6, 1) => Some(AluOp::Remw),
        (7, 1) => Some(AluOp::Remuw),
        _ => None,
    }
}

fn imm_op(three: u32, high: u32) -> Option<ImmOp>
    ensures { result ≡ imm_by three high }
{
    match (three, high) {
        (0, _) => Some(ImmOp::Addi),
        (2, _) => Some(ImmOp::Slti),
        (3, _) => Some(ImmOp::Sltiu),
        (4, _) => Some(ImmOp::Xori),
        (6, _) => Some(ImmOp::Ori),
        (7, _) => Some(ImmOp::Andi),
        (1, 0) => Some(ImmOp::Slli),
        (5, 0) => Some(ImmOp::Srli),
        (5, 16) => Some(ImmOp::Srai),
        _ => None,
    }
}

fn imm_w_op(three: u32, high: u32) -> Option<ImmOp>
    ensures { result ≡ imm_w_by three high }
{
    match (three, high) {
        (0, _) => Some(ImmOp::Addiw),
        (1, 0) => Some(ImmOp::Slliw),
        (5, 0) => Some(ImmOp::Srliw),
        (5, 32) => Some(ImmOp::Sraiw),
        _ => None,
    }
}

fn load_op(three: u32) -> Option<LoadOp>
    ensures { result ≡ load_by three }
{
    match three {
        0 => Some(LoadOp::Lb),
        1 => Some(LoadOp::Lh),
        2 => Some(LoadOp::Lw),
        3 => Some(LoadOp::Ld),
        4 => Some(LoadOp::Lbu),
        5 => Some(LoadOp::Lhu),
        6 => Some(LoadOp::Lwu),
        _ => None,
    }
}

fn store_op(three: u32) -> Option<StoreOp>
    ensures { result ≡ store_by three }
{
    match three {
        0 => Some(StoreOp::Sb),
        1 => Some(StoreOp::Sh),
        2 => Some(StoreOp::Sw),
        3 => Some(StoreOp::Sd),
        _ => None,
    }
}

fn branch_op(three: u32) -> Option<BranchOp>
    ensures { result ≡ branch_by three }
{
    match three {
        0 => Some(BranchOp::Beq),
        1 => Some(BranchOp::Bne),
        4 => Some(BranchOp::Blt),
        5 => Some(BranchOp::Bge),
        6 => Some(BranchOp::Bltu),
        7 => Some(BranchOp::Bgeu),
        _ => None,
    }
}

fn immediate(op: ImmOp, word: u32) -> i32
    ensures { result ≡ imm_for op word }
{
    match op {
        ImmOp::Slli | ImmOp::Srli | ImmOp::Srai => ((word >> 20) % 64) as i32,
        ImmOp::Slliw | ImmOp::Srliw | ImmOp::Sraiw => ((word >> 20) % 32) as i32,
        _ => i_immediate(word),
    }
}

fn upper(op: UpperOp, word: u32) -> Instr
    ensures { result ≡ Instr.Upper op (rd_of word) (imm_u word) }
{
    Instr::Upper {
        op,
        rd: rd(word),
        imm: u_immediate(word),
    }
}

// An operation on two registers, of 64 bits.
#[tactic(auto, using(crate::proofs::Rows::alu33_forth, crate::proofs::Rows::alu33_back))]
#[inline(always)]
fn register_form(word: u32) -> Option<Instr>
    requires { opcode word ≡ 0x33 }
    ensures table { (i : Instr) → (result ≡ Some i) ↔ Means word i }
    ensures value { result ≡ decoded word }
    ensures means { IfSome result (λ i. Means word i) }
    ensures form { IfSome result InForm }
{
    let op = alu_op((word >> 12) % 8, word >> 25)?;
    Some(Instr::Alu {
        op,
        rd: rd(word),
        rs1: rs1(word),
        rs2: rs2(word),
    })
}

// The same, of 32 bits.
#[tactic(auto, using(crate::proofs::Rows::alu3b_forth, crate::proofs::Rows::alu3b_back))]
#[inline(always)]
fn short_register_form(word: u32) -> Option<Instr>
    requires { opcode word ≡ 0x3B }
    ensures table { (i : Instr) → (result ≡ Some i) ↔ Means word i }
    ensures value { result ≡ decoded word }
    ensures means { IfSome result (λ i. Means word i) }
    ensures form { IfSome result InForm }
{
    let op = alu_w_op((word >> 12) % 8, word >> 25)?;
    Some(Instr::Alu {
        op,
        rd: rd(word),
        rs1: rs1(word),
        rs2: rs2(word),
    })
}

// An operation on a register and an immediate, of 64 bits.
#[tactic(auto, using(crate::proofs::Rows::imm13_forth, crate::proofs::Rows::imm13_back))]
#[inline(always)]
fn immediate_form(word: u32) -> Option<Instr>
    requires { opcode word ≡ 0x13 }
    ensures table { (i : Instr) → (result ≡ Some i) ↔ Means word i }
    ensures value { result ≡ decoded word }
    ensures means { IfSome result (λ i. Means word i) }
    ensures form { IfSome result InForm }
{
    let op = imm_op((word >> 12) % 8, word >> 26)?;
    Some(Instr::AluImm {
        op,
        rd: rd(word),
        rs1: rs1(word),
        imm: immediate(op, word),
    })
}

// The same, of 32 bits.
#[tactic(auto, using(crate::proofs::Rows::imm1b_forth, crate::proofs::Rows::imm1b_back))]
#[inline(always)]
fn short_immediate_form(word: u32) -> Option<Instr>
    requires { opcode word ≡ 0x1B }
    ensures table { (i : Instr) → (result ≡ Some i) ↔ Means word i }
    ensures value { result ≡ decoded word }
    ensures means { IfSome result (λ i. Means word i) }
    ensures form { IfSome result InForm }
{
    let op = imm_w_op((word >> 12) % 8, word >> 25)?;
    Some(Instr::AluImm {
        op,
        rd: rd(word),
        rs1: rs1(word),
        imm: immediate(op, word),
    })
}

#[inline(always)]
fn load_form(word: u32) -> Option<Instr>
    requires { opcode word ≡ 0x03 }
    ensures table { (i : Instr) → (result ≡ Some i) ↔ Means word i }
    ensures value { result ≡ decoded word }
    ensures means { IfSome result (λ i. Means word i) }
    ensures form { IfSome result InForm }
{
    let op = load_op((word >> 12) % 8)?;
    Some(Instr::Load {
        op,
        rd: rd(word),
        rs1: rs1(word),
        imm: i_immediate(word),
    })
}

#[inline(always)]
fn store_form(word: u32) -> Option<Instr>
    requires { opcode word ≡ 0x23 }
    ensures table { (i : Instr) → (result ≡ Some i) ↔ Means word i }
    ensures value { result ≡ decoded word }
    ensures means { IfSome result (λ i. Means word i) }
    ensures form { IfSome result InForm }
{
    let op = store_op((word >> 12) % 8)?;
    Some(Instr::Store {
        op,
        rs1: rs1(word),
        rs2: rs2(word),
        imm: s_immediate(word),
    })
}

#[inline(always)]
fn branch_form(word: u32) -> Option<Instr>
    requires { opcode word ≡ 0x63 }
    ensures table { (i : Instr) → (result ≡ Some i) ↔ Means word i }
    ensures value { result ≡ decoded word }
    ensures means { IfSome result (λ i. Means word i) }
    ensures form { IfSome result InForm }
{
    let op = branch_op((word >> 12) % 8)?;
    Some(Instr::Branch {
        op,
        rs1: rs1(word),
        rs2: rs2(word),
        imm: b_immediate(word),
    })
}

// What stands without an operation of its own: an upper immediate, a jump, a fence or a system call.
#[inline(always)]
fn other_form(word: u32) -> Option<Instr>
    requires registers { (opcode word ≢ 0x33) × (opcode word ≢ 0x3B) }
    requires immediates { (opcode word ≢ 0x13) × (opcode word ≢ 0x1B) }
    requires accesses { (opcode word ≢ 0x03) × (opcode word ≢ 0x23) × (opcode word ≢ 0x63) }
    ensures table { (i : Instr) → (result ≡ Some i) ↔ Means word i }
    ensures value { result ≡ decoded word }
    ensures means { IfSome result (λ i. Means word i) }
    ensures form { IfSome result InForm }
{
    let three = (word >> 12) % 8;
    match word % 128 {
        0x37 => Some(upper(UpperOp::Lui, word)),
        0x17 => Some(upper(UpperOp::Auipc, word)),
        0x6F => Some(Instr::Jal {
            rd: rd(word),
            imm: j_immediate(word),
        }),
        0x67 if three == 0 => Some(Instr::Jalr {
            rd: rd(word),
            rs1: rs1(word),
            imm: i_immediate(word),
        }),
        0x0F if three == 0 => Some(Instr::Fence {
            rd: rd(word),
            rs1: rs1(word),
            imm: i_immediate(word),
        }),
        _ => match word {
            0x73 => Some(Instr::Ecall),
            0x10_0073 => Some(Instr::Ebreak),
            _ => None,
        },
    }
}

/// The instruction that a word stands for; `None` for a word outside RV64IM (RISC-V unprivileged
/// manual, "RV32/64G Instruction Set Listings": RV32I, RV64I, RV32M and RV64M).
#[inline(always)]
pub fn decode(word: u32) -> Option<Instr>
    ensures table { (i : Instr) → (result ≡ Some i) ↔ Means word i }
    ensures value { result ≡ decoded word }
    ensures means { IfSome result (λ i. Means word i) }
    ensures form { IfSome result InForm }
{
    match word % 128 {
        0x33 => register_form(word),
        0x3B => short_register_form(word),
        0x13 => immediate_form(word),
        0x1B => short_immediate_form(word),
        0x03 => load_form(word),
        0x23 => store_form(word),
        0x63 => branch_form(word),
        _ => other_form(word),
    }
}
