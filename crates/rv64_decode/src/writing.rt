ghost use Rattle.std.specs.Prelude.{◌≡◌, ◌↔◌, ◌+◌, ◌*◌, ◌/◌, ◌%◌, ◌<◌, ◌≤◌, ◌^◌, ℕ, Some, ◌≤ℤ◌, pos, negsuc, IsTrue, IsSome, IfSome};
ghost use Rattle.std.specs.Int.{w32, cast_unsigned};
ghost use Rattle.rv64_decode.specs.Fields.{opcode, rd_of, rs1_of, rs2_of, amount64, imm_i, imm_s, imm_b, imm_u, imm_j};
ghost use Rattle.rv64_decode.specs.Table.{Means, decoded, IsAlu, IsLoad, IsStore, IsBranch, IsR, IsOp, IsShift};
ghost use Rattle.rv64_decode.specs.Form.{IsSigned, IsAmount, InForm};

use crate::instr::{AluOp, BranchOp, ImmOp, Instr, LoadOp, StoreOp, UpperOp};
use crate::registers::Reg;

// The opcode and both function numbers of an instruction.
pub(crate) struct FullCode {
    pub(crate) opcode: u32,
    pub(crate) three: u32,
    pub(crate) seven: u32,
}

// The opcode and the first function number of an instruction.
#[derive(Clone, Copy)]
struct ShortCode {
    opcode: u32,
    three: u32,
}

fn alu_code(op: AluOp) -> FullCode
    ensures small { (result.opcode < 2 ^ 7) × (result.three < 2 ^ 3) × (result.seven < 2 ^ 7) }
    ensures code { (w : ℕ) → IsAlu op w ↔ IsR result.opcode result.three result.seven w }
{
    let (opcode, three, seven) = match op {
        AluOp::Add => (0x33, 0, 0),
        AluOp::Sll => (0x33, 1, 0),
        AluOp::Slt => (0x33, 2, 0),
        AluOp::Sltu => (0x33, 3, 0),
        AluOp::Xor => (0x33, 4, 0),
        AluOp::Srl => (0x33, 5, 0),
        AluOp::Or => (0x33, 6, 0),
        AluOp::And => (0x33, 7, 0),
        AluOp::Sub => (0x33, 0, 0x20),
        AluOp::Sra => (0x33, 5, 0x20),
        AluOp::Mul => (0x33, 0, 1),
        AluOp::Mulh => (0x33, 1, 1),
        AluOp::Mulhsu => (0x33, 2, 1),
        AluOp::Mulhu => (0x33, 3, 1),
        AluOp::Div => (0x33, 4, 1),
        AluOp::Divu => (0x33, 5, 1),
        AluOp::Rem => (0x33, 6, 1),
        AluOp::Remu => (0x33, 7, 1),
        AluOp::Addw => (0x3B, 0, 0),
        AluOp::Sllw => (0x3B, 1, 0),
        AluOp::Srlw => (0x3B, 5, 0),
        AluOp::Subw => (0x3B, 0, 0x20),
        AluOp::Sraw => (0x3B, 5, 0x20),
        AluOp::Mulw => (0x3B, 0, 1),
        AluOp::Divw => (0x3B, 4, 1),
        AluOp::Divuw => (0x3B, 5, 1),
        AluOp::Remw => (0x3B, 6, 1),
        AluOp::Remuw => (0x3B, 7, 1),
    };
    FullCode {
        opcode,
        three,
        seven,
    }
}

/// The only word with these fields.
pub(crate) fn r_word(code: FullCode, rd: Reg, rs1: Reg, rs2: Reg) -> u32
    requires small { (code.opcode < 2 ^ 7) × (code.three < 2 ^ 3) × (code.seven < 2 ^ 7) }
    ensures { (w : ℕ) → w < 2 ^ 32 → (w ≡ result)
        ↔ (IsR code.opcode code.three code.seven w × (rd_of w ≡ rd) × (rs1_of w ≡ rs1) × (rs2_of w ≡ rs2)) }
{
    let FullCode {
        opcode,
        three,
        seven,
    } = code;
    let registers = rd.number() as u32 * 0x80
        + rs1.number() as u32 * 0x8000
        + rs2.number() as u32 * 0x10_0000;
    opcode + three * 0x1000 + registers + seven * 0x200_0000
}

/// The only word of the form I with these fields.
fn i_word(op: u32, three: u32, rd: Reg, rs1: Reg, imm: i32) -> u32
    requires small { (op < 2 ^ 7) × (three < 2 ^ 3) }
    requires low { negsuc 2047 ≤ℤ imm }
    requires high { imm ≤ℤ pos 2047 }
    ensures { (w : ℕ) → w < 2 ^ 32 → (w ≡ result)
        ↔ (IsOp op three w × (rd_of w ≡ rd) × (rs1_of w ≡ rs1) × (imm_i w ≡ imm)) }
{
    let bits = imm.cast_unsigned() % 0x1000;
    let registers = rd.number() as u32 * 0x80 + rs1.number() as u32 * 0x8000;
    op + three * 0x1000 + registers + bits * 0x10_0000
}

/// The only word of the form S with these fields.
fn s_word(op: u32, three: u32, rs1: Reg, rs2: Reg, imm: i32) -> u32
    requires small { (op < 2 ^ 7) × (three < 2 ^ 3) }
    requires low { negsuc 2047 ≤ℤ imm }
    requires high { imm ≤ℤ pos 2047 }
    ensures { (w : ℕ) → w < 2 ^ 32 → (w ≡ result)
        ↔ (IsOp op three w × (rs1_of w ≡ rs1) × (rs2_of w ≡ rs2) × (imm_s w ≡ imm)) }
{
    let bits = imm.cast_unsigned() % 0x1000;
    let registers = rs1.number() as u32 * 0x8000 + rs2.number() as u32 * 0x10_0000;
    op + three * 0x1000 + registers + bits % 0x20 * 0x80 + bits / 0x20 * 0x200_0000
}

/// The only word of the form B with these fields.
fn b_word(op: u32, three: u32, rs1: Reg, rs2: Reg, imm: i32) -> u32
    requires small { (op < 2 ^ 7) × (three < 2 ^ 3) }
    requires low { negsuc 4095 ≤ℤ imm }
    requires high { imm ≤ℤ pos 4095 }
    requires even { cast_unsigned w32 imm % 2 ≡ 0 }
    ensures { (w : ℕ) → w < 2 ^ 32 → (w ≡ result)
        ↔ (IsOp op three w × (rs1_of w ≡ rs1) × (rs2_of w ≡ rs2) × (imm_b w ≡ imm)) }
{
    let bits = imm.cast_unsigned() % 0x2000;
    let registers = rs1.number() as u32 * 0x8000 + rs2.number() as u32 * 0x10_0000;
    let lower = bits / 0x800 % 2 * 0x80 + bits / 2 % 0x10 * 0x100;
    let upper = bits / 0x20 % 0x40 * 0x200_0000 + bits / 0x1000 * 0x8000_0000;
    op + three * 0x1000 + registers + lower + upper
}

/// The only word of the form J with these fields.
pub(crate) fn j_word(op: u32, rd: Reg, imm: i32) -> u32
    requires small { op < 2 ^ 7 }
    requires low { negsuc 0xF_FFFF ≤ℤ imm }
    requires high { imm ≤ℤ pos 0xF_FFFF }
    requires even { cast_unsigned w32 imm % 2 ≡ 0 }
    ensures { (w : ℕ) → w < 2 ^ 32 → (w ≡ result)
        ↔ ((opcode w ≡ op) × (rd_of w ≡ rd) × (imm_j w ≡ imm)) }
{
    let bits = imm.cast_unsigned() % 0x20_0000;
    let lower = bits / 0x1000 % 0x100 * 0x1000 + bits / 0x800 % 2 * 0x10_0000;
    let upper = bits / 2 % 0x400 * 0x20_0000 + bits / 0x10_0000 * 0x8000_0000;
    op + rd.number() as u32 * 0x80 + lower + upper
}

fn load_code(op: LoadOp) -> ShortCode
    ensures small { (result.opcode < 2 ^ 7) × (result.three < 2 ^ 3) }
    ensures code { (w : ℕ) → IsLoad op w ↔ IsOp result.opcode result.three w }
{
    let (opcode, three) = match op {
        LoadOp::Lb => (0x03, 0),
        LoadOp::Lh => (0x03, 1),
        LoadOp::Lw => (0x03, 2),
        LoadOp::Ld => (0x03, 3),
        LoadOp::Lbu => (0x03, 4),
        LoadOp::Lhu => (0x03, 5),
        LoadOp::Lwu => (0x03, 6),
    };
    ShortCode { opcode, three }
}

fn store_code(op: StoreOp) -> ShortCode
    ensures small { (result.opcode < 2 ^ 7) × (result.three < 2 ^ 3) }
    ensures code { (w : ℕ) → IsStore op w ↔ IsOp result.opcode result.three w }
{
    let (opcode, three) = match op {
        StoreOp::Sb => (0x23, 0),
        StoreOp::Sh => (0x23, 1),
        StoreOp::Sw => (0x23, 2),
        StoreOp::Sd => (0x23, 3),
    };
    ShortCode { opcode, three }
}

fn branch_code(op: BranchOp) -> ShortCode
    ensures small { (result.opcode < 2 ^ 7) × (result.three < 2 ^ 3) }
    ensures code { (w : ℕ) → IsBranch op w ↔ IsOp result.opcode result.three w }
{
    let (opcode, three) = match op {
        BranchOp::Beq => (0x63, 0),
        BranchOp::Bne => (0x63, 1),
        BranchOp::Blt => (0x63, 4),
        BranchOp::Bge => (0x63, 5),
        BranchOp::Bltu => (0x63, 6),
        BranchOp::Bgeu => (0x63, 7),
    };
    ShortCode { opcode, three }
}

/// The only word of the form U with these fields.
fn u_word(op: u32, rd: Reg, imm: i32) -> u32
    requires small { op < 2 ^ 7 }
    requires whole { cast_unsigned w32 imm % 2 ^ 12 ≡ 0 }
    ensures { (w : ℕ) → w < 2 ^ 32 → (w ≡ result)
        ↔ ((opcode w ≡ op) × (rd_of w ≡ rd) × (imm_u w ≡ imm)) }
{
    op + rd.number() as u32 * 0x80 + imm.cast_unsigned()
}

/// The only word of a shift of 64 bits with these fields.
fn shift_word(three: u32, six: u32, rd: Reg, rs1: Reg, imm: i32) -> u32
    requires small { (three < 2 ^ 3) × (six < 2 ^ 6) }
    requires low { pos 0 ≤ℤ imm }
    requires high { imm ≤ℤ pos 63 }
    ensures { (w : ℕ) → w < 2 ^ 32 → (w ≡ result)
        ↔ (IsShift three six w × (rd_of w ≡ rd) × (rs1_of w ≡ rs1) × (amount64 w ≡ imm)) }
{
    let registers = rd.number() as u32 * 0x80 + rs1.number() as u32 * 0x8000;
    0x13 + three * 0x1000 + registers + imm as u32 * 0x10_0000 + six * 0x400_0000
}

fn in_twelve(imm: i32) -> bool
    ensures { IsTrue result ↔ ((negsuc 2047 ≤ℤ imm) × (imm ≤ℤ pos 2047)) }
{
    imm >= -0x800 && imm <= 0x7FF
}

fn immediate(op: u32, three: u32, rd: Reg, rs1: Reg, imm: i32) -> Option<u32>
    requires small { (op < 2 ^ 7) × (three < 2 ^ 3) }
    ensures words { (w : ℕ) → w < 2 ^ 32 → (result ≡ Some w)
        ↔ (IsOp op three w × (rd_of w ≡ rd) × (rs1_of w ≡ rs1) × (imm_i w ≡ imm)) }
    ensures form { IsSome result ↔ IsSigned 12 imm }
{
    if !in_twelve(imm) {
        return None;
    }
    Some(i_word(op, three, rd, rs1, imm))
}

fn shift(three: u32, six: u32, rd: Reg, rs1: Reg, imm: i32) -> Option<u32>
    requires small { (three < 2 ^ 3) × (six < 2 ^ 6) }
    ensures words { (w : ℕ) → w < 2 ^ 32 → (result ≡ Some w)
        ↔ (IsShift three six w × (rd_of w ≡ rd) × (rs1_of w ≡ rs1) × (amount64 w ≡ imm)) }
    ensures form { IsSome result ↔ IsAmount 63 imm }
{
    if imm < 0 || imm > 63 {
        return None;
    }
    Some(shift_word(three, six, rd, rs1, imm))
}

fn shift_w(three: u32, seven: u32, rd: Reg, rs1: Reg, imm: i32) -> Option<u32>
    requires small { (three < 2 ^ 3) × (seven < 2 ^ 7) }
    ensures words { (w : ℕ) → w < 2 ^ 32 → (result ≡ Some w)
        ↔ (IsR 0x1B three seven w × (rd_of w ≡ rd) × (rs1_of w ≡ rs1) × (pos (rs2_of w) ≡ imm)) }
    ensures form { IsSome result ↔ IsAmount 31 imm }
{
    if imm < 0 || imm > 31 {
        return None;
    }
    let code = FullCode {
        opcode: 0x1B,
        three,
        seven,
    };
    Some(r_word(code, rd, rs1, Reg::new(imm as u8)))
}

/// The word of an operation with an immediate.
fn encode_imm(op: ImmOp, rd: Reg, rs1: Reg, imm: i32) -> Option<u32>
    ensures words { (w : ℕ) → w < 2 ^ 32 → (result ≡ Some w) ↔ Means w (Instr.AluImm op rd rs1 imm) }
    ensures form { IsSome result ↔ InForm (Instr.AluImm op rd rs1 imm) }
{
    match op {
        ImmOp::Addi => immediate(0x13, 0, rd, rs1, imm),
        ImmOp::Slti => immediate(0x13, 2, rd, rs1, imm),
        ImmOp::Sltiu => immediate(0x13, 3, rd, rs1, imm),
        ImmOp::Xori => immediate(0x13, 4, rd, rs1, imm),
        ImmOp::Ori => immediate(0x13, 6, rd, rs1, imm),
        ImmOp::Andi => immediate(0x13, 7, rd, rs1, imm),
        ImmOp::Addiw => immediate(0x1B, 0, rd, rs1, imm),
        ImmOp::Slli => shift(1, 0, rd, rs1, imm),
        ImmOp::Srli => shift(5, 0, rd, rs1, imm),
        ImmOp::Srai => shift(5, 16, rd, rs1, imm),
        ImmOp::Slliw => shift_w(1, 0, rd, rs1, imm),
        ImmOp::Srliw => shift_w(5, 0, rd, rs1, imm),
        ImmOp::Sraiw => shift_w(5, 32, rd, rs1, imm),
    }
}

fn encode_upper(op: UpperOp, rd: Reg, imm: i32) -> Option<u32>
    ensures words { (w : ℕ) → w < 2 ^ 32 → (result ≡ Some w) ↔ Means w (Instr.Upper op rd imm) }
    ensures form { IsSome result ↔ InForm (Instr.Upper op rd imm) }
{
    if imm.cast_unsigned() % 0x1000 != 0 {
        return None;
    }
    match op {
        UpperOp::Lui => Some(u_word(0x37, rd, imm)),
        UpperOp::Auipc => Some(u_word(0x17, rd, imm)),
    }
}

fn encode_alu(op: AluOp, rd: Reg, rs1: Reg, rs2: Reg) -> Option<u32>
    ensures words { (w : ℕ) → w < 2 ^ 32 → (result ≡ Some w) ↔ Means w (Instr.Alu op rd rs1 rs2) }
    ensures form { IsSome result ↔ InForm (Instr.Alu op rd rs1 rs2) }
{
    Some(r_word(alu_code(op), rd, rs1, rs2))
}

fn encode_load(op: LoadOp, rd: Reg, rs1: Reg, imm: i32) -> Option<u32>
    ensures words { (w : ℕ) → w < 2 ^ 32 → (result ≡ Some w) ↔ Means w (Instr.Load op rd rs1 imm) }
    ensures form { IsSome result ↔ InForm (Instr.Load op rd rs1 imm) }
{
    let code = load_code(op);
    immediate(code.opcode, code.three, rd, rs1, imm)
}

fn encode_store(op: StoreOp, rs1: Reg, rs2: Reg, imm: i32) -> Option<u32>
    ensures words { (w : ℕ) → w < 2 ^ 32 → (result ≡ Some w) ↔ Means w (Instr.Store op rs1 rs2 imm) }
    ensures form { IsSome result ↔ InForm (Instr.Store op rs1 rs2 imm) }
{
    if !in_twelve(imm) {
        return None;
    }
    let code = store_code(op);
    Some(s_word(code.opcode, code.three, rs1, rs2, imm))
}

fn encode_branch(op: BranchOp, rs1: Reg, rs2: Reg, imm: i32) -> Option<u32>
    ensures words { (w : ℕ) → w < 2 ^ 32 → (result ≡ Some w) ↔ Means w (Instr.Branch op rs1 rs2 imm) }
    ensures form { IsSome result ↔ InForm (Instr.Branch op rs1 rs2 imm) }
{
    if imm < -0x1000 || imm > 0xFFF || imm.cast_unsigned() % 2 != 0 {
        return None;
    }
    let code = branch_code(op);
    Some(b_word(code.opcode, code.three, rs1, rs2, imm))
}

fn encode_jal(rd: Reg, imm: i32) -> Option<u32>
    ensures words { (w : ℕ) → w < 2 ^ 32 → (result ≡ Some w) ↔ Means w (Instr.Jal rd imm) }
    ensures form { IsSome result ↔ InForm (Instr.Jal rd imm) }
{
    if imm < -0x10_0000 || imm > 0xF_FFFF || imm.cast_unsigned() % 2 != 0 {
        return None;
    }
    Some(j_word(0x6F, rd, imm))
}

fn word_of(i: Instr) -> Option<u32>
    ensures words { (w : ℕ) → w < 2 ^ 32 → (result ≡ Some w) ↔ Means w i }
    ensures form { IsSome result ↔ InForm i }
{
    match i {
        Instr::Alu { op, rd, rs1, rs2 } => encode_alu(op, rd, rs1, rs2),
        Instr::AluImm { op, rd, rs1, imm } => encode_imm(op, rd, rs1, imm),
        Instr::Upper { op, rd, imm } => encode_upper(op, rd, imm),
        Instr::Load { op, rd, rs1, imm } => encode_load(op, rd, rs1, imm),
        Instr::Store { op, rs1, rs2, imm } => encode_store(op, rs1, rs2, imm),
        Instr::Branch { op, rs1, rs2, imm } => encode_branch(op, rs1, rs2, imm),
        Instr::Jal { rd, imm } => encode_jal(rd, imm),
        Instr::Jalr { rd, rs1, imm } => immediate(0x67, 0, rd, rs1, imm),
        Instr::Fence { rd, rs1, imm } => immediate(0x0F, 0, rd, rs1, imm),
        Instr::Ecall => Some(0x73),
        Instr::Ebreak => Some(0x10_0073),
    }
}

/// The word that stands for an instruction; `None` exactly where an immediate is outside its form
/// (RISC-V unprivileged manual, "RV32/64G Instruction Set Listings").
#[tactic(auto, using(crate::proofs::Decodes::means_decoded))]
pub fn encode(i: Instr) -> Option<u32>
    ensures words { (w : ℕ) → w < 2 ^ 32 → (result ≡ Some w) ↔ Means w i }
    ensures form { IsSome result ↔ InForm i }
    ensures decodes { IfSome result (λ w. decoded w ≡ Some i) }
{
    word_of(i)
}
