ghost use Rattle.std.specs.Prelude.{◌≡◌, ◌-◌, ◌*◌, ◌/◌, ◌%◌, ◌<◌, ◌^◌};
ghost use Rattle.rv64_decode.specs.Area.{bytes_of};
ghost use Rattle.rv64_decode.specs.Row.{plus_offset, extended32 as extended32_of, divided32 as divided32_of, remainder32 as remainder32_of, high_product as high_product_of, low32, register_op as register_op_of, from_test as from_test_of, alu as alu_of, alu_imm as alu_imm_of, upper as upper_of, load_width, extended as extended_of, taken as taken_of};

use rv64_decode::{AluOp, BranchOp, ImmOp, LoadOp, UpperOp};

/// A word plus a signed number, as an address or a target.
pub fn plus_offset(a: u64, imm: i32) -> u64
    ensures { result ≡ plus_offset a imm }
{
    a.wrapping_add((imm as i64).cast_unsigned())
}

// The low 32 bits.
fn low(a: u64) -> u32
    ensures { result ≡ low32 a }
{
    (a % 0x1_0000_0000) as u32
}

// 32 bits, sign-extended.
fn extended32(a: u32) -> u64
    ensures { result ≡ extended32_of a }
{
    (a.cast_signed() as i64).cast_unsigned()
}

// What a comparison gives.
fn from_test(b: bool) -> u64
    ensures { result ≡ from_test_of b }
{
    if b { 1 } else { 0 }
}

/// What an operation on two words gives.
#[inline(always)]
pub fn alu(op: AluOp, a: u64, b: u64) -> u64
    ensures { result ≡ alu_of op a b }
{
    match op {
        AluOp::Add => a.wrapping_add(b),
        AluOp::Sub => a.wrapping_sub(b),
        AluOp::Sll => a << (b % 64),
        AluOp::Slt => from_test(a.cast_signed() < b.cast_signed()),
        AluOp::Sltu => from_test(a < b),
        AluOp::Xor => a ^ b,
        AluOp::Srl => a >> (b % 64),
        AluOp::Sra => (a.cast_signed() >> (b % 64)).cast_unsigned(),
        AluOp::Or => a | b,
        AluOp::And => a & b,
        AluOp::Addw => extended32(low(a).wrapping_add(low(b))),
        AluOp::Subw => extended32(low(a).wrapping_sub(low(b))),
        AluOp::Sllw => extended32(low(a) << (b % 32)),
        AluOp::Srlw => extended32(low(a) >> (b % 32)),
        AluOp::Sraw => ((low(a).cast_signed() >> (b % 32)) as i64).cast_unsigned(),
        AluOp::Mul => a.wrapping_mul(b),
        AluOp::Mulh => high_product(a, b),
        AluOp::Mulhsu => ((a.cast_signed() as i128 * b as i128).cast_unsigned() >> 64) as u64,
        AluOp::Mulhu => ((a as u128 * b as u128) >> 64) as u64,
        AluOp::Div => divided(a, b),
        AluOp::Divu => if b == 0 { u64::MAX } else { a / b },
        AluOp::Rem => remainder(a, b),
        AluOp::Remu => if b == 0 { a } else { a % b },
        AluOp::Mulw => extended32(low(a).wrapping_mul(low(b))),
        AluOp::Divw => divided32(low(a), low(b)),
        AluOp::Divuw => if low(b) == 0 {
            u64::MAX
        } else {
            extended32(low(a) / low(b))
        },
        AluOp::Remw => remainder32(low(a), low(b)),
        AluOp::Remuw => if low(b) == 0 {
            extended32(low(a))
        } else {
            extended32(low(a) % low(b))
        },
    }
}

// The upper word of the product of two signed words.
fn high_product(a: u64, b: u64) -> u64
    ensures { result ≡ high_product_of a b }
{
    ((a.cast_signed() as i128 * b.cast_signed() as i128).cast_unsigned() >> 64) as u64
}

// The quotient of two signed words.
fn divided(a: u64, b: u64) -> u64
    ensures { result ≡ alu_of AluOp.Div a b }
{
    if b == 0 {
        u64::MAX
    } else {
        a.cast_signed()
            .wrapping_div(b.cast_signed())
            .cast_unsigned()
    }
}

// The remainder of two signed words.
fn remainder(a: u64, b: u64) -> u64
    ensures { result ≡ alu_of AluOp.Rem a b }
{
    if b == 0 {
        a
    } else {
        a.cast_signed()
            .wrapping_rem(b.cast_signed())
            .cast_unsigned()
    }
}

// The quotient of two signed numbers of 32 bits, sign-extended.
fn divided32(a: u32, b: u32) -> u64
    ensures { result ≡ divided32_of a b }
{
    if b == 0 {
        u64::MAX
    } else {
        extended32(
            a.cast_signed()
                .wrapping_div(b.cast_signed())
                .cast_unsigned(),
        )
    }
}

// The remainder of two signed numbers of 32 bits, sign-extended.
fn remainder32(a: u32, b: u32) -> u64
    ensures { result ≡ remainder32_of a b }
{
    if b == 0 {
        extended32(a)
    } else {
        (a.cast_signed().wrapping_rem(b.cast_signed()) as i64).cast_unsigned()
    }
}

// The operation on two words that an operation with an immediate is.
fn register_op(op: ImmOp) -> AluOp
    ensures { result ≡ register_op_of op }
{
    match op {
        ImmOp::Addi => AluOp::Add,
        ImmOp::Slti => AluOp::Slt,
        ImmOp::Sltiu => AluOp::Sltu,
        ImmOp::Xori => AluOp::Xor,
        ImmOp::Ori => AluOp::Or,
        ImmOp::Andi => AluOp::And,
        ImmOp::Slli => AluOp::Sll,
        ImmOp::Srli => AluOp::Srl,
        ImmOp::Srai => AluOp::Sra,
        ImmOp::Addiw => AluOp::Addw,
        ImmOp::Slliw => AluOp::Sllw,
        ImmOp::Srliw => AluOp::Srlw,
        ImmOp::Sraiw => AluOp::Sraw,
    }
}

/// What an operation on a word and an immediate gives.
pub fn alu_imm(op: ImmOp, a: u64, imm: i32) -> u64
    ensures { result ≡ alu_imm_of op a imm }
{
    alu(register_op(op), a, (imm as i64).cast_unsigned())
}

/// What an upper immediate gives.
pub fn upper(op: UpperOp, pc: u64, imm: i32) -> u64
    ensures { result ≡ upper_of op pc imm }
{
    match op {
        UpperOp::Lui => (imm as i64).cast_unsigned(),
        UpperOp::Auipc => plus_offset(pc, imm),
    }
}

/// The number that a load brings, as a word.
pub fn extended(op: LoadOp, n: u64) -> u64
    requires { n < 256 ^ bytes_of (load_width op) }
    ensures { result ≡ extended_of op n }
{
    match op {
        LoadOp::Lb => ((n as u8).cast_signed() as i64).cast_unsigned(),
        LoadOp::Lh => ((n as u16).cast_signed() as i64).cast_unsigned(),
        LoadOp::Lw => ((n as u32).cast_signed() as i64).cast_unsigned(),
        LoadOp::Ld | LoadOp::Lbu | LoadOp::Lhu | LoadOp::Lwu => n,
    }
}

/// Whether a branch is taken.
pub fn taken(op: BranchOp, a: u64, b: u64) -> bool
    ensures { result ≡ taken_of op a b }
{
    match op {
        BranchOp::Beq => a == b,
        BranchOp::Bne => a != b,
        BranchOp::Blt => a.cast_signed() < b.cast_signed(),
        BranchOp::Bge => a.cast_signed() >= b.cast_signed(),
        BranchOp::Bltu => a < b,
        BranchOp::Bgeu => a >= b,
    }
}
