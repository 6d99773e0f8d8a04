ghost use Rattle.std.specs.Prelude.{◌≡◌, ◌+◌, ◌-◌, ◌*◌, ◌/◌, ◌<◌, ◌≤◌, ◌^◌, ◌++◌, IfOk, OnOk, pos};
ghost use Rattle.sample_maker.specs.Assembly.{li2, ld, lbu, addi, a0, a4};
ghost use Rattle.sample_maker.specs.Programs.{summed, vadd_words, stencil_words, bytemap_words, words_of, data_size};
ghost use Rattle.sample_maker.specs.Sample.{limit};

use crate::Kind;
use std::alloc::{AllocError, Global};

// Registers that are set to numbers.
const S1: u32 = 9;

const S2: u32 = 18;

const T6: u32 = 31;

// `vadd`: the loop that fills two arrays, and the loop that adds them.
const ADD_ARRAYS: [u32; 23] = [
    0x0095_8633, // add a2,a1,s1
    0x0096_0533, // add a0,a2,s1
    0x0006_0693, // mv a3,a2
    0x0000_0293, // li t0,0
    0x0055_b023, // sd t0,0(a1)
    0x0052_8333, // add t1,t0,t0
    0x0066_3023, // sd t1,0(a2)
    0x0012_8293, // addi t0,t0,1
    0x0085_8593, // addi a1,a1,8
    0x0086_0613, // addi a2,a2,8
    0xfed5_94e3, // bne a1,a3,-24
    0x4095_85b3, // sub a1,a1,s1
    0x4096_0633, // sub a2,a2,s1
    0x0005_b703, // ld a4,0(a1)
    0x0006_3783, // ld a5,0(a2)
    0x00f7_0733, // add a4,a4,a5
    0x00e5_3023, // sd a4,0(a0)
    0x0085_8593, // addi a1,a1,8
    0x0086_0613, // addi a2,a2,8
    0x0085_0513, // addi a0,a0,8
    0xfed5_92e3, // bne a1,a3,-28
    0x4095_0533, // sub a0,a0,s1
    0x0095_06b3, // add a3,a0,s1
];

// `stencil`: the loop that fills the first square, and where the inner rows start and end.
const FILL_SQUARE: [u32; 10] = [
    0x0125_05b3, // add a1,a0,s2
    0x0005_0793, // mv a5,a0
    0x0000_0293, // li t0,0
    0x0057_b023, // sd t0,0(a5)
    0x0012_8293, // addi t0,t0,1
    0x0087_8793, // addi a5,a5,8
    0xfeb7_9ae3, // bne a5,a1,-12
    0x0095_0633, // add a2,a0,s1
    0x0095_86b3, // add a3,a1,s1
    0x4095_8733, // sub a4,a1,s1
];

// `stencil`: the rest of the loop over the rows, with the loop over a row in it.
const SUM_NEIGHBOURS: [u32; 22] = [
    0x0086_0793, // addi a5,a2,8
    0x0086_8813, // addi a6,a3,8
    0x01f6_09b3, // add s3,a2,t6
    0xff89_8993, // addi s3,s3,-8
    0x41f7_8e33, // sub t3,a5,t6
    0x01f7_8eb3, // add t4,a5,t6
    0x000e_3283, // ld t0,0(t3)
    0x000e_b303, // ld t1,0(t4)
    0xff87_b383, // ld t2,-8(a5)
    0x0087_bf03, // ld t5,8(a5)
    0x0062_82b3, // add t0,t0,t1
    0x01e3_83b3, // add t2,t2,t5
    0x0072_82b3, // add t0,t0,t2
    0x0058_3023, // sd t0,0(a6)
    0x0087_8793, // addi a5,a5,8
    0x0088_0813, // addi a6,a6,8
    0xfd37_98e3, // bne a5,s3,-48
    0x01f6_0633, // add a2,a2,t6
    0x01f6_86b3, // add a3,a3,t6
    0xfae6_16e3, // bne a2,a4,-84
    0x0005_8513, // mv a0,a1
    0x0125_86b3, // add a3,a1,s2
];

// `bytemap`: the loop that fills the first row of bytes, and the loop that makes the second from it.
const TURN_BITS: [u32; 17] = [
    0x0095_05b3, // add a1,a0,s1
    0x0125_06b3, // add a3,a0,s2
    0x0000_0293, // li t0,0
    0x0055_0023, // sb t0,0(a0)
    0x0012_8293, // addi t0,t0,1
    0x0015_0513, // addi a0,a0,1
    0xfed5_1ae3, // bne a0,a3,-12
    0x4125_0533, // sub a0,a0,s2
    0x0005_4703, // lbu a4,0(a0)
    0x0017_4713, // xori a4,a4,1
    0x00e5_8023, // sb a4,0(a1)
    0x0015_0513, // addi a0,a0,1
    0x0015_8593, // addi a1,a1,1
    0xfed5_16e3, // bne a0,a3,-20
    0x4125_85b3, // sub a1,a1,s2
    0x0125_86b3, // add a3,a1,s2
    0x0005_8513, // mv a0,a1
];

/// The words of a sample's program.
#[tactic(auto, unfolding(crate::specs::Programs::words_of))]
pub(crate) fn words_of(alloc: Global, kind: Kind, n: u64) -> Result<Vec<u32>, AllocError>
    requires { n ≤ limit kind }
    ensures { IfOk result (λ v. v.items ≡ words_of kind n) }
{
    match kind {
        Kind::Vadd => vadd_words(alloc, n),
        Kind::Stencil => stencil_words(alloc, n),
        Kind::Bytemap => bytemap_words(alloc, n),
    }
}

/// How many bytes of data it uses.
#[tactic(auto, unfolding(crate::specs::Programs::data_size))]
pub(crate) fn data_size(kind: Kind, n: u64) -> u64
    requires { n ≤ limit kind }
    ensures { result ≡ data_size kind n }
{
    match kind {
        Kind::Vadd => 24 * n,
        Kind::Stencil => 16 * (n + 2) * (n + 2),
        Kind::Bytemap => 8 * ((n + 7) / 8) + 3 + n,
    }
}

fn vadd_words(alloc: Global, n: u64) -> Result<Vec<u32>, AllocError>
    requires { n ≤ 1000000 }
    ensures { IfOk result (λ v. v.items ≡ vadd_words n) }
{
    let mut words = Vec::with_capacity(alloc, 40)?;
    words.push(0x0002_05b7)?; // lui a1,0x20
    push_number(&mut words, S1, 8 * n)?;
    words.extend_from_slice(&ADD_ARRAYS)?;
    push_sum_of_numbers(&mut words)?;
    Ok(words)
}

fn stencil_words(alloc: Global, n: u64) -> Result<Vec<u32>, AllocError>
    requires { n ≤ 2000 }
    ensures { IfOk result (λ v. v.items ≡ stencil_words n) }
{
    let row = 8 * (n + 2);
    let mut words = Vec::with_capacity(alloc, 53)?;
    words.push(0x0002_0537)?; // lui a0,0x20
    push_number(&mut words, S1, row)?;
    push_number(&mut words, S2, row * (n + 2))?;
    words.extend_from_slice(&FILL_SQUARE)?;
    push_number(&mut words, T6, row)?;
    words.extend_from_slice(&SUM_NEIGHBOURS)?;
    push_sum_of_numbers(&mut words)?;
    Ok(words)
}

fn bytemap_words(alloc: Global, n: u64) -> Result<Vec<u32>, AllocError>
    requires { n ≤ 16000000 }
    ensures { IfOk result (λ v. v.items ≡ bytemap_words n) }
{
    let mut words = Vec::with_capacity(alloc, 36)?;
    words.push(0x0002_0537)?; // lui a0,0x20
    push_number(&mut words, S1, 8 * ((n + 7) / 8) + 3)?;
    push_number(&mut words, S2, n)?;
    words.extend_from_slice(&TURN_BITS)?;
    push_sum_of_bytes(&mut words)?;
    Ok(words)
}

// Sets a register to a number.
fn push_number(words: &mut Vec<u32>, register: u32, n: u64) -> Result<(), AllocError>
    requires register { register < 32 }
    requires small { n < 2 ^ 31 - 2 ^ 11 }
    ensures { OnOk result (words.new.items ≡ words.old.items ++ li2 register n) }
{
    let n = n as u32;
    let rd = register * 0x80;
    let rs1 = register * 0x8000;
    let lui = (n + 0x800) / 0x1000 * 0x1000 + rd + 0x37;
    let addiw = n % 0x1000 * 0x10_0000 + rs1 + rd + 0x1B;
    words.push(lui)?;
    words.push(addiw)?;
    Ok(())
}

// Sums up numbers of 8 bytes.
fn push_sum_of_numbers(words: &mut Vec<u32>) -> Result<(), AllocError>
    ensures { OnOk result (words.new.items ≡ words.old.items ++ summed (ld a4 (pos 0) a0) (addi a0 a0 (pos 8))) }
{
    let load = 0x0005_3703; // ld a4,0(a0)
    let advance = 0x0085_0513; // addi a0,a0,8
    push_sum(words, load, advance)
}

// Sums up bytes.
fn push_sum_of_bytes(words: &mut Vec<u32>) -> Result<(), AllocError>
    ensures { OnOk result (words.new.items ≡ words.old.items ++ summed (lbu a4 (pos 0) a0) (addi a0 a0 (pos 1))) }
{
    let load = 0x0005_4703; // lbu a4,0(a0)
    let advance = 0x0015_0513; // addi a0,a0,1
    push_sum(words, load, advance)
}

// Sums up what one word loads at a0, which the other moves on; writes the sum, and ends.
#[tactic(auto, unfolding(crate::specs::Programs::summed))]
fn push_sum(words: &mut Vec<u32>, load: u32, advance: u32) -> Result<(), AllocError>
    ensures { OnOk result (words.new.items ≡ words.old.items ++ summed load advance) }
{
    words.extend_from_slice(&[
        0x0000_0393, // li t2,0
        load,
        0x00e3_83b3, // add t2,t2,a4
        advance,
        0xfed5_1ae3, // bne a0,a3,-12
        0xfe71_3c23, // sd t2,-8(sp)
        0x0010_0513, // li a0,1
        0xff81_0593, // addi a1,sp,-8
        0x0080_0613, // li a2,8
        0x0400_0893, // li a7,64
        0x0000_0073, // ecall
        0x0000_0513, // li a0,0
        0x05d0_0893, // li a7,93
        0x0000_0073, // ecall
    ])
}
