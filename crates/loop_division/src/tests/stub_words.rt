// Whole stubs, written by hand part by part: one of the least loop there is, and one of a loop with cells. Words are
// counted from the stub's first, which is word 0.

use crate::Division;
use crate::tests::{COUNT, division_of, program};
use std::alloc::{AllocError, Global};
use std::test::Fail;

// The registers that added code works with go into their slots.
static SAVED: [u32; 7] = [
    0x0102_800B, // xp.put 16, x5
    0x0113_000B, // xp.put 17, x6
    0x0123_800B, // xp.put 18, x7
    0x013E_000B, // xp.put 19, x28
    0x014E_800B, // xp.put 20, x29
    0x015F_000B, // xp.put 21, x30
    0x016F_800B, // xp.put 22, x31
];

// They come back, and the hart leaves: this is where a check that fails leads.
static RESTORED: [u32; 8] = [
    0x0100_128B, // xp.get x5, 16
    0x0110_130B, // xp.get x6, 17
    0x0120_138B, // xp.get x7, 18
    0x0130_1E0B, // xp.get x28, 19
    0x0140_1E8B, // xp.get x29, 20
    0x0150_1F0B, // xp.get x30, 21
    0x0160_1F8B, // xp.get x31, 22
    0x0000_400B, // xp.back
];

// The harts begin, and each finds its block of the turns. The jump behind them is one without a turn.
static FORK: [u32; 16] = [
    0x0000_200B, // xp.par
    0x0000_528B, // xp.id x5
    0x0000_630B, // xp.harts x6
    0x0170_138B, // xp.get x7, 23
    0x0013_8393, // addi x7, x7, 1
    0x0062_8E33, // add x28, x5, x6
    0xFFFE_0E13, // addi x28, x28, -1
    0x026E_7E33, // remu x28, x28, x6
    0x027E_0EB3, // mul x29, x28, x7
    0x026E_DEB3, // divu x29, x29, x6
    0x001E_0E13, // addi x28, x28, 1
    0x027E_0E33, // mul x28, x28, x7
    0x026E_5E33, // divu x28, x28, x6
    0x41DE_0E33, // sub x28, x28, x29
    0x01CE_000B, // xp.put 28, x28
    0x000E_1463, // bne x28, x0, 8
];

// The loop of two words is left where x10 + 1 is x11: the number of turns, which is at least 16 and at most 2^31. Where
// the check fails it goes on at word 80.
static COUNT_TURNS: [u32; 30] = [
    0x0000_02B7, // lui x5, 0x0
    0x0012_829B, // addiw x5, x5, 1
    0x0005_0F93, // addi x31, x10, 0
    0x0000_0F37, // lui x30, 0x0
    0x001F_0F1B, // addiw x30, x30, 1
    0x03EF_8FB3, // mul x31, x31, x30
    0x01F2_82B3, // add x5, x5, x31
    0x0005_8F93, // addi x31, x11, 0
    0x0000_0F37, // lui x30, 0x0
    0xFFFF_0F1B, // addiw x30, x30, -1
    0x03EF_8FB3, // mul x31, x31, x30
    0x01F2_82B3, // add x5, x5, x31
    0x0000_0337, // lui x6, 0x0
    0x0013_031B, // addiw x6, x6, 1
    0x4050_02B3, // sub x5, x0, x5
    0x0262_E3B3, // rem x7, x5, x6
    0x0003_8463, // beq x7, x0, 8
    0x0E00_006F, // jal x0, 224
    0x0262_C2B3, // div x5, x5, x6
    0x0002_D463, // bge x5, x0, 8
    0x0D40_006F, // jal x0, 212
    0x0100_0313, // addi x6, x0, 16
    0x0062_D463, // bge x5, x6, 8
    0x0C80_006F, // jal x0, 200
    0x0010_0313, // addi x6, x0, 1
    0x01F3_1313, // slli x6, x6, 31
    0x0053_5463, // bge x6, x5, 8
    0x0B80_006F, // jal x0, 184
    0xFFF2_8293, // addi x5, x5, -1
    0x0172_800B, // xp.put 23, x5
];

// x10 goes on by 1 as often as x29 says, and the first turn begins at word 68.
static COUNT_BLOCK: [u32; 14] = [
    0x0005_0293, // addi x5, x10, 0
    0x0000_0337, // lui x6, 0x0
    0x0013_031B, // addiw x6, x6, 1
    0x03D3_0333, // mul x6, x6, x29
    0x0062_82B3, // add x5, x5, x6
    0x0002_8513, // addi x10, x5, 0
    0x0100_128B, // xp.get x5, 16
    0x0110_130B, // xp.get x6, 17
    0x0120_138B, // xp.get x7, 18
    0x0130_1E0B, // xp.get x28, 19
    0x0140_1E8B, // xp.get x29, 20
    0x0150_1F0B, // xp.get x30, 21
    0x0160_1F8B, // xp.get x31, 22
    0x0040_006F, // jal x0, 4
];

// The copies: of the branch, at which turns stay in the loop, a jump to word 70.
static COUNT_COPIES: [u32; 2] = [
    0x0015_0513, // addi x10, x10, 1
    0x0040_006F, // jal x0, 4
];

// The next turn begins at word 68, or the harts join.
static COUNT_NEXT: [u32; 9] = [
    0x01D2_800B, // xp.put 29, x5
    0x01C0_128B, // xp.get x5, 28
    0xFFF2_8293, // addi x5, x5, -1
    0x01C2_800B, // xp.put 28, x5
    0x0002_8663, // beq x5, x0, 12
    0x01D0_128B, // xp.get x5, 29
    0xFE1F_F06F, // jal x0, -32
    0x01D0_128B, // xp.get x5, 29
    0x0000_300B, // xp.join
];

// A loop with two cells that are stored: 4 bytes at x5 + 8, and 8 bytes at 0x1F800. The header is the word at 0x10084,
// in its middle, where the first jump leads. The loop is left at the word before it.
static CELLS: [u32; 10] = [
    0x00C0_006F, // jal x0, 12
    0x001E_0E13, // addi x28, x28, 1
    0x03DE_0063, // beq x28, x29, 32
    0x01C2_A423, // sw x28, 8(x5)
    0x0000_1397, // auipc x7, 0x1
    0x0002_0337, // lui x6, 0x20
    0x81C3_3023, // sd x28, -2048(x6)
    0x01C3_C463, // blt x7, x28, 8
    0x0003_8313, // addi x6, x7, 0
    0xFE1F_F06F, // jal x0, -32
];

// The cells: each lies at a multiple of its width, below 2^31 and in the heap or on the stack, and goes into its slot.
// Where the check fails it goes on at word 195.
static CELLS_LOADED: [u32; 48] = [
    0x0100_128B, // xp.get x5, 16
    0x0082_8293, // addi x5, x5, 8
    0x0032_F313, // andi x6, x5, 3
    0x0003_0463, // beq x6, x0, 8
    0x2E00_006F, // jal x0, 736
    0x01F2_D313, // srli x6, x5, 31
    0x0003_0463, // beq x6, x0, 8
    0x2D40_006F, // jal x0, 724
    0x0042_8313, // addi x6, x5, 4
    0x0001_13B7, // lui x7, 0x11
    0x0003_839B, // addiw x7, x7, 0
    0x0072_C863, // blt x5, x7, 16
    0x0101_13B7, // lui x7, 0x1011
    0x0003_839B, // addiw x7, x7, 0
    0x0263_D063, // bge x7, x6, 32
    0x7F00_03B7, // lui x7, 0x7f000
    0x0003_839B, // addiw x7, x7, 0
    0x0072_C863, // blt x5, x7, 16
    0x7F80_03B7, // lui x7, 0x7f800
    0x0003_839B, // addiw x7, x7, 0
    0x0063_D463, // bge x7, x6, 8
    0x29C0_006F, // jal x0, 668
    0x0002_A303, // lw x6, 0(x5)
    0x0003_000B, // xp.put 0, x6
    0x0002_02B7, // lui x5, 0x20
    0x8002_829B, // addiw x5, x5, -2048
    0x0072_F313, // andi x6, x5, 7
    0x0003_0463, // beq x6, x0, 8
    0x2800_006F, // jal x0, 640
    0x01F2_D313, // srli x6, x5, 31
    0x0003_0463, // beq x6, x0, 8
    0x2740_006F, // jal x0, 628
    0x0082_8313, // addi x6, x5, 8
    0x0001_13B7, // lui x7, 0x11
    0x0003_839B, // addiw x7, x7, 0
    0x0072_C863, // blt x5, x7, 16
    0x0101_13B7, // lui x7, 0x1011
    0x0003_839B, // addiw x7, x7, 0
    0x0263_D063, // bge x7, x6, 32
    0x7F00_03B7, // lui x7, 0x7f000
    0x0003_839B, // addiw x7, x7, 0
    0x0072_C863, // blt x5, x7, 16
    0x7F80_03B7, // lui x7, 0x7f800
    0x0003_839B, // addiw x7, x7, 0
    0x0063_D463, // bge x7, x6, 8
    0x23C0_006F, // jal x0, 572
    0x0002_B303, // ld x6, 0(x5)
    0x0013_000B, // xp.put 1, x6
];

// They lie apart.
static CELLS_APART: [u32; 9] = [
    0x0100_128B, // xp.get x5, 16
    0x0082_8293, // addi x5, x5, 8
    0x0002_0337, // lui x6, 0x20
    0x8003_031B, // addiw x6, x6, -2048
    0x0042_8393, // addi x7, x5, 4
    0x0073_5863, // bge x6, x7, 16
    0x0083_0393, // addi x7, x6, 8
    0x0072_D463, // bge x5, x7, 8
    0x2100_006F, // jal x0, 528
];

// The number of turns: the loop is left where x28 + 1 is x29.
static CELLS_TURNS: [u32; 30] = [
    0x0000_02B7, // lui x5, 0x0
    0x0012_829B, // addiw x5, x5, 1
    0x0130_1F8B, // xp.get x31, 19
    0x0000_0F37, // lui x30, 0x0
    0x001F_0F1B, // addiw x30, x30, 1
    0x03EF_8FB3, // mul x31, x31, x30
    0x01F2_82B3, // add x5, x5, x31
    0x0140_1F8B, // xp.get x31, 20
    0x0000_0F37, // lui x30, 0x0
    0xFFFF_0F1B, // addiw x30, x30, -1
    0x03EF_8FB3, // mul x31, x31, x30
    0x01F2_82B3, // add x5, x5, x31
    0x0000_0337, // lui x6, 0x0
    0x0013_031B, // addiw x6, x6, 1
    0x4050_02B3, // sub x5, x0, x5
    0x0262_E3B3, // rem x7, x5, x6
    0x0003_8463, // beq x7, x0, 8
    0x1C80_006F, // jal x0, 456
    0x0262_C2B3, // div x5, x5, x6
    0x0002_D463, // bge x5, x0, 8
    0x1BC0_006F, // jal x0, 444
    0x0100_0313, // addi x6, x0, 16
    0x0062_D463, // bge x5, x6, 8
    0x1B00_006F, // jal x0, 432
    0x0010_0313, // addi x6, x0, 1
    0x01F3_1313, // slli x6, x6, 31
    0x0053_5463, // bge x6, x5, 8
    0x1A00_006F, // jal x0, 416
    0xFFF2_8293, // addi x5, x5, -1
    0x0172_800B, // xp.put 23, x5
];

// What goes into the 4 bytes is a signed number of 32 bits in all turns: x28, which gains 1 in each.
static CELLS_SHORT: [u32; 38] = [
    0x0000_02B7, // lui x5, 0x0
    0x0002_829B, // addiw x5, x5, 0
    0x0130_1F8B, // xp.get x31, 19
    0x0000_0F37, // lui x30, 0x0
    0x001F_0F1B, // addiw x30, x30, 1
    0x03EF_8FB3, // mul x31, x31, x30
    0x01F2_82B3, // add x5, x5, x31
    0x0002_831B, // addiw x6, x5, 0
    0x0062_8463, // beq x5, x6, 8
    0x1700_006F, // jal x0, 368
    0x0000_02B7, // lui x5, 0x0
    0x0002_829B, // addiw x5, x5, 0
    0x0130_1F8B, // xp.get x31, 19
    0x0000_0F37, // lui x30, 0x0
    0x001F_0F1B, // addiw x30, x30, 1
    0x03EF_8FB3, // mul x31, x31, x30
    0x01F2_82B3, // add x5, x5, x31
    0x0000_0337, // lui x6, 0x0
    0x0003_031B, // addiw x6, x6, 0
    0x0130_1F8B, // xp.get x31, 19
    0x0000_0F37, // lui x30, 0x0
    0x001F_0F1B, // addiw x30, x30, 1
    0x03EF_8FB3, // mul x31, x31, x30
    0x01F3_0333, // add x6, x6, x31
    0x0170_1F8B, // xp.get x31, 23
    0x0000_0F37, // lui x30, 0x0
    0x001F_0F1B, // addiw x30, x30, 1
    0x03EF_8FB3, // mul x31, x31, x30
    0x01F3_0333, // add x6, x6, x31
    0x0003_0313, // addi x6, x6, 0
    0x8000_03B7, // lui x7, 0x80000
    0x0003_839B, // addiw x7, x7, 0
    0x0072_D463, // bge x5, x7, 8
    0x1100_006F, // jal x0, 272
    0x8000_03B7, // lui x7, 0x80000
    0xFFF3_839B, // addiw x7, x7, -1
    0x0063_D463, // bge x7, x6, 8
    0x1000_006F, // jal x0, 256
];

// x28, which is in slot 19, goes on by 1 as often as x29 says, and the first turn begins at word 166.
static CELLS_BLOCK: [u32; 14] = [
    0x0130_128B, // xp.get x5, 19
    0x0000_0337, // lui x6, 0x0
    0x0013_031B, // addiw x6, x6, 1
    0x03D3_0333, // mul x6, x6, x29
    0x0062_82B3, // add x5, x5, x6
    0x0132_800B, // xp.put 19, x5
    0x0100_128B, // xp.get x5, 16
    0x0110_130B, // xp.get x6, 17
    0x0120_138B, // xp.get x7, 18
    0x0130_1E0B, // xp.get x28, 19
    0x0140_1E8B, // xp.get x29, 20
    0x0150_1F0B, // xp.get x30, 21
    0x0160_1F8B, // xp.get x31, 22
    0x0100_006F, // jal x0, 16
];

// The copies: the branch at which the loop is left leads to word 174, as does the jump behind it.
static CELLS_COPIES: [u32; 11] = [
    0x001E_0E13, // addi x28, x28, 1
    0x0280_006F, // jal x0, 40
    0x0240_006F, // jal x0, 36
    0x000E_000B, // xp.put 0, x28
    0x0001_13B7, // lui x7, 0x11
    0x0883_839B, // addiw x7, x7, 136
    0x0002_0337, // lui x6, 0x20
    0x001E_000B, // xp.put 1, x28
    0x01C3_C463, // blt x7, x28, 8
    0x0003_8313, // addi x6, x7, 0
    0xFD9F_F06F, // jal x0, -40
];

// The next turn begins at word 166, or the harts join.
static CELLS_NEXT: [u32; 9] = [
    0x01D2_800B, // xp.put 29, x5
    0x01C0_128B, // xp.get x5, 28
    0xFFF2_8293, // addi x5, x5, -1
    0x01C2_800B, // xp.put 28, x5
    0x0002_8663, // beq x5, x0, 12
    0x01D0_128B, // xp.get x5, 29
    0xFC9F_F06F, // jal x0, -56
    0x01D0_128B, // xp.get x5, 29
    0x0000_300B, // xp.join
];

// The cells go into memory: with x6 where x5 is the base, and with x5 over x6.
static CELLS_WRITTEN: [u32; 11] = [
    0x01D3_000B, // xp.put 29, x6
    0x0000_130B, // xp.get x6, 0
    0x0062_A423, // sw x6, 8(x5)
    0x01D0_130B, // xp.get x6, 29
    0x01D2_800B, // xp.put 29, x5
    0x01E3_000B, // xp.put 30, x6
    0x0010_128B, // xp.get x5, 1
    0x0002_0337, // lui x6, 0x20
    0x8053_3023, // sd x5, -2048(x6)
    0x01D0_128B, // xp.get x5, 29
    0x01E0_130B, // xp.get x6, 30
];

// The words of all parts, one behind the other.
fn joined(alloc: Global, parts: &[&[u32]]) -> Result<Vec<u32>, AllocError> {
    let mut words = Vec::new(alloc);
    for part in parts {
        words.extend_from_slice(part)?;
    }
    Ok(words)
}

// The added words of the executable with these words.
fn added(alloc: Global, words: &[u32]) -> Result<Vec<u32>, Fail> {
    let file = program(alloc, words)?;
    let division = division_of(alloc, file.as_slice()).map_err(|_error| "no division")?;
    let Division { code, .. } = division;
    Ok(code)
}

#[test]
fn stub_of_the_least_loop(rt: HostRuntime) -> Result<(), Fail> {
    let parts: [&[u32]; 9] = [
        &SAVED,
        &COUNT_TURNS,
        &FORK,
        &[0x0640_006F], // jal x0, 100
        &COUNT_BLOCK,
        &COUNT_COPIES,
        &COUNT_NEXT,
        &[0x0000_400B], // xp.back
        &RESTORED,
    ];
    let found = added(rt.alloc(), &COUNT)?;
    let wanted = joined(rt.alloc(), &parts)?;
    assert_eq!(rt; found.len(), 88);
    assert_eq!(rt; found.as_slice(), wanted.as_slice());
    Ok(())
}

#[test]
fn stub_of_a_loop_with_cells(rt: HostRuntime) -> Result<(), Fail> {
    let parts: [&[u32]; 13] = [
        &SAVED,
        &CELLS_LOADED,
        &CELLS_APART,
        &CELLS_TURNS,
        &CELLS_SHORT,
        &FORK,
        &[0x0880_006F], // jal x0, 136
        &CELLS_BLOCK,
        &CELLS_COPIES,
        &CELLS_NEXT,
        &CELLS_WRITTEN,
        &[0x0000_400B], // xp.back
        &RESTORED,
    ];
    let found = added(rt.alloc(), &CELLS)?;
    let wanted = joined(rt.alloc(), &parts)?;
    assert_eq!(rt; found.len(), 203);
    assert_eq!(rt; found.as_slice(), wanted.as_slice());
    Ok(())
}
