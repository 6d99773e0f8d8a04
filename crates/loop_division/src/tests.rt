// Divisions of whole executables. Numbers of words and places of parts are counted by hand: a stub has 7 words before
// its check, and the turns of one loop without inner loops are told by 30.

mod stub_words;

use crate::{DivideErr, Division, divide};
use elf_image::read_elf;
use sample_maker::{Kind, make_sample};
use std::alloc::{AllocError, Global};
use std::process::Abort;
use std::test::Fail;

// Of the two stubs of a sample that adds arrays: the first and the last word of each part, with their places among all
// added words. The check of the first has 251 words, that of the second 315.
static SUMS: [(usize, u32); 38] = [
    // saved registers
    (0, 0x0102_800B), // xp.put 16, x5
    (6, 0x016F_800B), // xp.put 22, x31
    // the number of turns
    (7, 0x0000_02B7), // lui x5, 0x0
    (36, 0x0172_800B), // xp.put 23, x5
    // the ranges of accesses
    (37, 0x0000_02B7), // lui x5, 0x0
    (140, 0x2C80_006F), // jal x0, 712
    // the pairs
    (141, 0x0000_02B7), // lui x5, 0x0
    (257, 0x0F40_006F), // jal x0, 244
    // the fork
    (258, 0x0000_200B), // xp.par
    (274, 0x0A80_006F), // jal x0, 168
    // the first turn of a block
    (275, 0x0100_128B), // xp.get x5, 16
    (300, 0x0040_006F), // jal x0, 4
    // the copies
    (301, 0x0055_B023), // sd x5, 0(x11)
    (307, 0x0040_006F), // jal x0, 4
    // the next turn, and the join
    (308, 0x01D2_800B), // xp.put 29, x5
    (316, 0x0000_300B), // xp.join
    // the way back
    (317, 0x0000_400B), // xp.back
    // where the check fails
    (318, 0x0100_128B), // xp.get x5, 16
    (325, 0x0000_400B), // xp.back
    // the second stub: saved registers
    (326, 0x0102_800B), // xp.put 16, x5
    (332, 0x016F_800B), // xp.put 22, x31
    // the number of turns
    (333, 0x0000_02B7), // lui x5, 0x0
    (362, 0x0172_800B), // xp.put 23, x5
    // the ranges of accesses
    (363, 0x0000_02B7), // lui x5, 0x0
    (530, 0x2CC0_006F), // jal x0, 716
    // the pairs
    (531, 0x0000_02B7), // lui x5, 0x0
    (647, 0x0F80_006F), // jal x0, 248
    // the fork
    (648, 0x0000_200B), // xp.par
    (664, 0x0AC0_006F), // jal x0, 172
    // the first turn of a block
    (665, 0x0005_0293), // addi x5, x10, 0
    (690, 0x0040_006F), // jal x0, 4
    // the copies
    (691, 0x0005_B703), // ld x14, 0(x11)
    (698, 0x0040_006F), // jal x0, 4
    // the next turn, and the join
    (699, 0x01D2_800B), // xp.put 29, x5
    (707, 0x0000_300B), // xp.join
    // the way back
    (708, 0x0000_400B), // xp.back
    // where the check fails
    (709, 0x0100_128B), // xp.get x5, 16
    (716, 0x0000_400B), // xp.back
];

// A loop of two words, of which a stub has 7 + 30 + 17 + 14 + 2 + 9 + 9 words.
static COUNT: [u32; 2] = [
    0x0015_0513, // addi x10, x10, 1
    0xFEB5_1EE3, // bne x10, x11, -4
];

// A loop that stores 32 numbers of 8 bytes in each turn. Of the 22,184 words of a stub 528 * 39 are those of the pairs,
// and 32 * 46 those of the ranges.
static STORES: [u32; 34] = [
    0x0055_3023,
    0x0055_3423,
    0x0055_3823,
    0x0055_3C23,
    0x0255_3023,
    0x0255_3423,
    0x0255_3823,
    0x0255_3C23,
    0x0455_3023,
    0x0455_3423,
    0x0455_3823,
    0x0455_3C23,
    0x0655_3023,
    0x0655_3423,
    0x0655_3823,
    0x0655_3C23,
    0x0855_3023,
    0x0855_3423,
    0x0855_3823,
    0x0855_3C23,
    0x0A55_3023,
    0x0A55_3423,
    0x0A55_3823,
    0x0A55_3C23,
    0x0C55_3023,
    0x0C55_3423,
    0x0C55_3823,
    0x0C55_3C23,
    0x0E55_3023,
    0x0E55_3423,
    0x0E55_3823,
    0x0E55_3C23,
    0x1005_0513,
    0xF6B5_1EE3,
];

// The bytes of these words.
fn bytes_of(alloc: Global, words: &[u32]) -> Result<Vec<u8>, AllocError> {
    let mut bytes = Vec::new(alloc);
    for word in words {
        bytes.extend_from_slice(&word.to_le_bytes())?;
    }
    Ok(bytes)
}

// Puts words behind those that are there, so many times.
fn push_times(code: &mut Vec<u32>, words: &[u32], times: usize) -> Result<(), AllocError> {
    for _ in 0..times {
        code.extend_from_slice(words)?;
    }
    Ok(())
}

// An executable of these words, and then the exit.
fn program(alloc: Global, words: &[u32]) -> Result<Vec<u8>, AllocError> {
    let mut code = Vec::new(alloc);
    code.extend_from_slice(words)?;
    code.push(0x05D0_0893)?; // addi x17, x0, 93
    code.push(0x0000_0073)?; // ecall
    let tail = bytes_of(alloc, code.as_slice())?;
    let size = u32::try_from(tail.len()).unwrap_or(0).wrapping_add(120);
    let header: [u32; 30] = [
        0x464C_457F,
        0x0001_0102,
        0,
        0,
        0x00F3_0002,
        1,
        0x0001_0078,
        0, // magic to entry
        64,
        0,
        0,
        0,
        0,
        0x0038_0040,
        1,
        0, // the headers' place, their size and number
        1,
        5,
        0,
        0,
        0x0001_0000,
        0,
        0x0001_0000,
        0, // type, flags, offset and addresses
        size,
        0,
        size,
        0,
        4096,
        0, // sizes and alignment
    ];
    let mut bytes = bytes_of(alloc, header.as_slice())?;
    bytes.extend_from_slice(tail.as_slice())?;
    Ok(bytes)
}

// The division of the executable in a file.
fn division_of(alloc: Global, file: &[u8]) -> Result<Division, DivideErr> {
    match read_elf(alloc, file) {
        Ok(elf) => divide(alloc, &elf),
        Err(_) => Err(DivideErr::OutOfMemory),
    }
}

fn look_at<R: Abort>(rt: &R, division: &Division, entries: &[(u64, u64)], words: usize) {
    let found = division.entries.as_slice();
    assert_eq!(rt; found.len(), entries.len());
    assert_eq!(rt; division.code.len(), words);
    for i in 0..entries.len() {
        let (header, stub) = entries[i];
        match found.get(i) {
            Some(entry) => {
                let same = entry.header == header && entry.stub == stub;
                assert!(rt; same, "entry {i}");
            }
            None => {}
        }
    }
}

fn look_at_words<R: Abort>(rt: &R, division: &Division, words: &[(usize, u32)]) {
    for (place, word) in words {
        let found = division.code.as_slice().get(*place).copied();
        assert!(rt; found == Some(*word), "word {place}");
    }
}

#[test]
fn sums_of_two_arrays_have_two_stubs(rt: HostRuntime) -> Result<(), Fail> {
    let alloc = rt.alloc();
    let file = make_sample(alloc, Kind::Vadd, 1000).map_err(|_error| "no sample")?;
    let division = division_of(alloc, file.as_slice()).map_err(|_error| "no division")?;
    look_at(
        &rt,
        &division,
        &[(0x100CC, 0x6000_0000), (0x100F0, 0x6000_0518)],
        717,
    );
    look_at_words(&rt, &division, &SUMS);
    Ok(())
}

#[test]
fn no_loop_no_word(rt: HostRuntime) -> Result<(), Fail> {
    let alloc = rt.alloc();
    let file = program(alloc, &[])?;
    let division = division_of(alloc, file.as_slice()).map_err(|_error| "no division")?;
    look_at(&rt, &division, &[], 0);
    Ok(())
}

#[test]
fn at_most_262144_reached_words(rt: HostRuntime) -> Result<(), Fail> {
    let alloc = rt.alloc();
    let words = vec![in alloc; 0x0000_0013; 262_144]?;
    let file = program(alloc, words.as_slice())?;
    let refused = matches!(
        division_of(alloc, file.as_slice()),
        Err(DivideErr::TooManyWords { count: 262_145 })
    );
    assert!(&rt; refused);
    Ok(())
}

// An executable with so many loops of two words.
fn counts(alloc: Global, times: usize) -> Result<Vec<u8>, AllocError> {
    let mut code = Vec::new(alloc);
    push_times(&mut code, &COUNT, times)?;
    program(alloc, code.as_slice())
}

#[test]
fn at_most_1024_loops(rt: HostRuntime) -> Result<(), Fail> {
    let alloc = rt.alloc();
    let most = counts(alloc, 1024)?;
    let division = division_of(alloc, most.as_slice()).map_err(|_error| "no division")?;
    assert_eq!(&rt; division.entries.len(), 1024);
    assert_eq!(&rt; division.code.len(), 1024 * 88);
    let more = counts(alloc, 1025)?;
    let refused = matches!(
        division_of(alloc, more.as_slice()),
        Err(DivideErr::TooManyLoops { count: 1025 })
    );
    assert!(&rt; refused);
    Ok(())
}

// Puts a loop behind the words that are there: it counts x10, does nothing so many times, and has this branch as its
// last word. Its stub has 88 words, and one for each that does nothing.
fn push_slow(code: &mut Vec<u32>, times: usize, branch: u32) -> Result<(), AllocError> {
    code.push(0x0015_0513)?; // addi x10, x10, 1
    push_times(code, &[0x0000_0013], times)?;
    code.push(branch)?;
    Ok(())
}

// An executable with 189 loops that store, and 7 that count and do nothing 103 times, as does one more, or 104 times:
// with 103 their stubs have 189 * 22,184 + 8 * (88 + 103) words.
fn long(alloc: Global, one_more: bool) -> Result<Vec<u8>, AllocError> {
    let mut code = Vec::new(alloc);
    push_times(&mut code, &STORES, 189)?;
    for _ in 0..7 {
        push_slow(&mut code, 103, 0xE6B5_10E3)?; // bne x10, x11, -416
    }
    if one_more {
        push_slow(&mut code, 104, 0xE4B5_1EE3)?; // bne x10, x11, -420
    } else {
        push_slow(&mut code, 103, 0xE6B5_10E3)?; // bne x10, x11, -416
    }
    program(alloc, code.as_slice())
}

#[test]
fn at_most_4194304_words(rt: HostRuntime) -> Result<(), Fail> {
    let alloc = rt.alloc();
    let most = long(alloc, false)?;
    let division = division_of(alloc, most.as_slice()).map_err(|_error| "no division")?;
    assert_eq!(&rt; division.code.len(), 4_194_304);
    let more = long(alloc, true)?;
    let refused = matches!(
        division_of(alloc, more.as_slice()),
        Err(DivideErr::CodeTooLong { words: 4_194_305 })
    );
    assert!(&rt; refused);
    Ok(())
}
