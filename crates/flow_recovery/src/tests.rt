ghost use Rattle.std.specs.Prelude.{◌≡◌, ◌+◌, ◌*◌, ◌%◌, ◌<◌, ◌^◌, length, IfOk, OnOk, vec_len};
ghost use Rattle.elf_image.specs.Layout.{IsLoadable};

use crate::{FlowErr, recover};
use elf_image::{Bytes, Elf, Segment, Segments};
use loop_data::Graph;
use std::alloc::{AllocError, Global};
use std::test::Fail;

// Writes six bytes and ends with code 0.
static HELLO: [u32; 9] = [
    0x0010_0513, // addi a0,x0,1
    0x0001_05b7, // lui a1,0x10
    0x09c5_8593, // addi a1,a1,156
    0x0060_0613, // addi a2,x0,6
    0x0400_0893, // addi a7,x0,64
    0x0000_0073, // ecall
    0x0000_0513, // addi a0,x0,0
    0x05d0_0893, // addi a7,x0,93
    0x0000_0073, // ecall
];

// Fills two arrays of 1000 words, adds them into a third, and writes its sum.
static ADD_ARRAYS: [u32; 40] = [
    0x0002_05b7, // lui a1,0x20
    0x0000_24b7, // lui s1,2
    0xf404_849b, // addiw s1,s1,-192
    0x0095_8633, // add a2,a1,s1
    0x0096_0533, // add a0,a2,s1
    0x0006_0693, // addi a3,a2,0
    0x0000_0293, // addi t0,x0,0
    0x0055_b023, // sd t0,0(a1)
    0x0052_8333, // add t1,t0,t0
    0x0066_3023, // sd t1,0(a2)
    0x0012_8293, // addi t0,t0,1
    0x0085_8593, // addi a1,a1,8
    0x0086_0613, // addi a2,a2,8
    0xfed5_94e3, // bne a1,a3,-24
    0x4095_85b3, // sub a1,a1,s1
    0x4096_0633, // sub a2,a2,s1
    0x0005_b703, // ld a4,0(a1)
    0x0006_3783, // ld a5,0(a2)
    0x00f7_0733, // add a4,a4,a5
    0x00e5_3023, // sd a4,0(a0)
    0x0085_8593, // addi a1,a1,8
    0x0086_0613, // addi a2,a2,8
    0x0085_0513, // addi a0,a0,8
    0xfed5_92e3, // bne a1,a3,-28
    0x4095_0533, // sub a0,a0,s1
    0x0095_06b3, // add a3,a0,s1
    0x0000_0393, // addi t2,x0,0
    0x0005_3703, // ld a4,0(a0)
    0x00e3_83b3, // add t2,t2,a4
    0x0085_0513, // addi a0,a0,8
    0xfed5_1ae3, // bne a0,a3,-12
    0xfe71_3c23, // sd t2,-8(sp)
    0x0010_0513, // addi a0,x0,1
    0xff81_0593, // addi a1,sp,-8
    0x0080_0613, // addi a2,x0,8
    0x0400_0893, // addi a7,x0,64
    0x0000_0073, // ecall
    0x0000_0513, // addi a0,x0,0
    0x05d0_0893, // addi a7,x0,93
    0x0000_0073, // ecall
];

// The bytes of words.
fn bytes_of(alloc: Global, words: &[u32]) -> Result<Vec<u8>, AllocError>
    requires { length words.now < 2 ^ 20 }
    ensures { IfOk result (λ v. vec_len v ≡ 4 * length words.now) }
{
    let mut bytes = Vec::new(alloc);
    for word in words {
        bytes.extend_from_slice(&word.to_le_bytes())?;
    }
    Ok(bytes)
}

// A segment of these words.
fn segment(alloc: Global, vaddr: u64, words: &[u32], flags: u32) -> Result<Segment, AllocError>
    requires { length words.now < 2 ^ 20 }
    ensures vaddr { IfOk result (λ s. s.vaddr ≡ vaddr) }
    ensures memsz { IfOk result (λ s. s.memsz ≡ 4 * length words.now) }
    ensures flags { IfOk result (λ s. s.flags ≡ flags) }
    ensures file { IfOk result (λ s. length s.bytes ≡ 4 * length words.now) }
{
    let bytes = bytes_of(alloc, words)?;
    Ok(Segment {
        index: 0,
        vaddr,
        memsz: bytes.len() as u64,
        flags,
        bytes: Bytes::new(bytes),
    })
}

// An executable of these words, which starts with the first.
fn program(alloc: Global, entry: u64, words: &[u32]) -> Result<Elf, AllocError>
    requires some { 0 < length words.now }
    requires few { length words.now < 2 ^ 20 }
    requires aligned { entry % 8 ≡ 0 }
    requires low { entry < 2 ^ 20 }
    ensures { IfOk result IsLoadable }
{
    let mut segments = Vec::new(alloc);
    segments.push(segment(alloc, entry, words, 5)?)?;
    Ok(Elf {
        entry,
        segments: Segments::new(segments),
    })
}

// A graph as text: each word with its steps, and then the start words.
fn shown(alloc: Global, graph: &Graph) -> Result<String, AllocError> {
    let mut text = String::new(alloc);
    for word in graph.words.as_slice() {
        let at = word.at;
        text.push_str(format!(in alloc; "{at:x}")?.as_str())?;
        for step in word.steps.as_slice() {
            text.push_str(format!(in alloc; ">{step:x}")?.as_str())?;
        }
        text.push_str(" ")?;
    }
    text.push_str("|")?;
    for start in graph.starts.as_slice() {
        text.push_str(format!(in alloc; " {start:x}")?.as_str())?;
    }
    Ok(text)
}

// The graph of a program of a few words at 0x10000.
fn graph_of(alloc: Global, words: &[u32]) -> Result<Graph, Fail> {
    if words.is_empty() || words.len() > 100 {
        return Err(Fail::from("size"));
    }
    let elf = program(alloc, 0x10000, words)?;
    Ok(recover(alloc, &elf)?)
}

#[test]
fn a_program_goes_on_behind_a_call_that_returns(rt: HostRuntime) -> Result<(), Fail> {
    let graph = graph_of(rt.alloc(), &HELLO)?;
    assert_eq!(rt;
        shown(rt.alloc(), &graph)?.as_str(),
        "10000>10004 10004>10008 10008>1000c 1000c>10010 10010>10014 10014>10018 10018>1001c 1001c>10020 10020 | 10000"
    );
    let words = graph.words.as_slice();
    assert_eq!(rt; words.len(), HELLO.len());
    for (word, bits) in words.iter().zip(&HELLO) {
        assert_eq!(rt; word.bits, *bits, "at {:x}", word.at);
    }
    Ok(())
}

#[test]
fn loops_of_a_program(rt: HostRuntime) -> Result<(), Fail> {
    let elf = program(rt.alloc(), 0x100B0, &ADD_ARRAYS)?;
    let graph = recover(rt.alloc(), &elf)?;
    assert_eq!(rt;
        shown(rt.alloc(), &graph)?.as_str(),
        "100b0>100b4 100b4>100b8 100b8>100bc 100bc>100c0 100c0>100c4 100c4>100c8 100c8>100cc \
         100cc>100d0 100d0>100d4 100d4>100d8 100d8>100dc 100dc>100e0 100e0>100e4 100e4>100e8>100cc \
         100e8>100ec 100ec>100f0 100f0>100f4 100f4>100f8 100f8>100fc 100fc>10100 10100>10104 \
         10104>10108 10108>1010c 1010c>10110>100f0 10110>10114 10114>10118 10118>1011c \
         1011c>10120 10120>10124 10124>10128 10128>1012c>1011c 1012c>10130 10130>10134 10134>10138 \
         10138>1013c 1013c>10140 10140>10144 10144>10148 10148>1014c 1014c | 100b0"
    );
    Ok(())
}

#[test]
fn edges_of_each_kind(rt: HostRuntime) -> Result<(), Fail> {
    let rows: [(&str, &[u32], &str); 22] = [
        (
            "exit",
            &[0x05D0_0893, 0x0000_0073],
            "10000>10004 10004 | 10000",
        ),
        (
            "exit_group",
            &[0x05E0_0893, 0x0000_0073],
            "10000>10004 10004 | 10000",
        ),
        (
            "another number",
            &[0x05F0_0893, 0x0000_0073],
            "10000>10004 10004>10008 | 10000",
        ),
        (
            "another register",
            &[0x05D0_0293, 0x0000_0073],
            "10000>10004 10004>10008 | 10000",
        ),
        // jal x0,8 over addi a7,x0,93
        (
            "exit, its number not reached",
            &[0x0080_006F, 0x05D0_0893, 0x0000_0073, 0x0010_0073],
            "10000>10008 10008 | 10000",
        ),
        ("ebreak", &[0x0010_0073, 0x0000_0013], "10000 | 10000"),
        // addi x0,x0,0 three times, and 4 bytes to a multiple of 8
        (
            "bytes that the file lacks",
            &[0x13, 0x13, 0x13],
            "10000>10004 10004>10008 10008>1000c 1000c | 10000",
        ),
        // fence.i, and words whose bits 4:0 are 11111 and 00001
        (
            "fence.i, a longer word",
            &[0x0000_100F, 0x0000_001F],
            "10000>10004 10004 | 10000",
        ),
        (
            "a shorter word",
            &[0x0000_0001, 0x0000_0013],
            "10000 | 10000",
        ),
        // beq x0,x0 by -8, 4, 6 and 8
        (
            "a branch out of the area",
            &[0xFE00_0CE3, 0x0010_0073],
            "10000>10004>fff8 10004 | 10000",
        ),
        (
            "a branch to the next word",
            &[0x0000_0263, 0x0010_0073],
            "10000>10004 10004 | 10000",
        ),
        (
            "a branch between words",
            &[0x0000_0363, 0x0010_0073],
            "10000>10004>10006 10004 | 10000",
        ),
        (
            "a branch over a word",
            &[0x0000_0463, 0x0010_0073, 0x0010_0073],
            "10000>10004>10008 10004 10008 | 10000",
        ),
        // jal ra,12, then the exit, then jalr x0,0(ra)
        (
            "a call",
            &[0x00C0_00EF, 0x05D0_0893, 0x0000_0073, 0x0000_8067],
            "10000>10004 10004>10008 10008 1000c | 10000 1000c",
        ),
        // jal ra,-8
        (
            "a call out of the area",
            &[0xFF9F_F0EF, 0x0010_0073],
            "10000>10004 10004 | fff8 10000",
        ),
        // auipc ra,0, jalr ra,17(ra)
        (
            "a pair that calls",
            &[
                0x0000_0097,
                0x0110_80E7,
                0x05D0_0893,
                0x0000_0073,
                0x0010_0073,
            ],
            "10000>10004 10004>10008 10008>1000c 1000c 10010 | 10000 10010",
        ),
        // auipc t0,0, jalr x0,12(t0)
        (
            "a pair that jumps",
            &[0x0000_0297, 0x00C2_8067, 0x0010_0073, 0x0010_0073],
            "10000>10004 10004>1000c 1000c | 10000",
        ),
        // auipc x0,1, jalr x0,8(x0)
        (
            "a pair on x0, out of the area",
            &[0x0000_1017, 0x0080_0067],
            "10000>10004 10004>11008 | 10000",
        ),
        // auipc t0,0, jalr x0,12(t1)
        (
            "two registers",
            &[0x0000_0297, 0x00C3_0067, 0x0010_0073, 0x0010_0073],
            "10000>10004 10004 | 10000",
        ),
        // jalr ra,0(t1)
        (
            "a call through a register",
            &[0x0003_00E7, 0x0010_0073],
            "10000>10004 10004 | 10000",
        ),
        // jal x0,8 over auipc t0,0 to jalr x0,8(t0)
        (
            "a pair whose first word is not reached",
            &[0x0080_006F, 0x0000_0297, 0x0082_8067, 0x0010_0073],
            "10000>10008 10008 | 10000",
        ),
        // jal x0,12 to jalr ra,-4(ra), then jal x0,-8 to auipc ra,0
        (
            "a pair whose second word is reached first",
            &[
                0x00C0_006F,
                0x0010_0073,
                0x0000_0097,
                0xFFC0_80E7,
                0xFF9F_F06F,
            ],
            "10000>1000c 10004 10008>1000c 1000c>10010 10010>10008 | 10000 10004",
        ),
    ];
    for (name, words, want) in rows {
        let graph = graph_of(rt.alloc(), words)?;
        assert_eq!(rt; shown(rt.alloc(), &graph)?.as_str(), want, "{name}");
    }
    Ok(())
}

// An executable of these words at 0x10000, with two words of data at 0x20000 that stand for addi x0,x0,0.
fn with_data(alloc: Global, words: &[u32]) -> Result<Elf, AllocError>
    requires some { 0 < length words.now }
    requires few { length words.now < 1024 }
    ensures { IfOk result IsLoadable }
{
    let mut segments = Vec::new(alloc);
    segments.push(segment(alloc, 0x10000, words, 5)?)?;
    segments.push(segment(alloc, 0x20000, &[0x13, 0x13], 6)?)?;
    Ok(Elf {
        entry: 0x10000,
        segments: Segments::new(segments),
    })
}

#[test]
fn data_is_not_reached(rt: HostRuntime) -> Result<(), Fail> {
    // jal x0,0x10004
    let elf = with_data(rt.alloc(), &[0x0041_006F])?;
    let graph = recover(rt.alloc(), &elf)?;
    assert_eq!(rt; shown(rt.alloc(), &graph)?.as_str(), "10000>20004 | 10000");
    Ok(())
}

// The number of reached words of a program of so many, of which the last is ebreak.
fn count_of(alloc: Global, size: usize) -> Result<Result<usize, u64>, Fail> {
    if size == 0 || size > 300_000 {
        return Err(Fail::from("size"));
    }
    let mut words = vec![in alloc; 0x0000_0013; size]?;
    words[size - 1] = 0x0010_0073;
    let elf = program(alloc, 0x10000, words.as_slice())?;
    match recover(alloc, &elf) {
        Ok(graph) => Ok(Ok(graph.words.as_slice().len())),
        Err(FlowErr::TooManyWords { count }) => Ok(Err(count)),
        Err(e) => Err(Fail::from(e)),
    }
}

#[test]
fn at_most_262144_words(rt: HostRuntime) -> Result<(), Fail> {
    assert_eq!(rt; count_of(rt.alloc(), 262_144)?, Ok(262_144));
    assert_eq!(rt; count_of(rt.alloc(), 262_145)?, Err(262_145));
    Ok(())
}
