use super::files::{arrays, changed};
use super::{
    Case, EXIT, OUTPUT_FAILS, RUN, answer_to, check, check_all, check_bytes, give_in_turn,
    outside_of, program, words_of,
};
use crate::status::Status;
use std::alloc::{AllocError, Global};
use std::process::Abort;
use std::thread::Threads;

// A loop of three words at 0x10080, the second of which is put in, the exit, and a function.
const AROUND: [u32; 8] = [
    0x0000_0513, // addi a0,x0,0
    0x00a0_0593, // addi a1,x0,10
    0x0015_0513, // addi a0,a0,1
    0,
    0xfeb5_1ce3, // bne a0,a1,0x10080
    0x05d0_0893, // addi a7,x0,93
    0x0000_0073, // ecall
    0x0000_8067, // jalr x0,0(ra)
];

// Counts up to one of two numbers, and is left in two places.
static TWO_EXITS: [u32; 5] = [
    0x0015_0513, // addi a0,a0,1
    0x00b5_0463, // beq a0,a1,0x10084
    0xfec5_1ce3, // bne a0,a2,0x10078
    0x05d0_0893, // addi a7,x0,93
    0x0000_0073, // ecall
];

// The first branch jumps into the cycle behind its header.
static TWO_ENTRIES: [u32; 7] = [
    0x0006_8663, // beq a3,x0,0x10084
    0x0007_0713, // addi a4,a4,0
    0x0015_0513, // addi a0,a0,1
    0x0015_8593, // addi a1,a1,1
    0xfec5_1ce3, // bne a0,a2,0x10080
    0x05d0_0893, // addi a7,x0,93
    0x0000_0073, // ecall
];

const LIST: Case = Case {
    words: "list file",
    answer: Some(Status::Done),
    ..RUN
};

fn check_list<R: Threads + Sync + Abort>(
    rt: &R,
    alloc: Global,
    code: &[u32],
    list: &'static str,
) -> Result<(), AllocError> {
    let file = program(alloc, code, "")?;
    let case = Case {
        output: list.as_bytes(),
        ..LIST
    };
    check(rt, alloc, file.as_slice(), &case)
}

// What is said of the loop with this word in it.
static WORDS_IN_A_LOOP: [(u32, &str); 5] = [
    (0x0016_0613, "loop 0x00010080 parallel chosen\n"), // addi a2,a2,1
    (0x0100_00ef, "loop 0x00010080 call 0x00010084\n"), // jal ra,0x10094
    (0x0000_0073, "loop 0x00010080 system 0x00010084\n"), // ecall
    (0x0002_80e7, "loop 0x00010080 indirect 0x00010084\n"), // jalr ra,0(t0)
    (0x0000_0053, "loop 0x00010080 unsupported 0x00010084\n"), // no instruction
];

fn check_lists<R: Threads + Sync + Abort>(rt: &R, alloc: Global) -> Result<(), AllocError> {
    check_list(rt, alloc, &EXIT, "")?;
    check_list(rt, alloc, &TWO_EXITS, "loop 0x00010078 shape 0x00010078\n")?;
    check_list(
        rt,
        alloc,
        &TWO_ENTRIES,
        "loop 0x00010080 multi-entry 0x00010078 -> 0x00010084\n",
    )?;
    for (word, list) in &WORDS_IN_A_LOOP {
        let mut code = AROUND;
        code[3] = *word;
        check_list(rt, alloc, &code, *list)?;
    }
    Ok(())
}

#[test]
fn loops_are_listed(rt: HostRuntime) -> Result<(), AllocError> {
    check_lists(&rt, rt.alloc())
}

struct Listed {
    code: &'static [u32],
    list: &'static str,
}

static LISTS: [Listed; 12] = [
    // A value is read a turn after it is written.
    Listed {
        code: &[
            0x0000_0013, // addi zero, zero, 0
            0x0000_0013, // addi zero, zero, 0
            0xff85_3783, // ld a5, -8(a0)
            0x0017_8793, // addi a5, a5, 1
            0x00f5_3023, // sd a5, 0(a0)
            0x0085_0513, // addi a0, a0, 8
            0xfeb5_18e3, // bne a0, a1, l
            0x05d0_0893, // addi a7, zero, 93
            0x0000_0073, // ecall
        ],
        list: "loop 0x00010080 dependence 0x00010080 0x00010088 distance (1)\n",
    },
    // Each turn has 16 bytes of its own.
    Listed {
        code: &[
            0x0085_3783, // ld a5, 8(a0)
            0x00f5_3023, // sd a5, 0(a0)
            0x0105_0513, // addi a0, a0, 16
            0xfeb5_1ae3, // bne a0, a1, l
            0x05d0_0893, // addi a7, zero, 93
            0x0000_0073, // ecall
        ],
        list: "loop 0x00010078 parallel chosen\n",
    },
    // A byte is read of the word that the next turn writes.
    Listed {
        code: &[
            0x0000_0013, // addi zero, zero, 0
            0x0000_0013, // addi zero, zero, 0
            0x0055_0783, // lb a5, 5(a0)
            0x00f5_2023, // sw a5, 0(a0)
            0x0045_0513, // addi a0, a0, 4
            0xfeb5_1ae3, // bne a0, a1, l
            0x05d0_0893, // addi a7, zero, 93
            0x0000_0073, // ecall
        ],
        list: "loop 0x00010080 dependence 0x00010080 0x00010084 distance (1)\n",
    },
    // Rows of 800 bytes, the doublewords of which are copied from 824 bytes before them, the last one first.
    Listed {
        code: &[
            0x0000_0013, // addi zero, zero, 0
            0x0000_0013, // addi zero, zero, 0
            0x0005_0613, // addi a2, a0, 0
            0x00a0_0693, // addi a3, zero, 10
            0xcc86_3783, // ld a5, -824(a2)
            0x00f6_3023, // sd a5, 0(a2)
            0xff86_0613, // addi a2, a2, -8
            0xfff6_8693, // addi a3, a3, -1
            0xfe06_98e3, // bne a3, zero, inner
            0x3205_0513, // addi a0, a0, 800
            0xfeb5_10e3, // bne a0, a1, outer
            0x05d0_0893, // addi a7, zero, 93
            0x0000_0073, // ecall
        ],
        list: "loop 0x00010080 dependence 0x00010088 0x0001008c distance (1, -3)\nloop 0x00010088 parallel chosen\n",
    },
    // Rows of 800 bytes, the doublewords of which are copied from 1600 bytes before them.
    Listed {
        code: &[
            0x0000_0013, // addi zero, zero, 0
            0x0000_0013, // addi zero, zero, 0
            0x0005_0613, // addi a2, a0, 0
            0x00a0_0693, // addi a3, zero, 10
            0x9c06_3783, // ld a5, -1600(a2)
            0x00f6_3023, // sd a5, 0(a2)
            0x0086_0613, // addi a2, a2, 8
            0xfff6_8693, // addi a3, a3, -1
            0xfe06_98e3, // bne a3, zero, inner
            0x3205_0513, // addi a0, a0, 800
            0xfeb5_10e3, // bne a0, a1, outer
            0x05d0_0893, // addi a7, zero, 93
            0x0000_0073, // ecall
        ],
        list: "loop 0x00010080 dependence 0x00010088 0x0001008c distance (2, 0)\nloop 0x00010088 parallel chosen\n",
    },
    // Rows of 800 bytes, the doublewords of which are copied from 856 bytes before them.
    Listed {
        code: &[
            0x0000_0013, // addi zero, zero, 0
            0x0000_0013, // addi zero, zero, 0
            0x0005_0613, // addi a2, a0, 0
            0x00a0_0693, // addi a3, zero, 10
            0xca86_3783, // ld a5, -856(a2)
            0x00f6_3023, // sd a5, 0(a2)
            0x0086_0613, // addi a2, a2, 8
            0xfff6_8693, // addi a3, a3, -1
            0xfe06_98e3, // bne a3, zero, inner
            0x3205_0513, // addi a0, a0, 800
            0xfeb5_10e3, // bne a0, a1, outer
            0x05d0_0893, // addi a7, zero, 93
            0x0000_0073, // ecall
        ],
        list: "loop 0x00010080 dependence 0x00010088 0x0001008c distance (1, 7)\nloop 0x00010088 parallel chosen\n",
    },
    // Rows of 800 bytes, the doublewords of which are copied from 864 bytes before them.
    Listed {
        code: &[
            0x0000_0013, // addi zero, zero, 0
            0x0000_0013, // addi zero, zero, 0
            0x0005_0613, // addi a2, a0, 0
            0x00a0_0693, // addi a3, zero, 10
            0xca06_3783, // ld a5, -864(a2)
            0x00f6_3023, // sd a5, 0(a2)
            0x0086_0613, // addi a2, a2, 8
            0xfff6_8693, // addi a3, a3, -1
            0xfe06_98e3, // bne a3, zero, inner
            0x3205_0513, // addi a0, a0, 800
            0xfeb5_10e3, // bne a0, a1, outer
            0x05d0_0893, // addi a7, zero, 93
            0x0000_0073, // ecall
        ],
        list: "loop 0x00010080 dependence 0x00010088 0x0001008c distance none\nloop 0x00010088 parallel chosen\n",
    },
    // A loop without optimisation: counter, array and bound are cells on the stack, and the test is at its end.
    Listed {
        code: &[
            0x0280_006f, // jal zero, test
            0xfe84_3783, // ld a5, -24(s0)
            0x0037_9793, // slli a5, a5, 3
            0xfd84_3703, // ld a4, -40(s0)
            0x00f7_07b3, // add a5, a4, a5
            0xfe84_3703, // ld a4, -24(s0)
            0x00e7_b023, // sd a4, 0(a5)
            0xfe84_3783, // ld a5, -24(s0)
            0x0017_8793, // addi a5, a5, 1
            0xfef4_3423, // sd a5, -24(s0)
            0xfe84_3703, // ld a4, -24(s0)
            0xfd04_3783, // ld a5, -48(s0)
            0xfcf7_4ae3, // blt a4, a5, body
            0x05d0_0893, // addi a7, zero, 93
            0x0000_0073, // ecall
        ],
        list: "loop 0x000100a0 parallel chosen\n",
    },
    // The same with a sum in a cell in place of the array.
    Listed {
        code: &[
            0x0200_006f, // jal zero, test
            0xfe04_3703, // ld a4, -32(s0)
            0xfe84_3783, // ld a5, -24(s0)
            0x00f7_07b3, // add a5, a4, a5
            0xfef4_3023, // sd a5, -32(s0)
            0xfe84_3783, // ld a5, -24(s0)
            0x0017_8793, // addi a5, a5, 1
            0xfef4_3423, // sd a5, -24(s0)
            0xfe84_3703, // ld a4, -24(s0)
            0xfd04_3783, // ld a5, -48(s0)
            0xfcf7_4ee3, // blt a4, a5, body
            0x05d0_0893, // addi a7, zero, 93
            0x0000_0073, // ecall
        ],
        list: "loop 0x00010098 carried cell x8 -32 8\n",
    },
    // A sum at a known address.
    Listed {
        code: &[
            0x0002_0637, // lui a2, 0x20
            0x0006_3703, // ld a4, 0(a2)
            0x00a7_0733, // add a4, a4, a0
            0x00e6_3023, // sd a4, 0(a2)
            0x0015_0513, // addi a0, a0, 1
            0xfeb5_16e3, // bne a0, a1, l
            0x05d0_0893, // addi a7, zero, 93
            0x0000_0073, // ecall
        ],
        list: "loop 0x00010078 carried cell abs 131072 8\n",
    },
    // A nest of three loops that store each doubleword once.
    Listed {
        code: &[
            0x0005_0593, // addi a1, a0, 0
            0x00a0_0713, // addi a4, zero, 10
            0x0005_8613, // addi a2, a1, 0
            0x00a0_0793, // addi a5, zero, 10
            0x0006_3023, // sd zero, 0(a2)
            0x0086_0613, // addi a2, a2, 8
            0xfff7_8793, // addi a5, a5, -1
            0xfe07_9ae3, // bne a5, zero, inner
            0x0505_8593, // addi a1, a1, 80
            0xfff7_0713, // addi a4, a4, -1
            0xfe07_10e3, // bne a4, zero, middle
            0x3205_0513, // addi a0, a0, 800
            0xfd05_18e3, // bne a0, a6, outer
            0x05d0_0893, // addi a7, zero, 93
            0x0000_0073, // ecall
        ],
        list: "loop 0x00010078 parallel chosen\nloop 0x00010080 parallel\nloop 0x00010088 parallel\n",
    },
    // The same, and the outermost loop has a sum.
    Listed {
        code: &[
            0x0005_0593, // addi a1, a0, 0
            0x00a0_0713, // addi a4, zero, 10
            0x0005_8613, // addi a2, a1, 0
            0x00a0_0793, // addi a5, zero, 10
            0x0006_3023, // sd zero, 0(a2)
            0x0086_0613, // addi a2, a2, 8
            0xfff7_8793, // addi a5, a5, -1
            0xfe07_9ae3, // bne a5, zero, inner
            0x0505_8593, // addi a1, a1, 80
            0xfff7_0713, // addi a4, a4, -1
            0xfe07_10e3, // bne a4, zero, middle
            0x00a3_83b3, // add t2, t2, a0
            0x3205_0513, // addi a0, a0, 800
            0xfd05_16e3, // bne a0, a6, outer
            0x05d0_0893, // addi a7, zero, 93
            0x0000_0073, // ecall
        ],
        list: "loop 0x00010078 carried x7\nloop 0x00010080 parallel chosen\nloop 0x00010088 parallel\n",
    },
];

fn check_programs<R: Threads + Sync + Abort>(rt: &R, alloc: Global) -> Result<(), AllocError> {
    for listed in &LISTS {
        check_list(rt, alloc, listed.code, listed.list)?;
    }
    Ok(())
}

#[test]
fn loops_are_judged(rt: HostRuntime) -> Result<(), AllocError> {
    check_programs(&rt, rt.alloc())
}

// What decides against a loop: the word at the entry, two words in the loop, and its line where they stand at
// 0x10088.
struct Cause {
    entry: u32,
    words: [u32; 2],
    list: &'static str,
}

// In the order of the verdicts.
static CAUSES: [Cause; 12] = [
    // beq a3, zero, 0x10088 before the loop
    Cause {
        entry: 0x0006_8863,
        words: [0x0000_0013, 0x0000_0013],
        list: "loop 0x00010080 multi-entry 0x00010078 -> 0x00010088\n",
    },
    // jal ra, 0x20
    Cause {
        entry: 0x0000_0013,
        words: [0x0200_00ef, 0x0000_0013],
        list: "loop 0x00010080 call 0x00010088\n",
    },
    // ecall
    Cause {
        entry: 0x0000_0013,
        words: [0x0000_0073, 0x0000_0013],
        list: "loop 0x00010080 system 0x00010088\n",
    },
    // jalr ra, 0(t0)
    Cause {
        entry: 0x0000_0013,
        words: [0x0002_80e7, 0x0000_0013],
        list: "loop 0x00010080 indirect 0x00010088\n",
    },
    // .word 0x53
    Cause {
        entry: 0x0000_0013,
        words: [0x0000_0053, 0x0000_0013],
        list: "loop 0x00010080 unsupported 0x00010088\n",
    },
    // beq a2, zero, 0x18
    Cause {
        entry: 0x0000_0013,
        words: [0x0006_0c63, 0x0000_0013],
        list: "loop 0x00010080 shape 0x00010080\n",
    },
    // auipc a5, 0x7ffff
    Cause {
        entry: 0x0000_0013,
        words: [0x7fff_f797, 0x0000_0013],
        list: "loop 0x00010080 limit 0x00010088\n",
    },
    // ld a4, 0(s0), lw a5, 4(s0)
    Cause {
        entry: 0x0000_0013,
        words: [0x0004_3703, 0x0044_2783],
        list: "loop 0x00010080 mixed-cell 0x0001008c\n",
    },
    // add t1, t1, t2
    Cause {
        entry: 0x0000_0013,
        words: [0x0073_0333, 0x0000_0013],
        list: "loop 0x00010080 carried x6\n",
    },
    // mul a1, a4, a4
    Cause {
        entry: 0x0000_0013,
        words: [0x02e7_05b3, 0x0000_0013],
        list: "loop 0x00010080 no-trip 0x00010094\n",
    },
    // mul a6, a4, a4, ld a7, 0(a6)
    Cause {
        entry: 0x0000_0013,
        words: [0x02e7_0833, 0x0008_3883],
        list: "loop 0x00010080 irregular 0x0001008c\n",
    },
    // ld a5, -8(a0), sd a5, 0(a0)
    Cause {
        entry: 0x0000_0013,
        words: [0xff85_3783, 0x00f5_3023],
        list: "loop 0x00010080 dependence 0x00010088 0x0001008c distance (1)\n",
    },
];

const NO_CAUSE: [u32; 2] = [0x0000_0013, 0x0000_0013]; // addi x0,x0,0

// A loop from 0x10080 to 0x10094 with these words first, and then those of a cause.
fn check_cause<R: Threads + Sync + Abort>(
    rt: &R,
    alloc: Global,
    first: [u32; 2],
    cause: &Cause,
) -> Result<(), AllocError> {
    let code = [
        cause.entry,
        0x0000_0013, // addi x0,x0,0
        first[0],
        first[1],
        cause.words[0],
        cause.words[1],
        0x0085_0513, // addi a0,a0,8
        0xfeb5_16e3, // bne a0,a1,0x10080
        0x05d0_0893, // addi a7,x0,93
        0x0000_0073, // ecall
        0x0000_8067, // jalr x0,0(ra)
        0x0000_8067, // jalr x0,0(ra)
        0x0000_8067, // jalr x0,0(ra)
    ];
    check_list(rt, alloc, code.as_slice(), cause.list)
}

// Each cause alone, and behind each of a later verdict.
fn check_causes<R: Threads + Sync + Abort>(rt: &R, alloc: Global) -> Result<(), AllocError> {
    for (place, cause) in CAUSES.iter().enumerate() {
        check_cause(rt, alloc, NO_CAUSE, cause)?;
        for later in CAUSES.iter().skip(place + 1) {
            check_cause(rt, alloc, later.words, cause)?;
        }
    }
    Ok(())
}

#[test]
fn the_first_verdict_that_applies_is_listed(rt: HostRuntime) -> Result<(), AllocError> {
    check_causes(&rt, rt.alloc())
}

// A sample that is made, and its list.
static LISTS_OF_SAMPLES: [[Case; 2]; 3] = [
    [
        Case {
            words: "make vadd 1000 new",
            report: "made 336\n",
            changed: "new",
            ..LIST
        },
        Case {
            words: "list new",
            output: b"loop 0x000100cc parallel chosen\nloop 0x000100f0 parallel chosen\nloop 0x0001011c carried x7\n",
            report: "made 336\n",
            changed: "new",
            ..LIST
        },
    ],
    [
        Case {
            words: "make stencil 100 new",
            report: "made 388\n",
            changed: "new",
            ..LIST
        },
        Case {
            words: "list new",
            output: b"loop 0x000100d0 parallel chosen\nloop 0x000100ec parallel chosen\nloop 0x00010104 parallel\nloop 0x00010150 carried x7\n",
            report: "made 388\n",
            changed: "new",
            ..LIST
        },
    ],
    [
        Case {
            words: "make bytemap 1000 new",
            report: "made 320\n",
            changed: "new",
            ..LIST
        },
        Case {
            words: "list new",
            output: b"loop 0x000100d0 parallel chosen\nloop 0x000100e4 parallel chosen\nloop 0x0001010c carried x7\n",
            report: "made 320\n",
            changed: "new",
            ..LIST
        },
    ],
];

fn check_samples<R: Threads + Sync + Abort>(rt: &R, alloc: Global) -> Result<(), AllocError> {
    for turns in &LISTS_OF_SAMPLES {
        give_in_turn(rt, alloc, b"", turns)?;
    }
    Ok(())
}

#[test]
fn loops_of_samples_are_listed(rt: HostRuntime) -> Result<(), AllocError> {
    check_samples(&rt, rt.alloc())
}

// So many loops of two words each.
fn short_loops(alloc: Global, count: usize) -> Result<Vec<u8>, AllocError> {
    let mut code = Vec::new(alloc);
    for _ in 0..count {
        code.push(0x0015_0513)?; // addi a0,a0,1
        code.push(0xfeb5_1ee3)?; // bne a0,a1,-4
    }
    code.push(0x05d0_0893)?; // addi a7,x0,93
    code.push(0x0000_0073)?; // ecall
    program(alloc, code.as_slice(), "")
}

fn check_many<R: Threads + Sync + Abort>(rt: &R, alloc: Global) -> Result<(), AllocError> {
    let file = short_loops(alloc, 1_024)?;
    let case = Case {
        room: 40_000,
        ..LIST
    };
    let mut at = outside_of(alloc, file.as_slice(), &case)?;
    let words = words_of(alloc, case.words)?;
    let status = answer_to(rt, alloc, words.as_slice(), &mut at);
    assert!(rt; status == Status::Done);
    let mut list = String::new(alloc);
    for place in 0..1_024u64 {
        let header = 0x10078 + 8 * place;
        let line = format!(in alloc; "loop 0x{header:08x} parallel chosen\n")?;
        list.push_str(line.as_str())?;
    }
    check_bytes(rt, at.out.bytes(), list.as_bytes(), "output", case.words);
    Ok(())
}

#[test]
fn as_many_loops_as_may_be_chosen_are_listed(rt: HostRuntime) -> Result<(), AllocError> {
    check_many(&rt, rt.alloc())
}

static LISTS_OF_ARRAYS: [Case; 3] = [
    Case {
        output: b"loop 0x000100cc parallel chosen\nloop 0x000100f0 parallel chosen\nloop 0x0001011c carried x7\n",
        ..LIST
    },
    Case {
        failing: OUTPUT_FAILS,
        answer: Some(Status::WriteFault),
        number: 127,
        ..LIST
    },
    Case {
        room: 30,
        answer: Some(Status::WriteFault),
        number: 127,
        output: b"loop 0x000100cc parallel chose",
        ..LIST
    },
];

#[test]
fn loops_of_a_file_with_two_headers_are_listed(rt: HostRuntime) -> Result<(), AllocError> {
    let file = arrays(rt.alloc(), 24_000, 0x0000_24b7, 0xf404_849b)?;
    check_all(&rt, rt.alloc(), file.as_slice(), &LISTS_OF_ARRAYS)
}

fn check_refused<R: Threads + Sync + Abort>(
    rt: &R,
    alloc: Global,
    file: &[u8],
    report: &'static str,
) -> Result<(), AllocError> {
    let case = Case {
        words: "list file",
        number: 124,
        report,
        ..RUN
    };
    check(rt, alloc, file, &case)
}

static LIST_OF_NO_FILE: [Case; 1] = [Case {
    words: "list other",
    answer: Some(Status::StoreFault),
    number: 125,
    report: "store-fault\n",
    ..RUN
}];

fn check_refused_lists<R: Threads + Sync + Abort>(rt: &R, alloc: Global) -> Result<(), AllocError> {
    check_refused(rt, alloc, b"", "refused not-elf\n")?;
    let linked = changed(alloc, 30, 3)?;
    check_refused(rt, alloc, linked.as_slice(), "refused dynamic 1\n")?;
    let nops = vec![in alloc; 0x0000_0013u32; 262_145]?;
    let long = program(alloc, nops.as_slice(), "")?;
    check_refused(
        rt,
        alloc,
        long.as_slice(),
        "refused too-many-words 262145\n",
    )?;
    let many = short_loops(alloc, 1_025)?;
    check_refused(rt, alloc, many.as_slice(), "refused too-many-loops 1025\n")?;
    check_all(rt, alloc, b"", &LIST_OF_NO_FILE)
}

#[test]
fn refused_list_writes_nothing(rt: HostRuntime) -> Result<(), AllocError> {
    check_refused_lists(&rt, rt.alloc())
}
