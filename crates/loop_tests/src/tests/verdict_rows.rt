use crate::tests::is_short;
use crate::tests::samples::{Program, push_file};
use elf_image::read_elf;
use flow_recovery::laws::starts;
use flow_recovery::recover;
use linear_forms::Loc;
use loop_choice::{Judged, judge};
use loop_data::{Cell, Verdict};
use loop_shapes::loops;
use std::alloc::{AllocError, Global};
use std::process::Abort;

// The verdict that the loop at a header is to have.
struct Case {
    name: &'static str,
    program: Program,
    header: u64,
    verdict: Verdict,
}

static CASES: [Case; 17] = [
    Case {
        name: "the cell of the turn before",
        program: Program::Code(&[
            0x0000_0013, // addi x0,x0,0
            0x0000_0013, // addi x0,x0,0
            0xff85_3783, // ld a5,-8(a0)
            0x0017_8793, // addi a5,a5,1
            0x00f5_3023, // sd a5,0(a0)
            0x0085_0513, // addi a0,a0,8
            0xfeb5_18e3, // bne a0,a1,h
        ]),
        header: 0x10080,
        verdict: Verdict::Dependence {
            first: 0x10080,
            second: 0x10088,
            common: 0,
            distance: Some([1, 0, 0]),
        },
    },
    Case {
        name: "each second number",
        program: Program::Code(&[
            0x0085_3783, // ld a5,8(a0)
            0x00f5_3023, // sd a5,0(a0)
            0x0105_0513, // addi a0,a0,16
            0xfeb5_1ae3, // bne a0,a1,h
        ]),
        header: 0x10078,
        verdict: Verdict::Parallel,
    },
    Case {
        name: "a byte of the word of the next turn",
        program: Program::Code(&[
            0x0000_0013, // addi x0,x0,0
            0x0000_0013, // addi x0,x0,0
            0x0055_0783, // lb a5,5(a0)
            0x00f5_2023, // sw a5,0(a0)
            0x0045_0513, // addi a0,a0,4
            0xfeb5_1ae3, // bne a0,a1,h
        ]),
        header: 0x10080,
        verdict: Verdict::Dependence {
            first: 0x10080,
            second: 0x10084,
            common: 0,
            distance: Some([1, 0, 0]),
        },
    },
    Case {
        name: "a first pair that may be apart, and a later one that is not",
        program: Program::Code(&[
            0x0086_3783, // ld a5,8(a2)
            0x00f5_3023, // sd a5,0(a0)
            0x0105_3703, // ld a4,16(a0)
            0x0085_0513, // addi a0,a0,8
            0x0086_0613, // addi a2,a2,8
            0xfeb5_16e3, // bne a0,a1,h
        ]),
        header: 0x10078,
        verdict: Verdict::Dependence {
            first: 0x1007c,
            second: 0x10080,
            common: 0,
            distance: Some([2, 0, 0]),
        },
    },
    Case {
        name: "a carried cell at a known address",
        program: Program::Code(&[
            0x0002_0637, // lui a2,0x20
            0x0006_3783, // ld a5,0(a2)
            0x00a7_c7b3, // xor a5,a5,a0
            0x00f6_3023, // sd a5,0(a2)
            0x0085_0513, // addi a0,a0,8
            0xfeb5_16e3, // bne a0,a1,h
        ]),
        header: 0x10078,
        verdict: Verdict::Carried {
            loc: Loc::Cell(0),
            cell: Some(Cell {
                base: None,
                offset: 131072,
                wide: true,
                stored: true,
            }),
        },
    },
    Case {
        name: "a sum in a cell",
        program: Program::Code(&[
            0x0005_3783, // ld a5,0(a0)
            0xfe84_3703, // ld a4,-24(s0)
            0x00f7_0733, // add a4,a4,a5
            0xfee4_3423, // sd a4,-24(s0)
            0x0085_0513, // addi a0,a0,8
            0xfeb5_16e3, // bne a0,a1,h
        ]),
        header: 0x10078,
        verdict: Verdict::Carried {
            loc: Loc::Cell(0),
            cell: Some(Cell {
                base: Some(8),
                offset: -24,
                wide: true,
                stored: true,
            }),
        },
    },
    Case {
        name: "three loops",
        program: Program::Code(&[
            0x0005_0793, // addi a5,a0,0
            0x0005_8813, // addi a6,a1,0
            0x0007_b703, // ld a4,0(a5)
            0x00e8_3423, // sd a4,8(a6)
            0x0087_8793, // addi a5,a5,8
            0x0088_0813, // addi a6,a6,8
            0xfec7_98e3, // bne a5,a2,i
            0x0005_8813, // addi a6,a1,0
            0x0006_8893, // addi a7,a3,0
            0x00e8_3823, // sd a4,16(a6)
            0x0088_0813, // addi a6,a6,8
            0xfff8_8893, // addi a7,a7,-1
            0xfe08_9ae3, // bne a7,x0,j
            0x3205_0513, // addi a0,a0,800
            0x3205_8593, // addi a1,a1,800
            0x3206_0613, // addi a2,a2,800
            0xfc55_10e3, // bne a0,t0,h
        ]),
        header: 0x10078,
        verdict: Verdict::Parallel,
    },
    Case {
        name: "three loops, the first inner one",
        program: Program::Code(&[
            0x0005_0793, // addi a5,a0,0
            0x0005_8813, // addi a6,a1,0
            0x0007_b703, // ld a4,0(a5)
            0x00e8_3423, // sd a4,8(a6)
            0x0087_8793, // addi a5,a5,8
            0x0088_0813, // addi a6,a6,8
            0xfec7_98e3, // bne a5,a2,i
            0x0005_8813, // addi a6,a1,0
            0x0006_8893, // addi a7,a3,0
            0x00e8_3823, // sd a4,16(a6)
            0x0088_0813, // addi a6,a6,8
            0xfff8_8893, // addi a7,a7,-1
            0xfe08_9ae3, // bne a7,x0,j
            0x3205_0513, // addi a0,a0,800
            0x3205_8593, // addi a1,a1,800
            0x3206_0613, // addi a2,a2,800
            0xfc55_10e3, // bne a0,t0,h
        ]),
        header: 0x10080,
        verdict: Verdict::Parallel,
    },
    Case {
        name: "three loops, the second inner one",
        program: Program::Code(&[
            0x0005_0793, // addi a5,a0,0
            0x0005_8813, // addi a6,a1,0
            0x0007_b703, // ld a4,0(a5)
            0x00e8_3423, // sd a4,8(a6)
            0x0087_8793, // addi a5,a5,8
            0x0088_0813, // addi a6,a6,8
            0xfec7_98e3, // bne a5,a2,i
            0x0005_8813, // addi a6,a1,0
            0x0006_8893, // addi a7,a3,0
            0x00e8_3823, // sd a4,16(a6)
            0x0088_0813, // addi a6,a6,8
            0xfff8_8893, // addi a7,a7,-1
            0xfe08_9ae3, // bne a7,x0,j
            0x3205_0513, // addi a0,a0,800
            0x3205_8593, // addi a1,a1,800
            0x3206_0613, // addi a2,a2,800
            0xfc55_10e3, // bne a0,t0,h
        ]),
        header: 0x1009c,
        verdict: Verdict::Parallel,
    },
    Case {
        name: "a sum round a parallel loop",
        program: Program::Code(&[
            0x0005_0793, // addi a5,a0,0
            0x00d7_b023, // sd a3,0(a5)
            0x0087_8793, // addi a5,a5,8
            0xfec7_9ce3, // bne a5,a2,i
            0x00e7_0733, // add a4,a4,a4
            0xfff6_8693, // addi a3,a3,-1
            0xfe06_94e3, // bne a3,x0,h
        ]),
        header: 0x10078,
        verdict: Verdict::Carried {
            loc: Loc::Reg(14),
            cell: None,
        },
    },
    Case {
        name: "a parallel loop in a sum",
        program: Program::Code(&[
            0x0005_0793, // addi a5,a0,0
            0x00d7_b023, // sd a3,0(a5)
            0x0087_8793, // addi a5,a5,8
            0xfec7_9ce3, // bne a5,a2,i
            0x00e7_0733, // add a4,a4,a4
            0xfff6_8693, // addi a3,a3,-1
            0xfe06_94e3, // bne a3,x0,h
        ]),
        header: 0x1007c,
        verdict: Verdict::Parallel,
    },
    Case {
        name: "a row later and three steps before",
        program: Program::Code(&[
            0x0005_0793, // addi a5,a0,0
            0xfa07_b703, // ld a4,-96(a5)
            0x00e7_b023, // sd a4,0(a5)
            0x0287_8793, // addi a5,a5,40
            0xfec7_9ae3, // bne a5,a2,i
            0x0185_0513, // addi a0,a0,24
            0x0186_0613, // addi a2,a2,24
            0xfed5_12e3, // bne a0,a3,h
        ]),
        header: 0x10078,
        verdict: Verdict::Dependence {
            first: 0x1007c,
            second: 0x10080,
            common: 1,
            distance: Some([1, -3, 0]),
        },
    },
    Case {
        name: "a row and eight steps later",
        program: Program::Code(&[
            0x0005_0793, // addi a5,a0,0
            0xad87_b703, // ld a4,-1320(a5)
            0x00e7_b023, // sd a4,0(a5)
            0x0287_8793, // addi a5,a5,40
            0xfec7_9ae3, // bne a5,a2,i
            0x3e85_0513, // addi a0,a0,1000
            0x3e86_0613, // addi a2,a2,1000
            0xfed5_12e3, // bne a0,a3,h
        ]),
        header: 0x10078,
        verdict: Verdict::Dependence {
            first: 0x1007c,
            second: 0x10080,
            common: 1,
            distance: None,
        },
    },
    Case {
        name: "arrays that are added",
        program: Program::Adds,
        header: 0x100f0,
        verdict: Verdict::Parallel,
    },
    Case {
        name: "the sum of an array",
        program: Program::Adds,
        header: 0x1011c,
        verdict: Verdict::Carried {
            loc: Loc::Reg(7),
            cell: None,
        },
    },
    Case {
        name: "a counter in memory",
        program: Program::Counter,
        header: 0x100a0,
        verdict: Verdict::Parallel,
    },
    Case {
        name: "an inner induction past the limits",
        program: Program::Code(&[
            0x7fff_f537, // lui a0,0x7ffff
            0x7ff5_0513, // addi a0,a0,2047
            0x7f95_0513, // addi a0,a0,2041
            0x0085_0513, // addi a0,a0,8
            0xfec5_1ee3, // bne a0,a2,-4
            0x0016_8693, // addi a3,a3,1
            0xfee6_94e3, // bne a3,a4,-24
        ]),
        header: 0x10078,
        verdict: Verdict::Carried {
            loc: Loc::Reg(10),
            cell: None,
        },
    },
];

// Words in place of those of a loop that is parallel, by their numbers, and the verdict that they make.
struct Change {
    words: &'static [(usize, u32)],
    verdict: Verdict,
}

// A loop at 0x10078 that counts a0 up to a1.
static PLAIN: [u32; 16] = [
    0x0000_0013, // addi x0,x0,0
    0x0000_0013, // addi x0,x0,0
    0x0000_0013, // addi x0,x0,0
    0x0000_0013, // addi x0,x0,0
    0x0000_0013, // addi x0,x0,0
    0x0000_0013, // addi x0,x0,0
    0x0000_0013, // addi x0,x0,0
    0x0000_0013, // addi x0,x0,0
    0x0000_0013, // addi x0,x0,0
    0x0000_0013, // addi x0,x0,0
    0x0000_0013, // addi x0,x0,0
    0x0000_0013, // addi x0,x0,0
    0x0000_0013, // addi x0,x0,0
    0x0000_0013, // addi x0,x0,0
    0x0085_0513, // addi a0,a0,8
    0xfcb5_12e3, // bne a0,a1,-60
];

// In the order of the verdicts.
static CHANGES: [Change; 11] = [
    Change {
        words: &[(1, 0x03c0_00ef)], // jal ra,60
        verdict: Verdict::Call { at: 0x1007c },
    },
    Change {
        words: &[(2, 0x0000_0073)], // ecall
        verdict: Verdict::System { at: 0x10080 },
    },
    Change {
        words: &[(3, 0x0008_00e7)], // jalr ra,0(a6)
        verdict: Verdict::Indirect { at: 0x10084 },
    },
    Change {
        words: &[(4, 0x0000_000b)],
        verdict: Verdict::Unsupported { at: 0x10088 },
    },
    Change {
        words: &[(5, 0x0208_0663)], // beq a6,x0,44
        verdict: Verdict::Shape { at: 0x10078 },
    },
    Change {
        words: &[(6, 0x7fff_ff97)], // auipc t6,0x7ffff
        verdict: Verdict::Limit { at: 0x10090 },
    },
    Change {
        words: &[
            (7, 0x0054_3023), // sd t0,0(s0)
            (8, 0x0044_2303), // lw t1,4(s0)
        ],
        verdict: Verdict::MixedCell { at: 0x10098 },
    },
    Change {
        words: &[(9, 0x0139_0933)], // add s2,s2,s3
        verdict: Verdict::Carried {
            loc: Loc::Reg(18),
            cell: None,
        },
    },
    Change {
        words: &[(15, 0xfcb5_02e3)], // beq a0,a1,-60
        verdict: Verdict::NoTrip { at: 0x100b4 },
    },
    Change {
        words: &[
            (10, 0x0005_3e03), // ld t3,0(a0)
            (11, 0x000e_3383), // ld t2,0(t3)
        ],
        verdict: Verdict::Irregular { at: 0x100a4 },
    },
    Change {
        words: &[
            (12, 0xff85_3783), // ld a5,-8(a0)
            (13, 0x00f5_3023), // sd a5,0(a0)
        ],
        verdict: Verdict::Dependence {
            first: 0x100a8,
            second: 0x100ac,
            common: 0,
            distance: Some([1, 0, 0]),
        },
    },
];

// The loop at a header, judged.
fn judged_in(alloc: Global, file: &[u8], header: u64) -> Result<Option<Judged>, AllocError> {
    starts();
    let Ok(elf) = read_elf(alloc, file) else {
        return Ok(None);
    };
    let Ok(graph) = recover(alloc, &elf) else {
        return Ok(None);
    };
    if !is_short(&graph) {
        return Ok(None);
    }
    let shapes = loops(alloc, &graph)?;
    for i in 0..shapes.len() {
        if shapes[i].header == header {
            return Ok(Some(judge(alloc, &graph, &elf, &shapes[i])?));
        }
    }
    Ok(None)
}

// Whether the loop at a header has a verdict, and a plan exactly where it is Parallel.
fn has_verdict(
    alloc: Global,
    file: &[u8],
    header: u64,
    verdict: Verdict,
) -> Result<bool, AllocError> {
    match judged_in(alloc, file, header)? {
        Some(judged) => Ok(
            judged.verdict == verdict && judged.plan.is_some() == (verdict == Verdict::Parallel),
        ),
        None => Ok(false),
    }
}

// Puts words in their places.
fn put_words(code: &mut [u32; 16], words: &[(usize, u32)]) {
    for (i, word) in words {
        code[*i % 16] = *word;
    }
}

// Whether the plain loop with these changes has a verdict.
fn is_changed(
    alloc: Global,
    first: &[(usize, u32)],
    second: &[(usize, u32)],
    verdict: Verdict,
) -> Result<bool, AllocError> {
    let mut code = PLAIN;
    put_words(&mut code, first);
    put_words(&mut code, second);
    let mut file = Vec::new(alloc);
    push_file(&mut file, &code)?;
    has_verdict(alloc, file.as_slice(), 0x10078, verdict)
}

fn look_at_all<R: Abort>(rt: &R, alloc: Global, cases: &[Case]) -> Result<(), AllocError> {
    for case in cases {
        let file = case.program.file(alloc)?;
        let right = has_verdict(alloc, file.as_slice(), case.header, case.verdict)?;
        let name = case.name;
        assert!(rt; right, "{name}");
    }
    Ok(())
}

fn look_at_pairs<R: Abort>(rt: &R, alloc: Global, changes: &[Change]) -> Result<(), AllocError> {
    for i in 0..changes.len() {
        for j in i..changes.len() {
            let first = &changes[i];
            let right = is_changed(alloc, first.words, changes[j].words, first.verdict)?;
            assert!(rt; right, "{i} and {j}");
        }
    }
    Ok(())
}

#[test]
fn verdicts_of_programs(rt: HostRuntime) -> Result<(), AllocError> {
    look_at_all(&rt, rt.alloc(), &CASES)
}

// Of two verdicts that apply to one loop the first is told.
#[test]
fn first_of_two_verdicts(rt: HostRuntime) -> Result<(), AllocError> {
    let alloc = rt.alloc();
    assert!(&rt;
        is_changed(alloc, &[], &[], Verdict::Parallel)?,
        "no change"
    );
    look_at_pairs(&rt, alloc, &CHANGES)
}
