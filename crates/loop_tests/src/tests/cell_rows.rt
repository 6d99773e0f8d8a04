use crate::tests::nest_of;
use crate::tests::samples::Program;
use loop_data::{Cell, Verdict};
use stack_slots::cells;
use std::alloc::{AllocError, Global};
use std::process::Abort;

// What is to be found of the nest at a header: its cells by first use, the words that access them with their numbers,
// and why it is not taken, if its cells decide that.
struct Case {
    name: &'static str,
    program: Program,
    header: u64,
    list: &'static [Cell],
    uses: &'static [(u64, u8)],
    fault: Option<Verdict>,
}

const BASE: Case = Case {
    name: "",
    program: Program::Adds,
    header: 0x10078,
    list: &[],
    uses: &[],
    fault: None,
};

static CASES: [Case; 11] = [
    Case {
        name: "a counter, a pointer and a bound in memory",
        program: Program::Counter,
        header: 0x100a0,
        list: &[
            Cell {
                base: Some(8),
                offset: -24,
                wide: true,
                stored: true,
            },
            Cell {
                base: Some(8),
                offset: -40,
                wide: true,
                stored: false,
            },
            Cell {
                base: Some(8),
                offset: -48,
                wide: true,
                stored: false,
            },
        ],
        uses: &[
            (0x1007c, 0),
            (0x10084, 1),
            (0x1008c, 0),
            (0x10094, 0),
            (0x1009c, 0),
            (0x100a0, 0),
            (0x100a4, 2),
        ],
        ..BASE
    },
    Case {
        name: "4 bytes at a known address",
        program: Program::Code(&[
            0x0002_07b7, // lui a5,0x20
            0x00e7_a023, // sw a4,0(a5)
            0x0007_a683, // lw a3,0(a5)
            0x0047_8603, // lb a2,4(a5)
            0x0015_0513, // addi a0,a0,1
            0xfeb5_16e3, // bne a0,a1,-20
        ]),
        list: &[Cell {
            base: None,
            offset: 0x20000,
            wide: false,
            stored: true,
        }],
        uses: &[(0x1007c, 0), (0x10080, 0)],
        ..BASE
    },
    Case {
        name: "a byte of 4 at a known address",
        program: Program::Code(&[
            0x0002_07b7, // lui a5,0x20
            0x00e7_a023, // sw a4,0(a5)
            0x0037_c683, // lbu a3,3(a5)
            0x0015_0513, // addi a0,a0,1
            0xfeb5_18e3, // bne a0,a1,-16
        ]),
        fault: Some(Verdict::MixedCell { at: 0x10080 }),
        ..BASE
    },
    Case {
        name: "8 bytes over 4 at a known address",
        program: Program::Code(&[
            0x0002_07b7, // lui a5,0x20
            0x00e7_a023, // sw a4,0(a5)
            0x0007_b683, // ld a3,0(a5)
            0x0015_0513, // addi a0,a0,1
            0xfeb5_18e3, // bne a0,a1,-16
        ]),
        fault: Some(Verdict::MixedCell { at: 0x10080 }),
        ..BASE
    },
    Case {
        name: "two bytes of a cell, and a cell behind them",
        program: Program::Code(&[
            0x0024_1683, // lh a3,2(s0)
            0x0004_2683, // lw a3,0(s0)
            0x0015_0513, // addi a0,a0,1
            0xfeb5_1ae3, // bne a0,a1,-12
        ]),
        fault: Some(Verdict::MixedCell { at: 0x1007c }),
        ..BASE
    },
    Case {
        name: "a pointer that is loaded from a stored cell",
        program: Program::Code(&[
            0xfe84_3783, // ld a5,-24(s0)
            0x0007_b703, // ld a4,0(a5)
            0x0087_8793, // addi a5,a5,8
            0xfef4_3423, // sd a5,-24(s0)
            0x0015_0513, // addi a0,a0,1
            0xfeb5_16e3, // bne a0,a1,-20
        ]),
        list: &[Cell {
            base: Some(8),
            offset: -24,
            wide: true,
            stored: true,
        }],
        uses: &[(0x10078, 0), (0x10084, 0)],
        ..BASE
    },
    Case {
        name: "a base that the loop moves on",
        program: Program::Code(&[
            0xfe84_3783, // ld a5,-24(s0)
            0xfe81_3703, // ld a4,-24(sp)
            0x0084_0413, // addi s0,s0,8
            0x0015_0513, // addi a0,a0,1
            0xfeb5_18e3, // bne a0,a1,-16
        ]),
        list: &[Cell {
            base: Some(2),
            offset: -24,
            wide: true,
            stored: false,
        }],
        uses: &[(0x1007c, 0)],
        ..BASE
    },
    Case {
        name: "bases that may be the same",
        program: Program::Code(&[
            0x0001_3783, // ld a5,0(sp)
            0x00f4_3023, // sd a5,0(s0)
            0x0015_0513, // addi a0,a0,1
            0xfeb5_1ae3, // bne a0,a1,-12
        ]),
        list: &[
            Cell {
                base: Some(2),
                offset: 0,
                wide: true,
                stored: false,
            },
            Cell {
                base: Some(8),
                offset: 0,
                wide: true,
                stored: true,
            },
        ],
        uses: &[(0x10078, 0), (0x1007c, 1)],
        ..BASE
    },
    Case {
        name: "the first offsets that are near, and the last",
        program: Program::Code(&[
            0x7ff4_0793, // addi a5,s0,2047
            0x0017_a703, // lw a4,1(a5)
            0x0007_a703, // lw a4,0(a5)
            0x8004_2703, // lw a4,-2048(s0)
            0x8004_0813, // addi a6,s0,-2048
            0xffc8_2703, // lw a4,-4(a6)
            0x0015_0513, // addi a0,a0,1
            0xfeb5_12e3, // bne a0,a1,-28
        ]),
        list: &[
            Cell {
                base: Some(8),
                offset: 2047,
                wide: false,
                stored: false,
            },
            Cell {
                base: Some(8),
                offset: -2048,
                wide: false,
                stored: false,
            },
        ],
        uses: &[(0x10080, 0), (0x10084, 1)],
        ..BASE
    },
    Case {
        name: "the last known address, and one behind it",
        program: Program::Code(&[
            0x7fff_f7b7, // lui a5,0x7ffff
            0x7f87_8793, // addi a5,a5,2040
            0x0087_b703, // ld a4,8(a5)
            0x0007_b703, // ld a4,0(a5)
            0x0015_0513, // addi a0,a0,1
            0xfeb5_16e3, // bne a0,a1,-20
        ]),
        list: &[Cell {
            base: None,
            offset: 0x7ffff7f8,
            wide: true,
            stored: false,
        }],
        uses: &[(0x10084, 0)],
        ..BASE
    },
    Case {
        name: "an auipc that is far, before a mixed pair",
        program: Program::Code(&[
            0x00e4_2023, // sw a4,0(s0)
            0x0004_4683, // lbu a3,0(s0)
            0x7fff_0797, // auipc a5,0x7fff0
            0x0015_0513, // addi a0,a0,1
            0xfeb5_18e3, // bne a0,a1,-16
        ]),
        fault: Some(Verdict::Limit { at: 0x10080 }),
        ..BASE
    },
];

fn is_right(alloc: Global, case: &Case) -> Result<bool, AllocError> {
    let Some(found) = nest_of(alloc, &case.program, case.header)? else {
        return Ok(false);
    };
    let cells = cells(alloc, &found.shape, &found.graph)?;
    Ok(
        cells.list.as_slice() == case.list
            && cells.uses.as_slice() == case.uses
            && cells.fault == case.fault,
    )
}

fn look_at_all<R: Abort>(rt: &R, alloc: Global, cases: &[Case]) -> Result<(), AllocError> {
    for case in cases {
        let right = is_right(alloc, case)?;
        let name = case.name;
        assert!(rt; right, "{name}");
    }
    Ok(())
}

#[test]
fn cells_of_programs(rt: HostRuntime) -> Result<(), AllocError> {
    look_at_all(&rt, rt.alloc(), &CASES)
}
