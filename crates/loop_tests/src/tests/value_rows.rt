use crate::tests::samples::Program;
use crate::tests::{nest_of, no_cells};
use linear_forms::Loc;
use loop_data::{Value, Values, value_pass};
use std::alloc::{AllocError, Global};
use std::process::Abort;

// What is to be known in the loop at a place among the levels of the nest at a header: rows of the address of a
// word, a register, and its value before the word.
struct Case {
    name: &'static str,
    program: Program,
    header: u64,
    level: u32,
    rows: &'static [(u64, usize, Value)],
}

const BASE: Case = Case {
    name: "",
    program: Program::Adds,
    header: 0x10078,
    level: 0,
    rows: &[],
};

static CASES: [Case; 5] = [
    Case {
        name: "arrays that are added",
        header: 0x100f0,
        rows: &[
            (0x100f0, 10, Value::Base(Loc::Reg(10), 0)),
            (0x100f0, 14, Value::Base(Loc::Reg(14), 0)),
            (0x1010c, 0, Value::Known(0)),
            (0x1010c, 10, Value::Base(Loc::Reg(10), 8)),
            (0x1010c, 11, Value::Base(Loc::Reg(11), 8)),
            (0x1010c, 12, Value::Base(Loc::Reg(12), 8)),
            (0x1010c, 13, Value::Base(Loc::Reg(13), 0)),
            (0x1010c, 14, Value::Nothing),
        ],
        ..BASE
    },
    // The inner loop writes a5, so that nothing is known of it there and behind; t6 and s3 are set before it.
    Case {
        name: "sums of neighbours",
        program: Program::Neighbours,
        header: 0x100ec,
        rows: &[
            (0x100fc, 15, Value::Base(Loc::Reg(12), 8)),
            (0x1010c, 15, Value::Nothing),
            (0x1010c, 28, Value::Nothing),
            (0x1010c, 31, Value::Known(816)),
            (0x10138, 12, Value::Base(Loc::Reg(12), 0)),
            (0x10138, 15, Value::Nothing),
            (0x10138, 19, Value::Base(Loc::Reg(12), 808)),
        ],
        ..BASE
    },
    Case {
        name: "sums of neighbours in a row",
        program: Program::Neighbours,
        header: 0x100ec,
        level: 1,
        rows: &[
            (0x1010c, 15, Value::Base(Loc::Reg(15), 0)),
            (0x1010c, 31, Value::Base(Loc::Reg(31), 0)),
            (0x10134, 15, Value::Base(Loc::Reg(15), 8)),
        ],
        ..BASE
    },
    Case {
        name: "values that differ on two edges, and one that does not",
        program: Program::Code(&[
            0x0006_8a63, // beq a3,x0,20
            0x0085_0793, // addi a5,a0,8
            0x0010_0713, // addi a4,x0,1
            0x0030_0813, // addi a6,x0,3
            0x0100_006f, // jal x0,16
            0x0045_0793, // addi a5,a0,4
            0x0020_0713, // addi a4,x0,2
            0x0030_0813, // addi a6,x0,3
            0x0015_0513, // addi a0,a0,1
            0xfcc5_1ee3, // bne a0,a2,-36
        ]),
        rows: &[
            (0x10088, 14, Value::Known(1)),
            (0x10088, 15, Value::Base(Loc::Reg(10), 8)),
            (0x10098, 14, Value::Nothing),
            (0x10098, 15, Value::Nothing),
            (0x10098, 16, Value::Known(3)),
        ],
        ..BASE
    },
    Case {
        name: "operations",
        program: Program::Code(&[
            0x0015_051b, // addiw a0,a0,1
            0x40a5_07bb, // subw a5,a0,a0
            0x0030_0293, // addi t0,x0,3
            0x0255_083b, // mulw a6,a0,t0
            0x01d5_9313, // slli t1,a1,29
            0x01e5_9e13, // slli t3,a1,30
            0x01f5_9e93, // slli t4,a1,31
            0x4000_03b7, // lui t2,0x40000
            0x0275_8933, // mul s2,a1,t2
            0xfff3_8393, // addi t2,t2,-1
            0x0275_89b3, // mul s3,a1,t2
            0x8000_0a37, // lui s4,0x80000
            0xfffa_0a1b, // addiw s4,s4,-1
            0xfcc5_16e3, // bne a0,a2,-52
        ]),
        rows: &[
            (0x100ac, 5, Value::Known(3)),
            (0x100ac, 6, Value::Nothing),
            (0x100ac, 7, Value::Known(0x3fff_ffff)),
            (0x100ac, 10, Value::Base(Loc::Reg(10), 1)),
            (0x100ac, 15, Value::Nothing),
            (0x100ac, 16, Value::Nothing),
            (0x100a8, 20, Value::Known(0xffff_ffff_8000_0000)),
            (0x100ac, 20, Value::Known(0x7fff_ffff)),
        ],
        ..BASE
    },
];

fn is_row(values: &[Values], at: u64, register: usize, wanted: Value) -> bool {
    for point in values {
        if point.at == at {
            return point.of[register % 48] == wanted;
        }
    }
    false
}

fn are_rows(values: &[Values], rows: &[(u64, usize, Value)]) -> bool {
    for (at, register, value) in rows {
        if !is_row(values, *at, *register, *value) {
            return false;
        }
    }
    true
}

fn is_right(alloc: Global, case: &Case) -> Result<bool, AllocError> {
    let Some(found) = nest_of(alloc, &case.program, case.header)? else {
        return Ok(false);
    };
    if case.level as usize >= found.shape.levels.as_slice().len() {
        return Ok(false);
    }
    let values = value_pass(alloc, &found.shape, case.level, &found.graph, &no_cells())?;
    Ok(are_rows(values.as_slice(), case.rows))
}

fn look_at_all<R: Abort>(rt: &R, alloc: Global, cases: &[Case]) -> Result<(), AllocError> {
    for case in cases {
        let right = is_right(alloc, case)?;
        let name = case.name;
        assert!(rt; right, "{name}");
    }
    Ok(())
}

#[test]
fn values_of_programs(rt: HostRuntime) -> Result<(), AllocError> {
    look_at_all(&rt, rt.alloc(), &CASES)
}
