use crate::tests::samples::Program;
use crate::tests::{cells_in, nest_of};
use induction::{ClassErr, classes};
use linear_forms::Loc;
use loop_data::Class;
use std::alloc::{AllocError, Global};
use std::process::Abort;

// What is to be found of the nest at a header: the least location that it carries, or the classes of the
// locations that the root and the first inner loop write, and no others.
struct Case {
    name: &'static str,
    program: Program,
    header: u64,
    carried: Option<Loc>,
    root: &'static [(usize, Class)],
    inner: &'static [(usize, Class)],
}

const BASE: Case = Case {
    name: "",
    program: Program::Adds,
    header: 0x10078,
    carried: None,
    root: &[],
    inner: &[],
};

static CASES: [Case; 26] = [
    Case {
        name: "arrays that are added",
        header: 0x100f0,
        root: &[
            (10, Class::Induction(8)),
            (11, Class::Induction(8)),
            (12, Class::Induction(8)),
            (14, Class::Private),
            (15, Class::Private),
        ],
        ..BASE
    },
    Case {
        name: "an array that is summed up",
        header: 0x1011c,
        carried: Some(Loc::Reg(7)),
        ..BASE
    },
    Case {
        name: "sums of neighbours",
        program: Program::Neighbours,
        header: 0x100ec,
        root: &[
            (5, Class::Private),
            (6, Class::Private),
            (7, Class::Private),
            (12, Class::Induction(816)),
            (13, Class::Induction(816)),
            (15, Class::Private),
            (16, Class::Private),
            (19, Class::Private),
            (28, Class::Private),
            (29, Class::Private),
            (30, Class::Private),
            (31, Class::Private),
        ],
        inner: &[(15, Class::Induction(8)), (16, Class::Induction(8))],
        ..BASE
    },
    Case {
        name: "written on one side of a forward branch",
        program: Program::Code(&[
            0x0006_8463, // beq a3,x0,8
            0x0010_0793, // addi a5,x0,1
            0x0085_0513, // addi a0,a0,8
            0xfeb5_1ae3, // bne a0,a1,-12
        ]),
        carried: Some(Loc::Reg(15)),
        ..BASE
    },
    Case {
        name: "read before its write on one way",
        program: Program::Code(&[
            0x0006_8463, // beq a3,x0,8
            0x0010_0793, // addi a5,x0,1
            0x0007_8833, // add a6,a5,x0
            0x0020_0793, // addi a5,x0,2
            0x0085_0513, // addi a0,a0,8
            0xfeb5_16e3, // bne a0,a1,-20
        ]),
        carried: Some(Loc::Reg(15)),
        ..BASE
    },
    Case {
        name: "written on both sides before a read",
        program: Program::Code(&[
            0x0006_8663, // beq a3,x0,12
            0x0010_0793, // addi a5,x0,1
            0x0080_006f, // jal x0,8
            0x0020_0793, // addi a5,x0,2
            0x0007_8833, // add a6,a5,x0
            0x0085_0513, // addi a0,a0,8
            0xfeb5_14e3, // bne a0,a1,-24
        ]),
        root: &[
            (10, Class::Induction(8)),
            (15, Class::Private),
            (16, Class::Private),
        ],
        ..BASE
    },
    Case {
        name: "written by two words",
        program: Program::Code(&[
            0x0085_0513, // addi a0,a0,8
            0x0085_0513, // addi a0,a0,8
            0xfeb5_1ce3, // bne a0,a1,-8
        ]),
        carried: Some(Loc::Reg(10)),
        ..BASE
    },
    Case {
        name: "moved on along one way",
        program: Program::Code(&[
            0x0006_8463, // beq a3,x0,8
            0x0085_0513, // addi a0,a0,8
            0x0086_0613, // addi a2,a2,8
            0xfeb6_1ae3, // bne a2,a1,-12
        ]),
        carried: Some(Loc::Reg(10)),
        ..BASE
    },
    Case {
        name: "through another register",
        program: Program::Code(&[
            0x0085_0793, // addi a5,a0,8
            0x0007_8513, // addi a0,a5,0
            0xfeb5_1ce3, // bne a0,a1,-8
        ]),
        root: &[(10, Class::Induction(8)), (15, Class::Private)],
        ..BASE
    },
    Case {
        name: "through equal values where two ways meet",
        program: Program::Code(&[
            0x0006_8663, // beq a3,x0,12
            0x0085_0793, // addi a5,a0,8
            0x0080_006f, // jal x0,8
            0x0085_0793, // addi a5,a0,8
            0x0007_8513, // addi a0,a5,0
            0xfeb5_16e3, // bne a0,a1,-20
        ]),
        root: &[(10, Class::Induction(8)), (15, Class::Private)],
        ..BASE
    },
    Case {
        name: "through other values where two ways meet",
        program: Program::Code(&[
            0x0006_8663, // beq a3,x0,12
            0x0085_0793, // addi a5,a0,8
            0x0080_006f, // jal x0,8
            0x0105_0793, // addi a5,a0,16
            0x0007_8513, // addi a0,a5,0
            0xfeb5_16e3, // bne a0,a1,-20
        ]),
        carried: Some(Loc::Reg(10)),
        ..BASE
    },
    Case {
        name: "a step of 2^30 - 1",
        program: Program::Code(&[
            0x4000_07b7, // lui a5,0x40000
            0xfff7_8793, // addi a5,a5,-1
            0x00f5_0533, // add a0,a0,a5
            0xfeb5_1ae3, // bne a0,a1,-12
        ]),
        root: &[(10, Class::Induction(1073741823)), (15, Class::Private)],
        ..BASE
    },
    Case {
        name: "a step of 2^30",
        program: Program::Code(&[
            0x4000_07b7, // lui a5,0x40000
            0x00f5_0533, // add a0,a0,a5
            0xfeb5_1ce3, // bne a0,a1,-8
        ]),
        carried: Some(Loc::Reg(10)),
        ..BASE
    },
    Case {
        name: "a step of 1 - 2^30",
        program: Program::Code(&[
            0x4000_07b7, // lui a5,0x40000
            0xfff7_8793, // addi a5,a5,-1
            0x40f5_0533, // sub a0,a0,a5
            0xfeb5_1ae3, // bne a0,a1,-12
        ]),
        root: &[(10, Class::Induction(-1073741823)), (15, Class::Private)],
        ..BASE
    },
    Case {
        name: "a step of -2^30",
        program: Program::Code(&[
            0x4000_07b7, // lui a5,0x40000
            0x40f5_0533, // sub a0,a0,a5
            0xfeb5_1ce3, // bne a0,a1,-8
        ]),
        carried: Some(Loc::Reg(10)),
        ..BASE
    },
    Case {
        name: "a counter of 32 bits",
        program: Program::Code(&[
            0x0012_829b, // addiw t0,t0,1
            0xfe92_9ee3, // bne t0,s1,-4
        ]),
        root: &[(5, Class::Induction(1))],
        ..BASE
    },
    Case {
        name: "a sum",
        program: Program::Code(&[
            0x0005_3303, // ld t1,0(a0)
            0x0063_83b3, // add t2,t2,t1
            0x0085_0513, // addi a0,a0,8
            0xfed5_1ae3, // bne a0,a3,-12
        ]),
        carried: Some(Loc::Reg(7)),
        ..BASE
    },
    Case {
        name: "the least of two",
        program: Program::Code(&[
            0x0084_84b3, // add s1,s1,s0
            0x0063_83b3, // add t2,t2,t1
            0x0085_0513, // addi a0,a0,8
            0xfed5_1ae3, // bne a0,a3,-12
        ]),
        carried: Some(Loc::Reg(7)),
        ..BASE
    },
    Case {
        name: "x0 as a target",
        program: Program::Code(&[
            0x0085_0013, // addi x0,a0,8
            0x0045_0513, // addi a0,a0,4
            0xfeb5_1ce3, // bne a0,a1,-8
        ]),
        root: &[(10, Class::Induction(4))],
        ..BASE
    },
    Case {
        name: "moved on in an inner loop",
        program: Program::Code(&[
            0x0000_0313, // addi t1,x0,0
            0x0013_0313, // addi t1,t1,1
            0x0083_8393, // addi t2,t2,8
            0xfe83_1ce3, // bne t1,s0,-8
            0x0012_829b, // addiw t0,t0,1
            0xfe92_96e3, // bne t0,s1,-20
        ]),
        carried: Some(Loc::Reg(7)),
        ..BASE
    },
    Case {
        name: "an inner counter",
        program: Program::Code(&[
            0x0000_0313, // addi t1,x0,0
            0x0013_0313, // addi t1,t1,1
            0xfe83_1ee3, // bne t1,s0,-4
            0x0012_829b, // addiw t0,t0,1
            0xfe92_98e3, // bne t0,s1,-16
        ]),
        root: &[(5, Class::Induction(1)), (6, Class::Private)],
        inner: &[(6, Class::Induction(1))],
        ..BASE
    },
    Case {
        name: "written behind the test of an inner loop",
        program: Program::Code(&[
            0x0000_0313, // addi t1,x0,0
            0x0083_0863, // beq t1,s0,16
            0x0013_0313, // addi t1,t1,1
            0x0010_0713, // addi a4,x0,1
            0xff5f_f06f, // jal x0,-12
            0x0012_8293, // addi t0,t0,1
            0xfe92_94e3, // bne t0,s1,-24
        ]),
        carried: Some(Loc::Reg(14)),
        ..BASE
    },
    Case {
        name: "a counter, a pointer and a bound in memory",
        program: Program::Counter,
        header: 0x100a0,
        root: &[
            (14, Class::Private),
            (15, Class::Private),
            (32, Class::Induction(1)),
        ],
        ..BASE
    },
    Case {
        name: "a sum that is kept in memory",
        program: Program::Code(&[
            0xfc84_3783, // ld a5,-56(s0)
            0x00a7_87b3, // add a5,a5,a0
            0xfcf4_3423, // sd a5,-56(s0)
            0x0015_0513, // addi a0,a0,1
            0xfeb5_18e3, // bne a0,a1,-16
        ]),
        carried: Some(Loc::Cell(0)),
        ..BASE
    },
    Case {
        name: "a number of 4 bytes that is counted in memory",
        program: Program::Code(&[
            0xfec4_2783, // lw a5,-20(s0)
            0x0017_879b, // addiw a5,a5,1
            0xfef4_2623, // sw a5,-20(s0)
            0xfee7_cae3, // blt a5,a4,-12
        ]),
        root: &[(15, Class::Private), (32, Class::Induction(1))],
        ..BASE
    },
    Case {
        name: "memory that each turn writes before it reads it",
        program: Program::Code(&[
            0xfea4_3823, // sd a0,-16(s0)
            0xff04_3783, // ld a5,-16(s0)
            0x00f5_3023, // sd a5,0(a0)
            0x0085_0513, // addi a0,a0,8
            0xfeb5_18e3, // bne a0,a1,-16
        ]),
        root: &[
            (10, Class::Induction(8)),
            (15, Class::Private),
            (32, Class::Private),
        ],
        ..BASE
    },
];

// The class of a register in a list, where it has one.
fn class_in(wanted: &[(usize, Class)], register: usize) -> Option<Class> {
    for (r, class) in wanted {
        if *r == register {
            return Some(*class);
        }
    }
    None
}

// Whether the registers have these classes, and no others.
fn is_row(row: &[Option<Class>; 48], wanted: &[(usize, Class)]) -> bool {
    for r in 0..48 {
        if row[r] != class_in(wanted, r) {
            return false;
        }
    }
    true
}

fn is_right(alloc: Global, case: &Case) -> Result<bool, AllocError> {
    let Some(found) = nest_of(alloc, &case.program, case.header)? else {
        return Ok(false);
    };
    let Some(cells) = cells_in(alloc, &found)? else {
        return Ok(false);
    };
    match classes(alloc, &found.shape, &found.graph, &cells) {
        Ok(classes) => Ok(
            case.carried.is_none()
                && is_row(&classes.root, case.root)
                && is_row(&classes.inner[0], case.inner)
                && is_row(&classes.inner[1], &[])
                && is_row(&classes.inner[2], &[]),
        ),
        Err(ClassErr::Carried { loc }) => Ok(case.carried == Some(loc)),
        Err(_) => Ok(false),
    }
}

fn look_at_all<R: Abort>(rt: &R, alloc: Global, cases: &[Case]) -> Result<(), AllocError> {
    for case in cases {
        let right = is_right(alloc, case)?;
        let name = case.name;
        assert!(rt; right, "{name}");
    }
    Ok(())
}

#[test]
fn classes_of_programs(rt: HostRuntime) -> Result<(), AllocError> {
    look_at_all(&rt, rt.alloc(), &CASES)
}
