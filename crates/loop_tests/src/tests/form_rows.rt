ghost use Rattle.loop_data.specs.LoopWords.{AreNest};
ghost use Rattle.loop_data.specs.Paths.{IsInOrder};

use crate::tests::samples::Program;
use crate::tests::{Found, cells_in, nest_of};
use induction::classes;
use linear_forms::{Form, Loc};
use loop_data::lookups::form_at;
use loop_data::{Duty, Equations, Points};
use register_equations::solve;
use std::alloc::{AllocError, Global};
use std::process::Abort;

// A form by its constant, its terms and its strides.
pub struct Shown(pub i64, pub &'static [(Loc, i64)], pub [i64; 3]);

// A duty of a word.
struct Owed {
    at: u64,
    level: u32,
    around: [u32; 3],
    form: Shown,
}

// What is to be found of the nest at a header: rows of the address of a word, a register, and its form before the
// word; words and registers without a form; all duties; and the least induction that is not confirmed.
struct Case {
    name: &'static str,
    program: Program,
    header: u64,
    rows: &'static [(u64, usize, Shown)],
    formless: &'static [(u64, usize)],
    owed: &'static [Owed],
    unconfirmed: Option<Loc>,
}

const BASE: Case = Case {
    name: "",
    program: Program::Adds,
    header: 0x10078,
    rows: &[],
    formless: &[],
    owed: &[],
    unconfirmed: None,
};

static CASES: [Case; 8] = [
    Case {
        name: "arrays that are added",
        header: 0x100f0,
        rows: &[
            (0x100f0, 10, Shown(0, &[(Loc::Reg(10), 1)], [8, 0, 0])),
            (0x1010c, 0, Shown(0, &[], [0, 0, 0])),
            (0x1010c, 10, Shown(8, &[(Loc::Reg(10), 1)], [8, 0, 0])),
            (0x1010c, 11, Shown(8, &[(Loc::Reg(11), 1)], [8, 0, 0])),
            (0x1010c, 12, Shown(8, &[(Loc::Reg(12), 1)], [8, 0, 0])),
            (0x1010c, 13, Shown(0, &[(Loc::Reg(13), 1)], [0, 0, 0])),
        ],
        formless: &[(0x100f0, 14), (0x1010c, 14), (0x1010c, 15)],
        ..BASE
    },
    Case {
        name: "sums of neighbours",
        program: Program::Neighbours,
        header: 0x100ec,
        rows: &[
            (0x1010c, 12, Shown(0, &[(Loc::Reg(12), 1)], [816, 0, 0])),
            (0x1010c, 14, Shown(0, &[(Loc::Reg(14), 1)], [0, 0, 0])),
            (0x1010c, 15, Shown(8, &[(Loc::Reg(12), 1)], [816, 8, 0])),
            (0x1010c, 16, Shown(8, &[(Loc::Reg(13), 1)], [816, 8, 0])),
            (0x1010c, 19, Shown(808, &[(Loc::Reg(12), 1)], [816, 0, 0])),
            (0x1010c, 28, Shown(-808, &[(Loc::Reg(12), 1)], [816, 8, 0])),
            (0x1010c, 29, Shown(824, &[(Loc::Reg(12), 1)], [816, 8, 0])),
            (0x1010c, 31, Shown(816, &[], [0, 0, 0])),
            (0x10134, 15, Shown(16, &[(Loc::Reg(12), 1)], [816, 8, 0])),
            (0x10138, 12, Shown(0, &[(Loc::Reg(12), 1)], [816, 0, 0])),
            (0x10140, 12, Shown(816, &[(Loc::Reg(12), 1)], [816, 0, 0])),
        ],
        formless: &[(0x10104, 28), (0x10138, 15), (0x10138, 28), (0x10140, 5)],
        ..BASE
    },
    Case {
        name: "operations",
        program: Program::Code(&[
            0x0015_051b, // addiw a0,a0,1
            0x40a5_07bb, // subw a5,a0,a0
            0x0030_0293, // addi t0,x0,3
            0x0255_083b, // mulw a6,a0,t0
            0x01d5_9313, // slli t1,a1,29
            0x01e5_9e13, // slli t3,a1,30
            0x01f5_9e93, // slli t4,a1,31
            0x4000_03b7, // lui t2,0x40000
            0x0275_8933, // mul s2,a1,t2
            0xfff3_8393, // addi t2,t2,-1
            0x0275_89b3, // mul s3,a1,t2
            0x8000_0a37, // lui s4,0x80000
            0xfffa_0a1b, // addiw s4,s4,-1
            0xfcc5_16e3, // bne a0,a2,-52
        ]),
        rows: &[
            (0x100ac, 5, Shown(3, &[], [0, 0, 0])),
            (
                0x100ac,
                6,
                Shown(0, &[(Loc::Reg(11), 536870912)], [0, 0, 0]),
            ),
            (0x1009c, 7, Shown(1073741824, &[], [0, 0, 0])),
            (0x100ac, 7, Shown(1073741823, &[], [0, 0, 0])),
            (0x100ac, 10, Shown(1, &[(Loc::Reg(10), 1)], [1, 0, 0])),
            (0x100ac, 15, Shown(0, &[], [0, 0, 0])),
            (0x100ac, 16, Shown(3, &[(Loc::Reg(10), 3)], [3, 0, 0])),
            (
                0x100ac,
                19,
                Shown(0, &[(Loc::Reg(11), 1073741823)], [0, 0, 0]),
            ),
            (0x100a8, 20, Shown(-2147483648, &[], [0, 0, 0])),
            (0x100ac, 20, Shown(2147483647, &[], [0, 0, 0])),
        ],
        formless: &[(0x100ac, 28), (0x100ac, 29), (0x100ac, 18)],
        owed: &[
            Owed {
                at: 0x10078,
                level: 0,
                around: [0, 0, 0],
                form: Shown(1, &[(Loc::Reg(10), 1)], [1, 0, 0]),
            },
            Owed {
                at: 0x10084,
                level: 0,
                around: [0, 0, 0],
                form: Shown(3, &[(Loc::Reg(10), 3)], [3, 0, 0]),
            },
        ],
        ..BASE
    },
    Case {
        name: "forms that differ on two edges, and one that does not",
        program: Program::Code(&[
            0x0006_8a63, // beq a3,x0,20
            0x0085_0793, // addi a5,a0,8
            0x0010_0713, // addi a4,x0,1
            0x0030_0813, // addi a6,x0,3
            0x0100_006f, // jal x0,16
            0x0045_0793, // addi a5,a0,4
            0x0020_0713, // addi a4,x0,2
            0x0030_0813, // addi a6,x0,3
            0x0015_0513, // addi a0,a0,1
            0xfcc5_1ee3, // bne a0,a2,-36
        ]),
        rows: &[
            (0x10088, 14, Shown(1, &[], [0, 0, 0])),
            (0x10088, 15, Shown(8, &[(Loc::Reg(10), 1)], [1, 0, 0])),
            (0x10098, 16, Shown(3, &[], [0, 0, 0])),
        ],
        formless: &[(0x10098, 14), (0x10098, 15)],
        ..BASE
    },
    Case {
        name: "a duty in an inner loop",
        program: Program::Code(&[
            0x0000_0313, // addi t1,x0,0
            0x0013_031b, // addiw t1,t1,1
            0xfe83_1ee3, // bne t1,s0,-4
            0x0012_829b, // addiw t0,t0,1
            0xfe92_98e3, // bne t0,s1,-16
        ]),
        rows: &[
            (0x1007c, 6, Shown(0, &[], [0, 1, 0])),
            (0x10080, 6, Shown(1, &[], [0, 1, 0])),
            (0x10084, 5, Shown(0, &[(Loc::Reg(5), 1)], [1, 0, 0])),
            (0x10088, 5, Shown(1, &[(Loc::Reg(5), 1)], [1, 0, 0])),
        ],
        formless: &[(0x10084, 6)],
        owed: &[
            Owed {
                at: 0x1007c,
                level: 1,
                around: [0, 1, 0],
                form: Shown(1, &[], [0, 1, 0]),
            },
            Owed {
                at: 0x10084,
                level: 0,
                around: [0, 0, 0],
                form: Shown(1, &[(Loc::Reg(5), 1)], [1, 0, 0]),
            },
        ],
        ..BASE
    },
    Case {
        name: "an inner induction past the limits",
        program: Program::Code(&[
            0x7fff_f537, // lui a0,0x7ffff
            0x7ff5_0513, // addi a0,a0,2047
            0x7f95_0513, // addi a0,a0,2041
            0x0085_0513, // addi a0,a0,8
            0xfec5_1ee3, // bne a0,a2,-4
            0x0016_8693, // addi a3,a3,1
            0xfee6_94e3, // bne a3,a4,-24
        ]),
        rows: &[
            (0x10084, 10, Shown(2147483640, &[], [0, 8, 0])),
            (0x10090, 13, Shown(1, &[(Loc::Reg(13), 1)], [1, 0, 0])),
        ],
        formless: &[(0x10088, 10), (0x1008c, 10)],
        unconfirmed: Some(Loc::Reg(10)),
        ..BASE
    },
    Case {
        name: "a counter, a pointer and a bound in memory",
        program: Program::Counter,
        header: 0x100a0,
        rows: &[
            (0x100a8, 14, Shown(0, &[(Loc::Cell(0), 1)], [1, 0, 0])),
            (0x100a8, 15, Shown(0, &[(Loc::Cell(2), 1)], [0, 0, 0])),
            (0x10090, 14, Shown(0, &[(Loc::Cell(0), 1)], [1, 0, 0])),
            (
                0x10090,
                15,
                Shown(0, &[(Loc::Cell(0), 8), (Loc::Cell(1), 1)], [8, 0, 0]),
            ),
            (0x100a0, 32, Shown(0, &[(Loc::Cell(0), 1)], [1, 0, 0])),
            (0x10090, 33, Shown(0, &[(Loc::Cell(1), 1)], [0, 0, 0])),
        ],
        formless: &[(0x100a0, 14), (0x100a0, 35)],
        ..BASE
    },
    Case {
        name: "a number of 4 bytes that is counted in memory",
        program: Program::Code(&[
            0xfec4_2783, // 0x10078: lw a5,-20(s0)
            0x0017_879b, // 0x1007c: addiw a5,a5,1
            0xfef4_2623, // 0x10080: sw a5,-20(s0)
            0xfee7_cae3, // 0x10084: blt a5,a4,-12
        ]),
        rows: &[(0x10080, 15, Shown(1, &[(Loc::Cell(0), 1)], [1, 0, 0]))],
        owed: &[
            Owed {
                at: 0x1007c,
                level: 0,
                around: [0, 0, 0],
                form: Shown(1, &[(Loc::Cell(0), 1)], [1, 0, 0]),
            },
            Owed {
                at: 0x10080,
                level: 0,
                around: [0, 0, 0],
                form: Shown(1, &[(Loc::Cell(0), 1)], [1, 0, 0]),
            },
        ],
        ..BASE
    },
];

pub fn is_form(form: &Form, shown: &Shown) -> bool {
    form.constant == shown.0 && form.terms.as_slice() == shown.1 && form.turns == shown.2
}

fn has_point(points: &Points, at: u64) -> bool {
    for k in 0..points.len() {
        if points.at(k) == at {
            return true;
        }
    }
    false
}

fn is_row(points: &Points, at: u64, register: usize, shown: &Shown) -> bool {
    match form_at(points, at, register % 48) {
        Some(form) => is_form(&form, shown),
        None => false,
    }
}

fn is_formless(points: &Points, at: u64, register: usize) -> bool {
    has_point(points, at) && form_at(points, at, register % 48).is_none()
}

fn are_rows(points: &Points, case: &Case) -> bool {
    for (at, register, shown) in case.rows {
        if !is_row(points, *at, *register, shown) {
            return false;
        }
    }
    for (at, register) in case.formless {
        if !is_formless(points, *at, *register) {
            return false;
        }
    }
    true
}

fn is_owed(duty: &Duty, owed: &Owed) -> bool {
    duty.at == owed.at
        && duty.level == owed.level
        && duty.around == owed.around
        && is_form(&duty.form, &owed.form)
}

fn are_owed(duties: &[Duty], owed: &[Owed]) -> bool {
    if duties.len() != owed.len() {
        return false;
    }
    for i in 0..duties.len() {
        if !is_owed(&duties[i], &owed[i]) {
            return false;
        }
    }
    true
}

// The equations of a nest, where no location of it is carried.
pub fn equations_in(alloc: Global, found: &Found) -> Result<Option<Equations>, AllocError>
    requires graph { IsInOrder found.now.graph }
    requires nest { AreNest found.now.graph found.now.shape.levels }
{
    let Some(cells) = cells_in(alloc, found)? else {
        return Ok(None);
    };
    let Ok(classes) = classes(alloc, &found.shape, &found.graph, &cells) else {
        return Ok(None);
    };
    let equations = solve(alloc, &found.shape, &found.graph, &cells, &classes)?;
    Ok(Some(equations))
}

fn equations_of(alloc: Global, case: &Case) -> Result<Option<Equations>, AllocError> {
    match nest_of(alloc, &case.program, case.header)? {
        Some(found) => equations_in(alloc, &found),
        None => Ok(None),
    }
}

fn is_right(alloc: Global, case: &Case) -> Result<bool, AllocError> {
    match equations_of(alloc, case)? {
        Some(equations) => Ok(
            are_rows(&equations.points, case)
                && are_owed(equations.duties.as_slice(), case.owed)
                && equations.unconfirmed == case.unconfirmed,
        ),
        None => Ok(false),
    }
}

fn look_at_all<R: Abort>(rt: &R, alloc: Global, cases: &[Case]) -> Result<(), AllocError> {
    for case in cases {
        let right = is_right(alloc, case)?;
        let name = case.name;
        assert!(rt; right, "{name}");
    }
    Ok(())
}

#[test]
fn forms_of_programs(rt: HostRuntime) -> Result<(), AllocError> {
    look_at_all(&rt, rt.alloc(), &CASES)
}
