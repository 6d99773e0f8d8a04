ghost use Rattle.loop_data.specs.LoopWords.{AreNest};
ghost use Rattle.loop_data.specs.Paths.{IsInOrder};

use crate::tests::form_rows::{Shown, equations_in, is_form};
use crate::tests::samples::Program;
use crate::tests::{Found, nest_of, no_cells};
use affine_addresses::{Irregular, accesses};
use linear_forms::Loc;
use loop_data::{Access, Accesses, Equations};
use rv64_decode::Width;
use std::alloc::{AllocError, Global};
use std::process::Abort;

// A load or a store.
struct Moved {
    at: u64,
    level: u32,
    around: [u32; 3],
    form: Shown,
    width: Width,
    store: bool,
}

// The accesses that are to be found of the nest at a header, or the address of the word that is irregular.
struct Case {
    name: &'static str,
    program: Program,
    header: u64,
    accesses: Result<&'static [Moved], u64>,
}

static CASES: [Case; 6] = [
    Case {
        name: "arrays that are added",
        program: Program::Adds,
        header: 0x100f0,
        accesses: Ok(&[
            Moved {
                at: 0x100f0,
                level: 0,
                around: [0, 0, 0],
                form: Shown(0, &[(Loc::Reg(11), 1)], [8, 0, 0]),
                width: Width::Eight,
                store: false,
            },
            Moved {
                at: 0x100f4,
                level: 0,
                around: [0, 0, 0],
                form: Shown(0, &[(Loc::Reg(12), 1)], [8, 0, 0]),
                width: Width::Eight,
                store: false,
            },
            Moved {
                at: 0x100fc,
                level: 0,
                around: [0, 0, 0],
                form: Shown(0, &[(Loc::Reg(10), 1)], [8, 0, 0]),
                width: Width::Eight,
                store: true,
            },
        ]),
    },
    Case {
        name: "sums of neighbours",
        program: Program::Neighbours,
        header: 0x100ec,
        accesses: Ok(&[
            Moved {
                at: 0x1010c,
                level: 1,
                around: [0, 1, 0],
                form: Shown(-808, &[(Loc::Reg(12), 1)], [816, 8, 0]),
                width: Width::Eight,
                store: false,
            },
            Moved {
                at: 0x10110,
                level: 1,
                around: [0, 1, 0],
                form: Shown(824, &[(Loc::Reg(12), 1)], [816, 8, 0]),
                width: Width::Eight,
                store: false,
            },
            Moved {
                at: 0x10114,
                level: 1,
                around: [0, 1, 0],
                form: Shown(0, &[(Loc::Reg(12), 1)], [816, 8, 0]),
                width: Width::Eight,
                store: false,
            },
            Moved {
                at: 0x10118,
                level: 1,
                around: [0, 1, 0],
                form: Shown(16, &[(Loc::Reg(12), 1)], [816, 8, 0]),
                width: Width::Eight,
                store: false,
            },
            Moved {
                at: 0x10128,
                level: 1,
                around: [0, 1, 0],
                form: Shown(8, &[(Loc::Reg(13), 1)], [816, 8, 0]),
                width: Width::Eight,
                store: true,
            },
        ]),
    },
    Case {
        name: "an address that was loaded",
        program: Program::Code(&[
            0x0005_b783, // ld a5,0(a1)
            0x0007_b703, // ld a4,0(a5)
            0x0085_8593, // addi a1,a1,8
            0xfed5_9ae3, // bne a1,a3,-12
        ]),
        header: 0x10078,
        accesses: Err(0x1007c),
    },
    Case {
        name: "two addresses that were loaded",
        program: Program::Code(&[
            0x0005_b783, // ld a5,0(a1)
            0x0007_b703, // ld a4,0(a5)
            0x00e7_b423, // sd a4,8(a5)
            0x0085_8593, // addi a1,a1,8
            0xfed5_98e3, // bne a1,a3,-16
        ]),
        header: 0x10078,
        accesses: Err(0x1007c),
    },
    Case {
        name: "a stride of half the width",
        program: Program::Code(&[
            0x00e5_b023, // sd a4,0(a1)
            0x0045_8593, // addi a1,a1,4
            0xfed5_9ce3, // bne a1,a3,-8
        ]),
        header: 0x10078,
        accesses: Err(0x10078),
    },
    Case {
        name: "an inner stride of 12",
        program: Program::Code(&[
            0x0005_8793, // addi a5,a1,0
            0x0007_b703, // ld a4,0(a5)
            0x00c7_8793, // addi a5,a5,12
            0xfec7_9ce3, // bne a5,a2,-8
            0x0085_8593, // addi a1,a1,8
            0xfed5_96e3, // bne a1,a3,-20
        ]),
        header: 0x10078,
        accesses: Err(0x1007c),
    },
];

fn is_access(access: &Access, moved: &Moved) -> bool {
    access.at == moved.at
        && access.level == moved.level
        && access.around == moved.around
        && is_form(&access.form, &moved.form)
        && access.width == moved.width
        && access.store == moved.store
}

fn are_accesses(list: &[Access], moved: &[Moved]) -> bool {
    if list.len() != moved.len() {
        return false;
    }
    for i in 0..list.len() {
        if !is_access(&list[i], &moved[i]) {
            return false;
        }
    }
    true
}

// The accesses of a nest of few words.
fn accesses_in(found: &Found, equations: &Equations) -> Option<Result<Accesses, Irregular>>
    requires graph { IsInOrder found.now.graph }
    requires nest { AreNest found.now.graph found.now.shape.levels }
{
    let levels = found.shape.levels.as_slice();
    let body = levels[0].body.as_slice();
    if body.len() > 32 {
        return None;
    }
    Some(accesses(&found.shape, &found.graph, &no_cells(), equations))
}

fn is_right(alloc: Global, case: &Case) -> Result<bool, AllocError> {
    let Some(found) = nest_of(alloc, &case.program, case.header)? else {
        return Ok(false);
    };
    let Some(equations) = equations_in(alloc, &found)? else {
        return Ok(false);
    };
    match (accesses_in(&found, &equations), &case.accesses) {
        (Some(Ok(found)), Ok(moved)) => Ok(are_accesses(found.list.as_slice(), moved)),
        (Some(Err(Irregular { at })), Err(word)) => Ok(at == *word),
        _ => Ok(false),
    }
}

fn look_at_all<R: Abort>(rt: &R, alloc: Global, cases: &[Case]) -> Result<(), AllocError> {
    for case in cases {
        let right = is_right(alloc, case)?;
        let name = case.name;
        assert!(rt; right, "{name}");
    }
    Ok(())
}

#[test]
fn accesses_of_programs(rt: HostRuntime) -> Result<(), AllocError> {
    look_at_all(&rt, rt.alloc(), &CASES)
}
