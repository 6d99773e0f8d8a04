ghost use Rattle.loop_data.specs.LoopWords.{AreNest};
ghost use Rattle.loop_data.specs.Paths.{IsInOrder};

use crate::tests::form_rows::{Shown, equations_in, is_form};
use crate::tests::samples::Program;
use crate::tests::{Found, nest_of};
use linear_forms::Loc;
use loop_data::{Equations, Relation, Trip};
use std::alloc::{AllocError, Global};
use std::process::Abort;
use trip_counts::{NoTrip, trip};

// What the exit branch of a loop compares.
struct Compared {
    relation: Relation,
    signed: bool,
    start: Shown,
    bound: Shown,
    step: i64,
}

// The trip that is to be found of the loop at a place among the levels of the nest at a header, or the address of
// the branch of which there is none.
struct Case {
    name: &'static str,
    program: Program,
    header: u64,
    level: u32,
    trip: Result<Compared, u64>,
}

static CASES: [Case; 8] = [
    Case {
        name: "arrays that are added",
        program: Program::Adds,
        header: 0x100f0,
        level: 0,
        trip: Ok(Compared {
            relation: Relation::Differ,
            signed: true,
            start: Shown(8, &[(Loc::Reg(11), 1), (Loc::Reg(13), -1)], [8, 0, 0]),
            bound: Shown(0, &[], [0, 0, 0]),
            step: 8,
        }),
    },
    Case {
        name: "sums of neighbours, row by row",
        program: Program::Neighbours,
        header: 0x100ec,
        level: 0,
        trip: Ok(Compared {
            relation: Relation::Differ,
            signed: true,
            start: Shown(816, &[(Loc::Reg(12), 1), (Loc::Reg(14), -1)], [816, 0, 0]),
            bound: Shown(0, &[], [0, 0, 0]),
            step: 816,
        }),
    },
    Case {
        name: "sums of neighbours, in a row",
        program: Program::Neighbours,
        header: 0x100ec,
        level: 1,
        trip: Ok(Compared {
            relation: Relation::Differ,
            signed: true,
            start: Shown(-792, &[], [0, 8, 0]),
            bound: Shown(0, &[], [0, 0, 0]),
            step: 8,
        }),
    },
    Case {
        name: "below a bound",
        program: Program::Code(&[
            0x0085_0513, // addi a0,a0,8
            0xfeb5_4ee3, // blt a0,a1,-4
        ]),
        header: 0x10078,
        level: 0,
        trip: Ok(Compared {
            relation: Relation::Less,
            signed: true,
            start: Shown(8, &[(Loc::Reg(10), 1)], [8, 0, 0]),
            bound: Shown(0, &[(Loc::Reg(11), 1)], [0, 0, 0]),
            step: 8,
        }),
    },
    Case {
        name: "a counter that goes away from its bound",
        program: Program::Code(&[
            0xff85_0513, // addi a0,a0,-8
            0xfea5_fee3, // bgeu a1,a0,-4
        ]),
        header: 0x10078,
        level: 0,
        trip: Err(0x1007c),
    },
    Case {
        name: "a bound that the loop changes",
        program: Program::Code(&[
            0x0085_0513, // addi a0,a0,8
            0x0045_8593, // addi a1,a1,4
            0xfeb5_4ce3, // blt a0,a1,-8
        ]),
        header: 0x10078,
        level: 0,
        trip: Err(0x10080),
    },
    Case {
        name: "two inductions of one step",
        program: Program::Code(&[
            0x0085_0513, // addi a0,a0,8
            0x0085_8593, // addi a1,a1,8
            0xfeb5_1ce3, // bne a0,a1,-8
        ]),
        header: 0x10078,
        level: 0,
        trip: Err(0x10080),
    },
    Case {
        name: "a step of nothing",
        program: Program::Code(&[
            0x0005_0513, // addi a0,a0,0
            0xfeb5_1ee3, // bne a0,a1,-4
        ]),
        header: 0x10078,
        level: 0,
        trip: Err(0x1007c),
    },
];

fn is_trip(trip: &Trip, compared: &Compared) -> bool {
    trip.relation == compared.relation
        && trip.signed == compared.signed
        && is_form(&trip.start, &compared.start)
        && is_form(&trip.bound, &compared.bound)
        && trip.step == compared.step
}

fn is_found(found: &Found, equations: &Equations, case: &Case) -> bool
    requires graph { IsInOrder found.now.graph }
    requires nest { AreNest found.now.graph found.now.shape.levels }
{
    if case.level as usize >= found.shape.levels.as_slice().len() {
        return false;
    }
    match (
        trip(&found.shape, &found.graph, equations, case.level),
        &case.trip,
    ) {
        (Ok(trip), Ok(compared)) => is_trip(&trip, compared),
        (Err(NoTrip { at }), Err(exit)) => at == *exit,
        _ => false,
    }
}

fn is_right(alloc: Global, case: &Case) -> Result<bool, AllocError> {
    let Some(found) = nest_of(alloc, &case.program, case.header)? else {
        return Ok(false);
    };
    match equations_in(alloc, &found)? {
        Some(equations) => Ok(is_found(&found, &equations, case)),
        None => Ok(false),
    }
}

fn look_at_all<R: Abort>(rt: &R, alloc: Global, cases: &[Case]) -> Result<(), AllocError> {
    for case in cases {
        let right = is_right(alloc, case)?;
        let name = case.name;
        assert!(rt; right, "{name}");
    }
    Ok(())
}

#[test]
fn trips_of_programs(rt: HostRuntime) -> Result<(), AllocError> {
    look_at_all(&rt, rt.alloc(), &CASES)
}
