ghost use Rattle.std.specs.Prelude.{◌≡◌, ◌<◌, ◌^◌, true, length, IsTrue};
ghost use Rattle.std.specs.List.Sorted.{IsStrictlyIncreasing};
ghost use Rattle.loop_choice.specs.Choice.{headers_of};

use crate::{ChooseErr, Judged, choose};
use loop_data::{Addresses, Verdict};
use std::alloc::{AllocError, Global};
use std::process::Abort;

// A loop by its header, its words, and whether it is Parallel.
struct Loop(u64, &'static [u64], bool);

// Loops, and the places of those that are to be chosen.
struct Case {
    name: &'static str,
    loops: &'static [Loop],
    chosen: &'static [u32],
}

static CASES: [Case; 6] = [
    Case {
        name: "no loop",
        loops: &[],
        chosen: &[],
    },
    Case {
        name: "three loops, two in the first",
        loops: &[
            Loop(4, &[4, 8, 12, 16], true),
            Loop(8, &[8], true),
            Loop(12, &[12], true),
        ],
        chosen: &[0],
    },
    Case {
        name: "two loops in a carried one",
        loops: &[
            Loop(4, &[4, 8, 12, 16], false),
            Loop(8, &[8], true),
            Loop(12, &[12], true),
        ],
        chosen: &[1, 2],
    },
    Case {
        name: "a carried loop between two",
        loops: &[
            Loop(4, &[4, 8, 12, 16], true),
            Loop(8, &[8, 12], false),
            Loop(12, &[12], true),
        ],
        chosen: &[0],
    },
    Case {
        name: "a loop round one with a lower header",
        loops: &[
            Loop(4, &[4], true),
            Loop(8, &[4, 8], true),
            Loop(16, &[16], true),
        ],
        chosen: &[1, 2],
    },
    Case {
        name: "a body without the header of another",
        loops: &[Loop(4, &[4, 12], true), Loop(8, &[8, 12], true)],
        chosen: &[0, 1],
    },
];

// A loop that is judged.
fn judged(alloc: Global, header: u64, words: &[u64], parallel: bool) -> Result<Judged, AllocError> {
    let mut body = Vec::new(alloc);
    body.extend_from_slice(words)?;
    let verdict = if parallel {
        Verdict::Parallel
    } else {
        Verdict::NoTrip { at: header }
    };
    Ok(Judged {
        header,
        body: Addresses::new(body),
        verdict,
        plan: None,
    })
}

// Whether the headers rise.
#[tactic(auto, using(crate::proofs::Ordered::one_rises, crate::proofs::Ordered::next_rises, crate::proofs::Ordered::all_rise))]
fn are_ordered(all: &[Judged]) -> bool
    ensures { IsTrue result → IsStrictlyIncreasing (headers_of all.now) }
{
    for i in 1..all.len() {
        if all[i - 1].header >= all[i].header {
            return false;
        }
    }
    true
}

// The choice of loops whose headers rise.
fn choice_of(alloc: Global, all: &[Judged]) -> Result<Vec<u32>, ChooseErr> {
    if !are_ordered(all) || all.len() > 10000 {
        return Err(ChooseErr::OutOfMemory);
    }
    choose(alloc, all)
}

fn is_chosen(alloc: Global, case: &Case) -> Result<bool, AllocError> {
    let mut all = Vec::new(alloc);
    for Loop(header, words, parallel) in case.loops {
        all.push(judged(alloc, *header, words, *parallel)?)?;
    }
    match choice_of(alloc, all.as_slice()) {
        Ok(places) => Ok(places.as_slice() == case.chosen),
        Err(_) => Ok(false),
    }
}

// So many loops of one word, each Parallel.
fn many(alloc: Global, n: u64) -> Result<Vec<Judged>, AllocError>
    requires { n < 2 ^ 32 }
{
    let mut all = Vec::new(alloc);
    for i in 0..n {
        all.push(judged(alloc, 4 * i, &[4 * i], true)?)?;
    }
    Ok(all)
}

fn look_at_all<R: Abort>(rt: &R, alloc: Global, cases: &[Case]) -> Result<(), AllocError> {
    for case in cases {
        let right = is_chosen(alloc, case)?;
        let name = case.name;
        assert!(rt; right, "{name}");
    }
    Ok(())
}

#[test]
fn choices(rt: HostRuntime) -> Result<(), AllocError> {
    look_at_all(&rt, rt.alloc(), &CASES)
}

#[test]
fn most_loops(rt: HostRuntime) -> Result<(), AllocError> {
    let all = many(rt.alloc(), 1024)?;
    let right = match choice_of(rt.alloc(), all.as_slice()) {
        Ok(places) => places.len() == 1024,
        Err(_) => false,
    };
    assert!(rt; right, "1,024 loops");
    Ok(())
}

#[test]
fn a_loop_too_many(rt: HostRuntime) -> Result<(), AllocError> {
    let all = many(rt.alloc(), 1025)?;
    let right = match choice_of(rt.alloc(), all.as_slice()) {
        Err(ChooseErr::TooManyLoops { count }) => count == 1025,
        _ => false,
    };
    assert!(rt; right, "1,025 loops");
    Ok(())
}
