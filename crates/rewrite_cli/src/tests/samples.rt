use super::{Case, Failing, NONE_FAILS, REPORT_FAILS, RUN, check_all, give_in_turn};
use crate::status::{Reason, Status};
use std::alloc::{AllocError, Global};
use std::process::Abort;
use std::thread::Threads;

// The input and the output are not asked: their first calls would fail.
const MAKE: Case = Case {
    words: "make vadd 1000 new",
    failing: Failing {
        read: Some(0),
        write: Some(0),
        ..NONE_FAILS
    },
    answer: Some(Status::Done),
    report: "made 336\n",
    changed: "new",
    ..RUN
};

const TOO_LARGE: Case = Case {
    number: 124,
    answer: None,
    changed: "",
    ..MAKE
};

static MAKES: [Case; 14] = [
    MAKE,
    Case {
        old: Some("old"),
        ..MAKE
    },
    Case {
        words: "make vadd 1000000 new",
        ..MAKE
    },
    Case {
        words: "make stencil 100 new",
        report: "made 388\n",
        ..MAKE
    },
    Case {
        words: "make stencil 2000 new",
        report: "made 388\n",
        ..MAKE
    },
    Case {
        words: "make bytemap 16000000 new",
        report: "made 320\n",
        ..MAKE
    },
    Case {
        words: "make vadd 1000001 new",
        answer: Some(Status::Refused(Reason::TooLarge { n: 1_000_001 })),
        report: "refused too-large 1000001\n",
        ..TOO_LARGE
    },
    Case {
        words: "make stencil 2000000 new",
        report: "refused too-large 2000000\n",
        ..TOO_LARGE
    },
    Case {
        words: "make stencil 2001 new",
        old: Some("old"),
        report: "refused too-large 2001\n",
        ..TOO_LARGE
    },
    Case {
        words: "make bytemap 16000001 new",
        report: "refused too-large 16000001\n",
        ..TOO_LARGE
    },
    Case {
        words: "make vadd 9223372036854775807 new",
        report: "refused too-large 9223372036854775807\n",
        ..TOO_LARGE
    },
    Case {
        failing: Failing {
            store: Some(0),
            ..NONE_FAILS
        },
        old: Some("old"),
        answer: Some(Status::StoreFault),
        number: 125,
        report: "store-fault\n",
        changed: "",
        ..MAKE
    },
    // Nothing is loaded: the second call of the store is no call of this command.
    Case {
        failing: Failing {
            store: Some(1),
            ..NONE_FAILS
        },
        ..MAKE
    },
    Case {
        failing: REPORT_FAILS,
        answer: Some(Status::WriteFault),
        number: 127,
        report: "",
        ..MAKE
    },
];

#[test]
fn samples_are_made_up_to_their_limits(rt: HostRuntime) -> Result<(), AllocError> {
    check_all(&rt, rt.alloc(), b"", &MAKES)
}

// A sample, and the run of it: the sum of what its loops have made goes out in 8 bytes.
static RUNS: [[Case; 2]; 3] = [
    [
        Case {
            failing: NONE_FAILS,
            ..MAKE
        },
        Case {
            words: "run new 1",
            answer: Some(Status::Exited(0)),
            report: "made 336\nhart 0 instructions 19021\nsteps 19021\nexit 0\n",
            output: &[0x84, 0xDD, 0x16, 0, 0, 0, 0, 0],
            ..MAKE
        },
    ],
    [
        Case {
            words: "make stencil 100 new",
            failing: NONE_FAILS,
            report: "made 388\n",
            ..MAKE
        },
        Case {
            words: "run new 1",
            answer: Some(Status::Exited(0)),
            report: "made 388\nhart 0 instructions 214155\nsteps 214155\nexit 0\n",
            output: &[0x60, 0xBE, 0x66, 0x0C, 0, 0, 0, 0],
            ..MAKE
        },
    ],
    [
        Case {
            words: "make bytemap 1000 new",
            failing: NONE_FAILS,
            report: "made 320\n",
            ..MAKE
        },
        Case {
            words: "run new 1",
            answer: Some(Status::Exited(0)),
            report: "made 320\nhart 0 instructions 14022\nsteps 14022\nexit 0\n",
            output: &[0x2C, 0xE7, 0x01, 0, 0, 0, 0, 0],
            ..MAKE
        },
    ],
];

fn check_runs<R: Threads + Sync + Abort>(rt: &R, alloc: Global) -> Result<(), AllocError> {
    for turns in &RUNS {
        give_in_turn(rt, alloc, b"", turns)?;
    }
    Ok(())
}

#[test]
fn samples_write_the_sums_that_they_are_made_for(rt: HostRuntime) -> Result<(), AllocError> {
    check_runs(&rt, rt.alloc())
}
