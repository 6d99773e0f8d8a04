use crate::{loop_line, run_lines};
use hart_core::{Counts, LoopCount};
use linear_forms::Loc;
use loop_choice::Judged;
use loop_data::{Addresses, Cell, Verdict};
use rv64_decode::{Fault, MemFault};
use serial_run::End;
use std::alloc::{AllocError, Global};
use std::process::Abort;

// A loop at 0x10080: what is found of it, and what its line says behind the header.
struct Row {
    verdict: Verdict,
    chosen: bool,
    text: &'static str,
}

const PLAIN: Row = Row {
    verdict: Verdict::Parallel,
    chosen: false,
    text: "parallel",
};

static ROWS: [Row; 26] = [
    Row {
        verdict: Verdict::MultiEntry {
            from: 0x10078,
            to: 0x10084,
        },
        text: "multi-entry 0x00010078 -> 0x00010084",
        ..PLAIN
    },
    Row {
        verdict: Verdict::Limit { at: 0x10084 },
        text: "limit 0x00010084",
        ..PLAIN
    },
    Row {
        verdict: Verdict::Call { at: 0x10084 },
        text: "call 0x00010084",
        ..PLAIN
    },
    Row {
        verdict: Verdict::System { at: 0x10084 },
        text: "system 0x00010084",
        ..PLAIN
    },
    Row {
        verdict: Verdict::Indirect { at: 0x10084 },
        text: "indirect 0x00010084",
        ..PLAIN
    },
    Row {
        verdict: Verdict::Unsupported { at: 0x10084 },
        text: "unsupported 0x00010084",
        ..PLAIN
    },
    Row {
        verdict: Verdict::Shape { at: 0x10084 },
        text: "shape 0x00010084",
        ..PLAIN
    },
    Row {
        verdict: Verdict::MixedCell { at: 0x10084 },
        text: "mixed-cell 0x00010084",
        ..PLAIN
    },
    Row {
        verdict: Verdict::NoTrip { at: 0x10084 },
        text: "no-trip 0x00010084",
        ..PLAIN
    },
    Row {
        verdict: Verdict::Irregular { at: 0xffff_fffc },
        text: "irregular 0xfffffffc",
        ..PLAIN
    },
    Row {
        verdict: Verdict::Carried {
            loc: Loc::Reg(7),
            cell: None,
        },
        text: "carried x7",
        ..PLAIN
    },
    Row {
        verdict: Verdict::Carried {
            loc: Loc::Reg(31),
            cell: None,
        },
        text: "carried x31",
        ..PLAIN
    },
    Row {
        verdict: Verdict::Carried {
            loc: Loc::Cell(3),
            cell: Some(Cell {
                base: Some(8),
                offset: -24,
                wide: true,
                stored: true,
            }),
        },
        text: "carried cell x8 -24 8",
        ..PLAIN
    },
    Row {
        verdict: Verdict::Carried {
            loc: Loc::Cell(3),
            cell: Some(Cell {
                base: Some(2),
                offset: 0,
                wide: false,
                stored: true,
            }),
        },
        text: "carried cell x2 0 4",
        ..PLAIN
    },
    Row {
        verdict: Verdict::Carried {
            loc: Loc::Cell(3),
            cell: Some(Cell {
                base: Some(31),
                offset: 2047,
                wide: false,
                stored: true,
            }),
        },
        text: "carried cell x31 2047 4",
        ..PLAIN
    },
    Row {
        verdict: Verdict::Carried {
            loc: Loc::Cell(3),
            cell: Some(Cell {
                base: Some(1),
                offset: -2048,
                wide: true,
                stored: true,
            }),
        },
        text: "carried cell x1 -2048 8",
        ..PLAIN
    },
    Row {
        verdict: Verdict::Carried {
            loc: Loc::Cell(3),
            cell: Some(Cell {
                base: None,
                offset: 131_072,
                wide: true,
                stored: true,
            }),
        },
        text: "carried cell abs 131072 8",
        ..PLAIN
    },
    Row {
        verdict: Verdict::Carried {
            loc: Loc::Cell(3),
            cell: Some(Cell {
                base: None,
                offset: 0x7fff_f7fc,
                wide: false,
                stored: true,
            }),
        },
        text: "carried cell abs 2147481596 4",
        ..PLAIN
    },
    Row {
        verdict: Verdict::Dependence {
            first: 0x10080,
            second: 0x10088,
            common: 0,
            distance: Some([1, 0, 0]),
        },
        text: "dependence 0x00010080 0x00010088 distance (1)",
        ..PLAIN
    },
    Row {
        verdict: Verdict::Dependence {
            first: 0x10080,
            second: 0x10088,
            common: 0,
            distance: Some([15, 7, 7]),
        },
        text: "dependence 0x00010080 0x00010088 distance (15)",
        ..PLAIN
    },
    Row {
        verdict: Verdict::Dependence {
            first: 0x10080,
            second: 0x10088,
            common: 1,
            distance: Some([1, -3, 0]),
        },
        text: "dependence 0x00010080 0x00010088 distance (1, -3)",
        ..PLAIN
    },
    Row {
        verdict: Verdict::Dependence {
            first: 0x10080,
            second: 0x10088,
            common: 2,
            distance: Some([2, 0, -7]),
        },
        text: "dependence 0x00010080 0x00010088 distance (2, 0, -7)",
        ..PLAIN
    },
    Row {
        verdict: Verdict::Dependence {
            first: 0x10080,
            second: 0x10088,
            common: 1,
            distance: None,
        },
        text: "dependence 0x00010080 0x00010088 distance none",
        ..PLAIN
    },
    PLAIN,
    Row {
        verdict: Verdict::Parallel,
        chosen: true,
        text: "parallel chosen",
    },
    Row {
        verdict: Verdict::Call { at: 0x10084 },
        chosen: true,
        text: "call 0x00010084",
    },
];

fn check_row<R: Abort>(rt: &R, alloc: Global, row: &Row) -> Result<(), AllocError> {
    let judged = Judged {
        header: 0x10080,
        body: Addresses::new(Vec::new(alloc)),
        verdict: row.verdict,
        plan: None,
    };
    let line = loop_line(alloc, &judged, row.chosen)?;
    let text = row.text;
    let wanted = format!(in alloc; "loop 0x00010080 {text}\n")?;
    assert!(rt; line.as_str() == wanted.as_str(), "{text}");
    Ok(())
}

#[test]
fn loops_have_their_lines(rt: HostRuntime) -> Result<(), AllocError> {
    for row in &ROWS {
        check_row(&rt, rt.alloc(), row)?;
    }
    Ok(())
}

// A run: the counts of its entries and of its harts, how it has ended, and what is said of it.
struct Run {
    loops: &'static [LoopCount],
    harts: &'static [u64],
    steps: u64,
    end: End,
    text: &'static str,
}

// Of an executable of two instructions, on one hart.
const SHORT: Run = Run {
    loops: &[],
    harts: &[2],
    steps: 2,
    end: End::Exited(0),
    text: "hart 0 instructions 2\nsteps 2\nexit 0\n",
};

static RUNS: [Run; 10] = [
    // an image with two entries, on four harts
    Run {
        loops: &[
            LoopCount {
                header: 0x100cc,
                arrivals: 1,
                divided: 1,
                turns: 999,
            },
            LoopCount {
                header: 0x100f0,
                arrivals: 1,
                divided: 1,
                turns: 999,
            },
        ],
        harts: &[11_812, 7_303, 7_332, 7_332],
        steps: 33_779,
        end: End::Exited(0),
        text: "loop 0x000100cc arrivals 1 divided 1 turns 999\nloop 0x000100f0 arrivals 1 divided 1 turns 999\n\
            hart 0 instructions 11812\nhart 1 instructions 7303\nhart 2 instructions 7332\n\
            hart 3 instructions 7332\nsteps 33779\nexit 0\n",
    },
    // one without entries
    SHORT,
    // on four harts, of which three do nothing
    Run {
        harts: &[2, 0, 0, 0],
        text: "hart 0 instructions 2\nhart 1 instructions 0\nhart 2 instructions 0\nhart 3 instructions 0\n\
            steps 2\nexit 0\n",
        ..SHORT
    },
    Run {
        end: End::Exited(255),
        text: "hart 0 instructions 2\nsteps 2\nexit 255\n",
        ..SHORT
    },
    // a loop that is never divided, and a fault in it
    Run {
        loops: &[LoopCount {
            header: 0x10084,
            arrivals: 21,
            divided: 0,
            turns: 0,
        }],
        harts: &[64],
        steps: 64,
        end: End::Faulted {
            kind: Fault::Store(MemFault::Unmapped),
            pc: 0x10084,
            addr: 0x101_1000,
        },
        text: "loop 0x00010084 arrivals 21 divided 0 turns 0\nhart 0 instructions 64\nsteps 64\n\
            fault store-unmapped pc 0x0000000000010084 addr 0x0000000001011000\n",
    },
    // the greatest numbers
    Run {
        loops: &[LoopCount {
            header: 0xffff_fffc,
            arrivals: u64::MAX,
            divided: u64::MAX,
            turns: u64::MAX,
        }],
        harts: &[u64::MAX],
        steps: u64::MAX,
        end: End::Faulted {
            kind: Fault::Load(MemFault::Denied),
            pc: 0xfedc_ba98_7654_3210,
            addr: u64::MAX,
        },
        text: "loop 0xfffffffc arrivals 18446744073709551615 divided 18446744073709551615 \
            turns 18446744073709551615\n\
            hart 0 instructions 18446744073709551615\nsteps 18446744073709551615\n\
            fault load-denied pc 0xfedcba9876543210 addr 0xffffffffffffffff\n",
    },
    // a number that no header has
    Run {
        loops: &[LoopCount {
            header: 1 << 32,
            arrivals: 0,
            divided: 0,
            turns: 0,
        }],
        text: "loop 0x100000000 arrivals 0 divided 0 turns 0\nhart 0 instructions 2\nsteps 2\nexit 0\n",
        ..SHORT
    },
    // nothing is counted of a run without an ending
    Run {
        end: End::Spent,
        text: "spent\n",
        ..SHORT
    },
    Run {
        end: End::ReadFault,
        text: "read-fault\n",
        ..SHORT
    },
    Run {
        end: End::WriteFault,
        text: "",
        ..SHORT
    },
];

fn check_run<R: Abort>(rt: &R, alloc: Global, run: &Run) -> Result<(), AllocError> {
    let mut loops = Vec::new(alloc);
    loops.extend_from_slice(run.loops)?;
    let mut harts = Vec::new(alloc);
    harts.extend_from_slice(run.harts)?;
    let counts = Counts {
        loops,
        harts,
        steps: run.steps,
    };
    let lines = run_lines(alloc, &counts, &run.end)?;
    let wanted = run.text;
    assert!(rt; lines.as_str() == wanted, "not: {wanted}");
    Ok(())
}

#[test]
fn runs_have_their_lines(rt: HostRuntime) -> Result<(), AllocError> {
    for run in &RUNS {
        check_run(&rt, rt.alloc(), run)?;
    }
    Ok(())
}

// The kinds of faults, and their names.
static KINDS: [(Fault, &str); 10] = [
    (Fault::Fetch, "fetch"),
    (Fault::Illegal, "illegal"),
    (Fault::Break, "break"),
    (Fault::Target, "target"),
    (Fault::Load(MemFault::Misaligned), "load-misaligned"),
    (Fault::Load(MemFault::Unmapped), "load-unmapped"),
    (Fault::Load(MemFault::Denied), "load-denied"),
    (Fault::Store(MemFault::Misaligned), "store-misaligned"),
    (Fault::Store(MemFault::Unmapped), "store-unmapped"),
    (Fault::Store(MemFault::Denied), "store-denied"),
];

fn check_kind<R: Abort>(rt: &R, alloc: Global, kind: Fault, name: &str) -> Result<(), AllocError> {
    let counts = Counts {
        loops: Vec::new(alloc),
        harts: Vec::new(alloc),
        steps: 0,
    };
    let end = End::Faulted {
        kind,
        pc: 0x10078,
        addr: 0x10,
    };
    let lines = run_lines(alloc, &counts, &end)?;
    let wanted = format!(in alloc;
        "steps 0\nfault {name} pc 0x0000000000010078 addr 0x0000000000000010\n"
    )?;
    assert!(rt; lines.as_str() == wanted.as_str(), "{name}");
    Ok(())
}

#[test]
fn faults_have_their_names(rt: HostRuntime) -> Result<(), AllocError> {
    for row in &KINDS {
        check_kind(&rt, rt.alloc(), row.0, row.1)?;
    }
    Ok(())
}
