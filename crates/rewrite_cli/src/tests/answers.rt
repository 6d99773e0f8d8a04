use crate::counts::Counts;
use crate::report::report_text;
use crate::status::{Reason, Status};
use rv64_decode::{Fault, MemFault};
use std::alloc::{AllocError, Global};
use std::process::Abort;

// What is counted.
#[derive(Clone, Copy)]
enum Given {
    Steps(u64),
    Image { entries: u32, words: u32 },
    Sample { bytes: u64 },
    Nothing,
}

// An answer, its counts, its report and its exit status.
#[derive(Clone, Copy)]
struct Answer {
    status: Status,
    counts: Given,
    text: &'static str,
    number: u8,
}

static ANSWERS: [Answer; 7] = [
    Answer {
        status: Status::Spent,
        counts: Given::Steps(7),
        text: "spent\n",
        number: 121,
    },
    Answer {
        status: Status::OutOfMemory,
        counts: Given::Nothing,
        text: "out-of-memory\n",
        number: 128,
    },
    Answer {
        status: Status::WriteFault,
        counts: Given::Nothing,
        text: "",
        number: 127,
    },
    Answer {
        status: Status::Faulted {
            kind: Fault::Load(MemFault::Denied),
            pc: 0xFEDC_BA98_7654_3210,
            addr: u64::MAX,
        },
        counts: Given::Steps(u64::MAX),
        text: "hart 0 instructions 18446744073709551615\nsteps 18446744073709551615\n\
            fault load-denied pc 0xfedcba9876543210 addr 0xffffffffffffffff\n",
        number: 120,
    },
    Answer {
        status: Status::Refused(Reason::LoadTooLong { limit: 67_108_864 }),
        counts: Given::Nothing,
        text: "refused load-too-long 67108864\n",
        number: 124,
    },
    Answer {
        status: Status::Done,
        counts: Given::Image {
            entries: u32::MAX,
            words: 717,
        },
        text: "rewritten entries 4294967295 words 717\n",
        number: 0,
    },
    Answer {
        status: Status::Done,
        counts: Given::Sample { bytes: u64::MAX },
        text: "made 18446744073709551615\n",
        number: 0,
    },
];

fn check_text<R: Abort>(
    rt: &R,
    alloc: Global,
    status: &Status,
    counts: &Counts,
    text: &str,
) -> Result<(), AllocError> {
    let report = report_text(alloc, status, counts)?;
    assert!(rt; report.as_str() == text, "not: {text}");
    Ok(())
}

fn counts_of(alloc: Global, given: Given) -> Result<Counts, AllocError> {
    match given {
        Given::Steps(steps) => Counts::of_steps(alloc, steps),
        Given::Image { entries, words } => Ok(Counts::Image { entries, words }),
        Given::Sample { bytes } => Ok(Counts::Sample { bytes }),
        Given::Nothing => Ok(Counts::Nothing),
    }
}

fn check_answers<R: Abort>(rt: &R, alloc: Global) -> Result<(), AllocError> {
    for answer in &ANSWERS {
        let counts = counts_of(alloc, answer.counts)?;
        check_text(rt, alloc, &answer.status, &counts, answer.text)?;
        assert!(rt; answer.status.exit_number() == answer.number);
    }
    Ok(())
}

#[test]
fn answers_have_their_lines_and_numbers(rt: HostRuntime) -> Result<(), AllocError> {
    check_answers(&rt, rt.alloc())
}

static REFUSALS: [(Reason, &str); 24] = [
    (
        Reason::TooLong { length: u64::MAX },
        "too-long 18446744073709551615",
    ),
    (
        Reason::HeaderCut {
            need: u128::MAX,
            have: 63,
        },
        "header-cut 340282366920938463463374607431768211455 63",
    ),
    (Reason::Class(1), "class 1"),
    (Reason::ByteOrder(2), "byte-order 2"),
    (Reason::Version(u32::MAX), "version 4294967295"),
    (Reason::FileType(3), "file-type 3"),
    (Reason::Machine(62), "machine 62"),
    (Reason::Flags(1), "flags 1"),
    (Reason::HeaderSize(57), "header-size 57"),
    (Reason::TooManyHeaders { count: 65 }, "too-many-headers 65"),
    (Reason::Marked { index: 2 }, "marked 2"),
    (Reason::SegmentSize { index: 0 }, "segment-size 0"),
    (Reason::SegmentCut { index: 3 }, "segment-cut 3"),
    (Reason::Dynamic { index: 1 }, "dynamic 1"),
    (Reason::WritableCode { index: 0 }, "writable-code 0"),
    (Reason::Range { index: 63 }, "range 63"),
    (
        Reason::TooMuchMemory { bytes: 268_435_464 },
        "too-much-memory 268435464",
    ),
    (
        Reason::Overlap {
            first: 0,
            second: 1,
        },
        "overlap 0 1",
    ),
    (
        Reason::EntryOutside { entry: 65_536 },
        "entry-outside 65536",
    ),
    (Reason::TooManyLoops { count: 1_025 }, "too-many-loops 1025"),
    (
        Reason::CodeTooLong { words: 4_194_305 },
        "code-too-long 4194305",
    ),
    (Reason::BadMark, "bad-mark"),
    (Reason::Altered { offset: 584 }, "altered 584"),
    (
        Reason::TooLarge { n: u64::MAX },
        "too-large 18446744073709551615",
    ),
];

fn check_refusals<R: Abort>(rt: &R, alloc: Global) -> Result<(), AllocError> {
    for (why, text) in &REFUSALS {
        let line = format!(in alloc; "refused {text}\n")?;
        check_text(
            rt,
            alloc,
            &Status::Refused(*why),
            &Counts::Nothing,
            line.as_str(),
        )?;
    }
    Ok(())
}

#[test]
fn refusals_have_their_lines(rt: HostRuntime) -> Result<(), AllocError> {
    check_refusals(&rt, rt.alloc())
}
