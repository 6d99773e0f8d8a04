use super::{Case, NONE_FAILS, REPORT_FAILS, RUN, bytes_of, check, check_all, check_length};
use crate::status::Status;
use std::alloc::{AllocError, Global};
use std::process::Abort;
use std::thread::Threads;

// A whole file with two program headers, which adds two arrays of one number.
pub(super) static TWO_HEADERS: [u32; 84] = [
    0x464c_457f,
    0x0001_0102,
    0,
    0,
    0x00f3_0002,
    0x0000_0001,
    0x0001_00b0,
    0,
    0x0000_0040,
    0,
    0,
    0,
    0,
    0x0038_0040,
    0x0000_0002,
    0,
    0x0000_0001,
    0x0000_0005,
    0,
    0,
    0x0001_0000,
    0,
    0x0001_0000,
    0,
    0x0000_0150,
    0,
    0x0000_0150,
    0,
    0x0000_1000,
    0,
    0x0000_0001,
    0x0000_0006,
    0,
    0,
    0x0002_0000,
    0,
    0x0002_0000,
    0,
    0,
    0,
    0x0000_0018,
    0,
    0x0000_1000,
    0,
    0x0002_05b7,
    0x0000_04b7,
    0x0084_849b,
    0x0095_8633,
    0x0096_0533,
    0x0006_0693,
    0x0000_0293,
    0x0055_b023,
    0x0052_8333,
    0x0066_3023,
    0x0012_8293,
    0x0085_8593,
    0x0086_0613,
    0xfed5_94e3,
    0x4095_85b3,
    0x4096_0633,
    0x0005_b703,
    0x0006_3783,
    0x00f7_0733,
    0x00e5_3023,
    0x0085_8593,
    0x0086_0613,
    0x0085_0513,
    0xfed5_92e3,
    0x4095_0533,
    0x0095_06b3,
    0x0000_0393,
    0x0005_3703,
    0x00e3_83b3,
    0x0085_0513,
    0xfed5_1ae3,
    0xfe71_3c23,
    0x0010_0513,
    0xff81_0593,
    0x0080_0613,
    0x0400_0893,
    0x0000_0073,
    0x0000_0513,
    0x05d0_0893,
    0x0000_0073,
];

// The file that adds two arrays of so many numbers, whose bytes in memory are given, with the size of
// the arrays in bytes put into a register by `lui` and `addiw`.
pub(super) fn arrays(
    alloc: Global,
    memory: u32,
    lui: u32,
    addiw: u32,
) -> Result<Vec<u8>, AllocError> {
    let mut words = TWO_HEADERS;
    words[40] = memory;
    words[45] = lui;
    words[46] = addiw;
    bytes_of(alloc, &words)
}

// That file, with one of its words replaced.
pub(super) fn changed(alloc: Global, place: usize, word: u32) -> Result<Vec<u8>, AllocError> {
    let mut words = TWO_HEADERS;
    if let Some(old) = words.get_mut(place) {
        *old = word;
    }
    bytes_of(alloc, &words)
}

// Its first bytes.
fn cut(alloc: Global, length: usize) -> Result<Vec<u8>, AllocError> {
    let mut bytes = bytes_of(alloc, &TWO_HEADERS)?;
    bytes.truncate(length);
    Ok(bytes)
}

const SUM_REPORT: &str = "hart 0 instructions 19021\nsteps 19021\nexit 0\n";

// The sum is 1,498,500.
const ADDING: Case = Case {
    report: SUM_REPORT,
    output: &[0x84, 0xdd, 0x16, 0, 0, 0, 0, 0],
    ..RUN
};

static RUNS_OF_ARRAYS: [Case; 3] = [
    ADDING,
    Case {
        words: "run file 1 19021",
        ..ADDING
    },
    Case {
        words: "run file 1 19020",
        report: "spent\n",
        number: 121,
        ..ADDING
    },
];

// Two arrays of 1,000 numbers are filled and added, and the sum of all is written.
#[test]
fn file_with_two_headers_runs(rt: HostRuntime) -> Result<(), AllocError> {
    let file = arrays(rt.alloc(), 24_000, 0x0000_24b7, 0xf404_849b)?;
    check_length(&rt, file.as_slice(), 336);
    check_all(&rt, rt.alloc(), file.as_slice(), &RUNS_OF_ARRAYS)
}

const REFUSED: Case = Case { number: 124, ..RUN };

// It is refused with this report, by a run and by a rewriting.
fn check_refused<R: Threads + Sync + Abort>(
    rt: &R,
    alloc: Global,
    file: &[u8],
    report: &'static str,
) -> Result<(), AllocError> {
    for words in &["run file 1", "rewrite file new"] {
        let case = Case {
            words: *words,
            report,
            ..REFUSED
        };
        check(rt, alloc, file, &case)?;
    }
    Ok(())
}

fn check_other_files<R: Threads + Sync + Abort>(rt: &R, alloc: Global) -> Result<(), AllocError> {
    check_refused(rt, alloc, b"", "refused not-elf\n")?;
    let short = cut(alloc, 63)?;
    check_refused(rt, alloc, short.as_slice(), "refused header-cut 64 63\n")?;
    let short = cut(alloc, 175)?;
    check_refused(rt, alloc, short.as_slice(), "refused header-cut 176 175\n")?;
    let linked = changed(alloc, 30, 3)?;
    check_refused(rt, alloc, linked.as_slice(), "refused dynamic 1\n")?;
    let writable = changed(alloc, 17, 7)?;
    check_refused(rt, alloc, writable.as_slice(), "refused writable-code 0\n")
}

#[test]
fn other_files_are_refused(rt: HostRuntime) -> Result<(), AllocError> {
    check_other_files(&rt, rt.alloc())
}

static LONG_FILES: [(usize, &str); 4] = [
    (84_934_657, "refused load-too-long 84934656\n"),
    (84_934_656, "refused too-long 84934656\n"),
    (67_108_865, "refused too-long 67108865\n"),
    (67_108_864, "refused not-elf\n"),
];

fn check_long_files<R: Threads + Sync + Abort>(rt: &R, alloc: Global) -> Result<(), AllocError> {
    let mut zeros = vec![in alloc; 0u8; 84_934_657]?;
    for (length, report) in &LONG_FILES {
        zeros.truncate(*length);
        let case = Case {
            report: *report,
            ..REFUSED
        };
        check(rt, alloc, zeros.as_slice(), &case)?;
    }
    Ok(())
}

#[test]
fn long_files_are_refused(rt: HostRuntime) -> Result<(), AllocError> {
    check_long_files(&rt, rt.alloc())
}

static RUN_OF_ONE_NUMBER: [Case; 1] = [Case {
    answer: Some(Status::Exited(0)),
    report: "hart 0 instructions 40\nsteps 40\nexit 0\n",
    output: &[0; 8],
    ..RUN
}];

// One number each: every loop makes one turn, so that each of the 40 words is executed once.
#[test]
fn arrays_of_one_number_are_added(rt: HostRuntime) -> Result<(), AllocError> {
    let file = bytes_of(rt.alloc(), &TWO_HEADERS)?;
    check_all(&rt, rt.alloc(), file.as_slice(), &RUN_OF_ONE_NUMBER)
}

const NO_REPORT: Case = Case {
    failing: REPORT_FAILS,
    answer: Some(Status::WriteFault),
    number: 127,
    ..RUN
};

const CUT_REPORT: Case = Case {
    failing: NONE_FAILS,
    room: 9,
    report: "refused n",
    ..NO_REPORT
};

static REFUSALS_WITHOUT_REPORT: [Case; 8] = [
    NO_REPORT,
    CUT_REPORT,
    Case {
        words: "run file 1 9 dump",
        ..NO_REPORT
    },
    Case {
        words: "run file 1 9 dump",
        ..CUT_REPORT
    },
    Case {
        words: "rewrite file new",
        ..NO_REPORT
    },
    Case {
        words: "rewrite file new",
        ..CUT_REPORT
    },
    Case {
        words: "list file",
        ..NO_REPORT
    },
    Case {
        words: "list file",
        ..CUT_REPORT
    },
];

// A file that is refused, with a report that fails at once or is cut: nothing is read, written or saved.
#[test]
fn refusals_whose_report_fails_touch_nothing(rt: HostRuntime) -> Result<(), AllocError> {
    check_all(&rt, rt.alloc(), b"no file", &REFUSALS_WITHOUT_REPORT)
}
