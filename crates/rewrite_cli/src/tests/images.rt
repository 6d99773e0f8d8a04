use super::files::arrays;
use super::{
    Case, EXIT, Failing, LOAD_FAILS, NONE_FAILS, REPORT_FAILS, RUN, SAVE_FAILS, check, check_all,
    check_file, check_length, give_in_turn, program,
};
use crate::status::{Reason, Status};
use std::alloc::{AllocError, Global};
use std::process::Abort;
use std::thread::Threads;

const REWRITE: Case = Case {
    words: "rewrite file new",
    answer: Some(Status::Done),
    report: "rewritten entries 0 words 0\n",
    changed: "new",
    ..RUN
};

static TURNS: [Case; 3] = [
    REWRITE,
    Case {
        words: "run new 1",
        answer: Some(Status::Exited(0)),
        report: "rewritten entries 0 words 0\nhart 0 instructions 2\nsteps 2\nexit 0\n",
        ..REWRITE
    },
    Case {
        words: "rewrite new file",
        answer: Some(Status::Refused(Reason::Marked { index: 1 })),
        number: 124,
        report: "rewritten entries 0 words 0\nhart 0 instructions 2\nsteps 2\nexit 0\nrefused marked 1\n",
        ..REWRITE
    },
];

fn check_rewritten<R: Threads + Sync + Abort>(
    rt: &R,
    alloc: Global,
    file: &[u8],
) -> Result<(), AllocError> {
    let at = give_in_turn(rt, alloc, file, &TURNS)?;
    check_file(rt, &at.store, "new", 288, b"");
    Ok(())
}

#[test]
fn rewritten_file_runs_as_its_original(rt: HostRuntime) -> Result<(), AllocError> {
    let file = program(rt.alloc(), &EXIT, "")?;
    check_length(&rt, file.as_slice(), 128);
    check_rewritten(&rt, rt.alloc(), file.as_slice())
}

static TURNS_OF_A_MARKED_FILE: [Case; 2] = [
    Case {
        report: "rewritten entries 2 words 717\n",
        ..REWRITE
    },
    Case {
        words: "rewrite new other",
        answer: Some(Status::Refused(Reason::Marked { index: 2 })),
        number: 124,
        report: "rewritten entries 2 words 717\nrefused marked 2\n",
        ..REWRITE
    },
];

// The mark of its image stands behind the two headers.
#[test]
fn marked_file_is_not_rewritten(rt: HostRuntime) -> Result<(), AllocError> {
    let file = arrays(rt.alloc(), 24, 0x0000_04b7, 0x0084_849b)?;
    give_in_turn(&rt, rt.alloc(), file.as_slice(), &TURNS_OF_A_MARKED_FILE)?;
    Ok(())
}

// Counts up to 40 in one loop, and ends with that number.
static COUNT: [u32; 5] = [
    0x0280_0593, // addi a1,x0,40
    0x0015_0513, // addi a0,a0,1
    0xfeb5_1ee3, // bne a0,a1,-4
    0x05d0_0893, // addi a7,x0,93
    0x0000_0073, // ecall
];

const DIVIDED: Case = Case {
    report: "rewritten entries 1 words 88\n",
    ..REWRITE
};

// The image is run with just enough events, and with one less.
static TURNS_OF_A_LOOP: [Case; 3] = [
    DIVIDED,
    Case {
        words: "run new 1 420",
        answer: Some(Status::Exited(40)),
        number: 40,
        report: "rewritten entries 1 words 88\nloop 0x0001007c arrivals 1 divided 1 turns 39\n\
            hart 0 instructions 420\nsteps 420\nexit 40\n",
        ..DIVIDED
    },
    Case {
        words: "run new 1 419",
        answer: Some(Status::Spent),
        number: 121,
        report: "rewritten entries 1 words 88\nloop 0x0001007c arrivals 1 divided 1 turns 39\n\
            hart 0 instructions 420\nsteps 420\nexit 40\nspent\n",
        ..DIVIDED
    },
];

// The headers and the words of the file have 144 bytes, the copied headers 112, and the record, an entry and 88 words
// 416.
fn check_divided<R: Threads + Sync + Abort>(
    rt: &R,
    alloc: Global,
    file: &[u8],
) -> Result<(), AllocError> {
    let at = give_in_turn(rt, alloc, file, &TURNS_OF_A_LOOP)?;
    check_file(rt, &at.store, "new", 672, b"");
    Ok(())
}

#[test]
fn divided_loop_runs_as_its_original(rt: HostRuntime) -> Result<(), AllocError> {
    let file = program(rt.alloc(), &COUNT, "")?;
    check_length(&rt, file.as_slice(), 140);
    check_divided(&rt, rt.alloc(), file.as_slice())
}

static REWRITE_ONTO_ITSELF: [Case; 1] = [Case {
    words: "rewrite file file",
    changed: "file",
    ..REWRITE
}];

// The image of this file.
fn image_of<R: Threads + Sync + Abort>(
    rt: &R,
    alloc: Global,
    file: &[u8],
) -> Result<Vec<u8>, AllocError> {
    let at = give_in_turn(rt, alloc, file, &REWRITE_ONTO_ITSELF)?;
    match at.store.get("file") {
        Some(image) => Vec::from_slice(alloc, image),
        None => Ok(Vec::new(alloc)),
    }
}

// An image with one byte in another's place or at its end, or without its last byte.
#[derive(Clone, Copy)]
struct Changed {
    place: usize,
    byte: Option<u8>,
    report: &'static str,
}

static CHANGED: [Changed; 4] = [
    Changed {
        place: 188,
        byte: Some(3),
        report: "refused altered 188\n",
    },
    Changed {
        place: 244,
        byte: Some(3),
        report: "refused bad-mark\n",
    },
    Changed {
        place: 287,
        byte: None,
        report: "refused bad-mark\n",
    },
    Changed {
        place: 288,
        byte: Some(0),
        report: "refused altered 288\n",
    },
];

fn image_with(alloc: Global, image: &[u8], row: &Changed) -> Result<Vec<u8>, AllocError> {
    let mut bytes = Vec::from_slice(alloc, image)?;
    match row.byte {
        None => bytes.truncate(row.place),
        Some(byte) => match bytes.get_mut(row.place) {
            Some(old) => *old = byte,
            None => bytes.push(byte)?,
        },
    }
    Ok(bytes)
}

fn check_changed<R: Threads + Sync + Abort>(
    rt: &R,
    alloc: Global,
    image: &[u8],
) -> Result<(), AllocError> {
    for row in &CHANGED {
        let bytes = image_with(alloc, image, row)?;
        let case = Case {
            number: 124,
            report: row.report,
            ..RUN
        };
        check(rt, alloc, bytes.as_slice(), &case)?;
    }
    Ok(())
}

// The image of `EXIT`, with one byte in another's place or at its end, or without its last byte.
#[test]
fn other_images_are_refused(rt: HostRuntime) -> Result<(), AllocError> {
    let file = program(rt.alloc(), &EXIT, "")?;
    let image = image_of(&rt, rt.alloc(), file.as_slice())?;
    check_changed(&rt, rt.alloc(), image.as_slice())
}

const NO_IMAGE: Case = Case {
    words: "rewrite file new",
    answer: Some(Status::StoreFault),
    number: 125,
    report: "store-fault\n",
    ..RUN
};

// `file` stays whatever happens. Where nothing is saved there is no `new`, or it stays.
static REWRITES: [Case; 10] = [
    Case {
        failing: LOAD_FAILS,
        ..NO_IMAGE
    },
    Case {
        failing: SAVE_FAILS,
        ..NO_IMAGE
    },
    Case {
        words: "rewrite files new",
        ..NO_IMAGE
    },
    Case {
        failing: LOAD_FAILS,
        old: Some("old"),
        ..NO_IMAGE
    },
    Case {
        failing: SAVE_FAILS,
        old: Some("old"),
        ..NO_IMAGE
    },
    Case {
        words: "rewrite file file",
        failing: SAVE_FAILS,
        ..NO_IMAGE
    },
    Case {
        old: Some("old"),
        ..REWRITE
    },
    Case {
        failing: REPORT_FAILS,
        answer: Some(Status::WriteFault),
        number: 127,
        report: "",
        ..REWRITE
    },
    Case {
        room: 9,
        answer: Some(Status::WriteFault),
        number: 127,
        report: "rewritten",
        ..REWRITE
    },
    Case {
        failing: Failing {
            store: Some(2),
            ..NONE_FAILS
        },
        ..REWRITE
    },
];

#[test]
fn rewriting_is_answered_where_the_outside_fails(rt: HostRuntime) -> Result<(), AllocError> {
    let file = program(rt.alloc(), &EXIT, "")?;
    check_all(&rt, rt.alloc(), file.as_slice(), &REWRITES)
}
