use super::{
    Case, ECHO, Failing, HELLO, HELLO_REPORT, LOAD_FAILS, NONE_FAILS, OUTPUT_FAILS, Outside,
    PLAIN_RUN, READABLE_CODE, REPORT_FAILS, RUN, UNREADABLE_CODE, check, check_all, outside_of,
    program, program_of,
};
use crate::reply::Reply;
use crate::run::run_file;
use crate::status::Status;
use std::alloc::{AllocError, Global};
use std::process::Abort;
use std::thread::Threads;

const USAGE: &str =
    "usage: list FILE | rewrite FILE NEW | run FILE HARTS [FUEL [DUMP]] | replay FILE HARTS ORDER | make KIND N NEW\n";

static RUN_OF_HELLO: [Case; 1] = [Case {
    answer: Some(Status::Exited(0)),
    report: HELLO_REPORT,
    output: b"hello\n",
    ..RUN
}];

#[test]
fn program_runs_to_its_end(rt: HostRuntime) -> Result<(), AllocError> {
    let file = program(rt.alloc(), &HELLO, "hello\n")?;
    check_all(&rt, rt.alloc(), file.as_slice(), &RUN_OF_HELLO)
}

// A program of a few words that faults, or ends, and the report of its run.
#[derive(Clone, Copy)]
struct Ending {
    flags: u32,
    code: &'static [u32],
    report: &'static str,
    number: u8,
}

const FAULT: Ending = Ending {
    flags: READABLE_CODE,
    code: &[],
    report: "",
    number: 120,
};

static ENDINGS: [Ending; 15] = [
    Ending {
        code: &[0x0000_0053], // no instruction
        report: "hart 0 instructions 1\nsteps 1\nfault illegal pc 0x0000000000010078 addr 0x0000000000000053\n",
        ..FAULT
    },
    Ending {
        code: &[0x7890_006f], // jal x0,0x11000, where the heap begins
        report: "hart 0 instructions 2\nsteps 2\nfault fetch pc 0x0000000000011000 addr 0x0000000000011000\n",
        ..FAULT
    },
    Ending {
        code: &[0x0001_1363], // bne sp,x0,+6
        report: "hart 0 instructions 1\nsteps 1\nfault target pc 0x0000000000010078 addr 0x000000000001007e\n",
        ..FAULT
    },
    Ending {
        code: &[
            0x0000_1363, // bne x0,x0,+6
            0x0010_0073, // ebreak
        ],
        report: "hart 0 instructions 2\nsteps 2\nfault break pc 0x000000000001007c addr 0x000000000001007c\n",
        ..FAULT
    },
    Ending {
        code: &[0x0041_3503], // ld a0,4(sp)
        report: "hart 0 instructions 1\nsteps 1\nfault load-misaligned pc 0x0000000000010078 addr 0x000000007f7fffc4\n",
        ..FAULT
    },
    Ending {
        code: &[0x0000_3503], // ld a0,0(x0)
        report: "hart 0 instructions 1\nsteps 1\nfault load-unmapped pc 0x0000000000010078 addr 0x0000000000000000\n",
        ..FAULT
    },
    Ending {
        flags: UNREADABLE_CODE,
        code: &[
            0x0001_0537, // lui a0,0x10
            0x0005_3503, // ld a0,0(a0)
        ],
        report: "hart 0 instructions 2\nsteps 2\nfault load-denied pc 0x000000000001007c addr 0x0000000000010000\n",
        ..FAULT
    },
    Ending {
        code: &[
            0x0001_0537, // lui a0,0x10
            0x0005_3023, // sd x0,0(a0)
        ],
        report: "hart 0 instructions 2\nsteps 2\nfault store-denied pc 0x000000000001007c addr 0x0000000000010000\n",
        ..FAULT
    },
    Ending {
        code: &[
            0x0001_0537, // lui a0,0x10
            0x0005_3223, // sd x0,4(a0)
        ],
        report: "hart 0 instructions 2\nsteps 2\n\
            fault store-misaligned pc 0x000000000001007c addr 0x0000000000010004\n",
        ..FAULT
    },
    Ending {
        code: &[
            0x6000_0537, // lui a0,0x60000
            0x0005_3023, // sd x0,0(a0)
        ],
        report: "hart 0 instructions 2\nsteps 2\nfault store-unmapped pc 0x000000000001007c addr 0x0000000060000000\n",
        ..FAULT
    },
    Ending {
        code: &[
            0x6000_0537, // lui a0,0x60000
            0x0005_0067, // jalr x0,0(a0)
        ],
        report: "hart 0 instructions 3\nsteps 3\nfault fetch pc 0x0000000060000000 addr 0x0000000060000000\n",
        ..FAULT
    },
    Ending {
        code: &[0x0040_3503], // ld a0,4(x0)
        report: "hart 0 instructions 1\nsteps 1\nfault load-misaligned pc 0x0000000000010078 addr 0x0000000000000004\n",
        ..FAULT
    },
    Ending {
        code: &[0x0000_3223], // sd x0,4(x0)
        report: "hart 0 instructions 1\nsteps 1\n\
            fault store-misaligned pc 0x0000000000010078 addr 0x0000000000000004\n",
        ..FAULT
    },
    // The code is taken modulo 256, and may be the status of another answer.
    Ending {
        code: &[
            0x17b0_0513, // addi a0,x0,379
            0x05d0_0893, // addi a7,x0,93
            0x0000_0073, // ecall
        ],
        report: "hart 0 instructions 3\nsteps 3\nexit 123\n",
        number: 123,
        ..FAULT
    },
    Ending {
        code: &[
            0xfff0_0513, // addi a0,x0,-1
            0x05e0_0893, // addi a7,x0,94
            0x0000_0073, // ecall
        ],
        report: "hart 0 instructions 3\nsteps 3\nexit 255\n",
        number: 255,
        ..FAULT
    },
];

fn check_endings<R: Threads + Sync + Abort>(rt: &R, alloc: Global) -> Result<(), AllocError> {
    for ending in &ENDINGS {
        let file = program_of(alloc, ending.flags, ending.code, "")?;
        let case = Case {
            report: ending.report,
            number: ending.number,
            ..RUN
        };
        check(rt, alloc, file.as_slice(), &case)?;
    }
    Ok(())
}

#[test]
fn endings_are_reported(rt: HostRuntime) -> Result<(), AllocError> {
    check_endings(&rt, rt.alloc())
}

static NO_COMMANDS: [&str; 41] = [
    "",
    "run",
    "run file",
    "run file 0",
    "run file 2",
    "run file 65",
    "run file 01",
    "run file 1x",
    "run file +1",
    "run file 1 0",
    "run file 1 07",
    "run file 1 +5",
    "run file 1 -5",
    "run file 1 1x",
    "run file 1 ",
    "run file 1 1099511627777",
    "run file 1 18446744073709551621",
    "run file 1 100000000000000000000000000000000000000000000000000",
    "run file 1 0 dump",
    "run file 2 5",
    "run file 2 5 dump",
    "run file 1 5 dump 1",
    "Run file 1",
    "runs file 1",
    "walk file 1",
    "rewrite",
    "rewrite file",
    "rewrite file new 1",
    "Rewrite file new",
    "list",
    "list file other",
    "file 1 run",
    "make vadd 0 new",
    "make vadd 01 new",
    "make vadd -1 new",
    "make vadd 9223372036854775808 new",
    "make vector 1 new",
    "make Vadd 1 new",
    "make vadd 1",
    "make vadd 1 new 1",
    "Make vadd 1 new",
];

// Nothing is loaded, read or written: the first call of each would fail.
const NO_COMMAND: Case = Case {
    failing: Failing {
        store: Some(0),
        read: Some(0),
        write: Some(0),
        report: None,
    },
    answer: Some(Status::Usage),
    number: 123,
    report: USAGE,
    ..RUN
};

fn check_words<R: Threads + Sync + Abort>(
    rt: &R,
    alloc: Global,
    file: &[u8],
) -> Result<(), AllocError> {
    for words in &NO_COMMANDS {
        let case = Case {
            words: *words,
            ..NO_COMMAND
        };
        check(rt, alloc, file, &case)?;
    }
    Ok(())
}

#[test]
fn other_words_are_no_command(rt: HostRuntime) -> Result<(), AllocError> {
    let file = program(rt.alloc(), &ECHO, "")?;
    check_words(&rt, rt.alloc(), file.as_slice())
}

static RUN_OF_NO_FILE: [Case; 1] = [Case {
    words: "run files 1",
    answer: Some(Status::StoreFault),
    number: 125,
    report: "store-fault\n",
    ..RUN
}];

#[test]
fn missing_file_is_a_fault_of_the_store(rt: HostRuntime) -> Result<(), AllocError> {
    check_all(&rt, rt.alloc(), b"", &RUN_OF_NO_FILE)
}

const ECHO_REPORT: &str = "hart 0 instructions 12\nsteps 12\nexit 0\n";

const RUN_OF_ECHO: Case = Case {
    input: "hello",
    report: ECHO_REPORT,
    output: b"hello",
    rest: "",
    ..RUN
};

const ECHO_FAULT: Case = Case {
    input: "hello",
    report: "read-fault\n",
    number: 126,
    ..RUN
};

// The echo reads its five bytes one by one and then meets the end, and writes them at once. Bytes that the
// source gave before a call of it failed are not given back.
static FAULTS: [Case; 13] = [
    RUN_OF_ECHO,
    Case {
        failing: LOAD_FAILS,
        report: "store-fault\n",
        number: 125,
        output: &[],
        rest: "hello",
        ..RUN_OF_ECHO
    },
    Case {
        failing: Failing {
            read: Some(0),
            ..NONE_FAILS
        },
        rest: "hello",
        ..ECHO_FAULT
    },
    Case {
        failing: Failing {
            read: Some(1),
            ..NONE_FAILS
        },
        rest: "ello",
        ..ECHO_FAULT
    },
    Case {
        failing: Failing {
            read: Some(4),
            ..NONE_FAILS
        },
        rest: "o",
        ..ECHO_FAULT
    },
    Case {
        failing: Failing {
            read: Some(5),
            ..NONE_FAILS
        },
        rest: "",
        ..ECHO_FAULT
    },
    Case {
        failing: Failing {
            read: Some(6),
            ..NONE_FAILS
        },
        ..RUN_OF_ECHO
    },
    Case {
        failing: OUTPUT_FAILS,
        report: "",
        number: 127,
        output: &[],
        ..RUN_OF_ECHO
    },
    // Behind 64 bytes that are read for an output that fails, the others are left.
    Case {
        input: "0123456789012345678901234567890123456789012345678901234567890123behind",
        failing: OUTPUT_FAILS,
        report: "",
        number: 127,
        output: &[],
        rest: "behind",
        ..RUN_OF_ECHO
    },
    Case {
        input: "0123456789012345678901234567890123456789012345678901234567890123behind",
        room: 10,
        report: "",
        number: 127,
        output: b"0123456789",
        rest: "behind",
        ..RUN_OF_ECHO
    },
    Case {
        failing: REPORT_FAILS,
        report: "",
        number: 127,
        ..RUN_OF_ECHO
    },
    // Sinks that are full.
    Case {
        room: 3,
        report: "",
        number: 127,
        output: b"hel",
        ..RUN_OF_ECHO
    },
    Case {
        room: 10,
        report: "hart 0 ins",
        number: 127,
        ..RUN_OF_ECHO
    },
];

#[test]
fn faults_of_the_outside_are_answered(rt: HostRuntime) -> Result<(), AllocError> {
    let file = program(rt.alloc(), &ECHO, "")?;
    check_all(&rt, rt.alloc(), file.as_slice(), &FAULTS)
}

// What a run for so many instructions gives.
#[derive(Clone, Copy)]
struct Fueled {
    fuel: u64,
    status: Status,
    output: &'static str,
    text: &'static str,
}

static FUELED: [Fueled; 6] = [
    Fueled {
        fuel: 0,
        status: Status::Spent,
        output: "",
        text: "spent\n",
    },
    Fueled {
        fuel: 5,
        status: Status::Spent,
        output: "",
        text: "spent\n",
    },
    Fueled {
        fuel: 6,
        status: Status::Spent,
        output: "hello\n",
        text: "spent\n",
    },
    Fueled {
        fuel: 8,
        status: Status::Spent,
        output: "hello\n",
        text: "spent\n",
    },
    Fueled {
        fuel: 9,
        status: Status::Exited(0),
        output: "hello\n",
        text: HELLO_REPORT,
    },
    Fueled {
        fuel: 10,
        status: Status::Exited(0),
        output: "hello\n",
        text: HELLO_REPORT,
    },
];

// The reply to a run of `file`. It is here alone that a test meets the clauses of `run_file`.
fn reply_to(alloc: Global, fuel: u64, at: &mut Outside) -> Reply {
    run_file(
        alloc,
        "file",
        fuel,
        None,
        &mut at.store,
        &mut at.input,
        &mut at.out,
    )
}

fn check_fuel<R: Abort>(
    rt: &R,
    alloc: Global,
    file: &[u8],
    row: &Fueled,
) -> Result<(), AllocError> {
    let mut at = outside_of(alloc, file, &PLAIN_RUN)?;
    let fuel = row.fuel;
    let reply = reply_to(alloc, fuel, &mut at);
    assert!(rt; reply.status == row.status, "fuel {fuel}");
    assert!(rt; reply.text.as_str() == row.text, "text after {fuel}");
    assert!(rt;
        at.out.bytes() == row.output.as_bytes(),
        "output after {fuel}"
    );
    Ok(())
}

fn check_fuels<R: Abort>(rt: &R, alloc: Global, file: &[u8]) -> Result<(), AllocError> {
    for row in &FUELED {
        check_fuel(rt, alloc, file, row)?;
    }
    Ok(())
}

#[test]
fn fuel_ends_a_run(rt: HostRuntime) -> Result<(), AllocError> {
    let file = program(rt.alloc(), &HELLO, "hello\n")?;
    check_fuels(&rt, rt.alloc(), file.as_slice())
}
