use super::{
    Case, ECHO, Failing, HELLO, HELLO_REPORT, LOAD_FAILS, NONE_FAILS, OUTPUT_FAILS, REPORT_FAILS,
    RUN, SAVE_FAILS, check_all, check_file, give, outside_of, program,
};
use crate::status::Status;
use outside_ports::MemStore;
use std::alloc::{AllocError, Global};
use std::process::Abort;
use std::thread::Threads;

// Writes the four bytes behind it in two calls, and ends with code 0.
static TWO_WRITES: [u32; 12] = [
    0x0010_0513, // addi a0,x0,1
    0x0001_05b7, // lui a1,0x10
    0x0a85_8593, // addi a1,a1,168
    0x0020_0613, // addi a2,x0,2
    0x0400_0893, // addi a7,x0,64
    0x0000_0073, // ecall
    0x0010_0513, // addi a0,x0,1
    0x0025_8593, // addi a1,a1,2
    0x0000_0073, // ecall
    0x0000_0513, // addi a0,x0,0
    0x05d0_0893, // addi a7,x0,93
    0x0000_0073, // ecall
];

// Stores 171 as the heap's first byte and as the stack's last, and faults.
static ENDS_OF_MEMORY: [u32; 5] = [
    0x0001_1537, // lui a0,0x11, where the heap begins
    0x0ab0_0593, // addi a1,x0,171
    0x00b5_0023, // sb a1,0(a0)
    0x02b1_0fa3, // sb a1,63(sp)
    0x0010_0073, // ebreak
];

// A run of `HELLO` whose memory is saved.
const DUMP: Case = Case {
    words: "run file 1 9 dump",
    report: HELLO_REPORT,
    output: b"hello\n",
    changed: "dump",
    ..RUN
};

// One that is given fuel, and saves nothing.
const FUELED: Case = Case {
    words: "run file 1 9",
    changed: "",
    ..DUMP
};

const NO_DUMP: Case = Case {
    report: "store-fault\n",
    number: 125,
    changed: "",
    ..DUMP
};

static DUMPS_OF_HELLO: [Case; 14] = [
    FUELED,
    Case {
        words: "run file 1 1099511627776",
        ..FUELED
    },
    DUMP,
    Case {
        old: Some("old"),
        ..DUMP
    },
    Case {
        words: "run file 1 8 dump",
        report: "spent\n",
        number: 121,
        ..NO_DUMP
    },
    Case {
        words: "run files 1 9 dump",
        output: &[],
        ..NO_DUMP
    },
    Case {
        failing: LOAD_FAILS,
        output: &[],
        ..NO_DUMP
    },
    Case {
        failing: SAVE_FAILS,
        ..NO_DUMP
    },
    Case {
        failing: SAVE_FAILS,
        old: Some("old"),
        ..NO_DUMP
    },
    Case {
        words: "run file 1 9 file",
        failing: SAVE_FAILS,
        ..NO_DUMP
    },
    Case {
        words: "run file 1 8 dump",
        old: Some("old"),
        report: "spent\n",
        number: 121,
        ..NO_DUMP
    },
    Case {
        failing: OUTPUT_FAILS,
        output: &[],
        report: "",
        number: 127,
        ..NO_DUMP
    },
    Case {
        failing: OUTPUT_FAILS,
        old: Some("old"),
        output: &[],
        report: "",
        number: 127,
        ..NO_DUMP
    },
    Case {
        failing: REPORT_FAILS,
        report: "",
        number: 127,
        ..DUMP
    },
];

static DUMPS_OF_TWO_WRITES: [Case; 3] = [
    Case {
        words: "run file 1 12 dump",
        report: "hart 0 instructions 12\nsteps 12\nexit 0\n",
        output: b"abcd",
        ..DUMP
    },
    Case {
        words: "run file 1 12 dump",
        failing: OUTPUT_FAILS,
        report: "",
        number: 127,
        output: &[],
        ..NO_DUMP
    },
    Case {
        words: "run file 1 12 dump",
        failing: Failing {
            write: Some(1),
            ..NONE_FAILS
        },
        report: "",
        number: 127,
        output: b"ab",
        ..NO_DUMP
    },
];

#[test]
fn dumps_are_saved_at_endings_alone(rt: HostRuntime) -> Result<(), AllocError> {
    let file = program(rt.alloc(), &HELLO, "hello\n")?;
    check_all(&rt, rt.alloc(), file.as_slice(), &DUMPS_OF_HELLO)?;
    let two = program(rt.alloc(), &TWO_WRITES, "abcd")?;
    check_all(&rt, rt.alloc(), two.as_slice(), &DUMPS_OF_TWO_WRITES)
}

// The file under this name has these bytes in these places.
fn check_places<R: Abort>(rt: &R, store: &MemStore, name: &str, bytes: &[(usize, u8)]) {
    for (place, byte) in bytes {
        let found = match store.get(name) {
            Some(file) => file.get(*place).copied(),
            None => None,
        };
        assert!(rt; found == Some(*byte), "at {place}");
    }
}

// The case saves a memory of so many bytes under a name, which begins as the file, with these bytes in these
// places.
fn check_memory<R: Threads + Sync + Abort>(
    rt: &R,
    alloc: Global,
    file: &[u8],
    case: &Case,
    length: usize,
    bytes: &[(usize, u8)],
) -> Result<(), AllocError> {
    let mut at = outside_of(alloc, file, case)?;
    give(rt, alloc, file, case, &mut at)?;
    check_file(rt, &at.store, case.changed, length, file);
    check_places(rt, &at.store, case.changed, bytes);
    Ok(())
}

const DUMP_OF_HELLO: Case = Case {
    answer: Some(Status::Exited(0)),
    ..DUMP
};

static ZEROS: [(usize, u8); 4] = [(162, 0), (167, 0), (168, 0), (25_165_991, 0)];

// 168 bytes of the code's area, 16,777,216 of the heap and 8,388,608 of the stack.
#[test]
fn dump_has_all_areas(rt: HostRuntime) -> Result<(), AllocError> {
    let file = program(rt.alloc(), &HELLO, "hello\n")?;
    check_memory(
        &rt,
        rt.alloc(),
        file.as_slice(),
        &DUMP_OF_HELLO,
        25_165_992,
        &ZEROS,
    )
}

static DUMP_OF_A_FAULT: Case = Case {
    words: "run file 1 99 dump",
    report: "hart 0 instructions 5\nsteps 5\nfault break pc 0x0000000000010088 addr 0x0000000000010088\n",
    number: 120,
    output: &[],
    ..DUMP
};

static BYTES_IN_ORDER: [(usize, u8); 5] = [
    (143, 0),
    (144, 171),
    (145, 0),
    (25_165_966, 0),
    (25_165_967, 171),
];

// 144 bytes of the code's area, and then the heap and the stack.
#[test]
fn dump_of_a_fault_is_in_address_order(rt: HostRuntime) -> Result<(), AllocError> {
    let file = program(rt.alloc(), &ENDS_OF_MEMORY, "")?;
    check_memory(
        &rt,
        rt.alloc(),
        file.as_slice(),
        &DUMP_OF_A_FAULT,
        25_165_968,
        &BYTES_IN_ORDER,
    )
}

const FAILED_READING: Case = Case {
    words: "run file 1 99 dump",
    failing: Failing {
        read: Some(2),
        ..NONE_FAILS
    },
    report: "read-fault\n",
    number: 126,
    output: &[],
    rest: "",
    ..NO_DUMP
};

static RUNS_OF_ECHO: [Case; 3] = [
    FAILED_READING,
    Case {
        old: Some("old"),
        ..FAILED_READING
    },
    Case {
        input: "more",
        rest: "re",
        ..FAILED_READING
    },
];

static RUNS_OF_NO_FILE: [Case; 2] = [
    Case {
        report: "refused not-elf\n",
        number: 124,
        rest: "in",
        ..FAILED_READING
    },
    Case {
        old: Some("old"),
        report: "refused not-elf\n",
        number: 124,
        rest: "in",
        ..FAILED_READING
    },
];

// A reading that fails, and a file that is refused: nothing is saved.
#[test]
fn other_answers_save_no_dump(rt: HostRuntime) -> Result<(), AllocError> {
    let echo = program(rt.alloc(), &ECHO, "")?;
    check_all(&rt, rt.alloc(), echo.as_slice(), &RUNS_OF_ECHO)?;
    check_all(&rt, rt.alloc(), b"no file", &RUNS_OF_NO_FILE)
}

static DUMP_ONTO_THE_FILE: Case = Case {
    words: "run file 1 9 file",
    changed: "file",
    ..DUMP_OF_HELLO
};

// The file is replaced by the memory of its run: it was loaded before.
#[test]
fn dump_may_have_the_name_of_the_file(rt: HostRuntime) -> Result<(), AllocError> {
    let file = program(rt.alloc(), &HELLO, "hello\n")?;
    check_memory(
        &rt,
        rt.alloc(),
        file.as_slice(),
        &DUMP_ONTO_THE_FILE,
        25_165_992,
        &[],
    )
}
