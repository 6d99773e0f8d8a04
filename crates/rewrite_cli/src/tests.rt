use crate::command::command;
use crate::status::Status;
use outside_ports::{MemSink, MemSource, MemStore, NoGate};
use std::alloc::{AllocError, Global};
use std::process::Abort;
use std::thread::Threads;

mod answers;
mod dumps;
mod files;
mod images;
mod lists;
mod runs;
mod samples;

// Writes the six bytes behind it and ends with code 0.
static HELLO: [u32; 9] = [
    0x0010_0513, // addi a0,x0,1
    0x0001_05b7, // lui a1,0x10
    0x09c5_8593, // addi a1,a1,156
    0x0060_0613, // addi a2,x0,6
    0x0400_0893, // addi a7,x0,64
    0x0000_0073, // ecall
    0x0000_0513, // addi a0,x0,0
    0x05d0_0893, // addi a7,x0,93
    0x0000_0073, // ecall
];

const HELLO_REPORT: &str = "hart 0 instructions 9\nsteps 9\nexit 0\n";

// Ends with code 0.
static EXIT: [u32; 2] = [
    0x05d0_0893, // addi a7,x0,93
    0x0000_0073, // ecall
];

// Reads up to 64 bytes, writes those that it got, and ends with code 0.
static ECHO: [u32; 12] = [
    0x0000_0513, // addi a0,x0,0
    0xfc01_0593, // addi a1,sp,-64
    0x0400_0613, // addi a2,x0,64
    0x03f0_0893, // addi a7,x0,63
    0x0000_0073, // ecall
    0x0005_0613, // addi a2,a0,0
    0x0010_0513, // addi a0,x0,1
    0x0400_0893, // addi a7,x0,64
    0x0000_0073, // ecall
    0x0000_0513, // addi a0,x0,0
    0x05d0_0893, // addi a7,x0,93
    0x0000_0073, // ecall
];

// The words in order, each with its lowest byte first.
fn bytes_of(alloc: Global, words: &[u32]) -> Result<Vec<u8>, AllocError> {
    let mut bytes = Vec::new(alloc);
    for word in words {
        bytes.extend_from_slice(&word.to_le_bytes())?;
    }
    Ok(bytes)
}

// The flags of a segment that is read and executed, and of one that is executed alone.
const READABLE_CODE: u32 = 5;

const UNREADABLE_CODE: u32 = 1;

// An executable whose one segment is the whole file, at 0x10000 and not writable. This code stands at
// its entry 0x10078, and this text behind it.
fn program(alloc: Global, code: &[u32], text: &str) -> Result<Vec<u8>, AllocError> {
    program_of(alloc, READABLE_CODE, code, text)
}

// The same with these flags of the segment.
fn program_of(alloc: Global, flags: u32, code: &[u32], text: &str) -> Result<Vec<u8>, AllocError> {
    let mut tail = bytes_of(alloc, code)?;
    tail.extend_from_slice(text.as_bytes())?;
    let size = u32::try_from(tail.len()).unwrap_or(0).wrapping_add(120);
    let header: [u32; 30] = [
        0x464c_457f,
        0x0001_0102,
        0,
        0,
        0x00f3_0002,
        1,
        0x0001_0078,
        0, // magic to entry
        64,
        0,
        0,
        0,
        0,
        0x0038_0040,
        1,
        0, // the headers' place, their size and number
        1,
        flags,
        0,
        0,
        0x0001_0000,
        0,
        0x0001_0000,
        0, // type, flags, offset and addresses
        size,
        0,
        size,
        0,
        4096,
        0, // sizes and alignment
    ];
    let mut bytes = bytes_of(alloc, header.as_slice())?;
    bytes.extend_from_slice(tail.as_slice())?;
    Ok(bytes)
}

// Which call of each port fails, by its number from 0: a load and a save are calls of the store.
#[derive(Clone, Copy)]
struct Failing {
    store: Option<u64>,
    read: Option<u64>,
    write: Option<u64>,
    report: Option<u64>,
}

const NONE_FAILS: Failing = Failing {
    store: None,
    read: None,
    write: None,
    report: None,
};

const LOAD_FAILS: Failing = Failing {
    store: Some(0),
    ..NONE_FAILS
};

const SAVE_FAILS: Failing = Failing {
    store: Some(1),
    ..NONE_FAILS
};

const OUTPUT_FAILS: Failing = Failing {
    write: Some(0),
    ..NONE_FAILS
};

const REPORT_FAILS: Failing = Failing {
    report: Some(0),
    ..NONE_FAILS
};

// A command, what it is given from outside beside the bytes of `file`, and what it has to do.
#[derive(Clone, Copy)]
struct Case {
    // parted by one blank each
    words: &'static str,
    input: &'static str,
    // what stands under `new` and under `dump` before, where there are such files
    old: Option<&'static str>,
    failing: Failing,
    // how many bytes the output takes, and the report
    room: usize,
    answer: Option<Status>,
    number: u8,
    report: &'static str,
    output: &'static [u8],
    // the bytes of the input that are left
    rest: &'static str,
    // the name whose file is not as it was: `file`, `new` or `dump`
    changed: &'static str,
}

// A run that ends with code 0, and neither reads nor writes.
const RUN: Case = Case {
    words: "run file 1",
    input: "in",
    old: None,
    failing: NONE_FAILS,
    room: 200,
    answer: None,
    number: 0,
    report: "",
    output: &[],
    rest: "in",
    changed: "",
};

static PLAIN_RUN: Case = Case {
    words: "run file 1",
    ..RUN
};

// A store with `file`, an input that gives a byte in each call, and two sinks.
#[derive(Drop)]
struct Outside {
    store: MemStore,
    input: MemSource,
    out: MemSink,
    report: MemSink,
}

fn list_of(alloc: Global, number: Option<u64>) -> Result<Vec<u64>, AllocError> {
    let mut list = Vec::new(alloc);
    if let Some(number) = number {
        list.push(number)?;
    }
    Ok(list)
}

fn store_of(alloc: Global, file: &[u8], case: &Case) -> Result<MemStore, AllocError> {
    let mut store = MemStore::new(alloc, list_of(alloc, case.failing.store)?);
    store.put("file", file)?;
    if let Some(old) = case.old {
        store.put("new", old.as_bytes())?;
        store.put("dump", old.as_bytes())?;
    }
    Ok(store)
}

fn source_of(alloc: Global, case: &Case) -> Result<MemSource, AllocError> {
    let input = Vec::from_slice(alloc, case.input.as_bytes())?;
    let fails = list_of(alloc, case.failing.read)?;
    Ok(MemSource::new(input, 1, fails))
}

fn sink_of(alloc: Global, room: usize, fails: Option<u64>) -> Result<MemSink, AllocError> {
    let fails = list_of(alloc, fails)?;
    MemSink::new(alloc, room, fails)
}

fn outside_of(alloc: Global, file: &[u8], case: &Case) -> Result<Outside, AllocError> {
    let store = store_of(alloc, file, case)?;
    let input = source_of(alloc, case)?;
    let out = sink_of(alloc, case.room, case.failing.write)?;
    let report = sink_of(alloc, case.room, case.failing.report)?;
    Ok(Outside {
        store,
        input,
        out,
        report,
    })
}

fn words_of(alloc: Global, words: &str) -> Result<Vec<String>, AllocError> {
    let mut list = Vec::new(alloc);
    if !words.is_empty() {
        for word in words.split(' ') {
            list.push(String::from_str(alloc, word)?)?;
        }
    }
    Ok(list)
}

// The answer to these words. It is here alone that a test meets the clauses of `command`.
fn answer_to<R: Threads + Sync>(
    rt: &R,
    alloc: Global,
    words: &[String],
    outside: &mut Outside,
) -> Status {
    command(
        rt,
        alloc,
        words,
        &mut outside.store,
        &mut outside.input,
        &mut outside.out,
        &mut outside.report,
        &NoGate,
    )
}

// What stands under this name is what stood there at the start, but for the name of which the case says
// that it is changed.
fn check_kept<R: Abort>(rt: &R, store: &MemStore, name: &str, old: Option<&[u8]>, case: &Case) {
    let is_kept = store.get(name) == old;
    assert!(rt;
        is_kept == (name != case.changed),
        "{name}, by {}",
        case.words
    );
}

fn check_files<R: Abort>(rt: &R, store: &MemStore, file: &[u8], case: &Case) {
    let old = match case.old {
        Some(old) => Some(old.as_bytes()),
        None => None,
    };
    check_kept(rt, store, "file", Some(file), case);
    check_kept(rt, store, "new", old, case);
    check_kept(rt, store, "dump", old, case);
    check_kept(rt, store, "other", None, case);
}

fn check_bytes<R: Abort>(rt: &R, found: &[u8], wanted: &[u8], what: &str, words: &str) {
    assert!(rt; found == wanted, "{what} of {words}");
}

// Gives the command, and looks at all that it has done. `file` had these bytes at the start.
fn give<R: Threads + Sync + Abort>(
    rt: &R,
    alloc: Global,
    file: &[u8],
    case: &Case,
    at: &mut Outside,
) -> Result<(), AllocError> {
    let list = words_of(alloc, case.words)?;
    let status = answer_to(rt, alloc, list.as_slice(), at);
    let words = case.words;
    if let Some(answer) = case.answer {
        assert!(rt; status == answer, "answer to {words}");
    }
    assert!(rt; status.exit_number() == case.number, "number of {words}");
    check_bytes(
        rt,
        at.report.bytes(),
        case.report.as_bytes(),
        "report",
        words,
    );
    check_bytes(rt, at.out.bytes(), case.output, "output", words);
    check_bytes(rt, at.input.rest(), case.rest.as_bytes(), "input", words);
    check_files(rt, &at.store, file, case);
    Ok(())
}

// Gives commands in turn, to the store, the input and the sinks that the first case is given.
fn give_in_turn<R: Threads + Sync + Abort>(
    rt: &R,
    alloc: Global,
    file: &[u8],
    cases: &[Case],
) -> Result<Outside, AllocError> {
    let first = cases.first().unwrap_or(&PLAIN_RUN);
    let mut at = outside_of(alloc, file, first)?;
    for case in cases {
        give(rt, alloc, file, case, &mut at)?;
    }
    Ok(at)
}

// The case over `file` with these bytes.
fn check<R: Threads + Sync + Abort>(
    rt: &R,
    alloc: Global,
    file: &[u8],
    case: &Case,
) -> Result<(), AllocError> {
    let mut at = outside_of(alloc, file, case)?;
    give(rt, alloc, file, case, &mut at)
}

fn check_all<R: Threads + Sync + Abort>(
    rt: &R,
    alloc: Global,
    file: &[u8],
    cases: &[Case],
) -> Result<(), AllocError> {
    for case in cases {
        check(rt, alloc, file, case)?;
    }
    Ok(())
}

fn check_length<R: Abort>(rt: &R, bytes: &[u8], length: usize) {
    assert!(rt; bytes.len() == length);
}

// A file of so many bytes stands under this name, of which the first are these.
fn check_file<R: Abort>(rt: &R, store: &MemStore, name: &str, length: usize, first: &[u8]) {
    let Some(bytes) = store.get(name) else {
        assert!(rt; false, "nothing is saved as {name}");
        return;
    };
    assert!(rt; bytes.len() == length, "length of {name}");
    assert!(rt; bytes.starts_with(first), "beginning of {name}");
}
