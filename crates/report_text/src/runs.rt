ghost use Rattle.std.specs.Prelude.{◌≡◌, ◌++◌, string_bytes, IfOk};
ghost use Rattle.report_text.specs.RunLines.{entry_line, entry_lines, hart_line, hart_lines, count_lines};
ghost use Rattle.report_text.specs.RunLines.{exit_line, why_text, fault_text, fault_line, run_lines};

use hart_core::{Counts, LoopCount};
use rv64_decode::{Fault, MemFault};
use serial_run::End;
use std::alloc::{AllocError, Global};

// ---- what is counted

// The line of an entry.
fn entry_line(alloc: Global, count: LoopCount) -> Result<String, AllocError>
    ensures { IfOk result (λ s. string_bytes s ≡ entry_line count) }
{
    let LoopCount {
        header,
        arrivals,
        divided,
        turns,
    } = count;
    let mut text = format!(in alloc;
        "loop 0x{header:08x} arrivals {arrivals} divided {divided} turns {turns}"
    )?;
    text.push_str("\n")?;
    Ok(text)
}

// A line for each entry.
fn entry_lines(alloc: Global, loops: &[LoopCount]) -> Result<String, AllocError>
    ensures { IfOk result (λ s. string_bytes s ≡ entry_lines loops.now) }
{
    let mut text = String::new(alloc);
    for count in loops {
        let line = entry_line(alloc, *count)?;
        text.push_str(line.as_str())?;
    }
    Ok(text)
}

// The line of a hart.
fn hart_line(alloc: Global, number: usize, instructions: u64) -> Result<String, AllocError>
    ensures { IfOk result (λ s. string_bytes s ≡ hart_line number instructions) }
{
    let mut text = format!(in alloc; "hart {number} instructions {instructions}")?;
    text.push_str("\n")?;
    Ok(text)
}

// A line for each hart, from number 0 on.
fn hart_lines(alloc: Global, harts: &[u64]) -> Result<String, AllocError>
    ensures { IfOk result (λ s. string_bytes s ≡ hart_lines 0 harts.now) }
{
    let mut text = String::new(alloc);
    for number in 0..harts.len() {
        let line = hart_line(alloc, number, harts[number])?;
        text.push_str(line.as_str())?;
    }
    Ok(text)
}

// All that is counted of a run.
fn count_lines(alloc: Global, counts: &Counts) -> Result<String, AllocError>
    ensures { IfOk result (λ s. string_bytes s
        ≡ count_lines counts.now.loops.items counts.now.harts.items counts.now.steps) }
{
    let mut text = entry_lines(alloc, counts.loops.as_slice())?;
    let harts = hart_lines(alloc, counts.harts.as_slice())?;
    let steps = counts.steps;
    let sum = format!(in alloc; "steps {steps}\n")?;
    text.push_str(harts.as_str())?;
    text.push_str(sum.as_str())?;
    Ok(text)
}

// ---- how it has ended

fn exit_line(alloc: Global, code: u8) -> Result<String, AllocError>
    ensures { IfOk result (λ s. string_bytes s ≡ exit_line code) }
{
    format!(in alloc; "exit {code}\n")
}

// Why an access to memory is refused.
fn why_name(why: MemFault) -> &'static str
    ensures { result.now ≡ why_text why }
{
    match why {
        MemFault::Misaligned => "misaligned",
        MemFault::Unmapped => "unmapped",
        MemFault::Denied => "denied",
    }
}

// The kind of a fault.
fn fault_name(alloc: Global, kind: Fault) -> Result<String, AllocError>
    ensures { IfOk result (λ s. string_bytes s ≡ fault_text kind) }
{
    match kind {
        Fault::Fetch => String::from_str(alloc, "fetch"),
        Fault::Illegal => String::from_str(alloc, "illegal"),
        Fault::Break => String::from_str(alloc, "break"),
        Fault::Target => String::from_str(alloc, "target"),
        Fault::Load(why) => {
            let why = why_name(why);
            format!(in alloc; "load-{why}")
        }
        Fault::Store(why) => {
            let why = why_name(why);
            format!(in alloc; "store-{why}")
        }
    }
}

fn fault_line(alloc: Global, kind: Fault, pc: u64, addr: u64) -> Result<String, AllocError>
    ensures { IfOk result (λ s. string_bytes s ≡ fault_line kind pc addr) }
{
    let kind = fault_name(alloc, kind)?;
    let mut text = format!(in alloc; "fault {kind} pc 0x{pc:016x} addr 0x{addr:016x}")?;
    text.push_str("\n")?;
    Ok(text)
}

// ---- the report

// What is counted of a run, with its last line behind.
fn ended_lines(alloc: Global, counts: &Counts, last: &str) -> Result<String, AllocError>
    ensures { IfOk result (λ s. string_bytes s
        ≡ count_lines counts.now.loops.items counts.now.harts.items counts.now.steps ++ last.now) }
{
    let mut text = count_lines(alloc, counts)?;
    text.push_str(last)?;
    Ok(text)
}

/// The report of a run, each line with its line feed. A run that has come to an ending is told with a line for each
/// entry, in their order, and for each hart, with the instructions of all harts, and with the exit code or the
/// fault; of one that met an end of another kind there is that end's line alone, and none after a fault of the sink.
/// Headers have 8 hexadecimal digits, pc and address of a fault have 16, and all other numbers are decimal.
pub fn run_lines(alloc: Global, counts: &Counts, end: &End) -> Result<String, AllocError>
    ensures { IfOk result (λ s. string_bytes s
        ≡ run_lines counts.now.loops.items counts.now.harts.items counts.now.steps end.now) }
{
    match *end {
        End::Exited(code) => {
            let last = exit_line(alloc, code)?;
            ended_lines(alloc, counts, last.as_str())
        }
        End::Faulted { kind, pc, addr } => {
            let last = fault_line(alloc, kind, pc, addr)?;
            ended_lines(alloc, counts, last.as_str())
        }
        End::Spent => String::from_str(alloc, "spent\n"),
        End::ReadFault => String::from_str(alloc, "read-fault\n"),
        End::WriteFault => Ok(String::new(alloc)),
    }
}
