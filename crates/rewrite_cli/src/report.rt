ghost use Rattle.std.specs.Prelude.{◌≡◌, ◌<◌, ◌≤◌, ◌++◌, ℕ, List, Some};
ghost use Rattle.std.specs.Prelude.{take, string_bytes, codes, decimal, IfOk, OnOk, OnErr};
ghost use Rattle.outside_ports.specs.Ports.{Rose};
ghost use Rattle.report_text.specs.RunLines.{line};
ghost use Rattle.rewrite_cli.specs.Counts.{tally_of};
ghost use Rattle.rewrite_cli.specs.Texts.{report_of, done_text, run_text};

use crate::counts::Counts;
use crate::refusals::refusal_line;
use crate::status::Status;
use hart_core::Counts as RunCounts;
use outside_ports::{Failed, Sink};
use report_text::run_lines;
use serial_run::End;
use std::alloc::{AllocError, Global};

const USAGE: &str =
    "usage: list FILE | rewrite FILE NEW | run FILE HARTS [FUEL [DUMP]] | replay FILE HARTS ORDER | make KIND N NEW\n";

// What an image adds to its original.
fn image_text(alloc: Global, entries: u32, words: u32) -> Result<String, AllocError>
    ensures { IfOk result (λ s. string_bytes s ≡ line (codes "rewritten entries " ++ (decimal entries ++
        (codes " words " ++ decimal words)))) }
{
    let mut text = format!(in alloc; "rewritten entries {entries}")?;
    let added = format!(in alloc; " words {words}\n")?;
    text.push_str(added.as_str())?;
    Ok(text)
}

// The length of a sample's file.
fn sample_text(alloc: Global, bytes: u64) -> Result<String, AllocError>
    ensures { IfOk result (λ s. string_bytes s ≡ line (codes "made " ++ decimal bytes)) }
{
    format!(in alloc; "made {bytes}\n")
}

// What is said of what a command has made.
fn done_text(alloc: Global, counts: &Counts) -> Result<String, AllocError>
    ensures { IfOk result (λ s. string_bytes s ≡ done_text (tally_of counts.now)) }
{
    match counts {
        Counts::Run(_) => Ok(String::new(alloc)),
        Counts::Image { entries, words } => image_text(alloc, *entries, *words),
        Counts::Sample { bytes } => sample_text(alloc, *bytes),
        Counts::Nothing => Ok(String::new(alloc)),
    }
}

// The report of a run with this ending.
fn run_text(alloc: Global, counts: &Counts, end: End) -> Result<String, AllocError>
    ensures { IfOk result (λ s. string_bytes s ≡ run_text (tally_of counts.now) end) }
{
    if let Counts::Run(counts) = counts {
        return run_lines(alloc, counts, &end);
    }
    let nothing = RunCounts {
        loops: Vec::new(alloc),
        harts: Vec::new(alloc),
        steps: 0,
    };
    run_lines(alloc, &nothing, &end)
}

/// The report of an answer.
pub fn report_text(alloc: Global, status: &Status, counts: &Counts) -> Result<String, AllocError>
    ensures { IfOk result (λ s. string_bytes s ≡ report_of (tally_of counts.now) status.now) }
{
    match *status {
        Status::Done => done_text(alloc, counts),
        Status::Exited(code) => run_text(alloc, counts, End::Exited(code)),
        Status::Faulted { kind, pc, addr } => {
            run_text(alloc, counts, End::Faulted { kind, pc, addr })
        }
        Status::Spent => run_text(alloc, counts, End::Spent),
        Status::Usage => String::from_str(alloc, USAGE),
        Status::Refused(why) => refusal_line(alloc, why),
        Status::StoreFault => String::from_str(alloc, "store-fault\n"),
        Status::ReadFault => run_text(alloc, counts, End::ReadFault),
        Status::WriteFault => run_text(alloc, counts, End::WriteFault),
        Status::OutOfMemory => String::from_str(alloc, "out-of-memory\n"),
    }
}

/// Appends all of these bytes; after a fault a first part of them.
pub fn write_all<P: Sink>(report: &mut P, bytes: &[u8]) -> Result<(), Failed>
    ensures written { OnOk result ((zs : List ℕ) → P.written report.old ≡ Some zs
        → P.written report.new ≡ Some (zs ++ bytes.now)) }
    ensures prefix { OnErr result ((zs : List ℕ) → P.written report.old ≡ Some zs → (k : ℕ)
        × (P.written report.new ≡ Some (zs ++ take k bytes.now))) }
    ensures failed { OnErr result (Rose (P.faults report.old) (P.faults report.new)) }
    ensures never_falls { P.faults report.old ≤ P.faults report.new }
{
    let mut done = 0;
    while done < bytes.len() {
        match report.write(&bytes[done..]) {
            Ok(count) => done += count,
            Err(failed) => return Err(failed),
        }
    }
    Ok(())
}
