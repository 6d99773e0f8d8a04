ghost use Rattle.std.specs.Prelude.{◌≡◌, ◌≢◌, ◌≤◌, ◌<◌, ◌^◌, ◌⊎◌, ℕ, List, Ok, Some, length, string_bytes, true, false, IfOk, IfErr};
ghost use Rattle.std.specs.List.Sorted.{IsStrictlyIncreasing};
ghost use Rattle.outside_ports.specs.Ports.{Files, Rose, Lacks};
ghost use Rattle.elf_image.specs.Layout.{IsLoadable};
ghost use Rattle.elf_image.specs.Reading.{reading_of};
ghost use Rattle.elf_image.specs.declared.image.Elf.{Elf as Shown};
ghost use Rattle.loop_division.specs.LoopVerdicts.{AreVerdicts};
ghost use Rattle.rewrite_cli.specs.Status.{is_from_outside, is_refusal, comes_first};
ghost use Rattle.rewrite_cli.specs.Words.{Loops};
ghost use Rattle.rewrite_cli.specs.Reading.{text_of};
ghost use Rattle.rewrite_cli.specs.Listing.{Listing, TooMany, AreLines, IsListing};
ghost use Rattle.rewrite_cli.specs.Listing.{is_among, lines_of};
ghost use Rattle.rewrite_cli.specs.Effect.{Does, ListsFile, HoldsLines, only, listed};
ghost use Rattle.rewrite_cli.specs.Outside.{Stream, outside, stored, stream};
ghost use Rattle.rewrite_cli.specs.Answer.{IsDone};

use crate::counts::Counts;
use crate::loading::load;
use crate::refusals::refusal_from;
use crate::reply::{Reply, reply_with};
use crate::report::write_all;
use crate::status::{Reason, Status};
use elf_image::{Elf, read_elf};
use flow_recovery::FlowErr;
use loop_choice::{ChooseErr, Judged, choose};
use loop_division::laws::verdicts_are_in_order;
use loop_division::{LoopVerdicts, judge_loops};
use outside_ports::{Sink, Store};
use report_text::loop_line;
use std::alloc::{AllocError, Global};

// Whether a place is one of these.
fn is_among(places: &[u32], place: u32) -> bool
    requires { IsStrictlyIncreasing places.now }
    ensures { result ≡ is_among places.now place }
{
    match places.binary_search(&place) {
        Ok(_) => true,
        Err(_) => false,
    }
}

// A line for each loop.
fn lines_from(alloc: Global, all: &[Judged], chosen: &[u32]) -> Result<String, AllocError>
    requires ordered { IsStrictlyIncreasing chosen.now }
    requires few { length all.now < 2 ^ 32 }
    ensures { IfOk result (λ s. string_bytes s ≡ lines_of chosen.now all.now) }
{
    let mut text = String::new(alloc);
    for place in 0..all.len() {
        let line = loop_line(alloc, &all[place], is_among(chosen, place as u32))?;
        text.push_str(line.as_str())?;
    }
    Ok(text)
}

// The verdicts of the loops of an executable.
fn verdicts_in(alloc: Global, elf: &Elf) -> Result<LoopVerdicts, Status>
    requires { IsLoadable elf.now }
    ensures made { IfOk result (λ v. AreVerdicts elf.now v.graph v.shapes.items v.all.items) }
    ensures refused { IfErr result (λ e. is_from_outside e ≡ false → (count : ℕ)
        × (e ≡ Status.Refused (Reason.TooManyWords count))
        × IsListing elf.now (TooMany count)) }
    ensures kind { IfErr result (λ e. (is_refusal e ≡ true) × (e ≢ Status.StoreFault)) }
{
    match judge_loops(alloc, elf) {
        Ok(verdicts) => Ok(verdicts),
        Err(FlowErr::TooManyWords { count }) => {
            Err(Status::Refused(Reason::TooManyWords { count }))
        }
        Err(FlowErr::OutOfMemory) => Err(Status::OutOfMemory),
    }
}

// The lines of the loops of an executable.
fn lines_in(alloc: Global, elf: &Elf) -> Result<String, Status>
    requires { IsLoadable elf.now }
    ensures made { IfOk result (λ s. AreLines elf.now (string_bytes s)) }
    ensures refused { IfErr result (λ e. is_from_outside e ≡ false → (listing : Listing)
        × IsListing elf.now listing × ((xs : List ℕ) → only e xs ≡ listed listing xs)) }
    ensures kind { IfErr result (λ e. (is_refusal e ≡ true) × (e ≢ Status.StoreFault)) }
{
    verdicts_are_in_order();
    let verdicts = match verdicts_in(alloc, elf) {
        Ok(verdicts) => verdicts,
        Err(status) => return Err(status),
    };
    let all = verdicts.all.as_slice();
    let chosen = match choose(alloc, all) {
        Ok(chosen) => chosen,
        Err(ChooseErr::TooManyLoops { count }) => {
            return Err(Status::Refused(Reason::TooManyLoops { count }));
        }
        Err(ChooseErr::OutOfMemory) => return Err(Status::OutOfMemory),
    };
    match lines_from(alloc, all, chosen.as_slice()) {
        Ok(text) => Ok(text),
        Err(_) => Err(Status::OutOfMemory),
    }
}

// The lines of the loops of the executable in these bytes.
fn lines_of_bytes(alloc: Global, bytes: &[u8]) -> Result<String, Status>
    ensures made { IfOk result (λ s. (elf : Shown) × (reading_of bytes.now ≡ Ok elf) × AreLines elf (string_bytes s)) }
    ensures refused { IfErr result (λ e. is_from_outside e ≡ false → (xs : List ℕ)
        → ListsFile xs bytes.now (only e xs)) }
    ensures kind { IfErr result (λ e. (is_refusal e ≡ true) × (e ≢ Status.StoreFault)) }
{
    let elf = match read_elf(alloc, bytes) {
        Ok(elf) => elf,
        Err(e) => return Err(refusal_from(e)),
    };
    match lines_in(alloc, &elf) {
        Ok(text) => Ok(text),
        Err(status) => Err(status),
    }
}

// The lines of the loops of the executable under a name.
fn load_lines<S: Store>(alloc: Global, store: &mut S, file: &str) -> Result<String, Status>
    ensures made { IfOk result (λ s. (m : Files) → S.files store.old ≡ Some m
        → HoldsLines (m file.now) (string_bytes s)) }
    ensures refused { IfErr result (λ e. is_from_outside e ≡ false → (m : Files) → S.files store.old ≡ Some m
        → (xs : List ℕ)
        → Does (Some (Loops file.now)) m xs (only e xs)) }
    ensures failed { IfErr result (λ e. e ≡ Status.StoreFault → Rose (S.faults store.old) (S.faults store.new)
        ⊎ Lacks (S.files store.old) file.now) }
    ensures kind { IfErr result (λ e. is_refusal e ≡ true) }
    ensures same { S.files store.new ≡ S.files store.old }
    ensures no_save { S.failed_saves store.new ≡ S.failed_saves store.old }
    ensures never_falls { S.faults store.old ≤ S.faults store.new }
{
    let bytes = match load(alloc, store, file) {
        Ok(bytes) => bytes,
        Err(status) => return Err(status),
    };
    match lines_of_bytes(alloc, bytes.as_slice()) {
        Ok(text) => Ok(text),
        Err(status) => Err(status),
    }
}

/// Writes a line for each loop of the executable of a name, by header. All lines are there before the
/// first is written.
pub fn list_file<S: Store, O: Sink>(alloc: Global, file: &str, store: &mut S, out: &mut O) -> Reply
    ensures done { (input : Stream) →
        let output = stream (O.written out.old) (O.faults out.old) in
        let listed = stream (O.written out.new) (O.faults out.new) in
        let before = outside (stored (S.files store.old) (S.faults store.old) (S.failed_saves store.old)) input output in
        let after = outside (stored (S.files store.new) (S.faults store.new) (S.failed_saves store.new)) input listed in
        IsDone (Some (Loops file.now)) before after result.status (text_of result) }
    ensures refused { comes_first result.status ≡ true → out.new ≡ out.old }
    ensures kept { S.files store.new ≡ S.files store.old }
    ensures unsaved { result.status ≡ Status.StoreFault → out.new ≡ out.old }
    ensures unwritten { (m : Files) → S.files store.old ≡ Some m → ((lines : List ℕ) → ¬ HoldsLines (m file.now) lines)
        → out.new ≡ out.old }
{
    match load_lines(alloc, store, file) {
        Ok(text) => match write_all(out, text.as_bytes()) {
            Ok(()) => Reply::done(alloc),
            Err(_) => Reply::from_outside(alloc, Status::WriteFault),
        },
        Err(status) => reply_with(alloc, status, &Counts::Nothing),
    }
}
