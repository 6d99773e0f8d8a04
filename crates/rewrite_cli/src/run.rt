ghost use Rattle.std.specs.Prelude.{◌≡◌, ◌≢◌, ◌≤◌, ◌⊎◌, ℕ, List, [], Option, Some, Ok, true, false, IfOk, IfErr, IsNone, map};
ghost use Rattle.std.specs.Option.{option_copied};
ghost use Rattle.outside_ports.specs.Ports.{Files, Rose, Lacks};
ghost use Rattle.hart_core.specs.Start.{IsRunnable};
ghost use Rattle.image_writer.specs.declared.image.Image.{Image as Shown};
ghost use Rattle.one_hart.specs.Laws.{IsDivided};
ghost use Rattle.rewriter.specs.Admission.{IsAdmission};
ghost use Rattle.hart_core.specs.Counting.{events_of, steps_of};
ghost use Rattle.rewrite_cli.specs.Counts.{tally_of, OfRun};
ghost use Rattle.rewrite_cli.specs.Status.{is_from_outside, is_refusal, comes_first, keeps_files};
ghost use Rattle.rewrite_cli.specs.Words.{Run};
ghost use Rattle.rewrite_cli.specs.Reading.{text_of};
ghost use Rattle.rewrite_cli.specs.Runs.{HasRun, status_of_end, view_of};
ghost use Rattle.rewrite_cli.specs.Effect.{Does, RunsFile, HoldsImage, only};
ghost use Rattle.rewrite_cli.specs.Outside.{Stream, outside, stored, stream};
ghost use Rattle.rewrite_cli.specs.Answer.{IsDone, HasTally, RunsTo};

use crate::counts::Counts;
use crate::dumping::save_memory;
use crate::loading::{load, refusal};
use crate::reply::{Reply, reply_with};
use crate::status::{Reason, Status};
use guest_memory::Memory;
use hart_core::{Harts, ended_law, growth_law};
use image_writer::Image;
use one_hart::one_hart_runs_the_executable;
use outside_ports::{Sink, Source, Store};
use rewriter::laws::one_admission;
use rewriter::{AdmitErr, admit};
use serial_run::{End, first_ending, output_only_grows, run_counted, start};
use std::alloc::{AllocError, Global};
use walks::{one_hart_counts_the_walk, there_is_one_walk};

// The image that a file with these bytes is.
fn admitted(alloc: Global, bytes: &[u8]) -> Result<Image, Status>
    ensures accepted { IfOk result (λ image. IsAdmission bytes.now (Ok image)) }
    ensures runnable { IfOk result IsRunnable }
    ensures divided { IfOk result IsDivided }
    ensures refused { IfErr result (λ e. is_from_outside e ≡ false → (fuel : ℕ) (dump : Option (List ℕ)) (xs : List ℕ)
        → RunsFile fuel dump xs bytes.now (only e xs)) }
    ensures kind { IfErr result (λ e. (is_refusal e ≡ true) × (e ≢ Status.StoreFault)) }
{
    match admit(alloc, bytes) {
        Ok(image) => Ok(image),
        Err(AdmitErr::BadMark) => Err(Status::Refused(Reason::BadMark)),
        Err(AdmitErr::Original(why)) => Err(refusal(why)),
        Err(AdmitErr::Altered { offset }) => Err(Status::Refused(Reason::Altered { offset })),
        Err(AdmitErr::OutOfMemory) => Err(Status::OutOfMemory),
    }
}

// The image under a name.
fn load_image<S: Store>(alloc: Global, store: &mut S, file: &str) -> Result<Image, Status>
    ensures accepted { IfOk result (λ image. (m : Files) → S.files store.old ≡ Some m → HoldsImage (m file.now) image) }
    ensures runnable { IfOk result IsRunnable }
    ensures divided { IfOk result IsDivided }
    ensures refused { IfErr result (λ e. is_from_outside e ≡ false → (m : Files) → S.files store.old ≡ Some m
        → (fuel : ℕ) (dump : Option (List ℕ)) (xs : List ℕ)
        → Does (Some (Run file.now fuel dump)) m xs (only e xs)) }
    ensures failed { IfErr result (λ e. e ≡ Status.StoreFault → Rose (S.faults store.old) (S.faults store.new)
        ⊎ Lacks (S.files store.old) file.now) }
    ensures kind { IfErr result (λ e. is_refusal e ≡ true) }
    ensures same { S.files store.new ≡ S.files store.old }
    ensures no_save { S.failed_saves store.new ≡ S.failed_saves store.old }
    ensures never_falls { S.faults store.old ≤ S.faults store.new }
{
    match load(alloc, store, file) {
        Ok(bytes) => admitted(alloc, bytes.as_slice()),
        Err(status) => Err(status),
    }
}

fn status_from(end: End) -> Status
    ensures { result ≡ status_of_end end }
{
    match end {
        End::Exited(code) => Status::Exited(code),
        End::Faulted { kind, pc, addr } => Status::Faulted { kind, pc, addr },
        End::Spent => Status::Spent,
        End::ReadFault => Status::ReadFault,
        End::WriteFault => Status::WriteFault,
    }
}

// The reply of a run that has come to this ending, with this memory and these counts: the memory is saved first where a
// name is given.
fn reply_of_run<S: Store>(
    alloc: Global,
    end: End,
    counts: Result<Counts, AllocError>,
    dump: Option<&str>,
    memory: &Memory,
    store: &mut S,
) -> Reply
    ensures done { (image : Shown) (fuel : ℕ) (input read output written : Stream)
        → HasRun fuel (view_of image) input read output written end memory.now
        → IfOk counts (λ counts. HasTally fuel (view_of image) input end (tally_of counts))
        → let before = outside (stored (S.files store.old) (S.faults store.old) (S.failed_saves store.old)) input output in
        let after = outside (stored (S.files store.new) (S.faults store.new) (S.failed_saves store.new)) read written in
        RunsTo image fuel (option_copied dump.entry) before after result.status (text_of result) }
    ensures kept { keeps_files result.status ≡ true → S.files store.new ≡ S.files store.old }
    ensures wanting { result.status ≡ Status.OutOfMemory → S.files store.new ≡ S.files store.old }
    ensures unsaved { IsNone dump.entry → result.status ≢ Status.StoreFault }
{
    let end = match end {
        End::ReadFault => return Reply::from_outside(alloc, Status::ReadFault),
        End::WriteFault => return Reply::from_outside(alloc, Status::WriteFault),
        end => end,
    };
    match counts {
        Ok(counts) => save_memory(alloc, status_from(end), &counts, dump, memory, store),
        Err(_) => Reply::from_outside(alloc, Status::OutOfMemory),
    }
}

// Runs an image without entries, as its executable, and saves its memory where that is asked for.
fn run_plain<S: Store, I: Source, O: Sink>(
    alloc: Global,
    image: &Image,
    fuel: u64,
    dump: Option<&str>,
    store: &mut S,
    input: &mut I,
    out: &mut O,
) -> Reply
    requires runnable { IsRunnable image.now }
    requires plain { image.now.entries ≡ [] }
    ensures done { let before = outside (stored (S.files store.old) (S.faults store.old) (S.failed_saves store.old))
        (stream (I.rest input.old) (I.faults input.old)) (stream (O.written out.old) (O.faults out.old)) in
        let after = outside (stored (S.files store.new) (S.faults store.new) (S.failed_saves store.new))
        (stream (I.rest input.new) (I.faults input.new)) (stream (O.written out.new) (O.faults out.new)) in
        RunsTo image.now fuel (option_copied dump.entry) before after result.status (text_of result) }
    ensures kept { keeps_files result.status ≡ true → S.files store.new ≡ S.files store.old }
    ensures wanting { result.status ≡ Status.OutOfMemory → S.files store.new ≡ S.files store.old }
    ensures unsaved { IsNone dump.entry → result.status ≢ Status.StoreFault }
{
    output_only_grows();
    let Ok(mut machine) = start(alloc, &image.elf) else {
        return Reply::from_outside(alloc, Status::OutOfMemory);
    };
    let ran = run_counted(&mut machine, fuel, input, out);
    let counts = Counts::of_steps(alloc, ran.steps);
    reply_of_run(alloc, ran.end, counts, dump, &machine.memory, store)
}

// What is counted of a run of an image.
fn counts_in(alloc: Global, harts: &Harts) -> Result<Counts, AllocError>
    ensures { IfOk result (λ counts. tally_of counts
        ≡ OfRun harts.now.loops (map events_of harts.now.harts) (steps_of harts.now.harts)) }
{
    let counts = harts.counts(alloc)?;
    Ok(Counts::Run(counts))
}

// Runs an image with entries on one hart, and saves its memory where that is asked for.
fn run_divided<S: Store, I: Source, O: Sink>(
    alloc: Global,
    image: Image,
    fuel: u64,
    dump: Option<&str>,
    store: &mut S,
    input: &mut I,
    out: &mut O,
) -> Reply
    requires runnable { IsRunnable image }
    requires divided { image.entries ≢ [] }
    ensures done { let before = outside (stored (S.files store.old) (S.faults store.old) (S.failed_saves store.old))
        (stream (I.rest input.old) (I.faults input.old)) (stream (O.written out.old) (O.faults out.old)) in
        let after = outside (stored (S.files store.new) (S.faults store.new) (S.failed_saves store.new))
        (stream (I.rest input.new) (I.faults input.new)) (stream (O.written out.new) (O.faults out.new)) in
        RunsTo image fuel (option_copied dump.entry) before after result.status (text_of result) }
    ensures kept { keeps_files result.status ≡ true → S.files store.new ≡ S.files store.old }
    ensures wanting { result.status ≡ Status.OutOfMemory → S.files store.new ≡ S.files store.old }
    ensures unsaved { IsNone dump.entry → result.status ≢ Status.StoreFault }
{
    growth_law();
    let Ok(mut harts) = Harts::start(alloc, image, 1) else {
        return Reply::from_outside(alloc, Status::OutOfMemory);
    };
    let end = harts.run_first(fuel, input, out);
    let counts = counts_in(alloc, &harts);
    reply_of_run(alloc, end, counts, dump, harts.memory(), store)
}

/// Runs the image or the executable of a name on one hart for at most `fuel` instructions, and saves the memory at
/// its ending where a name for it, `dump`, is given.
pub fn run_file<S: Store, I: Source, O: Sink>(
    alloc: Global,
    file: &str,
    fuel: u64,
    dump: Option<&str>,
    store: &mut S,
    input: &mut I,
    out: &mut O,
) -> Reply
    ensures done { let before = outside (stored (S.files store.old) (S.faults store.old) (S.failed_saves store.old))
        (stream (I.rest input.old) (I.faults input.old)) (stream (O.written out.old) (O.faults out.old)) in
        let after = outside (stored (S.files store.new) (S.faults store.new) (S.failed_saves store.new))
        (stream (I.rest input.new) (I.faults input.new)) (stream (O.written out.new) (O.faults out.new)) in
        IsDone (Some (Run file.now fuel (option_copied dump.entry))) before after result.status (text_of result) }
    ensures refused { comes_first result.status ≡ true → (input.new ≡ input.old) × (out.new ≡ out.old) }
    ensures kept { keeps_files result.status ≡ true → S.files store.new ≡ S.files store.old }
    ensures wanting { result.status ≡ Status.OutOfMemory → S.files store.new ≡ S.files store.old }
    ensures unloaded { result.status ≡ Status.StoreFault
        → Rose (S.failed_saves store.old) (S.failed_saves store.new)
        ⊎ ((input.new ≡ input.old) × (out.new ≡ out.old)) }
    ensures unsaved { IsNone dump.entry → result.status ≡ Status.StoreFault
        → (input.new ≡ input.old) × (out.new ≡ out.old) }
    ensures started { (m : Files) (image : Shown) → S.files store.old ≡ Some m → HoldsImage (m file.now) image
        → comes_first result.status ≡ false }
    ensures not_started { (m : Files) → S.files store.old ≡ Some m → ((image : Shown) → ¬ HoldsImage (m file.now) image)
        → (input.new ≡ input.old) × (out.new ≡ out.old) }
{
    one_admission();
    first_ending();
    ended_law();
    one_hart_runs_the_executable();
    there_is_one_walk();
    one_hart_counts_the_walk();
    match load_image(alloc, store, file) {
        Ok(image) => {
            if image.entries.as_slice().is_empty() {
                run_plain(alloc, &image, fuel, dump, store, input, out)
            } else {
                run_divided(alloc, image, fuel, dump, store, input, out)
            }
        }
        Err(status) => reply_with(alloc, status, &Counts::Nothing),
    }
}
