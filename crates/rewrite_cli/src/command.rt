ghost use Rattle.std.specs.Prelude.{◌≡◌, ◌≤◌, ◌⊎◌, Some, length, map, string_bytes, true, false};
ghost use Rattle.outside_ports.specs.Ports.{Files, Rose};
ghost use Rattle.rewrite_cli.specs.Words.{command_of, HasSize};
ghost use Rattle.rewrite_cli.specs.Reading.{command_shown, text_of};
ghost use Rattle.rewrite_cli.specs.Needs.{needs_of};
ghost use Rattle.rewrite_cli.specs.Status.{comes_first, keeps_files};
ghost use Rattle.rewrite_cli.specs.Effect.{StartsRun};
ghost use Rattle.rewrite_cli.specs.Outside.{outside, stored, stream};
ghost use Rattle.rewrite_cli.specs.Answer.{IsAnswered, IsDone, LeavesAlone};

use crate::counts::Counts;
use crate::listing::list_file;
use crate::making::make_file;
use crate::reply::{Reply, reply_with};
use crate::rewriting::rewrite_file;
use crate::run::run_file;
use crate::status::Status;
use crate::words::{Command, command_from};
use outside_ports::{Gate, Sink, Source, Store};
use std::alloc::Global;
use std::thread::Threads;

// Does what the command says, all but its report.
fn perform<S: Store, I: Source, O: Sink>(
    alloc: Global,
    command: Command,
    store: &mut S,
    input: &mut I,
    out: &mut O,
) -> Reply
    requires { HasSize (command_shown command) }
    ensures done { let before = outside (stored (S.files store.old) (S.faults store.old) (S.failed_saves store.old))
        (stream (I.rest input.old) (I.faults input.old)) (stream (O.written out.old) (O.faults out.old)) in
        let after = outside (stored (S.files store.new) (S.faults store.new) (S.failed_saves store.new))
        (stream (I.rest input.new) (I.faults input.new)) (stream (O.written out.new) (O.faults out.new)) in
        IsDone (command_shown command.entry) before after result.status (text_of result) }
    ensures started { (m : Files) → S.files store.old ≡ Some m → StartsRun (command_shown command.entry) m
        → comes_first result.status ≡ false }
    ensures kept { keeps_files result.status ≡ true → S.files store.new ≡ S.files store.old }
    ensures wanting { result.status ≡ Status.OutOfMemory → S.files store.new ≡ S.files store.old }
    ensures untouched { LeavesAlone (command_shown command.entry)
        (stored (S.files store.old) (S.faults store.old) (S.failed_saves store.old))
        (stored (S.files store.new) (S.faults store.new) (S.failed_saves store.new)) result.status
        store.old store.new input.old input.new out.old out.new }
{
    match command {
        Command::Unknown => reply_with(alloc, Status::Usage, &Counts::Nothing),
        Command::Loops { file } => list_file(alloc, file, store, out),
        Command::Rewrite { file, new } => rewrite_file(alloc, file, new, store),
        Command::Make { kind, size, new } => make_file(alloc, kind, size, new, store),
        Command::Run { file, fuel, dump } => run_file(alloc, file, fuel, dump, store, input, out),
    }
}

/// Does what the words say, writes the guest's output to `out` and the report to `report`, saves what
/// it makes in `store`, and answers how it went. `rt` is lent to running harts, and `gate` is passed by
/// each of them.
pub fn command<R: Threads + Sync, S: Store, I: Source, O: Sink, P: Sink, G: Gate>(
    _rt: &R,
    alloc: Global,
    words: &[String],
    store: &mut S,
    input: &mut I,
    out: &mut O,
    report: &mut P,
    _gate: &G,
) -> Status
    // What is done and said, with the cause of each answer.
    ensures answered { let command = command_of (map string_bytes words.now) in
        let before = outside (stored (S.files store.old) (S.faults store.old) (S.failed_saves store.old))
        (stream (I.rest input.old) (I.faults input.old)) (stream (O.written out.old) (O.faults out.old)) in
        let after = outside (stored (S.files store.new) (S.faults store.new) (S.failed_saves store.new))
        (stream (I.rest input.new) (I.faults input.new)) (stream (O.written out.new) (O.faults out.new)) in
        IsAnswered command before after
        (stream (P.written report.old) (P.faults report.old)) (stream (P.written report.new) (P.faults report.new))
        result }

    // What is not touched of the store, the input and the output.
    ensures untouched { LeavesAlone (command_of (map string_bytes words.now))
        (stored (S.files store.old) (S.faults store.old) (S.failed_saves store.old))
        (stored (S.files store.new) (S.faults store.new) (S.failed_saves store.new)) result
        store.old store.new input.old input.new out.old out.new }

    // Whether a run is refused: not where the store has an image under FILE.
    ensures started { (m : Files) → S.files store.old ≡ Some m → StartsRun (command_of (map string_bytes words.now)) m
        → comes_first result ≡ false }

    // Which answers leave all files as they were, whatever the ports tell: the report may have failed behind
    // a save.
    ensures kept { keeps_files result ≡ true
        → ((result ≡ Status.WriteFault) × Rose (P.faults report.old) (P.faults report.new))
        ⊎ (S.files store.new ≡ S.files store.old) }
    ensures wanting { result ≡ Status.OutOfMemory
        → length (needs_of (command_of (map string_bytes words.now))).saves ≤ 1
        → S.files store.new ≡ S.files store.old }
{
    let command = command_from(words);
    let reply = perform(alloc, command, store, input, out);
    reply.give(report)
}
