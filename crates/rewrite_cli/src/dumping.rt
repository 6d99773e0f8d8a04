ghost use Rattle.std.specs.Prelude.{◌≡◌, ◌≢◌, ◌≤◌, ◌⊎◌, Some, IfOk, IsSome, IsNone, true, false};
ghost use Rattle.std.specs.Option.{option_copied};
ghost use Rattle.outside_ports.specs.Ports.{Files, Rose};
ghost use Rattle.rewrite_cli.specs.Counts.{tally_of};
ghost use Rattle.rewrite_cli.specs.Status.{is_from_outside, is_ending, keeps_files};
ghost use Rattle.rewrite_cli.specs.Texts.{report_of};
ghost use Rattle.rewrite_cli.specs.Needs.{SameBut, names_of};
ghost use Rattle.rewrite_cli.specs.Runs.{dump_of};
ghost use Rattle.rewrite_cli.specs.Reading.{dump_shown, text_of};
ghost use Rattle.rewrite_cli.specs.Answer.{AreSaved, StayBut};

use crate::counts::Counts;
use crate::reply::{Reply, reply_with};
use crate::saving::save_and_reply;
use crate::status::Status;
use guest_memory::Memory;
use outside_ports::Store;
use std::alloc::{AllocError, Global};

/// The memory after a run, to be saved under a name.
#[derive(Drop)]
pub struct Dump<'a> {
    pub name: &'a str,
    /// The bytes of all areas, in address order.
    pub bytes: Vec<u8>,
}

// What is saved of the memory after a run: all of it, where a name is given and the run has come to an
// ending.
fn dump_under<'a>(
    alloc: Global,
    name: Option<&'a str>,
    status: &Status,
    memory: &Memory,
) -> Result<Option<Dump<'a>>, AllocError>
    ensures value { IfOk result (λ dump. dump_shown dump ≡ dump_of (option_copied name.entry) status.now memory.now) }
    ensures ending { IfOk result (λ dump. IsSome dump → is_ending status.now ≡ true) }
    ensures named { IfOk result (λ dump. IsSome dump → IsSome name.entry) }
{
    let Some(name) = name else {
        return Ok(None);
    };
    match *status {
        Status::Exited(_) | Status::Faulted { .. } => {
            let bytes = memory.dump(alloc)?;
            Ok(Some(Dump { name, bytes }))
        }
        _ => Ok(None),
    }
}

/// The reply of a run that has given this answer, with these counts. Its memory is saved first
/// where a name is given and the run has come to an ending.
pub fn save_memory<S: Store>(
    alloc: Global,
    status: Status,
    counts: &Counts,
    name: Option<&str>,
    memory: &Memory,
    store: &mut S,
) -> Reply
    requires { is_from_outside status ≡ false }
    ensures kind { (result.status ≡ status) ⊎ ((result.status ≡ Status.StoreFault)
        ⊎ (result.status ≡ Status.OutOfMemory)) }
    ensures text { text_of result ≡ report_of (tally_of counts.now) result.status }
    ensures saved { (m : Files) → S.files store.old ≡ Some m → result.status ≡ status
        → AreSaved m (S.files store.new) (dump_of (option_copied name.entry) status memory.now) }
    ensures stays { (m : Files) → S.files store.old ≡ Some m → is_from_outside result.status ≡ true
        → StayBut result.status m (S.files store.new) (dump_of (option_copied name.entry) status memory.now) }
    ensures others { (m : Files) → S.files store.old ≡ Some m
        → SameBut m (S.files store.new) (names_of (option_copied name.entry)) }
    ensures store_fault { result.status ≡ Status.StoreFault → Rose (S.faults store.old) (S.faults store.new) }
    ensures failed_save { result.status ≡ Status.StoreFault
        → Rose (S.failed_saves store.old) (S.failed_saves store.new) }
    ensures kept { keeps_files result.status ≡ true → S.files store.new ≡ S.files store.old }
    ensures wanting { result.status ≡ Status.OutOfMemory → S.files store.new ≡ S.files store.old }
    ensures unsaved { IsNone name.entry → result.status ≢ Status.StoreFault }
    ensures never_falls { S.faults store.old ≤ S.faults store.new }
{
    let Ok(dump) = dump_under(alloc, name, &status, memory) else {
        return Reply::from_outside(alloc, Status::OutOfMemory);
    };
    match &dump {
        Some(dump) => {
            let bytes = dump.bytes.as_slice();
            save_and_reply(alloc, status, counts, dump.name, bytes, store)
        }
        None => reply_with(alloc, status, counts),
    }
}
