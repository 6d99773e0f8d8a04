ghost use Rattle.std.specs.Prelude.{◌≡◌, ◌≤◌, ◌⊎◌, [], ◌∷◌, Some, true, false};
ghost use Rattle.outside_ports.specs.Ports.{Files, Rose, SameButIn};
ghost use Rattle.rewrite_cli.specs.Counts.{tally_of};
ghost use Rattle.rewrite_cli.specs.Status.{is_from_outside};
ghost use Rattle.rewrite_cli.specs.Texts.{report_of};
ghost use Rattle.rewrite_cli.specs.Reading.{text_of};
ghost use Rattle.rewrite_cli.specs.Answer.{AreSaved, StayBut};

use crate::counts::Counts;
use crate::reply::{Reply, reply_with};
use crate::status::Status;
use outside_ports::{SaveErr, Store};
use std::alloc::Global;

/// Saves these bytes under a name, and replies with this answer. The reply is there before the file is
/// saved, so that want of memory does not come after it.
pub fn save_and_reply<S: Store>(
    alloc: Global,
    status: Status,
    counts: &Counts,
    name: &str,
    bytes: &[u8],
    store: &mut S,
) -> Reply
    requires { is_from_outside status ≡ false }
    ensures kind { (result.status ≡ status) ⊎ ((result.status ≡ Status.StoreFault)
        ⊎ (result.status ≡ Status.OutOfMemory)) }
    ensures text { text_of result ≡ report_of (tally_of counts.now) result.status }
    ensures saved { (m : Files) → S.files store.old ≡ Some m → result.status ≡ status
        → AreSaved m (S.files store.new) ((name.now, bytes.now) ∷ []) }
    ensures stays { (m : Files) → S.files store.old ≡ Some m → is_from_outside result.status ≡ true
        → StayBut result.status m (S.files store.new) ((name.now, bytes.now) ∷ []) }
    ensures others { (m : Files) → S.files store.old ≡ Some m → SameButIn m (S.files store.new) name.now }
    ensures store_fault { result.status ≡ Status.StoreFault → Rose (S.faults store.old) (S.faults store.new) }
    ensures failed_save { result.status ≡ Status.StoreFault
        → Rose (S.failed_saves store.old) (S.failed_saves store.new) }
    ensures wanting { result.status ≡ Status.OutOfMemory → S.files store.new ≡ S.files store.old }
    ensures never_falls { S.faults store.old ≤ S.faults store.new }
{
    let ready = reply_with(alloc, status, counts);
    if ready.status == Status::OutOfMemory {
        return ready;
    }
    match store.save(alloc, name, bytes) {
        Ok(()) => ready,
        Err(SaveErr::Failed) => Reply::from_outside(alloc, Status::StoreFault),
        Err(SaveErr::OutOfMemory) => Reply::from_outside(alloc, Status::OutOfMemory),
    }
}
