ghost use Rattle.std.specs.Prelude.{◌≡◌, ◌≤◌, ◌⊎◌, Some, true, false, IfOk, IfErr, length};
ghost use Rattle.outside_ports.specs.Ports.{Files, Rose, Lacks, PassesLimit};
ghost use Rattle.rewrite_cli.specs.Status.{is_from_outside, is_refusal};
ghost use Rattle.rewrite_cli.specs.Effect.{status_of_refusal, load_limit};

use crate::refusals::refusal_from;
use crate::status::{Reason, Status};
use outside_ports::{Store, StoreErr};
use rewriter::RewriteErr;
use std::alloc::Global;

/// The longest file that is loaded, in bytes.
const LOAD_LIMIT: u64 = 84_934_656;

/// All bytes of a file, or the answer in their place.
pub fn load<S: Store>(alloc: Global, store: &mut S, file: &str) -> Result<Vec<u8>, Status>
    ensures bytes { IfOk result (λ v. (m : Files) → S.files store.old ≡ Some m → m file.now ≡ Some v.items) }
    ensures within { IfOk result (λ v. length v.items ≤ load_limit) }
    ensures refused { IfErr result (λ e. is_from_outside e ≡ false → (m : Files) → S.files store.old ≡ Some m
        → (e ≡ Status.Refused (Reason.LoadTooLong load_limit)) × PassesLimit (m file.now) load_limit) }
    ensures failed { IfErr result (λ e. e ≡ Status.StoreFault → Rose (S.faults store.old) (S.faults store.new)
        ⊎ Lacks (S.files store.old) file.now) }
    ensures kind { IfErr result (λ e. is_refusal e ≡ true) }
    ensures same { S.files store.new ≡ S.files store.old }
    ensures no_save { S.failed_saves store.new ≡ S.failed_saves store.old }
    ensures never_falls { S.faults store.old ≤ S.faults store.new }
{
    match store.load(alloc, file, LOAD_LIMIT) {
        Ok(bytes) => Ok(bytes),
        Err(StoreErr::Failed) => Err(Status::StoreFault),
        Err(StoreErr::TooLong) => Err(Status::Refused(Reason::LoadTooLong { limit: LOAD_LIMIT })),
        Err(StoreErr::OutOfMemory) => Err(Status::OutOfMemory),
    }
}

/// The answer to a file that is not rewritten.
pub fn refusal(why: RewriteErr) -> Status
    ensures { result ≡ status_of_refusal why }
{
    match why {
        RewriteErr::Elf(e) => refusal_from(e),
        RewriteErr::TooManyWords { count } => Status::Refused(Reason::TooManyWords { count }),
        RewriteErr::TooManyLoops { count } => Status::Refused(Reason::TooManyLoops { count }),
        RewriteErr::CodeTooLong { words } => Status::Refused(Reason::CodeTooLong { words }),
        RewriteErr::OutOfMemory => Status::OutOfMemory,
    }
}
