ghost use Rattle.std.specs.Prelude.{◌≡◌, ◌≢◌, ◌≤◌, ◌⊎◌, ℕ, List, Ok, Some, true, false, IfOk, IfErr};
ghost use Rattle.outside_ports.specs.Ports.{Files, Rose, Lacks};
ghost use Rattle.rewriter.specs.Rewriting.{IsRewriting};
ghost use Rattle.rewrite_cli.specs.Counts.{tally_of};
ghost use Rattle.rewrite_cli.specs.Status.{is_from_outside, is_refusal, keeps_files};
ghost use Rattle.rewrite_cli.specs.Words.{Rewrite};
ghost use Rattle.rewrite_cli.specs.Reading.{text_of};
ghost use Rattle.rewrite_cli.specs.Effect.{Does, RewritesFile, counts_of, image_saved, only};
ghost use Rattle.rewrite_cli.specs.Outside.{Stream, outside, stored};
ghost use Rattle.rewrite_cli.specs.Answer.{IsDone};

use crate::counts::Counts;
use crate::loading::{load, refusal};
use crate::reply::{Reply, reply_with};
use crate::saving::save_and_reply;
use crate::status::Status;
use outside_ports::Store;
use rewriter::{Rewritten, rewrite};
use std::alloc::Global;

// The image of the executable in these bytes.
fn image_of(alloc: Global, bytes: &[u8]) -> Result<Rewritten, Status>
    ensures made { IfOk result (λ made. IsRewriting bytes.now (Ok made)) }
    ensures refused { IfErr result (λ e. is_from_outside e ≡ false → (new xs : List ℕ)
        → RewritesFile new xs bytes.now (only e xs)) }
    ensures kind { IfErr result (λ e. (is_refusal e ≡ true) × (e ≢ Status.StoreFault)) }
{
    match rewrite(alloc, bytes) {
        Ok(made) => Ok(made),
        Err(why) => Err(refusal(why)),
    }
}

// The image of the executable under a name.
fn load_rewritten<S: Store>(alloc: Global, store: &mut S, file: &str) -> Result<Rewritten, Status>
    ensures made { IfOk result (λ made. (m : Files) → S.files store.old ≡ Some m → (new xs : List ℕ)
        → Does (Some (Rewrite file.now new)) m xs (image_saved new xs made)) }
    ensures refused { IfErr result (λ e. is_from_outside e ≡ false → (m : Files) → S.files store.old ≡ Some m
        → (new xs : List ℕ)
        → Does (Some (Rewrite file.now new)) m xs (only e xs)) }
    ensures failed { IfErr result (λ e. e ≡ Status.StoreFault → Rose (S.faults store.old) (S.faults store.new)
        ⊎ Lacks (S.files store.old) file.now) }
    ensures kind { IfErr result (λ e. is_refusal e ≡ true) }
    ensures same { S.files store.new ≡ S.files store.old }
    ensures no_save { S.failed_saves store.new ≡ S.failed_saves store.old }
    ensures never_falls { S.faults store.old ≤ S.faults store.new }
{
    match load(alloc, store, file) {
        Ok(bytes) => match image_of(alloc, bytes.as_slice()) {
            Ok(made) => Ok(made),
            Err(status) => Err(status),
        },
        Err(status) => Err(status),
    }
}

// What the report of an image counts.
fn counts_from(made: &Rewritten) -> Counts
    ensures { tally_of result ≡ counts_of made.now }
{
    Counts::Image {
        entries: made.entries,
        words: made.words,
    }
}

/// Rewrites the executable of a name, and saves its image under `new`.
pub fn rewrite_file<S: Store>(alloc: Global, file: &str, new: &str, store: &mut S) -> Reply
    ensures done { (input output : Stream) →
        let before = outside (stored (S.files store.old) (S.faults store.old) (S.failed_saves store.old)) input output in
        let after = outside (stored (S.files store.new) (S.faults store.new) (S.failed_saves store.new)) input output in
        IsDone (Some (Rewrite file.now new.now)) before after result.status (text_of result) }
    ensures kept { keeps_files result.status ≡ true → S.files store.new ≡ S.files store.old }
    ensures wanting { result.status ≡ Status.OutOfMemory → S.files store.new ≡ S.files store.old }
{
    match load_rewritten(alloc, store, file) {
        Ok(made) => {
            let counts = counts_from(&made);
            let image = made.bytes.as_slice();
            save_and_reply(alloc, Status::Done, &counts, new, image, store)
        }
        Err(status) => reply_with(alloc, status, &Counts::Nothing),
    }
}
