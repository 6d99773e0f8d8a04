ghost use Rattle.std.specs.Prelude.{◌≡◌, ◌≢◌, ◌≤◌, ℕ, List, Some, true, false, IfOk, IfErr, length};
ghost use Rattle.sample_maker.specs.Sample.{sample_bytes, limit};
ghost use Rattle.rewrite_cli.specs.Counts.{OfSample, tally_of};
ghost use Rattle.rewrite_cli.specs.Status.{is_from_outside, is_refusal, keeps_files};
ghost use Rattle.rewrite_cli.specs.Words.{Make};
ghost use Rattle.rewrite_cli.specs.Reading.{text_of};
ghost use Rattle.rewrite_cli.specs.Effect.{MakesSample, only};
ghost use Rattle.rewrite_cli.specs.Outside.{Stream, outside, stored};
ghost use Rattle.rewrite_cli.specs.Answer.{IsDone};

use crate::counts::Counts;
use crate::reply::{Reply, reply_with};
use crate::saving::save_and_reply;
use crate::status::{Reason, Status};
use outside_ports::Store;
use sample_maker::{Kind, SampleErr, make_sample};
use std::alloc::Global;

// The sample of a kind and size, or the answer in its place.
fn sample_of(alloc: Global, kind: Kind, size: u64) -> Result<Vec<u8>, Status>
    requires { 1 ≤ size }
    ensures made { IfOk result (λ bytes. (size ≤ limit kind) × (bytes.items ≡ sample_bytes kind size)) }
    ensures refused { IfErr result (λ e. is_from_outside e ≡ false → (new xs : List ℕ)
        → MakesSample kind size new xs (only e xs)) }
    ensures kind { IfErr result (λ e. (is_refusal e ≡ true) × (e ≢ Status.StoreFault)) }
{
    match make_sample(alloc, kind, size) {
        Ok(bytes) => Ok(bytes),
        Err(SampleErr::TooLarge { n }) => Err(Status::Refused(Reason::TooLarge { n })),
        Err(SampleErr::OutOfMemory) => Err(Status::OutOfMemory),
    }
}

// What the report of a sample counts.
fn counts_from(bytes: &[u8]) -> Counts
    ensures { tally_of result ≡ OfSample (length bytes.now) }
{
    Counts::Sample {
        bytes: bytes.len() as u64,
    }
}

/// Makes the sample of a kind and size, and saves it under `new`.
pub fn make_file<S: Store>(alloc: Global, kind: Kind, size: u64, new: &str, store: &mut S) -> Reply
    requires { 1 ≤ size }
    ensures done { (input output : Stream) →
        let before = outside (stored (S.files store.old) (S.faults store.old) (S.failed_saves store.old))
        input output in
        let after = outside (stored (S.files store.new) (S.faults store.new) (S.failed_saves store.new))
        input output in
        IsDone (Some (Make kind size new.now)) before after result.status (text_of result) }
    ensures kept { keeps_files result.status ≡ true → S.files store.new ≡ S.files store.old }
    ensures wanting { result.status ≡ Status.OutOfMemory → S.files store.new ≡ S.files store.old }
{
    match sample_of(alloc, kind, size) {
        Ok(sample) => {
            let bytes = sample.as_slice();
            let counts = counts_from(bytes);
            save_and_reply(alloc, Status::Done, &counts, new, bytes, store)
        }
        Err(status) => reply_with(alloc, status, &Counts::Nothing),
    }
}
