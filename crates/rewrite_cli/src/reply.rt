ghost use Rattle.std.specs.Prelude.{◌≡◌, ◌⊎◌, [], true};
ghost use Rattle.rewrite_cli.specs.Counts.{OfNothing, tally_of};
ghost use Rattle.rewrite_cli.specs.Status.{is_from_outside};
ghost use Rattle.rewrite_cli.specs.Texts.{report_of};
ghost use Rattle.rewrite_cli.specs.Reading.{text_of};
ghost use Rattle.rewrite_cli.specs.Outside.{stream};
ghost use Rattle.rewrite_cli.specs.Answer.{IsGiven};

use crate::counts::Counts;
use crate::report::{report_text, write_all};
use crate::status::Status;
use outside_ports::Sink;
use std::alloc::Global;

/// The answer that a command has to give, and the text of its report. Where the answer is from outside
/// the text is empty, and the report is a constant: it wants no memory.
#[derive(Drop)]
pub struct Reply {
    pub status: Status,
    pub text: String,
}

impl Reply {
    /// The reply of an answer from outside.
    pub fn from_outside(alloc: Global, status: Status) -> Reply
        requires { is_from_outside status ≡ true }
        ensures status { result.status ≡ status }
        ensures text { text_of result ≡ report_of OfNothing status }
    {
        Reply {
            status,
            text: String::new(alloc),
        }
    }

    /// The reply of a command that is done and has nothing to report.
    pub fn done(alloc: Global) -> Reply
        ensures status { result.status ≡ Status.Done }
        ensures text { text_of result ≡ [] }
    {
        Reply {
            status: Status::Done,
            text: String::new(alloc),
        }
    }

    // The report.
    fn report(&self) -> &str
        ensures { result.now ≡ text_of self.now }
    {
        match self.status {
            Status::StoreFault => "store-fault\n",
            Status::ReadFault => "read-fault\n",
            Status::WriteFault => "",
            Status::OutOfMemory => "out-of-memory\n",
            _ => self.text.as_str(),
        }
    }

    /// Writes the report, and says what the answer is now: `WriteFault` stands in its place where the
    /// report is not written as a whole.
    pub fn give<P: Sink>(&self, report: &mut P) -> Status
        ensures { IsGiven self.now.status (text_of self.now) (stream (P.written report.old) (P.faults report.old))
            (stream
            (P.written report.new) (P.faults report.new)) result }
    {
        match write_all(report, self.report().as_bytes()) {
            Ok(()) => self.status,
            Err(_) => Status::WriteFault,
        }
    }
}

/// The reply of this answer: `OutOfMemory` stands in its place where there is no memory for the report.
pub fn reply_with(alloc: Global, status: Status, counts: &Counts) -> Reply
    ensures answer { (result.status ≡ status) ⊎ (result.status ≡ Status.OutOfMemory) }
    ensures text { text_of result ≡ report_of (tally_of counts.now) result.status }
{
    match report_text(alloc, &status, counts) {
        Ok(text) => Reply { status, text },
        Err(_) => Reply::from_outside(alloc, Status::OutOfMemory),
    }
}
