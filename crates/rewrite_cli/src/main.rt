//! Lists, runs and rewrites static RV64IM executables, and makes samples of them.
#![tactic(auto)]

mod command;
mod counts;
mod dumping;
pub mod laws;
mod listing;
mod loading;
mod making;
mod refusals;
mod reply;
mod report;
mod rewriting;
mod run;
mod saving;
mod status;
#[cfg(test)]
mod tests;
mod words;

pub use command::command;
use outside_ports::{ErrSink, FileStore, NoGate, StdSink, StdSource};
pub use status::{Reason, Status};
use std::process::ExitCode;
use std::rt::Env;
use std::{env, io};

/// The exit status where the runtime does not hand over the words.
const NO_WORDS: u8 = 129;

// The words after the program's name.
fn words_of<R: Env + AllocGlobal>(rt: &R) -> io::Result<Vec<String>> {
    let mut words = Vec::new(rt.alloc());
    for word in env::args(rt)?.skip(1) {
        words.push(word)?;
    }
    Ok(words)
}

fn main(rt: HostRuntime) -> ExitCode {
    let Ok(words) = words_of(&rt) else {
        return ExitCode::from(NO_WORDS);
    };
    let status = command(
        &rt,
        rt.alloc(),
        words.as_slice(),
        &mut FileStore::new(&rt),
        &mut StdSource::new(rt.stdin()),
        &mut StdSink::new(rt.stdout()),
        &mut ErrSink::new(rt.stderr()),
        &NoGate,
    );
    ExitCode::from(status.exit_number())
}
