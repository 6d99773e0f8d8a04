ghost use Rattle.std.specs.Prelude.{◌≡◌, ◌<◌, ◌≤◌, ℕ, None, IfOk, OnOk, OnErr, length};
ghost use Rattle.std.specs.Result.{result_ok};
ghost use Rattle.outside_ports.specs.Fakes.{next_number};
ghost use Rattle.outside_ports.specs.Ports.{Rose};

use crate::ports::{Failed, Gate, Sink, Source};
use std::io::{Error, ErrorKind, Read, Result as IoResult, Write};
use std::marker::Model;

/// A source over a reader, such as standard input. It is seen as its count of faults.
#[derive(Drop)]
pub struct StdSource<T> {
    inner: T,
    faults: u64,
}

impl<T> Model for StdSource<T> {
    ghost use Rattle.std.specs.Prelude.{ℕ};

    ghost Value = { ℕ };

    ghost view = { λ s. s.faults };
}

impl<T: Read> StdSource<T> {
    /// A source over this reader that has met no fault.
    pub fn new(inner: T) -> StdSource<T>
        ensures { result ≡ 0 }
    {
        StdSource { inner, faults: 0 }
    }
}

impl<T: Read> Source for StdSource<T> {
    ghost rest = { λ _. None };

    ghost faults = { λ s. s };

    /// One read of the reader, tried again where a signal interrupts it. Each other error is a
    /// fault.
    fn read(&mut self, buf: &mut [u8]) -> Result<usize, Failed>
        ensures ok { OnOk result (self.new ≡ self.old) }
        ensures err { OnErr result (self.new ≡ next_number self.old) }

        ensures count { IfOk result (λ k. k ≤ length buf.new) }
        ensures failed { OnErr result (Rose self.old self.new) }
        ensures never_falls { self.old ≤ self.new }
    {
        let outcome = read_once(&mut self.inner, buf);
        counted(outcome, &mut self.faults)
    }
}

/// A sink over a writer, such as standard output. It is seen as its count of faults.
#[derive(Drop)]
pub struct StdSink<T> {
    inner: T,
    faults: u64,
}

impl<T> Model for StdSink<T> {
    ghost use Rattle.std.specs.Prelude.{ℕ};

    ghost Value = { ℕ };

    ghost view = { λ s. s.faults };
}

impl<T: Write> StdSink<T> {
    /// A sink over this writer that has met no fault.
    pub fn new(inner: T) -> StdSink<T>
        ensures { result ≡ 0 }
    {
        StdSink { inner, faults: 0 }
    }
}

impl<T: Write> Sink for StdSink<T> {
    ghost written = { λ _. None };

    ghost faults = { λ s. s };

    /// One write, flushed at once, so that no byte that is said to be written waits in a buffer.
    /// It is tried again where a signal interrupts it. Each other error, and a writer that takes
    /// nothing of a piece that has bytes, is a fault.
    fn write(&mut self, piece: &[u8]) -> Result<usize, Failed>
        ensures ok { OnOk result (self.new ≡ self.old) }
        ensures err { OnErr result (self.new ≡ next_number self.old) }

        ensures count { IfOk result (λ k. k ≤ length piece.now) }
        ensures progress { IfOk result (λ k. 0 < length piece.now → 0 < k) }
        ensures failed { OnErr result (Rose self.old self.new) }
        ensures never_falls { self.old ≤ self.new }
    {
        let outcome = write_through(&mut self.inner, piece);
        counted(outcome, &mut self.faults)
    }
}

/// A sink over a writer of messages, such as standard error. It is seen as its count of faults.
#[derive(Drop)]
pub struct ErrSink<T> {
    inner: T,
    faults: u64,
}

impl<T> Model for ErrSink<T> {
    ghost use Rattle.std.specs.Prelude.{ℕ};

    ghost Value = { ℕ };

    ghost view = { λ s. s.faults };
}

impl<T: Write> ErrSink<T> {
    /// A sink over this writer that has met no fault.
    pub fn new(inner: T) -> ErrSink<T>
        ensures { result ≡ 0 }
    {
        ErrSink { inner, faults: 0 }
    }
}

impl<T: Write> Sink for ErrSink<T> {
    ghost written = { λ _. None };

    ghost faults = { λ s. s };

    /// Writes as a `StdSink` does.
    fn write(&mut self, piece: &[u8]) -> Result<usize, Failed>
        ensures ok { OnOk result (self.new ≡ self.old) }
        ensures err { OnErr result (self.new ≡ next_number self.old) }

        ensures count { IfOk result (λ k. k ≤ length piece.now) }
        ensures progress { IfOk result (λ k. 0 < length piece.now → 0 < k) }
        ensures failed { OnErr result (Rose self.old self.new) }
        ensures never_falls { self.old ≤ self.new }
    {
        let outcome = write_through(&mut self.inner, piece);
        counted(outcome, &mut self.faults)
    }
}

/// The gate that stops no hart.
#[derive(Clone, Copy, Debug, PartialEq, Eq)]
pub struct NoGate;

impl Gate for NoGate {
    /// Does nothing.
    fn enter(&self, _hart: u32) {}
}

// The same answer, where each error is a fault that is counted.
fn counted(outcome: IoResult<usize>, faults: &mut u64) -> Result<usize, Failed>
    ensures answer { result_ok result ≡ result_ok outcome }
    ensures ok { OnOk result (faults.new ≡ faults.old) }
    ensures err { OnErr result (faults.new ≡ next_number faults.old) }
    ensures never_falls { faults.old ≤ faults.new }
{
    match outcome {
        Ok(count) => Ok(count),
        Err(_) => {
            *faults = faults.saturating_add(1);
            Err(Failed)
        }
    }
}

// One read, tried again where a signal interrupts it.
fn read_once<T: Read>(reader: &mut T, buf: &mut [u8]) -> IoResult<usize>
    ensures { IfOk result (λ k. k ≤ length buf.new) }
{
    for _ in 0..u64::MAX {
        match reader.read(buf) {
            Err(error) if error.kind() == ErrorKind::Interrupted => {}
            answer => return answer,
        }
    }
    Err(Error::from(ErrorKind::Interrupted))
}

// One write, tried again where a signal interrupts it.
fn write_once<T: Write>(writer: &mut T, piece: &[u8]) -> IoResult<usize>
    ensures { IfOk result (λ k. k ≤ length piece.now) }
{
    for _ in 0..u64::MAX {
        match writer.write(piece) {
            Err(error) if error.kind() == ErrorKind::Interrupted => {}
            answer => return answer,
        }
    }
    Err(Error::from(ErrorKind::Interrupted))
}

// One write that is flushed, and an error where nothing is taken of a piece that has bytes.
fn write_through<T: Write>(writer: &mut T, piece: &[u8]) -> IoResult<usize>
    ensures count { IfOk result (λ k. k ≤ length piece.now) }
    ensures progress { IfOk result (λ k. 0 < length piece.now → 0 < k) }
{
    let count = write_once(writer, piece)?;
    if count == 0 && !piece.is_empty() {
        return Err(Error::from(ErrorKind::WriteZero));
    }
    writer.flush()?;
    Ok(count)
}
