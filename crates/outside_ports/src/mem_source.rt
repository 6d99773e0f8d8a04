ghost use Rattle.std.specs.Prelude.{◌≡◌, ◌↔◌, ◌++◌, ◌<◌, ◌≤◌, Some, Contains, IsErr, IfOk, OnErr, drop, length, min, take};
ghost use Rattle.outside_ports.specs.Fakes.{next_number};
ghost use Rattle.outside_ports.specs.Ports.{Moved, Rose};

use crate::calls::Calls;
use crate::ports::{Failed, Source};
use std::marker::Model;

/// A source over bytes in memory, some of whose calls fail. Its calls are numbered from 0; their
/// number and the count of faults stand still at 2 ^ 64 - 1.
#[derive(Drop)]
pub struct MemSource {
    bytes: Vec<u8>,
    at: usize,
    most: usize,
    calls: Calls,
}

impl Model for MemSource {
    ghost use Rattle.std.specs.Prelude.{◌<◌, ◌≤◌, drop, length};
    ghost use Rattle.outside_ports.specs.Fakes.{SourceState};

    ghost Value = { SourceState };

    ghost view = { λ s. record {
      rest = drop s.at s.bytes.items;
      most = s.most;
      fails = s.calls.fails.items;
      calls = s.calls.number;
      faults = s.calls.faults;
    } };

    ghost invariant = { λ s. (s.at ≤ length s.bytes.items) × (0 < s.most) };
}

impl MemSource {
    /// A source of these bytes that gives at most `most` of them in each call. The calls whose
    /// numbers are in `fails` fail.
    pub fn new(bytes: Vec<u8>, most: usize, fails: Vec<u64>) -> MemSource
        requires { 0 < most }
        ensures { result ≡ record { rest = bytes.items; most = most; fails = fails.items; calls = 0; faults = 0 } }
    {
        MemSource {
            bytes,
            at: 0,
            most,
            calls: Calls::new(fails),
        }
    }

    /// The bytes that are still to be read.
    pub fn rest(&self) -> &[u8]
        ensures { result.now ≡ self.now.rest }
    {
        &self.bytes[self.at..]
    }
}

impl Source for MemSource {
    ghost rest = { λ s. Some s.rest };

    ghost faults = { λ s. s.faults };

    /// Gives the least of `most`, the length of `buf` and the rest. A call that fails changes
    /// nothing but the number of calls and the count of faults.
    fn read(&mut self, buf: &mut [u8]) -> Result<usize, Failed>
        ensures fails { IsErr result ↔ Contains self.old.fails self.old.calls }
        ensures err { OnErr result (self.new ≡ record self.old {
          calls = next_number self.old.calls;
          faults = next_number self.old.faults;
        }) }
        ensures err_buffer { OnErr result (buf.new ≡ buf.old) }
        ensures gives { IfOk result (λ k. k ≡ min self.old.most (min (length buf.old) (length self.old.rest))) }
        ensures buffer { IfOk result (λ k. buf.new ≡ take k self.old.rest ++ drop k buf.old) }
        ensures ok { IfOk result (λ k. self.new ≡ record self.old {
          rest = drop k self.old.rest;
          calls = next_number self.old.calls;
        }) }

        ensures count { IfOk result (λ k. k ≤ length buf.new) }
        ensures moved { IfOk result (λ k. Moved self.old.rest (Some self.new.rest) k buf.new) }
        ensures failed { OnErr result (Rose self.old.faults self.new.faults) }
        ensures never_falls { self.old.faults ≤ self.new.faults }
    {
        self.calls.begin()?;
        let rest = &self.bytes[self.at..];
        let count = self.most.min(buf.len().min(rest.len()));
        buf[..count].copy_from_slice(&rest[..count]);
        self.at += count;
        Ok(count)
    }
}
