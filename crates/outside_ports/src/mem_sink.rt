ghost use Rattle.std.specs.Prelude.{◌≡◌, ◌↔◌, ◌++◌, ◌-◌, ◌⊎◌, ◌<◌, ◌≤◌, [], Some, Contains, IsErr, IfOk, OnErr, length, min, take};
ghost use Rattle.outside_ports.specs.Fakes.{next_number};
ghost use Rattle.outside_ports.specs.Ports.{Rose};

use crate::calls::Calls;
use crate::ports::{Failed, Sink};
use std::alloc::{AllocError, Global};
use std::marker::Model;

/// A sink into memory that holds so many bytes and no more, and some of whose calls fail. Its calls
/// are numbered from 0; their number and the count of faults stand still at 2 ^ 64 - 1.
#[derive(Drop)]
pub struct MemSink {
    bytes: Vec<u8>,
    room: usize,
    calls: Calls,
}

impl Model for MemSink {
    ghost use Rattle.std.specs.Prelude.{◌+◌, ◌≤◌, vec_len, vec_capacity};
    ghost use Rattle.outside_ports.specs.Fakes.{SinkState};

    ghost Value = { SinkState };

    ghost view = { λ s. record {
      written = s.bytes.items;
      room = s.room;
      fails = s.calls.fails.items;
      calls = s.calls.number;
      faults = s.calls.faults;
    } };

    ghost invariant = { λ s. vec_len s.bytes + s.room ≤ vec_capacity s.bytes };
}

impl MemSink {
    /// An empty sink with room for `room` bytes, whose memory is taken here and never later. The
    /// calls whose numbers are in `fails` fail.
    pub fn new(alloc: Global, room: usize, fails: Vec<u64>) -> Result<MemSink, AllocError>
        ensures { IfOk result (λ s. s ≡ record {
          written = [];
          room = room;
          fails = fails.items;
          calls = 0;
          faults = 0;
        }) }
    {
        Ok(MemSink {
            bytes: Vec::with_capacity(alloc, room)?,
            room,
            calls: Calls::new(fails),
        })
    }

    /// The bytes written so far.
    pub fn bytes(&self) -> &[u8]
        ensures { result.now ≡ self.now.written }
    {
        self.bytes.as_slice()
    }

    /// The bytes written so far, without the sink.
    pub fn into_bytes(self) -> Vec<u8>
        ensures { result.items ≡ self.written }
    {
        let MemSink {
            bytes,
            room: _,
            calls: _,
        } = self;
        bytes
    }
}

impl Sink for MemSink {
    ghost written = { λ s. Some s.written };

    ghost faults = { λ s. s.faults };

    /// Appends as much of `piece` as the room left holds, and takes no memory. A call that fails
    /// changes nothing but the number of calls and the count of faults.
    fn write(&mut self, piece: &[u8]) -> Result<usize, Failed>
        ensures fails { IsErr result ↔ (Contains self.old.fails self.old.calls
            ⊎ ((self.old.room ≡ 0) × (0 < length piece.now))) }
        ensures err { OnErr result (self.new ≡ record self.old {
          calls = next_number self.old.calls;
          faults = next_number self.old.faults;
        }) }
        ensures takes { IfOk result (λ k. k ≡ min self.old.room (length piece.now)) }
        ensures ok { IfOk result (λ k. self.new ≡ record self.old {
          written = self.old.written ++ take k piece.now;
          room = self.old.room - k;
          calls = next_number self.old.calls;
        }) }

        ensures count { IfOk result (λ k. k ≤ length piece.now) }
        ensures progress { IfOk result (λ k. 0 < length piece.now → 0 < k) }
        ensures appended { IfOk result (λ k. self.new.written ≡ self.old.written ++ take k piece.now) }
        ensures prefix { OnErr result (self.new.written ≡ self.old.written) }
        ensures failed { OnErr result (Rose self.old.faults self.new.faults) }
        ensures never_falls { self.old.faults ≤ self.new.faults }
    {
        self.calls.begin()?;
        if self.room == 0 && !piece.is_empty() {
            return Err(self.calls.fault());
        }
        let count = self.room.min(piece.len());
        match self.bytes.extend_from_slice(&piece[..count]) {
            Ok(()) => {}
            Err(_) => unreachable!(),
        }
        self.room -= count;
        Ok(count)
    }
}
