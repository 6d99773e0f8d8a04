ghost use Rattle.std.specs.Prelude.{◌≡◌, length};
ghost use Rattle.rv64_decode.specs.Hart.{x_outcome};
ghost use Rattle.rv64_decode.specs.Row.{next_pc};
ghost use Rattle.rv64_decode.specs.XForm.{HasSlot};
ghost use Rattle.hart_core.specs.Shown.{mode_of};
ghost use Rattle.hart_core.specs.Machine.{counted, Stub};
ghost use Rattle.hart_core.specs.Start.{idle_hart, first_hart};
ghost use Rattle.hart_core.specs.Entering.{entered};
ghost use Rattle.hart_core.specs.Rows.{back_in, woken, alone_after, IsForOne, is_idle, is_waiting};

use crate::entries::Found;
use guest_memory::Memory;
use rv64_decode::{Regs, XInstr};
use rv64_meaning::exec_x;
use serial_run::Machine;
use std::marker::Model;

/// What a hart is about to do.
#[derive(Clone, Copy, PartialEq, Eq, Debug)]
pub(crate) enum Mode {
    /// To execute a word of the original.
    Free,
    /// To execute a word of added code.
    Stub,
    /// To execute the word of the header that it has gone back to.
    Passing,
    /// Nothing, until all other harts are idle.
    Waiting,
    /// Nothing, until the next fork.
    Idle,
}

/// A hart's own part of the machine.
#[derive(Drop)]
pub(crate) struct Seat {
    pc: u64,
    regs: Regs,
    slots: [u64; 32],
    mode: Mode,
    kept: u32,
    events: u64,
}

impl Model for Seat {
    ghost use Rattle.hart_core.specs.Machine.{Hart};
    ghost use Rattle.hart_core.specs.Shown.{mode_of};

    ghost Value = { Hart };

    ghost view = { λ s. record {
      pc = s.pc;
      regs = s.regs;
      slots = s.slots;
      mode = mode_of s.mode;
      kept = s.kept;
      events = s.events;
    } };
}

impl Seat {
    /// A hart that has not been woken.
    pub(crate) fn idle() -> Seat
        ensures { result ≡ idle_hart }
    {
        Seat {
            pc: 0,
            regs: Regs::new(),
            slots: [0; 32],
            mode: Mode::Idle,
            kept: 0,
            events: 0,
        }
    }

    /// The hart that runs the original, at an address.
    pub(crate) fn first(pc: u64, regs: Regs) -> Seat
        ensures { result ≡ first_hart pc regs }
    {
        Seat {
            pc,
            regs,
            slots: [0; 32],
            mode: Mode::Free,
            kept: 0,
            events: 0,
        }
    }

    pub(crate) fn mode(&self) -> Mode
        ensures { mode_of result ≡ self.now.mode }
    {
        self.mode
    }

    pub(crate) fn is_idle(&self) -> bool
        ensures { result ≡ is_idle self.now.mode }
    {
        match self.mode {
            Mode::Free => false,
            Mode::Stub => false,
            Mode::Passing => false,
            Mode::Waiting => false,
            Mode::Idle => true,
        }
    }

    pub(crate) fn is_waiting(&self) -> bool
        ensures { result ≡ is_waiting self.now.mode }
    {
        match self.mode {
            Mode::Free => false,
            Mode::Stub => false,
            Mode::Passing => false,
            Mode::Waiting => true,
            Mode::Idle => false,
        }
    }

    pub(crate) fn pc(&self) -> u64
        ensures { result ≡ self.now.pc }
    {
        self.pc
    }

    pub(crate) fn regs(&self) -> &Regs
        ensures { result.now ≡ self.now.regs }
    {
        &self.regs
    }

    pub(crate) fn slots(&self) -> &[u64; 32]
        ensures { result.now ≡ self.now.slots }
    {
        &self.slots
    }

    pub(crate) fn kept(&self) -> u32
        ensures { result ≡ self.now.kept }
    {
        self.kept
    }

    pub(crate) fn events(&self) -> u64
        ensures { result ≡ self.now.events }
    {
        self.events
    }

    /// Counts an event.
    pub(crate) fn count(&mut self)
        ensures { self.new ≡ counted self.old }
    {
        self.events = self.events.saturating_add(1);
    }

    /// Counts an event, after which the hart has the pc and the registers of a machine.
    pub(crate) fn take_back(&mut self, m: &Machine, mode: Mode)
        ensures { self.new ≡ back_in self.old (mode_of mode) m.now }
    {
        self.count();
        self.pc = m.pc;
        self.regs = m.regs;
        self.mode = mode;
    }

    /// Leaves the original where there is an entry.
    pub(crate) fn enter(&mut self, found: Option<Found>)
        ensures { self.new ≡ entered self.old found }
    {
        if let Some(found) = found {
            self.pc = found.stub;
            self.mode = Mode::Stub;
            self.kept = found.number;
        }
    }

    /// Counts an event that leads to an address.
    pub(crate) fn go_to(&mut self, pc: u64, mode: Mode)
        ensures { self.new ≡ record (counted self.old) { pc = pc; mode = mode_of mode } }
    {
        self.count();
        self.pc = pc;
        self.mode = mode;
    }

    /// Counts an event that leads to the next word.
    pub(crate) fn go_on(&mut self)
        ensures { self.new ≡ record (counted self.old) { pc = next_pc self.old.pc } }
    {
        self.count();
        self.pc = self.pc.wrapping_add(4);
    }

    /// Goes on in a stub.
    pub(crate) fn resume_stub(&mut self)
        ensures { self.new ≡ record self.old { mode = Stub } }
    {
        self.mode = Mode::Stub;
    }

    /// Becomes what a hart that forks makes of the others.
    pub(crate) fn wake(&mut self, pc: u64, regs: &Regs, slots: &[u64; 32], kept: u32)
        ensures { self.new ≡ woken pc regs.now slots.now kept self.old }
    {
        self.pc = pc;
        self.regs = *regs;
        self.slots = *slots;
        self.mode = Mode::Stub;
        self.kept = kept;
    }

    /// Executes an instruction of added code that is of this hart alone.
    pub(crate) fn execute_alone(&mut self, i: XInstr, hart: u32, harts: u32, memory: &mut Memory)
        requires slot { HasSlot i }
        requires one { IsForOne i }
        ensures hart { self.new ≡ alone_after self.old i hart harts memory.old }
        ensures memory { memory.new ≡ memory.old }
    {
        exec_x(
            i,
            self.pc,
            &mut self.regs,
            &mut self.slots,
            hart,
            harts,
            memory,
        );
        self.go_on();
    }
}
