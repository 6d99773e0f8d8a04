ghost use Rattle.std.specs.Prelude.{◌≡◌, ◌≢◌, ◌↔◌, ◌<◌, ◌≤◌, ◌∷◌, ◌-◌, ◌==◌, ℕ, if◌then◌else◌, false, length, map, replicate, slice_get, Some, None, IfOk, IsSome, IsNone};
ghost use Rattle.serial_run.specs.declared.machine.End.{End as Ending};
ghost use Rattle.hart_core.specs.Machine.{Hart, alone};
ghost use Rattle.hart_core.specs.Shown.{place_of, mode_of};
ghost use Rattle.hart_core.specs.Start.{IsRunnable, start_core, idle_hart};
ghost use Rattle.hart_core.specs.Events.{is_effective, IsEffective};
ghost use Rattle.hart_core.specs.Counting.{events_of, steps_of};
ghost use Rattle.hart_core.specs.Acting.{configuration_of, Acts, Keeps, NeverCalls};

use crate::counts::{Counts, LoopCount, Place, count_arrival, no_counts, place_at};
use crate::entries::find_entry;
use crate::seat::Seat;
use guest_memory::Memory;
use image_writer::Image;
use outside_ports::{Sink, Source};
use rv64_decode::Regs;
use serial_run::{End, Machine};
use std::alloc::{AllocError, Global};
use std::marker::Model;

/// What an event has done.
#[derive(Clone, Copy, PartialEq, Eq, Debug)]
pub enum Event {
    /// The hart has executed a word, and the run goes on.
    Did,
    /// The hart is idle or waits, or there is none of this number; nothing has changed.
    Idle,
    /// The run has ended, by this event or by an earlier one.
    Ended(End),
}

/// The machine of several harts over an image, with what is counted of its run.
#[derive(Drop)]
pub struct Harts {
    pub(crate) seats: Vec<Seat>,
    // What is shared; pc and registers are those of the hart that executes a word, while it does.
    pub(crate) machine: Machine,
    pub(crate) image: Image,
    pub(crate) loops: Vec<LoopCount>,
    pub(crate) place: Place,
}

impl Model for Harts {
    ghost use Rattle.std.specs.Prelude.{◌<◌, ◌≤◌, length};
    ghost use Rattle.hart_core.specs.Machine.{Core};
    ghost use Rattle.hart_core.specs.Shown.{place_of};
    ghost use Rattle.hart_core.specs.Start.{IsRunnable};

    ghost Value = { Core };

    ghost view = { λ h. record {
      harts = h.seats.items;
      memory = h.machine.memory;
      brk = h.machine.brk;
      ended = h.machine.ended;
      image = h.image;
      loops = h.loops.items;
      place = place_of h.place;
    } };

    ghost invariant = { λ h. IsRunnable h.image × (0 < length h.seats.items) × (length h.seats.items ≤ 64) };
}

// So many harts, of which all but the first are idle.
fn seats_of(alloc: Global, first: Seat, harts: u32) -> Result<Vec<Seat>, AllocError>
    requires some { 0 < harts }
    ensures { IfOk result (λ v. v.items ≡ first ∷ replicate (harts - 1) idle_hart) }
{
    let mut seats = Vec::new(alloc);
    seats.push(first)?;
    for i in 1..harts {
        seats.push(Seat::idle())?;
    }
    Ok(seats)
}

// The events of each of these.
fn events_in(alloc: Global, seats: &[Seat]) -> Result<Vec<u64>, AllocError>
    ensures { IfOk result (λ v. v.items ≡ map events_of seats.now) }
{
    let mut events = Vec::new(alloc);
    for i in 0..seats.len() {
        events.push(seats[i].events())?;
    }
    Ok(events)
}

// The events of all of these.
fn steps_in(seats: &[Seat]) -> u64
    ensures { result ≡ steps_of seats.now }
{
    let mut steps: u64 = 0;
    for i in 0..seats.len() {
        steps = steps.saturating_add(seats[i].events());
    }
    steps
}

impl Harts {
    /// The machine at the start of an image with 1 to 64 harts. Hart 0 stands at the original's entry, or has left
    /// there for the added code; all others are idle.
    #[tactic(auto, unfolding(crate::specs::Start::start_core))]
    pub fn start(alloc: Global, image: Image, harts: u32) -> Result<Harts, AllocError>
        requires runnable { IsRunnable image }
        requires some { 0 < harts }
        requires most { harts ≤ 64 }
        ensures { IfOk result (λ h. h ≡ start_core image harts) }
    {
        let machine = serial_run::start(alloc, &image.elf)?;
        let found = find_entry(image.entries.as_slice(), machine.pc);
        let mut first = Seat::first(machine.pc, machine.regs);
        first.enter(found);
        let mut loops = no_counts(alloc, image.entries.as_slice())?;
        count_arrival(&mut loops, found);
        let seats = seats_of(alloc, first, harts)?;
        Ok(Harts {
            seats,
            machine,
            image,
            loops,
            place: place_at(found),
        })
    }

    /// One event of the hart of a number: it executes the word at its pc. A hart that is idle or waits does nothing,
    /// and there is none of a number from the number of harts on. A fault of the source or the sink ends the run too,
    /// at the call in which it was met: all is as it was before that call, but for what is counted, for bytes of the
    /// guest's buffer after a fault of the source, and for a first part of the call's bytes that has gone out.
    pub fn event<I: Source, O: Sink>(&mut self, hart: u32, input: &mut I, out: &mut O) -> Event
        ensures acts { IsNone self.old.ended → Acts hart
            (configuration_of self.old (I.rest input.old) (I.faults input.old) (O.written out.old) (O.faults out.old))
            (configuration_of self.new (I.rest input.new) (I.faults input.new) (O.written out.new) (O.faults out.new)) }
        ensures keeps { Keeps
            (configuration_of self.old (I.rest input.old) (I.faults input.old) (O.written out.old) (O.faults out.old))
            (configuration_of self.new (I.rest input.new) (I.faults input.new) (O.written out.new) (O.faults out.new)) }

        // The answer.
        ensures ended { (end : Ending) → (result ≡ Event.Ended end) ↔ (self.new.ended ≡ Some end) }
        ensures idle { (result ≡ Event.Idle) ↔ (IsNone self.old.ended × (is_effective self.old hart ≡ false)) }

        // What is no read (63) takes nothing, and what is no write (64) sends nothing.
        ensures takes_nothing { NeverCalls 63 self.old hart → input.new ≡ input.old }
        ensures sends_nothing { NeverCalls 64 self.old hart → out.new ≡ out.old }

        // An event that is not effective, as each one after the ending.
        ensures stays { is_effective self.old hart ≡ false → self.new ≡ self.old }
        ensures input_stays { is_effective self.old hart ≡ false → input.new ≡ input.old }
        ensures output_stays { is_effective self.old hart ≡ false → out.new ≡ out.old }
    {
        if let Some(end) = self.machine.ended {
            return Event::Ended(end);
        }
        let k = hart as usize;
        if k >= self.seats.len() {
            return Event::Idle;
        }
        if !self.act(k, input, out) {
            return Event::Idle;
        }
        match self.machine.ended {
            Some(end) => Event::Ended(end),
            None => Event::Did,
        }
    }

    /// What has been counted so far.
    pub fn counts(&self, alloc: Global) -> Result<Counts, AllocError>
        ensures loops { IfOk result (λ c. c.loops.items ≡ self.now.loops) }
        ensures harts { IfOk result (λ c. c.harts.items ≡ map events_of self.now.harts) }
        ensures steps { IfOk result (λ c. c.steps ≡ steps_of self.now.harts) }
    {
        let mut loops = Vec::new(alloc);
        loops.extend_from_slice(self.loops.as_slice())?;
        Ok(Counts {
            loops,
            harts: events_in(alloc, self.seats.as_slice())?,
            steps: steps_in(self.seats.as_slice()),
        })
    }

    /// Where hart 0 stands.
    pub fn place(&self) -> Place
        ensures { place_of result ≡ self.now.place }
    {
        self.place
    }

    /// The number of harts.
    pub fn number(&self) -> u32
        ensures number { result ≡ length self.now.harts }
        ensures some { 0 < result }
        ensures most { result ≤ 64 }
    {
        self.seats.len() as u32
    }

    /// The address of the next word of a hart.
    pub fn pc(&self, hart: u32) -> u64
        requires { hart < length self.now.harts }
        ensures { (h : Hart) → slice_get self.now.harts hart ≡ Some h → result ≡ h.pc }
    {
        self.seats[hart as usize].pc()
    }

    /// The registers of a hart.
    pub fn regs(&self, hart: u32) -> &Regs
        requires { hart < length self.now.harts }
        ensures { (h : Hart) → slice_get self.now.harts hart ≡ Some h → result.now ≡ h.regs }
    {
        self.seats[hart as usize].regs()
    }

    /// The slots of a hart.
    pub fn slots(&self, hart: u32) -> &[u64; 32]
        requires { hart < length self.now.harts }
        ensures { (h : Hart) → slice_get self.now.harts hart ≡ Some h → result.now ≡ h.slots }
    {
        self.seats[hart as usize].slots()
    }

    /// How the run has ended, if it has.
    pub fn ended(&self) -> Option<End>
        ensures { result ≡ self.now.ended }
    {
        self.machine.ended
    }

    /// The shared memory.
    pub fn memory(&self) -> &Memory
        ensures { result.now ≡ self.now.memory }
    {
        &self.machine.memory
    }

    /// What is run.
    pub fn image(&self) -> &Image
        ensures image { result.now ≡ self.now.image }
        ensures runnable { IsRunnable result.now }
    {
        &self.image
    }

    /// The shared memory, when nothing else is wanted any more.
    pub fn into_memory(self) -> Memory
        ensures { result ≡ self.memory }
    {
        let Harts { machine, .. } = self;
        machine.memory
    }
}
