ghost use Rattle.std.specs.Prelude.{◌≡◌, ◌<◌, ◌==◌, if◌then◌else◌, length, drop, slice_get, Some};
ghost use Rattle.hart_core.specs.Machine.{Hart, counted};
ghost use Rattle.hart_core.specs.Rows.{IsForOne, illegal, of_hart, forked, forks, woken, wakes, joined, gathered, have_gathered, all_idle, went_back};
ghost use Rattle.rv64_decode.specs.XForm.{HasSlot};
ghost use Rattle.rv64_decode.specs.Row.{next_pc};

use crate::counts::{Place, count_division, next_of, turns_in};
use crate::entries::header_at;
use crate::harts::Harts;
use crate::seat::{Mode, Seat};
use rv64_decode::{Fault, Regs, XInstr};
use serial_run::End;

// Whether all of these from a place on are idle.
fn are_idle(seats: &[Seat], from: usize) -> bool
    ensures { result ≡ all_idle (drop from seats.now) }
{
    for i in from..seats.len() {
        if !seats[i].is_idle() {
            return false;
        }
    }
    true
}

// Whether hart 0 waits and all others are idle.
fn all_have_joined(seats: &[Seat]) -> bool
    ensures { result ≡ have_gathered seats.now }
{
    0 < seats.len() && seats[0].is_waiting() && are_idle(seats, 1)
}

// Lets hart 0 go on where it waits and all others are idle.
fn gather(seats: &mut Vec<Seat>)
    ensures { seats.new.items ≡ gathered seats.old.items }
{
    if 0 < seats.len() && all_have_joined(seats.as_slice()) {
        seats[0].resume_stub();
    }
}

// Wakes all harts but hart 0.
fn wake_others(seats: &mut Vec<Seat>, pc: u64, regs: &Regs, slots: &[u64; 32], kept: u32)
    requires { 0 < length seats.old.items }
    ensures woken { seats.new.items ≡ wakes (woken pc regs.now slots.now kept) seats.old.items }
    ensures count { length seats.new.items ≡ length seats.old.items }
{
    for i in 1..seats.len() {
        seats[i].wake(pc, regs, slots, kept);
    }
}

// Hart 0 goes on behind its fork, and wakes all others.
fn fork(seats: &mut Vec<Seat>)
    requires { 0 < length seats.old.items }
    ensures forked { (h : Hart) → slice_get seats.old.items 0 ≡ Some h
        → seats.new.items ≡ forks (record (counted h) { pc = next_pc h.pc }) seats.old.items }
    ensures count { length seats.new.items ≡ length seats.old.items }
{
    seats[0].go_on();
    let pc = seats[0].pc();
    let regs = *seats[0].regs();
    let slots = *seats[0].slots();
    let kept = seats[0].kept();
    wake_others(seats, pc, &regs, &slots, kept);
}

impl Harts {
    // Hart k faults at added code that is none.
    pub(crate) fn illegal_event(&mut self, k: usize, addr: u64)
        requires within { k < length self.old.harts }
        ensures { (h : Hart) → slice_get self.old.harts k ≡ Some h → self.new ≡ illegal self.old k h addr }
    {
        let pc = self.seats[k].pc();
        self.seats[k].count();
        self.place = next_of(k, Place::Other, self.place);
        self.machine.ended = Some(End::Faulted {
            kind: Fault::Illegal,
            pc,
            addr,
        });
    }

    // Hart k executes an instruction of its own.
    pub(crate) fn alone_event(&mut self, k: usize, i: XInstr)
        requires within { k < length self.old.harts }
        requires slot { HasSlot i }
        requires one { IsForOne i }
        ensures { (h : Hart) → slice_get self.old.harts k ≡ Some h → self.new ≡ of_hart self.old k h i }
    {
        let harts = self.number();
        self.seats[k].execute_alone(i, k as u32, harts, &mut self.machine.memory);
        self.place = next_of(k, Place::Other, self.place);
    }

    // Hart k executes `xp.par`, which is of hart 0 alone.
    pub(crate) fn par_event(&mut self, k: usize, word: u32)
        requires within { k < length self.old.harts }
        ensures { (h : Hart) → slice_get self.old.harts k ≡ Some h
            → self.new ≡ (if k == 0 then forked self.old h else illegal self.old k h word) }
    {
        if k != 0 {
            self.illegal_event(k, word as u64);
            return;
        }
        count_division(
            &mut self.loops,
            self.seats[0].kept(),
            turns_in(self.seats[0].slots()),
        );
        fork(&mut self.seats);
        self.place = Place::Forked;
    }

    // Hart k joins.
    pub(crate) fn join_event(&mut self, k: usize)
        requires within { k < length self.old.harts }
        ensures { (h : Hart) → slice_get self.old.harts k ≡ Some h → self.new ≡ joined self.old k h }
    {
        let pc = self.seats[k].pc().wrapping_add(4);
        let mode = if k == 0 { Mode::Waiting } else { Mode::Idle };
        self.seats[k].go_to(pc, mode);
        gather(&mut self.seats);
        self.place = next_of(k, Place::Other, self.place);
    }

    // Hart k executes `xp.back`, which is of hart 0 alone: it goes back to the header at which it has left.
    pub(crate) fn back_event(&mut self, k: usize, word: u32)
        requires within { k < length self.old.harts }
        ensures { (h : Hart) → slice_get self.old.harts k ≡ Some h
            → self.new ≡ (if k == 0 then went_back self.old h else illegal self.old k h word) }
    {
        if k != 0 {
            self.illegal_event(k, word as u64);
            return;
        }
        let header = header_at(self.image.entries.as_slice(), self.seats[0].kept());
        self.seats[0].go_to(header, Mode::Passing);
        self.place = Place::Other;
    }
}
