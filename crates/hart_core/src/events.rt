ghost use Rattle.std.specs.Prelude.{◌≡◌, ◌<◌, false, length, slice_get, slice_set, Some, None};
ghost use Rattle.serial_run.specs.Serial.{step, after_instr};
ghost use Rattle.serial_run.specs.Runs.{StandsAtCall as CallStands, DoesCall, Acts as OneActs, Keeps as OneKeeps, configuration_of as one_configuration};
ghost use Rattle.hart_core.specs.Machine.{Hart, Free, Stub};
ghost use Rattle.hart_core.specs.Entering.{entered};
ghost use Rattle.hart_core.specs.Rows.{back_in};
ghost use Rattle.hart_core.specs.Events.{added_word, is_effective};
ghost use Rattle.hart_core.specs.Acting.{configuration_of, Acts, Keeps, NeverCalls, GoesFree, GoesInStub, base_in};
ghost use Rattle.rv64_decode.specs.XTable.{decoded_x};
ghost use Rattle.rv64_decode.specs.XForm.{InFormX};

use crate::counts::{Place, count_arrival, next_of, place_at};
use crate::entries::{Found, find_arrival};
use crate::harts::Harts;
use crate::seat::{Mode, Seat};
use outside_ports::{Sink, Source};
use rv64_decode::{Instr, XInstr, decode_x};
use rv64_meaning::Decoded;
use serial_run::{Machine, execute, step_serial};

/// The address of the first added word.
const ADDED: u64 = 0x6000_0000;

// The added word at an address.
#[tactic(auto, unfolding(crate::specs::Events::added_word))]
fn added_at(code: &[u32], pc: u64) -> Option<u32>
    ensures { result ≡ added_word code.now pc }
{
    if ADDED <= pc && pc % 4 == 0 {
        code.get(((pc - ADDED) / 4) as usize).copied()
    } else {
        None
    }
}

// Gives a machine the pc and the registers of hart k.
fn load(m: &mut Machine, seats: &[Seat], k: usize)
    requires { k < length seats.now }
    ensures { (h : Hart) → slice_get seats.now k ≡ Some h → m.new ≡ record m.old { pc = h.pc; regs = h.regs } }
{
    m.pc = seats[k].pc();
    m.regs = *seats[k].regs();
}

// Hart k takes back pc and registers from a machine, and goes on in the original, or leaves it at an entry.
fn settle_own(seats: &mut Vec<Seat>, k: usize, m: &Machine, found: Option<Found>)
    requires { k < length seats.old.items }
    ensures settled { (h : Hart) → slice_get seats.old.items k ≡ Some h
        → seats.new.items ≡ slice_set seats.old.items k (entered (back_in h Free m.now) found) }
    ensures count { length seats.new.items ≡ length seats.old.items }
{
    let seat = &mut seats[k];
    seat.take_back(m, Mode::Free);
    seat.enter(found);
}

// Hart k takes back pc and registers from a machine, and goes on in its stub.
fn settle_base(seats: &mut Vec<Seat>, k: usize, m: &Machine)
    requires { k < length seats.old.items }
    ensures settled { (h : Hart) → slice_get seats.old.items k ≡ Some h
        → seats.new.items ≡ slice_set seats.old.items k (back_in h Stub m.now) }
    ensures count { length seats.new.items ≡ length seats.old.items }
{
    seats[k].take_back(m, Mode::Stub);
}

// Executes an ordinary instruction at the machine's pc.
fn execute_base<I: Source, O: Sink>(m: &mut Machine, i: Instr, input: &mut I, out: &mut O)
    requires { m.old.ended ≡ None }
    ensures acts { OneActs (DoesCall i) (λ s. after_instr s i)
        (one_configuration m.old (I.rest input.old) (I.faults input.old) (O.written out.old) (O.faults out.old))
        (one_configuration m.new (I.rest input.new) (I.faults input.new) (O.written out.new) (O.faults out.new)) }
    ensures keeps { OneKeeps
        (one_configuration m.old (I.rest input.old) (I.faults input.old) (O.written out.old) (O.faults out.old))
        (one_configuration m.new (I.rest input.new) (I.faults input.new) (O.written out.new) (O.faults out.new)) }
    ensures takes_nothing { ¬ DoesCall i 63 m.old → input.new ≡ input.old }
    ensures sends_nothing { ¬ DoesCall i 64 m.old → out.new ≡ out.old }
{
    let pc = m.pc;
    match execute(m, pc, &Decoded::new(i), input, out) {
        Some(next) => m.pc = next,
        None => {}
    }
}

impl Harts {
    // Hart k executes a word of the original.
    fn own_event<I: Source, O: Sink>(&mut self, k: usize, input: &mut I, out: &mut O)
        requires goes { GoesFree self.old k }
        ensures acts { Acts k
            (configuration_of self.old (I.rest input.old) (I.faults input.old) (O.written out.old) (O.faults out.old))
            (configuration_of self.new (I.rest input.new) (I.faults input.new) (O.written out.new) (O.faults out.new)) }
        ensures keeps { Keeps
            (configuration_of self.old (I.rest input.old) (I.faults input.old) (O.written out.old) (O.faults out.old))
            (configuration_of self.new (I.rest input.new) (I.faults input.new) (O.written out.new) (O.faults out.new)) }
        ensures takes_nothing { NeverCalls 63 self.old k → input.new ≡ input.old }
        ensures sends_nothing { NeverCalls 64 self.old k → out.new ≡ out.old }
    {
        load(&mut self.machine, self.seats.as_slice(), k);
        step_serial(&mut self.machine, input, out);
        let found = find_arrival(self.image.entries.as_slice(), &self.machine);
        settle_own(&mut self.seats, k, &self.machine, found);
        count_arrival(&mut self.loops, found);
        self.place = next_of(k, place_at(found), self.place);
    }

    // Hart k executes an ordinary instruction of added code.
    fn base_event<I: Source, O: Sink>(&mut self, k: usize, i: Instr, input: &mut I, out: &mut O)
        requires goes { GoesInStub self.old k }
        requires stands { (h : Hart) → slice_get self.old.harts k ≡ Some h → base_in (added_word self.old.image.code h.pc) ≡ Some i }
        ensures acts { Acts k
            (configuration_of self.old (I.rest input.old) (I.faults input.old) (O.written out.old) (O.faults out.old))
            (configuration_of self.new (I.rest input.new) (I.faults input.new) (O.written out.new) (O.faults out.new)) }
        ensures keeps { Keeps
            (configuration_of self.old (I.rest input.old) (I.faults input.old) (O.written out.old) (O.faults out.old))
            (configuration_of self.new (I.rest input.new) (I.faults input.new) (O.written out.new) (O.faults out.new)) }
        ensures takes_nothing { NeverCalls 63 self.old k → input.new ≡ input.old }
        ensures sends_nothing { NeverCalls 64 self.old k → out.new ≡ out.old }
    {
        load(&mut self.machine, self.seats.as_slice(), k);
        execute_base(&mut self.machine, i, input, out);
        settle_base(&mut self.seats, k, &self.machine);
        self.place = next_of(k, Place::Other, self.place);
    }

    // Hart k executes an instruction of added code, which stands for a word.
    fn instr_event<I: Source, O: Sink>(
        &mut self,
        k: usize,
        word: u32,
        i: XInstr,
        input: &mut I,
        out: &mut O,
    )
        requires goes { GoesInStub self.old k }
        requires stands { (h : Hart) → slice_get self.old.harts k ≡ Some h
            → added_word self.old.image.code h.pc ≡ Some word }
        requires is { decoded_x word ≡ Some i }
        requires slot { InFormX i }
        ensures acts { Acts k
            (configuration_of self.old (I.rest input.old) (I.faults input.old) (O.written out.old) (O.faults out.old))
            (configuration_of self.new (I.rest input.new) (I.faults input.new) (O.written out.new) (O.faults out.new)) }
        ensures keeps { Keeps
            (configuration_of self.old (I.rest input.old) (I.faults input.old) (O.written out.old) (O.faults out.old))
            (configuration_of self.new (I.rest input.new) (I.faults input.new) (O.written out.new) (O.faults out.new)) }
        ensures takes_nothing { NeverCalls 63 self.old k → input.new ≡ input.old }
        ensures sends_nothing { NeverCalls 64 self.old k → out.new ≡ out.old }
    {
        match i {
            XInstr::Base(base) => self.base_event(k, base, input, out),
            XInstr::Put { .. } => self.alone_event(k, i),
            XInstr::Get { .. } => self.alone_event(k, i),
            XInstr::Id { .. } => self.alone_event(k, i),
            XInstr::Harts { .. } => self.alone_event(k, i),
            XInstr::Par => self.par_event(k, word),
            XInstr::Join => self.join_event(k),
            XInstr::Back => self.back_event(k, word),
        }
    }

    // Hart k executes a word of added code.
    fn word_event<I: Source, O: Sink>(&mut self, k: usize, word: u32, input: &mut I, out: &mut O)
        requires goes { GoesInStub self.old k }
        requires stands { (h : Hart) → slice_get self.old.harts k ≡ Some h
            → added_word self.old.image.code h.pc ≡ Some word }
        ensures acts { Acts k
            (configuration_of self.old (I.rest input.old) (I.faults input.old) (O.written out.old) (O.faults out.old))
            (configuration_of self.new (I.rest input.new) (I.faults input.new) (O.written out.new) (O.faults out.new)) }
        ensures keeps { Keeps
            (configuration_of self.old (I.rest input.old) (I.faults input.old) (O.written out.old) (O.faults out.old))
            (configuration_of self.new (I.rest input.new) (I.faults input.new) (O.written out.new) (O.faults out.new)) }
        ensures takes_nothing { NeverCalls 63 self.old k → input.new ≡ input.old }
        ensures sends_nothing { NeverCalls 64 self.old k → out.new ≡ out.old }
    {
        match decode_x(word) {
            Some(i) => self.instr_event(k, word, i, input, out),
            None => self.illegal_event(k, word as u64),
        }
    }

    // Hart k executes what stands at its pc in the added code.
    fn added_event<I: Source, O: Sink>(&mut self, k: usize, input: &mut I, out: &mut O)
        requires goes { GoesInStub self.old k }
        ensures acts { Acts k
            (configuration_of self.old (I.rest input.old) (I.faults input.old) (O.written out.old) (O.faults out.old))
            (configuration_of self.new (I.rest input.new) (I.faults input.new) (O.written out.new) (O.faults out.new)) }
        ensures keeps { Keeps
            (configuration_of self.old (I.rest input.old) (I.faults input.old) (O.written out.old) (O.faults out.old))
            (configuration_of self.new (I.rest input.new) (I.faults input.new) (O.written out.new) (O.faults out.new)) }
        ensures takes_nothing { NeverCalls 63 self.old k → input.new ≡ input.old }
        ensures sends_nothing { NeverCalls 64 self.old k → out.new ≡ out.old }
    {
        let pc = self.seats[k].pc();
        match added_at(self.image.code.as_slice(), pc) {
            Some(word) => self.word_event(k, word, input, out),
            None => self.illegal_event(k, 0),
        }
    }

    // One event of hart k of a machine without an ending. Says whether the hart has done something.
    pub(crate) fn act<I: Source, O: Sink>(&mut self, k: usize, input: &mut I, out: &mut O) -> bool
        requires within { k < length self.old.harts }
        requires running { self.old.ended ≡ None }
        ensures acts { Acts k
            (configuration_of self.old (I.rest input.old) (I.faults input.old) (O.written out.old) (O.faults out.old))
            (configuration_of self.new (I.rest input.new) (I.faults input.new) (O.written out.new) (O.faults out.new)) }
        ensures keeps { Keeps
            (configuration_of self.old (I.rest input.old) (I.faults input.old) (O.written out.old) (O.faults out.old))
            (configuration_of self.new (I.rest input.new) (I.faults input.new) (O.written out.new) (O.faults out.new)) }
        ensures effective { result ≡ is_effective self.old k }
        ensures takes_nothing { NeverCalls 63 self.old k → input.new ≡ input.old }
        ensures sends_nothing { NeverCalls 64 self.old k → out.new ≡ out.old }
        ensures stays { result ≡ false → self.new ≡ self.old }
        ensures input_stays { result ≡ false → input.new ≡ input.old }
        ensures output_stays { result ≡ false → out.new ≡ out.old }
    {
        match self.seats[k].mode() {
            Mode::Free => {
                self.own_event(k, input, out);
                true
            }
            Mode::Passing => {
                self.own_event(k, input, out);
                true
            }
            Mode::Stub => {
                self.added_event(k, input, out);
                true
            }
            Mode::Waiting => false,
            Mode::Idle => false,
        }
    }
}
