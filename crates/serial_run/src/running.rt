ghost use Rattle.std.specs.Prelude.{◌≡◌, ◌≢◌, ◌≤◌, ℕ, false, Some, None, IfOk, IsSome, IsNone, is_some, is_none, unwrap_or};
ghost use Rattle.elf_image.specs.Layout.{IsLoadable};
ghost use Rattle.serial_run.specs.Serial.{State, start_machine, after_call, after_instr, step, executed_of};
ghost use Rattle.guest_memory.specs.Layout.{KeepAreas};
ghost use Rattle.rv64_decode.specs.Fetched.{instr_at};
ghost use Rattle.rv64_meaning.specs.Mnemonics.{instr_of};
ghost use Rattle.serial_run.specs.Runs.{is_port_fault, configuration_of, call_at, Keeps, Acts, Runs};
ghost use Rattle.serial_run.specs.Runs.{CallsNumber, DoesCall, StandsAtCall, TellsReads, NeverCalls};

use crate::machine::{End, Machine, end_at};
use crate::table::{Entry, PLACES, decoded_from, decoded_in, find_instr};
use elf_image::Elf;
use guest_calls::{Brk, Going, PortFault, call};
use guest_memory::{HEAP_SIZE, areas_stay, build, heap_start};
use outside_ports::{Sink, Source};
use rv64_decode::{Reg, Regs};
use rv64_meaning::{Decoded, Next, exec_decoded};
use std::alloc::{AllocError, Global};

/// The stack pointer at the start.
const STACK_POINTER: u64 = 0x7F7F_FFC0;

/// The machine at the start of an executable: its memory, x2 as the stack pointer, all other
/// registers 0, and the break at the heap's start.
pub fn start(alloc: Global, elf: &Elf) -> Result<Machine, AllocError>
    requires { IsLoadable elf.now }
    ensures { IfOk result (λ m. m ≡ start_machine elf.now) }
{
    let low = heap_start(elf);
    let mut regs = Regs::new();
    regs.set(Reg::new(2), STACK_POINTER);
    Ok(Machine {
        pc: elf.entry,
        regs,
        memory: build(alloc, elf)?,
        brk: Brk {
            at: low,
            low,
            high: low + HEAP_SIZE,
        },
        ended: None,
    })
}

// Answers a call at pc.
fn answer_call<I: Source, O: Sink>(m: &mut Machine, input: &mut I, out: &mut O)
    requires { m.old.ended ≡ None }
    ensures acts { Acts CallsNumber (λ s. after_call s (call_at s))
        (configuration_of m.old (I.rest input.old) (I.faults input.old) (O.written out.old) (O.faults out.old))
        (configuration_of m.new (I.rest input.new) (I.faults input.new) (O.written out.new) (O.faults out.new)) }
    ensures keeps { Keeps
        (configuration_of m.old (I.rest input.old) (I.faults input.old) (O.written out.old) (O.faults out.old))
        (configuration_of m.new (I.rest input.new) (I.faults input.new) (O.written out.new) (O.faults out.new)) }
    ensures areas { KeepAreas m.old.memory m.new.memory }
    ensures takes_nothing { ¬ CallsNumber 63 m.old → input.new ≡ input.old }
    ensures sends_nothing { ¬ CallsNumber 64 m.old → out.new ≡ out.old }
{
    match call(&mut m.regs, &mut m.memory, &mut m.brk, input, out) {
        Ok(Going::On) => m.pc = m.pc.wrapping_add(4),
        Ok(Going::Exit(code)) => m.ended = Some(End::Exited(code)),
        Err(PortFault::Read) => m.ended = Some(End::ReadFault),
        Err(PortFault::Write) => m.ended = Some(End::WriteFault),
    }
}

/// Executes the instruction `d` as if it stood at `pc`, whatever the machine's own `pc` is, and gives the
/// address of the next one, or none where the machine has an ending then. Faults are those of
/// `step_serial`; of `m.pc` nothing is told but through the answer.
#[inline(always)]
pub fn execute<I: Source, O: Sink>(
    m: &mut Machine,
    pc: u64,
    d: &Decoded,
    input: &mut I,
    out: &mut O,
) -> Option<u64>
    requires { m.old.ended ≡ None }
    ensures acts { Acts (DoesCall (instr_of d.now)) (λ s. after_instr s (instr_of d.now))
        (configuration_of (record m.old { pc = pc })
        (I.rest input.old) (I.faults input.old) (O.written out.old) (O.faults out.old))
        (configuration_of (record m.new { pc = unwrap_or result m.new.pc })
        (I.rest input.new) (I.faults input.new) (O.written out.new) (O.faults out.new)) }
    ensures keeps { Keeps
        (configuration_of (record m.old { pc = pc })
        (I.rest input.old) (I.faults input.old) (O.written out.old) (O.faults out.old))
        (configuration_of (record m.new { pc = unwrap_or result m.new.pc })
        (I.rest input.new) (I.faults input.new) (O.written out.new) (O.faults out.new)) }
    ensures ended { is_none result ≡ is_some m.new.ended }
    ensures areas { KeepAreas m.old.memory m.new.memory }
    ensures takes_nothing { ¬ DoesCall (instr_of d.now) 63 m.old → input.new ≡ input.old }
    ensures sends_nothing { ¬ DoesCall (instr_of d.now) 64 m.old → out.new ≡ out.old }
{
    areas_stay();
    m.memory.lies();
    match exec_decoded(d, pc, &mut m.regs, &mut m.memory) {
        Next::At(next) => Some(next),
        Next::Call => {
            m.pc = pc;
            answer_call(m, input, out);
            if m.ended.is_some() { None } else { Some(m.pc) }
        }
        Next::Fault { kind, addr } => {
            end_at(m, pc, End::Faulted { kind, pc, addr });
            None
        }
    }
}

// Executes one instruction of a machine that has no ending.
#[tactic(auto, unfolding(crate::specs::Serial::step))]
fn advance<I: Source, O: Sink>(m: &mut Machine, input: &mut I, out: &mut O)
    requires { m.old.ended ≡ None }
    ensures acts { Acts StandsAtCall step
        (configuration_of m.old (I.rest input.old) (I.faults input.old) (O.written out.old) (O.faults out.old))
        (configuration_of m.new (I.rest input.new) (I.faults input.new) (O.written out.new) (O.faults out.new)) }
    ensures keeps { Keeps
        (configuration_of m.old (I.rest input.old) (I.faults input.old) (O.written out.old) (O.faults out.old))
        (configuration_of m.new (I.rest input.new) (I.faults input.new) (O.written out.new) (O.faults out.new)) }
    ensures takes_nothing { ¬ StandsAtCall 63 m.old → input.new ≡ input.old }
    ensures sends_nothing { ¬ StandsAtCall 64 m.old → out.new ≡ out.old }
{
    areas_stay();
    m.memory.lies();
    match decoded_from(&m.memory, m.pc) {
        Err(end) => end_at(m, m.pc, end),
        Ok(d) => if let Some(next) = execute(m, m.pc, &d, input, out) {
            m.pc = next;
        },
    }
}

/// Executes one instruction, and says how the run has ended, if it has. A machine that has an ending
/// stays as it is, with that ending. A fault of the source or the sink ends the run too, at the call
/// in which it was met: all is as it was before that call, but for bytes of the guest's buffer after a
/// fault of the source, and a first part of the call's bytes that has gone out.
pub fn step_serial<I: Source, O: Sink>(m: &mut Machine, input: &mut I, out: &mut O) -> Option<End>
    ensures answer { result ≡ m.new.ended }
    ensures acts { IsNone m.old.ended → Acts StandsAtCall step
        (configuration_of m.old (I.rest input.old) (I.faults input.old) (O.written out.old) (O.faults out.old))
        (configuration_of m.new (I.rest input.new) (I.faults input.new) (O.written out.new) (O.faults out.new)) }
    ensures keeps { Keeps
        (configuration_of m.old (I.rest input.old) (I.faults input.old) (O.written out.old) (O.faults out.old))
        (configuration_of m.new (I.rest input.new) (I.faults input.new) (O.written out.new) (O.faults out.new)) }

    // What is no read (63) takes nothing, and what is no write (64) sends nothing.
    ensures takes_nothing { ¬ StandsAtCall 63 m.old → input.new ≡ input.old }
    ensures sends_nothing { ¬ StandsAtCall 64 m.old → out.new ≡ out.old }

    // A machine that has an ending.
    ensures stays { IsSome m.old.ended → m.new ≡ m.old }
    ensures input_stays { IsSome m.old.ended → input.new ≡ input.old }
    ensures output_stays { IsSome m.old.ended → out.new ≡ out.old }
{
    if m.ended.is_some() {
        return m.ended;
    }
    advance(m, input, out);
    m.ended
}

/// How a run ended, and after how many instructions.
#[derive(Clone, Copy, PartialEq, Eq, Debug)]
pub struct Ran {
    pub end: End,
    /// The instructions that were executed; one that ended the run is among them.
    pub steps: u64,
}

// Executes instructions from `first` on, which stands at pc, until the run ends, but at most `fuel` of
// them, and counts them. Words are decoded once, into a table by their address.
fn run_from<I: Source, O: Sink>(
    m: &mut Machine,
    first: Decoded,
    fuel: u64,
    input: &mut I,
    out: &mut O,
) -> Ran
    requires running { m.old.ended ≡ None }
    requires first { instr_at m.old.memory m.old.pc ≡ Some (instr_of first) }
    ensures end { result.end ≡ unwrap_or m.new.ended End.Spent }
    ensures steps { (s : State) → m.old ≡ s.machine → TellsReads fuel s (I.rest input.old)
        → is_port_fault m.new.ended ≡ false → result.steps ≡ executed_of fuel s }
    ensures within { result.steps ≤ fuel }
    ensures runs { Runs fuel
        (configuration_of m.old (I.rest input.old) (I.faults input.old) (O.written out.old) (O.faults out.old))
        (configuration_of m.new (I.rest input.new) (I.faults input.new) (O.written out.new) (O.faults out.new)) }
    ensures keeps { Keeps
        (configuration_of m.old (I.rest input.old) (I.faults input.old) (O.written out.old) (O.faults out.old))
        (configuration_of m.new (I.rest input.new) (I.faults input.new) (O.written out.new) (O.faults out.new)) }
    ensures takes_nothing { (s : State) → m.old ≡ s.machine → NeverCalls 63 fuel s → input.new ≡ input.old }
    ensures sends_nothing { (s : State) → m.old ≡ s.machine → TellsReads fuel s (I.rest input.old)
        → NeverCalls 64 fuel s → out.new ≡ out.old }
{
    areas_stay();
    m.memory.lies();
    let mut pc = m.pc;
    let mut end = End::Spent;
    let mut table = [Entry {
        at: pc,
        decoded: first,
    }; PLACES];
    for k in 0..fuel {
        if !find_instr(&m.memory, &mut table, pc, &mut end) {
            end_at(m, pc, end);
            return Ran { end, steps: k + 1 };
        }
        let decoded = decoded_in(&m.memory, &table, pc);
        match execute(m, pc, decoded, input, out) {
            Some(next) => pc = next,
            None => return Ran {
                end: m.ended.unwrap_or(End::Spent),
                steps: k + 1,
            },
        }
    }
    m.pc = pc;
    Ran {
        end: End::Spent,
        steps: fuel,
    }
}

/// Executes instructions until the run ends, but at most `fuel` of them, and counts them. The ending
/// is `Spent` exactly where these have given none; the machine then has no ending. After a fault of
/// the source or the sink the machine stands at the call in which it was met, and nothing has been read
/// or written since.
pub fn run_counted<I: Source, O: Sink>(
    m: &mut Machine,
    fuel: u64,
    input: &mut I,
    out: &mut O,
) -> Ran
    ensures end { result.end ≡ unwrap_or m.new.ended End.Spent }
    ensures steps { (s : State) → m.old ≡ s.machine → TellsReads fuel s (I.rest input.old)
        → is_port_fault m.new.ended ≡ false → result.steps ≡ executed_of fuel s }
    ensures within { result.steps ≤ fuel }
    ensures runs { Runs fuel
        (configuration_of m.old (I.rest input.old) (I.faults input.old) (O.written out.old) (O.faults out.old))
        (configuration_of m.new (I.rest input.new) (I.faults input.new) (O.written out.new) (O.faults out.new)) }
    ensures keeps { Keeps
        (configuration_of m.old (I.rest input.old) (I.faults input.old) (O.written out.old) (O.faults out.old))
        (configuration_of m.new (I.rest input.new) (I.faults input.new) (O.written out.new) (O.faults out.new)) }

    // A run without reads (63), and one without writes (64).
    ensures takes_nothing { (s : State) → m.old ≡ s.machine → NeverCalls 63 fuel s → input.new ≡ input.old }
    ensures sends_nothing { (s : State) → m.old ≡ s.machine → TellsReads fuel s (I.rest input.old)
        → NeverCalls 64 fuel s → out.new ≡ out.old }

    // A machine that has an ending.
    ensures stays { IsSome m.old.ended → m.new ≡ m.old }
    ensures input_stays { IsSome m.old.ended → input.new ≡ input.old }
    ensures output_stays { IsSome m.old.ended → out.new ≡ out.old }
    ensures no_steps { IsSome m.old.ended → result.steps ≡ 0 }
{
    if let Some(end) = m.ended {
        return Ran { end, steps: 0 };
    }
    if fuel == 0 {
        return Ran {
            end: End::Spent,
            steps: 0,
        };
    }
    match decoded_from(&m.memory, m.pc) {
        Ok(first) => run_from(m, first, fuel, input, out),
        Err(end) => {
            end_at(m, m.pc, end);
            Ran { end, steps: 1 }
        }
    }
}

/// Executes instructions until the run ends, but at most `fuel` of them. `Spent` comes exactly where
/// these have given no ending; the machine then has none.
pub fn run_serial<I: Source, O: Sink>(m: &mut Machine, fuel: u64, input: &mut I, out: &mut O) -> End
    ensures end { result ≡ unwrap_or m.new.ended End.Spent }
    ensures runs { Runs fuel
        (configuration_of m.old (I.rest input.old) (I.faults input.old) (O.written out.old) (O.faults out.old))
        (configuration_of m.new (I.rest input.new) (I.faults input.new) (O.written out.new) (O.faults out.new)) }
    ensures keeps { Keeps
        (configuration_of m.old (I.rest input.old) (I.faults input.old) (O.written out.old) (O.faults out.old))
        (configuration_of m.new (I.rest input.new) (I.faults input.new) (O.written out.new) (O.faults out.new)) }

    // A run without reads (63), and one without writes (64).
    ensures takes_nothing { (s : State) → m.old ≡ s.machine → NeverCalls 63 fuel s → input.new ≡ input.old }
    ensures sends_nothing { (s : State) → m.old ≡ s.machine → TellsReads fuel s (I.rest input.old)
        → NeverCalls 64 fuel s → out.new ≡ out.old }

    // A machine that has an ending.
    ensures stays { IsSome m.old.ended → m.new ≡ m.old }
    ensures input_stays { IsSome m.old.ended → input.new ≡ input.old }
    ensures output_stays { IsSome m.old.ended → out.new ≡ out.old }
{
    run_counted(m, fuel, input, out).end
}
