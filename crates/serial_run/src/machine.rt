ghost use Rattle.std.specs.Prelude.{◌≡◌, Some};

use guest_calls::Brk;
use guest_memory::Memory;
use rv64_decode::{Fault, Regs};

/// How a run ends.
#[derive(Clone, Copy, PartialEq, Eq, Debug)]
pub enum End {
    /// The guest called exit with this code.
    Exited(u8),
    /// The instruction at `pc` faulted; `addr` is the address that was refused, the target of the
    /// jump, or the word that stands for no instruction.
    Faulted { kind: Fault, pc: u64, addr: u64 },
    /// As many instructions as were allowed have given no ending.
    Spent,
    /// The source met a fault.
    ReadFault,
    /// The sink met a fault.
    WriteFault,
}

/// The state of one hart with its memory.
#[derive(Drop)]
pub struct Machine {
    /// The address of the next instruction.
    pub pc: u64,
    pub regs: Regs,
    pub memory: Memory,
    pub brk: Brk,
    /// How the run has ended, if it has.
    pub ended: Option<End>,
}

/// The run ends at `pc`.
pub(crate) fn end_at(m: &mut Machine, pc: u64, end: End)
    ensures { m.new ≡ record m.old { pc = pc; ended = Some end } }
{
    m.pc = pc;
    m.ended = Some(end);
}
