ghost use Rattle.std.specs.Prelude.{◌≡◌, ◌<◌, List};
ghost use Rattle.rv64_decode.specs.Ask.{after, IsAllowed};
ghost use Rattle.rv64_decode.specs.Hart.{x_asks, x_outcome};
ghost use Rattle.rv64_decode.specs.XForm.{HasSlot};
ghost use Rattle.rv64_meaning.specs.Executes.{IsHalt};

use crate::execution::exec;
use rv64_decode::{Next, Regs, Words, XInstr, XNext};

/// Executes one instruction of added code at the address `pc`, on the hart of number `hart` among `harts`: its
/// part on this hart's registers and slots and on memory. What concerns other harts, or the code that the
/// hart came from, is [`XNext::Shared`] and left to the caller. A slot has to be among the 32, and an
/// instruction that loads or stores may be executed where its access may be asked of the memory.
pub fn exec_x<W: Words>(
    i: XInstr,
    pc: u64,
    regs: &mut Regs,
    slots: &mut [u64; 32],
    hart: u32,
    harts: u32,
    mem: &mut W,
) -> XNext
    requires slot { HasSlot i }
    requires access { IsAllowed (W.allows mem.old) (x_asks i regs.old) }
    ensures next { result ≡ (x_outcome i pc regs.old slots.old hart harts (W.memory mem.old)).next }
    ensures registers { regs.new ≡ (x_outcome i pc regs.old slots.old hart harts (W.memory mem.old)).regs }
    ensures slots { slots.new ≡ (x_outcome i pc regs.old slots.old hart harts (W.memory mem.old)).slots }
    ensures memory { W.memory mem.new ≡ after (W.memory mem.old) (x_asks i regs.old) }
    ensures moves { W.moves mem.old (x_asks i regs.old) mem.new }

    // Where the hart does not go on by the instruction alone, nothing has changed.
    ensures halt_registers { IsHalt result → regs.new ≡ regs.old }
    ensures halt_slots { IsHalt result → slots.new ≡ slots.old }
    ensures halt_memory { IsHalt result → W.memory mem.new ≡ W.memory mem.old }
{
    let next = XNext::Own(Next::At(pc.wrapping_add(4)));
    match i {
        XInstr::Base(base) => XNext::Own(exec(base, pc, regs, mem)),
        XInstr::Put { slot, rs1 } => {
            slots[slot as usize] = regs.get(rs1);
            next
        }
        XInstr::Get { rd, slot } => {
            regs.set(rd, slots[slot as usize]);
            next
        }
        XInstr::Id { rd } => {
            regs.set(rd, hart as u64);
            next
        }
        XInstr::Harts { rd } => {
            regs.set(rd, harts as u64);
            next
        }
        XInstr::Par | XInstr::Join | XInstr::Back => XNext::Shared,
    }
}
