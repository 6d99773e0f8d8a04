use crate::instr::Instr;
use crate::outcome::Next;
use crate::registers::Reg;

/// An instruction of added code: one of RV64IM, or one of seven on the opcode custom-0, which the manual
/// leaves to extensions ("RV32/64G Instruction Set Listings", "RISC-V base opcode map"). These move words
/// between the registers and the 32 slots of a hart, divide a loop among harts, and join them again.
#[derive(Clone, Copy, PartialEq, Eq, Debug)]
pub enum XInstr {
    /// An instruction of RV64IM, with its ordinary meaning.
    Base(Instr),
    /// `xp.put`: the slot takes the register. A slot's number is below 32.
    Put { slot: u8, rs1: Reg },
    /// `xp.get`: the register takes the slot.
    Get { rd: Reg, slot: u8 },
    /// `xp.par`: the other harts begin behind it, with the registers and slots of this one.
    Par,
    /// `xp.join`: the hart is done, and the first one goes on when all are.
    Join,
    /// `xp.back`: the hart leaves the added code.
    Back,
    /// `xp.id`: the register takes the hart's number.
    Id { rd: Reg },
    /// `xp.harts`: the register takes the number of harts.
    Harts { rd: Reg },
}

/// Where an instruction of added code leads.
#[derive(Clone, Copy, PartialEq, Eq, Debug)]
pub enum XNext {
    /// The hart goes on by itself, or stops by itself.
    Own(Next),
    /// The instruction concerns other harts or the code that the hart came from, so that who runs the harts
    /// says what becomes of this one.
    Shared,
}
