//! Instructions of RV64IM (RISC-V unprivileged manual, RV64I and M) as words: which instruction a word
//! stands for, and the word of an instruction. Beside them stand what an instruction works on, the
//! registers and the memory behind [`Words`], and where it leads, [`Next`].
//!
//! `specs/` has what one instruction does: the table of words, and what each row asks of memory and
//! makes of the program counter and the registers. FENCE.I ("Zifencei"), the CSR instructions and
//! every other extension are outside the table.
//!
//! Added code has seven more instructions, of custom-0 ([`XInstr`]), and open jumps that get their target
//! last ([`aim`]). `specs/` has what one hart does by such words, and the run of them.
#![tactic(auto)]

pub mod aiming;
pub mod instr;
mod laws;
pub mod memory;
pub mod outcome;
pub mod reading;
pub mod registers;
#[cfg(test)]
mod tests;
pub mod writing;
pub mod xinstr;
#[cfg(test)]
mod xtests;
pub mod xwords;

pub use aiming::aim;
pub use instr::{AluOp, BranchOp, ImmOp, Instr, LoadOp, StoreOp, UpperOp};
pub use laws::{decoded_fields_are_in_range, instructions_keep_words};
pub use memory::{MemFault, Width, Words};
pub use outcome::{Fault, Next};
pub use reading::decode;
pub use registers::{Reg, Regs};
pub use writing::encode;
pub use xinstr::{XInstr, XNext};
pub use xwords::{decode_x, encode_x};
