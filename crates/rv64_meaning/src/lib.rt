//! What one instruction of RV64IM does to the program counter, the registers and memory, and what one of
//! added code does to these and to a hart's slots.
#![tactic(auto)]

mod added;
mod arithmetic;
mod decoded;
mod execution;
mod mnemonic;
#[cfg(test)]
mod tests;

pub use added::exec_x;
pub use decoded::Decoded;
pub use execution::{exec, exec_decoded};
pub use mnemonic::Mnemonic;
pub use rv64_decode::{Fault, Next, XNext};
