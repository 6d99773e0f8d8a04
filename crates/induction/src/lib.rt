//! The classes of the locations that a loop writes: inductions, which a turn moves on by a step, and private
//! ones, which each turn writes before it reads them. A loop that writes a location in another way carries
//! it from turn to turn.
#![tactic(auto)]

pub mod laws;
mod masks;
mod moves;
mod nest;
mod reads;
pub mod refusal;
mod rows;
#[cfg(test)]
mod tests;
mod words;
mod writers;

pub use nest::classes;
pub use refusal::ClassErr;
