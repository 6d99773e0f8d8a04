//! The words of the code that is added for a loop: what harts execute before, between and behind the turns of their
//! blocks, and the copies of the loop's words.
#![tactic(auto)]

pub mod bodies;
mod copies;
pub mod ends;
mod places;
mod steps;
pub mod stub;
#[cfg(test)]
mod tests;
pub mod turns;
mod words;

pub use stub::emit_stub;
