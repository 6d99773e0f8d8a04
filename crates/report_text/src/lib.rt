//! The lines that tell of a program's loops, and of a run.
#![tactic(auto)]

mod laws;
mod lines;
mod runs;
#[cfg(test)]
mod tests;

pub use laws::{addresses_are_hexadecimal, loops_have_one_line};
pub use lines::loop_line;
pub use runs::run_lines;
