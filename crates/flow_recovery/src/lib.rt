//! The reached words of an executable, with the edges between them: which words a run may come to, as
//! far as the instruction words themselves tell.
//!
//! The definition stands in `loop_data`, where all crates above can cite it: the words of code (`Code`),
//! where a word leads (`Targets`), the least set of words that holds the entry and all that its words lead
//! to (`Reaching`), and that set as a graph (`Graphs`). `specs/` has what holds during the search.
#![tactic(auto)]

pub mod code;
pub mod flow;
pub mod laws;
mod listing;
mod reaching;
pub mod recovery;
pub mod refusal;
#[cfg(test)]
mod tests;

pub use recovery::recover;
pub use refusal::FlowErr;
