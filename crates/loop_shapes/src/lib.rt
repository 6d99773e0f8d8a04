//! The loops of a program, recovered from its reached words: bodies, shape, nests, and the verdicts
//! that the shape of a loop decides.
//!
//! The definition stands in `loop_data`, where all crates above can cite it: ways along step edges
//! (`Paths`), bodies of loops (`Bodies`), their shape (`Shape`), the verdicts that it decides (`Early`),
//! edges that close no loop and are listed nevertheless (`Listed`), and the list of all loops (`Loops`).
//! `specs/` has what holds during the searches.
#![tactic(auto)]

mod around;
mod body;
mod closed;
mod cycles;
mod early;
mod edges;
mod entry;
mod exits;
mod kind;
pub mod laws;
mod levels;
mod line;
mod listed;
mod listing;
mod loop_body;
mod marks;
mod nest;
mod net;
mod numbers;
mod open;
mod outer;
mod pairs;
mod place_set;
mod places;
mod program;
mod reach;
mod search;
mod sets;
mod shape;
#[cfg(test)]
mod tests;
mod walk;
mod word_ranks;

pub use listing::loops;
