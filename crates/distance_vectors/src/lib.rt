//! Distances: the first vector of turns after which one access of a loop meets another.
#![tactic(auto)]

pub mod laws;
mod meeting;
mod search;
#[cfg(test)]
mod tests;

pub use search::distance;
