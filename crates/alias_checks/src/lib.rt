//! The check that decides, where a loop is arrived at, how many of its turns are divided.
#![tactic(auto)]

mod access_tests;
pub mod areas;
mod arrival;
mod cell_tests;
mod copies;
mod entry;
pub mod laws;
mod listing;
pub mod lists;
mod stays;
#[cfg(test)]
mod tests;

pub use arrival::holds;
pub use listing::check_of;
pub use lists::{Areas, Check, Pairs, Trips, Turns};
