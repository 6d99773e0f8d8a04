//! The accesses of a loop to memory but to its cells, with the forms of their addresses.
#![tactic(auto)]

mod addresses;
pub mod laws;
mod list;

pub use list::{Irregular, accesses};
