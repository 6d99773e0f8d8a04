//! The cells of a loop: memory at known addresses that it uses as registers. A cell stands at a number, or at an
//! offset from a register that the loop does not write.
#![tactic(auto)]

mod faults;
pub mod laws;
mod list;
#[cfg(test)]
mod tests;
mod touches;
mod uses;
pub mod words;

pub use laws::{cells_are_found, cells_are_limited, one_list_of_cells};
pub use list::cells;
