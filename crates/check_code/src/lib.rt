//! The words that a loop's check is written as, piece by piece, and what each piece does where one hart runs it.
#![tactic(auto)]

#[cfg(test)]
mod access_rows;
pub mod accesses;
pub mod cells;
pub mod duties;
mod emit;
#[cfg(test)]
mod emit_tests;
mod laws;
pub mod macros;
mod numbered;
mod pair_laws;
pub mod pairs;
pub mod ranges;
mod rounds;
mod steps;
#[cfg(test)]
mod tests;
mod turn_laws;
#[cfg(test)]
mod turn_tests;
pub mod turns;

pub use emit::{areas_have_room, emit_check, found_checks_are_told};
pub use laws::{
    a_branch_is_needed, areas_are_tried, cells_are_addressed, forms_are_worked_out,
    greatest_values_are_worked_out, least_values_are_worked_out, locations_are_brought,
    numbers_are_made, spans_are_added,
};
pub use pair_laws::{accesses_are_kept_off_cells, accesses_are_tested, pairs_are_tested};
pub use turn_laws::{duties_are_tested, passes_are_told, turns_are_told};
