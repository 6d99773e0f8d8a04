// The serial machine: one hart runs an executable to its ending.
#![tactic(auto)]

mod laws;
mod machine;
mod running;
mod table;

pub use laws::{
    faults_change_nothing, first_ending, input_is_only_taken, output_only_grows, states_are_sound,
};
pub use machine::{End, Machine};
pub use running::{Ran, execute, run_counted, run_serial, start, step_serial};

#[cfg(test)]
mod tests;
