// Loops of which each definition of turns and of independence is tried: laws, with nothing to run.
#![tactic(auto)]

pub mod laws;
