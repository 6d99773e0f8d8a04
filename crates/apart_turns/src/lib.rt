//! What a held check says of the bytes that turns touch.
#![tactic(auto)]

pub mod laws;
