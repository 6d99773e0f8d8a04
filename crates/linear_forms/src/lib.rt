// Locations of a loop, and linear forms over their values at the loop's entry.
#![tactic(auto)]

pub mod divisor;
pub mod form;
pub mod laws;
pub mod location;
pub mod terms;
#[cfg(test)]
mod tests;

pub use divisor::gcd;
pub use form::Form;
pub use location::Loc;
pub use terms::Terms;
