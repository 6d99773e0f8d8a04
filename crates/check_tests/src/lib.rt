//! Tests of what checks tell at the start of whole executables. There is no code here.
#![tactic(auto)]

#[cfg(test)]
mod tests;
