//! Tests of what is found of loops, over whole executables. There is no code here.
#![tactic(auto)]

#[cfg(test)]
mod tests;
