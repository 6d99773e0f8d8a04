//! Rewriting an executable into an image, and the admission of images that are so made.
#![tactic(auto)]

mod admission;
pub mod laws;
mod rewriting;
#[cfg(test)]
mod tests;

pub use admission::{AdmitErr, admit};
pub use rewriting::{RewriteErr, Rewritten, rewrite};
