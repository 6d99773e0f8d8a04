// Images: an executable with added code, as a file.
#![tactic(auto)]

pub mod image;
pub mod record;
pub mod splitting;
#[cfg(test)]
mod tests;
pub mod writing;

pub use image::{Code, Entries, Entry, Image};
pub use splitting::{Split, split_image};
pub use writing::{WriteErr, write_image};
