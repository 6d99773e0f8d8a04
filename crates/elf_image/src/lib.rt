// A static RV64IM ELF executable as its entry and load segments.
#![tactic(auto)]

pub mod header;
pub mod image;
pub mod placing;
pub mod reading;
pub mod rules;
#[cfg(test)]
mod tests;

pub use image::{Bytes, Elf, Segment, Segments};
pub use reading::read_elf;
pub use rules::ElfErr;
