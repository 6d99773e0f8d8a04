//! The machine of several harts that runs an image: the original on hart 0, and the added code on all of them. One
//! event of one hart at a time, in any order.
#![tactic(auto)]

mod counts;
mod entries;
mod events;
mod first;
mod harts;
mod laws;
mod rows;
mod seat;

pub use counts::{Counts, LoopCount, Place};
pub use entries::Found;
pub use harts::{Event, Harts};
pub use laws::{a_sample_runs, append_law, ended_law, growth_law, idle_law};
