//! What is known of a program's loops: its reached words, their loops, and a verdict for each.
//!
//! `specs/` has the definitions that all crates about loops cite: the reached words of an executable as a
//! graph (`Code`, `Targets`, `Reaching`, `Graphs`, `Starts`), its loops (`Paths`, `Sets`, `Bodies`,
//! `Instructions`, `Shape`, `Early`, `Listed`, `Loops`), what the levels of a loop promise (`Nests`,
//! `LoopWords`), the turns of a loop in a run (`Runs`, `Turns`, `Passes`, `Locations`, `Independent`,
//! `Holds`), and what is known of the values at the words of a loop (`LoopCode`, `Facts`, `FactPass`,
//! `FormRows`, `Points`, `PooledPoints`, `Equations`, `Classes`), of the turns that stay (`Trips`) and of
//! memory that is accessed (`Accesses`), with what the laws about it ask of a run (`Executing`,
//! `FactLaws`).
//! They speak of addresses, words and what these stand for, and of nothing of the code that finds them.
#![tactic(auto)]

pub mod accesses;
pub mod cells;
pub mod classes;
pub mod equations;
pub mod flow;
pub mod graph;
pub mod laws;
pub mod lookups;
pub mod nesting;
pub mod plans;
pub mod points;
pub mod same_forms;
pub mod shape;
pub mod trips;
pub mod value_places;
pub mod value_rows;
pub mod values;
pub mod verdict;

pub use accesses::{Access, Accesses};
pub use cells::Cells;
pub use classes::{Class, Classes};
pub use equations::{Duties, Duty, Equations};
pub use flow::{Flow, loop_flow};
pub use graph::{Addresses, Graph, GraphWords, Word};
pub use plans::{Plan, Term};
pub use points::Points;
pub use shape::{Level, Levels, LoopShape};
pub use trips::{Relation, Trip};
pub use value_places::value_pass;
pub use values::{Value, Values};
pub use verdict::{Cell, Verdict};
