// What a program reads from and writes to outside itself: a source, a sink, a store of named files
// and a gate, with fakes that tell their content and adapters to the real world.
#![tactic(auto)]

pub mod adapters;
mod calls;
mod entry;
pub mod file_store;
pub mod mem_sink;
pub mod mem_source;
pub mod mem_store;
pub mod ports;
mod replacing;

pub use adapters::{ErrSink, NoGate, StdSink, StdSource};
pub use file_store::FileStore;
pub use mem_sink::MemSink;
pub use mem_source::MemSource;
pub use mem_store::MemStore;
pub use ports::{Failed, Gate, SaveErr, Sink, Source, Store, StoreErr};

#[cfg(test)]
mod tests;
