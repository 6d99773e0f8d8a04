// The calls of a guest's environment: read, write, exit and brk.
#![tactic(auto)]

mod calls;

pub use calls::call;

/// The guest's break, which moves within the heap.
#[derive(Clone, Copy, PartialEq, Eq, Debug)]
pub struct Brk {
    /// The break.
    pub at: u64,
    /// The first address of the heap.
    pub low: u64,
    /// The address behind the heap.
    pub high: u64,
}

/// What becomes of the run after a call.
#[derive(Clone, Copy, PartialEq, Eq, Debug)]
pub enum Going {
    /// It goes on behind the call.
    On,
    /// It ends with this code.
    Exit(u8),
}

/// A source or a sink met a fault in a call.
#[derive(Clone, Copy, PartialEq, Eq, Debug)]
pub enum PortFault {
    /// The source did, in a read.
    Read,
    /// The sink did, in a write.
    Write,
}

#[cfg(test)]
mod tests;
