use linear_forms::Loc;

/// A cell of memory that a loop uses as a register: 4 or 8 bytes at a known address, or at an offset
/// from a register that the loop does not write.
#[derive(Clone, Copy, PartialEq, Eq, Debug, Default)]
pub struct Cell {
    /// The register, or none where the offset is the address.
    pub base: Option<u8>,
    /// The offset from the register in bytes, or the address.
    pub offset: i64,
    /// Whether it has 8 bytes.
    pub wide: bool,
    /// Whether the loop writes it.
    pub stored: bool,
}

/// What is found of a loop. An `at` is the address of the word that decides.
#[derive(Clone, Copy, PartialEq, Eq, Debug)]
pub enum Verdict {
    /// The loop has an entry beside its header: an edge, or a start word as both ends.
    MultiEntry {
        from: u64,
        to: u64,
    },
    /// The loop passes a limit of size.
    Limit {
        at: u64,
    },
    /// The loop calls a function.
    Call {
        at: u64,
    },
    /// The loop makes a system call.
    System {
        at: u64,
    },
    /// The loop jumps to an address that is not known.
    Indirect {
        at: u64,
    },
    /// The loop has a word that stands for no instruction of RV64IM.
    Unsupported {
        at: u64,
    },
    /// The loop, or an inner loop with this header, has not one back edge and one exit branch.
    Shape {
        at: u64,
    },
    /// Two accesses have bytes in common, one of them of a cell, and are not accesses of one cell.
    MixedCell {
        at: u64,
    },
    /// A turn needs the value that the turn before left in this location; the cell is that of the
    /// location.
    Carried {
        loc: Loc,
        cell: Option<Cell>,
    },
    /// The number of turns is not known before the loop.
    NoTrip {
        at: u64,
    },
    /// The address of an access has no form, or a stride that is no multiple of the access's width.
    Irregular {
        at: u64,
    },
    /// Two turns at this distance access the same bytes, one of them writing. The distance has one
    /// entry for the root and one for each of so many common inner loops.
    Dependence {
        first: u64,
        second: u64,
        common: u32,
        distance: Option<[i64; 3]>,
    },
    /// The turns are independent wherever the check at run time holds.
    Parallel,
}
