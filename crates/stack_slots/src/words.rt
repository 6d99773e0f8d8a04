use rv64_decode::{Instr, Width};

/// An address that is known while a loop runs: a number, or the value that a register which the loop does not
/// write had at its header, and an offset.
#[derive(Clone, Copy, Default)]
pub struct KnownAddress {
    /// The register, or none where the offset is the address.
    pub base: Option<u8>,
    /// The offset from the register in bytes, or the address.
    pub offset: i64,
}

/// An access to bytes from a known address on.
#[derive(Clone, Copy, Default)]
pub struct Touch {
    /// The least address.
    pub address: KnownAddress,
    /// How many bytes it moves.
    pub width: Width,
    /// Whether it writes them.
    pub store: bool,
    /// Whether it is an access of a cell: by lw, ld, sw or sd.
    pub of_cell: bool,
}

/// A word of a loop, with what it accesses at a known address.
#[derive(Clone, Copy, Default)]
pub struct BodyWord {
    /// Its address.
    pub at: u64,
    /// What it stands for.
    pub instr: Option<Instr>,
    /// Its access, if its address is known.
    pub touch: Option<Touch>,
}
