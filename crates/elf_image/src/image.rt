ghost use Rattle.std.specs.Prelude.{◌≡◌};

use std::marker::Model;

/// Bytes of a file, seen as a list.
#[derive(Drop)]
pub struct Bytes {
    bytes: Vec<u8>,
}

impl Model for Bytes {
    ghost use Rattle.std.specs.Prelude.{ℕ, List};

    ghost Value = { List ℕ };

    ghost view = { λ b. b.bytes.items };
}

impl Bytes {
    /// These bytes.
    pub fn new(bytes: Vec<u8>) -> Bytes
        ensures { result ≡ bytes.items }
    {
        Bytes { bytes }
    }

    pub fn as_slice(&self) -> &[u8]
        ensures { result.now ≡ self.now }
    {
        self.bytes.as_slice()
    }

    pub fn into_vec(self) -> Vec<u8>
        ensures { result.items ≡ self }
    {
        let Bytes { bytes } = self;
        bytes
    }
}

/// A program header of type `PT_LOAD` whose memory size is above 0 (System V gABI, "Program Header").
#[derive(Drop)]
pub struct Segment {
    /// The place of the header among all program headers, counted from 0.
    pub index: u32,
    /// `p_vaddr`: the address of the first byte.
    pub vaddr: u64,
    /// `p_memsz`: the number of bytes in memory.
    pub memsz: u64,
    /// `p_flags`: 1 execute, 2 write, 4 read.
    pub flags: u32,
    /// The `p_filesz` bytes that the file has; those of memory behind them are 0.
    pub bytes: Bytes,
}

/// Load segments, seen as a list.
#[derive(Drop)]
pub struct Segments {
    segments: Vec<Segment>,
}

impl Model for Segments {
    ghost use Rattle.std.specs.Prelude.{List};
    ghost use Rattle.elf_image.specs.declared.image.Segment.{Segment};

    ghost Value = { List Segment };

    ghost view = { λ s. s.segments.items };
}

impl Segments {
    /// These segments.
    pub fn new(segments: Vec<Segment>) -> Segments
        ensures { result ≡ segments.items }
    {
        Segments { segments }
    }

    pub fn as_slice(&self) -> &[Segment]
        ensures { result.now ≡ self.now }
    {
        self.segments.as_slice()
    }

    pub fn into_vec(self) -> Vec<Segment>
        ensures { result.items ≡ self }
    {
        let Segments { segments } = self;
        segments
    }
}

/// A static executable: where it starts, and the load segments that make areas, in address order.
#[derive(Drop)]
pub struct Elf {
    /// `e_entry`: the address of the first instruction.
    pub entry: u64,
    pub segments: Segments,
}
