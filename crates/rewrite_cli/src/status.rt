ghost use Rattle.std.specs.Prelude.{◌≡◌};
ghost use Rattle.rewrite_cli.specs.Status.{exit_number_of};

use rv64_decode::Fault;

/// Why a command is refused. What is said of a file is said of the executable in it: of the original
/// part, where the file is an image that is run.
#[derive(Clone, Copy, PartialEq, Eq, Debug)]
pub enum Reason {
    /// A file has more bytes than this limit of what is loaded.
    LoadTooLong { limit: u64 },
    /// The file has more than 67,108,864 bytes.
    TooLong { length: u64 },
    /// The file is no ELF file.
    NotElf,
    /// The file ends before its ELF header, or its program headers, which need so many bytes.
    HeaderCut { need: u128, have: u64 },
    /// The file's class is not that of 64 bits.
    Class(u8),
    /// The file's byte order is not little-endian.
    ByteOrder(u8),
    /// The file's version of the format is not 1.
    Version(u32),
    /// The file is no static executable.
    FileType(u16),
    /// The file is not for RISC-V.
    Machine(u16),
    /// The file has processor flags.
    Flags(u32),
    /// The file's program headers are not of 56 bytes.
    HeaderSize(u16),
    /// The file has more than 64 program headers.
    TooManyHeaders { count: u32 },
    /// A program header is the mark of an image.
    Marked { index: u32 },
    /// A load segment has more bytes in the file than in memory.
    SegmentSize { index: u32 },
    /// The bytes of a load segment pass the end of the file.
    SegmentCut { index: u32 },
    /// The file is to be linked dynamically.
    Dynamic { index: u32 },
    /// A load segment is both writable and executable.
    WritableCode { index: u32 },
    /// A load segment reaches past the address 0x50000000.
    Range { index: u32 },
    /// The load segments have more than 268,435,456 bytes in memory.
    TooMuchMemory { bytes: u64 },
    /// Two load segments have an address in common.
    Overlap { first: u32, second: u32 },
    /// The entry is no multiple of 4, or lies in no executable segment.
    EntryOutside { entry: u64 },
    /// More than 262,144 words are reached. The count is 262,145, where the search stops.
    TooManyWords { count: u64 },
    /// So many loops would be chosen to be divided, which is more than 1,024.
    TooManyLoops { count: u64 },
    /// So many words would be added, which is more than 4,194,304.
    CodeTooLong { words: u64 },
    /// The file is marked as an image, but not whole.
    BadMark,
    /// The file is not the image of its original part: the first byte that differs, or the shorter
    /// length where one is the beginning of the other.
    Altered { offset: u64 },
    /// The size of a sample passes its kind's limit.
    TooLarge { n: u64 },
}

/// What a command answers.
#[derive(Clone, Copy, PartialEq, Eq, Debug)]
pub enum Status {
    /// The command is done: what it lists is written, or what it makes is saved.
    Done,
    /// The guest called exit with this code.
    Exited(u8),
    /// The guest's instruction at `pc` faulted; `addr` is the address that was refused, the target of
    /// the jump, or the word that stands for no instruction.
    Faulted { kind: Fault, pc: u64, addr: u64 },
    /// As many instructions as were allowed have given no ending.
    Spent,
    /// The words are no command.
    Usage,
    /// The command's file is refused, or the size of the sample that it is to make.
    Refused(Reason),
    /// The store met a fault, or it has no file of a name that is to be loaded.
    StoreFault,
    /// The input met a fault.
    ReadFault,
    /// The output or the report met a fault.
    WriteFault,
    /// There was no memory.
    OutOfMemory,
}

impl Status {
    /// The program's exit status: 0 after `Done`, the guest's code after `Exited`, and from 120 on for
    /// the others.
    pub fn exit_number(&self) -> u8
        ensures { result ≡ exit_number_of self.now }
    {
        match *self {
            Status::Done => 0,
            Status::Exited(code) => code,
            Status::Faulted { .. } => 120,
            Status::Spent => 121,
            Status::Usage => 123,
            Status::Refused(_) => 124,
            Status::StoreFault => 125,
            Status::ReadFault => 126,
            Status::WriteFault => 127,
            Status::OutOfMemory => 128,
        }
    }
}
