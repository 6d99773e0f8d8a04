ghost use Rattle.std.specs.Prelude.{◌≡◌, ◌+◌, ◌<◌, ◌≤◌, length};
ghost use Rattle.elf_image.specs.Rules.{fields_refusal, table_refusal, file_refusal, breaks, refusal_by, rule_refusal, headers_refusal, makes_area as has_area};

use crate::header::{
    FILE_HEADER_SIZE, FileHeader, PROGRAM_HEADER_SIZE, ProgramHeader, begins_as_elf,
};
use std::alloc::{AllocError, AllocFailed};

/// The length in bytes of the longest file that is read.
pub const FILE_SIZE_LIMIT: usize = 67_108_864;

/// As many program headers as a file may have.
pub const HEADER_LIMIT: u16 = 64;

/// The type of the program header that marks an image.
pub const MARK_KIND: u32 = 0x6550_5201;

/// No load segment reaches past this address.
pub const LOAD_END: u64 = 0x5000_0000;

/// Why a file is not read as an executable: the first of these rules that it breaks, in this order. An
/// `index` is the least place, counted from 0, of a program header that breaks the rule. The fields are
/// those of the System V gABI, "ELF Header" and "Program Header".
#[derive(Clone, Copy, Debug, PartialEq, Eq)]
pub enum ElfErr {
    /// The file has more than 67,108,864 bytes.
    TooLong { length: u64 },
    /// There are fewer than 4 bytes, or the first four are not those of an ELF file.
    NotElf,
    /// The file ends before its ELF header, or its program headers, which `need` so many bytes.
    HeaderCut { need: u128, have: u64 },
    /// `e_ident[EI_CLASS]` is not 2: the file is not one for 64 bits.
    Class(u8),
    /// `e_ident[EI_DATA]` is not 1: the file is not little-endian.
    ByteOrder(u8),
    /// `e_ident[EI_VERSION]` or else `e_version` is not 1.
    Version(u32),
    /// `e_type` is not 2: the file is no static executable.
    FileType(u16),
    /// `e_machine` is not 243: the file is not for RISC-V.
    Machine(u16),
    /// `e_flags` is not 0: the file has compressed code, or another calling convention.
    Flags(u32),
    /// There are program headers, and `e_phentsize` is not 56.
    HeaderSize(u16),
    /// There are more than 64 program headers.
    TooManyHeaders { count: u32 },
    /// A program header has the type of the mark of an image.
    Marked { index: u32 },
    /// A load segment has more bytes in the file than in memory.
    SegmentSize { index: u32 },
    /// The bytes of a load segment pass the end of the file.
    SegmentCut { index: u32 },
    /// A program header is of type PT_DYNAMIC or PT_INTERP: the file is to be linked dynamically.
    Dynamic { index: u32 },
    /// A load segment is both writable and executable.
    WritableCode { index: u32 },
    /// A load segment reaches past the address 0x50000000.
    Range { index: u32 },
    /// The load segments have more than 268,435,456 bytes in memory, each widened to multiples of 8.
    TooMuchMemory { bytes: u64 },
    /// Two load segments, each widened to multiples of 8, have an address in common.
    Overlap { first: u32, second: u32 },
    /// The entry is no multiple of 4, or lies in no executable segment.
    EntryOutside { entry: u64 },
    /// There was no memory.
    OutOfMemory,
}

impl From<AllocError> for ElfErr {
    ghost use Rattle.elf_image.specs.declared.rules.ElfErr.TheVariants.{OutOfMemory};

    ghost from_gives = { λ _ e. e ≡ OutOfMemory };

    fn from(_error: AllocError) -> ElfErr {
        ElfErr::OutOfMemory
    }
}

impl<T: Drop> From<AllocFailed<T>> for ElfErr {
    ghost use Rattle.elf_image.specs.declared.rules.ElfErr.TheVariants.{OutOfMemory};

    ghost from_gives = { λ _ e. e ≡ OutOfMemory };

    fn from(_error: AllocFailed<T>) -> ElfErr {
        ElfErr::OutOfMemory
    }
}

/// A rule on each program header.
#[derive(Clone, Copy)]
pub enum HeaderRule {
    Marked,
    SegmentSize,
    SegmentCut,
    Dynamic,
    WritableCode,
    Range,
}

impl HeaderRule {
    // Whether the header breaks the rule; the file has so many bytes.
    #[tactic(auto, unfolding(crate::specs::Rules::breaks))]
    fn is_broken_by(self, header: &ProgramHeader, size: u64) -> bool
        ensures { result ≡ breaks self size header.now }
    {
        match self {
            HeaderRule::Marked => header.kind == MARK_KIND,
            HeaderRule::SegmentSize => header.kind == 1 && header.memsz < header.filesz,
            HeaderRule::SegmentCut => {
                header.kind == 1 && u128::from(size) < sum(header.offset, header.filesz)
            }
            HeaderRule::Dynamic => header.kind == 2 || header.kind == 3,
            HeaderRule::WritableCode => {
                header.kind == 1 && header.flags / 2 % 2 == 1 && header.flags % 2 == 1
            }
            HeaderRule::Range => {
                makes_area(header) && u128::from(LOAD_END) < sum(header.vaddr, header.memsz)
            }
        }
    }

    // The refusal for a header that breaks the rule.
    fn refusal(self, index: u32) -> ElfErr
        ensures { result ≡ refusal_by self index }
    {
        match self {
            HeaderRule::Marked => ElfErr::Marked { index },
            HeaderRule::SegmentSize => ElfErr::SegmentSize { index },
            HeaderRule::SegmentCut => ElfErr::SegmentCut { index },
            HeaderRule::Dynamic => ElfErr::Dynamic { index },
            HeaderRule::WritableCode => ElfErr::WritableCode { index },
            HeaderRule::Range => ElfErr::Range { index },
        }
    }
}

/// The sum of two numbers, whatever they are.
pub(crate) fn sum(a: u64, b: u64) -> u128
    ensures { result ≡ a + b }
{
    u128::from(a) + u128::from(b)
}

/// Whether a header is that of a load segment whose memory size is above 0.
pub(crate) fn makes_area(header: &ProgramHeader) -> bool
    ensures { result ≡ has_area header.now }
{
    header.kind == 1 && header.memsz > 0
}

/// The first rule on the file and its ELF header that is broken.
#[tactic(auto, unfolding(crate::specs::Rules::file_refusal))]
pub(crate) fn refusal_of_file(bytes: &[u8]) -> Option<ElfErr>
    ensures { result ≡ file_refusal bytes.now }
{
    let size = bytes.len() as u64;
    if bytes.len() > FILE_SIZE_LIMIT {
        return Some(ElfErr::TooLong { length: size });
    }
    if !begins_as_elf(bytes) {
        return Some(ElfErr::NotElf);
    }
    if bytes.len() < FILE_HEADER_SIZE {
        return Some(ElfErr::HeaderCut {
            need: FILE_HEADER_SIZE as u128,
            have: size,
        });
    }
    let header = FileHeader::read(bytes);
    match refusal_of_fields(&header) {
        Some(e) => Some(e),
        None => refusal_of_table(&header, size),
    }
}

// The first rule on the fields of the ELF header that is broken.
fn refusal_of_fields(header: &FileHeader) -> Option<ElfErr>
    ensures { result ≡ fields_refusal header.now }
{
    if header.class != 2 {
        Some(ElfErr::Class(header.class))
    } else if header.data_encoding != 1 {
        Some(ElfErr::ByteOrder(header.data_encoding))
    } else if header.ident_version != 1 {
        Some(ElfErr::Version(u32::from(header.ident_version)))
    } else if header.version != 1 {
        Some(ElfErr::Version(header.version))
    } else if header.kind != 2 {
        Some(ElfErr::FileType(header.kind))
    } else if header.machine != 243 {
        Some(ElfErr::Machine(header.machine))
    } else if header.flags != 0 {
        Some(ElfErr::Flags(header.flags))
    } else if header.phnum != 0 && usize::from(header.phentsize) != PROGRAM_HEADER_SIZE {
        Some(ElfErr::HeaderSize(header.phentsize))
    } else {
        None
    }
}

// The first rule on the place and the number of the program headers that is broken.
fn refusal_of_table(header: &FileHeader, size: u64) -> Option<ElfErr>
    ensures { result ≡ table_refusal size header.now }
{
    let need = u128::from(header.phoff) + 56 * u128::from(header.phnum);
    if header.phnum != 0 && need > u128::from(size) {
        Some(ElfErr::HeaderCut { need, have: size })
    } else if header.phnum > HEADER_LIMIT {
        Some(ElfErr::TooManyHeaders {
            count: u32::from(header.phnum),
        })
    } else {
        None
    }
}

// The refusal by one rule on each header.
fn refusal_by_rule(rule: HeaderRule, size: u64, headers: &[ProgramHeader]) -> Option<ElfErr>
    requires { length headers.now ≤ 64 }
    ensures { result ≡ rule_refusal rule size headers.now }
{
    for index in 0..headers.len() {
        if rule.is_broken_by(&headers[index], size) {
            return Some(rule.refusal(index as u32));
        }
    }
    None
}

/// The first rule on each header that is broken.
#[tactic(auto, unfolding(crate::specs::Rules::headers_refusal))]
pub(crate) fn refusal_of_headers(size: u64, headers: &[ProgramHeader]) -> Option<ElfErr>
    requires { length headers.now ≤ 64 }
    ensures { result ≡ headers_refusal size headers.now }
{
    if let Some(e) = refusal_by_rule(HeaderRule::Marked, size, headers) {
        return Some(e);
    }
    if let Some(e) = refusal_by_rule(HeaderRule::SegmentSize, size, headers) {
        return Some(e);
    }
    if let Some(e) = refusal_by_rule(HeaderRule::SegmentCut, size, headers) {
        return Some(e);
    }
    if let Some(e) = refusal_by_rule(HeaderRule::Dynamic, size, headers) {
        return Some(e);
    }
    if let Some(e) = refusal_by_rule(HeaderRule::WritableCode, size, headers) {
        return Some(e);
    }
    refusal_by_rule(HeaderRule::Range, size, headers)
}
