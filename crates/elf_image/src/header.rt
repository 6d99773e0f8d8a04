ghost use Rattle.std.specs.Prelude.{◌≡◌, ◌+◌, ◌≤◌, length};
ghost use Rattle.elf_image.specs.Header.{field, file_header, program_header, is_elf};

use byteorder::{ByteOrder, LittleEndian};

/// The first bytes of each ELF file.
pub const MAGIC: [u8; 4] = [0x7F, b'E', b'L', b'F'];

/// The length of the ELF header in bytes.
pub const FILE_HEADER_SIZE: usize = 64;

/// The length of a program header in bytes.
pub const PROGRAM_HEADER_SIZE: usize = 56;

/// What is read of the ELF header (System V gABI, "ELF Header"); each field is named by its comment.
#[derive(Clone, Copy)]
pub struct FileHeader {
    /// `e_ident[EI_CLASS]`: 2 for 64 bits.
    pub class: u8,
    /// `e_ident[EI_DATA]`: 1 for little-endian.
    pub data_encoding: u8,
    /// `e_ident[EI_VERSION]`.
    pub ident_version: u8,
    /// `e_type`: 2 for an executable.
    pub kind: u16,
    /// `e_machine`: 243 for RISC-V.
    pub machine: u16,
    /// `e_version`.
    pub version: u32,
    /// `e_entry`: the address of the first instruction.
    pub entry: u64,
    /// `e_phoff`: the place of the first program header in the file.
    pub phoff: u64,
    /// `e_flags`.
    pub flags: u32,
    /// `e_phentsize`: the size of a program header.
    pub phentsize: u16,
    /// `e_phnum`: the number of program headers.
    pub phnum: u16,
}

/// What is read of a program header (System V gABI, "Program Header").
#[derive(Clone, Copy)]
pub struct ProgramHeader {
    /// `p_type`: 1 for a load segment.
    pub kind: u32,
    /// `p_flags`: 1 execute, 2 write, 4 read.
    pub flags: u32,
    /// `p_offset`: the place of the segment's bytes in the file.
    pub offset: u64,
    /// `p_vaddr`: the address of the first byte in memory.
    pub vaddr: u64,
    /// `p_filesz`: the number of bytes in the file.
    pub filesz: u64,
    /// `p_memsz`: the number of bytes in memory.
    pub memsz: u64,
}

impl FileHeader {
    /// The header at the start of the file.
    pub fn read(bytes: &[u8]) -> FileHeader
        requires { 64 ≤ length bytes.now }
        ensures { result ≡ file_header bytes.now }
    {
        FileHeader {
            class: field8(bytes, 4),
            data_encoding: field8(bytes, 5),
            ident_version: field8(bytes, 6),
            kind: field16(bytes, 16),
            machine: field16(bytes, 18),
            version: field32(bytes, 20),
            entry: field64(bytes, 24),
            phoff: field64(bytes, 32),
            flags: field32(bytes, 48),
            phentsize: field16(bytes, 54),
            phnum: field16(bytes, 56),
        }
    }
}

impl ProgramHeader {
    /// The header at this place of the file.
    pub fn read(bytes: &[u8], place: usize) -> ProgramHeader
        requires { place + 56 ≤ length bytes.now }
        ensures { result ≡ program_header bytes.now place }
    {
        ProgramHeader {
            kind: field32(bytes, place),
            flags: field32(bytes, place + 4),
            offset: field64(bytes, place + 8),
            vaddr: field64(bytes, place + 16),
            filesz: field64(bytes, place + 32),
            memsz: field64(bytes, place + 40),
        }
    }
}

/// Whether the file begins with the four bytes of each ELF file.
pub fn begins_as_elf(bytes: &[u8]) -> bool
    ensures { result ≡ is_elf bytes.now }
{
    bytes.starts_with(&MAGIC)
}

/// The byte at this place.
#[tactic(auto, unfolding(crate::specs::Header::field))]
pub fn field8(bytes: &[u8], place: usize) -> u8
    requires { place + 1 ≤ length bytes.now }
    ensures { result ≡ field 1 place bytes.now }
{
    bytes[place]
}

/// The little-endian number of 2 bytes at this place.
#[tactic(auto, unfolding(crate::specs::Header::field))]
pub fn field16(bytes: &[u8], place: usize) -> u16
    requires { place + 2 ≤ length bytes.now }
    ensures { result ≡ field 2 place bytes.now }
{
    LittleEndian::read_u16(&bytes[place..])
}

/// The little-endian number of 4 bytes at this place.
#[tactic(auto, unfolding(crate::specs::Header::field))]
pub fn field32(bytes: &[u8], place: usize) -> u32
    requires { place + 4 ≤ length bytes.now }
    ensures { result ≡ field 4 place bytes.now }
{
    LittleEndian::read_u32(&bytes[place..])
}

/// The little-endian number of 8 bytes at this place.
#[tactic(auto, unfolding(crate::specs::Header::field))]
pub fn field64(bytes: &[u8], place: usize) -> u64
    requires { place + 8 ≤ length bytes.now }
    ensures { result ≡ field 8 place bytes.now }
{
    LittleEndian::read_u64(&bytes[place..])
}
