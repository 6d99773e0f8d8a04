ghost use Rattle.std.specs.Prelude.{◌≡◌, ◌++◌, IfOk, OnOk};
ghost use Rattle.std.specs.List.{flat_map};
ghost use Rattle.sample_maker.specs.Sample.{number, file_header, program_header, word_bytes, file_of};

use std::alloc::{AllocError, Global};

// The ELF header (gABI, "ELF Header").
const FILE_HEADER: [u8; 64] = [
    0x7F, b'E', b'L', b'F', 2, 1, 1, 0, 0, 0, 0, 0, 0, 0, 0, 0, // e_ident
    2, 0, // e_type: executable
    243, 0, // e_machine: RISC-V
    1, 0, 0, 0, // e_version
    0xB0, 0, 1, 0, 0, 0, 0, 0, // e_entry
    64, 0, 0, 0, 0, 0, 0, 0, // e_phoff
    0, 0, 0, 0, 0, 0, 0, 0, // e_shoff
    0, 0, 0, 0, // e_flags
    64, 0, // e_ehsize
    56, 0, // e_phentsize
    2, 0, // e_phnum
    0, 0, // e_shentsize
    0, 0, // e_shnum
    0, 0, // e_shstrndx
];

// Flags of a segment (gABI, "Program Header").
const READ_EXECUTE: u32 = 5;

const READ_WRITE: u32 = 6;

/// The file of a program with so many bytes of data.
#[tactic(auto, unfolding(crate::specs::Sample::file_of))]
pub(crate) fn file_of(alloc: Global, words: &[u32], data_bytes: u64) -> Result<Vec<u8>, AllocError>
    ensures { IfOk result (λ v. v.items ≡ file_of words.now data_bytes) }
{
    let size = 176 + 4 * words.len();
    let mut out = Vec::with_capacity(alloc, size)?;
    push_file_header(&mut out)?;
    push_program_header(&mut out, READ_EXECUTE, 0x1_0000, size as u64, size as u64)?;
    push_program_header(&mut out, READ_WRITE, 0x2_0000, 0, data_bytes)?;
    push_words(&mut out, words)?;
    Ok(out)
}

#[tactic(auto, unfolding(crate::specs::Sample::file_header, crate::specs::Sample::number))]
fn push_file_header(out: &mut Vec<u8>) -> Result<(), AllocError>
    ensures { OnOk result (out.new.items ≡ out.old.items ++ file_header) }
{
    out.extend_from_slice(&FILE_HEADER)
}

#[tactic(auto, unfolding(crate::specs::Sample::program_header))]
fn push_program_header(
    out: &mut Vec<u8>,
    flags: u32,
    address: u64,
    stored: u64,
    size: u64,
) -> Result<(), AllocError>
    ensures { OnOk result (out.new.items ≡ out.old.items ++ program_header flags address stored size) }
{
    push32(out, 1)?;
    push32(out, flags)?;
    push64(out, 0)?;
    push64(out, address)?;
    push64(out, address)?;
    push64(out, stored)?;
    push64(out, size)?;
    push64(out, 4096)?;
    Ok(())
}

#[tactic(auto, unfolding(crate::specs::Sample::word_bytes))]
fn push_words(out: &mut Vec<u8>, words: &[u32]) -> Result<(), AllocError>
    ensures { OnOk result (out.new.items ≡ out.old.items ++ flat_map word_bytes words.now) }
{
    for word in words {
        push32(out, *word)?;
    }
    Ok(())
}

#[tactic(auto, unfolding(crate::specs::Sample::number))]
fn push32(out: &mut Vec<u8>, value: u32) -> Result<(), AllocError>
    ensures { OnOk result (out.new.items ≡ out.old.items ++ number 4 value) }
{
    out.extend_from_slice(&value.to_le_bytes())
}

#[tactic(auto, unfolding(crate::specs::Sample::number))]
fn push64(out: &mut Vec<u8>, value: u64) -> Result<(), AllocError>
    ensures { OnOk result (out.new.items ≡ out.old.items ++ number 8 value) }
{
    out.extend_from_slice(&value.to_le_bytes())
}
