ghost use Rattle.std.specs.Prelude.{◌≡◌, ◌+◌, ◌*◌, ◌≤◌, length, take, is_some, IfOk, IfSome};
ghost use Rattle.elf_image.specs.Header.{program_header};
ghost use Rattle.image_writer.specs.Image.{with_headers};
ghost use Rattle.image_writer.specs.Split.{is_marked, last_header_place, is_possible, IsPossible, is_record, read_record, entries_from, words_from, split_of};

use crate::image::{Code, Entries, Entry};
use crate::record::Record;
use crate::writing::{MARK_KIND, push_with_headers};
use elf_image::Bytes;
use elf_image::header::{FileHeader, ProgramHeader, begins_as_elf, field32, field64};
use std::alloc::{AllocError, Global};

/// What a file is as an image.
#[derive(Drop)]
pub enum Split {
    /// No image: its last program header, if it has one, is no mark.
    Plain,
    /// An image that is not whole: what the mark tells of is no record of this version, or does not lie
    /// in the file.
    BadMark,
    /// An image, with the original file, where it is left, and the added words.
    Parts {
        original: Bytes,
        entries: Entries,
        code: Code,
    },
}

/// Takes an image apart.
pub fn split_image(alloc: Global, bytes: &[u8]) -> Result<Split, AllocError>
    ensures { IfOk result (λ split. split ≡ split_of bytes.now) }
{
    let Some(offset) = mark_offset(bytes) else {
        return Ok(Split::Plain);
    };
    if offset > bytes.len() as u64 {
        return Ok(Split::BadMark);
    }
    let (_, rest) = bytes.split_at(offset as usize);
    let Some(record) = record_in(rest, bytes.len()) else {
        return Ok(Split::BadMark);
    };
    let entries = record.entries as usize;
    Ok(Split::Parts {
        original: copy_original(alloc, bytes, &record)?,
        entries: copy_entries(alloc, rest, entries)?,
        code: copy_code(alloc, rest, 48 + 16 * entries, record.words as usize)?,
    })
}

// Where the record should be, in a marked file.
#[tactic(auto, unfolding(crate::specs::Split::is_marked))]
fn mark_offset(bytes: &[u8]) -> Option<u64>
    ensures marked { is_some result ≡ is_marked bytes.now }
    ensures value { IfSome result (λ offset. offset
        ≡ (program_header bytes.now (last_header_place bytes.now)).offset) }
{
    if bytes.len() < 64 || !begins_as_elf(bytes) {
        return None;
    }
    let header = FileHeader::read(bytes);
    if header.phnum == 0 {
        return None;
    }
    let before = 56 * (header.phnum as u64 - 1);
    let size = bytes.len() as u64;
    if header.phoff > size || before + 56 > size - header.phoff {
        return None;
    }
    let mark = ProgramHeader::read(bytes, (header.phoff + before) as usize);
    if mark.kind == MARK_KIND {
        Some(mark.offset)
    } else {
        None
    }
}

// The record at the head of the last bytes of a file of this size.
#[tactic(auto, unfolding(crate::specs::Split::is_record))]
fn record_in(rest: &[u8], size: usize) -> Option<Record>
    ensures whole { is_some result ≡ is_record size rest.now }
    ensures value { IfSome result (λ r. r ≡ read_record rest.now) }
    ensures possible { IfSome result (λ r. IsPossible size rest.now r) }
{
    if rest.len() < 48 || !rest.starts_with(b"XPAR") || field32(rest, 4) != 1 {
        return None;
    }
    let record = Record {
        size: field64(rest, 8),
        phoff: field64(rest, 16),
        phnum: field64(rest, 24),
        entries: field64(rest, 32),
        words: field64(rest, 40),
    };
    if is_possible(rest, size, &record) {
        Some(record)
    } else {
        None
    }
}

fn is_possible(rest: &[u8], size: usize, told: &Record) -> bool
    requires { 48 ≤ length rest.now }
    ensures { result ≡ is_possible size rest.now told.now }
{
    let room = rest.len() as u64 - 48;
    told.size >= 64
        && told.size <= size as u64
        && told.phnum <= 65535
        && told.entries <= room / 16
        && told.words <= (room - 16 * told.entries) / 4
}

// The original, with its own place and number of program headers.
fn copy_original(alloc: Global, bytes: &[u8], told: &Record) -> Result<Bytes, AllocError>
    requires long { 64 ≤ told.now.size }
    requires within { told.now.size ≤ length bytes.now }
    requires few { told.now.phnum ≤ 65535 }
    ensures { IfOk result (λ v. v ≡ with_headers told.now.phoff told.now.phnum (take told.now.size bytes.now)) }
{
    let file = &bytes[..told.size as usize];
    let mut out = Vec::with_capacity(alloc, file.len())?;
    push_with_headers(&mut out, file, told.phoff, told.phnum as u16)?;
    Ok(Bytes::new(out))
}

fn copy_entries(alloc: Global, rest: &[u8], count: usize) -> Result<Entries, AllocError>
    requires { 48 + 16 * count ≤ length rest.now }
    ensures { IfOk result (λ v. v ≡ entries_from rest.now 48 count) }
{
    let mut out = Vec::with_capacity(alloc, count)?;
    for i in 0..count {
        out.push(Entry {
            header: field64(rest, 48 + 16 * i),
            stub: field64(rest, 56 + 16 * i),
        })?;
    }
    Ok(Entries::new(out))
}

fn copy_code(alloc: Global, rest: &[u8], place: usize, count: usize) -> Result<Code, AllocError>
    requires { place + 4 * count ≤ length rest.now }
    ensures { IfOk result (λ v. v ≡ words_from rest.now place count) }
{
    let mut out = Vec::with_capacity(alloc, count)?;
    for i in 0..count {
        out.push(field32(rest, place + 4 * i))?;
    }
    Ok(Code::new(out))
}
