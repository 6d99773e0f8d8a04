ghost use Rattle.std.specs.Prelude.{◌≡◌, ◌+◌, ◌-◌, ◌≤◌, ◌++◌, length, replicate, All, IfOk, IfErr, OnOk};
ghost use Rattle.std.specs.List.{flat_map};
ghost use Rattle.elf_image.specs.Header.{HasHeaders};
ghost use Rattle.image_writer.specs.Image.{number, with_headers, mark_bytes, record_bytes, entry_bytes, word_bytes, image_bytes, word_limit, IsEntry, IsRefused};
ghost use Rattle.image_writer.specs.Split.{split_of};
ghost use Rattle.image_writer.specs.declared.splitting.Split.{Split};

use crate::image::Entry;
use crate::record::Record;
use elf_image::header::FileHeader;
use std::alloc::{AllocError, Global};
use thiserror::Error;

/// The largest number of added words.
pub const WORD_LIMIT: usize = 4_194_304;

/// The type of the program header that marks an image.
pub const MARK_KIND: u32 = 0x6550_5201;

/// Why an image is not made.
#[derive(Debug, Drop, Error)]
pub enum WriteErr {
    /// The code has so many words, more than 4,194,304.
    #[error("the added code has {words} words, more than 4194304")]
    CodeTooLong { words: u64 },
    /// There was no memory for the image.
    #[error("out of memory")]
    OutOfMemory,
}

impl From<AllocError> for WriteErr {
    ghost use Rattle.image_writer.specs.declared.writing.WriteErr.TheVariants.{OutOfMemory};

    ghost from_gives = { λ _ e. e ≡ OutOfMemory };

    fn from(_error: AllocError) -> WriteErr {
        WriteErr::OutOfMemory
    }
}

/// The image of an original with these entries and added words: a file that has the original's load
/// segments, and from which `split_image` takes the three parts.
pub fn write_image(
    alloc: Global,
    original: &[u8],
    entries: &[Entry],
    code: &[u32],
) -> Result<Vec<u8>, WriteErr>
    requires { HasHeaders original.now }
    ensures value { IfOk result (λ v. v.items ≡ image_bytes original.now entries.now code.now) }
    ensures fits { OnOk result (length code.now ≤ word_limit) }
    ensures refused { IfErr result (IsRefused code.now) }
    ensures splits { IfOk result (λ v. split_of v.items ≡ Split.Parts original.now entries.now code.now) }
{
    if code.len() > WORD_LIMIT {
        return Err(WriteErr::CodeTooLong {
            words: code.len() as u64,
        });
    }
    let header = FileHeader::read(original);
    let record = Record {
        size: original.len() as u64,
        phoff: header.phoff,
        phnum: header.phnum as u64,
        entries: entries.len() as u64,
        words: code.len() as u64,
    };
    let place = (original.len() + 7) / 8 * 8;
    let size = 48 + 16 * entries.len() + 4 * code.len();
    let headers = 56 * header.phnum as usize;
    let mut out = Vec::with_capacity(alloc, (place + headers + 56).saturating_add(size))?;
    push_with_headers(&mut out, original, place as u64, header.phnum + 1)?;
    pad(&mut out, place)?;
    let start = header.phoff as usize;
    out.extend_from_slice(&original[start..start + headers])?;
    push_mark(&mut out, (place + headers + 56) as u64, size as u64)?;
    push_record(&mut out, &record)?;
    push_entries(&mut out, entries)?;
    push_words(&mut out, code)?;
    Ok(out)
}

// Adds a file with another place and number of program headers.
#[tactic(auto, unfolding(crate::specs::Image::with_headers))]
pub(crate) fn push_with_headers(
    out: &mut Vec<u8>,
    file: &[u8],
    phoff: u64,
    phnum: u16,
) -> Result<(), AllocError>
    requires { 64 ≤ length file.now }
    ensures { OnOk result (out.new.items ≡ out.old.items ++ with_headers phoff phnum file.now) }
{
    let front = &file[..32];
    let middle = &file[40..56];
    let back = &file[58..];
    out.extend_from_slice(front)?;
    push64(out, phoff)?;
    out.extend_from_slice(middle)?;
    push16(out, phnum)?;
    out.extend_from_slice(back)?;
    Ok(())
}

// Adds zeros up to this place.
fn pad(out: &mut Vec<u8>, place: usize) -> Result<(), AllocError>
    requires { length out.old.items ≤ place }
    ensures { OnOk result (out.new.items ≡ out.old.items ++ replicate (place - length out.old.items) 0) }
{
    out.resize(place, 0)
}

#[tactic(auto, unfolding(crate::specs::Image::mark_bytes))]
fn push_mark(out: &mut Vec<u8>, place: u64, size: u64) -> Result<(), AllocError>
    ensures { OnOk result (out.new.items ≡ out.old.items ++ mark_bytes place size) }
{
    push32(out, MARK_KIND)?;
    push32(out, 1)?;
    push64(out, place)?;
    push64(out, 0)?;
    push64(out, 0)?;
    push64(out, size)?;
    push64(out, size)?;
    push64(out, 8)?;
    Ok(())
}

#[tactic(auto, unfolding(crate::specs::Image::record_bytes))]
fn push_record(out: &mut Vec<u8>, told: &Record) -> Result<(), AllocError>
    ensures { OnOk result (out.new.items ≡ out.old.items ++ record_bytes told.now) }
{
    out.extend_from_slice(b"XPAR")?;
    push32(out, 1)?;
    push64(out, told.size)?;
    push64(out, told.phoff)?;
    push64(out, told.phnum)?;
    push64(out, told.entries)?;
    push64(out, told.words)?;
    Ok(())
}

fn push_entries(out: &mut Vec<u8>, entries: &[Entry]) -> Result<(), AllocError>
    ensures bytes { OnOk result (out.new.items ≡ out.old.items ++ flat_map entry_bytes entries.now) }
    ensures fit { OnOk result (All IsEntry entries.now) }
{
    for entry in entries {
        push_entry(out, entry)?;
    }
    Ok(())
}

#[tactic(auto, unfolding(crate::specs::Image::entry_bytes))]
fn push_entry(out: &mut Vec<u8>, entry: &Entry) -> Result<(), AllocError>
    ensures bytes { OnOk result (out.new.items ≡ out.old.items ++ entry_bytes entry.now) }
    ensures fits { OnOk result (IsEntry entry.now) }
{
    push64(out, entry.header)?;
    push64(out, entry.stub)?;
    Ok(())
}

#[tactic(auto, unfolding(crate::specs::Image::word_bytes))]
fn push_words(out: &mut Vec<u8>, code: &[u32]) -> Result<(), AllocError>
    ensures { OnOk result (out.new.items ≡ out.old.items ++ flat_map word_bytes code.now) }
{
    for word in code {
        push32(out, *word)?;
    }
    Ok(())
}

#[tactic(auto, unfolding(crate::specs::Image::number))]
fn push16(out: &mut Vec<u8>, value: u16) -> Result<(), AllocError>
    ensures { OnOk result (out.new.items ≡ out.old.items ++ number 2 value) }
{
    out.extend_from_slice(&value.to_le_bytes())
}

#[tactic(auto, unfolding(crate::specs::Image::number))]
fn push32(out: &mut Vec<u8>, value: u32) -> Result<(), AllocError>
    ensures { OnOk result (out.new.items ≡ out.old.items ++ number 4 value) }
{
    out.extend_from_slice(&value.to_le_bytes())
}

#[tactic(auto, unfolding(crate::specs::Image::number))]
fn push64(out: &mut Vec<u8>, value: u64) -> Result<(), AllocError>
    ensures { OnOk result (out.new.items ≡ out.old.items ++ number 8 value) }
{
    out.extend_from_slice(&value.to_le_bytes())
}
