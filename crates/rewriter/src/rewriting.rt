ghost use Rattle.std.specs.Prelude.{◌≡◌, ◌<◌, ◌≤◌, Ok, IfOk, IfErr, length};
ghost use Rattle.std.specs.List.{All};
ghost use Rattle.elf_image.specs.Header.{HasHeaders};
ghost use Rattle.elf_image.specs.Layout.{IsLoadable};
ghost use Rattle.elf_image.specs.Reading.{reading_of};
ghost use Rattle.image_writer.specs.Image.{image_bytes, word_limit};
ghost use Rattle.loop_division.specs.Division.{IsDivision};
ghost use Rattle.serial_run.specs.Sound.{HaveBytes};
ghost use Rattle.rewriter.specs.Rewriting.{IsRewriting};
ghost use Rattle.rewriter.specs.Reasons.{IsReadRefusal, IsDivideRefusal};

use elf_image::{Bytes, Elf, ElfErr, Segment, read_elf};
use image_writer::{WriteErr, write_image};
use loop_division::laws::entries_are_in_order;
use loop_division::{DivideErr, Division, divide};
use std::alloc::Global;

/// A rewritten executable.
#[derive(Drop)]
pub struct Rewritten {
    /// The file.
    pub bytes: Bytes,
    /// How many loops are divided.
    pub entries: u32,
    /// How many words are added.
    pub words: u32,
}

/// Why an executable is not rewritten: the first reason that applies.
#[derive(Clone, Copy, Debug, PartialEq, Eq)]
pub enum RewriteErr {
    /// It is not read; never for want of memory.
    Elf(ElfErr),
    /// More than 262,144 of its words are reached; the count is 262,145.
    TooManyWords { count: u64 },
    /// So many of its loops would be divided, which is more than 1,024.
    TooManyLoops { count: u64 },
    /// So many words would be added, which is more than 4,194,304.
    CodeTooLong { words: u64 },
    /// There was no memory.
    OutOfMemory,
}

// Bytes are below 256.
fn are_bytes(bytes: &[u8])
    ensures { All (λ b. b < 256) bytes.now }
{
    let _bytes = bytes;
}

// So are those of segments.
fn have_bytes(segments: &[Segment])
    ensures { HaveBytes segments.now }
{
    for i in 0..segments.len() {
        are_bytes(segments[i].bytes.as_slice());
    }
}

// The executable that these bytes are.
pub(crate) fn read(alloc: Global, bytes: &[u8]) -> Result<Elf, RewriteErr>
    ensures accepted { IfOk result (λ elf. reading_of bytes.now ≡ Ok elf) }
    ensures loadable { IfOk result IsLoadable }
    ensures headers { IfOk result (λ _. HasHeaders bytes.now) }
    ensures bytes { IfOk result (λ elf. HaveBytes elf.segments) }
    ensures refused { IfErr result (IsReadRefusal bytes.now) }
{
    match read_elf(alloc, bytes) {
        Ok(elf) => {
            have_bytes(elf.segments.as_slice());
            Ok(elf)
        }
        Err(ElfErr::OutOfMemory) => Err(RewriteErr::OutOfMemory),
        Err(e) => Err(RewriteErr::Elf(e)),
    }
}

// The entries and the added words of an executable.
pub(crate) fn division_of(alloc: Global, elf: &Elf) -> Result<Division, RewriteErr>
    requires { IsLoadable elf.now }
    ensures division { IfOk result (λ d. IsDivision elf.now d.entries.items d.code.items) }
    ensures refused { IfErr result (IsDivideRefusal elf.now) }
{
    match divide(alloc, elf) {
        Ok(division) => Ok(division),
        Err(DivideErr::TooManyWords { count }) => Err(RewriteErr::TooManyWords { count }),
        Err(DivideErr::TooManyLoops { count }) => Err(RewriteErr::TooManyLoops { count }),
        Err(DivideErr::CodeTooLong { words }) => Err(RewriteErr::CodeTooLong { words }),
        Err(DivideErr::OutOfMemory) => Err(RewriteErr::OutOfMemory),
    }
}

// An original with entries and added words.
pub(crate) fn image_with(
    alloc: Global,
    original: &[u8],
    division: &Division,
) -> Result<Bytes, RewriteErr>
    requires headers { HasHeaders original.now }
    requires room { length division.now.code.items ≤ word_limit }
    ensures value { IfOk result (λ b. b ≡ image_bytes original.now division.now.entries.items division.now.code.items) }
    ensures refused { IfErr result (λ e. e ≡ RewriteErr.OutOfMemory) }
{
    match write_image(
        alloc,
        original,
        division.entries.as_slice(),
        division.code.as_slice(),
    ) {
        Ok(bytes) => Ok(Bytes::new(bytes)),
        Err(WriteErr::OutOfMemory) => Err(RewriteErr::OutOfMemory),
        Err(WriteErr::CodeTooLong { .. }) => unreachable!(),
    }
}

/// Rewrites an executable: a loop that is chosen is divided among harts by the code that is added for it.
pub fn rewrite(alloc: Global, original: &[u8]) -> Result<Rewritten, RewriteErr>
    ensures { IsRewriting original.now result }
{
    entries_are_in_order();
    let elf = match read(alloc, original) {
        Ok(elf) => elf,
        Err(e) => return Err(e),
    };
    let division = match division_of(alloc, &elf) {
        Ok(division) => division,
        Err(e) => return Err(e),
    };
    let bytes = match image_with(alloc, original, &division) {
        Ok(bytes) => bytes,
        Err(e) => return Err(e),
    };
    Ok(Rewritten {
        bytes,
        entries: division.entries.len() as u32,
        words: division.code.len() as u32,
    })
}
