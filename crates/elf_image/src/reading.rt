ghost use Rattle.std.specs.Prelude.{◌≡◌, ◌+◌, ◌*◌, ◌<◌, ◌≤◌, ◌≢◌, ◌^◌, ℕ, insert, length, None, Some, IfOk, IfErr, OnOk};
ghost use Rattle.elf_image.specs.Header.{program_headers_from, HasHeaders};
ghost use Rattle.elf_image.specs.Layout.{IsLoadable};
ghost use Rattle.elf_image.specs.Rules.{first_place, breaks};
ghost use Rattle.elf_image.specs.Reading.{elf_of, segment_of, with_segment, segments_from, refusal_of, reading_of, IsReading};
ghost use Rattle.elf_image.specs.declared.rules.HeaderRule.TheVariants.{SegmentCut};
ghost use Rattle.elf_image.specs.declared.image.Segment.{Segment as Shown};

use crate::header::{FileHeader, PROGRAM_HEADER_SIZE, ProgramHeader};
use crate::image::{Bytes, Elf, Segment, Segments};
use crate::placing::refusal_of_program;
use crate::rules::{ElfErr, makes_area, refusal_of_file};
use std::alloc::{AllocError, AllocFailed, Global};

/// Reads a static executable (System V gABI). The answer is the first rule that the file breaks, or the
/// entry and the load segments.
pub fn read_elf(alloc: Global, bytes: &[u8]) -> Result<Elf, ElfErr>
    ensures answer { IsReading (reading_of bytes.now) result }

    // The first rule that fails, exactly, but for want of memory.
    ensures accepted { OnOk result (refusal_of bytes.now ≡ None) }
    ensures refused { IfErr result (λ e. e ≢ ElfErr.OutOfMemory → refusal_of bytes.now ≡ Some e) }

    ensures value { IfOk result (λ elf. elf ≡ elf_of bytes.now) }
    ensures loadable { IfOk result IsLoadable }
    ensures headers { OnOk result (HasHeaders bytes.now) }
{
    if let Some(e) = refusal_of_file(bytes) {
        return Err(e);
    }
    let file = FileHeader::read(bytes);
    let headers = read_headers(alloc, bytes, &file)?;
    if let Some(e) = refusal_of_program(bytes.len() as u64, file.entry, headers.as_slice()) {
        return Err(e);
    }
    let segments = copy_segments(alloc, bytes, headers.as_slice())?;
    Ok(Elf {
        entry: file.entry,
        segments: Segments::new(segments),
    })
}

// All program headers, in the order of the file.
fn read_headers(
    alloc: Global,
    bytes: &[u8],
    file: &FileHeader,
) -> Result<Vec<ProgramHeader>, AllocError>
    requires short { length bytes.now < 2 ^ 63 }
    requires within { (i : ℕ) → i < file.now.phnum → file.now.phoff + 56 * i + 56 ≤ length bytes.now }
    ensures { IfOk result (λ v. v.items ≡ program_headers_from bytes.now file.now.phoff file.now.phnum) }
{
    let count = usize::from(file.phnum);
    let mut headers = Vec::with_capacity(alloc, count)?;
    for index in 0..count {
        let place = file.phoff as usize + PROGRAM_HEADER_SIZE * index;
        headers.push(ProgramHeader::read(bytes, place))?;
    }
    Ok(headers)
}

// The segment of a header, with its bytes of the file.
fn copy_segment(
    alloc: Global,
    bytes: &[u8],
    index: u32,
    header: &ProgramHeader,
) -> Result<Segment, AllocError>
    requires { header.now.offset + header.now.filesz ≤ length bytes.now }
    ensures { IfOk result (λ s. s ≡ segment_of bytes.now index header.now) }
{
    let start = header.offset as usize;
    let end = start + header.filesz as usize;
    Ok(Segment {
        index,
        vaddr: header.vaddr,
        memsz: header.memsz,
        flags: header.flags,
        bytes: Bytes::new(Vec::from_slice(alloc, &bytes[start..end])?),
    })
}

// The place of the first segment that starts above an address.
fn place_above(segments: &[Segment], vaddr: u64) -> usize
    ensures within { result ≤ length segments.now }
    ensures with_segment { (s : Shown) → s.vaddr ≡ vaddr
        → insert segments.now result s ≡ with_segment s segments.now }
{
    let mut place = 0;
    while place < segments.len() && segments[place].vaddr <= vaddr {
        place += 1;
    }
    place
}

// Puts a segment before the first that starts above it.
fn insert_segment(segments: &mut Vec<Segment>, segment: Segment) -> Result<(), AllocFailed<Segment>>
    ensures { OnOk result (segments.new.items ≡ with_segment segment segments.old.items) }
{
    let place = place_above(segments.as_slice(), segment.vaddr);
    segments.insert(place, segment)
}

// The segments of all headers that make areas, in address order.
fn copy_segments(
    alloc: Global,
    bytes: &[u8],
    headers: &[ProgramHeader],
) -> Result<Vec<Segment>, ElfErr>
    requires few { length headers.now ≤ 64 }
    requires whole { first_place (breaks SegmentCut (length bytes.now)) 0 headers.now ≡ None }
    ensures copied { IfOk result (λ v. v.items ≡ segments_from bytes.now 0 headers.now) }
    ensures refused { IfErr result (λ e. e ≡ ElfErr.OutOfMemory) }
{
    let mut segments = Vec::new(alloc);
    let mut index = headers.len();
    while index > 0 {
        index -= 1;
        let header = &headers[index];
        if makes_area(header) {
            let segment = copy_segment(alloc, bytes, index as u32, header)?;
            insert_segment(&mut segments, segment)?;
        }
    }
    Ok(segments)
}
