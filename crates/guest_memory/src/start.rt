ghost use Rattle.std.specs.Prelude.{◌≡◌, ◌+◌, ◌<◌, ◌≤◌, ◌^◌, length, true, false, IfOk};
ghost use Rattle.elf_image.specs.Layout.{IsLoadable, load_end, rounded_low, rounded_end};
ghost use Rattle.guest_memory.specs.Areas.{zeros, segment_area, data_area, areas_of, heap_low};

use crate::area::GuestArea;
use crate::lookup::search_for;
use crate::memory::Memory;
use elf_image::{Elf, Segment};
use std::alloc::{AllocError, Global};

/// How many bytes the heap has.
pub const HEAP_SIZE: u64 = 16_777_216;

const STACK_LOW: u64 = 0x7F00_0000;

const STACK_SIZE: u64 = 0x80_0000;

/// The memory that an executable starts with: the byte ranges of its load segments, widened outward
/// to multiples of 8; behind them, from a multiple of 4096 on, a heap of 16,777,216 bytes; and the
/// stack, `[0x7F000000, 0x7F800000)`. Bytes that the file does not have are 0.
pub fn build(alloc: Global, elf: &Elf) -> Result<Memory, AllocError>
    requires { IsLoadable elf.now }
    ensures { IfOk result (λ m. m ≡ areas_of elf.now) }
{
    let segments = elf.segments.as_slice();
    let mut areas = Vec::with_capacity(alloc, segments.len() + 2)?;
    for segment in segments {
        areas.push(load_area(alloc, segment)?)?;
    }
    areas.push(zero_area(alloc, heap_start(elf), HEAP_SIZE)?)?;
    areas.push(zero_area(alloc, STACK_LOW, STACK_SIZE)?)?;
    let code = search_for(areas.as_slice(), elf.entry).unwrap_or(0);
    Ok(Memory::new(areas, code))
}

/// The first address of the heap: the next multiple of 4096 behind the load segments.
pub fn heap_start(elf: &Elf) -> u64
    requires { IsLoadable elf.now }
    ensures start { result ≡ heap_low elf.now.segments }
    ensures below { result < 2 ^ 31 }
{
    let segments = elf.segments.as_slice();
    let mut end = 0;
    for segment in segments {
        end = end.max(end_of(segment));
    }
    (end + 4095) / 4096 * 4096
}

// So many zero bytes.
fn zero_bytes(alloc: Global, n: u64) -> Result<Vec<u8>, AllocError>
    requires { n < 2 ^ 63 }
    ensures { IfOk result (λ v. v.items ≡ zeros n) }
{
    vec![in alloc; 0; n as usize]
}

// An area of zero bytes that may be read and written.
fn zero_area(alloc: Global, low: u64, size: u64) -> Result<GuestArea, AllocError>
    requires { low + size < 2 ^ 63 }
    ensures { IfOk result (λ area. area ≡ data_area low size) }
{
    let bytes = zero_bytes(alloc, size)?;
    Ok(GuestArea::new(low, true, true, false, bytes))
}

// The first address of a segment's widened byte range.
fn low_of(segment: &Segment) -> u64
    ensures { result ≡ rounded_low segment.now }
{
    segment.vaddr / 8 * 8
}

// The address behind a segment's widened byte range.
fn end_of(segment: &Segment) -> u64
    requires { segment.now.vaddr + segment.now.memsz ≤ load_end }
    ensures { result ≡ rounded_end segment.now }
{
    (segment.vaddr + segment.memsz + 7) / 8 * 8
}

// The area of a segment.
fn load_area(alloc: Global, segment: &Segment) -> Result<GuestArea, AllocError>
    requires bytes { length segment.now.bytes ≤ segment.now.memsz }
    requires end { segment.now.vaddr + segment.now.memsz ≤ load_end }
    ensures { IfOk result (λ area. area ≡ segment_area segment.now) }
{
    let low = low_of(segment);
    let readable = segment.flags / 4 % 2 == 1;
    let writable = segment.flags / 2 % 2 == 1;
    let executable = segment.flags % 2 == 1;
    let bytes = zero_bytes(alloc, end_of(segment) - low)?;
    let mut area = GuestArea::new(low, readable, writable, executable, bytes);
    area.set_bytes(segment.vaddr, segment.bytes.as_slice());
    Ok(area)
}
