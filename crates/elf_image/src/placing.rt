ghost use Rattle.std.specs.Prelude.{◌≡◌, ◌+◌, ◌<◌, ◌≤◌, ◌^◌, ◌∷◌, [], length, drop, None, IfSome};
ghost use Rattle.elf_image.specs.Layout.{total_length, in_code};
ghost use Rattle.elf_image.specs.Rules.{range_low, range_end, places_of, first_place, meet};
ghost use Rattle.elf_image.specs.Rules.{memory_refusal, overlap_refusal, entry_refusal, program_refusal};

use crate::header::ProgramHeader;
use crate::rules::{ElfErr, makes_area, refusal_of_headers, sum};

/// As many bytes as all areas of load segments may have together.
const MEMORY_LIMIT: u64 = 268_435_456;

// The first address of a header's widened byte range.
fn low_of(header: &ProgramHeader) -> u64
    ensures { result ≡ range_low header.now }
{
    header.vaddr / 8 * 8
}

// The address behind a header's widened byte range.
fn end_of(header: &ProgramHeader) -> u128
    ensures end { result ≡ range_end header.now }
    ensures fits { result < 2 ^ 66 }
{
    (sum(header.vaddr, header.memsz) + 7) / 8 * 8
}

// How many bytes the areas have together.
fn total_of(headers: &[ProgramHeader]) -> u128
    requires { length headers.now ≤ 64 }
    ensures { result ≡ total_length (places_of headers.now) }
{
    let mut total = 0;
    for index in 0..headers.len() {
        let header = &headers[index];
        if makes_area(header) {
            total += end_of(header) - u128::from(low_of(header));
        }
    }
    total
}

/// The rule that the areas of load segments have together at most 268,435,456 bytes.
pub(crate) fn refusal_of_memory(headers: &[ProgramHeader]) -> Option<ElfErr>
    requires few { length headers.now ≤ 64 }
    requires fits { total_length (places_of headers.now) < 2 ^ 64 }
    ensures { result ≡ memory_refusal headers.now }
{
    let total = total_of(headers) as u64;
    if total > MEMORY_LIMIT {
        Some(ElfErr::TooMuchMemory { bytes: total })
    } else {
        None
    }
}

// Whether the areas of two headers have an address in common.
#[tactic(auto, unfolding(crate::specs::Rules::meet))]
fn areas_meet(a: &ProgramHeader, b: &ProgramHeader) -> bool
    ensures { result ≡ meet a.now b.now }
{
    makes_area(a)
        && makes_area(b)
        && u128::from(low_of(a)) < end_of(b)
        && u128::from(low_of(b)) < end_of(a)
}

// The place of the first header, from this place on, whose area meets that of a header.
fn first_meeting(header: &ProgramHeader, headers: &[ProgramHeader], from: usize) -> Option<usize>
    requires { from ≤ length headers.now }
    ensures place { result ≡ first_place (meet header.now) from (drop from headers.now) }
    ensures within { IfSome result (λ i. i < length headers.now) }
{
    for index in from..headers.len() {
        if areas_meet(header, &headers[index]) {
            return Some(index);
        }
    }
    None
}

/// The rule that no two areas have an address in common.
pub(crate) fn refusal_of_overlap(headers: &[ProgramHeader]) -> Option<ElfErr>
    requires { length headers.now ≤ 64 }
    ensures { result ≡ overlap_refusal headers.now }
{
    for first in 0..headers.len() {
        if let Some(second) = first_meeting(&headers[first], headers, first + 1) {
            return Some(ElfErr::Overlap {
                first: first as u32,
                second: second as u32,
            });
        }
    }
    None
}

// Whether the address lies in the header's area, and that is executable.
fn has_code_at(header: &ProgramHeader, addr: u64) -> bool
    ensures { result ≡ in_code (places_of (header.now ∷ [])) addr }
{
    makes_area(header)
        && header.flags % 2 == 1
        && low_of(header) <= addr
        && u128::from(addr) < end_of(header)
}

// Whether the address lies in an executable area.
fn is_in_code(headers: &[ProgramHeader], addr: u64) -> bool
    ensures { result ≡ in_code (places_of headers.now) addr }
{
    for header in headers {
        if has_code_at(header, addr) {
            return true;
        }
    }
    false
}

/// The rule that the entry is a multiple of 4 in an executable area.
pub(crate) fn refusal_of_entry(entry: u64, headers: &[ProgramHeader]) -> Option<ElfErr>
    ensures { result ≡ entry_refusal entry headers.now }
{
    if entry % 4 == 0 && is_in_code(headers, entry) {
        None
    } else {
        Some(ElfErr::EntryOutside { entry })
    }
}

/// The first rule on the program headers that is broken; the file has so many bytes.
#[tactic(auto, unfolding(crate::specs::Rules::program_refusal))]
pub(crate) fn refusal_of_program(size: u64, entry: u64, headers: &[ProgramHeader]) -> Option<ElfErr>
    requires { length headers.now ≤ 64 }
    ensures { result ≡ program_refusal size entry headers.now }
{
    if let Some(e) = refusal_of_headers(size, headers) {
        return Some(e);
    }
    if let Some(e) = refusal_of_memory(headers) {
        return Some(e);
    }
    if let Some(e) = refusal_of_overlap(headers) {
        return Some(e);
    }
    refusal_of_entry(entry, headers)
}
