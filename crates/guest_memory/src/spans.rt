ghost use Rattle.std.specs.Prelude.{◌≡◌, ◌+◌, ◌<◌, ◌≤◌, ◌^◌, ◌++◌, ◌-◌, length, take, min, true, IfOk, OnOk, All, Contains, Some, ℕ};
ghost use Rattle.rv64_decode.specs.Area.{Area as Shown, area_at, readable_of, writable_of};
ghost use Rattle.guest_memory.specs.Access.{permission_of};
ghost use Rattle.guest_memory.specs.Layout.{AreasLieFrom, end_of, nth_area};
ghost use Rattle.guest_memory.specs.Spans.{permits, all_permitted, bytes_at, with_bytes_at, all_bytes};
ghost use Rattle.guest_memory.specs.Words.{word_of, words_in, words_of};

use crate::area::{Access, GuestArea};
use crate::lookup::find;
use rv64_decode::Width;
use std::alloc::{AllocError, Global};

// Whether each of the bytes allows the access, area by area.
pub(crate) fn allows_all(
    areas: &[GuestArea],
    last: usize,
    access: Access,
    addr: u64,
    len: u64,
) -> bool
    requires { AreasLieFrom 0 areas.now }
    ensures value { result ≡ all_permitted (permission_of access) len areas.now addr }
    ensures fits { result ≡ true → addr + len < 2 ^ 64 }
{
    let mut at = addr;
    let mut left = len;
    while left > 0 {
        let Some(i) = find(areas, last, at) else {
            return false;
        };
        let area = &areas[i];
        if !area.allows(access) {
            return false;
        }
        let here = left.min(area.end() - at);
        left -= here;
        at += here;
    }
    true
}

// The bytes from an address on to the end of its area, but at most `most` of them.
pub(crate) fn piece_of(areas: &[GuestArea], last: usize, addr: u64, most: u64) -> &[u8]
    requires lie { AreasLieFrom 0 areas.now }
    requires positive { 0 < most }
    requires readable { permits readable_of areas.now addr ≡ true }
    ensures bytes { result.now ≡ bytes_at (length result.now) areas.now addr }
    ensures some { 0 < length result.now }
    ensures within { length result.now ≤ most }
    ensures whole { (a : Shown) → area_at areas.now addr ≡ Some a
        → length result.now ≡ min most (end_of a - addr) }
{
    let i = find(areas, last, addr).unwrap();
    let rest = areas[i].bytes_from(addr);
    let count = rest.len().min(most as usize);
    &rest[..count]
}

// Sets the bytes from an address on that lie in its area, and says how many these are.
fn set_part(areas: &mut [GuestArea], last: usize, addr: u64, bytes: &[u8]) -> usize
    requires lie { AreasLieFrom 0 areas.old }
    requires some { 0 < length bytes.now }
    requires writable { permits writable_of areas.old addr ≡ true }
    ensures some { 0 < result }
    ensures within { result ≤ length bytes.now }
    ensures end { addr + result < 2 ^ 63 }
    ensures bytes { areas.new ≡ with_bytes_at areas.old addr (take result bytes.now) }
    ensures lie { AreasLieFrom 0 areas.new }
{
    let i = find(areas, last, addr).unwrap();
    let room = (areas[i].end() - addr) as usize;
    let count = bytes.len().min(room);
    areas[i].set_bytes(addr, &bytes[..count]);
    count
}

// Sets the bytes from an address on, area by area.
pub(crate) fn set_span(areas: &mut [GuestArea], last: usize, addr: u64, bytes: &[u8])
    requires lie { AreasLieFrom 0 areas.old }
    requires writable { all_permitted writable_of (length bytes.now) areas.old addr ≡ true }
    ensures bytes { areas.new ≡ with_bytes_at areas.old addr bytes.now }
    ensures lie { AreasLieFrom 0 areas.new }
{
    let mut at = addr;
    let mut rest = bytes;
    while !rest.is_empty() {
        let count = set_part(areas, last, at, rest);
        at += count as u64;
        rest = &rest[count..];
    }
}

// How many bytes the areas have together.
fn total_of(areas: &[GuestArea]) -> usize
    requires { AreasLieFrom 0 areas.now }
    ensures { result ≡ length (all_bytes areas.now) }
{
    let mut total = 0;
    for area in areas {
        total += area.as_slice().len();
    }
    total
}

// The bytes of all areas, in address order.
pub(crate) fn dump_of(alloc: Global, areas: &[GuestArea]) -> Result<Vec<u8>, AllocError>
    requires { AreasLieFrom 0 areas.now }
    ensures { IfOk result (λ v. v.items ≡ all_bytes areas.now) }
{
    let mut bytes = Vec::with_capacity(alloc, total_of(areas))?;
    for area in areas {
        bytes.extend_from_slice(area.as_slice())?;
    }
    Ok(bytes)
}

// The words of one area, behind those of the areas before it.
fn push_words(words: &mut Vec<(u64, u64)>, areas: &[GuestArea], i: usize) -> Result<(), AllocError>
    requires lie { AreasLieFrom 0 areas.now }
    requires within { i < length areas.now }
    ensures { OnOk result (words.new.items ≡ words.old.items ++ words_in areas.now (nth_area areas.now i)) }
{
    let area = &areas[i];
    let mut at = area.low();
    while at < area.end() {
        words.push((at, area.number(at, Width::Eight)))?;
        at += 8;
    }
    Ok(())
}

// The aligned words of all areas, in address order.
pub(crate) fn words_from(alloc: Global, areas: &[GuestArea]) -> Result<Vec<(u64, u64)>, AllocError>
    requires { AreasLieFrom 0 areas.now }
    ensures listed { IfOk result (λ v. v.items ≡ words_of areas.now) }
    ensures each { IfOk result (λ v. All (λ w. word_of areas.now w.0 ≡ Some w.1) v.items) }
    ensures every { IfOk result (λ v. (x n : ℕ) → word_of areas.now x ≡ Some n → Contains v.items (x, n)) }
{
    let mut words = Vec::with_capacity(alloc, total_of(areas) / 8)?;
    for i in 0..areas.len() {
        push_words(&mut words, areas, i)?;
    }
    Ok(words)
}
