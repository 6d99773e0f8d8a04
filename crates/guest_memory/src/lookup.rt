ghost use Rattle.std.specs.Prelude.{◌≡◌, ◌+◌, ◌<◌, ◌^◌, length, true, IsSome, IfOk, IfErr, IfSome, IsNone};
ghost use Rattle.rv64_decode.specs.Area.{bytes_of, holds, area_at, load_of, fetch_of, store_of, after_store, with_number};
ghost use Rattle.guest_memory.specs.Layout.{AreasLieFrom, nth_area, IsPlace, IsRefused};
ghost use Rattle.guest_memory.specs.Words.{word_of};

use crate::area::GuestArea;
use rv64_decode::{MemFault, Width};

// The place of the area that holds an address, by a binary search.
#[inline(never)]
pub(crate) fn search_for(areas: &[GuestArea], addr: u64) -> Option<usize>
    requires { AreasLieFrom 0 areas.now }
    ensures found { IfSome result (λ i. (i < length areas.now) × (holds (nth_area areas.now i) addr ≡ true)) }
    ensures none { IsNone result → area_at areas.now addr ≡ None }
{
    let mut low = 0;
    let mut high = areas.len();
    while low < high {
        let middle = low + (high - low) / 2;
        if areas[middle].end() <= addr {
            low = middle + 1;
        } else {
            high = middle;
        }
    }
    if low < areas.len() && areas[low].holds(addr) {
        Some(low)
    } else {
        None
    }
}

// The same, where the area that answered last is tried first.
#[inline(always)]
pub(crate) fn find(areas: &[GuestArea], last: usize, addr: u64) -> Option<usize>
    requires { AreasLieFrom 0 areas.now }
    ensures found { IfSome result (λ i. (i < length areas.now) × (holds (nth_area areas.now i) addr ≡ true)) }
    ensures none { IsNone result → area_at areas.now addr ≡ None }
{
    if last < areas.len() && areas[last].holds(addr) {
        Some(last)
    } else {
        search_for(areas, addr)
    }
}

// The place of the area in which an access lies, or why it lies in none.
#[inline(always)]
pub(crate) fn place_of(
    areas: &[GuestArea],
    last: usize,
    addr: u64,
    width: Width,
) -> Result<usize, MemFault>
    requires { AreasLieFrom 0 areas.now }
    ensures placed { IfOk result (λ i. IsPlace areas.now i addr width) }
    ensures refused { IfErr result (λ fault. IsRefused areas.now addr width fault) }
{
    if addr % width.bytes() != 0 {
        return Err(MemFault::Misaligned);
    }
    match find(areas, last, addr) {
        Some(i) => Ok(i),
        None => Err(MemFault::Unmapped),
    }
}

// What a load answers.
pub(crate) fn peek_from(
    areas: &[GuestArea],
    last: usize,
    addr: u64,
    width: Width,
) -> Result<u64, MemFault>
    requires { AreasLieFrom 0 areas.now }
    ensures answer { result ≡ load_of areas.now addr width }
    ensures fits { IfOk result (λ n. n < 256 ^ bytes_of width) }
{
    let i = place_of(areas, last, addr, width)?;
    load_at(areas, i, addr, width)
}

// Whether an access lies in the area that answered last, as most do.
#[inline(always)]
fn lies_in_last(areas: &[GuestArea], last: usize, addr: u64, width: Width) -> bool
    requires { AreasLieFrom 0 areas.now }
    ensures { result ≡ true → IsPlace areas.now last addr width }
{
    if last < areas.len() && areas[last].holds(addr) {
        addr % width.bytes() == 0
    } else {
        false
    }
}

// Looks for the area in which an access lies, which is the one to be tried first from now on; or tells
// why it lies in none.
#[inline(never)]
fn turn_to(areas: &[GuestArea], last: &mut usize, addr: u64, width: Width) -> Option<MemFault>
    requires { AreasLieFrom 0 areas.now }
    ensures place { IsNone result → IsPlace areas.now last.new addr width }
    ensures refused { IfSome result (λ fault. IsRefused areas.now addr width fault) }
{
    match place_of(areas, *last, addr, width) {
        Ok(i) => {
            *last = i;
            None
        }
        Err(fault) => Some(fault),
    }
}

// What a load answers; the area is the one to be tried first from now on.
#[inline(always)]
pub(crate) fn load_from(
    areas: &[GuestArea],
    last: &mut usize,
    addr: u64,
    width: Width,
) -> Result<u64, MemFault>
    requires { AreasLieFrom 0 areas.now }
    ensures answer { result ≡ load_of areas.now addr width }
    ensures fits { IfOk result (λ n. n < 256 ^ bytes_of width) }
{
    if lies_in_last(areas, *last, addr, width) {
        return load_at(areas, *last, addr, width);
    }
    match turn_to(areas, last, addr, width) {
        None => load_at(areas, *last, addr, width),
        Some(fault) => Err(fault),
    }
}

// What a load from an area answers.
#[inline(always)]
fn load_at(areas: &[GuestArea], i: usize, addr: u64, width: Width) -> Result<u64, MemFault>
    requires lie { AreasLieFrom 0 areas.now }
    requires place { IsPlace areas.now i addr width }
    ensures answer { result ≡ load_of areas.now addr width }
    ensures fits { IfOk result (λ n. n < 256 ^ bytes_of width) }
{
    let area = &areas[i];
    if !area.is_readable() {
        return Err(MemFault::Denied);
    }
    Ok(area.number(addr, width))
}

// The word at an address, whatever the permission.
pub(crate) fn word_from(areas: &[GuestArea], last: usize, addr: u64) -> Option<u64>
    requires { AreasLieFrom 0 areas.now }
    ensures { result ≡ word_of areas.now addr }
{
    match place_of(areas, last, addr, Width::Eight) {
        Ok(i) => Some(areas[i].number(addr, Width::Eight)),
        Err(_) => None,
    }
}

// Sets the word at an address.
pub(crate) fn set_word_in(areas: &mut [GuestArea], last: usize, addr: u64, value: u64)
    requires lie { AreasLieFrom 0 areas.old }
    requires there { IsSome (word_of areas.old addr) }
    ensures after { areas.new ≡ with_number 8 areas.old addr value }
    ensures lie { AreasLieFrom 0 areas.new }
{
    let i = place_of(areas, last, addr, Width::Eight).unwrap();
    areas[i].set_number(addr, Width::Eight, value);
}

// Makes a store that is not refused; the area is the one to be tried first from now on.
#[inline(always)]
pub(crate) fn store_to(
    areas: &mut [GuestArea],
    last: &mut usize,
    addr: u64,
    width: Width,
    value: u64,
) -> Result<(), MemFault>
    requires { AreasLieFrom 0 areas.old }
    ensures answer { result ≡ store_of areas.old addr width }
    ensures after { areas.new ≡ after_store areas.old addr width value }
    ensures lie { AreasLieFrom 0 areas.new }
{
    if lies_in_last(areas, *last, addr, width) {
        return store_at(areas, *last, addr, width, value);
    }
    match turn_to(areas, last, addr, width) {
        None => store_at(areas, *last, addr, width, value),
        Some(fault) => Err(fault),
    }
}

// Makes a store into an area, where it is not refused.
#[inline(always)]
fn store_at(
    areas: &mut [GuestArea],
    i: usize,
    addr: u64,
    width: Width,
    value: u64,
) -> Result<(), MemFault>
    requires lie { AreasLieFrom 0 areas.old }
    requires place { IsPlace areas.old i addr width }
    ensures answer { result ≡ store_of areas.old addr width }
    ensures after { areas.new ≡ after_store areas.old addr width value }
    ensures lie { AreasLieFrom 0 areas.new }
{
    if !areas[i].is_writable() {
        return Err(MemFault::Denied);
    }
    areas[i].set_number(addr, width, value);
    Ok(())
}

// What a fetch answers.
#[inline(always)]
pub(crate) fn fetch_from(areas: &[GuestArea], code: usize, addr: u64) -> Result<u32, MemFault>
    requires { AreasLieFrom 0 areas.now }
    ensures { result ≡ fetch_of areas.now addr }
{
    let i = place_of(areas, code, addr, Width::Four)?;
    let area = &areas[i];
    if !area.is_executable() {
        return Err(MemFault::Denied);
    }
    Ok(area.number(addr, Width::Four) as u32)
}
