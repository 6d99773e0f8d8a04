ghost use Rattle.std.specs.Prelude.{◌≡◌, ◌<◌, ◌≤◌, ◌^◌, ◌+◌, ◌++◌, ◌∷◌, [], true, ◌||◌, if◌then◌else◌, length, drop, IfOk, OnOk};
ghost use Rattle.std.specs.List.{All};
ghost use Rattle.elf_image.specs.Layout.{IsLoadable, load_end};
ghost use Rattle.alias_checks.specs.AccessTests.{IsPairOf};
ghost use Rattle.alias_checks.specs.Listing.{row_from, rows_from, places_in, stores_at, IsPair, ArePairs, AreSameCells, segment_bounds, data_bounds, bounds_of};

use crate::copies::{same_accesses, same_cells, same_duties, same_trips};
use crate::lists::{Areas, Check, Pairs, Trips};
use dependence_tests::pair_term;
use elf_image::{Elf, Segment};
use guest_memory::{HEAP_SIZE, heap_start};
use loop_data::{Access, Accesses, Cells, Duties, Equations, Term, Trip};
use std::alloc::{AllocError, Global};

/// The flags of an area that may be read and written.
const READ_AND_WRITE: u32 = 6;

/// Where the stack begins.
const STACK_LOW: u64 = 0x7F00_0000;

/// How many bytes the stack has.
const STACK_SIZE: u64 = 0x80_0000;

/// Whether the access at a place is a store.
fn stores_at(accesses: &[Access], i: usize) -> bool
    requires { i < length accesses.now }
    ensures { result ≡ stores_at accesses.now i }
{
    accesses[i].store
}

/// The pair of the accesses at two places.
fn pair_at(accesses: &[Access], i: usize, j: usize) -> (u32, u32, Term)
    requires few { length accesses.now ≤ 32 }
    requires first { i < length accesses.now }
    requires second { j < length accesses.now }
    requires order { i ≤ j }
    requires stores { (stores_at accesses.now i || stores_at accesses.now j) ≡ true }
    ensures first { result.0 ≡ i }
    ensures second { result.1 ≡ j }
    ensures pair { IsPair accesses.now result }
{
    (i as u32, j as u32, pair_term(&accesses[i], &accesses[j]))
}

/// Puts the pair of the accesses at two places at the end, if one of them is a store.
fn push_pair(
    pairs: &mut Vec<(u32, u32, Term)>,
    accesses: &[Access],
    i: usize,
    j: usize,
) -> Result<(), AllocError>
    requires few { length accesses.now ≤ 32 }
    requires first { i < length accesses.now }
    requires second { j < length accesses.now }
    requires order { i ≤ j }
    ensures places { OnOk result (places_in pairs.new.items ≡ places_in pairs.old.items
        ++ (if stores_at accesses.now i || stores_at accesses.now j then (i, j) ∷ [] else [])) }
    ensures each { OnOk result (All (IsPair accesses.now) pairs.old.items
        → All (IsPair accesses.now) pairs.new.items) }
{
    if stores_at(accesses, i) || stores_at(accesses, j) {
        pairs.push(pair_at(accesses, i, j))?;
    }
    Ok(())
}

/// Puts the pairs of the access at a place with itself and those behind it at the end.
fn push_row(
    pairs: &mut Vec<(u32, u32, Term)>,
    accesses: &[Access],
    i: usize,
) -> Result<(), AllocError>
    requires few { length accesses.now ≤ 32 }
    requires first { i < length accesses.now }
    ensures places { OnOk result (places_in pairs.new.items ≡ places_in pairs.old.items
        ++ row_from (stores_at accesses.now i) i i (drop i accesses.now)) }
    ensures each { OnOk result (All (IsPair accesses.now) pairs.old.items
        → All (IsPair accesses.now) pairs.new.items) }
{
    for j in i..accesses.len() {
        push_pair(pairs, accesses, i, j)?;
    }
    Ok(())
}

/// The pairs of accesses of which one is a store.
fn pairs_of(alloc: Global, accesses: &[Access]) -> Result<Vec<(u32, u32, Term)>, AllocError>
    requires { length accesses.now ≤ 32 }
    ensures { IfOk result (λ v. ArePairs accesses.now v.items) }
{
    let mut pairs = Vec::new(alloc);
    for i in 0..accesses.len() {
        push_row(&mut pairs, accesses, i)?;
    }
    Ok(pairs)
}

/// The bounds of a segment's area.
fn segment_bounds(segment: &Segment) -> (u64, u64, u32)
    requires { segment.now.vaddr + segment.now.memsz ≤ load_end }
    ensures { result ≡ segment_bounds segment.now }
{
    let low = segment.vaddr / 8 * 8;
    let end = (segment.vaddr + segment.memsz + 7) / 8 * 8;
    (low, end, segment.flags)
}

/// The bounds of an area that may be read and written.
fn data_bounds(low: u64, size: u64) -> (u64, u64, u32)
    requires { low + size < 2 ^ 63 }
    ensures { result ≡ data_bounds low size }
{
    (low, low + size, READ_AND_WRITE)
}

/// The bounds of all areas of an executable.
fn bounds_of(alloc: Global, elf: &Elf) -> Result<Vec<(u64, u64, u32)>, AllocError>
    requires { IsLoadable elf.now }
    ensures { IfOk result (λ v. v.items ≡ bounds_of elf.now) }
{
    let segments = elf.segments.as_slice();
    let mut bounds = Vec::with_capacity(alloc, segments.len() + 2)?;
    for segment in segments {
        bounds.push(segment_bounds(segment))?;
    }
    bounds.push(data_bounds(heap_start(elf), HEAP_SIZE))?;
    bounds.push(data_bounds(STACK_LOW, STACK_SIZE))?;
    Ok(bounds)
}

/// The check of a loop with these cells, trips, duties and accesses, in memory with the areas of an executable.
pub fn check_of(
    alloc: Global,
    cells: &Cells,
    trips: &[Trip],
    equations: &Equations,
    accesses: &Accesses,
    elf: &Elf,
) -> Result<Check, AllocError>
    requires { IsLoadable elf.now }
    ensures cells { IfOk result (λ c. AreSameCells c.cells cells.now) }
    ensures trips { IfOk result (λ c. c.trips ≡ trips.now) }
    ensures duties { IfOk result (λ c. c.duties ≡ equations.now.duties) }
    ensures accesses { IfOk result (λ c. c.accesses.list.items ≡ accesses.now.list.items) }
    ensures pairs { IfOk result (λ c. ArePairs accesses.now.list.items c.pairs) }
    ensures areas { IfOk result (λ c. c.areas ≡ bounds_of elf.now) }
{
    let duties = same_duties(alloc, equations.duties.as_slice())?;
    let accesses = accesses.list.as_slice();
    Ok(Check {
        cells: same_cells(cells),
        trips: Trips::new(same_trips(alloc, trips)?),
        duties: Duties::new(duties),
        accesses: Accesses {
            list: same_accesses(accesses),
        },
        pairs: Pairs::new(pairs_of(alloc, accesses)?),
        areas: Areas::new(bounds_of(alloc, elf)?),
    })
}
