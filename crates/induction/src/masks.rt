ghost use Rattle.std.specs.Prelude.{ℕ, nat_lt, Some, ◌≡◌, ◌<◌, ◌==◌, ◌||◌, false, if◌then◌else◌, length, replicate, IfOk};
ghost use Rattle.std.specs.List.{All};
ghost use Rattle.loop_data.specs.Flows.{rows, row_at, AreRowsWithin, IsWholeOrder};
ghost use Rattle.loop_data.specs.Locations.{instr_writes, writes_cell};
ghost use Rattle.induction.specs.Masks.{has_bit, bit_after, all_after, mask_bit, AreMasks};

use loop_data::Flow;
use loop_data::flow::row;
use loop_data::value_rows::{is_store, target_of};
use rv64_decode::Instr;
use std::alloc::{AllocError, Global};

/// Whether a location is in a mask.
pub fn contains(mask: u64, r: usize) -> bool
    requires { r < 64 }
    ensures { result ≡ has_bit mask r }
{
    (mask >> r) & 1 == 1
}

/// A mask with one location more, unless that is x0, or none.
pub fn with_location(mask: u64, location: usize) -> u64
    ensures { (r : ℕ) → r < 48 → has_bit result r ≡ (has_bit mask r || (if r == 0 then false else location == r)) }
{
    if location == 0 {
        return mask;
    }
    if location >= 48 {
        return mask;
    }
    mask | (1 << location)
}

/// A mask with the register more that an instruction writes.
pub fn with_register(mask: u64, register: u8) -> u64
    ensures { (r : ℕ) → r < 48 → has_bit result r
        ≡ (has_bit mask r || (if nat_lt r 32 then (if r == 0 then false else register == r) else false)) }
{
    if register >= 32 {
        return mask;
    }
    with_location(mask, register as usize)
}

/// A mask with the cell more that an instruction writes, where it accesses this cell.
fn with_cell(mask: u64, instr: &Instr, cell: u8) -> u64
    ensures { (r : ℕ) → r < 48 → has_bit result r
        ≡ (has_bit mask r || (if nat_lt r 32 then false else writes_cell instr.now (Some cell) r)) }
{
    if !is_store(instr) {
        return mask;
    }
    with_location(mask, 32 + cell as usize)
}

/// A mask with the location more that an instruction writes, which accesses this cell, if any.
fn with_instr(mask: u64, instr: &Instr, cell: Option<u8>) -> u64
    ensures { (r : ℕ) → r < 48 → has_bit result r ≡ (has_bit mask r || instr_writes (Some instr.now) cell r) }
{
    let mask = with_register(mask, target_of(instr));
    match cell {
        Some(cell) => with_cell(mask, instr, cell),
        None => mask,
    }
}

/// A mask with the location more that a word writes, which accesses this cell, if any.
fn with(mask: u64, instr: &Option<Instr>, cell: Option<u8>) -> u64
    ensures { (r : ℕ) → r < 48 → has_bit result r ≡ (has_bit mask r || instr_writes instr.now cell r) }
{
    match instr {
        Some(instr) => with_instr(mask, instr, cell),
        None => mask,
    }
}

/// What is in the mask after the word at a place.
pub fn after(flow: &Flow, masks: &[u64], k: usize) -> u64
    requires within { k < length flow.now.instrs.items }
    requires uses { length flow.now.uses.items ≡ length flow.now.instrs.items }
    requires count { length masks.now ≡ length flow.now.instrs.items }
    ensures { (r : ℕ) → r < 48 → has_bit result r ≡ bit_after flow.now masks.now k r }
{
    with(masks[k], &flow.instrs[k], flow.uses[k])
}

/// What is in the masks after the words at all of these places.
fn meet(flow: &Flow, masks: &[u64], sources: &[usize]) -> u64
    requires count { length masks.now ≡ length flow.now.instrs.items }
    requires uses { length flow.now.uses.items ≡ length flow.now.instrs.items }
    requires within { All (λ k. k < length flow.now.instrs.items) sources.now }
    ensures { (r : ℕ) → r < 48 → has_bit result r ≡ all_after flow.now masks.now sources.now r }
{
    let mut mask = u64::MAX;
    for k in sources {
        mask &= after(flow, masks, *k);
    }
    mask
}

/// The mask before the word at a place.
fn mask_at(
    flow: &Flow,
    masks: &[u64],
    sources: &[usize],
    body: &[u64],
    header: u64,
    p: usize,
) -> u64
    requires count { length masks.now ≡ length flow.now.instrs.items }
    requires uses { length flow.now.uses.items ≡ length flow.now.instrs.items }
    requires within { All (λ k. k < length flow.now.instrs.items) sources.now }
    requires place { p < length body.now }
    ensures { (r : ℕ) → r < 48 → has_bit result r ≡ mask_bit header body.now flow.now masks.now sources.now p r }
{
    if body[p] == header {
        0
    } else {
        meet(flow, masks, sources)
    }
}

/// No masks yet.
fn empty_masks(alloc: Global, count: usize) -> Result<Vec<u64>, AllocError>
    ensures { IfOk result (λ v. v.items ≡ replicate count 0) }
{
    let mut all = Vec::with_capacity(alloc, count)?;
    for _ in 0..count {
        all.push(0)?;
    }
    Ok(all)
}

/// For the word at each place the locations that all ways from the header to it write.
pub fn masks_of(
    alloc: Global,
    flow: &Flow,
    body: &[u64],
    header: u64,
) -> Result<Vec<u64>, AllocError>
    requires instrs { length flow.now.instrs.items ≡ length body.now }
    requires uses { length flow.now.uses.items ≡ length body.now }
    requires sources { length (rows flow.now.sources.items) ≡ length body.now }
    requires within { AreRowsWithin (rows flow.now.sources.items) }
    requires order { IsWholeOrder (rows flow.now.sources.items) flow.now.order.items }
    ensures { IfOk result (λ v. AreMasks header body.now flow.now (rows flow.now.sources.items) v.items) }
{
    let sources = flow.sources.as_slice();
    let order = flow.order.as_slice();
    let mut masks = empty_masks(alloc, body.len())?;
    for p in order {
        let before = masks.as_slice();
        let mask = mask_at(flow, before, row(sources, *p), body, header, *p);
        masks[*p] = mask;
    }
    Ok(masks)
}
