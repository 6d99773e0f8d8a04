ghost use Rattle.std.specs.Prelude.{◌≡◌, ◌==◌, ◌<◌, ◌&&◌, ℤ, pos, ◌+ℤ◌, int_lt, nat_lt, not, map, take, Some, true, length, filter, slice_index};
ghost use Rattle.std.specs.List.{list_any, Contains};
ghost use Rattle.std.specs.List.Sorted.{IsStrictlyIncreasing};
ghost use Rattle.std.specs.Ordering.{int_eq};
ghost use Rattle.rv64_decode.specs.Area.{bytes_of};
ghost use Rattle.stack_slots.specs.declared.words.BodyWord.{BodyWord};
ghost use Rattle.stack_slots.specs.CellRules.{same_base, have_one_base, are_of_one_cell, end_of, meet, are_mixed, both, is_of_cell, is_store, uses_cell, use_one_cell, first_uses, is_stored, cell_with, cell_of, is_mixed, is_plain};
ghost use Rattle.stack_slots.specs.Uses.{first_added};

use crate::words::{BodyWord, Touch};
use arrayvec::ArrayVec;
use loop_data::Cell;
use rv64_decode::Width;

/// One more than the most cells that a loop may have.
const MOST: usize = 17;

/// Whether two bases are the same.
fn same_base(a: Option<u8>, b: Option<u8>) -> bool
    ensures { result ≡ same_base a b }
{
    match (a, b) {
        (Some(q), Some(r)) => q == r,
        (None, None) => true,
        _ => false,
    }
}

/// Whether both addresses are numbers, or offsets from the same register.
fn have_one_base(s: &Touch, t: &Touch) -> bool
    ensures { result ≡ have_one_base s.now t.now }
{
    same_base(s.address.base, t.address.base)
}

/// Whether the accesses begin at the same place and have the same width.
fn have_one_range(s: &Touch, t: &Touch) -> bool
    ensures { result ≡ (int_eq s.now.address.offset t.now.address.offset
        && (bytes_of s.now.width == bytes_of t.now.width)) }
{
    s.address.offset == t.address.offset && s.width.bytes() == t.width.bytes()
}

/// Whether both access one cell.
fn are_of_one_cell(s: &Touch, t: &Touch) -> bool
    ensures { result ≡ are_of_one_cell s.now t.now }
{
    (s.of_cell && t.of_cell) && (have_one_base(s, t) && have_one_range(s, t))
}

/// How many bytes an access moves.
fn size_of(width: Width) -> i64
    ensures { result ≡ pos (bytes_of width) }
{
    match width {
        Width::One => 1,
        Width::Two => 2,
        Width::Four => 4,
        Width::Eight => 8,
    }
}

/// Whether an access ends behind an offset.
fn ends_past(t: &Touch, offset: i64) -> bool
    ensures { result ≡ int_lt offset (end_of t.now) }
{
    match t.address.offset.checked_add(size_of(t.width)) {
        Some(end) => offset < end,
        None => true,
    }
}

/// Whether the accesses have bytes in common, where their bases are one.
fn meet(s: &Touch, t: &Touch) -> bool
    ensures { result ≡ meet s.now t.now }
{
    ends_past(t, s.address.offset) && ends_past(s, t.address.offset)
}

/// Whether the accesses have bytes in common, one is of a cell, and they are not of one cell.
fn are_mixed(s: &Touch, t: &Touch) -> bool
    ensures { result ≡ are_mixed s.now t.now }
{
    (have_one_base(s, t) && meet(s, t)) && ((s.of_cell || t.of_cell) && !are_of_one_cell(s, t))
}

/// Whether a word accesses a cell.
pub fn uses_cell(word: &BodyWord) -> bool
    ensures { result ≡ uses_cell word.now }
{
    match word.touch {
        Some(touch) => touch.of_cell,
        None => false,
    }
}

/// Whether a word stores to a known address.
fn is_store(word: &BodyWord) -> bool
    ensures { result ≡ is_store word.now.touch }
{
    match word.touch {
        Some(touch) => touch.store,
        None => false,
    }
}

/// Whether both words access one cell.
pub fn use_one_cell(v: &BodyWord, w: &BodyWord) -> bool
    ensures { result ≡ use_one_cell v.now w.now }
{
    match (v.touch, w.touch) {
        (Some(s), Some(t)) => are_of_one_cell(&s, &t),
        _ => false,
    }
}

/// Whether the accesses of the words are mixed.
fn access_mixed(v: &BodyWord, w: &BodyWord) -> bool
    ensures { result ≡ both are_mixed v.now.touch w.now.touch }
{
    match (v.touch, w.touch) {
        (Some(s), Some(t)) => are_mixed(&s, &t),
        _ => false,
    }
}

/// Whether one of these words uses one cell with this one.
fn is_among(firsts: &[BodyWord], w: &BodyWord) -> bool
    ensures { result ≡ list_any (λ (f : BodyWord). use_one_cell f w.now) firsts.now }
{
    for f in firsts {
        if use_one_cell(f, w) {
            return true;
        }
    }
    false
}

/// Whether a word accesses a cell that none of these words accesses.
fn is_new(firsts: &[BodyWord], w: &BodyWord) -> bool
    ensures { result ≡ (uses_cell w.now && not (list_any (λ (f : BodyWord). use_one_cell f w.now) firsts.now)) }
{
    uses_cell(w) && !is_among(firsts, w)
}

/// Puts a word at the end where it accesses a cell that none before it accesses, and there is room.
fn add_first(firsts: &mut ArrayVec<BodyWord, 17>, w: &BodyWord)
    ensures { firsts.new.items ≡ first_added firsts.old.items w.now }
{
    if firsts.len() < MOST && is_new(firsts.as_slice(), w) {
        firsts.push(*w);
    }
}

/// The first uses of the cells, in order: as many as a loop may have cells, and one more.
pub fn first_uses(words: &[BodyWord]) -> ArrayVec<BodyWord, 17>
    requires { IsStrictlyIncreasing (map (λ (w : BodyWord). w.at) words.now) }
    ensures { result.items ≡ take 17 (first_uses words.now) }
{
    let mut firsts = ArrayVec::new();
    for w in words {
        add_first(&mut firsts, w);
    }
    firsts
}

/// Whether a word stores to the cell that this one accesses.
fn is_stored(words: &[BodyWord], w: &BodyWord) -> bool
    ensures { result ≡ is_stored words.now w.now }
{
    for v in words {
        if is_store(v) && use_one_cell(v, w) {
            return true;
        }
    }
    false
}

/// The cell that a word accesses.
pub fn cell_of(words: &[BodyWord], w: &BodyWord) -> Option<Cell>
    ensures { result ≡ cell_of words.now w.now }
{
    let stored = is_stored(words, w);
    let touch = w.touch?;
    if !touch.of_cell {
        return None;
    }
    Some(Cell {
        base: touch.address.base,
        offset: touch.address.offset,
        wide: touch.width.bytes() == 8,
        stored,
    })
}

/// Whether a word is the later one of a mixed pair with one of these words.
pub fn is_mixed(words: &[BodyWord], w: &BodyWord) -> bool
    ensures { result ≡ is_mixed words.now w.now }
{
    for v in words {
        if v.at < w.at && access_mixed(v, w) {
            return true;
        }
    }
    false
}

/// Whether a word accesses a known address, and no cell.
pub fn is_plain(word: &BodyWord) -> bool
    ensures { result ≡ is_plain word.now.touch }
{
    match word.touch {
        Some(touch) => !touch.of_cell,
        None => false,
    }
}
