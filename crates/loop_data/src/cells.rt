ghost use Rattle.std.specs.Prelude.{ℕ, ◌≡◌, map};
ghost use Rattle.std.specs.List.Sorted.{IsStrictlyIncreasing};
ghost use Rattle.loop_data.specs.Lookups.{use_of};

use crate::verdict::{Cell, Verdict};
use arrayvec::ArrayVec;

/// The cells of memory that a loop uses as registers.
#[derive(Drop)]
pub struct Cells {
    /// The cells, in the order of their first uses.
    pub list: ArrayVec<Cell, 16>,
    /// The addresses of the words that access a cell, in order, each with the number of its cell.
    pub uses: ArrayVec<(u64, u8), 256>,
    /// Why the loop is not taken, where its cells decide that.
    pub fault: Option<Verdict>,
}

/// The number of the cell that the word at an address accesses, if it does.
pub fn use_at(uses: &[(u64, u8)], at: u64) -> Option<u8>
    requires { IsStrictlyIncreasing (map (λ (u : ℕ × ℕ). u.0) uses.now) }
    ensures { result ≡ use_of uses.now at }
{
    match uses.binary_search_by_key(&at, |u| u.0) {
        Ok(i) => Some(uses[i].1),
        Err(_) => None,
    }
}
