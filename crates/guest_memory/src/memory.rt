ghost use Rattle.std.specs.Prelude.{◌≡◌, ◌⊎◌, ◌+◌, ◌-◌, ◌<◌, ◌≤◌, ◌^◌, ◌++◌, ℕ, List, length, take, min, true, Some, IsSome, IfOk, All, Contains};
ghost use Rattle.rv64_decode.specs.Area.{Area as Shown, area_at, bytes_of, readable_of, writable_of, load_of, fetch_of, with_number};
ghost use Rattle.guest_memory.specs.Layout.{AreasLieFrom, end_of};
ghost use Rattle.guest_memory.specs.Spans.{permits, all_permitted, bytes_at, with_bytes_at, all_bytes};
ghost use Rattle.guest_memory.specs.Words.{word_of, words_of};

use crate::area::{Access, GuestArea};
use crate::lookup::{fetch_from, load_from, peek_from, set_word_in, store_to, word_from};
use crate::spans::{allows_all, dump_of, piece_of, set_span, words_from};
use rv64_decode::{MemFault, Width, Words};
use std::alloc::{AllocError, Global};
use std::marker::Model;

/// The guest's memory: areas of bytes with permissions, apart and in address order.
#[derive(Drop)]
pub struct Memory {
    areas: Vec<GuestArea>,
    // The areas that are tried first: at a load or a store, and at a fetch.
    last: usize,
    code: usize,
}

impl Model for Memory {
    ghost use Rattle.rv64_decode.specs.Area.{Area};
    ghost use Rattle.guest_memory.specs.Layout.{AreasLieFrom};
    ghost use Rattle.std.specs.Prelude.{List};

    ghost Value = { List Area };

    ghost view = { λ m. m.areas.items };

    ghost invariant = { λ m. AreasLieFrom 0 m.areas.items };
}

// Areas that lie so do.
fn these_lie(_areas: &[GuestArea])
    requires { AreasLieFrom 0 _areas.now }
    ensures { AreasLieFrom 0 _areas.now }
{}

impl Memory {
    // The memory of these areas, of which one, `code`, is tried first at a fetch.
    pub(crate) fn new(areas: Vec<GuestArea>, code: usize) -> Memory
        requires { AreasLieFrom 0 areas.items }
        ensures { result ≡ areas.items }
    {
        Memory {
            areas,
            last: 0,
            code,
        }
    }

    /// How the areas of every memory lie: in address order and apart, and none may be both written and
    /// executed.
    pub fn lies(&self)
        ensures { AreasLieFrom 0 self.now }
    {
        these_lie(self.areas.as_slice());
    }

    /// The instruction word at an address.
    pub fn fetch(&self, addr: u64) -> Result<u32, MemFault>
        ensures { result ≡ fetch_of self.now addr }
    {
        fetch_from(self.areas.as_slice(), self.code, addr)
    }

    /// What a load of this width answers.
    pub fn peek(&self, addr: u64, width: Width) -> Result<u64, MemFault>
        ensures answer { result ≡ load_of self.now addr width }
        ensures fits { IfOk result (λ n. n < 256 ^ bytes_of width) }
    {
        peek_from(self.areas.as_slice(), self.last, addr, width)
    }

    /// The 8 bytes at an address, the lowest first, whatever the permission. None where the address
    /// is no multiple of 8 or lies in no area.
    pub fn word(&self, addr: u64) -> Option<u64>
        ensures { result ≡ word_of self.now addr }
    {
        word_from(self.areas.as_slice(), self.last, addr)
    }

    /// Sets the 8 bytes at an address, and no other. A word of an area that may not be written keeps
    /// its value.
    pub fn set_word(&mut self, addr: u64, value: u64)
        requires there { IsSome (word_of self.old addr) }
        requires writable { (permits writable_of self.old addr ≡ true) ⊎ (word_of self.old addr ≡ Some value) }
        ensures { self.new ≡ with_number 8 self.old addr value }
    {
        set_word_in(self.areas.as_mut_slice(), self.last, addr, value)
    }

    /// The aligned 8-byte words of all areas, each with its address, in address order.
    pub fn words(&self, alloc: Global) -> Result<Vec<(u64, u64)>, AllocError>
        ensures listed { IfOk result (λ v. v.items ≡ words_of self.now) }
        ensures each { IfOk result (λ v. All (λ w. word_of self.now w.0 ≡ Some w.1) v.items) }
        ensures every { IfOk result (λ v. (x n : ℕ) → word_of self.now x ≡ Some n → Contains v.items (x, n)) }
    {
        words_from(alloc, self.areas.as_slice())
    }

    /// The bytes of all areas, in address order.
    pub fn dump(&self, alloc: Global) -> Result<Vec<u8>, AllocError>
        ensures { IfOk result (λ v. v.items ≡ all_bytes self.now) }
    {
        dump_of(alloc, self.areas.as_slice())
    }

    /// Whether each of the `len` bytes from an address on may be read. They may lie in several areas.
    pub fn can_read(&self, addr: u64, len: u64) -> bool
        ensures value { result ≡ all_permitted readable_of len self.now addr }
        ensures fits { result ≡ true → addr + len < 2 ^ 64 }
        ensures each { result ≡ true → (k : ℕ) → k < len → permits readable_of self.now (addr + k) ≡ true }
        ensures rest { result ≡ true → (k : ℕ) → k ≤ len
            → all_permitted readable_of (len - k) self.now (addr + k) ≡ true }
    {
        allows_all(self.areas.as_slice(), self.last, Access::Read, addr, len)
    }

    /// Whether each of the `len` bytes from an address on may be written. They may lie in several
    /// areas.
    pub fn can_write(&self, addr: u64, len: u64) -> bool
        ensures value { result ≡ all_permitted writable_of len self.now addr }
        ensures fits { result ≡ true → addr + len < 2 ^ 64 }
        ensures each { result ≡ true → (k : ℕ) → k < len → permits writable_of self.now (addr + k) ≡ true }
        ensures rest { result ≡ true → (k : ℕ) → k ≤ len
            → all_permitted writable_of (len - k) self.now (addr + k) ≡ true }
    {
        allows_all(self.areas.as_slice(), self.last, Access::Write, addr, len)
    }

    /// The bytes from an address on to the end of its area, but at most `most` of them.
    pub fn piece(&self, addr: u64, most: u64) -> &[u8]
        requires positive { 0 < most }
        requires readable { permits readable_of self.now addr ≡ true }
        ensures bytes { result.now ≡ bytes_at (length result.now) self.now addr }
        ensures some { 0 < length result.now }
        ensures within { length result.now ≤ most }
        ensures whole { (a : Shown) → area_at self.now addr ≡ Some a
            → length result.now ≡ min most (end_of a - addr) }

        // The bytes behind them, and behind a part of them.
        ensures front { (k : ℕ) → bytes_at (length result.now + k) self.now addr
            ≡ result.now ++ bytes_at k self.now (addr + length result.now) }
        ensures part { (j k : ℕ) → j ≤ length result.now
            → bytes_at (j + k) self.now addr ≡ take j result.now ++ bytes_at k self.now (addr + j) }
    {
        piece_of(self.areas.as_slice(), self.last, addr, most)
    }

    /// Sets the bytes from an address on. They may lie in several areas.
    pub fn set_bytes(&mut self, addr: u64, bytes: &[u8])
        requires { all_permitted writable_of (length bytes.now) self.old addr ≡ true }
        ensures bytes { self.new ≡ with_bytes_at self.old addr bytes.now }
        ensures writable { (n x : ℕ) → all_permitted writable_of n self.new x
            ≡ all_permitted writable_of n self.old x }

        // Further bytes behind them.
        ensures more { (ys : List ℕ) → with_bytes_at self.new (addr + length bytes.now) ys
            ≡ with_bytes_at self.old addr (bytes.now ++ ys) }
    {
        set_span(self.areas.as_mut_slice(), self.last, addr, bytes)
    }
}

impl Words for Memory {
    ghost memory = { λ m. m };

    ghost allows = { λ _ _. Unit {0} };

    ghost moves = { λ _ _ _. Unit {0} };

    ghost stays = { λ _. tt };

    #[inline(always)]
    fn load(&mut self, addr: u64, width: Width) -> Result<u64, MemFault> {
        load_from(self.areas.as_slice(), &mut self.last, addr, width)
    }

    #[inline(always)]
    fn store(&mut self, addr: u64, width: Width, value: u64) -> Result<(), MemFault> {
        store_to(
            self.areas.as_mut_slice(),
            &mut self.last,
            addr,
            width,
            value,
        )
    }
}
