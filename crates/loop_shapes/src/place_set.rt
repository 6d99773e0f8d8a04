ghost use Rattle.std.specs.Prelude.{◌≡◌, ◌↔◌, ◌<◌, ◌++◌, ◌∷◌, [], ℕ, IfOk, OnOk, IsTrue, length};
ghost use Rattle.std.specs.List.{Contains};
ghost use Rattle.loop_data.specs.Flows.{AreRowsWithin, rows};
ghost use Rattle.loop_shapes.specs.PlaceSet.{IsPlaceSet};
ghost use Rattle.loop_shapes.specs.Search.{ArePairs, HasSearched};

use crate::search::{is_found, push_new, search};
use std::alloc::{AllocError, Global};

/// A sparse set of places: it is emptied at once, whatever its slots hold.
#[derive(Drop)]
pub struct PlaceSet {
    /// The memory for the set, and for what is made from it.
    pub alloc: Global,
    /// The places of the set, each once.
    pub found: Vec<usize>,
    /// For each place of the set where it stands among those found.
    pub slots: Vec<usize>,
}

impl PlaceSet {
    /// A set without places and without slots, which are made at the first use.
    pub fn new(alloc: Global) -> PlaceSet
        ensures found { result.found.items ≡ [] }
        ensures slots { result.slots.items ≡ [] }
    {
        PlaceSet {
            alloc,
            found: Vec::new(alloc),
            slots: Vec::new(alloc),
        }
    }

    /// Whether a place is in the set.
    pub fn has(&self, place: usize) -> bool
        requires set { IsPlaceSet (length self.now.slots.items) self.now }
        requires within { place < length self.now.slots.items }
        ensures { IsTrue result ↔ Contains self.now.found.items place }
    {
        is_found(self.found.as_slice(), self.slots.as_slice(), place)
    }

    /// Puts a place to the set that is not in it.
    pub fn add(&mut self, place: usize) -> Result<(), AllocError>
        requires set { IsPlaceSet (length self.old.slots.items) self.old }
        requires within { place < length self.old.slots.items }
        requires absent { ¬ Contains self.old.found.items place }
        ensures items { OnOk result (self.new.found.items ≡ self.old.found.items ++ place ∷ []) }
        ensures set { OnOk result (IsPlaceSet (length self.old.slots.items) self.new) }
    {
        push_new(&mut self.found, &mut self.slots, place)
    }

    // Makes slots for places below `count`, where there are not as many.
    fn fit(&mut self, count: usize) -> Result<(), AllocError>
        ensures { OnOk result (length self.new.slots.items ≡ count) }
    {
        if self.slots.len() != count {
            self.slots = vec![in self.alloc; 0; count]?;
        }
        Ok(())
    }

    /// Takes all places out, for places below `count`.
    pub fn clear(&mut self, count: usize) -> Result<(), AllocError>
        ensures items { OnOk result (self.new.found.items ≡ []) }
        ensures set { OnOk result (IsPlaceSet count self.new) }
    {
        self.fit(count)?;
        self.found.clear();
        Ok(())
    }

    /// Searches backwards from `sources` and stops at `header`: whether the edges from the sources to `header`
    /// close at most 256 words into a loop, whose places the set then has.
    pub fn search(
        &mut self,
        before: &[Vec<usize>],
        pairs: &[Option<(usize, usize)>],
        header: usize,
        sources: &[usize],
    ) -> Result<bool, AllocError>
        requires within { AreRowsWithin (rows before.now) }
        requires pairs { ArePairs (rows before.now) pairs.now }
        requires header { header < length before.now }
        requires sources { (x : ℕ) → Contains sources.now x → x < length before.now }
        ensures places { IfOk result (λ small. HasSearched small (rows before.now) header sources.now
            self.new.found.items) }
        ensures set { OnOk result (IsPlaceSet (length before.now) self.new) }
    {
        self.fit(before.len())?;
        search(
            before,
            pairs,
            &mut self.slots,
            &mut self.found,
            header,
            sources,
        )
    }
}
