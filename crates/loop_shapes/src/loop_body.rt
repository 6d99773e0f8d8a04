ghost use Rattle.std.specs.Prelude.{◌≡◌, ◌↔◌, ◌<◌, ℕ, Some, IsTrue, length};
ghost use Rattle.std.specs.List.{Contains};
ghost use Rattle.loop_shapes.specs.LoopBody.{IsLoopBody, LeadsIn, LeadsOut};

use crate::program::Program;
use crate::search::is_found;

/// The words of a loop, by their places in its program.
#[derive(Drop)]
pub struct LoopBody<'a> {
    /// The program.
    pub program: &'a Program<'a>,
    /// The place of the loop's header.
    pub header: usize,
    /// The places of its words, each once.
    pub places: &'a [usize],
    /// For each place of a word where it stands among those places.
    pub slots: &'a [usize],
    /// Whether it is known that the loop has no cycle but through back edges.
    pub acyclic: bool,
}

impl LoopBody<'_> {
    /// Whether the word at a place is in the loop.
    pub fn has(&self, place: usize) -> bool
        requires body { IsLoopBody self.now }
        requires within { place < length self.now.slots.now }
        ensures { IsTrue result ↔ Contains self.now.places.now place }
    {
        is_found(self.places, self.slots, place)
    }

    /// Whether a step leads to a word of the loop.
    pub fn leads_in(&self, target: Option<u32>) -> bool
        requires body { IsLoopBody self.now }
        requires within { (b : ℕ) → target ≡ Some b → b < length self.now.slots.now }
        ensures { IsTrue result ↔ LeadsIn self.now.places.now target }
    {
        match target {
            Some(node) => self.has(node as usize),
            None => false,
        }
    }

    /// Whether a step leads to a word outside the loop.
    pub fn leads_out(&self, target: Option<u32>) -> bool
        requires body { IsLoopBody self.now }
        requires within { (b : ℕ) → target ≡ Some b → b < length self.now.slots.now }
        ensures { IsTrue result ↔ LeadsOut self.now.places.now target }
    {
        match target {
            Some(node) => !self.has(node as usize),
            None => false,
        }
    }
}
