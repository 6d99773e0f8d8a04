ghost use Rattle.std.specs.Prelude.{ℕ, ◌≡◌, ◌<◌, ◌≤◌, [], true, false, length, slice_index, slice_index_or, IfOk};
ghost use Rattle.std.specs.List.Sorted.{IsStrictlyIncreasing};
ghost use Rattle.loop_data.specs.declared.shape.Level.{Level};
ghost use Rattle.loop_data.specs.LoopWords.{AreNest};
ghost use Rattle.loop_data.specs.Lookups.{cell_map, AreNumbered};
ghost use Rattle.loop_data.specs.Paths.{IsInOrder};
ghost use Rattle.induction.specs.Masks.{IsMaskPast, AreFirstReads};
ghost use Rattle.induction.specs.Words.{AreLoopWordsAt, IsPrivateAt, IsNotPrivateAt};

use crate::masks::{after, contains, masks_of};
use loop_data::flow::{Flow, loop_flow, place_of};
use loop_data::value_places::flow_values;
use loop_data::{Cells, Graph, LoopShape, Values};
use std::alloc::{AllocError, Global};

/// The words of a loop with what is known at each of them, by their places in its body.
#[derive(Drop)]
pub struct Words {
    /// The words, with the edges between them that close no loop.
    pub flow: Flow,
    /// What is known of each location before each word.
    pub points: Vec<Values>,
    /// The locations that each way from the header to each word writes.
    pub masks: Vec<u64>,
    /// The locations that each pass writes.
    pub always: u64,
}

/// The locations that are written on all ways past the word at an address.
fn mask_past(flow: &Flow, masks: &[u64], body: &[u64], x: u64) -> u64
    requires ordered { IsStrictlyIncreasing body.now }
    requires instrs { length flow.now.instrs.items ≡ length body.now }
    requires uses { length flow.now.uses.items ≡ length body.now }
    requires masks { length masks.now ≡ length body.now }
    ensures { IsMaskPast flow.now masks.now body.now x result }
{
    match place_of(body, x) {
        Some(p) => after(flow, masks, p),
        None => 0,
    }
}

/// The words of the loop at a place among the levels of a listed loop.
pub fn words_of(
    alloc: Global,
    shape: &LoopShape,
    level: usize,
    graph: &Graph,
    cells: &Cells,
) -> Result<Words, AllocError>
    requires graph { IsInOrder graph.now }
    requires cells { AreNumbered cells.now }
    requires nest { AreNest graph.now shape.now.levels }
    requires within { level < length shape.now.levels }
    ensures { IfOk result (AreLoopWordsAt graph.now (cell_map cells.now) shape.now.levels level) }
{
    let levels = shape.levels.as_slice();
    let flow = loop_flow(alloc, graph, cells, levels, level)?;
    let points = flow_values(alloc, graph, cells, levels, level, &flow)?;
    let loop_level = &levels[level];
    let body = loop_level.body.as_slice();
    let masks = masks_of(alloc, &flow, body, loop_level.header)?;
    let always = mask_past(&flow, masks.as_slice(), body, loop_level.back);
    Ok(Words {
        flow,
        points,
        masks,
        always,
    })
}

/// Whether each pass writes a location, and before any read of it, where these are the locations that are read first.
pub fn is_private(words: &Words, reads: u64, r: usize) -> bool
    requires reads { AreFirstReads words.now.flow words.now.masks.items reads }
    requires other { 1 ≤ r }
    requires location { r < 48 }
    ensures yes { result ≡ true → IsPrivateAt words.now r }
    ensures no { result ≡ false → IsNotPrivateAt words.now r }
{
    if !contains(words.always, r) {
        return false;
    }
    !contains(reads, r)
}
