ghost use Rattle.std.specs.Prelude.{◌≡◌, ◌<◌, ◌≤◌, [], true, length, map, filter_map, IfOk};
ghost use Rattle.std.specs.List.{list_any};
ghost use Rattle.std.specs.List.Sorted.{IsStrictlyIncreasing};
ghost use Rattle.arrayvec.specs.ArrayVec.{array_vec_len};
ghost use Rattle.loop_data.specs.LoopWords.{AreNest};
ghost use Rattle.loop_data.specs.Paths.{IsInOrder};
ghost use Rattle.stack_slots.specs.declared.words.BodyWord.{BodyWord};
ghost use Rattle.stack_slots.specs.CellRules.{uses_cell, use_one_cell, cell_of, first_uses};
ghost use Rattle.stack_slots.specs.Results.{AreUses, HasCells, AreCellsOf};
ghost use Rattle.stack_slots.specs.Uses.{IsNumber, IsUseAdded};

use crate::faults::fault_of;
use crate::touches::{no_cells, words_at};
use crate::uses::{cell_of, first_uses, use_one_cell, uses_cell};
use crate::words::BodyWord;
use arrayvec::ArrayVec;
use loop_data::{Cell, Cells, Graph, LoopShape, value_pass};
use std::alloc::{AllocError, Global};

/// The cells at their first uses.
fn cells_at(words: &[BodyWord], firsts: &[BodyWord]) -> ArrayVec<Cell, 16>
    requires few { length firsts.now ≤ 16 }
    ensures { result.items ≡ filter_map (cell_of words.now) firsts.now }
{
    let mut list = ArrayVec::new();
    for first in firsts {
        if let Some(cell) = cell_of(words, first) {
            list.push(cell);
        }
    }
    list
}

/// The number of the cell that a word accesses.
fn number_of(firsts: &[BodyWord], w: &BodyWord) -> u8
    requires few { length firsts.now ≤ 16 }
    requires found { list_any (λ (f : BodyWord). use_one_cell f w.now) firsts.now ≡ true }
    ensures { IsNumber firsts.now w.now result }
{
    for i in 0..firsts.len() {
        if use_one_cell(&firsts[i], w) {
            return i as u8;
        }
    }
    0
}

/// Puts the use of a cell by a word at the end, if it is one.
fn add_use(firsts: &[BodyWord], w: &BodyWord, uses: &mut ArrayVec<(u64, u8), 256>)
    requires few { length firsts.now ≤ 16 }
    requires found { uses_cell w.now ≡ true
        → list_any (λ (f : BodyWord). use_one_cell f w.now) firsts.now ≡ true }
    requires room { array_vec_len uses.old < 256 }
    ensures { IsUseAdded (uses_cell w.now) firsts.now w.now uses.old.items uses.new.items }
{
    if uses_cell(w) {
        let number = number_of(firsts, w);
        uses.push((w.at, number));
    }
}

/// The uses of cells by words, in order.
fn uses_of(words: &[BodyWord], firsts: &[BodyWord]) -> ArrayVec<(u64, u8), 256>
    requires firsts { firsts.now ≡ first_uses words.now }
    requires few { length firsts.now ≤ 16 }
    requires short { length words.now ≤ 256 }
    ensures { AreUses words.now (filter_map (cell_of words.now) firsts.now) result.items }
{
    let mut uses = ArrayVec::new();
    for w in words {
        add_use(firsts, w, &mut uses);
    }
    uses
}

/// The cells of the words of a body, or why there are none.
pub fn cells_of(alloc: Global, words: &[BodyWord]) -> Result<Cells, AllocError>
    requires short { length words.now ≤ 256 }
    requires ordered { IsStrictlyIncreasing (map (λ (w : BodyWord). w.at) words.now) }
    ensures { IfOk result (HasCells words.now) }
{
    let firsts = first_uses(words);
    let fault = fault_of(alloc, words, firsts.as_slice())?;
    if fault.is_some() {
        return Ok(Cells {
            list: ArrayVec::new(),
            uses: ArrayVec::new(),
            fault,
        });
    }
    let list = cells_at(words, firsts.as_slice());
    let uses = uses_of(words, firsts.as_slice());
    Ok(Cells { list, uses, fault })
}

/// The cells of a listed loop in the order of their first uses, with their uses in address order, or why the loop
/// is not taken: at an auipc far away, at the first use of a cell too many, at an access or a word with a range
/// too many, or at the later word of a mixed pair. The first of these that is so is told.
pub fn cells(alloc: Global, shape: &LoopShape, graph: &Graph) -> Result<Cells, AllocError>
    requires graph { IsInOrder graph.now }
    requires nest { AreNest graph.now shape.now.levels }
    ensures { IfOk result (AreCellsOf graph.now shape.now.levels) }
{
    let none = no_cells();
    let values = value_pass(alloc, shape, 0, graph, &none)?;
    let levels = shape.levels.as_slice();
    let body = levels[0].body.as_slice();
    let words = words_at(alloc, graph, body, values.as_slice())?;
    cells_of(alloc, words.as_slice())
}
