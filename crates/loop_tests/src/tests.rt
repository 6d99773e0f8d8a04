ghost use Rattle.std.specs.Prelude.{◌≡◌, ◌<◌, ◌^◌, [], None, length, slice_index_or, IfOk, IfSome, IsTrue};
ghost use Rattle.loop_data.specs.declared.shape.LoopShape.{LoopShape as Shape};
ghost use Rattle.loop_data.specs.LoopWords.{AreNest};
ghost use Rattle.loop_data.specs.Lookups.{AreNumbered};
ghost use Rattle.loop_data.specs.Paths.{IsInOrder};
ghost use Rattle.loop_shapes.specs.Places.{count_of};

use arrayvec::ArrayVec;
use elf_image::read_elf;
use flow_recovery::laws::{reached_words, starts};
use flow_recovery::recover;
use loop_data::{Cells, Graph, LoopShape};
use loop_shapes::laws::nests;
use loop_shapes::loops;
use stack_slots::{cells, cells_are_found};
use std::alloc::{AllocError, Global};

mod access_rows;
mod cell_rows;
mod class_rows;
mod form_rows;
mod samples;
mod trip_rows;
mod value_rows;
mod verdict_rows;

use samples::Program;

// A nest of loops with the program that it is of.
#[derive(Drop)]
struct Found {
    graph: Graph,
    shape: LoopShape,
}

// No cells.
fn no_cells() -> Cells
    ensures { AreNumbered result }
{
    Cells {
        list: ArrayVec::new(),
        uses: ArrayVec::new(),
        fault: None,
    }
}

// The cells of a nest, where they do not decide against it.
fn cells_in(alloc: Global, found: &Found) -> Result<Option<Cells>, AllocError>
    requires graph { IsInOrder found.now.graph }
    requires nest { AreNest found.now.graph found.now.shape.levels }
    ensures { IfOk result (λ some. IfSome some AreNumbered) }
{
    cells_are_found();
    let cells = cells(alloc, &found.shape, &found.graph)?;
    if cells.fault.is_some() {
        return Ok(None);
    }
    Ok(Some(cells))
}

// Whether a program has few words.
fn is_short(graph: &Graph) -> bool
    ensures { IsTrue result → count_of graph.now < 2 ^ 32 }
{
    graph.words.as_slice().len() < 10000
}

// The place of the loop at a header, where its shape decides no verdict.
fn place_of(shapes: &[LoopShape], header: u64) -> Option<usize>
    ensures within { IfSome result (λ i. i < length shapes.now) }
    ensures free { IfSome result (λ i. (s : Shape) → s ≡ slice_index_or shapes.now i s → s.early ≡ None) }
{
    for i in 0..shapes.len() {
        if shapes[i].header == header && shapes[i].early.is_none() {
            return Some(i);
        }
    }
    None
}

// The nest at a header, where its shape decides no verdict.
fn nest_of(alloc: Global, program: &Program, header: u64) -> Result<Option<Found>, AllocError>
    ensures graph { IfOk result (λ found. IfSome found (λ f. IsInOrder f.graph)) }
    ensures nest { IfOk result (λ found. IfSome found (λ f. AreNest f.graph f.shape.levels)) }
{
    reached_words();
    starts();
    nests();
    let file = program.file(alloc)?;
    let Ok(elf) = read_elf(alloc, file.as_slice()) else {
        return Ok(None);
    };
    let Ok(graph) = recover(alloc, &elf) else {
        return Ok(None);
    };
    if !is_short(&graph) {
        return Ok(None);
    }
    let mut shapes = loops(alloc, &graph)?;
    let Some(place) = place_of(shapes.as_slice(), header) else {
        return Ok(None);
    };
    let shape = shapes.swap_remove(place);
    Ok(Some(Found { graph, shape }))
}
