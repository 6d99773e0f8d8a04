ghost use Rattle.std.specs.Prelude.{◌≡◌, ◌≤◌, ◌<◌, ◌+◌, ◌*◌, ◌^◌, ◌∷◌, ◌++◌, ℕ, List, [], IfOk, OnOk, length};
ghost use Rattle.std.specs.List.{All};
ghost use Rattle.elf_image.specs.Layout.{IsLoadable};
ghost use Rattle.loop_data.specs.Graphs.{IsGraph};
ghost use Rattle.rv64_decode.specs.Hart.{address};
ghost use Rattle.image_writer.specs.Image.{word_limit};
ghost use Rattle.loop_division.specs.Adding.{IsParallelAt, AreAdded};

use crate::stubs::stub_of;
use elf_image::Elf;
use image_writer::Entry;
use loop_data::{Graph, LoopShape};
use std::alloc::{AllocError, Global};

/// The most words that are added to an executable.
pub const MOST_WORDS: u32 = 4_194_304;

/// The address of the first added word.
const FIRST_WORD: u64 = 0x6000_0000;

/// Stubs that are added one behind the other.
#[derive(Drop)]
pub struct Added {
    /// An entry for each.
    pub entries: Vec<Entry>,
    /// Their words, as long as they are not too many.
    pub code: Vec<u32>,
    /// How many words they have.
    pub count: u32,
}

// The entry of a loop whose stub begins at a place.
fn entry_at(header: u64, place: u32) -> Entry
    ensures { result ≡ record { header = header; stub = address place } }
{
    Entry {
        header,
        stub: FIRST_WORD + 4 * u64::from(place),
    }
}

// Puts words behind those that are kept, where with them there are not too many.
fn keep(code: &mut Vec<u32>, words: &[u32], count: u32) -> Result<(), AllocError>
    ensures { OnOk result (count ≤ word_limit → code.new.items ≡ code.old.items ++ words.now) }
{
    if count > MOST_WORDS {
        return Ok(());
    }
    code.extend_from_slice(words)
}

// Puts the stub of the loop at a place behind those that are there.
fn add_stub(
    alloc: Global,
    graph: &Graph,
    elf: &Elf,
    shapes: &[LoopShape],
    place: u32,
    added: &mut Added,
) -> Result<(), AllocError>
    requires loadable { IsLoadable elf.now }
    requires graph { IsGraph elf.now graph.now }
    requires parallel { IsParallelAt graph.now shapes.now place }
    requires near { added.old.count < 2 ^ 29 }
    ensures added { (places rest : List ℕ)
        → AreAdded elf.now graph.now shapes.now places (place ∷ rest) added.old.entries.items added.old.code.items
        added.old.count
        → OnOk result (AreAdded elf.now graph.now shapes.now places rest added.new.entries.items added.new.code.items
        added.new.count) }
    ensures few { OnOk result (added.new.count ≤ added.old.count + 2 ^ 18) }
{
    let shape = &shapes[place as usize];
    let stub = stub_of(alloc, graph, elf, shape, added.count)?;
    let words = stub.as_slice();
    let count = added.count + words.len() as u32;
    added.entries.push(entry_at(shape.header, added.count))?;
    keep(&mut added.code, words, count)?;
    added.count = count;
    Ok(())
}

/// The stubs of the loops at these places, which are Parallel, one behind the other. Words are kept as long as they are
/// not too many, and all are counted.
pub fn add_stubs(
    alloc: Global,
    graph: &Graph,
    elf: &Elf,
    shapes: &[LoopShape],
    places: &[u32],
) -> Result<Added, AllocError>
    requires loadable { IsLoadable elf.now }
    requires graph { IsGraph elf.now graph.now }
    requires parallel { All (IsParallelAt graph.now shapes.now) places.now }
    requires few { length places.now ≤ 1024 }
    ensures { IfOk result (λ a. AreAdded elf.now graph.now shapes.now places.now [] a.entries.items a.code.items
        a.count) }
{
    let mut added = Added {
        entries: Vec::new(alloc),
        code: Vec::new(alloc),
        count: 0,
    };
    for place in places {
        add_stub(alloc, graph, elf, shapes, *place, &mut added)?;
    }
    Ok(added)
}
