ghost use Rattle.std.specs.Prelude.{IfOk, IfErr};
ghost use Rattle.elf_image.specs.Layout.{IsLoadable};
ghost use Rattle.loop_choice.specs.Choice.{AreChosen};
ghost use Rattle.loop_division.specs.Division.{IsDivision};
ghost use Rattle.loop_division.specs.LoopVerdicts.{AreVerdicts};
ghost use Rattle.loop_division.specs.Refusals.{IsRefused};

use crate::adding::{Added, MOST_WORDS, add_stubs};
use crate::refusal::DivideErr;
use crate::verdicts::{LoopVerdicts, judge_loops};
use elf_image::Elf;
use flow_recovery::FlowErr;
use flow_recovery::laws::reached_words;
use image_writer::Entry;
use loop_choice::{ChooseErr, choose};
use std::alloc::Global;

/// The entries and the added words of an executable.
#[derive(Drop)]
pub struct Division {
    /// An entry for each chosen loop, by header.
    pub entries: Vec<Entry>,
    /// The words of their stubs, one behind the other. Word i has the address 0x60000000 + 4 * i.
    pub code: Vec<u32>,
}

// The entries and the added words of an executable of whose loops those at these places are chosen.
fn divided(
    alloc: Global,
    elf: &Elf,
    verdicts: &LoopVerdicts,
    places: &[u32],
) -> Result<Division, DivideErr>
    requires loadable { IsLoadable elf.now }
    requires verdicts { AreVerdicts elf.now verdicts.now.graph verdicts.now.shapes.items verdicts.now.all.items }
    requires chosen { AreChosen verdicts.now.all.items places.now }
    ensures division { IfOk result (λ d. IsDivision elf.now d.entries.items d.code.items) }
    ensures refused { IfErr result (IsRefused elf.now) }
{
    let shapes = verdicts.shapes.as_slice();
    let Ok(added) = add_stubs(alloc, &verdicts.graph, elf, shapes, places) else {
        return Err(DivideErr::OutOfMemory);
    };
    let Added {
        entries,
        code,
        count,
    } = added;
    if count > MOST_WORDS {
        let words = u64::from(count);
        return Err(DivideErr::CodeTooLong { words });
    }
    Ok(Division { entries, code })
}

/// The entries and the added words of an executable: an entry and a stub for each chosen loop. More than 262,144
/// reached words, 1,024 chosen loops and 4,194,304 added words are refused, each only where those before it are not.
pub fn divide(alloc: Global, elf: &Elf) -> Result<Division, DivideErr>
    requires { IsLoadable elf.now }
    ensures division { IfOk result (λ d. IsDivision elf.now d.entries.items d.code.items) }
    ensures refused { IfErr result (IsRefused elf.now) }
{
    reached_words();
    let verdicts = match judge_loops(alloc, elf) {
        Ok(verdicts) => verdicts,
        Err(FlowErr::TooManyWords { count }) => return Err(DivideErr::TooManyWords { count }),
        Err(FlowErr::OutOfMemory) => return Err(DivideErr::OutOfMemory),
    };
    match choose(alloc, verdicts.all.as_slice()) {
        Ok(places) => divided(alloc, elf, &verdicts, places.as_slice()),
        Err(ChooseErr::TooManyLoops { count }) => Err(DivideErr::TooManyLoops { count }),
        Err(ChooseErr::OutOfMemory) => Err(DivideErr::OutOfMemory),
    }
}
