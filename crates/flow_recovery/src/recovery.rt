ghost use Rattle.std.specs.Prelude.{◌+◌, IfOk, IfErr, OnOk};
ghost use Rattle.elf_image.specs.Layout.{IsLoadable};
ghost use Rattle.loop_data.specs.Graphs.{IsGraph};
ghost use Rattle.flow_recovery.specs.Refusals.{IsRefused, ReachesAtLeast, word_limit};

use crate::listing::{in_order, start_words, words_at};
use crate::reaching::reach;
use crate::refusal::FlowErr;
use elf_image::Elf;
use loop_data::{Addresses, Graph, GraphWords};
use std::alloc::Global;

/// The reached words of an executable as a graph. It takes time in step with their number.
pub fn recover(alloc: Global, elf: &Elf) -> Result<Graph, FlowErr>
    requires { IsLoadable elf.now }
    ensures graph { IfOk result (IsGraph elf.now) }
    ensures few { OnOk result (¬ ReachesAtLeast elf.now (word_limit + 1)) }
    ensures refused { IfErr result (IsRefused elf.now) }
{
    let found = reach(alloc, elf)?;
    let addresses = in_order(alloc, &found)?;
    let words = words_at(alloc, elf, &found, addresses.as_slice())?;
    let starts = start_words(alloc, elf, &found)?;
    Ok(Graph {
        words: GraphWords::new(words),
        starts: Addresses::new(starts),
    })
}
