ghost use Rattle.std.specs.Prelude.{IfOk, IfErr};
ghost use Rattle.elf_image.specs.Layout.{IsLoadable};
ghost use Rattle.flow_recovery.specs.Refusals.{IsRefused};
ghost use Rattle.loop_data.specs.Graphs.{IsGraph};
ghost use Rattle.loop_data.specs.Loops.{AreLoops};
ghost use Rattle.loop_choice.specs.Judging.{IsOneOfLoops};
ghost use Rattle.loop_division.specs.LoopVerdicts.{IsJudgedAs, AreJudgedAs, AreVerdicts};

use elf_image::Elf;
use flow_recovery::laws::{reached_words, starts};
use flow_recovery::{FlowErr, recover};
use loop_choice::{Judged, judge};
use loop_data::{Graph, LoopShape};
use loop_shapes::loops;
use std::alloc::{AllocError, Global};

/// What is found of the loops of an executable.
#[derive(Drop)]
pub struct LoopVerdicts {
    /// Its reached words.
    pub graph: Graph,
    /// Its listed loops, by header.
    pub shapes: Vec<LoopShape>,
    /// The verdict of each, at the same place. Plans are let go: those of all loops would take much memory.
    pub all: Vec<Judged>,
}

// The verdict of a loop. A plan of how its turns are divided is let go.
fn judged_as(
    alloc: Global,
    graph: &Graph,
    elf: &Elf,
    shape: &LoopShape,
) -> Result<Judged, AllocError>
    requires loadable { IsLoadable elf.now }
    requires graph { IsGraph elf.now graph.now }
    requires shape { IsOneOfLoops graph.now shape.now }
    ensures { IfOk result (IsJudgedAs graph.now shape.now) }
{
    let judged = judge(alloc, graph, elf, shape)?;
    let Judged {
        header,
        body,
        verdict,
        plan: _,
    } = judged;
    Ok(Judged {
        header,
        body,
        verdict,
        plan: None,
    })
}

// The verdicts of all loops.
fn judge_all(
    alloc: Global,
    graph: &Graph,
    elf: &Elf,
    shapes: &[LoopShape],
) -> Result<Vec<Judged>, AllocError>
    requires loadable { IsLoadable elf.now }
    requires graph { IsGraph elf.now graph.now }
    requires shapes { AreLoops graph.now shapes.now }
    ensures { IfOk result (λ v. AreJudgedAs graph.now shapes.now v.items) }
{
    let mut all = Vec::new(alloc);
    for shape in shapes {
        let judged = judged_as(alloc, graph, elf, shape)?;
        all.push(judged)?;
    }
    Ok(all)
}

/// The listed loops of an executable and their verdicts. More than 262,144 reached words are refused.
pub fn judge_loops(alloc: Global, elf: &Elf) -> Result<LoopVerdicts, FlowErr>
    requires { IsLoadable elf.now }
    ensures verdicts { IfOk result (λ v. AreVerdicts elf.now v.graph v.shapes.items v.all.items) }
    ensures refused { IfErr result (IsRefused elf.now) }
{
    reached_words();
    starts();
    let graph = match recover(alloc, elf) {
        Ok(graph) => graph,
        Err(error) => return Err(error),
    };
    let Ok(shapes) = loops(alloc, &graph) else {
        return Err(FlowErr::OutOfMemory);
    };
    let Ok(all) = judge_all(alloc, &graph, elf, shapes.as_slice()) else {
        return Err(FlowErr::OutOfMemory);
    };
    Ok(LoopVerdicts { graph, shapes, all })
}
