ghost use Rattle.std.specs.Prelude.{◌≡◌, ◌≢◌, None, IfOk};
ghost use Rattle.elf_image.specs.Layout.{IsLoadable};
ghost use Rattle.loop_data.specs.declared.verdict.Verdict.TheVariants.{Parallel};
ghost use Rattle.loop_data.specs.Graphs.{IsGraph};
ghost use Rattle.loop_data.specs.LoopWords.{AreNest};
ghost use Rattle.loop_choice.specs.Judging.{IsOneOfLoops, IsJudged, body_of};
ghost use Rattle.loop_choice.specs.Outcomes.{IsOutcome};
ghost use Rattle.loop_choice.specs.Verdicts.{IsVerdict};

use crate::copies::same_addresses;
use crate::judged::{Judged, PlanAndCheck};
use crate::nest::outcome_of;
use crate::outcome::Outcome;
use elf_image::Elf;
use loop_data::{Addresses, Graph, LoopShape, Verdict};
use loop_shapes::laws::nests;
use std::alloc::{AllocError, Global};

/// The words of the root.
fn root_words(alloc: Global, shape: &LoopShape) -> Result<Addresses, AllocError>
    ensures { IfOk result (λ a. a ≡ body_of shape.now.levels) }
{
    match shape.levels.as_slice().first() {
        Some(root) => same_addresses(alloc, &root.body),
        None => Ok(Addresses::new(Vec::new(alloc))),
    }
}

/// The loop with a verdict against it.
fn judged_against(
    alloc: Global,
    graph: &Graph,
    elf: &Elf,
    shape: &LoopShape,
    verdict: Verdict,
) -> Result<Judged, AllocError>
    requires verdict { IsVerdict graph.now shape.now verdict }
    requires other { verdict ≢ Parallel }
    ensures { IfOk result (IsJudged graph.now elf.now shape.now) }
{
    Ok(Judged {
        header: shape.header,
        body: root_words(alloc, shape)?,
        verdict,
        plan: None,
    })
}

/// The loop whose nest ends in this.
#[tactic(auto, using(crate::proofs::Outcomes::nest_verdict, crate::proofs::Outcomes::free_verdict))]
fn judged_by(
    alloc: Global,
    graph: &Graph,
    elf: &Elf,
    shape: &LoopShape,
    outcome: Outcome,
) -> Result<Judged, AllocError>
    requires early { shape.now.early ≡ None }
    requires outcome { IsOutcome graph.now elf.now shape.now outcome }
    ensures { IfOk result (IsJudged graph.now elf.now shape.now) }
{
    match outcome {
        Outcome::Against(verdict) => judged_against(alloc, graph, elf, shape, verdict),
        Outcome::Free { plan, check } => Ok(Judged {
            header: shape.header,
            body: root_words(alloc, shape)?,
            verdict: Verdict::Parallel,
            plan: Some(PlanAndCheck::new(alloc, plan, check)?),
        }),
    }
}

/// The verdict of a listed loop of an executable whose graph is this, and where it is Parallel its plan and its
/// check. The verdict is the first that applies: what the shape decides, what the cells decide, what is carried, a
/// level without a trip, an address that is not regular, and two accesses that are hopeless.
#[tactic(auto, using(crate::proofs::Outcomes::no_parallel_shape, crate::proofs::Outcomes::shape_verdict))]
pub fn judge(
    alloc: Global,
    graph: &Graph,
    elf: &Elf,
    shape: &LoopShape,
) -> Result<Judged, AllocError>
    requires loadable { IsLoadable elf.now }
    requires graph { IsGraph elf.now graph.now }
    requires shape { IsOneOfLoops graph.now shape.now }
    ensures { IfOk result (IsJudged graph.now elf.now shape.now) }
{
    nests();
    match shape.early {
        Some(verdict) => judged_against(alloc, graph, elf, shape, verdict),
        None => {
            let outcome = outcome_of(alloc, graph, elf, shape)?;
            judged_by(alloc, graph, elf, shape, outcome)
        }
    }
}
