ghost use Rattle.std.specs.Prelude.{◌≡◌, ◌≤◌, ◌<◌, ◌^◌, IfOk, length};
ghost use Rattle.elf_image.specs.Layout.{IsLoadable};
ghost use Rattle.loop_data.specs.Graphs.{IsGraph};
ghost use Rattle.loop_choice.specs.Judging.{IsPlanOf};
ghost use Rattle.stub_laws.specs.Code.{readings, somes};
ghost use Rattle.check_code.specs.CheckCode.{check_code};
ghost use Rattle.check_code.specs.Checkable.{HasRoom};
ghost use Rattle.loop_division.specs.Adding.{IsParallelLoop};
ghost use Rattle.loop_division.specs.Stubs.{AreShort, AreWordsOf};

use alias_checks::Check;
use check_code::emit_check;
use checkable_plans::judged_checks_are_told;
use elf_image::Elf;
use loop_choice::laws::one_verdict;
use loop_choice::{Judged, PlanAndCheck, judge};
use loop_data::{Graph, LoopShape, Plan};
use loop_shapes::laws::nests;
use outliner::emit_stub;
use stack_slots::laws::cells_are_found;
use std::alloc::{AllocError, Global};

// The plan and the check of a loop that is Parallel.
fn plan_of(
    alloc: Global,
    graph: &Graph,
    elf: &Elf,
    shape: &LoopShape,
) -> Result<PlanAndCheck, AllocError>
    requires loadable { IsLoadable elf.now }
    requires graph { IsGraph elf.now graph.now }
    requires shape { IsParallelLoop graph.now shape.now }
    ensures { IfOk result (λ both. IsPlanOf graph.now elf.now shape.now both.0 both.1) }
{
    one_verdict();
    let judged = judge(alloc, graph, elf, shape)?;
    let Judged { plan, .. } = judged;
    Ok(plan.unwrap())
}

// The words of a check, whose open jumps have no target yet.
fn tests_of(alloc: Global, check: &Check) -> Result<Vec<u32>, AllocError>
    requires { HasRoom check.now }
    ensures tell { IfOk result (λ v. readings v.items ≡ somes (check_code check.now)) }
    ensures few { IfOk result (λ v. length v.items ≤ 200000) }
{
    emit_check(alloc, check)
}

// That words of 32 bits are such.
fn are_short(words: &[u32])
    ensures { AreShort words.now }
{
    let _words = words;
}

// The words of the added code of a loop that is Parallel, if the first stands at place p.
pub fn stub_of(
    alloc: Global,
    graph: &Graph,
    elf: &Elf,
    shape: &LoopShape,
    p: u32,
) -> Result<Vec<u32>, AllocError>
    requires loadable { IsLoadable elf.now }
    requires graph { IsGraph elf.now graph.now }
    requires shape { IsParallelLoop graph.now shape.now }
    requires near { p < 2 ^ 29 }
    ensures words { IfOk result (λ v. AreWordsOf elf.now graph.now shape.now p v.items) }
    ensures few { IfOk result (λ v. length v.items ≤ 2 ^ 18) }
{
    nests();
    cells_are_found();
    judged_checks_are_told();
    let both = plan_of(alloc, graph, elf, shape)?;
    let plan = both.plan();
    let tests = tests_of(alloc, both.check())?;
    let words = emit_stub(alloc, graph, plan, tests.as_slice(), p)?;
    are_short(words.as_slice());
    Ok(words)
}
