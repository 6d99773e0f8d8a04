ghost use Rattle.std.specs.Prelude.{◌≡◌, ◌↔◌, ◌⊎◌, ℕ, All, Contains, IfOk, OnOk, length};
ghost use Rattle.std.specs.List.Sorted.{IsStrictlyIncreasing};
ghost use Rattle.elf_image.specs.Layout.{IsLoadable};
ghost use Rattle.loop_data.specs.Graphs.{IsCall, IsStart, IsWordOf};
ghost use Rattle.loop_data.specs.Paths.{addresses_of};
ghost use Rattle.flow_recovery.specs.Flows.{targets_in};
ghost use Rattle.loop_data.specs.Reaching.{Reached, HasTargets};
ghost use Rattle.flow_recovery.specs.Reaching.{AreAllReached};

use crate::code::word_at;
use crate::flow::{Flow, flow_at, next};
use crate::reaching::pair_in;
use arrayvec::ArrayVec;
use elf_image::Elf;
use indexmap::IndexSet;
use loop_data::Word;
use std::alloc::{AllocError, Global};

// Where a word leads, all reached words being found.
fn flow_in(elf: &Elf, found: &IndexSet<u64>, at: u64) -> Flow
    requires loadable { IsLoadable elf.now }
    requires found { AreAllReached elf.now found.now.keys }
    ensures { HasTargets elf.now at (targets_in at result) }
{
    flow_at(elf, pair_in(elf, found, at), at)
}

// Where a word leads by step edges.
fn steps_of(at: u64, flow: Flow) -> ArrayVec<u64, 2>
    ensures { result.items ≡ (targets_in at flow).steps }
{
    let mut steps = ArrayVec::new();
    match flow {
        Flow::Stop => {}
        Flow::Jump(target) => steps.push(target),
        Flow::On | Flow::Call(_) => steps.push(next(at)),
        Flow::Branch(target) => {
            steps.push(next(at));
            if target != next(at) {
                steps.push(target);
            }
        }
    }
    steps
}

// A reached word with its edges.
fn reached_word(elf: &Elf, found: &IndexSet<u64>, at: u64) -> Word
    requires loadable { IsLoadable elf.now }
    requires found { AreAllReached elf.now found.now.keys }
    requires reached { Reached elf.now at }
    ensures at { result.at ≡ at }
    ensures word { IsWordOf elf.now result }
{
    let bits = word_at(elf, at).unwrap();
    let flow = flow_in(elf, found, at);
    Word {
        at,
        bits,
        steps: steps_of(at, flow),
    }
}

// The reached words at these addresses.
pub(crate) fn words_at(
    alloc: Global,
    elf: &Elf,
    found: &IndexSet<u64>,
    addresses: &[u64],
) -> Result<Vec<Word>, AllocError>
    requires loadable { IsLoadable elf.now }
    requires found { AreAllReached elf.now found.now.keys }
    requires reached { All (Reached elf.now) addresses.now }
    ensures addresses { IfOk result (λ words. addresses_of words.items ≡ addresses.now) }
    ensures words { IfOk result (λ words. All (IsWordOf elf.now) words.items) }
{
    let mut words = Vec::with_capacity(alloc, addresses.len())?;
    for at in addresses {
        words.push(reached_word(elf, found, *at))?;
    }
    Ok(words)
}

// The addresses found, in order.
pub(crate) fn in_order(alloc: Global, found: &IndexSet<u64>) -> Result<Vec<u64>, AllocError>
    ensures order { IfOk result (λ v. IsStrictlyIncreasing v.items) }
    ensures each { IfOk result (λ v. (a : ℕ) → Contains v.items a ↔ Contains found.now.keys a) }
    ensures count { IfOk result (λ v. length v.items ≡ length found.now.keys) }
{
    let mut sorted = Vec::from_slice(alloc, found.as_slice())?;
    sorted.sort_unstable();
    Ok(sorted)
}

// Adds what a word calls.
fn push_call(
    starts: &mut Vec<u64>,
    elf: &Elf,
    found: &IndexSet<u64>,
    at: u64,
) -> Result<(), AllocError>
    requires loadable { IsLoadable elf.now }
    requires found { AreAllReached elf.now found.now.keys }
    requires reached { Reached elf.now at }
    ensures { OnOk result ((a : ℕ) → Contains starts.new.items a ↔ (Contains starts.old.items a
        ⊎ IsCall elf.now at a)) }
{
    if let Flow::Call(target) = flow_in(elf, found, at) {
        starts.push(target)?;
    }
    Ok(())
}

// The entry and all that reached words call, in order.
pub(crate) fn start_words(
    alloc: Global,
    elf: &Elf,
    found: &IndexSet<u64>,
) -> Result<Vec<u64>, AllocError>
    requires loadable { IsLoadable elf.now }
    requires found { AreAllReached elf.now found.now.keys }
    ensures order { IfOk result (λ v. IsStrictlyIncreasing v.items) }
    ensures starts { IfOk result (λ v. (a : ℕ) → Contains v.items a ↔ IsStart elf.now a) }
{
    let mut starts = Vec::new(alloc);
    starts.push(elf.entry)?;
    let words = found.as_slice();
    for at in words {
        push_call(&mut starts, elf, found, *at)?;
    }
    starts.sort_unstable();
    starts.dedup();
    Ok(starts)
}
