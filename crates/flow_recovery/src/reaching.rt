ghost use Rattle.std.specs.Prelude.{◌≡◌, ◌↔◌, ◌⊎◌, ◌<◌, ◌≤◌, ℕ, IsTrue, None, Contains, IfOk, IfErr, OnOk, length};
ghost use Rattle.elf_image.specs.Layout.{IsLoadable};
ghost use Rattle.loop_data.specs.Code.{IsCode};
ghost use Rattle.loop_data.specs.Targets.{before, targets_at, pair_at, successors};
ghost use Rattle.loop_data.specs.Reaching.{Reached};
ghost use Rattle.flow_recovery.specs.Reaching.{AreAllReached};
ghost use Rattle.flow_recovery.specs.Search.{HasCodeOf, Grows, AreReached, IsVisited};
ghost use Rattle.flow_recovery.specs.Refusals.{IsRefused, word_limit};

use crate::code::word_at;
use crate::flow::{Flow, before, flow_at, next, pair_at};
use crate::refusal::{FlowErr, WORD_LIMIT};
use elf_image::Elf;
use indexmap::IndexSet;
use std::alloc::Global;

// Whether an address is among those found.
fn has(found: &IndexSet<u64>, at: u64) -> bool
    ensures { IsTrue result ↔ Contains found.now.keys at }
{
    found.contains(&at)
}

// The target of the pair that ends at an address, if its first word is found.
pub(crate) fn pair_in(elf: &Elf, found: &IndexSet<u64>, at: u64) -> Option<u64>
    requires { IsLoadable elf.now }
    ensures { (Contains found.now.keys (before at) × (result ≡ pair_at elf.now at))
        ⊎ ((¬ Contains found.now.keys (before at)) × (result ≡ None)) }
{
    match pair_at(elf, at) {
        Some(target) => {
            if has(found, before(at)) {
                Some(target)
            } else {
                None
            }
        }
        None => None,
    }
}

// Adds a word, if there is code at the address.
fn add(elf: &Elf, found: &mut IndexSet<u64>, at: u64) -> Result<(), FlowErr>
    requires loadable { IsLoadable elf.now }
    requires reached { AreReached elf.now found.old.keys }
    requires leads { IsCode elf.now at → Reached elf.now at }
    ensures reached { OnOk result (AreReached elf.now found.new.keys) }
    ensures grows { OnOk result (Grows found.old.keys found.new.keys) }
    ensures has { OnOk result (IsCode elf.now at → Contains found.new.keys at) }
    ensures refused { IfErr result (IsRefused elf.now) }
{
    if word_at(elf, at).is_none() || has(found, at) {
        return Ok(());
    }
    if found.len() == WORD_LIMIT {
        let count = WORD_LIMIT as u64 + 1;
        return Err(FlowErr::TooManyWords { count });
    }
    match found.insert(at) {
        Ok(_) => Ok(()),
        Err(_) => Err(FlowErr::OutOfMemory),
    }
}

// Adds all to which a word leads, with what is known of a pair that it ends.
fn follow(elf: &Elf, found: &mut IndexSet<u64>, at: u64, pair: Option<u64>) -> Result<(), FlowErr>
    requires loadable { IsLoadable elf.now }
    requires reached { AreReached elf.now found.old.keys }
    requires leads { (b : ℕ) → Contains (successors (targets_at elf.now pair at)) b → IsCode elf.now b
        → Reached elf.now b }
    ensures reached { OnOk result (AreReached elf.now found.new.keys) }
    ensures grows { OnOk result (Grows found.old.keys found.new.keys) }
    ensures has { OnOk result (HasCodeOf elf.now found.new.keys (successors (targets_at elf.now pair at))) }
    ensures refused { IfErr result (IsRefused elf.now) }
{
    match flow_at(elf, pair, at) {
        Flow::Stop => Ok(()),
        Flow::On => add(elf, found, next(at)),
        Flow::Jump(target) => add(elf, found, target),
        Flow::Branch(target) | Flow::Call(target) => {
            add(elf, found, next(at))?;
            add(elf, found, target)
        }
    }
}

// Adds all to which a found word leads, and where a pair leads of which it is the first: then it led on
// to the second.
fn visit(elf: &Elf, found: &mut IndexSet<u64>, at: u64) -> Result<(), FlowErr>
    requires loadable { IsLoadable elf.now }
    requires reached { AreReached elf.now found.old.keys }
    requires found { Contains found.old.keys at }
    ensures reached { OnOk result (AreReached elf.now found.new.keys) }
    ensures grows { OnOk result (Grows found.old.keys found.new.keys) }
    ensures visited { OnOk result (IsVisited elf.now found.old.keys at found.new.keys) }
    ensures refused { IfErr result (IsRefused elf.now) }
{
    let pair = pair_in(elf, found, at);
    follow(elf, found, at, pair)?;
    let second = next(at);
    let behind = pair_at(elf, second);
    if behind.is_some() {
        follow(elf, found, second, behind)?;
    }
    Ok(())
}

// The addresses of all reached words, in order of discovery.
pub(crate) fn reach(alloc: Global, elf: &Elf) -> Result<IndexSet<u64>, FlowErr>
    requires { IsLoadable elf.now }
    ensures reached { IfOk result (λ found. AreAllReached elf.now found.keys) }
    ensures few { IfOk result (λ found. length found.keys ≤ word_limit) }
    ensures refused { IfErr result (IsRefused elf.now) }
{
    let mut found = IndexSet::new(alloc);
    add(elf, &mut found, elf.entry)?;
    let mut done = 0;
    while done < found.len() {
        let at = found.as_slice()[done];
        visit(elf, &mut found, at)?;
        done += 1;
    }
    Ok(found)
}
