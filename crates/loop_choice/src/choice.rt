ghost use Rattle.std.specs.Prelude.{◌≡◌, ◌↔◌, ◌<◌, ◌^◌, ◌+◌, true, false, length, IfOk, OnOk, IfErr, IfSome, IfNone, IsTrue};
ghost use Rattle.std.specs.List.Sorted.{IsStrictlyIncreasing};
ghost use Rattle.loop_data.specs.declared.verdict.Verdict.TheVariants.{Parallel};
ghost use Rattle.loop_data.specs.Sets.{IsListOf};
ghost use Rattle.loop_choice.specs.Choice.{headers_of, IsChosen, AreChosen, IsChoiceRefused};
ghost use Rattle.loop_choice.specs.Choosing.{AreFlags, AreChosenBelow, AreSetToo, IsOtherAt, IsOtherAmong, HasHeaderAt, HasNoHeader};

use crate::judged::Judged;
use crate::refusal::ChooseErr;
use loop_data::Verdict;
use std::alloc::{AllocError, Global};

/// The most loops that are chosen.
const MOST_CHOSEN: usize = 1024;

/// The place of the loop with a header.
fn place_of(all: &[Judged], header: u64) -> Option<usize>
    requires { IsStrictlyIncreasing (headers_of all.now) }
    ensures some { IfSome result (HasHeaderAt all.now header) }
    ensures none { IfNone result (HasNoHeader all.now header) }
{
    match all.binary_search_by_key(&header, |j| j.header) {
        Ok(place) => Some(place),
        Err(_) => None,
    }
}

/// Whether a loop is Parallel.
fn is_parallel(loop_: &Judged) -> bool
    ensures { IsTrue result ↔ (loop_.now.verdict ≡ Parallel) }
{
    loop_.verdict == Verdict::Parallel
}

/// Sets the flag of the loop with a header, where it is another than that at place i.
#[tactic(auto, using(crate::proofs::Flags::itself))]
fn flag_header(all: &[Judged], i: usize, header: u64, flags: &mut Vec<bool>)
    requires ordered { IsStrictlyIncreasing (headers_of all.now) }
    requires count { length flags.old.items ≡ length all.now }
    ensures { AreSetToo (IsOtherAt all.now i header) flags.old.items flags.new.items }
{
    match place_of(all, header) {
        Some(place) => {
            if place != i {
                flags[place] = true;
            }
        }
        None => {}
    }
}

/// Sets the flags of the other loops whose headers are among the words of that at place i.
#[tactic(auto, using(crate::proofs::Flags::none_yet, crate::proofs::Flags::next_word, crate::proofs::Flags::all_words))]
fn flag_inner(all: &[Judged], i: usize, words: &[u64], flags: &mut Vec<bool>)
    requires ordered { IsStrictlyIncreasing (headers_of all.now) }
    requires count { length flags.old.items ≡ length all.now }
    ensures { AreSetToo (IsOtherAmong all.now i words.now) flags.old.items flags.new.items }
{
    for k in 0..words.len() {
        flag_header(all, i, words[k], flags);
    }
}

/// Sets the flags of the loops whose headers lie in the body of the loop at place i, where it is Parallel.
#[tactic(auto, using(crate::proofs::Flags::next_loop, crate::proofs::Flags::other_loop))]
fn flag_next(all: &[Judged], i: usize, flags: &mut Vec<bool>)
    requires ordered { IsStrictlyIncreasing (headers_of all.now) }
    requires within { i < length all.now }
    requires flags { AreFlags all.now i flags.old.items }
    ensures { AreFlags all.now (i + 1) flags.new.items }
{
    let outer = &all[i];
    if is_parallel(outer) {
        flag_inner(all, i, outer.body.as_slice(), flags);
    }
}

/// For each loop whether its header lies in the body of another loop that is Parallel.
#[tactic(auto, using(crate::proofs::Flags::no_flags))]
fn inner_flags(alloc: Global, all: &[Judged]) -> Result<Vec<bool>, AllocError>
    requires { IsStrictlyIncreasing (headers_of all.now) }
    ensures { IfOk result (λ v. AreFlags all.now (length all.now) v.items) }
{
    let mut flags = vec![in alloc; false; all.len()]?;
    for i in 0..all.len() {
        flag_next(all, i, &mut flags);
    }
    Ok(flags)
}

/// Whether the loop at a place is chosen.
fn is_chosen(all: &[Judged], flags: &[bool], place: usize) -> bool
    requires within { place < length all.now }
    requires flags { AreFlags all.now (length all.now) flags.now }
    ensures yes { result ≡ true → IsChosen all.now place }
    ensures not { result ≡ false → ¬ IsChosen all.now place }
{
    if !is_parallel(&all[place]) {
        return false;
    }
    !flags[place]
}

/// Puts a place at the end, if the loop there is chosen.
fn add_chosen(
    all: &[Judged],
    flags: &[bool],
    place: usize,
    places: &mut Vec<u32>,
) -> Result<(), AllocError>
    requires few { length all.now < 2 ^ 32 }
    requires within { place < length all.now }
    requires flags { AreFlags all.now (length all.now) flags.now }
    requires places { AreChosenBelow all.now place places.old.items }
    ensures { OnOk result (AreChosenBelow all.now (place + 1) places.new.items) }
{
    if is_chosen(all, flags, place) {
        places.push(place as u32)?;
        return Ok(());
    }
    Ok(())
}

/// The places of the chosen loops.
#[tactic(auto, using(crate::proofs::Choices::none_chosen))]
fn chosen_places(alloc: Global, all: &[Judged], flags: &[bool]) -> Result<Vec<u32>, AllocError>
    requires few { length all.now < 2 ^ 32 }
    requires flags { AreFlags all.now (length all.now) flags.now }
    ensures { IfOk result (λ v. IsListOf (IsChosen all.now) v.items) }
{
    let mut places = Vec::new(alloc);
    for place in 0..all.len() {
        add_chosen(all, flags, place, &mut places)?;
    }
    Ok(places)
}

/// The places of the loops that are chosen to be divided, of all judged loops by header: of those that are Parallel
/// each whose header lies in the body of no other. More than 1,024 are refused.
pub fn choose(alloc: Global, all: &[Judged]) -> Result<Vec<u32>, ChooseErr>
    requires ordered { IsStrictlyIncreasing (headers_of all.now) }
    requires few { length all.now < 2 ^ 32 }
    ensures chosen { IfOk result (λ v. AreChosen all.now v.items) }
    ensures refused { IfErr result (IsChoiceRefused all.now) }
{
    let flags = inner_flags(alloc, all)?;
    let places = chosen_places(alloc, all, flags.as_slice())?;
    if places.len() > MOST_CHOSEN {
        let count = places.len() as u64;
        return Err(ChooseErr::TooManyLoops { count });
    }
    Ok(places)
}
