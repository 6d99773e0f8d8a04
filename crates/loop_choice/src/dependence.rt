ghost use Rattle.std.specs.Prelude.{ℕ, ◌≡◌, ◌↔◌, ◌<◌, ◌≤◌, length, IfSome, IfNone, IsTrue};
ghost use Rattle.dependence_tests.specs.Separation.{AreHopeless};
ghost use Rattle.distance_vectors.specs.Distances.{is_common};
ghost use Rattle.loop_choice.specs.Pairs.{IsHopelessPair, IsFirstHopelessPair, HasNoHopelessPair, AreHopelessWithStore, IsFirstFrom, counted, common, IsDependence, IsDependenceAt};

use dependence_tests::laws::terms_tell_of_accesses;
use dependence_tests::{hopeless, pair_term};
use distance_vectors::distance;
use loop_data::{Access, Verdict};

/// Whether two accesses are hopeless.
fn is_hopeless(a: &Access, b: &Access) -> bool
    ensures { IsTrue result ↔ AreHopeless a.now b.now }
{
    terms_tell_of_accesses();
    hopeless(&pair_term(a, b))
}

/// Whether one of two accesses stores, and they are hopeless.
#[tactic(auto, using(crate::proofs::Hopeless::told, crate::proofs::Hopeless::not_told))]
fn are_hopeless(a: &Access, b: &Access) -> bool
    ensures { IsTrue result ↔ AreHopelessWithStore a.now b.now }
{
    if a.store || b.store {
        is_hopeless(a, b)
    } else {
        false
    }
}

/// The place of the first access, from that at a place on, with which that is hopeless.
#[tactic(auto, using(crate::proofs::Hopeless::none_before))]
fn first_with(list: &[Access], i: usize) -> Option<usize>
    requires { i < length list.now }
    ensures some { IfSome result (IsFirstFrom list.now i) }
    ensures none { IfNone result ((j : ℕ) → ¬ IsHopelessPair list.now i j) }
{
    for j in i..list.len() {
        if are_hopeless(&list[i], &list[j]) {
            return Some(j);
        }
    }
    None
}

/// The places of the first two accesses that are hopeless.
pub(crate) fn first_hopeless(list: &[Access]) -> Option<(usize, usize)>
    ensures some { IfSome result (λ p. IsFirstHopelessPair list.now p.0 p.1) }
    ensures none { IfNone result (HasNoHopelessPair list.now) }
{
    for i in 0..list.len() {
        match first_with(list, i) {
            Some(j) => return Some((i, j)),
            None => {}
        }
    }
    None
}

/// One where two accesses are both in an inner loop of a depth.
fn common_at(a: &Access, b: &Access, depth: usize) -> u32
    requires { depth < 3 }
    ensures value { result ≡ counted (is_common a.now b.now depth) }
    ensures small { result ≤ 1 }
{
    let around = a.around[depth];
    if around > 0 && around == b.around[depth] {
        1
    } else {
        0
    }
}

/// The verdict of two accesses.
fn dependence(a: &Access, b: &Access) -> Verdict
    ensures { IsDependence a.now b.now result }
{
    Verdict::Dependence {
        first: a.at,
        second: b.at,
        common: common_at(a, b, 1) + common_at(a, b, 2),
        distance: distance(a, b),
    }
}

/// The verdict of the accesses at two places.
#[tactic(auto, using(crate::proofs::Outcomes::dependence_there))]
pub(crate) fn dependence_at(list: &[Access], i: usize, j: usize) -> Verdict
    requires first { i < length list.now }
    requires second { j < length list.now }
    ensures { IsDependenceAt list.now i j result }
{
    dependence(&list[i], &list[j])
}
