ghost use Rattle.std.specs.Prelude.{◌≡◌, ◌==◌, true, not, if◌then◌else◌, ◌≤◌, ◌<◌, ◌/◌, ◌^◌, pos, negsuc, ◌≤ℤ◌, ◌<ℤ◌, ◌+ℤ◌, ◌-ℤ◌, ◌*ℤ◌, slice_get, IfSome};
ghost use Rattle.std.specs.List.{All};
ghost use Rattle.std.specs.Int.RustNames.{unsigned_abs};
ghost use Rattle.linear_forms.specs.Forms.{integers, is_zero, word_of};
ghost use Rattle.loop_data.specs.Trips.{reading, relates, count, has_ended, number};
ghost use Rattle.alias_checks.specs.TurnTests.{up_to, IsReading, few_stays, root_turns, passes_of, root_by, passes_by, turns_of, last_of, AreRootTurns, ArePasses, AreFew};

use crate::entry::start_value;
use crate::lists::Turns;
use loop_data::{Relation, Trip};

/// Fewer turns than these are not divided.
const LEAST: u64 = 16;

/// Nor are more turns than these.
const MOST: u64 = 1 << 31;

/// A word as a branch reads it.
fn reading(signed: bool, word: u64) -> i128
    ensures value { result ≡ reading signed word }
    ensures range { IsReading result }
{
    if signed {
        word.cast_signed() as i128
    } else {
        word as i128
    }
}

/// An integer modulo 2^64.
fn word_of(number: i128) -> u64
    ensures { result ≡ word_of number }
{
    if number < 0 {
        u64::MAX - (-(number + 1) % (1 << 64)) as u64
    } else {
        (number % (1 << 64)) as u64
    }
}

/// Whether the first number has a relation to the second.
fn relates(relation: Relation, first: i128, second: i128) -> bool
    requires first { IsReading first }
    requires second { IsReading second }
    ensures { result ≡ relates relation first second }
{
    match relation {
        Relation::Differ => first - second != 0,
        Relation::Less => first < second,
        Relation::AtMost => first <= second,
        Relation::More => second < first,
        Relation::AtLeast => second <= first,
    }
}

/// The quotient, which is 0 where the divisor is.
fn quotient(number: u128, divisor: u128) -> u128
    ensures { result ≡ number / divisor }
{
    if divisor == 0 { 0 } else { number / divisor }
}

/// How far the second number is above the first.
fn gap(first: i128, second: i128) -> u128
    requires first { IsReading first }
    requires second { IsReading second }
    ensures value { result ≡ unsigned_abs (second -ℤ first) }
    ensures small { result ≤ 2 ^ 65 }
{
    (second - first).unsigned_abs()
}

/// How often the first number, which gains a step in each turn, has a relation to the second.
fn count(relation: Relation, first: i128, step: i64, second: i128) -> u128
    requires first { IsReading first }
    requires second { IsReading second }
    ensures { result ≡ count relation first step second }
{
    let size = step.unsigned_abs() as u128;
    match relation {
        Relation::Differ => quotient(gap(first, second), size),
        Relation::Less => {
            if first < second {
                quotient(gap(first, second) - 1, size) + 1
            } else {
                0
            }
        }
        Relation::AtMost => {
            if second < first {
                0
            } else {
                quotient(gap(first, second), size) + 1
            }
        }
        Relation::More => {
            if second < first {
                quotient(gap(second, first) - 1, size) + 1
            } else {
                0
            }
        }
        Relation::AtLeast => {
            if first < second {
                0
            } else {
                quotient(gap(second, first), size) + 1
            }
        }
    }
}

/// What a number gains in so many turns.
fn gain(step: i64, turns: u64) -> i128
    requires { turns ≤ 2 ^ 31 }
    ensures value { result ≡ step *ℤ pos turns }
    ensures low { negsuc (2 ^ 94) ≤ℤ result }
    ensures high { result ≤ℤ pos (2 ^ 94) }
{
    step as i128 * turns as i128
}

/// What a number is after so many turns, in each of which it gains a step.
fn moved(first: i128, step: i64, turns: u64) -> i128
    requires first { IsReading first }
    requires turns { turns ≤ 2 ^ 31 }
    ensures value { result ≡ first +ℤ step *ℤ pos turns }
    ensures low { negsuc (2 ^ 95) ≤ℤ result }
    ensures high { result ≤ℤ pos (2 ^ 95) }
{
    first + gain(step, turns)
}

/// Whether a number has come to another.
fn has_met(number: i128, other: i128) -> bool
    requires low { negsuc (2 ^ 95) ≤ℤ number }
    requires high { number ≤ℤ pos (2 ^ 95) }
    requires other { IsReading other }
    ensures { result ≡ is_zero (number -ℤ other) }
{
    number - other == 0
}

/// Whether a relation to a number has ended after so many turns, where the word that moves is then this number
/// modulo 2^64.
fn has_left(relation: Relation, signed: bool, last: i128, second: i128, turns: u64) -> bool
    requires { IsReading second }
    ensures { result ≡ (if turns == 0 then true else not (relates relation (reading signed (word_of last)) second)) }
{
    turns == 0 || !relates(relation, reading(signed, word_of(last)), second)
}

/// Whether a relation has ended after so many turns.
fn has_ended(
    relation: Relation,
    signed: bool,
    first: i128,
    step: i64,
    second: i128,
    turns: u64,
) -> bool
    requires first { IsReading first }
    requires second { IsReading second }
    requires turns { turns ≤ 2 ^ 31 }
    ensures { result ≡ has_ended relation signed first step second turns }
{
    let last = moved(first, step, turns);
    match relation {
        Relation::Differ => has_met(last, second),
        Relation::Less => has_left(relation, signed, last, second, turns),
        Relation::AtMost => has_left(relation, signed, last, second, turns),
        Relation::More => has_left(relation, signed, last, second, turns),
        Relation::AtLeast => has_left(relation, signed, last, second, turns),
    }
}

/// The number of turns that stay, if it is told and is at most 2^31.
fn number(relation: Relation, signed: bool, first: i128, step: i64, second: i128) -> Option<u64>
    requires first { IsReading first }
    requires second { IsReading second }
    ensures few { IfSome result (λ n. n ≤ 2 ^ 31) }
    ensures number { result ≡ up_to (2 ^ 31) (number relation signed first step second) }
{
    let turns = count(relation, first, step, second);
    if turns > MOST as u128 {
        return None;
    }
    if has_ended(relation, signed, first, step, second, turns as u64) {
        Some(turns as u64)
    } else {
        None
    }
}

/// The number of turns that a trip tells to stay, where the locations have these values at the entry, if it is at
/// most 2^31.
#[tactic(auto, unfolding(crate::specs::Entry::start_value, crate::specs::TurnTests::few_stays))]
fn few_stays(trip: &Trip, entry: &[u64; 48]) -> Option<u64>
    ensures number { result ≡ few_stays trip.now (integers entry.now) }
    ensures few { IfSome result (λ n. n ≤ 2 ^ 31) }
{
    let first = reading(trip.signed, start_value(&trip.start, entry));
    let second = reading(trip.signed, start_value(&trip.bound, entry));
    number(trip.relation, trip.signed, first, trip.step, second)
}

/// The turns of the root that a trip tells, if they are from 16 to 2^31.
fn root_turns(trip: &Trip, entry: &[u64; 48]) -> Option<u64>
    ensures turns { result ≡ root_turns (few_stays trip.now (integers entry.now)) }
    ensures few { IfSome result AreRootTurns }
{
    match few_stays(trip, entry) {
        Some(turns) => { if turns >= LEAST { Some(turns) } else { None } }
        None => None,
    }
}

/// The passes of an inner loop that its trip tells, if they are at most 2^31.
fn passes_of(trip: &Trip, entry: &[u64; 48]) -> Option<u64>
    ensures passes { result ≡ passes_of (few_stays trip.now (integers entry.now)) }
    ensures few { IfSome result ArePasses }
{
    match few_stays(trip, entry) {
        Some(stays) => { if stays < MOST { Some(stays + 1) } else { None } }
        None => None,
    }
}

/// The turns of the root that the first trip tells, if they are from 16 to 2^31.
fn first_turns(trips: &[Trip], entry: &[u64; 48]) -> Option<u64>
    ensures turns { result ≡ root_by (slice_get trips.now 0) (integers entry.now) }
    ensures few { IfSome result AreRootTurns }
{
    if trips.is_empty() {
        None
    } else {
        root_turns(&trips[0], entry)
    }
}

/// The passes of the inner loop at a place that its trip tells, if they are at most 2^31.
fn passes_at(trips: &[Trip], place: usize, entry: &[u64; 48]) -> Option<u64>
    ensures passes { result ≡ passes_by (slice_get trips.now place) (integers entry.now) }
    ensures few { IfSome result ArePasses }
{
    if place < trips.len() {
        passes_of(&trips[place], entry)
    } else {
        Some(1)
    }
}

/// The turns and passes that the trips tell, where the locations have these values at the entry.
#[tactic(auto, unfolding(crate::specs::TurnTests::turns_of))]
pub(crate) fn turns_of(trips: &[Trip], entry: &[u64; 48]) -> Option<Turns>
    ensures turns { result ≡ turns_of trips.now (integers entry.now) }
    ensures few { IfSome result AreFew }
{
    let root = first_turns(trips, entry)?;
    let first = passes_at(trips, 1, entry)?;
    let second = passes_at(trips, 2, entry)?;
    let third = passes_at(trips, 3, entry)?;
    Some(Turns {
        root,
        inner: [first, second, third],
    })
}

/// The last turn of the root, and the last pass of each inner loop.
pub(crate) fn last_of(turns: &Turns) -> [u64; 4]
    requires { AreFew turns.now }
    ensures last { result ≡ last_of turns.now }
    ensures small { All (λ n. n < 2 ^ 31) result }
{
    let [first, second, third] = turns.inner;
    [turns.root - 1, first - 1, second - 1, third - 1]
}
