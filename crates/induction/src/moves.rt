ghost use Rattle.std.specs.Prelude.{◌≡◌, ◌<◌, ◌==◌, ◌&&◌, length};
ghost use Rattle.std.specs.List.{All};
ghost use Rattle.std.specs.List.Sorted.{IsStrictlyIncreasing};
ghost use Rattle.linear_forms.specs.Forms.{is_small};
ghost use Rattle.linear_forms.specs.Locations.{number_of};
ghost use Rattle.loop_data.specs.Lookups.{is_named, fact_of};
ghost use Rattle.induction.specs.Words.{AreSized, step_in, step_at, is_round_in, deeper, step_by, step_of_place};
ghost use Rattle.induction.specs.Writers.{AreWriters};

use crate::masks::contains;
use crate::words::Words;
use crate::writers::Writers;
use linear_forms::Loc;
use loop_data::flow::is_in;
use loop_data::value_rows::{is_named, value_after};
use loop_data::{Level, Value};

/// One more than the greatest step.
const LIMIT: i64 = 1 << 30;

/// Whether a step is within the limits.
fn is_step(number: i64) -> bool
    ensures { result ≡ is_small number }
{
    -LIMIT < number && number < LIMIT
}

/// Whether a name is that of the location with this number.
fn is_numbered(loc: Loc, r: usize) -> bool
    ensures { result ≡ (is_named loc && (number_of loc == r)) }
{
    is_named(loc) && loc.number() == r
}

/// By how much a location moves on, if this is what is written to it.
fn step_of(value: Value, r: usize) -> Option<i64>
    ensures { result ≡ step_in (fact_of value) r }
{
    match value {
        Value::Base(loc, n) => {
            let step = n.cast_signed();
            if is_numbered(loc, r) && is_step(step) {
                Some(step)
            } else {
                None
            }
        }
        _ => None,
    }
}

/// Whether a word is in a loop that lies in this one.
fn is_deeper(levels: &[Level], level: &Level, x: u64) -> bool
    requires levels { All (λ l. IsStrictlyIncreasing l.body) levels.now }
    requires level { IsStrictlyIncreasing level.now.body }
    ensures { result ≡ deeper levels.now level.now x }
{
    for m in levels {
        if is_round(m, level, x) {
            return true;
        }
    }
    false
}

/// Whether a loop lies in another and holds the word.
fn is_round(m: &Level, level: &Level, x: u64) -> bool
    requires inner { IsStrictlyIncreasing m.now.body }
    requires level { IsStrictlyIncreasing level.now.body }
    ensures { result ≡ is_round_in m.now level.now x }
{
    if m.header == level.header {
        return false;
    }
    if !is_in(level.body.as_slice(), m.header) {
        return false;
    }
    is_in(m.body.as_slice(), x)
}

/// By how much the word at a place moves a location on, where no other word writes it.
fn step_of_word(words: &Words, p: usize, r: usize) -> Option<i64>
    requires instrs { p < length words.now.flow.instrs.items }
    requires uses { p < length words.now.flow.uses.items }
    requires points { p < length words.now.points.items }
    requires location { r < 48 }
    ensures { result ≡ step_at words.now p r }
{
    let point = &words.points[p];
    step_of(
        value_after(
            point.at,
            &words.flow.instrs[p],
            words.flow.uses[p],
            &point.of,
            r,
        ),
        r,
    )
}

/// By how much each pass moves a location on, where the word at a place alone writes it.
fn step_at_place(levels: &[Level], level: &Level, words: &Words, r: usize, p: usize) -> Option<i64>
    requires levels { All (λ l. IsStrictlyIncreasing l.body) levels.now }
    requires level { IsStrictlyIncreasing level.now.body }
    requires sized { AreSized level.now.body words.now }
    requires place { p < length level.now.body }
    requires location { r < 48 }
    ensures { result ≡ step_of_place levels.now level.now words.now r p }
{
    if !contains(words.always, r) {
        return None;
    }
    let body = level.body.as_slice();
    if is_deeper(levels, level, body[p]) {
        return None;
    }
    step_of_word(words, p, r)
}

/// By how much each pass moves a location on, where these words write it.
pub fn step_for(
    levels: &[Level],
    level: &Level,
    words: &Words,
    r: usize,
    by: Writers,
) -> Option<i64>
    requires levels { All (λ l. IsStrictlyIncreasing l.body) levels.now }
    requires level { IsStrictlyIncreasing level.now.body }
    requires sized { AreSized level.now.body words.now }
    requires writers { AreWriters words.now.flow (length level.now.body) r by }
    requires location { r < 48 }
    ensures { result ≡ step_by levels.now level.now words.now r by }
{
    match by {
        Writers::At(p) => step_at_place(levels, level, words, r, p),
        _ => None,
    }
}
