ghost use Rattle.std.specs.Prelude.{ℕ, ◌≡◌, ◌<◌, ◌≤◌, ◌↔◌, length, true, Some, IsTrue, false};
ghost use Rattle.std.specs.List.{All, Any};
ghost use Rattle.std.specs.List.Sorted.{IsStrictlyIncreasing};
ghost use Rattle.linear_forms.specs.Forms.{is_small};
ghost use Rattle.linear_forms.specs.Locations.{number_of, IsLocation};
ghost use Rattle.loop_data.specs.Equations.{plus_constant};
ghost use Rattle.loop_data.specs.Points.{point_at};
ghost use Rattle.loop_data.specs.Results.{AreSmallSteps};
ghost use Rattle.register_equations.specs.Astray.{IsOther, IsOtherAt, IsAstray, IsLeastAstray};

use crate::headers::class_at;
use crate::meets::form_after;
use linear_forms::{Form, Loc};
use loop_data::flow::is_in;
use loop_data::lookups::form_at;
use loop_data::same_forms::is_at;
use loop_data::value_rows::instr_writes;
use loop_data::{Class, Classes, Flow, Level, Points};
use rv64_decode::Instr;

/// Whether this is a form and a number more.
fn is_plus(found: &Option<Form>, form: &Form, step: i64) -> bool
    requires { is_small step ≡ true }
    ensures { IsTrue result ↔ (found.now ≡ Some (plus_constant form.now step)) }
{
    match found {
        Some(f) => is_at(f, form, form.constant + step),
        None => false,
    }
}

/// Whether the word of a point, which is this instruction and accesses this cell, if any, writes a location with
/// another form than this and a step.
fn is_other(
    instr: &Option<Instr>,
    cell: Option<u8>,
    points: &Points,
    k: usize,
    r: usize,
    form: &Form,
    step: i64,
) -> bool
    requires within { k < length points.now }
    requires location { r < 48 }
    requires step { is_small step ≡ true }
    ensures { IsTrue result ↔ IsOther instr.now cell r form.now step (point_at points.now k) }
{
    instr_writes(instr, cell, r) && !is_plus(&form_after(instr, cell, points, k, r), form, step)
}

/// Whether the word at a place does, and is in a loop.
fn is_other_at(
    flow: &Flow,
    level: &Level,
    points: &Points,
    k: usize,
    r: usize,
    form: &Form,
    step: i64,
) -> bool
    requires body { IsStrictlyIncreasing level.now.body }
    requires within { k < length points.now }
    requires count { length flow.now.instrs.items ≡ length points.now }
    requires uses { length flow.now.uses.items ≡ length points.now }
    requires location { r < 48 }
    requires step { is_small step ≡ true }
    ensures { IsTrue result ↔ IsOtherAt flow.now level.now.body points.now r form.now step k }
{
    is_other(&flow.instrs[k], flow.uses[k], points, k, r, form, step)
        && is_in(level.body.as_slice(), points.at(k))
}

/// Whether a word of a loop does.
fn has_other(flow: &Flow, level: &Level, points: &Points, r: usize, form: &Form, step: i64) -> bool
    requires body { IsStrictlyIncreasing level.now.body }
    requires count { length flow.now.instrs.items ≡ length points.now }
    requires uses { length flow.now.uses.items ≡ length points.now }
    requires location { r < 48 }
    requires step { is_small step ≡ true }
    ensures yes { result ≡ true → (k : ℕ) × (k < length points.now)
        × IsOtherAt flow.now level.now.body points.now r form.now step k }
    ensures no { result ≡ false → (k : ℕ) → k < length points.now
        → ¬ IsOtherAt flow.now level.now.body points.now r form.now step k }
{
    for k in 0..points.len() {
        if is_other_at(flow, level, points, k, r, form, step) {
            return true;
        }
    }
    false
}

/// Whether a loop has an induction that it writes with another form than its header's and the step.
fn is_astray(
    levels: &[Level],
    classes: &Classes,
    flow: &Flow,
    points: &Points,
    level: &Level,
    r: usize,
) -> bool
    requires count { length flow.now.instrs.items ≡ length points.now }
    requires uses { length flow.now.uses.items ≡ length points.now }
    requires steps { AreSmallSteps classes.now }
    requires body { IsStrictlyIncreasing level.now.body }
    requires location { r < 48 }
    ensures yes { result ≡ true → IsAstray flow.now levels.now classes.now points.now r level.now }
    ensures no { result ≡ false → ¬ IsAstray flow.now levels.now classes.now points.now r level.now }
{
    match class_at(levels, classes, level.header, r) {
        Some(Class::Induction(step)) => match form_at(points, level.header, r) {
            Some(form) => has_other(flow, level, points, r, &form, step),
            None => false,
        },
        _ => false,
    }
}

/// Whether one of the loops has.
fn some_astray(levels: &[Level], classes: &Classes, flow: &Flow, points: &Points, r: usize) -> bool
    requires count { length flow.now.instrs.items ≡ length points.now }
    requires uses { length flow.now.uses.items ≡ length points.now }
    requires steps { AreSmallSteps classes.now }
    requires bodies { All (λ l. IsStrictlyIncreasing l.body) levels.now }
    requires location { r < 48 }
    ensures { IsTrue result ↔ Any (IsAstray flow.now levels.now classes.now points.now r) levels.now }
{
    levels
        .iter()
        .any(|l| is_astray(levels, classes, flow, points, l, r))
}

/// The location of a number.
fn location(r: usize) -> Loc
    requires from { 1 ≤ r }
    requires below { r < 48 }
    ensures is { IsLocation result }
    ensures number { number_of result ≡ r }
{
    if r < 32 {
        Loc::Reg(r as u8)
    } else {
        Loc::Cell((r - 32) as u8)
    }
}

/// The least location of which one of the loops has such an induction.
pub fn unconfirmed(levels: &[Level], classes: &Classes, flow: &Flow, points: &Points) -> Option<Loc>
    requires count { length flow.now.instrs.items ≡ length points.now }
    requires uses { length flow.now.uses.items ≡ length points.now }
    requires steps { AreSmallSteps classes.now }
    requires bodies { All (λ l. IsStrictlyIncreasing l.body) levels.now }
    ensures { IsLeastAstray flow.now levels.now classes.now points.now result }
{
    for r in 1..48usize {
        if some_astray(levels, classes, flow, points, r) {
            return Some(location(r));
        }
    }
    None
}
