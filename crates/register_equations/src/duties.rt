ghost use Rattle.std.specs.Prelude.{ℕ, ◌≡◌, ◌<◌, ◌≤◌, length, map, Some, None, OnOk, IfOk, slice_index};
ghost use Rattle.std.specs.List.{All, Contains};
ghost use Rattle.std.specs.List.Sorted.{IsStrictlyIncreasing};
ghost use Rattle.loop_data.specs.Points.{Point, point_at};
ghost use Rattle.loop_data.specs.declared.shape.Level.{Level};
ghost use Rattle.loop_data.specs.Nests.{Holds};
ghost use Rattle.loop_data.specs.Results.{IsInnermost, IsAround};
ghost use Rattle.register_equations.specs.States.{owed_at, IsDutyOf, IsDutyAdded, AreDutiesTo};

use crate::rows::duty_of;
use linear_forms::Form;
use loop_data::nesting::{innermost, places_in};
use loop_data::{Duty, Flow, Level, Points};
use std::alloc::{AllocError, Global};

/// The form whose values have to be numbers of 32 bits at the word at a place.
fn owed_at(flow: &Flow, points: &Points, k: usize) -> Option<Form>
    requires within { k < length points.now }
    requires count { length flow.now.instrs.items ≡ length points.now }
    requires uses { length flow.now.uses.items ≡ length points.now }
    ensures { result ≡ owed_at flow.now points.now k }
{
    match flow.instrs[k] {
        Some(instr) => duty_of(instr, flow.uses[k], points, k),
        None => None,
    }
}

/// The duty of the word of a point with this form.
fn duty_with(levels: &[Level], at: u64, form: Form) -> Duty
    requires bodies { All (λ l. IsStrictlyIncreasing l.body) levels.now }
    requires few { length levels.now ≤ 4 }
    requires depths { (l : Level) → Contains levels.now l → l.depth < 3 }
    requires held { (l : Level) × Contains levels.now l × Holds l at }
    ensures at { result.at ≡ at }
    ensures form { result.form ≡ form }
    ensures innermost { IsInnermost levels.now at result.level }
    ensures around { (k : ℕ) → k < 3 → IsAround levels.now at k (slice_index result.around k) }
{
    let level = innermost(levels, at);
    let around = places_in(levels, at);
    Duty {
        at,
        level,
        around,
        form,
    }
}

/// Puts the duty of the word of a point at the end, if it owes a form.
fn add_duty(
    levels: &[Level],
    points: &Points,
    k: usize,
    owed: Option<Form>,
    duties: &mut Vec<Duty>,
) -> Result<(), AllocError>
    requires bodies { All (λ l. IsStrictlyIncreasing l.body) levels.now }
    requires few { length levels.now ≤ 4 }
    requires depths { (l : Level) → Contains levels.now l → l.depth < 3 }
    requires within { k < length points.now }
    requires held { (l : Level) × Contains levels.now l × Holds l (point_at points.now k).at }
    ensures { OnOk result (IsDutyAdded levels.now (point_at points.now k) owed duties.old.items duties.new.items) }
{
    match owed {
        Some(form) => {
            duties.push(duty_with(levels, points.at(k), form))?;
            Ok(())
        }
        None => Ok(()),
    }
}

/// The duties of the words of points, in address order.
pub fn duties_of(
    alloc: Global,
    levels: &[Level],
    flow: &Flow,
    points: &Points,
) -> Result<Vec<Duty>, AllocError>
    requires bodies { All (λ l. IsStrictlyIncreasing l.body) levels.now }
    requires few { length levels.now ≤ 4 }
    requires depths { (l : Level) → Contains levels.now l → l.depth < 3 }
    requires held { (k : ℕ) → k < length points.now
        → (l : Level) × Contains levels.now l × Holds l (point_at points.now k).at }
    requires count { length flow.now.instrs.items ≡ length points.now }
    requires uses { length flow.now.uses.items ≡ length points.now }
    requires ordered { IsStrictlyIncreasing (map (λ (p : Point). p.at) points.now) }
    ensures { IfOk result (λ v. AreDutiesTo flow.now levels.now points.now (length points.now) v.items) }
{
    let mut duties = Vec::new(alloc);
    for i in 0..points.len() {
        let owed = owed_at(flow, points, i);
        add_duty(levels, points, i, owed, &mut duties)?;
    }
    Ok(duties)
}
