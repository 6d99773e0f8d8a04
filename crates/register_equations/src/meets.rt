ghost use Rattle.loop_data.specs.Points.{point_at, form_in};
ghost use Rattle.std.specs.Prelude.{◌≡◌, ◌<◌, ◌↔◌, length, true, false, Some, IsTrue, pos};
ghost use Rattle.std.specs.List.{All, Contains};
ghost use Rattle.std.specs.List.Sorted.{IsStrictlyIncreasing};
ghost use Rattle.linear_forms.specs.Forms.{LinearForm, stride};
ghost use Rattle.loop_data.specs.declared.shape.Level.{Level};
ghost use Rattle.loop_data.specs.FormRows.{form_after};
ghost use Rattle.loop_data.specs.Flows.{rows};
ghost use Rattle.register_equations.specs.Rows.{forms_in, at_constant};
ghost use Rattle.register_equations.specs.States.{code_with, IsKept, IsInside, Comes};

use crate::rows::{copied, register, stored};
use linear_forms::Form;
use loop_data::flow::is_in;
use loop_data::same_forms::is_at;
use loop_data::value_rows::instr_writes;
use loop_data::{Flow, Level, Points};
use rv64_decode::Instr;

/// The form of a location after the word of a point, which accesses this cell, if any, out of the forms before it.
pub fn form_after(
    instr: &Option<Instr>,
    cell: Option<u8>,
    points: &Points,
    k: usize,
    r: usize,
) -> Option<Form>
    requires within { k < length points.now }
    requires location { r < 48 }
    ensures { result ≡ form_after (code_with instr.now cell) (point_at points.now k).at
        (forms_in (point_at points.now k).forms) r }
{
    if !instr_writes(instr, cell, r) {
        return copied(points.form(k, r));
    }
    match instr {
        Some(instr) if r < 32 => register(*instr, cell, points, k),
        Some(instr) => stored(*instr, points, k),
        None => None,
    }
}

/// Whether this is the form, if there is one.
fn is_form(found: &Option<Form>, form: &Form) -> bool
    ensures { IsTrue result ↔ (found.now ≡ Some form.now) }
{
    match found {
        Some(f) => is_at(f, form, form.constant),
        None => false,
    }
}

/// Whether this is the form of a location after the word of a point, which accesses this cell, if any. The point at
/// another place has the form.
fn is_after(
    instr: &Option<Instr>,
    cell: Option<u8>,
    points: &Points,
    k: usize,
    p: usize,
    r: usize,
    form: &Form,
) -> bool
    requires within { k < length points.now }
    requires place { p < length points.now }
    requires location { r < 48 }
    requires form { form_in points.now p r ≡ Some form.now }
    ensures { IsTrue result ↔ (form_after (code_with instr.now cell) (point_at points.now k).at
        (forms_in (point_at points.now k).forms) r ≡ Some form.now) }
{
    if instr_writes(instr, cell, r) {
        is_form(&form_after(instr, cell, points, k, r), form)
    } else {
        points.is_same(k, p, r)
    }
}

/// Whether a form has no stride of this depth.
pub fn is_free(form: &Form, depth: u32) -> bool
    ensures { IsTrue result ↔ (stride form.now depth ≡ pos 0) }
{
    match depth {
        0 => form.turns[0] == 0,
        1 => form.turns[1] == 0,
        2 => form.turns[2] == 0,
        _ => true,
    }
}

/// Whether an edge does not leave a loop.
fn is_inside(level: &Level, u: u64, v: u64) -> bool
    requires { IsStrictlyIncreasing level.now.body }
    ensures { IsTrue result ↔ IsInside u v level.now }
{
    !is_in(level.body.as_slice(), u) || is_in(level.body.as_slice(), v)
}

/// Whether an edge leaves none of the loops.
pub fn leaves_none(inner: &[Level], u: u64, v: u64) -> bool
    requires { All (λ l. IsStrictlyIncreasing l.body) inner.now }
    ensures { IsTrue result ↔ All (IsInside u v) inner.now }
{
    inner.iter().all(|l| is_inside(l, u, v))
}

/// Whether a form has no stride of a loop, if the edge leaves it.
fn is_kept(level: &Level, u: u64, v: u64, form: &Form) -> bool
    requires { IsStrictlyIncreasing level.now.body }
    ensures { IsTrue result ↔ IsKept u v form.now level.now }
{
    is_free(form, level.depth) || is_inside(level, u, v)
}

/// Whether a form has no stride of a loop that the edge leaves.
fn carries(inner: &[Level], u: u64, v: u64, form: &Form) -> bool
    requires { All (λ l. IsStrictlyIncreasing l.body) inner.now }
    ensures { IsTrue result ↔ All (IsKept u v form.now) inner.now }
{
    inner.iter().all(|l| is_kept(l, u, v, form))
}

/// Whether this form, which a location has at place p, comes along the edge from another place to the word at v.
fn comes(
    inner: &[Level],
    flow: &Flow,
    points: &Points,
    k: usize,
    p: usize,
    v: u64,
    r: usize,
    form: &Form,
) -> bool
    requires bodies { All (λ l. IsStrictlyIncreasing l.body) inner.now }
    requires within { k < length points.now }
    requires place { p < length points.now }
    requires count { length flow.now.instrs.items ≡ length points.now }
    requires uses { length flow.now.uses.items ≡ length points.now }
    requires location { r < 48 }
    requires form { form_in points.now p r ≡ Some form.now }
    ensures { IsTrue result ↔ Comes inner.now flow.now points.now k v r form.now }
{
    is_after(&flow.instrs[k], flow.uses[k], points, k, p, r, form)
        && carries(inner, points.at(k), v, form)
}

/// Whether this form, which a location has at place p, comes along the edges from all these places to the word at v.
fn all_come(
    inner: &[Level],
    flow: &Flow,
    points: &Points,
    sources: &[usize],
    p: usize,
    v: u64,
    r: usize,
    form: &Form,
) -> bool
    requires bodies { All (λ l. IsStrictlyIncreasing l.body) inner.now }
    requires within { All (λ k. k < length points.now) sources.now }
    requires place { p < length points.now }
    requires count { length flow.now.instrs.items ≡ length points.now }
    requires uses { length flow.now.uses.items ≡ length points.now }
    requires location { r < 48 }
    requires form { form_in points.now p r ≡ Some form.now }
    ensures { IsTrue result ↔ All (λ k. Comes inner.now flow.now points.now k v r form.now) sources.now }
{
    sources
        .iter()
        .all(|k| comes(inner, flow, points, *k, p, v, r, form))
}

/// Whether the form of a location at place p, if there is one, comes along the edges from all these places to the
/// word at v.
pub fn is_met(
    inner: &[Level],
    flow: &Flow,
    points: &Points,
    sources: &[usize],
    p: usize,
    v: u64,
    r: usize,
) -> bool
    requires bodies { All (λ l. IsStrictlyIncreasing l.body) inner.now }
    requires within { All (λ k. k < length points.now) sources.now }
    requires place { p < length points.now }
    requires count { length flow.now.instrs.items ≡ length points.now }
    requires uses { length flow.now.uses.items ≡ length points.now }
    requires location { r < 48 }
    ensures yes { result ≡ true → (f : LinearForm) → form_in points.now p r ≡ Some f
        → All (λ k. Comes inner.now flow.now points.now k v r f) sources.now }
    ensures no { result ≡ false → (f : LinearForm) → form_in points.now p r ≡ Some f
        → ¬ All (λ k. Comes inner.now flow.now points.now k v r f) sources.now }
{
    match points.form(p, r) {
        Some(form) => all_come(inner, flow, points, sources, p, v, r, form),
        None => true,
    }
}
