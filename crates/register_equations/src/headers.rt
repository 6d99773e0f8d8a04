ghost use Rattle.std.specs.Prelude.{◌≡◌, ◌<◌, ◌∷◌, ℤ, pos, Some, None, true, slice_index_or, []};
ghost use Rattle.linear_forms.specs.Forms.{LinearForm, stride, is_small};
ghost use Rattle.loop_data.specs.declared.classes.Class.TheVariants.{Induction};
ghost use Rattle.loop_data.specs.Equations.{entry_form, with_step, header_form};
ghost use Rattle.loop_data.specs.Lookups.{role_by, cell_map};
ghost use Rattle.register_equations.specs.States.{IsFree, IsClass};
ghost use Rattle.loop_data.specs.Results.{AreSmallSteps};

use linear_forms::{Form, Loc};
use loop_data::{Cells, Class, Classes, Level};

/// The form of a location's entry value; x0 is the constant 0.
pub fn entry(cells: &Cells, r: usize) -> Option<Form>
    requires { r < 48 }
    ensures { result ≡ entry_form (record { instr = λ u. None; cells = cell_map cells.now }) r }
{
    if r == 0 {
        Form::pure(0)
    } else if r < 32 {
        Form::moving(Loc::Reg(r as u8), 0)
    } else if r - 32 < cells.list.len() {
        Form::moving(Loc::Cell((r - 32) as u8), 0)
    } else {
        None
    }
}

/// The form with other strides.
fn turned(form: Form, turns: [i64; 3]) -> Form
    requires first { is_small (slice_index_or turns 0 (pos 0)) ≡ true }
    requires second { is_small (slice_index_or turns 1 (pos 0)) ≡ true }
    requires third { is_small (slice_index_or turns 2 (pos 0)) ≡ true }
    ensures { result ≡ record form {
      first = slice_index_or turns 0 (pos 0);
      second = slice_index_or turns 1
          (pos 0);
      third = slice_index_or turns 2 (pos 0);
    } }
{
    Form {
        constant: form.constant,
        terms: form.terms,
        turns,
    }
}

/// The form with a step in each turn of the outermost loop, if it has no such stride.
fn with_first(form: Form, step: i64) -> Option<Form>
    requires { is_small step ≡ true }
    ensures { form.first ≡ pos 0 → result ≡ Some (with_step form 0 step) }
{
    let turns = form.turns;
    if turns[0] == 0 {
        Some(turned(form, [step, turns[1], turns[2]]))
    } else {
        None
    }
}

/// The form with a step in each turn of the loop of depth 1, if it has no such stride.
fn with_second(form: Form, step: i64) -> Option<Form>
    requires { is_small step ≡ true }
    ensures { form.second ≡ pos 0 → result ≡ Some (with_step form 1 step) }
{
    let turns = form.turns;
    if turns[1] == 0 {
        Some(turned(form, [turns[0], step, turns[2]]))
    } else {
        None
    }
}

/// The form with a step in each turn of the loop of depth 2, if it has no such stride.
fn with_third(form: Form, step: i64) -> Option<Form>
    requires { is_small step ≡ true }
    ensures { form.third ≡ pos 0 → result ≡ Some (with_step form 2 step) }
{
    let turns = form.turns;
    if turns[2] == 0 {
        Some(turned(form, [turns[0], turns[1], step]))
    } else {
        None
    }
}

/// The form with a step in each turn of the loop of a depth, if it has no such stride.
fn with_step(form: Form, depth: u32, step: i64) -> Option<Form>
    requires { is_small step ≡ true }
    ensures { stride form depth ≡ pos 0 → result ≡ Some (with_step form depth step) }
{
    match depth {
        0 => with_first(form, step),
        1 => with_second(form, step),
        2 => with_third(form, step),
        _ => Some(form),
    }
}

/// The form of a location at the header of a loop of a depth, out of what comes from outside, where the
/// location is of this class, or has none and is written in the loop or not.
pub fn header_form(
    depth: u32,
    class: Option<Class>,
    written: bool,
    outside: Option<Form>,
) -> Option<Form>
    requires { (step : ℤ) → class ≡ Some (Induction step) → is_small step ≡ true }
    ensures { IsFree depth outside → result ≡ header_form depth (role_by written class) outside }
{
    match class {
        Some(Class::Induction(step)) => match outside {
            Some(form) => with_step(form, depth, step),
            None => None,
        },
        Some(Class::Private) => None,
        None => { if written { None } else { outside } }
    }
}

/// The class of a location in the loop at a place among the levels.
fn class_in(classes: &Classes, i: usize, r: usize) -> Option<Class>
    requires { r < 48 }
    ensures { result ≡ slice_index_or (slice_index_or (classes.now.root ∷ classes.now.inner) i []) r None }
{
    if i == 0 {
        return classes.root[r];
    }
    match classes.inner.get(i - 1) {
        Some(row) => row[r],
        None => None,
    }
}

/// The class of a location in the loop of a header.
pub fn class_at(levels: &[Level], classes: &Classes, header: u64, r: usize) -> Option<Class>
    requires { r < 48 }
    ensures { IsClass levels.now classes.now header r result }
{
    for i in 0..levels.len() {
        if levels[i].header == header {
            return class_in(classes, i, r);
        }
    }
    None
}
