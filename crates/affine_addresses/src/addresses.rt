ghost use Rattle.std.specs.Prelude.{◌≡◌, Some};
ghost use Rattle.linear_forms.specs.Forms.{pure};
ghost use Rattle.rv64_decode.specs.Area.{bytes_of};
ghost use Rattle.loop_data.specs.Accesses.{address_form, is_multiple, is_regular, if_regular};
ghost use Rattle.loop_data.specs.Lookups.{form_at};

use linear_forms::Form;
use loop_data::Points;
use loop_data::lookups::form_read;
use rv64_decode::{Reg, Width};

/// An offset as a form.
fn offset_form(offset: i32) -> Option<Form>
    ensures { result ≡ Some (pure offset) }
{
    Form::pure(offset as i64)
}

/// The form of the address at an offset from a register, before the word at an address.
fn address_form(points: &Points, at: u64, base: Reg, offset: i32) -> Option<Form>
    ensures { result ≡ address_form (form_at points.now at) base offset }
{
    match (form_read(points, at, base), offset_form(offset)) {
        (Some(form), Some(offset)) => form.add(&offset),
        _ => None,
    }
}

/// Whether a stride is a multiple of a width.
fn is_multiple(width: Width, stride: i64) -> bool
    ensures { result ≡ is_multiple (bytes_of width) stride }
{
    stride.unsigned_abs() % width.bytes() == 0
}

/// Whether each stride is a multiple of the width.
fn is_regular(width: Width, form: &Form) -> bool
    ensures { result ≡ is_regular width form.now }
{
    let first = is_multiple(width, form.turns[0]);
    let second = is_multiple(width, form.turns[1]);
    let third = is_multiple(width, form.turns[2]);
    first && (second && third)
}

/// The form of the address that a word accesses, if it has one and each of its strides is a multiple of the
/// width.
pub fn accessed_form(points: &Points, at: u64, base: Reg, offset: i32, width: Width) -> Option<Form>
    ensures { result ≡ if_regular width (address_form (form_at points.now at) base offset) }
{
    match address_form(points, at, base, offset) {
        Some(form) => {
            if is_regular(width, &form) {
                Some(form)
            } else {
                None
            }
        }
        None => None,
    }
}
