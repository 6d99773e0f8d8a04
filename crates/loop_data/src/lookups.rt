ghost use Rattle.std.specs.Prelude.{◌≡◌, ◌<◌};
ghost use Rattle.loop_data.specs.FormRows.{form_read};
ghost use Rattle.loop_data.specs.Lookups.{form_at};

use crate::points::Points;
use linear_forms::Form;
use rv64_decode::Reg;

/// The same form, if there is one.
fn copied(form: &Option<Form>) -> Option<Form>
    ensures { result ≡ form.now }
{
    match form {
        Some(f) => Some(f.copied()),
        None => None,
    }
}

/// The form of a location before the word at an address, if one of the points has the address and a form of the
/// location.
pub fn form_at(points: &Points, at: u64, r: usize) -> Option<Form>
    requires { r < 48 }
    ensures { result ≡ form_at points.now at r }
{
    for k in 0..points.len() {
        if points.at(k) == at {
            return copied(points.form(k, r));
        }
    }
    None
}

/// The form that a register is read as at the word at an address: x0 is the constant 0.
pub fn form_read(points: &Points, at: u64, register: Reg) -> Option<Form>
    ensures { result ≡ form_read (form_at points.now at) register }
{
    let r = register.number() as usize;
    if r == 0 {
        Some(Form::default())
    } else {
        form_at(points, at, r)
    }
}
