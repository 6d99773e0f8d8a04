ghost use Rattle.std.specs.Prelude.{◌≡◌};
ghost use Rattle.linear_forms.specs.Forms.{stride};
ghost use Rattle.loop_data.specs.Trips.{is_still, moves_at};

use linear_forms::Form;

/// Whether a form has no stride.
pub fn is_still(form: &Form) -> bool
    ensures { result ≡ is_still form.now }
{
    form.turns[0] == 0 && form.turns[1] == 0 && form.turns[2] == 0
}

/// Whether a form has no stride but at this depth.
pub fn moves_at(depth: u32, form: &Form) -> bool
    ensures { result ≡ moves_at depth form.now }
{
    match depth {
        0 => form.turns[1] == 0 && form.turns[2] == 0,
        1 => form.turns[0] == 0 && form.turns[2] == 0,
        2 => form.turns[0] == 0 && form.turns[1] == 0,
        _ => false,
    }
}

/// The stride of a form at a depth.
pub fn stride(depth: u32, form: &Form) -> i64
    ensures { result ≡ stride form.now depth }
{
    match depth {
        0 => form.turns[0],
        1 => form.turns[1],
        2 => form.turns[2],
        _ => 0,
    }
}
