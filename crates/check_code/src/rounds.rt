ghost use Rattle.std.specs.Prelude.{◌≡◌, ◌<◌, true};
ghost use Rattle.std.specs.List.{All};
ghost use Rattle.linear_forms.specs.Forms.{is_small};
ghost use Rattle.check_code.specs.Rounds.{is_inner, pass_slot, own_slots, own_stride, own_form};

use linear_forms::Form;

/// Whether an inner loop may stand at a place among the levels.
fn is_inner(place: u32) -> bool
    ensures { result ≡ is_inner place }
{
    0 < place && place < 4
}

/// The slot of the last pass of the inner loop at a place.
fn pass_slot(place: u32) -> u8
    ensures value { result ≡ pass_slot place }
    ensures below { result < 32 }
{
    if is_inner(place) {
        23 + place as u8
    } else {
        23
    }
}

/// By depth the slots that have the last turn numbers of the loops at these places.
pub fn own_slots(around: &[u32; 3]) -> [u8; 3]
    ensures value { result ≡ own_slots around.now }
    ensures below { All (λ s. s < 32) result }
{
    [23, pass_slot(around[1]), pass_slot(around[2])]
}

/// The stride in the loop at a place, and 0 where no inner loop stands.
fn own_stride(place: u32, by: i64) -> i64
    requires { is_small by ≡ true }
    ensures value { result ≡ own_stride place by }
    ensures small { is_small result ≡ true }
{
    if is_inner(place) { by } else { 0 }
}

/// A form at a word with these loops round it: without the strides of depths at which there is no loop.
pub fn own_form(form: &Form, around: &[u32; 3]) -> Form
    ensures { result ≡ own_form form.now around.now }
{
    Form {
        constant: form.constant,
        terms: form.terms.copied(),
        turns: [
            form.turns[0],
            own_stride(around[1], form.turns[1]),
            own_stride(around[2], form.turns[2]),
        ],
    }
}
