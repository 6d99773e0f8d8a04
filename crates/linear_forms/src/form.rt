ghost use Rattle.std.specs.Prelude.{◌≡◌, ◌<◌, ◌^◌, true, pos, ◌*ℤ◌, IfSome, slice_index};
ghost use Rattle.std.specs.List.{All};
ghost use Rattle.linear_forms.specs.Forms.{LinearForm, IsForm, limited, sum_of, difference, multiple, pure, moving, value, weight, word_of, integers, constant_fits, is_small, form_of, are_limited, AddsUp, Differs, Scales, IsWithin};
ghost use Rattle.linear_forms.specs.Extremes.{least, most, lowest_shift, highest_shift, IsShift};
ghost use Rattle.linear_forms.specs.Locations.{number_of, terms_of, IsLocation, AreFormTerms};

use crate::location::Loc;
use crate::terms::{Terms, is_within};
use std::marker::Model;

/// The least number that no constant reaches.
const LIMIT: i64 = 1 << 31;

/// A linear form over values at a loop's entry and the numbers of turns, modulo 2^64: its constant,
/// its terms, and for each of three levels of loops a stride times the number of the turn. The constant
/// is a signed number of 32 bits, and strides lie within 2^30 - 1 of 0.
#[derive(PartialEq, Eq, Debug, Drop)]
pub struct Form {
    /// The constant.
    pub constant: i64,
    /// The locations with their coefficients.
    pub terms: Terms,
    /// The stride of each level, the outermost first.
    pub turns: [i64; 3],
}

impl Model for Form {
    ghost use Rattle.std.specs.Prelude.{[], ◌∷◌};
    ghost use Rattle.linear_forms.specs.Forms.{LinearForm, form_of, IsBoundedBy};
    ghost use Rattle.std.proofs.Common.{ap};
    ghost use Rattle.linear_forms.specs.Views.{turns_of, three_back};

    ghost Value = { LinearForm };

    ghost view = { λ f. form_of f.constant f.terms f.turns };

    ghost invariant = { λ f. IsBoundedBy f.constant f.terms f.turns };

    ghost inverse = { λ f. record { constant = f.constant; terms = f.terms; turns = turns_of f } };

    ghost inverse_ok = { λ a h. ap (λ zs. record a { turns = zs }) (three_back a.turns h.three) };
}

impl Default for Form {
    ghost is_default = { λ f. f ≡ pure (pos 0) };

    fn default() -> Form {
        Form {
            constant: 0,
            terms: Terms::none(),
            turns: [0; 3],
        }
    }
}

impl Form {
    /// The form that is this constant, or none where it passes the limits.
    pub fn pure(constant: i64) -> Option<Form>
        ensures { result ≡ limited (pure constant) }
    {
        limit(constant, Terms::none(), [0; 3])
    }

    /// A location's value at the entry and this step in each turn of the outermost loop, or none where the
    /// step passes the limits.
    pub fn moving(loc: Loc, step: i64) -> Option<Form>
        requires { IsLocation loc }
        ensures { result ≡ limited (moving (number_of loc) step) }
    {
        limit(0, Terms::entry(loc), [step, 0, 0])
    }

    /// The same form.
    pub fn copied(&self) -> Form
        ensures { result ≡ self.now }
    {
        Form {
            constant: self.constant,
            terms: self.terms.copied(),
            turns: self.turns,
        }
    }

    /// Forms have their terms in order, with no coefficient 0, and keep to the limits.
    pub fn is_form(&self)
        ensures { IsForm self.now }
    {
        let _terms = self.terms.as_slice();
    }

    /// The sum, or none exactly where it passes the limits.
    pub fn add(&self, other: &Form) -> Option<Form>
        ensures sum { result ≡ limited (sum_of self.now other.now) }
        ensures value { IfSome result (AddsUp self.now other.now) }
    {
        let terms = self.terms.add(&other.terms)?;
        let turns = [
            self.turns[0] + other.turns[0],
            self.turns[1] + other.turns[1],
            self.turns[2] + other.turns[2],
        ];
        limit(self.constant + other.constant, terms, turns)
    }

    /// The difference, or none exactly where it passes the limits.
    pub fn sub(&self, other: &Form) -> Option<Form>
        ensures difference { result ≡ limited (difference self.now other.now) }
        ensures value { IfSome result (Differs self.now other.now) }
    {
        let terms = self.terms.sub(&other.terms)?;
        let turns = [
            self.turns[0] - other.turns[0],
            self.turns[1] - other.turns[1],
            self.turns[2] - other.turns[2],
        ];
        limit(self.constant - other.constant, terms, turns)
    }

    /// The multiple by this number, or none exactly where it passes the limits.
    pub fn scale(&self, by: i64) -> Option<Form>
        ensures multiple { result ≡ limited (multiple by self.now) }
        ensures value { IfSome result (Scales by self.now) }
    {
        let terms = self.terms.scale(by)?;
        let first = stride_multiple(by, self.turns[0])?;
        let second = stride_multiple(by, self.turns[1])?;
        let third = stride_multiple(by, self.turns[2])?;
        let constant = constant_multiple(by, self.constant)?;
        Some(Form {
            constant,
            terms,
            turns: [first, second, third],
        })
    }

    /// The form's value modulo 2^64, where the locations have these values at the entry, registers 0 to 31
    /// first and then cells, and the turns of each level these numbers.
    pub fn value_at(&self, entry: &[u64; 48], turns: [u64; 3]) -> u64
        ensures { result ≡ value self.now (integers entry.now) (slice_index turns) }
    {
        let terms = weigh(self.terms.as_slice(), entry);
        let first = product(self.turns[0], turns[0]);
        let second = product(self.turns[1], turns[1]);
        let third = product(self.turns[2], turns[2]);
        let start = self.constant.cast_unsigned().wrapping_add(terms);
        start.wrapping_add(first.wrapping_add(second.wrapping_add(third)))
    }

    /// The least and the greatest shift of the value by the strides, up to these last turn numbers.
    pub fn extremes(&self, last: [u64; 3]) -> (i64, i64)
        requires { All (λ n. n < 2 ^ 31) last }
        ensures { result ≡ (lowest_shift self.now (slice_index last), highest_shift self.now (slice_index last)) }
    {
        let falls = fall(self.turns[0], last[0])
            + (fall(self.turns[1], last[1]) + fall(self.turns[2], last[2]));
        let rises = rise(self.turns[0], last[0])
            + (rise(self.turns[1], last[1]) + rise(self.turns[2], last[2]));
        (falls, rises)
    }
}

/// The shift by a negative stride up to this last turn number, and 0 for any other.
fn fall(stride: i64, last: u64) -> i64
    requires stride { is_small stride ≡ true }
    requires last { last < 2 ^ 31 }
    ensures value { result ≡ least stride last }
    ensures range { IsShift result }
{
    if stride < 0 { stride * last as i64 } else { 0 }
}

/// The shift by a positive stride up to this last turn number, and 0 for any other.
fn rise(stride: i64, last: u64) -> i64
    requires stride { is_small stride ≡ true }
    requires last { last < 2 ^ 31 }
    ensures value { result ≡ most stride last }
    ensures range { IsShift result }
{
    if stride < 0 { 0 } else { stride * last as i64 }
}

/// The product modulo 2^64.
fn product(by: i64, word: u64) -> u64
    ensures { result ≡ word_of (by *ℤ pos word) }
{
    by.cast_unsigned().wrapping_mul(word)
}

/// The terms, summed up modulo 2^64.
fn weigh(terms: &[(Loc, i64)], entry: &[u64; 48]) -> u64
    requires { AreFormTerms terms.now }
    ensures { result ≡ word_of (weight (integers entry.now) (terms_of terms.now)) }
{
    let mut sum = 0u64;
    for term in terms {
        sum = sum.wrapping_add(product(term.1, entry[term.0.number()]));
    }
    sum
}

/// The multiple of a stride, or none where it passes the limit.
fn stride_multiple(by: i64, stride: i64) -> Option<i64>
    ensures { IsWithin is_small result (by *ℤ stride) }
{
    let product = by.checked_mul(stride)?;
    if is_within(product) {
        Some(product)
    } else {
        None
    }
}

/// The multiple of a constant, or none where it passes the limit.
fn constant_multiple(by: i64, constant: i64) -> Option<i64>
    ensures { IsWithin constant_fits result (by *ℤ constant) }
{
    let product = by.checked_mul(constant)?;
    if is_constant(product) {
        Some(product)
    } else {
        None
    }
}

/// The form of these parts, or none where they pass the limits.
fn limit(constant: i64, terms: Terms, turns: [i64; 3]) -> Option<Form>
    requires { are_limited terms ≡ true }
    ensures { result ≡ limited (form_of constant terms turns) }
{
    if is_constant(constant) && is_within(turns[0]) && is_within(turns[1]) && is_within(turns[2]) {
        Some(Form {
            constant,
            terms,
            turns,
        })
    } else {
        None
    }
}

/// Whether a constant is a signed number of 32 bits.
fn is_constant(value: i64) -> bool
    ensures { result ≡ constant_fits value }
{
    -LIMIT <= value && value < LIMIT
}
