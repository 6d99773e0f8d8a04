ghost use Rattle.std.specs.Prelude.{true, ◌≡◌, ◌↔◌, ◌<◌, ◌^◌, ◌≤◌, max, IsTrue, map, [], ◌∷◌};
ghost use Rattle.std.specs.List.{All};
ghost use Rattle.std.specs.Int.RustNames.{unsigned_abs};
ghost use Rattle.rv64_decode.specs.Area.{bytes_of};
ghost use Rattle.linear_forms.specs.Forms.{is_small};
ghost use Rattle.linear_forms.specs.Locations.{term_of, terms_of};
ghost use Rattle.dependence_tests.specs.Terms.{stride_in, inner_strides, AreSameShape, IsGcdOf, IsKnown, IsTermOf, IsSized};

use linear_forms::{Loc, gcd};
use loop_data::{Access, Term};

/// The stride of an access in the inner loop at a place among the levels.
fn stride_in(access: &Access, place: u32) -> i64
    ensures value { result ≡ stride_in access.now place }
    ensures small { is_small result ≡ true }
{
    if access.around[1] == place {
        access.form.turns[1]
    } else if access.around[2] == place {
        access.form.turns[2]
    } else {
        0
    }
}

/// The strides of an access in the inner loops, by place.
fn inner_strides(access: &Access) -> [i64; 3]
    ensures { result ≡ inner_strides access.now }
{
    [
        stride_in(access, 1),
        stride_in(access, 2),
        stride_in(access, 3),
    ]
}

/// Whether two accesses have the same strides.
fn are_same_shape(a: &Access, b: &Access) -> bool
    ensures { IsTrue result ↔ AreSameShape a.now b.now }
{
    let first = inner_strides(a);
    let second = inner_strides(b);
    let inner = first[0] == second[0] && first[1] == second[1] && first[2] == second[2];
    a.form.turns[0] == b.form.turns[0] && inner
}

/// Whether two terms are the same.
fn is_same_term(a: Loc, by: i64, b: Loc, other: i64) -> bool
    ensures { IsTrue result ↔ (term_of (a, by) ≡ term_of (b, other)) }
{
    a.number() == b.number() && by == other
}

/// Whether two lists of terms are the same.
fn are_same_terms(ts: &[(Loc, i64)], us: &[(Loc, i64)]) -> bool
    ensures { IsTrue result ↔ (terms_of ts.now ≡ terms_of us.now) }
{
    if ts.len() != us.len() {
        return false;
    }
    for i in 0..ts.len() {
        if !is_same_term(ts[i].0, ts[i].1, us[i].0, us[i].1) {
            return false;
        }
    }
    true
}

/// The second address less the first at turn numbers 0, where both have the same terms.
fn known_difference(a: &Access, b: &Access) -> Option<i64>
    ensures { IsKnown a.now b.now result }
{
    if are_same_terms(a.form.terms.as_slice(), b.form.terms.as_slice()) {
        Some(b.form.constant - a.form.constant)
    } else {
        None
    }
}

/// The size of the stride of an access in the root.
fn root_size(access: &Access) -> u64
    ensures value { result ≡ unsigned_abs access.now.form.first }
    ensures small { result < 2 ^ 30 }
{
    access.form.turns[0].unsigned_abs()
}

/// The size of the stride of an access in the inner loop at a place among the levels.
fn size_in(access: &Access, place: u32) -> u64
    ensures value { result ≡ unsigned_abs (stride_in access.now place) }
    ensures small { result < 2 ^ 30 }
{
    stride_in(access, place).unsigned_abs()
}

/// The sizes of the strides of an access in the inner loops, by place.
fn inner_sizes(access: &Access) -> [u64; 3]
    ensures value { result ≡ map unsigned_abs (inner_strides access.now) }
    ensures small { All (λ n. n < 2 ^ 30) result }
{
    [size_in(access, 1), size_in(access, 2), size_in(access, 3)]
}

/// The greatest common divisor of three numbers.
#[tactic(auto, using(crate::proofs::Divisors::three))]
fn divisor_of_three(a: u64, b: u64, c: u64) -> u64
    ensures { IsGcdOf (a ∷ b ∷ c ∷ []) result }
{
    gcd(a, gcd(b, c))
}

/// The greatest common divisor of four numbers.
fn divisor_of_four(a: u64, b: u64, c: u64, d: u64) -> u64
    ensures { IsGcdOf (a ∷ b ∷ c ∷ d ∷ []) result }
{
    gcd(a, divisor_of_three(b, c, d))
}

/// The greater of two accesses' widths.
fn greater_width(a: &Access, b: &Access) -> u64
    ensures value { result ≡ max (bytes_of a.now.width) (bytes_of b.now.width) }
    ensures small { result ≤ 8 }
{
    a.width.bytes().max(b.width.bytes())
}

/// The term of two accesses of the same shape.
fn shared_term(a: &Access, b: &Access) -> Term
    requires { AreSameShape a.now b.now }
    ensures term { IsTermOf a.now b.now result }
    ensures sized { IsSized result }
{
    let root = root_size(a);
    let inner = inner_sizes(a);
    let lanes = divisor_of_three(inner[0], inner[1], inner[2]);
    let residue = divisor_of_four(root, inner[0], inner[1], inner[2]);
    let width = greater_width(a, b);
    let known = known_difference(a, b);
    Term::Same {
        root,
        inner,
        lanes,
        residue,
        width,
        known,
    }
}

/// What the test of two accesses of a loop needs to know before the loop begins.
pub fn pair_term(a: &Access, b: &Access) -> Term
    ensures term { IsTermOf a.now b.now result }
    ensures sized { IsSized result }
{
    if are_same_shape(a, b) {
        shared_term(a, b)
    } else {
        Term::Apart
    }
}
