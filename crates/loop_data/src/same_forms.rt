ghost use Rattle.std.specs.Prelude.{◌≡◌, ◌↔◌, IsTrue};
ghost use Rattle.linear_forms.specs.Locations.{term_of, terms_of};

use linear_forms::{Form, Loc};

/// Whether two terms are the same.
fn is_same_term(a: Loc, by: i64, b: Loc, other: i64) -> bool
    ensures { IsTrue result ↔ (term_of (a, by) ≡ term_of (b, other)) }
{
    a.number() == b.number() && by == other
}

/// Whether two lists of terms are the same.
fn are_same_terms(ts: &[(Loc, i64)], us: &[(Loc, i64)]) -> bool
    ensures { IsTrue result ↔ (terms_of ts.now ≡ terms_of us.now) }
{
    if ts.len() != us.len() {
        return false;
    }
    for i in 0..ts.len() {
        if !is_same_term(ts[i].0, ts[i].1, us[i].0, us[i].1) {
            return false;
        }
    }
    true
}

/// Whether two forms have the same strides.
fn has_same_strides(f: &Form, g: &Form) -> bool
    ensures { IsTrue result ↔ ((f.now.first ≡ g.now.first) × (f.now.second ≡ g.now.second)
        × (f.now.third ≡ g.now.third)) }
{
    f.turns[0] == g.turns[0] && f.turns[1] == g.turns[1] && f.turns[2] == g.turns[2]
}

/// Whether a form is another with this constant.
pub fn is_at(f: &Form, g: &Form, constant: i64) -> bool
    ensures { IsTrue result ↔ (f.now ≡ record g.now { constant = constant }) }
{
    if f.constant != constant {
        return false;
    }
    if !has_same_strides(f, g) {
        return false;
    }
    are_same_terms(f.terms.as_slice(), g.terms.as_slice())
}

/// Whether two forms are the same, or there is none of both.
pub fn are_same(form: &Option<Form>, other: &Option<Form>) -> bool
    ensures { IsTrue result ↔ (form.now ≡ other.now) }
{
    match (form, other) {
        (Some(f), Some(g)) => is_at(f, g, g.constant),
        (None, None) => true,
        _ => false,
    }
}
