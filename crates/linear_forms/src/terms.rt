ghost use Rattle.std.specs.Prelude.{◌≡◌, ◌+◌, ◌<◌, ◌≤◌, [], ◌∷◌, length, drop, true, false, pos, negsuc, ◌+ℤ◌, ◌*ℤ◌};
ghost use Rattle.linear_forms.specs.Forms.{EntryTerm, merged, scaled_terms, is_small, limited_terms};
ghost use Rattle.linear_forms.specs.Locations.{IsLocation, number_of, term_of, terms_of, AreFormTerms};
ghost use Rattle.linear_forms.specs.Merging.{IsNext, AddsTerm, PassesLimits, IsLimitedList};

use crate::location::Loc;
use arrayvec::ArrayVec;
use std::marker::Model;

/// The least number that no coefficient reaches.
const LIMIT: i64 = 1 << 30;

/// The terms of a form: at most 4 locations in order, each with a coefficient that is not 0 and lies
/// within 2^30 - 1 of 0. They are seen as a list of locations' numbers with their coefficients.
#[derive(PartialEq, Eq, Debug, Drop)]
pub struct Terms {
    list: ArrayVec<(Loc, i64), 4>,
}

impl Model for Terms {
    ghost use Rattle.std.specs.Prelude.{List};
    ghost use Rattle.linear_forms.specs.Forms.{EntryTerm};
    ghost use Rattle.linear_forms.specs.Locations.{terms_of, pairs_of, AreFormTerms};
    ghost use Rattle.std.proofs.Common.{ap};
    ghost use Rattle.linear_forms.specs.Views.{pairs_back};

    ghost Value = { List EntryTerm };

    ghost view = { λ t. terms_of t.list.items };

    ghost invariant = { λ t. AreFormTerms t.list.items };

    ghost inverse = { λ ts. record { list = record { items = pairs_of ts } } };

    ghost inverse_ok = { λ a h. ap (λ xs. record { list = record { items = xs } }) (pairs_back a.list.items h) };
}

impl Default for Terms {
    ghost is_default = { λ ts. ts ≡ [] };

    fn default() -> Terms {
        Terms::none()
    }
}

impl Terms {
    /// No terms.
    pub fn none() -> Terms
        ensures { result ≡ [] }
    {
        Terms {
            list: ArrayVec::new(),
        }
    }

    /// The entry value of this location.
    pub fn entry(loc: Loc) -> Terms
        requires { IsLocation loc }
        ensures { result ≡ record { loc = number_of loc; by = pos 1 } ∷ [] }
    {
        let mut list = ArrayVec::new();
        list.push((loc, 1));
        Terms { list }
    }

    /// The locations with their coefficients.
    pub fn as_slice(&self) -> &[(Loc, i64)]
        ensures seen { terms_of result.now ≡ self.now }
        ensures terms { AreFormTerms result.now }
    {
        self.list.as_slice()
    }

    /// The same terms.
    pub fn copied(&self) -> Terms
        ensures { result ≡ self.now }
    {
        let mut list = ArrayVec::new();
        let _ = list.try_extend_from_slice(self.list.as_slice());
        Terms { list }
    }

    /// The sum with other terms, or none where it passes the limits.
    pub fn add(&self, other: &Terms) -> Option<Terms>
        ensures { result ≡ limited_terms (merged self.now other.now) }
    {
        let list = merge(self.as_slice(), other.as_slice())?;
        Some(Terms { list })
    }

    /// The difference to other terms, or none where it passes the limits.
    pub fn sub(&self, other: &Terms) -> Option<Terms>
        ensures { result ≡ limited_terms (merged self.now (scaled_terms (negsuc 0) other.now)) }
    {
        let negative = multiply(other.as_slice(), -1)?;
        let list = merge(self.as_slice(), negative.as_slice())?;
        Some(Terms { list })
    }

    /// The multiple by this number, or none where it passes the limits.
    pub fn scale(&self, by: i64) -> Option<Terms>
        ensures { result ≡ limited_terms (scaled_terms by self.now) }
    {
        let list = multiply(self.as_slice(), by)?;
        Some(Terms { list })
    }
}

/// Whether a coefficient or a stride lies within 2^30 - 1 of 0.
pub(crate) fn is_within(value: i64) -> bool
    ensures { result ≡ is_small value }
{
    -LIMIT < value && value < LIMIT
}

/// A term of a sum, with how many terms it takes of each list.
#[derive(Drop)]
struct Next {
    term: (Loc, i64),
    first: usize,
    second: usize,
}

impl Next {
    /// The first list's first term.
    fn from_first(term: (Loc, i64)) -> Next
        ensures { result ≡ record { term = term; first = 1; second = 0 } }
    {
        Next {
            term,
            first: 1,
            second: 0,
        }
    }

    /// The first terms of both lists, which have one location.
    fn from_both(first: (Loc, i64), second: (Loc, i64)) -> Next
        requires first { is_small first.1 ≡ true }
        requires second { is_small second.1 ≡ true }
        ensures { result ≡ record { term = (first.0, first.1 +ℤ second.1); first = 1; second = 1 } }
    {
        Next {
            term: (first.0, first.1 + second.1),
            first: 1,
            second: 1,
        }
    }

    /// The second list's first term.
    fn from_second(term: (Loc, i64)) -> Next
        ensures { result ≡ record { term = term; first = 0; second = 1 } }
    {
        Next {
            term,
            first: 0,
            second: 1,
        }
    }
}

/// The first term of the sum of two lists, and how far they are used up by it.
fn next_term(first: &[(Loc, i64)], second: &[(Loc, i64)]) -> Next
    requires first { AreFormTerms first.now }
    requires second { AreFormTerms second.now }
    requires some { 0 < length first.now + length second.now }
    ensures { IsNext first.now second.now result }
{
    if second.is_empty() {
        return Next::from_first(first[0]);
    }
    if first.is_empty() {
        return Next::from_second(second[0]);
    }
    let here = first[0].0.number();
    let there = second[0].0.number();
    if here < there {
        Next::from_first(first[0])
    } else if there < here {
        Next::from_second(second[0])
    } else {
        Next::from_both(first[0], second[0])
    }
}

/// Adds a term to a list that is built, unless its coefficient is 0. False where it passes the limits.
fn push_term(list: &mut ArrayVec<(Loc, i64), 4>, loc: Loc, by: i64) -> bool
    requires { IsLocation loc }
    ensures built { result ≡ true → AddsTerm list.old.items list.new.items (loc, by) }
    ensures limits { result ≡ false → PassesLimits list.old.items (loc, by) }
{
    if by == 0 {
        return true;
    }
    if list.is_full() {
        return false;
    }
    if !is_within(by) {
        return false;
    }
    list.push((loc, by));
    true
}

/// Adds the multiple of a term in the same way.
fn push_multiple(list: &mut ArrayVec<(Loc, i64), 4>, loc: Loc, of: i64, by: i64) -> bool
    requires { IsLocation loc }
    ensures built { result ≡ true → AddsTerm list.old.items list.new.items (loc, by *ℤ of) }
    ensures limits { result ≡ false → PassesLimits list.old.items (loc, by *ℤ of) }
{
    match by.checked_mul(of) {
        Some(product) => push_term(list, loc, product),
        None => false,
    }
}

/// What is left of a list.
fn rest(list: &[(Loc, i64)], from: usize) -> &[(Loc, i64)]
    requires { from ≤ length list.now }
    ensures { result.now ≡ drop from list.now }
{
    &list[from..]
}

/// The sum of two lists of terms, or none where it passes the limits.
fn merge(mut first: &[(Loc, i64)], mut second: &[(Loc, i64)]) -> Option<ArrayVec<(Loc, i64), 4>>
    requires first { AreFormTerms first.now }
    requires second { AreFormTerms second.now }
    ensures { IsLimitedList result (merged (terms_of first.now) (terms_of second.now)) }
{
    let mut list = ArrayVec::new();
    while first.len() + second.len() > 0 {
        let next = next_term(first, second);
        if !push_term(&mut list, next.term.0, next.term.1) {
            return None;
        }
        first = rest(first, next.first);
        second = rest(second, next.second);
    }
    Some(list)
}

/// The multiple of a list of terms, or none where it passes the limits.
fn multiply(terms: &[(Loc, i64)], by: i64) -> Option<ArrayVec<(Loc, i64), 4>>
    requires { AreFormTerms terms.now }
    ensures { IsLimitedList result (scaled_terms by (terms_of terms.now)) }
{
    let mut list = ArrayVec::new();
    for term in terms {
        if !push_multiple(&mut list, term.0, term.1, by) {
            return None;
        }
    }
    Some(list)
}
