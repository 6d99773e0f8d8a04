ghost use Rattle.std.specs.Prelude.{◌≡◌, ◌+◌, ◌*◌, ◌<◌, ◌≤◌, ◌^◌, ◌||◌};
ghost use Rattle.std.specs.List.{All};
ghost use Rattle.dependence_tests.specs.Terms.{IsSized};
ghost use Rattle.dependence_tests.specs.PairTests.{span, are_blocks, are_lanes, remainder, are_residues, are_apart, are_disjoint, pair_test, hopeless};

use loop_data::Term;

/// Two accesses in a run of a loop: where they lie, and how many turns are to be apart.
#[derive(Clone, Copy, PartialEq, Eq, Debug)]
pub struct PairBox {
    /// The second address less the first at turn numbers 0.
    pub difference: i64,
    /// The last turn of the root, and then the last pass of each inner loop.
    pub last: [u64; 4],
    /// The first access's range over all turns and passes: its least address, and the end of its last bytes.
    pub first: (i64, i64),
    /// The second access's range.
    pub second: (i64, i64),
}

/// How far so many steps of this size lead.
fn reach(size: u64, last: u64) -> u64
    requires size { size < 2 ^ 30 }
    requires last { last < 2 ^ 31 }
    ensures value { result ≡ size * last }
    ensures small { result ≤ 2 ^ 61 }
{
    size * last
}

/// How far the passes of the inner loops take two accesses from each other at most.
fn span(inner: &[u64; 3], last: &[u64; 4]) -> u64
    requires sizes { All (λ n. n < 2 ^ 30) inner.now }
    requires last { All (λ n. n < 2 ^ 31) last.now }
    ensures value { result ≡ span inner.now last.now }
    ensures small { result ≤ 3 * 2 ^ 61 }
{
    reach(inner[0], last[1]) + (reach(inner[1], last[2]) + reach(inner[2], last[3]))
}

/// Whether the root's stride is beyond all that the passes and the widths take.
fn are_blocks(root: u64, distance: u64, span: u64, width: u64) -> bool
    requires distance { distance ≤ 2 ^ 63 }
    requires span { span ≤ 3 * 2 ^ 61 }
    requires width { width ≤ 8 }
    ensures { result ≡ are_blocks root distance span width }
{
    distance + span + width <= root
}

/// Whether the root's stride is beyond the distance, and all turns together stay within one step of the inner
/// loops.
fn are_lanes(root: u64, reach: u64, distance: u64, width: u64, lanes: u64) -> bool
    requires reach { reach ≤ 2 ^ 61 }
    requires distance { distance ≤ 2 ^ 63 }
    requires width { width ≤ 8 }
    ensures { result ≡ are_lanes root reach distance width lanes }
{
    0 < lanes && (distance + width <= root && reach + distance + width <= lanes)
}

/// The remainder of a difference modulo a divisor, which is not negative.
fn remainder(difference: i64, residue: u64) -> u64
    requires { 0 < residue }
    ensures value { result ≡ remainder difference residue }
    ensures below { result < residue }
{
    if difference < 0 {
        residue - 1 - (-(difference + 1)) as u64 % residue
    } else {
        difference as u64 % residue
    }
}

/// Whether modulo all strides' divisor the addresses stay a width away from each other.
fn are_residues(difference: i64, width: u64, residue: u64) -> bool
    ensures { result ≡ are_residues difference width residue }
{
    if residue == 0 {
        return false;
    }
    let rest = remainder(difference, residue);
    width <= rest && width <= residue - rest
}

/// Whether the distance is beyond all that turns, passes and widths take.
fn are_apart(reach: u64, distance: u64, span: u64, width: u64) -> bool
    requires reach { reach ≤ 2 ^ 61 }
    requires span { span ≤ 3 * 2 ^ 61 }
    requires width { width ≤ 8 }
    ensures { result ≡ are_apart reach distance span width }
{
    reach + span + width <= distance
}

/// Whether one of four tests holds.
fn one_holds(blocks: bool, lanes: bool, residues: bool, apart: bool) -> bool
    ensures { result ≡ ((blocks || lanes) || (residues || apart)) }
{
    (blocks || lanes) || (residues || apart)
}

/// Whether one of two ranges ends where the other begins, or before.
fn are_disjoint(first: (i64, i64), second: (i64, i64)) -> bool
    ensures { result ≡ are_disjoint first second }
{
    first.1 <= second.0 || second.1 <= first.0
}

/// Whether the test tells two accesses with this term apart: where it does, they have no byte in common in different
/// turns. Accesses of another shape are told apart by their ranges alone.
pub fn pair_test(term: &Term, at: &PairBox) -> bool
    requires sized { IsSized term.now }
    requires last { All (λ n. n < 2 ^ 31) at.now.last }
    ensures { result ≡ pair_test term.now at.now }
{
    match *term {
        Term::Same {
            root,
            inner,
            lanes,
            residue,
            width,
            known: _,
        } => {
            let distance = at.difference.unsigned_abs();
            let turns = reach(root, at.last[0]);
            let passes = span(&inner, &at.last);
            let blocks = are_blocks(root, distance, passes, width);
            let lanes = are_lanes(root, turns, distance, width, lanes);
            let residues = are_residues(at.difference, width, residue);
            let apart = are_apart(turns, distance, passes, width);
            one_holds(blocks, lanes, residues, apart)
        }
        Term::Apart => are_disjoint(at.first, at.second),
    }
}

/// Whether two accesses at a known distance fail the test even for 16 turns, the least number that is divided, with
/// one pass of each inner loop.
pub fn hopeless(term: &Term) -> bool
    requires { IsSized term.now }
    ensures { result ≡ hopeless term.now }
{
    match *term {
        Term::Same {
            known: Some(difference),
            ..
        } => {
            let at = PairBox {
                difference,
                last: [15, 0, 0, 0],
                first: (0, 0),
                second: (0, 0),
            };
            !pair_test(term, &at)
        }
        _ => false,
    }
}
