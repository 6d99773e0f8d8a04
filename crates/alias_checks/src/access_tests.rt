ghost use Rattle.std.specs.Prelude.{◌≡◌, ◌<◌, ◌≤◌, ◌^◌, ◌∷◌, [], pos, negsuc, ◌*◌, ◌-◌, ◌≤ℤ◌, ◌+ℤ◌, int_le, int_lt, length, map, if◌then◌else◌, Some, None, is_some, IfSome};
ghost use Rattle.std.specs.List.{All, list_all};
ghost use Rattle.rv64_decode.specs.Area.{bytes_of};
ghost use Rattle.linear_forms.specs.Forms.{integers};
ghost use Rattle.linear_forms.specs.Extremes.{highest_shift};
ghost use Rattle.loop_data.specs.declared.plans.Term.{Term};
ghost use Rattle.dependence_tests.specs.Overlaps.{last_pass, whole_range};
ghost use Rattle.alias_checks.specs.Areas.{in_bounds};
ghost use Rattle.alias_checks.specs.CellTests.{IsLow};
ghost use Rattle.alias_checks.specs.Entry.{start_value};
ghost use Rattle.alias_checks.specs.AccessTests.{last_at, are_short, duty_fits, AreShifts, place_of, access_permission, access_fits, keeps_off, all_keep_off, box_of, pair_passes, IsLowPlace, IsPairOf};

use crate::areas::{Permission, are_disjoint, in_bounds};
use crate::cell_tests::cell_range;
use crate::entry::start_value;
use crate::lists::Place;
use arrayvec::ArrayVec;
use dependence_tests::{PairBox, pair_test};
use linear_forms::Form;
use loop_data::{Access, Cell, Duty, Term};
use rv64_decode::Regs;

/// Accesses begin below this address, and the values of duties lie within it.
const LIMIT: u64 = 1 << 31;

/// The last pass of the loop at a place, out of the last turn of the root and the last pass of each inner loop.
fn last_pass(last: &[u64; 4], place: u32) -> u64
    requires { All (λ n. n < 2 ^ 31) last.now }
    ensures value { result ≡ last_pass last.now place }
    ensures small { result < 2 ^ 31 }
{
    match place {
        1 => last[1],
        2 => last[2],
        3 => last[3],
        _ => 0,
    }
}

/// By depth the last turn numbers of the loops at these places round a word.
fn last_turns(around: &[u32; 3], last: &[u64; 4]) -> [u64; 3]
    requires { All (λ n. n < 2 ^ 31) last.now }
    ensures value { result ≡ last_at around.now last.now 0 ∷ last_at around.now last.now 1
        ∷ last_at around.now last.now 2 ∷ [] }
    ensures small { All (λ n. n < 2 ^ 31) result }
{
    [
        last[0],
        last_pass(last, around[1]),
        last_pass(last, around[2]),
    ]
}

/// The least and the greatest shift of a form by its strides, up to the last turns of the loops at these places.
fn shifts(form: &Form, around: &[u32; 3], last: &[u64; 4]) -> (i64, i64)
    requires { All (λ n. n < 2 ^ 31) last.now }
    ensures { AreShifts form.now (last_at around.now last.now) result }
{
    form.is_form();
    form.extremes(last_turns(around, last))
}

/// Whether a sum is at least the least number of 32 bits.
fn is_not_below(start: i64, falls: i64) -> bool
    ensures { result ≡ int_le (negsuc (2 ^ 31 - 1)) (start +ℤ falls) }
{
    -(LIMIT as i128) <= start as i128 + falls as i128
}

/// Whether a sum is at most the greatest number of 32 bits.
fn is_not_above(start: i64, rises: i64) -> bool
    ensures { result ≡ int_lt (start +ℤ rises) (pos (2 ^ 31)) }
{
    start as i128 + (rises as i128) < LIMIT as i128
}

/// Whether a number is one of 32 bits at both shifts.
fn are_short(start: i64, falls: i64, rises: i64) -> bool
    ensures { result ≡ are_short (start +ℤ falls, start +ℤ rises) }
{
    is_not_below(start, falls) && is_not_above(start, rises)
}

/// Whether the values of a duty's form are signed numbers of 32 bits up to the last turn and passes.
#[tactic(auto, unfolding(crate::specs::AccessTests::duty_fits))]
fn duty_fits(duty: &Duty, entry: &[u64; 48], last: &[u64; 4]) -> bool
    requires { All (λ n. n < 2 ^ 31) last.now }
    ensures { result ≡ duty_fits (integers entry.now) last.now duty.now }
{
    let start = start_value(&duty.form, entry).cast_signed();
    let shifts = shifts(&duty.form, &duty.around, last);
    are_short(start, shifts.0, shifts.1)
}

/// Whether the values of all duties' forms are signed numbers of 32 bits up to the last turn and passes.
pub(crate) fn duties_fit(duties: &[Duty], entry: &[u64; 48], last: &[u64; 4]) -> bool
    requires { All (λ n. n < 2 ^ 31) last.now }
    ensures { result ≡ list_all (duty_fits (integers entry.now) last.now) duties.now }
{
    for duty in duties {
        if !duty_fits(duty, entry, last) {
            return false;
        }
    }
    true
}

/// What an access does.
fn access_permission(access: &Access) -> Permission
    ensures { result ≡ access_permission access.now }
{
    if access.store {
        Permission::Write
    } else {
        Permission::Read
    }
}

/// The range from a first address on at both shifts, with the bytes of an access behind them.
fn range_from(address: u64, falls: i64, rises: i64, width: u64) -> (i64, i64)
    requires address { address < 2 ^ 31 }
    requires falls { (negsuc (3 * 2 ^ 61 - 1) ≤ℤ falls) × (falls ≤ℤ pos 0) }
    requires rises { (pos 0 ≤ℤ rises) × (rises ≤ℤ pos (3 * 2 ^ 61)) }
    requires width { width ≤ 8 }
    ensures { result ≡ (pos address +ℤ falls, pos address +ℤ rises +ℤ pos width) }
{
    let start = address as i64;
    (start + falls, start + rises + width as i64)
}

/// The range of an access over all turns and passes, from its address at turn numbers 0 on.
fn whole_range(access: &Access, address: u64, last: &[u64; 4]) -> (i64, i64)
    requires address { address < 2 ^ 31 }
    requires last { All (λ n. n < 2 ^ 31) last.now }
    ensures { result ≡ whole_range access.now (pos address) last.now }
{
    let shifts = shifts(&access.form, &access.around, last);
    range_from(address, shifts.0, shifts.1, access.width.bytes())
}

/// Where an access lies, if it begins below 2^31 and aligned, and its range in one area that permits it.
#[tactic(auto, unfolding(crate::specs::AccessTests::access_fits, crate::specs::AccessTests::place_of))]
fn fitting_place(
    areas: &[(u64, u64, u32)],
    access: &Access,
    entry: &[u64; 48],
    last: &[u64; 4],
) -> Option<Place>
    requires { All (λ n. n < 2 ^ 31) last.now }
    ensures place { result ≡ (if access_fits (in_bounds areas.now) (integers entry.now) last.now access.now
        then Some (place_of (integers entry.now) last.now access.now) else None) }
    ensures low { IfSome result IsLowPlace }
{
    let address = start_value(&access.form, entry);
    if address >= LIMIT {
        return None;
    }
    let range = whole_range(access, address, last);
    if address % access.width.bytes() != 0 {
        return None;
    }
    if in_bounds(areas, access_permission(access), range) {
        Some(Place {
            address,
            range,
            store: access.store,
        })
    } else {
        None
    }
}

/// Where the accesses lie, if all of them fit.
pub(crate) fn places_of(
    areas: &[(u64, u64, u32)],
    accesses: &[Access],
    entry: &[u64; 48],
    last: &[u64; 4],
) -> Option<ArrayVec<Place, 32>>
    requires few { length accesses.now ≤ 32 }
    requires last { All (λ n. n < 2 ^ 31) last.now }
    ensures fit { is_some result ≡ list_all (access_fits (in_bounds areas.now) (integers entry.now) last.now)
        accesses.now }
    ensures places { IfSome result (λ v. v.items ≡ map (place_of (integers entry.now) last.now) accesses.now) }
    ensures low { IfSome result (λ v. All IsLowPlace v.items) }
{
    let mut places = ArrayVec::new();
    for access in accesses {
        match fitting_place(areas, access, entry, last) {
            Some(place) => places.push(place),
            None => return None,
        }
    }
    Some(places)
}

/// Whether a cell and an access, of which one is stored, have no byte in common.
#[tactic(auto, unfolding(crate::specs::AccessTests::keeps_off))]
fn keeps_off(regs: &Regs, cell: &Cell, place: &Place) -> bool
    requires { IsLow regs.now cell.now }
    ensures { result ≡ keeps_off regs.now cell.now place.now }
{
    !(cell.stored || place.store) || are_disjoint(cell_range(regs, cell), place.range)
}

/// Whether all accesses keep off a cell.
fn keep_off(regs: &Regs, cell: &Cell, places: &[Place]) -> bool
    requires { IsLow regs.now cell.now }
    ensures { result ≡ list_all (keeps_off regs.now cell.now) places.now }
{
    for place in places {
        if !keeps_off(regs, cell, place) {
            return false;
        }
    }
    true
}

/// Whether no access meets a cell, where one of them is stored.
pub(crate) fn all_keep_off(regs: &Regs, cells: &[Cell], places: &[Place]) -> bool
    requires { All (IsLow regs.now) cells.now }
    ensures { result ≡ all_keep_off regs.now cells.now places.now }
{
    for cell in cells {
        if !keep_off(regs, cell, places) {
            return false;
        }
    }
    true
}

/// Two accesses in a run of their loop.
fn box_of(last: &[u64; 4], first: &Place, second: &Place) -> PairBox
    requires first { IsLowPlace first.now }
    requires second { IsLowPlace second.now }
    ensures { result ≡ box_of last.now first.now second.now }
{
    PairBox {
        difference: second.address as i64 - first.address as i64,
        last: *last,
        first: first.range,
        second: second.range,
    }
}

/// Whether a pair passes its test.
#[tactic(auto, unfolding(crate::specs::AccessTests::pair_passes))]
fn pair_passes(places: &[Place], last: &[u64; 4], pair: &(u32, u32, Term)) -> bool
    requires pair { IsPairOf (length places.now) pair.now }
    requires low { All IsLowPlace places.now }
    requires last { All (λ n. n < 2 ^ 31) last.now }
    ensures { result ≡ pair_passes places.now last.now pair.now }
{
    let at = box_of(last, &places[pair.0 as usize], &places[pair.1 as usize]);
    pair_test(&pair.2, &at)
}

/// Whether all pairs pass their tests.
pub(crate) fn pairs_pass(places: &[Place], last: &[u64; 4], pairs: &[(u32, u32, Term)]) -> bool
    requires pairs { All (IsPairOf (length places.now)) pairs.now }
    requires low { All IsLowPlace places.now }
    requires last { All (λ n. n < 2 ^ 31) last.now }
    ensures { result ≡ list_all (pair_passes places.now last.now) pairs.now }
{
    for pair in pairs {
        if !pair_passes(places, last, pair) {
            return false;
        }
    }
    true
}
