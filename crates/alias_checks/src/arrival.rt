ghost use Rattle.std.specs.Prelude.{◌≡◌, ◌<◌, ◌^◌, length};
ghost use Rattle.std.specs.List.{All};
ghost use Rattle.linear_forms.specs.Forms.{integers};
ghost use Rattle.loop_data.specs.declared.verdict.Cell.{Cell};
ghost use Rattle.alias_checks.specs.Areas.{in_bounds, AreBoundsOf};
ghost use Rattle.alias_checks.specs.CellTests.{HasRegister, IsLow};
ghost use Rattle.alias_checks.specs.TurnTests.{turns_of};
ghost use Rattle.alias_checks.specs.AccessTests.{IsPairOf};
ghost use Rattle.alias_checks.specs.Listing.{ArePairs};
ghost use Rattle.alias_checks.specs.Answers.{all_pass, if_all_pass, answer};

use crate::access_tests::{all_keep_off, duties_fit, pairs_pass, places_of};
use crate::cell_tests::cells_pass;
use crate::entry::entry_values;
use crate::lists::{Check, Turns};
use crate::stays::{last_of, turns_of};
use guest_memory::Memory;
use rv64_decode::Regs;

/// Whether the duties, the accesses and the pairs of a check pass, up to the last turn and passes.
fn all_pass(check: &Check, regs: &Regs, entry: &[u64; 48], last: &[u64; 4]) -> bool
    requires low { All (IsLow regs.now) check.now.cells.list.items }
    requires pairs { All (IsPairOf (length check.now.accesses.list.items)) check.now.pairs }
    requires last { All (λ n. n < 2 ^ 31) last.now }
    ensures { result ≡ all_pass check.now (in_bounds check.now.areas) regs.now (integers entry.now) last.now }
{
    if !duties_fit(check.duties.as_slice(), entry, last) {
        return false;
    }
    let accesses = check.accesses.list.as_slice();
    match places_of(check.areas.as_slice(), accesses, entry, last) {
        Some(places) => {
            all_keep_off(regs, check.cells.list.as_slice(), places.as_slice())
                && pairs_pass(places.as_slice(), last, check.pairs.as_slice())
        }
        None => false,
    }
}

/// The turns and passes that the trips of a check tell, where all its other tests pass.
fn turns_that_pass(check: &Check, regs: &Regs, entry: &[u64; 48]) -> Option<Turns>
    requires low { All (IsLow regs.now) check.now.cells.list.items }
    requires pairs { All (IsPairOf (length check.now.accesses.list.items)) check.now.pairs }
    ensures { result ≡ if_all_pass check.now (in_bounds check.now.areas) regs.now (integers entry.now)
        (turns_of check.now.trips (integers entry.now)) }
{
    match turns_of(check.trips.as_slice(), entry) {
        Some(turns) => {
            let last = last_of(&turns);
            if all_pass(check, regs, entry, &last) {
                Some(turns)
            } else {
                None
            }
        }
        None => None,
    }
}

/// How many turns are divided where a loop is arrived at with these registers and this memory, and how often its
/// inner loops are passed in each; none at the first test that fails.
pub fn holds(check: &Check, regs: &Regs, mem: &Memory) -> Option<Turns>
    requires registers { All (λ (c : Cell). HasRegister c.base) check.now.cells.list.items }
    requires pairs { ArePairs check.now.accesses.list.items check.now.pairs }
    requires areas { AreBoundsOf check.now.areas mem.now }
    ensures { result ≡ answer check.now regs.now mem.now }
{
    let cells = check.cells.list.as_slice();
    if !cells_pass(check.areas.as_slice(), regs, cells) {
        return None;
    }
    mem.lies();
    let entry = entry_values(cells, regs, mem);
    turns_that_pass(check, regs, &entry)
}
