ghost use Rattle.std.specs.Prelude.{◌≡◌, true, ◌<◌, ◌≤◌, ◌^◌, ◌+◌, [], IfOk, flat_map, length};
ghost use Rattle.std.specs.List.{All, list_all};
ghost use Rattle.linear_forms.specs.Forms.{IsForm};
ghost use Rattle.loop_data.specs.declared.accesses.Access.{Access};
ghost use Rattle.loop_data.specs.declared.equations.Duty.{Duty};
ghost use Rattle.loop_data.specs.declared.trips.Trip.{Trip};
ghost use Rattle.loop_data.specs.declared.verdict.Cell.{Cell};
ghost use Rattle.alias_checks.specs.Listing.{IsPair};
ghost use Rattle.stub_laws.specs.Code.{Appended, readings, somes};
ghost use Rattle.check_code.specs.Laws.{HasOffset};
ghost use Rattle.check_code.specs.CellCode.{clear_code};
ghost use Rattle.check_code.specs.DutyCode.{duty_code};
ghost use Rattle.check_code.specs.AccessCode.{access_code};
ghost use Rattle.check_code.specs.MeetCode.{keep_off_code};
ghost use Rattle.check_code.specs.CheckCode.{cells_code, all_clear_code, inners_code, trips_code, all_keep_off_code, pair_at_code, is_check_word, check_code};
ghost use Rattle.check_code.specs.Checkable.{IsLowArea, HasRoom, IsCheckable, RoomLaw, FoundLaw};
ghost use Rattle.check_code.specs.CheckLaws.{TellsCheck};
ghost use Rattle.check_code.specs.Sizes.{most_words, CanBeAimed};

use crate::accesses::{push_access, push_keep_off};
use crate::cells::{push_cell, push_clear};
use crate::duties::push_duty;
use crate::pairs::push_pair;
use crate::turns::{push_inner, push_root};
use alias_checks::Check;
use linear_forms::Form;
use loop_data::{Access, Cell, Duty, Term, Trip};
use std::alloc::{AllocError, Global};

/// That every form keeps to its limits.
fn keeps_limits(form: &Form)
    ensures { IsForm form.now }
{
    let _terms = form.terms.as_slice();
}

/// Appends the tests of the cells, whose values go into the slots of their numbers.
fn push_cells(
    code: &mut Vec<u32>,
    areas: &[(u64, u64, u32)],
    cells: &[Cell],
) -> Result<(), AllocError>
    requires few_areas { length areas.now ≤ 128 }
    requires low { All IsLowArea areas.now }
    requires few { length cells.now ≤ 16 }
    requires offsets { All (λ (c : Cell). HasOffset c.base c.offset) cells.now }
    ensures { IfOk result (λ u. Appended code.old.items code.new.items (cells_code areas.now 0 cells.now)) }
{
    for k in 0..cells.len() {
        push_cell(code, areas, k as u8, &cells[k])?;
    }
    Ok(())
}

/// Appends the tests of a cell with those behind it.
fn push_clear_row(code: &mut Vec<u32>, cell: &Cell, others: &[Cell]) -> Result<(), AllocError>
    requires offset { HasOffset cell.now.base cell.now.offset }
    requires offsets { All (λ (c : Cell). HasOffset c.base c.offset) others.now }
    ensures { IfOk result (λ u. Appended code.old.items code.new.items (flat_map (clear_code cell.now) others.now)) }
{
    for other in others {
        push_clear(code, cell, other)?;
    }
    Ok(())
}

/// Appends the tests of each two cells.
fn push_all_clear(code: &mut Vec<u32>, cells: &[Cell]) -> Result<(), AllocError>
    requires { All (λ (c : Cell). HasOffset c.base c.offset) cells.now }
    ensures { IfOk result (λ u. Appended code.old.items code.new.items (all_clear_code cells.now)) }
{
    for i in 0..cells.len() {
        push_clear_row(code, &cells[i], &cells[i + 1..])?;
    }
    Ok(())
}

/// Appends the tests of the inner loops, the numbers of whose last passes go into slots from 24 on.
fn push_inners(code: &mut Vec<u32>, trips: &[Trip]) -> Result<(), AllocError>
    requires { length trips.now < 4 }
    ensures words { IfOk result (λ u. Appended code.old.items code.new.items (inners_code 24 trips.now)) }
    ensures starts { IfOk result (λ u. All (λ (t : Trip). IsForm t.start) trips.now) }
    ensures bounds { IfOk result (λ u. All (λ (t : Trip). IsForm t.bound) trips.now) }
{
    for k in 0..trips.len() {
        keeps_limits(&trips[k].start);
        keeps_limits(&trips[k].bound);
        push_inner(code, 24 + k as u8, &trips[k])?;
    }
    Ok(())
}

/// Appends the tests of the root and of its inner loops.
fn push_trips(code: &mut Vec<u32>, trips: &[Trip]) -> Result<(), AllocError>
    requires some { 0 < length trips.now }
    requires few { length trips.now ≤ 4 }
    ensures words { IfOk result (λ u. Appended code.old.items code.new.items (trips_code trips.now)) }
    ensures starts { IfOk result (λ u. All (λ (t : Trip). IsForm t.start) trips.now) }
    ensures bounds { IfOk result (λ u. All (λ (t : Trip). IsForm t.bound) trips.now) }
{
    keeps_limits(&trips[0].start);
    keeps_limits(&trips[0].bound);
    push_root(code, &trips[0])?;
    push_inners(code, &trips[1..])?;
    Ok(())
}

/// Appends the tests of the duties.
fn push_duties(code: &mut Vec<u32>, duties: &[Duty]) -> Result<(), AllocError>
    ensures words { IfOk result (λ u. Appended code.old.items code.new.items (flat_map duty_code duties.now)) }
    ensures forms { IfOk result (λ u. All (λ (d : Duty). IsForm d.form) duties.now) }
{
    for duty in duties {
        keeps_limits(&duty.form);
        push_duty(code, duty)?;
    }
    Ok(())
}

/// Appends the tests of the accesses.
fn push_accesses(
    code: &mut Vec<u32>,
    areas: &[(u64, u64, u32)],
    accesses: &[Access],
) -> Result<(), AllocError>
    requires few { length areas.now ≤ 128 }
    requires low { All IsLowArea areas.now }
    ensures words { IfOk result (λ u. Appended code.old.items code.new.items
        (flat_map (access_code areas.now) accesses.now)) }
    ensures forms { IfOk result (λ u. All (λ (a : Access). IsForm a.form) accesses.now) }
{
    for access in accesses {
        keeps_limits(&access.form);
        push_access(code, areas, access)?;
    }
    Ok(())
}

/// Appends the tests of a cell with the accesses.
fn push_keep_off_row(
    code: &mut Vec<u32>,
    cell: &Cell,
    accesses: &[Access],
) -> Result<(), AllocError>
    requires { HasOffset cell.now.base cell.now.offset }
    ensures { IfOk result (λ u. Appended code.old.items code.new.items
        (flat_map (keep_off_code cell.now) accesses.now)) }
{
    for access in accesses {
        push_keep_off(code, cell, access)?;
    }
    Ok(())
}

/// Appends the tests of the cells with the accesses.
fn push_all_keep_off(
    code: &mut Vec<u32>,
    cells: &[Cell],
    accesses: &[Access],
) -> Result<(), AllocError>
    requires { All (λ (c : Cell). HasOffset c.base c.offset) cells.now }
    ensures { IfOk result (λ u. Appended code.old.items code.new.items
        (all_keep_off_code cells.now accesses.now)) }
{
    for cell in cells {
        push_keep_off_row(code, cell, accesses)?;
    }
    Ok(())
}

/// Appends the test of a pair of the accesses.
fn push_pair_of(
    code: &mut Vec<u32>,
    accesses: &[Access],
    pair: &(u32, u32, Term),
) -> Result<(), AllocError>
    requires { IsPair accesses.now pair.now }
    ensures { IfOk result (λ u. Appended code.old.items code.new.items (pair_at_code accesses.now pair.now)) }
{
    let first = pair.0 as usize;
    let second = pair.1 as usize;
    push_pair(code, &accesses[first], &accesses[second], &pair.2)?;
    Ok(())
}

/// Appends the tests of the pairs of the accesses.
fn push_pairs(
    code: &mut Vec<u32>,
    accesses: &[Access],
    pairs: &[(u32, u32, Term)],
) -> Result<(), AllocError>
    requires { All (IsPair accesses.now) pairs.now }
    ensures { IfOk result (λ u. Appended code.old.items code.new.items
        (flat_map (pair_at_code accesses.now) pairs.now)) }
{
    for pair in pairs {
        push_pair_of(code, accesses, pair)?;
    }
    Ok(())
}

/// The areas of an executable have room in the words of a check.
pub fn areas_have_room()
    ensures { RoomLaw }
{}

/// The check of what the analysis finds of a nest has a root and at most three inner loops, and its words tell what it
/// tells: its forms are over the loop's own locations, and its steps lead to where relations end.
pub fn found_checks_are_told()
    ensures { FoundLaw }
{}

/// The words of a check. A hart that arrives at the loop and runs them comes to their end where the check tells turns,
/// with the number of the last in slot 23, those of the inner loops' last passes in the slots from 24 on and the cells'
/// values in the slots of their numbers; and where it tells none, to the target of the jumps with offset 0. It has then
/// written no memory. There are few enough words that each jump can be aimed behind them.
pub fn emit_check(alloc: Global, check: &Check) -> Result<Vec<u32>, AllocError>
    requires { HasRoom check.now }
    ensures words { IfOk result (λ code. readings code.items ≡ somes (check_code check.now)) }
    ensures plain { IfOk result (λ code. list_all is_check_word (check_code check.now) ≡ true) }
    ensures tells { IfOk result (λ code. IsCheckable check.now → TellsCheck check.now code.items) }
    ensures short { IfOk result (λ code. length code.items ≤ most_words) }
    ensures near { IfOk result (λ code. CanBeAimed code.items) }
{
    let areas = check.areas.as_slice();
    let cells = check.cells.list.as_slice();
    let accesses = check.accesses.list.as_slice();
    let mut code = Vec::new(alloc);
    push_cells(&mut code, areas, cells)?;
    push_all_clear(&mut code, cells)?;
    push_trips(&mut code, check.trips.as_slice())?;
    push_duties(&mut code, check.duties.as_slice())?;
    push_accesses(&mut code, areas, accesses)?;
    push_all_keep_off(&mut code, cells, accesses)?;
    push_pairs(&mut code, accesses, check.pairs.as_slice())?;
    Ok(code)
}
