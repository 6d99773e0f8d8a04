ghost use Rattle.std.specs.Prelude.{◌≡◌, ◌+◌, ◌<◌, ◌≤◌, ◌^◌, ◌&&◌, true, pos, length};
ghost use Rattle.std.specs.List.{All, list_all};
ghost use Rattle.loop_data.specs.declared.verdict.Cell.{Cell};
ghost use Rattle.loop_data.specs.Locations.{address};
ghost use Rattle.alias_checks.specs.Areas.{in_bounds};
ghost use Rattle.alias_checks.specs.CellTests.{cell_size, cell_range, cell_permission, cell_fits, same_base, are_clear, all_clear, HasRegister, IsLow};

use crate::areas::{Permission, are_disjoint, in_bounds};
use crate::entry::address;
use loop_data::Cell;
use rv64_decode::Regs;

/// The addresses of accesses and cells lie below this one.
const LIMIT: u64 = 1 << 31;

/// How many bytes a cell has.
fn cell_size(cell: &Cell) -> u64
    ensures size { result ≡ cell_size cell.now }
    ensures some { 0 < result }
    ensures small { result ≤ 8 }
{
    if cell.wide { 8 } else { 4 }
}

/// What is done with a cell.
fn cell_permission(cell: &Cell) -> Permission
    ensures { result ≡ cell_permission cell.now }
{
    if cell.stored {
        Permission::ReadAndWrite
    } else {
        Permission::Read
    }
}

/// The range of a cell whose address lies below 2^31.
pub(crate) fn cell_range(regs: &Regs, cell: &Cell) -> (i64, i64)
    requires { IsLow regs.now cell.now }
    ensures { result ≡ cell_range regs.now cell.now }
{
    let address = address(regs, cell);
    (address as i64, (address + cell_size(cell)) as i64)
}

/// Whether a cell is aligned, and lies below 2^31 in one area that permits what is done with it.
#[tactic(auto, unfolding(crate::specs::CellTests::cell_fits))]
fn cell_fits(areas: &[(u64, u64, u32)], regs: &Regs, cell: &Cell) -> bool
    requires { HasRegister cell.now.base }
    ensures fits { result ≡ cell_fits (in_bounds areas.now) regs.now cell.now }
{
    let address = address(regs, cell);
    if address % cell_size(cell) != 0 || address >= LIMIT {
        return false;
    }
    in_bounds(areas, cell_permission(cell), cell_range(regs, cell))
}

/// Whether all cells fit.
fn all_fit(areas: &[(u64, u64, u32)], regs: &Regs, cells: &[Cell]) -> bool
    requires { All (λ (c : Cell). HasRegister c.base) cells.now }
    ensures fit { result ≡ list_all (cell_fits (in_bounds areas.now) regs.now) cells.now }
    ensures low { result ≡ true → All (IsLow regs.now) cells.now }
{
    for cell in cells {
        if !cell_fits(areas, regs, cell) {
            return false;
        }
    }
    true
}

/// Whether two cells have the same base.
fn same_base(first: Option<u8>, second: Option<u8>) -> bool
    ensures { result ≡ same_base first second }
{
    match (first, second) {
        (None, None) => true,
        (Some(first), Some(second)) => first == second,
        _ => false,
    }
}

/// Whether two cells of different bases, of which one is stored, have no byte in common.
#[tactic(auto, unfolding(crate::specs::CellTests::are_clear))]
fn are_clear(regs: &Regs, first: &Cell, second: &Cell) -> bool
    requires first { IsLow regs.now first.now }
    requires second { IsLow regs.now second.now }
    ensures { result ≡ are_clear regs.now first.now second.now }
{
    let apart = are_disjoint(cell_range(regs, first), cell_range(regs, second));
    same_base(first.base, second.base) || (!(first.stored || second.stored) || apart)
}

/// Whether a cell has no byte in common with other cells of which that is asked.
fn is_clear_of(regs: &Regs, cell: &Cell, others: &[Cell]) -> bool
    requires cell { IsLow regs.now cell.now }
    requires others { All (IsLow regs.now) others.now }
    ensures { result ≡ list_all (are_clear regs.now cell.now) others.now }
{
    for other in others {
        if !are_clear(regs, cell, other) {
            return false;
        }
    }
    true
}

/// Whether no two cells have a byte in common of which that is asked.
fn all_clear(regs: &Regs, cells: &[Cell]) -> bool
    requires { All (IsLow regs.now) cells.now }
    ensures { result ≡ all_clear regs.now cells.now }
{
    for i in 0..cells.len() {
        if !is_clear_of(regs, &cells[i], &cells[i + 1..]) {
            return false;
        }
    }
    true
}

/// Whether all cells fit, and no two have a byte in common of which that is asked.
pub(crate) fn cells_pass(areas: &[(u64, u64, u32)], regs: &Regs, cells: &[Cell]) -> bool
    requires { All (λ (c : Cell). HasRegister c.base) cells.now }
    ensures pass { result ≡ (list_all (cell_fits (in_bounds areas.now) regs.now) cells.now
        && all_clear regs.now cells.now) }
    ensures low { result ≡ true → All (IsLow regs.now) cells.now }
{
    all_fit(areas, regs, cells) && all_clear(regs, cells)
}
