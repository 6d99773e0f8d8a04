ghost use Rattle.std.specs.Prelude.{◌≡◌, ◌<◌, ◌≤◌, ◌^◌, ◌||◌, [], ◌∷◌, IfOk, length, pos};
ghost use Rattle.std.specs.List.{All};
ghost use Rattle.rv64_decode.specs.declared.instr.Instr.TheVariants.{Load};
ghost use Rattle.rv64_decode.specs.declared.xinstr.XInstr.TheVariants.{Base, Put};
ghost use Rattle.loop_data.specs.Locations.{width_of};
ghost use Rattle.alias_checks.specs.CellTests.{cell_size, cell_permission, same_base};
ghost use Rattle.stub_laws.specs.Code.{Appended};
ghost use Rattle.check_code.specs.Macros.{address_code};
ghost use Rattle.check_code.specs.Laws.{HasOffset};
ghost use Rattle.check_code.specs.CellCode.{load_op, cell_areas_code, cell_load_code, cell_code, apart_code, both_code, clear_code};

use crate::accesses::{push_aligned, push_below};
use crate::macros::{push, push_address, push_open};
use crate::ranges::push_areas;
use crate::steps::{push_immediate, push_over};
use alias_checks::areas::Permission;
use loop_data::Cell;
use rv64_decode::{BranchOp, ImmOp, Instr, LoadOp, Reg, Width, XInstr};
use std::alloc::AllocError;

/// How many bytes a cell has.
fn cell_size(cell: &Cell) -> i32
    ensures { result ≡ pos (cell_size cell.now) }
{
    if cell.wide { 8 } else { 4 }
}

/// The width of a cell's accesses.
fn width_of(cell: &Cell) -> Width
    ensures { result ≡ width_of cell.now }
{
    if cell.wide { Width::Eight } else { Width::Four }
}

/// What is done with a cell.
fn permission_of(cell: &Cell) -> Permission
    ensures { result ≡ cell_permission cell.now }
{
    if cell.stored {
        Permission::ReadAndWrite
    } else {
        Permission::Read
    }
}

/// The operation that loads a cell.
fn load_op(cell: &Cell) -> LoadOp
    ensures { result ≡ load_op cell.now.wide }
{
    if cell.wide { LoadOp::Ld } else { LoadOp::Lw }
}

/// Appends the address of a cell into a register, which is given by its number.
fn push_site(code: &mut Vec<u32>, r: u8, cell: &Cell) -> Result<(), AllocError>
    requires r { r < 32 }
    requires offset { HasOffset cell.now.base cell.now.offset }
    ensures { IfOk result (λ u. Appended code.old.items code.new.items (address_code r cell.now)) }
{
    push_address(code, Reg::new(r), cell)
}

/// Appends what goes on where the cell at the address in x5 lies in one of the areas that permit what is done with it,
/// and to the open target elsewhere. It works with x6 and x7.
fn push_cell_areas(
    code: &mut Vec<u32>,
    areas: &[(u64, u64, u32)],
    cell: &Cell,
) -> Result<(), AllocError>
    requires few { length areas.now ≤ 128 }
    requires low { All (λ b. (b.0 < 2 ^ 31) × (b.1 < 2 ^ 31)) areas.now }
    ensures { IfOk result (λ u. Appended code.old.items code.new.items (cell_areas_code areas.now cell.now)) }
{
    push_immediate(code, ImmOp::Addi, 6, 5, cell_size(cell))?;
    push_areas(code, permission_of(cell), areas)?;
    Ok(())
}

/// Appends the load of a cell at the address in x5 into x6.
fn push_load(code: &mut Vec<u32>, op: LoadOp) -> Result<(), AllocError>
    ensures { IfOk result (λ u. Appended code.old.items code.new.items (Base (Load op 6 5 (pos 0)) ∷ [])) }
{
    let i = Instr::Load {
        op,
        rd: Reg::new(6),
        rs1: Reg::new(5),
        imm: 0,
    };
    push(code, XInstr::Base(i))
}

/// Appends what puts x6 into a slot.
fn push_keep(code: &mut Vec<u32>, slot: u8) -> Result<(), AllocError>
    requires { slot < 32 }
    ensures { IfOk result (λ u. Appended code.old.items code.new.items (Put slot 6 ∷ [])) }
{
    let rs1 = Reg::new(6);
    push(code, XInstr::Put { slot, rs1 })
}

/// Appends the value of the cell at the address in x5 into a slot.
fn push_cell_load(code: &mut Vec<u32>, slot: u8, cell: &Cell) -> Result<(), AllocError>
    requires { slot < 32 }
    ensures { IfOk result (λ u. Appended code.old.items code.new.items (cell_load_code slot cell.now)) }
{
    push_load(code, load_op(cell))?;
    push_keep(code, slot)?;
    Ok(())
}

/// Appends what goes on where a cell is aligned and lies below 2^31 in one of the areas that permit what is done with
/// it, with its value in the slot, and to the open target elsewhere.
pub fn push_cell(
    code: &mut Vec<u32>,
    areas: &[(u64, u64, u32)],
    slot: u8,
    cell: &Cell,
) -> Result<(), AllocError>
    requires few { length areas.now ≤ 128 }
    requires low { All (λ b. (b.0 < 2 ^ 31) × (b.1 < 2 ^ 31)) areas.now }
    requires slot { slot < 32 }
    requires offset { HasOffset cell.now.base cell.now.offset }
    ensures { IfOk result (λ u. Appended code.old.items code.new.items (cell_code areas.now slot cell.now)) }
{
    push_site(code, 5, cell)?;
    push_aligned(code, width_of(cell))?;
    push_below(code)?;
    push_cell_areas(code, areas, cell)?;
    push_cell_load(code, slot, cell)?;
    Ok(())
}

/// Appends what goes on where the cells at the addresses in x5 and x6 have no byte in common, and to the open target
/// elsewhere. It works with x7.
fn push_apart(code: &mut Vec<u32>, first: &Cell, second: &Cell) -> Result<(), AllocError>
    ensures { IfOk result (λ u. Appended code.old.items code.new.items (apart_code first.now second.now)) }
{
    push_immediate(code, ImmOp::Addi, 7, 5, cell_size(first))?;
    push_over(code, BranchOp::Bge, 6, 7, 3)?;
    push_immediate(code, ImmOp::Addi, 7, 6, cell_size(second))?;
    push_over(code, BranchOp::Bge, 5, 7, 1)?;
    push_open(code)?;
    Ok(())
}

/// Appends the same of two cells wherever they are.
fn push_both(code: &mut Vec<u32>, first: &Cell, second: &Cell) -> Result<(), AllocError>
    requires first { HasOffset first.now.base first.now.offset }
    requires second { HasOffset second.now.base second.now.offset }
    ensures { IfOk result (λ u. Appended code.old.items code.new.items (both_code first.now second.now)) }
{
    push_site(code, 5, first)?;
    push_site(code, 6, second)?;
    push_apart(code, first, second)?;
    Ok(())
}

/// Whether two cells have the same base.
fn same_base(first: Option<u8>, second: Option<u8>) -> bool
    ensures { result ≡ same_base first second }
{
    match (first, second) {
        (None, None) => true,
        (Some(first), Some(second)) => first == second,
        _ => false,
    }
}

/// Whether one of two cells is stored.
fn is_either_stored(first: &Cell, second: &Cell) -> bool
    ensures { result ≡ (first.now.stored || second.now.stored) }
{
    first.stored || second.stored
}

/// Appends what goes on where two cells of different bases, of which one is stored, have no byte in common, and to the
/// open target elsewhere; nothing where they have one base or neither is stored.
pub fn push_clear(code: &mut Vec<u32>, first: &Cell, second: &Cell) -> Result<(), AllocError>
    requires first { HasOffset first.now.base first.now.offset }
    requires second { HasOffset second.now.base second.now.offset }
    ensures { IfOk result (λ u. Appended code.old.items code.new.items (clear_code first.now second.now)) }
{
    if same_base(first.base, second.base) {
        return Ok(());
    }
    if is_either_stored(first, second) {
        return push_both(code, first, second);
    }
    Ok(())
}
