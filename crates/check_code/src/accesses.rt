ghost use Rattle.std.specs.Prelude.{◌≡◌, ◌<◌, ◌≤◌, ◌^◌, ◌-◌, ◌||◌, IfOk, length, pos};
ghost use Rattle.std.specs.List.{All};
ghost use Rattle.rv64_decode.specs.Area.{bytes_of};
ghost use Rattle.rv64_decode.specs.Form.{IsSigned};
ghost use Rattle.alias_checks.specs.CellTests.{cell_size};
ghost use Rattle.alias_checks.specs.AccessTests.{access_permission};
ghost use Rattle.stub_laws.specs.Code.{Appended};
ghost use Rattle.rv64_decode.specs.declared.instr.BranchOp.TheVariants.{Beq};
ghost use Rattle.check_code.specs.Macros.{form_code, address_code, need_code};
ghost use Rattle.check_code.specs.Laws.{HasOffset};
ghost use Rattle.check_code.specs.AccessCode.{access_low, access_end, below_code, aligned_code, access_code};
ghost use Rattle.check_code.specs.MeetCode.{disjoint_code, meet_code, keep_off_code};

use crate::macros::{push_address, push_form, push_high, push_low, push_need, push_open};
use crate::ranges::push_areas;
use crate::rounds::{own_form, own_slots};
use crate::steps::{push_immediate, push_more, push_over};
use alias_checks::areas::Permission;
use linear_forms::Form;
use loop_data::{Access, Cell};
use rv64_decode::{BranchOp, ImmOp, Reg, Width};
use std::alloc::AllocError;

/// Appends a form's value at turn numbers 0 into a register, which is given by its number.
pub(crate) fn push_first(code: &mut Vec<u32>, r: u8, f: &Form) -> Result<(), AllocError>
    requires { r < 32 }
    ensures { IfOk result (λ u. Appended code.old.items code.new.items (form_code r f.now)) }
{
    push_form(code, Reg::new(r), f)
}

/// Appends the least address of an access over all turns and passes into a register.
pub(crate) fn push_least(code: &mut Vec<u32>, r: u8, a: &Access) -> Result<(), AllocError>
    requires { r < 32 }
    ensures { IfOk result (λ u. Appended code.old.items code.new.items (access_low r a.now)) }
{
    let form = own_form(&a.form, &a.around);
    push_low(code, Reg::new(r), &form, own_slots(&a.around))
}

/// Appends the end of the last bytes of an access over all turns and passes into a register.
pub(crate) fn push_end(code: &mut Vec<u32>, r: u8, a: &Access) -> Result<(), AllocError>
    requires { r < 32 }
    ensures { IfOk result (λ u. Appended code.old.items code.new.items (access_end r a.now)) }
{
    let form = own_form(&a.form, &a.around);
    let size = a.width.bytes() as u32;
    push_high(code, Reg::new(r), &form, own_slots(&a.around), size)
}

/// Appends what goes on where x6 is 0.
fn push_zero(code: &mut Vec<u32>) -> Result<(), AllocError>
    ensures { IfOk result (λ u. Appended code.old.items code.new.items (need_code Beq 6 0)) }
{
    push_need(code, BranchOp::Beq, Reg::new(6), Reg::new(0))
}

/// Appends what goes on where x5 is below 2^31. It works with x6.
pub(crate) fn push_below(code: &mut Vec<u32>) -> Result<(), AllocError>
    ensures { IfOk result (λ u. Appended code.old.items code.new.items below_code) }
{
    push_immediate(code, ImmOp::Srli, 6, 5, 31)?;
    push_zero(code)?;
    Ok(())
}

/// The bits that a multiple of a width has not.
fn mask_of(width: Width) -> i32
    ensures value { result ≡ pos (bytes_of width - 1) }
    ensures form { IsSigned 12 result }
{
    match width {
        Width::One => 0,
        Width::Two => 1,
        Width::Four => 3,
        Width::Eight => 7,
    }
}

/// Appends what goes on where x5 is a multiple of a width. It works with x6.
pub(crate) fn push_aligned(code: &mut Vec<u32>, width: Width) -> Result<(), AllocError>
    ensures { IfOk result (λ u. Appended code.old.items code.new.items (aligned_code width)) }
{
    push_immediate(code, ImmOp::Andi, 6, 5, mask_of(width))?;
    push_zero(code)?;
    Ok(())
}

/// What an access does.
fn permission_of(a: &Access) -> Permission
    ensures { result ≡ access_permission a.now }
{
    if a.store {
        Permission::Write
    } else {
        Permission::Read
    }
}

/// Appends what goes on where an access begins below 2^31 and aligned, and its range over all turns and passes lies in
/// one of the areas that permit it, and to the open target elsewhere.
pub fn push_access(
    code: &mut Vec<u32>,
    areas: &[(u64, u64, u32)],
    a: &Access,
) -> Result<(), AllocError>
    requires few { length areas.now ≤ 128 }
    requires low { All (λ b. (b.0 < 2 ^ 31) × (b.1 < 2 ^ 31)) areas.now }
    ensures { IfOk result (λ u. Appended code.old.items code.new.items (access_code areas.now a.now)) }
{
    push_first(code, 5, &a.form)?;
    push_below(code)?;
    push_aligned(code, a.width)?;
    push_least(code, 5, a)?;
    push_end(code, 6, a)?;
    push_areas(code, permission_of(a), areas)?;
    Ok(())
}

/// Appends what goes on where the ranges from x5 to x6 and from x7 to x28 have no byte in common, and to the open
/// target elsewhere.
pub(crate) fn push_disjoint(code: &mut Vec<u32>) -> Result<(), AllocError>
    ensures { IfOk result (λ u. Appended code.old.items code.new.items disjoint_code) }
{
    push_over(code, BranchOp::Bge, 7, 6, 2)?;
    push_over(code, BranchOp::Bge, 5, 28, 1)?;
    push_open(code)?;
    Ok(())
}

/// How many bytes a cell has.
fn cell_size(c: &Cell) -> u64
    ensures value { result ≡ cell_size c.now }
    ensures small { result ≤ 8 }
{
    if c.wide { 8 } else { 4 }
}

/// Appends the address of a cell into x5.
fn push_cell(code: &mut Vec<u32>, c: &Cell) -> Result<(), AllocError>
    requires { HasOffset c.now.base c.now.offset }
    ensures { IfOk result (λ u. Appended code.old.items code.new.items (address_code 5 c.now)) }
{
    push_address(code, Reg::new(5), c)
}

/// Appends what goes on where a cell and an access have no byte in common in any turn, and to the open target
/// elsewhere.
fn push_meet(code: &mut Vec<u32>, c: &Cell, a: &Access) -> Result<(), AllocError>
    requires { HasOffset c.now.base c.now.offset }
    ensures { IfOk result (λ u. Appended code.old.items code.new.items (meet_code c.now a.now)) }
{
    push_cell(code, c)?;
    push_more(code, 6, 5, cell_size(c))?;
    push_least(code, 7, a)?;
    push_end(code, 28, a)?;
    push_disjoint(code)?;
    Ok(())
}

/// Whether a cell or an access is stored.
fn is_either_stored(c: &Cell, a: &Access) -> bool
    ensures { result ≡ (c.now.stored || a.now.store) }
{
    c.stored || a.store
}

/// Appends the same where one of the two is stored, and nothing elsewhere.
pub fn push_keep_off(code: &mut Vec<u32>, c: &Cell, a: &Access) -> Result<(), AllocError>
    requires { HasOffset c.now.base c.now.offset }
    ensures { IfOk result (λ u. Appended code.old.items code.new.items (keep_off_code c.now a.now)) }
{
    if is_either_stored(c, a) {
        push_meet(code, c, a)?;
    }
    Ok(())
}
