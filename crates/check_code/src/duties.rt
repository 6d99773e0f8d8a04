ghost use Rattle.std.specs.Prelude.{◌≡◌, IfOk};
ghost use Rattle.stub_laws.specs.Code.{Appended};
ghost use Rattle.check_code.specs.DutyCode.{short_code, shorts_code, duty_code};

use crate::macros::{push_high, push_low};
use crate::numbered::{form, need, number};
use crate::rounds::{own_form, own_slots};
use crate::steps::push_immediate;
use loop_data::Duty;
use rv64_decode::{BranchOp, ImmOp, Reg};
use std::alloc::AllocError;

/// The least and the greatest signed number of 32 bits.
const LEAST: i64 = -0x8000_0000;

const GREATEST: i64 = 0x7FFF_FFFF;

/// Appends that x5 is a signed number of 32 bits.
fn push_short(code: &mut Vec<u32>) -> Result<(), AllocError>
    ensures { IfOk result (λ u. Appended code.old.items code.new.items short_code) }
{
    push_immediate(code, ImmOp::Addiw, 6, 5, 0)?;
    need(code, BranchOp::Beq, 5, 6)?;
    Ok(())
}

/// Appends that the numbers from x5 to x6 are signed numbers of 32 bits.
fn push_shorts(code: &mut Vec<u32>) -> Result<(), AllocError>
    ensures { IfOk result (λ u. Appended code.old.items code.new.items shorts_code) }
{
    number(code, 7, LEAST)?;
    need(code, BranchOp::Bge, 5, 7)?;
    number(code, 7, GREATEST)?;
    need(code, BranchOp::Bge, 7, 6)?;
    Ok(())
}

/// Appends the test of a duty: that the values of its form in all turns and passes are signed numbers of 32 bits. It
/// works with x5 to x7, x30 and x31.
pub fn push_duty(code: &mut Vec<u32>, duty: &Duty) -> Result<(), AllocError>
    ensures { IfOk result (λ u. Appended code.old.items code.new.items (duty_code duty.now)) }
{
    let own = own_form(&duty.form, &duty.around);
    let slots = own_slots(&duty.around);
    form(code, 5, &duty.form)?;
    push_short(code)?;
    push_low(code, Reg::new(5), &own, slots)?;
    push_high(code, Reg::new(6), &own, slots, 0)?;
    push_shorts(code)?;
    Ok(())
}
