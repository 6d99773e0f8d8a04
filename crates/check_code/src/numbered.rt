ghost use Rattle.std.specs.Prelude.{◌≡◌, ◌<◌, [], ◌∷◌, IfOk};
ghost use Rattle.rv64_decode.specs.declared.xinstr.XInstr.TheVariants.{Put};
ghost use Rattle.stub_laws.specs.Code.{Appended};
ghost use Rattle.check_code.specs.Macros.{number_code, form_code, need_code};

use crate::macros::{push, push_form, push_need, push_number};
use linear_forms::Form;
use rv64_decode::{BranchOp, Reg, XInstr};
use std::alloc::AllocError;

/// Appends what puts a register into a slot. Registers are given by their numbers.
pub(crate) fn put(code: &mut Vec<u32>, slot: u8, rs1: u8) -> Result<(), AllocError>
    requires { (slot < 32) × (rs1 < 32) }
    ensures { IfOk result (λ u. Appended code.old.items code.new.items (Put slot rs1 ∷ [])) }
{
    let rs1 = Reg::new(rs1);
    push(code, XInstr::Put { slot, rs1 })
}

/// Appends a branch that is needed.
pub(crate) fn need(code: &mut Vec<u32>, op: BranchOp, rs1: u8, rs2: u8) -> Result<(), AllocError>
    requires { (rs1 < 32) × (rs2 < 32) }
    ensures { IfOk result (λ u. Appended code.old.items code.new.items (need_code op rs1 rs2)) }
{
    push_need(code, op, Reg::new(rs1), Reg::new(rs2))
}

/// Appends a number into a register.
pub(crate) fn number(code: &mut Vec<u32>, r: u8, v: i64) -> Result<(), AllocError>
    requires { r < 32 }
    ensures { IfOk result (λ u. Appended code.old.items code.new.items (number_code r v)) }
{
    push_number(code, Reg::new(r), v)
}

/// Appends a form's value at turn numbers 0 into a register.
pub(crate) fn form(code: &mut Vec<u32>, r: u8, f: &Form) -> Result<(), AllocError>
    requires { r < 32 }
    ensures { IfOk result (λ u. Appended code.old.items code.new.items (form_code r f.now)) }
{
    push_form(code, Reg::new(r), f)
}
