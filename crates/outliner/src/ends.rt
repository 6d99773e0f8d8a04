ghost use Rattle.std.specs.Prelude.{◌≡◌, ◌<◌, ◌≤◌, [], ◌∷◌, if◌then◌else◌, IfOk, length};
ghost use Rattle.std.specs.List.{All};
ghost use Rattle.rv64_decode.specs.Form.{IsSigned, IsMultiple};
ghost use Rattle.rv64_decode.specs.declared.instr.UpperOp.TheVariants.{Lui};
ghost use Rattle.rv64_decode.specs.declared.instr.Instr.TheVariants.{Upper};
ghost use Rattle.rv64_decode.specs.declared.xinstr.XInstr.TheVariants.{Base};
ghost use Rattle.loop_data.specs.declared.verdict.Cell.{Cell};
ghost use Rattle.stub_laws.specs.Code.{Appended};
ghost use Rattle.check_numbers.specs.Parts.{low_part, high_part};
ghost use Rattle.check_code.specs.Laws.{HasOffset};
ghost use Rattle.turn_copies.specs.StubCode.{save_code, restore_code, refuse_code, cell_store, carrier, based_code, known_code, write_by, write_back_code, leave_code};

use crate::steps::{get, put, store};
use check_code::macros::push;
use loop_data::Cell;
use rv64_decode::{Instr, Reg, StoreOp, UpperOp, XInstr};
use std::alloc::AllocError;

/// Appends what puts the registers that added code works with into their slots.
pub fn push_save(code: &mut Vec<u32>) -> Result<(), AllocError>
    ensures { IfOk result (λ u. Appended code.old.items code.new.items save_code) }
{
    put(code, 16, 5)?;
    put(code, 17, 6)?;
    put(code, 18, 7)?;
    put(code, 19, 28)?;
    put(code, 20, 29)?;
    put(code, 21, 30)?;
    put(code, 22, 31)?;
    Ok(())
}

/// Appends what gets them back.
pub fn push_restore(code: &mut Vec<u32>) -> Result<(), AllocError>
    ensures { IfOk result (λ u. Appended code.old.items code.new.items restore_code) }
{
    get(code, 5, 16)?;
    get(code, 6, 17)?;
    get(code, 7, 18)?;
    get(code, 28, 19)?;
    get(code, 29, 20)?;
    get(code, 30, 21)?;
    get(code, 31, 22)?;
    Ok(())
}

/// Appends where a check that fails leads: the registers are as they were, and the hart leaves.
pub fn push_refuse(code: &mut Vec<u32>) -> Result<(), AllocError>
    ensures { IfOk result (λ u. Appended code.old.items code.new.items refuse_code) }
{
    push_restore(code)?;
    push(code, XInstr::Back)?;
    Ok(())
}

/// The low 12 bits of an address, as a signed number.
fn low_of(v: i64) -> i32
    ensures value { result ≡ low_part v }
    ensures form { IsSigned 12 result }
{
    let low = v.cast_unsigned() % 0x1000;
    if low < 0x800 {
        low as i32
    } else {
        low as i32 - 0x1000
    }
}

/// What is left of an address, a multiple of 4096.
fn high_of(v: i64) -> i32
    ensures value { result ≡ high_part v }
    ensures form { IsMultiple 12 result }
{
    let word = (v.cast_unsigned() % 0x1_0000_0000) as u32;
    (word.wrapping_add(0x800) / 0x1000 * 0x1000).cast_signed()
}

/// A register that is not the base of a cell.
fn carrier(r: u8) -> u8
    ensures value { result ≡ carrier r }
    ensures below { result < 32 }
{
    if r == 5 { 6 } else { 5 }
}

/// The store of a cell's width.
fn cell_store(wide: bool) -> StoreOp
    ensures { result ≡ cell_store wide }
{
    if wide { StoreOp::Sd } else { StoreOp::Sw }
}

/// Appends what writes slot `k` at an offset from a register.
fn push_based(code: &mut Vec<u32>, k: u8, op: StoreOp, r: u8, offset: i64) -> Result<(), AllocError>
    requires numbers { (k < 32) × (r < 32) }
    requires offset { IsSigned 12 offset }
    ensures { IfOk result (λ u. Appended code.old.items code.new.items (based_code k op r offset (carrier r))) }
{
    let s = carrier(r);
    put(code, 29, s)?;
    get(code, s, k)?;
    store(code, op, r, s, offset as i32)?;
    get(code, s, 29)?;
    Ok(())
}

/// Appends the upper part of an address into x6.
fn push_upper(code: &mut Vec<u32>, v: i64) -> Result<(), AllocError>
    ensures { IfOk result (λ u. Appended code.old.items code.new.items (Base (Upper Lui 6 (high_part v)) ∷ [])) }
{
    let i = Instr::Upper {
        op: UpperOp::Lui,
        rd: Reg::new(6),
        imm: high_of(v),
    };
    push(code, XInstr::Base(i))
}

/// Appends what writes slot `k` at an address.
fn push_known(code: &mut Vec<u32>, k: u8, op: StoreOp, v: i64) -> Result<(), AllocError>
    requires { k < 32 }
    ensures { IfOk result (λ u. Appended code.old.items code.new.items (known_code k op v)) }
{
    put(code, 29, 5)?;
    put(code, 30, 6)?;
    get(code, 5, k)?;
    push_upper(code, v)?;
    store(code, op, 6, 5, low_of(v))?;
    get(code, 5, 29)?;
    get(code, 6, 30)?;
    Ok(())
}

/// Appends what writes a cell's slot into memory.
fn push_write(code: &mut Vec<u32>, k: u8, c: &Cell) -> Result<(), AllocError>
    requires slot { k < 32 }
    requires offset { HasOffset c.now.base c.now.offset }
    ensures { IfOk result (λ u. Appended code.old.items code.new.items
        (write_by k (cell_store c.now.wide) c.now.base c.now.offset)) }
{
    let op = cell_store(c.wide);
    let offset = c.offset;
    match c.base {
        Some(base) => push_based(code, k, op, base, offset),
        None => push_known(code, k, op, offset),
    }
}

/// Appends that where the cell is stored.
fn push_stored(code: &mut Vec<u32>, k: u8, c: &Cell) -> Result<(), AllocError>
    requires slot { k < 32 }
    requires offset { HasOffset c.now.base c.now.offset }
    ensures { IfOk result (λ u. Appended code.old.items code.new.items
        (if c.now.stored then write_by k (cell_store c.now.wide) c.now.base c.now.offset else [])) }
{
    if c.stored {
        return push_write(code, k, c);
    }
    Ok(())
}

/// Appends that for all cells, each of which has the slot of its number.
fn push_cells(code: &mut Vec<u32>, cells: &[Cell]) -> Result<(), AllocError>
    requires few { length cells.now ≤ 16 }
    requires offsets { All (λ (c : Cell). HasOffset c.base c.offset) cells.now }
    ensures { IfOk result (λ u. Appended code.old.items code.new.items (write_back_code 0 cells.now)) }
{
    for k in 0..cells.len() {
        push_stored(code, k as u8, &cells[k])?;
    }
    Ok(())
}

/// Appends what follows the join: stored cells go into memory, and the hart leaves.
pub fn push_leave(code: &mut Vec<u32>, cells: &[Cell]) -> Result<(), AllocError>
    requires few { length cells.now ≤ 16 }
    requires offsets { All (λ (c : Cell). HasOffset c.base c.offset) cells.now }
    ensures { IfOk result (λ u. Appended code.old.items code.new.items (leave_code cells.now)) }
{
    push_cells(code, cells)?;
    push(code, XInstr::Back)?;
    Ok(())
}
