ghost use Rattle.std.specs.Prelude.{◌≡◌, ◌<◌, ◌≤◌, ◌^◌, ℕ, None, true, length, slice_index, if◌then◌else◌, nat_lt};
ghost use Rattle.std.specs.List.{All};
ghost use Rattle.rv64_decode.specs.Area.{number_at, readable_of, why};
ghost use Rattle.rv64_decode.specs.Registers.{register};
ghost use Rattle.rv64_decode.specs.Row.{extended32};
ghost use Rattle.rv64_decode.specs.declared.memory.Width.TheVariants.{Four, Eight};
ghost use Rattle.linear_forms.specs.Forms.{integers, word_of};
ghost use Rattle.loop_data.specs.Locations.{address, width_of, content};
ghost use Rattle.alias_checks.specs.CellTests.{HasRegister};
ghost use Rattle.alias_checks.specs.Entry.{entry, start_value, IsFilled, IsReadable};

use guest_memory::Memory;
use linear_forms::Form;
use loop_data::Cell;
use rv64_decode::{Reg, Regs, Width};

/// What the register with this number reads.
fn register(regs: &Regs, number: u8) -> u64
    requires { number < 32 }
    ensures { result ≡ register regs.now number }
{
    regs.get(Reg::new(number))
}

/// A signed number as a word.
fn word_of(number: i64) -> u64
    ensures { result ≡ word_of number }
{
    number.cast_unsigned()
}

/// The address of a cell, where the registers are these.
pub(crate) fn address(regs: &Regs, cell: &Cell) -> u64
    requires { HasRegister cell.now.base }
    ensures { result ≡ address regs.now cell.now }
{
    match cell.base {
        Some(base) => register(regs, base).wrapping_add(cell.offset.cast_unsigned()),
        None => word_of(cell.offset),
    }
}

/// The 8 bytes at an address, which may be read.
fn wide_content(mem: &Memory, address: u64) -> u64
    requires { why readable_of mem.now address Eight ≡ None }
    ensures { result ≡ number_at 8 mem.now address }
{
    match mem.peek(address, Width::Eight) {
        Ok(number) => number,
        Err(_) => 0,
    }
}

/// The 4 bytes at an address, which may be read, sign-extended.
fn narrow_content(mem: &Memory, address: u64) -> u64
    requires { why readable_of mem.now address Four ≡ None }
    ensures { result ≡ extended32 (number_at 4 mem.now address) }
{
    match mem.peek(address, Width::Four) {
        Ok(number) => ((number as u32).cast_signed() as i64).cast_unsigned(),
        Err(_) => 0,
    }
}

/// The value of a cell, whose bytes may be read.
fn content(mem: &Memory, regs: &Regs, cell: &Cell) -> u64
    requires { IsReadable regs.now mem.now cell.now }
    ensures { result ≡ content cell.now.wide mem.now (address regs.now cell.now) }
{
    let address = address(regs, cell);
    if cell.wide {
        wide_content(mem, address)
    } else {
        narrow_content(mem, address)
    }
}

/// The values of the registers, with room for those of cells behind them.
fn register_values(regs: &Regs) -> [u64; 48]
    ensures { IsFilled (register regs.now) 32 result }
{
    let mut values = [0; 48];
    for r in 0u8..32 {
        values[r as usize] = register(regs, r);
    }
    values
}

/// The values of the locations at the entry: of the registers, and from 32 on of the cells.
pub(crate) fn entry_values(cells: &[Cell], regs: &Regs, mem: &Memory) -> [u64; 48]
    requires few { length cells.now ≤ 16 }
    requires readable { All (IsReadable regs.now mem.now) cells.now }
    ensures { integers result ≡ entry cells.now regs.now mem.now }
{
    let mut values = register_values(regs);
    for k in 0..cells.len() {
        values[32 + k] = content(mem, regs, &cells[k]);
    }
    values
}

/// The value of a form at turn numbers 0, where the locations have these values at the entry.
#[tactic(auto, unfolding(crate::specs::Entry::start_value))]
pub(crate) fn start_value(form: &Form, entry: &[u64; 48]) -> u64
    ensures { result ≡ start_value form.now (integers entry.now) }
{
    form.value_at(entry, [0, 0, 0])
}
