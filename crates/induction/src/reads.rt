ghost use Rattle.std.specs.Prelude.{ℕ, ◌≡◌, ◌<◌, ◌≤◌, ◌==◌, ◌||◌, ◌&&◌, not, false, Some, nat_lt, if◌then◌else◌, length, ◌+◌};
ghost use Rattle.loop_data.specs.Locations.{first_cell, reads_register, reads_cell, instr_reads};
ghost use Rattle.induction.specs.Masks.{has_bit, place_reads, AreFirstReads};

use crate::masks::{with_location, with_register};
use loop_data::Flow;
use rv64_decode::{Instr, Reg};

/// A mask with these registers more, unless they are x0.
fn with_registers(mask: u64, a: Reg, b: Reg) -> u64
    ensures { (r : ℕ) → r < 48 → has_bit result r ≡ (has_bit mask r
        || (if nat_lt r 32 then (if r == 0 then false else ((a == r) || (b == r))) else false)) }
{
    with_register(with_register(mask, a.number()), b.number())
}

/// A mask with the registers more that an instruction reads, but for x0.
fn with_read_registers(mask: u64, instr: &Instr) -> u64
    ensures { (r : ℕ) → r < 48 → has_bit result r ≡ (has_bit mask r
        || (if nat_lt r 32 then (if r == 0 then false else reads_register instr.now r) else false)) }
{
    match *instr {
        Instr::Alu {
            op: _,
            rd: _,
            rs1,
            rs2,
        } => with_registers(mask, rs1, rs2),
        Instr::AluImm {
            op: _,
            rd: _,
            rs1,
            imm: _,
        } => with_register(mask, rs1.number()),
        Instr::Load {
            op: _,
            rd: _,
            rs1,
            imm: _,
        } => with_register(mask, rs1.number()),
        Instr::Jalr { rd: _, rs1, imm: _ } => with_register(mask, rs1.number()),
        Instr::Store {
            op: _,
            rs1,
            rs2,
            imm: _,
        } => with_registers(mask, rs1, rs2),
        Instr::Branch {
            op: _,
            rs1,
            rs2,
            imm: _,
        } => with_registers(mask, rs1, rs2),
        _ => mask,
    }
}

/// Whether an instruction is a load, and so reads the cell that it accesses.
fn is_load(instr: &Instr) -> bool
    ensures { (k r : ℕ) → reads_cell instr.now (Some k) r ≡ (result && (first_cell + k == r)) }
{
    match *instr {
        Instr::Load {
            op: _,
            rd: _,
            rs1: _,
            imm: _,
        } => true,
        _ => false,
    }
}

/// A mask with the cell more that an instruction reads, where it accesses this cell.
fn with_read_cell(mask: u64, instr: &Instr, cell: u8) -> u64
    ensures { (r : ℕ) → r < 48 → has_bit result r
        ≡ (has_bit mask r || (if nat_lt r 32 then false else reads_cell instr.now (Some cell) r)) }
{
    if !is_load(instr) {
        return mask;
    }
    with_location(mask, 32 + cell as usize)
}

/// A mask with the locations more that an instruction reads, which accesses this cell, if any, but for x0.
fn with_reads(mask: u64, instr: &Instr, cell: Option<u8>) -> u64
    ensures { (r : ℕ) → r < 48 → has_bit result r
        ≡ (has_bit mask r || (if r == 0 then false else instr_reads (Some instr.now) cell r)) }
{
    let mask = with_read_registers(mask, instr);
    match cell {
        Some(cell) => with_read_cell(mask, instr, cell),
        None => mask,
    }
}

/// The locations that the word at a place reads, but for x0.
fn reads_at(flow: &Flow, p: usize) -> u64
    requires within { p < length flow.now.instrs.items }
    requires uses { length flow.now.uses.items ≡ length flow.now.instrs.items }
    ensures { (r : ℕ) → r < 48 → has_bit result r ≡ (if r == 0 then false else place_reads flow.now p r) }
{
    match &flow.instrs[p] {
        Some(instr) => with_reads(0, instr, flow.uses[p]),
        None => 0,
    }
}

/// What is in a mask, or in another and not in a third.
fn with_others(mask: u64, others: u64, without: u64) -> u64
    ensures { (r : ℕ) → r < 48 → has_bit result r
        ≡ (has_bit mask r || (has_bit others r && not (has_bit without r))) }
{
    mask | (others & !without)
}

/// The locations but x0 that words read to which a way leads that has not written them.
pub fn first_reads(flow: &Flow, masks: &[u64]) -> u64
    requires count { length masks.now ≡ length flow.now.instrs.items }
    requires uses { length flow.now.uses.items ≡ length flow.now.instrs.items }
    ensures { AreFirstReads flow.now masks.now result }
{
    let mut first = 0;
    for p in 0..flow.instrs.len() {
        first = with_others(first, reads_at(flow, p), masks[p]);
    }
    first
}
