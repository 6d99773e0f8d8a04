ghost use Rattle.std.specs.Prelude.{ℕ, ◌≡◌, ◌==◌, ◌&&◌, ◌+◌, ◌<◌, ◌≤◌, ◌↔◌, ◌^◌, ◌+ℤ◌, ◌-ℤ◌, ◌*ℤ◌, ℤ, pos, Some, None, true, false, nat_lt, if◌then◌else◌, IsTrue, IfSome};
ghost use Rattle.rv64_decode.specs.Row.{signed32, signed64};
ghost use Rattle.linear_forms.specs.Forms.{constant_fits};
ghost use Rattle.loop_data.specs.Facts.{Fact, Number, ranged, short_of, fact_read, fact_sum, fact_difference, fact_short, fact_shifted, alu_fact, imm_fact, upper_fact, cell_fact, register_fact, store_fact, stored_fact, fact_past};
ghost use Rattle.loop_data.specs.Locations.{first_cell, target, writes_register, writes_cell, instr_writes};
ghost use Rattle.loop_data.specs.Lookups.{is_named, offset_from, fact_of, fact_in};

use crate::values::Value;
use linear_forms::Loc;
use rv64_decode::{AluOp, ImmOp, Instr, Reg, StoreOp, UpperOp};

/// The least number that no number of 32 bits reaches.
const LIMIT: i64 = 1 << 31;

/// Whether a location is named as one of a loop: a register but x0, or one of at most 16 cells.
pub fn is_named(loc: Loc) -> bool
    ensures { result ≡ is_named loc }
{
    match loc {
        Loc::Reg(r) => 1 <= r && r < 32,
        Loc::Cell(k) => k < 16,
    }
}

/// Whether it is a signed number of 32 bits.
fn is_short(number: i64) -> bool
    ensures { result ≡ constant_fits number }
{
    -LIMIT <= number && number < LIMIT
}

/// The number, where it is one of 32 bits.
fn known(number: i64) -> Value
    ensures { fact_of result ≡ ranged (Some (Number number)) }
{
    if is_short(number) {
        Value::Known(number.cast_unsigned())
    } else {
        Value::Nothing
    }
}

/// The value of a location at the header, and this number, where it is one of 32 bits.
fn based(loc: Loc, number: i64) -> Value
    ensures { fact_of result ≡ ranged (offset_from loc number) }
{
    if is_short(number) {
        Value::Base(loc, number.cast_unsigned())
    } else {
        Value::Nothing
    }
}

/// The sum of two known words.
fn known_sum(n: u64, m: u64) -> Value
    ensures { fact_of result ≡ ranged (Some (Number (signed64 n +ℤ signed64 m))) }
{
    match n.cast_signed().checked_add(m.cast_signed()) {
        Some(sum) => known(sum),
        None => Value::Nothing,
    }
}

/// The sum of a known word and a location's value with another.
fn based_sum(loc: Loc, n: u64, m: u64) -> Value
    ensures { fact_of result ≡ ranged (offset_from loc (signed64 n +ℤ signed64 m)) }
{
    match n.cast_signed().checked_add(m.cast_signed()) {
        Some(sum) => based(loc, sum),
        None => Value::Nothing,
    }
}

/// The difference of two known words.
fn known_difference(n: u64, m: u64) -> Value
    ensures { fact_of result ≡ ranged (Some (Number (signed64 n -ℤ signed64 m))) }
{
    match n.cast_signed().checked_sub(m.cast_signed()) {
        Some(difference) => known(difference),
        None => Value::Nothing,
    }
}

/// The difference of a location's value with a word, and a known one.
fn based_difference(loc: Loc, n: u64, m: u64) -> Value
    ensures { fact_of result ≡ ranged (offset_from loc (signed64 n -ℤ signed64 m)) }
{
    match n.cast_signed().checked_sub(m.cast_signed()) {
        Some(difference) => based(loc, difference),
        None => Value::Nothing,
    }
}

/// A known number plus any value, in either order.
fn sum(a: Value, b: Value) -> Value
    ensures { fact_of result ≡ ranged (fact_sum (fact_of a) (fact_of b)) }
{
    match (a, b) {
        (Value::Known(n), Value::Known(m)) => known_sum(n, m),
        (Value::Known(n), Value::Base(loc, m)) => based_sum(loc, n, m),
        (Value::Base(loc, n), Value::Known(m)) => based_sum(loc, n, m),
        _ => Value::Nothing,
    }
}

/// Any value minus a known number.
fn difference(a: Value, b: Value) -> Value
    ensures { fact_of result ≡ ranged (fact_difference (fact_of a) (fact_of b)) }
{
    match (a, b) {
        (Value::Known(n), Value::Known(m)) => known_difference(n, m),
        (Value::Base(loc, n), Value::Known(m)) => based_difference(loc, n, m),
        _ => Value::Nothing,
    }
}

/// The low half of a word, sign-extended.
fn short(word: u64) -> i64
    ensures { result ≡ signed32 word }
{
    ((word % (1 << 32)) as u32).cast_signed() as i64
}

/// A sum of which a known number is sign-extended from 32 bits.
fn short_sum(a: Value, b: Value) -> Value
    ensures { fact_of result ≡ ranged (fact_short (fact_sum (fact_of a) (fact_of b))) }
{
    match (a, b) {
        (Value::Known(n), Value::Known(m)) => known(short(n.wrapping_add(m))),
        (Value::Known(n), Value::Base(loc, m)) => based_sum(loc, n, m),
        (Value::Base(loc, n), Value::Known(m)) => based_sum(loc, n, m),
        _ => Value::Nothing,
    }
}

/// A difference of which a known number is sign-extended from 32 bits.
fn short_difference(a: Value, b: Value) -> Value
    ensures { fact_of result ≡ ranged (fact_short (fact_difference (fact_of a) (fact_of b))) }
{
    match (a, b) {
        (Value::Known(n), Value::Known(m)) => known(short(n.wrapping_sub(m))),
        (Value::Base(loc, n), Value::Known(m)) => based_difference(loc, n, m),
        _ => Value::Nothing,
    }
}

/// A known number times a power of two.
fn known_multiple(n: u64, by: i64) -> Value
    ensures { fact_of result ≡ ranged (Some (Number (by *ℤ signed64 n))) }
{
    match by.checked_mul(n.cast_signed()) {
        Some(product) => known(product),
        None => Value::Nothing,
    }
}

/// A known number, shifted left by up to 30.
fn shifted(a: Value, amount: i32) -> Value
    ensures { fact_of result ≡ ranged (fact_shifted (fact_of a) amount) }
{
    match a {
        Value::Known(n) => known_shifted(n, amount),
        _ => Value::Nothing,
    }
}

/// A known word, shifted left by up to 30.
fn known_shifted(n: u64, amount: i32) -> Value
    ensures { fact_of result ≡ ranged (fact_shifted (Some (Number (signed64 n))) amount) }
{
    if 0 <= amount && amount <= 30 {
        known_multiple(n, 2i64.pow(amount as u32))
    } else {
        Value::Nothing
    }
}

/// What a register reads.
fn read(values: &[Value; 48], r: Reg) -> Value
    ensures { fact_of result ≡ fact_read (fact_in values.now) r }
{
    if r.number() == 0 {
        Value::Known(0)
    } else {
        values[r.number() as usize]
    }
}

fn alu_value(op: AluOp, a: Value, b: Value) -> Value
    ensures { fact_of result ≡ alu_fact op (fact_of a) (fact_of b) }
{
    match op {
        AluOp::Add => sum(a, b),
        AluOp::Sub => difference(a, b),
        AluOp::Addw => short_sum(a, b),
        AluOp::Subw => short_difference(a, b),
        _ => Value::Nothing,
    }
}

fn imm_value(op: ImmOp, a: Value, imm: i32) -> Value
    ensures { fact_of result ≡ imm_fact op (fact_of a) imm }
{
    let number = Value::Known((imm as i64).cast_unsigned());
    match op {
        ImmOp::Addi => sum(a, number),
        ImmOp::Addiw => short_sum(a, number),
        ImmOp::Slli => shifted(a, imm),
        _ => Value::Nothing,
    }
}

fn upper_value(op: UpperOp, at: u64, imm: i32) -> Value
    ensures { fact_of result ≡ upper_fact op at imm }
{
    match op {
        UpperOp::Lui => known(imm as i64),
        UpperOp::Auipc => known(at.wrapping_add((imm as i64).cast_unsigned()).cast_signed()),
    }
}

/// What is known of a cell, if there is one.
fn cell_value(values: &[Value; 48], cell: Option<u8>) -> Value
    ensures { fact_of result ≡ cell_fact cell (fact_in values.now) }
{
    match cell {
        Some(k) if k < 16 => values[32 + k as usize],
        _ => Value::Nothing,
    }
}

/// What the instruction at an address writes to its register, out of the values before it. A load gives
/// what is known of the cell that it accesses.
fn register_value(at: u64, instr: &Instr, cell: Option<u8>, values: &[Value; 48]) -> Value
    ensures { fact_of result ≡ register_fact at instr.now cell (fact_in values.now) }
{
    match *instr {
        Instr::Alu {
            op,
            rd: _,
            rs1,
            rs2,
        } => alu_value(op, read(values, rs1), read(values, rs2)),
        Instr::AluImm {
            op,
            rd: _,
            rs1,
            imm,
        } => imm_value(op, read(values, rs1), imm),
        Instr::Upper { op, rd: _, imm } => upper_value(op, at, imm),
        Instr::Load {
            op: _,
            rd: _,
            rs1: _,
            imm: _,
        } => cell_value(values, cell),
        _ => Value::Nothing,
    }
}

/// The number of the register that an instruction writes, or 0.
pub fn target_of(instr: &Instr) -> u8
    ensures { result ≡ target instr.now }
{
    match *instr {
        Instr::Alu {
            op: _,
            rd,
            rs1: _,
            rs2: _,
        } => rd.number(),
        Instr::AluImm {
            op: _,
            rd,
            rs1: _,
            imm: _,
        } => rd.number(),
        Instr::Upper { op: _, rd, imm: _ } => rd.number(),
        Instr::Load {
            op: _,
            rd,
            rs1: _,
            imm: _,
        } => rd.number(),
        Instr::Jal { rd, imm: _ } => rd.number(),
        Instr::Jalr { rd, rs1: _, imm: _ } => rd.number(),
        _ => 0,
    }
}

/// What a store leaves in its cell of what it stores: of a known number the low 4 bytes, sign-extended, where
/// it stores no more.
fn store_value(op: StoreOp, a: Value) -> Value
    ensures { fact_of result ≡ store_fact op (fact_of a) }
{
    match (op, a) {
        (StoreOp::Sw, Value::Known(n)) => known(short(n)),
        (StoreOp::Sw, Value::Base(loc, n)) => based(loc, n.cast_signed()),
        _ => a,
    }
}

/// What an instruction writes to the cell that it accesses, out of the values before it.
fn stored_value(instr: &Instr, values: &[Value; 48]) -> Value
    ensures { fact_of result ≡ stored_fact instr.now (fact_in values.now) }
{
    match *instr {
        Instr::Store {
            op,
            rs1: _,
            rs2,
            imm: _,
        } => store_value(op, read(values, rs2)),
        _ => Value::Nothing,
    }
}

/// Whether an instruction is a store, and so writes the cell that it accesses.
pub fn is_store(instr: &Instr) -> bool
    ensures cell { (k r : ℕ) → writes_cell instr.now (Some k) r ≡ (result && (first_cell + k == r)) }
    ensures none { (r : ℕ) → writes_cell instr.now None r ≡ false }
    ensures register { result ≡ true → target instr.now ≡ 0 }
{
    match *instr {
        Instr::Store {
            op: _,
            rs1: _,
            rs2: _,
            imm: _,
        } => true,
        _ => false,
    }
}

/// Whether an instruction that accesses this cell, if any, writes the cell at a location.
fn writes_cell(instr: &Instr, cell: Option<u8>, r: usize) -> bool
    ensures { result ≡ writes_cell instr.now cell r }
{
    match (*instr, cell) {
        (
            Instr::Store {
                op: _,
                rs1: _,
                rs2: _,
                imm: _,
            },
            Some(k),
        ) => 32 + k as usize == r,
        _ => false,
    }
}

/// The location that an instruction that accesses this cell, if any, writes.
fn location_of(instr: &Instr, cell: Option<u8>) -> Option<usize>
    ensures some { IfSome result (λ r. instr_writes (Some instr.now) cell r ≡ true) }
    ensures only { (r : ℕ) → instr_writes (Some instr.now) cell r ≡ true → result ≡ Some r }
{
    if is_store(instr) {
        return match cell {
            Some(k) => Some(32 + k as usize),
            None => None,
        };
    }
    let r = target_of(instr);
    if 0 < r && r < 32 {
        Some(r as usize)
    } else {
        None
    }
}

/// Whether an instruction that accesses this cell, if any, writes a location.
pub fn instr_writes(instr: &Option<Instr>, cell: Option<u8>, r: usize) -> bool
    ensures { result ≡ instr_writes instr.now cell r }
{
    match instr {
        Some(instr) if r < 32 => r != 0 && target_of(instr) as usize == r,
        Some(instr) => writes_cell(instr, cell, r),
        None => false,
    }
}

/// The location that an instruction that accesses this cell, if any, writes. It writes at most one.
pub fn written_location(instr: &Option<Instr>, cell: Option<u8>) -> Option<usize>
    ensures some { IfSome result (λ r. instr_writes instr.now cell r ≡ true) }
    ensures only { (r : ℕ) → instr_writes instr.now cell r ≡ true → result ≡ Some r }
{
    match instr {
        Some(instr) => location_of(instr, cell),
        None => None,
    }
}

/// What is known of a location after a word that accesses this cell, if any, out of what is known before it.
pub fn value_after(
    at: u64,
    instr: &Option<Instr>,
    cell: Option<u8>,
    values: &[Value; 48],
    r: usize,
) -> Value
    requires { r < 48 }
    ensures { fact_of result ≡ fact_past at instr.now cell (fact_in values.now) r }
{
    if !instr_writes(instr, cell, r) {
        return values[r];
    }
    match instr {
        Some(instr) if r < 32 => register_value(at, instr, cell, values),
        Some(instr) => stored_value(instr, values),
        None => Value::Nothing,
    }
}

/// Sets what an instruction at an address writes to its register, if it writes one, out of the values before it.
fn set_register(
    after: &mut [Value; 48],
    at: u64,
    instr: &Instr,
    cell: Option<u8>,
    values: &[Value; 48],
)
    ensures { (r : ℕ) → r < 48 → fact_in after.new r
        ≡ (if (if nat_lt r 32 then writes_register instr.now r else false)
        then register_fact at instr.now cell (fact_in values.now) else fact_in after.old r) }
{
    let r = target_of(instr) as usize;
    if r != 0 && r < 32 {
        after[r] = register_value(at, instr, cell, values);
    }
}

/// Sets what an instruction writes to the cell that it accesses, if it writes it, out of the values before it.
fn set_cell(after: &mut [Value; 48], instr: &Instr, cell: u8, values: &[Value; 48])
    ensures { (r : ℕ) → r < 48 → fact_in after.new r
        ≡ (if (if nat_lt r 32 then false else writes_cell instr.now (Some cell) r)
        then stored_fact instr.now (fact_in values.now) else fact_in after.old r) }
{
    let r = 32 + cell as usize;
    if r < 48 && is_store(instr) {
        after[r] = stored_value(instr, values);
    }
}

/// Sets what an instruction at an address writes, which accesses this cell, if any, out of the values before it.
fn set_written(
    after: &mut [Value; 48],
    at: u64,
    instr: &Instr,
    cell: Option<u8>,
    values: &[Value; 48],
)
    ensures { (r : ℕ) → r < 48 → fact_in after.old r ≡ fact_in values.now r
        → fact_in after.new r ≡ fact_past at (Some instr.now) cell (fact_in values.now) r }
{
    set_register(after, at, instr, cell, values);
    if let Some(cell) = cell {
        set_cell(after, instr, cell, values);
    }
}

/// Sets what is known of each location to what is known after a word that accesses this cell, if any, out of what is
/// known before it.
pub fn set_after(
    after: &mut [Value; 48],
    at: u64,
    instr: &Option<Instr>,
    cell: Option<u8>,
    values: &[Value; 48],
)
    ensures { (r : ℕ) → r < 48 → fact_in after.new r ≡ fact_past at instr.now cell (fact_in values.now) r }
{
    *after = *values;
    if let Some(instr) = instr {
        set_written(after, at, instr, cell, values);
    }
}

/// Whether both stand for the same fact, and for one at all.
fn is_same(a: Value, b: Value) -> bool
    ensures yes { result ≡ true → fact_of a ≡ fact_of b }
    ensures no { result ≡ false → (x : Fact) → fact_of a ≡ Some x → ¬ (fact_of b ≡ Some x) }
{
    match (a, b) {
        (Value::Known(n), Value::Known(m)) => n.cast_signed() == m.cast_signed(),
        (Value::Base(p, n), Value::Base(q, m)) => {
            is_named(p) && p == q && n.cast_signed() == m.cast_signed()
        }
        _ => false,
    }
}

/// What two values have in common: a fact where both stand for it.
pub fn met(a: Value, b: Value) -> Value
    ensures { (x : Fact) → (fact_of result ≡ Some x) ↔ ((fact_of a ≡ Some x) × (fact_of b ≡ Some x)) }
{
    if is_same(a, b) { a } else { Value::Nothing }
}
