ghost use Rattle.loop_data.specs.Points.{point_at, form_in};
ghost use Rattle.std.specs.Prelude.{ℕ, ◌≡◌, ◌<◌, ◌≤◌, length, ◌^◌, ◌*ℤ◌, Option, Some, None, pos, ◌&&◌, if◌then◌else◌, true, false};
ghost use Rattle.rv64_decode.specs.Row.{signed32};
ghost use Rattle.linear_forms.specs.Forms.{LinearForm, limited, sum_of, difference, multiple, pure, word_of};
ghost use Rattle.loop_data.specs.Facts.{short_of, signed_of};
ghost use Rattle.loop_data.specs.FormRows.{form_read, form_sum, form_difference, form_multiple, form_shifted, form_product, is_pure, is_empty, is_factor, form_limited, form_short, form_owed, alu_form, imm_form, upper_form, cell_form, store_form, stored_form, alu_duty, imm_duty, store_duty, register_form, duty_by};
ghost use Rattle.register_equations.specs.Rows.{floating, at_constant, multiple_by, IsShortResult, IsFactor};

use linear_forms::{Form, Terms};
use loop_data::Points;
use rv64_decode::{AluOp, ImmOp, Instr, Reg, StoreOp, UpperOp};

/// What an instruction on words of 32 bits makes of a form.
#[derive(Drop)]
pub enum Short {
    /// A constant, sign-extended from 32 bits.
    Constant(i64),
    /// Another form, where it keeps to the limits. Its values have to be numbers of 32 bits.
    Other(Option<Form>),
}

/// The same form, if there is one.
pub fn copied(form: &Option<Form>) -> Option<Form>
    ensures { result ≡ form.now }
{
    match form {
        Some(f) => Some(f.copied()),
        None => None,
    }
}

/// The form that a register is read as at the word of a point: x0 is the constant 0.
pub fn read(points: &Points, k: usize, register: Reg) -> Option<Form>
    requires { k < length points.now }
    ensures { result ≡ form_read (form_in points.now k) register }
{
    let r = register.number() as usize;
    if r == 0 {
        Form::pure(0)
    } else {
        copied(points.form(k, r))
    }
}

/// Whether there are no terms.
fn has_none(terms: &Terms) -> bool
    ensures { result ≡ is_empty terms.now }
{
    terms.as_slice().is_empty()
}

/// Whether a form is a constant.
fn is_constant(f: &Form) -> bool
    ensures { result ≡ is_pure f.now }
{
    has_none(&f.terms) && f.turns[0] == 0 && f.turns[1] == 0 && f.turns[2] == 0
}

/// The form but for its constant.
fn floated(f: &Form) -> Form
    ensures { result ≡ floating f.now }
{
    Form {
        constant: 0,
        terms: f.terms.copied(),
        turns: f.turns,
    }
}

/// The form with another constant, or none where that passes the limits.
fn with_constant(f: Form, constant: i64) -> Option<Form>
    ensures { result ≡ limited (at_constant f constant) }
{
    if -(1 << 31) <= constant && constant < 1 << 31 {
        let turns = f.turns;
        Some(Form {
            constant,
            terms: f.terms,
            turns,
        })
    } else {
        None
    }
}

/// The low 32 bits of a word as a signed number.
fn low_half(word: u64) -> i64
    ensures { result ≡ signed32 word }
{
    ((word % (1 << 32)) as u32).cast_signed() as i64
}

/// What becomes of a form on words of 32 bits, by the form but for its constant, if that keeps to the
/// limits, and its constant.
fn shortened(rest: Option<Form>, constant: i64) -> Short
    ensures { (f : LinearForm) → rest ≡ limited (floating f) → constant ≡ f.constant → IsShortResult result (Some f) }
{
    match rest {
        Some(form) => {
            if is_constant(&form) {
                Short::Constant(low_half(constant.cast_unsigned()))
            } else {
                Short::Other(with_constant(form, constant))
            }
        }
        None => Short::Other(None),
    }
}

/// The form that an instruction on words of 32 bits writes.
fn written(short: Short) -> Option<Form>
    ensures { (o : Option LinearForm) → IsShortResult short o → result ≡ form_short o }
{
    match short {
        Short::Constant(constant) => Form::pure(constant),
        Short::Other(form) => form,
    }
}

/// The form whose values have to be numbers of 32 bits.
fn owed(short: Short) -> Option<Form>
    ensures { (o : Option LinearForm) → IsShortResult short o → result ≡ form_owed o }
{
    match short {
        Short::Constant(_) => None,
        Short::Other(form) => form,
    }
}

/// The sum of two forms on words of 32 bits.
fn short_sum(f: &Option<Form>, g: &Option<Form>) -> Short
    ensures { IsShortResult result (form_sum f.now g.now) }
{
    match (f, g) {
        (Some(f), Some(g)) => shortened(floated(f).add(&floated(g)), f.constant + g.constant),
        _ => Short::Other(None),
    }
}

/// The difference of two forms on words of 32 bits.
fn short_difference(f: &Option<Form>, g: &Option<Form>) -> Short
    ensures { IsShortResult result (form_difference f.now g.now) }
{
    match (f, g) {
        (Some(f), Some(g)) => shortened(floated(f).sub(&floated(g)), f.constant - g.constant),
        _ => Short::Other(None),
    }
}

/// The constant that a form is, where a form may be multiplied by it.
fn factor(f: &Form) -> Option<i64>
    ensures { IsFactor result f.now }
{
    if is_constant(f) && -(1 << 30) < f.constant && f.constant < 1 << 30 {
        Some(f.constant)
    } else {
        None
    }
}

/// The number by which a shift multiplies, if it is by at most 30.
fn power(amount: i32) -> Option<i64>
    ensures { (o : Option LinearForm) → form_shifted o amount ≡ multiple_by result o }
{
    if 0 <= amount && amount <= 30 {
        Some(2i64.pow(amount as u32))
    } else {
        None
    }
}

/// The multiple of a form.
fn scaled(f: &Option<Form>, by: i64) -> Option<Form>
    ensures { result ≡ form_limited (form_multiple by f.now) }
{
    match f {
        Some(f) => f.scale(by),
        None => None,
    }
}

/// The product of two forms, of which one is a factor.
fn product(f: &Option<Form>, g: &Option<Form>) -> Option<Form>
    ensures { result ≡ form_limited (form_product f.now g.now) }
{
    match (f, g) {
        (Some(f), Some(g)) => match factor(g) {
            Some(by) => f.scale(by),
            None => match factor(f) {
                Some(by) => g.scale(by),
                None => None,
            },
        },
        _ => None,
    }
}

/// The sum of two forms.
fn sum(f: &Option<Form>, g: &Option<Form>) -> Option<Form>
    ensures { result ≡ form_limited (form_sum f.now g.now) }
{
    match (f, g) {
        (Some(f), Some(g)) => f.add(g),
        _ => None,
    }
}

/// The difference of two forms.
fn gap(f: &Option<Form>, g: &Option<Form>) -> Option<Form>
    ensures { result ≡ form_limited (form_difference f.now g.now) }
{
    match (f, g) {
        (Some(f), Some(g)) => f.sub(g),
        _ => None,
    }
}

/// A form shifted left by up to 30.
fn shifted(f: &Option<Form>, amount: i32) -> Option<Form>
    ensures { result ≡ form_limited (form_shifted f.now amount) }
{
    match power(amount) {
        Some(by) => scaled(f, by),
        None => None,
    }
}

/// Whether a multiple is a constant, whatever its size.
fn is_constant_multiple(f: &Form, by: i64) -> bool
    ensures { result ≡ is_pure (multiple by f.now) }
{
    match floated(f).scale(by) {
        Some(form) => is_constant(&form),
        None => false,
    }
}

/// The constant of a multiple, as a word.
fn multiple_word(f: &Form, by: i64) -> u64
    ensures { result ≡ word_of (by *ℤ f.now.constant) }
{
    let constant = f.constant.cast_unsigned();
    by.cast_unsigned().wrapping_mul(constant)
}

/// The multiple of a form on words of 32 bits.
fn short_multiple(f: &Option<Form>, by: i64) -> Short
    ensures { IsShortResult result (form_multiple by f.now) }
{
    match f {
        Some(f) => {
            if is_constant_multiple(f, by) {
                Short::Constant(low_half(multiple_word(f, by)))
            } else {
                Short::Other(f.scale(by))
            }
        }
        None => Short::Other(None),
    }
}

/// The product of two forms on words of 32 bits, of which one is a factor.
fn short_product(f: &Option<Form>, g: &Option<Form>) -> Short
    ensures { IsShortResult result (form_product f.now g.now) }
{
    match (f, g) {
        (Some(x), Some(y)) => match factor(y) {
            Some(by) => short_multiple(f, by),
            None => match factor(x) {
                Some(by) => short_multiple(g, by),
                None => Short::Other(None),
            },
        },
        _ => Short::Other(None),
    }
}

/// A form shifted left by up to 30, on words of 32 bits.
fn short_shifted(f: &Option<Form>, amount: i32) -> Short
    ensures { IsShortResult result (form_shifted f.now amount) }
{
    match power(amount) {
        Some(by) => short_multiple(f, by),
        None => Short::Other(None),
    }
}

/// A form on words of 32 bits.
fn short_form(f: &Option<Form>) -> Short
    ensures { IsShortResult result f.now }
{
    match f {
        Some(f) => shortened(with_constant(f.copied(), 0), f.constant),
        None => Short::Other(None),
    }
}

/// An immediate as a form.
fn immediate(imm: i32) -> Option<Form>
    ensures { result ≡ Some (pure imm) }
{
    Form::pure(imm as i64)
}

/// The form that an operation on two registers writes.
fn alu(op: AluOp, f: &Option<Form>, g: &Option<Form>) -> Option<Form>
    ensures { result ≡ alu_form op f.now g.now }
{
    match op {
        AluOp::Add => sum(f, g),
        AluOp::Sub => gap(f, g),
        AluOp::Mul => product(f, g),
        AluOp::Addw => written(short_sum(f, g)),
        AluOp::Subw => written(short_difference(f, g)),
        AluOp::Mulw => written(short_product(f, g)),
        _ => None,
    }
}

/// The form that an operation on two registers writes, where its values have to be numbers of 32 bits.
fn alu_owed(op: AluOp, f: &Option<Form>, g: &Option<Form>) -> Option<Form>
    ensures { result ≡ alu_duty op f.now g.now }
{
    match op {
        AluOp::Addw => owed(short_sum(f, g)),
        AluOp::Subw => owed(short_difference(f, g)),
        AluOp::Mulw => owed(short_product(f, g)),
        _ => None,
    }
}

/// The form that an operation on a register and an immediate writes.
fn alu_imm(op: ImmOp, f: &Option<Form>, imm: i32) -> Option<Form>
    ensures { result ≡ imm_form op f.now imm }
{
    match op {
        ImmOp::Addi => sum(f, &immediate(imm)),
        ImmOp::Slli => shifted(f, imm),
        ImmOp::Addiw => written(short_sum(f, &immediate(imm))),
        ImmOp::Slliw => written(short_shifted(f, imm)),
        _ => None,
    }
}

/// The form that an operation on a register and an immediate writes, where its values have to be numbers
/// of 32 bits.
fn alu_imm_owed(op: ImmOp, f: &Option<Form>, imm: i32) -> Option<Form>
    ensures { result ≡ imm_duty op f.now imm }
{
    match op {
        ImmOp::Addiw => owed(short_sum(f, &immediate(imm))),
        ImmOp::Slliw => owed(short_shifted(f, imm)),
        _ => None,
    }
}

/// The form that an operation with an upper immediate writes, where its word stands at this address.
fn upper(op: UpperOp, at: u64, imm: i32) -> Option<Form>
    ensures { result ≡ upper_form op at imm }
{
    match op {
        UpperOp::Lui => Form::pure(imm as i64),
        UpperOp::Auipc => {
            let sum = at.wrapping_add((imm as i64).cast_unsigned());
            Form::pure(sum.cast_signed())
        }
    }
}

/// The form of a cell, if there is one.
fn cell_form(points: &Points, k: usize, cell: Option<u8>) -> Option<Form>
    requires place { k < length points.now }
    requires count { length (point_at points.now k).forms ≡ 48 }
    ensures { result ≡ cell_form cell (form_in points.now k) }
{
    match cell {
        Some(c) if c < 16 => copied(points.form(k, 32 + c as usize)),
        _ => None,
    }
}

/// The form that the instruction of a point, which accesses this cell, if any, writes to its register. A load gives the
/// form of the cell.
pub fn register(instr: Instr, cell: Option<u8>, points: &Points, k: usize) -> Option<Form>
    requires { k < length points.now }
    ensures { result ≡ register_form (point_at points.now k).at instr cell (form_in points.now k) }
{
    let at = points.at(k);
    match instr {
        Instr::Alu { op, rs1, rs2, .. } => alu(op, &read(points, k, rs1), &read(points, k, rs2)),
        Instr::AluImm { op, rs1, imm, .. } => alu_imm(op, &read(points, k, rs1), imm),
        Instr::Upper { op, imm, .. } => upper(op, at, imm),
        Instr::Load { .. } => cell_form(points, k, cell),
        _ => None,
    }
}

/// The form that a store leaves in its cell of the form of what it stores: in a cell of 4 bytes a constant is
/// sign-extended.
fn store(op: StoreOp, f: Option<Form>) -> Option<Form>
    ensures { result ≡ store_form op f }
{
    match op {
        StoreOp::Sw => written(short_form(&f)),
        _ => f,
    }
}

/// The form that a store leaves in its cell, where its values have to be numbers of 32 bits.
fn store_owed(op: StoreOp, f: &Option<Form>) -> Option<Form>
    ensures { result ≡ store_duty op f.now }
{
    match op {
        StoreOp::Sw => owed(short_form(f)),
        _ => None,
    }
}

/// The form that an instruction writes to the cell that it accesses, out of the forms of a point.
pub fn stored(instr: Instr, points: &Points, k: usize) -> Option<Form>
    requires { k < length points.now }
    ensures { result ≡ stored_form instr (form_in points.now k) }
{
    match instr {
        Instr::Store { op, rs2, .. } => store(op, read(points, k, rs2)),
        _ => None,
    }
}

/// The form that an instruction, which accesses this cell, if any, writes where its values have to be numbers of
/// 32 bits, out of the forms of a point.
pub fn duty_of(instr: Instr, cell: Option<u8>, points: &Points, k: usize) -> Option<Form>
    requires { k < length points.now }
    ensures { result ≡ duty_by instr cell (form_in points.now k) }
{
    match instr {
        Instr::Alu { op, rd, rs1, rs2 } => {
            if rd.number() == 0 {
                None
            } else {
                alu_owed(op, &read(points, k, rs1), &read(points, k, rs2))
            }
        }
        Instr::AluImm { op, rd, rs1, imm } => {
            if rd.number() == 0 {
                None
            } else {
                alu_imm_owed(op, &read(points, k, rs1), imm)
            }
        }
        Instr::Store { op, rs2, .. } => match cell {
            Some(_) => store_owed(op, &read(points, k, rs2)),
            None => None,
        },
        _ => None,
    }
}
