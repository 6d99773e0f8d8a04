ghost use Rattle.std.specs.Prelude.{◌≡◌, ◌+◌, ◌-◌, ◌*◌, ◌<◌, ◌≤◌, ◌^◌, ℕ, List, [], ◌∷◌, IfOk, IfSome, pos};
ghost use Rattle.std.specs.List.{All};
ghost use Rattle.rv64_decode.specs.Form.{IsSigned, IsMultiple};
ghost use Rattle.rv64_decode.specs.XForm.{InFormX};
ghost use Rattle.rv64_decode.specs.declared.instr.BranchOp.{BranchOp};
ghost use Rattle.linear_forms.specs.Locations.{number_of, IsLocation, term_of, terms_of};
ghost use Rattle.stub_laws.specs.Code.{Appended, open_jump};
ghost use Rattle.stub_laws.specs.Locations.{slot_of};
ghost use Rattle.check_numbers.specs.Parts.{low_part, high_part};
ghost use Rattle.check_code.specs.Macros.{number_code, bring, product_code, term_code, sum_code, form_code, span_code, fall_code, rise_code, low_code, high_code, offset_code, address_code, need_code};
ghost use Rattle.check_code.specs.Laws.{HasOffset};

use linear_forms::{Form, Loc};
use loop_data::Cell;
use rv64_decode::{AluOp, BranchOp, ImmOp, Instr, Reg, UpperOp, XInstr, encode_x};
use std::alloc::AllocError;

/// Appends the word of an instruction, whose immediate or slot has to be in its form.
pub fn push(code: &mut Vec<u32>, i: XInstr) -> Result<(), AllocError>
    requires { InFormX i }
    ensures { IfOk result (λ u. Appended code.old.items code.new.items (i ∷ [])) }
{
    match encode_x(i) {
        Some(word) => code.push(word)?,
        None => {}
    }
    Ok(())
}

/// The low 12 bits of a number, as a signed number.
fn low_of(v: i64) -> i32
    ensures value { result ≡ low_part v }
    ensures form { IsSigned 12 result }
{
    let low = v.cast_unsigned() % 0x1000;
    if low < 0x800 {
        low as i32
    } else {
        low as i32 - 0x1000
    }
}

/// What is left of a number, a multiple of 4096.
fn high_of(v: i64) -> i32
    ensures value { result ≡ high_part v }
    ensures form { IsMultiple 12 result }
{
    let word = (v.cast_unsigned() % 0x1_0000_0000) as u32;
    (word.wrapping_add(0x800) / 0x1000 * 0x1000).cast_signed()
}

/// Appends a signed number of 32 bits into a register, in two words (`lui` and `addiw`). The words of a number
/// beyond these make another one.
pub fn push_number(code: &mut Vec<u32>, r: Reg, v: i64) -> Result<(), AllocError>
    ensures { IfOk result (λ u. Appended code.old.items code.new.items (number_code r v)) }
{
    let upper = Instr::Upper {
        op: UpperOp::Lui,
        rd: r,
        imm: high_of(v),
    };
    push(code, XInstr::Base(upper))?;
    let lower = Instr::AluImm {
        op: ImmOp::Addiw,
        rd: r,
        rs1: r,
        imm: low_of(v),
    };
    push(code, XInstr::Base(lower))?;
    Ok(())
}

/// The slot that keeps the entry value of a register that added code works with.
fn slot_of_register(number: u8) -> Option<u8>
    requires { number < 32 }
    ensures value { result ≡ slot_of number }
    ensures below { IfSome result (λ s. s < 32) }
{
    match number {
        5 => Some(16),
        6 => Some(17),
        7 => Some(18),
        28 => Some(19),
        29 => Some(20),
        30 => Some(21),
        31 => Some(22),
        _ => None,
    }
}

/// Appends the entry value of a register into register `r`, in one word.
pub fn push_register(code: &mut Vec<u32>, r: Reg, number: u8) -> Result<(), AllocError>
    requires { number < 32 }
    ensures { IfOk result (λ u. Appended code.old.items code.new.items (bring r number ∷ [])) }
{
    let i = match slot_of_register(number) {
        Some(slot) => XInstr::Get { rd: r, slot },
        None => XInstr::Base(Instr::AluImm {
            op: ImmOp::Addi,
            rd: r,
            rs1: Reg::new(number),
            imm: 0,
        }),
    };
    push(code, i)
}

/// Appends the entry value of a location into register `r`, in one word.
pub fn push_location(code: &mut Vec<u32>, r: Reg, loc: Loc) -> Result<(), AllocError>
    requires { IsLocation loc }
    ensures { IfOk result (λ u. Appended code.old.items code.new.items (bring r (number_of loc) ∷ [])) }
{
    match loc {
        Loc::Reg(number) => push_register(code, r, number),
        Loc::Cell(slot) => push(code, XInstr::Get { rd: r, slot }),
    }
}

/// Appends what adds so many times x31 to register `r`, in four words.
fn push_product(code: &mut Vec<u32>, r: Reg, by: i64) -> Result<(), AllocError>
    ensures { IfOk result (λ u. Appended code.old.items code.new.items (product_code r by)) }
{
    push_number(code, Reg::new(30), by)?;
    let product = Instr::Alu {
        op: AluOp::Mul,
        rd: Reg::new(31),
        rs1: Reg::new(31),
        rs2: Reg::new(30),
    };
    push(code, XInstr::Base(product))?;
    let sum = Instr::Alu {
        op: AluOp::Add,
        rd: r,
        rs1: r,
        rs2: Reg::new(31),
    };
    push(code, XInstr::Base(sum))?;
    Ok(())
}

/// Appends what adds a term to register `r`, in five words.
fn push_term(code: &mut Vec<u32>, r: Reg, term: &(Loc, i64)) -> Result<(), AllocError>
    requires { IsLocation term.now.0 }
    ensures { IfOk result (λ u. Appended code.old.items code.new.items (term_code r (term_of term.now))) }
{
    push_location(code, Reg::new(31), term.0)?;
    let by = term.1;
    push_product(code, r, by)?;
    Ok(())
}

/// Appends what adds the terms to register `r`, in five words for each.
fn push_sum(code: &mut Vec<u32>, r: Reg, terms: &[(Loc, i64)]) -> Result<(), AllocError>
    requires { All (λ t. IsLocation t.0) terms.now }
    ensures { IfOk result (λ u. Appended code.old.items code.new.items (sum_code r (terms_of terms.now))) }
{
    for term in terms {
        push_term(code, r, term)?;
    }
    Ok(())
}

/// Appends a form's value at turn numbers 0 into register `r`, in two words and five for each term. It
/// works with x30 and x31.
pub fn push_form(code: &mut Vec<u32>, r: Reg, f: &Form) -> Result<(), AllocError>
    ensures { IfOk result (λ u. Appended code.old.items code.new.items (form_code r f.now)) }
{
    push_number(code, r, f.constant)?;
    push_sum(code, r, f.terms.as_slice())?;
    Ok(())
}

/// Appends what adds so many times a slot's word to register `r`, in five words. It works with x30 and x31.
pub fn push_span(code: &mut Vec<u32>, r: Reg, by: i64, slot: u8) -> Result<(), AllocError>
    requires { slot < 32 }
    ensures { IfOk result (λ u. Appended code.old.items code.new.items (span_code r by slot)) }
{
    let rd = Reg::new(31);
    push(code, XInstr::Get { rd, slot })?;
    push_product(code, r, by)?;
    Ok(())
}

/// Appends a span where the stride lowers the form.
fn push_fall(code: &mut Vec<u32>, r: Reg, by: i64, slot: u8) -> Result<(), AllocError>
    requires { slot < 32 }
    ensures { IfOk result (λ u. Appended code.old.items code.new.items (fall_code r by slot)) }
{
    if by < 0 {
        return push_span(code, r, by, slot);
    }
    Ok(())
}

/// Appends a span where the stride raises the form.
fn push_rise(code: &mut Vec<u32>, r: Reg, by: i64, slot: u8) -> Result<(), AllocError>
    requires { slot < 32 }
    ensures { IfOk result (λ u. Appended code.old.items code.new.items (rise_code r by slot)) }
{
    if by > 0 {
        return push_span(code, r, by, slot);
    }
    Ok(())
}

/// Appends a form's least value into register `r`, where `slots` have the last turn numbers of its levels.
pub fn push_low(code: &mut Vec<u32>, r: Reg, f: &Form, slots: [u8; 3]) -> Result<(), AllocError>
    requires { All (λ s. s < 32) slots }
    ensures { IfOk result (λ u. Appended code.old.items code.new.items (low_code r f.now slots)) }
{
    push_form(code, r, f)?;
    push_fall(code, r, f.turns[0], slots[0])?;
    push_fall(code, r, f.turns[1], slots[1])?;
    push_fall(code, r, f.turns[2], slots[2])?;
    Ok(())
}

/// Appends a form's greatest value and so many bytes more into register `r`, by the same slots.
pub fn push_high(
    code: &mut Vec<u32>,
    r: Reg,
    f: &Form,
    slots: [u8; 3],
    size: u32,
) -> Result<(), AllocError>
    requires slots { All (λ s. s < 32) slots }
    requires size { size < 2 ^ 11 }
    ensures { IfOk result (λ u. Appended code.old.items code.new.items (high_code r f.now slots size)) }
{
    push_form(code, r, f)?;
    push_rise(code, r, f.turns[0], slots[0])?;
    push_rise(code, r, f.turns[1], slots[1])?;
    push_rise(code, r, f.turns[2], slots[2])?;
    push_offset(code, r, size as i64)?;
    Ok(())
}

/// Appends what adds an offset of 12 bits to register `r`.
fn push_offset(code: &mut Vec<u32>, r: Reg, offset: i64) -> Result<(), AllocError>
    requires { IsSigned 12 offset }
    ensures { IfOk result (λ u. Appended code.old.items code.new.items (offset_code r offset)) }
{
    let sum = Instr::AluImm {
        op: ImmOp::Addi,
        rd: r,
        rs1: r,
        imm: offset as i32,
    };
    push(code, XInstr::Base(sum))
}

/// Appends the address of a cell into register `r`, in two words.
pub fn push_address(code: &mut Vec<u32>, r: Reg, c: &Cell) -> Result<(), AllocError>
    requires { HasOffset c.now.base c.now.offset }
    ensures { IfOk result (λ u. Appended code.old.items code.new.items (address_code r c.now)) }
{
    let offset = c.offset;
    match c.base {
        Some(base) => {
            push_register(code, r, base)?;
            push_offset(code, r, offset)?;
            Ok(())
        }
        None => push_number(code, r, offset),
    }
}

/// Appends the jump whose target is open.
pub fn push_open(code: &mut Vec<u32>) -> Result<(), AllocError>
    ensures { IfOk result (λ u. Appended code.old.items code.new.items (open_jump ∷ [])) }
{
    let open = Instr::Jal {
        rd: Reg::new(0),
        imm: 0,
    };
    push(code, XInstr::Base(open))
}

/// Appends a branch that is needed, in two words: they go on where it is taken, and to the open target
/// elsewhere.
pub fn push_need(code: &mut Vec<u32>, op: BranchOp, rs1: Reg, rs2: Reg) -> Result<(), AllocError>
    ensures { IfOk result (λ u. Appended code.old.items code.new.items (need_code op rs1 rs2)) }
{
    let over = Instr::Branch {
        op,
        rs1,
        rs2,
        imm: 8,
    };
    push(code, XInstr::Base(over))?;
    push_open(code)?;
    Ok(())
}
