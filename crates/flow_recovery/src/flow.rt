ghost use Rattle.std.specs.Prelude.{◌≡◌, ℕ, Option, None, false};
ghost use Rattle.elf_image.specs.Layout.{IsLoadable};
ghost use Rattle.rv64_decode.specs.Row.{plus_offset, next_pc};
ghost use Rattle.rv64_decode.specs.declared.instr.Instr.{Instr as Shown};
ghost use Rattle.loop_data.specs.Code.{word_at};
ghost use Rattle.loop_data.specs.Targets.{before, instr_of, instr_at, asks_exit, targets_by, targets_outside, targets_at, pair_by, pair_at};
ghost use Rattle.flow_recovery.specs.Flows.{targets_in};

use crate::code::word_at;
use elf_image::Elf;
use rv64_decode::{ImmOp, Instr, UpperOp, decode};

/// Where a word leads.
#[derive(Clone, Copy, PartialEq, Eq, Debug)]
pub enum Flow {
    /// Nowhere that is known.
    Stop,
    /// To the next word.
    On,
    /// To the next word and to a target.
    Branch(u64),
    /// To a target alone.
    Jump(u64),
    /// To the next word, and to a target as a call.
    Call(u64),
}

// An address and a signed number, modulo 2^64.
fn plus_offset(at: u64, imm: i32) -> u64
    ensures { result ≡ plus_offset at imm }
{
    at.wrapping_add_signed(i64::from(imm))
}

// The address of the next word.
pub(crate) fn next(at: u64) -> u64
    ensures { result ≡ next_pc at }
{
    at.wrapping_add(4)
}

// The address of the word before.
pub(crate) fn before(at: u64) -> u64
    ensures { result ≡ before at }
{
    at.wrapping_sub(4)
}

// The instruction that a word stands for.
#[tactic(auto, unfolding(loop_data::specs::Targets::instr_of))]
fn instr_of(word: u32) -> Option<Instr>
    ensures { result ≡ instr_of word }
{
    decode(word)
}

// The instruction at an address.
#[tactic(auto, unfolding(loop_data::specs::Targets::instr_at))]
fn instr_at(elf: &Elf, at: u64) -> Option<Instr>
    requires { IsLoadable elf.now }
    ensures { result ≡ instr_at elf.now at }
{
    match word_at(elf, at) {
        Some(word) => instr_of(word),
        None => None,
    }
}

// Whether an instruction is addi a7, x0, 93 or addi a7, x0, 94.
fn asks_exit(instr: &Option<Instr>) -> bool
    ensures { result ≡ asks_exit instr.now }
{
    let Some(
        Instr::AluImm {
            op: ImmOp::Addi,
            rd,
            rs1,
            imm,
        },
    ) = *instr
    else {
        return false;
    };
    rd.number() == 17 && rs1.number() == 0 && (imm == 93 || imm == 94)
}

// Where an instruction leads.
fn flow_by(instr: &Instr, at: u64, ends: bool, pair: Option<u64>) -> Flow
    ensures { targets_in at result ≡ targets_by instr.now at ends pair }
{
    match *instr {
        Instr::Branch { imm, .. } => Flow::Branch(plus_offset(at, imm)),
        Instr::Jal { rd, imm } => {
            let target = plus_offset(at, imm);
            if rd.number() == 0 {
                Flow::Jump(target)
            } else {
                Flow::Call(target)
            }
        }
        Instr::Jalr { rd, .. } => match (pair, rd.number() == 0) {
            (Some(target), true) => Flow::Jump(target),
            (Some(target), false) => Flow::Call(target),
            (None, true) => Flow::Stop,
            (None, false) => Flow::On,
        },
        Instr::Ecall if ends => Flow::Stop,
        Instr::Ebreak => Flow::Stop,
        _ => Flow::On,
    }
}

// Whether an instruction at an address is an ecall that ends the program.
fn ends_at(elf: &Elf, instr: &Instr, at: u64) -> bool
    requires { IsLoadable elf.now }
    ensures { (pair : Option ℕ) → targets_by instr.now at result pair
        ≡ targets_by instr.now at (asks_exit (instr_at elf.now (before at))) pair }
{
    match *instr {
        Instr::Ecall => asks_exit(&instr_at(elf, before(at))),
        _ => false,
    }
}

// Where a word outside the table leads.
fn flow_outside(word: u32) -> Flow
    ensures { (at : ℕ) → targets_in at result ≡ targets_outside word at }
{
    if word % 4 == 3 && word / 4 % 8 != 7 {
        Flow::On
    } else {
        Flow::Stop
    }
}

// Where the word at an address leads. A pair that it ends is told by its target.
#[tactic(auto, unfolding(loop_data::specs::Targets::targets_at))]
pub(crate) fn flow_at(elf: &Elf, pair: Option<u64>, at: u64) -> Flow
    requires { IsLoadable elf.now }
    ensures { targets_in at result ≡ targets_at elf.now pair at }
{
    match word_at(elf, at) {
        None => Flow::Stop,
        Some(word) => match instr_of(word) {
            None => flow_outside(word),
            Some(instr) => flow_by(&instr, at, ends_at(elf, &instr, at), pair),
        },
    }
}

// The target of an auipc and a jalr, the jalr at this address.
fn pair_by(first: &Instr, second: &Instr, at: u64) -> Option<u64>
    ensures { result ≡ pair_by first.now second.now at }
{
    let Instr::Upper {
        op: UpperOp::Auipc,
        rd: base,
        imm: high,
    } = *first
    else {
        return None;
    };
    let Instr::Jalr { rs1, imm: low, .. } = *second else {
        return None;
    };
    if base.number() != rs1.number() {
        return None;
    }
    let target = plus_offset(plus_offset(before(at), high), low);
    Some(target - target % 2)
}

// Whether an instruction is a jalr: no other ends a pair.
fn is_jalr(instr: &Instr) -> bool
    ensures { (first : Shown) (at : ℕ) → result ≡ false → pair_by first instr.now at ≡ None }
{
    matches!(*instr, Instr::Jalr { .. })
}

// The target of the pair that ends at an address, if one does.
#[tactic(auto, unfolding(loop_data::specs::Targets::pair_at))]
pub(crate) fn pair_at(elf: &Elf, at: u64) -> Option<u64>
    requires { IsLoadable elf.now }
    ensures { result ≡ pair_at elf.now at }
{
    let second = instr_at(elf, at)?;
    if !is_jalr(&second) {
        return None;
    }
    let first = instr_at(elf, before(at))?;
    pair_by(&first, &second, at)
}
