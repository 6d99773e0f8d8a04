ghost use Rattle.std.specs.Prelude.{◌≡◌, ◌≤◌, ◌+ℤ◌, pos, filter, find, take, slice_get, length, IfOk, None, Some, is_some};
ghost use Rattle.linear_forms.specs.Forms.{constant_fits};
ghost use Rattle.loop_data.specs.Accesses.{motion_of};
ghost use Rattle.stack_slots.specs.CellRules.{is_far, is_far_auipc, is_other_access, is_short_alu, is_short_imm, is_sw, is_short_word, may_owe, is_mixed, is_plain, is_mixed_later, first_uses, limit_at, limit_of, mixed_at, fault_of};
ghost use Rattle.stack_slots.specs.declared.words.BodyWord.{BodyWord};

use crate::uses::{is_mixed, is_plain, uses_cell};
use crate::words::BodyWord;
use loop_data::Verdict;
use rv64_decode::{AluOp, ImmOp, Instr, StoreOp, UpperOp};
use std::alloc::{AllocError, Global};

/// The least number that no number of 32 bits reaches.
const LIMIT: i64 = 1 << 31;

/// How many cells a loop may have.
const MOST_CELLS: usize = 16;

/// How many other accesses a loop may have.
const MOST_ACCESSES: usize = 32;

/// How many words of a loop may owe a range.
const MOST_DUTIES: usize = 32;

/// Whether it is a signed number of 32 bits.
fn fits(number: i64) -> bool
    ensures { result ≡ constant_fits number }
{
    -LIMIT <= number && number < LIMIT
}

/// Whether a word is an auipc whose value is no signed number of 32 bits.
fn is_far_auipc(word: &BodyWord) -> bool
    ensures { result ≡ is_far_auipc word.now }
{
    match word.instr {
        Some(
            Instr::Upper {
                op: UpperOp::Auipc,
                rd: _,
                imm,
            },
        ) => !fits(
            word.at
                .wrapping_add((imm as i64).cast_unsigned())
                .cast_signed(),
        ),
        _ => false,
    }
}

/// Whether a word is a load or a store.
fn is_access(word: &BodyWord) -> bool
    ensures { result ≡ is_some (motion_of word.now.instr) }
{
    match word.instr {
        Some(Instr::Load { .. }) => true,
        Some(Instr::Store { .. }) => true,
        _ => false,
    }
}

/// Whether a word is a load or a store that accesses no cell.
fn is_other_access(word: &BodyWord) -> bool
    ensures { result ≡ is_other_access word.now }
{
    is_access(word) && !uses_cell(word)
}

/// Whether an operation on registers may owe a range.
fn is_short_alu(op: AluOp) -> bool
    ensures { result ≡ is_short_alu op }
{
    match op {
        AluOp::Addw | AluOp::Subw | AluOp::Mulw => true,
        _ => false,
    }
}

/// Whether an operation with an immediate may owe a range.
fn is_short_imm(op: ImmOp) -> bool
    ensures { result ≡ is_short_imm op }
{
    match op {
        ImmOp::Addiw | ImmOp::Slliw => true,
        _ => false,
    }
}

/// Whether a store writes a word of 32 bits.
fn is_sw(op: StoreOp) -> bool
    ensures { result ≡ is_sw op }
{
    match op {
        StoreOp::Sw => true,
        _ => false,
    }
}

/// Whether a word may owe a range: a sum, a shift or a product of 32 bits, or a store to a cell of 4 bytes.
fn may_owe(word: &BodyWord) -> bool
    ensures { result ≡ may_owe word.now }
{
    match word.instr {
        Some(
            Instr::Alu {
                op,
                rd: _,
                rs1: _,
                rs2: _,
            },
        ) => is_short_alu(op),
        Some(
            Instr::AluImm {
                op,
                rd: _,
                rs1: _,
                imm: _,
            },
        ) => is_short_imm(op),
        Some(
            Instr::Store {
                op,
                rs1: _,
                rs2: _,
                imm: _,
            },
        ) => is_sw(op) && uses_cell(word),
        _ => false,
    }
}

/// The limit at the first auipc that is far.
fn far_limit(words: &[BodyWord]) -> Option<Verdict>
    ensures { result ≡ limit_at (find is_far_auipc words.now) }
{
    for word in words {
        if is_far_auipc(word) {
            return Some(Verdict::Limit { at: word.at });
        }
    }
    None
}

/// The limit at the word of this place, if there are so many.
fn limit_past(words: &[BodyWord], most: usize) -> Option<Verdict>
    ensures limit { result ≡ limit_at (slice_get words.now most) }
    ensures few { result ≡ None → length words.now ≤ most }
{
    if most < words.len() {
        return Some(Verdict::Limit { at: words[most].at });
    }
    None
}

/// The loads and stores that access no cell.
fn other_accesses(alloc: Global, words: &[BodyWord]) -> Result<Vec<BodyWord>, AllocError>
    ensures { IfOk result (λ v. v.items ≡ filter is_other_access words.now) }
{
    let mut found = Vec::new(alloc);
    for word in words {
        if is_other_access(word) {
            found.push(*word)?;
        }
    }
    Ok(found)
}

/// The words that may owe a range.
fn owing_words(alloc: Global, words: &[BodyWord]) -> Result<Vec<BodyWord>, AllocError>
    ensures { IfOk result (λ v. v.items ≡ filter may_owe words.now) }
{
    let mut found = Vec::new(alloc);
    for word in words {
        if may_owe(word) {
            found.push(*word)?;
        }
    }
    Ok(found)
}

/// The accesses at known addresses that are of no cell.
fn plain_accesses(alloc: Global, words: &[BodyWord]) -> Result<Vec<BodyWord>, AllocError>
    ensures { IfOk result (λ v. v.items ≡ filter (λ (w : BodyWord). is_plain w.touch) words.now) }
{
    let mut found = Vec::new(alloc);
    for word in words {
        if is_plain(word) {
            found.push(*word)?;
        }
    }
    Ok(found)
}

/// Whether a word is the later one of a mixed pair, where these are the first uses and the other accesses.
fn is_mixed_later(firsts: &[BodyWord], plain: &[BodyWord], word: &BodyWord) -> bool
    ensures { result ≡ is_mixed_later firsts.now plain.now word.now }
{
    is_mixed(firsts, word) || is_mixed(plain, word)
}

/// The first word that is the later one of a mixed pair with one of these.
fn mixed_with(words: &[BodyWord], firsts: &[BodyWord], plain: &[BodyWord]) -> Option<Verdict>
    ensures { result ≡ mixed_at (find (is_mixed_later firsts.now plain.now) words.now) }
{
    for word in words {
        if is_mixed_later(firsts, plain, word) {
            return Some(Verdict::MixedCell { at: word.at });
        }
    }
    None
}

/// The first word that is the later one of a mixed pair.
fn mixed_cell(
    alloc: Global,
    words: &[BodyWord],
    firsts: &[BodyWord],
) -> Result<Option<Verdict>, AllocError>
    requires { firsts.now ≡ first_uses words.now }
    ensures { IfOk result (λ f. f ≡ mixed_at (find (is_mixed words.now) words.now)) }
{
    let plain = plain_accesses(alloc, words)?;
    Ok(mixed_with(words, firsts, plain.as_slice()))
}

/// The first limit that the words pass.
fn limit_of(
    alloc: Global,
    words: &[BodyWord],
    firsts: &[BodyWord],
) -> Result<Option<Verdict>, AllocError>
    requires firsts { firsts.now ≡ take 17 (first_uses words.now) }
    ensures limit { IfOk result (λ f. f ≡ limit_of words.now) }
    ensures whole { IfOk result (λ f. f ≡ None → firsts.now ≡ first_uses words.now) }
    ensures few { IfOk result (λ f. f ≡ None → length firsts.now ≤ 16) }
{
    let others = other_accesses(alloc, words)?;
    let owing = owing_words(alloc, words)?;
    let far = far_limit(words);
    let cells = limit_past(firsts, MOST_CELLS);
    let accesses = limit_past(others.as_slice(), MOST_ACCESSES);
    let duties = limit_past(owing.as_slice(), MOST_DUTIES);
    Ok(far.or(cells.or(accesses.or(duties))))
}

/// Why the words are not taken, where their cells decide that. Within the limits each word is compared with as many
/// others as a loop may have cells and other accesses, and with no more.
pub fn fault_of(
    alloc: Global,
    words: &[BodyWord],
    firsts: &[BodyWord],
) -> Result<Option<Verdict>, AllocError>
    requires firsts { firsts.now ≡ take 17 (first_uses words.now) }
    ensures fault { IfOk result (λ f. f ≡ fault_of words.now) }
    ensures whole { IfOk result (λ f. f ≡ None → firsts.now ≡ first_uses words.now) }
    ensures few { IfOk result (λ f. f ≡ None → length firsts.now ≤ 16) }
{
    let limit = limit_of(alloc, words, firsts)?;
    if limit.is_some() {
        return Ok(limit);
    }
    mixed_cell(alloc, words, firsts)
}
