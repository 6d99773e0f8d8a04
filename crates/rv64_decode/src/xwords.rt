ghost use Rattle.std.specs.Prelude.{◌≡◌, ◌↔◌, ◌+◌, ◌*◌, ◌/◌, ◌%◌, ◌<◌, ◌^◌, ℕ, Some, IsSome, IfSome};
ghost use Rattle.rv64_decode.specs.Fields.{opcode, funct7, rd_of, rs1_of, rs2_of};
ghost use Rattle.rv64_decode.specs.Table.{IsR};
ghost use Rattle.rv64_decode.specs.XTable.{MeansX, decoded_x, added_row};
ghost use Rattle.rv64_decode.specs.XForm.{InFormX};
ghost use Rattle.rv64_decode.specs.declared.xinstr.XInstr.{XInstr};

use crate::reading::{decode, rd, rs1, rs2};
use crate::registers::Reg;
use crate::writing::{FullCode, encode, r_word};
use crate::xinstr::XInstr;

// An instruction on the opcode custom-0.
fn custom_form(word: u32) -> Option<XInstr>
    requires { (opcode word ≡ 0x0B) × (funct7 word ≡ 0) }
    ensures table { (i : XInstr) → (result ≡ Some i) ↔ MeansX word i }
    ensures value { result ≡ added_row word }
    ensures form { IfSome result InFormX }
{
    let slot = ((word >> 20) % 32) as u8;
    let no_rd = (word >> 7) % 32 == 0;
    let no_rs1 = (word >> 15) % 32 == 0;
    let no_rs2 = slot == 0;
    match (word >> 12) % 8 {
        0 if no_rd => Some(XInstr::Put {
            slot,
            rs1: rs1(word),
        }),
        1 if no_rs1 => Some(XInstr::Get { rd: rd(word), slot }),
        2 if no_rd && no_rs1 && no_rs2 => Some(XInstr::Par),
        3 if no_rd && no_rs1 && no_rs2 => Some(XInstr::Join),
        4 if no_rd && no_rs1 && no_rs2 => Some(XInstr::Back),
        5 if no_rs1 && no_rs2 => Some(XInstr::Id { rd: rd(word) }),
        6 if no_rs1 && no_rs2 => Some(XInstr::Harts { rd: rd(word) }),
        _ => None,
    }
}

/// The instruction of added code that a word stands for: that of [`decode`] for a word of RV64IM; `None`
/// for a word of neither table, also one of custom-0 with a bit set in a field that its form does not have.
#[tactic(auto, unfolding(crate::specs::XTable::decoded_x))]
pub fn decode_x(word: u32) -> Option<XInstr>
    ensures table { (i : XInstr) → (result ≡ Some i) ↔ MeansX word i }
    ensures value { result ≡ decoded_x word }
    ensures form { IfSome result InFormX }
{
    if word % 128 == 0x0B && word >> 25 == 0 {
        return custom_form(word);
    }
    match decode(word) {
        Some(i) => Some(XInstr::Base(i)),
        None => None,
    }
}

/// The only word of custom-0 with these fields.
fn custom_word(three: u32, rd: Reg, rs1: Reg, rs2: Reg) -> u32
    requires { three < 2 ^ 3 }
    ensures { (w : ℕ) → w < 2 ^ 32 → (w ≡ result)
        ↔ (IsR 0x0B three 0 w × (rd_of w ≡ rd) × (rs1_of w ≡ rs1) × (rs2_of w ≡ rs2)) }
{
    let code = FullCode {
        opcode: 0x0B,
        three,
        seven: 0,
    };
    r_word(code, rd, rs1, rs2)
}

fn x_word_of(i: XInstr) -> Option<u32>
    ensures words { (w : ℕ) → w < 2 ^ 32 → (result ≡ Some w) ↔ MeansX w i }
    ensures form { IsSome result ↔ InFormX i }
{
    let zero = Reg::new(0);
    match i {
        XInstr::Base(base) => encode(base),
        XInstr::Put { slot, rs1 } => {
            if slot > 31 {
                return None;
            }
            Some(custom_word(0, zero, rs1, Reg::new(slot)))
        }
        XInstr::Get { rd, slot } => {
            if slot > 31 {
                return None;
            }
            Some(custom_word(1, rd, zero, Reg::new(slot)))
        }
        XInstr::Par => Some(custom_word(2, zero, zero, zero)),
        XInstr::Join => Some(custom_word(3, zero, zero, zero)),
        XInstr::Back => Some(custom_word(4, zero, zero, zero)),
        XInstr::Id { rd } => Some(custom_word(5, rd, zero, zero)),
        XInstr::Harts { rd } => Some(custom_word(6, rd, zero, zero)),
    }
}

/// The word that stands for an instruction of added code; `None` exactly where an immediate is outside its
/// form or a slot is above 31.
#[tactic(auto, using(crate::proofs::XDecodes::means_x_decoded))]
pub fn encode_x(i: XInstr) -> Option<u32>
    ensures words { (w : ℕ) → w < 2 ^ 32 → (result ≡ Some w) ↔ MeansX w i }
    ensures form { IsSome result ↔ InFormX i }
    ensures decodes { IfSome result (λ w. decoded_x w ≡ Some i) }
{
    x_word_of(i)
}
