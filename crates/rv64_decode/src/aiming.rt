ghost use Rattle.std.specs.Prelude.{◌≡◌, ◌<◌, ℕ, length, slice_index};
ghost use Rattle.rv64_decode.specs.Aim.{Aimed, IsNear, distance};
ghost use Rattle.rv64_decode.specs.Form.{IsSigned};
ghost use Rattle.rv64_decode.specs.XTable.{MeansX};
ghost use Rattle.rv64_decode.specs.declared.instr.Instr.TheVariants.{Jal};
ghost use Rattle.rv64_decode.specs.declared.xinstr.XInstr.TheVariants.{Base};

use crate::registers::Reg;
use crate::writing::j_word;

// The word of a jump from the place `from` to the place `to`.
fn jump_word(to: u32, from: usize) -> u32
    requires { IsSigned 21 (distance to from) }
    ensures { MeansX result (Base (Jal 0 (distance to from))) }
{
    let imm = (to as i64 - from as i64) * 4;
    j_word(0x6F, Reg::new(0), imm as i32)
}

// The word at a place, aimed where it is an open jump.
fn aimed(word: u32, no: u32, place: usize) -> u32
    requires { word ≡ 0x6F → IsNear no place }
    ensures { Aimed no place word result }
{
    if word == 0x6F {
        jump_word(no, place)
    } else {
        word
    }
}

/// Gives each open jump of added code its target, the place `no`: a word 0x0000006F, which is `jal x0` to
/// itself, becomes the `jal x0` from its place to `no`. Places count words from the start of `code`. Each
/// such jump has to be near enough for the word's offset.
pub fn aim(code: &mut [u32], no: u32)
    requires { (k : ℕ) → k < length code.old → slice_index code.old k ≡ 0x6F → IsNear no k }
    ensures { (k : ℕ) → k < length code.old → Aimed no k (slice_index code.old k) (slice_index code.new k) }
{
    for i in 0..code.len() {
        code[i] = aimed(code[i], no, i);
    }
}
