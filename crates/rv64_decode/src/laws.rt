ghost use Rattle.std.specs.Prelude.{◌≡◌, ◌<◌, ◌^◌, ℕ, List, Some};
ghost use Rattle.rv64_decode.specs.Area.{Area, number_at};
ghost use Rattle.rv64_decode.specs.Ask.{Ask, after};
ghost use Rattle.rv64_decode.specs.Range.{IsInRange, AreWords, AreBytes};
ghost use Rattle.rv64_decode.specs.Registers.{register, with_register};
ghost use Rattle.rv64_decode.specs.Row.{outcome};
ghost use Rattle.rv64_decode.specs.Table.{decoded};
ghost use Rattle.rv64_decode.specs.declared.instr.Instr.{Instr};

/// The registers of a decoded instruction are among the 32, and its immediate is in its form.
pub fn decoded_fields_are_in_range()
    ensures { (w : ℕ) (i : Instr) → w < 2 ^ 32 → decoded w ≡ Some i → IsInRange i }
{}

/// Words stay words and bytes stay bytes, whatever the instruction.
pub fn instructions_keep_words()
    ensures registers { (i : Instr) (pc : ℕ) (regs : List ℕ) (m : List Area) → IsInRange i → AreBytes m
        → AreWords regs → AreWords (outcome i pc regs m).regs }
    ensures bytes { (m : List Area) (ask : Ask) → AreBytes m → AreBytes (after m ask) }
    ensures write { (regs : List ℕ) (r value : ℕ) → AreWords regs → value < 2 ^ 64
        → AreWords (with_register regs r value) }
    ensures read { (regs : List ℕ) (r : ℕ) → AreWords regs → register regs r < 2 ^ 64 }
    ensures word { (m : List Area) (addr : ℕ) → AreBytes m → number_at 4 m addr < 2 ^ 32 }
{}
