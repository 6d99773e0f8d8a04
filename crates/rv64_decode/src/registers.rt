ghost use Rattle.std.specs.Prelude.{◌≡◌, ◌<◌, ℕ, List, slice_index, replicate};
ghost use Rattle.rv64_decode.specs.Registers.{register, with_register};

use std::marker::Model;

/// The number of an integer register, x0 to x31 ("Programmers' Model for Base Integer ISA").
#[derive(Clone, Copy, PartialEq, Eq, Debug)]
pub struct Reg(u8);

impl Model for Reg {
    ghost Value = { ℕ };

    ghost view = { λ r. r.0 };

    ghost invariant = { λ r. r.0 < 32 };

    ghost inverse = { λ n. record { 0 = n } };
}

impl Reg {
    /// The register of a number.
    #[inline]
    pub fn new(number: u8) -> Reg
        requires { number < 32 }
        ensures { result ≡ number }
    {
        Reg(number)
    }

    /// The number of the register, as it stands in a word's fields.
    #[inline]
    pub fn number(&self) -> u8
        ensures number { result ≡ self.now }
        ensures below { result < 32 }
    {
        self.0
    }
}

/// The 32 integer registers of a hart, of 64 bits each. x0 reads 0, whatever is written to it.
#[derive(Clone, Copy, PartialEq, Eq, Debug)]
pub struct Regs {
    words: [u64; 32],
}

impl Model for Regs {
    ghost Value = { List ℕ };

    ghost view = { λ r. r.words };

    ghost invariant = { λ r. slice_index r.words 0 ≡ 0 };

    ghost inverse = { λ xs. record { words = xs } };
}

impl Regs {
    /// Registers that are all 0.
    pub fn new() -> Regs
        ensures { result ≡ replicate 32 0 }
    {
        Regs { words: [0; 32] }
    }

    /// What a register reads.
    #[inline]
    pub fn get(&self, r: Reg) -> u64
        ensures { result ≡ register self.now r }
    {
        self.words[r.0 as usize]
    }

    /// Writes a register; a write to x0 is dropped.
    #[inline]
    pub fn set(&mut self, r: Reg, value: u64)
        ensures { self.new ≡ with_register self.old r value }
    {
        self.words[r.0 as usize] = value;
        self.words[0] = 0;
    }
}

impl Default for Regs {
    ghost is_default = { λ r. r ≡ replicate 32 0 };

    fn default() -> Regs {
        Regs::new()
    }
}
