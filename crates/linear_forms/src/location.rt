ghost use Rattle.std.specs.Prelude.{◌≡◌, ◌<◌};
ghost use Rattle.linear_forms.specs.Locations.{number_of, IsLocation};

/// A location of a loop: a register, or a cell of memory.
#[derive(Clone, Copy, PartialEq, Eq, Debug)]
pub enum Loc {
    /// An integer register, from 1 to 31.
    Reg(u8),
    /// A memory cell by its number in the loop, from 0 to 15.
    Cell(u8),
}

impl Default for Loc {
    ghost is_default = { λ l. IsLocation l };

    fn default() -> Loc {
        Loc::Reg(1)
    }
}

impl Loc {
    /// The location's number: a register's own, or 32 and a cell's.
    pub fn number(&self) -> usize
        ensures { result ≡ number_of self.now }
    {
        match *self {
            Loc::Reg(register) => register as usize,
            Loc::Cell(cell) => 32 + cell as usize,
        }
    }
}
