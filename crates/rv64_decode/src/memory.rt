ghost use Rattle.std.specs.Prelude.{◌≡◌, ◌-◌, ◌/◌, ◌<◌, ◌^◌, List, IfOk};
ghost use Rattle.rv64_decode.specs.Area.{Area, bytes_of, load_of, store_of, after_store};
ghost use Rattle.rv64_decode.specs.Ask.{Ask, Loads, Stores, Nothing};
ghost use Rattle.rv64_decode.specs.declared.memory.Width.{Width};

/// How many bytes a load or a store moves; by default a word of 8 bytes.
#[derive(Clone, Copy, PartialEq, Eq, Debug, Default)]
pub enum Width {
    One,
    Two,
    Four,
    #[default]
    Eight,
}

/// Why memory refuses an access. Where several reasons hold, the first of them is answered.
#[derive(Clone, Copy, PartialEq, Eq, Debug)]
pub enum MemFault {
    /// The address is no multiple of the width.
    Misaligned,
    /// The address lies in no area.
    Unmapped,
    /// The area does not permit this kind of access.
    Denied,
}

impl Width {
    /// The number of bytes.
    #[inline]
    pub fn bytes(self) -> u64
        ensures { result ≡ bytes_of self }
    {
        match self {
            Width::One => 1,
            Width::Two => 2,
            Width::Four => 4,
            Width::Eight => 8,
        }
    }
}

/// A little-endian memory of bytes that answers loads and stores, as an instruction asks for them
/// ("Load and Store Instructions"). Addresses are in bytes. An access whose address is no multiple of
/// its width is refused.
///
/// An implementation says in `memory` which memory it stands for, in `allows` which accesses may be
/// asked of it, and in `moves` what an access makes of the implementation itself.
pub trait Words {
    /// The memory that the value stands for.
    ghost memory: { Self → List Area };

    /// The accesses that may be asked of it.
    ghost allows: { Self → Ask → Type 0 };

    /// Where an access leads: the value before, the access, the value after.
    ghost moves: { Self → Ask → Self → Type 0 };

    /// The bytes from `addr` on as one number, zero-extended.
    fn load(&mut self, addr: u64, width: Width) -> Result<u64, MemFault>
        requires { allows self.old (Loads addr width) }
        ensures answer { result ≡ load_of (memory self.old) addr width }
        ensures fits { IfOk result (λ n. n < 256 ^ bytes_of width) }
        ensures memory { memory self.new ≡ memory self.old }
        ensures moves { moves self.old (Loads addr width) self.new };

    /// Writes the low bytes of `value` from `addr` on, and no others. A refused store writes nothing.
    fn store(&mut self, addr: u64, width: Width, value: u64) -> Result<(), MemFault>
        requires { allows self.old (Stores addr width value) }
        ensures answer { result ≡ store_of (memory self.old) addr width }
        ensures memory { memory self.new ≡ after_store (memory self.old) addr width value }
        ensures moves { moves self.old (Stores addr width value) self.new };

    /// Where nothing is asked, the value stays.
    ghost stays: { (self : Self) → moves self Nothing self };
}
