ghost use Rattle.std.specs.Prelude.{◌≡◌};

use loop_data::{Accesses, Cells, Duties, Term, Trip};
use std::marker::Model;

/// The trips of the loops of a nest, the root's first, seen as a list.
#[derive(Drop)]
pub struct Trips {
    trips: Vec<Trip>,
}

impl Model for Trips {
    ghost use Rattle.std.specs.Prelude.{List};
    ghost use Rattle.loop_data.specs.declared.trips.Trip.{Trip};

    ghost Value = { List Trip };

    ghost view = { λ t. t.trips.items };
}

impl Trips {
    /// These trips.
    pub fn new(trips: Vec<Trip>) -> Trips
        ensures { result ≡ trips.items }
    {
        Trips { trips }
    }

    /// The trips as a slice.
    pub fn as_slice(&self) -> &[Trip]
        ensures { result.now ≡ self.now }
    {
        self.trips.as_slice()
    }

    /// The trips, given back without a copy.
    pub fn into_vec(self) -> Vec<Trip>
        ensures { result.items ≡ self }
    {
        let Trips { trips } = self;
        trips
    }
}

/// Pairs of accesses, each with what they have in common, seen as a list.
#[derive(Drop)]
pub struct Pairs {
    pairs: Vec<(u32, u32, Term)>,
}

impl Model for Pairs {
    ghost use Rattle.std.specs.Prelude.{ℕ, List};
    ghost use Rattle.loop_data.specs.declared.plans.Term.{Term};

    ghost Value = { List (ℕ × ℕ × Term) };

    ghost view = { λ p. p.pairs.items };
}

impl Pairs {
    /// These pairs.
    pub fn new(pairs: Vec<(u32, u32, Term)>) -> Pairs
        ensures { result ≡ pairs.items }
    {
        Pairs { pairs }
    }

    /// The pairs as a slice.
    pub fn as_slice(&self) -> &[(u32, u32, Term)]
        ensures { result.now ≡ self.now }
    {
        self.pairs.as_slice()
    }

    /// The pairs, given back without a copy.
    pub fn into_vec(self) -> Vec<(u32, u32, Term)>
        ensures { result.items ≡ self }
    {
        let Pairs { pairs } = self;
        pairs
    }
}

/// The areas of memory by their low addresses, their ends and their flags, seen as a list. A flag of 4 says that
/// an area may be read, 2 that it may be written, and 1 that it may be executed, as in `p_flags` of a program
/// header (System V gABI, "Program Header").
#[derive(Drop)]
pub struct Areas {
    areas: Vec<(u64, u64, u32)>,
}

impl Model for Areas {
    ghost use Rattle.std.specs.Prelude.{ℕ, List};

    ghost Value = { List (ℕ × ℕ × ℕ) };

    ghost view = { λ a. a.areas.items };
}

impl Areas {
    /// These areas.
    pub fn new(areas: Vec<(u64, u64, u32)>) -> Areas
        ensures { result ≡ areas.items }
    {
        Areas { areas }
    }

    /// The areas as a slice.
    pub fn as_slice(&self) -> &[(u64, u64, u32)]
        ensures { result.now ≡ self.now }
    {
        self.areas.as_slice()
    }

    /// The areas, given back without a copy.
    pub fn into_vec(self) -> Vec<(u64, u64, u32)>
        ensures { result.items ≡ self }
    {
        let Areas { areas } = self;
        areas
    }
}

/// What is tested where a loop is arrived at, before its turns are divided.
#[derive(Drop)]
pub struct Check {
    /// The cells of the loop.
    pub cells: Cells,
    /// The trips of its levels, the root's first and then those of the inner loops by header.
    pub trips: Trips,
    /// The forms whose values have to be numbers of 32 bits, in address order.
    pub duties: Duties,
    /// The accesses of the loop to memory but to its cells, in address order.
    pub accesses: Accesses,
    /// By their places among the accesses each two of which one is a store, the first at or before the second.
    pub pairs: Pairs,
    /// The areas of the executable's memory in address order, the heap and the stack among them.
    pub areas: Areas,
}

/// How many turns are divided, and how often the inner loops are passed in each.
#[derive(Clone, Copy, PartialEq, Eq, Debug)]
pub struct Turns {
    /// The number of turns of the root.
    pub root: u64,
    /// By index of the inner loop the passes in each run of it: 1 where there is no such loop.
    pub inner: [u64; 3],
}

/// Where an access lies in a run of its loop.
#[derive(Clone, Copy, PartialEq, Eq, Debug)]
pub struct Place {
    /// Its address at turn numbers 0.
    pub address: u64,
    /// Its whole range over all turns and passes: the least address, and the end of the last bytes.
    pub range: (i64, i64),
    /// Whether it writes.
    pub store: bool,
}

impl Default for Place {
    ghost use Rattle.std.specs.Prelude.{pos, false};

    ghost is_default = { λ p. p ≡ record { address = 0; range = (pos 0, pos 0); store = false } };

    fn default() -> Place {
        Place {
            address: 0,
            range: (0, 0),
            store: false,
        }
    }
}
