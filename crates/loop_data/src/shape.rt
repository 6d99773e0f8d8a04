ghost use Rattle.std.specs.Prelude.{◌≡◌};

use crate::graph::Addresses;
use crate::verdict::Verdict;
use std::marker::Model;

/// A loop of a nest.
#[derive(Drop)]
pub struct Level {
    /// The address of the header.
    pub header: u64,
    /// The addresses of the loop's words, in order.
    pub body: Addresses,
    /// The address of the word whose edge to the header closes the loop.
    pub back: u64,
    /// The address of the branch at which the loop is left.
    pub exit: u64,
    /// How many loops of the nest lie round it: 0 for the root.
    pub depth: u32,
}

/// Loops of a nest, seen as a list.
#[derive(Drop)]
pub struct Levels {
    levels: Vec<Level>,
}

impl Model for Levels {
    ghost use Rattle.std.specs.Prelude.{List};
    ghost use Rattle.loop_data.specs.declared.shape.Level.{Level};

    ghost Value = { List Level };

    ghost view = { λ l. l.levels.items };
}

impl Levels {
    /// These loops.
    pub fn new(levels: Vec<Level>) -> Levels
        ensures { result ≡ levels.items }
    {
        Levels { levels }
    }

    /// The loops as a slice.
    pub fn as_slice(&self) -> &[Level]
        ensures { result.now ≡ self.now }
    {
        self.levels.as_slice()
    }

    /// The loops, given back without a copy.
    pub fn into_vec(self) -> Vec<Level>
        ensures { result.items ≡ self }
    {
        let Levels { levels } = self;
        levels
    }
}

/// A loop with the loops that lie in it.
#[derive(Drop)]
pub struct LoopShape {
    /// The address of the header.
    pub header: u64,
    /// The loop itself, which is called the root, and then its inner loops by header. None where
    /// there is an early verdict.
    pub levels: Levels,
    /// The verdict, where the shape of the loop decides it.
    pub early: Option<Verdict>,
}
