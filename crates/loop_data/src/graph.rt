ghost use Rattle.std.specs.Prelude.{◌≡◌};

use arrayvec::ArrayVec;
use std::marker::Model;

/// A word of a program that is reached.
#[derive(Drop)]
pub struct Word {
    /// Its address, a multiple of 4.
    pub at: u64,
    /// The instruction word.
    pub bits: u32,
    /// Where its step edges lead, each address once: to the next word first. Calls are no step edges.
    pub steps: ArrayVec<u64, 2>,
}

/// Reached words, seen as a list.
#[derive(Drop)]
pub struct GraphWords {
    words: Vec<Word>,
}

impl Model for GraphWords {
    ghost use Rattle.std.specs.Prelude.{List};
    ghost use Rattle.loop_data.specs.declared.graph.Word.{Word};

    ghost Value = { List Word };

    ghost view = { λ w. w.words.items };
}

impl GraphWords {
    /// These words.
    pub fn new(words: Vec<Word>) -> GraphWords
        ensures { result ≡ words.items }
    {
        GraphWords { words }
    }

    /// The words as a slice.
    pub fn as_slice(&self) -> &[Word]
        ensures { result.now ≡ self.now }
    {
        self.words.as_slice()
    }

    /// The words, given back without a copy.
    pub fn into_vec(self) -> Vec<Word>
        ensures { result.items ≡ self }
    {
        let GraphWords { words } = self;
        words
    }
}

/// Addresses, seen as a list.
#[derive(Drop)]
pub struct Addresses {
    addresses: Vec<u64>,
}

impl Model for Addresses {
    ghost use Rattle.std.specs.Prelude.{ℕ, List};

    ghost Value = { List ℕ };

    ghost view = { λ a. a.addresses.items };
}

impl Addresses {
    /// These addresses.
    pub fn new(addresses: Vec<u64>) -> Addresses
        ensures { result ≡ addresses.items }
    {
        Addresses { addresses }
    }

    /// The addresses as a slice.
    pub fn as_slice(&self) -> &[u64]
        ensures { result.now ≡ self.now }
    {
        self.addresses.as_slice()
    }

    /// The addresses, given back without a copy.
    pub fn into_vec(self) -> Vec<u64>
        ensures { result.items ≡ self }
    {
        let Addresses { addresses } = self;
        addresses
    }
}

/// The reached words of a program with the edges between them.
#[derive(Drop)]
pub struct Graph {
    /// The reached words in address order.
    pub words: GraphWords,
    /// The entry and the targets of all calls, in address order, each once.
    pub starts: Addresses,
}
