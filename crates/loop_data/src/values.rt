use linear_forms::Loc;

/// What is known of a location before a word of a loop.
#[derive(Clone, Copy, PartialEq, Eq, Debug)]
pub enum Value {
    /// It holds this word.
    Known(u64),
    /// It holds the value that a location had at the loop's header, and this word, modulo 2^64.
    Base(Loc, u64),
    /// Nothing is known.
    Nothing,
}

/// What is known of each location before a word: of registers by their numbers, and from 32 on of cells.
#[derive(Drop)]
pub struct Values {
    /// The address of the word.
    pub at: u64,
    /// What is known of each location.
    pub of: [Value; 48],
}
