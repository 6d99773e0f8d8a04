use linear_forms::Form;

/// How two words compare where a loop goes on.
#[derive(Clone, Copy, PartialEq, Eq, Debug)]
pub enum Relation {
    /// They are not the same.
    Differ,
    /// The first is below the second.
    Less,
    /// The first is at most the second.
    AtMost,
    /// The first is above the second.
    More,
    /// The first is at least the second.
    AtLeast,
}

/// The comparison at the exit branch of a loop, out of which come the turns that stay in the loop. They go on
/// while the word that moves has this relation to its bound.
#[derive(PartialEq, Eq, Debug, Drop)]
pub struct Trip {
    /// The relation under which a turn stays.
    pub relation: Relation,
    /// Whether the words are read as signed numbers, as always for `Differ`.
    pub signed: bool,
    /// The form of the word that moves, with its stride: for `Differ`, of the first operand less the second.
    pub start: Form,
    /// The form of the word that it is compared with: for `Differ`, 0.
    pub bound: Form,
    /// What the word that moves gains from turn to turn of the loop, which is not 0.
    pub step: i64,
}
