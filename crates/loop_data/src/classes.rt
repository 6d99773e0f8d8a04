/// What becomes, from turn to turn, of a location that a loop writes.
#[derive(Clone, Copy, PartialEq, Eq, Debug)]
pub enum Class {
    /// It moves on by this step.
    Induction(i64),
    /// It is written anew in each turn, before it is read.
    Private,
}

/// The classes of locations, registers by their numbers and from 32 on cells; none where a loop does not
/// write the location. Of inner loops there are inductions alone.
#[derive(Drop)]
pub struct Classes {
    /// Those of the root.
    pub root: [Option<Class>; 48],
    /// Those of the inner loops, in the order of their headers.
    pub inner: [[Option<Class>; 48]; 3],
}
