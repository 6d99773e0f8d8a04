use crate::cells::Cells;
use crate::classes::Classes;
use crate::shape::LoopShape;

/// What two accesses, of which one writes, have in common before a loop begins. Strides are taken without
/// their signs, in bytes.
#[derive(Clone, Copy, PartialEq, Eq, Debug)]
pub enum Term {
    /// They have the same stride in the root, and the same in each inner loop.
    Same {
        /// The size of the stride in the root.
        root: u64,
        /// By index of the inner loop the size of the stride there.
        inner: [u64; 3],
        /// The greatest common divisor of the strides in inner loops.
        lanes: u64,
        /// The greatest common divisor of all strides.
        residue: u64,
        /// The greater of the two widths, in bytes.
        width: u64,
        /// The second address less the first at turn numbers 0, where their terms are the same.
        known: Option<i64>,
    },
    /// Their strides differ, so that only their whole ranges can be told apart.
    Apart,
}

/// What the code that runs a turn of a loop apart is made from.
#[derive(Drop)]
pub struct Plan {
    /// The loop with its inner loops.
    pub shape: LoopShape,
    /// The cells that it uses.
    pub cells: Cells,
    /// What becomes of the locations that it writes.
    pub classes: Classes,
}
