use arrayvec::ArrayVec;
use linear_forms::Form;
use rv64_decode::Width;

/// A load or a store of a loop that is no access of a cell.
#[derive(PartialEq, Eq, Debug, Default, Drop)]
pub struct Access {
    /// The address of the word.
    pub at: u64,
    /// The innermost loop round it, by its place among the loop's levels.
    pub level: u32,
    /// By depth the place of the loop of that depth round it, and 0 where there is none.
    pub around: [u32; 3],
    /// The form of the address that it accesses.
    pub form: Form,
    /// How many bytes it moves.
    pub width: Width,
    /// Whether it writes them.
    pub store: bool,
}

/// The accesses of a loop, in address order.
#[derive(Drop)]
pub struct Accesses {
    /// The accesses, the least address first.
    pub list: ArrayVec<Access, 32>,
}
