ghost use Rattle.stack_slots.specs.CellLaws.{NumberedLaw, FoundLaw, BasesLaw, OffsetsLaw, FaultLaw, FewAccessesLaw};
ghost use Rattle.stack_slots.specs.OneList.{OneListLaw};

/// The cells of a loop are such as the passes over values, classes and equations take them: their uses are in
/// order and have their numbers, and each is an access of the cell's width at the address that is known without
/// cells. The base of a cell is a register, from x1 to x31, that the loop does not write, and its offset a signed number
/// of 12 bits; a cell without a base stands at an address from 0 to below 2^31 - 2^11.
pub fn cells_are_found()
    ensures numbered { NumberedLaw }
    ensures found { FoundLaw }
    ensures bases { BasesLaw }
    ensures offsets { OffsetsLaw }
{}

/// What is found of the cells of a loop is determined by its definition: why the loop is not taken, or the list of the
/// cells and their uses.
pub fn one_list_of_cells()
    ensures { OneListLaw }
{}

/// Where the cells of a loop decide against it, a limit or a mixed pair is told; where they do not, the loop has at
/// most 32 words that access other memory.
pub fn cells_are_limited()
    ensures fault { FaultLaw }
    ensures few { FewAccessesLaw }
{}
