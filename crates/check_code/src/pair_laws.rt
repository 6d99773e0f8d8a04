ghost use Rattle.check_code.specs.AccessLaws.{AccessLaw, KeepOffLaw, PairTestLaw};

/// The words of an access test whether it fits.
pub fn accesses_are_tested()
    ensures { AccessLaw }
{}

/// The words of a cell and an access, of which one is stored, test whether they have no byte in common.
pub fn accesses_are_kept_off_cells()
    ensures { KeepOffLaw }
{}

/// The words of two accesses test whether they are told apart.
pub fn pairs_are_tested()
    ensures { PairTestLaw }
{}
