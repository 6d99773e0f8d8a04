ghost use Rattle.check_code.specs.TurnLaws.{RootLaw, InnerLaw};
ghost use Rattle.check_code.specs.DutyLaws.{DutyLaw};

/// The words of the root's trip go on where a check takes the turns that it tells, with the number of the last in slot
/// 23, and to the open target elsewhere.
pub fn turns_are_told()
    ensures { RootLaw }
{}

/// The words of an inner loop's trip go on where a check takes the passes that it tells, with the number of the last in
/// the slot of that loop, and to the open target elsewhere.
pub fn passes_are_told()
    ensures { InnerLaw }
{}

/// The words of a duty go on where it is met, and to the open target elsewhere.
pub fn duties_are_tested()
    ensures { DutyLaw }
{}
