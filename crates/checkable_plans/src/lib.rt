//! That the words of a check tell what the check tells, of every loop that is judged Parallel.
#![tactic(auto)]

ghost use Rattle.checkable_plans.specs.Judged.{JudgedRoomLaw, JudgedCheckableLaw};

use check_code::{areas_have_room, found_checks_are_told};
use loop_choice::laws::plans_can_be_asked;

/// The check of a loop that is judged Parallel has room in instructions, and its words tell what it tells: steps lead
/// to where relations end, forms are over registers and the loop's own cells, and the loops round a word are its own.
pub fn judged_checks_are_told()
    ensures room { JudgedRoomLaw }
    ensures checkable { JudgedCheckableLaw }
{
    areas_have_room();
    found_checks_are_told();
    plans_can_be_asked();
}
