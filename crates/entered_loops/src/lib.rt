//! What happens where the only hart of a machine leaves an executable at an entry of its division: the added code leads
//! back to the header, in the state that the serial run of the executable has some instructions on.
#![tactic(auto)]

ghost use Rattle.entered_loops.specs.Laws.{WholeLaw, EntryLaw};

use checkable_plans::judged_checks_are_told;
use divided_loops::judged_loops_are_divided_by_their_code;
use loop_samples::laws::run_is_serial;
use loop_shapes::laws::nests;
use serial_run::states_are_sound;
use stack_slots::laws::{cells_are_found, cells_are_limited};
use turn_copies::stubs_stand;

/// Each state of the serial run of an executable has its areas, with its executable bytes, words in its registers and
/// bytes in its memory.
pub fn serial_states_are_whole()
    ensures { WholeLaw }
{
    states_are_sound();
}

/// The added code at the entry of a loop leads the only hart back to the header, with the registers and the memory that
/// the serial run has as many turns on as the loop's check tells, or none if it tells none. There the serial run is at the
/// header too, has read and written nothing since and has no ending. The hart meets one fork on the way, which divides
/// these turns, or none, and no fault.
pub fn entries_lead_to_later_arrivals()
    ensures { EntryLaw }
{
    nests();
    cells_are_found();
    cells_are_limited();
    judged_checks_are_told();
    stubs_stand();
    judged_loops_are_divided_by_their_code();
    run_is_serial();
}
