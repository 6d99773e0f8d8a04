//! An image on one hart does what its executable does: it ends where the executable ends, in the same way, with the same
//! memory, output and unread input.
#![tactic(auto)]

ghost use Rattle.one_hart.specs.Laws.{EndingLaw, StepLaw};

use added_runs::the_only_hart_executes_added_code;
use entered_loops::{entries_lead_to_later_arrivals, serial_states_are_whole};

/// Where the run of an executable has an ending, the machine with one hart that runs its image comes to the same ending
/// after some events, with the same memory, output and unread input, and to none before. After any number of events it
/// has written and left unread what the executable has after some number of instructions, and an ending that it has is
/// the executable's.
pub fn one_hart_runs_the_executable()
    ensures ending { EndingLaw }
    ensures steps { StepLaw }
{
    the_only_hart_executes_added_code();
    serial_states_are_whole();
    entries_lead_to_later_arrivals();
}
