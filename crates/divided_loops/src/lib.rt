//! From the check and the plan of a loop to what its added code does: on the only hart of a machine, what the loop does
//! in as many turns as the check tells.
#![tactic(auto)]

ghost use Rattle.divided_loops.specs.Added.{AddedLaw};
ghost use Rattle.divided_loops.specs.Judged.{ShortLaw, CopyLaw, MoveLaw, DividedLaw, JudgedLaw};

use checkable_plans::judged_checks_are_told;
use loop_choice::laws::{held_turns_are_independent, plans_can_be_asked, states_have_the_program};
use stack_slots::laws::cells_are_found;
use stub_laws::runs_keep_words;
use turn_copies::{
    a_hart_executes_its_block, cells_are_written_back, copies_stand_in_order, nests_are_bodies,
    parts_are_in_place, registers_are_restored, registers_are_saved, stubs_stand,
    turns_share_no_byte,
};

/// The words of a loop that is judged Parallel may be copied into added code: each leads on by itself, an auipc gives a
/// signed number of 32 bits, and a location that moves on does so by such a number.
pub fn judged_values_are_short()
    ensures values { ShortLaw }
    ensures copies { CopyLaw }
    ensures moves { MoveLaw }
{
    cells_are_found();
    nests_are_bodies();
}

/// Where the check of a loop that is judged Parallel holds in a state at it, the turns that it tells may be executed
/// apart by copies of the loop's words, and the cells that the loop stores to may be written back behind them.
pub fn judged_loops_can_be_divided()
    ensures { DividedLaw }
{
    cells_are_found();
    held_turns_are_independent();
    states_have_the_program();
}

/// The added code of a loop does what its loop does. A hart that has no other beside it, and enters the code with the
/// registers and the memory of a state at the loop, leaves it with those of the arrival so many turns on as the check
/// tells, and with its own where the check tells none. It meets no fault and makes no call.
pub fn added_code_does_what_its_loop_does()
    ensures { AddedLaw }
{
    runs_keep_words();
    registers_are_saved();
    registers_are_restored();
    copies_stand_in_order();
    parts_are_in_place();
    stubs_stand();
    a_hart_executes_its_block();
    turns_share_no_byte();
    cells_are_written_back();
}

/// So does the added code of each loop that is judged Parallel, with the words of its check, in every state at the
/// loop; and the turns that it does are independent.
pub fn judged_loops_are_divided_by_their_code()
    ensures { JudgedLaw }
{
    judged_values_are_short();
    judged_loops_can_be_divided();
    judged_checks_are_told();
    plans_can_be_asked();
    held_turns_are_independent();
    added_code_does_what_its_loop_does();
}
