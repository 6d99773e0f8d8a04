//! Laws about the copies of a sample loop: an instance of the definitions of copies and of passages through them.
#![tactic(auto)]

ghost use Rattle.std.specs.Prelude.{ℕ, ◌≢◌};
ghost use Rattle.rv64_decode.specs.Hart.{run};
ghost use Rattle.loop_samples.specs.NestLoop.{outer, two_cells, nest_roles};
ghost use Rattle.turn_copies.specs.Copies.{Copies, in_order};
ghost use Rattle.turn_copies.specs.Bodies.{IsBody, IsOrdered, IsDivided};
ghost use Rattle.turn_copies.specs.Passages.{no_slot, Begins, Passed};
ghost use Rattle.turn_copies.specs.Regions.{CanMove, HasEntry, Joined};
ghost use Rattle.turn_copies.specs.Stubs.{AreInPlace};
ghost use Rattle.copy_samples.specs.NestCopies.{begun, nest_code, copied_words, first_hart, divided_words, forked_hart};
ghost use Rattle.loop_data.specs.Independent.{Private};

use turn_copies::{
    a_hart_executes_its_block, a_passage_is_a_turn, copies_stand_in_order, parts_are_in_place,
    words_are_placed,
};

/// The nest with two cells, the second of 4 bytes: its three turns may be copied.
pub fn nest_may_be_copied()
    ensures body { IsBody outer nest_code }
    ensures ordered { IsOrdered outer nest_code }
    ensures divided { IsDivided outer nest_code nest_roles begun 3 }
{}

/// The words of its copies, as they are counted by hand.
pub fn nest_is_copied()
    ensures { Copies copied_words outer nest_code (in_order outer nest_code 0) }
{
    nest_may_be_copied();
    words_are_placed();
    copies_stand_in_order();
}

/// A hart may begin a passage through them, and comes to the place behind them with all that the turn leaves.
pub fn nest_is_passed()
    ensures begins { Begins outer nest_code nest_roles begun 0 0 0 first_hart }
    ensures passes { (n : ℕ) × Passed two_cells begun 0 13 no_slot first_hart 10 (run copied_words n first_hart) }
{
    nest_may_be_copied();
    nest_is_copied();
    a_passage_is_a_turn();
}

/// All its added code behind the check, as it is counted by hand: the first of two harts executes turns 1 and 2.
pub fn nest_is_divided()
    ensures places { AreInPlace divided_words outer nest_code nest_roles 0 }
    ensures moves { CanMove nest_roles }
    ensures entry { HasEntry two_cells begun (λ r. nest_roles r ≢ Private) forked_hart }
    ensures joins { (n : ℕ) × Joined two_cells begun 13 39 1 3 forked_hart 55 (run divided_words n forked_hart) }
{
    nest_may_be_copied();
    words_are_placed();
    parts_are_in_place();
    a_hart_executes_its_block();
}
