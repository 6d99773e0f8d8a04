//! Laws about the whole added code of a sample loop: an instance in which all that is asked of such code is met.
#![tactic(auto)]

ghost use Rattle.std.specs.Prelude.{◌≡◌, [], ◌∷◌};
ghost use Rattle.loop_samples.specs.Checked.{told};
ghost use Rattle.loop_samples.specs.NestLoop.{outer, two_cells, nest_roles};
ghost use Rattle.alias_checks.specs.Answers.{answer};
ghost use Rattle.turn_copies.specs.Bodies.{IsDivided};
ghost use Rattle.turn_copies.specs.StubWords.{HasStub};
ghost use Rattle.copy_samples.specs.NestCopies.{nest_code};
ghost use Rattle.divided_loops.specs.Alone.{MeetsNoFault};
ghost use Rattle.divided_loops.specs.Added.{IsAdded, IsAskedOf, Enters, DoesTurns};
ghost use Rattle.divided_loops.specs.Forks.{LeavesFirst};
ghost use Rattle.stub_samples.specs.NestStub.{rounds, round_check, check_words, stub_words, entering};

use copy_samples::{nest_is_divided, nest_may_be_copied};
use divided_loops::added_code_does_what_its_loop_does;
use turn_copies::stubs_stand;

/// The nest with two cells goes round 20 times; its check tells 19 turns of 3 passes each, and these may be divided.
#[tactic(auto, unfolding(alias_checks::specs::CellTests::cell_fits, alias_checks::specs::CellTests::are_clear, alias_checks::specs::Entry::entry, alias_checks::specs::Entry::start_value, alias_checks::specs::TurnTests::turns_of, alias_checks::specs::TurnTests::few_stays, alias_checks::specs::Areas::in_memory))]
pub fn nest_is_asked()
    ensures told { answer round_check rounds.regs rounds.memory ≡ told 19 3 }
    ensures divided { IsDivided outer nest_code nest_roles rounds 19 }
{}

/// Its added code as it is counted by hand, with a hart that enters it alone, is all that is asked of such code, so
/// that it does these 19 turns. It has executed 525 words of it, with one fork for the 19, where it comes to the word at
/// which it leaves.
pub fn nest_is_added()
    ensures stub { HasStub stub_words outer nest_code nest_roles 0 check_words }
    ensures added { IsAdded stub_words outer nest_code nest_roles round_check 0 check_words }
    ensures asked { IsAskedOf outer nest_code nest_roles round_check rounds }
    ensures enters { Enters rounds 0 entering }
    ensures does { DoesTurns stub_words outer two_cells rounds entering (told 19 3) }
    ensures faultless { MeetsNoFault stub_words entering }
    ensures forks { LeavesFirst stub_words 525 entering (19 ∷ []) }
{
    nest_may_be_copied();
    nest_is_divided();
    nest_is_asked();
    stubs_stand();
    added_code_does_what_its_loop_does();
}
