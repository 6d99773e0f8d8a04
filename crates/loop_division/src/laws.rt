ghost use Rattle.loop_division.specs.Division.{OrderLaw};
ghost use Rattle.loop_division.specs.LoopVerdicts.{VerdictOrderLaw};
ghost use Rattle.loop_division.specs.OneDivision.{OneWordLaw, OneVerdictsLaw, OneDivisionLaw, ApartLaw, OneRefusalLaw};
ghost use Rattle.loop_division.specs.Sample.{NoCodeLaw};

use flow_recovery::laws::{one_graph, reached_words};
use loop_choice::laws::{one_choice, one_plan, one_verdict};
use loop_shapes::laws::one_list;

/// An instruction of added code has one word.
#[tactic(auto, using(crate::proofs::Words::one_word))]
pub fn one_word()
    ensures { OneWordLaw }
{}

/// An executable has one list of verdicts. It has one division, and then no refusal is said of it, or it is refused for
/// one reason.
pub fn one_division()
    ensures verdicts { OneVerdictsLaw }
    ensures one { OneDivisionLaw }
    ensures apart { ApartLaw }
    ensures refusal { OneRefusalLaw }
{
    one_word();
    one_graph();
    one_list();
    one_verdict();
    one_plan();
    one_choice();
}

/// The verdicts of an executable have ascending headers, and there are fewer than 2^32.
pub fn verdicts_are_in_order()
    ensures { VerdictOrderLaw }
{
    reached_words();
}

/// The entries of an executable have ascending headers, and there are at most 1,024.
pub fn entries_are_in_order()
    ensures { OrderLaw }
{}

/// An executable without words has a division, without entries and words.
#[tactic(auto, using(crate::proofs::NoCode::none_divided))]
pub fn nothing_is_added_to_nothing()
    ensures { NoCodeLaw }
{}
