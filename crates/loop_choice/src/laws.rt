ghost use Rattle.loop_choice.specs.Asking.{AskingLaw};
ghost use Rattle.loop_choice.specs.Choice.{OneChoiceLaw, SameChoiceLaw};
ghost use Rattle.loop_choice.specs.Independence.{IndependenceLaw, StayLaw};
ghost use Rattle.loop_choice.specs.OnePlan.{OnePlanLaw};
ghost use Rattle.loop_choice.specs.OneVerdict.{OneNestVerdictLaw, OneVerdictLaw};
ghost use Rattle.loop_choice.specs.States.{ProgramLaw, StoredLaw, WordsLaw};

use affine_addresses::laws::{addresses_are_values, each_access_is_listed, one_list_of_accesses};
use alias_checks::laws::{
    answers_tell_tests, bounds_tell_areas, entry_values_are_of_states, held_values_do_not_wrap,
    one_list_of_pairs,
};
use apart_turns::laws::held_turns_are_apart;
use distance_vectors::laws::one_distance;
use induction::laws::one_class;
use loop_data::laws::one_pass;
use loop_shapes::laws::nests;
use register_equations::laws::{forms_are_right, one_result, uses_ask_for_cells};
use stack_slots::laws::{cells_are_found, one_list_of_cells};
use trip_counts::laws::{one_trip, trips_tell_stays};

/// There is one choice of loops.
pub fn one_choice()
    ensures { OneChoiceLaw }
{}

/// Which loops are chosen depends on their headers, bodies and verdicts alone.
pub fn choices_are_by_verdicts()
    ensures { SameChoiceLaw }
{}

/// The verdict of a nest whose shape decides none is determined by its definition.
pub fn one_nest_verdict()
    ensures { OneNestVerdictLaw }
{
    one_list_of_cells();
    one_class();
    one_result();
    one_trip();
    one_list_of_accesses();
    one_distance();
}

/// The verdict of a listed loop is determined by its definition.
pub fn one_verdict()
    ensures { OneVerdictLaw }
{
    one_nest_verdict();
    nests();
}

/// The plan and the check of a listed loop are determined by their definition.
pub fn one_plan()
    ensures { OnePlanLaw }
{
    one_list_of_cells();
    one_class();
    one_result();
    one_trip();
    one_list_of_accesses();
    one_list_of_pairs();
    nests();
}

/// Where the check of a loop that is judged Parallel holds in a state at the loop, the turns that it tells are
/// independent: they exist and end, execute words of the loop alone and meet no fault and no call, each location has
/// its role, cells are touched by their own accesses alone, and no byte outside them that one turn writes is read or
/// written by another. None of these turns leaves the loop.
pub fn held_turns_are_independent()
    ensures independent { IndependenceLaw }
    ensures stay { StayLaw }
{
    one_pass();
    cells_are_found();
    forms_are_right();
    uses_ask_for_cells();
    trips_tell_stays();
    addresses_are_values();
    each_access_is_listed();
    answers_tell_tests();
    entry_values_are_of_states();
    held_values_do_not_wrap();
    held_turns_are_apart();
}

/// A state at a loop of an executable has the words of the loop in memory, as the graph has them. Where the check of a
/// loop that is judged Parallel holds in it, the turns that it tells execute them, and a store to the bytes of a stored
/// cell is not refused.
pub fn states_have_the_program()
    ensures program { ProgramLaw }
    ensures words { WordsLaw }
    ensures stored { StoredLaw }
{
    one_pass();
    cells_are_found();
    forms_are_right();
    uses_ask_for_cells();
    trips_tell_stays();
    addresses_are_values();
    each_access_is_listed();
    answers_tell_tests();
    entry_values_are_of_states();
    held_values_do_not_wrap();
    held_turns_are_apart();
}

/// The check of a loop that is judged Parallel can be asked: its cells have registers as bases and offsets that have
/// room in an instruction, its pairs are those of its accesses, and its areas those with which the executable starts.
pub fn plans_can_be_asked()
    ensures { AskingLaw }
{
    cells_are_found();
    bounds_tell_areas();
}
