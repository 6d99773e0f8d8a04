//! What an image counts on one hart is what the walk over the serial run of its executable counts.
#![tactic(auto)]

ghost use Rattle.walks.specs.Laws.{OneWalkLaw, OnLaw, EntriesLaw, MoreLaw, ReachLaw, PlainLaw, WalkLaw, EndLaw};
ghost use Rattle.walks.specs.Sample.{SampleWalk};

use added_runs::the_only_hart_counts_its_events;
use entered_loops::{entries_lead_to_later_arrivals, serial_states_are_whole};
use flow_recovery::laws::one_graph;
use loop_choice::laws::one_plan;
use loop_shapes::laws::one_list;

/// There is one walk over the serial run of an executable. It goes on from each of its points at which the serial run has
/// no ending, has a count of each entry, counts an event at least each time, and so comes to each instruction or passes it
/// in the turns of a loop. Where the image has no entries it counts one event for each instruction and nothing else.
pub fn there_is_one_walk()
    ensures one { OneWalkLaw }
    ensures on { OnLaw }
    ensures entries { EntriesLaw }
    ensures more { MoreLaw }
    ensures reach { ReachLaw }
    ensures plain { PlainLaw }
{
    one_graph();
    one_list();
    one_plan();
    the_only_hart_counts_its_events();
    serial_states_are_whole();
    entries_lead_to_later_arrivals();
}

/// After as many events as the walk has counted at one of its points, the machine with one hart that runs the image has
/// counted what the walk has, and all else is as in the serial run; it has no ending before. Where the serial run ends so
/// does the walk, and there the machine has the ending, the counts of the whole walk, and its events as the number of all
/// steps.
pub fn one_hart_counts_the_walk()
    ensures walk { WalkLaw }
    ensures end { EndLaw }
{
    one_graph();
    one_list();
    one_plan();
    the_only_hart_counts_its_events();
    serial_states_are_whole();
    entries_lead_to_later_arrivals();
}

/// A program of two instructions, whose image has no entries, counts two steps.
pub fn a_sample_is_walked()
    ensures { SampleWalk }
{
    there_is_one_walk();
    one_hart_counts_the_walk();
}
