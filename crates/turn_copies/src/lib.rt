//! Copies of a loop's words in added code, with which several harts execute turns of the loop apart. A cell of the
//! loop is a slot there, and the branch at which it is left stays.
#![tactic(auto)]

ghost use Rattle.turn_copies.specs.Edges.{SaveLaw, RefuseLaw, LeaveLaw};
ghost use Rattle.turn_copies.specs.Listing.{PlacedLaw, BodyLaw, SizeLaw, NestLaw};
ghost use Rattle.turn_copies.specs.Passages.{PassageLaw, VisitsLaw, TurnsLaw};
ghost use Rattle.turn_copies.specs.Regions.{BlocksLaw, RegionLaw};
ghost use Rattle.turn_copies.specs.Sharing.{AccessLaw, DisjointLaw, ReplayLaw};
ghost use Rattle.turn_copies.specs.StubWords.{StubLaw, EndLaw};
ghost use Rattle.turn_copies.specs.Stubs.{PlacesLaw};

/// Words that stand for instructions are these instructions where they stand.
pub fn words_are_placed()
    ensures { PlacedLaw }
{}

/// The copies of a loop's words may be put down one after the other.
pub fn copies_stand_in_order()
    ensures copies { BodyLaw }
    ensures size { SizeLaw }
{}

/// The words of a nest may be copied.
pub fn nests_are_bodies()
    ensures { NestLaw }
{}

/// A passage through the copies is a turn, and the visits of which it makes the accesses are that turn's.
pub fn a_passage_is_a_turn()
    ensures passage { PassageLaw }
    ensures visits { VisitsLaw }
{}

/// A hart executes as many turns as it has left, and then comes to the join.
pub fn turns_follow_each_other()
    ensures { TurnsLaw }
{}

/// The blocks of all harts are the turns of the loop, one after the other, and each turn is in one block.
pub fn blocks_are_all_turns()
    ensures { BlocksLaw }
{}

/// From the fork to the join a hart executes the turns of its block, in order.
pub fn a_hart_executes_its_block()
    ensures { RegionLaw }
{}

/// Added code begins with the registers that it works with in their slots.
pub fn registers_are_saved()
    ensures { SaveLaw }
{}

/// Where the check fails, a hart leaves with all registers as they were.
pub fn registers_are_restored()
    ensures { RefuseLaw }
{}

/// Behind the join the stored cells are written back, and a hart leaves with the registers and bytes of the arrival.
pub fn cells_are_written_back()
    ensures { LeaveLaw }
{}

/// Accesses of different turns do not meet outside the cells, and all of them in order leave what the original does.
pub fn turns_share_no_byte()
    ensures accesses { AccessLaw }
    ensures disjoint { DisjointLaw }
    ensures replayed { ReplayLaw }
{}

/// The code of a divided loop as one list has each of its parts where the others lead to.
pub fn parts_are_in_place()
    ensures { PlacesLaw }
{}

/// The words of a stub stand among others as its parts, and the places where they end are inside.
pub fn stubs_stand()
    ensures stands { StubLaw }
    ensures ends { EndLaw }
{}
