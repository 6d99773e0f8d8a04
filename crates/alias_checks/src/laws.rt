ghost use Rattle.std.specs.Prelude.{◌≡◌, ◌+◌, ◌-◌, ◌^◌, true, false, pos, negsuc, Some, None, [], ◌∷◌};
ghost use Rattle.alias_checks.specs.declared.areas.Permission.TheVariants.{Read, Write, ReadAndWrite};
ghost use Rattle.alias_checks.specs.Areas.{in_memory};
ghost use Rattle.alias_checks.specs.CellTests.{cell_fits, are_clear};
ghost use Rattle.alias_checks.specs.TurnTests.{turns_of};
ghost use Rattle.alias_checks.specs.AccessTests.{duty_fits, access_fits, pair_passes};
ghost use Rattle.alias_checks.specs.Answers.{answer};
ghost use Rattle.alias_checks.specs.BoundsLaws.{StartLaw, KeptLaw, EntryLaw};
ghost use Rattle.alias_checks.specs.Holds.{HoldsLaw};
ghost use Rattle.alias_checks.specs.Values.{DutyLaw, AddressLaw};
ghost use Rattle.alias_checks.specs.Worked.{four, entered, below, told, two_areas, range, everywhere, cell, owing, up_to_turn, access, vadd, rows, room, still, standing};

use dependence_tests::laws::{one_term, terms_tell_of_accesses};

/// The bounds in a check are those of the areas of memory, from the start of an executable on.
pub fn bounds_tell_areas()
    ensures start { StartLaw }
    ensures kept { KeptLaw }
{}

/// The entry values of a check are the values of the locations in the state of an arrival.
pub fn entry_values_are_of_states()
    ensures { EntryLaw }
{}

/// Where a check holds, the values of duties are numbers of 32 bits in all turns and passes, and exactly then; and the
/// addresses of accesses go on by their strides without wrapping.
pub fn held_values_do_not_wrap()
    ensures duties { DutyLaw }
    ensures addresses { AddressLaw }
{}

/// The turns and passes that trips tell: of a counter in x10 and a bound in x11.
#[tactic(auto, unfolding(crate::specs::TurnTests::turns_of, crate::specs::TurnTests::few_stays))]
pub fn worked_turns()
    ensures fifteen { turns_of (below (pos 1) ∷ []) (entered 0 15) ≡ None }
    ensures sixteen { turns_of (below (pos 1) ∷ []) (entered 0 16) ≡ told 16 1 }
    ensures most { turns_of (below (pos 1) ∷ []) (entered 0 (2 ^ 31)) ≡ told (2 ^ 31) 1 }
    ensures too_many { turns_of (below (pos 1) ∷ []) (entered 0 (2 ^ 31 + 1)) ≡ None }
    ensures wraps { turns_of (below (pos 8) ∷ []) (entered 0 (2 ^ 63 - 1)) ≡ None }
    ensures negative { turns_of (below (pos 1) ∷ []) (entered (2 ^ 64 - 8) 8) ≡ told 16 1 }
    ensures most_passes { turns_of (below (pos 2) ∷ below (pos 1) ∷ []) (entered 0 (2 ^ 31 - 1))
        ≡ told (2 ^ 30) (2 ^ 31) }
    ensures too_many_passes { turns_of (below (pos 2) ∷ below (pos 1) ∷ []) (entered 0 (2 ^ 31)) ≡ None }
    ensures no_trip { turns_of [] (entered 0 16) ≡ None }
{}

/// Ranges in two areas of 16 bytes that touch, of which the first may be read and written, and the second read alone.
#[tactic(auto, unfolding(crate::specs::Areas::in_memory))]
pub fn worked_ranges()
    ensures whole { in_memory two_areas ReadAndWrite (range 4096 4112) ≡ true }
    ensures below { in_memory two_areas Read (range 4095 4103) ≡ false }
    ensures last { in_memory two_areas Write (range 4104 4112) ≡ true }
    ensures a_byte_behind { in_memory two_areas Write (range 4104 4113) ≡ false }
    ensures over_the_border { in_memory two_areas Read (range 4104 4120) ≡ false }
    ensures second { in_memory two_areas Read (range 4112 4128) ≡ true }
    ensures behind_all { in_memory two_areas Read (range 4120 4129) ≡ false }
    ensures no_write { in_memory two_areas Write (range 4112 4120) ≡ false }
    ensures no_read_and_write { in_memory two_areas ReadAndWrite (range 4112 4120) ≡ false }
    ensures before_zero { in_memory two_areas Read (negsuc 0, pos 4112) ≡ false }
{}

/// Cells of 8 bytes, at the values of x10 and x11.
#[tactic(auto, unfolding(crate::specs::CellTests::cell_fits, crate::specs::CellTests::are_clear, crate::specs::Areas::in_memory))]
pub fn worked_cells()
    ensures aligned { cell_fits everywhere (four 4096 0 0 0) (cell 10 (pos 8) true) ≡ true }
    ensures misaligned { cell_fits everywhere (four 4096 0 0 0) (cell 10 (pos 4) true) ≡ false }
    ensures last_address { cell_fits everywhere (four (2 ^ 31) 0 0 0) (cell 10 (negsuc 7) true) ≡ true }
    ensures too_high { cell_fits everywhere (four (2 ^ 31) 0 0 0) (cell 10 (pos 0) true) ≡ false }
    ensures stored_in_readable { cell_fits (in_memory two_areas) (four 4112 0 0 0) (cell 10 (pos 0) true) ≡ false }
    ensures read_in_readable { cell_fits (in_memory two_areas) (four 4112 0 0 0) (cell 10 (pos 0) false) ≡ true }
    ensures same_bytes { are_clear (four 4096 4096 0 0) (cell 10 (pos 0) true) (cell 11 (pos 0) false) ≡ false }
    ensures second_stored { are_clear (four 4096 4100 0 0) (cell 10 (pos 0) false) (cell 11 (pos 0) true) ≡ false }
    ensures both_read { are_clear (four 4096 4096 0 0) (cell 10 (pos 0) false) (cell 11 (pos 0) false) ≡ true }
    ensures behind { are_clear (four 4096 4104 0 0) (cell 10 (pos 0) true) (cell 11 (pos 0) true) ≡ true }
    ensures one_base { are_clear (four 4096 0 0 0) (cell 10 (pos 0) true) (cell 10 (pos 8) true) ≡ true }
{}

/// A form whose values are to be numbers of 32 bits: x10 with a step in each turn.
#[tactic(auto, unfolding(crate::specs::AccessTests::duty_fits, crate::specs::Entry::start_value))]
pub fn worked_duties()
    ensures fits { duty_fits (entered (2 ^ 31 - 16) 0) (up_to_turn 15) (owing (pos 1)) ≡ true }
    ensures last_turn { duty_fits (entered (2 ^ 31 - 16) 0) (up_to_turn 16) (owing (pos 1)) ≡ false }
    ensures downward { duty_fits (entered (2 ^ 64 - 2 ^ 31 + 15) 0) (up_to_turn 15) (owing (negsuc 0)) ≡ true }
    ensures below { duty_fits (entered (2 ^ 64 - 2 ^ 31 + 15) 0) (up_to_turn 16) (owing (negsuc 0)) ≡ false }
    ensures large { duty_fits (entered (2 ^ 31) 0) (up_to_turn 15) (owing (negsuc 0)) ≡ false }
    ensures no_step { duty_fits (entered (2 ^ 63) 0) (up_to_turn (2 ^ 31 - 1)) (owing (pos 0)) ≡ false }
{}

/// An access of 8 bytes at x10, with a step in each turn.
#[tactic(auto, unfolding(crate::specs::AccessTests::access_fits, crate::specs::AccessTests::place_of, crate::specs::Entry::start_value, crate::specs::Areas::in_memory))]
pub fn worked_accesses()
    ensures last_address { access_fits everywhere (entered (2 ^ 31 - 8) 0) (up_to_turn 15) (access 10 (pos 8) true)
        ≡ true }
    ensures too_high { access_fits everywhere (entered (2 ^ 31) 0) (up_to_turn 15) (access 10 (pos 8) true) ≡ false }
    ensures misaligned { access_fits everywhere (entered 4100 0) (up_to_turn 15) (access 10 (pos 8) true) ≡ false }
    ensures last_bytes { access_fits (in_memory two_areas) (entered 4096 0) (up_to_turn 1) (access 10 (pos 8) true)
        ≡ true }
    ensures a_turn_more { access_fits (in_memory two_areas) (entered 4096 0) (up_to_turn 2) (access 10 (pos 8) true)
        ≡ false }
    ensures downward { access_fits (in_memory two_areas) (entered 4104 0) (up_to_turn 1)
        (access 10 (negsuc 7) true) ≡ true }
    ensures below { access_fits (in_memory two_areas) (entered 4104 0) (up_to_turn 2) (access 10 (negsuc 7) true)
        ≡ false }
    ensures load_where_none_stores { access_fits (in_memory two_areas) (entered 4112 0) (up_to_turn 1)
        (access 10 (pos 8) false) ≡ true }
    ensures store_where_none_stores { access_fits (in_memory two_areas) (entered 4112 0) (up_to_turn 1)
        (access 10 (pos 8) true) ≡ false }
{}

/// The loop of vadd: its registers x10 to x13 at the arrival, and an area from 0x20000 on.
#[tactic(auto, unfolding(crate::specs::Entry::entry, crate::specs::Entry::start_value, crate::specs::TurnTests::turns_of, crate::specs::TurnTests::few_stays, crate::specs::AccessTests::access_fits, crate::specs::AccessTests::place_of, crate::specs::AccessTests::pair_passes, crate::specs::Areas::in_memory))]
pub fn worked_vadd()
    ensures divided { answer vadd (four 0x22000 0x20000 0x23000 (0x20000 + 808)) (room 16384 true) ≡ told 100 1 }
    ensures stored_in_next { answer vadd (four 0x22000 0x20000 0x22008 (0x20000 + 808)) (room 16384 true) ≡ None }
    ensures read_alone { answer vadd (four 0x22000 0x20000 0x23000 (0x20000 + 808)) (room 16384 false) ≡ None }
    ensures last_byte { answer vadd (four 0x22000 0x20000 0x23000 (0x20000 + 808)) (room 13088 true) ≡ told 100 1 }
    ensures a_byte_less { answer vadd (four 0x22000 0x20000 0x23000 (0x20000 + 808)) (room 13087 true) ≡ None }
    ensures fifteen { answer vadd (four 0x22000 0x20000 0x23000 (0x20000 + 128)) (room 16384 true) ≡ None }
    ensures sixteen { answer vadd (four 0x22000 0x20000 0x23000 (0x20000 + 136)) (room 16384 true) ≡ told 16 1 }
    ensures one_array { answer vadd (four 0x20000 0x20000 0x20000 (0x20000 + 808)) (room 16384 true) ≡ told 100 1 }
    ensures one_place { pair_passes (still ∷ []) (up_to_turn 15) (0, 0, standing) ≡ false }
{}

/// The answer of a check with each two accesses of which one stores is so many turns and passes exactly where its
/// eight tests hold with them, as facts over integers and areas of memory.
pub fn answers_tell_tests()
    ensures { HoldsLaw }
{
    terms_tell_of_accesses();
}

/// A nest that stores 8 bytes in each pass and begins 80 bytes farther in each turn: x10 to x13 at the arrival, and an
/// area from 0x20000 on.
#[tactic(auto, unfolding(crate::specs::Entry::entry, crate::specs::Entry::start_value, crate::specs::TurnTests::turns_of, crate::specs::TurnTests::few_stays, crate::specs::AccessTests::access_fits, crate::specs::AccessTests::place_of, crate::specs::AccessTests::pair_passes, crate::specs::Areas::in_memory))]
pub fn worked_rows()
    ensures ten_passes { answer rows (four 0 16 0 9) (room 1280 true) ≡ told 16 10 }
    ensures a_byte_less { answer rows (four 0 16 0 9) (room 1279 true) ≡ None }
    ensures a_pass_more { answer rows (four 0 16 0 10) (room 4096 true) ≡ None }
    ensures one_pass { answer rows (four 0 16 9 9) (room 1208 true) ≡ told 16 1 }
{}

ghost use Rattle.alias_checks.specs.OneList.{OnePairsLaw};

/// The pairs of a check are determined by its accesses: which two they are of, and what these have in common.
pub fn one_list_of_pairs()
    ensures { OnePairsLaw }
{
    one_term();
}
