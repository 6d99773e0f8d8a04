ghost use Rattle.std.specs.Prelude.{◌≡◌, true, false, pos, negsuc, Some, None, [], ◌∷◌, ◌-◌, ◌^◌};
ghost use Rattle.loop_data.specs.declared.plans.Term.TheVariants.{Same, Apart};
ghost use Rattle.dependence_tests.specs.PairTests.{pair_test, hopeless};
ghost use Rattle.dependence_tests.specs.Overlaps.{PairLaw, PlacedLaw};
ghost use Rattle.dependence_tests.specs.Hopeless.{HopelessLaw};
ghost use Rattle.dependence_tests.specs.Known.{KnownLaw};
ghost use Rattle.dependence_tests.specs.Separation.{TestLaw, HopelessExactly};
ghost use Rattle.dependence_tests.specs.Worked.{strided, boxed, ranged};

use linear_forms::laws::one_word;

/// Where the test of two accesses holds, no byte is accessed by both in two different turns of the root.
pub fn tested_pairs_are_apart()
    ensures { PairLaw }
{}

/// The loops round an access are told apart by their places.
pub fn accesses_are_placed()
    ensures { PlacedLaw }
{}

/// The test of a term is that of the accesses which it is of, and so for hopeless pairs.
pub fn terms_tell_of_accesses()
    ensures test { TestLaw }
    ensures hopeless { HopelessExactly }
{}

/// The known difference of two accesses is that of their addresses in each run.
pub fn known_differences_are_exact()
    ensures { KnownLaw }
{
    one_word();
}

/// A hopeless pair at its known difference fails the test for any 16 turns or more.
pub fn hopeless_pairs_fail()
    ensures { HopelessLaw }
{}

/// Pairs of the same shape without inner strides.
pub fn worked_blocks()
    ensures same_address { pair_test (strided 8 0 8 None) (boxed (pos 0) 15 0) ≡ true }
    ensures next_turn { pair_test (strided 8 0 8 None) (boxed (pos 8) 15 0) ≡ false }
    ensures wide_stride { pair_test (strided 16 0 16 None) (boxed (pos 8) 15 0) ≡ true }
    ensures far { pair_test (strided 8 0 8 None) (boxed (pos 128) 15 0) ≡ true }
    ensures far_back { pair_test (strided 8 0 8 None) (boxed (negsuc 127) 15 0) ≡ true }
    ensures a_byte_nearer { pair_test (strided 8 0 8 None) (boxed (pos 127) 15 0) ≡ false }
    ensures no_stride { pair_test (strided 0 0 0 None) (boxed (pos 7) 15 0) ≡ false }
    ensures no_stride_apart { pair_test (strided 0 0 0 None) (boxed (pos 8) 15 0) ≡ true }
    ensures least_number { pair_test (strided 8 0 8 None) (boxed (negsuc (2 ^ 63 - 1)) 15 0) ≡ true }
    ensures most_turns { pair_test (strided 8 0 8 None) (boxed (pos 8) (2 ^ 31 - 1) 0) ≡ false }
{}

/// Pairs of the same shape with one inner stride.
pub fn worked_strides()
    ensures lanes { pair_test (strided 8 800 8 None) (boxed (pos 0) 99 99) ≡ true }
    ensures a_turn_more { pair_test (strided 8 800 8 None) (boxed (pos 0) 100 99) ≡ false }
    ensures residues { pair_test (strided 16 16 16 None) (boxed (pos 8) 99 99) ≡ true }
    ensures residues_back { pair_test (strided 16 16 16 None) (boxed (negsuc 7) 99 99) ≡ true }
    ensures near_residue { pair_test (strided 16 16 16 None) (boxed (pos 12) 99 99) ≡ false }
    ensures near_residue_back { pair_test (strided 16 16 16 None) (boxed (negsuc 3) 99 99) ≡ false }
    ensures apart { pair_test (strided 8 8 8 None) (boxed (pos 1592) 99 99) ≡ true }
    ensures a_byte_nearer { pair_test (strided 8 8 8 None) (boxed (pos 1591) 99 99) ≡ false }
{}

/// Pairs of different shapes, by their ranges.
pub fn worked_ranges()
    ensures touch { pair_test Apart (ranged 0 8 8 16) ≡ true }
    ensures touch_back { pair_test Apart (ranged 8 16 0 8) ≡ true }
    ensures meet { pair_test Apart (ranged 0 9 8 16) ≡ false }
    ensures same { pair_test Apart (ranged 0 8 0 8) ≡ false }
{}

/// Pairs that are hopeless, or are not.
pub fn worked_hopeless()
    ensures next_turn { hopeless (strided 8 0 8 (Some (pos 8))) ≡ true }
    ensures same_address { hopeless (strided 8 0 8 (Some (pos 0))) ≡ false }
    ensures far { hopeless (strided 8 0 8 (Some (pos 128))) ≡ false }
    ensures a_byte_nearer { hopeless (strided 8 0 8 (Some (negsuc 126))) ≡ true }
    ensures one_pass { hopeless (strided 8 8 8 (Some (pos 128))) ≡ false }
    ensures unknown { hopeless (strided 8 0 8 None) ≡ false }
    ensures other_shape { hopeless Apart ≡ false }
{}

ghost use Rattle.dependence_tests.specs.OneTerm.{OneTermLaw};

/// What two accesses have in common before a loop begins is determined by their forms, widths and loops.
pub fn one_term()
    ensures { OneTermLaw }
{}
