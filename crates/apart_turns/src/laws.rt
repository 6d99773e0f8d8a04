ghost use Rattle.apart_turns.specs.Apart.{ApartLaw};

use affine_addresses::laws::{addresses_are_values, each_access_is_listed};
use alias_checks::laws::{entry_values_are_of_states, held_values_do_not_wrap};
use dependence_tests::laws::{accesses_are_placed, terms_tell_of_accesses, tested_pairs_are_apart};

/// Where a check holds, no byte outside the cells that one of the turns it tells writes is read or written by another,
/// as long as each visit goes as the forms and the check tell.
pub fn held_turns_are_apart()
    ensures { ApartLaw }
{
    entry_values_are_of_states();
    held_values_do_not_wrap();
    addresses_are_values();
    each_access_is_listed();
    accesses_are_placed();
    tested_pairs_are_apart();
    terms_tell_of_accesses();
}
