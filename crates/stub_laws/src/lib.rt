//! Laws of runs of added code, on one hart: what a list of instructions does from the place where it stands,
//! whatever code is around it. `proofs/` has the laws that the crates with added code build on: one instruction
//! and what may be concluded behind it, tests that go on or jump to an open target, and how they are joined.
#![tactic(auto)]

ghost use Rattle.stub_laws.specs.Laws.{StandLaw, AimedLaw, StraightLaw, OneEndLaw};
ghost use Rattle.stub_laws.specs.Sound.{SoundLaw};

use rv64_decode::{decoded_fields_are_in_range, instructions_keep_words};

/// Words that stand for instructions are these instructions wherever they stand, their open jumps aimed.
pub fn words_stand()
    ensures { StandLaw }
{}

/// Words that `aim` went over stand in the code that they were put into.
pub fn aimed_words_stand()
    ensures { AimedLaw }
{}

/// Instructions that neither jump nor access memory are executed one after the other.
pub fn straight_code_runs()
    ensures { StraightLaw }
{}

/// A run leaves its code at one place alone.
pub fn runs_end_once()
    ensures { OneEndLaw }
{}

/// Whatever a hart executes, its registers and slots stay words and the bytes of its memory bytes, and its number and
/// that of the harts stay.
pub fn runs_keep_words()
    ensures { SoundLaw }
{
    decoded_fields_are_in_range();
    instructions_keep_words();
}
