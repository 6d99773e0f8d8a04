ghost use Rattle.std.specs.Prelude.{◌≡◌, ◌<◌, ℕ, IsTrue, length, slice_index_or, false};
ghost use Rattle.loop_data.specs.Bodies.{IsHeader};
ghost use Rattle.loop_shapes.specs.Outer.{IsUnder};
ghost use Rattle.loop_shapes.specs.Places.{at, count_of};
ghost use Rattle.loop_shapes.specs.Program.{IsProgram, program_graph};

use crate::program::Program;

/// Whether a loop stands at a word that is the outermost loop round it.
pub fn is_outer(program: &Program, place: usize) -> bool
    requires program { IsProgram program.now }
    requires within { place < count_of (program_graph program.now) }
    ensures { IsTrue result → IsHeader (program_graph program.now) (at (program_graph program.now) place) }
{
    match program.around.outermost[place] {
        Some(outer) => outer == place,
        None => false,
    }
}

// The flag at a place.
fn flag_at(flags: &[bool], place: usize) -> bool
    requires { place < length flags.now }
    ensures { result ≡ slice_index_or flags.now place false }
{
    flags[place]
}

/// Whether the flag of the outermost loop round a word is set.
pub fn is_under(program: &Program, flags: &[bool], place: usize) -> bool
    requires program { IsProgram program.now }
    requires count { length flags.now ≡ count_of (program_graph program.now) }
    requires within { place < count_of (program_graph program.now) }
    ensures { IsTrue result → IsUnder (program_graph program.now) flags.now (at (program_graph program.now) place) }
{
    match program.around.outermost[place] {
        Some(outer) => flag_at(flags, outer),
        None => false,
    }
}
