ghost use Rattle.rewrite_cli.specs.Answer.{OneEffect};

use loop_choice::laws::one_choice;
use loop_division::laws::one_division;
use rewriter::laws::{one_admission, one_image};

/// A command has one effect at most, whatever files and input it is given: what its clause says that there
/// is, is the only one.
pub fn one_effect()
    ensures { OneEffect }
{
    one_division();
    one_choice();
    one_image();
    one_admission();
}
