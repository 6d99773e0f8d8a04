ghost use Rattle.rewriter.specs.Admission.{OneAdmissionLaw};
ghost use Rattle.rewriter.specs.Rewriting.{OneRewritingLaw};

use loop_division::laws::one_division;

/// An executable has one image, or none for one reason.
pub fn one_image()
    ensures { OneRewritingLaw }
{
    one_division();
}

/// A file is admitted as one image, or not for one reason.
pub fn one_admission()
    ensures { OneAdmissionLaw }
{
    one_division();
}
