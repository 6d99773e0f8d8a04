ghost use Rattle.induction.specs.OneClass.{
  OneClassLaw,
  OneInnerClassLaw,
  OneClassesLaw,
  OneCarriedLaw,
  NoneCarriedLaw,
};

/// What is found of the locations of a loop is determined by its definition: the class of each in the root and in
/// each inner loop, or the least location that the loop carries.
pub fn one_class()
    ensures root { OneClassLaw }
    ensures inner { OneInnerClassLaw }
    ensures all { OneClassesLaw }
    ensures carried { OneCarriedLaw }
    ensures none { NoneCarriedLaw }
{}
