ghost use Rattle.register_equations.specs.OneSolution.{SomeSolutionLaw, OneSolutionLaw};

/// The equations of a nest have one solution: there is one, and two that solve them agree at each word of the nest.
pub fn solutions_agree()
    ensures some { SomeSolutionLaw }
    ensures only { OneSolutionLaw }
{}
