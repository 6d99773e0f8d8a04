ghost use Rattle.std.specs.Prelude.{◌≡◌, List};
ghost use Rattle.loop_data.specs.declared.graph.Graph.{Graph};
ghost use Rattle.loop_data.specs.declared.shape.LoopShape.{LoopShape};
ghost use Rattle.loop_data.specs.Loops.{AreLoops};
ghost use Rattle.loop_shapes.specs.Laws.{BodyLaw, ShapeLaw, NestLaw};

/// A graph has one list of loops.
pub fn one_list()
    ensures { (G : Graph) (xs ys : List LoopShape) → AreLoops G xs → AreLoops G ys → xs ≡ ys }
{}

/// How the bodies of the loops of an executable lie to each other.
pub fn bodies()
    ensures { BodyLaw }
{}

/// A loop has the shape where it has it by itself, and each of its inner loops has the shape.
pub fn shapes()
    ensures { ShapeLaw }
{}

/// What the levels of a listed loop without an early verdict promise.
pub fn nests()
    ensures { NestLaw }
{}
