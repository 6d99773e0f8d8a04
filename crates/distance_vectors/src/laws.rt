ghost use Rattle.std.specs.Prelude.{pos, negsuc};
ghost use Rattle.distance_vectors.specs.Distances.{ComesBefore, OneDistanceLaw};
ghost use Rattle.distance_vectors.specs.Turns.{MeetingLaw, vector};

/// At a vector the later access meets the earlier one exactly where their bytes do in turns that lie so far apart,
/// in each state.
pub fn vectors_tell_meetings()
    ensures { MeetingLaw }
{}

/// Two accesses have one distance at most.
pub fn one_distance()
    ensures { OneDistanceLaw }
{}

/// Vectors in their order, compared by hand.
pub fn worked_orders()
    ensures root { ComesBefore (vector (pos 1) (pos 7) (pos 7)) (vector (pos 2) (pos 0) (pos 0)) }
    ensures size { ComesBefore (vector (pos 1) (negsuc 0) (pos 7)) (vector (pos 1) (pos 2) (pos 0)) }
    ensures sizes_before_signs { ComesBefore (vector (pos 1) (negsuc 0) (negsuc 0))
        (vector (pos 1) (pos 1) (negsuc 2)) }
    ensures sign { ComesBefore (vector (pos 1) (pos 3) (negsuc 4)) (vector (pos 1) (negsuc 2) (pos 5)) }
    ensures last_sign { ComesBefore (vector (pos 1) (negsuc 2) (pos 5)) (vector (pos 1) (negsuc 2) (negsuc 4)) }
{}
