ghost use Rattle.std.specs.Prelude.{◌≡◌, ◌-◌, ◌^◌, ◌+◌, true, false, pos, negsuc, Some, None};
ghost use Rattle.rv64_decode.specs.declared.instr.BranchOp.TheVariants.{Beq, Bne, Blt, Bge, Bltu, Bgeu};
ghost use Rattle.loop_data.specs.declared.trips.Relation.TheVariants.{Differ, Less, AtMost, More, AtLeast};
ghost use Rattle.loop_data.specs.Equations.{plus_constant};
ghost use Rattle.loop_data.specs.Trips.{number};
ghost use Rattle.trip_counts.specs.TripLaws.{TurnLaw, PassLaw, StaysLaw};
ghost use Rattle.trip_counts.specs.Worked.{counter, bound, inner_counter, trip_of_branch, IsTrip, IsTripOfDifference};

/// Where the forms hold at the exit branch of a loop, the trip of the loop tells which of its turns stay in it,
/// and which one leaves it; and where they hold in the turns of the root below that number, none of these leaves, and
/// it is the number of turns that stay where the branch is reached in it.
pub fn trips_tell_stays()
    ensures turns { TurnLaw }
    ensures passes { PassLaw }
    ensures stays { StaysLaw }
{}

/// Trips of single branches, worked out by hand.
pub fn worked_trips()
    ensures below { IsTrip (trip_of_branch 0 Blt true (counter (pos 1)) bound) Less true (counter (pos 1)) (pos 1) }
    ensures not_at_least { IsTrip (trip_of_branch 0 Bge false (counter (pos 1)) bound) Less true
        (counter (pos 1)) (pos 1) }
    ensures below_unsigned { IsTrip (trip_of_branch 0 Bltu true (counter (pos 4)) bound) Less false
        (counter (pos 4)) (pos 4) }
    ensures at_most { IsTrip (trip_of_branch 0 Bge true bound (counter (pos 1))) AtMost true
        (counter (pos 1)) (pos 1) }
    ensures at_most_unsigned { IsTrip (trip_of_branch 0 Bltu false bound (counter (pos 1))) AtMost false
        (counter (pos 1)) (pos 1) }
    ensures above { IsTrip (trip_of_branch 0 Blt true bound (counter (negsuc 0))) More true
        (counter (negsuc 0)) (negsuc 0) }
    ensures above_unsigned { IsTrip (trip_of_branch 0 Bgeu false bound (counter (negsuc 7))) More false
        (counter (negsuc 7)) (negsuc 7) }
    ensures at_least { IsTrip (trip_of_branch 0 Bge true (counter (negsuc 0)) bound) AtLeast true
        (counter (negsuc 0)) (negsuc 0) }
    ensures not_below { IsTrip (trip_of_branch 0 Blt false (counter (negsuc 0)) bound) AtLeast true
        (counter (negsuc 0)) (negsuc 0) }
    ensures other { IsTripOfDifference (trip_of_branch 0 Bne true (plus_constant (counter (pos 8)) (pos 8)) bound)
        (pos 8) (pos 8) }
    ensures not_the_same { IsTripOfDifference (trip_of_branch 0 Beq false (counter (negsuc 7)) bound)
        (pos 0) (negsuc 7) }
    ensures at_least_unsigned { IsTrip (trip_of_branch 0 Bgeu true (counter (negsuc 0)) bound) AtLeast false
        (counter (negsuc 0)) (negsuc 0) }
    ensures bound_with_offset { trip_of_branch 0 Blt true (counter (pos 1)) (plus_constant bound (negsuc 0))
        ≡ Some (record {
          relation = Less;
          signed = true;
          start = counter (pos 1);
          bound = plus_constant bound (negsuc 0);
          step = pos 1;
        }) }
    ensures innermost { IsTrip (trip_of_branch 2 Blt true (record (counter (pos 0)) { third = pos 1 }) bound) Less true
        (record (counter (pos 0)) { third = pos 1 }) (pos 1) }
    ensures inner { IsTrip (trip_of_branch 1 Blt true (inner_counter (pos 0) (pos 1)) bound) Less true
        (inner_counter (pos 0) (pos 1)) (pos 1) }
    ensures two_strides { trip_of_branch 1 Blt true (inner_counter (pos 8) (pos 1)) bound ≡ None }
    ensures wrong_way { trip_of_branch 0 Blt true (counter (negsuc 0)) bound ≡ None }
    ensures standing { trip_of_branch 0 Blt true (counter (pos 0)) bound ≡ None }
    ensures two_counters { trip_of_branch 0 Bge true (counter (pos 1)) (counter (pos 1)) ≡ None }
    ensures same_step { trip_of_branch 0 Bne true (counter (pos 8)) (counter (pos 8)) ≡ None }
    ensures while_the_same { trip_of_branch 0 Beq true (counter (pos 8)) bound ≡ None }
{}

/// Numbers of turns that stay, worked out by hand: the relation, whether it is signed, the first value, the step,
/// and the bound.
pub fn worked_numbers()
    ensures met { number Differ true (negsuc 799) (pos 8) (pos 0) ≡ Some 100 }
    ensures met_downward { number Differ true (pos 800) (negsuc 7) (pos 0) ≡ Some 100 }
    ensures met_at_once { number Differ true (pos 0) (pos 8) (pos 0) ≡ Some 0 }
    ensures missed { number Differ true (negsuc 795) (pos 8) (pos 0) ≡ None }
    ensures away { number Differ true (pos 8) (pos 8) (pos 0) ≡ None }
    ensures below { number Less true (pos 0) (pos 8) (pos 17) ≡ Some 3 }
    ensures not_below { number Less true (pos 17) (pos 8) (pos 17) ≡ Some 0 }
    ensures below_unsigned { number Less false (pos (2 ^ 63)) (pos 1) (pos (2 ^ 63 + 5)) ≡ Some 5 }
    ensures below_wraps { number Less true (pos 0) (pos 8) (pos (2 ^ 63 - 1)) ≡ None }
    ensures at_most { number AtMost true (pos 0) (pos 8) (pos 16) ≡ Some 3 }
    ensures above { number More true (pos 17) (negsuc 7) (pos 0) ≡ Some 3 }
    ensures at_least { number AtLeast true (pos 16) (negsuc 7) (pos 0) ≡ Some 3 }
    ensures at_least_wraps { number AtLeast false (pos 16) (negsuc 7) (pos 0) ≡ None }
{}

ghost use Rattle.trip_counts.specs.OneTrip.{OneTripLaw};

/// Whether a loop has a trip, and which, is determined by the forms at the words of its nest.
pub fn one_trip()
    ensures { OneTripLaw }
{}
