ghost use Rattle.std.specs.Prelude.{◌≡◌, IfOk, IfErr};
ghost use Rattle.loop_data.specs.LoopWords.{AreNest};
ghost use Rattle.loop_data.specs.Lookups.{form_at};
ghost use Rattle.loop_data.specs.Paths.{IsInOrder};
ghost use Rattle.loop_choice.specs.Analysis.{AreTrips, IsFirstWithoutTrip};

use loop_data::{Equations, Graph, LoopShape, Trip};
use std::alloc::{AllocError, Global};
use trip_counts::{NoTrip, trip};

/// The trips of all levels of a loop, or the branch of the first that has none.
#[tactic(auto, using(crate::proofs::Outcomes::no_trips, crate::proofs::Outcomes::all_trips))]
pub(crate) fn trips_of(
    alloc: Global,
    shape: &LoopShape,
    graph: &Graph,
    equations: &Equations,
) -> Result<Result<Vec<Trip>, NoTrip>, AllocError>
    requires graph { IsInOrder graph.now }
    requires nest { AreNest graph.now shape.now.levels }
    ensures trips { IfOk result (λ r. IfOk r (λ v. AreTrips graph.now shape.now.levels
        (form_at equations.now.points) v.items)) }
    ensures none { IfOk result (λ r. IfErr r (λ e. IsFirstWithoutTrip graph.now shape.now.levels
        (form_at equations.now.points) e.at)) }
{
    let mut trips = Vec::new(alloc);
    for level in 0..shape.levels.as_slice().len() {
        match trip(shape, graph, equations, level as u32) {
            Ok(found) => trips.push(found)?,
            Err(none) => return Ok(Err(none)),
        }
    }
    Ok(Ok(trips))
}
