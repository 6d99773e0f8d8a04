ghost use Rattle.std.specs.Prelude.{◌≡◌, ◌<◌, length, Some, None, IfOk, IfErr, slice_index_or};
ghost use Rattle.std.specs.List.Sorted.{IsStrictlyIncreasing};
ghost use Rattle.linear_forms.specs.Forms.{difference, limited};
ghost use Rattle.loop_data.specs.declared.shape.Level.{Level};
ghost use Rattle.loop_data.specs.LoopWords.{AreNest};
ghost use Rattle.loop_data.specs.Lookups.{form_at};
ghost use Rattle.loop_data.specs.Paths.{IsInOrder};
ghost use Rattle.loop_data.specs.Trips.{trip_toward, or_else, trip_to_zero, trip_between, trip_read, trip_by, trip_of, turned, IsTripAt};

use crate::forms::{is_still, moves_at, stride};
use crate::relations::{approaches, is_signed, stay, turned};
use linear_forms::Form;
use loop_data::flow::{instr_at, is_in};
use loop_data::lookups::form_read;
use loop_data::{Equations, Graph, Level, LoopShape, Points, Relation, Trip};
use rv64_decode::Instr;

/// That the turns of a loop that stay cannot be told from its exit branch.
#[derive(Clone, Copy, PartialEq, Eq, Debug)]
pub struct NoTrip {
    /// The address of the exit branch.
    pub at: u64,
}

/// The trip of a word that moves at this depth alone, toward one that does not move.
fn trip_toward(
    depth: u32,
    relation: Relation,
    signed: bool,
    form: &Form,
    bound: &Form,
) -> Option<Trip>
    ensures { result ≡ trip_toward depth relation signed form.now bound.now }
{
    let step = stride(depth, form);
    if is_still(bound) && moves_at(depth, form) && approaches(relation, step) {
        Some(Trip {
            relation,
            signed,
            start: form.copied(),
            bound: bound.copied(),
            step,
        })
    } else {
        None
    }
}

/// The trip of a difference, which moves toward 0.
fn trip_to_zero(depth: u32, first: &Form, second: &Form) -> Option<Trip>
    ensures { result ≡ trip_to_zero depth (limited (difference first.now second.now)) }
{
    match first.sub(second) {
        Some(form) => trip_toward(depth, Relation::Differ, true, &form, &Form::default()),
        None => None,
    }
}

/// The trip of the operand that moves.
fn trip_of_either(
    depth: u32,
    relation: Relation,
    signed: bool,
    first: &Form,
    second: &Form,
) -> Option<Trip>
    ensures { result ≡ or_else (trip_toward depth relation signed first.now second.now)
        (trip_toward depth (turned relation) signed second.now first.now) }
{
    match trip_toward(depth, relation, signed, first, second) {
        Some(trip) => Some(trip),
        None => trip_toward(depth, turned(relation), signed, second, first),
    }
}

/// The trip of two operands.
fn trip_between(
    depth: u32,
    relation: Relation,
    signed: bool,
    first: &Form,
    second: &Form,
) -> Option<Trip>
    ensures { result ≡ trip_between depth relation signed first.now second.now }
{
    match relation {
        Relation::Differ => trip_to_zero(depth, first, second),
        _ => trip_of_either(depth, relation, signed, first, second),
    }
}

/// The trip of a branch with this relation, out of the forms of its operands.
pub fn trip_read(
    depth: u32,
    relation: Option<Relation>,
    signed: bool,
    first: Option<Form>,
    second: Option<Form>,
) -> Option<Trip>
    ensures { result ≡ trip_read depth relation signed first second }
{
    match (relation, first, second) {
        (Some(relation), Some(first), Some(second)) => {
            trip_between(depth, relation, signed, &first, &second)
        }
        _ => None,
    }
}

/// The trip of a loop that is left at this instruction, where its locations have the forms at these points.
fn trip_by(level: &Level, instr: Instr, points: &Points) -> Option<Trip>
    requires { IsStrictlyIncreasing level.now.body }
    ensures { result ≡ trip_by level.now (Some instr) (form_at points.now level.now.exit) }
{
    match instr {
        Instr::Branch { op, rs1, rs2, imm } => {
            let taken = level.exit.wrapping_add((imm as i64).cast_unsigned());
            let relation = stay(op, is_in(level.body.as_slice(), taken));
            let first = form_read(points, level.exit, rs1);
            let second = form_read(points, level.exit, rs2);
            trip_read(level.depth, relation, is_signed(op), first, second)
        }
        _ => None,
    }
}

/// The trip of a loop, where its locations have the forms at these points.
fn trip_of(graph: &Graph, level: &Level, points: &Points) -> Option<Trip>
    requires graph { IsInOrder graph.now }
    requires body { IsStrictlyIncreasing level.now.body }
    ensures { result ≡ trip_of graph.now level.now (form_at points.now) }
{
    match instr_at(graph, level.exit) {
        Some(instr) => trip_by(level, instr, points),
        None => None,
    }
}

/// The comparison at the exit branch of the loop at this place among the levels of a listed loop, out of which
/// come the turns that stay, where the forms at its words are these. It is refused where an operand of the
/// branch has no form, or where no operand moves in this loop alone toward a bound that stays.
pub fn trip(
    shape: &LoopShape,
    graph: &Graph,
    equations: &Equations,
    level: u32,
) -> Result<Trip, NoTrip>
    requires graph { IsInOrder graph.now }
    requires nest { AreNest graph.now shape.now.levels }
    requires within { level < length shape.now.levels }
    ensures trip { IfOk result (λ t. IsTripAt graph.now shape.now.levels (form_at equations.now.points) level
        (Some t)) }
    ensures none { IfErr result (λ e. IsTripAt graph.now shape.now.levels (form_at equations.now.points) level
        None) }
    ensures at { IfErr result (λ e. (l : Level) → slice_index_or shape.now.levels level l ≡ l → e.at ≡ l.exit) }
{
    let levels = shape.levels.as_slice();
    let level = &levels[level as usize];
    match trip_of(graph, level, &equations.points) {
        Some(trip) => Ok(trip),
        None => Err(NoTrip { at: level.exit }),
    }
}
