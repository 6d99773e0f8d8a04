ghost use Rattle.std.specs.Prelude.{ℕ, ◌≡◌, ◌<◌, ◌≤◌, length, is_some, Some, IfOk, OnOk, IfErr, slice_index, slice_index_or};
ghost use Rattle.std.specs.List.{All, Contains};
ghost use Rattle.std.specs.List.Sorted.{IsStrictlyIncreasing};
ghost use Rattle.arrayvec.specs.ArrayVec.{array_vec_len};
ghost use Rattle.loop_data.specs.declared.shape.Level.{Level};
ghost use Rattle.loop_data.specs.Accesses.{motion_of, motion_at, AreAccesses, IsLeastIrregular, access_count};
ghost use Rattle.loop_data.specs.LoopCode.{code_of, instr_among};
ghost use Rattle.loop_data.specs.LoopWords.{AreNest};
ghost use Rattle.loop_data.specs.Lookups.{cell_map, form_at, use_of};
ghost use Rattle.loop_data.specs.Nests.{Nest, Holds};
ghost use Rattle.loop_data.specs.Paths.{IsInOrder};
ghost use Rattle.loop_data.specs.Results.{IsNestOf, IsInnermost, IsAround};
ghost use Rattle.affine_addresses.specs.Lists.{IsMadeOrNot, IsFound, IsAdded, IsRefused, HasRoom, AreAccessesTo};

use crate::addresses::accessed_form;
use arrayvec::ArrayVec;
use linear_forms::Form;
use loop_data::flow::instr_at;
use loop_data::nesting::{innermost, places_in};
use loop_data::{Access, Accesses, Cells, Equations, Graph, Level, LoopShape, Points};
use rv64_decode::{Instr, Reg, Width};

/// That the address of an access has no form, or that one of its strides is no multiple of the width.
#[derive(Clone, Copy, PartialEq, Eq, Debug)]
pub struct Irregular {
    /// The address of the word.
    pub at: u64,
}

/// The access of a word that accesses an address with this form.
fn access_with(levels: &[Level], at: u64, form: Form, width: Width, store: bool) -> Access
    requires bodies { All (λ l. IsStrictlyIncreasing l.body) levels.now }
    requires few { length levels.now ≤ 4 }
    requires depths { (l : Level) → Contains levels.now l → l.depth < 3 }
    requires held { (l : Level) × Contains levels.now l × Holds l at }
    ensures at { result.at ≡ at }
    ensures form { result.form ≡ form }
    ensures width { result.width ≡ width }
    ensures store { result.store ≡ store }
    ensures innermost { IsInnermost levels.now at result.level }
    ensures around { (k : ℕ) → k < 3 → IsAround levels.now at k (slice_index result.around k) }
{
    let level = innermost(levels, at);
    let around = places_in(levels, at);
    Access {
        at,
        level,
        around,
        form,
        width,
        store,
    }
}

/// The access of a word at an offset from a register.
fn access_from(
    levels: &[Level],
    points: &Points,
    at: u64,
    base: Reg,
    offset: i32,
    width: Width,
    store: bool,
) -> Result<Access, Irregular>
    requires bodies { All (λ l. IsStrictlyIncreasing l.body) levels.now }
    requires few { length levels.now ≤ 4 }
    requires depths { (l : Level) → Contains levels.now l → l.depth < 3 }
    requires held { (l : Level) × Contains levels.now l × Holds l at }
    ensures { IsMadeOrNot levels.now (form_at points.now at) at
        (record { base = base; offset = offset; width = width; store = store }) result }
{
    match accessed_form(points, at, base, offset, width) {
        Some(form) => Ok(access_with(levels, at, form, width, store)),
        None => Err(Irregular { at }),
    }
}

/// The access of a word that stands for this instruction, if it is a load or a store.
fn access_by(
    levels: &[Level],
    points: &Points,
    at: u64,
    instr: Instr,
) -> Option<Result<Access, Irregular>>
    requires bodies { All (λ l. IsStrictlyIncreasing l.body) levels.now }
    requires few { length levels.now ≤ 4 }
    requires depths { (l : Level) → Contains levels.now l → l.depth < 3 }
    requires held { (l : Level) × Contains levels.now l × Holds l at }
    ensures { IsFound levels.now (form_at points.now at) at (motion_of (Some instr)) result }
{
    match instr {
        Instr::Load { op, rs1, imm, .. } => {
            Some(access_from(levels, points, at, rs1, imm, op.width(), false))
        }
        Instr::Store { op, rs1, imm, .. } => {
            Some(access_from(levels, points, at, rs1, imm, op.width(), true))
        }
        _ => None,
    }
}

/// Whether the word at an address is among those that access a cell.
fn is_used(uses: &[(u64, u8)], at: u64) -> bool
    ensures { result ≡ is_some (use_of uses.now at) }
{
    for used in uses {
        if used.0 == at {
            return true;
        }
    }
    false
}

/// The access of the word at an address, if it is a load or a store of no cell.
fn access_at(
    graph: &Graph,
    cells: &Cells,
    levels: &[Level],
    points: &Points,
    at: u64,
) -> Option<Result<Access, Irregular>>
    requires graph { IsInOrder graph.now }
    requires bodies { All (λ l. IsStrictlyIncreasing l.body) levels.now }
    requires few { length levels.now ≤ 4 }
    requires depths { (l : Level) → Contains levels.now l → l.depth < 3 }
    requires held { (l : Level) × Contains levels.now l × Holds l at }
    ensures { IsFound levels.now (form_at points.now at) at (motion_at (code_of graph.now
        (cell_map cells.now)) at) result }
{
    if is_used(cells.uses.as_slice(), at) {
        return None;
    }
    match instr_at(graph, at) {
        Some(instr) => access_by(levels, points, at, instr),
        None => None,
    }
}

/// Puts the access of the word at an address at the end, if it is a load or a store of no cell.
fn add_access(
    graph: &Graph,
    cells: &Cells,
    levels: &[Level],
    points: &Points,
    at: u64,
    list: &mut ArrayVec<Access, 32>,
) -> Result<(), Irregular>
    requires graph { IsInOrder graph.now }
    requires bodies { All (λ l. IsStrictlyIncreasing l.body) levels.now }
    requires few { length levels.now ≤ 4 }
    requires depths { (l : Level) → Contains levels.now l → l.depth < 3 }
    requires held { (l : Level) × Contains levels.now l × Holds l at }
    requires room { HasRoom (motion_at (code_of graph.now (cell_map cells.now)) at) (array_vec_len list.old) }
    ensures added { OnOk result (IsAdded levels.now (form_at points.now at) at
        (motion_at (code_of graph.now (cell_map cells.now)) at) list.old.items list.new.items) }
    ensures refused { IfErr result (λ e. (e.at ≡ at)
        × IsRefused (form_at points.now at) (motion_at (code_of graph.now (cell_map cells.now)) at)) }
{
    match access_at(graph, cells, levels, points, at) {
        Some(Ok(access)) => {
            list.push(access);
            Ok(())
        }
        Some(Err(error)) => Err(error),
        None => Ok(()),
    }
}

/// The accesses of the words of a body, in address order.
fn accesses_of(
    graph: &Graph,
    cells: &Cells,
    levels: &[Level],
    points: &Points,
    body: &[u64],
) -> Result<Accesses, Irregular>
    requires graph { IsInOrder graph.now }
    requires bodies { All (λ l. IsStrictlyIncreasing l.body) levels.now }
    requires few { length levels.now ≤ 4 }
    requires depths { (l : Level) → Contains levels.now l → l.depth < 3 }
    requires held { (k : ℕ) → k < length body.now
        → (l : Level) × Contains levels.now l × Holds l (slice_index body.now k) }
    requires ordered { IsStrictlyIncreasing body.now }
    requires room { access_count (code_of graph.now (cell_map cells.now)) body.now ≤ 32 }
    ensures accesses { IfOk result (λ a. AreAccesses levels.now body.now (code_of graph.now (cell_map cells.now))
        (form_at points.now) a.list.items) }
    ensures irregular { IfErr result (λ e. IsLeastIrregular body.now (code_of graph.now (cell_map cells.now))
        (form_at points.now) e.at) }
{
    let mut list = ArrayVec::new();
    for i in 0..body.len() {
        match add_access(graph, cells, levels, points, body[i], &mut list) {
            Ok(()) => {}
            Err(error) => return Err(error),
        }
    }
    Ok(Accesses { list })
}

/// The loads and stores of a listed loop that are no accesses of its cells, in address order, with the forms of
/// their addresses, where the forms at its words are these. It is refused at the least of them whose address has
/// no form, or of whose strides one is no multiple of its width.
pub fn accesses(
    shape: &LoopShape,
    graph: &Graph,
    cells: &Cells,
    equations: &Equations,
) -> Result<Accesses, Irregular>
    requires graph { IsInOrder graph.now }
    requires nest { AreNest graph.now shape.now.levels }
    requires few { (N : Nest) → IsNestOf graph.now shape.now.levels N
        → access_count (code_of graph.now (cell_map cells.now)) N.root.body ≤ 32 }
    ensures accesses { IfOk result (λ a. (N : Nest) → IsNestOf graph.now shape.now.levels N
        → AreAccesses shape.now.levels N.root.body (code_of graph.now (cell_map cells.now))
        (form_at equations.now.points) a.list.items) }
    ensures irregular { IfErr result (λ e. (N : Nest) → IsNestOf graph.now shape.now.levels N
        → IsLeastIrregular N.root.body (code_of graph.now (cell_map cells.now)) (form_at equations.now.points)
        e.at) }
{
    let levels = shape.levels.as_slice();
    let body = levels[0].body.as_slice();
    accesses_of(graph, cells, levels, &equations.points, body)
}
