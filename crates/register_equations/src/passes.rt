ghost use Rattle.std.specs.Prelude.{ℕ, ◌≡◌, ◌≢◌, ◌<◌, ◌≤◌, ◌∷◌, ◌||◌, length, map, drop, IfOk, OnOk, IfSome, IfNone, Some, None, false, true, slice_index_or};
ghost use Rattle.std.specs.List.{All, Contains};
ghost use Rattle.std.specs.List.Sorted.{IsStrictlyIncreasing};
ghost use Rattle.linear_forms.specs.Forms.{is_small};
ghost use Rattle.loop_data.specs.declared.classes.Class.TheVariants.{Induction};
ghost use Rattle.loop_data.specs.Points.{Point, point_at, form_in};
ghost use Rattle.loop_data.specs.declared.shape.Level.{Level};
ghost use Rattle.loop_data.specs.LoopCode.{code_of, any_writes};
ghost use Rattle.loop_data.specs.LoopWords.{AreNest};
ghost use Rattle.loop_data.specs.Equations.{entry_form, header_form};
ghost use Rattle.loop_data.specs.Flows.{rows, row_at, IsFlow};
ghost use Rattle.loop_data.specs.Lookups.{role_by, classes_of, cell_map, AreNumbered};
ghost use Rattle.loop_data.specs.Paths.{IsInOrder};
ghost use Rattle.register_equations.specs.States.{IsFree, IsMet, IsLeft, IsHeaderForm, AreSetBy, AreFormsSet, AreSolvedPoints, past};
ghost use Rattle.loop_data.specs.Results.{AreSmallSteps};

use crate::headers::{class_at, entry, header_form};
use crate::meets::{form_after, is_met, leaves_none};
use crate::rows::copied;
use linear_forms::Form;
use loop_data::flow::row;
use loop_data::value_places::mark_body;
use loop_data::value_rows::written_location;
use loop_data::{Cells, Classes, Flow, Graph, Level, Points};
use std::alloc::{AllocError, Global};

/// Which locations the words of a body write.
fn written_flags(graph: &Graph, cells: &Cells, body: &[u64]) -> [bool; 48]
    requires graph { IsInOrder graph.now }
    requires cells { AreNumbered cells.now }
    ensures { (r : ℕ) → r < 48
        → slice_index_or result r false ≡ any_writes (code_of graph.now (cell_map cells.now)) body.now r }
{
    let mut flags = [false; 48];
    mark_body(&mut flags, graph, cells, body);
    flags
}

/// The form of a location at the header of a loop, out of what comes from outside.
fn headed(
    levels: &[Level],
    classes: &Classes,
    level: &Level,
    written: bool,
    r: usize,
    outside: Option<Form>,
) -> Option<Form>
    requires location { r < 48 }
    requires steps { AreSmallSteps classes.now }
    ensures { IsFree level.now.depth outside
        → result ≡ header_form level.now.depth (role_by written (slice_index_or (classes_of levels.now
        (classes.now.root ∷ classes.now.inner) level.now) r None)) outside }
{
    header_form(
        level.depth,
        class_at(levels, classes, level.header, r),
        written,
        outside,
    )
}

/// Gives the word at a place the entry values.
fn set_entries(cells: &Cells, points: &mut Points, p: usize) -> Result<(), AllocError>
    requires within { p < length points.old }
    requires count { length (point_at points.old p).forms ≡ 48 }
    ensures { OnOk result (AreSetBy (λ r o. o ≡ entry_form (record { instr = λ u. None; cells = cell_map cells.now }) r)
        p points.old points.new) }
{
    for r in 0..48usize {
        points.set_form(p, r, entry(cells, r))?;
    }
    Ok(())
}

/// Gives the header of a loop, at a place, its forms, out of those that come from outside, which it has.
fn set_headed(
    graph: &Graph,
    cells: &Cells,
    levels: &[Level],
    classes: &Classes,
    level: &Level,
    points: &mut Points,
    p: usize,
) -> Result<(), AllocError>
    requires graph { IsInOrder graph.now }
    requires cells { AreNumbered cells.now }
    requires steps { AreSmallSteps classes.now }
    requires within { p < length points.old }
    requires count { length (point_at points.old p).forms ≡ 48 }
    ensures { OnOk result (AreSetBy (λ r o. IsHeaderForm (code_of graph.now (cell_map cells.now)) levels.now
        classes.now level.now (λ x. x ≡ form_in points.old p r) r o) p points.old points.new) }
{
    let written = written_flags(graph, cells, level.body.as_slice());
    for r in 0..48usize {
        let outside = copied(points.form(p, r));
        let form = headed(levels, classes, level, written[r], r, outside);
        points.set_form(p, r, form)?;
    }
    Ok(())
}

/// Sets the forms at the root's header.
fn set_root(
    graph: &Graph,
    cells: &Cells,
    levels: &[Level],
    classes: &Classes,
    root: &Level,
    points: &mut Points,
    p: usize,
) -> Result<(), AllocError>
    requires graph { IsInOrder graph.now }
    requires cells { AreNumbered cells.now }
    requires steps { AreSmallSteps classes.now }
    requires within { p < length points.old }
    requires count { length (point_at points.old p).forms ≡ 48 }
    ensures { OnOk result (AreSetBy (λ r o. IsHeaderForm (code_of graph.now (cell_map cells.now)) levels.now
        classes.now root.now (λ x. x ≡ entry_form (code_of graph.now (cell_map cells.now)) r) r o)
        p points.old points.new) }
{
    set_entries(cells, points, p)?;
    set_headed(graph, cells, levels, classes, root, points, p)
}

/// Gives the word at a place the forms after the word at another.
fn set_after(flow: &Flow, points: &mut Points, p: usize, k: usize) -> Result<(), AllocError>
    requires place { p < length points.old }
    requires within { k < length points.old }
    requires forms { length (point_at points.old k).forms ≡ 48 }
    requires count { length flow.now.instrs.items ≡ length points.old }
    requires uses { length flow.now.uses.items ≡ length points.old }
    ensures { OnOk result (AreSetBy (λ r o. o ≡ past flow.now points.old k r) p points.old points.new) }
{
    let instr = &flow.instrs[k];
    let cell = flow.uses[k];
    match written_location(instr, cell) {
        Some(r) if r < 48 => {
            let form = form_after(instr, cell, points, k, r);
            points.copy_forms(p, k);
            points.set_form(p, r, form)
        }
        _ => {
            points.copy_forms(p, k);
            Ok(())
        }
    }
}

/// Takes the forms away at a place that do not come along the edges from all these places to the word at v.
fn meet(
    inner: &[Level],
    flow: &Flow,
    points: &mut Points,
    sources: &[usize],
    p: usize,
    v: u64,
) -> Result<(), AllocError>
    requires bodies { All (λ l. IsStrictlyIncreasing l.body) inner.now }
    requires within { All (λ k. k < length points.old) sources.now }
    requires apart { All (λ k. k ≢ p) sources.now }
    requires place { p < length points.old }
    requires forms { length (point_at points.old p).forms ≡ 48 }
    requires count { length flow.now.instrs.items ≡ length points.old }
    requires uses { length flow.now.uses.items ≡ length points.old }
    ensures { OnOk result (AreSetBy (IsLeft inner.now flow.now points.old sources.now p v) p points.old points.new) }
{
    for r in 0..48usize {
        if !is_met(inner, flow, points, sources, p, v, r) {
            points.set_form(p, r, None)?;
        }
    }
    Ok(())
}

/// Gives the word at a place, which stands at v, the forms that come along the edges from all these places.
fn set_met(
    inner: &[Level],
    flow: &Flow,
    points: &mut Points,
    sources: &[usize],
    p: usize,
    v: u64,
) -> Result<(), AllocError>
    requires bodies { All (λ l. IsStrictlyIncreasing l.body) inner.now }
    requires some { 1 ≤ length sources.now }
    requires within { All (λ k. k < length points.old) sources.now }
    requires apart { All (λ k. k ≢ p) sources.now }
    requires place { p < length points.old }
    requires count { length flow.now.instrs.items ≡ length points.old }
    requires uses { length flow.now.uses.items ≡ length points.old }
    ensures { OnOk result (AreSetBy (IsMet inner.now flow.now points.old sources.now v) p points.old points.new) }
{
    let first = sources[0];
    let from = points.at(first);
    set_after(flow, points, p, first)?;
    if sources.len() == 1 && leaves_none(inner, from, v) {
        return Ok(());
    }
    meet(inner, flow, points, sources, p, v)
}

/// Sets the forms at the header of an inner loop, at a place, out of those at its sources.
fn set_inner(
    graph: &Graph,
    cells: &Cells,
    levels: &[Level],
    classes: &Classes,
    inner: &[Level],
    level: &Level,
    flow: &Flow,
    points: &mut Points,
    sources: &[usize],
    p: usize,
    v: u64,
) -> Result<(), AllocError>
    requires graph { IsInOrder graph.now }
    requires cells { AreNumbered cells.now }
    requires steps { AreSmallSteps classes.now }
    requires bodies { All (λ l. IsStrictlyIncreasing l.body) inner.now }
    requires some { 1 ≤ length sources.now }
    requires within { All (λ k. k < length points.old) sources.now }
    requires apart { All (λ k. k ≢ p) sources.now }
    requires place { p < length points.old }
    requires count { length flow.now.instrs.items ≡ length points.old }
    requires uses { length flow.now.uses.items ≡ length points.old }
    ensures { OnOk result (AreSetBy (λ r o. IsHeaderForm (code_of graph.now (cell_map cells.now)) levels.now
        classes.now level.now (IsMet inner.now flow.now points.old sources.now v r) r o) p points.old points.new) }
{
    set_met(inner, flow, points, sources, p, v)?;
    set_headed(graph, cells, levels, classes, level, points, p)
}

/// The inner loop with this header.
fn level_at<'a>(inner: &'a [Level], v: u64) -> Option<&'a Level>
    ensures found { IfSome result (λ l. Contains inner.now l.now × (v ≡ l.now.header)) }
    ensures none { IfNone result ((l : Level) → Contains inner.now l → v ≢ l.header) }
{
    for l in inner {
        if l.header == v {
            return Some(l);
        }
    }
    None
}

/// Sets the forms at the word at a place, out of those at its sources.
fn set_place(
    graph: &Graph,
    cells: &Cells,
    levels: &[Level],
    classes: &Classes,
    inner: &[Level],
    root: &Level,
    flow: &Flow,
    points: &mut Points,
    p: usize,
) -> Result<(), AllocError>
    requires graph { IsInOrder graph.now }
    requires cells { AreNumbered cells.now }
    requires steps { AreSmallSteps classes.now }
    requires bodies { All (λ l. IsStrictlyIncreasing l.body) inner.now }
    requires within { p < length points.old }
    requires count { length flow.now.instrs.items ≡ length points.old }
    requires uses { length flow.now.uses.items ≡ length points.old }
    requires rows { length (rows flow.now.sources.items) ≡ length points.old }
    requires sources { All (λ k. k < length points.old) (row_at (rows flow.now.sources.items) p) }
    requires apart { All (λ k. k ≢ p) (row_at (rows flow.now.sources.items) p) }
    requires some { (point_at points.old p).at ≢ root.now.header → 1 ≤ length (row_at (rows flow.now.sources.items) p) }
    ensures { OnOk result (AreFormsSet (code_of graph.now (cell_map cells.now)) levels.now inner.now root.now
        classes.now flow.now p points.old points.new) }
{
    let v = points.at(p);
    if v == root.header {
        return set_root(graph, cells, levels, classes, root, points, p);
    }
    let sources = row(flow.sources.as_slice(), p);
    match level_at(inner, v) {
        Some(level) => set_inner(
            graph, cells, levels, classes, inner, level, flow, points, sources, p, v,
        ),
        None => set_met(inner, flow, points, sources, p, v),
    }
}

/// The loops but the first.
fn rest(levels: &[Level]) -> &[Level]
    requires { 1 ≤ length levels.now }
    ensures { result.now ≡ drop 1 levels.now }
{
    &levels[1..]
}

/// Sets the forms at each word, in the flow's order.
fn set_places(
    graph: &Graph,
    cells: &Cells,
    levels: &[Level],
    classes: &Classes,
    inner: &[Level],
    root: &Level,
    flow: &Flow,
    order: &[usize],
    points: &mut Points,
) -> Result<(), AllocError>
    requires graph { IsInOrder graph.now }
    requires cells { AreNumbered cells.now }
    requires nest { AreNest graph.now levels.now }
    requires steps { AreSmallSteps classes.now }
    requires split { levels.now ≡ root.now ∷ inner.now }
    requires bodies { All (λ l. IsStrictlyIncreasing l.body) inner.now }
    requires flow { IsFlow graph.now (cell_map cells.now) levels.now root.now.body flow.now }
    requires order { order.now ≡ flow.now.order.items }
    requires words { map (λ (p : Point). p.at) points.old ≡ root.now.body }
    ensures { OnOk result
        (AreSolvedPoints graph.now (cell_map cells.now) levels.now classes.now points.new) }
{
    for i in 0..order.len() {
        set_place(
            graph, cells, levels, classes, inner, root, flow, points, order[i],
        )?;
    }
    Ok(())
}

/// The forms at each word of a nest, whose root has this flow, in address order.
pub fn solved_points(
    alloc: Global,
    graph: &Graph,
    cells: &Cells,
    levels: &[Level],
    classes: &Classes,
    flow: &Flow,
) -> Result<Points, AllocError>
    requires graph { IsInOrder graph.now }
    requires cells { AreNumbered cells.now }
    requires nest { AreNest graph.now levels.now }
    requires steps { AreSmallSteps classes.now }
    requires flow { (l : Level) → slice_index_or levels.now 0 l ≡ l
        → IsFlow graph.now (cell_map cells.now) levels.now l.body flow.now }
    ensures { IfOk result (AreSolvedPoints graph.now (cell_map cells.now) levels.now classes.now) }
{
    let root = &levels[0];
    let mut points = Points::without_forms(alloc, root.body.as_slice())?;
    let order = flow.order.as_slice();
    set_places(
        graph,
        cells,
        levels,
        classes,
        rest(levels),
        root,
        flow,
        order,
        &mut points,
    )?;
    Ok(points)
}
