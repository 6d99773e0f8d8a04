ghost use Rattle.std.specs.Prelude.{ℕ, ◌≡◌, ◌≢◌, ◌<◌, ◌≤◌, ◌↔◌, ◌||◌, ◌&&◌, ◌==◌, [], None, length, map, nat_lt, if◌then◌else◌, false, true, Some, IfOk, slice_index_or};
ghost use Rattle.std.specs.List.{All, Contains};
ghost use Rattle.loop_data.specs.declared.shape.Level.{Level};
ghost use Rattle.loop_data.specs.declared.values.Values.{Values};
ghost use Rattle.loop_data.specs.LoopWords.{AreNest};
ghost use Rattle.loop_data.specs.Locations.{instr_writes, writes_register, writes_cell};
ghost use Rattle.loop_data.specs.LoopCode.{any_writes, code_of};
ghost use Rattle.loop_data.specs.Facts.{Fact};
ghost use Rattle.loop_data.specs.FactPass.{header_fact};
ghost use Rattle.loop_data.specs.Flows.{rows, row_at, IsFlow};
ghost use Rattle.loop_data.specs.Lookups.{fact_of, fact_in, use_of, cell_map, AreNumbered};
ghost use Rattle.loop_data.specs.Paths.{IsInOrder};
ghost use Rattle.loop_data.specs.Results.{AreFactsOf};
ghost use Rattle.loop_data.specs.ValueStates.{past, lost_by, values_at, IsInnerFact, IsState, IsSetAt};

use crate::cells::{Cells, use_at};
use crate::flow::{Flow, instr_next, loop_flow, row};
use crate::graph::Graph;
use crate::shape::{Level, LoopShape};
use crate::value_rows::{is_store, met, set_after, target_of};
use crate::values::{Value, Values};
use linear_forms::Loc;
use rv64_decode::Instr;
use std::alloc::{AllocError, Global};

/// Points at which all the same is known, one for each word of a body.
fn same_values(alloc: Global, of: &[Value; 48], body: &[u64]) -> Result<Vec<Values>, AllocError>
    ensures { IfOk result (λ v. map (λ (p : Values). p.at) v.items ≡ body.now) }
{
    let mut all = Vec::with_capacity(alloc, body.len())?;
    for x in body {
        all.push(Values { at: *x, of: *of })?;
    }
    Ok(all)
}

/// What is known of a location at the header: its own value, and 0 of x0.
fn header_value(cells: &Cells, r: usize) -> Value
    requires { r < 48 }
    ensures { fact_of result ≡ header_fact (record { instr = λ u. None; cells = cell_map cells.now }) r }
{
    if r == 0 {
        Value::Known(0)
    } else if r < 32 {
        Value::Base(Loc::Reg(r as u8), 0)
    } else if r - 32 < cells.list.len() {
        Value::Base(Loc::Cell((r - 32) as u8), 0)
    } else {
        Value::Nothing
    }
}

/// Sets what is known to that at the header.
fn set_header(of: &mut [Value; 48], cells: &Cells)
    ensures { (r : ℕ) → r < 48
        → fact_in of.new r ≡ header_fact (record { instr = λ u. None; cells = cell_map cells.now }) r }
{
    for r in 0..48usize {
        of[r] = header_value(cells, r);
    }
}

/// Sets the flag of the register that an instruction writes.
fn mark_register(flags: &mut [bool; 48], instr: &Instr)
    ensures { (r : ℕ) → r < 48 → slice_index_or flags.new r false
        ≡ (slice_index_or flags.old r false || (if nat_lt r 32 then writes_register instr.now r else false)) }
{
    let r = target_of(instr) as usize;
    if r != 0 && r < 32 {
        flags[r] = true;
    }
}

/// Sets the flag of the cell that an instruction writes, where it accesses this cell.
fn mark_cell(flags: &mut [bool; 48], instr: &Instr, cell: u8)
    ensures { (r : ℕ) → r < 48 → slice_index_or flags.new r false
        ≡ (slice_index_or flags.old r false || (if nat_lt r 32 then false else writes_cell instr.now (Some cell) r)) }
{
    let r = 32 + cell as usize;
    if r < 48 && is_store(instr) {
        flags[r] = true;
    }
}

/// Sets the flags of the locations that an instruction writes, which accesses this cell, if any.
fn mark_instr(flags: &mut [bool; 48], instr: &Instr, cell: Option<u8>)
    ensures { (r : ℕ) → r < 48 → slice_index_or flags.new r false
        ≡ (slice_index_or flags.old r false || instr_writes (Some instr.now) cell r) }
{
    mark_register(flags, instr);
    if let Some(cell) = cell {
        mark_cell(flags, instr, cell);
    }
}

/// Sets the flag of the location that a word writes, which accesses this cell, if any.
fn mark_word(flags: &mut [bool; 48], instr: &Option<Instr>, cell: Option<u8>)
    ensures { (r : ℕ) → r < 48
        → slice_index_or flags.new r false ≡ (slice_index_or flags.old r false || instr_writes instr.now cell r) }
{
    if let Some(instr) = instr {
        mark_instr(flags, instr, cell);
    }
}

/// Sets the flags of the locations that the words of a body write.
pub fn mark_body(flags: &mut [bool; 48], graph: &Graph, cells: &Cells, body: &[u64])
    requires graph { IsInOrder graph.now }
    requires cells { AreNumbered cells.now }
    ensures { (r : ℕ) → r < 48 → slice_index_or flags.new r false
        ≡ (slice_index_or flags.old r false || any_writes (code_of graph.now (cell_map cells.now)) body.now r) }
{
    let uses = cells.uses.as_slice();
    let mut next = 0;
    for u in body {
        mark_word(flags, &instr_next(graph, &mut next, *u), use_at(uses, *u));
    }
}

/// The same value, unless it is lost.
fn kept(value: Value, lost: bool) -> Value
    ensures { fact_of result ≡ (if lost then None else fact_of value) }
{
    if lost { Value::Nothing } else { value }
}

/// Forgets what is known of the locations whose flags are set.
fn forget(of: &mut [Value; 48], flags: &[bool; 48])
    ensures { (r : ℕ) → r < 48
        → fact_in of.new r ≡ (if slice_index_or flags.now r false then None else fact_in of.old r) }
{
    for r in 0..48usize {
        of[r] = kept(of[r], flags[r]);
    }
}

/// Forgets what is known of the locations that the words of a body write.
fn forget_body(of: &mut [Value; 48], graph: &Graph, cells: &Cells, body: &[u64])
    requires graph { IsInOrder graph.now }
    requires cells { AreNumbered cells.now }
    ensures { (r : ℕ) → r < 48 → fact_in of.new r
        ≡ (if any_writes (code_of graph.now (cell_map cells.now)) body.now r then None else fact_in of.old r) }
{
    let mut flags = [false; 48];
    mark_body(&mut flags, graph, cells, body);
    forget(of, &flags);
}

/// Forgets what is known of the locations that a loop writes, if this is its header.
fn forget_loop(of: &mut [Value; 48], graph: &Graph, cells: &Cells, level: &Level, v: u64)
    requires graph { IsInOrder graph.now }
    requires cells { AreNumbered cells.now }
    ensures { (r : ℕ) → r < 48 → fact_in of.new r
        ≡ (if (level.now.header == v) && any_writes (code_of graph.now (cell_map cells.now)) level.now.body r
        then None else fact_in of.old r) }
{
    if level.header == v {
        forget_body(of, graph, cells, level.body.as_slice());
    }
}

/// Forgets what is known of the locations that the loops with this header write.
fn forget_loops(of: &mut [Value; 48], graph: &Graph, cells: &Cells, levels: &[Level], v: u64)
    requires graph { IsInOrder graph.now }
    requires cells { AreNumbered cells.now }
    ensures { (r : ℕ) → r < 48 → fact_in of.new r
        ≡ (if lost_by (code_of graph.now (cell_map cells.now)) levels.now v r then None else fact_in of.old r) }
{
    for level in levels {
        forget_loop(of, graph, cells, level, v);
    }
}

/// Sets what is known of each location to what is known after the word at a place.
fn set_past(of: &mut [Value; 48], flow: &Flow, points: &[Values], k: usize)
    requires within { k < length points.now }
    requires count { length flow.now.instrs.items ≡ length points.now }
    requires uses { length flow.now.uses.items ≡ length points.now }
    ensures { (r : ℕ) → r < 48 → fact_in of.new r ≡ past flow.now points.now k r }
{
    set_after(
        of,
        points[k].at,
        &flow.instrs[k],
        flow.uses[k],
        &points[k].of,
    )
}

/// Leaves of what is known of each location what others tell of it too.
fn meet(of: &mut [Value; 48], others: &[Value; 48])
    ensures { (r : ℕ) → r < 48 → (x : Fact) → (fact_in of.new r ≡ Some x)
        ↔ ((fact_in of.old r ≡ Some x) × (fact_in others.now r ≡ Some x)) }
{
    for r in 0..48usize {
        of[r] = met(of[r], others[r]);
    }
}

/// Leaves of what is known of each location what is known of it after the word at a place too.
fn meet_past(of: &mut [Value; 48], flow: &Flow, points: &[Values], k: usize)
    requires within { k < length points.now }
    requires count { length flow.now.instrs.items ≡ length points.now }
    requires uses { length flow.now.uses.items ≡ length points.now }
    ensures { (r : ℕ) → r < 48 → (x : Fact) → (fact_in of.new r ≡ Some x)
        ↔ ((fact_in of.old r ≡ Some x) × (past flow.now points.now k r ≡ Some x)) }
{
    let mut others = [Value::Nothing; 48];
    set_past(&mut others, flow, points, k);
    meet(of, &others);
}

/// Sets what is known of each location to what is known where the edges from these places meet.
fn set_met(of: &mut [Value; 48], flow: &Flow, points: &[Values], sources: &[usize])
    requires some { 1 ≤ length sources.now }
    requires within { All (λ k. k < length points.now) sources.now }
    requires count { length flow.now.instrs.items ≡ length points.now }
    requires uses { length flow.now.uses.items ≡ length points.now }
    ensures { (r : ℕ) → r < 48 → (x : Fact) → (fact_in of.new r ≡ Some x)
        ↔ ((k : ℕ) → Contains sources.now k → past flow.now points.now k r ≡ Some x) }
{
    set_past(of, flow, points, sources[0]);
    for i in 1..sources.len() {
        meet_past(of, flow, points, sources[i]);
    }
}

/// Sets what is known at the word at a place.
fn set_place(
    graph: &Graph,
    cells: &Cells,
    levels: &[Level],
    header: u64,
    flow: &Flow,
    points: &mut Vec<Values>,
    p: usize,
)
    requires graph { IsInOrder graph.now }
    requires cells { AreNumbered cells.now }
    requires within { p < length points.old.items }
    requires count { length flow.now.instrs.items ≡ length points.old.items }
    requires uses { length flow.now.uses.items ≡ length points.old.items }
    requires rows { length (rows flow.now.sources.items) ≡ length points.old.items }
    requires sources { (k : ℕ) → Contains (row_at (rows flow.now.sources.items) p) k
        → k < length points.old.items }
    requires some { (values_at points.old.items p).at ≢ header
        → 1 ≤ length (row_at (rows flow.now.sources.items) p) }
    ensures { IsSetAt (code_of graph.now (cell_map cells.now)) levels.now header flow.now p points.old.items
        points.new.items }
{
    let v = points[p].at;
    let mut of = points[p].of;
    if v == header {
        set_header(&mut of, cells);
        points[p].of = of;
        return;
    }
    let sources = row(flow.sources.as_slice(), p);
    set_met(&mut of, flow, points.as_slice(), sources);
    forget_loops(&mut of, graph, cells, levels, v);
    points[p].of = of;
}

/// Sets what is known at each word, in the flow's order.
fn set_places(
    graph: &Graph,
    cells: &Cells,
    levels: &[Level],
    level: usize,
    flow: &Flow,
    points: &mut Vec<Values>,
)
    requires graph { IsInOrder graph.now }
    requires cells { AreNumbered cells.now }
    requires nest { AreNest graph.now levels.now }
    requires within { level < length levels.now }
    requires flow { (l : Level) → slice_index_or levels.now level l ≡ l
        → IsFlow graph.now (cell_map cells.now) levels.now l.body flow.now }
    requires words { (l : Level) → slice_index_or levels.now level l ≡ l
        → map (λ (p : Values). p.at) points.old.items ≡ l.body }
    ensures { AreFactsOf graph.now levels.now (cell_map cells.now) level points.new.items }
{
    let header = levels[level].header;
    for p in flow.order.as_slice() {
        set_place(graph, cells, levels, header, flow, points, *p);
    }
}

/// What is known of each location before each word of the loop at this place among the levels of a nest, in
/// address order, where its words are given by their places.
pub fn flow_values(
    alloc: Global,
    graph: &Graph,
    cells: &Cells,
    levels: &[Level],
    level: usize,
    flow: &Flow,
) -> Result<Vec<Values>, AllocError>
    requires graph { IsInOrder graph.now }
    requires cells { AreNumbered cells.now }
    requires nest { AreNest graph.now levels.now }
    requires within { level < length levels.now }
    requires flow { (l : Level) → slice_index_or levels.now level l ≡ l
        → IsFlow graph.now (cell_map cells.now) levels.now l.body flow.now }
    ensures { IfOk result (λ v. AreFactsOf graph.now levels.now (cell_map cells.now) level v.items) }
{
    let mut of = [Value::Nothing; 48];
    set_header(&mut of, cells);
    let mut points = same_values(alloc, &of, levels[level].body.as_slice())?;
    set_places(graph, cells, levels, level, flow, &mut points);
    Ok(points)
}

/// What is known of each location before each word of the loop at this place among the levels of a nest, in
/// address order: over the values that the locations have at that loop's header. Without cells it is what is known
/// of registers alone.
pub fn value_pass(
    alloc: Global,
    shape: &LoopShape,
    level: u32,
    graph: &Graph,
    cells: &Cells,
) -> Result<Vec<Values>, AllocError>
    requires graph { IsInOrder graph.now }
    requires cells { AreNumbered cells.now }
    requires nest { AreNest graph.now shape.now.levels }
    requires within { level < length shape.now.levels }
    ensures { IfOk result (λ v. AreFactsOf graph.now shape.now.levels (cell_map cells.now) level v.items) }
{
    let levels = shape.levels.as_slice();
    let flow = loop_flow(alloc, graph, cells, levels, level as usize)?;
    flow_values(alloc, graph, cells, levels, level as usize, &flow)
}
