ghost use Rattle.std.specs.Prelude.{ℕ, List, ◌≡◌, ◌<◌, ◌+◌, ◌∷◌, ◌++◌, [], length, map, if◌then◌else◌, true, false, replicate, slice_index, slice_index_or, slice_set, IfOk, OnOk, IfSome, IfNone, IsTrue, ◌↔◌};
ghost use Rattle.std.specs.List.{All, Contains};
ghost use Rattle.std.specs.List.Sorted.{IsStrictlyIncreasing};
ghost use Rattle.loop_data.specs.declared.shape.Level.{Level};
ghost use Rattle.loop_data.specs.Nests.{has};
ghost use Rattle.loop_data.specs.LoopWords.{AreNest};
ghost use Rattle.loop_data.specs.Paths.{addresses_of, IsInOrder, Leads};
ghost use Rattle.loop_data.specs.LoopCode.{instr_among};
ghost use Rattle.loop_data.specs.Lookups.{use_of, cell_map, AreNumbered};
ghost use Rattle.loop_data.specs.Flows.{rows, row_at, closes_one, Added, HasSources, AreRowsWithin, HasRowRank, IsSet, IsMarked, IsVisit, IsSweep, IsWholeOrder, IsFlow};

use crate::cells::{Cells, use_at};
use crate::graph::{Graph, Word};
use crate::shape::Level;
use rv64_decode::{Instr, decode};
use std::alloc::{AllocError, Global};

/// The words of a loop by their places in its body, with the edges between them that close no loop.
#[derive(Drop)]
pub struct Flow {
    /// What each word stands for.
    pub instrs: Vec<Option<Instr>>,
    /// The number of the cell that each word accesses, if it does.
    pub uses: Vec<Option<u8>>,
    /// For each word the places of the words from which such an edge leads to it.
    pub sources: Vec<Vec<usize>>,
    /// All places, each after those of its sources.
    pub order: Vec<usize>,
}

/// The place of an address among addresses in order.
pub fn place_of(body: &[u64], x: u64) -> Option<usize>
    requires { IsStrictlyIncreasing body.now }
    ensures found { IfSome result (λ i. (i < length body.now) × (slice_index body.now i ≡ x)) }
    ensures none { IfNone result (¬ Contains body.now x) }
{
    match body.binary_search(&x) {
        Ok(i) => Some(i),
        Err(_) => None,
    }
}

/// The place of an address among addresses in order, looked for at this place first.
fn place_near(body: &[u64], near: usize, x: u64) -> Option<usize>
    requires { IsStrictlyIncreasing body.now }
    ensures found { IfSome result (λ i. (i < length body.now) × (slice_index body.now i ≡ x)) }
    ensures none { IfNone result (¬ Contains body.now x) }
{
    if near < body.len() && body[near] == x {
        return Some(near);
    }
    place_of(body, x)
}

/// Whether an address is among addresses in order.
pub fn is_in(body: &[u64], x: u64) -> bool
    requires { IsStrictlyIncreasing body.now }
    ensures { result ≡ has body.now x }
{
    match place_of(body, x) {
        Some(_) => true,
        None => false,
    }
}

/// The place of the reached word at an address.
fn word_place(words: &[Word], x: u64) -> Option<usize>
    requires { IsStrictlyIncreasing (addresses_of words.now) }
    ensures found { IfSome result (λ i. (i < length words.now) × (slice_index (addresses_of words.now) i ≡ x)) }
    ensures none { IfNone result (¬ Contains (addresses_of words.now) x) }
{
    match words.binary_search_by_key(&x, |w| w.at) {
        Ok(i) => Some(i),
        Err(_) => None,
    }
}

/// The place of the reached word at an address, looked for at this place first; that becomes the place behind it.
fn next_place(words: &[Word], next: &mut usize, x: u64) -> Option<usize>
    requires { IsStrictlyIncreasing (addresses_of words.now) }
    ensures found { IfSome result (λ i. (i < length words.now) × (slice_index (addresses_of words.now) i ≡ x)) }
    ensures none { IfNone result (¬ Contains (addresses_of words.now) x) }
{
    let near = *next;
    if near < words.len() && words[near].at == x {
        *next = near + 1;
        return Some(near);
    }
    let found = word_place(words, x);
    if let Some(i) = found {
        *next = i + 1;
    }
    found
}

/// What the reached word at an address stands for.
pub fn instr_at(graph: &Graph, x: u64) -> Option<Instr>
    requires { IsInOrder graph.now }
    ensures { result ≡ instr_among graph.now.words x }
{
    instr_next(graph, &mut 0, x)
}

/// What the reached word at an address stands for, which is looked for at this place first; that becomes the place
/// behind it, so that words in a row are found without a search.
pub fn instr_next(graph: &Graph, next: &mut usize, x: u64) -> Option<Instr>
    requires { IsInOrder graph.now }
    ensures { result ≡ instr_among graph.now.words x }
{
    let words = graph.words.as_slice();
    match next_place(words, next, x) {
        Some(i) => decode(words[i].bits),
        None => None,
    }
}

/// Where the step edges of the reached word at an address lead, which is looked for at this place first; that
/// becomes the place behind it.
fn steps_next<'a>(graph: &'a Graph, next: &mut usize, x: u64) -> &'a [u64]
    requires { IsInOrder graph.now }
    ensures { (y : ℕ) → Contains result.now y ↔ Leads graph.now x y }
{
    let words = graph.words.as_slice();
    match next_place(words, next, x) {
        Some(i) => words[i].steps.as_slice(),
        None => &[],
    }
}

/// What the words of a body stand for.
fn instrs_of(alloc: Global, graph: &Graph, body: &[u64]) -> Result<Vec<Option<Instr>>, AllocError>
    requires { IsInOrder graph.now }
    ensures { IfOk result (λ v. v.items ≡ map (instr_among graph.now.words) body.now) }
{
    let mut all = Vec::with_capacity(alloc, body.len())?;
    let mut next = 0;
    for x in body {
        all.push(instr_next(graph, &mut next, *x))?;
    }
    Ok(all)
}

/// The numbers of the cells that the words of a body access.
fn uses_of(alloc: Global, cells: &Cells, body: &[u64]) -> Result<Vec<Option<u8>>, AllocError>
    requires { AreNumbered cells.now }
    ensures { IfOk result (λ v. v.items ≡ map (use_of cells.now.uses.items) body.now) }
{
    let uses = cells.uses.as_slice();
    body.iter().map(|x| use_at(uses, *x)).collect(alloc)
}

/// Whether an edge closes one of the loops.
fn closes(levels: &[Level], u: u64, v: u64) -> bool
    requires { All (λ l. IsStrictlyIncreasing l.body) levels.now }
    ensures { result ≡ closes_one levels.now u v }
{
    for l in levels {
        if l.header == v && is_in(l.body.as_slice(), u) {
            return true;
        }
    }
    false
}

/// Puts a number at the end of a row.
fn add(sources: &mut [Vec<usize>], to: usize, from: usize) -> Result<(), AllocError>
    requires { to < length sources.old }
    ensures ok { OnOk result (rows sources.new
        ≡ slice_set (rows sources.old) to (row_at (rows sources.old) to ++ from ∷ [])) }
{
    sources[to].push(from)?;
    Ok(())
}

/// Puts a place into the row of an address, unless the edge to it closes a loop.
fn add_step(
    sources: &mut [Vec<usize>],
    levels: &[Level],
    body: &[u64],
    from: usize,
    y: u64,
) -> Result<(), AllocError>
    requires ordered { IsStrictlyIncreasing body.now }
    requires levels { All (λ l. IsStrictlyIncreasing l.body) levels.now }
    requires count { length sources.old ≡ length body.now }
    requires within { from < length body.now }
    ensures { OnOk result (Added body.now from
        (λ v. (y ≡ v) × (closes_one levels.now (slice_index body.now from) v ≡ false))
        (rows sources.old) (rows sources.new)) }
{
    if closes(levels, body[from], y) {
        return Ok(());
    }
    match place_near(body, from + 1, y) {
        Some(to) => add(sources, to, from),
        None => Ok(()),
    }
}

/// Puts a place into the rows of these addresses, unless the edges to them close loops.
fn add_steps(
    sources: &mut [Vec<usize>],
    levels: &[Level],
    body: &[u64],
    from: usize,
    steps: &[u64],
) -> Result<(), AllocError>
    requires ordered { IsStrictlyIncreasing body.now }
    requires levels { All (λ l. IsStrictlyIncreasing l.body) levels.now }
    requires count { length sources.old ≡ length body.now }
    requires within { from < length body.now }
    ensures { OnOk result (Added body.now from
        (λ v. Contains steps.now v × (closes_one levels.now (slice_index body.now from) v ≡ false))
        (rows sources.old) (rows sources.new)) }
{
    for y in steps {
        add_step(sources, levels, body, from, *y)?;
    }
    Ok(())
}

/// Puts the place of a word into the rows of the words to which its edges lead.
fn add_word(
    sources: &mut [Vec<usize>],
    graph: &Graph,
    next: &mut usize,
    levels: &[Level],
    body: &[u64],
    from: usize,
) -> Result<(), AllocError>
    requires graph { IsInOrder graph.now }
    requires ordered { IsStrictlyIncreasing body.now }
    requires levels { All (λ l. IsStrictlyIncreasing l.body) levels.now }
    requires within { from < length body.now }
    requires below { HasSources graph.now levels.now body.now from (rows sources.old) }
    ensures { OnOk result (HasSources graph.now levels.now body.now (from + 1) (rows sources.new)) }
{
    add_steps(
        sources,
        levels,
        body,
        from,
        steps_next(graph, next, body[from]),
    )
}

/// Rows without numbers.
pub fn empty_rows(alloc: Global, count: usize) -> Result<Vec<Vec<usize>>, AllocError>
    ensures { IfOk result (λ v. rows v.items ≡ replicate count []) }
{
    let mut all = Vec::with_capacity(alloc, count)?;
    for _ in 0..count {
        all.push(Vec::new(alloc))?;
    }
    Ok(all)
}

/// For each word of a body the places of the words from which edges lead to it that close no loop.
fn sources_of(
    alloc: Global,
    graph: &Graph,
    levels: &[Level],
    body: &[u64],
) -> Result<Vec<Vec<usize>>, AllocError>
    requires graph { IsInOrder graph.now }
    requires ordered { IsStrictlyIncreasing body.now }
    requires levels { All (λ l. IsStrictlyIncreasing l.body) levels.now }
    ensures { IfOk result (λ v. HasSources graph.now levels.now body.now (length body.now) (rows v.items)) }
{
    let mut sources = empty_rows(alloc, body.len())?;
    let mut next = 0;
    for from in 0..body.len() {
        add_word(&mut sources, graph, &mut next, levels, body, from)?;
    }
    Ok(sources)
}

/// The numbers of a row.
pub fn row(sources: &[Vec<usize>], i: usize) -> &[usize]
    requires { i < length sources.now }
    ensures { result.now ≡ row_at (rows sources.now) i }
{
    sources[i].as_slice()
}

/// Whether the flags of all these places are set.
fn are_set(flags: &[bool], places: &[usize]) -> bool
    requires { All (λ p. p < length flags.now) places.now }
    ensures { IsTrue result ↔ All (IsSet flags.now) places.now }
{
    places.iter().all(|p| flags[*p])
}

/// Puts a place into the order, where all of its row are in it.
fn visit(
    sources: &[Vec<usize>],
    flags: &mut Vec<bool>,
    order: &mut Vec<usize>,
    p: usize,
) -> Result<bool, AllocError>
    requires within { p < length sources.now }
    requires rows { AreRowsWithin (rows sources.now) }
    requires marked { IsMarked (rows sources.now) flags.old.items order.old.items }
    ensures marked { OnOk result (IsMarked (rows sources.now) flags.new.items order.new.items) }
    ensures visit { IfOk result (IsVisit (rows sources.now) p flags.old.items flags.new.items) }
{
    if flags[p] {
        return Ok(true);
    }
    if !are_set(flags.as_slice(), row(sources, p)) {
        return Ok(false);
    }
    flags[p] = true;
    order.push(p)?;
    Ok(true)
}

/// Whether both are true.
fn both(here: bool, whole: bool) -> bool
    ensures { result ≡ (if here then whole else false) }
{
    here && whole
}

/// Visits each place; whether all are in the order then.
fn sweep(
    sources: &[Vec<usize>],
    flags: &mut Vec<bool>,
    order: &mut Vec<usize>,
) -> Result<bool, AllocError>
    requires rows { AreRowsWithin (rows sources.now) }
    requires marked { IsMarked (rows sources.now) flags.old.items order.old.items }
    ensures marked { OnOk result (IsMarked (rows sources.now) flags.new.items order.new.items) }
    ensures sweep { IfOk result (IsSweep (rows sources.now) (length sources.now) flags.old.items flags.new.items) }
{
    let mut whole = true;
    for p in 0..sources.len() {
        let here = visit(sources, flags, order, p)?;
        whole = both(here, whole);
    }
    Ok(whole)
}

/// Flags that are not set.
pub fn unset_flags(alloc: Global, count: usize) -> Result<Vec<bool>, AllocError>
    ensures { IfOk result (λ v. v.items ≡ replicate count false) }
{
    let mut all = Vec::with_capacity(alloc, count)?;
    for _ in 0..count {
        all.push(false)?;
    }
    Ok(all)
}

/// All places, each after those of its row.
fn order_of(alloc: Global, sources: &[Vec<usize>]) -> Result<Vec<usize>, AllocError>
    requires { HasRowRank (rows sources.now) }
    ensures { IfOk result (λ v. IsWholeOrder (rows sources.now) v.items) }
{
    let mut flags = unset_flags(alloc, sources.len())?;
    let mut order = Vec::with_capacity(alloc, sources.len())?;
    for _ in 0..sources.len() {
        if sweep(sources, &mut flags, &mut order)? {
            return Ok(order);
        }
    }
    Ok(order)
}

/// The words of a loop's body, which has an order along its edges, with the cells that they access.
pub fn flow_of(
    alloc: Global,
    graph: &Graph,
    cells: &Cells,
    levels: &[Level],
    body: &[u64],
) -> Result<Flow, AllocError>
    requires graph { IsInOrder graph.now }
    requires cells { AreNumbered cells.now }
    requires ordered { IsStrictlyIncreasing body.now }
    requires levels { All (λ l. IsStrictlyIncreasing l.body) levels.now }
    requires ranked { (all : List (List ℕ)) → HasSources graph.now levels.now body.now (length body.now) all
        → HasRowRank all }
    ensures { IfOk result (IsFlow graph.now (cell_map cells.now) levels.now body.now) }
{
    let instrs = instrs_of(alloc, graph, body)?;
    let uses = uses_of(alloc, cells, body)?;
    let sources = sources_of(alloc, graph, levels, body)?;
    let order = order_of(alloc, sources.as_slice())?;
    Ok(Flow {
        instrs,
        uses,
        sources,
        order,
    })
}

/// The words of the loop at a place among the levels of a listed loop.
pub fn loop_flow(
    alloc: Global,
    graph: &Graph,
    cells: &Cells,
    levels: &[Level],
    level: usize,
) -> Result<Flow, AllocError>
    requires graph { IsInOrder graph.now }
    requires cells { AreNumbered cells.now }
    requires nest { AreNest graph.now levels.now }
    requires within { level < length levels.now }
    ensures { IfOk result (λ f. (l : Level) → slice_index_or levels.now level l ≡ l
        → IsFlow graph.now (cell_map cells.now) levels.now l.body f) }
{
    flow_of(alloc, graph, cells, levels, levels[level].body.as_slice())
}
