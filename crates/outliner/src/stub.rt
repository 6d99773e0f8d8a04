ghost use Rattle.std.specs.Prelude.{◌≡◌, ◌<◌, ◌≤◌, ◌+◌, [], ◌∷◌, ◌^◌, ℕ, List, false, IfOk, length, slice_index};
ghost use Rattle.std.specs.List.{All};
ghost use Rattle.loop_data.specs.declared.shape.Level.{Level};
ghost use Rattle.loop_data.specs.declared.verdict.Cell.{Cell};
ghost use Rattle.loop_data.specs.LoopWords.{AreNest};
ghost use Rattle.loop_data.specs.Lookups.{AreNumbered, role_by, roles_by};
ghost use Rattle.loop_data.specs.Paths.{IsInOrder};
ghost use Rattle.rv64_decode.specs.Aim.{Aimed, IsNear};
ghost use Rattle.stub_laws.specs.Code.{Appended};
ghost use Rattle.turn_copies.specs.StubCode.{with_moving, advances_code, begin_code};
ghost use Rattle.turn_copies.specs.StubWords.{IsStub};
ghost use Rattle.check_code.specs.Laws.{HasOffset};
ghost use Rattle.outliner.specs.Moves.{moved, front_code, behind_code, AreDivided};
ghost use Rattle.outliner.specs.Sizes.{loop_code, IsCopied};

use crate::bodies::push_body;
use crate::ends::{push_leave, push_refuse, push_save};
use crate::places::{place_at, places_of};
use crate::turns::{push_begin, push_fork, push_join, push_next};
use check_code::macros::push;
use loop_data::{Cell, Cells, Class, Graph, Level, Plan};
use rv64_decode::{XInstr, aim};
use std::alloc::{AllocError, Global};
use turn_copies::copies_stand_in_order;

/// How many words move a location of this class on.
fn moving_size(class: Option<Class>) -> u32
    ensures value { (loc : ℕ) → result ≡ length (advances_code (with_moving (role_by false class) loc [])) }
    ensures few { result ≤ 6 }
{
    match class {
        Some(Class::Induction(_)) => 6,
        Some(Class::Private) => 0,
        None => 0,
    }
}

/// How many words bring locations of these classes to the first turn of a block, with the jump behind them.
fn begin_size(classes: &[Option<Class>; 48]) -> u32
    ensures value { result ≡ length (begin_code (moved classes.now) 0 0) }
    ensures few { result ≤ 296 }
{
    let mut size = 8;
    for k in 0..48usize {
        let class = classes[k];
        size += moving_size(class);
    }
    size
}

/// Appends, from place `p` on, the fork and what a hart executes before its first turn, where the copy of the header
/// stands at place `header` and the words behind a turn at place `next`.
fn push_front(
    code: &mut Vec<u32>,
    classes: &[Option<Class>; 48],
    p: u32,
    header: u32,
    next: u32,
) -> Result<(), AllocError>
    requires small { p < 2 ^ 30 }
    requires order { (p + 17 ≤ header) × (header ≤ next) }
    requires near { next ≤ p + 2 ^ 12 }
    ensures { IfOk result (λ u. Appended code.old.items code.new.items
        (front_code (moved classes.now) p header next)) }
{
    push(code, XInstr::Par)?;
    push_fork(code, p + 1, next + 8)?;
    push_begin(code, classes, p + 17, header)?;
    Ok(())
}

/// Appends, from place `next` on, what a hart executes behind its turns: the next one, or else the join and the way
/// out.
fn push_behind(
    code: &mut Vec<u32>,
    cells: &[Cell],
    header: u32,
    next: u32,
) -> Result<(), AllocError>
    requires small { next < 2 ^ 31 }
    requires near { (header ≤ next) × (next ≤ header + 2 ^ 12) }
    requires few { length cells.now ≤ 16 }
    requires offsets { All (λ (c : Cell). HasOffset c.base c.offset) cells.now }
    ensures { IfOk result (λ u. Appended code.old.items code.new.items (behind_code cells.now header next)) }
{
    push_next(code, next, header)?;
    push_join(code)?;
    push_leave(code, cells)?;
    Ok(())
}

/// The words behind a check, the first of them at place `p`, and the number of those before the ones to which a check
/// that fails leads.
fn emit_divided(
    alloc: Global,
    graph: &Graph,
    cells: &Cells,
    level: &Level,
    classes: &[Option<Class>; 48],
    p: u32,
) -> Result<(Vec<u32>, u32), AllocError>
    requires copied { IsCopied graph.now cells.now level.now }
    requires offsets { All (λ (c : Cell). HasOffset c.base c.offset) cells.now.list.items }
    requires small { p + 2 ^ 12 < 2 ^ 30 }
    ensures { IfOk result (λ r. AreDivided level.now (loop_code graph.now cells.now) (moved classes.now) p r.0.items
        r.1) }
{
    let first = p + 17 + begin_size(classes);
    copies_stand_in_order();
    let places = places_of(alloc, graph, cells, level, first)?;
    let places = places.as_slice();
    let next = places[level.body.as_slice().len()];
    let header = place_at(level, places, level.header);
    let mut code = Vec::new(alloc);
    push_front(&mut code, classes, p, header, next)?;
    push_body(&mut code, graph, cells, level, places)?;
    push_behind(&mut code, cells.list.as_slice(), header, next)?;
    let refused = code.len() as u32;
    push_refuse(&mut code)?;
    Ok((code, refused))
}

// The words of a list have 32 bits each.
fn are_words(words: &[u32])
    ensures { All (λ (w : ℕ). w < 2 ^ 32) words.now }
{
    let _words = words;
}

/// The words of a check, with its open jumps aimed at the place `refused`, counted from its first word.
fn aimed(alloc: Global, check: &[u32], refused: u32) -> Result<Vec<u32>, AllocError>
    requires near { (k : ℕ) → k < length check.now → IsNear refused k }
    ensures many { IfOk result (λ v. length v.items ≡ length check.now) }
    ensures aims { IfOk result (λ v. (k : ℕ) → k < length check.now
        → Aimed refused k (slice_index check.now k) (slice_index v.items k)) }
{
    let mut words = Vec::new(alloc);
    words.extend_from_slice(check)?;
    aim(words.as_mut_slice(), refused);
    Ok(words)
}

/// The added code of a loop that stands from place `place` on, counted in words: the words of the loop's check, whose
/// open jumps lead to where the check fails, and round them those that save registers, divide the turns among the
/// harts, execute them, join the harts and come back. The places of copies follow from their numbers of words.
pub fn emit_stub(
    alloc: Global,
    graph: &Graph,
    plan: &Plan,
    check: &[u32],
    place: u32,
) -> Result<Vec<u32>, AllocError>
    requires nest { AreNest graph.now plan.now.shape.levels }
    requires words { IsInOrder graph.now }
    requires cells { AreNumbered plan.now.cells }
    requires offsets { All (λ (c : Cell). HasOffset c.base c.offset) plan.now.cells.list.items }
    requires few { length check.now ≤ 200000 }
    requires small { place < 2 ^ 29 }
    ensures words { (root : Level) (inner : List Level) → plan.now.shape.levels ≡ root ∷ inner → IfOk result (λ code.
        IsStub root (loop_code graph.now plan.now.cells)
        (roles_by (loop_code graph.now plan.now.cells) plan.now.shape.levels plan.now.classes root)
        place check.now code.items) }
    ensures short { IfOk result (λ code. length code.items ≤ length check.now + 2 ^ 12) }
{
    are_words(check);
    let level = &plan.shape.levels.as_slice()[0];
    let fork = place + 7 + check.len() as u32;
    let classes = &plan.classes.root;
    let (divided, refused) = emit_divided(alloc, graph, &plan.cells, level, classes, fork)?;
    let aimed = aimed(alloc, check, check.len() as u32 + refused)?;
    let mut code = Vec::new(alloc);
    push_save(&mut code)?;
    code.extend_from_slice(aimed.as_slice())?;
    code.extend_from_slice(divided.as_slice())?;
    Ok(code)
}
