ghost use Rattle.std.specs.Prelude.{ℕ, IsTrue, IfOk, ◌≡◌, ◌<◌, ◌≤◌, length, slice_index_or, true, false};
ghost use Rattle.std.specs.List.Sorted.{IsStrictlyIncreasing};
ghost use Rattle.loop_data.specs.Paths.{IsInOrder, addresses};
ghost use Rattle.loop_shapes.specs.Places.{count_of};
ghost use Rattle.loop_data.specs.Starts.{AreFromStarts};
ghost use Rattle.loop_shapes.specs.StartFlags.{AreFlagsFromStarts};

use crate::loops;
use crate::places::{address_list, mark, start_flags};
use arrayvec::ArrayVec;
use loop_data::{Addresses, Graph, GraphWords, LoopShape, Verdict, Word};
use std::alloc::{AllocError, Global};
use std::process::Abort;
use std::test::Fail;

// addi a0, a0, 1
const ADD: u32 = 0x0015_0513;

// bne a0, a2, with a target of its own in each graph
const BRANCH: u32 = 0xFEC5_1CE3;

// jal x0
const JUMP: u32 = 0x0000_006F;

// jal ra
const CALL: u32 = 0x1000_00EF;

// jalr ra, 0(t0)
const CALL_REGISTER: u32 = 0x0002_80E7;

// jalr x0, 0(t0)
const JUMP_REGISTER: u32 = 0x0002_8067;

// auipc t0, 0
const UPPER: u32 = 0x0000_0297;

const ECALL: u32 = 0x0000_0073;

const EBREAK: u32 = 0x0010_0073;

// An add with a function that RV64IM has not.
const NO_WORD: u32 = 0x0600_0053;

// A word with the addresses to which its step edges lead, 0 for none.
fn word(at: u64, bits: u32, first: u64, second: u64) -> Word {
    let mut steps = ArrayVec::new();
    if first != 0 {
        let _ = steps.try_push(first);
    }
    if second != 0 {
        let _ = steps.try_push(second);
    }
    Word { at, bits, steps }
}

// The graph of these words, each by its address, its bits and the addresses to which it leads, and of
// these start words.
fn graph(
    alloc: Global,
    lines: &[(u64, u32, u64, u64)],
    starts: &[u64],
) -> Result<Graph, AllocError> {
    let mut words = Vec::new(alloc);
    for line in lines {
        words.push(word(line.0, line.1, line.2, line.3))?;
    }
    Ok(Graph {
        words: GraphWords::new(words),
        starts: Addresses::new(Vec::from_slice(alloc, starts)?),
    })
}

// Whether each number is below the next.
fn rises(at: &[u64]) -> bool
    ensures { IsTrue result → IsStrictlyIncreasing at.now }
{
    for i in 1..at.len() {
        if at[i - 1] >= at[i] {
            return false;
        }
    }
    true
}

// Flags what the word at a place leads to, where it is flagged.
fn spread(flags: &mut [bool], at: &[u64], graph: &Graph, place: usize)
    requires ordered { IsInOrder graph.now }
    requires addresses { at.now ≡ addresses graph.now }
    requires within { place < count_of graph.now }
    requires from { AreFlagsFromStarts graph.now flags.old }
    ensures { AreFlagsFromStarts graph.now flags.new }
{
    if !flags[place] {
        return;
    }
    for y in graph.words.as_slice()[place].steps.as_slice() {
        mark(flags, at, *y);
    }
}

// Flags what flagged words lead to.
fn spread_all(flags: &mut [bool], at: &[u64], graph: &Graph)
    requires ordered { IsInOrder graph.now }
    requires addresses { at.now ≡ addresses graph.now }
    requires from { AreFlagsFromStarts graph.now flags.old }
    ensures { AreFlagsFromStarts graph.now flags.new }
{
    for place in 0..at.len() {
        spread(flags, at, graph, place);
    }
}

// Whether all flags are set.
fn all_set(flags: &[bool]) -> bool
    ensures { IsTrue result → (i : ℕ) → i < length flags.now → slice_index_or flags.now i false ≡ true }
{
    for flag in flags {
        if !*flag {
            return false;
        }
    }
    true
}

// Flags what is reached from flagged words; whether that is all.
fn spread_until_set(flags: &mut [bool], at: &[u64], graph: &Graph) -> bool
    requires ordered { IsInOrder graph.now }
    requires addresses { at.now ≡ addresses graph.now }
    requires from { AreFlagsFromStarts graph.now flags.old }
    ensures { IsTrue result → AreFromStarts graph.now }
{
    for _ in 0..at.len() {
        spread_all(flags, at, graph);
    }
    all_set(flags)
}

// Whether a way leads to each word from a start word.
fn are_from_starts(alloc: Global, graph: &Graph, at: &[u64]) -> Result<bool, AllocError>
    requires ordered { IsInOrder graph.now }
    requires addresses { at.now ≡ addresses graph.now }
    ensures { IfOk result (λ b. IsTrue b → AreFromStarts graph.now) }
{
    let mut flags = start_flags(alloc, graph, at)?;
    Ok(spread_until_set(&mut flags, at, graph))
}

// The listed loops of these words.
fn listed(
    rt: &impl Abort,
    alloc: Global,
    lines: &[(u64, u32, u64, u64)],
    starts: &[u64],
) -> Result<Vec<LoopShape>, AllocError> {
    let graph = graph(alloc, lines, starts)?;
    let at = address_list(alloc, &graph)?;
    assert!(rt; rises(at.as_slice()));
    assert!(rt; at.len() < 10000);
    let entered = are_from_starts(alloc, &graph, at.as_slice())?;
    assert!(rt; entered);
    loops(alloc, &graph)
}

// That the loop at a place of the list has this header and this early verdict.
fn expect_line(
    rt: &impl Abort,
    shapes: &[LoopShape],
    place: usize,
    header: u64,
    early: Option<Verdict>,
) {
    assert!(rt; place < shapes.len());
    assert_eq!(rt; shapes[place].header, header);
    assert!(rt; shapes[place].early == early);
}

#[test]
fn lists_a_loop_tested_at_its_bottom(rt: HostRuntime) -> Result<(), Fail> {
    let lines = [
        (0x10078, ADD, 0x1007C, 0),
        (0x1007C, ADD, 0x10080, 0),
        (0x10080, BRANCH, 0x10084, 0x1007C),
        (0x10084, EBREAK, 0, 0),
    ];
    let shapes = listed(&rt, rt.alloc(), &lines, &[0x10078])?;
    assert_eq!(rt; shapes.len(), 1);
    expect_line(&rt, shapes.as_slice(), 0, 0x1007C, None);
    let levels = shapes[0].levels.as_slice();
    assert_eq!(rt; levels.len(), 1);
    assert_eq!(rt; levels[0].header, 0x1007C);
    assert_eq!(rt; levels[0].back, 0x10080);
    assert_eq!(rt; levels[0].exit, 0x10080);
    assert_eq!(rt; levels[0].depth, 0);
    assert_eq!(rt; levels[0].body.as_slice(), [0x1007C, 0x10080].as_slice());
    Ok(())
}

#[test]
fn two_exits_have_no_shape(rt: HostRuntime) -> Result<(), Fail> {
    let lines = [
        (0x10078, ADD, 0x1007C, 0),
        (0x1007C, BRANCH, 0x10080, 0x10084),
        (0x10080, BRANCH, 0x10084, 0x10078),
        (0x10084, EBREAK, 0, 0),
    ];
    let shapes = listed(&rt, rt.alloc(), &lines, &[0x10078])?;
    assert_eq!(rt; shapes.len(), 1);
    expect_line(
        &rt,
        shapes.as_slice(),
        0,
        0x10078,
        Some(Verdict::Shape { at: 0x10078 }),
    );
    Ok(())
}

// The early verdict of a loop at 0x10080 with this word at 0x10084, which goes on to the next.
fn with_word(
    rt: &impl Abort,
    alloc: Global,
    before: u32,
    bits: u32,
) -> Result<Option<Verdict>, AllocError> {
    let lines = [
        (0x1007C, ADD, 0x10080, 0),
        (0x10080, before, 0x10084, 0),
        (0x10084, bits, 0x10088, 0),
        (0x10088, BRANCH, 0x1008C, 0x10080),
        (0x1008C, EBREAK, 0, 0),
    ];
    let shapes = listed(rt, alloc, &lines, &[0x1007C])?;
    assert!(rt; shapes.len() == 1);
    Ok(shapes[0].early)
}

#[test]
fn words_that_a_loop_may_not_have(rt: HostRuntime) -> Result<(), Fail> {
    let alloc = rt.alloc();
    let at = 0x10084;
    assert!(rt; with_word(&rt, alloc, ADD, CALL)? == Some(Verdict::Call { at }));
    assert!(rt; with_word(&rt, alloc, UPPER, CALL_REGISTER)? == Some(Verdict::Call { at }));
    assert!(rt; with_word(&rt, alloc, ADD, ECALL)? == Some(Verdict::System { at }));
    assert!(rt; with_word(&rt, alloc, ADD, CALL_REGISTER)? == Some(Verdict::Indirect { at }));
    assert!(rt; with_word(&rt, alloc, UPPER, JUMP_REGISTER)? == Some(Verdict::Indirect { at }));
    assert!(rt; with_word(&rt, alloc, ADD, NO_WORD)? == Some(Verdict::Unsupported { at }));
    assert!(rt; with_word(&rt, alloc, ADD, ADD)? == None);
    Ok(())
}

#[test]
fn the_first_kind_of_word_decides(rt: HostRuntime) -> Result<(), Fail> {
    let alloc = rt.alloc();
    let first = 0x10080;
    let second = 0x10084;
    assert!(rt; with_word(&rt, alloc, ECALL, CALL)? == Some(Verdict::Call { at: second }));
    assert!(rt;
        with_word(&rt, alloc, JUMP_REGISTER, ECALL)? == Some(Verdict::System { at: second })
    );
    assert!(rt;
        with_word(&rt, alloc, NO_WORD, JUMP_REGISTER)? == Some(Verdict::Indirect { at: second })
    );
    assert!(rt; with_word(&rt, alloc, NO_WORD, CALL)? == Some(Verdict::Call { at: second }));
    assert!(rt; with_word(&rt, alloc, CALL, CALL)? == Some(Verdict::Call { at: first }));
    assert!(rt; with_word(&rt, alloc, ECALL, NO_WORD)? == Some(Verdict::System { at: first }));
    Ok(())
}

#[test]
fn a_jump_into_a_loop_is_a_second_entry(rt: HostRuntime) -> Result<(), Fail> {
    let lines = [
        (0x10078, BRANCH, 0x1007C, 0x10084),
        (0x1007C, ADD, 0x10080, 0),
        (0x10080, ADD, 0x10084, 0),
        (0x10084, ADD, 0x10088, 0),
        (0x10088, BRANCH, 0x1008C, 0x10080),
        (0x1008C, EBREAK, 0, 0),
    ];
    let shapes = listed(&rt, rt.alloc(), &lines, &[0x10078])?;
    assert_eq!(rt; shapes.len(), 1);
    let entry = Verdict::MultiEntry {
        from: 0x10078,
        to: 0x10084,
    };
    expect_line(&rt, shapes.as_slice(), 0, 0x10080, Some(entry));
    Ok(())
}

#[test]
fn a_start_in_the_middle_is_the_header(rt: HostRuntime) -> Result<(), Fail> {
    let lines = [
        (0x10078, ADD, 0x1007C, 0),
        (0x1007C, ADD, 0x10080, 0),
        (0x10080, BRANCH, 0x10084, 0x10078),
        (0x10084, EBREAK, 0, 0),
    ];
    let shapes = listed(&rt, rt.alloc(), &lines, &[0x1007C])?;
    assert_eq!(rt; shapes.len(), 1);
    expect_line(&rt, shapes.as_slice(), 0, 0x1007C, None);
    let levels = shapes[0].levels.as_slice();
    assert_eq!(rt; levels.len(), 1);
    assert_eq!(rt; levels[0].back, 0x10078);
    assert_eq!(rt; levels[0].exit, 0x10080);
    Ok(())
}

#[test]
fn a_loop_of_one_word(rt: HostRuntime) -> Result<(), Fail> {
    let lines = [
        (0x10078, ADD, 0x1007C, 0),
        (0x1007C, BRANCH, 0x10080, 0x1007C),
        (0x10080, EBREAK, 0, 0),
    ];
    let shapes = listed(&rt, rt.alloc(), &lines, &[0x10078])?;
    assert_eq!(rt; shapes.len(), 1);
    expect_line(&rt, shapes.as_slice(), 0, 0x1007C, None);
    Ok(())
}

#[test]
fn a_cycle_with_two_entries_inside_a_loop(rt: HostRuntime) -> Result<(), Fail> {
    let lines = [
        (0x10000, ADD, 0x10004, 0),
        (0x10004, BRANCH, 0x10008, 0x1000C),
        (0x10008, ADD, 0x1000C, 0),
        (0x1000C, BRANCH, 0x10010, 0x10008),
        (0x10010, BRANCH, 0x10014, 0x10004),
        (0x10014, EBREAK, 0, 0),
    ];
    let shapes = listed(&rt, rt.alloc(), &lines, &[0x10000])?;
    assert_eq!(rt; shapes.len(), 1);
    expect_line(
        &rt,
        shapes.as_slice(),
        0,
        0x10004,
        Some(Verdict::Shape { at: 0x10004 }),
    );
    Ok(())
}

#[test]
fn an_exit_that_a_way_goes_round(rt: HostRuntime) -> Result<(), Fail> {
    let lines = [
        (0x10000, ADD, 0x10004, 0),
        (0x10004, BRANCH, 0x10008, 0x1000C),
        (0x10008, BRANCH, 0x1000C, 0x10014),
        (0x1000C, ADD, 0x10010, 0),
        (0x10010, JUMP, 0x10004, 0),
        (0x10014, EBREAK, 0, 0),
    ];
    let shapes = listed(&rt, rt.alloc(), &lines, &[0x10000])?;
    assert_eq!(rt; shapes.len(), 1);
    expect_line(
        &rt,
        shapes.as_slice(),
        0,
        0x10004,
        Some(Verdict::Shape { at: 0x10004 }),
    );
    Ok(())
}

#[test]
fn the_line_is_that_of_the_least_source(rt: HostRuntime) -> Result<(), Fail> {
    let lines = [
        (0x10070, BRANCH, 0x10074, 0x10088),
        (0x10074, BRANCH, 0x10078, 0x10084),
        (0x10078, ADD, 0x1007C, 0),
        (0x1007C, ADD, 0x10080, 0),
        (0x10080, ADD, 0x10084, 0),
        (0x10084, BRANCH, 0x10088, 0x10080),
        (0x10088, BRANCH, 0x1008C, 0x10080),
        (0x1008C, EBREAK, 0, 0),
    ];
    let shapes = listed(&rt, rt.alloc(), &lines, &[0x10070])?;
    assert_eq!(rt; shapes.len(), 1);
    let entry = Verdict::MultiEntry {
        from: 0x10074,
        to: 0x10084,
    };
    expect_line(&rt, shapes.as_slice(), 0, 0x10080, Some(entry));
    Ok(())
}

#[test]
fn a_second_start_is_a_second_entry(rt: HostRuntime) -> Result<(), Fail> {
    let lines = [
        (0x10078, ADD, 0x1007C, 0),
        (0x1007C, BRANCH, 0x10080, 0x10084),
        (0x10080, JUMP, 0x10078, 0),
        (0x10084, EBREAK, 0, 0),
    ];
    let shapes = listed(&rt, rt.alloc(), &lines, &[0x10078, 0x10080])?;
    assert_eq!(rt; shapes.len(), 1);
    let entry = Verdict::MultiEntry {
        from: 0x10080,
        to: 0x10080,
    };
    expect_line(&rt, shapes.as_slice(), 0, 0x10078, Some(entry));
    Ok(())
}

// The address of a word by its number.
fn at(i: usize) -> u64
    requires { i < 10000 }
{
    0x10000 + 4 * i as u64
}

// Puts words with these numbers that lead each to the next.
fn push_adds(
    lines: &mut Vec<(u64, u32, u64, u64)>,
    from: usize,
    end: usize,
) -> Result<(), AllocError>
    requires { end ≤ 900 }
{
    for i in from..end {
        lines.push((at(i), ADD, at(i + 1), 0))?;
    }
    Ok(())
}

// The early verdict of a loop of so many words, tested at its bottom.
fn of_length(rt: &impl Abort, alloc: Global, count: usize) -> Result<Option<Verdict>, AllocError>
    requires { count < 300 }
{
    let mut lines = Vec::new(alloc);
    push_adds(&mut lines, 0, count)?;
    lines.push((at(count), BRANCH, at(count + 1), at(1)))?;
    lines.push((at(count + 1), EBREAK, 0, 0))?;
    let shapes = listed(rt, alloc, lines.as_slice(), &[at(0)])?;
    assert!(rt; shapes.len() == 1);
    assert!(rt; shapes[0].header == at(1));
    Ok(shapes[0].early)
}

// The early verdict of two loops with one header, the second of which ends at a word, and with a word of
// these bits in the first.
fn of_two(
    rt: &impl Abort,
    alloc: Global,
    last: usize,
    bits: u32,
) -> Result<Option<Verdict>, AllocError>
    requires { last < 300 }
{
    let mut lines = Vec::new(alloc);
    push_adds(&mut lines, 0, 1)?;
    lines.push((at(1), BRANCH, at(2), at(130)))?;
    lines.push((at(2), bits, at(3), 0))?;
    push_adds(&mut lines, 3, 129)?;
    lines.push((at(129), JUMP, at(1), 0))?;
    push_adds(&mut lines, 130, last)?;
    lines.push((at(last), BRANCH, at(last + 1), at(1)))?;
    lines.push((at(last + 1), EBREAK, 0, 0))?;
    let shapes = listed(rt, alloc, lines.as_slice(), &[at(0)])?;
    assert!(rt; shapes.len() == 1);
    assert!(rt; shapes[0].header == at(1));
    Ok(shapes[0].early)
}

#[test]
fn bodies_have_at_most_256_words(rt: HostRuntime) -> Result<(), Fail> {
    let alloc = rt.alloc();
    assert!(rt; of_length(&rt, alloc, 256)? == None);
    assert!(rt; of_length(&rt, alloc, 257)? == Some(Verdict::Limit { at: at(1) }));
    assert!(rt; of_two(&rt, alloc, 256, ADD)? == Some(Verdict::Shape { at: at(1) }));
    assert!(rt; of_two(&rt, alloc, 257, ADD)? == Some(Verdict::Limit { at: at(1) }));
    assert!(rt; of_two(&rt, alloc, 256, CALL)? == Some(Verdict::Call { at: at(2) }));
    assert!(rt; of_two(&rt, alloc, 257, CALL)? == Some(Verdict::Limit { at: at(1) }));
    Ok(())
}

// The listed loops of one with so many loops of one word in it.
fn with_inner(rt: &impl Abort, alloc: Global, inner: usize) -> Result<Vec<LoopShape>, AllocError>
    requires { inner < 100 }
{
    let mut lines = Vec::new(alloc);
    push_adds(&mut lines, 0, 2)?;
    for i in 0..inner {
        lines.push((at(i + 2), BRANCH, at(i + 3), at(i + 2)))?;
    }
    lines.push((at(inner + 2), BRANCH, at(inner + 3), at(1)))?;
    lines.push((at(inner + 3), EBREAK, 0, 0))?;
    listed(rt, alloc, lines.as_slice(), &[at(0)])
}

// The listed loops of so many that lie in each other.
fn nested(rt: &impl Abort, alloc: Global, depth: usize) -> Result<Vec<LoopShape>, AllocError>
    requires { depth < 100 }
{
    let mut lines = Vec::new(alloc);
    push_adds(&mut lines, 0, depth)?;
    for i in 0..depth {
        lines.push((at(depth + i), BRANCH, at(depth + i + 1), at(depth - i)))?;
    }
    lines.push((at(2 * depth), EBREAK, 0, 0))?;
    listed(rt, alloc, lines.as_slice(), &[at(0)])
}

#[test]
fn nests_have_at_most_four_loops_and_three_levels(rt: HostRuntime) -> Result<(), Fail> {
    let alloc = rt.alloc();
    let limit = Some(Verdict::Limit { at: at(1) });

    let four = with_inner(&rt, alloc, 3)?;
    assert_eq!(rt; four.len(), 4);
    expect_line(&rt, four.as_slice(), 0, at(1), None);
    assert_eq!(rt; four[0].levels.as_slice().len(), 4);
    let five = with_inner(&rt, alloc, 4)?;
    assert_eq!(rt; five.len(), 5);
    expect_line(&rt, five.as_slice(), 0, at(1), limit);

    let three = nested(&rt, alloc, 3)?;
    assert_eq!(rt; three.len(), 3);
    expect_line(&rt, three.as_slice(), 0, at(1), None);
    let levels = three[0].levels.as_slice();
    assert_eq!(rt; levels.len(), 3);
    assert_eq!(rt; levels[0].depth, 0);
    assert_eq!(rt; levels[1].depth, 1);
    assert_eq!(rt; levels[2].depth, 2);
    let deep = nested(&rt, alloc, 4)?;
    assert_eq!(rt; deep.len(), 4);
    expect_line(&rt, deep.as_slice(), 0, at(1), limit);
    expect_line(&rt, deep.as_slice(), 1, at(2), None);
    Ok(())
}

// The line of a word to which a second entry's edge leads back, and another edge from this word.
fn with_two_edges(
    rt: &impl Abort,
    alloc: Global,
    last: usize,
) -> Result<Option<Verdict>, AllocError>
    requires { last < 400 }
{
    let mut lines = Vec::new(alloc);
    lines.push((at(0), BRANCH, at(1), at(4)))?;
    push_adds(&mut lines, 1, 5)?;
    lines.push((at(5), BRANCH, at(6), at(2)))?;
    push_adds(&mut lines, 6, last)?;
    lines.push((at(last), BRANCH, at(last + 1), at(2)))?;
    lines.push((at(last + 1), EBREAK, 0, 0))?;
    let shapes = listed(rt, alloc, lines.as_slice(), &[at(0)])?;
    assert!(rt; shapes.len() == 1);
    assert!(rt; shapes[0].header == at(2));
    Ok(shapes[0].early)
}

#[test]
fn an_edge_past_the_limit_decides_the_line(rt: HostRuntime) -> Result<(), Fail> {
    let alloc = rt.alloc();
    let entry = Verdict::MultiEntry {
        from: at(0),
        to: at(4),
    };
    assert!(rt; with_two_edges(&rt, alloc, 200)? == Some(entry));
    assert!(rt; with_two_edges(&rt, alloc, 300)? == Some(Verdict::Limit { at: at(2) }));
    Ok(())
}

#[test]
fn an_inner_loop_below_its_root_has_not_the_shape(rt: HostRuntime) -> Result<(), Fail> {
    let lines = [
        (at(0), JUMP, at(4), 0),
        (at(1), BRANCH, at(2), at(3)),
        (at(2), BRANCH, at(3), at(1)),
        (at(3), ADD, at(4), 0),
        (at(4), ADD, at(5), 0),
        (at(5), BRANCH, at(6), at(1)),
        (at(6), EBREAK, 0, 0),
    ];
    let shapes = listed(&rt, rt.alloc(), &lines, &[at(0)])?;
    assert_eq!(rt; shapes.len(), 2);
    let shape = Some(Verdict::Shape { at: at(1) });
    expect_line(&rt, shapes.as_slice(), 0, at(1), shape);
    expect_line(&rt, shapes.as_slice(), 1, at(4), shape);
    Ok(())
}

#[test]
fn a_loop_is_left_to_a_word_that_is_not_reached(rt: HostRuntime) -> Result<(), Fail> {
    let lines = [(at(0), ADD, at(1), 0), (at(1), BRANCH, at(2), at(0))];
    let shapes = listed(&rt, rt.alloc(), &lines, &[at(0)])?;
    assert_eq!(rt; shapes.len(), 1);
    expect_line(&rt, shapes.as_slice(), 0, at(0), None);
    let levels = shapes[0].levels.as_slice();
    assert_eq!(rt; levels.len(), 1);
    assert_eq!(rt; levels[0].exit, at(1));
    Ok(())
}

#[test]
fn a_loop_entered_by_a_jump_to_its_test(rt: HostRuntime) -> Result<(), Fail> {
    let lines = [
        (at(0), JUMP, at(3), 0),
        (at(1), ADD, at(2), 0),
        (at(2), ADD, at(3), 0),
        (at(3), BRANCH, at(4), at(1)),
        (at(4), EBREAK, 0, 0),
    ];
    let shapes = listed(&rt, rt.alloc(), &lines, &[at(0)])?;
    assert_eq!(rt; shapes.len(), 1);
    expect_line(&rt, shapes.as_slice(), 0, at(3), None);
    let levels = shapes[0].levels.as_slice();
    assert_eq!(rt; levels.len(), 1);
    assert_eq!(rt; levels[0].body.as_slice(), [at(1), at(2), at(3)].as_slice());
    assert_eq!(rt; levels[0].back, at(2));
    assert_eq!(rt; levels[0].exit, at(3));
    Ok(())
}

#[test]
fn many_loops_one_after_another(rt: HostRuntime) -> Result<(), Fail> {
    let alloc = rt.alloc();
    let mut lines = Vec::new(alloc);
    for i in 0..2048 {
        lines.push((at(4 * i), ADD, at(4 * i + 1), 0))?;
        lines.push((at(4 * i + 1), ADD, at(4 * i + 2), 0))?;
        lines.push((at(4 * i + 2), ADD, at(4 * i + 3), 0))?;
        lines.push((at(4 * i + 3), BRANCH, at(4 * i + 4), at(4 * i + 1)))?;
    }
    lines.push((at(8192), EBREAK, 0, 0))?;
    let shapes = listed(&rt, alloc, lines.as_slice(), &[at(0)])?;
    assert_eq!(rt; shapes.len(), 2048);
    for i in 0..2048 {
        expect_line(&rt, shapes.as_slice(), i, at(4 * i + 1), None);
    }
    Ok(())
}
