ghost use Rattle.std.specs.Prelude.{◌≡◌, ◌∷◌, [], map, true, IfOk};
ghost use Rattle.std.specs.List.Sorted.{IsStrictlyIncreasing};
ghost use Rattle.stack_slots.specs.declared.words.BodyWord.{BodyWord};
ghost use Rattle.loop_data.proofs.SampleNest.{graph, root, inside};

use crate::list::{cells, cells_of};
use crate::touches::touch_of;
use crate::words::BodyWord;
use arrayvec::ArrayVec;
use linear_forms::Loc;
use loop_data::{
    Addresses, Cell, Cells, Graph, GraphWords, Level, Levels, LoopShape, Value, Verdict, Word,
};
use rv64_decode::{AluOp, BranchOp, ImmOp, Instr, LoadOp, Reg, StoreOp, UpperOp};
use std::alloc::{AllocError, Global};
use std::process::Abort;
use std::test::Fail;

// Where the words begin.
const BASE: u64 = 0x10000;

// A register: of a number above 31, x0.
fn x(number: u8) -> Reg {
    if number < 32 {
        Reg::new(number)
    } else {
        Reg::new(0)
    }
}

fn load(op: LoadOp, rd: u8, imm: i32, rs1: u8) -> Instr {
    Instr::Load {
        op,
        rd: x(rd),
        rs1: x(rs1),
        imm,
    }
}

fn store(op: StoreOp, rs2: u8, imm: i32, rs1: u8) -> Instr {
    Instr::Store {
        op,
        rs1: x(rs1),
        rs2: x(rs2),
        imm,
    }
}

fn sw() -> Instr {
    store(StoreOp::Sw, 7, 0, 6)
}

fn addw() -> Instr {
    Instr::Alu {
        op: AluOp::Addw,
        rd: x(0),
        rs1: x(0),
        rs2: x(0),
    }
}

fn upper(imm: i32) -> Instr {
    Instr::Upper {
        op: UpperOp::Auipc,
        rd: x(7),
        imm,
    }
}

// What is known before each word: x2 and x8 are as at the header, x9 is 1 above x8, x5 is the first number that is
// too large, and x6 a small one.
fn values() -> [Value; 48] {
    let mut of = [Value::Nothing; 48];
    of[2] = Value::Base(Loc::Reg(2), 0);
    of[8] = Value::Base(Loc::Reg(8), 0);
    of[9] = Value::Base(Loc::Reg(8), 1);
    of[5] = Value::Known(0x7FFF_F800);
    of[6] = Value::Known(0x20000);
    of
}

// The words, of a body that writes no register.
fn words_of(alloc: Global, instrs: &[Instr]) -> Result<Vec<BodyWord>, AllocError> {
    let values = values();
    let mut words = Vec::new(alloc);
    let mut at = BASE;
    for instr in instrs {
        let instr = Some(*instr);
        let touch = touch_of(&[false; 48], &values, &instr);
        words.push(BodyWord { at, instr, touch })?;
        at = at.wrapping_add(4);
    }
    Ok(words)
}

// Whether the words stand in address order.
fn are_in_order(words: &[BodyWord]) -> bool
    ensures { result ≡ true → IsStrictlyIncreasing (map (λ (w : BodyWord). w.at) words.now) }
{
    for i in 1..words.len() {
        if words[i - 1].at >= words[i].at {
            return false;
        }
    }
    true
}

fn found(alloc: Global, instrs: &[Instr]) -> Result<Cells, Fail> {
    let words = words_of(alloc, instrs)?;
    if words.len() > 256 {
        return Err("too many words".into());
    }
    if !are_in_order(words.as_slice()) {
        return Err("the words are out of order".into());
    }
    Ok(cells_of(alloc, words.as_slice())?)
}

// A counter, a pointer and a bound in memory, as an unoptimising compiler uses them.
#[test]
fn counter_in_memory(rt: HostRuntime) -> Result<(), Fail> {
    let cells = found(
        rt.alloc(),
        &[
            load(LoadOp::Ld, 15, -24, 8),
            Instr::AluImm {
                op: ImmOp::Slli,
                rd: x(15),
                rs1: x(15),
                imm: 3,
            },
            load(LoadOp::Ld, 14, -40, 8),
            load(LoadOp::Ld, 14, -24, 8),
            store(StoreOp::Sd, 14, 0, 15),
            store(StoreOp::Sd, 15, -24, 8),
            load(LoadOp::Ld, 15, -48, 8),
            Instr::Branch {
                op: BranchOp::Blt,
                rs1: x(14),
                rs2: x(15),
                imm: -28,
            },
        ],
    )?;
    let cell = Cell {
        base: Some(8),
        offset: -24,
        wide: true,
        stored: true,
    };
    let list = [
        cell,
        Cell {
            offset: -40,
            stored: false,
            ..cell
        },
        Cell {
            offset: -48,
            stored: false,
            ..cell
        },
    ];
    let uses = [
        (BASE, 0),
        (BASE + 8, 1),
        (BASE + 12, 0),
        (BASE + 20, 0),
        (BASE + 24, 2),
    ];
    assert!(rt; cells.list.as_slice() == list.as_slice());
    assert!(rt; cells.uses.as_slice() == uses.as_slice());
    assert!(rt; cells.fault == None);
    Ok(())
}

// How many cells two words have, or that they are mixed.
fn expect<R: Abort>(
    rt: &R,
    alloc: Global,
    first: Instr,
    second: Instr,
    count: Option<usize>,
) -> Result<(), Fail> {
    let cells = found(alloc, &[first, second])?;
    match count {
        Some(count) => {
            assert!(rt; cells.fault == None);
            assert!(rt; cells.list.len() == count);
        }
        None => assert!(rt; cells.fault == Some(Verdict::MixedCell { at: BASE + 4 })),
    }
    Ok(())
}

#[test]
fn pairs_of_words(rt: HostRuntime) -> Result<(), Fail> {
    let rows = [
        (sw(), load(LoadOp::Lw, 7, 0, 6), Some(1)),
        (sw(), load(LoadOp::Lbu, 7, 0, 6), None),
        (sw(), load(LoadOp::Ld, 7, 0, 6), None),
        (sw(), load(LoadOp::Lwu, 7, 0, 6), None),
        (load(LoadOp::Lb, 7, 3, 6), sw(), None),
        (load(LoadOp::Lh, 7, 4, 6), sw(), Some(1)),
        (sw(), load(LoadOp::Lh, 7, 2, 6), None),
        (sw(), load(LoadOp::Lb, 7, 4, 6), Some(1)),
        (sw(), load(LoadOp::Lwu, 7, 4, 6), Some(1)),
        (
            load(LoadOp::Lw, 7, -2048, 8),
            load(LoadOp::Lw, 7, 2047, 8),
            Some(2),
        ),
        (
            load(LoadOp::Lw, 7, 2046, 9),
            load(LoadOp::Lw, 7, 2047, 9),
            Some(1),
        ),
        (
            load(LoadOp::Ld, 7, -8, 5),
            load(LoadOp::Ld, 7, 0, 5),
            Some(1),
        ),
        (
            load(LoadOp::Ld, 7, 0, 2),
            store(StoreOp::Sd, 7, 0, 8),
            Some(2),
        ),
    ];
    for (first, second, count) in rows {
        expect(&rt, rt.alloc(), first, second, count)?;
    }
    Ok(())
}

// So many loads of 8 bytes, one behind the other.
fn neighbours(alloc: Global, count: usize) -> Result<Vec<Instr>, AllocError> {
    let mut instrs = Vec::new(alloc);
    let mut offset = 0i32;
    for _ in 0..count {
        instrs.push(load(LoadOp::Ld, 7, offset, 8))?;
        offset = offset.wrapping_add(8);
    }
    Ok(instrs)
}

fn repeated(alloc: Global, instr: &Instr, count: usize) -> Result<Vec<Instr>, AllocError> {
    let mut instrs = Vec::new(alloc);
    for _ in 0..count {
        instrs.push(*instr)?;
    }
    Ok(instrs)
}

fn expect_limit<R: Abort>(
    rt: &R,
    alloc: Global,
    instrs: &[Instr],
    at: Option<u64>,
) -> Result<(), Fail> {
    let cells = found(alloc, instrs)?;
    match at {
        Some(at) => assert!(rt; cells.fault == Some(Verdict::Limit { at })),
        None => assert!(rt; cells.fault == None),
    }
    Ok(())
}

#[test]
fn limits(rt: HostRuntime) -> Result<(), Fail> {
    let alloc = rt.alloc();
    expect_limit(&rt, alloc, neighbours(alloc, 16)?.as_slice(), None)?;
    expect_limit(
        &rt,
        alloc,
        neighbours(alloc, 17)?.as_slice(),
        Some(BASE + 64),
    )?;
    let mut twice = neighbours(alloc, 17)?;
    twice.push(load(LoadOp::Ld, 7, 128, 8))?;
    expect_limit(&rt, alloc, twice.as_slice(), Some(BASE + 64))?;
    let rows = [
        (load(LoadOp::Lb, 7, 0, 15), 32, None),
        (load(LoadOp::Lb, 7, 0, 15), 33, Some(BASE + 128)),
        (addw(), 32, None),
        (addw(), 33, Some(BASE + 128)),
        (store(StoreOp::Sw, 7, 0, 6), 33, Some(BASE + 128)),
        (store(StoreOp::Sd, 7, 0, 6), 33, None),
        (upper(0x7FFE_F000), 1, None),
        (upper(0x7FFF_0000), 1, Some(BASE)),
    ];
    for (instr, count, at) in rows {
        expect_limit(&rt, alloc, repeated(alloc, &instr, count)?.as_slice(), at)?;
    }
    Ok(())
}

// A word that leads to one other, and one that leads to two.
fn plain_word(at: u64, bits: u32, next: u64) -> Word
    ensures at { result.at ≡ at }
    ensures bits { result.bits ≡ bits }
    ensures steps { result.steps.items ≡ next ∷ [] }
{
    let mut steps = ArrayVec::new();
    steps.push(next);
    Word { at, bits, steps }
}

fn branch_word(at: u64, bits: u32, next: u64, target: u64) -> Word
    ensures at { result.at ≡ at }
    ensures bits { result.bits ≡ bits }
    ensures steps { result.steps.items ≡ next ∷ target ∷ [] }
{
    let mut steps = ArrayVec::new();
    steps.push(next);
    steps.push(target);
    Word { at, bits, steps }
}

// ld x9, 0(x2); addi x6, x0, 0; an inner loop of addi x6, x6, 1 and bne x6, x8; sd x6, 8(x2); addiw x5, x5, 1; and
// bne x5, x9 back to the first.
fn sample_graph(alloc: Global) -> Result<Graph, AllocError>
    ensures { IfOk result (λ g. g ≡ graph) }
{
    let mut words = Vec::new(alloc);
    words.push(plain_word(0, 0x0001_3483, 4))?;
    words.push(plain_word(4, 0x0000_0313, 8))?;
    words.push(plain_word(8, 0x0013_0313, 12))?;
    words.push(branch_word(12, 0xFE83_1EE3, 16, 8))?;
    words.push(plain_word(16, 0x0061_3423, 20))?;
    words.push(plain_word(20, 0x0012_829B, 24))?;
    words.push(branch_word(24, 0xFE92_94E3, 28, 0))?;
    let starts = vec![in alloc; 0]?;
    Ok(Graph {
        words: GraphWords::new(words),
        starts: Addresses::new(starts),
    })
}

fn sample_levels(alloc: Global) -> Result<Levels, AllocError>
    ensures { IfOk result (λ l. l ≡ root ∷ inside ∷ []) }
{
    let outer = vec![in alloc; 0, 4, 8, 12, 16, 20, 24]?;
    let inner = vec![in alloc; 8, 12]?;
    let mut levels = Vec::new(alloc);
    levels.push(Level {
        header: 0,
        body: Addresses::new(outer),
        back: 24,
        exit: 24,
        depth: 0,
    })?;
    levels.push(Level {
        header: 8,
        body: Addresses::new(inner),
        back: 12,
        exit: 12,
        depth: 1,
    })?;
    Ok(Levels::new(levels))
}

#[test]
fn cells_of_a_nest(rt: HostRuntime) -> Result<(), Fail> {
    let graph = sample_graph(rt.alloc())?;
    let levels = sample_levels(rt.alloc())?;
    let shape = LoopShape {
        header: 0,
        levels,
        early: None,
    };
    let found = cells(rt.alloc(), &shape, &graph)?;
    let cell = Cell {
        base: Some(2),
        offset: 0,
        wide: true,
        stored: false,
    };
    let list = [
        cell,
        Cell {
            offset: 8,
            stored: true,
            ..cell
        },
    ];
    assert!(rt; found.list.as_slice() == list.as_slice());
    assert!(rt; found.uses.as_slice() == [(0, 0), (16, 1)].as_slice());
    assert!(rt; found.fault == None);
    Ok(())
}
