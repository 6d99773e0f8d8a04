ghost use Rattle.std.specs.Prelude.{◌<◌, IfOk};
ghost use Rattle.std.specs.List.{All};
ghost use Rattle.elf_image.specs.Layout.{IsLoadable};
ghost use Rattle.loop_data.specs.declared.verdict.Cell.{Cell};
ghost use Rattle.alias_checks.specs.CellTests.{HasRegister};

use crate::laws::bounds_tell_areas;
use crate::{Turns, check_of, holds};
use arrayvec::ArrayVec;
use elf_image::{Bytes, Elf, Segment, Segments};
use guest_memory::build;
use linear_forms::{Form, Loc};
use loop_data::{Access, Accesses, Cell, Cells, Duties, Equations, Points, Relation, Trip};
use rv64_decode::{Reg, Regs, Width};
use std::alloc::{AllocError, Global};
use std::process::Abort;
use std::test::Fail;

// Code, and behind it 0x4000 bytes from 0x20000 on: 100 and -8 as numbers of 8 and of 4 bytes, and zeros.
fn program(alloc: Global, writable: bool) -> Result<Elf, AllocError>
    ensures { IfOk result (λ elf. IsLoadable elf) }
{
    let numbers = [100, 0, 0, 0, 0, 0, 0, 0, 0xF8, 0xFF, 0xFF, 0xFF];
    let mut segments = Vec::new(alloc);
    segments.push(Segment {
        index: 0,
        vaddr: 0x10000,
        memsz: 16,
        flags: 5,
        bytes: Bytes::new(Vec::new(alloc)),
    })?;
    segments.push(Segment {
        index: 1,
        vaddr: 0x20000,
        memsz: 0x4000,
        flags: if writable { 6 } else { 4 },
        bytes: Bytes::new(Vec::from_array(alloc, numbers)?),
    })?;
    Ok(Elf {
        entry: 0x10000,
        segments: Segments::new(segments),
    })
}

// What the check of a loop answers at the start of the program, with these registers.
fn answer_of(
    alloc: Global,
    writable: bool,
    cells: &Cells,
    trip: Trip,
    accesses: &Accesses,
    regs: &Regs,
) -> Result<Option<Turns>, AllocError>
    requires { All (λ (c : Cell). HasRegister c.base) cells.now.list.items }
{
    bounds_tell_areas();
    let elf = program(alloc, writable)?;
    let mut trips = Vec::new(alloc);
    trips.push(trip)?;
    let equations = Equations {
        points: Points::without_forms(alloc, &[])?,
        duties: Duties::new(Vec::new(alloc)),
        unconfirmed: None,
    };
    let check = check_of(alloc, cells, trips.as_slice(), &equations, accesses, &elf)?;
    let mem = build(alloc, &elf)?;
    Ok(holds(&check, regs, &mem))
}

// The turns of a loop without inner loops.
fn turns(root: u64) -> Option<Turns> {
    Some(Turns {
        root,
        inner: [1, 1, 1],
    })
}

// An access of 8 bytes at a register that gains 8 in each turn.
fn access(register: u8, store: bool) -> Result<Access, Fail>
    requires low { 0 < register }
    requires high { register < 32 }
{
    Ok(Access {
        form: Form::moving(Loc::Reg(register), 8).ok_or("a register")?,
        width: Width::Eight,
        store,
        ..Access::default()
    })
}

// x10, which gains 1 in each turn, is below x11.
fn counted() -> Result<Trip, Fail> {
    Ok(Trip {
        relation: Relation::Less,
        signed: true,
        start: Form::moving(Loc::Reg(10), 1).ok_or("x10")?,
        bound: Form::moving(Loc::Reg(11), 0).ok_or("x11")?,
        step: 1,
    })
}

// A loop without cells.
fn no_cells() -> Cells
    ensures { All (λ (c : Cell). HasRegister c.base) result.list.items }
{
    Cells {
        list: ArrayVec::new(),
        uses: ArrayVec::new(),
        fault: None,
    }
}

// Registers of which x10 to x13 have these values.
fn registers(values: [u64; 4]) -> Regs {
    let mut regs = Regs::new();
    regs.set(Reg::new(10), values[0]);
    regs.set(Reg::new(11), values[1]);
    regs.set(Reg::new(12), values[2]);
    regs.set(Reg::new(13), values[3]);
    regs
}

// The accesses of a loop that loads at x12 and stores at x13.
fn copying() -> Result<Accesses, Fail> {
    let mut list = ArrayVec::new();
    list.push(access(12, false)?);
    list.push(access(13, true)?);
    Ok(Accesses { list })
}

// What a loop that copies from x12 to x13 answers, whose x10 goes from 0 up to a number.
fn expect_copy<R: Abort>(
    rt: &R,
    alloc: Global,
    writable: bool,
    values: [u64; 3],
    wanted: Option<Turns>,
) -> Result<(), Fail> {
    let regs = registers([0, values[0], values[1], values[2]]);
    let answer = answer_of(alloc, writable, &no_cells(), counted()?, &copying()?, &regs)?;
    assert!(rt; answer == wanted);
    Ok(())
}

#[test]
fn copies_are_divided(rt: HostRuntime) -> Result<(), Fail> {
    let alloc = rt.alloc();
    expect_copy(&rt, alloc, true, [100, 0x20000, 0x21000], turns(100))?;
    expect_copy(&rt, alloc, true, [15, 0x20000, 0x21000], None)?;
    expect_copy(&rt, alloc, true, [100, 0x20000, 0x20008], None)?;
    expect_copy(&rt, alloc, true, [100, 0x20000, 0x20000], turns(100))?;
    expect_copy(&rt, alloc, true, [100, 0x20000, 0x20004], None)?;
    expect_copy(&rt, alloc, false, [100, 0x20000, 0x21000], None)?;
    expect_copy(&rt, alloc, true, [512, 0x20000, 0x23000], turns(512))?;
    expect_copy(&rt, alloc, true, [513, 0x20000, 0x23000], None)?;
    expect_copy(&rt, alloc, true, [100, 0x20000, 0x7F00_0000], turns(100))?;
    expect_copy(&rt, alloc, true, [100, 0x10000, 0x21000], None)
}

// A cell at the address in a register.
fn cell(base: u8, wide: bool, stored: bool) -> Cell
    requires { base < 32 }
    ensures { HasRegister result.base }
{
    Cell {
        base: Some(base),
        offset: 0,
        wide,
        stored,
    }
}

// Two cells.
fn two_cells(first: Cell, second: Cell) -> Cells
    requires first { HasRegister first.base }
    requires second { HasRegister second.base }
    ensures { All (λ (c : Cell). HasRegister c.base) result.list.items }
{
    let mut list = ArrayVec::new();
    list.push(first);
    list.push(second);
    Cells {
        list,
        uses: ArrayVec::new(),
        fault: None,
    }
}

// No accesses.
fn no_accesses() -> Accesses {
    Accesses {
        list: ArrayVec::new(),
    }
}

// A store at x12, which stays there for so many turns.
fn storing() -> Result<Accesses, Fail> {
    let mut list = ArrayVec::new();
    list.push(access(12, true)?);
    Ok(Accesses { list })
}

// The first cell, which has 4 bytes, gains 1 in each turn, and is below the second.
fn between_cells() -> Result<Trip, Fail> {
    Ok(Trip {
        relation: Relation::Less,
        signed: true,
        start: Form::moving(Loc::Cell(0), 1).ok_or("a cell")?,
        bound: Form::moving(Loc::Cell(1), 0).ok_or("another")?,
        step: 1,
    })
}

#[test]
fn cells_are_entry_values(rt: HostRuntime) -> Result<(), Fail> {
    let cells = two_cells(cell(13, false, false), cell(12, true, true));
    let regs = registers([0, 0, 0x20000, 0x20008]);
    let answer = answer_of(
        rt.alloc(),
        true,
        &cells,
        between_cells()?,
        &no_accesses(),
        &regs,
    )?;
    assert!(rt; answer == turns(108), "from -8 up to 100");
    Ok(())
}

// What a loop of 20 turns answers with cells at x12 and x13, of which the second may be stored.
fn expect_cells<R: Abort>(
    rt: &R,
    alloc: Global,
    stored: bool,
    at: [u64; 2],
    accesses: &Accesses,
    wanted: Option<Turns>,
) -> Result<(), Fail> {
    let cells = two_cells(cell(12, true, false), cell(13, true, stored));
    let regs = registers([0, 20, at[0], at[1]]);
    let answer = answer_of(alloc, true, &cells, counted()?, accesses, &regs)?;
    assert!(rt; answer == wanted);
    Ok(())
}

#[test]
fn cells_are_told_apart(rt: HostRuntime) -> Result<(), Fail> {
    let alloc = rt.alloc();
    let none = no_accesses();
    expect_cells(&rt, alloc, false, [0x20000, 0x20000], &none, turns(20))?;
    expect_cells(&rt, alloc, true, [0x20000, 0x20000], &none, None)?;
    expect_cells(&rt, alloc, true, [0x20000, 0x20008], &none, turns(20))?;
    expect_cells(&rt, alloc, true, [0x20000, 0x2000C], &none, None)?;
    expect_cells(&rt, alloc, false, [0x10000, 0x20000], &none, turns(20))?;
    expect_cells(&rt, alloc, true, [0x20000, 0x10000], &none, None)?;
    let store = storing()?;
    expect_cells(&rt, alloc, false, [0x20000, 0x23FF8], &store, None)
}

// The pairs of three accesses of which one stores.
#[test]
fn pairs_are_in_order(rt: HostRuntime) -> Result<(), Fail> {
    let alloc = rt.alloc();
    let elf = program(alloc, true)?;
    let equations = Equations {
        points: Points::without_forms(alloc, &[])?,
        duties: Duties::new(Vec::new(alloc)),
        unconfirmed: None,
    };
    let mut list = ArrayVec::new();
    list.push(access(11, false)?);
    list.push(access(12, true)?);
    list.push(access(13, false)?);
    let accesses = Accesses { list };
    let trips = Vec::new(alloc);
    let check = check_of(
        alloc,
        &no_cells(),
        trips.as_slice(),
        &equations,
        &accesses,
        &elf,
    )?;
    let pairs = check.pairs.into_vec();
    assert!(rt; pairs.len() == 3);
    assert!(rt;
        pairs[0].0 == 0 && pairs[0].1 == 1,
        "the first load and the store"
    );
    assert!(rt; pairs[1].0 == 1 && pairs[1].1 == 1, "the store and itself");
    assert!(rt;
        pairs[2].0 == 1 && pairs[2].1 == 2,
        "the store and the second load"
    );
    let areas = check.areas.into_vec();
    assert!(rt; areas.len() == 4);
    assert!(rt; areas[1] == (0x20000, 0x24000, 6), "the second segment");
    assert!(rt; areas[3] == (0x7F00_0000, 0x7F80_0000, 6), "the stack");
    Ok(())
}
