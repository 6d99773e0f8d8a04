// Checks of whole loops, their words counted by hand.

ghost use Rattle.std.specs.Prelude.{IfOk};
ghost use Rattle.std.specs.List.{All};
ghost use Rattle.elf_image.specs.Layout.{IsLoadable};
ghost use Rattle.loop_data.specs.declared.verdict.Cell.{Cell};
ghost use Rattle.check_code.specs.Laws.{HasOffset};

use crate::tests::{BASE, entry, reg, step};
use crate::{areas_have_room, emit_check};
use alias_checks::check_of;
use arrayvec::ArrayVec;
use elf_image::{Bytes, Elf, Segment, Segments};
use linear_forms::{Form, Loc};
use loop_data::{Access, Accesses, Cell, Cells, Duties, Equations, Points, Relation, Trip};
use rv64_decode::{Regs, Width, aim};
use std::alloc::{AllocError, Global};
use std::test::Fail;

// Code, and 24000 bytes from 0x20000 on.
fn program(alloc: Global) -> Result<Elf, AllocError>
    ensures { IfOk result (λ elf. IsLoadable elf) }
{
    let mut segments = Vec::new(alloc);
    segments.push(Segment {
        index: 0,
        vaddr: 0x10000,
        memsz: 336,
        flags: 5,
        bytes: Bytes::new(Vec::new(alloc)),
    })?;
    segments.push(Segment {
        index: 1,
        vaddr: 0x20000,
        memsz: 24000,
        flags: 6,
        bytes: Bytes::new(Vec::new(alloc)),
    })?;
    Ok(Elf {
        entry: 0x10000,
        segments: Segments::new(segments),
    })
}

// The words of the check of a loop without inner loops.
fn words_of(
    alloc: Global,
    cells: &Cells,
    trip: Trip,
    accesses: &Accesses,
) -> Result<Vec<u32>, AllocError>
    requires { All (λ (c : Cell). HasOffset c.base c.offset) cells.now.list.items }
{
    areas_have_room();
    let elf = program(alloc)?;
    let mut trips = Vec::new(alloc);
    trips.push(trip)?;
    let equations = Equations {
        points: Points::without_forms(alloc, &[])?,
        duties: Duties::new(Vec::new(alloc)),
        unconfirmed: None,
    };
    let check = check_of(alloc, cells, trips.as_slice(), &equations, accesses, &elf)?;
    emit_check(alloc, &check)
}

// x11 goes by steps of 8 to x13.
fn to_x13() -> Result<Trip, Fail> {
    let first = Form::moving(Loc::Reg(11), 8).ok_or("x11")?;
    let bound = Form::moving(Loc::Reg(13), 0).ok_or("x13")?;
    Ok(Trip {
        relation: Relation::Differ,
        signed: true,
        start: first.sub(&bound).ok_or("their difference")?,
        bound: Form::pure(0).ok_or("nothing")?,
        step: 8,
    })
}

// An access of 8 bytes at a register that gains 8 in each turn.
fn access(register: u8, store: bool) -> Result<Access, Fail> {
    let number = register % 31 + 1;
    Ok(Access {
        form: Form::moving(Loc::Reg(number), 8).ok_or("a register")?,
        width: Width::Eight,
        store,
        ..Access::default()
    })
}

// A loop without cells.
fn no_cells() -> Cells
    ensures { All (λ (c : Cell). HasOffset c.base c.offset) result.list.items }
{
    Cells {
        list: ArrayVec::new(),
        uses: ArrayVec::new(),
        fault: None,
    }
}

// Where a run leaves the words, and after how many.
fn end_of(code: &[u32], regs: &mut Regs, slots: &mut [u64; 32]) -> Option<(u64, u64)> {
    let mut pc = BASE;
    for count in 0..400 {
        if pc < BASE {
            return None;
        }
        let place = (pc - BASE) / 4;
        if place >= code.len() as u64 {
            return Some((place, count));
        }
        match step(code[place as usize], pc, regs, slots) {
            Some(to) => pc = to,
            None => return None,
        }
    }
    None
}

// The loop that stores at x11 and x12 999 times: 30 words of the trip, 52 of each access and 39 of each pair.
#[test]
fn filling_two_arrays(rt: HostRuntime) -> Result<(), Fail> {
    let mut list = ArrayVec::new();
    list.push(access(10, true)?);
    list.push(access(11, true)?);
    let mut code = words_of(rt.alloc(), &no_cells(), to_x13()?, &Accesses { list })?;
    assert_eq!(rt; code.len(), 251);
    assert!(rt; code.len() < 300);
    aim(code.as_mut_slice(), 300);
    let (mut regs, mut slots) = entry();
    regs.set(reg(11), 0x20000);
    regs.set(reg(12), 0x21f40);
    regs.set(reg(13), 0x21f38);
    let end = end_of(code.as_slice(), &mut regs, &mut slots);
    assert!(rt; end == Some((251, 183)));
    assert_eq!(rt; slots[23], 998);
    Ok(())
}

// The loop that adds what lies at x11 and x12 and stores the sum at x10, 100 times: one turn stores what
// the next loads. 30 words of the trip, 58 of each load, 52 of the store and 39 of each pair.
#[test]
fn a_sum_in_the_next_element(rt: HostRuntime) -> Result<(), Fail> {
    let mut list = ArrayVec::new();
    list.push(access(10, false)?);
    list.push(access(11, false)?);
    list.push(access(9, true)?);
    let mut code = words_of(rt.alloc(), &no_cells(), to_x13()?, &Accesses { list })?;
    assert_eq!(rt; code.len(), 315);
    assert!(rt; code.len() < 400);
    aim(code.as_mut_slice(), 400);
    let (mut regs, mut slots) = entry();
    regs.set(reg(10), 0x22000);
    regs.set(reg(11), 0x20000);
    regs.set(reg(12), 0x22008);
    regs.set(reg(13), 0x20000 + 800);
    let end = end_of(code.as_slice(), &mut regs, &mut slots);
    assert!(rt; matches!(end, Some((400, _))));
    let (mut regs, mut slots) = entry();
    regs.set(reg(10), 0x23000);
    regs.set(reg(11), 0x20000);
    regs.set(reg(12), 0x22008);
    regs.set(reg(13), 0x20000 + 800);
    let end = end_of(code.as_slice(), &mut regs, &mut slots);
    assert!(rt; matches!(end, Some((315, _))));
    assert_eq!(rt; slots[23], 99);
    Ok(())
}

// A cell at an offset from a register.
fn cell(base: u8, offset: i8, wide: bool, stored: bool) -> Cell
    ensures { HasOffset result.base result.offset }
{
    Cell {
        base: Some(base % 32),
        offset: offset as i64,
        wide,
        stored,
    }
}

// Three cells.
fn three_cells(first: Cell, second: Cell, third: Cell) -> Cells
    requires first { HasOffset first.base first.offset }
    requires second { HasOffset second.base second.offset }
    requires third { HasOffset third.base third.offset }
    ensures { All (λ (c : Cell). HasOffset c.base c.offset) result.list.items }
{
    let mut list = ArrayVec::new();
    list.push(first);
    list.push(second);
    list.push(third);
    Cells {
        list,
        uses: ArrayVec::new(),
        fault: None,
    }
}

// Two cells of one base, of which the second is stored, and one of another base: the first cell keeps off none, and the
// second off the third alone. The code may be read, and the other three areas may be read and written.
#[test]
fn cells_come_first(rt: HostRuntime) -> Result<(), Fail> {
    let cells = three_cells(
        cell(8, 0, true, false),
        cell(8, 8, false, true),
        cell(9, -4, false, false),
    );
    let list = ArrayVec::new();
    let mut code = words_of(rt.alloc(), &cells, to_x13()?, &Accesses { list })?;
    assert_eq!(rt; code.len(), (11 + 25) + (11 + 19) + (11 + 25) + 9 + 30);
    let words = code.as_slice();
    assert!(rt;
        words[34] == 0x0002_B303 && words[35] == 0x0003_000B,
        "ld x6, 0(x5); xp.put 0, x6"
    );
    assert!(rt;
        words[64] == 0x0002_A303 && words[65] == 0x0013_000B,
        "lw x6, 0(x5); xp.put 1, x6"
    );
    assert!(rt;
        words[100] == 0x0002_A303 && words[101] == 0x0023_000B,
        "lw x6, 0(x5); xp.put 2, x6"
    );
    aim(code.as_mut_slice(), 300);
    for (x8, end, count) in [
        (0x20004, 300, 5),
        (0x1_0002_0000, 300, 7),
        (0x7F80_0000, 300, 32),
    ] {
        let (mut regs, mut slots) = entry();
        regs.set(reg(8), x8);
        let told = end_of(code.as_slice(), &mut regs, &mut slots);
        assert!(rt; told == Some((end, count)), "of {x8:x}");
        assert_eq!(rt; slots[0], 0);
    }
    Ok(())
}
