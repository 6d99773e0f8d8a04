// Words by hand from the fields of their forms, and what a hart has after their run.

ghost use Rattle.std.specs.Prelude.{◌≡◌, ◌<◌, [], Some, IfSome};
ghost use Rattle.rv64_decode.specs.Area.{why, readable_of};

use crate::macros::{
    push_address, push_form, push_high, push_location, push_low, push_need, push_number, push_span,
};
use crate::ranges::push_areas;
use alias_checks::areas::Permission;
use linear_forms::{Form, Loc, Terms};
use loop_data::Cell;
use rv64_decode::{BranchOp, MemFault, Next, Reg, Regs, Width, Words, XNext, aim, decode_x};
use rv64_meaning::exec_x;
use std::test::Fail;

// A memory without an area.
#[derive(Drop)]
struct Nowhere;

impl Nowhere {
    fn why(&self, addr: u64, width: Width) -> MemFault
        ensures { Some result ≡ why readable_of [] addr width }
    {
        if addr % width.bytes() == 0 {
            MemFault::Unmapped
        } else {
            MemFault::Misaligned
        }
    }
}

impl Words for Nowhere {
    ghost memory = { λ _. [] };

    ghost allows = { λ _ _. Unit {0} };

    ghost moves = { λ _ _ _. Unit {0} };

    ghost stays = { λ _. tt };

    fn load(&mut self, addr: u64, width: Width) -> Result<u64, MemFault> {
        Err(self.why(addr, width))
    }

    fn store(&mut self, addr: u64, width: Width, _value: u64) -> Result<(), MemFault> {
        Err(self.why(addr, width))
    }
}

pub(crate) const BASE: u64 = 0x6000_0000;

pub(crate) fn reg(number: u8) -> Reg {
    Reg::new(number % 32)
}

// The address after a word, or none where the hart does not go on.
pub(crate) fn step(word: u32, pc: u64, regs: &mut Regs, slots: &mut [u64; 32]) -> Option<u64> {
    match decode_x(word) {
        Some(i) => match exec_x(i, pc, regs, slots, 0, 1, &mut Nowhere) {
            XNext::Own(Next::At(to)) => Some(to),
            _ => None,
        },
        None => None,
    }
}

// The place at which a run from the first word leaves the code.
pub(crate) fn run(code: &[u32], regs: &mut Regs, slots: &mut [u64; 32]) -> Option<u64> {
    let mut pc = BASE;
    for _ in 0..200 {
        if pc < BASE {
            return None;
        }
        let place = (pc - BASE) / 4;
        if place >= code.len() as u64 {
            return Some(place);
        }
        match step(code[place as usize], pc, regs, slots) {
            Some(to) => pc = to,
            None => return None,
        }
    }
    None
}

// x8 is 100, x10 is 1000, and each other register its number; slot s is 10 s.
pub(crate) fn entry() -> (Regs, [u64; 32]) {
    let mut regs = Regs::new();
    let mut slots = [0; 32];
    for k in 0..32u8 {
        regs.set(Reg::new(k), k as u64);
        slots[k as usize] = k as u64 * 10;
    }
    regs.set(reg(8), 100);
    regs.set(reg(10), 1000);
    (regs, slots)
}

#[test]
fn numbers_take_two_words(rt: HostRuntime) -> Result<(), Fail> {
    for (v, upper, lower) in [
        (0, 0x0000_02B7, 0x0002_829B),
        (-1, 0x0000_02B7, 0xFFF2_829B),
        (2047, 0x0000_02B7, 0x7FF2_829B),
        (2048, 0x0000_12B7, 0x8002_829B),
        (-2048, 0x0000_02B7, 0x8002_829B),
        (-2049, 0xFFFF_F2B7, 0x7FF2_829B),
        (0x7FFF_FFFF, 0x8000_02B7, 0xFFF2_829B),
        (-0x8000_0000, 0x8000_02B7, 0x0002_829B),
        (0x7FFF_F800, 0x8000_02B7, 0x8002_829B),
    ] {
        let mut code = Vec::new(rt.alloc());
        push_number(&mut code, reg(5), v)?;
        assert_eq!(rt; code.as_slice(), [upper, lower].as_slice(), "of {v}");
        let (mut regs, mut slots) = entry();
        assert_eq!(rt; run(code.as_slice(), &mut regs, &mut slots), Some(2));
        assert_eq!(rt; regs.get(reg(5)), v.cast_unsigned(), "of {v}");
    }
    Ok(())
}

#[test]
fn temporaries_have_slots(rt: HostRuntime) -> Result<(), Fail> {
    for (loc, word, value) in [
        (Loc::Reg(10), 0x0005_0293, 1000),
        (Loc::Reg(1), 0x0000_8293, 1),
        (Loc::Reg(5), 0x0100_128B, 160),
        (Loc::Reg(6), 0x0110_128B, 170),
        (Loc::Reg(7), 0x0120_128B, 180),
        (Loc::Reg(28), 0x0130_128B, 190),
        (Loc::Reg(29), 0x0140_128B, 200),
        (Loc::Reg(30), 0x0150_128B, 210),
        (Loc::Reg(31), 0x0160_128B, 220),
        (Loc::Cell(0), 0x0000_128B, 0),
        (Loc::Cell(15), 0x00F0_128B, 150),
    ] {
        let mut code = Vec::new(rt.alloc());
        push_location(&mut code, reg(5), loc)?;
        assert_eq!(rt; code.as_slice(), [word].as_slice(), "of {loc:?}");
        let (mut regs, mut slots) = entry();
        assert_eq!(rt; run(code.as_slice(), &mut regs, &mut slots), Some(1));
        assert_eq!(rt; regs.get(reg(5)), value, "of {loc:?}");
    }
    Ok(())
}

// 8 + x10 + 3 x31 - 5 cell 2, x31 being a temporary.
fn sum() -> Option<Form> {
    let temporary = Form::moving(Loc::Reg(31), 0)?.scale(3)?;
    let cell = Form::moving(Loc::Cell(2), 0)?.scale(-5)?;
    let register = Form::moving(Loc::Reg(10), 0)?;
    Form::pure(8)?.add(&register)?.add(&temporary)?.add(&cell)
}

#[test]
fn a_form_takes_five_words_a_term(rt: HostRuntime) -> Result<(), Fail> {
    let mut code = Vec::new(rt.alloc());
    if let Some(form) = sum() {
        push_form(&mut code, reg(6), &form)?;
    }
    assert_eq!(rt; code.len(), 17);
    let (mut regs, mut slots) = entry();
    assert_eq!(rt; run(code.as_slice(), &mut regs, &mut slots), Some(17));
    assert_eq!(rt; regs.get(reg(6)), 8 + 1000 + 660 - 100);
    assert_eq!(rt; regs.get(reg(5)), 5);
    Ok(())
}

// 40 + x10, 8 less in each turn of the root and 4 more in each pass of the second loop.
fn moving() -> Form {
    Form {
        constant: 40,
        terms: Terms::entry(Loc::Reg(10)),
        turns: [-8, 4, 0],
    }
}

#[test]
fn spans_follow_their_sign(rt: HostRuntime) -> Result<(), Fail> {
    let mut low = Vec::new(rt.alloc());
    push_low(&mut low, reg(7), &moving(), [23, 25, 24])?;
    assert_eq!(rt; low.len(), 12);
    let (mut regs, mut slots) = entry();
    assert_eq!(rt; run(low.as_slice(), &mut regs, &mut slots), Some(12));
    assert_eq!(rt; regs.get(reg(7)), (-800i64).cast_unsigned());
    let mut high = Vec::new(rt.alloc());
    push_high(&mut high, reg(28), &moving(), [23, 25, 24], 8)?;
    assert_eq!(rt; high.len(), 13);
    let (mut regs, mut slots) = entry();
    assert_eq!(rt; run(high.as_slice(), &mut regs, &mut slots), Some(13));
    assert_eq!(rt; regs.get(reg(28)), 1040 + 4 * 250 + 8);
    Ok(())
}

#[test]
fn cells_have_their_addresses(rt: HostRuntime) -> Result<(), Fail> {
    for (base, offset, address) in [
        (Some(8), -24, 76),
        (Some(29), 2047, 2247),
        (None, 0x2_0000, 0x2_0000),
        (None, 0x7FFF_F7F8, 0x7FFF_F7F8),
    ] {
        let cell = Cell {
            base,
            offset,
            wide: true,
            stored: false,
        };
        let mut code = Vec::new(rt.alloc());
        push_address(&mut code, reg(5), &cell)?;
        let (mut regs, mut slots) = entry();
        assert_eq!(rt; run(code.as_slice(), &mut regs, &mut slots), Some(2));
        assert_eq!(rt; regs.get(reg(5)), address, "of {cell:?}");
    }
    Ok(())
}

#[test]
fn a_needed_branch_goes_on_where_it_is_taken(rt: HostRuntime) -> Result<(), Fail> {
    for (op, first, second, end) in [
        (BranchOp::Beq, 6, 6, 2),
        (BranchOp::Beq, 6, 7, 9),
        (BranchOp::Bge, 7, 6, 2),
        (BranchOp::Bge, 6, 7, 9),
    ] {
        let mut code = Vec::new(rt.alloc());
        push_need(&mut code, op, reg(first), reg(second))?;
        assert_eq!(rt; code.len(), 2);
        assert_eq!(rt; code.as_slice().get(1), Some(&0x6F));
        aim(code.as_mut_slice(), 9);
        let (mut regs, mut slots) = entry();
        assert_eq!(rt; run(code.as_slice(), &mut regs, &mut slots), Some(end));
    }
    Ok(())
}

const AREAS: [(u64, u64, u32); 4] = [
    (0x1_0000, 0x1_1000, 5),
    (0x2_0000, 0x2_1000, 6),
    (0x2_1000, 0x4_0000, 6),
    (0x7FFF_0000, 0x7FFF_F000, 6),
];

#[test]
fn areas_take_six_words_each_and_one(rt: HostRuntime) -> Result<(), Fail> {
    for (permission, count, low, end, lies) in [
        (Permission::Read, 25, 0x1_0000, 0x1_0008, true),
        (Permission::Read, 25, 0x1_0FF8, 0x1_1000, true),
        (Permission::Read, 25, 0x1_0FF8, 0x1_1001, false),
        (Permission::Read, 25, 0xFFFF, 0x1_0008, false),
        (Permission::Write, 19, 0x1_0000, 0x1_0008, false),
        (Permission::Write, 19, 0x3_0000, 0x4_0000, true),
        (Permission::Write, 19, 0x2_0FF8, 0x2_1008, false),
        (Permission::ReadAndWrite, 19, 0x7FFF_EFF8, 0x7FFF_F000, true),
        (Permission::Read, 25, 0x7FFF_F000, 0x7FFF_F008, false),
        (Permission::Read, 25, u64::MAX - 7, 0x2_0010, false),
    ] {
        let mut code = Vec::new(rt.alloc());
        push_areas(&mut code, permission, &AREAS)?;
        assert_eq!(rt; code.len(), count);
        aim(code.as_mut_slice(), 90);
        let (mut regs, mut slots) = entry();
        regs.set(reg(5), low);
        regs.set(reg(6), end);
        let place = run(code.as_slice(), &mut regs, &mut slots);
        let want = if lies { count as u64 } else { 90 };
        assert_eq!(rt; place, Some(want), "of {low:x} to {end:x}");
    }
    Ok(())
}

// An executable's code, its heap and the stack, and an area that may be written alone.
const OF_A_PROGRAM: [(u64, u64, u32); 4] = [
    (0x1_0000, 0x1_1000, 5),
    (0x1_1000, 0x101_1000, 6),
    (0x7F00_0000, 0x7F80_0000, 6),
    (0x7F80_0000, 0x7F80_1000, 2),
];

#[test]
fn heap_and_stack_are_tried(rt: HostRuntime) -> Result<(), Fail> {
    for (permission, count, low, end, lies) in [
        (Permission::Read, 19, 0x100_0000, 0x101_1000, true),
        (Permission::Read, 19, 0x1_0FF8, 0x1_1008, false),
        (Permission::Read, 19, 0x7F7F_FFF8, 0x7F80_0000, true),
        (Permission::Read, 19, 0x7F80_0000, 0x7F80_0008, false),
        (Permission::Write, 19, 0x7F80_0000, 0x7F80_0008, true),
        (Permission::Write, 19, 0x1_0000, 0x1_0008, false),
        (Permission::ReadAndWrite, 13, 0x1_1000, 0x1_1008, true),
        (
            Permission::ReadAndWrite,
            13,
            0x7F80_0000,
            0x7F80_0008,
            false,
        ),
    ] {
        let mut code = Vec::new(rt.alloc());
        push_areas(&mut code, permission, &OF_A_PROGRAM)?;
        assert_eq!(rt; code.len(), count);
        aim(code.as_mut_slice(), 90);
        let (mut regs, mut slots) = entry();
        regs.set(reg(5), low);
        regs.set(reg(6), end);
        let place = run(code.as_slice(), &mut regs, &mut slots);
        let want = if lies { count as u64 } else { 90 };
        assert_eq!(rt; place, Some(want), "of {low:x} to {end:x}");
    }
    Ok(())
}

// The words of pieces, by hand from the fields of their forms.
#[test]
fn pieces_are_these_words(rt: HostRuntime) -> Result<(), Fail> {
    let mut code = Vec::new(rt.alloc());
    push_span(&mut code, reg(6), 3, 23)?;
    let span = [
        0x0170_1F8B, // xp.get x31, 23
        0x0000_0F37, // lui x30, 0
        0x003F_0F1B, // addiw x30, x30, 3
        0x03EF_8FB3, // mul x31, x31, x30
        0x01F3_0333, // add x6, x6, x31
    ];
    assert_eq!(rt; code.as_slice(), span.as_slice());
    let mut code = Vec::new(rt.alloc());
    push_need(&mut code, BranchOp::Beq, reg(6), reg(0))?;
    let need = [
        0x0003_0463, // beq x6, x0, 8
        0x0000_006F, // jal x0, 0
    ];
    assert_eq!(rt; code.as_slice(), need.as_slice());
    let mut code = Vec::new(rt.alloc());
    push_areas(&mut code, Permission::Read, &OF_A_PROGRAM[..1])?;
    let areas = [
        0x0001_03B7, // lui x7, 0x10
        0x0003_839B, // addiw x7, x7, 0
        0x0072_C863, // blt x5, x7, 16
        0x0001_13B7, // lui x7, 0x11
        0x0003_839B, // addiw x7, x7, 0
        0x0063_D463, // bge x7, x6, 8
        0x0000_006F, // jal x0, 0
    ];
    assert_eq!(rt; code.as_slice(), areas.as_slice());
    Ok(())
}

#[test]
fn no_area_is_the_open_jump_alone(rt: HostRuntime) -> Result<(), Fail> {
    let mut code = Vec::new(rt.alloc());
    push_areas(&mut code, Permission::Write, &AREAS[..1])?;
    assert_eq!(rt; code.as_slice(), [0x0000_006F].as_slice());
    Ok(())
}
