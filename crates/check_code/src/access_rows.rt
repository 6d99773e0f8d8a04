// Words of accesses and of pairs, beside and at the limits of the check's rules. Slot 23 has 230, and so on by 10.

ghost use Rattle.check_code.specs.Laws.{HasOffset};

use crate::accesses::{push_access, push_keep_off};
use crate::macros::{push_high, push_low};
use crate::pairs::push_pair;
use crate::tests::{entry, reg, run};
use dependence_tests::pair_term;
use linear_forms::{Form, Loc, Terms};
use loop_data::{Access, Cell};
use rv64_decode::{Width, aim};
use std::alloc::AllocError;
use std::test::Fail;

const AREAS: [(u64, u64, u32); 3] = [
    (0x1_0000, 0x1_1000, 5),
    (0x2_0000, 0x4_0000, 6),
    (0x7FFF_0000, 0x7FFF_F000, 6),
];

const TARGET: u32 = 150;

fn load(form: Form, around: [u32; 3]) -> Access {
    Access {
        at: 0x10000,
        level: 0,
        around,
        form,
        width: Width::Eight,
        store: false,
    }
}

fn aim_at_target(code: &mut Vec<u32>) {
    if code.len() < 1000 {
        aim(code.as_mut_slice(), TARGET);
    }
}

// Where a run with these words in x10 and x11 leaves the code.
fn leaves(code: &[u32], first: u64, second: u64) -> Option<u64> {
    let (mut regs, mut slots) = entry();
    regs.set(reg(10), first);
    regs.set(reg(11), second);
    run(code, &mut regs, &mut slots)
}

// The end of the code where the test holds, and the target elsewhere.
fn place(code: &[u32], holds: bool) -> Option<u64> {
    if holds {
        Some(code.len() as u64)
    } else {
        Some(TARGET as u64)
    }
}

#[test]
fn loads_lie_in_areas_that_may_be_read(rt: HostRuntime) -> Result<(), Fail> {
    let form = Form {
        constant: 0,
        terms: Terms::entry(Loc::Reg(10)),
        turns: [8, 0, 0],
    };
    let mut code = Vec::new(rt.alloc());
    push_access(&mut code, &AREAS, &load(form, [0, 0, 0]))?;
    aim_at_target(&mut code);
    for (address, fits) in [
        (0x1_0000, true),
        (0x1_08C8, true),
        (0x1_08D0, false),
        (0xFFF8, false),
        (0x1_0004, false),
        (0x2_0000, true),
        (0x7FFF_E8C8, true),
        (0x8000_0000, false),
        (u64::MAX - 7, false),
    ] {
        let found = leaves(code.as_slice(), address, 0);
        assert_eq!(rt; found, place(code.as_slice(), fits), "at {address:x}");
    }
    Ok(())
}

#[test]
fn stores_lie_in_areas_that_may_be_written(rt: HostRuntime) -> Result<(), Fail> {
    let form = Form {
        constant: 0,
        terms: Terms::entry(Loc::Reg(10)),
        turns: [-8, 16, 0],
    };
    let mut access = load(form, [0, 2, 0]);
    access.store = true;
    let mut code = Vec::new(rt.alloc());
    push_access(&mut code, &AREAS, &access)?;
    aim_at_target(&mut code);
    for (address, fits) in [
        (0x2_0730, true),
        (0x2_0728, false),
        (0x3_F058, true),
        (0x3_F060, false),
        (0x1_0730, false),
    ] {
        let found = leaves(code.as_slice(), address, 0);
        assert_eq!(rt; found, place(code.as_slice(), fits), "at {address:x}");
    }
    Ok(())
}

#[test]
fn depths_without_a_loop_do_not_move(rt: HostRuntime) -> Result<(), Fail> {
    let form = Form {
        constant: 0,
        terms: Terms::entry(Loc::Reg(10)),
        turns: [0, 0x10_0000, 0],
    };
    let mut access = load(form, [0, 0, 0]);
    access.width = Width::Four;
    let mut code = Vec::new(rt.alloc());
    push_access(&mut code, &AREAS, &access)?;
    aim_at_target(&mut code);
    for (address, fits) in [(0x1_0FFC, true), (0x1_0FFE, false), (0x1_1000, false)] {
        let found = leaves(code.as_slice(), address, 0);
        assert_eq!(rt; found, place(code.as_slice(), fits), "at {address:x}");
    }
    Ok(())
}

// A cell at 128, since x8 is 100.
fn cell(wide: bool, stored: bool) -> Cell
    ensures { HasOffset result.base result.offset }
{
    Cell {
        base: Some(8),
        offset: 28,
        wide,
        stored,
    }
}

fn falling() -> Access {
    let form = Form {
        constant: 0,
        terms: Terms::entry(Loc::Reg(10)),
        turns: [-8, 0, 0],
    };
    load(form, [0, 0, 0])
}

#[test]
fn accesses_keep_off_stored_cells(rt: HostRuntime) -> Result<(), Fail> {
    for (wide, address, keeps) in [
        (true, 120, true),
        (true, 121, false),
        (true, 1975, false),
        (true, 1976, true),
        (false, 1971, false),
        (false, 1972, true),
    ] {
        let mut code = Vec::new(rt.alloc());
        push_keep_off(&mut code, &cell(wide, true), &falling())?;
        aim_at_target(&mut code);
        let found = leaves(code.as_slice(), address, 0);
        assert_eq!(rt; found, place(code.as_slice(), keeps), "at {address}");
    }
    let mut code = Vec::new(rt.alloc());
    push_keep_off(&mut code, &cell(true, false), &falling())?;
    assert_eq!(rt; code.len(), 0);
    Ok(())
}

// The words of a load at x10 and one at x11, both with these strides.
fn alike(code: &mut Vec<u32>, a: &Access, b: &Access) -> Result<(), AllocError> {
    let term = pair_term(a, b);
    push_pair(code, a, b, &term)?;
    aim_at_target(code);
    Ok(())
}

#[test]
fn strides_of_the_root_tell_pairs_apart(rt: HostRuntime) -> Result<(), Fail> {
    let first = Form {
        constant: 0,
        terms: Terms::entry(Loc::Reg(10)),
        turns: [64, 0, 0],
    };
    let second = Form {
        constant: 0,
        terms: Terms::entry(Loc::Reg(11)),
        turns: [64, 0, 0],
    };
    let mut code = Vec::new(rt.alloc());
    alike(&mut code, &load(first, [0, 0, 0]), &load(second, [0, 0, 0]))?;
    // 230 turns lead 14720 bytes far.
    for (a, b, apart) in [
        (100_000, 100_000, true),
        (100_000, 100_056, true),
        (100_000, 100_060, false),
        (100_060, 100_000, false),
        (100_056, 100_000, true),
        (100_000, 100_120, true),
        (100_120, 100_000, true),
        (100_000, 100_124, false),
        (100_000, 100_128, false),
        (100_000, 114_720, false),
        (100_000, 114_784, true),
        (114_784, 100_000, true),
    ] {
        let found = leaves(code.as_slice(), a, b);
        assert_eq!(rt; found, place(code.as_slice(), apart), "of {a} and {b}");
    }
    Ok(())
}

#[test]
fn turns_stay_between_passes(rt: HostRuntime) -> Result<(), Fail> {
    let first = Form {
        constant: 0,
        terms: Terms::entry(Loc::Reg(10)),
        turns: [8, 1848, 0],
    };
    let second = Form {
        constant: 0,
        terms: Terms::entry(Loc::Reg(11)),
        turns: [8, 1848, 0],
    };
    let mut code = Vec::new(rt.alloc());
    alike(&mut code, &load(first, [0, 1, 0]), &load(second, [0, 1, 0]))?;
    // 230 turns lead 1840 bytes far, and 240 passes 443520.
    for (a, b, apart) in [
        (100_000, 100_000, true),
        (100_000, 100_001, false),
        (100_001, 100_000, false),
        (100_000, 545_360, false),
        (100_000, 545_368, true),
        (545_368, 100_000, true),
    ] {
        let found = leaves(code.as_slice(), a, b);
        assert_eq!(rt; found, place(code.as_slice(), apart), "of {a} and {b}");
    }
    Ok(())
}

#[test]
fn a_pass_too_short_for_the_turns_fails(rt: HostRuntime) -> Result<(), Fail> {
    let first = Form {
        constant: 0,
        terms: Terms::entry(Loc::Reg(10)),
        turns: [8, 1840, 0],
    };
    let second = first.copied();
    let mut code = Vec::new(rt.alloc());
    alike(&mut code, &load(first, [0, 1, 0]), &load(second, [0, 1, 0]))?;
    assert_eq!(rt; leaves(code.as_slice(), 100_000, 0), Some(TARGET as u64));
    Ok(())
}

// The words behind the two addresses and their distance: what the passes of the inner loops lead to, and the tests by
// the stride of the root and by the greatest divisor of those of the inner loops.
const LANES: [u32; 23] = [
    0x0180_1F8B, // xp.get x31, 24
    0x0000_1F37, // lui x30, 0x1
    0xE70F_0F1B, // addiw x30, x30, -400
    0x03EF_8FB3, // mul x31, x31, x30
    0x01F3_0333, // add x6, x6, x31
    0x0190_1F8B, // xp.get x31, 25
    0x0000_1F37, // lui x30, 0x1
    0x5A8F_0F1B, // addiw x30, x30, 1448
    0x03EF_8FB3, // mul x31, x31, x30
    0x01F3_0333, // add x6, x6, x31
    0x0062_83B3, // add x7, x5, x6
    0x0083_8393, // addi x7, x7, 8
    0x0000_0EB7, // lui x29, 0
    0x008E_8E9B, // addiw x29, x29, 8
    0x067E_D063, // bge x29, x7, 96
    0x0082_8393, // addi x7, x5, 8
    0x007E_CE63, // blt x29, x7, 28
    0x0170_1F8B, // xp.get x31, 23
    0x03DF_8FB3, // mul x31, x31, x29
    0x01F3_83B3, // add x7, x7, x31
    0x0000_0F37, // lui x30, 0
    0x738F_0F1B, // addiw x30, x30, 1848
    0x047F_5063, // bge x30, x7, 64
];

#[test]
fn lanes_of_three_levels(rt: HostRuntime) -> Result<(), Fail> {
    let first = Form {
        constant: 0,
        terms: Terms::entry(Loc::Reg(10)),
        turns: [8, 3696, 5544],
    };
    let second = Form {
        constant: 0,
        terms: Terms::entry(Loc::Reg(11)),
        turns: [8, 3696, 5544],
    };
    let mut code = Vec::new(rt.alloc());
    alike(&mut code, &load(first, [0, 1, 2]), &load(second, [0, 1, 2]))?;
    assert_eq!(rt; code.len(), 57);
    assert!(rt; &code.as_slice()[19..42] == LANES.as_slice());
    // 231 turns take 1848 bytes, the divisor of 3696 and 5544; 240 and 250 passes lead 2273040 bytes far.
    for (a, b, apart) in [
        (100_000, 100_000, true),
        (100_000, 100_001, false),
        (100_001, 100_000, false),
        (100_000, 2_374_887, false),
        (100_000, 2_374_888, true),
        (2_374_888, 100_000, true),
    ] {
        let found = leaves(code.as_slice(), a, b);
        assert_eq!(rt; found, place(code.as_slice(), apart), "of {a} and {b}");
    }
    Ok(())
}

#[test]
fn lanes_too_short_for_the_turns_fail(rt: HostRuntime) -> Result<(), Fail> {
    let first = Form {
        constant: 0,
        terms: Terms::entry(Loc::Reg(10)),
        turns: [8, 3680, 5520],
    };
    let second = first.copied();
    let mut code = Vec::new(rt.alloc());
    alike(&mut code, &load(first, [0, 1, 2]), &load(second, [0, 1, 2]))?;
    assert_eq!(rt; leaves(code.as_slice(), 100_000, 0), Some(TARGET as u64));
    Ok(())
}

#[test]
fn other_shapes_are_told_apart_by_their_ranges(rt: HostRuntime) -> Result<(), Fail> {
    let first = Form {
        constant: 0,
        terms: Terms::entry(Loc::Reg(10)),
        turns: [8, 0, 0],
    };
    let second = Form {
        constant: 0,
        terms: Terms::entry(Loc::Reg(11)),
        turns: [16, 0, 0],
    };
    let mut code = Vec::new(rt.alloc());
    alike(&mut code, &load(first, [0, 0, 0]), &load(second, [0, 0, 0]))?;
    for (a, b, apart) in [
        (100_000, 101_848, true),
        (100_000, 101_847, false),
        (100_000, 100_000, false),
        (103_687, 100_000, false),
        (103_688, 100_000, true),
    ] {
        let found = leaves(code.as_slice(), a, b);
        assert_eq!(rt; found, place(code.as_slice(), apart), "of {a} and {b}");
    }
    Ok(())
}

#[test]
fn three_strides_move_the_least_and_the_greatest_value(rt: HostRuntime) -> Result<(), Fail> {
    let falling = Form {
        constant: 40,
        terms: Terms::entry(Loc::Reg(10)),
        turns: [-8, -4, -2],
    };
    let rising = Form {
        constant: 40,
        terms: Terms::entry(Loc::Reg(10)),
        turns: [8, 4, 2],
    };
    let mut code = Vec::new(rt.alloc());
    push_low(&mut code, reg(5), &falling, [23, 25, 24])?;
    push_high(&mut code, reg(6), &falling, [23, 25, 24], 8)?;
    push_low(&mut code, reg(7), &rising, [23, 25, 24])?;
    push_high(&mut code, reg(28), &rising, [23, 25, 24], 8)?;
    assert_eq!(rt; code.len(), 22 + 8 + 7 + 23);
    let (mut regs, mut slots) = entry();
    assert_eq!(rt; run(code.as_slice(), &mut regs, &mut slots), Some(60));
    assert_eq!(rt; regs.get(reg(5)), (-2280i64).cast_unsigned());
    assert_eq!(rt; regs.get(reg(6)), 1048);
    assert_eq!(rt; regs.get(reg(7)), 1040);
    assert_eq!(rt; regs.get(reg(28)), 1040 + 1840 + 1000 + 480 + 8);
    Ok(())
}
