// Trips and duties at their limits, counted by hand.

use crate::duties::push_duty;
use crate::tests::{entry, reg, run};
use crate::turns::{push_inner, push_root};
use linear_forms::{Form, Loc};
use loop_data::{Duty, Relation, Trip};
use rv64_decode::aim;
use std::test::Fail;

// A word that moves from x10 on, toward x11.
fn trip(relation: Relation, signed: bool, step: i64) -> Option<Trip> {
    let first = Form::moving(Loc::Reg(10), step)?;
    let second = Form::moving(Loc::Reg(11), 0)?;
    Some(match relation {
        Relation::Differ => Trip {
            relation,
            signed,
            start: first.sub(&second)?,
            bound: Form::pure(0)?,
            step,
        },
        _ => Trip {
            relation,
            signed,
            start: first,
            bound: second,
            step,
        },
    })
}

// The relation and whether it is signed, the step, x10, x11, and how often it stays, where the trip tells that.
type Row = (Relation, bool, i64, u64, u64, Option<u64>);

const MIDDLE: u64 = 1 << 63;

const LAST: u64 = u64::MAX;

const ROWS: [Row; 42] = [
    (Relation::Differ, true, 8, 0, 128, Some(16)),
    (Relation::Differ, true, 8, 0, 120, Some(15)),
    (Relation::Differ, true, 8, 0, 124, None),
    (Relation::Differ, true, 8, 128, 0, None),
    (Relation::Differ, true, -8, 128, 0, Some(16)),
    (Relation::Differ, true, -8, 0, 128, None),
    (Relation::Differ, true, 1, 7, 7, Some(0)),
    (Relation::Differ, true, 1, 0, 0x8000_0000, Some(0x8000_0000)),
    (Relation::Differ, true, 1, 0, 0x7FFF_FFFF, Some(0x7FFF_FFFF)),
    (Relation::Differ, true, 1, 0, 0x8000_0001, Some(0x8000_0001)),
    (Relation::Differ, true, 8, MIDDLE, 0, Some(1 << 60)),
    (Relation::Differ, true, -8, MIDDLE, 0, None),
    (Relation::Differ, true, -1, MIDDLE, 0, None),
    (Relation::Less, true, 3, LAST - 19, 26, Some(16)),
    (Relation::Less, true, 3, LAST - 19, 25, Some(15)),
    (Relation::Less, true, 3, MIDDLE - 24, MIDDLE + 24, Some(0)),
    (Relation::Less, false, 3, MIDDLE - 24, MIDDLE + 24, Some(16)),
    (Relation::Less, false, 3, LAST - 19, 26, Some(0)),
    (Relation::Less, false, 1, 0, 0x8000_0000, Some(0x8000_0000)),
    (Relation::Less, false, 1, 0, 0x8000_0001, Some(0x8000_0001)),
    (Relation::Less, false, 1, 1, 0x8000_0000, Some(0x7FFF_FFFF)),
    (Relation::AtMost, true, 3, LAST - 19, 25, Some(16)),
    (Relation::AtMost, true, 3, LAST - 19, 24, Some(15)),
    (Relation::AtMost, true, 3, 26, 25, Some(0)),
    (
        Relation::AtMost,
        false,
        3,
        MIDDLE - 24,
        MIDDLE + 21,
        Some(16),
    ),
    (
        Relation::AtMost,
        false,
        1,
        0,
        0x7FFF_FFFF,
        Some(0x8000_0000),
    ),
    (
        Relation::AtMost,
        false,
        1,
        0,
        0x8000_0000,
        Some(0x8000_0001),
    ),
    (Relation::AtMost, false, 1, 0, LAST, None),
    (Relation::AtMost, false, 3, LAST - 60, LAST - 1, Some(20)),
    (Relation::AtMost, false, 3, LAST - 61, LAST - 1, None),
    (Relation::More, true, -3, 20, LAST - 25, Some(16)),
    (Relation::More, true, -3, 20, LAST - 24, Some(15)),
    (Relation::More, true, -3, MIDDLE + 24, MIDDLE - 24, Some(0)),
    (
        Relation::More,
        false,
        -3,
        MIDDLE + 24,
        MIDDLE - 24,
        Some(16),
    ),
    (Relation::More, false, -3, 48, 0, Some(16)),
    (Relation::More, false, -3, 47, 0, None),
    (Relation::AtLeast, true, -3, 20, LAST - 24, Some(16)),
    (Relation::AtLeast, true, -3, 20, LAST - 23, Some(15)),
    (Relation::AtLeast, true, -3, 20, 21, Some(0)),
    (
        Relation::AtLeast,
        false,
        -3,
        MIDDLE + 24,
        MIDDLE - 21,
        Some(16),
    ),
    (Relation::AtLeast, false, -3, 60, 15, Some(16)),
    (Relation::AtLeast, false, -3, 60, 0, None),
];

// From 16 to 2^31 turns.
#[test]
fn turns_of_the_root_are_told(rt: HostRuntime) -> Result<(), Fail> {
    for (relation, signed, step, start, bound, stays) in ROWS {
        let mut code = Vec::new(rt.alloc());
        if let Some(trip) = trip(relation, signed, step) {
            push_root(&mut code, &trip)?;
        }
        assert!(rt; code.len() < 90);
        let end = code.len() as u64;
        aim(code.as_mut_slice(), 90);
        let (mut regs, mut slots) = entry();
        regs.set(reg(10), start);
        regs.set(reg(11), bound);
        let place = run(code.as_slice(), &mut regs, &mut slots);
        let turns = stays.filter(|n| *n >= 16 && *n <= 0x8000_0000);
        let want = turns.map_or(90, |_| end);
        assert_eq!(rt;
            place,
            Some(want),
            "of {relation:?} from {start:x} to {bound:x}"
        );
        let last = turns.map_or(230, |n| n - 1);
        assert_eq!(rt;
            slots[23],
            last,
            "of {relation:?} from {start:x} to {bound:x}"
        );
    }
    Ok(())
}

// Up to 2^31 passes, one more than stay.
#[test]
fn passes_are_told(rt: HostRuntime) -> Result<(), Fail> {
    for (relation, signed, step, start, bound, stays) in ROWS {
        let mut code = Vec::new(rt.alloc());
        if let Some(trip) = trip(relation, signed, step) {
            push_inner(&mut code, 25, &trip)?;
        }
        assert!(rt; code.len() < 90);
        let end = code.len() as u64;
        aim(code.as_mut_slice(), 90);
        let (mut regs, mut slots) = entry();
        regs.set(reg(10), start);
        regs.set(reg(11), bound);
        let place = run(code.as_slice(), &mut regs, &mut slots);
        let passes = stays.filter(|n| *n < 0x8000_0000);
        let want = passes.map_or(90, |_| end);
        assert_eq!(rt;
            place,
            Some(want),
            "of {relation:?} from {start:x} to {bound:x}"
        );
        let last = passes.unwrap_or(250);
        assert_eq!(rt;
            slots[25],
            last,
            "of {relation:?} from {start:x} to {bound:x}"
        );
    }
    Ok(())
}

// x10 and so much in each turn, of which slot 23 says that the last is number 230, and in each pass of the second inner
// loop, of which slot 25 says that the last is number 250.
#[test]
fn duties_are_met_up_to_their_limits(rt: HostRuntime) -> Result<(), Fail> {
    for (start, first, second, place, is_met) in [
        (0x7FFF_FFFF, 0, 0, 0, true),
        (0x8000_0000, 0, 0, 0, false),
        (-0x8000_0000, 0, 0, 0, true),
        (-0x8000_0001, 0, 0, 0, false),
        (0x7FFF_FFFF - 230, 1, 0, 0, true),
        (0x8000_0000 - 230, 1, 0, 0, false),
        (-0x8000_0000 + 230, -1, 0, 0, true),
        (-0x8000_0001 + 230, -1, 0, 0, false),
        (0x7FFF_FFFF - 250, 0, 1, 2, true),
        (0x8000_0000 - 250, 0, 1, 2, false),
        (0x7FFF_FFFF - 230 - 750, 1, 3, 2, true),
        (0x8000_0000 - 230 - 750, 1, 3, 2, false),
        (-0x8000_0000 + 750, 9, -3, 2, true),
        (-0x8000_0001 + 750, 9, -3, 2, false),
        (i64::MAX, -1, 0, 0, false),
        (i64::MIN, 1, 0, 0, false),
    ] {
        let mut code = Vec::new(rt.alloc());
        if let Some(mut form) = Form::moving(Loc::Reg(10), 0) {
            form.turns = [first, second, 0];
            let duty = Duty {
                at: 0x1_0000,
                level: place,
                around: [0, place, 0],
                form,
            };
            push_duty(&mut code, &duty)?;
        }
        assert!(rt; code.len() < 90);
        let end = code.len() as u64;
        aim(code.as_mut_slice(), 90);
        let (mut regs, mut slots) = entry();
        regs.set(reg(10), start.cast_unsigned());
        let came = run(code.as_slice(), &mut regs, &mut slots);
        let want = if is_met { end } else { 90 };
        assert_eq!(rt; came, Some(want), "from {start} by {first} and {second}");
    }
    Ok(())
}

// The words by hand from the fields of their forms.
#[test]
fn an_order_is_these_words(rt: HostRuntime) -> Result<(), Fail> {
    let mut code = Vec::new(rt.alloc());
    if let Some(trip) = trip(Relation::Less, true, 3) {
        push_root(&mut code, &trip)?;
    }
    let words = [
        0x0000_02B7, // lui x5, 0
        0x0002_829B, // addiw x5, x5, 0
        0x0005_0F93, // addi x31, x10, 0
        0x0000_0F37, // lui x30, 0
        0x001F_0F1B, // addiw x30, x30, 1
        0x03EF_8FB3, // mul x31, x31, x30
        0x01F2_82B3, // add x5, x5, x31
        0x0000_0337, // lui x6, 0
        0x0003_031B, // addiw x6, x6, 0
        0x0005_8F93, // addi x31, x11, 0
        0x0000_0F37, // lui x30, 0
        0x001F_0F1B, // addiw x30, x30, 1
        0x03EF_8FB3, // mul x31, x31, x30
        0x01F3_0333, // add x6, x6, x31
        0x0000_0393, // addi x7, x0, 0
        0x0262_D663, // bge x5, x6, 44
        0x4053_03B3, // sub x7, x6, x5
        0xFFF3_8393, // addi x7, x7, -1
        0x0000_0E37, // lui x28, 0
        0x003E_0E1B, // addiw x28, x28, 3
        0x03C3_D3B3, // divu x7, x7, x28
        0x0013_8393, // addi x7, x7, 1
        0x03C3_8E33, // mul x28, x7, x28
        0x01C2_8E33, // add x28, x5, x28
        0x006E_5463, // bge x28, x6, 8
        0x0000_006F, // jal x0, 0
        0x0003_8293, // addi x5, x7, 0
        0x0100_0313, // addi x6, x0, 16
        0x0062_D463, // bge x5, x6, 8
        0x0000_006F, // jal x0, 0
        0x0010_0313, // addi x6, x0, 1
        0x01F3_1313, // slli x6, x6, 31
        0x0053_5463, // bge x6, x5, 8
        0x0000_006F, // jal x0, 0
        0xFFF2_8293, // addi x5, x5, -1
        0x0172_800B, // xp.put 23, x5
    ];
    assert_eq!(rt; code.as_slice(), words.as_slice());
    Ok(())
}

// The loop of 999 turns that goes on until two registers are the same.
#[test]
fn a_difference_takes_30_words(rt: HostRuntime) -> Result<(), Fail> {
    let mut code = Vec::new(rt.alloc());
    if let Some(trip) = trip(Relation::Differ, true, 8) {
        push_root(&mut code, &trip)?;
    }
    assert_eq!(rt; code.len(), 30);
    Ok(())
}
