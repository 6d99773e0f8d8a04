use crate::relations::{is_signed, stay};
use crate::trips::trip_read;
use linear_forms::{Form, Loc};
use loop_data::Relation;
use rv64_decode::BranchOp;
use std::test::Fail;

/// The relation, whether it is signed, and the step of the trip that a branch of the root tells.
fn told(
    op: BranchOp,
    taken_stays: bool,
    first: &Form,
    second: &Form,
) -> Option<(Relation, bool, i64)> {
    let relation = stay(op, taken_stays);
    match trip_read(
        0,
        relation,
        is_signed(op),
        Some(first.copied()),
        Some(second.copied()),
    ) {
        Some(trip) => Some((trip.relation, trip.signed, trip.step)),
        None => None,
    }
}

#[test]
fn relations_of_a_counter_and_a_bound(rt: HostRuntime) -> Result<(), Fail> {
    let up = Form::moving(Loc::Reg(10), 4).ok_or("x10 + 4 t")?;
    let down = Form::moving(Loc::Reg(10), -4).ok_or("x10 - 4 t")?;
    let bound = Form::moving(Loc::Reg(11), 0).ok_or("x11")?;
    assert!(rt; told(BranchOp::Blt, true, &up, &bound) == Some((Relation::Less, true, 4)));
    assert!(rt; told(BranchOp::Bgeu, false, &up, &bound) == Some((Relation::Less, false, 4)));
    assert!(rt; told(BranchOp::Bge, true, &bound, &up) == Some((Relation::AtMost, true, 4)));
    assert!(rt; told(BranchOp::Bltu, true, &bound, &down) == Some((Relation::More, false, -4)));
    assert!(rt; told(BranchOp::Blt, false, &down, &bound) == Some((Relation::AtLeast, true, -4)));
    assert!(rt; told(BranchOp::Bne, true, &bound, &up) == Some((Relation::Differ, true, -4)));
    assert!(rt; told(BranchOp::Beq, false, &up, &bound) == Some((Relation::Differ, true, 4)));
    assert!(rt; told(BranchOp::Blt, true, &down, &bound) == None);
    assert!(rt; told(BranchOp::Bne, true, &up, &up) == None);
    assert!(rt; told(BranchOp::Beq, true, &up, &bound) == None);
    Ok(())
}
