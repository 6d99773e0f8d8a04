ghost use Rattle.std.specs.Prelude.{pos, ◌≤ℤ◌};

use crate::distance;
use linear_forms::{Form, Terms};
use loop_data::Access;
use rv64_decode::Width;
use std::process::Abort;
use std::test::Fail;

// An access in loops that are told apart by their places, so many bytes behind a form.
fn access(form: &Form, by: i64, width: Width, around: [u32; 3]) -> Result<Access, Fail> {
    let form = form
        .add(&Form::pure(by).ok_or("a constant")?)
        .ok_or("the address")?;
    Ok(Access {
        form,
        width,
        around,
        ..Access::default()
    })
}

// The distance of an access behind the form and one at it, both in one nest.
fn expect<R: Abort>(
    rt: &R,
    form: &Form,
    by: i64,
    width: Width,
    other: Width,
    wanted: Option<[i64; 3]>,
) -> Result<(), Fail> {
    let first = access(form, by, width, [0, 1, 2])?;
    let second = access(form, 0, other, [0, 1, 2])?;
    assert!(rt; distance(&first, &second) == wanted);
    assert!(rt; distance(&second, &first) == wanted);
    Ok(())
}

// A form with these strides.
fn steps(root: i64) -> Form
    requires low { pos 0 ≤ℤ root }
    requires high { root ≤ℤ pos 1024 }
{
    Form {
        constant: 0,
        terms: Terms::none(),
        turns: [root, 0, 0],
    }
}

#[test]
fn single_loops(rt: HostRuntime) -> Result<(), Fail> {
    let eight = steps(8);
    expect(&rt, &eight, -8, Width::Eight, Width::Eight, Some([1, 0, 0]))?;
    expect(
        &rt,
        &eight,
        -120,
        Width::Eight,
        Width::Eight,
        Some([15, 0, 0]),
    )?;
    expect(&rt, &eight, -128, Width::Eight, Width::Eight, None)?;
    expect(&rt, &steps(16), 8, Width::Eight, Width::Eight, None)?;
    expect(&rt, &steps(4), 5, Width::One, Width::Four, Some([1, 0, 0]))
}

#[test]
fn row_copies(rt: HostRuntime) -> Result<(), Fail> {
    let rows = Form {
        constant: 0,
        terms: Terms::none(),
        turns: [1024, 8, 0],
    };
    expect(
        &rt,
        &rows,
        1000,
        Width::Eight,
        Width::Eight,
        Some([1, -3, 0]),
    )?;
    expect(
        &rt,
        &rows,
        -2048,
        Width::Eight,
        Width::Eight,
        Some([2, 0, 0]),
    )?;
    expect(
        &rt,
        &rows,
        -1080,
        Width::Eight,
        Width::Eight,
        Some([1, 7, 0]),
    )?;
    expect(&rt, &rows, -1088, Width::Eight, Width::Eight, None)
}

#[test]
fn orders(rt: HostRuntime) -> Result<(), Fail> {
    let kept = Form {
        constant: 0,
        terms: Terms::none(),
        turns: [0, 8, 0],
    };
    expect(&rt, &kept, 24, Width::Eight, Width::Eight, Some([1, 3, 0]))?;
    let planes = Form {
        constant: 0,
        terms: Terms::none(),
        turns: [4096, 64, 8],
    };
    expect(
        &rt,
        &planes,
        4200,
        Width::Eight,
        Width::Eight,
        Some([1, 1, 5]),
    )
}

#[test]
fn loops_apart(rt: HostRuntime) -> Result<(), Fail> {
    let eight = steps(8);
    let first = access(&eight, 16, Width::Four, [0, 1, 0])?;
    let second = access(&eight, 0, Width::Four, [0, 2, 0])?;
    assert!(rt; distance(&first, &second) == Some([2, 0, 0]));
    Ok(())
}
