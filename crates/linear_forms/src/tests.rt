use super::{Form, Loc, Terms, gcd};
use std::test::Fail;

/// The entry value of x10 and of x11.
fn x10() -> Terms {
    Terms::entry(Loc::Reg(10))
}

fn x11() -> Terms {
    Terms::entry(Loc::Reg(11))
}

#[test]
fn sums(rt: HostRuntime) -> Result<(), Fail> {
    let first = Form {
        constant: 3,
        terms: x10().scale(2).ok_or("2 x10")?,
        turns: [-5, 0, 0],
    };
    let second = Form {
        constant: 0,
        terms: x11()
            .sub(&x10().scale(2).ok_or("2 x10")?)
            .ok_or("x11 - 2 x10")?,
        turns: [0; 3],
    };
    let wanted = Form {
        constant: 3,
        terms: x11(),
        turns: [-5, 0, 0],
    };
    assert!(rt;
        first.add(&second).ok_or("the sum")? == wanted,
        "3 + x11 - 5 t0"
    );
    assert!(rt;
        wanted.sub(&second).ok_or("the difference")? == first,
        "3 + 2 x10 - 5 t0"
    );
    assert!(rt; wanted.copied() == wanted);
    assert!(rt; wanted.terms.as_slice() == [(Loc::Reg(11), 1)].as_slice());
    assert!(rt; wanted != first);
    Ok(())
}

#[test]
fn limits(rt: HostRuntime) -> Result<(), Fail> {
    let one = Form::moving(Loc::Reg(1), 0).ok_or("x1")?;
    let two = one
        .add(&Form::moving(Loc::Reg(31), 0).ok_or("x31")?)
        .ok_or("two terms")?;
    let three = two
        .add(&Form::moving(Loc::Cell(0), 0).ok_or("cell 0")?)
        .ok_or("three terms")?;
    let four = three
        .add(&Form::moving(Loc::Cell(15), 0).ok_or("cell 15")?)
        .ok_or("four terms")?;
    assert!(rt;
        four.add(&Form::moving(Loc::Reg(2), 0).ok_or("x2")?) == None,
        "a fifth term"
    );
    assert!(rt; Form::pure(2147483648) == None, "a constant of 2^31");
    assert!(rt; Form::pure(-2147483648) != None, "the least constant");
    assert!(rt; Form::pure(-2147483649) == None, "a constant below it");
    assert!(rt;
        Form::pure(2147483647)
            .ok_or("the greatest")?
            .add(&Form::pure(1).ok_or("1")?)
            == None
    );
    assert!(rt; one.scale(1073741824) == None, "a coefficient of 2^30");
    assert!(rt; one.scale(-1073741824) == None, "a coefficient of -2^30");
    assert!(rt; one.scale(-1073741823) != None, "the least coefficient");
    assert!(rt;
        four.scale(0).ok_or("0")? == Form::pure(0).ok_or("0")?,
        "the zero form"
    );
    assert!(rt;
        Form::pure(2).ok_or("2")?.scale(4611686018427387904) == None,
        "2 times 2^62"
    );
    Ok(())
}

#[test]
fn values(rt: HostRuntime) -> Result<(), Fail> {
    let form = Form {
        constant: -8,
        terms: x10(),
        turns: [8, 0, 0],
    };
    assert_eq!(rt; form.value_at(&[0; 48], [0; 3]), 18446744073709551608);
    assert_eq!(rt; form.value_at(&[0; 48], [1, 0, 0]), 0);
    let nest = Form {
        constant: 1,
        terms: Terms::entry(Loc::Cell(15)),
        turns: [100, -10, 1000],
    };
    let mut entry = [0; 48];
    entry[47] = 5;
    assert_eq!(rt; nest.value_at(&entry, [2, 3, 4]), 4176);
    Ok(())
}

#[test]
fn shifts(rt: HostRuntime) -> Result<(), Fail> {
    let form = Form {
        constant: 0,
        terms: Terms::none(),
        turns: [816, -8, 0],
    };
    assert_eq!(rt; form.extremes([10, 100, 0]), (-800, 8160));
    Ok(())
}

#[test]
fn divisors(rt: HostRuntime) -> Result<(), Fail> {
    assert_eq!(rt; gcd(0, 0), 0);
    assert_eq!(rt; gcd(12, 0), 12);
    assert_eq!(rt; gcd(816, 8), 8);
    assert_eq!(rt;
        gcd(9223372036854775808, 4611686018427387904),
        4611686018427387904
    );
    Ok(())
}
