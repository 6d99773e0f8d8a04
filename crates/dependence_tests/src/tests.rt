use super::{PairBox, hopeless, pair_term, pair_test};
use linear_forms::{Form, Loc, Terms};
use loop_data::{Access, Term};
use rv64_decode::Width;
use std::test::Fail;

/// An access of 8 bytes at this form, in the loops at these places.
fn access(form: Form, around: [u32; 3]) -> Access {
    Access {
        at: 0x10000,
        level: 0,
        around,
        form,
        width: Width::Eight,
        store: true,
    }
}

#[test]
fn terms_of_one_shape(rt: HostRuntime) -> Result<(), Fail> {
    let first = Form {
        constant: 0,
        terms: Terms::entry(Loc::Reg(10)),
        turns: [-8, 800, 0],
    };
    let second = Form {
        constant: -24,
        terms: Terms::entry(Loc::Reg(10)),
        turns: [-8, 800, 0],
    };
    let term = pair_term(&access(first, [0, 2, 0]), &access(second, [0, 2, 0]));
    let wanted = Term::Same {
        root: 8,
        inner: [0, 800, 0],
        lanes: 800,
        residue: 8,
        width: 8,
        known: Some(-24),
    };
    assert!(rt; term == wanted, "two accesses at x10");
    Ok(())
}

#[test]
fn shape_goes_loop_by_loop(rt: HostRuntime) -> Result<(), Fail> {
    let first = Form {
        constant: 0,
        terms: Terms::entry(Loc::Reg(10)),
        turns: [8, 16, 0],
    };
    let second = Form {
        constant: 0,
        terms: Terms::entry(Loc::Reg(11)),
        turns: [8, 16, 0],
    };
    let a = access(first, [0, 1, 0]);
    let b = access(second, [0, 2, 0]);
    assert!(rt;
        pair_term(&a, &b) == Term::Apart,
        "strides in two loops of one depth"
    );
    Ok(())
}

#[test]
fn other_loops_count_by_their_strides(rt: HostRuntime) -> Result<(), Fail> {
    let first = Form {
        constant: 4,
        terms: Terms::entry(Loc::Reg(10)),
        turns: [8, 0, 0],
    };
    let second = Form {
        constant: 0,
        terms: Terms::entry(Loc::Reg(11)),
        turns: [8, 0, 0],
    };
    let mut narrow = access(second, [0, 2, 3]);
    narrow.width = Width::Two;
    let wide = access(first, [0, 0, 0]);
    let wanted = Term::Same {
        root: 8,
        inner: [0, 0, 0],
        lanes: 0,
        residue: 8,
        width: 8,
        known: None,
    };
    assert!(rt;
        pair_term(&narrow, &wide) == wanted,
        "no stride in the loops round one alone"
    );
    Ok(())
}

#[test]
fn passes_and_fails(rt: HostRuntime) -> Result<(), Fail> {
    let term = Term::Same {
        root: 8,
        inner: [800, 0, 0],
        lanes: 800,
        residue: 8,
        width: 8,
        known: Some(8),
    };
    let mut at = PairBox {
        difference: 0,
        last: [99, 99, 0, 0],
        first: (0, 8),
        second: (8, 16),
    };
    assert!(rt; pair_test(&term, &at), "by lanes");
    assert!(rt; pair_test(&Term::Apart, &at), "by ranges");
    at.last = [100, 99, 0, 0];
    assert!(rt; !pair_test(&term, &at), "a turn too many");
    at.difference = i64::MIN;
    assert!(rt; pair_test(&term, &at), "far apart");
    assert!(rt; hopeless(&term), "the next turn's bytes");
    assert!(rt; !hopeless(&Term::Apart), "another shape");
    Ok(())
}
