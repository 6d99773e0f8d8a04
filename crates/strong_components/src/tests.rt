use super::*;
use std::process::Abort;
use std::test::Fail;

/// A node with these successors.
fn to(first: u32, second: u32) -> Successors {
    Successors {
        first: Some(first),
        second: Some(second),
    }
}

fn only(first: u32) -> Successors {
    Successors {
        first: Some(first),
        second: None,
    }
}

const END: Successors = Successors {
    first: None,
    second: None,
};

/// The numbers of the components, or none where the graph is not what `components` asks for.
fn numbers_of(alloc: Global, nodes: &[Successors]) -> Result<Vec<u32>, AllocError> {
    if nodes.len() < 1 << 20 && leads_inside(nodes) {
        return components(alloc, nodes);
    }
    Ok(Vec::new(alloc))
}

/// Checks that nodes have the same number exactly where they have the same name.
fn check_parts(
    rt: &impl Abort,
    alloc: Global,
    nodes: &[Successors],
    names: &[u8],
) -> Result<(), AllocError> {
    let numbers = numbers_of(alloc, nodes)?;
    assert_eq!(rt; numbers.len(), names.len());
    for a in 0..names.len() {
        for b in 0..names.len() {
            let same = numbers[a] == numbers[b];
            assert_eq!(rt; same, names[a] == names[b], "nodes {a} and {b}");
        }
    }
    Ok(())
}

#[test]
fn small_graphs(rt: HostRuntime) -> Result<(), Fail> {
    // no node; one node with no edge, and with an edge to itself
    check_parts(&rt, rt.alloc(), &[], b"")?;
    check_parts(&rt, rt.alloc(), &[END], b"a")?;
    check_parts(&rt, rt.alloc(), &[only(0)], b"a")?;
    // a chain, in both directions of the indices
    check_parts(&rt, rt.alloc(), &[only(1), only(2), END], b"abc")?;
    check_parts(&rt, rt.alloc(), &[END, only(0), only(1)], b"abc")?;
    // two cycles joined by an edge, from each side
    check_parts(
        &rt,
        rt.alloc(),
        &[only(1), to(0, 2), only(3), only(2)],
        b"aabb",
    )?;
    check_parts(
        &rt,
        rt.alloc(),
        &[only(1), only(0), only(3), to(2, 1)],
        b"aabb",
    )?;
    // two cycles that share a node
    check_parts(&rt, rt.alloc(), &[only(1), to(0, 2), only(1)], b"aaa")?;
    // a cycle entered at its middle, with a way out; a node apart
    check_parts(
        &rt,
        rt.alloc(),
        &[only(2), only(2), only(3), to(1, 4), END, END],
        b"abbbcd",
    )?;
    // both edges lead to one node
    check_parts(&rt, rt.alloc(), &[to(1, 1), END], b"ab")?;
    // a ladder: each node leads to the next two
    check_parts(
        &rt,
        rt.alloc(),
        &[to(1, 2), to(2, 3), only(3), END],
        b"abcd",
    )?;
    // an edge back over two others joins all that lies between
    check_parts(
        &rt,
        rt.alloc(),
        &[only(1), only(2), to(3, 1), only(0), only(3)],
        b"aaaab",
    )?;
    Ok(())
}

#[test]
fn numbers_do_not_rise_along_an_edge(rt: HostRuntime) -> Result<(), Fail> {
    let numbers = numbers_of(rt.alloc(), &[only(1), to(0, 2), only(3), only(2)])?;
    assert_eq!(rt; numbers.len(), 4);
    assert!(rt; numbers[2] < numbers[1]);
    Ok(())
}

const MANY: u32 = 1 << 18;

#[test]
fn large_ring_with_chords(rt: HostRuntime) -> Result<(), Fail> {
    let mut nodes = Vec::new(rt.alloc());
    for i in 0..MANY {
        nodes.push(to((i + 1) % MANY, (i + 1000) % MANY))?;
    }
    let numbers = numbers_of(rt.alloc(), nodes.as_slice())?;
    assert_eq!(rt; numbers.len(), MANY as usize);
    let first = numbers[0];
    assert!(rt; numbers.iter().all(|number| *number == first));
    Ok(())
}

#[test]
fn large_chain(rt: HostRuntime) -> Result<(), Fail> {
    let mut nodes = Vec::new(rt.alloc());
    for i in 1..MANY {
        nodes.push(to(i, i + (MANY - 1 - i) / 2))?;
    }
    nodes.push(END)?;
    let numbers = numbers_of(rt.alloc(), nodes.as_slice())?;
    for pair in numbers.windows(2) {
        assert_eq!(rt; pair.len(), 2);
        assert!(rt; pair[0] > pair[1]);
    }
    Ok(())
}
