ghost use Rattle.std.specs.Prelude.{◌≡◌, ◌≤◌, ◌<◌, IfSome, IfNone};
ghost use Rattle.distance_vectors.specs.Distances.{vector_of, is_common, inner_limit, IsInBox, IsFirst, AreApart};
ghost use Rattle.distance_vectors.specs.Searching.{HasSizes, HasSecond, HasRoot, IsFirstOrNone};

use crate::meeting::meet_at;
use loop_data::Access;

/// The greatest entry of the outermost loop.
const LAST_ROOT: u64 = 15;

/// The greatest size of an entry of an inner loop.
const LAST_INNER: u64 = 7;

/// The greatest size of the entry of the loop of this depth, and 0 where the accesses have none in common.
fn inner_limit(a: &Access, b: &Access, depth: usize) -> u64
    requires { depth < 3 }
    ensures value { result ≡ inner_limit a.now b.now depth }
    ensures range { result ≤ 7 }
{
    let around = a.around[depth];
    if around > 0 && around == b.around[depth] {
        LAST_INNER
    } else {
        0
    }
}

/// The first vector with this entry of the outermost loop and inner entries of these sizes at which the accesses
/// meet, if there is one.
fn with_sizes(a: &Access, b: &Access, root: u64, second: u64, third: u64) -> Option<[i64; 3]>
    requires root { root ≤ 15 }
    requires second { second ≤ 7 }
    requires third { third ≤ 7 }
    ensures { IsFirstOrNone (HasSizes root second third) a.now b.now result }
{
    let root = root as i64;
    let second = second as i64;
    let third = third as i64;
    if meet_at(a, b, root, second, third) {
        return Some([root, second, third]);
    }
    if meet_at(a, b, root, second, -third) {
        return Some([root, second, -third]);
    }
    if meet_at(a, b, root, -second, third) {
        return Some([root, -second, third]);
    }
    if meet_at(a, b, root, -second, -third) {
        return Some([root, -second, -third]);
    }
    None
}

/// The first such vector with this entry of the outermost loop and a first inner entry of this size.
fn with_second(a: &Access, b: &Access, root: u64, second: u64) -> Option<[i64; 3]>
    requires root { root ≤ 15 }
    requires second { second ≤ 7 }
    ensures { IsFirstOrNone (HasSecond root second (inner_limit a.now b.now 2)) a.now b.now result }
{
    let last = inner_limit(a, b, 2);
    for third in 0..last + 1 {
        match with_sizes(a, b, root, second, third) {
            Some(entries) => return Some(entries),
            None => {}
        }
    }
    None
}

/// The first such vector with this entry of the outermost loop.
fn with_root(a: &Access, b: &Access, root: u64) -> Option<[i64; 3]>
    requires { root ≤ 15 }
    ensures { IsFirstOrNone (HasRoot root (inner_limit a.now b.now 1) (inner_limit a.now b.now 2)) a.now b.now
        result }
{
    let last = inner_limit(a, b, 1);
    for second in 0..last + 1 {
        match with_second(a, b, root, second) {
            Some(entries) => return Some(entries),
            None => {}
        }
    }
    None
}

/// The distance of two accesses of the same shape and with equal terms: the first vector of turns such that one of
/// them, so many turns after the other, has a byte in common with it. Entries of the outermost loop are looked at
/// from 1 to 15, and those of inner loops that both are in from -7 to 7; other entries are 0. Vectors are in the
/// order of their first entries, then of the sizes of the others, and then positive ones before negative ones.
pub fn distance(a: &Access, b: &Access) -> Option<[i64; 3]>
    ensures some { IfSome result (λ k. IsFirst (IsInBox a.now b.now) a.now b.now (vector_of k)) }
    ensures none { IfNone result (AreApart (IsInBox a.now b.now) a.now b.now) }
{
    for root in 1..LAST_ROOT + 1 {
        match with_root(a, b, root) {
            Some(entries) => return Some(entries),
            None => {}
        }
    }
    None
}
