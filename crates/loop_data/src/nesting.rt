ghost use Rattle.std.specs.Prelude.{ℕ, ◌≡◌, ◌<◌, ◌≤◌, length, slice_index};
ghost use Rattle.std.specs.List.{All, Contains};
ghost use Rattle.std.specs.List.Sorted.{IsStrictlyIncreasing};
ghost use Rattle.loop_data.specs.declared.shape.Level.{Level};
ghost use Rattle.loop_data.specs.Nests.{Holds};
ghost use Rattle.loop_data.specs.Results.{IsInnermost, IsAround, IsAroundAt};

use crate::flow::is_in;
use crate::shape::Level;

/// The place among the levels of the loop of a depth round a word.
fn around(levels: &[Level], u: u64, depth: u32) -> Option<usize>
    requires { All (λ l. IsStrictlyIncreasing l.body) levels.now }
    ensures { IsAroundAt levels.now u depth result }
{
    for i in 0..levels.len() {
        if levels[i].depth == depth && is_in(levels[i].body.as_slice(), u) {
            return Some(i);
        }
    }
    None
}

/// A place as it is kept, and 0 where there is none.
fn place_in(levels: &[Level], u: u64, depth: u32) -> u32
    requires bodies { All (λ l. IsStrictlyIncreasing l.body) levels.now }
    requires few { length levels.now ≤ 4 }
    ensures { IsAround levels.now u depth result }
{
    match around(levels, u, depth) {
        Some(i) => i as u32,
        None => 0,
    }
}

/// The places of the loops of each depth round a word.
pub fn places_in(levels: &[Level], u: u64) -> [u32; 3]
    requires bodies { All (λ l. IsStrictlyIncreasing l.body) levels.now }
    requires few { length levels.now ≤ 4 }
    ensures { (k : ℕ) → k < 3 → IsAround levels.now u k (slice_index result k) }
{
    [
        place_in(levels, u, 0),
        place_in(levels, u, 1),
        place_in(levels, u, 2),
    ]
}

/// The place of the innermost loop round a word.
pub fn innermost(levels: &[Level], u: u64) -> u32
    requires bodies { All (λ l. IsStrictlyIncreasing l.body) levels.now }
    requires few { length levels.now ≤ 4 }
    requires depths { (l : Level) → Contains levels.now l → l.depth < 3 }
    requires held { (l : Level) × Contains levels.now l × Holds l u }
    ensures { IsInnermost levels.now u result }
{
    match around(levels, u, 2) {
        Some(i) => i as u32,
        None => match around(levels, u, 1) {
            Some(i) => i as u32,
            None => place_in(levels, u, 0),
        },
    }
}
