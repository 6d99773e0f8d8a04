ghost use Rattle.std.specs.Prelude.{◌≡◌, ◌<◌, ◌↔◌, ℕ, IsTrue, IfOk, length, replicate, slice_index_or, Some, None};
ghost use Rattle.std.specs.Prelude.{IfSome, false};
ghost use Rattle.std.specs.List.{Contains};
ghost use Rattle.loop_shapes.specs.Around.{GivesWay, IsSettled, entry_at};
ghost use Rattle.loop_shapes.specs.Search.{IsIndexed};

use crate::search::is_found;
use std::alloc::{AllocError, Global};

/// The loops round each word, by the places of their headers, where there are any.
#[derive(Drop)]
pub struct Around {
    /// The innermost loop round each word.
    pub innermost: Vec<Option<usize>>,
    /// The outermost loop round each word.
    pub outermost: Vec<Option<usize>>,
}

/// No loop round any of so many words.
pub fn none_around(alloc: Global, count: usize) -> Result<Around, AllocError>
    ensures innermost { IfOk result (λ a. a.innermost.items ≡ replicate count None) }
    ensures outermost { IfOk result (λ a. a.outermost.items ≡ replicate count None) }
{
    let innermost = vec![in alloc; None; count]?;
    let outermost = vec![in alloc; None; count]?;
    Ok(Around {
        innermost,
        outermost,
    })
}

// Whether a loop round a word gives way to the one whose words are found.
fn gives_way(found: &[usize], slots: &[usize], entry: Option<usize>, inner: bool) -> bool
    requires within { IfSome entry (λ m. m < length slots.now) }
    requires indexed { IsIndexed found.now slots.now }
    ensures { IsTrue result ↔ GivesWay inner found.now entry }
{
    match entry {
        None => true,
        Some(m) => is_found(found, slots, m) != inner,
    }
}

/// Whether the outermost loop round a loop's header gives way to that loop, whose words are found.
pub fn is_wider(found: &[usize], slots: &[usize], entries: &[Option<usize>], header: usize) -> bool
    requires indexed { IsIndexed found.now slots.now }
    requires count { length entries.now ≡ length slots.now }
    requires within { (i m : ℕ) → entry_at entries.now i ≡ Some m → m < length slots.now }
    requires header { header < length slots.now }
    ensures { IsTrue result ↔ GivesWay false found.now (entry_at entries.now header) }
{
    gives_way(found, slots, entries[header], false)
}

/// Makes the loop whose words are found the innermost, or the outermost, of those of its words where it is.
pub fn settle(
    found: &[usize],
    slots: &[usize],
    entries: &mut Vec<Option<usize>>,
    header: usize,
    inner: bool,
)
    requires indexed { IsIndexed found.now slots.now }
    requires count { length entries.old.items ≡ length slots.now }
    requires within { (i m : ℕ) → entry_at entries.old.items i ≡ Some m → m < length slots.now }
    requires header { header < length slots.now }
    ensures { IsSettled inner found.now found.now header entries.old.items entries.new.items }
{
    for x in found {
        if gives_way(found, slots, entries[*x], inner) {
            entries[*x] = Some(header);
        }
    }
}
