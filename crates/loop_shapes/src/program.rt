ghost use Rattle.std.specs.Prelude.{◌≡◌, ◌↔◌, ◌<◌, ◌^◌, ℕ, IfOk, OnOk, IfSome, IfNone, IsTrue, length};
ghost use Rattle.std.specs.List.{Contains};
ghost use Rattle.std.specs.List.Sorted.{IsStrictlyIncreasing};
ghost use Rattle.loop_data.specs.Bodies.{IsHeader, InBody, IsClosed};
ghost use Rattle.loop_shapes.specs.Net.{IsNet, HasBody, graph_of};
ghost use Rattle.loop_data.specs.Paths.{Leads};
ghost use Rattle.loop_shapes.specs.Places.{at, count_of};
ghost use Rattle.loop_shapes.specs.Program.{IsProgram, program_graph};
ghost use Rattle.loop_shapes.specs.PlaceSet.{IsPlaceSet};
ghost use Rattle.loop_data.specs.Sets.{IsListOf};
ghost use Rattle.loop_shapes.specs.Lines.{IsRowOf};

use crate::around::{Around, none_around};
use crate::body::body_of;
use crate::closed::closed_rows;
use crate::net::{Net, find};
use crate::numbers::{astray_flags, nodes};
use crate::open::without;
use crate::place_set::PlaceSet;
use crate::word_ranks::ranks_of;
use loop_data::flow::{place_of, row};
use std::alloc::{AllocError, Global};
use strong_components::Successors;

/// A program with its closed edges and the loops round its words.
#[derive(Drop)]
pub struct Program<'a> {
    /// The graph and what is looked up in it.
    pub net: Net<'a>,
    /// For each word the places of the words from which closed edges lead to it.
    pub closed: Vec<Vec<usize>>,
    /// The loops round each word.
    pub around: Around,
    /// Where the step edges lead.
    pub next: Vec<Successors>,
    /// Where those lead that are not closed.
    pub open_next: Vec<Successors>,
    /// From which words step edges lead to no word.
    pub astray: Vec<bool>,
}

/// The program of a net.
pub fn program_of<'a>(net: Net<'a>, set: &mut PlaceSet) -> Result<Program<'a>, AllocError>
    requires net { IsNet net }
    requires few { count_of (graph_of net) < 2 ^ 32 }
    ensures program { IfOk result IsProgram }
    ensures graph { IfOk result (λ p. program_graph p ≡ graph_of net.entry) }
{
    let mut around = none_around(set.alloc, net.at.len())?;
    let next = nodes(set.alloc, &net)?;
    let ranks = ranks_of(set.alloc, &net, next.as_slice())?;
    let closed = closed_rows(&net, set, &mut around, ranks.as_slice())?;
    let open_next = without(set.alloc, next.as_slice(), closed.as_slice())?;
    let astray = astray_flags(set.alloc, &net)?;
    Ok(Program {
        net,
        closed,
        around,
        next,
        open_next,
        astray,
    })
}

/// Whether an address is among others that are in order.
pub fn is_among(xs: &[u64], x: u64) -> bool
    requires { IsStrictlyIncreasing xs.now }
    ensures { IsTrue result ↔ Contains xs.now x }
{
    match place_of(xs, x) {
        Some(_) => true,
        None => false,
    }
}

/// Whether an address is among others in any order.
pub fn has(xs: &[u64], x: u64) -> bool
    ensures { IsTrue result ↔ Contains xs.now x }
{
    xs.iter().any(|y| *y == x)
}

/// Where the step edges of the word at an address lead.
pub fn steps_of<'a>(net: &'a Net, x: u64) -> &'a [u64]
    requires { IsNet net.now }
    ensures { (y : ℕ) → Contains result.now y ↔ Leads (graph_of net.now) x y }
{
    match find(net, x) {
        Some(place) => net.graph.words.as_slice()[place].steps.as_slice(),
        None => &[],
    }
}

/// The places of the words from which closed edges lead to the word at a place.
pub fn sources_of<'a>(program: &'a Program, place: usize) -> &'a [usize]
    requires program { IsProgram program.now }
    requires within { place < count_of (program_graph program.now) }
    ensures { IsRowOf (program_graph program.now) (IsClosed (program_graph program.now)) place result.now }
{
    row(program.closed.as_slice(), place)
}

/// Whether a loop stands at the word at a place.
pub fn is_header_at(program: &Program, place: usize) -> bool
    requires program { IsProgram program.now }
    requires within { place < count_of (program_graph program.now) }
    ensures { IsTrue result ↔ IsHeader (program_graph program.now) (at (program_graph program.now) place) }
{
    !sources_of(program, place).is_empty()
}

/// Searches for the words of the loop at a place: whether they are at most 256, whose places the set then has.
pub fn find_body(program: &Program, set: &mut PlaceSet, header: usize) -> Result<bool, AllocError>
    requires program { IsProgram program.now }
    requires within { header < count_of (program_graph program.now) }
    requires header { IsHeader (program_graph program.now) (at (program_graph program.now) header) }
    ensures body { IfOk result (λ small. HasBody small (program_graph program.now)
        (at (program_graph program.now) header) set.new.found.items) }
    ensures set { OnOk result (IsPlaceSet (count_of (program_graph program.now)) set.new) }
{
    set.search(
        program.net.before.as_slice(),
        program.net.pairs.as_slice(),
        header,
        sources_of(program, header),
    )
}

/// The words of the loop at an address, in order; none where no loop stands there.
pub fn body_at(program: &Program, set: &mut PlaceSet, x: u64) -> Result<Vec<u64>, AllocError>
    requires program { IsProgram program.now }
    ensures { IfOk result (λ v. IsListOf (InBody (program_graph program.now) x) v.items) }
{
    match find(&program.net, x) {
        Some(place) => body_of(&program.net, set, place, sources_of(program, place)),
        None => Ok(Vec::new(set.alloc)),
    }
}
