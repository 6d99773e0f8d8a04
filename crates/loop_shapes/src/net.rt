ghost use Rattle.loop_shapes.specs.Net.{IsNet, graph_of};
ghost use Rattle.loop_data.specs.Paths.{IsInOrder};
ghost use Rattle.loop_data.specs.Paths.{IsWord};
ghost use Rattle.loop_shapes.specs.Places.{at, count_of};
ghost use Rattle.loop_data.specs.Starts.{AreFromStarts};
ghost use Rattle.std.specs.Prelude.{◌≡◌, ◌<◌, IfOk, IfSome, IfNone};

use crate::pairs::pairs_of;
use crate::places::{address_list, place_near, sources, start_flags};
use loop_data::Graph;
use loop_data::flow::place_of;
use std::alloc::{AllocError, Global};

/// A graph with what is looked up in it, by the places of its words in address order.
#[derive(Drop)]
pub struct Net<'a> {
    /// The graph.
    pub graph: &'a Graph,
    /// The address of each word.
    pub at: Vec<u64>,
    /// For each word the places of the words from which step edges lead to it.
    pub before: Vec<Vec<usize>>,
    /// Those places where they are one or two.
    pub pairs: Vec<Option<(usize, usize)>>,
    /// Whether each word is a start word.
    pub starts: Vec<bool>,
}

/// The net of a graph.
pub fn net_of(alloc: Global, graph: &Graph) -> Result<Net<'_>, AllocError>
    requires ordered { IsInOrder graph.now }
    requires from_starts { AreFromStarts graph.now }
    ensures net { IfOk result IsNet }
    ensures graph { IfOk result (λ n. graph_of n ≡ graph.now) }
{
    let at = address_list(alloc, graph)?;
    let before = sources(alloc, graph, at.as_slice())?;
    let pairs = pairs_of(alloc, before.as_slice())?;
    let starts = start_flags(alloc, graph, at.as_slice())?;
    Ok(Net {
        graph,
        at,
        before,
        pairs,
        starts,
    })
}

/// The place of the word at an address.
pub fn find(net: &Net, x: u64) -> Option<usize>
    requires { IsNet net.now }
    ensures found { IfSome result (λ i. (i < count_of (graph_of net.now)) × (at (graph_of net.now) i ≡ x)) }
    ensures none { IfNone result (¬ IsWord (graph_of net.now) x) }
{
    place_of(net.at.as_slice(), x)
}

/// The place of the word at an address, near to the word at a place.
pub fn find_near(net: &Net, near: usize, x: u64) -> Option<usize>
    requires { IsNet net.now }
    ensures found { IfSome result (λ i. (i < count_of (graph_of net.now)) × (at (graph_of net.now) i ≡ x)) }
    ensures none { IfNone result (¬ IsWord (graph_of net.now) x) }
{
    place_near(net.at.as_slice(), near, x)
}

/// The address at a place.
pub fn address_of(net: &Net, place: usize) -> u64
    requires net { IsNet net.now }
    requires within { place < count_of (graph_of net.now) }
    ensures { result ≡ at (graph_of net.now) place }
{
    net.at[place]
}
