ghost use Rattle.std.specs.Prelude.{ℕ, ◌<◌, ◌↔◌, IsTrue};
ghost use Rattle.std.specs.Option.{ForSome};
ghost use Rattle.strong_components.specs.Graph.{LeadsTo, LeadsInside};

/// Where the edges of a node lead: to at most two nodes, each given by its index in the list of nodes.
#[derive(Clone, Copy, PartialEq, Eq, Debug)]
pub struct Successors {
    /// Where one edge leads, if there is one.
    pub first: Option<u32>,
    /// Where the other leads; it may be the same node.
    pub second: Option<u32>,
}

/// Whether a successor, if there is one, is among so many nodes.
fn is_below(successor: Option<u32>, count: usize) -> bool
    ensures { IsTrue result ↔ ForSome successor (λ w. w < count) }
{
    match successor {
        Some(node) => (node as usize) < count,
        None => true,
    }
}

impl Successors {
    /// Whether the edges lead to the first nodes of this number.
    fn lead_below(&self, count: usize) -> bool
        ensures { IsTrue result ↔ ((b : ℕ) → LeadsTo self.now b → b < count) }
    {
        is_below(self.first, count) && is_below(self.second, count)
    }
}

/// Whether every edge of a graph leads to one of its nodes.
pub fn leads_inside(nodes: &[Successors]) -> bool
    ensures { IsTrue result ↔ LeadsInside nodes.now }
{
    for node in nodes {
        if !node.lead_below(nodes.len()) {
            return false;
        }
    }
    true
}
