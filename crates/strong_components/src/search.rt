ghost use Rattle.std.specs.Prelude.{ℕ, ◌≡◌, ◌+◌, ◌-◌, ◌<◌, ◌≤◌, ◌^◌, ◌++◌, ◌∷◌, [], List, length, map, take, slice_get, slice_set, vec_len, Contains, IfOk, OnOk, IfSome, IfNone, IsSomeAnd, IsTrue, ◌↔◌, replicate, slice_index};
ghost use Rattle.std.specs.Option.{ForSome};
ghost use Rattle.strong_components.specs.declared.graph.Successors.{Successors};
ghost use Rattle.strong_components.specs.Graph.{IsEdge, LeadsTo, LeadsInside};
ghost use Rattle.strong_components.specs.Search.{Rises, IsLast, IsCut, IsPlaced, IsSound, KeepsSeen, closed_from, IsEntered, IsMerged, IsReady, work_left, unseen_count, number_of};

use crate::Successors;
use std::alloc::{AllocError, Global};

/// What a search knows of a node.
#[derive(Clone, Copy, PartialEq, Eq, Debug)]
pub enum Mark {
    /// Not seen yet.
    Unseen,
    /// On the stack, at this place.
    Open(u32),
    /// In the component of this number.
    Closed(u32),
}

/// A depth-first search that keeps the path it is on as a list of segments, each strongly connected
/// (Gabow, Path-based depth-first search for strong and biconnected components, 2000).
#[derive(Drop)]
pub struct Search {
    marks: Vec<Mark>,
    /// The open nodes, in the order in which they were seen.
    stack: Vec<u32>,
    /// The places of the stack where a segment begins.
    bounds: Vec<u32>,
    /// The places of the stack whose nodes are being visited.
    path: Vec<u32>,
    /// How many components are closed.
    count: u32,
}

/// Drops the last numbers as long as they are above a limit.
fn cut(bounds: &mut Vec<u32>, limit: u32)
    requires { Rises bounds.old.items }
    ensures { IsCut bounds.old.items bounds.new.items limit }
{
    while let Some(last) = bounds.last().copied() {
        if last <= limit {
            return;
        }
        bounds.pop();
    }
}

impl Mark {
    /// The number of a closed node's component.
    fn number(self) -> u32
        ensures { result ≡ number_of self }
    {
        match self {
            Mark::Closed(number) => number,
            _ => 0,
        }
    }
}

impl Search {
    /// A search that has seen none of so many nodes.
    pub fn new(alloc: Global, nodes: usize) -> Result<Search, AllocError>
        ensures marks { IfOk result (λ s. s.marks.items ≡ replicate nodes Mark.Unseen) }
        ensures stack { IfOk result (λ s. s.stack.items ≡ []) }
        ensures bounds { IfOk result (λ s. s.bounds.items ≡ []) }
        ensures path { IfOk result (λ s. s.path.items ≡ []) }
        ensures count { IfOk result (λ s. s.count ≡ 0) }
    {
        let marks = vec![in alloc; Mark::Unseen; nodes]?;
        Ok(Search {
            marks,
            stack: Vec::new(alloc),
            bounds: Vec::new(alloc),
            path: Vec::new(alloc),
            count: 0,
        })
    }

    /// The component's number of each node, once all are closed.
    pub fn numbers(&self, alloc: Global) -> Result<Vec<u32>, AllocError>
        ensures { IfOk result (λ numbers. numbers.items ≡ map number_of self.now.marks.items) }
    {
        self.marks.iter().map(|mark| mark.number()).collect(alloc)
    }

    /// Opens an unseen node, as a segment of its own.
    fn enter(&mut self, node: u32) -> Result<(), AllocError>
        requires inside { node < vec_len self.old.marks }
        requires room { vec_len self.old.stack < 2 ^ 32 }
        ensures { OnOk result (IsEntered self.old self.new node) }
    {
        let place = self.stack.len() as u32;
        self.marks[node as usize] = Mark::Open(place);
        self.stack.push(node)?;
        self.bounds.push(place)?;
        self.path.push(place)?;
        Ok(())
    }

    /// Whether a successor is there and not seen yet.
    fn is_new(&self, successor: Option<u32>) -> bool
        requires { ForSome successor (λ w. w < vec_len self.now.marks) }
        ensures { IsTrue result
            ↔ IsSomeAnd successor (λ w. slice_get self.now.marks.items w ≡ Some Mark.Unseen) }
    {
        match successor {
            Some(node) => self.marks[node as usize] == Mark::Unseen,
            None => false,
        }
    }

    /// A successor that is not seen yet, if there is one.
    fn unseen_successor(&self, node: Successors) -> Option<u32>
        requires { (w : ℕ) → LeadsTo node w → w < vec_len self.now.marks }
        ensures found { IfSome result (λ w. LeadsTo node w
            × (slice_get self.now.marks.items w ≡ Some Mark.Unseen)) }
        ensures none { IfNone result ((w : ℕ) → LeadsTo node w
            → slice_get self.now.marks.items w ≡ Some Mark.Unseen → ⊥) }
    {
        if self.is_new(node.first) {
            return node.first;
        }
        if self.is_new(node.second) {
            return node.second;
        }
        None
    }

    /// Closes the open nodes from a place on, as one component.
    fn close(&mut self, place: u32)
        requires placed { IsPlaced self.old.marks.items self.old.stack.items }
        requires within { place ≤ vec_len self.old.stack }
        ensures marks { self.new.marks.items
            ≡ map (closed_from place self.old.count) self.old.marks.items }
        ensures stack { self.new.stack.items ≡ take place self.old.stack.items }
        ensures bounds { self.new.bounds.items ≡ self.old.bounds.items }
        ensures path { self.new.path.items ≡ self.old.path.items }
        ensures count { self.new.count ≡ self.old.count }
    {
        while self.stack.len() > place as usize {
            let Some(node) = self.stack.pop() else {
                return;
            };
            self.marks[node as usize] = Mark::Closed(self.count);
        }
    }

    /// Joins the segments from that of an open successor on.
    fn merge(&mut self, successor: Option<u32>)
        requires inside { ForSome successor (λ w. w < vec_len self.old.marks) }
        requires rises { Rises self.old.bounds.items }
        ensures others { self.new ≡ record self.old { bounds = self.new.bounds } }
        ensures rises { Rises self.new.bounds.items }
        ensures bounds { IsMerged successor self.old.marks.items
            self.old.bounds.items self.new.bounds.items }
    {
        let Some(node) = successor else {
            return;
        };
        let Mark::Open(place) = self.marks[node as usize] else {
            return;
        };
        cut(&mut self.bounds, place);
    }

    /// Whether the last segment begins at a place.
    fn is_last_bound(&self, place: u32) -> bool
        ensures { IsTrue result ↔ IsLast self.now.bounds.items place }
    {
        match self.bounds.last() {
            Some(last) => *last == place,
            None => false,
        }
    }

    /// Leaves the last node of the path, and closes the last segment where that begins with it.
    fn leave(&mut self, top: u32)
        requires last { IsLast self.old.path.items top }
        requires placed { IsPlaced self.old.marks.items self.old.stack.items }
        requires within { top < vec_len self.old.stack }
        requires room { self.old.count + vec_len self.old.bounds < 2 ^ 32 }
        ensures state { (nodes : List Successors) (u : ℕ) → LeadsInside nodes
            → IsReady nodes self.old top u → IsSound nodes self.new }
        ensures path { vec_len self.new.path + 1 ≡ vec_len self.old.path }
        ensures seen { KeepsSeen self.old.marks.items self.new.marks.items }
        ensures unseen { unseen_count self.new.marks.items ≡ unseen_count self.old.marks.items }
    {
        self.path.pop();
        if !self.is_last_bound(top) {
            return;
        }
        self.bounds.pop();
        self.close(top);
        self.count += 1;
    }

    /// Opens an unseen successor of the last node of the path, or leaves that node.
    fn step(&mut self, nodes: &[Successors], top: u32) -> Result<(), AllocError>
        requires few { length nodes.now < 2 ^ 32 }
        requires inside { LeadsInside nodes.now }
        requires state { IsSound nodes.now self.old }
        requires last { IsLast self.old.path.items top }
        ensures state { OnOk result (IsSound nodes.now self.new) }
        ensures seen { OnOk result (KeepsSeen self.old.marks.items self.new.marks.items) }
        ensures less { OnOk result (work_left self.new < work_left self.old) }
    {
        let node = self.stack[top as usize];
        let successors = nodes[node as usize];
        if let Some(next) = self.unseen_successor(successors) {
            return self.enter(next);
        }
        self.merge(successors.first);
        self.merge(successors.second);
        self.leave(top);
        Ok(())
    }

    /// Visits all that is reached from a node and not seen yet.
    pub fn explore(&mut self, nodes: &[Successors], root: u32) -> Result<(), AllocError>
        requires few { length nodes.now < 2 ^ 32 }
        requires inside { LeadsInside nodes.now }
        requires root { root < length nodes.now }
        requires state { IsSound nodes.now self.old }
        requires idle { self.old.path.items ≡ [] }
        ensures state { OnOk result (IsSound nodes.now self.new) }
        ensures idle { OnOk result (self.new.path.items ≡ []) }
        ensures seen { OnOk result (KeepsSeen self.old.marks.items self.new.marks.items) }
        ensures root { OnOk result (slice_get self.new.marks.items root ≡ Some Mark.Unseen → ⊥) }
    {
        if !self.is_new(Some(root)) {
            return Ok(());
        }
        self.enter(root)?;
        while let Some(top) = self.path.last().copied() {
            self.step(nodes, top)?;
        }
        Ok(())
    }
}
