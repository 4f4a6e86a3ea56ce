//! The search for earliest arrivals (Dijkstra 1959): from a node along the links, the node with the earliest arrival first.
//! Who comes to a link later leaves it no sooner, so a node is looked at once all before it are.
//!
//! A node is put to wait each time that its arrival falls, so one that was reached twice waits twice; the later look finds
//! that its arrival has changed and passes over it.
ghost use Rattle.std.specs.Prelude.{◌≡◌, ℕ, ◌<◌, ◌≤◌, List, [], ◌∷◌, length, slice_set, Some, None, IfOk, OnOk};
ghost use Rattle.std.specs.List.Sorted.{IsPermutation};
ghost use Rattle.std.specs.BinaryHeap.{heap_items};
ghost use Rattle.ltm_search.specs.Arrivals.{arrivals_of, arrival_at, AreEarliest, AreBy};
ghost use Rattle.ltm_search.specs.Search.{millis, waiting, IsIdle, Searches, Looks, Visits, LooksAt, is_earlier, is_current, IsNoMore};

use crate::links::Links;
use ltm_units::{LinkId, Millis, NoMemory, NodeId};
use std::alloc::Global;
use std::cmp::Reverse;
use std::collections::BinaryHeap;

/// A node whose links wait for a look, with its arrival when it was put to wait. The earliest comes first.
#[derive(Clone, Copy, PartialEq, Eq, PartialOrd, Ord)]
pub struct Waiting {
    pub time: Reverse<u64>,
    pub node: u32,
}

/// The arrivals so far of one who sets out from a node, and the nodes that wait. Its tables are taken once, for all that set
/// out.
#[derive(Drop)]
pub struct Search {
    arrivals: Vec<Option<Millis>>,
    waiting: BinaryHeap<Waiting>,
    first: Waiting,
}

fn no_arrivals(alloc: Global, nodes: usize) -> Result<Vec<Option<Millis>>, NoMemory>
    ensures { IfOk result (λ a. length a.items ≡ nodes) }
{
    vec![in alloc; None; nodes].map_err(|_| NoMemory)
}

impl Search {
    /// A search over so many nodes, with no arrival at any.
    pub fn create(alloc: Global, nodes: u32) -> Result<Search, NoMemory>
        ensures { IfOk result (λ s. length (arrivals_of s) ≡ nodes) }
    {
        let arrivals = no_arrivals(alloc, nodes as usize)?;
        Ok(Search {
            arrivals,
            waiting: BinaryHeap::new(alloc),
            first: Waiting {
                time: Reverse(0),
                node: 0,
            },
        })
    }

    /// The arrival at a node.
    pub fn arrival(&self, node: NodeId) -> Option<Millis>
        requires { node.0 < length (arrivals_of self.now) }
        ensures { result ≡ arrival_at (arrivals_of self.now) node.0 }
    {
        self.arrivals[node.0 as usize]
    }

    /// The arrivals at all nodes.
    pub fn into_arrivals(self) -> Vec<Option<Millis>>
        ensures { result.items ≡ arrivals_of self }
    {
        self.arrivals
    }

    fn is_earlier(&self, node: NodeId, time: Millis) -> bool
        requires { node.0 < length self.now.arrivals.items }
        ensures { result ≡ is_earlier (arrival_at self.now.arrivals.items node.0) time.0 }
    {
        match self.arrivals[node.0 as usize] {
            None => true,
            Some(old) => time.0 < old.0,
        }
    }

    /// Gives a node an arrival, and puts it to wait.
    fn arrive(&mut self, node: NodeId, time: Millis) -> Result<(), NoMemory>
        requires { node.0 < length self.old.arrivals.items }
        ensures arrivals { self.new.arrivals.items
            ≡ slice_set self.old.arrivals.items node.0 (Some (millis time.0)) }
        ensures waiting { OnOk result (IsPermutation
            (waiting time.0 node.0 ∷ heap_items self.old.waiting) (heap_items self.new.waiting)) }
        ensures first { self.new.first ≡ self.old.first }
    {
        self.arrivals[node.0 as usize] = Some(time);
        self.waiting.push(Waiting {
            time: Reverse(time.0),
            node: node.0,
        })?;
        Ok(())
    }

    /// Forgets all arrivals.
    pub fn clear(&mut self)
        ensures arrivals { (node : ℕ) → arrival_at (arrivals_of self.new) node ≡ None }
        ensures one_for_each { length (arrivals_of self.new) ≡ length (arrivals_of self.old) }
        ensures idle { IsIdle self.new }
    {
        for node in 0..self.arrivals.len() {
            self.arrivals[node] = None;
        }
        self.waiting.clear();
    }

    /// Lets who leaves a link at a moment come to its head then, where nobody comes there before.
    fn come<L: Links>(
        &mut self,
        links: &L,
        next: Waiting,
        link: LinkId,
        exit: Millis,
    ) -> Result<(), NoMemory>
        requires stands { L.stands links.now }
        requires link { LooksAt (L.ways links.now) (L.bound links.now) self.old next link.0 }
        requires exit { (L.ways links.now).leaves link.0 next.time.0 ≡ Some exit.0 }
        ensures first { self.new.first ≡ self.old.first }
        ensures search { (left : List ℕ)
            → Visits (L.ways links.now) (L.bound links.now) self.old next (link.0 ∷ left)
            → OnOk result (Visits (L.ways links.now) (L.bound links.now) self.new next left) }
        ensures effort { OnOk result (IsNoMore (L.ways links.now) (L.bound links.now) self.old self.new) }
    {
        links.keep_ways();
        let head = links.head(link);
        if !self.is_earlier(head, exit) {
            return Ok(());
        }
        self.arrive(head, exit)?;
        Ok(())
    }

    /// Looks at a link that leaves a node that waited: who passes it may come to its head before all others.
    fn relax<L: Links>(&mut self, links: &L, next: Waiting, link: LinkId) -> Result<(), NoMemory>
        requires stands { L.stands links.now }
        requires link { LooksAt (L.ways links.now) (L.bound links.now) self.old next link.0 }
        ensures first { self.new.first ≡ self.old.first }
        ensures search { (left : List ℕ)
            → Visits (L.ways links.now) (L.bound links.now) self.old next (link.0 ∷ left)
            → OnOk result (Visits (L.ways links.now) (L.bound links.now) self.new next left) }
        ensures effort { OnOk result (IsNoMore (L.ways links.now) (L.bound links.now) self.old self.new) }
    {
        match links.pass(link, Millis(next.time.0)) {
            None => Ok(()),
            Some(exit) => self.come(links, next, link, exit),
        }
    }

    /// Whether the node's arrival is still the one with which it was put to wait.
    fn is_current(&self, next: Waiting) -> bool
        requires { next.node < length self.now.arrivals.items }
        ensures { result ≡ is_current (arrival_at self.now.arrivals.items next.node) next.time.0 }
    {
        match self.arrivals[next.node as usize] {
            None => false,
            Some(time) => time.0 == next.time.0,
        }
    }

    /// Looks at the links that leave a node that waited.
    fn visit<L: Links>(&mut self, links: &L, next: Waiting) -> Result<(), NoMemory>
        requires stands { L.stands links.now }
        requires search { Looks (L.ways links.now) (L.bound links.now) self.old next }
        ensures search { OnOk result (Searches (L.ways links.now) (L.bound links.now) self.new []) }
        ensures first { self.new.first ≡ self.old.first }
        ensures effort { OnOk result (IsNoMore (L.ways links.now) (L.bound links.now) self.old self.new) }
    {
        links.keep_ways();
        if !self.is_current(next) {
            return Ok(());
        }
        let leaving = links.leaving(NodeId(next.node));
        'each: for link in leaving {
            self.relax(links, next, *link)?;
        }
        Ok(())
    }

    /// Looks at all nodes, the earliest first, from one alone.
    fn look<L: Links>(&mut self, links: &L) -> Result<(), NoMemory>
        requires stands { L.stands links.now }
        requires search { Searches (L.ways links.now) (L.bound links.now) self.old [] }
        ensures earliest { OnOk result (AreEarliest (L.ways links.now) self.old.first.node
            self.old.first.time.0 self.new.arrivals.items) }
        ensures by { OnOk result (AreBy (L.bound links.now (L.ways links.now).nodes)
            self.new.arrivals.items) }
        ensures one_for_each { OnOk result (length self.new.arrivals.items ≡ (L.ways links.now).nodes) }
    {
        links.keep_ways();
        'all: while let Some(next) = self.waiting.pop() {
            self.visit(links, next)?;
        }
        Ok(())
    }

    /// Finds the earliest arrivals of one who sets out from a node at a moment.
    pub fn run<L: Links>(&mut self, links: &L, from: NodeId, start: Millis) -> Result<(), NoMemory>
        requires stands { L.stands links.now }
        requires from { from.0 < (L.ways links.now).nodes }
        requires start { start.0 ≤ L.bound links.now 0 }
        requires one_for_each { length (arrivals_of self.old) ≡ (L.ways links.now).nodes }
        ensures earliest { OnOk result (AreEarliest (L.ways links.now) from.0 start.0
            (arrivals_of self.new)) }
        ensures by { OnOk result (AreBy (L.bound links.now (L.ways links.now).nodes)
            (arrivals_of self.new)) }
        ensures one_for_each { OnOk result (length (arrivals_of self.new) ≡ (L.ways links.now).nodes) }
    {
        links.keep_ways();
        self.clear();
        self.first = Waiting {
            time: Reverse(start.0),
            node: from.0,
        };
        self.arrive(from, start)?;
        self.look(links)
    }
}
