//! Where the front is sought.
ghost use Rattle.std.specs.Prelude.{◌≡◌, ℕ, ◌<◌, ◌≤◌, false, IfSome, MatchOption};

use super::Frontier;
use ltm_units::{NodeId, Pair};

impl Frontier {
    ghost use Rattle.ltm_frontier.specs.Frontier.{
      nodes_in,
      slots_in,
      is_active,
      AllIdle,
      IsFront,
      IsFrontFrom,
      IsFirstOfFront,
      IsNextActive,
      NoneActiveIn,
      SamePairs,
      SameSize,
      NoneBefore,
      IsFirst,
    };

    /// The first active pair before an end, slot after slot.
    fn first_active(&self, end: u32) -> Option<Pair>
        requires { end ≤ slots_in self.now }
        ensures { MatchOption result (NoneBefore self.now end)
            (λ pair. IsFirst self.now end pair.slot pair.node.0) }
    {
        let _width = self.active.width();
        let mut from = self.first;
        for slot in self.low..end.min(self.high) {
            if let Some(node) = self.active.next_marked(slot as usize, from as usize) {
                let node = NodeId(node as u32);
                return Some(Pair { node, slot });
            }
            from = 0;
        }
        None
    }

    /// A node below which no pair of a slot is active.
    #[inline]
    fn first_at(&self, slot: u32) -> u32
        requires { slot < slots_in self.now }
        ensures { (u : ℕ) → u < nodes_in self.now → u < result → is_active self.now u slot ≡ false }
    {
        if slot == self.low { self.first } else { 0 }
    }

    /// The least slot of a pair that is active or claimed, and a node below which no pair of it is active; none exactly where
    /// every pair is idle.
    fn search(&self) -> Option<Pair>
        ensures { MatchOption result (AllIdle self.now)
            (λ pair. IsFrontFrom self.now pair.slot pair.node.0) }
    {
        let slot = self.claims.slot();
        match self.claims.first() {
            Some(_) => match self.first_active(slot) {
                Some(pair) => Some(pair),
                None => Some(Pair {
                    node: NodeId(self.first_at(slot)),
                    slot,
                }),
            },
            None => match self.first_active(self.slots()) {
                Some(pair) => Some(pair),
                None => None,
            },
        }
    }

    /// The least slot of a pair that is active or claimed; none exactly where every pair is idle.
    pub fn front(&self) -> Option<u32>
        ensures { MatchOption result (AllIdle self.now) (IsFront self.now) }
    {
        match self.search() {
            Some(pair) => Some(pair.slot),
            None => None,
        }
    }

    /// The first active node of the slot from which the front is sought, where no pair is claimed and that node is near.
    #[inline]
    fn near(&self) -> Option<u32>
        ensures { IfSome result (IsFirstOfFront self.now self.now.low) }
    {
        if self.claims.count() > 0 {
            return None;
        }
        let (slot, node) = (self.low as usize, self.first as usize);
        if slot >= self.active.rows() {
            return None;
        }
        if node >= self.active.width() {
            return None;
        }
        match self.active.next_near(slot, node) {
            Some(node) => return Some(node as u32),
            None => return None,
        }
    }

    /// The first active pair of the front, where no pair is claimed and that pair is near: it is not sought below it again
    /// until a pair there is made active. None tells nothing.
    #[inline]
    pub fn advance_near(&mut self) -> Option<Pair>
        ensures first { IfSome result (λ pair. IsFirstOfFront self.old pair.slot pair.node.0) }
        ensures size { SameSize self.old self.new }
        ensures pairs { SamePairs self.old self.new }
    {
        if let Some(node) = self.near() {
            self.first = node;
            let (node, slot) = (NodeId(node), self.low);
            return Some(Pair { node, slot });
        }
        None
    }

    /// The front, found wherever it is, below which it is not sought again.
    #[inline(never)]
    fn advance_far(&mut self) -> Option<u32>
        ensures front { MatchOption result (AllIdle self.old) (IsFront self.old) }
        ensures size { SameSize self.old self.new }
        ensures pairs { SamePairs self.old self.new }
    {
        match self.search() {
            Some(pair) => {
                self.low = pair.slot;
                self.first = pair.node.0;
                Some(pair.slot)
            }
            None => {
                self.low = self.active.rows() as u32;
                self.first = 0;
                self.high = 0;
                None
            }
        }
    }

    /// The front, which is not sought below its slot again until a pair there is made active.
    #[inline]
    pub fn advance(&mut self) -> Option<u32>
        ensures front { MatchOption result (AllIdle self.old) (IsFront self.old) }
        ensures size { SameSize self.old self.new }
        ensures pairs { SamePairs self.old self.new }
    {
        if let Some(node) = self.near() {
            self.first = node;
            return Some(self.low);
        }
        self.advance_far()
    }

    /// The first active node of a slot that is not below one; none exactly where there is none.
    #[inline]
    pub fn next_active(&self, slot: u32, from: NodeId) -> Option<NodeId>
        requires { slot < slots_in self.now }
        ensures { MatchOption result (NoneActiveIn self.now slot from.0)
            (λ node. IsNextActive self.now slot from.0 node.0) }
    {
        let from = from.0.max(self.first_at(slot));
        match self.active.next_marked(slot as usize, from as usize) {
            Some(node) => Some(NodeId(node as u32)),
            None => None,
        }
    }
}
