//! The claims that are out, all of one slot.
ghost use Rattle.std.specs.Prelude.{◌≡◌, ℕ, ◌+◌, ◌<◌, ◌≤◌, true, false, IfOk, MatchOption};
ghost use Rattle.ltm_units.specs.Sums.{sum_below};
ghost use Rattle.ltm_marks.specs.Marks.{width_of, rows_of, is_marked};
ghost use Rattle.ltm_frontier.specs.Ones.{one_if};
ghost use Rattle.ltm_units.specs.Bounds.{most_marked};

use ltm_marks::Marks;
use ltm_units::NoMemory;
use std::alloc::Global;

/// The nodes whose pair of one slot is claimed, and how many they are.
#[derive(Drop)]
pub struct Claims {
    slot: u32,
    count: u32,
    nodes: Marks,
    ghost one_row: { rows_of nodes ≡ 1 },
    ghost counted: { count ≡ sum_below (width_of nodes) (λ u. one_if (is_marked nodes u 0)) },
}

impl Claims {
    ghost use Rattle.ltm_frontier.specs.Claims.{width, slot_in, count_in, has_node, has_claim, NoneClaimed, PutsClaim, TakesClaim, AddsClaims};

    /// No claims, with room for one of each node.
    pub fn create(alloc: Global, nodes: u32) -> Result<Claims, NoMemory>
        requires { nodes ≤ most_marked }
        ensures nodes { IfOk result (λ c. width c ≡ nodes) }
        ensures none { IfOk result (λ c. (u : ℕ) → has_node c u ≡ false) }
    {
        let nodes = Marks::create(alloc, nodes as usize, 1)?;
        Ok(Claims {
            slot: 0,
            count: 0,
            nodes,
        })
    }

    /// The slot of the claims.
    #[inline]
    pub fn slot(&self) -> u32
        ensures { result ≡ slot_in self.now }
    {
        self.slot
    }

    /// A node with a claimed pair; none exactly where no pair is claimed.
    #[inline]
    pub fn first(&self) -> Option<u32>
        ensures { MatchOption result (NoneClaimed self.now) (λ u. (u < width self.now)
            × (has_node self.now u ≡ true)) }
    {
        if self.count == 0 {
            return None;
        }
        match self.nodes.next_marked(0, 0) {
            Some(node) => Some(node as u32),
            None => None,
        }
    }

    /// How many claims there are.
    #[inline]
    pub fn count(&self) -> u32
        ensures { result ≡ count_in self.now }
    {
        self.count
    }

    /// Whether the pair is claimed.
    #[inline]
    pub fn has(&self, node: u32, slot: u32) -> bool
        requires { node < width self.now }
        ensures { result ≡ has_claim self.now node slot }
    {
        slot == self.slot && self.nodes.is_marked(node as usize, 0)
    }

    /// Claims the pair. The other claims are of its slot, or there are none.
    #[inline]
    pub fn put(&mut self, node: u32, slot: u32)
        requires node { node < width self.old }
        requires free { has_node self.old node ≡ false }
        requires one_slot { (u : ℕ) → u < width self.old → has_node self.old u ≡ true
            → slot_in self.old ≡ slot }
        ensures { PutsClaim self.old self.new node slot }
    {
        let _width = self.nodes.width();
        self.slot = slot;
        self.count += 1;
        self.nodes.mark(node as usize, 0);
    }

    /// The pair of the node, which is claimed, is no longer claimed.
    #[inline]
    pub fn take(&mut self, node: u32)
        requires node { node < width self.old }
        requires claimed { has_node self.old node ≡ true }
        ensures { TakesClaim self.old self.new node }
    {
        self.count -= 1;
        self.nodes.unmark(node as usize, 0);
    }

    /// Marks every claimed pair.
    pub fn mark_all(&self, marks: &mut Marks)
        requires nodes { width_of marks.old ≡ width self.now }
        requires slot { (u : ℕ) → u < width self.now → has_node self.now u ≡ true
            → slot_in self.now < rows_of marks.old }
        ensures { AddsClaims self.now marks.old marks.new (width self.now) }
    {
        for node in 0..self.nodes.width() {
            if self.nodes.is_marked(node, 0) {
                marks.mark(node, self.slot as usize);
            }
        }
    }

    /// No claim is left.
    pub fn clear(&mut self)
        ensures nodes { width self.new ≡ width self.old }
        ensures none { (u : ℕ) → has_node self.new u ≡ false }
        ensures count { count_in self.new ≡ 0 }
    {
        self.count = 0;
        self.nodes.clear();
    }
}
