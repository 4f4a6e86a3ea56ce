//! The frontier of a repair.
ghost use Rattle.std.specs.Prelude.{◌≡◌, ℕ, ◌+◌, ◌<◌, ◌≤◌, min, true, false, IfOk, OnOk, OnErr, IsTrue};
ghost use Rattle.ltm_marks.specs.Marks.{width_of, rows_of, is_marked};
ghost use Rattle.ltm_frontier.specs.Claims.{width, slot_in, count_in, has_node};
ghost use Rattle.ltm_units.specs.Bounds.{most_marked};

mod seeking;

use crate::claims::Claims;
use ltm_marks::Marks;
use ltm_units::{NoMemory, Pair, Reach};
use std::alloc::Global;

/// The active pairs, and the claimed ones, which are all of one slot. No pair is both. Active pairs are of slots from `low` on
/// and before `high` alone, so that a search passes over no slot else.
#[derive(Drop)]
pub struct Frontier {
    active: Marks,
    claims: Claims,
    low: u32,
    first: u32,
    high: u32,
    ghost nodes: { width claims ≡ width_of active },
    ghost apart: { (u : ℕ) → u < width_of active → has_node claims u ≡ true → is_marked active u (slot_in claims) ≡ false },
    ghost there: { (u : ℕ) → u < width_of active → has_node claims u ≡ true → slot_in claims < rows_of active },
    ghost within: { low ≤ rows_of active },
    ghost idle: { (u t : ℕ) → u < width_of active → t < low → is_marked active u t ≡ false },
    ghost topped: { high ≤ rows_of active },
    ghost above: { (u t : ℕ) → u < width_of active → t < rows_of active → high ≤ t → is_marked active u t ≡ false },
    ghost passed: { (u : ℕ) → u < width_of active → u < first → low < rows_of active → is_marked active u low ≡ false },
}

/// The node below which no pair of the front slot is active, once a pair is made active: `low` is the slot from which the
/// front is sought, and no pair of it is active below node `first`.
#[inline]
fn first_with(low: u32, first: u32, pair: Pair) -> u32
    ensures earlier { pair.slot < low → result ≡ pair.node.0 }
    ensures same { pair.slot ≡ low → result ≡ min first pair.node.0 }
    ensures later { low < pair.slot → result ≡ first }
{
    if pair.slot > low {
        first
    } else if pair.slot == low {
        first.min(pair.node.0)
    } else {
        pair.node.0
    }
}

/// The slot after one, where that is no later than the end of all slots, else that end.
#[inline]
fn after(slot: u32, slots: u32) -> u32
    ensures within { result ≤ slots }
    ensures later { slot < slots → slot < result }
{
    if slot < slots { slot + 1 } else { slots }
}

impl Frontier {
    ghost use Rattle.ltm_frontier.specs.Frontier.{
      nodes_in,
      slots_in,
      slot_room,
      is_active,
      is_claimed,
      claims_of,
      ClaimsAreOf,
      AllIdle,
      SamePairs,
      is_pair,
      in_slots,
      Activates,
      Deactivates,
      ClaimsPair,
      Releases,
      Voids,
    };

    /// No pair is active or claimed, and there is room for a claim of every node.
    pub fn create(alloc: Global, nodes: u32, slots: u32) -> Result<Frontier, NoMemory>
        requires nodes { nodes ≤ most_marked }
        requires slots { slots ≤ most_marked }
        ensures nodes { IfOk result (λ f. nodes_in f ≡ nodes) }
        ensures slots { IfOk result (λ f. slots_in f ≡ slots) }
        ensures idle { IfOk result AllIdle }
        ensures none_claimed { IfOk result (λ f. (u t : ℕ) → is_claimed f u t ≡ false) }
    {
        let active = Marks::create(alloc, nodes as usize, slots as usize)?;
        let claims = Claims::create(alloc, nodes)?;
        Ok(Frontier {
            active,
            claims,
            low: slots,
            first: 0,
            high: 0,
        })
    }

    /// How many nodes there are.
    pub fn nodes(&self) -> u32
        ensures { result ≡ nodes_in self.now }
    {
        self.active.width() as u32
    }

    /// How many slots there are.
    pub fn slots(&self) -> u32
        ensures { result ≡ slots_in self.now }
    {
        self.active.rows() as u32
    }

    /// Whether the pair is active.
    #[inline]
    pub fn is_active(&self, pair: Pair) -> bool
        requires node { pair.node.0 < nodes_in self.now }
        requires slot { pair.slot < slots_in self.now }
        ensures { result ≡ is_active self.now pair.node.0 pair.slot }
    {
        self.active
            .is_marked(pair.node.0 as usize, pair.slot as usize)
    }

    /// Whether the pair is claimed.
    #[inline]
    pub fn is_claimed(&self, pair: Pair) -> bool
        requires node { pair.node.0 < nodes_in self.now }
        ensures value { result ≡ is_claimed self.now pair.node.0 pair.slot }
        ensures apart { IsTrue result → is_active self.now pair.node.0 pair.slot ≡ false }
    {
        let _active = &self.active;
        self.claims.has(pair.node.0, pair.slot)
    }

    /// How many pairs are claimed.
    #[inline]
    pub fn claimed(&self) -> u32
        ensures count { result ≡ claims_of self.now }
        ensures one_slot { (u t w v : ℕ) → is_claimed self.now u t ≡ true
            → is_claimed self.now w v ≡ true → t ≡ v }
    {
        self.claims.count()
    }

    /// Makes the pair active, unless it is claimed.
    #[inline]
    pub fn mark(&mut self, pair: Pair)
        requires node { pair.node.0 < nodes_in self.old }
        requires slot { pair.slot < slots_in self.old }
        ensures { Activates self.old self.new (is_pair pair.node.0 pair.slot) }
    {
        if self.is_active(pair) {
            return;
        }
        if !self.claims.has(pair.node.0, pair.slot) {
            self.first = first_with(self.low, self.first, pair);
            self.low = self.low.min(pair.slot);
            self.high = self.high.max(pair.slot + 1);
            self.active.mark(pair.node.0 as usize, pair.slot as usize);
        }
    }

    /// Makes the pairs of a node in some slots active, but for those that are claimed.
    pub fn mark_range(&mut self, reach: Reach)
        requires node { reach.node.0 < nodes_in self.old }
        requires slots { reach.to ≤ slots_in self.old }
        ensures { Activates self.old self.new (in_slots reach.node.0 reach.from reach.to) }
    {
        let node = reach.node;
        for slot in reach.from..reach.to {
            self.mark(Pair { node, slot });
        }
    }

    /// The pair is no longer active.
    #[inline]
    pub fn unmark(&mut self, pair: Pair)
        requires node { pair.node.0 < nodes_in self.old }
        requires slot { pair.slot < slots_in self.old }
        ensures { Deactivates self.old self.new pair.node.0 pair.slot }
    {
        self.active.unmark(pair.node.0 as usize, pair.slot as usize);
    }

    /// Claims an active pair. All claims are of one slot.
    #[inline]
    pub fn claim_mark(&mut self, pair: Pair)
        requires node { pair.node.0 < nodes_in self.old }
        requires slot { pair.slot < slots_in self.old }
        requires active { is_active self.old pair.node.0 pair.slot ≡ true }
        requires one_slot { ClaimsAreOf self.old pair.slot }
        ensures { ClaimsPair self.old self.new pair.node.0 pair.slot }
    {
        self.active.unmark(pair.node.0 as usize, pair.slot as usize);
        self.claims.put(pair.node.0, pair.slot);
    }

    /// A claimed pair is no longer claimed, and not active either.
    #[inline]
    pub fn release(&mut self, pair: Pair)
        requires node { pair.node.0 < nodes_in self.old }
        requires claimed { is_claimed self.old pair.node.0 pair.slot ≡ true }
        ensures { Releases self.old self.new pair.node.0 pair.slot }
    {
        let _active = &self.active;
        self.claims.take(pair.node.0);
    }

    /// Makes every claimed pair active.
    pub fn void_all(&mut self)
        ensures { Voids self.old self.new }
    {
        let slot = self.claims.slot();
        self.low = self.low.min(slot);
        self.high = self.high.max(after(slot, self.slots()));
        self.first = 0;
        self.claims.mark_all(&mut self.active);
        self.claims.clear();
    }

    /// The greatest number of slots for which there is room.
    #[inline]
    pub fn room(&self) -> u32
        ensures value { result ≡ slot_room self.now }
        ensures within { slots_in self.now ≤ result }
    {
        self.active.room() as u32
    }

    /// Makes room for so many slots. With want of memory nothing changes.
    pub fn reserve(&mut self, slots: u32) -> Result<(), NoMemory>
        requires { slots ≤ most_marked }
        ensures same { SamePairs self.old self.new }
        ensures slots { slots_in self.new ≡ slots_in self.old }
        ensures room { OnOk result (slots ≤ slot_room self.new) }
        ensures stays { OnErr result (slot_room self.new ≡ slot_room self.old) }
        ensures no_less { slot_room self.old ≤ slot_room self.new }
    {
        self.active.reserve(slots as usize)
    }

    /// Raises the number of slots within the room. No pair of a new slot is active or claimed.
    pub fn lengthen(&mut self, slots: u32)
        requires slots { slots_in self.old ≤ slots }
        requires room { slots ≤ slot_room self.old }
        ensures same { SamePairs self.old self.new }
        ensures slots { slots_in self.new ≡ slots }
        ensures room { slot_room self.new ≡ slot_room self.old }
        ensures new { (u t : ℕ) → u < nodes_in self.old → slots_in self.old ≤ t
            → is_active self.new u t ≡ false }
    {
        self.active.lengthen(slots as usize);
    }
}
