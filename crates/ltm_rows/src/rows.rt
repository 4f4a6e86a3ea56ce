//! What is kept of each pair of node and slot.
ghost use Rattle.std.specs.Prelude.{◌≡◌, ℕ, ◌+◌, ◌*◌, ◌<◌, ◌≤◌, ◌↔◌, length, replicate, IfOk, OnOk, IsTrue, Some, true, false};
ghost use Rattle.ltm_marks.specs.Marks.{width_of as places_of, rows_of, room_of};
ghost use Rattle.ltm_setting.specs.Setting.{setting_of};
ghost use Rattle.ltm_rows.specs.Layouts.{slot_width, nodes_in};
ghost use Rattle.ltm_rows.specs.Sizes.{widest_slot};
ghost use Rattle.ltm_units.specs.Bounds.{most_slots};

mod putting;
mod weighing;

use crate::comparing::same_row;
use crate::layout::{Layout, Part};
use crate::narrow::same_narrow_parts;
use crate::parts::Parts;
use ltm_marks::Marks;
use ltm_scenario::Scenario;
use ltm_setting::node_count;
use ltm_units::NoMemory;
use std::alloc::Global;

/// For each pair of node and slot for which they were put there, its amounts, of 16 bits each, and its weights, of 32, in two
/// flat tables: `narrow` says where amounts lie, and `wide` where weights do. A pair is marked in `there` where its row was
/// put, and in `weighed` where its weights are known to be those of the setting as it is.
#[derive(Drop)]
pub struct KeptRows {
    slots: usize,
    room: usize,
    narrow: Layout,
    amounts: Vec<u16>,
    wide: Layout,
    weights: Vec<u32>,
    there: Marks,
    weighed: Marks,
    ghost few: { room ≤ most_slots },
    ghost within: { slots ≤ room },
    ghost amounts_long: { room * slot_width narrow ≤ length amounts.items },
    ghost weights_long: { room * slot_width wide ≤ length weights.items },
    ghost same_nodes: { nodes_in wide ≡ nodes_in narrow },
    ghost nodes: { places_of there ≡ nodes_in narrow },
    ghost rows: { rows_of there ≡ slots },
    ghost bits: { room ≤ room_of there },
    ghost weighed_nodes: { places_of weighed ≡ nodes_in narrow },
    ghost weighed_rows: { rows_of weighed ≡ slots },
    ghost weighed_bits: { room ≤ room_of weighed },
}

/// So many zeros of 16 bits.
fn narrow_zeros(alloc: Global, slots: usize, width: usize) -> Result<Vec<u16>, NoMemory>
    requires slots { slots ≤ most_slots }
    requires width { width ≤ widest_slot }
    ensures { IfOk result (λ numbers. numbers.items ≡ replicate (slots * width) 0) }
{
    vec![in alloc; 0u16; slots * width].map_err(|_| NoMemory)
}

/// So many zeros of 32 bits.
fn wide_zeros(alloc: Global, slots: usize, width: usize) -> Result<Vec<u32>, NoMemory>
    requires slots { slots ≤ most_slots }
    requires width { width ≤ widest_slot }
    ensures { IfOk result (λ numbers. length numbers.items ≡ slots * width) }
{
    vec![in alloc; 0u32; slots * width].map_err(|_| NoMemory)
}

impl KeptRows {
    ghost use Rattle.ltm_rows.specs.Rows.{
      nodes_kept,
      slots_kept,
      row_room,
      amounts_width,
      weights_width,
      amounts_of,
      weights_of,
      has_row,
      is_weighed,
      HasRows,
      kept_row,
      SameRows,
      ForgetsRow,
    };
    ghost use Rattle.ltm_rows.specs.Parts.{amounts_in, row_of_parts};

    /// Room for so many slots; no row is there.
    pub fn create(alloc: Global, scenario: &Scenario, slots: usize) -> Result<KeptRows, NoMemory>
        requires { slots ≤ most_slots }
        ensures rows { IfOk result (HasRows (setting_of scenario.now) slots) }
        ensures none { IfOk result (λ k. (u t : ℕ) → has_row k u t ≡ false) }
        ensures none_weighed { IfOk result (λ k. (u t : ℕ) → is_weighed k u t ≡ false) }
        ensures zeros { IfOk result (λ k. (u t : ℕ) → u < nodes_kept k → t < slots_kept k
            → amounts_of k u t ≡ replicate (amounts_width k u) 0) }
    {
        let nodes = node_count(scenario);
        let narrow = Layout::create(alloc, scenario, Part::Amounts)?;
        let amounts = narrow_zeros(alloc, slots, narrow.slot_width())?;
        let wide = Layout::create(alloc, scenario, Part::Weights)?;
        let weights = wide_zeros(alloc, slots, wide.slot_width())?;
        let there = Marks::create(alloc, nodes as usize, slots)?;
        let weighed = Marks::create(alloc, nodes as usize, slots)?;
        let _room = there.room();
        let _weighed = weighed.room();
        Ok(KeptRows {
            slots,
            room: slots,
            narrow,
            amounts,
            wide,
            weights,
            there,
            weighed,
        })
    }

    /// The amounts in the place of a pair.
    #[inline]
    #[tactic(auto, unfolding(crate::specs::Rows::amounts_of, crate::specs::Layouts::row_in), using(crate::proofs::RowPlaces::length_part))]
    fn amounts(&self, node: usize, slot: usize) -> &[u16]
        requires node { node < nodes_kept self.now }
        requires slot { slot < slots_kept self.now }
        ensures row { result.now ≡ amounts_of self.now node slot }
        ensures width { length result.now ≡ amounts_width self.now node }
    {
        let (from, to) = self.narrow.bounds(node, slot);
        &self.amounts[from..to]
    }

    /// Whether a row of a pair is there.
    #[inline]
    pub fn has(&self, node: usize, slot: usize) -> bool
        requires node { node < nodes_kept self.now }
        requires slot { slot < slots_kept self.now }
        ensures { result ≡ has_row self.now node slot }
    {
        self.there.is_marked(node, slot)
    }

    /// Whether the amounts of a pair are there and these. That they are others is told at the first number that differs, from
    /// what the arms send on. The weights are not looked at.
    #[inline]
    pub fn keeps_amounts(&self, node: usize, slot: usize, parts: Parts<'_>) -> bool
        requires node { node < nodes_kept self.now }
        requires slot { slot < slots_kept self.now }
        requires amounts { length parts.sends.now + length parts.limits.now
            ≡ amounts_width self.now node }
        ensures { IsTrue result ↔ ((has_row self.now node slot ≡ true)
            × (amounts_of self.now node slot ≡ amounts_in parts.entry)) }
    {
        if !self.has(node, slot) {
            return false;
        }
        same_narrow_parts(self.amounts(node, slot), parts.sends, parts.limits)
    }

    /// Whether this row of a pair is there. That it is another one is told at the first number that differs, from what the
    /// arms send on.
    pub fn keeps(&self, node: usize, slot: usize, parts: Parts<'_>) -> bool
        requires node { node < nodes_kept self.now }
        requires slot { slot < slots_kept self.now }
        requires amounts { length parts.sends.now + length parts.limits.now
            ≡ amounts_width self.now node }
        ensures { IsTrue result ↔ kept_row self.now node slot ≡ Some (row_of_parts parts.entry) }
    {
        if !self.keeps_amounts(node, slot, parts) {
            return false;
        }
        same_row(self.weights(node, slot), parts.weights)
    }

    /// The row of a pair is there no more, and no other changes.
    #[inline]
    pub fn forget(&mut self, node: usize, slot: usize)
        requires node { node < nodes_kept self.old }
        requires slot { slot < slots_kept self.old }
        ensures { ForgetsRow self.old self.new node slot }
    {
        self.there.unmark(node, slot);
    }

    /// Makes room for so many slots. Nothing else that is seen changes, also with want of memory.
    pub fn reserve(&mut self, slots: usize) -> Result<(), NoMemory>
        requires { slots ≤ most_slots }
        ensures same { SameRows self.old self.new }
        ensures slots { slots_kept self.new ≡ slots_kept self.old }
        ensures room { OnOk result (slots ≤ row_room self.new) }
    {
        if slots <= self.room {
            return Ok(());
        }
        self.there.reserve(slots)?;
        self.weighed.reserve(slots)?;
        let amounts = slots * self.narrow.slot_width();
        match self.amounts.resize(amounts, 0) {
            Ok(()) => {}
            Err(_) => return Err(NoMemory),
        }
        let weights = slots * self.wide.slot_width();
        match self.weights.resize(weights, 0) {
            Ok(()) => {
                self.room = slots;
                Ok(())
            }
            Err(_) => Err(NoMemory),
        }
    }

    /// Raises the number of slots within the room. No row of a new slot is there, and none is weighed.
    pub fn lengthen(&mut self, slots: usize)
        requires slots { slots_kept self.old ≤ slots }
        requires room { slots ≤ row_room self.old }
        ensures same { SameRows self.old self.new }
        ensures slots { slots_kept self.new ≡ slots }
        ensures none { (u t : ℕ) → u < nodes_kept self.old → slots_kept self.old ≤ t
            → has_row self.new u t ≡ false }
        ensures none_weighed { (u t : ℕ) → u < nodes_kept self.old → slots_kept self.old ≤ t
            → is_weighed self.new u t ≡ false }
    {
        self.there.lengthen(slots);
        self.weighed.lengthen(slots);
        self.slots = slots;
    }
}
