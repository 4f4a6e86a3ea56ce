//! The weights of pairs, and of which of them it is known that they are those of the setting as it is.
ghost use Rattle.std.specs.Prelude.{◌≡◌, ℕ, ◌+◌, ◌-◌, ◌*◌, ◌<◌, ◌≤◌, ◌&&◌, not, false, length, IsTrue};
ghost use Rattle.std.specs.List.{copy_within};
ghost use Rattle.ltm_marks.specs.Marks.{width_of, rows_of, is_marked, SameSize};
ghost use Rattle.ltm_inputs.specs.Parts.{weights_part};
ghost use Rattle.ltm_setting.specs.Places.{IsNode, IsSlot};
ghost use Rattle.ltm_setting.specs.Setting.{setting_of};
ghost use Rattle.ltm_rows.specs.Begins.{begins_at, nodes_begun, slots_begun, TellsBegins};
ghost use Rattle.ltm_rows.specs.Rows.{in_slots};

use super::KeptRows;
use crate::begins::Begins;
use ltm_inputs::weights_in;
use ltm_marks::Marks;
use ltm_scenario::Scenario;
use ltm_units::Pair;

/// Takes the marks of a place in some rows away, the last row not included, and changes no other.
fn unmark_rows(marks: &mut Marks, place: usize, from: usize, to: usize)
    requires place { place < width_of marks.old }
    requires rows { to ≤ rows_of marks.old }
    ensures size { SameSize marks.old marks.new }
    ensures marks { (p r : ℕ) → p < width_of marks.old → r < rows_of marks.old
        → is_marked marks.new p r ≡ (is_marked marks.old p r && not (in_slots place from to p r)) }
{
    for row in from..to {
        marks.unmark(place, row);
    }
}

/// Whether the weights of a pair are surely those of the slot before: there is one, and no split row of the node begins.
#[inline]
fn are_as_before(begins: &Begins, pair: Pair) -> bool
    requires node { pair.node.0 < nodes_begun begins.now }
    requires slot { pair.slot < slots_begun begins.now }
    ensures { IsTrue result → (0 < pair.slot)
        × (begins_at begins.now pair.node.0 pair.slot ≡ false) }
{
    pair.slot > 0 && !begins.at(pair.node.0 as usize, pair.slot as usize)
}

/// Copies numbers over as many others behind them: all at once, as none is written that is yet to be read. A single number, as
/// where a node has one out-link in a case with one destination, is copied without a call.
#[inline]
fn copy_on(numbers: &mut [u32], from: usize, to: usize, at: usize)
    requires order { from ≤ to }
    requires behind { to ≤ at }
    requires within { at + (to - from) ≤ length numbers.old }
    ensures { numbers.new ≡ copy_within numbers.old from to at }
{
    if to - from == 1 {
        numbers[at] = numbers[from];
        return;
    }
    let (front, back) = numbers.split_at_mut(at);
    back[..to - from].copy_from_slice(&front[from..to]);
}

impl KeptRows {
    ghost use Rattle.ltm_rows.specs.Rows.{
      nodes_kept,
      slots_kept,
      weights_width,
      weights_of,
      is_weighed,
      HasRows,
      PutsWeights,
      Unweighs,
      Weighs,
    };

    /// Whether the pair is weighed: its weights are known to be those of the setting.
    #[inline]
    pub fn is_weighed(&self, node: usize, slot: usize) -> bool
        requires node { node < nodes_kept self.now }
        requires slot { slot < slots_kept self.now }
        ensures { result ≡ is_weighed self.now node slot }
    {
        self.weighed.is_marked(node, slot)
    }

    /// The weights in the place of a pair.
    #[inline]
    #[tactic(auto, unfolding(crate::specs::Rows::weights_of, crate::specs::Layouts::row_in), using(crate::proofs::RowPlaces::length_part))]
    pub fn weights(&self, node: usize, slot: usize) -> &[u32]
        requires node { node < nodes_kept self.now }
        requires slot { slot < slots_kept self.now }
        ensures row { result.now ≡ weights_of self.now node slot }
        ensures width { length result.now ≡ weights_width self.now node }
    {
        let (from, to) = self.wide.bounds(node, slot);
        &self.weights[from..to]
    }

    /// The pairs of a node in some slots, the last not included, are weighed no more: the setting may have other weights.
    pub fn unweigh(&mut self, node: usize, from: usize, to: usize)
        requires node { node < nodes_kept self.old }
        requires to { to ≤ slots_kept self.old }
        ensures { Unweighs self.old self.new node from to }
    {
        unmark_rows(&mut self.weighed, node, from, to);
    }

    /// Writes the weights of the slot before in the place of a pair.
    #[inline]
    fn copy_weights(&mut self, node: usize, slot: usize)
        requires node { node < nodes_kept self.old }
        requires slot { slot < slots_kept self.old }
        requires later { 0 < slot }
        ensures { PutsWeights self.old self.new node slot (weights_of self.old node (slot - 1)) }
    {
        let (from, to) = self.wide.bounds(node, slot - 1);
        let (at, _) = self.wide.bounds(node, slot);
        copy_on(self.weights.as_mut_slice(), from, to, at);
    }

    /// Writes the weights that a pair of a scenario has.
    #[inline]
    fn read_weights(&mut self, scenario: &Scenario, pair: Pair)
        requires node { IsNode scenario.now pair.node.0 }
        requires kept { pair.node.0 < nodes_kept self.old }
        requires slot { pair.slot < slots_kept self.old }
        requires width { weights_width self.old pair.node.0
            ≡ (setting_of scenario.now).destinations * (setting_of scenario.now).outs pair.node.0 }
        ensures { PutsWeights self.old self.new pair.node.0 pair.slot
            (weights_part (setting_of scenario.now) pair.node.0 pair.slot) }
    {
        let (from, to) = self.wide.bounds(pair.node.0 as usize, pair.slot as usize);
        weights_in(scenario, pair, &mut self.weights[from..to]);
    }

    /// The same, where those of the slot before stand: they are copied where no split row of the node begins.
    #[inline]
    fn write_weights(&mut self, scenario: &Scenario, begins: &Begins, pair: Pair)
        requires rows { HasRows (setting_of scenario.now) (setting_of scenario.now).slots self.old }
        requires node { IsNode scenario.now pair.node.0 }
        requires slot { IsSlot scenario.now pair.slot }
        requires begins { TellsBegins (setting_of scenario.now) begins.now }
        requires before { (t : ℕ) → pair.slot ≡ t + 1
            → weights_of self.old pair.node.0 t
            ≡ weights_part (setting_of scenario.now) pair.node.0 t }
        ensures { PutsWeights self.old self.new pair.node.0 pair.slot
            (weights_part (setting_of scenario.now) pair.node.0 pair.slot) }
    {
        if are_as_before(begins, pair) {
            self.copy_weights(pair.node.0 as usize, pair.slot as usize);
            return;
        }
        self.read_weights(scenario, pair);
    }

    /// Puts the weights that a pair of a scenario has, and changes no others; the pair is weighed. Those of the slot before stand
    /// there already, and are copied where no split row of the node begins. Takes no memory.
    pub fn weigh(&mut self, scenario: &Scenario, begins: &Begins, pair: Pair)
        requires rows { HasRows (setting_of scenario.now) (setting_of scenario.now).slots self.old }
        requires node { IsNode scenario.now pair.node.0 }
        requires slot { IsSlot scenario.now pair.slot }
        requires begins { TellsBegins (setting_of scenario.now) begins.now }
        requires before { (t : ℕ) → pair.slot ≡ t + 1
            → weights_of self.old pair.node.0 t
            ≡ weights_part (setting_of scenario.now) pair.node.0 t }
        ensures { Weighs self.old self.new pair.node.0 pair.slot
            (weights_part (setting_of scenario.now) pair.node.0 pair.slot) }
    {
        self.write_weights(scenario, begins, pair);
        self.weighed.mark(pair.node.0 as usize, pair.slot as usize);
    }
}
