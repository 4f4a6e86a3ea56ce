//! The inputs with which pairs are claimed.
ghost use Rattle.std.specs.Prelude.{◌≡◌, ℕ, ◌^◌, ◌<◌, ◌≤◌, ◌↔◌, length, slice_index, IfOk, IsTrue};
ghost use Rattle.ltm_setting.specs.Setting.{setting_of};
ghost use Rattle.ltm_rows.specs.Layouts.{slot_width};

use crate::comparing::{still_same_row, write_row};
use crate::layout::{Layout, Part};
use ltm_scenario::Scenario;
use ltm_units::NoMemory;
use std::alloc::Global;

/// A row of numbers for each node, in 32 bits each. All claims are of one slot, so there is one for each node.
#[derive(Drop)]
pub struct ClaimRows {
    places: Layout,
    numbers: Vec<u32>,
    ghost long: { length numbers.items ≡ slot_width places },
}

impl ClaimRows {
    ghost use Rattle.ltm_rows.specs.Claims.{nodes_claimed, claim_width, claim_row, HasClaims, WritesClaim};

    /// Room for the inputs of each node.
    pub fn create(alloc: Global, scenario: &Scenario) -> Result<ClaimRows, NoMemory>
        ensures { IfOk result (HasClaims (setting_of scenario.now)) }
    {
        let places = Layout::create(alloc, scenario, Part::All)?;
        let numbers = vec![in alloc; 0u32; places.slot_width()].map_err(|_| NoMemory)?;
        Ok(ClaimRows { places, numbers })
    }

    /// Whether the row of a node is this one, where it is likely to be: all numbers are looked at, several at a time.
    #[tactic(auto, unfolding(crate::specs::Claims::claim_row, crate::specs::Layouts::row_in))]
    pub fn is_still_row(&self, node: usize, row: &[u64]) -> bool
        requires node { node < nodes_claimed self.now }
        ensures { IsTrue result ↔ claim_row self.now node ≡ row.now }
    {
        let (from, to) = self.places.bounds(node, 0);
        still_same_row(&self.numbers[from..to], row)
    }

    /// Puts a row in the place of a node's, and changes no other.
    pub fn put(&mut self, node: usize, row: &[u64])
        requires node { node < nodes_claimed self.old }
        requires width { length row.now ≡ claim_width self.old node }
        requires small { (i : ℕ) → i < length row.now → slice_index row.now i < 2 ^ 32 }
        ensures { WritesClaim self.old self.new node row.now }
    {
        let (from, to) = self.places.bounds(node, 0);
        write_row(&mut self.numbers[from..to], row);
    }
}
