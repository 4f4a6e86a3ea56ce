//! Until when the weights of a node and a destination stay in force.
ghost use Rattle.std.specs.Prelude.{◌≡◌, ℕ, ◌-◌, ◌^◌, ◌≤◌, ◌<◌};
ghost use Rattle.ltm_splits.specs.Rows.{row_in_force};

use crate::splits::Splits;
use ltm_units::NodeId;

impl Splits {
    /// The slot until which the weights in force at a slot stay in force: the first slot of the next row, or the greatest number
    /// where no row follows.
    pub fn stays_until(&self, node: NodeId, destination: u32, slot: u32) -> u32
        ensures stays { (u : ℕ) → slot ≤ u → u < result → row_in_force self.now.rows node.0 destination u
            ≡ row_in_force self.now.rows node.0 destination slot }
        ensures later { slot < 2 ^ 32 - 1 → slot < result }
    {
        match self.table.pair(node, destination) {
            Some(pair) => pair.stays_until(slot),
            None => u32::MAX,
        }
    }
}
