//! What the origin of a node has produced, as rows of counts.
ghost use Rattle.std.specs.Prelude.{◌≡◌, ◌<◌, ◌^◌, ℕ, slice_index, IfSome};
ghost use Rattle.ltm_setting.specs.Setting.{setting_of};

use ltm_curve::Rows;
use ltm_scenario::Scenario;
use ltm_setting::{destination_count, produced, produced_row, produced_total};
use ltm_units::{NodeId, share_of};

/// What a node has produced of each destination by each boundary.
#[derive(Drop)]
pub(crate) struct Produced<'a> {
    pub(crate) scenario: &'a Scenario,
    pub(crate) node: NodeId,
}

/// A number of a row, 0 past its end.
#[inline]
fn number_at(row: &[u64], place: usize) -> u64
    ensures { result ≡ slice_index row.now place }
{
    if place < row.len() { row[place] } else { 0 }
}

impl Produced<'_> {
    /// What the node has produced of a destination by a boundary: from a row of them, where there is one.
    #[inline]
    fn count_in(&self, row: Option<&[u64]>, destination: usize, boundary: u32) -> u64
        requires place { destination < 2 ^ 32 }
        requires row { IfSome row (λ row. (d : ℕ) → slice_index row.now d
            ≡ (setting_of self.now.scenario.now).produced self.now.node.0 d boundary) }
        ensures { result
            ≡ (setting_of self.now.scenario.now).produced self.now.node.0 destination boundary }
    {
        match row {
            Some(row) => number_at(row, destination),
            None => produced(self.scenario, self.node, destination as u32, boundary),
        }
    }
}

impl Rows for Produced<'_> {
    ghost rows = { λ s. (setting_of s.scenario.now).produced s.node.0 };

    ghost width = { λ s. (setting_of s.scenario.now).destinations };

    ghost end = { λ s. (setting_of s.scenario.now).slots };

    fn destinations(&self) -> u32 {
        destination_count(self.scenario)
    }

    fn count(&self, destination: u32, boundary: u32) -> u64 {
        produced(self.scenario, self.node, destination, boundary)
    }

    fn total(&self, boundary: u32) -> u64 {
        produced_total(self.scenario, self.node, boundary)
    }

    fn write_less(&self, boundary: u32, less: &[u32], into: &mut [u64]) {
        let _few = self.destinations();
        let row = produced_row(self.scenario, self.node, boundary);
        for destination in 0..into.len() {
            let count = self.count_in(row, destination, boundary);
            into[destination] = count - u64::from(less[destination]);
        }
    }

    fn write_mixed_less(&self, slot: u32, part: u64, less: &[u32], into: &mut [u64]) {
        let _few = self.destinations();
        let first = produced_row(self.scenario, self.node, slot);
        let next = produced_row(self.scenario, self.node, slot + 1);
        let mut rest = part;
        let mut whole = self.total(slot + 1) - self.total(slot);
        for destination in 0..into.len() {
            let before = self.count_in(first, destination, slot);
            let entered = self.count_in(next, destination, slot + 1) - before;
            let share = share_of(rest, entered, whole);
            rest -= share;
            whole -= entered;
            into[destination] = before + share - u64::from(less[destination]);
        }
    }
}
