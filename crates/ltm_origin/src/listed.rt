//! What a node has produced of the destinations of a list.
ghost use Rattle.std.specs.Prelude.{◌≡◌, ℕ, ◌<◌, ◌≤◌, length, slice_index};
ghost use Rattle.ltm_setting.specs.Setting.{setting_of};
ghost use Rattle.ltm_curve.specs.Counts.{total};
ghost use Rattle.ltm_units.specs.Bounds.{most_destinations};

use ltm_curve::Rows;
use ltm_scenario::Scenario;
use ltm_setting::{produced, produced_near, produced_total};
use ltm_units::{NodeId, share_of};

/// What a node has produced of the destinations of a list by each boundary: in all no less than of all destinations. Where the list
/// ascends, a pass over it reads each row of demand once, and searches for none.
#[derive(Drop)]
pub(crate) struct Listed<'a> {
    pub(crate) scenario: &'a Scenario,
    pub(crate) node: NodeId,
    pub(crate) list: &'a [u32],
    ghost few: { length list.now ≤ most_destinations },
    ghost whole: { (k : ℕ) → k ≤ (setting_of scenario.now).slots
        → total (length list.now) (λ i. λ b. (setting_of scenario.now).produced node.0 (slice_index list.now i) b) k
        ≡ total (setting_of scenario.now).destinations ((setting_of scenario.now).produced node.0) k },
}

impl Listed<'_> {
    /// What the node has produced of the destination at a place of the list by a boundary: see `produced_near`.
    #[inline]
    fn count_near(&self, place: usize, boundary: u32, near: &mut usize) -> u64
        requires { place < length self.now.list.now }
        ensures { result ≡ (setting_of self.now.scenario.now).produced self.now.node.0
            (slice_index self.now.list.now place) boundary }
    {
        produced_near(self.scenario, self.node, self.list[place], boundary, near)
    }
}

impl Rows for Listed<'_> {
    ghost rows = { λ s. λ i. λ k. (setting_of s.scenario.now).produced s.node.0 (slice_index s.list.now i) k };

    ghost width = { λ s. length s.list.now };

    ghost end = { λ s. (setting_of s.scenario.now).slots };

    fn destinations(&self) -> u32 {
        self.list.len() as u32
    }

    fn count(&self, destination: u32, boundary: u32) -> u64 {
        produced(
            self.scenario,
            self.node,
            self.list[destination as usize],
            boundary,
        )
    }

    fn total(&self, boundary: u32) -> u64 {
        produced_total(self.scenario, self.node, boundary)
    }

    fn write_less(&self, boundary: u32, less: &[u32], into: &mut [u64]) {
        let mut near = 0;
        for place in 0..into.len() {
            let count = self.count_near(place, boundary, &mut near);
            into[place] = count - u64::from(less[place]);
        }
    }

    fn write_mixed_less(&self, slot: u32, part: u64, less: &[u32], into: &mut [u64]) {
        let mut near = 0;
        let mut near_next = 0;
        let mut rest = part;
        let mut whole = self.total(slot + 1) - self.total(slot);
        for place in 0..into.len() {
            let before = self.count_near(place, slot, &mut near);
            let entered = self.count_near(place, slot + 1, &mut near_next) - before;
            let share = share_of(rest, entered, whole);
            rest -= share;
            whole -= entered;
            into[place] = before + share - u64::from(less[place]);
        }
    }
}
