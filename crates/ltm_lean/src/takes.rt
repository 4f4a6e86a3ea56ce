//! What the links out of a node can take.
ghost use Rattle.std.specs.Prelude.{◌≡◌, ℕ, ◌<◌, ◌≤◌, length, slice_index};
ghost use Rattle.ltm_curve.specs.Counts.{Counts};
ghost use Rattle.ltm_setting.specs.Setting.{setting_of};
ghost use Rattle.ltm_setting.specs.Places.{IsNode, IsSlot};
ghost use Rattle.ltm_units.specs.Bounds.{most_in_slot};
ghost use Rattle.ltm_lean_node.specs.Rows.{AreTaken};
ghost use Rattle.ltm_lean.specs.Nodes.{AreOutgoing, AreTables, IsFrozen};

use crate::outgoing::Outgoing;
use crate::tables::Tables;
use ltm_scenario::Scenario;
use ltm_setting::is_setting;
use ltm_totals::can_take;

/// Writes what each link out of a node can take in a slot.
pub(crate) fn put_takes(
    scenario: &Scenario,
    tables: &Tables,
    node: u32,
    slot: u32,
    outs: &[Outgoing],
    into: &mut [u64],
)
    requires node { IsNode scenario.now node }
    requires slot { IsSlot scenario.now slot }
    requires tables { AreTables (setting_of scenario.now) tables.now }
    requires outs { AreOutgoing (setting_of scenario.now) tables.now node outs.now }
    requires room { length into.old ≡ length outs.now }
    ensures small { (j : ℕ) → j < length into.old → slice_index into.new j ≤ most_in_slot }
    ensures taken { (c : Counts) → IsFrozen (setting_of scenario.now) c slot tables.now
        → AreTaken (setting_of scenario.now) c node slot into.new }
{
    is_setting(scenario);
    for j in 0..outs.len() {
        into[j] = can_take(scenario, &tables.entered, &tables.left, outs[j].link, slot);
    }
}
