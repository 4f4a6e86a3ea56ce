//! Publishing a slot.
ghost use Rattle.std.specs.Prelude.{◌≡◌, ℕ, ◌+◌, ◌<◌};
ghost use Rattle.ltm_curve.specs.Counts.{Counts};
ghost use Rattle.ltm_loading.specs.Loading.{IsLoading};
ghost use Rattle.ltm_setting.specs.Setting.{setting_of};
ghost use Rattle.ltm_setting.specs.Places.{IsSlot};
ghost use Rattle.ltm_lean.specs.Nodes.{AreTables, IsFrozen};
ghost use Rattle.ltm_lean_kept.specs.Kept.{AreNodes, AllStand};
ghost use Rattle.ltm_lean_load.specs.Nodes.{AllMoved};

use crate::mails::trade_all;
use crate::passed::{add_all_entered, add_all_left};
use ltm_lean::{LeanNode, Tables};
use ltm_scenario::Scenario;
use ltm_setting::is_setting;

/// Says for all nodes what moved in a slot, once each of them has moved: what had entered and left each link by its end, and
/// what entered it in the slot.
pub fn publish(scenario: &Scenario, tables: &mut Tables, nodes: &mut [LeanNode], slot: u32)
    requires slot { IsSlot scenario.now slot }
    requires tables { AreTables (setting_of scenario.now) tables.old }
    requires nodes { AreNodes (setting_of scenario.now) tables.old nodes.old }
    ensures tables { AreTables (setting_of scenario.now) tables.new }
    ensures link_lists { tables.new.links ≡ tables.old.links }
    ensures node_lists { tables.new.nodes ≡ tables.old.nodes }
    ensures nodes { AreNodes (setting_of scenario.now) tables.new nodes.new }
    ensures frozen { (c : Counts) → IsLoading (setting_of scenario.now) c → IsFrozen (setting_of scenario.now) c slot tables.old
        → AllMoved (setting_of scenario.now) c tables.old slot nodes.old → IsFrozen (setting_of scenario.now) c (slot + 1) tables.new }
    ensures stands { (c : Counts) (k t : ℕ) → AllStand (setting_of scenario.now) c tables.old k t nodes.old
        → AllStand (setting_of scenario.now) c tables.new k t nodes.new }
{
    is_setting(scenario);
    add_all_left(scenario, &mut tables.left, nodes, slot);
    add_all_entered(scenario, &mut tables.entered, nodes, slot);
    trade_all(scenario, &mut tables.mails, nodes);
}
