//! All slots.
ghost use Rattle.std.specs.Prelude.{◌≡◌, ℕ, ◌+◌, ◌-◌, ◌<◌, OnOk};
ghost use Rattle.ltm_curve.specs.Counts.{Counts};
ghost use Rattle.ltm_loading.specs.Loading.{IsLoading};
ghost use Rattle.ltm_setting.specs.Setting.{setting_of};
ghost use Rattle.ltm_setting.specs.Places.{IsSlot, all_groups};
ghost use Rattle.ltm_curve.specs.TotalCurves.{HasTotals};
ghost use Rattle.ltm_lean.specs.Nodes.{AreTables, IsFrozen};
ghost use Rattle.ltm_lean.specs.Rooms.{SameRoom};
ghost use Rattle.ltm_lean_kept.specs.Kept.{AreNodes, AllStand, KeptBefore};
ghost use Rattle.ltm_lean_load.specs.Nodes.{AllMoved, HasRoomForAll};

use crate::publishing::publish;
use ltm_curve::TotalCurves;
use ltm_lean::{LeanNode, NodeRoom, Tables};
use ltm_lean_kept::keep;
use ltm_scenario::Scenario;
use ltm_setting::{is_setting, slot_count};
use ltm_units::NoMemory;

/// One slot of all nodes.
pub fn move_nodes(
    scenario: &Scenario,
    tables: &Tables,
    nodes: &mut [LeanNode],
    slot: u32,
    room: &mut NodeRoom,
) -> Result<(), NoMemory>
    requires slot { IsSlot scenario.now slot }
    requires tables { AreTables (setting_of scenario.now) tables.now }
    requires nodes { AreNodes (setting_of scenario.now) tables.now nodes.old }
    requires room { HasRoomForAll (setting_of scenario.now) tables.now room.old }
    requires frozen { (c : Counts) → IsLoading (setting_of scenario.now) c → IsFrozen (setting_of scenario.now) c slot tables.now }
    requires stands { (c : Counts) → IsLoading (setting_of scenario.now) c
        → AllStand (setting_of scenario.now) c tables.now (slot - 1) slot nodes.old }
    ensures nodes { AreNodes (setting_of scenario.now) tables.now nodes.new }
    ensures room { SameRoom room.old room.new }
    ensures stands { OnOk result ((c : Counts) → IsLoading (setting_of scenario.now) c
        → AllStand (setting_of scenario.now) c tables.now slot (slot + 1) nodes.new) }
    ensures moved { OnOk result ((c : Counts) → IsLoading (setting_of scenario.now) c
        → AllMoved (setting_of scenario.now) c tables.now slot nodes.new) }
{
    for u in 0..nodes.len() {
        nodes[u].slot(scenario, tables, slot, room)?;
    }
    Ok(())
}

/// All slots of all nodes, from an empty network on. What links and origins come to by each boundary of the loading is kept in a
/// table of totals.
pub fn all_slots(
    scenario: &Scenario,
    tables: &mut Tables,
    nodes: &mut [LeanNode],
    room: &mut NodeRoom,
    curves: &mut TotalCurves,
) -> Result<(), NoMemory>
    requires tables { AreTables (setting_of scenario.now) tables.old }
    requires nodes { AreNodes (setting_of scenario.now) tables.old nodes.old }
    requires room { HasRoomForAll (setting_of scenario.now) tables.old room.old }
    requires shape { HasTotals curves.old (all_groups scenario.now) (setting_of scenario.now).slots }
    requires frozen { (c : Counts) → IsLoading (setting_of scenario.now) c → IsFrozen (setting_of scenario.now) c 0 tables.old }
    requires stands { (c : Counts) → IsLoading (setting_of scenario.now) c → AllStand (setting_of scenario.now) c tables.old 0 0 nodes.old }
    ensures shape { HasTotals curves.new (all_groups scenario.now) (setting_of scenario.now).slots }
    ensures kept { OnOk result ((c : Counts) → IsLoading (setting_of scenario.now) c
        → KeptBefore (setting_of scenario.now) c ((setting_of scenario.now).slots + 1) curves.new) }
{
    is_setting(scenario);
    keep(scenario, tables, nodes, 0, curves);
    for slot in 0..slot_count(scenario) {
        move_nodes(scenario, tables, nodes, slot, room)?;
        publish(scenario, tables, nodes, slot);
        keep(scenario, tables, nodes, slot + 1, curves);
    }
    Ok(())
}
