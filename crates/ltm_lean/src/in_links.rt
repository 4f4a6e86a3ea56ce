//! What the links into a node send.
ghost use Rattle.std.specs.Prelude.{◌≡◌, ℕ, ◌+◌, ◌-◌, ◌*◌, ◌<◌, ◌≤◌, ◌⊎◌, List, length, slice_index, OnOk};
ghost use Rattle.ltm_curve.specs.Counts.{Counts};
ghost use Rattle.ltm_loading.specs.Flows.{link_sending};
ghost use Rattle.ltm_loading.specs.Loading.{IsLoading};
ghost use Rattle.ltm_setting.specs.Setting.{setting_of};
ghost use Rattle.ltm_setting.specs.Places.{IsLink, IsNode, IsSlot};
ghost use Rattle.ltm_standing.specs.Standing.{width_of};
ghost use Rattle.ltm_standing.specs.Listed.{Ascends, Stands};
ghost use Rattle.ltm_used.specs.Lists.{list_of};
ghost use Rattle.ltm_lean_node.specs.Places.{ArePlaces, AreApart};
ghost use Rattle.ltm_lean.specs.Ends.{SameIncoming};
ghost use Rattle.ltm_lean.specs.Nodes.{AreIncoming, AreTables, IsFrozen, LinksSend, StandAt};

use crate::incoming::Incoming;
use crate::tables::Tables;
use ltm_scenario::Scenario;
use ltm_setting::is_setting;
use ltm_units::NoMemory;

/// Writes what a link sends from a place of a row on.
fn send_at(
    scenario: &Scenario,
    tables: &Tables,
    slot: u32,
    from: usize,
    wide: usize,
    link: &mut Incoming,
    row: &mut [u64],
) -> Result<(), NoMemory>
    requires link { IsLink scenario.now link.old.link.0 }
    requires slot { IsSlot scenario.now slot }
    requires tables { AreTables (setting_of scenario.now) tables.now }
    requires wide { width_of link.old.standing ≡ length (list_of tables.now.links link.old.link.0) }
    requires apart { AreApart link.old.places.items wide }
    requires room { from + wide ≤ length row.old }
    ensures same { SameIncoming link.old link.new }
    ensures others { (x : ℕ) → (x < from) ⊎ (from + wide ≤ x) → slice_index row.new x ≡ slice_index row.old x }
    ensures sends { OnOk result ((c : Counts) (us : List ℕ) → IsLoading (setting_of scenario.now) c → IsFrozen (setting_of scenario.now) c slot tables.now
        → Stands c link.old.link.0 (list_of tables.now.links link.old.link.0) (slot - 1) slot link.old.standing
        → Ascends 0 (setting_of scenario.now).destinations us
        → ArePlaces (list_of tables.now.links link.old.link.0) us link.old.places.items → length us ≡ wide
        → (k : ℕ) → k < wide → slice_index row.new (from + k) ≡ link_sending (setting_of scenario.now) c link.old.link.0 slot (slice_index us k)) }
    ensures stands { OnOk result ((c : Counts) → IsLoading (setting_of scenario.now) c → IsFrozen (setting_of scenario.now) c slot tables.now
        → Stands c link.old.link.0 (list_of tables.now.links link.old.link.0) (slot - 1) slot link.old.standing
        → Stands c link.old.link.0 (list_of tables.now.links link.old.link.0) slot slot link.new.standing) }
{
    link.send(scenario, tables, slot, &mut row[from..from + wide])?;
    Ok(())
}

/// Takes in what entered the links into a node in the slot before, and writes what each sends in the slot, by place in the
/// node's list, link by link.
pub(crate) fn send_links(
    scenario: &Scenario,
    tables: &Tables,
    node: u32,
    slot: u32,
    wide: usize,
    ins: &mut [Incoming],
    row: &mut [u64],
) -> Result<(), NoMemory>
    requires node { IsNode scenario.now node }
    requires slot { IsSlot scenario.now slot }
    requires tables { AreTables (setting_of scenario.now) tables.now }
    requires wide { wide ≡ length (list_of tables.now.nodes node) }
    requires links { AreIncoming (setting_of scenario.now) tables.now node ins.old }
    requires room { (setting_of scenario.now).ins node * wide ≤ length row.old }
    ensures links { AreIncoming (setting_of scenario.now) tables.now node ins.new }
    ensures sends { OnOk result ((c : Counts) → IsLoading (setting_of scenario.now) c → IsFrozen (setting_of scenario.now) c slot tables.now
        → StandAt (setting_of scenario.now) c tables.now node (slot - 1) slot ins.old
        → LinksSend (setting_of scenario.now) c tables.now node slot row.new) }
    ensures stands { OnOk result ((c : Counts) → IsLoading (setting_of scenario.now) c → IsFrozen (setting_of scenario.now) c slot tables.now
        → StandAt (setting_of scenario.now) c tables.now node (slot - 1) slot ins.old
        → StandAt (setting_of scenario.now) c tables.now node slot slot ins.new) }
{
    is_setting(scenario);
    let mut from = 0;
    for i in 0..ins.len() {
        send_at(scenario, tables, slot, from, wide, &mut ins[i], row)?;
        from += wide;
    }
    Ok(())
}
