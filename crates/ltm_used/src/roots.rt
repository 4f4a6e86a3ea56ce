//! What origins send of what they produce.
ghost use Rattle.std.specs.Prelude.{◌≡◌, ℕ, ◌*◌, ◌<◌, List, length, IfOk, OnOk};
ghost use Rattle.ltm_setting.specs.Setting.{setting_of};
ghost use Rattle.ltm_setting.specs.Places.{IsNode};
ghost use Rattle.ltm_used.specs.Closed.{AreClosed, HasDemand};
ghost use Rattle.ltm_used.specs.Found.{size_of, Grows, GoesOn, AreRooted, AreListsOf, MarksLeads, IsClosedUnder};

use crate::closing::{close, go_on};
use crate::found::Found;
use crate::laws::found_are_closed;
use crate::leading::leads;
use ltm_scenario::Scenario;
use ltm_setting::{destination_count, is_setting, link_count, node_count, produced, slot_count};
use ltm_units::{NoMemory, NodeId};
use std::alloc::Global;

/// Finds what an origin sends of what it produces.
fn find_of(
    scenario: &Scenario,
    goes: &[u8],
    found: &mut Found,
    node: NodeId,
) -> Result<(), NoMemory>
    requires node { IsNode scenario.now node.0 }
    requires goes { length goes.now ≡ (setting_of scenario.now).links * (setting_of scenario.now).destinations }
    requires found { size_of found.old ≡ (setting_of scenario.now).links * (setting_of scenario.now).destinations }
    ensures grows { OnOk result (Grows found.old found.new) }
    ensures roots { OnOk result ((d : ℕ) → d < (setting_of scenario.now).destinations
        → HasDemand (setting_of scenario.now) node.0 d → GoesOn (setting_of scenario.now) goes.now found.new node.0 d) }
{
    let slots = slot_count(scenario);
    for destination in 0..destination_count(scenario) {
        if produced(scenario, node, destination, slots) != 0 {
            go_on(scenario, goes, found, node, destination)?;
        }
    }
    Ok(())
}

/// Finds what all origins send of what they produce.
fn find_all(scenario: &Scenario, goes: &[u8], found: &mut Found) -> Result<(), NoMemory>
    requires goes { length goes.now ≡ (setting_of scenario.now).links * (setting_of scenario.now).destinations }
    requires found { size_of found.old ≡ (setting_of scenario.now).links * (setting_of scenario.now).destinations }
    ensures grows { OnOk result (Grows found.old found.new) }
    ensures roots { OnOk result (AreRooted (setting_of scenario.now) goes.now found.new) }
{
    for node in 0..node_count(scenario) {
        find_of(scenario, goes, found, NodeId(node))?;
    }
    Ok(())
}

/// The links and destinations that some origin with demand for the destination reaches: what it sends of it is found, and
/// all that goes on from there.
pub(crate) fn reached(alloc: Global, scenario: &Scenario) -> Result<Found, NoMemory>
    ensures size { IfOk result (λ found. size_of found ≡ (setting_of scenario.now).links * (setting_of scenario.now).destinations) }
    ensures closed { IfOk result (λ found. (lists : ℕ → List ℕ) → AreListsOf (setting_of scenario.now) found lists
        → AreClosed (setting_of scenario.now) lists) }
{
    is_setting(scenario);
    found_are_closed();
    let goes = leads(alloc, scenario)?;
    let many = link_count(scenario) as usize * destination_count(scenario) as usize;
    let mut found = Found::none(alloc, many)?;
    find_all(scenario, &goes, &mut found)?;
    close(scenario, &goes, &mut found)?;
    Ok(found)
}
