//! A slot of a scenario, who is produced in it, and where they travel.
ghost use Rattle.std.specs.Prelude.{◌≡◌, ◌<◌, ◌≤◌};
ghost use Rattle.ltm_setting.specs.Setting.{setting_of};
ghost use Rattle.ltm_setting.specs.Places.{IsDestination, IsNode, IsSlot};
ghost use Rattle.ltm_gap.specs.Gaps.{produced_in};
ghost use Rattle.ltm_units.specs.Bounds.{longest_step, most_produced, most_slots};

use crate::sums::At;
use ltm_scenario::Scenario;
use ltm_setting::{produced, slot_count, step};
use ltm_units::NodeId;

/// The node that a destination is.
#[tactic(auto, unfolding(ltm_setting::specs::Setting::setting_of))]
pub(crate) fn place_of(scenario: &Scenario, destination: u32) -> NodeId
    requires { IsDestination scenario.now destination }
    ensures node { result.0 ≡ (setting_of scenario.now).place destination }
    ensures there { IsNode scenario.now result.0 }
{
    let _setup = scenario.setup();
    scenario.destination_node(destination)
}

/// A slot of a scenario, beside the step and the number of all.
pub(crate) fn at_slot(scenario: &Scenario, slot: u32) -> At
    requires { IsSlot scenario.now slot }
    ensures step { result.step.0 ≡ (setting_of scenario.now).step }
    ensures slots { result.slots ≡ (setting_of scenario.now).slots }
    ensures slot { result.slot ≡ slot }
    ensures short_step { result.step.0 ≤ longest_step }
    ensures few_slots { result.slots ≤ most_slots }
    ensures within { result.slot < result.slots }
{
    At {
        step: step(scenario),
        slots: slot_count(scenario),
        slot,
    }
}

/// What an origin produces for a destination in a slot.
pub(crate) fn units_in(scenario: &Scenario, origin: NodeId, destination: u32, slot: u32) -> u64
    requires { IsSlot scenario.now slot }
    ensures units { result ≡ produced_in (setting_of scenario.now) origin.0 destination slot }
    ensures small { result ≤ most_produced }
{
    let _slots = slot_count(scenario);
    let before = produced(scenario, origin, destination, slot);
    produced(scenario, origin, destination, slot + 1).saturating_sub(before)
}
