//! The capacities of the arms of a node.
ghost use Rattle.std.specs.Prelude.{◌≡◌, length};
ghost use Rattle.ltm_setting.specs.Setting.{setting_of};
ghost use Rattle.ltm_inputs.specs.Parts.{capacity_part};
ghost use Rattle.ltm_setting.specs.Places.{IsNode, arms_at};

use ltm_scenario::Scenario;
use ltm_setting::{capacity, in_links, origin_capacity, out_links};
use ltm_units::Pair;

/// Writes the capacity of each arm of a node in a slot.
pub(crate) fn put_capacity(scenario: &Scenario, pair: Pair, into: &mut [u64])
    requires node { IsNode scenario.now pair.node.0 }
    requires room { length into.old ≡ arms_at scenario.now pair.node.0 }
    ensures { into.new ≡ capacity_part (setting_of scenario.now) pair.node.0 pair.slot }
{
    let links = in_links(scenario, pair.node);
    for (arm, link) in links.iter().enumerate() {
        into[arm] = capacity(scenario, *link, pair.slot);
    }
    if !out_links(scenario, pair.node).is_empty() {
        into[links.len()] = origin_capacity(scenario);
    }
}
