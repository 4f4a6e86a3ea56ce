//! The weights of a node for listed destinations.
ghost use Rattle.std.specs.Prelude.{◌≡◌, ℕ, ◌+◌, ◌*◌, ◌<◌, ◌≤◌, ◌⊎◌, length, slice_index};
ghost use Rattle.ltm_setting.specs.Setting.{setting_of};
ghost use Rattle.ltm_setting.specs.Places.{IsNode, IsSlot};
ghost use Rattle.ltm_lean_node.specs.Rows.{WritesAt};
ghost use Rattle.ltm_lean_node.specs.Kept.{AreWeightsOf, StayUntil};

use ltm_scenario::Scenario;
use ltm_setting::{slot_count, weights, weights_stay};
use ltm_units::Pair;

/// Writes numbers from a place on.
fn put_at(numbers: &[u32], place: usize, into: &mut [u32])
    requires { place + length numbers.now ≤ length into.old }
    ensures { WritesAt place (length numbers.now) (slice_index numbers.now) into.old into.new }
{
    for j in 0..numbers.len() {
        into[place + j] = numbers[j];
    }
}

/// Writes zeros from a place on.
fn put_none_at(many: usize, place: usize, into: &mut [u32])
    requires { place + many ≤ length into.old }
    ensures { WritesAt place many (λ j. 0) into.old into.new }
{
    for j in 0..many {
        into[place + j] = 0;
    }
}

/// Writes the weights of a destination in a slot from a place on: 0 where no split row is in force.
fn put_weights_of(
    scenario: &Scenario,
    pair: Pair,
    destination: u32,
    outs: usize,
    place: usize,
    into: &mut [u32],
)
    requires node { IsNode scenario.now pair.node.0 }
    requires outs { outs ≡ (setting_of scenario.now).outs pair.node.0 }
    requires room { place + outs ≤ length into.old }
    ensures { WritesAt place outs ((setting_of scenario.now).weight pair.node.0 destination pair.slot) into.old into.new }
{
    match weights(scenario, pair.node, destination, pair.slot) {
        Some(weights) => put_at(weights.as_slice(), place, into),
        None => put_none_at(outs, place, into),
    }
}

/// Writes the weights of each destination of a list in a slot, one destination after another.
pub(crate) fn put_weights(
    scenario: &Scenario,
    pair: Pair,
    outs: usize,
    list: &[u32],
    into: &mut [u32],
)
    requires node { IsNode scenario.now pair.node.0 }
    requires outs { outs ≡ (setting_of scenario.now).outs pair.node.0 }
    requires room { length into.old ≡ length list.now * outs }
    ensures { AreWeightsOf (setting_of scenario.now) pair.node.0 pair.slot list.now into.new }
{
    let mut place = 0;
    for k in 0..list.len() {
        put_weights_of(scenario, pair, list[k], outs, place, into);
        place += outs;
    }
}

/// The slot until which the weights of all destinations of a list stay in force.
pub(crate) fn stay_until(scenario: &Scenario, pair: Pair, list: &[u32]) -> u32
    requires { IsSlot scenario.now pair.slot }
    ensures later { pair.slot < result }
    ensures stay { StayUntil (setting_of scenario.now) pair.node.0 pair.slot list.now result }
{
    let _slots = slot_count(scenario);
    let mut until = u32::MAX;
    for k in 0..list.len() {
        until = until.min(weights_stay(scenario, pair.node, list[k], pair.slot));
    }
    until
}
