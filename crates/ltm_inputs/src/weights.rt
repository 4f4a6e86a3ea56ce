//! The weights of the out-links of a node.
ghost use Rattle.std.specs.Prelude.{◌≡◌, ℕ, ◌*◌, ◌≤◌, length};
ghost use Rattle.ltm_curve.specs.Counts.{Counts};
ghost use Rattle.ltm_curve.specs.First.{list_below};
ghost use Rattle.ltm_node.specs.Uncounted.{uncounted};
ghost use Rattle.ltm_loading.specs.Setting.{Setting};
ghost use Rattle.ltm_loading.specs.Uncounted.{IsUncountedPair};
ghost use Rattle.ltm_setting.specs.Setting.{setting_of};
ghost use Rattle.ltm_inputs.specs.Parts.{weights_part};
ghost use Rattle.ltm_inputs.specs.Reads.{ReadsFlows};
ghost use Rattle.ltm_setting.specs.Places.{IsNode, node_shape};

use crate::numbers::put_numbers;
use ltm_node::NodeInputs;
use ltm_scenario::Scenario;
use ltm_setting::{destination_count, is_setting, out_links, weights};
use ltm_units::Pair;

/// Writes the weights of a destination in a slot: 0 where no split row is in force.
#[inline]
fn put_weights_of(scenario: &Scenario, pair: Pair, destination: u32, into: &mut [u64])
    requires node { IsNode scenario.now pair.node.0 }
    requires room { length into.old ≡ (setting_of scenario.now).outs pair.node.0 }
    ensures { into.new ≡ list_below ((setting_of scenario.now).outs pair.node.0)
        ((setting_of scenario.now).weight pair.node.0 destination pair.slot) }
{
    match weights(scenario, pair.node, destination, pair.slot) {
        Some(weights) => put_numbers(weights.as_slice(), into),
        None => into.fill(0),
    }
}

/// Writes the weights of each destination in a slot, for so many out-links: of one destination, without a loop.
pub(crate) fn put_weights(scenario: &Scenario, pair: Pair, outs: u32, into: &mut [u64])
    requires node { IsNode scenario.now pair.node.0 }
    requires outs { outs ≡ (setting_of scenario.now).outs pair.node.0 }
    requires few { outs ≤ 4 }
    requires room { length into.old
        ≡ (setting_of scenario.now).destinations * (setting_of scenario.now).outs pair.node.0 }
    ensures { into.new ≡ weights_part (setting_of scenario.now) pair.node.0 pair.slot }
{
    let outs = outs as usize;
    let destinations = destination_count(scenario);
    if destinations == 1 {
        put_weights_of(scenario, pair, 0, into);
        return;
    }
    let mut place = 0;
    for destination in 0..destinations {
        put_weights_of(scenario, pair, destination, &mut into[place..place + outs]);
        place += outs;
    }
}

/// Writes the weights of a pair whose flows are read, as `flows_of` does. Takes no memory.
pub fn weigh(scenario: &Scenario, pair: Pair, into: &mut NodeInputs)
    requires node { IsNode scenario.now pair.node.0 }
    requires shape { into.old.shape ≡ node_shape scenario.now pair.node.0 }
    ensures inputs { (c : Counts)
        → ReadsFlows (setting_of scenario.now) c pair.node.0 pair.slot into.old
        → IsUncountedPair (setting_of scenario.now) c pair.node.0 pair.slot (uncounted into.new) }
    ensures shape { into.new.shape ≡ into.old.shape }
    ensures room { into.new.room ≡ into.old.room }
{
    is_setting(scenario);
    let shape = into.shape();
    let numbers = into.numbers_mut();
    let weights = &mut numbers[shape.weights_begin()..shape.width()];
    put_weights(scenario, pair, shape.outs, weights);
}

/// Writes weights that are told into inputs whose flows are read, as `flows_of` does. Takes no memory.
pub fn weigh_as(weights: &[u32], into: &mut NodeInputs)
    requires { length weights.now ≡ into.old.shape.destinations * into.old.shape.outs }
    ensures inputs { (s : Setting) (c : Counts) (u t : ℕ)
        → ReadsFlows s c u t into.old
        → weights.now ≡ weights_part s u t
        → IsUncountedPair s c u t (uncounted into.new) }
    ensures shape { into.new.shape ≡ into.old.shape }
    ensures room { into.new.room ≡ into.old.room }
{
    let shape = into.shape();
    let numbers = into.numbers_mut();
    put_numbers(weights, &mut numbers[shape.weights_begin()..shape.width()]);
}

/// Copies the weights of a destination in a slot: 0 where no split row is in force.
#[inline]
fn copy_weights_of(scenario: &Scenario, pair: Pair, destination: u32, into: &mut [u32])
    requires node { IsNode scenario.now pair.node.0 }
    requires room { length into.old ≡ (setting_of scenario.now).outs pair.node.0 }
    ensures { into.new ≡ list_below ((setting_of scenario.now).outs pair.node.0)
        ((setting_of scenario.now).weight pair.node.0 destination pair.slot) }
{
    match weights(scenario, pair.node, destination, pair.slot) {
        Some(weights) => into.copy_from_slice(weights.as_slice()),
        None => into.fill(0),
    }
}

/// Writes the weights of a pair, in 32 bits: those of each destination in a slot. Takes no memory.
pub fn weights_in(scenario: &Scenario, pair: Pair, into: &mut [u32])
    requires node { IsNode scenario.now pair.node.0 }
    requires room { length into.old
        ≡ (setting_of scenario.now).destinations * (setting_of scenario.now).outs pair.node.0 }
    ensures { into.new ≡ weights_part (setting_of scenario.now) pair.node.0 pair.slot }
{
    let outs = out_links(scenario, pair.node).len();
    let mut place = 0;
    for destination in 0..destination_count(scenario) {
        copy_weights_of(scenario, pair, destination, &mut into[place..place + outs]);
        place += outs;
    }
}
