//! The node step over the destinations of a list.
ghost use Rattle.std.specs.Prelude.{◌≡◌, ℕ, ◌+◌, ◌*◌, ◌^◌, ◌<◌, ◌≤◌, length, slice_index};
ghost use Rattle.ltm_curve.specs.Counts.{Counts};
ghost use Rattle.ltm_loading.specs.Pairs.{arm_capacity};
ghost use Rattle.ltm_node.specs.Shape.{counts_begin, width, counts_width, is_this};
ghost use Rattle.ltm_setting.specs.Setting.{setting_of};
ghost use Rattle.ltm_setting.specs.Places.{IsNode, IsSlot, arms_at};
ghost use Rattle.ltm_thin.specs.NodeLists.{IsNodeList, MovesInLoading};
ghost use Rattle.ltm_units.specs.Bounds.{most_in_slot, most_destinations};
ghost use Rattle.ltm_units.specs.Sums.{sum_below};
ghost use Rattle.ltm_lean_node.specs.Rows.{listed_shape, AreSent, AreTaken, IsWritten};
ghost use Rattle.ltm_lean_node.specs.Kept.{AreWeightsOf};

use crate::row::{shape_of, write_row};
use ltm_node::{NodeInputs, NodeOutputs, NodeShape, same_shape, write_moves};
use ltm_scenario::Scenario;
use ltm_setting::is_setting;
use ltm_thin::pairs_over_lists;
use ltm_units::Pair;

/// Takes a shape and writes the row of the inputs.
fn write_inputs(
    scenario: &Scenario,
    pair: Pair,
    shape: NodeShape,
    sends: &[u64],
    takes: &[u64],
    weights: &[u32],
    inputs: &mut NodeInputs,
)
    requires node { IsNode scenario.now pair.node.0 }
    requires sends { length sends.now ≡ counts_begin shape }
    requires takes { length takes.now ≡ shape.outs }
    requires weights { length weights.now ≡ shape.destinations * shape.outs }
    requires room { width shape ≤ inputs.old.room }
    requires fits { width shape < 2 ^ 63 }
    ensures shape { inputs.new.shape ≡ shape }
    ensures width { length inputs.new.row ≡ width shape }
    ensures row { IsWritten (setting_of scenario.now) pair.node.0 pair.slot shape sends.now takes.now weights.now inputs.new.row }
    ensures room { inputs.new.room ≡ inputs.old.room }
{
    inputs.reshape(shape);
    let numbers = inputs.numbers_mut();
    let row = &mut numbers[0..shape.width()];
    write_row(scenario, pair, shape, sends, takes, weights, row);
}

/// Writes what moves at a node in a slot, of the destinations of a list: of each arm what leaves it, of each out-link what
/// enters it, and what arrives. `sends` has what each arm sends of each listed destination, arm by arm, `takes` what each
/// out-link can take, and `weights` the weights of each listed destination; `own` is the place of the node in the list, if it
/// is one of its destinations.
pub fn step_listed(
    scenario: &Scenario,
    pair: Pair,
    list: &[u32],
    own: Option<u32>,
    sends: &[u64],
    takes: &[u64],
    weights: &[u32],
    inputs: &mut NodeInputs,
    outputs: &mut NodeOutputs,
)
    requires node { IsNode scenario.now pair.node.0 }
    requires slot { IsSlot scenario.now pair.slot }
    requires few { length list.now ≤ most_destinations }
    requires below { (k : ℕ) → k < length list.now → slice_index list.now k < (setting_of scenario.now).destinations }
    requires own { (k : ℕ) → k < length list.now → is_this own k ≡ is_this ((setting_of scenario.now).own pair.node.0) (slice_index list.now k) }
    requires sends { length sends.now ≡ arms_at scenario.now pair.node.0 * length list.now }
    requires takes { length takes.now ≡ (setting_of scenario.now).outs pair.node.0 }
    requires small { (j : ℕ) → j < length takes.now → slice_index takes.now j ≤ most_in_slot }
    requires weights { AreWeightsOf (setting_of scenario.now) pair.node.0 pair.slot list.now weights.now }
    requires many { length weights.now ≡ length list.now * (setting_of scenario.now).outs pair.node.0 }
    requires fits { (i : ℕ) → i < arms_at scenario.now pair.node.0
        → sum_below (length list.now) (λ k. slice_index sends.now (i * length list.now + k))
        ≤ arm_capacity (setting_of scenario.now) pair.node.0 pair.slot i }
    requires inputs { width (listed_shape (setting_of scenario.now) pair.node.0 (length list.now) own) ≤ inputs.old.room }
    requires outputs { counts_width (listed_shape (setting_of scenario.now) pair.node.0 (length list.now) own) ≤ outputs.old.room }
    ensures shape { outputs.new.shape ≡ listed_shape (setting_of scenario.now) pair.node.0 (length list.now) own }
    ensures moves { (c : Counts) → IsNodeList (setting_of scenario.now) c pair.node.0 list.now
        → AreSent (setting_of scenario.now) c pair.node.0 pair.slot list.now sends.now
        → AreTaken (setting_of scenario.now) c pair.node.0 pair.slot takes.now
        → MovesInLoading (setting_of scenario.now) c pair.node.0 pair.slot list.now outputs.new }
    ensures inputs { inputs.new.room ≡ inputs.old.room }
    ensures outputs { outputs.new.room ≡ outputs.old.room }
{
    is_setting(scenario);
    pairs_over_lists();
    same_shape();
    let shape = shape_of(scenario, pair.node, list.len() as u32, own);
    write_inputs(scenario, pair, shape, sends, takes, weights, inputs);
    write_moves(inputs, outputs);
}
