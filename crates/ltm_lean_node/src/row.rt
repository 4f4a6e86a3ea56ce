//! The row of a node for listed destinations, behind what its arms send.
ghost use Rattle.std.specs.Prelude.{◌≡◌, ℕ, ◌+◌, ◌*◌, ◌^◌, ◌<◌, ◌≤◌, length, slice_index};
ghost use Rattle.ltm_loading.specs.Pairs.{arm_capacity};
ghost use Rattle.ltm_node.specs.Shape.{counts_begin, width};
ghost use Rattle.ltm_setting.specs.Setting.{setting_of};
ghost use Rattle.ltm_setting.specs.Places.{IsNode, arms_at};
ghost use Rattle.ltm_lean_node.specs.Rows.{listed_shape, IsWritten};

use ltm_node::NodeShape;
use ltm_scenario::Scenario;
use ltm_setting::{by_turn, capacity, in_links, origin_capacity, out_links};
use ltm_units::{NodeId, Pair};

/// The shape of a node for so many destinations, and which of them it is.
pub(crate) fn shape_of(
    scenario: &Scenario,
    node: NodeId,
    destinations: u32,
    own: Option<u32>,
) -> NodeShape
    requires { IsNode scenario.now node.0 }
    ensures shape { result ≡ listed_shape (setting_of scenario.now) node.0 destinations own }
    ensures few_arms { result.arms ≤ 5 }
    ensures few_outs { result.outs ≤ 4 }
{
    let ins = in_links(scenario, node).len() as u32;
    let outs = out_links(scenario, node).len() as u32;
    NodeShape {
        arms: ins + 1.min(outs),
        outs,
        destinations,
        own,
        by_turn: by_turn(scenario),
    }
}

/// The capacity of an arm of a node in a slot.
fn arm_capacity_of(scenario: &Scenario, pair: Pair, arm: usize) -> u64
    requires node { IsNode scenario.now pair.node.0 }
    ensures { result ≡ arm_capacity (setting_of scenario.now) pair.node.0 pair.slot arm }
{
    let links = in_links(scenario, pair.node);
    if arm < links.len() {
        return capacity(scenario, links[arm], pair.slot);
    }
    origin_capacity(scenario)
}

/// Writes the capacity of each arm of a node in a slot.
fn put_capacities(scenario: &Scenario, pair: Pair, into: &mut [u64])
    requires node { IsNode scenario.now pair.node.0 }
    ensures { (i : ℕ) → i < length into.old → slice_index into.new i ≡ arm_capacity (setting_of scenario.now) pair.node.0 pair.slot i }
{
    for arm in 0..into.len() {
        into[arm] = arm_capacity_of(scenario, pair, arm);
    }
}

/// Writes numbers as wider ones.
fn widen(numbers: &[u32], into: &mut [u64])
    requires { length into.old ≡ length numbers.now }
    ensures { (x : ℕ) → x < length into.old → slice_index into.new x ≡ slice_index numbers.now x }
{
    for x in 0..into.len() {
        into[x] = u64::from(numbers[x]);
    }
}

/// Writes what the arms of a node send, what its out-links take, the capacities of its arms and its weights. The counts
/// between them are left as they stand.
pub(crate) fn write_row(
    scenario: &Scenario,
    pair: Pair,
    shape: NodeShape,
    sends: &[u64],
    takes: &[u64],
    weights: &[u32],
    row: &mut [u64],
)
    requires node { IsNode scenario.now pair.node.0 }
    requires sends { length sends.now ≡ counts_begin shape }
    requires takes { length takes.now ≡ shape.outs }
    requires weights { length weights.now ≡ shape.destinations * shape.outs }
    requires width { length row.old ≡ width shape }
    requires fits { width shape < 2 ^ 63 }
    ensures { IsWritten (setting_of scenario.now) pair.node.0 pair.slot shape sends.now takes.now weights.now row.new }
{
    let (front, others) = row.split_at_mut(shape.counts_begin());
    let (_counts, limits) = others.split_at_mut(shape.counts_width());
    let (supply, rest) = limits.split_at_mut(shape.outs as usize);
    let (capacities, behind) = rest.split_at_mut(shape.arms as usize);
    front.copy_from_slice(sends);
    supply.copy_from_slice(takes);
    put_capacities(scenario, pair, capacities);
    widen(weights, behind);
}
