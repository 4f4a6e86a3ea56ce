//! The counts of a node are written into the curves of a loading.
ghost use Rattle.std.specs.Prelude.{◌≡◌, ◌<◌, ◌+◌, ◌^◌, ℕ, slice_index, None};
ghost use Rattle.ltm_curve.specs.Table.{counts_of};
ghost use Rattle.ltm_node.specs.Outputs.{arrived_after};
ghost use Rattle.ltm_loading.specs.NextPair.{Applies};
ghost use Rattle.ltm_loading.specs.NodeGroups.{group_count, node_group};
ghost use Rattle.ltm_setting.specs.Setting.{setting_of};
ghost use Rattle.ltm_flows.specs.Applying.{in_row, SetsGroups, SetsSink};
ghost use Rattle.ltm_setting.specs.Places.{IsBoundary, IsNode, IsShapedFor, IsSlot, node_shape};

use ltm_curve::Curves;
use ltm_loading::{groups_are_set, groups_by_row};
use ltm_node::NodeOutputs;
use ltm_scenario::Scenario;
use ltm_setting::{arr_of, destination_at, is_setting, node_groups, slot_count};
use ltm_units::{NodeId, Pair};

/// Writes the counts of each group of a node.
fn write_groups(
    scenario: &Scenario,
    curves: &mut Curves,
    node: NodeId,
    boundary: u32,
    outputs: &NodeOutputs,
)
    requires node { IsNode scenario.now node.0 }
    requires boundary { IsBoundary scenario.now boundary }
    requires shape { IsShapedFor scenario.now curves.old }
    requires outputs { outputs.now.shape ≡ node_shape scenario.now node.0 }
    requires small { (i : ℕ) → slice_index outputs.now.row i < 2 ^ 31 }
    ensures shape { IsShapedFor scenario.now curves.new }
    ensures sets { SetsGroups (setting_of scenario.now) boundary
        (group_count (setting_of scenario.now) node.0)
        (node_group (setting_of scenario.now) node.0)
        (in_row (setting_of scenario.now) outputs.now.row)
        (counts_of curves.old) (counts_of curves.new) }
{
    is_setting(scenario);
    groups_are_set();
    let groups = node_groups(scenario, node);
    for (place, group) in groups.as_slice().iter().enumerate() {
        curves.set_row(*group, boundary, outputs.group_row(place as u32));
    }
}

/// Writes what has arrived at a node that is a destination.
fn write_sink(scenario: &Scenario, curves: &mut Curves, node: NodeId, boundary: u32, arrived: u64)
    requires boundary { IsBoundary scenario.now boundary }
    requires shape { IsShapedFor scenario.now curves.old }
    requires small { arrived < 2 ^ 31 }
    requires no_sink { (setting_of scenario.now).own node.0 ≡ None → arrived ≡ 0 }
    ensures shape { IsShapedFor scenario.now curves.new }
    ensures sets { SetsSink (setting_of scenario.now) node.0 boundary arrived (counts_of curves.old)
        (counts_of curves.new) }
{
    if let Some(destination) = destination_at(scenario, node) {
        let group = arr_of(scenario);
        curves.set(group, destination, boundary, arrived);
    }
}

/// Writes the counts of a node at the end of a slot, and no others. The outputs are of the node's shape. Takes no memory.
pub fn apply(scenario: &Scenario, curves: &mut Curves, pair: Pair, outputs: &NodeOutputs)
    requires node { IsNode scenario.now pair.node.0 }
    requires slot { IsSlot scenario.now pair.slot }
    requires shape { IsShapedFor scenario.now curves.old }
    requires outputs { outputs.now.shape ≡ node_shape scenario.now pair.node.0 }
    requires small { (i : ℕ) → slice_index outputs.now.row i < 2 ^ 31 }
    requires no_sink { (setting_of scenario.now).own pair.node.0 ≡ None
        → arrived_after outputs.now ≡ 0 }
    ensures shape { IsShapedFor scenario.now curves.new }
    ensures applies { Applies (setting_of scenario.now) pair.node.0 (pair.slot + 1) outputs.now.row
        (counts_of curves.old) (counts_of curves.new) }
{
    is_setting(scenario);
    groups_by_row();
    groups_are_set();
    let _slots = slot_count(scenario);
    let _shape = outputs.shape();
    let boundary = pair.slot + 1;
    write_groups(scenario, curves, pair.node, boundary, outputs);
    write_sink(scenario, curves, pair.node, boundary, outputs.arrived());
}
