//! What moves at a node in a slot is added to the counts of a loading.
ghost use Rattle.std.specs.Prelude.{◌≡◌, ◌<◌, ◌+◌, ◌^◌, ℕ, length, slice_index, None};
ghost use Rattle.ltm_curve.specs.Table.{counts_of};
ghost use Rattle.ltm_node.specs.Outputs.{left_after, entered_after, arrived_after};
ghost use Rattle.ltm_loading.specs.Setting.{IsSetting};
ghost use Rattle.ltm_loading.specs.Pairs.{arm_group, arrived_by};
ghost use Rattle.ltm_loading.specs.NextPair.{Applies};
ghost use Rattle.ltm_loading.specs.Uncounted.{moved_on};
ghost use Rattle.ltm_setting.specs.Setting.{setting_of};
ghost use Rattle.ltm_flows.specs.Applying.{out_group, with_moves, SetsGroups, SetsSink};
ghost use Rattle.ltm_setting.specs.Places.{HasOut, IsBoundary, IsDestination, IsNode, IsShapedFor, IsSlot, arms_at, node_shape};

use ltm_curve::Curves;
use ltm_loading::{counts_by_place, down_of, up_of};
use ltm_node::NodeOutputs;
use ltm_scenario::Scenario;
use ltm_setting::{
    arr_of, dep_of, destination_at, in_links, is_setting, link_count, out_links, slot_count,
};
use ltm_units::{NodeId, Pair};

/// Adds what leaves each arm: each in-link, then the origin.
fn add_arms(
    scenario: &Scenario,
    curves: &mut Curves,
    node: NodeId,
    boundary: u32,
    moves: &NodeOutputs,
)
    requires setting { IsSetting (setting_of scenario.now) }
    requires node { IsNode scenario.now node.0 }
    requires boundary { IsBoundary scenario.now boundary }
    requires shape { IsShapedFor scenario.now curves.old }
    requires moves { moves.now.shape ≡ node_shape scenario.now node.0 }
    requires small { (i d : ℕ) → i < arms_at scenario.now node.0
        → IsDestination scenario.now d
        → with_moves (counts_of curves.old) boundary (arm_group (setting_of scenario.now) node.0)
        (left_after moves.now) i d < 2 ^ 31 }
    ensures shape { IsShapedFor scenario.now curves.new }
    ensures sets { SetsGroups (setting_of scenario.now) boundary
        (arms_at scenario.now node.0)
        (arm_group (setting_of scenario.now) node.0)
        (with_moves (counts_of curves.old) boundary (arm_group (setting_of scenario.now) node.0)
        (left_after moves.now))
        (counts_of curves.old) (counts_of curves.new) }
{
    let _links = link_count(scenario);
    let links = in_links(scenario, node);
    for (arm, link) in links.iter().enumerate() {
        curves.add_row(down_of(*link), boundary, moves.left_row(arm as u32));
    }
    if !out_links(scenario, node).is_empty() {
        let origin = moves.left_row(links.len() as u32);
        curves.add_row(dep_of(scenario, node), boundary, origin);
    }
}

/// Adds what enters each out-link.
fn add_outs(
    scenario: &Scenario,
    curves: &mut Curves,
    node: NodeId,
    boundary: u32,
    moves: &NodeOutputs,
)
    requires setting { IsSetting (setting_of scenario.now) }
    requires node { IsNode scenario.now node.0 }
    requires boundary { IsBoundary scenario.now boundary }
    requires shape { IsShapedFor scenario.now curves.old }
    requires moves { moves.now.shape ≡ node_shape scenario.now node.0 }
    requires small { (j d : ℕ) → HasOut scenario.now node.0 j
        → IsDestination scenario.now d
        → with_moves (counts_of curves.old) boundary (out_group (setting_of scenario.now) node.0)
        (entered_after moves.now) j d < 2 ^ 31 }
    ensures shape { IsShapedFor scenario.now curves.new }
    ensures sets { SetsGroups (setting_of scenario.now) boundary
        ((setting_of scenario.now).outs node.0)
        (out_group (setting_of scenario.now) node.0)
        (with_moves (counts_of curves.old) boundary (out_group (setting_of scenario.now) node.0)
        (entered_after moves.now))
        (counts_of curves.old) (counts_of curves.new) }
{
    let _links = link_count(scenario);
    for (out, link) in out_links(scenario, node).iter().enumerate() {
        curves.add_row(up_of(*link), boundary, moves.entered_row(out as u32));
    }
}

/// Adds what arrives at a node that is a destination.
fn add_sink(scenario: &Scenario, curves: &mut Curves, node: NodeId, boundary: u32, arrives: u64)
    requires boundary { IsBoundary scenario.now boundary }
    requires shape { IsShapedFor scenario.now curves.old }
    requires small { arrived_by (setting_of scenario.now) (counts_of curves.old)
        ((setting_of scenario.now).own node.0) boundary + arrives < 2 ^ 31 }
    requires no_sink { (setting_of scenario.now).own node.0 ≡ None → arrives ≡ 0 }
    ensures shape { IsShapedFor scenario.now curves.new }
    ensures sets { SetsSink (setting_of scenario.now) node.0 boundary
        (arrived_by (setting_of scenario.now) (counts_of curves.old)
        ((setting_of scenario.now).own node.0) boundary + arrives)
        (counts_of curves.old) (counts_of curves.new) }
{
    if let Some(destination) = destination_at(scenario, node) {
        let group = arr_of(scenario);
        let count = curves.get(group, destination, boundary) + arrives;
        curves.set(group, destination, boundary, count);
    }
}

/// Adds what moves at a node in a slot to its counts at the slot's end, and to no others. The moves are of the node's
/// shape. Takes no memory.
pub(crate) fn add_moves(scenario: &Scenario, curves: &mut Curves, pair: Pair, moves: &NodeOutputs)
    requires node { IsNode scenario.now pair.node.0 }
    requires slot { IsSlot scenario.now pair.slot }
    requires shape { IsShapedFor scenario.now curves.old }
    requires moves { moves.now.shape ≡ node_shape scenario.now pair.node.0 }
    requires small { (i : ℕ)
        → slice_index (moved_on (setting_of scenario.now) (counts_of curves.old) pair.node.0
        (pair.slot + 1) moves.now.row) i < 2 ^ 31 }
    requires no_sink { (setting_of scenario.now).own pair.node.0 ≡ None
        → arrived_after moves.now ≡ 0 }
    ensures shape { IsShapedFor scenario.now curves.new }
    ensures applies { Applies (setting_of scenario.now) pair.node.0 (pair.slot + 1)
        (moved_on (setting_of scenario.now) (counts_of curves.old) pair.node.0 (pair.slot
        + 1) moves.now.row)
        (counts_of curves.old) (counts_of curves.new) }
{
    is_setting(scenario);
    counts_by_place();
    let _slots = slot_count(scenario);
    let boundary = pair.slot + 1;
    add_arms(scenario, curves, pair.node, boundary, moves);
    add_outs(scenario, curves, pair.node, boundary, moves);
    add_sink(scenario, curves, pair.node, boundary, moves.arrived());
}
