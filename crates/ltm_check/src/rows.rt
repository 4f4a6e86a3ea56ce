//! Whether the counts of a node grow in a slot by what moves.
ghost use Rattle.std.specs.Prelude.{◌≡◌, ◌<◌, ◌+◌, ◌↔◌, ℕ, IsTrue, IfSome, length, option_map, slice_index};
ghost use Rattle.ltm_curve.specs.Table.{counts_of, groups_of, destinations_of, slots_of};
ghost use Rattle.ltm_loading.specs.NodeGroups.{group_count, node_group};
ghost use Rattle.ltm_loading.specs.Pairs.{arrived_by};
ghost use Rattle.ltm_setting.specs.Setting.{setting_of};
ghost use Rattle.ltm_check.specs.Moves.{moving, arrives, GrowBy};
ghost use Rattle.ltm_setting.specs.Places.{IsDestination, IsNode, IsShapedFor, IsSlot, node_shape};

use ltm_curve::Curves;
use ltm_loading::groups_are_set;
use ltm_node::NodeOutputs;
use ltm_scenario::Scenario;
use ltm_setting::{arr_of, destination_at, is_setting, node_groups};
use ltm_units::Pair;

/// Whether a count has grown by as much as moves.
#[inline]
fn grows_by(before: u64, after: u64, moves: u64) -> bool
    ensures { IsTrue result ↔ after ≡ before + moves }
{
    after >= before && after - before == moves
}

/// Whether all counts of a row have grown by as much as moves.
fn grow_by(before: &[u32], after: &[u32], moves: &[u64]) -> bool
    requires after { length after.now ≡ length before.now }
    requires moves { length moves.now ≡ length before.now }
    ensures { IsTrue result ↔ ((d : ℕ) → d < length before.now
        → slice_index after.now d ≡ slice_index before.now d + slice_index moves.now d) }
{
    for destination in 0..before.len() {
        let (from, to) = (before[destination], after[destination]);
        if !grows_by(u64::from(from), u64::from(to), moves[destination]) {
            return false;
        }
    }
    true
}

/// Whether all counts of a row have stayed.
fn stay(before: &[u32], after: &[u32]) -> bool
    requires { length after.now ≡ length before.now }
    ensures { IsTrue result
        ↔ ((d : ℕ) → d < length before.now → slice_index after.now d ≡ slice_index before.now d) }
{
    for destination in 0..before.len() {
        if before[destination] != after[destination] {
            return false;
        }
    }
    true
}

/// Whether the counts of a group grow in a slot by what moves.
fn group_grows(curves: &Curves, group: u32, slot: u32, moves: &[u64]) -> bool
    requires group { group < groups_of curves.now }
    requires slot { slot < slots_of curves.now }
    requires moves { length moves.now ≡ destinations_of curves.now }
    ensures { IsTrue result ↔ ((d : ℕ) → d < destinations_of curves.now
        → counts_of curves.now group d (slot + 1)
        ≡ counts_of curves.now group d slot + slice_index moves.now d) }
{
    let _slots = curves.slots();
    let before = curves.row(group, slot);
    grow_by(before, curves.row(group, slot + 1), moves)
}

/// Whether the counts of a group stay in a slot.
fn group_stays(curves: &Curves, group: u32, slot: u32) -> bool
    requires group { group < groups_of curves.now }
    requires slot { slot < slots_of curves.now }
    ensures { IsTrue result ↔ ((d : ℕ) → d < destinations_of curves.now
        → counts_of curves.now group d (slot + 1) ≡ counts_of curves.now group d slot) }
{
    let _slots = curves.slots();
    let before = curves.row(group, slot);
    stay(before, curves.row(group, slot + 1))
}

/// Whether a group of a node counts in a slot what moves, by its place in the node's row.
fn has_moved(
    curves: &Curves,
    group: u32,
    slot: u32,
    moves: Option<&NodeOutputs>,
    place: u32,
) -> bool
    requires group { group < groups_of curves.now }
    requires slot { slot < slots_of curves.now }
    requires place { IfSome moves (λ m. place < m.now.shape.arms + m.now.shape.outs) }
    requires destinations { IfSome moves (λ m. m.now.shape.destinations
        ≡ destinations_of curves.now) }
    ensures { IsTrue result ↔ ((d : ℕ) → d < destinations_of curves.now
        → counts_of curves.now group d (slot + 1)
        ≡ counts_of curves.now group d slot
        + moving (destinations_of curves.now) (option_map (λ m. m.now) moves.entry) place d) }
{
    match moves {
        Some(moves) => group_grows(curves, group, slot, moves.group_row(place)),
        None => group_stays(curves, group, slot),
    }
}

/// Whether all groups of a node count in a slot what moves.
fn groups_grow(
    scenario: &Scenario,
    curves: &Curves,
    pair: Pair,
    moves: Option<&NodeOutputs>,
) -> bool
    requires node { IsNode scenario.now pair.node.0 }
    requires slot { IsSlot scenario.now pair.slot }
    requires shape { IsShapedFor scenario.now curves.now }
    requires moves { IfSome moves (λ m. m.now.shape
        ≡ node_shape scenario.now pair.node.0) }
    ensures { IsTrue result
        ↔ ((i d : ℕ) → i < group_count (setting_of scenario.now) pair.node.0
        → IsDestination scenario.now d
        → counts_of curves.now (node_group (setting_of scenario.now) pair.node.0 i) d
        (pair.slot + 1)
        ≡ counts_of curves.now (node_group (setting_of scenario.now) pair.node.0 i) d pair.slot
        + moving (setting_of scenario.now).destinations (option_map (λ m. m.now) moves.entry) i d) }
{
    is_setting(scenario);
    groups_are_set();
    let groups = node_groups(scenario, pair.node);
    for (place, group) in groups.as_slice().iter().enumerate() {
        if !has_moved(curves, *group, pair.slot, moves, place as u32) {
            return false;
        }
    }
    true
}

/// How much arrives.
fn arriving(moves: Option<&NodeOutputs>) -> u64
    ensures { result ≡ arrives (option_map (λ m. m.now) moves.entry) }
{
    match moves {
        Some(moves) => moves.arrived(),
        None => 0,
    }
}

/// Whether the sinks count in a slot what arrives at a node; at one that is no destination nothing arrives.
fn has_arrived(
    scenario: &Scenario,
    curves: &Curves,
    pair: Pair,
    moves: Option<&NodeOutputs>,
) -> bool
    requires slot { IsSlot scenario.now pair.slot }
    requires shape { IsShapedFor scenario.now curves.now }
    ensures { IsTrue result
        ↔ (arrived_by (setting_of scenario.now) (counts_of curves.now)
        ((setting_of scenario.now).own pair.node.0) (pair.slot + 1)
        ≡ arrived_by (setting_of scenario.now) (counts_of curves.now)
        ((setting_of scenario.now).own pair.node.0) pair.slot
        + arrives (option_map (λ m. m.now) moves.entry)) }
{
    match destination_at(scenario, pair.node) {
        None => arriving(moves) == 0,
        Some(destination) => {
            let _slots = curves.slots();
            let group = arr_of(scenario);
            let before = curves.get(group, destination, pair.slot);
            let after = curves.get(group, destination, pair.slot + 1);
            grows_by(before, after, arriving(moves))
        }
    }
}

/// Whether the counts of a node grow in a slot by what moves; where no moves are handed in, nothing does.
pub(crate) fn node_grows(
    scenario: &Scenario,
    curves: &Curves,
    pair: Pair,
    moves: Option<&NodeOutputs>,
) -> bool
    requires node { IsNode scenario.now pair.node.0 }
    requires slot { IsSlot scenario.now pair.slot }
    requires shape { IsShapedFor scenario.now curves.now }
    requires moves { IfSome moves (λ m. m.now.shape
        ≡ node_shape scenario.now pair.node.0) }
    ensures { IsTrue result
        ↔ GrowBy (setting_of scenario.now) (counts_of curves.now) pair.node.0 pair.slot
        (option_map (λ m. m.now) moves.entry) }
{
    groups_grow(scenario, curves, pair, moves) && has_arrived(scenario, curves, pair, moves)
}
