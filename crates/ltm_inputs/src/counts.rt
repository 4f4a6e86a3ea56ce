//! What has been counted at a node by the beginning of a slot.
ghost use Rattle.std.specs.Prelude.{◌≡◌, ℕ, ◌*◌, ◌<◌, ◌≤◌, All, length, slice_index};
ghost use Rattle.ltm_curve.specs.Table.{groups_of, destinations_of, slots_of, counts_of, HasShape};
ghost use Rattle.ltm_loading.specs.Groups.{groups};
ghost use Rattle.ltm_loading.specs.NodeGroups.{group_count, node_group};
ghost use Rattle.ltm_loading.specs.Pairs.{arrived_by, grid};
ghost use Rattle.ltm_setting.specs.Setting.{setting_of};
ghost use Rattle.ltm_setting.specs.Places.{IsBoundary, IsNode, all_groups};

use crate::numbers::put_numbers;
use ltm_curve::Curves;
use ltm_loading::groups_are_set;
use ltm_scenario::Scenario;
use ltm_setting::{arr_of, destination_at, is_setting, node_groups};
use ltm_units::Pair;

/// Writes the counts of some groups at a boundary, one group after another.
#[inline]
fn put_groups(curves: &Curves, groups: &[u32], boundary: u32, into: &mut [u64])
    requires groups { All (λ group. group < groups_of curves.now) groups.now }
    requires boundary { boundary ≤ slots_of curves.now }
    requires room { length into.old ≡ length groups.now * destinations_of curves.now }
    ensures { into.new ≡ grid (length groups.now) (destinations_of curves.now)
        (λ i d. counts_of curves.now (slice_index groups.now i) d boundary) }
{
    let destinations = curves.destinations() as usize;
    let mut place = 0;
    for group in groups {
        let row = curves.row(*group, boundary);
        put_numbers(row, &mut into[place..place + destinations]);
        place += destinations;
    }
}

/// Writes what has left each arm of a node and what has entered each out-link by the beginning of a slot.
pub(crate) fn put_flows_counted(scenario: &Scenario, curves: &Curves, pair: Pair, into: &mut [u64])
    requires node { IsNode scenario.now pair.node.0 }
    requires slot { IsBoundary scenario.now pair.slot }
    requires curves { HasShape curves.now (all_groups scenario.now)
        (setting_of scenario.now).destinations (setting_of scenario.now).slots }
    requires room { length into.old
        ≡ group_count (setting_of scenario.now) pair.node.0 *
        (setting_of scenario.now).destinations }
    ensures { into.new ≡ grid (group_count (setting_of scenario.now) pair.node.0)
        (setting_of scenario.now).destinations
        (λ i d. counts_of curves.now (node_group
        (setting_of scenario.now) pair.node.0 i) d pair.slot) }
{
    is_setting(scenario);
    groups_are_set();
    let groups = node_groups(scenario, pair.node);
    put_groups(curves, groups.as_slice(), pair.slot, into);
}

/// What has arrived at a node by the beginning of a slot: 0 at a node that is no destination.
pub(crate) fn arrived(scenario: &Scenario, curves: &Curves, pair: Pair) -> u64
    requires node { IsNode scenario.now pair.node.0 }
    requires slot { IsBoundary scenario.now pair.slot }
    requires curves { HasShape curves.now (all_groups scenario.now)
        (setting_of scenario.now).destinations (setting_of scenario.now).slots }
    ensures { result ≡ arrived_by (setting_of scenario.now) (counts_of curves.now)
        ((setting_of scenario.now).own pair.node.0) pair.slot }
{
    match destination_at(scenario, pair.node) {
        Some(destination) => curves.get(arr_of(scenario), destination, pair.slot),
        None => 0,
    }
}
