//! The groups of a scenario's nodes in the curves of its loadings, and how many groups there are. Those of a link are
//! `up_of` and `down_of` of `ltm_loading`.
ghost use Rattle.std.specs.Prelude.{◌≡◌, ◌≤◌};
ghost use Rattle.ltm_loading.specs.Groups.{dep_of, arr_of, groups};
ghost use Rattle.ltm_setting.specs.Setting.{setting_of};
ghost use Rattle.ltm_setting.specs.Places.{all_groups, last_group, most_groups};

use crate::readers::{link_count, node_count};
use ltm_loading::{arr_behind, dep_behind};
use ltm_scenario::Scenario;
use ltm_units::NodeId;

/// The group of what has left the origin of a node: that of the first node follows those of the links, and what has arrived
/// follows that of the last.
#[inline]
pub fn dep_of(scenario: &Scenario, node: NodeId) -> u32
    requires { node.0 ≤ (setting_of scenario.now).nodes }
    ensures group { result ≡ dep_of (setting_of scenario.now) node.0 }
    ensures small { result ≤ last_group }
{
    let _nodes = node_count(scenario);
    dep_behind(link_count(scenario), node)
}

/// The group of what has arrived.
#[inline]
pub fn arr_of(scenario: &Scenario) -> u32
    ensures group { result ≡ arr_of (setting_of scenario.now) }
    ensures small { result ≤ last_group }
{
    arr_behind(link_count(scenario), node_count(scenario))
}

/// How many groups there are.
#[inline]
pub fn group_count(scenario: &Scenario) -> u32
    ensures count { result ≡ all_groups scenario.now }
    ensures few { result ≤ most_groups }
{
    arr_of(scenario) + 1
}
