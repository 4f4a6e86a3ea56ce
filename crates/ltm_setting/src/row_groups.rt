//! The groups that the pairs of a node set, in the order of the node's row.
ghost use Rattle.std.specs.Prelude.{◌≡◌, ◌<◌, ◌++◌, ◌∷◌, [], ◌≤◌, length};
ghost use Rattle.ltm_curve.specs.First.{list_below};
ghost use Rattle.ltm_loading.specs.NodeGroups.{node_group, node_groups};
ghost use Rattle.ltm_setting.specs.Setting.{setting_of};
ghost use Rattle.ltm_setting.specs.Places.{IsNode, arms_at};

use crate::groups::dep_of;
use crate::readers::{in_links, link_count, out_links};
use ltm_loading::{down_of, up_of};
use ltm_scenario::Scenario;
use ltm_units::NodeId;
use std::marker::Model;

/// The groups that the pairs of a node set: what has left each in-link, what has left the origin of a node with out-links,
/// and what has entered each out-link. In the row of the node's counts each has as many numbers as there are destinations,
/// one group after another (`groups_by_row` of `ltm_loading`). Contracts see the list of them.
#[derive(Drop)]
pub struct NodeGroups {
    groups: [u32; 9],
    count: usize,
}

impl Model for NodeGroups {
    ghost use Rattle.std.specs.Prelude.{◌≤◌, ℕ, List, take};

    ghost Value = { List ℕ };

    ghost view = { λ g. take g.count g.groups };

    ghost invariant = { λ g. g.count ≤ 9 };
}

impl NodeGroups {
    /// One group more.
    #[inline]
    fn push(&mut self, group: u32)
        requires { length self.old < 9 }
        ensures { self.new ≡ self.old ++ (group ∷ []) }
    {
        self.groups[self.count] = group;
        self.count += 1;
    }

    /// The groups in order.
    #[inline]
    pub fn as_slice(&self) -> &[u32]
        ensures groups { result.now ≡ self.now }
        ensures few { length self.now ≤ 9 }
    {
        &self.groups[..self.count]
    }
}

/// Adds the group of what has left each arm: each in-link, then the origin.
#[inline]
fn put_arms(scenario: &Scenario, node: NodeId, into: &mut NodeGroups)
    requires node { IsNode scenario.now node.0 }
    requires none { into.old ≡ [] }
    ensures { into.new ≡ list_below (arms_at scenario.now node.0)
        (node_group (setting_of scenario.now) node.0) }
{
    let _links = link_count(scenario);
    for link in in_links(scenario, node) {
        into.push(down_of(*link));
    }
    if !out_links(scenario, node).is_empty() {
        into.push(dep_of(scenario, node));
    }
}

/// Adds the group of what has entered each out-link.
#[inline]
fn put_outs(scenario: &Scenario, node: NodeId, into: &mut NodeGroups)
    requires node { IsNode scenario.now node.0 }
    requires arms { into.old
        ≡ list_below (arms_at scenario.now node.0)
        (node_group (setting_of scenario.now) node.0) }
    ensures { into.new ≡ node_groups (setting_of scenario.now) node.0 }
{
    let _links = link_count(scenario);
    let _ins = in_links(scenario, node);
    for link in out_links(scenario, node) {
        into.push(up_of(*link));
    }
}

/// The groups that the pairs of a node set, in the order of the node's row: at most nine. Takes no memory.
#[inline]
pub fn node_groups(scenario: &Scenario, node: NodeId) -> NodeGroups
    requires { IsNode scenario.now node.0 }
    ensures { result ≡ node_groups (setting_of scenario.now) node.0 }
{
    let mut groups = NodeGroups {
        groups: [0; 9],
        count: 0,
    };
    put_arms(scenario, node, &mut groups);
    put_outs(scenario, node, &mut groups);
    groups
}
