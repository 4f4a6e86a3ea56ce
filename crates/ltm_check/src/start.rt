//! The start of a loading: nothing is counted, and nothing ever leaves the origin of a node without out-links.
ghost use Rattle.std.specs.Prelude.{◌≡◌, ◌<◌, ◌≤◌, ◌↔◌, ℕ, IsTrue, All};
ghost use Rattle.ltm_curve.specs.Table.{counts_of, groups_of, destinations_of, slots_of};
ghost use Rattle.ltm_loading.specs.Loading.{OriginsWithoutOutsAreEmpty};
ghost use Rattle.ltm_setting.specs.Setting.{setting_of};
ghost use Rattle.ltm_check.specs.Verdict.{StartsRight};
ghost use Rattle.ltm_setting.specs.Places.{IsShapedFor};

use ltm_curve::Curves;
use ltm_scenario::Scenario;
use ltm_setting::{dep_of, node_count, out_links};
use ltm_units::NodeId;

/// Whether a group has counted nothing by a boundary.
fn is_empty_at(curves: &Curves, group: u32, boundary: u32) -> bool
    requires group { group < groups_of curves.now }
    requires boundary { boundary ≤ slots_of curves.now }
    ensures { IsTrue result
        ↔ ((d : ℕ) → d < destinations_of curves.now → counts_of curves.now group d boundary ≡ 0) }
{
    let row = curves.row(group, boundary);
    for destination in 0..row.len() {
        if row[destination] != 0 {
            return false;
        }
    }
    true
}

/// Whether nothing is counted at the start.
fn starts_empty(curves: &Curves) -> bool
    ensures { IsTrue result
        ↔ ((g d : ℕ) → g < groups_of curves.now → d < destinations_of curves.now
        → counts_of curves.now g d 0 ≡ 0) }
{
    for group in 0..curves.groups() {
        if !is_empty_at(curves, group, 0) {
            return false;
        }
    }
    true
}

/// Whether a group never counts anything.
fn stays_empty(curves: &Curves, group: u32) -> bool
    requires { group < groups_of curves.now }
    ensures { IsTrue result
        ↔ ((d k : ℕ) → d < destinations_of curves.now → k ≤ slots_of curves.now
        → counts_of curves.now group d k ≡ 0) }
{
    for boundary in 0..curves.slots() {
        if !is_empty_at(curves, group, boundary) {
            return false;
        }
    }
    is_empty_at(curves, group, curves.slots())
}

/// Whether nothing ever leaves the origin of a node without out-links.
fn sinks_send_nothing(scenario: &Scenario, curves: &Curves) -> bool
    requires { IsShapedFor scenario.now curves.now }
    ensures { IsTrue result
        ↔ OriginsWithoutOutsAreEmpty (setting_of scenario.now) (counts_of curves.now) }
{
    for node in 0..node_count(scenario) {
        let sends = !out_links(scenario, NodeId(node)).is_empty();
        if !sends && !stays_empty(curves, dep_of(scenario, NodeId(node))) {
            return false;
        }
    }
    true
}

/// Whether curves of a scenario's shape start as a loading does.
pub(crate) fn starts_right(scenario: &Scenario, curves: &Curves) -> bool
    requires { IsShapedFor scenario.now curves.now }
    ensures { IsTrue result ↔ StartsRight (setting_of scenario.now) (counts_of curves.now) }
{
    starts_empty(curves) && sinks_send_nothing(scenario, curves)
}
