//! What has arrived at a destination, read from the totals of a loading: what has come to its node and has not gone on.
ghost use Rattle.std.specs.Prelude.{◌≡◌, ◌≤◌, ◌*◌, ℕ};
ghost use Rattle.ltm_curve.specs.Counts.{Counts};
ghost use Rattle.ltm_curve.specs.Totals.{most_total};
ghost use Rattle.ltm_loading.specs.Groups.{arr_of};
ghost use Rattle.ltm_flows.specs.Counted.{entered_by, left_by};
ghost use Rattle.ltm_flows.specs.Shown.{ShowsCounts};
ghost use Rattle.ltm_setting.specs.Places.{HasIn, HasOut, IsBoundary, IsDestination, IsNode};
ghost use Rattle.ltm_setting.specs.Setting.{setting_of};
ghost use Rattle.ltm_gap.specs.Arrived.{read_came, read_went};
ghost use Rattle.ltm_gap.specs.Told.{Suits};

use crate::laws::came_and_stayed;
use crate::slot::place_of;
use ltm_flows::Loading;
use ltm_scenario::Scenario;
use ltm_setting::{in_links, is_setting, out_links};
use ltm_units::NodeId;

/// What has left the in-link of a node at a place by a boundary.
fn left_at(scenario: &Scenario, loading: &Loading, node: NodeId, place: usize, boundary: u32) -> u64
    requires suits { Suits (setting_of scenario.now) loading.now }
    requires node { IsNode scenario.now node.0 }
    requires place { HasIn scenario.now node.0 place }
    requires boundary { IsBoundary scenario.now boundary }
    ensures value { result ≡ left_by loading.now ((setting_of scenario.now).in_link node.0 place) boundary }
    ensures small { result ≤ most_total }
{
    let links = in_links(scenario, node);
    loading.left_by(links[place], boundary).0
}

/// What has entered the out-link of a node at a place by a boundary.
fn entered_at(
    scenario: &Scenario,
    loading: &Loading,
    node: NodeId,
    place: usize,
    boundary: u32,
) -> u64
    requires suits { Suits (setting_of scenario.now) loading.now }
    requires node { IsNode scenario.now node.0 }
    requires place { HasOut scenario.now node.0 place }
    requires boundary { IsBoundary scenario.now boundary }
    ensures value { result ≡ entered_by loading.now ((setting_of scenario.now).out_link node.0 place) boundary }
    ensures small { result ≤ most_total }
{
    let links = out_links(scenario, node);
    loading.entered_by(links[place], boundary).0
}

/// What has left the in-links of a node and its origin by a boundary.
fn came_to(scenario: &Scenario, loading: &Loading, node: NodeId, boundary: u32) -> u64
    requires suits { Suits (setting_of scenario.now) loading.now }
    requires node { IsNode scenario.now node.0 }
    requires boundary { IsBoundary scenario.now boundary }
    ensures { result ≡ read_came (setting_of scenario.now) loading.now node.0 boundary }
{
    let mut sum = 0;
    for place in 0..in_links(scenario, node).len() {
        sum += left_at(scenario, loading, node, place, boundary);
    }
    sum + loading.departed(node, boundary).0
}

/// What has entered the out-links of a node by a boundary.
fn went_on(scenario: &Scenario, loading: &Loading, node: NodeId, boundary: u32) -> u64
    requires suits { Suits (setting_of scenario.now) loading.now }
    requires node { IsNode scenario.now node.0 }
    requires boundary { IsBoundary scenario.now boundary }
    ensures { result ≡ read_went (setting_of scenario.now) loading.now node.0 boundary }
{
    let mut sum = 0;
    for place in 0..out_links(scenario, node).len() {
        sum += entered_at(scenario, loading, node, place, boundary);
    }
    sum
}

/// What has arrived at a destination by a boundary.
pub(crate) fn arrived_at(
    scenario: &Scenario,
    loading: &Loading,
    destination: u32,
    boundary: u32,
) -> u64
    requires suits { Suits (setting_of scenario.now) loading.now }
    requires destination { IsDestination scenario.now destination }
    requires boundary { IsBoundary scenario.now boundary }
    ensures { (version : ℕ) (c : Counts) → ShowsCounts (setting_of scenario.now) version c loading.now
        → result ≡ c (arr_of (setting_of scenario.now)) destination boundary }
{
    came_and_stayed();
    is_setting(scenario);
    let node = place_of(scenario, destination);
    let came = came_to(scenario, loading, node, boundary);
    came.saturating_sub(went_on(scenario, loading, node, boundary))
}
