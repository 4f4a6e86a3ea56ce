//! What has arrived by each boundary, from what has left the origins and is on no link.
ghost use Rattle.std.specs.Prelude.{◌≡◌, ◌≤◌, ◌<◌, ◌+◌, ◌*◌, ℕ};
ghost use Rattle.ltm_curve.specs.Totals.{most_total};
ghost use Rattle.ltm_curve.specs.TotalCurves.{total_groups, total_slots, total_at, HasTotals};
ghost use Rattle.ltm_loading.specs.LoadingTotals.{AreLoadingTotals};
ghost use Rattle.ltm_setting.specs.Setting.{setting_of};
ghost use Rattle.ltm_setting.specs.Places.{all_groups};
ghost use Rattle.ltm_flows.specs.Arrivals.{AreMovedTotals, HasArrivals, gone_through};
ghost use Rattle.ltm_units.specs.Bounds.{most_links, most_nodes, most_slots};

use crate::sums::{departed, on_links};
use ltm_curve::TotalCurves;
use ltm_loading::{adds_up, arr_behind, counts_small};
use ltm_scenario::Scenario;
use ltm_setting::{destination_count, is_setting, link_count, node_count};

/// What has left the origins of so many nodes by a boundary and is on none of so many links.
fn gone_by(curves: &TotalCurves, links: u32, nodes: u32, boundary: u32) -> u64
    requires few { links ≤ most_links }
    requires few_nodes { nodes ≤ most_nodes }
    requires groups { 2 * links + nodes ≤ total_groups curves.now }
    requires boundary { boundary ≤ total_slots curves.now }
    ensures { result ≡ gone_through (total_at curves.now) links nodes boundary }
{
    let left = departed(curves, links, nodes, boundary);
    left.saturating_sub(on_links(curves, links, boundary))
}

/// Writes what has gone through so many links and nodes by each boundary as what has arrived.
fn put_arrivals(curves: &mut TotalCurves, links: u32, nodes: u32)
    requires few { links ≤ most_links }
    requires few_nodes { nodes ≤ most_nodes }
    requires few_slots { total_slots curves.old ≤ most_slots }
    requires groups { 2 * links + nodes + 1 ≡ total_groups curves.old }
    requires small { (k : ℕ) → k ≤ total_slots curves.old → gone_through (total_at curves.old) links nodes k ≤ most_total }
    ensures { HasArrivals links nodes (total_slots curves.old + 1) curves.old curves.new }
{
    for boundary in 0..curves.slots() + 1 {
        let gone = gone_by(curves, links, nodes, boundary);
        curves.set(arr_behind(links, nodes), boundary, gone);
    }
}

/// Writes what has arrived by each boundary of the loading of a scenario, from the totals of its links and origins.
pub(crate) fn write_arrivals(scenario: &Scenario, curves: &mut TotalCurves)
    requires shape { HasTotals curves.old (all_groups scenario.now) (setting_of scenario.now).slots }
    requires moved { AreMovedTotals (setting_of scenario.now) (total_at curves.old) }
    ensures shape { HasTotals curves.new (all_groups scenario.now) (setting_of scenario.now).slots }
    ensures loading { AreLoadingTotals (setting_of scenario.now) (total_at curves.new) }
{
    adds_up();
    counts_small();
    is_setting(scenario);
    let _destinations = destination_count(scenario);
    put_arrivals(curves, link_count(scenario), node_count(scenario));
}
