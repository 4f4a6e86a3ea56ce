//! The totals of a boundary, put into a table.
ghost use Rattle.std.specs.Prelude.{◌≡◌, ℕ, ◌+◌, ◌*◌, ◌^◌, ◌-◌, ◌<◌, ◌≤◌, length, map, slice_index};
ghost use Rattle.ltm_curve.specs.Counts.{Counts};
ghost use Rattle.ltm_curve.specs.TotalCurves as curves_of;
ghost use Rattle.ltm_loading.specs.Loading.{IsLoading};
ghost use Rattle.ltm_setting.specs.Setting.{setting_of};
ghost use Rattle.ltm_setting.specs.Places.{IsBoundary, all_groups};
ghost use Rattle.ltm_totals.specs.Totals.{total_links, total_slots};
ghost use Rattle.ltm_units.specs.Bounds.{most_links, most_nodes};
ghost use Rattle.ltm_lean.specs.Nodes.{AreTables, IsFrozen};
ghost use Rattle.ltm_lean_kept.specs.Kept.{AreNodes, AllStand, KeptBefore, PutsLinks, PutsOrigins, departed_at};

use ltm_curve::TotalCurves;
use ltm_existence::there_is_a_loading;
use ltm_lean::{LeanNode, Tables};
use ltm_loading::{dep_behind, down_of, totals_small, up_of};
use ltm_scenario::Scenario;
use ltm_setting::{is_setting, link_count, node_count};
use ltm_units::{LinkId, NodeId};

/// Puts what had entered and left the first links by a boundary into a table.
fn put_links(tables: &Tables, links: u32, boundary: u32, curves: &mut TotalCurves)
    requires few { links ≤ most_links }
    requires entered { links ≤ total_links tables.now.entered }
    requires left { links ≤ total_links tables.now.left }
    requires by_entered { boundary ≤ total_slots tables.now.entered }
    requires by_left { boundary ≤ total_slots tables.now.left }
    requires groups { 2 * links < curves_of.total_groups curves.old }
    requires slots { boundary ≤ curves_of.total_slots curves.old }
    ensures { PutsLinks tables.now links boundary curves.old curves.new }
{
    for link in 0..links {
        let entered = tables.entered.at(link, boundary);
        let left = tables.left.at(link, boundary);
        curves.set(up_of(LinkId(link)), boundary, entered);
        curves.set(down_of(LinkId(link)), boundary, left);
    }
}

/// What has left the origin of a node.
fn departed(node: &LeanNode) -> u64
    ensures { result ≡ departed_at node.now }
{
    if node.outs.is_empty() {
        return 0;
    }
    node.left
}

/// Puts what has left the origins of nodes by a boundary into a table, behind so many links.
fn put_origins(nodes: &[LeanNode], links: u32, boundary: u32, curves: &mut TotalCurves)
    requires few { links ≤ most_links }
    requires few_nodes { length nodes.now ≤ most_nodes }
    requires small { (u : ℕ) → u < length nodes.now → slice_index (map departed_at nodes.now) u < 2 ^ 32 }
    requires groups { 2 * links + length nodes.now < curves_of.total_groups curves.old }
    requires slots { boundary ≤ curves_of.total_slots curves.old }
    ensures { PutsOrigins nodes.now links (length nodes.now) boundary curves.old curves.new }
{
    for node in 0..nodes.len() {
        let left = departed(&nodes[node]);
        curves.set(dep_behind(links, NodeId(node as u32)), boundary, left);
    }
}

/// Keeps the totals of links and origins by a boundary.
pub fn keep(
    scenario: &Scenario,
    tables: &Tables,
    nodes: &[LeanNode],
    boundary: u32,
    curves: &mut TotalCurves,
)
    requires boundary { IsBoundary scenario.now boundary }
    requires tables { AreTables (setting_of scenario.now) tables.now }
    requires nodes { AreNodes (setting_of scenario.now) tables.now nodes.now }
    requires shape { curves_of.HasTotals curves.old (all_groups scenario.now) (setting_of scenario.now).slots }
    requires frozen { (c : Counts) → IsLoading (setting_of scenario.now) c → IsFrozen (setting_of scenario.now) c boundary tables.now }
    requires left { (c : Counts) → IsLoading (setting_of scenario.now) c
        → AllStand (setting_of scenario.now) c tables.now (boundary - 1) boundary nodes.now }
    ensures shape { curves_of.HasTotals curves.new (all_groups scenario.now) (setting_of scenario.now).slots }
    ensures kept { (c : Counts) → IsLoading (setting_of scenario.now) c
        → KeptBefore (setting_of scenario.now) c boundary curves.old
        → KeptBefore (setting_of scenario.now) c (boundary + 1) curves.new }
{
    there_is_a_loading();
    totals_small();
    is_setting(scenario);
    let links = link_count(scenario);
    let _nodes = node_count(scenario);
    put_links(tables, links, boundary, curves);
    put_origins(nodes, links, boundary, curves);
}
