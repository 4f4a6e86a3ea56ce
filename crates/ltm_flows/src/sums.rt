//! What the totals of groups at a boundary come to in all, wherever they are kept.
ghost use Rattle.std.specs.Prelude.{◌≡◌, ◌+◌, ◌-◌, ◌*◌, ◌<◌, ◌≤◌, ℕ};
ghost use Rattle.ltm_units.specs.Sums.{sum_below};
ghost use Rattle.ltm_curve.specs.Totals.{most_total};
ghost use Rattle.ltm_loading.specs.Groups.{up_of, down_of};
ghost use Rattle.ltm_flows.specs.InAll.{AreSums};
ghost use Rattle.ltm_units.specs.Bounds.{most_links, most_nodes};

use crate::loading_totals::Totals;
use ltm_curve::{Curves, TotalCurves};
use ltm_loading::{arr_behind, dep_behind, down_of, up_of};
use ltm_units::{LinkId, NodeId, Units};

/// What tells the total of a group at a boundary: curves, or the totals that a finished loading keeps.
pub(crate) trait GroupTotals {
    ghost totals: { Self → ℕ → ℕ → ℕ };

    ghost groups: { Self → ℕ };

    ghost last: { Self → ℕ };

    /// The total of a group at a boundary.
    fn group_total(&self, group: u32, boundary: u32) -> u64
        requires group { group < groups self.now }
        requires boundary { boundary ≤ last self.now }
        ensures total { result ≡ totals self.now group boundary }
        ensures small { result ≤ most_total };
}

impl GroupTotals for Curves {
    ghost use Rattle.ltm_curve.specs.Table.{groups_of, slots_of, total_of};

    ghost totals = { total_of };

    ghost groups = { groups_of };

    ghost last = { slots_of };

    fn group_total(&self, group: u32, boundary: u32) -> u64 {
        self.total(group, boundary)
    }
}

impl GroupTotals for TotalCurves {
    ghost use Rattle.ltm_curve.specs.TotalCurves.{total_groups, total_slots, total_at};

    ghost totals = { total_at };

    ghost groups = { total_groups };

    ghost last = { total_slots };

    fn group_total(&self, group: u32, boundary: u32) -> u64 {
        self.total(group, boundary)
    }
}

/// What is on so many links at a boundary.
pub(crate) fn on_links<T: GroupTotals>(totals: &T, links: u32, boundary: u32) -> u64
    requires few { links ≤ most_links }
    requires groups { 2 * links ≤ T.groups totals.now }
    requires boundary { boundary ≤ T.last totals.now }
    ensures { result ≡ sum_below links (λ l. T.totals totals.now
        (up_of l) boundary - T.totals totals.now (down_of l) boundary) }
{
    let mut sum = 0;
    for link in 0..links {
        let entered = totals.group_total(up_of(LinkId(link)), boundary);
        let left = totals.group_total(down_of(LinkId(link)), boundary);
        sum += entered.saturating_sub(left);
    }
    sum
}

/// What has left the origins of so many nodes by a boundary.
pub(crate) fn departed<T: GroupTotals>(totals: &T, links: u32, nodes: u32, boundary: u32) -> u64
    requires few { links ≤ most_links }
    requires few_nodes { nodes ≤ most_nodes }
    requires groups { 2 * links + nodes ≤ T.groups totals.now }
    requires boundary { boundary ≤ T.last totals.now }
    ensures { result ≡ sum_below nodes (λ u. T.totals totals.now (2 * links + u) boundary) }
{
    let mut sum = 0;
    for node in 0..nodes {
        sum += totals.group_total(dep_behind(links, NodeId(node)), boundary);
    }
    sum
}

/// What the totals of the groups of so many links and nodes come to at a boundary, with what has been produced by then.
pub(crate) fn sum_up<T: GroupTotals>(
    totals: &T,
    links: u32,
    nodes: u32,
    boundary: u32,
    generated: u64,
) -> Totals
    requires few { links ≤ most_links }
    requires few_nodes { nodes ≤ most_nodes }
    requires groups { 2 * links + nodes < T.groups totals.now }
    requires boundary { boundary ≤ T.last totals.now }
    ensures { AreSums (T.totals totals.now) links nodes boundary generated result }
{
    let arrived = totals.group_total(arr_behind(links, nodes), boundary);
    let departed = departed(totals, links, nodes, boundary);
    Totals {
        generated: Units(generated),
        arrived: Units(arrived),
        on_links: Units(on_links(totals, links, boundary)),
        waiting: Units(generated.saturating_sub(departed)),
    }
}
