//! The pairs that read a boundary of a link become active.
//!
//! A tail reads what has left the link a wave time ago, and a head what has entered it a free-flow time ago: at most two
//! slots each. A head also reads where the units end that it may send. These slots are found in the index: those in the
//! lists from the last boundary by which no more units had entered than now have by the changed one, up to that one.
//!
//! ```text
//!   n1 --a--> n2, of which a slot less has entered: nothing by boundary 1
//!
//!   boundary                    0     1     2     3     4
//!   entered, before             0    500  1000  1000  1000
//!   entered by 1, now                 0
//!   slots of n2 in the lists   0, 1   2           3
//!                               |-----|                     slots 1 and 2 wake: slot 0 is over, and 3 stands at 3
//! ```
ghost use Rattle.std.specs.Prelude.{◌≡◌, ◌==◌, ◌&&◌, ◌<◌, ◌≤◌, nat_le};
ghost use Rattle.ltm_curve.specs.Table.{counts_of};
ghost use Rattle.ltm_setting.specs.Setting.{setting_of};
ghost use Rattle.ltm_frontier.specs.Frontier.{nodes_in, slots_in, is_pair, Activates};
ghost use Rattle.ltm_index.specs.Lists.{links_listed, slots_listed};
ghost use Rattle.ltm_working.specs.Desks.{place_of};
ghost use Rattle.ltm_working.specs.Waking.{wakes_tail, wakes_later, wakes_listed, wakes_head};
ghost use Rattle.ltm_setting.specs.Places.{IsBoundary, IsLink, IsShapedFor};
ghost use Rattle.ltm_working.specs.Scenarios.{HasListsOf, HasPairsOf};

use ltm_curve::Curves;
use ltm_frontier::Frontier;
use ltm_loading::up_of;
use ltm_pairs::{ReadIndex, readers_ago, slots_stand_by_entry};
use ltm_scenario::Scenario;
use ltm_setting::{delays, head, is_setting, link_count, slot_count, tail};
use ltm_units::{LinkId, NodeId, Pair};

/// Marks a pair, unless its slot is before one.
fn mark_not_before(frontier: &mut Frontier, pair: Pair, from: u32)
    requires node { pair.node.0 < nodes_in frontier.old }
    requires slot { pair.slot < slots_in frontier.old }
    ensures { Activates frontier.old frontier.new
        (λ w v. nat_le from v && is_pair pair.node.0 pair.slot w v) }
{
    if pair.slot >= from {
        frontier.mark(pair);
    }
}

/// Marks the slots of a node, from one on, that stand in the list of a link and a boundary.
fn mark_list(
    index: &ReadIndex,
    frontier: &mut Frontier,
    link: LinkId,
    boundary: u32,
    node: NodeId,
    from: u32,
)
    requires link { link.0 < links_listed index.now }
    requires boundary { boundary ≤ slots_listed index.now }
    requires node { node.0 < nodes_in frontier.old }
    requires slots { slots_listed index.now ≡ slots_in frontier.old }
    ensures { Activates frontier.old frontier.new
        (λ w v. nat_le from v && ((w == node.0) && (place_of index.now link.0 v == boundary))) }
{
    slots_stand_by_entry(index);
    let mut at = index.next_reader(link, boundary, None);
    while let Some(slot) = at {
        mark_not_before(frontier, Pair { node, slot }, from);
        at = index.next_reader(link, boundary, Some(slot));
    }
}

/// Marks the head of a link in the slots, from a boundary on, that stand in the lists from one boundary up to that one.
fn mark_listed(
    scenario: &Scenario,
    index: &ReadIndex,
    frontier: &mut Frontier,
    link: LinkId,
    low: u32,
    boundary: u32,
)
    requires link { IsLink scenario.now link.0 }
    requires low { low ≤ boundary }
    requires boundary { IsBoundary scenario.now boundary }
    requires lists { HasListsOf scenario.now index.now }
    requires pairs { HasPairsOf scenario.now frontier.old }
    ensures { Activates frontier.old frontier.new
        (wakes_listed (setting_of scenario.now) (place_of index.now) link.0 low boundary) }
{
    let node = head(scenario, link);
    for entry in low..boundary + 1 {
        mark_list(index, frontier, link, entry, node, boundary);
    }
}

/// Marks the head of a link in the slots that read a boundary a free-flow time later.
fn mark_later(scenario: &Scenario, frontier: &mut Frontier, link: LinkId, boundary: u32)
    requires link { IsLink scenario.now link.0 }
    requires pairs { HasPairsOf scenario.now frontier.old }
    ensures { Activates frontier.old frontier.new
        (wakes_later (setting_of scenario.now) link.0 boundary) }
{
    is_setting(scenario);
    let free = delays(scenario, link).free;
    let node = head(scenario, link);
    frontier.mark_range(readers_ago(node, boundary, free, slot_count(scenario)));
}

/// Marks the tail of a link in the slots that read a boundary a wave time later.
pub(crate) fn mark_tail(scenario: &Scenario, frontier: &mut Frontier, link: LinkId, boundary: u32)
    requires link { IsLink scenario.now link.0 }
    requires pairs { HasPairsOf scenario.now frontier.old }
    ensures { Activates frontier.old frontier.new
        (wakes_tail (setting_of scenario.now) link.0 boundary) }
{
    is_setting(scenario);
    let wave = delays(scenario, link).wave;
    let node = tail(scenario, link);
    frontier.mark_range(readers_ago(node, boundary, wave, slot_count(scenario)));
}

/// So many units have now entered a link by a boundary.
#[derive(Clone, Copy)]
pub(crate) struct Entered {
    pub(crate) link: LinkId,
    pub(crate) boundary: u32,
    pub(crate) units: u64,
}

/// Marks the head of a link in the slots that read a boundary, by which so many units have now entered the link.
pub(crate) fn mark_head(
    scenario: &Scenario,
    curves: &Curves,
    index: &ReadIndex,
    frontier: &mut Frontier,
    entered: Entered,
)
    requires link { IsLink scenario.now entered.link.0 }
    requires boundary { IsBoundary scenario.now entered.boundary }
    requires shape { IsShapedFor scenario.now curves.now }
    requires lists { HasListsOf scenario.now index.now }
    requires pairs { HasPairsOf scenario.now frontier.old }
    ensures { Activates frontier.old frontier.new
        (wakes_head (setting_of scenario.now) (counts_of curves.now)
        (place_of index.now) entered.link.0 entered.boundary entered.units) }
{
    let Entered {
        link,
        boundary,
        units,
    } = entered;
    let _links = link_count(scenario);
    let low = curves.position(up_of(link), units, boundary.saturating_sub(1));
    mark_later(scenario, frontier, link, boundary);
    mark_listed(scenario, index, frontier, link, low, boundary);
}
