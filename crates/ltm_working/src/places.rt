//! Where the pairs of a node stand in the index.
ghost use Rattle.std.specs.Prelude.{◌<◌, ◌≤◌, length};
ghost use Rattle.ltm_curve.specs.Table.{counts_of};
ghost use Rattle.ltm_setting.specs.Setting.{setting_of};
ghost use Rattle.ltm_inputs.specs.Parts.{ArePositions};
ghost use Rattle.ltm_index.specs.Lists.{links_listed, slots_listed};
ghost use Rattle.ltm_working.specs.Placing.{PlacesAt, PlacesPair};
ghost use Rattle.ltm_setting.specs.Places.{IsNode, IsSlot};
ghost use Rattle.ltm_working.specs.Scenarios.{HasListsOf};

use ltm_curve::Curves;
use ltm_pairs::ReadIndex;
use ltm_scenario::Scenario;
use ltm_setting::{in_links, is_setting};
use ltm_units::{LinkId, Pair};

/// Puts a slot into the list of a boundary. Kept out of line: where a pair is read again it mostly stands there.
#[inline(never)]
fn put_at(index: &mut ReadIndex, link: LinkId, slot: u32, boundary: u32)
    requires link { link.0 < links_listed index.old }
    requires slot { slot < slots_listed index.old }
    requires boundary { boundary ≤ slots_listed index.old }
    ensures { PlacesAt index.old index.new link.0 slot boundary }
{
    index.place(link, slot, boundary);
}

/// The same, unless it stands there.
#[inline]
fn place_at(index: &mut ReadIndex, link: LinkId, slot: u32, boundary: u32)
    requires link { link.0 < links_listed index.old }
    requires slot { slot < slots_listed index.old }
    requires boundary { boundary ≤ slots_listed index.old }
    ensures { PlacesAt index.old index.new link.0 slot boundary }
{
    if !index.stands_at(link, slot, boundary) {
        put_at(index, link, slot, boundary);
    }
}

/// Puts the slot of a pair into the list of its position of each in-link, where these are its positions by the counts of
/// some curves. In most of these lists it stands already.
#[inline(always)]
pub(crate) fn place_again(
    scenario: &Scenario,
    curves: &Curves,
    pair: Pair,
    positions: &[u32],
    index: &mut ReadIndex,
)
    requires node { IsNode scenario.now pair.node.0 }
    requires slot { IsSlot scenario.now pair.slot }
    requires positions { ArePositions (setting_of scenario.now)
        (counts_of curves.now) pair.node.0 pair.slot positions.now }
    requires places { (setting_of scenario.now).ins pair.node.0 ≤ length positions.now }
    requires lists { HasListsOf scenario.now index.old }
    ensures { PlacesPair (setting_of scenario.now)
        (counts_of curves.now) index.old index.new pair.node.0 pair.slot
        ((setting_of scenario.now).ins pair.node.0) }
{
    is_setting(scenario);
    let _groups = curves.groups();
    for (place, link) in in_links(scenario, pair.node).iter().enumerate() {
        place_at(index, *link, pair.slot, positions[place]);
    }
}

/// The same, where it stands in none of them.
#[inline]
pub(crate) fn place_first(
    scenario: &Scenario,
    curves: &Curves,
    pair: Pair,
    positions: &[u32],
    index: &mut ReadIndex,
)
    requires node { IsNode scenario.now pair.node.0 }
    requires slot { IsSlot scenario.now pair.slot }
    requires positions { ArePositions (setting_of scenario.now)
        (counts_of curves.now) pair.node.0 pair.slot positions.now }
    requires places { (setting_of scenario.now).ins pair.node.0 ≤ length positions.now }
    requires lists { HasListsOf scenario.now index.old }
    ensures { PlacesPair (setting_of scenario.now)
        (counts_of curves.now) index.old index.new pair.node.0 pair.slot
        ((setting_of scenario.now).ins pair.node.0) }
{
    is_setting(scenario);
    let _groups = curves.groups();
    for (place, link) in in_links(scenario, pair.node).iter().enumerate() {
        index.place(*link, pair.slot, positions[place]);
    }
}
