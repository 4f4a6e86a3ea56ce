//! What the arms of a node send in a slot, with their capacities, and what its out-links can take.
ghost use Rattle.std.specs.Prelude.{◌≡◌, ℕ, ◌*◌, ◌<◌, ◌≤◌, All, length, slice_index};
ghost use Rattle.ltm_curve.specs.Table.{counts_of, destinations_of};
ghost use Rattle.ltm_loading.specs.Flows.{link_sending, position};
ghost use Rattle.ltm_loading.specs.Pairs.{grid};
ghost use Rattle.ltm_setting.specs.Setting.{setting_of};
ghost use Rattle.ltm_inputs.specs.Parts.{link_at, sending_part, supply_part, capacity_part, ArePositions};
ghost use Rattle.ltm_sending.specs.Fronts.{FrontAt};
ghost use Rattle.ltm_setting.specs.Places.{IsLink, IsNode, arms_at};

use ltm_curve::{Curves, Kind};
use ltm_scenario::Scenario;
use ltm_sending::{link_sends, link_sends_only, link_takes, origin_sends};
use ltm_setting::{capacity as link_capacity, in_links, origin_capacity, out_links};
use ltm_units::{LinkId, Pair};

/// What the numbers of pairs are read of: a scenario, and curves that are the front of its loading up to a slot.
#[derive(Clone, Copy)]
pub(crate) struct Front<'a> {
    pub(crate) scenario: &'a Scenario,
    pub(crate) curves: &'a Curves,
}

/// Writes what some links send.
#[inline]
fn put_links<K: Kind>(
    scenario: &Scenario,
    curves: &Curves,
    links: &[LinkId],
    slot: u32,
    into: &mut [u64],
)
    requires kind { K.fits (destinations_of curves.now) }
    requires ready { FrontAt scenario.now curves.now slot }
    requires links { All (λ link. IsLink scenario.now link.0) links.now }
    requires few { length links.now ≤ 4 }
    requires room { length into.old ≡ length links.now * (setting_of scenario.now).destinations }
    ensures { into.new ≡ grid (length links.now) (setting_of scenario.now).destinations
        (λ i d. link_sending (setting_of scenario.now) (counts_of curves.now)
        (link_at links.now i) slot d) }
{
    let destinations = K::destinations(curves) as usize;
    let mut place = 0;
    for link in links {
        link_sends_only::<K>(
            scenario,
            curves,
            *link,
            slot,
            &mut into[place..place + destinations],
        );
        place += destinations;
    }
}

/// Writes what each arm of a node sends in a slot, for curves of a kind.
#[inline]
pub(crate) fn put_sending<K: Kind>(
    scenario: &Scenario,
    curves: &Curves,
    pair: Pair,
    into: &mut [u64],
)
    requires kind { K.fits (destinations_of curves.now) }
    requires node { IsNode scenario.now pair.node.0 }
    requires ready { FrontAt scenario.now curves.now pair.slot }
    requires room { length into.old
        ≡ arms_at scenario.now pair.node.0 * (setting_of scenario.now).destinations }
    ensures { into.new ≡ sending_part (setting_of scenario.now)
        (counts_of curves.now) pair.node.0 pair.slot }
{
    let links = in_links(scenario, pair.node);
    let destinations = K::destinations(curves) as usize;
    let (of_links, of_origin) = into.split_at_mut(links.len() * destinations);
    put_links::<K>(scenario, curves, links, pair.slot, of_links);
    if !out_links(scenario, pair.node).is_empty() {
        origin_sends::<K>(scenario, curves, pair.node, pair.slot, of_origin);
    }
}

/// Writes what some links send, the position of the slot for each, and their capacities.
#[inline]
fn put_links_at<K: Kind>(
    front: Front,
    links: &[LinkId],
    slot: u32,
    into: &mut [u64],
    positions: &mut [u32],
    capacity: &mut [u64],
)
    requires kind { K.fits (destinations_of front.curves.now) }
    requires ready { FrontAt front.scenario.now front.curves.now slot }
    requires links { All (λ link. IsLink front.scenario.now link.0) links.now }
    requires few { length links.now ≤ 4 }
    requires room { length into.old
        ≡ length links.now * (setting_of front.scenario.now).destinations }
    requires places { length links.now ≤ length positions.old }
    requires arms { length links.now ≤ length capacity.old }
    ensures sends { into.new ≡ grid (length links.now)
        (setting_of front.entry.scenario.now).destinations
        (λ i d. link_sending (setting_of front.entry.scenario.now)
        (counts_of front.entry.curves.now)
        (link_at links.now i) slot d) }
    ensures positions { (i : ℕ) → i < length links.now
        → slice_index positions.new i
        ≡ position (setting_of front.entry.scenario.now)
        (counts_of front.entry.curves.now) (link_at links.now i) slot }
    ensures below { (i : ℕ) → i < length links.now → slice_index positions.new i ≤ slot }
    ensures capacities { (i : ℕ) → i < length links.now
        → slice_index capacity.new i
        ≡ (setting_of front.entry.scenario.now).capacity (link_at links.now i) slot }
{
    let Front { scenario, curves } = front;
    let destinations = K::destinations(curves) as usize;
    let mut place = 0;
    for (arm, link) in links.iter().enumerate() {
        let most = link_capacity(scenario, *link, slot);
        positions[arm] = link_sends::<K>(
            scenario,
            curves,
            *link,
            slot,
            &mut into[place..place + destinations],
        );
        capacity[arm] = most;
        place += destinations;
    }
}

/// Writes what each arm of a node sends in a slot, the position of the slot for each in-link, and the capacity of each arm.
#[inline]
pub(crate) fn put_arms<K: Kind>(
    front: Front,
    pair: Pair,
    outs: u32,
    into: &mut [u64],
    positions: &mut [u32],
    capacity: &mut [u64],
)
    requires kind { K.fits (destinations_of front.curves.now) }
    requires node { IsNode front.scenario.now pair.node.0 }
    requires ready { FrontAt front.scenario.now front.curves.now pair.slot }
    requires outs { outs ≡ (setting_of front.scenario.now).outs pair.node.0 }
    requires room { length into.old
        ≡ arms_at front.scenario.now pair.node.0
        * (setting_of front.scenario.now).destinations }
    requires places { (setting_of front.scenario.now).ins pair.node.0 ≤ length positions.old }
    requires arms { length capacity.old ≡ arms_at front.scenario.now pair.node.0 }
    ensures sends { into.new
        ≡ sending_part (setting_of front.entry.scenario.now)
        (counts_of front.entry.curves.now) pair.node.0 pair.slot }
    ensures positions { ArePositions (setting_of front.entry.scenario.now)
        (counts_of front.entry.curves.now) pair.node.0 pair.slot positions.new }
    ensures capacities { capacity.new ≡ capacity_part (setting_of front.entry.scenario.now)
        pair.node.0 pair.slot }
{
    let Front { scenario, curves } = front;
    let links = in_links(scenario, pair.node);
    let destinations = K::destinations(curves) as usize;
    let (of_links, rest) = into.split_at_mut(links.len() * destinations);
    put_links_at::<K>(front, links, pair.slot, of_links, positions, capacity);
    if outs != 0 {
        origin_sends::<K>(scenario, curves, pair.node, pair.slot, rest);
        capacity[links.len()] = origin_capacity(scenario);
    }
}

/// Writes what each out-link of a node can take in a slot, for curves of a kind.
#[inline]
pub(crate) fn put_supply<K: Kind>(
    scenario: &Scenario,
    curves: &Curves,
    pair: Pair,
    into: &mut [u64],
)
    requires kind { K.fits (destinations_of curves.now) }
    requires node { IsNode scenario.now pair.node.0 }
    requires ready { FrontAt scenario.now curves.now pair.slot }
    requires room { length into.old ≡ (setting_of scenario.now).outs pair.node.0 }
    ensures { into.new ≡ supply_part (setting_of scenario.now)
        (counts_of curves.now) pair.node.0 pair.slot }
{
    for (out, link) in out_links(scenario, pair.node).iter().enumerate() {
        into[out] = link_takes::<K>(scenario, curves, *link, pair.slot);
    }
}
