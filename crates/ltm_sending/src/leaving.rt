//! The units that wait to leave a link, and at which boundary they end.
ghost use Rattle.std.specs.Prelude.{◌≡◌, ◌<◌, ◌≤◌};
ghost use Rattle.ltm_curve.specs.Counts.{Rises};
ghost use Rattle.ltm_curve.specs.First.{last_within};
ghost use Rattle.ltm_curve.specs.Table.{groups_of, destinations_of, slots_of, counts_of, total_of};
ghost use Rattle.ltm_loading.specs.Setting.{IsSetting};
ghost use Rattle.ltm_loading.specs.Flows.{position};
ghost use Rattle.ltm_setting.specs.Setting.{setting_of};
ghost use Rattle.ltm_sending.specs.MayLeave.{WaitOnLink};
ghost use Rattle.ltm_sending.specs.Fronts.{FrontAt};
ghost use Rattle.ltm_setting.specs.Places.{IsLink};

use crate::ago::total_ago;
use ltm_curve::{Curves, Kind};
use ltm_loading::{down_of, links_are_ready, up_of};
use ltm_scenario::Scenario;
use ltm_setting::{capacity, delays, is_setting, link_count, step};
use ltm_units::LinkId;

/// Units that may leave in the order in which they entered: how many ever may, a boundary by which all of these had
/// entered, and how many have left.
#[derive(Clone, Copy)]
pub(crate) struct Waiting {
    pub(crate) goal: u64,
    pub(crate) by: u32,
    pub(crate) left: u64,
}

/// Such units of a link, with the position of the slot for it: where they end is known from there.
#[derive(Clone, Copy)]
pub(crate) struct WaitingAt {
    pub(crate) goal: u64,
    pub(crate) left: u64,
    pub(crate) by: u32,
    pub(crate) at: u32,
}

/// The units that may leave a link by the end of a slot. Always in line: it is the greater part of what is read of a link.
#[inline(always)]
pub(crate) fn waiting_on<K: Kind>(
    scenario: &Scenario,
    curves: &Curves,
    link: LinkId,
    slot: u32,
) -> Waiting
    requires kind { K.fits (destinations_of curves.now) }
    requires link { IsLink scenario.now link.0 }
    requires setting { IsSetting (setting_of scenario.now) }
    requires ready { FrontAt scenario.now curves.now slot }
    ensures { WaitOnLink (setting_of scenario.now) (counts_of curves.now) link.0 slot
        (destinations_of curves.now) result.goal result.by result.left }
{
    links_are_ready();
    let capacity = capacity(scenario, link, slot);
    let _links = link_count(scenario);
    let up = up_of(link);
    let free = delays(scenario, link).free;
    let ago = total_ago::<K>(curves, up, slot, free, step(scenario));
    let left = K::total(curves, down_of(link), slot);
    let goal = ago.total.min(left + capacity);
    Waiting {
        goal,
        by: ago.by,
        left,
    }
}

/// The last boundary not above another by which a group has no more than so many units: a search down from that boundary.
#[inline]
fn last_from<K: Kind>(curves: &Curves, group: u32, units: u64, last: u32) -> u32
    requires kind { K.fits (destinations_of curves.now) }
    requires group { group < groups_of curves.now }
    requires last { last ≤ slots_of curves.now }
    ensures last { result ≡ last_within (total_of curves.now group) units last }
    ensures below { result ≤ last }
{
    let mut boundary = last;
    while boundary > 0 && K::total(curves, group, boundary) > units {
        boundary -= 1;
    }
    boundary
}

/// The last boundary not above a slot by which a group has no more than so many units, where its totals do not fall. The
/// search goes down boundary by boundary: from `by` where the next boundary has passed that number, else from the slot.
#[inline]
#[tactic(auto, using(crate::proofs::Lasts::passed_by))]
fn last_with<K: Kind>(curves: &Curves, group: u32, units: u64, by: u32, slot: u32) -> u32
    requires kind { K.fits (destinations_of curves.now) }
    requires group { group < groups_of curves.now }
    requires slot { slot ≤ slots_of curves.now }
    requires rises { Rises (total_of curves.now group) slot }
    ensures last { result ≡ last_within (total_of curves.now group) units slot }
    ensures below { result ≤ slot }
{
    if by < slot && K::total(curves, group, by + 1) > units {
        return last_from::<K>(curves, group, units, by);
    }
    last_from::<K>(curves, group, units, slot)
}

/// The position of a slot for a link, from the units that wait: the last boundary by which no more has entered the link than
/// may have left it by the slot's end. Costs a few totals, and one more for each slot that units wait to leave.
#[inline]
pub(crate) fn position_from<K: Kind>(
    scenario: &Scenario,
    curves: &Curves,
    link: LinkId,
    slot: u32,
    waiting: Waiting,
) -> u32
    requires kind { K.fits (destinations_of curves.now) }
    requires link { IsLink scenario.now link.0 }
    requires ready { FrontAt scenario.now curves.now slot }
    requires waiting { WaitOnLink (setting_of scenario.now) (counts_of curves.now) link.0 slot
        (destinations_of curves.now) waiting.goal waiting.by waiting.left }
    ensures position { result
        ≡ position (setting_of scenario.now) (counts_of curves.now) link.0 slot }
    ensures below { result ≤ slot }
{
    is_setting(scenario);
    links_are_ready();
    let _links = link_count(scenario);
    let up = up_of(link);
    last_with::<K>(curves, up, waiting.goal, waiting.by, slot)
}
