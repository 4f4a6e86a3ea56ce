//! How many units may leave a link in a slot, and how many it can take.
ghost use Rattle.std.specs.Prelude.{◌≡◌, ℕ, ◌+◌, ◌<◌, ◌≤◌};
ghost use Rattle.ltm_curve.specs.Counts.{Counts, total};
ghost use Rattle.ltm_loading.specs.Groups.{up_of, down_of};
ghost use Rattle.ltm_loading.specs.Flows.{link_goal, receiving};
ghost use Rattle.ltm_setting.specs.Setting.{setting_of};
ghost use Rattle.ltm_setting.specs.Places.{IsLink, IsSlot};
ghost use Rattle.ltm_totals.specs.Totals.{total_links, total_slots, AreTotals};
ghost use Rattle.ltm_units.specs.Bounds.{most_in_slot};

use crate::totals::Totals;
use ltm_scenario::Scenario;
use ltm_setting::{capacity, delays, entry_limit, is_setting, limits, step};
use ltm_units::LinkId;

/// How many of all units that entered a link may have left it by the end of a slot, and how many have by its beginning.
#[derive(Clone, Copy)]
pub struct MayLeave {
    pub goal: u64,
    pub gone: u64,
}

/// How many units may have left a link by the end of a slot: those that entered it at least its free-flow time before, and no
/// more beyond those that have left than its capacity.
pub fn may_leave(
    scenario: &Scenario,
    entered: &Totals,
    left: &Totals,
    link: LinkId,
    slot: u32,
) -> MayLeave
    requires link { IsLink scenario.now link.0 }
    requires entered { link.0 < total_links entered.now }
    requires left { link.0 < total_links left.now }
    requires last_entered { slot ≤ total_slots entered.now }
    requires last_left { slot ≤ total_slots left.now }
    ensures few { result.goal ≤ result.gone + most_in_slot }
    ensures goal { (c : Counts) → AreTotals (setting_of scenario.now) c up_of slot entered.now → AreTotals (setting_of scenario.now) c down_of slot left.now
        → result.goal ≡ link_goal (setting_of scenario.now) c link.0 slot }
    ensures gone { (c : Counts) → AreTotals (setting_of scenario.now) c down_of slot left.now
        → result.gone ≡ total (setting_of scenario.now).destinations (c (down_of link.0)) slot }
{
    is_setting(scenario);
    let free = delays(scenario, link).free;
    let ago = entered.ago(link.0, slot, free, step(scenario));
    let gone = left.at(link.0, slot);
    let most = gone + capacity(scenario, link, slot);
    let goal = ago.min(most);
    MayLeave { goal, gone }
}

/// How many units a link can take in a slot: its capacity, its entry limit, and the room that it has had since its wave time
/// ago.
pub fn can_take(
    scenario: &Scenario,
    entered: &Totals,
    left: &Totals,
    link: LinkId,
    slot: u32,
) -> u64
    requires link { IsLink scenario.now link.0 }
    requires slot { IsSlot scenario.now slot }
    requires entered { link.0 < total_links entered.now }
    requires left { link.0 < total_links left.now }
    requires last_entered { slot ≤ total_slots entered.now }
    requires last_left { slot ≤ total_slots left.now }
    ensures small { result ≤ most_in_slot }
    ensures value { (c : Counts) → AreTotals (setting_of scenario.now) c up_of slot entered.now → AreTotals (setting_of scenario.now) c down_of slot left.now
        → result ≡ receiving (setting_of scenario.now) c link.0 slot }
{
    is_setting(scenario);
    let limits = limits(scenario, link);
    let wave = delays(scenario, link).wave;
    let ago = left.ago(link.0, slot, wave, step(scenario));
    let stands = entered.at(link.0, slot);
    let room = (ago + limits.storage).saturating_sub(stands);
    let entry = entry_limit(scenario, link, slot);
    limits.capacity_at(slot).min(entry.min(room))
}
