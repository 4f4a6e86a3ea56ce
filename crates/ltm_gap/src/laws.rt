//! What holds of earliest arrivals, of late units and of what is spent.
ghost use Rattle.ltm_setting.specs.Setting.{setting_of};
ghost use Rattle.ltm_gap.specs.Arrived.{CameAndStayed};
ghost use Rattle.ltm_gap.specs.Laws.{EarliestIsFirst, NobodyComesBefore, ArriveInOrder, LateIsExact, SlotsMeet, SpentAddsUp};
ghost use Rattle.ltm_gap.specs.Leaving.{end_of};
ghost use Rattle.ltm_gap.specs.Told.{Suits};
ghost use Rattle.ltm_gap.specs.Steps.{ways_of};
ghost use Rattle.ltm_search.specs.Ways.{AreWays};

use ltm_flows::Loading;
use ltm_loading::{conserved, never_fall, within_produced};
use ltm_scenario::Scenario;
use ltm_setting::is_setting;

/// An earliest arrival is that of a route, and none comes before by any route.
pub fn earliest_is_first()
    ensures { EarliestIsFirst }
{
    never_fall();
}

/// No unit that sets out from an origin could have arrived before, by any route, at the link times of this loading.
pub fn nobody_comes_before()
    ensures { NobodyComesBefore }
{
    earliest_is_first();
}

/// Where a unit of a slot can arrive, each unit before it can, and no later.
pub fn arrive_in_order()
    ensures { ArriveInOrder }
{
    earliest_is_first();
    nobody_comes_before();
    never_fall();
}

/// Of the units of a slot exactly those that are counted as arriving can arrive by the end; the others are late.
pub fn late_is_exact()
    ensures { LateIsExact }
{
    arrive_in_order();
}

/// The last unit of a slot is the one that is produced at the boundary behind it.
pub(crate) fn slots_meet()
    ensures { SlotsMeet }
{
    within_produced();
}

/// What all spend is what those to each destination spend.
pub fn spent_adds_up()
    ensures { SpentAddsUp }
{
    within_produced();
    conserved();
}

/// What has come to the node of a destination has gone on or has arrived there.
pub fn came_and_stayed()
    ensures { CameAndStayed }
{}

/// Who passes a link comes later, by the end, and who comes to it later leaves it no sooner. Costs nothing when it runs.
pub(crate) fn are_ways(scenario: &Scenario, loading: &Loading)
    requires { Suits (setting_of scenario.now) loading.now }
    ensures { AreWays (ways_of scenario.now loading.now) (λ n. end_of (setting_of scenario.now)) }
{
    is_setting(scenario);
    let _curves = loading.curves();
}
