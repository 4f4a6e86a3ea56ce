//! A scenario's data make a setting, so what holds of every loading holds of a scenario's.
ghost use Rattle.std.specs.Prelude.{ℕ, ◌<◌, ◌≤◌};
ghost use Rattle.ltm_units.specs.Bounds.{most_produced};
ghost use Rattle.ltm_units.specs.Sums.{sum_below};
ghost use Rattle.ltm_curve.specs.Counts.{total};
ghost use Rattle.ltm_loading.specs.Setting.{IsSetting};
ghost use Rattle.ltm_setting.specs.Setting.{setting_of};
ghost use Rattle.ltm_setting.specs.ScenarioLaw.{ScenariosAreSettings, LoadingsOfScenarios};

use ltm_demand::production_never_falls;
use ltm_diagram::limits_in_range;
use ltm_loading::{
    adds_up, conserved, first_in_first_out, left_has_entered, never_fall, one_loading, within_exit,
    within_produced, within_storage,
};
use ltm_network::links_at_their_places;
use ltm_scenario::Scenario;

/// What a loading reads of a scenario is a setting: a network with its places, times of at least a step, limits and
/// weights within their sizes, and demand that never falls. So every law of loadings holds of it.
pub fn scenarios_are_settings()
    ensures { ScenariosAreSettings }
{
    links_at_their_places();
    limits_in_range();
    production_never_falls();
}

/// What holds of a loading of a scenario: no count falls, first in first out, exit limits, storage and production are
/// kept, nothing is lost, and there is no other.
pub fn loadings_of_scenarios()
    ensures { LoadingsOfScenarios }
{
    scenarios_are_settings();
    never_fall();
    first_in_first_out();
    within_exit();
    within_storage();
    within_produced();
    conserved();
    left_has_entered();
    adds_up();
    one_loading();
}

/// The scenario makes a setting. Costs nothing when it runs.
#[inline]
pub fn is_setting(scenario: &Scenario)
    ensures setting { IsSetting (setting_of scenario.now) }
{
    scenarios_are_settings();
    let _setup = scenario.setup();
}

/// However many origins are added up, they have produced no more by a boundary than all rows of demand may say: for all
/// destinations together, and for one. Costs nothing when it runs.
#[inline]
pub fn little_is_produced(scenario: &Scenario)
    ensures all { (n k : ℕ) → sum_below n (λ u. total (setting_of scenario.now).destinations ((setting_of scenario.now).produced u) k)
        ≤ most_produced }
    ensures one { (n d k : ℕ) → d < (setting_of scenario.now).destinations
        → sum_below n (λ u. (setting_of scenario.now).produced u d k) ≤ most_produced }
{
    let _setup = scenario.setup();
}
