//! The links of a scenario as roads.
ghost use Rattle.std.specs.Prelude.{◌≡◌, ◌<◌, length};
ghost use Rattle.ltm_routes.specs.Roads.{AreRoads, roads_of};

use ltm_diagram::limits_in_range;
use ltm_scenario::Scenario;
use ltm_units::{LinkId, Millis};

/// What the roads of every scenario keep; the call does nothing.
#[tactic(auto, using(crate::proofs::Kept::are_roads))]
pub fn keep_roads(scenario: &Scenario)
    ensures { AreRoads (roads_of scenario.now) }
{
    limits_in_range();
    let _setup = scenario.setup();
}

/// The free-flow time of a link.
#[tactic(auto, using(crate::proofs::Kept::free_time_is))]
pub fn free_time(scenario: &Scenario, link: LinkId) -> Millis
    requires { link.0 < length scenario.now.network.links }
    ensures { result.0 ≡ (roads_of scenario.now).free_time link.0 }
{
    let _diagram = scenario.diagram(link);
    Millis(scenario.limits(link).free_ms)
}
