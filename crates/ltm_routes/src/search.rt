//! The search for least times: from the destination against the direction of the links.
ghost use Rattle.std.specs.Prelude.{◌≡◌, ◌<◌, length, All, IfOk};
ghost use Rattle.ltm_routes.specs.Roads.{roads_of};
ghost use Rattle.ltm_routes.specs.Potentials.{AreLeastTimes, IsSmall};

use crate::roads::{free_time, keep_roads};
use ltm_network::links_at_their_places;
use ltm_scenario::Scenario;
use ltm_search::{Links, Search};
use ltm_units::{LinkId, Millis, NoMemory, NodeId};
use std::alloc::Global;

/// The links of a scenario, each gone from its head to its tail in its free-flow time.
#[derive(Drop)]
struct Backward<'a> {
    scenario: &'a Scenario,
}

impl Links for Backward<'_> {
    ghost use Rattle.ltm_routes.specs.Backward.{backward, longest_by};

    ghost ways = { λ links. backward (roads_of links.scenario.now) };

    ghost bound = { λ links. longest_by };

    ghost stands = { λ links. Unit {0} };

    fn keep_ways(&self) {
        keep_roads(self.scenario);
    }

    fn leaving(&self, node: NodeId) -> &[LinkId] {
        links_at_their_places();
        self.scenario.network().in_links(node)
    }

    fn head(&self, link: LinkId) -> NodeId {
        self.scenario.network().tail(link)
    }

    fn pass(&self, link: LinkId, moment: Millis) -> Option<Millis> {
        keep_roads(self.scenario);
        Some(Millis(moment.0 + free_time(self.scenario, link).0))
    }
}

/// The least time of a route from each node to the end, none where there is no route.
pub fn least_times(
    alloc: Global,
    scenario: &Scenario,
    end: NodeId,
) -> Result<Vec<Option<Millis>>, NoMemory>
    requires { end.0 < length scenario.now.network.nodes }
    ensures least { IfOk result (λ p. AreLeastTimes (roads_of scenario.now) end.0 p.items) }
    ensures one_for_each { IfOk result (λ p. length p.items ≡ length scenario.now.network.nodes) }
    ensures small { IfOk result (λ p. All IsSmall p.items) }
{
    keep_roads(scenario);
    let mut search = Search::create(alloc, scenario.network().nodes())?;
    search.run(&Backward { scenario }, end, Millis(0))?;
    Ok(search.into_arrivals())
}
