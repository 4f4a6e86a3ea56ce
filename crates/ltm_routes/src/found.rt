//! The routes to a destination.
ghost use Rattle.std.specs.Prelude.{◌≡◌, ◌<◌, length, All, IfOk};
ghost use Rattle.ltm_scenario.specs.Reads.{destination_node};
ghost use Rattle.ltm_routes.specs.Roads.{roads_of};
ghost use Rattle.ltm_routes.specs.Potentials.{potential_at, AreLeastTimes, IsSmall, is_tight_over};
ghost use Rattle.ltm_routes.specs.Split.{AreRoutes, AreAllRoutes, AreFlags, begins_at};
ghost use Rattle.ltm_routes.specs.Least.{routes_of};

use crate::potentials::is_tight_over;
use crate::roads::keep_roads;
use crate::search::least_times;
use ltm_scenario::Scenario;
use ltm_units::{LinkId, Millis, NoMemory, NodeId};
use std::alloc::Global;
use std::marker::Model;

/// The least free-flow time from each node to a destination, and the links with which least routes begin.
///
/// ```text
///              n2
///         a  ↗    ↘  b          with 1000 ms on a and on b and 2000 ms on c there are two least routes from n1 to n3,
///          n1  →  n3            so a and c both begin one, and traffic from n1 is shared among them in equal parts
///              c
/// ```
pub struct Routes {
    potentials: Vec<Option<Millis>>,
    begins: Vec<bool>,
}

// By hand, so that letting go of routes is one call.
impl Drop for Routes {
    fn drop(self) {
        let Routes {
            potentials: _potentials,
            begins: _begins,
        } = self;
    }
}

impl Model for Routes {
    ghost use Rattle.ltm_routes.specs.Split.{RoutesData};

    ghost Value = { RoutesData };

    ghost view = { λ r. record { potentials = r.potentials.items; begins = r.begins.items } };
}

impl Routes {
    /// The routes to a destination.
    #[tactic(auto, using(crate::proofs::There::routes_here))]
    pub fn to(alloc: Global, scenario: &Scenario, destination: u32) -> Result<Routes, NoMemory>
        requires { destination < length scenario.now.destinations }
        ensures routes { IfOk result (AreRoutes (roads_of scenario.now)
            (destination_node scenario.now destination)) }
        ensures reckoned { IfOk result (λ routes. routes ≡ routes_of scenario.now destination) }
    {
        keep_roads(scenario);
        match Routes::search(alloc, scenario, destination) {
            Ok(routes) => Ok(routes),
            Err(fault) => Err(fault),
        }
    }

    // The least times, and the links that are tight in them.
    fn search(alloc: Global, scenario: &Scenario, destination: u32) -> Result<Routes, NoMemory>
        requires { destination < length scenario.now.destinations }
        ensures { IfOk result (AreRoutes (roads_of scenario.now)
            (destination_node scenario.now destination)) }
    {
        keep_roads(scenario);
        let end = scenario.destination_node(destination);
        let potentials = least_times(alloc, scenario, end)?;
        let begins = tight_links(alloc, scenario, &potentials)?;
        Ok(Routes { potentials, begins })
    }

    /// The least time from a node, none where it has no route.
    pub fn potential(&self, node: NodeId) -> Option<Millis>
        requires { node.0 < length self.now.potentials }
        ensures { result ≡ potential_at self.now.potentials node.0 }
    {
        self.potentials[node.0 as usize]
    }

    /// Whether a least route begins with the link.
    pub fn on_route(&self, link: LinkId) -> bool
        requires { link.0 < length self.now.begins }
        ensures { result ≡ begins_at self.now link.0 }
    {
        self.begins[link.0 as usize]
    }
}

/// For each link whether it is tight.
fn tight_links(
    alloc: Global,
    scenario: &Scenario,
    potentials: &[Option<Millis>],
) -> Result<Vec<bool>, NoMemory>
    requires one_for_each { length potentials.now ≡ length scenario.now.network.nodes }
    requires small { All IsSmall potentials.now }
    ensures { IfOk result (λ flags. AreFlags (length scenario.now.network.links)
        (is_tight_over (roads_of scenario.now) potentials.now) flags.items) }
{
    let mut flags = Vec::new(alloc);
    for link in 0..scenario.network().links() {
        flags.push(is_tight_over(scenario, potentials, LinkId(link)))?;
    }
    Ok(flags)
}

/// The routes to each destination, in order.
pub fn all_routes(alloc: Global, scenario: &Scenario) -> Result<Vec<Routes>, NoMemory>
    ensures { IfOk result (λ all. AreAllRoutes scenario.now all.items) }
{
    let _setup = scenario.setup();
    let destinations = scenario.destinations().len() as u32;
    let mut all = Vec::new(alloc);
    for destination in 0..destinations {
        all.push(Routes::to(alloc, scenario, destination)?)?;
    }
    Ok(all)
}
