//! The split rows that send traffic along least routes.
ghost use Rattle.std.specs.Prelude.{◌≡◌, ◌≢◌, ◌<◌, ◌≤◌, [], length, Ok, Err, IfOk, OnOk};
ghost use Rattle.ltm_splits.specs.declared.keys.SplitFault.TheVariants as refusal;
ghost use Rattle.ltm_scenario.specs.Reads.{destination_node, has_split};
ghost use Rattle.ltm_routes.specs.Roads.{roads_of};
ghost use Rattle.ltm_routes.specs.Split.{AreRoutes, AreAllRoutes, weight_of, route_split, is_routed, route_splits, with_splits, KeepsRest};
ghost use Rattle.ltm_routes.specs.Least.{routes_of};
ghost use Rattle.ltm_routes.specs.Missing.{is_missing, missing_from, missing_to, with_routes};
ghost use Rattle.ltm_routes.specs.Setting.{HasSet, AreTooMany};

use crate::faults::RoutesFault;
use crate::found::Routes;
use crate::roads::keep_roads;
use ltm_network::links_at_their_places;
use ltm_scenario::Scenario;
use ltm_splits::SplitFault;
use ltm_units::{LinkId, NoMemory, NodeId};
use std::alloc::Global;

/// The weight of a link: 1 where a least route begins with it.
fn weight_of(routes: &Routes, link: LinkId) -> u32
    requires { link.0 < length routes.now.begins }
    ensures { result ≡ weight_of routes.now link.0 }
{
    if routes.on_route(link) { 1 } else { 0 }
}

/// A weight for each out-link of a node, in order of link number.
fn route_split(
    alloc: Global,
    scenario: &Scenario,
    routes: &Routes,
    node: NodeId,
) -> Result<Vec<u32>, NoMemory>
    requires node { node.0 < length scenario.now.network.nodes }
    requires flag_for_each { length routes.now.begins ≡ length scenario.now.network.links }
    ensures { IfOk result (λ weights. weights.items ≡ route_split scenario.now routes.now node.0) }
{
    let links = scenario.network().out_links(node);
    let mut weights = Vec::new(alloc);
    'each: for link in links {
        weights.push(weight_of(routes, *link))?;
    }
    Ok(weights)
}

/// Whether a node has a row: it is not the destination, and has a route.
pub fn is_routed(scenario: &Scenario, destination: u32, routes: &Routes, node: NodeId) -> bool
    requires destination { destination < length scenario.now.destinations }
    requires node { node.0 < length routes.now.potentials }
    ensures { result ≡ is_routed scenario.now destination routes.now node.0 }
{
    node.0 != scenario.destination_node(destination).0 && routes.potential(node).is_some()
}

/// Whether a node has a row for a destination in any slot.
#[tactic(auto, using(crate::proofs::Has::begins_tells))]
fn has_row(scenario: &Scenario, destination: u32, node: NodeId) -> bool
    ensures { result ≡ has_split scenario.now.splits node.0 destination }
{
    scenario.splits().begins(node, destination).is_some()
}

/// Whether a node has a route and no row.
fn is_missing(scenario: &Scenario, destination: u32, routes: &Routes, node: NodeId) -> bool
    requires destination { destination < length scenario.now.destinations }
    requires node { node.0 < length routes.now.potentials }
    ensures { result ≡ is_missing scenario.now destination routes.now node.0 }
{
    !has_row(scenario, destination, node) && is_routed(scenario, destination, routes, node)
}

/// A row of least routes is refused only where memory is wanting, or where it would be one too many.
fn fault_of(fault: SplitFault) -> RoutesFault
    ensures { result ≡ RoutesFault.TooManyRows → fault ≢ SplitFault.NoMemory }
{
    match fault {
        SplitFault::NoMemory => RoutesFault::NoMemory,
        SplitFault::BadSlots => RoutesFault::TooManyRows,
        SplitFault::ZeroWeight => RoutesFault::TooManyRows,
        SplitFault::TooManyRows => RoutesFault::TooManyRows,
    }
}

/// Sets the row of a node, where it lacks one.
fn set_row(
    alloc: Global,
    scenario: &mut Scenario,
    destination: u32,
    routes: &Routes,
    node: NodeId,
) -> Result<(), RoutesFault>
    requires destination { destination < length scenario.old.destinations }
    requires node { node.0 < length scenario.old.network.nodes }
    requires routes { AreRoutes (roads_of scenario.old)
        (destination_node scenario.old destination) routes.now }
    ensures ok { OnOk result (HasSet scenario.old
        (missing_from scenario.old destination routes.now node.0) scenario.new) }
    ensures too_many { result ≡ Err RoutesFault.TooManyRows
        → AreTooMany scenario.old (missing_from scenario.old destination routes.now node.0) }
{
    keep_roads(scenario);
    links_at_their_places();
    let _setup = scenario.setup();
    if !is_missing(scenario, destination, routes, node) {
        return Ok(());
    }
    let weights = route_split(alloc, scenario, routes, node)?;
    match scenario.set_split(node, destination, 0, &weights) {
        Ok(()) => return Ok(()),
        Err(fault) => return Err(fault_of(fault)),
    }
}

/// Sets the rows of a destination that nodes lack.
fn set_rows_to(
    alloc: Global,
    scenario: &mut Scenario,
    destination: u32,
    routes: &Routes,
) -> Result<(), RoutesFault>
    requires destination { destination < length scenario.old.destinations }
    requires routes { AreRoutes (roads_of scenario.old)
        (destination_node scenario.old destination) routes.now }
    ensures ok { OnOk result (HasSet scenario.old
        (missing_to scenario.old destination routes.now) scenario.new) }
    ensures too_many { result ≡ Err RoutesFault.TooManyRows
        → AreTooMany scenario.old (missing_to scenario.old destination routes.now) }
{
    let nodes = scenario.network().nodes();
    for node in 0..nodes {
        match set_row(alloc, scenario, destination, routes, NodeId(node)) {
            Ok(()) => {}
            Err(RoutesFault::TooManyRows) => return Err(RoutesFault::TooManyRows),
            Err(RoutesFault::NoMemory) => return Err(RoutesFault::NoMemory),
        }
    }
    Ok(())
}

/// Sets the route splits of all destinations from slot 0 on, given the routes to each, in order of destination, then of
/// node. No split row stands before. Either fault gives the scenario up.
pub fn set_all(
    alloc: Global,
    mut scenario: Scenario,
    all: &[Routes],
) -> Result<Scenario, RoutesFault>
    requires none { scenario.splits ≡ [] }
    requires routes { AreAllRoutes scenario all.now }
    ensures set { IfOk result (λ next. with_splits scenario (route_splits scenario all.now)
        ≡ Ok next) }
    ensures rest { IfOk result (KeepsRest scenario) }

    // Only more rows than the setup allows are refused.
    ensures few { OnOk result (length (route_splits scenario all.now)
        ≤ scenario.setup.most_split_rows) }
    ensures too_many { result ≡ Err RoutesFault.TooManyRows
        → scenario.setup.most_split_rows < length (route_splits scenario all.now) }
{
    let _setup = scenario.setup();
    let destinations = scenario.destinations().len() as u32;
    for destination in 0..destinations {
        match set_rows_to(
            alloc,
            &mut scenario,
            destination,
            &all[destination as usize],
        ) {
            Ok(()) => {}
            Err(RoutesFault::TooManyRows) => return Err(RoutesFault::TooManyRows),
            Err(RoutesFault::NoMemory) => return Err(RoutesFault::NoMemory),
        }
    }
    Ok(scenario)
}

/// Finds the routes to a destination, and sets the rows that nodes lack.
fn route_to(alloc: Global, scenario: &mut Scenario, destination: u32) -> Result<(), RoutesFault>
    requires { destination < length scenario.old.destinations }
    ensures ok { OnOk result (HasSet scenario.old
        (missing_to scenario.old destination (routes_of scenario.old destination)) scenario.new) }
    ensures too_many { result ≡ Err RoutesFault.TooManyRows → AreTooMany scenario.old
        (missing_to scenario.old destination (routes_of scenario.old destination)) }
{
    let routes = Routes::to(alloc, scenario, destination)?;
    set_rows_to(alloc, scenario, destination, &routes)
}

/// Gives each node that has no split row for a destination, in any slot, its route split from slot 0 on, in order of
/// destination, then of node. What stands stays. A fault gives the scenario up.
///
/// It costs a search for each destination, and the memory of one beside the rows.
#[tactic(auto, unfolding(crate::specs::Missing::with_routes))]
pub fn set_routes(alloc: Global, scenario: &mut Scenario) -> Result<(), RoutesFault>
    ensures ok { OnOk result (with_routes scenario.old ≡ Ok scenario.new) }
    ensures rest { OnOk result (KeepsRest scenario.old scenario.new) }
    ensures too_many { result ≡ Err RoutesFault.TooManyRows
        → with_routes scenario.old ≡ Err refusal.TooManyRows }
{
    let _setup = scenario.setup();
    for destination in 0..scenario.destinations().len() as u32 {
        match route_to(alloc, scenario, destination) {
            Ok(()) => {}
            Err(RoutesFault::TooManyRows) => return Err(RoutesFault::TooManyRows),
            Err(RoutesFault::NoMemory) => return Err(RoutesFault::NoMemory),
        }
    }
    Ok(())
}
