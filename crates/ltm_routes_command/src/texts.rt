//! The texts of routes: a line for each route split, in order of destination, then of node.
ghost use Rattle.std.specs.Prelude.{◌≡◌, ◌<◌, ◌++◌, length, true, All, IfOk, OnOk};
ghost use Rattle.std.specs.List.{flat_map};
ghost use Rattle.ltm_splits.specs.Rows.{key_of};
ghost use Rattle.ltm_units.specs.Words.{is_name};
ghost use Rattle.ltm_network.specs.Network.{node_name};
ghost use Rattle.ltm_scenario.specs.Reads.{destination_node};
ghost use Rattle.ltm_routes.specs.Roads.{roads_of};
ghost use Rattle.ltm_routes.specs.Potentials.{potential_at};
ghost use Rattle.ltm_routes.specs.Split.{AreRoutes, AreAllRoutes, is_routed, route_split, route_splits, rows_from, rows_to};
ghost use Rattle.ltm_routes_command.specs.Lines.{record_of, time_of, millis_or_zero, line_of, lines_to, header_of, routes_text};
ghost use Rattle.ltm_routes_command.specs.File.{IsNamed};

use crate::lines::RouteLines;
use crate::names::names_of;
use ltm_network::Network;
use ltm_report::{route_row_text, route_time_text, splits_header_text};
use ltm_routes::{Routes, is_routed};
use ltm_scenario::Scenario;
use ltm_units::{Millis, Name, NoMemory, NodeId};
use std::alloc::Global;

/// The name of a node, which is one.
fn name_of(network: &Network, node: NodeId) -> Name
    requires { node.0 < length network.now.nodes }
    ensures name { result ≡ node_name network.now node.0 }
    ensures named { is_name result ≡ true }
{
    let name = network.node_name(node);
    let _valid = name.bytes();
    name
}

/// Adds the record of a node's route split.
fn push_record(
    alloc: Global,
    scenario: &Scenario,
    destination: u32,
    routes: &Routes,
    node: NodeId,
    into: &mut Vec<u8>,
) -> Result<(), NoMemory>
    requires destination { destination < length scenario.now.destinations }
    requires node { node.0 < length scenario.now.network.nodes }
    requires flag_for_each { length routes.now.begins ≡ length scenario.now.network.links }
    ensures record { OnOk result (into.new.items
        ≡ into.old.items ++ record_of scenario.now
        (key_of node.0 destination 0, route_split scenario.now routes.now node.0)) }
    ensures named { OnOk result (IsNamed scenario.now.network scenario.now.destinations
        (key_of node.0 destination 0, route_split scenario.now routes.now node.0)) }
{
    let names = names_of(alloc, scenario, routes, node, destination)?;
    let name = name_of(scenario.network(), node);
    let end = name_of(scenario.network(), scenario.destination_node(destination));
    route_row_text(alloc, &name, &end, &names, into)
}

/// The least time from a node that has a route.
fn time_from(routes: &Routes, node: NodeId) -> Millis
    requires { node.0 < length routes.now.potentials }
    ensures { result.0 ≡ millis_or_zero (potential_at routes.now.potentials node.0) }
{
    match routes.potential(node) {
        Some(time) => time,
        None => Millis(0),
    }
}

/// Adds the line of a node's least time.
fn push_time(
    alloc: Global,
    scenario: &Scenario,
    destination: u32,
    routes: &Routes,
    node: NodeId,
    into: &mut Vec<u8>,
) -> Result<(), NoMemory>
    requires destination { destination < length scenario.now.destinations }
    requires node { node.0 < length scenario.now.network.nodes }
    requires potential_for_each { length routes.now.potentials ≡ length scenario.now.network.nodes }
    ensures { OnOk result (into.new.items
        ≡ into.old.items ++ time_of scenario.now routes.now
        (key_of node.0 destination 0, route_split scenario.now routes.now node.0)) }
{
    let name = name_of(scenario.network(), node);
    let end = name_of(scenario.network(), scenario.destination_node(destination));
    route_time_text(alloc, &name, &end, time_from(routes, node), into)
}

/// Adds the line of a node, where it has a route split.
fn push_line(
    alloc: Global,
    lines: RouteLines,
    scenario: &Scenario,
    destination: u32,
    routes: &Routes,
    node: NodeId,
    into: &mut Vec<u8>,
) -> Result<(), NoMemory>
    requires destination { destination < length scenario.now.destinations }
    requires node { node.0 < length scenario.now.network.nodes }
    requires routes { AreRoutes (roads_of scenario.now)
        (destination_node scenario.now destination) routes.now }
    ensures line { OnOk result (into.new.items
        ≡ into.old.items ++ flat_map (line_of lines scenario.now routes.now)
        (rows_from scenario.now destination routes.now node.0)) }
    ensures named { lines ≡ RouteLines.Splits
        → OnOk result (All (IsNamed scenario.now.network scenario.now.destinations)
        (rows_from scenario.now destination routes.now node.0)) }
{
    if !is_routed(scenario, destination, routes, node) {
        return Ok(());
    }
    match lines {
        RouteLines::Splits => push_record(alloc, scenario, destination, routes, node, into),
        RouteLines::Times => push_time(alloc, scenario, destination, routes, node, into),
    }
}

/// Adds the lines of a destination.
fn push_lines_to(
    alloc: Global,
    lines: RouteLines,
    scenario: &Scenario,
    destination: u32,
    routes: &Routes,
    into: &mut Vec<u8>,
) -> Result<(), NoMemory>
    requires destination { destination < length scenario.now.destinations }
    requires routes { AreRoutes (roads_of scenario.now)
        (destination_node scenario.now destination) routes.now }
    ensures lines { OnOk result (into.new.items
        ≡ into.old.items ++ lines_to lines scenario.now routes.now destination) }
    ensures named { lines ≡ RouteLines.Splits
        → OnOk result (All (IsNamed scenario.now.network scenario.now.destinations)
        (rows_to scenario.now destination routes.now)) }
{
    let nodes = scenario.network().nodes();
    for node in 0..nodes {
        push_line(
            alloc,
            lines,
            scenario,
            destination,
            routes,
            NodeId(node),
            into,
        )?;
    }
    Ok(())
}

/// Adds what stands before all lines.
fn push_header(lines: RouteLines, into: &mut Vec<u8>) -> Result<(), NoMemory>
    ensures { OnOk result (into.new.items ≡ into.old.items ++ header_of lines) }
{
    match lines {
        RouteLines::Splits => splits_header_text(into),
        RouteLines::Times => Ok(()),
    }
}

/// The whole text, given the routes to each destination.
#[tactic(auto, unfolding(crate::specs::Lines::routes_text))]
pub fn routes_text(
    alloc: Global,
    lines: RouteLines,
    scenario: &Scenario,
    all: &[Routes],
) -> Result<Vec<u8>, NoMemory>
    requires { AreAllRoutes scenario.now all.now }
    ensures text { IfOk result (λ text. text.items ≡ routes_text lines scenario.now all.now) }
    ensures named { lines ≡ RouteLines.Splits
        → IfOk result (λ _. All (IsNamed scenario.now.network scenario.now.destinations)
        (route_splits scenario.now all.now)) }
{
    let _setup = scenario.setup();
    let destinations = scenario.destinations().len() as u32;
    let mut text = Vec::new(alloc);
    push_header(lines, &mut text)?;
    for destination in 0..destinations {
        push_lines_to(
            alloc,
            lines,
            scenario,
            destination,
            &all[destination as usize],
            &mut text,
        )?;
    }
    Ok(text)
}
