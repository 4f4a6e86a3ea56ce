//! The names of the links with which routes begin.
ghost use Rattle.std.specs.Prelude.{◌≡◌, ◌<◌, ◌++◌, [], ◌∷◌, if◌then◌else◌, length, true, All, IfOk, OnOk};
ghost use Rattle.ltm_units.specs.Words.{is_name};
ghost use Rattle.ltm_network.specs.Network.{link_name};
ghost use Rattle.ltm_splits.specs.Rows.{key_of};
ghost use Rattle.ltm_routes.specs.Split.{begins_at, route_split};
ghost use Rattle.ltm_routes_command.specs.Lines.{names_over};

use ltm_network::Network;
use ltm_routes::Routes;
use ltm_scenario::Scenario;
use ltm_units::{LinkId, Name, NoMemory, NodeId};
use std::alloc::Global;

/// Adds the name of a link, where a least route begins with it.
fn push_name(
    network: &Network,
    routes: &Routes,
    link: LinkId,
    into: &mut Vec<Name>,
) -> Result<(), NoMemory>
    requires link { link.0 < length network.now.links }
    requires flag_for_each { length routes.now.begins ≡ length network.now.links }
    ensures names { OnOk result (into.new.items
        ≡ into.old.items ++ (if begins_at routes.now link.0 then link_name network.now link.0 ∷ [] else [])) }
    ensures named { All (λ name. is_name name ≡ true) into.old.items
        → OnOk result (All (λ name. is_name name ≡ true) into.new.items) }
{
    if !routes.on_route(link) {
        return Ok(());
    }
    let name = network.link_name(link);
    let _valid = name.bytes();
    into.push(name)?;
    Ok(())
}

/// The names of the links with which least routes from a node begin, in order of link number.
pub fn names_of(
    alloc: Global,
    scenario: &Scenario,
    routes: &Routes,
    node: NodeId,
    destination: u32,
) -> Result<Vec<Name>, NoMemory>
    requires node { node.0 < length scenario.now.network.nodes }
    requires flag_for_each { length routes.now.begins ≡ length scenario.now.network.links }
    ensures names { IfOk result (λ names. names.items
        ≡ names_over scenario.now.network
        (key_of node.0 destination 0, route_split scenario.now routes.now node.0)) }
    ensures named { IfOk result (λ names. All (λ name. is_name name ≡ true) names.items) }
{
    let network = scenario.network();
    let links = network.out_links(node);
    let mut names = Vec::new(alloc);
    'each: for link in links {
        push_name(network, routes, *link, &mut names)?;
    }
    Ok(names)
}
