//! Whether potentials are the least times, by a look at each link.
ghost use Rattle.std.specs.Prelude.{◌≡◌, ◌≢◌, ◌↔◌, ℕ, ◌<◌, ◌≤◌, ◌+◌, All, length, map, true, IsSome};
ghost use Rattle.std.specs.List.{list_any};
ghost use Rattle.ltm_network.specs.Network.{out_links};
ghost use Rattle.ltm_scenario.specs.Reads.{destination_node};
ghost use Rattle.ltm_routes.specs.Roads.{roads_of};
ghost use Rattle.ltm_routes.specs.Potentials.{potential_at, AreLeastTimes, AllFit, AllLeadOn, LeadsOn, IsSmall, is_zero, fits, is_tight, fits_over, is_tight_over};
ghost use Rattle.ltm_units.specs.Bounds.{longest_time};

use crate::roads::{free_time, keep_roads};
use ltm_network::links_at_their_places;
use ltm_scenario::Scenario;
use ltm_units::{LinkId, Millis, NodeId};

fn is_zero(potential: Option<Millis>) -> bool
    ensures { result ≡ is_zero potential }
{
    match potential {
        None => false,
        Some(time) => time.0 == 0,
    }
}

fn fits(tail: Option<Millis>, time: Millis, head: Option<Millis>) -> bool
    requires small { IsSmall head }
    requires most { time.0 ≤ longest_time }
    ensures { result ≡ fits tail time.0 head }
{
    let Some(head) = head else {
        return true;
    };
    match tail {
        None => false,
        Some(tail) => tail.0 <= time.0 + head.0,
    }
}

fn is_tight(tail: Option<Millis>, time: Millis, head: Option<Millis>) -> bool
    requires small { IsSmall head }
    requires most { time.0 ≤ longest_time }
    ensures { result ≡ is_tight tail time.0 head }
{
    let Some(tail) = tail else {
        return false;
    };
    match head {
        None => false,
        Some(head) => tail.0 == time.0 + head.0,
    }
}

/// Whether the potential at a link's tail is greater by at most its time than the one at its head.
fn fits_over(scenario: &Scenario, potentials: &[Option<Millis>], link: LinkId) -> bool
    requires link { link.0 < length scenario.now.network.links }
    requires one_for_each { length potentials.now ≡ length scenario.now.network.nodes }
    requires small { All IsSmall potentials.now }
    ensures { result ≡ fits_over (roads_of scenario.now) potentials.now link.0 }
{
    keep_roads(scenario);
    let network = scenario.network();
    let tail = potentials[network.tail(link).0 as usize];
    let head = potentials[network.head(link).0 as usize];
    fits(tail, free_time(scenario, link), head)
}

/// Whether it is greater by just its time.
pub fn is_tight_over(scenario: &Scenario, potentials: &[Option<Millis>], link: LinkId) -> bool
    requires link { link.0 < length scenario.now.network.links }
    requires one_for_each { length potentials.now ≡ length scenario.now.network.nodes }
    requires small { All IsSmall potentials.now }
    ensures { result ≡ is_tight_over (roads_of scenario.now) potentials.now link.0 }
{
    keep_roads(scenario);
    let network = scenario.network();
    let tail = potentials[network.tail(link).0 as usize];
    let head = potentials[network.head(link).0 as usize];
    is_tight(tail, free_time(scenario, link), head)
}

fn all_fit(scenario: &Scenario, potentials: &[Option<Millis>]) -> bool
    requires one_for_each { length potentials.now ≡ length scenario.now.network.nodes }
    requires small { All IsSmall potentials.now }
    ensures { result ≡ true ↔ AllFit (roads_of scenario.now) potentials.now }
{
    for link in 0..scenario.network().links() {
        if !fits_over(scenario, potentials, LinkId(link)) {
            return false;
        }
    }
    true
}

/// Whether a link that leaves the node is tight.
fn leads_on(scenario: &Scenario, potentials: &[Option<Millis>], node: NodeId) -> bool
    requires node { node.0 < length scenario.now.network.nodes }
    requires one_for_each { length potentials.now ≡ length scenario.now.network.nodes }
    requires small { All IsSmall potentials.now }
    ensures { result ≡ true ↔ LeadsOn (roads_of scenario.now) potentials.now node.0 }
{
    links_at_their_places();
    let links = scenario.network().out_links(node);
    'each: for link in links {
        if is_tight_over(scenario, potentials, *link) {
            return true;
        }
    }
    false
}

/// Whether from each other node with a potential a tight link leads on.
fn all_lead_on(scenario: &Scenario, potentials: &[Option<Millis>], end: NodeId) -> bool
    requires one_for_each { length potentials.now ≡ length scenario.now.network.nodes }
    requires small { All IsSmall potentials.now }
    ensures { result ≡ true ↔ AllLeadOn (roads_of scenario.now) end.0 potentials.now }
{
    for node in 0..scenario.network().nodes() {
        if !may_stand(scenario, potentials, end, NodeId(node)) {
            return false;
        }
    }
    true
}

/// Whether the node is the destination, has no potential, or is led on.
fn may_stand(scenario: &Scenario, potentials: &[Option<Millis>], end: NodeId, node: NodeId) -> bool
    requires node { node.0 < length scenario.now.network.nodes }
    requires one_for_each { length potentials.now ≡ length scenario.now.network.nodes }
    requires small { All IsSmall potentials.now }
    ensures { result ≡ true
        ↔ (node.0 ≢ end.0 → IsSome (potential_at potentials.now node.0)
        → LeadsOn (roads_of scenario.now) potentials.now node.0) }
{
    if node.0 == end.0 || potentials[node.0 as usize].is_none() {
        return true;
    }
    leads_on(scenario, potentials, node)
}

/// Whether each potential is the least time of a route from its node to the destination, none where there is no route.
///
/// Looks at each link: the destination has 0; no link leads from a node without a potential to one with one; none has a
/// potential at its tail greater than its time and the potential at its head; and from each other node with a potential
/// some link has these two equal. It takes no memory. There is a potential for each node, at most 2^47 ms.
pub fn verify(scenario: &Scenario, destination: u32, potentials: &[Option<Millis>]) -> bool
    requires destination { destination < length scenario.now.destinations }
    requires one_for_each { length potentials.now ≡ length scenario.now.network.nodes }
    requires small { All IsSmall potentials.now }
    ensures { result ≡ true
        ↔ AreLeastTimes (roads_of scenario.now)
        (destination_node scenario.now destination) potentials.now }
{
    keep_roads(scenario);
    let end = scenario.destination_node(destination);
    if !is_zero(potentials[end.0 as usize]) {
        return false;
    }
    if !all_fit(scenario, potentials) {
        return false;
    }
    all_lead_on(scenario, potentials, end)
}
