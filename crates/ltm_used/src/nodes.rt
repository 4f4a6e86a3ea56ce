//! The destinations that can be at each node.
ghost use Rattle.std.specs.Prelude.{◌≡◌, ℕ, ◌<◌, length, slice_index, IfOk, OnOk};
ghost use Rattle.ltm_curve.specs.Counts.{Counts};
ghost use Rattle.ltm_loading.specs.Loading.{IsLoading};
ghost use Rattle.ltm_standing.specs.Listed.{Ascends, IsListed};
ghost use Rattle.ltm_setting.specs.Setting.{setting_of};
ghost use Rattle.ltm_setting.specs.Places.{HasIn, IsDestination, IsLink, IsNode};
ghost use Rattle.ltm_thin.specs.NodeLists.{IsNodeList};
ghost use Rattle.ltm_used.specs.Closed.{HasDemand, IsIn};
ghost use Rattle.ltm_used.specs.Found.{size_of, is_found, Grows};
ghost use Rattle.ltm_used.specs.Lists.{links_of, list_of};

use crate::found::Found;
use crate::listed::add_found;
use crate::used::Used;
use ltm_scenario::Scenario;
use ltm_setting::{
    destination_count, in_links, is_setting, link_count, node_count, produced, slot_count,
};
use ltm_units::{LinkId, NoMemory, NodeId};
use std::alloc::Global;

/// The in-link of a node at a place.
fn in_link_at(scenario: &Scenario, node: NodeId, place: usize) -> LinkId
    requires node { IsNode scenario.now node.0 }
    requires place { HasIn scenario.now node.0 place }
    ensures link { result.0 ≡ (setting_of scenario.now).in_link node.0 place }
    ensures there { IsLink scenario.now result.0 }
{
    is_setting(scenario);
    let links = in_links(scenario, node);
    links[place]
}

/// Finds the numbers of a list.
fn find_list(list: &[u32], found: &mut Found) -> Result<(), NoMemory>
    requires { (j : ℕ) → j < length list.now → slice_index list.now j < size_of found.old }
    ensures grows { OnOk result (Grows found.old found.new) }
    ensures found { OnOk result ((j : ℕ) → j < length list.now → is_found found.new (slice_index list.now j)) }
{
    for k in 0..list.len() {
        found.find(list[k])?;
    }
    Ok(())
}

/// Finds the destinations that can be on a link into a node.
fn find_links(
    scenario: &Scenario,
    used: &Used,
    node: NodeId,
    found: &mut Found,
) -> Result<(), NoMemory>
    requires node { IsNode scenario.now node.0 }
    requires links { links_of used.now ≡ (setting_of scenario.now).links }
    requires order { (l : ℕ) → IsLink scenario.now l → Ascends 0 (setting_of scenario.now).destinations (list_of used.now l) }
    requires size { size_of found.old ≡ (setting_of scenario.now).destinations }
    ensures grows { OnOk result (Grows found.old found.new) }
    ensures found { OnOk result ((i d : ℕ) → HasIn scenario.now node.0 i
        → IsIn (list_of used.now ((setting_of scenario.now).in_link node.0 i)) d → is_found found.new d) }
{
    let many = in_links(scenario, node).len();
    for place in 0..many {
        let link = in_link_at(scenario, node, place);
        find_list(used.on(link.0 as usize), found)?;
    }
    Ok(())
}

/// Finds the destinations of which a node produces something.
fn find_produced(scenario: &Scenario, node: NodeId, found: &mut Found) -> Result<(), NoMemory>
    requires { size_of found.old ≡ (setting_of scenario.now).destinations }
    ensures grows { OnOk result (Grows found.old found.new) }
    ensures found { OnOk result ((d : ℕ) → IsDestination scenario.now d → HasDemand (setting_of scenario.now) node.0 d → is_found found.new d) }
{
    let slots = slot_count(scenario);
    for destination in 0..destination_count(scenario) {
        if produced(scenario, node, destination, slots) != 0 {
            found.find(destination)?;
        }
    }
    Ok(())
}

/// The destinations that can be at a node.
fn found_at(
    alloc: Global,
    scenario: &Scenario,
    used: &Used,
    node: NodeId,
) -> Result<Found, NoMemory>
    requires node { IsNode scenario.now node.0 }
    requires links { links_of used.now ≡ (setting_of scenario.now).links }
    requires order { (l : ℕ) → IsLink scenario.now l → Ascends 0 (setting_of scenario.now).destinations (list_of used.now l) }
    ensures size { IfOk result (λ found. size_of found ≡ (setting_of scenario.now).destinations) }
    ensures links { IfOk result (λ found. (i d : ℕ) → HasIn scenario.now node.0 i
        → IsIn (list_of used.now ((setting_of scenario.now).in_link node.0 i)) d → is_found found d) }
    ensures origin { IfOk result (λ found. (d : ℕ) → IsDestination scenario.now d → HasDemand (setting_of scenario.now) node.0 d → is_found found d) }
{
    let mut found = Found::none(alloc, destination_count(scenario) as usize)?;
    find_links(scenario, used, node, &mut found)?;
    find_produced(scenario, node, &mut found)?;
    Ok(found)
}

/// The destinations that can be at each node of a scenario, in order, from those that can be on each link: those of the links
/// into the node, and those of which it produces something.
pub fn node_destinations(alloc: Global, scenario: &Scenario, used: &Used) -> Result<Used, NoMemory>
    requires links { links_of used.now ≡ (setting_of scenario.now).links }
    requires order { (l : ℕ) → IsLink scenario.now l → Ascends 0 (setting_of scenario.now).destinations (list_of used.now l) }
    requires listed { (c : Counts) (l : ℕ) → IsLoading (setting_of scenario.now) c → IsLink scenario.now l
        → IsListed (setting_of scenario.now) c l (list_of used.now l) }
    ensures nodes { IfOk result (λ lists. links_of lists ≡ (setting_of scenario.now).nodes) }
    ensures order { IfOk result (λ lists. (u : ℕ) → IsNode scenario.now u → Ascends 0 (setting_of scenario.now).destinations (list_of lists u)) }
    ensures listed { IfOk result (λ lists. (c : Counts) (u : ℕ) → IsLoading (setting_of scenario.now) c → IsNode scenario.now u
        → IsNodeList (setting_of scenario.now) c u (list_of lists u)) }
{
    is_setting(scenario);
    let many = destination_count(scenario);
    let mut starts = Vec::new(alloc);
    let mut destinations = Vec::new(alloc);
    starts.push(0)?;
    'nodes: for node in 0..node_count(scenario) {
        let found = found_at(alloc, scenario, used, NodeId(node))?;
        add_found(&found, 0, many, &mut destinations)?;
        starts.push(destinations.len())?;
    }
    Ok(Used::of(starts, destinations))
}
