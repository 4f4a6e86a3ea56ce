//! All that goes on from what is found.
ghost use Rattle.std.specs.Prelude.{◌≡◌, ℕ, ◌+◌, ◌*◌, ◌<◌, ◌≤◌, length, slice_index, OnOk};
ghost use Rattle.ltm_setting.specs.Setting.{setting_of};
ghost use Rattle.ltm_setting.specs.Places.{HasOut, IsDestination, IsLink, IsNode};
ghost use Rattle.ltm_used.specs.Found.{size_of, count_of, is_found, number_at, Grows, Finds, GoesOn, IsDone, IsClosedUnder};

use crate::found::Found;
use ltm_scenario::Scenario;
use ltm_setting::{destination_count, head, is_setting, link_count, out_links};
use ltm_units::{LinkId, NoMemory, NodeId};

/// Finds the link for the destination, where it is taken.
fn step(
    scenario: &Scenario,
    goes: &[u8],
    found: &mut Found,
    link: LinkId,
    destination: u32,
) -> Result<(), NoMemory>
    requires link { IsLink scenario.now link.0 }
    requires destination { IsDestination scenario.now destination }
    requires goes { length goes.now ≡ (setting_of scenario.now).links * (setting_of scenario.now).destinations }
    requires found { size_of found.old ≡ (setting_of scenario.now).links * (setting_of scenario.now).destinations }
    ensures grows { OnOk result (Grows found.old found.new) }
    ensures found { OnOk result (0 < slice_index goes.now (link.0 * (setting_of scenario.now).destinations + destination)
        → is_found found.new (link.0 * (setting_of scenario.now).destinations + destination)) }
{
    let _links = link_count(scenario);
    let number = link.0 * destination_count(scenario) + destination;
    if goes[number as usize] != 0 {
        found.find(number)?;
    }
    Ok(())
}

/// The out-link of a node at a place.
pub(crate) fn out_link_at(scenario: &Scenario, node: NodeId, place: usize) -> LinkId
    requires node { IsNode scenario.now node.0 }
    requires place { HasOut scenario.now node.0 place }
    ensures link { result.0 ≡ (setting_of scenario.now).out_link node.0 place }
    ensures there { IsLink scenario.now result.0 }
{
    is_setting(scenario);
    let links = out_links(scenario, node);
    links[place]
}

/// Finds all by which a node sends a destination on.
pub(crate) fn go_on(
    scenario: &Scenario,
    goes: &[u8],
    found: &mut Found,
    node: NodeId,
    destination: u32,
) -> Result<(), NoMemory>
    requires node { IsNode scenario.now node.0 }
    requires destination { IsDestination scenario.now destination }
    requires goes { length goes.now ≡ (setting_of scenario.now).links * (setting_of scenario.now).destinations }
    requires found { size_of found.old ≡ (setting_of scenario.now).links * (setting_of scenario.now).destinations }
    ensures grows { OnOk result (Grows found.old found.new) }
    ensures done { OnOk result (GoesOn (setting_of scenario.now) goes.now found.new node.0 destination) }
{
    let many = out_links(scenario, node).len();
    for place in 0..many {
        let next = out_link_at(scenario, node, place);
        step(scenario, goes, found, next, destination)?;
    }
    Ok(())
}

/// Finds all that goes on from a link for a destination.
fn visit(
    scenario: &Scenario,
    goes: &[u8],
    found: &mut Found,
    link: LinkId,
    destination: u32,
) -> Result<(), NoMemory>
    requires link { IsLink scenario.now link.0 }
    requires destination { IsDestination scenario.now destination }
    requires goes { length goes.now ≡ (setting_of scenario.now).links * (setting_of scenario.now).destinations }
    requires found { size_of found.old ≡ (setting_of scenario.now).links * (setting_of scenario.now).destinations }
    ensures grows { OnOk result (Grows found.old found.new) }
    ensures done { OnOk result (IsDone (setting_of scenario.now) goes.now found.new link.0 destination) }
{
    let node = head(scenario, link);
    go_on(scenario, goes, found, node, destination)?;
    Ok(())
}

/// Finds all that goes on from what is found, however often.
pub(crate) fn close(scenario: &Scenario, goes: &[u8], found: &mut Found) -> Result<(), NoMemory>
    requires goes { length goes.now ≡ (setting_of scenario.now).links * (setting_of scenario.now).destinations }
    requires found { size_of found.old ≡ (setting_of scenario.now).links * (setting_of scenario.now).destinations }
    ensures grows { OnOk result (Grows found.old found.new) }
    ensures closed { OnOk result (IsClosedUnder (setting_of scenario.now) goes.now found.new) }
{
    let destinations = destination_count(scenario);
    for place in 0..found.size() {
        if place >= found.count() {
            return Ok(());
        }
        let number = found.number(place);
        visit(
            scenario,
            goes,
            found,
            LinkId(number / destinations),
            number % destinations,
        )?;
    }
    Ok(())
}
