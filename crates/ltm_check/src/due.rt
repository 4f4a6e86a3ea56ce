//! Which record stands where in a curve file.
ghost use Rattle.std.specs.Prelude.{◌≡◌, ◌<◌, ◌^◌};
ghost use Rattle.ltm_setting.specs.Setting.{setting_of};
ghost use Rattle.ltm_scenario.specs.Reads.{destination_name};
ghost use Rattle.ltm_check.specs.Due.{record_count, kind_of, name_of};
ghost use Rattle.ltm_setting.specs.Places.{IsDestination, all_groups};

use ltm_loading::up_of;
use ltm_scenario::Scenario;
use ltm_setting::{arr_of, dep_of, destination_count, group_count};
use ltm_units::{LinkId, Name, NodeId};

/// How many records stand below the header.
pub(crate) fn record_count(scenario: &Scenario) -> u32
    ensures count { result ≡ record_count scenario.now }
    ensures few { result < 2 ^ 31 }
{
    group_count(scenario) * destination_count(scenario)
}

/// What a group counts: what has entered a link, has left it, has left an origin, or has arrived.
#[tactic(auto, unfolding(ltm_setting::specs::Setting::setting_of))]
pub(crate) fn kind_of(scenario: &Scenario, group: u32) -> &'static [u8]
    ensures { result.now ≡ kind_of scenario.now group }
{
    if group < dep_of(scenario, NodeId(0)) {
        if group == up_of(LinkId(group / 2)) {
            b"up"
        } else {
            b"down"
        }
    } else if group < arr_of(scenario) {
        b"dep"
    } else {
        b"arr"
    }
}

/// The name of a destination.
#[tactic(auto, unfolding(ltm_setting::specs::Setting::setting_of))]
pub(crate) fn name_of_destination(scenario: &Scenario, destination: u32) -> Name
    requires { IsDestination scenario.now destination }
    ensures { result ≡ destination_name scenario.now destination }
{
    let node = scenario.destination_node(destination);
    scenario.network().node_name(node)
}

/// The name of the link, of the node, or of the destination, of which a group counts.
#[tactic(auto, unfolding(ltm_setting::specs::Setting::setting_of))]
pub(crate) fn name_of(scenario: &Scenario, group: u32, destination: u32) -> Name
    requires group { group < all_groups scenario.now }
    requires destination { IsDestination scenario.now destination }
    ensures { result ≡ name_of scenario.now group destination }
{
    let network = scenario.network();
    let links = dep_of(scenario, NodeId(0));
    if group < links {
        network.link_name(LinkId(group / 2))
    } else if group < arr_of(scenario) {
        network.node_name(NodeId(group - links))
    } else {
        name_of_destination(scenario, destination)
    }
}
