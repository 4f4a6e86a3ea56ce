//! What is written is read.
ghost use Rattle.ltm_check.specs.ReadBack.{AreNamed, WrittenIsRead, LoadingIsTold};

use crate::in_32_bits::kept_answers_alike;
use ltm_loading::{counts_small, set_by_one_pair};
use ltm_scenario::Scenario;
use ltm_units::{LinkId, NodeId};

/// The text of counts that can be told is a curve file, and it tells these counts.
pub fn written_is_read()
    ensures { WrittenIsRead }
{}

/// The text of a loading is a curve file, and what it tells is the loading.
pub fn loading_is_told()
    ensures { LoadingIsTold }
{
    counts_small();
    set_by_one_pair();
    kept_answers_alike();
    written_is_read();
}

/// Each link and each node of a scenario has a name of letters, digits, `_` and `-`.
pub fn is_named(scenario: &Scenario)
    ensures { AreNamed scenario.now }
{
    let network = scenario.network();
    for link in 0..network.links() {
        let name = network.link_name(LinkId(link));
        let _bytes = name.bytes();
    }
    for node in 0..network.nodes() {
        let name = network.node_name(NodeId(node));
        let _bytes = name.bytes();
    }
}
