//! The shape of a node: how many arms, out-links and destinations its inputs speak of.
ghost use Rattle.std.specs.Prelude.{◌≡◌, ◌≤◌};
ghost use Rattle.ltm_node.specs.Shape.{width};
ghost use Rattle.ltm_setting.specs.Setting.{setting_of};
ghost use Rattle.ltm_inputs.specs.Widest.{IsWidest};
ghost use Rattle.ltm_setting.specs.Places.{IsNode, node_shape};
ghost use Rattle.ltm_units.specs.Bounds.{most_destinations};

use ltm_node::NodeShape;
use ltm_scenario::Scenario;
use ltm_setting::{by_turn, destination_at, destination_count, in_links, node_count, out_links};
use ltm_units::NodeId;

/// The shape of a node of a scenario: at most 5 arms, 4 out-links and 2,000 destinations.
#[inline]
pub fn shape_of(scenario: &Scenario, node: NodeId) -> NodeShape
    requires { IsNode scenario.now node.0 }
    ensures shape { result ≡ node_shape scenario.now node.0 }
    ensures few_arms { result.arms ≤ 5 }
    ensures few_outs { result.outs ≤ 4 }
    ensures few_destinations { result.destinations ≤ most_destinations }
{
    let ins = in_links(scenario, node).len() as u32;
    let outs = out_links(scenario, node).len() as u32;
    NodeShape {
        arms: ins + 1.min(outs),
        outs,
        destinations: destination_count(scenario),
        own: destination_at(scenario, node),
        by_turn: by_turn(scenario),
    }
}

/// How many numbers the inputs of a node are.
fn width_of(scenario: &Scenario, node: NodeId) -> u32
    requires { IsNode scenario.now node.0 }
    ensures { result ≡ width (node_shape scenario.now node.0) }
{
    shape_of(scenario, node).width() as u32
}

/// The greatest count of numbers that the inputs of a node are, 0 where there is no node: the room that the inputs of any
/// pair need.
pub fn widest(scenario: &Scenario) -> u32
    ensures { IsWidest (setting_of scenario.now) (setting_of scenario.now).nodes result }
{
    let mut widest = 0;
    for node in 0..node_count(scenario) {
        widest = widest.max(width_of(scenario, NodeId(node)));
    }
    widest
}
