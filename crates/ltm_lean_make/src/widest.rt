//! How wide a row a node needs.
ghost use Rattle.std.specs.Prelude.{◌≡◌, ℕ, ◌≤◌, Option, None, length};
ghost use Rattle.ltm_node.specs.Shape.{width, counts_width};
ghost use Rattle.ltm_units.specs.Bounds.{most_destinations, widest_row};
ghost use Rattle.ltm_setting.specs.Setting.{setting_of};
ghost use Rattle.ltm_setting.specs.Places.{IsNode};
ghost use Rattle.ltm_used.specs.Lists.{list_of};
ghost use Rattle.ltm_lean_node.specs.Rows.{listed_shape};
ghost use Rattle.ltm_lean.specs.Nodes.{AreTables};
ghost use Rattle.ltm_lean_make.specs.Widest.{IsWidestListed, listed_width};

use crate::lists::node_list;
use ltm_lean::Tables;
use ltm_node::NodeShape;
use ltm_scenario::Scenario;
use ltm_setting::{by_turn, in_links, node_count, out_links};
use ltm_units::NodeId;

/// The shape of a node for the destinations of its list. Which of them it is makes no difference to the width.
fn shape_at(scenario: &Scenario, tables: &Tables, node: NodeId) -> NodeShape
    requires node { IsNode scenario.now node.0 }
    requires tables { AreTables (setting_of scenario.now) tables.now }
    ensures shape { result ≡ listed_shape (setting_of scenario.now) node.0 (length (list_of tables.now.nodes node.0)) None }
    ensures few_arms { result.arms ≤ 5 }
    ensures few_outs { result.outs ≤ 4 }
    ensures few_destinations { result.destinations ≤ most_destinations }
{
    let ins = in_links(scenario, node).len() as u32;
    let outs = out_links(scenario, node).len() as u32;
    NodeShape {
        arms: ins + 1.min(outs),
        outs,
        destinations: node_list(scenario, tables, node).len() as u32,
        own: None,
        by_turn: by_turn(scenario),
    }
}

/// How many numbers the inputs of a node are, for the destinations of its list.
fn width_at(scenario: &Scenario, tables: &Tables, node: NodeId) -> usize
    requires node { IsNode scenario.now node.0 }
    requires tables { AreTables (setting_of scenario.now) tables.now }
    ensures width { result ≡ listed_width (setting_of scenario.now) tables.now node.0 }
    ensures small { result ≤ widest_row }
{
    shape_at(scenario, tables, node).width()
}

/// The greatest count of numbers that the inputs of a node are for the destinations of its list, 0 where there is no node: the
/// room that a step of any node needs.
pub fn widest_listed(scenario: &Scenario, tables: &Tables) -> usize
    requires tables { AreTables (setting_of scenario.now) tables.now }
    ensures widest { IsWidestListed (setting_of scenario.now) tables.now (setting_of scenario.now).nodes result }
    ensures inputs { (u : ℕ) (own : Option ℕ) → IsNode scenario.now u
        → width (listed_shape (setting_of scenario.now) u (length (list_of tables.now.nodes u)) own) ≤ result }
    ensures outputs { (u : ℕ) (own : Option ℕ) → IsNode scenario.now u
        → counts_width (listed_shape (setting_of scenario.now) u (length (list_of tables.now.nodes u)) own) ≤ result }
    ensures outs { (u : ℕ) → IsNode scenario.now u → (setting_of scenario.now).outs u ≤ result }
    ensures small { result ≤ widest_row }
{
    let mut widest = 0;
    for node in 0..node_count(scenario) {
        widest = widest.max(width_at(scenario, tables, NodeId(node)));
    }
    widest
}
