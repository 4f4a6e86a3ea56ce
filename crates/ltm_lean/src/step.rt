//! The step of a node over its list.
ghost use Rattle.std.specs.Prelude.{◌≡◌, ℕ, ◌+◌, ◌*◌, ◌<◌, ◌≤◌, length};
ghost use Rattle.ltm_curve.specs.Counts.{Counts};
ghost use Rattle.ltm_loading.specs.Loading.{IsLoading};
ghost use Rattle.ltm_node.specs.Shape.{width, counts_width};
ghost use Rattle.ltm_setting.specs.Setting.{setting_of};
ghost use Rattle.ltm_setting.specs.Places.{IsSlot, arms_at};
ghost use Rattle.ltm_thin.specs.NodeLists.{MovesInLoading};
ghost use Rattle.ltm_used.specs.Lists.{list_of};
ghost use Rattle.ltm_lean_node.specs.Rows.{listed_shape, AreSent};
ghost use Rattle.ltm_lean.specs.Nodes.{AreTables, IsFrozen, IsNodeAt};

use crate::node::LeanNode;
use crate::tables::Tables;
use crate::takes::put_takes;
use ltm_existence::there_is_a_loading;
use ltm_lean_node::step_listed;
use ltm_node::{NodeInputs, NodeOutputs};
use ltm_scenario::Scenario;
use ltm_setting::{destination_count, is_setting};
use ltm_units::Pair;

/// Writes what moves at a node in a slot of the destinations of its list, from what its arms send. The weights that are kept are
/// those in force in the slot. `takes` is room for what its out-links can take.
pub(crate) fn step_node(
    scenario: &Scenario,
    tables: &Tables,
    node: &LeanNode,
    slot: u32,
    takes: &mut [u64],
    sends: &[u64],
    inputs: &mut NodeInputs,
    outputs: &mut NodeOutputs,
)
    requires slot { IsSlot scenario.now slot }
    requires tables { AreTables (setting_of scenario.now) tables.now }
    requires node { IsNodeAt (setting_of scenario.now) tables.now node.now }
    requires takes { length takes.old ≡ (setting_of scenario.now).outs node.now.node.0 }
    requires begun { node.now.kept.from ≤ slot }
    requires lasting { slot < node.now.kept.until }
    requires width { length sends.now ≡ arms_at scenario.now node.now.node.0 * length (list_of tables.now.nodes node.now.node.0) }
    requires inputs { width (listed_shape (setting_of scenario.now) node.now.node.0 (length (list_of tables.now.nodes node.now.node.0)) node.now.own) ≤ inputs.old.room }
    requires outputs { counts_width (listed_shape (setting_of scenario.now) node.now.node.0 (length (list_of tables.now.nodes node.now.node.0)) node.now.own) ≤ outputs.old.room }
    requires sent { (c : Counts) → IsLoading (setting_of scenario.now) c
        → AreSent (setting_of scenario.now) c node.now.node.0 slot (list_of tables.now.nodes node.now.node.0) sends.now }
    ensures shape { outputs.new.shape ≡ listed_shape (setting_of scenario.now) node.now.node.0 (length (list_of tables.now.nodes node.now.node.0)) node.now.own }
    ensures moves { (c : Counts) → IsLoading (setting_of scenario.now) c → IsFrozen (setting_of scenario.now) c slot tables.now
        → MovesInLoading (setting_of scenario.now) c node.now.node.0 slot (list_of tables.now.nodes node.now.node.0) outputs.new }
    ensures inputs { inputs.new.room ≡ inputs.old.room }
    ensures outputs { outputs.new.room ≡ outputs.old.room }
{
    is_setting(scenario);
    there_is_a_loading();
    let _destinations = destination_count(scenario);
    let list = tables.nodes.on(node.node.0 as usize);
    put_takes(scenario, tables, node.node.0, slot, &node.outs, takes);
    let pair = Pair {
        node: node.node,
        slot,
    };
    step_listed(
        scenario,
        pair,
        list,
        node.own,
        sends,
        takes,
        &node.kept.weights,
        inputs,
        outputs,
    );
}
