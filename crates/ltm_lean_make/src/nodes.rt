//! The nodes of a scenario before its first slot.
ghost use Rattle.std.specs.Prelude.{◌≡◌, ℕ, ◌<◌, length, slice_index_or, IfOk};
ghost use Rattle.ltm_curve.specs.Counts.{Counts};
ghost use Rattle.ltm_loading.specs.Loading.{IsLoading};
ghost use Rattle.ltm_setting.specs.Setting.{setting_of};
ghost use Rattle.ltm_setting.specs.Places.{IsNode};
ghost use Rattle.ltm_lean.specs.declared.node.LeanNode.{LeanNode};
ghost use Rattle.ltm_lean.specs.Nodes.{AreTables, IsNodeAt, StandsAtNode};
ghost use Rattle.ltm_lean_make.specs.First.{IsStill, StandsFirst};

use crate::incoming::all_incoming;
use crate::lists::node_list;
use crate::outgoing::all_outgoing;
use ltm_lean::{LeanNode, Tables, own_place};
use ltm_lean_node::NodeWeights;
use ltm_scenario::Scenario;
use ltm_setting::{destination_at, node_count, out_links};
use ltm_units::{NoMemory, NodeId};
use std::alloc::Global;

/// A node before the first slot: nothing stands on any link into it, nothing has left its origin, and its weights have not been
/// looked up.
fn node_of(
    alloc: Global,
    scenario: &Scenario,
    tables: &Tables,
    node: NodeId,
) -> Result<LeanNode, NoMemory>
    requires node { IsNode scenario.now node.0 }
    requires tables { AreTables (setting_of scenario.now) tables.now }
    ensures number { IfOk result (λ n. n.node.0 ≡ node.0) }
    ensures node { IfOk result (IsNodeAt (setting_of scenario.now) tables.now) }
    ensures stands { IfOk result (StandsFirst (setting_of scenario.now) tables.now) }
    ensures still { IfOk result (IsStill (setting_of scenario.now)) }
{
    let list = node_list(scenario, tables, node);
    let own = own_place(list, destination_at(scenario, node));
    let ins = all_incoming(alloc, scenario, tables, node)?;
    let outs = all_outgoing(alloc, scenario, tables, node)?;
    let gone = vec![in alloc; 0u32; list.len()].map_err(|_| NoMemory)?;
    let kept = NodeWeights::none(alloc, list.len() * out_links(scenario, node).len())?;
    Ok(LeanNode {
        node,
        own,
        ins,
        outs,
        left: 0,
        gone,
        kept,
    })
}

/// The nodes of a scenario before its first slot, in order of number: nothing stands on any link, nothing has left any origin.
pub fn nodes_of(
    alloc: Global,
    scenario: &Scenario,
    tables: &Tables,
) -> Result<Vec<LeanNode>, NoMemory>
    requires tables { AreTables (setting_of scenario.now) tables.now }
    ensures count { IfOk result (λ nodes. length nodes.items ≡ (setting_of scenario.now).nodes) }
    ensures each { IfOk result (λ nodes. (u : ℕ) (d : LeanNode) → u < (setting_of scenario.now).nodes
        → ((slice_index_or nodes.items u d).node.0 ≡ u) × IsNodeAt (setting_of scenario.now) tables.now (slice_index_or nodes.items u d)) }
    ensures stands { IfOk result (λ nodes. (c : Counts) (u : ℕ) (d : LeanNode) → IsLoading (setting_of scenario.now) c → u < (setting_of scenario.now).nodes
        → StandsAtNode (setting_of scenario.now) c tables.now 0 0 (slice_index_or nodes.items u d)) }
    ensures still { IfOk result (λ nodes. (u : ℕ) (d : LeanNode) → IsNode scenario.now u → IsStill (setting_of scenario.now) (slice_index_or nodes.items u d)) }
{
    let mut nodes = Vec::new(alloc);
    for number in 0..node_count(scenario) {
        let node = node_of(alloc, scenario, tables, NodeId(number))?;
        nodes.push(node)?;
    }
    Ok(nodes)
}
