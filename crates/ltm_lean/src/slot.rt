//! A slot of a node.
ghost use Rattle.std.specs.Prelude.{◌≡◌, ℕ, ◌+◌, ◌-◌, ◌*◌, ◌^◌, ◌<◌, ◌≤◌, length, OnOk};
ghost use Rattle.ltm_curve.specs.Counts.{Counts};
ghost use Rattle.ltm_loading.specs.Loading.{IsLoading};
ghost use Rattle.ltm_node.specs.Shape.{width};
ghost use Rattle.ltm_setting.specs.Setting.{setting_of};
ghost use Rattle.ltm_setting.specs.Places.{IsSlot, arms_at};
ghost use Rattle.ltm_used.specs.Lists.{list_of};
ghost use Rattle.ltm_lean_node.specs.Rows.{AreSent};
ghost use Rattle.ltm_lean.specs.Nodes.{AreTables, IsFrozen, IsNodeAt, MovedAtNode, SameNode, StandsAtNode};
ghost use Rattle.ltm_lean.specs.Rooms.{row_width, step_width};

use crate::in_links::send_links;
use crate::node::LeanNode;
use crate::resting::are_zero;
use crate::room::NodeRoom;
use crate::step::step_node;
use crate::tables::Tables;
use ltm_existence::there_is_a_loading;
use ltm_node::{NodeInputs, NodeOutputs, NodeShape};
use ltm_origin::origin_sends_listed;
use ltm_scenario::Scenario;
use ltm_setting::is_setting;
use ltm_units::NoMemory;

/// Takes in what entered the links into a node in the slot before, and writes what its arms send in the slot: link by link,
/// and behind them the origin of a node with out-links.
pub(crate) fn send_all(
    scenario: &Scenario,
    tables: &Tables,
    slot: u32,
    node: &mut LeanNode,
    row: &mut [u64],
) -> Result<(), NoMemory>
    requires slot { IsSlot scenario.now slot }
    requires tables { AreTables (setting_of scenario.now) tables.now }
    requires node { IsNodeAt (setting_of scenario.now) tables.now node.old }
    requires room { arms_at scenario.now node.old.node.0 * length (list_of tables.now.nodes node.old.node.0) ≤ length row.old }
    ensures node { IsNodeAt (setting_of scenario.now) tables.now node.new }
    ensures same { SameNode node.old node.new }
    ensures sent { OnOk result ((c : Counts) → IsLoading (setting_of scenario.now) c → IsFrozen (setting_of scenario.now) c slot tables.now
        → StandsAtNode (setting_of scenario.now) c tables.now (slot - 1) slot node.old
        → AreSent (setting_of scenario.now) c node.old.node.0 slot (list_of tables.now.nodes node.old.node.0) row.new) }
    ensures stands { OnOk result ((c : Counts) → IsLoading (setting_of scenario.now) c → IsFrozen (setting_of scenario.now) c slot tables.now
        → StandsAtNode (setting_of scenario.now) c tables.now (slot - 1) slot node.old
        → StandsAtNode (setting_of scenario.now) c tables.now slot slot node.new) }
{
    is_setting(scenario);
    there_is_a_loading();
    let list = tables.nodes.on(node.node.0 as usize);
    let wide = list.len();
    send_links(
        scenario,
        tables,
        node.node.0,
        slot,
        wide,
        &mut node.ins,
        row,
    )?;
    if !node.outs.is_empty() {
        let from = node.ins.len() * wide;
        origin_sends_listed(
            scenario,
            node.node,
            slot,
            list,
            node.left,
            &node.gone,
            &mut row[from..from + wide],
        );
    }
    Ok(())
}

/// The shape of a node for its list; which of the destinations it is, is left out.
fn shape_at(scenario: &Scenario, tables: &Tables, node: &LeanNode) -> NodeShape
    requires tables { AreTables (setting_of scenario.now) tables.now }
    requires node { IsNodeAt (setting_of scenario.now) tables.now node.now }
    ensures arms { result.arms ≡ arms_at scenario.now node.now.node.0 }
    ensures outs { result.outs ≡ (setting_of scenario.now).outs node.now.node.0 }
    ensures destinations { result.destinations ≡ length (list_of tables.now.nodes node.now.node.0) }
    ensures small { width result < 2 ^ 32 }
{
    is_setting(scenario);
    let destinations = tables.nodes.on(node.node.0 as usize).len() as u32;
    let outs = node.outs.len() as u32;
    NodeShape {
        arms: node.ins.len() as u32 + outs.min(1),
        outs,
        destinations,
        own: None,
        by_turn: false,
    }
}

/// One slot of a node, in room that is as wide as its step wants it. The row takes what its arms send; where they send nothing,
/// nothing moves.
fn move_node(
    scenario: &Scenario,
    tables: &Tables,
    slot: u32,
    node: &mut LeanNode,
    takes: &mut [u64],
    row: &mut [u64],
    inputs: &mut NodeInputs,
    outputs: &mut NodeOutputs,
) -> Result<(), NoMemory>
    requires slot { IsSlot scenario.now slot }
    requires tables { AreTables (setting_of scenario.now) tables.now }
    requires node { IsNodeAt (setting_of scenario.now) tables.now node.old }
    requires takes { length takes.old ≡ (setting_of scenario.now).outs node.old.node.0 }
    requires width { length row.old ≡ arms_at scenario.now node.old.node.0 * length (list_of tables.now.nodes node.old.node.0) }
    requires inputs { row_width (setting_of scenario.now) tables.now node.old.node.0 ≤ inputs.old.room }
    requires outputs { step_width (setting_of scenario.now) tables.now node.old.node.0 ≤ outputs.old.room }
    requires frozen { (c : Counts) → IsLoading (setting_of scenario.now) c → IsFrozen (setting_of scenario.now) c slot tables.now }
    requires stands { (c : Counts) → IsLoading (setting_of scenario.now) c
        → StandsAtNode (setting_of scenario.now) c tables.now (slot - 1) slot node.old }
    ensures node { IsNodeAt (setting_of scenario.now) tables.now node.new }
    ensures same_node { node.new.node ≡ node.old.node }
    ensures same_own { node.new.own ≡ node.old.own }
    ensures inputs { inputs.new.room ≡ inputs.old.room }
    ensures outputs { outputs.new.room ≡ outputs.old.room }
    ensures stands { OnOk result ((c : Counts) → IsLoading (setting_of scenario.now) c
        → StandsAtNode (setting_of scenario.now) c tables.now slot (slot + 1) node.new) }
    ensures moved { OnOk result ((c : Counts) → IsLoading (setting_of scenario.now) c
        → MovedAtNode (setting_of scenario.now) c tables.now slot node.new) }
{
    is_setting(scenario);
    send_all(scenario, tables, slot, node, row)?;
    if are_zero(row) {
        node.rest();
        return Ok(());
    }
    node.renew(scenario, tables, slot);
    step_node(scenario, tables, node, slot, takes, row, inputs, outputs);
    node.pass(outputs);
    Ok(())
}

/// One slot of a node, in room that is wide enough.
fn move_within(
    scenario: &Scenario,
    tables: &Tables,
    slot: u32,
    node: &mut LeanNode,
    takes: &mut [u64],
    row: &mut [u64],
    inputs: &mut NodeInputs,
    outputs: &mut NodeOutputs,
) -> Result<(), NoMemory>
    requires slot { IsSlot scenario.now slot }
    requires tables { AreTables (setting_of scenario.now) tables.now }
    requires node { IsNodeAt (setting_of scenario.now) tables.now node.old }
    requires takes { (setting_of scenario.now).outs node.old.node.0 ≤ length takes.old }
    requires width { row_width (setting_of scenario.now) tables.now node.old.node.0 ≤ length row.old }
    requires inputs { row_width (setting_of scenario.now) tables.now node.old.node.0 ≤ inputs.old.room }
    requires outputs { step_width (setting_of scenario.now) tables.now node.old.node.0 ≤ outputs.old.room }
    requires frozen { (c : Counts) → IsLoading (setting_of scenario.now) c → IsFrozen (setting_of scenario.now) c slot tables.now }
    requires stands { (c : Counts) → IsLoading (setting_of scenario.now) c
        → StandsAtNode (setting_of scenario.now) c tables.now (slot - 1) slot node.old }
    ensures node { IsNodeAt (setting_of scenario.now) tables.now node.new }
    ensures same_node { node.new.node ≡ node.old.node }
    ensures same_own { node.new.own ≡ node.old.own }
    ensures inputs { inputs.new.room ≡ inputs.old.room }
    ensures outputs { outputs.new.room ≡ outputs.old.room }
    ensures stands { OnOk result ((c : Counts) → IsLoading (setting_of scenario.now) c
        → StandsAtNode (setting_of scenario.now) c tables.now slot (slot + 1) node.new) }
    ensures moved { OnOk result ((c : Counts) → IsLoading (setting_of scenario.now) c
        → MovedAtNode (setting_of scenario.now) c tables.now slot node.new) }
{
    let shape = shape_at(scenario, tables, node);
    let takes = &mut takes[..shape.outs as usize];
    let row = &mut row[..shape.counts_begin()];
    move_node(scenario, tables, slot, node, takes, row, inputs, outputs)
}

impl LeanNode {
    ghost use Rattle.ltm_lean.specs.Rooms.{HasRoomFor, SameRoom};

    /// One slot of a node: takes in what entered the links into it in the slot before, and moves what moves there.
    pub fn slot(
        &mut self,
        scenario: &Scenario,
        tables: &Tables,
        slot: u32,
        room: &mut NodeRoom,
    ) -> Result<(), NoMemory>
        requires slot { IsSlot scenario.now slot }
        requires tables { AreTables (setting_of scenario.now) tables.now }
        requires node { IsNodeAt (setting_of scenario.now) tables.now self.old }
        requires room { HasRoomFor (setting_of scenario.now) tables.now self.old.node.0 room.old }
        requires frozen { (c : Counts) → IsLoading (setting_of scenario.now) c → IsFrozen (setting_of scenario.now) c slot tables.now }
        requires stands { (c : Counts) → IsLoading (setting_of scenario.now) c
            → StandsAtNode (setting_of scenario.now) c tables.now (slot - 1) slot self.old }
        ensures node { IsNodeAt (setting_of scenario.now) tables.now self.new }
        ensures same_node { self.new.node ≡ self.old.node }
        ensures same_own { self.new.own ≡ self.old.own }
        ensures room { SameRoom room.old room.new }
        ensures stands { OnOk result ((c : Counts) → IsLoading (setting_of scenario.now) c
            → StandsAtNode (setting_of scenario.now) c tables.now slot (slot + 1) self.new) }
        ensures moved { OnOk result ((c : Counts) → IsLoading (setting_of scenario.now) c
            → MovedAtNode (setting_of scenario.now) c tables.now slot self.new) }
    {
        move_within(
            scenario,
            tables,
            slot,
            self,
            &mut room.takes,
            &mut room.row,
            &mut room.inputs,
            &mut room.outputs,
        )
    }
}
