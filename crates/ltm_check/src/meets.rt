//! Whether the counts of a node at the end of a slot are its node step.
ghost use Rattle.std.specs.Prelude.{◌≡◌, ◌+◌, ◌↔◌, IsTrue, IfOk};
ghost use Rattle.ltm_curve.specs.Table.{counts_of};
ghost use Rattle.ltm_node.specs.Solvable.{IsSolvable};
ghost use Rattle.ltm_node.specs.Uncounted.{uncounted};
ghost use Rattle.ltm_loading.specs.Pairs.{MeetsStep};
ghost use Rattle.ltm_loading.specs.Uncounted.{IsUncountedPair};
ghost use Rattle.ltm_setting.specs.Setting.{setting_of};
ghost use Rattle.ltm_inputs.specs.Idle.{IsIdle};
ghost use Rattle.ltm_flows.specs.WorkingOn.{HasNodeRoom};
ghost use Rattle.ltm_inputs.specs.Fronts.{FrontAt};
ghost use Rattle.ltm_setting.specs.Places.{IsNode};

use crate::rows::node_grows;
use ltm_curve::Curves;
use ltm_inputs::{uncounted_if_sent, widest};
use ltm_loading::{counts_by_place, groups_by_row, in_range, inputs_by_place, step_by_moves};
use ltm_node::{NodeInputs, NodeOutputs, nothing_moves, one_step, same_shape, write_moves};
use ltm_scenario::Scenario;
use ltm_setting::is_setting;
use ltm_units::{NoMemory, Pair};
use std::alloc::Global;

/// Room for the step of any node.
#[derive(Drop)]
pub(crate) struct Room {
    inputs: NodeInputs,
    outputs: NodeOutputs,
}

/// Room for the step of any node of a scenario.
pub(crate) fn make_room(alloc: Global, scenario: &Scenario) -> Result<Room, NoMemory>
    ensures inputs { IfOk result (λ room. HasNodeRoom scenario.now room.inputs.room) }
    ensures outputs { IfOk result (λ room. HasNodeRoom scenario.now room.outputs.room) }
{
    let widest = widest(scenario);
    let inputs = NodeInputs::create(alloc, widest)?;
    let outputs = NodeOutputs::create(alloc, widest)?;
    Ok(Room { inputs, outputs })
}

/// Whether the counts of a node whose arms send something grow in a slot by what moves: by the node step of its inputs where
/// nothing has been counted.
fn meets_moves(scenario: &Scenario, curves: &Curves, pair: Pair, room: &mut Room) -> bool
    requires node { IsNode scenario.now pair.node.0 }
    requires front { FrontAt scenario.now curves.now pair.slot }
    requires reads { IsUncountedPair (setting_of scenario.now)
        (counts_of curves.now) pair.node.0 pair.slot (uncounted room.old.inputs) }
    requires solvable { IsSolvable (uncounted room.old.inputs) }
    requires inputs { HasNodeRoom scenario.now room.old.inputs.room }
    requires outputs { HasNodeRoom scenario.now room.old.outputs.room }
    ensures meets { IsTrue result
        ↔ MeetsStep (setting_of scenario.now) (counts_of curves.now) pair.node.0 pair.slot }
    ensures inputs { HasNodeRoom scenario.now room.new.inputs.room }
    ensures outputs { HasNodeRoom scenario.now room.new.outputs.room }
{
    groups_by_row();
    same_shape();
    one_step();
    in_range();
    step_by_moves();
    is_setting(scenario);
    write_moves(&room.inputs, &mut room.outputs);
    node_grows(scenario, curves, pair, Some(&room.outputs))
}

/// Whether the counts of a node whose arms send nothing stay in a slot.
fn meets_nothing(scenario: &Scenario, curves: &Curves, pair: Pair) -> bool
    requires node { IsNode scenario.now pair.node.0 }
    requires front { FrontAt scenario.now curves.now pair.slot }
    requires idle { IsIdle (setting_of scenario.now) (counts_of curves.now) pair.node.0 pair.slot }
    ensures { IsTrue result
        ↔ MeetsStep (setting_of scenario.now) (counts_of curves.now) pair.node.0 pair.slot }
{
    inputs_by_place();
    counts_by_place();
    groups_by_row();
    same_shape();
    one_step();
    in_range();
    nothing_moves();
    is_setting(scenario);
    node_grows(scenario, curves, pair, None)
}

/// Whether the counts of a node at the end of a slot are its node step. Takes no memory.
pub(crate) fn meets_step(scenario: &Scenario, curves: &Curves, pair: Pair, room: &mut Room) -> bool
    requires node { IsNode scenario.now pair.node.0 }
    requires front { FrontAt scenario.now curves.now pair.slot }
    requires inputs { HasNodeRoom scenario.now room.old.inputs.room }
    requires outputs { HasNodeRoom scenario.now room.old.outputs.room }
    ensures meets { IsTrue result
        ↔ MeetsStep (setting_of scenario.now) (counts_of curves.now) pair.node.0 pair.slot }
    ensures inputs { HasNodeRoom scenario.now room.new.inputs.room }
    ensures outputs { HasNodeRoom scenario.now room.new.outputs.room }
{
    if uncounted_if_sent(scenario, curves, pair, &mut room.inputs) {
        meets_moves(scenario, curves, pair, room)
    } else {
        meets_nothing(scenario, curves, pair)
    }
}
