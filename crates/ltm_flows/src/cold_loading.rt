//! The loading of a scenario from an empty network.
ghost use Rattle.std.specs.Prelude.{◌≡◌, ◌≤◌, ◌<◌, ◌+◌, ℕ, IfOk};
ghost use Rattle.ltm_curve.specs.Table.{counts_of, IsEmpty};
ghost use Rattle.ltm_node.specs.Shape.{width};
ghost use Rattle.ltm_node.specs.Solvable.{IsSolvable};
ghost use Rattle.ltm_node.specs.Uncounted.{uncounted};
ghost use Rattle.ltm_loading.specs.Setting.{IsSetting};
ghost use Rattle.ltm_loading.specs.Loading.{IsFront, IsLoading};
ghost use Rattle.ltm_loading.specs.Uncounted.{IsUncountedPair};
ghost use Rattle.ltm_setting.specs.Setting.{setting_of};
ghost use Rattle.ltm_flows.specs.Working.{IsWorking};
ghost use Rattle.ltm_flows.specs.WorkingOn.{HasNodeRoom, WorksAt};
ghost use Rattle.ltm_setting.specs.Places.{IsDestination, IsNode, IsShapedFor, IsSlot, all_groups};

use crate::moves::add_moves;
use ltm_curve::Curves;
use ltm_inputs::{uncounted_if_sent, widest};
use ltm_loading::{
    counts_by_place, counts_set_only, inputs_by_place, inputs_read_only, next_pair, next_slot,
    outputs_small, set_by_one_pair, step_by_moves,
};
use ltm_node::{NodeInputs, NodeOutputs, no_arrivals, nothing_moves, same_shape, write_moves};
use ltm_scenario::Scenario;
use ltm_setting::{destination_count, group_count, is_setting, node_count, slot_count};
use ltm_units::{NoMemory, NodeId, Pair};
use std::alloc::Global;

/// Room for the step of any node.
#[derive(Drop)]
struct Room {
    inputs: NodeInputs,
    outputs: NodeOutputs,
}

/// Curves for the loadings of a scenario, in which all counts are 0.
pub fn fresh(alloc: Global, scenario: &Scenario) -> Result<Curves, NoMemory>
    ensures shape { IfOk result (λ c. IsShapedFor scenario.now c) }
    ensures empty { IfOk result IsEmpty }
{
    Curves::create(
        alloc,
        group_count(scenario),
        destination_count(scenario),
        slot_count(scenario),
    )
}

/// Room for the step of any node of a scenario.
fn make_room(alloc: Global, scenario: &Scenario) -> Result<Room, NoMemory>
    ensures inputs { IfOk result (λ room. HasNodeRoom scenario.now room.inputs.room) }
    ensures outputs { IfOk result (λ room. HasNodeRoom scenario.now room.outputs.room) }
{
    let widest = widest(scenario);
    let inputs = NodeInputs::create(alloc, widest)?;
    let outputs = NodeOutputs::create(alloc, widest)?;
    Ok(Room { inputs, outputs })
}

/// The step of a node in a slot. Where its arms send nothing, its counts stay as they were carried on.
fn load_pair(scenario: &Scenario, curves: &mut Curves, pair: Pair, room: &mut Room)
    requires setting { IsSetting (setting_of scenario.now) }
    requires node { IsNode scenario.now pair.node.0 }
    requires slot { IsSlot scenario.now pair.slot }
    requires working { WorksAt scenario.now curves.old pair.slot pair.node.0 }
    requires inputs { HasNodeRoom scenario.now room.old.inputs.room }
    requires outputs { HasNodeRoom scenario.now room.old.outputs.room }
    ensures working { WorksAt scenario.now curves.new pair.slot (pair.node.0 + 1) }
    ensures inputs { HasNodeRoom scenario.now room.new.inputs.room }
    ensures outputs { HasNodeRoom scenario.now room.new.outputs.room }
{
    inputs_by_place();
    counts_by_place();
    nothing_moves();
    if uncounted_if_sent(scenario, curves, pair, &mut room.inputs) {
        move_pair(scenario, curves, pair, &room.inputs, &mut room.outputs);
    }
}

/// The step of a node in a slot: what moves, from inputs whose counts are not told, is added to its counts, which were carried
/// on to the slot's end. No count up to the slot's beginning changes. Takes no memory.
pub fn move_pair(
    scenario: &Scenario,
    curves: &mut Curves,
    pair: Pair,
    inputs: &NodeInputs,
    outputs: &mut NodeOutputs,
)
    requires setting { IsSetting (setting_of scenario.now) }
    requires node { IsNode scenario.now pair.node.0 }
    requires slot { IsSlot scenario.now pair.slot }
    requires working { WorksAt scenario.now curves.old pair.slot pair.node.0 }
    requires reads { IsUncountedPair (setting_of scenario.now)
        (counts_of curves.old) pair.node.0 pair.slot (uncounted inputs.now) }
    requires solvable { IsSolvable (uncounted inputs.now) }
    requires room { HasNodeRoom scenario.now outputs.old.room }
    ensures working { WorksAt scenario.now curves.new pair.slot (pair.node.0 + 1) }
    ensures stays { (g d k : ℕ) → g < all_groups scenario.now
        → IsDestination scenario.now d → k ≤ pair.slot
        → counts_of curves.new g d k ≡ counts_of curves.old g d k }
    ensures room { outputs.new.room ≡ outputs.old.room }
{
    counts_by_place();
    outputs_small();
    step_by_moves();
    next_pair();
    same_shape();
    no_arrivals();
    set_by_one_pair();
    let _slots = slot_count(scenario);
    write_moves(inputs, outputs);
    add_moves(scenario, curves, pair, outputs);
}

/// The steps of all nodes in a slot. All counts are first carried on to the slot's end, and what moves is then added
/// there.
fn load_slot(scenario: &Scenario, curves: &mut Curves, slot: u32, room: &mut Room)
    requires setting { IsSetting (setting_of scenario.now) }
    requires slot { IsSlot scenario.now slot }
    requires working { IsWorking (setting_of scenario.now) curves.old slot }
    requires inputs { HasNodeRoom scenario.now room.old.inputs.room }
    requires outputs { HasNodeRoom scenario.now room.old.outputs.room }
    ensures working { IsWorking (setting_of scenario.now) curves.new (slot + 1) }
    ensures inputs { HasNodeRoom scenario.now room.new.inputs.room }
    ensures outputs { HasNodeRoom scenario.now room.new.outputs.room }
{
    next_slot();
    begin_slot(scenario, curves, slot);
    for node in 0..node_count(scenario) {
        let node = NodeId(node);
        load_pair(scenario, curves, Pair { node, slot }, room);
    }
}

/// Carries all counts on to the end of a slot. No count up to the slot's beginning changes. Takes no memory.
pub fn begin_slot(scenario: &Scenario, curves: &mut Curves, slot: u32)
    requires setting { IsSetting (setting_of scenario.now) }
    requires slot { IsSlot scenario.now slot }
    requires working { IsWorking (setting_of scenario.now) curves.old slot }
    ensures working { WorksAt scenario.now curves.new slot 0 }
    ensures stays { (g d k : ℕ) → g < all_groups scenario.now
        → IsDestination scenario.now d → k ≤ slot
        → counts_of curves.new g d k ≡ counts_of curves.old g d k }
{
    inputs_read_only();
    counts_set_only();
    set_by_one_pair();
    curves.carry(slot);
}

/// The loading of a scenario: slot by slot from an empty network, all nodes of a slot in order of number.
pub fn cold(alloc: Global, scenario: &Scenario) -> Result<Curves, NoMemory>
    ensures shape { IfOk result (λ c. IsShapedFor scenario.now c) }
    ensures loading { IfOk result (λ c. IsLoading (setting_of scenario.now) (counts_of c)) }
{
    is_setting(scenario);
    let mut curves = fresh(alloc, scenario)?;
    let mut room = make_room(alloc, scenario)?;
    for slot in 0..slot_count(scenario) {
        load_slot(scenario, &mut curves, slot, &mut room);
    }
    Ok(curves)
}
