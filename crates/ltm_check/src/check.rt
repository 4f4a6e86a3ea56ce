//! The check that curves are the loading of a scenario.
ghost use Rattle.std.specs.Prelude.{◌≡◌, ◌+◌, IfOk, IfSome, IsNone};
ghost use Rattle.ltm_curve.specs.Table.{counts_of};
ghost use Rattle.ltm_loading.specs.Loading.{IsFront};
ghost use Rattle.ltm_loading.specs.NextPair.{IsFrontTo};
ghost use Rattle.ltm_loading.specs.Pairs.{MeetsStep};
ghost use Rattle.ltm_setting.specs.Setting.{setting_of};
ghost use Rattle.ltm_check.specs.Verdict.{IsVerdict, IsFirstWrongNode};
ghost use Rattle.ltm_flows.specs.WorkingOn.{HasNodeRoom};
ghost use Rattle.ltm_inputs.specs.Fronts.{FrontAt};
ghost use Rattle.ltm_setting.specs.Places.{IsShapedFor};

use crate::faults::Checked;
use crate::meets::{Room, make_room, meets_step};
use crate::start::starts_right;
use ltm_curve::Curves;
use ltm_loading::next_slot;
use ltm_scenario::Scenario;
use ltm_setting::{node_count, slot_count};
use ltm_units::{NoMemory, NodeId, Pair};
use std::alloc::Global;

/// The first node whose counts at the end of a slot are not its node step.
fn first_wrong(scenario: &Scenario, curves: &Curves, slot: u32, room: &mut Room) -> Option<NodeId>
    requires front { FrontAt scenario.now curves.now slot }
    requires inputs { HasNodeRoom scenario.now room.old.inputs.room }
    requires outputs { HasNodeRoom scenario.now room.old.outputs.room }
    ensures none { IsNone result
        → IsFront (setting_of scenario.now) (counts_of curves.now) (slot + 1) }
    ensures wrong { IfSome result (λ node. IsFirstWrongNode (setting_of scenario.now)
        (counts_of curves.now) slot node.0) }
    ensures inputs { HasNodeRoom scenario.now room.new.inputs.room }
    ensures outputs { HasNodeRoom scenario.now room.new.outputs.room }
{
    next_slot();
    for node in 0..node_count(scenario) {
        let node = NodeId(node);
        if !meets_step(scenario, curves, Pair { node, slot }, room) {
            return Some(node);
        }
    }
    None
}

/// Whether curves of a scenario's shape are its loading: whether nothing is counted at the start and nothing leaves the
/// origin of a node without out-links, and then, slot by slot and node by node, whether the counts at the end of the slot are
/// the node step of what is counted by its beginning. No loading is made.
pub fn check_curves(
    alloc: Global,
    scenario: &Scenario,
    curves: &Curves,
) -> Result<Checked, NoMemory>
    requires { IsShapedFor scenario.now curves.now }
    ensures { IfOk result (IsVerdict (setting_of scenario.now) (counts_of curves.now)) }
{
    if !starts_right(scenario, curves) {
        return Ok(Checked::Start);
    }
    let mut room = make_room(alloc, scenario)?;
    for slot in 0..slot_count(scenario) {
        if let Some(node) = first_wrong(scenario, curves, slot, &mut room) {
            return Ok(Checked::No(Pair { node, slot }));
        }
    }
    Ok(Checked::Yes)
}
