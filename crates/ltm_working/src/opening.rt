//! A loading is made for a table, and what its pairs read is kept on the way.
ghost use Rattle.std.specs.Prelude.{◌≡◌, ◌+◌, IfOk, IsFalse, IsTrue};
ghost use Rattle.ltm_curve.specs.Table.{counts_of};
ghost use Rattle.ltm_node.specs.Solvable.{IsSolvable};
ghost use Rattle.ltm_node.specs.Uncounted.{uncounted};
ghost use Rattle.ltm_loading.specs.Setting.{IsSetting};
ghost use Rattle.ltm_loading.specs.Uncounted.{IsUncountedPair};
ghost use Rattle.ltm_setting.specs.Setting.{setting_of};
ghost use Rattle.ltm_inputs.specs.Idle.{IsIdle};
ghost use Rattle.ltm_rows.specs.Begins.{TellsBegins};
ghost use Rattle.ltm_working.specs.Placing.{KeepsSlots};
ghost use Rattle.ltm_flows.specs.WorkingOn.{HasNodeRoom};
ghost use Rattle.ltm_sending.specs.Fronts.{FrontAt};
ghost use Rattle.ltm_setting.specs.Places.{IsNode, IsSlot};

use crate::places::place_first;
use crate::table::WIDEST;
use ltm_curve::Curves;
use ltm_flows::{begin_slot, fresh, move_pair};
use ltm_inputs::{flows_of, is_sent, weigh_as};
use ltm_loading::{counts_by_place, inputs_by_place, next_slot, uncounted_in_range};
use ltm_node::{NodeInputs, NodeOutputs, nothing_moves};
use ltm_pairs::ReadIndex;
use ltm_rows::{Begins, KeptRows, parts_of};
use ltm_scenario::Scenario;
use ltm_setting::{is_setting, link_count, node_count, slot_count};
use ltm_units::{NoMemory, NodeId, Pair};
use std::alloc::Global;

/// Keeps what the pair of the next node of a slot reads but for its counts, and places its positions; whether any of its arms
/// sends something. Where one does its inputs stand ready but for the counts, and else nothing moves.
fn keep_pair(
    scenario: &Scenario,
    curves: &Curves,
    begins: &Begins,
    pair: Pair,
    kept: &mut KeptRows,
    index: &mut ReadIndex,
    inputs: &mut NodeInputs,
) -> bool
    requires setting { IsSetting (setting_of scenario.now) }
    requires node { IsNode scenario.now pair.node.0 }
    requires front { FrontAt scenario.now curves.now pair.slot }
    requires begins { TellsBegins (setting_of scenario.now) begins.now }
    requires keeps { KeepsSlots (setting_of scenario.now)
        (counts_of curves.now) kept.old index.old pair.slot pair.node.0 }
    requires room { HasNodeRoom scenario.now inputs.old.room }
    ensures keeps { KeepsSlots (setting_of scenario.now)
        (counts_of curves.now) kept.new index.new pair.slot (pair.node.0 + 1) }
    ensures inputs { IsTrue result → IsUncountedPair (setting_of scenario.now)
        (counts_of curves.now) pair.node.0 pair.slot (uncounted inputs.new) }
    ensures solvable { IsTrue result → IsSolvable (uncounted inputs.new) }
    ensures idle { IsFalse result
        → IsIdle (setting_of scenario.now) (counts_of curves.now) pair.node.0 pair.slot }
    ensures room { inputs.new.room ≡ inputs.old.room }
{
    uncounted_in_range();
    let (node, slot) = (pair.node.0 as usize, pair.slot as usize);
    let mut positions = [0u32; 4];
    flows_of(scenario, curves, pair, inputs, &mut positions);
    place_first(scenario, curves, pair, &positions, index);
    kept.weigh(scenario, begins, pair);
    if !is_sent(inputs) {
        kept.put_limits(node, slot, parts_of(inputs));
        return false;
    }
    weigh_as(kept.weights(node, slot), inputs);
    kept.put_again(node, slot, parts_of(inputs));
    true
}

/// A loading in the making, with what its pairs have read so far, and room for the step of any node.
#[derive(Drop)]
pub(crate) struct Opening {
    pub(crate) curves: Curves,
    pub(crate) kept: KeptRows,
    pub(crate) index: ReadIndex,
    begins: Begins,
    inputs: NodeInputs,
    outputs: NodeOutputs,
}

impl Opening {
    ghost use Rattle.ltm_working.specs.Openings.{IsOpenTo, IsOpenAt};

    /// An empty network, before the first slot.
    fn begin(alloc: Global, scenario: &Scenario) -> Result<Opening, NoMemory>
        ensures { IfOk result (λ opening. IsOpenTo (setting_of scenario.now) opening 0) }
    {
        is_setting(scenario);
        let slots = slot_count(scenario);
        let curves = fresh(alloc, scenario)?;
        let kept = KeptRows::create(alloc, scenario, slots as usize)?;
        let index = ReadIndex::create(alloc, link_count(scenario), slots)?;
        let begins = Begins::of(alloc, scenario)?;
        let inputs = NodeInputs::create(alloc, WIDEST)?;
        let outputs = NodeOutputs::create(alloc, WIDEST)?;
        Ok(Opening {
            curves,
            kept,
            index,
            begins,
            inputs,
            outputs,
        })
    }

    /// What the next pair reads is kept, and what moves is counted. Where its arms send nothing, its counts stay as they were
    /// carried on.
    fn open_pair(&mut self, scenario: &Scenario, pair: Pair)
        requires setting { IsSetting (setting_of scenario.now) }
        requires node { IsNode scenario.now pair.node.0 }
        requires slot { IsSlot scenario.now pair.slot }
        requires so_far { IsOpenAt (setting_of scenario.now) self.old pair.slot pair.node.0 }
        ensures { IsOpenAt (setting_of scenario.now) self.new pair.slot (pair.node.0 + 1) }
    {
        inputs_by_place();
        counts_by_place();
        nothing_moves();
        let sent = keep_pair(
            scenario,
            &self.curves,
            &self.begins,
            pair,
            &mut self.kept,
            &mut self.index,
            &mut self.inputs,
        );
        if sent {
            move_pair(
                scenario,
                &mut self.curves,
                pair,
                &self.inputs,
                &mut self.outputs,
            );
        }
    }

    /// All pairs of the next slot.
    fn open_slot(&mut self, scenario: &Scenario, slot: u32)
        requires setting { IsSetting (setting_of scenario.now) }
        requires slot { IsSlot scenario.now slot }
        requires so_far { IsOpenTo (setting_of scenario.now) self.old slot }
        ensures { IsOpenTo (setting_of scenario.now) self.new (slot + 1) }
    {
        next_slot();
        begin_slot(scenario, &mut self.curves, slot);
        for node in 0..node_count(scenario) {
            let node = NodeId(node);
            self.open_pair(scenario, Pair { node, slot });
        }
    }

    /// The whole loading of a scenario: the inputs of all pairs are kept, and their positions placed.
    pub(crate) fn load(alloc: Global, scenario: &Scenario) -> Result<Opening, NoMemory>
        ensures { IfOk result (λ opening. IsOpenTo (setting_of scenario.now) opening
            (setting_of scenario.now).slots) }
    {
        is_setting(scenario);
        let mut opening = Opening::begin(alloc, scenario)?;
        for slot in 0..slot_count(scenario) {
            opening.open_slot(scenario, slot);
        }
        Ok(opening)
    }
}
