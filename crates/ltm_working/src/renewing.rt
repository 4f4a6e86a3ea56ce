//! The counts of a commit are set, its readers become active, and the cells that it changes are noted.
//!
//! All is done in one pass over the groups of the node: each row is compared once, with the one that is to be set, which is
//! given as it is or as what has moved in the slot (`StepForm`). Where a row differs it is written, its cell is noted, and the
//! tail or the head of the link wakes in the slots that read it. Where any row differs the node's own next slot wakes, and
//! what was kept of it is forgotten: its counts are not those of its slot's beginning any more.
ghost use Rattle.std.specs.Prelude.{◌≡◌, ◌+◌, ◌<◌, drop, true};
ghost use Rattle.ltm_curve.specs.Table.{counts_of};
ghost use Rattle.ltm_node.specs.Shape.{weights_begin};
ghost use Rattle.ltm_node.specs.Solvable.{IsSolvable};
ghost use Rattle.ltm_node.specs.Uncounted.{uncounted};
ghost use Rattle.ltm_loading.specs.Uncounted.{IsUncountedPair};
ghost use Rattle.ltm_setting.specs.Setting.{setting_of};
ghost use Rattle.ltm_frontier.specs.Frontier.{is_claimed, is_pair, Activates};
ghost use Rattle.ltm_rows.specs.declared.layout.Part.TheVariants.{Amounts, Weights};
ghost use Rattle.ltm_rows.specs.Starts.{part_width};
ghost use Rattle.ltm_rows.specs.Parts.{without_counts};
ghost use Rattle.ltm_rows.specs.Rows.{
  nodes_kept,
  slots_kept,
  amounts_width,
  weights_width,
  weights_of,
  is_weighed,
  ForgetsRow,
  PutsRow,
  HasRows,
};
ghost use Rattle.ltm_setting.specs.Places.{IsNode, IsSlot};
ghost use Rattle.ltm_working.specs.Desks.{curves_of, row_without_counts};
ghost use Rattle.ltm_working.specs.Ready.{WeightsAreCurrent};
ghost use Rattle.ltm_working.specs.Renewed.{
  renewed_counts,
  FitsRenewal,
  RenewsOrigin,
  RenewsNode,
  RenewsPair,
  Settles,
};
ghost use Rattle.ltm_working.specs.Scenarios.{HasPairsOf};

use crate::differing::{renew, renew_sink};
use crate::renewal::Renewal;
use crate::table::Table;
use ltm_frontier::Frontier;
use ltm_loading::counts_by_place;
use ltm_node::NodeInputs;
use ltm_rows::{KeptRows, parts_of};
use ltm_scenario::Scenario;
use ltm_setting::{dep_of, in_links, is_setting, out_links, slot_count};
use ltm_units::Pair;

/// Makes the next slot of a pair's node active, where there is one, and forgets what is kept of it.
#[inline]
fn wake_next(scenario: &Scenario, frontier: &mut Frontier, kept: &mut KeptRows, pair: Pair)
    requires node { IsNode scenario.now pair.node.0 }
    requires slot { IsSlot scenario.now pair.slot }
    requires pairs { HasPairsOf scenario.now frontier.old }
    requires kept { HasRows (setting_of scenario.now) (setting_of scenario.now).slots kept.old }
    ensures wakes { Activates frontier.old frontier.new (is_pair pair.node.0 (pair.slot + 1)) }
    ensures kept { ForgetsRow kept.old kept.new pair.node.0 (pair.slot + 1) }
{
    let slot = pair.slot + 1;
    if slot >= slot_count(scenario) {
        return;
    }
    frontier.mark(Pair { slot, ..pair });
    kept.forget(pair.node.0 as usize, slot as usize);
}

/// Keeps the inputs of a pair, in which its counts may not stand: its amounts alone are written where its weights stand.
#[inline]
fn keep(kept: &mut KeptRows, pair: Pair, inputs: &NodeInputs)
    requires node { pair.node.0 < nodes_kept kept.old }
    requires slot { pair.slot < slots_kept kept.old }
    requires amounts { part_width Amounts inputs.now.shape ≡ amounts_width kept.old pair.node.0 }
    requires weights { part_width Weights inputs.now.shape ≡ weights_width kept.old pair.node.0 }
    requires solvable { IsSolvable (uncounted inputs.now) }
    requires weighed { is_weighed kept.old pair.node.0 pair.slot ≡ true
        → weights_of kept.old pair.node.0 pair.slot
        ≡ drop (weights_begin inputs.now.shape) inputs.now.row }
    ensures { PutsRow kept.old kept.new pair.node.0 pair.slot
        (without_counts inputs.now.shape inputs.now.row) }
{
    let (node, slot) = (pair.node.0 as usize, pair.slot as usize);
    let parts = parts_of(inputs);
    if kept.is_weighed(node, slot) {
        kept.put_again(node, slot, parts);
        return;
    }
    kept.put(node, slot, parts);
}

impl Table {
    /// Sets what has left the origin of a node, where the node has out-links; whether some count was another one. If so the
    /// cell is noted as changed.
    fn renew_origin(&mut self, renewal: Renewal) -> bool
        requires { FitsRenewal renewal self.old }
        ensures { RenewsOrigin (setting_of renewal.entry.scenario.now) renewal.entry.pair.node.0
            (renewal.entry.pair.slot + 1) (renewed_counts renewal.entry self.old)
            self.old result self.new }
    {
        let Renewal {
            scenario,
            pair,
            given,
            outputs,
        } = renewal;
        is_setting(scenario);
        if out_links(scenario, pair.node).is_empty() {
            return false;
        }
        let origin = in_links(scenario, pair.node).len() as u32;
        let group = dep_of(scenario, pair.node);
        let numbers = outputs.left_row(origin);
        renew(
            &mut self.curves,
            &mut self.changed,
            group,
            pair.slot,
            given,
            numbers,
        )
    }

    /// Sets the counts of a pair, wakes the readers of those that were others, but for the pair's own next slot, and notes the
    /// cells; whether there is one.
    fn renew_node(&mut self, renewal: Renewal) -> bool
        requires { FitsRenewal renewal self.old }
        ensures { RenewsNode (setting_of renewal.entry.scenario.now) renewal.entry.pair.node.0
            (renewal.entry.pair.slot + 1) (renewed_counts renewal.entry self.old)
            self.old result self.new }
    {
        let Renewal {
            scenario,
            pair,
            given,
            outputs,
        } = renewal;
        is_setting(scenario);
        counts_by_place();
        let _shape = outputs.shape();
        let tails = self.renew_tails(renewal);
        let origin = self.renew_origin(renewal);
        let heads = self.renew_heads(renewal);
        let arrived = outputs.arrived();
        let sink = renew_sink(
            scenario,
            &mut self.curves,
            &mut self.changed,
            pair,
            given,
            arrived,
        );
        (tails | origin) | (heads | sink)
    }

    /// Sets the counts of a pair, and no others. The readers of those that were others become active, and the cells are noted.
    /// Where there is one, what is kept of the next slot is forgotten.
    fn renew_pair(&mut self, renewal: Renewal)
        requires { FitsRenewal renewal self.old }
        ensures { RenewsPair (setting_of renewal.entry.scenario.now) renewal.entry.pair.node.0
            (renewal.entry.pair.slot + 1) (renewed_counts renewal.entry self.old)
            self.old self.new }
    {
        let any = self.renew_node(renewal);
        if !any {
            return;
        }
        wake_next(
            renewal.scenario,
            &mut self.frontier,
            &mut self.kept,
            renewal.pair,
        );
    }

    /// Sets the counts of a claimed pair and keeps its inputs, in which its counts may not stand yet. The claim is gone.
    pub(crate) fn settle(&mut self, renewal: Renewal, inputs: &NodeInputs)
        requires renewal { FitsRenewal renewal self.old }
        requires claimed { is_claimed self.old.frontier renewal.pair.node.0 renewal.pair.slot
            ≡ true }
        requires weights { WeightsAreCurrent (setting_of renewal.scenario.now) self.old.kept }
        requires inputs { IsUncountedPair (setting_of renewal.scenario.now)
            (counts_of (curves_of self.old)) renewal.pair.node.0 renewal.pair.slot
            (uncounted inputs.now) }
        requires solvable { IsSolvable (uncounted inputs.now) }
        ensures { Settles (setting_of renewal.entry.scenario.now) renewal.entry.pair.node.0
            renewal.entry.pair.slot (renewed_counts renewal.entry self.old)
            (row_without_counts (setting_of renewal.entry.scenario.now)
            renewal.entry.pair.node.0 inputs.now.row) self.old self.new }
    {
        let pair = renewal.pair;
        self.renew_pair(renewal);
        keep(&mut self.kept, pair, inputs);
        self.frontier.release(pair);
    }
}
