//! Edits of all split rows of a node and a destination.
ghost use Rattle.std.specs.Prelude.{◌≡◌, ◌≢◌, ◌<◌, ◌==◌, All, Option, length, sum, Ok, Err, OnOk, OnErr, IfOk, IfErr, false};
ghost use Rattle.ltm_network.specs.Network.{out_links};
ghost use Rattle.ltm_splits.specs.Weights.{AreWeights};
ghost use Rattle.ltm_scenario.specs.Edits.{weights_at, entries_said, may_begin, row_checked, rows_checked, splits_edited};
ghost use Rattle.ltm_scenario.specs.State.{KeepsRoom};
ghost use Rattle.ltm_scenario.specs.Undo.{Undoes};
ghost use Rattle.ltm_scenario.specs.Parts.{scenario_in, state_in, AreParts};

use crate::edit::EditCause;
use crate::edits::split::cause_of_split;
use crate::parts::Parts;
use crate::parts::undo::Undo;
use crate::weights::Weights;
use ltm_splits::{PairRows, Weights as RowWeights};
use ltm_units::{Name, NodeId};

/// Whether a row may begin at the slot: the first at 0, each other behind the one before it, and all within the horizon.
fn may_begin(slots: u32, before: Option<u32>, from: u32) -> bool
    ensures { result ≡ may_begin slots before from }
{
    match before {
        None => from == 0 && from < slots,
        Some(before) => before < from && from < slots,
    }
}

impl Parts {
    pub fn edit_splits(
        &mut self,
        node: &Name,
        destination: &Name,
        rows: &[(u32, Weights)],
    ) -> Result<Undo, EditCause>
        requires parts { AreParts self.old }
        ensures ok { OnOk result
            (splits_edited (scenario_in self.old) node.now destination.now rows.now
            ≡ Ok (scenario_in self.new)) }
        ensures undo { IfOk result (Undoes (state_in self.old) (state_in self.new)) }
        ensures err { OnErr result (scenario_in self.new ≡ scenario_in self.old) }
        ensures cause { IfErr result (λ e. e ≢ EditCause.NoMemory
            → splits_edited (scenario_in self.old) node.now destination.now rows.now ≡ Err e) }
        ensures room { KeepsRoom (state_in self.old) (state_in self.new) }
        ensures parts { AreParts self.new }
    {
        let (node, destination) = match self.named_pair(node, destination) {
            Ok(pair) => pair,
            Err(cause) => return Err(cause),
        };
        let rows = match self.rows_said(node, destination, rows) {
            Ok(rows) => rows,
            Err(cause) => return Err(cause),
        };
        match self.change_pair(node, destination, rows) {
            Ok(undo) => return Ok(undo),
            Err(fault) => return Err(cause_of_split(fault)),
        }
    }

    /// The weights of a row that an edit says, where they are those of out-links, not all 0, and lead on.
    #[tactic(auto, unfolding(crate::specs::Edits::row_checked))]
    fn row_said(
        &self,
        node: NodeId,
        destination: u32,
        weights: &Weights,
    ) -> Result<RowWeights, EditCause>
        requires node { node.0 < length (scenario_in self.now).network.nodes }
        requires destination { destination < length (scenario_in self.now).destinations }
        ensures ok { OnOk result
            (row_checked (scenario_in self.now) node.0 destination weights.now ≡ Ok tt) }
        ensures cause { IfErr result (λ e.
            row_checked (scenario_in self.now) node.0 destination weights.now ≡ Err e) }
        ensures row { IfOk result (λ row. row
            ≡ weights_at (scenario_in self.now) node.0 weights.now) }
    {
        if !self.are_out_links(node, weights.pairs()) {
            return Err(EditCause::UnknownName);
        }
        let Some(row) = self.weights_at(node, weights.pairs()) else {
            return Err(EditCause::ZeroWeight);
        };
        if !self.all_lead_on(destination, self.network.out_links(node), row.as_slice()) {
            return Err(EditCause::OpenSplit);
        }
        Ok(row)
    }

    /// The rows that an edit says, with a weight for each out-link of the node.
    fn rows_said(
        &self,
        node: NodeId,
        destination: u32,
        rows: &[(u32, Weights)],
    ) -> Result<PairRows, EditCause>
        requires node { node.0 < length (scenario_in self.now).network.nodes }
        requires destination { destination < length (scenario_in self.now).destinations }
        ensures ok { OnOk result
            (rows_checked (scenario_in self.now) node.0 destination None rows.now ≡ Ok tt) }
        ensures cause { IfErr result (λ e. e ≢ EditCause.NoMemory
            → rows_checked (scenario_in self.now) node.0 destination None rows.now ≡ Err e) }
        ensures said { IfOk result (λ said. said
            ≡ entries_said (scenario_in self.now) node.0 rows.now) }
        ensures weights { IfOk result (λ said. All (λ row. AreWeights row.1) said) }
    {
        let mut said = PairRows::new();
        let mut before = None;
        let mut left = rows;
        'rows: while let Some((row, rest)) = left.split_first() {
            if !may_begin(self.setup.slots, before, row.0) {
                return Err(EditCause::BadSlots);
            }
            let weights = match self.row_said(node, destination, &row.1) {
                Ok(weights) => weights,
                Err(cause) => return Err(cause),
            };
            let _weights = weights.as_slice();
            if said.push(self.alloc, row.0, weights).is_err() {
                return Err(EditCause::NoMemory);
            }
            before = Some(row.0);
            left = rest;
        }
        if before.is_none() {
            return Err(EditCause::BadSlots);
        }
        Ok(said)
    }
}
