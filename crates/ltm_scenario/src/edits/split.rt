//! Edits of one split row.
ghost use Rattle.std.specs.Prelude.{◌≡◌, ◌≢◌, ℕ, ◌<◌, ◌≤◌, ◌==◌, List, length, take, sum, Some, None, Ok, Err, OnOk, OnErr, IfOk, IfErr, IfSome, false, if◌then◌else◌};
ghost use Rattle.std.specs.List.{list_all};
ghost use Rattle.ltm_network.specs.Network.{out_links};
ghost use Rattle.ltm_scenario.specs.Reads.{destination_node};
ghost use Rattle.ltm_scenario.specs.Edits.{named_pair, split_key, split_row, split_edited, is_out_link, weight_of, weights_at, is_open, cause_of_split};
ghost use Rattle.ltm_scenario.specs.State.{KeepsRoom};
ghost use Rattle.ltm_scenario.specs.Undo.{Undoes};
ghost use Rattle.ltm_scenario.specs.Parts.{scenario_in, state_in, AreParts};

use crate::edit::EditCause;
use crate::parts::Parts;
use crate::parts::undo::Undo;
use crate::weights::Weights;
use ltm_splits::{SplitFault, SplitKey, Weights as RowWeights};
use ltm_units::{Name, NodeId};

pub(crate) fn cause_of_split(fault: SplitFault) -> EditCause
    ensures { result ≡ cause_of_split fault }
{
    match fault {
        SplitFault::BadSlots => EditCause::BadSlots,
        SplitFault::ZeroWeight => EditCause::ZeroWeight,
        SplitFault::TooManyRows => EditCause::TooManyRows,
        SplitFault::NoMemory => EditCause::NoMemory,
    }
}

impl Parts {
    pub fn edit_split(
        &mut self,
        node: &Name,
        destination: &Name,
        from: u32,
        weights: &Weights,
    ) -> Result<Undo, EditCause>
        requires parts { AreParts self.old }
        ensures ok { OnOk result
            (split_edited (scenario_in self.old) node.now destination.now from weights.now
            ≡ Ok (scenario_in self.new)) }
        ensures undo { IfOk result (Undoes (state_in self.old) (state_in self.new)) }
        ensures err { OnErr result (scenario_in self.new ≡ scenario_in self.old) }
        ensures cause { IfErr result (λ e. e ≢ EditCause.NoMemory
            → split_edited (scenario_in self.old) node.now destination.now from weights.now
            ≡ Err e) }
        ensures room { KeepsRoom (state_in self.old) (state_in self.new) }
        ensures parts { AreParts self.new }
    {
        let key = match self.split_key(node, destination, from, weights.pairs()) {
            Ok(key) => key,
            Err(cause) => return Err(cause),
        };
        let row = match self.split_row(key, weights.pairs()) {
            Ok(row) => row,
            Err(cause) => return Err(cause),
        };
        match self.change_split(key, row.as_slice()) {
            Ok(undo) => return Ok(undo),
            Err(fault) => return Err(cause_of_split(fault)),
        }
    }

    /// The node and the destination whose rows an edit sets.
    #[tactic(auto, unfolding(crate::specs::Edits::named_pair))]
    pub(crate) fn named_pair(
        &self,
        node: &Name,
        destination: &Name,
    ) -> Result<(NodeId, u32), EditCause>
        ensures ok { IfOk result (λ pair. named_pair (scenario_in self.now) node.now destination.now
            ≡ Ok (pair.0.0, pair.1)) }
        ensures cause { IfErr result (λ e. named_pair (scenario_in self.now) node.now destination.now
            ≡ Err e) }
        ensures node { IfOk result (λ pair. pair.0.0 < length (scenario_in self.now).network.nodes) }
        ensures destination { IfOk result
            (λ pair. pair.1 < length (scenario_in self.now).destinations) }
        ensures ends { IfOk result (λ pair.
            (pair.0.0 == destination_node (scenario_in self.now) pair.1) ≡ false) }
    {
        let Some(node) = self.network.find_node(node) else {
            return Err(EditCause::UnknownName);
        };
        let Some(end) = self.network.find_node(destination) else {
            return Err(EditCause::UnknownName);
        };
        let Some(destination) = self.destinations.place(end) else {
            return Err(EditCause::UnknownDestination);
        };
        if node.0 == end.0 {
            return Err(EditCause::SameEnds);
        }
        Ok((node, destination))
    }

    /// The key of the row that an edit sets.
    #[tactic(auto, unfolding(crate::specs::Edits::split_key))]
    fn split_key(
        &self,
        node: &Name,
        destination: &Name,
        from: u32,
        weights: &[(Name, u32)],
    ) -> Result<SplitKey, EditCause>
        ensures key { result
            ≡ split_key (scenario_in self.now) node.now destination.now from weights.now }
        ensures node { IfOk result (λ key. key.node.0 < length
            (scenario_in self.now).network.nodes) }
        ensures destination { IfOk result
            (λ key. key.destination < length (scenario_in self.now).destinations) }
        ensures ends { IfOk result (λ key.
            (key.node.0 == destination_node (scenario_in self.now) key.destination) ≡ false) }
    {
        let (node, destination) = match self.named_pair(node, destination) {
            Ok(pair) => pair,
            Err(cause) => return Err(cause),
        };
        if from >= self.setup.slots {
            return Err(EditCause::BadSlots);
        }
        if !self.are_out_links(node, weights) {
            return Err(EditCause::UnknownName);
        }
        Ok(SplitKey {
            node,
            destination,
            from,
        })
    }

    /// The weights of the row, where they are not all 0 and lead on.
    #[tactic(auto, unfolding(crate::specs::Edits::split_row))]
    fn split_row(&self, key: SplitKey, weights: &[(Name, u32)]) -> Result<RowWeights, EditCause>
        requires node { key.node.0 < length (scenario_in self.now).network.nodes }
        requires destination { key.destination < length (scenario_in self.now).destinations }
        ensures ok { IfOk result (λ row. split_row (scenario_in self.now) key
            (weights_at (scenario_in self.now) key.node.0 weights.now) ≡ Ok (key, row)) }
        ensures cause { IfErr result (λ e. split_row (scenario_in self.now) key
            (weights_at (scenario_in self.now) key.node.0 weights.now) ≡ Err e) }
        ensures row { IfOk result (λ row. row
            ≡ weights_at (scenario_in self.now) key.node.0 weights.now) }
        ensures each { IfOk result (λ row. length row
            ≡ length (out_links (scenario_in self.now).network key.node.0)) }
    {
        let Some(row) = self.weights_at(key.node, weights) else {
            return Err(EditCause::ZeroWeight);
        };
        if self.is_open(key, row.as_slice()) {
            return Err(EditCause::OpenSplit);
        }
        Ok(row)
    }

    /// Whether the row would leave some split open.
    fn is_open(&self, key: SplitKey, weights: &[u32]) -> bool
        requires node { key.node.0 < length (scenario_in self.now).network.nodes }
        requires destination { key.destination < length (scenario_in self.now).destinations }
        ensures { result ≡ is_open (scenario_in self.now) key.node.0 key.destination key.from weights.now }
    {
        (key.from != 0 && !self.has_split(key.node, key.destination))
            || !self.all_lead_on(key.destination, self.network.out_links(key.node), weights)
    }
}
