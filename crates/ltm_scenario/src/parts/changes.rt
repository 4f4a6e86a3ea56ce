//! Changes of one table, each of which gives what undoes it.
ghost use Rattle.std.specs.Prelude.{◌≡◌, ◌≢◌, ℕ, ◌<◌, ◌≤◌, All, length, true, Ok, Err, OnOk, OnErr, IfOk, IfErr};
ghost use Rattle.ltm_diagram.specs.Limits.{limits_of};
ghost use Rattle.ltm_splits.specs.Weights.{AreWeights};
ghost use Rattle.ltm_splits.specs.Table.{rows_of_pair};
ghost use Rattle.ltm_scenario.specs.Build.{with_demand, with_split, with_pair, with_limit_at, are_slots};
ghost use Rattle.ltm_scenario.specs.Edits.{with_diagram};
ghost use Rattle.ltm_scenario.specs.State.{KeepsRoom};
ghost use Rattle.ltm_scenario.specs.SplitNote.{IsSplitNote};
ghost use Rattle.ltm_scenario.specs.Undo.{Undoes};
ghost use Rattle.ltm_scenario.specs.IsScenario.{IsDemandOf, IsSplitOf};
ghost use Rattle.ltm_scenario.specs.Parts.{scenario_in, state_in, AreParts};
ghost use Rattle.ltm_units.specs.Bounds.{most_amount};

use crate::parts::Parts;
use crate::parts::undo::Undo;
use crate::side::Side;
use ltm_demand::{DemandFault, DemandRow};
use ltm_diagram::{Diagram, Limits};
use ltm_splits::{PairRows, SplitFault, SplitKey};
use ltm_units::{NoMemory, NodeId, Units};

impl Parts {
    #[tactic(auto, using(crate::proofs::Undoing::demand_undoes, crate::proofs::Changed::with_demand_row, crate::proofs::Changed::with_same_demand))]
    pub fn change_demand(&mut self, row: DemandRow) -> Result<Undo, DemandFault>
        requires parts { AreParts self.old }
        requires amount { row.amount.0 ≤ most_amount }
        requires row { IsDemandOf (scenario_in self.old) row }
        ensures ok { OnOk result (with_demand (scenario_in self.old) row
            ≡ Ok (scenario_in self.new)) }
        ensures undo { IfOk result (Undoes (state_in self.old) (state_in self.new)) }
        ensures err { OnErr result (scenario_in self.new ≡ scenario_in self.old) }
        ensures cause { IfErr result (λ e. e ≢ DemandFault.NoMemory
            → with_demand (scenario_in self.old) row ≡ Err e) }
        ensures room { KeepsRoom (state_in self.old) (state_in self.new) }
        ensures parts { AreParts self.new }
    {
        let was = self.demand.change(row);
        // What every demand keeps of its rows is kept of the scenario's.
        let _rows = self.demand.rows();
        match was {
            Ok(was) => return Ok(Undo::Demand(DemandRow { amount: was, ..row })),
            Err(fault) => return Err(fault),
        }
    }

    #[tactic(auto, using(crate::proofs::Undoing::entry_undoes, crate::proofs::Undoing::exit_undoes))]
    pub fn change_limit(
        &mut self,
        side: Side,
        link: u32,
        from: u32,
        to: u32,
        amount: Units,
    ) -> Result<Undo, NoMemory>
        requires parts { AreParts self.old }
        requires link { link < length (scenario_in self.old).network.links }
        requires slots { are_slots (scenario_in self.old) from to ≡ true }
        ensures ok { OnOk result (scenario_in self.new
            ≡ with_limit_at (scenario_in self.old) side link from to amount.0) }
        ensures undo { IfOk result (Undoes (state_in self.old) (state_in self.new)) }
        ensures err { OnErr result (scenario_in self.new ≡ scenario_in self.old) }
        ensures room { KeepsRoom (state_in self.old) (state_in self.new) }
        ensures parts { AreParts self.new }
    {
        let limit = amount.0.min(32_000) as u16;
        match side {
            Side::Entry => match self.entry.set(link, from, to, limit) {
                Ok(was) => return Ok(Undo::Limit {
                    side,
                    link,
                    from,
                    was,
                }),
                Err(fault) => return Err(fault),
            },
            Side::Exit => match self.exit.set(link, from, to, limit) {
                Ok(was) => return Ok(Undo::Limit {
                    side,
                    link,
                    from,
                    was,
                }),
                Err(fault) => return Err(fault),
            },
        }
    }

    /// The split row that stands at a key, to be put back, or that none does.
    fn note_split(&self, key: SplitKey) -> Result<Undo, NoMemory>
        ensures { IfOk result (IsSplitNote (scenario_in self.now).splits key) }
    {
        match self.splits.row(key.node, key.destination, key.from) {
            Some(was) => return Ok(Undo::OldSplit(key, Vec::from_slice(self.alloc, was)?)),
            None => return Ok(Undo::NewSplit(key)),
        }
    }

    #[tactic(auto, using(crate::proofs::Undoing::split_undoes, crate::proofs::Changed::with_split_row, crate::proofs::Changed::with_same_splits))]
    pub fn change_split(&mut self, key: SplitKey, weights: &[u32]) -> Result<Undo, SplitFault>
        requires parts { AreParts self.old }
        requires row { IsSplitOf (scenario_in self.old) (key, weights.now) }
        ensures ok { OnOk result (with_split (scenario_in self.old) key weights.now
            ≡ Ok (scenario_in self.new)) }
        ensures undo { IfOk result (Undoes (state_in self.old) (state_in self.new)) }
        ensures err { OnErr result (scenario_in self.new ≡ scenario_in self.old) }
        ensures cause { IfErr result (λ e. e ≢ SplitFault.NoMemory
            → with_split (scenario_in self.old) key weights.now ≡ Err e) }
        ensures room { KeepsRoom (state_in self.old) (state_in self.new) }
        ensures parts { AreParts self.new }
    {
        let undo = match self.note_split(key) {
            Ok(undo) => undo,
            Err(_) => return Err(SplitFault::NoMemory),
        };
        match self
            .splits
            .set(key.node, key.destination, key.from, weights)
        {
            Ok(()) => return Ok(undo),
            Err(fault) => return Err(fault),
        }
    }

    #[tactic(auto, using(crate::proofs::Pairs::pair_undoes, crate::proofs::Pairs::with_pair_rows, crate::proofs::Changed::with_same_splits))]
    pub fn change_pair(
        &mut self,
        node: NodeId,
        destination: u32,
        rows: PairRows,
    ) -> Result<Undo, SplitFault>
        requires parts { AreParts self.old }
        requires some { 0 < length rows }
        requires weights { All (λ row. AreWeights row.1) rows }
        requires rows { All (IsSplitOf (scenario_in self.old))
            (rows_of_pair node.0 destination rows) }
        ensures ok { OnOk result (with_pair (scenario_in self.old) node.0 destination rows
            ≡ Ok (scenario_in self.new)) }
        ensures undo { IfOk result (Undoes (state_in self.old) (state_in self.new)) }
        ensures err { OnErr result (scenario_in self.new ≡ scenario_in self.old) }
        ensures cause { IfErr result (λ e. e ≢ SplitFault.NoMemory
            → with_pair (scenario_in self.old) node.0 destination rows ≡ Err e) }
        ensures room { KeepsRoom (state_in self.old) (state_in self.new) }
        ensures parts { AreParts self.new }
    {
        match self.splits.exchange(node, destination, rows) {
            Ok(was) => return Ok(Undo::Pair {
                node,
                destination,
                was,
            }),
            Err(fault) => return Err(fault),
        }
    }

    #[tactic(auto, using(crate::proofs::Undoing::diagram_undoes, crate::proofs::Undoing::diagrams_changed))]
    pub fn change_diagram(&mut self, link: u32, diagram: Diagram, limits: Limits) -> Undo
        requires parts { AreParts self.old }
        requires link { link < length (scenario_in self.old).network.links }
        requires limits { limits_of diagram (scenario_in self.old).setup.step.0 (scenario_in self.old).setup.carry ≡ Ok limits }
        ensures done { scenario_in self.new ≡ with_diagram (scenario_in self.old) link diagram }
        ensures undo { Undoes (state_in self.old) (state_in self.new) result }
        ensures room { KeepsRoom (state_in self.old) (state_in self.new) }
        ensures parts { AreParts self.new }
    {
        let old_diagram = *self.diagrams.diagram(link);
        let old_limits = self.diagrams.limits(link);
        self.diagrams.replace(link, diagram, limits);
        Undo::Diagram {
            link,
            diagram: old_diagram,
            limits: old_limits,
        }
    }
}
