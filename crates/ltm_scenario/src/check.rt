//! The rules of a valid case.
ghost use Rattle.std.specs.Prelude.{◌≡◌, ℕ, ◌<◌, ◌↔◌, All, IsOk, length, map};
ghost use Rattle.std.specs.List.{zip};
ghost use Rattle.ltm_scenario.specs.Valid.{IsValid, has_start};
ghost use Rattle.ltm_scenario.specs.Check.{no_split, first_over, demand_row_checked, weight_checked, split_row_checked, cells_checked, checked};
ghost use Rattle.ltm_scenario.specs.IsScenario.{IsDemandOf, IsSplitOf};

use crate::faults::ScenarioFault;
use crate::scenario::Scenario;
use ltm_demand::DemandRow;
use ltm_splits::SplitKey;
use ltm_units::{LinkId, NodeId};

impl Scenario {
    /// Whether the case is valid, or the first broken rule: demand rows in order of origin and destination, then split
    /// rows in order of node, destination and first slot, then the number of cells. It takes no memory.
    pub fn check(&self) -> Result<(), ScenarioFault>
        ensures first { result ≡ checked self.now }
        ensures valid { IsOk result ↔ IsValid self.now }
    {
        self.first_broken()
    }

    fn first_broken(&self) -> Result<(), ScenarioFault>
        ensures { result ≡ checked self.now }
    {
        self.check_demand()?;
        self.check_splits()?;
        self.check_cells()
    }

    fn check_demand(&self) -> Result<(), ScenarioFault>
        ensures { result ≡ first_over (demand_row_checked self.now) self.now.demand }
    {
        let _setup = self.setup();
        let mut rows = self.demand().rows();
        'rows: while let Some(row) = rows.next() {
            self.check_demand_row(&row)?;
        }
        Ok(())
    }

    fn check_demand_row(&self, row: &DemandRow) -> Result<(), ScenarioFault>
        requires { IsDemandOf self.now row.now }
        ensures { result ≡ demand_row_checked self.now row.now }
    {
        if self.parts.has_split(row.origin, row.destination) {
            return Ok(());
        }
        Err(self.no_split(row.origin, row.destination))
    }

    fn check_splits(&self) -> Result<(), ScenarioFault>
        ensures { result ≡ first_over (split_row_checked self.now) self.now.splits }
    {
        let _setup = self.setup();
        let mut rows = self.splits().rows();
        'rows: while let Some((key, weights)) = rows.next() {
            self.check_split_row(key, weights)?;
        }
        Ok(())
    }

    fn check_split_row(&self, key: SplitKey, weights: &[u32]) -> Result<(), ScenarioFault>
        requires { IsSplitOf self.now (key, weights.now) }
        ensures { result ≡ split_row_checked self.now (key, weights.now) }
    {
        if !self.has_start(key.node, key.destination) {
            return Err(self.no_split(key.node, key.destination));
        }
        self.check_weights(key.destination, self.network().out_links(key.node), weights)
    }

    /// Whether each weight leads on over its link; the first that does not.
    fn check_weights(
        &self,
        destination: u32,
        links: &[LinkId],
        weights: &[u32],
    ) -> Result<(), ScenarioFault>
        requires destination { destination < length self.now.destinations }
        requires links { All (λ link. link.0 < length self.now.network.links) links.now }
        ensures { result ≡ first_over (weight_checked self.now destination)
            (zip (map (λ link. link.0) links.now) weights.now) }
    {
        let Some((link, other_links)) = links.split_first() else {
            return Ok(());
        };
        let Some((weight, other_weights)) = weights.split_first() else {
            return Ok(());
        };
        if !self.parts.leads_on(destination, *link, *weight) {
            return Err(self.no_split(self.network().head(*link), destination));
        }
        self.check_weights(destination, other_links, other_weights)
    }

    fn check_cells(&self) -> Result<(), ScenarioFault>
        ensures { result ≡ cells_checked self.now }
    {
        let cells = self.cells();
        if self.parts.has_room(cells) {
            return Ok(());
        }
        Err(ScenarioFault::CellsOver(cells))
    }

    /// Whether they have one from slot 0 on.
    #[tactic(auto, using(crate::proofs::Found::start_tells))]
    fn has_start(&self, node: NodeId, destination: u32) -> bool
        ensures { result ≡ has_start self.now.splits node.0 destination }
    {
        match self.splits().row(node, destination, 0) {
            Some(_) => true,
            None => false,
        }
    }

    /// The fault of a node and a destination without the split row that a rule asks for.
    fn no_split(&self, node: NodeId, destination: u32) -> ScenarioFault
        requires node { node.0 < length self.now.network.nodes }
        requires destination { destination < length self.now.destinations }
        ensures { result ≡ no_split self.now node.0 destination }
    {
        ScenarioFault::NoSplit {
            node: self.network().node_name(node),
            destination: self.network().node_name(self.destination_node(destination)),
        }
    }
}
