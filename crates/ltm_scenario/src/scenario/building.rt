//! What builds a scenario up: links, destinations, rows, entry and exit limits.
ghost use Rattle.std.specs.Prelude.{◌≡◌, ◌≢◌, ℕ, ◌<◌, ◌≤◌, length, Ok, Err, OnOk, OnErr, IfOk, IfErr};
ghost use Rattle.ltm_diagram.specs.Limits.{limits_of};
ghost use Rattle.ltm_network.specs.Network.{checked, network_linked as linked_network};
ghost use Rattle.ltm_network.specs.Names.{number_of};
ghost use Rattle.ltm_splits.specs.Rows.{key_of};
ghost use Rattle.ltm_scenario.specs.Reads.{destination_of};
ghost use Rattle.ltm_scenario.specs.Build.{with_link, with_link_on, with_destination, with_demand, with_split, with_limit_set, with_exit, HasNoSplitAt};
ghost use Rattle.ltm_scenario.specs.IsScenario.{IsDemandOf, IsSplitOf};
ghost use Rattle.ltm_units.specs.Bounds.{most_amount};

use crate::faults::{DestinationFault, LinkFault};
use crate::scenario::Scenario;
use crate::side::Side;
use ltm_demand::{DemandFault, DemandRow};
use ltm_diagram::{Diagram, Limits};
use ltm_network::networks_stay_networks;
use ltm_splits::SplitFault;
use ltm_units::{LinkId, Name, NoMemory, NodeId, Units};

impl Scenario {
    /// Adds a link with its diagram; its ends are made nodes where they are new. What the network refuses comes before
    /// what the diagram lacks.
    ///
    /// No split row stands at the tail, since a split row has a weight for each out-link of its node.
    #[tactic(auto, using(crate::proofs::Linked::is_linked))]
    pub fn add_link(
        &mut self,
        name: Name,
        tail: Name,
        head: Name,
        diagram: Diagram,
    ) -> Result<LinkId, LinkFault>
        requires { HasNoSplitAt self.old (number_of self.old.network.nodes tail) }
        ensures ok { OnOk result (with_link self.old name tail head diagram ≡ Ok self.new) }
        ensures number { IfOk result (λ link. link.0 ≡ length self.old.network.links) }
        ensures splits { self.new.splits ≡ self.old.splits }
        ensures err { OnErr result (self.new ≡ self.old) }
        ensures cause { IfErr result (λ e. e ≢ LinkFault.NoMemory
            → with_link self.old name tail head diagram ≡ Err e) }
    {
        match self.parts.network.check_link(&name, &tail, &head) {
            Ok(()) => {}
            Err(fault) => return Err(LinkFault::Network(fault)),
        }
        let limits = match diagram.limits(self.parts.setup.step, self.parts.setup.carry) {
            Ok(limits) => limits,
            Err(fault) => return Err(LinkFault::Diagram(fault)),
        };
        match self.join(name, tail, head, diagram, limits) {
            Ok(link) => return Ok(link),
            Err(_) => return Err(LinkFault::NoMemory),
        }
    }

    /// Adds a link that was checked. What needs memory comes first.
    fn join(
        &mut self,
        name: Name,
        tail: Name,
        head: Name,
        diagram: Diagram,
        limits: Limits,
    ) -> Result<LinkId, NoMemory>
        requires free { HasNoSplitAt self.old (number_of self.old.network.nodes tail) }
        requires taken { checked self.old.network name tail head ≡ Ok tt }
        requires limits { limits_of diagram self.old.setup.step.0 self.old.setup.carry ≡ Ok limits }
        ensures ok { OnOk result
            (self.new ≡ with_link_on self.old (linked_network self.old.network name tail head) diagram) }
        ensures number { IfOk result (λ link. link.0 ≡ length self.old.network.links) }
        ensures err { OnErr result (self.new ≡ self.old) }
    {
        networks_stay_networks();
        self.parts.diagrams.reserve()?;
        let entry = self.parts.entry.with_link()?;
        let exit = self.parts.exit.with_link()?;
        let link = match self.parts.network.add_link(name, tail, head) {
            Ok(link) => link,
            Err(_) => return Err(NoMemory),
        };
        self.parts.diagrams.push(diagram, limits);
        self.parts.entry = entry;
        self.parts.exit = exit;
        Ok(link)
    }

    /// The place of a node among the destinations, a new last one where it had none.
    #[tactic(auto, using(crate::proofs::Changed::with_added, crate::proofs::Changed::with_same_destinations))]
    pub fn add_destination(&mut self, node: NodeId) -> Result<u32, DestinationFault>
        requires { node.0 < length self.old.network.nodes }
        ensures ok { OnOk result (with_destination self.old node.0 ≡ Ok self.new) }
        ensures place { IfOk result (λ place. destination_of self.new.destinations node.0
            ≡ Some place) }
        ensures err { OnErr result (self.new ≡ self.old) }
        ensures cause { IfErr result (λ e. e ≢ DestinationFault.NoMemory
            → with_destination self.old node.0 ≡ Err e) }
    {
        let most = self.parts.setup.most_destinations;
        match self.parts.destinations.add(most, node) {
            Ok(place) => return Ok(place),
            Err(fault) => return Err(fault),
        }
    }

    /// Sets a demand row in place of the one with its key; an amount of 0 takes that row out.
    ///
    /// The amount is at most 1,000,000,000 units. The origin has an out-link and is not the destination.
    #[tactic(auto, using(crate::proofs::Changed::with_demand_row, crate::proofs::Changed::with_same_demand))]
    pub fn set_demand(&mut self, row: DemandRow) -> Result<(), DemandFault>
        requires amount { row.amount.0 ≤ most_amount }
        requires row { IsDemandOf self.old row }
        ensures ok { OnOk result (with_demand self.old row ≡ Ok self.new) }
        ensures err { OnErr result (self.new ≡ self.old) }
        ensures cause { IfErr result (λ e. e ≢ DemandFault.NoMemory
            → with_demand self.old row ≡ Err e) }
    {
        let answer = self.parts.demand.set(row);
        // What every demand keeps of its rows is kept of the scenario's.
        let _rows = self.parts.demand.rows();
        answer
    }

    /// Sets the split row that begins at the slot `from`, one weight per out-link in order of link number, in place of
    /// the one with the same node, destination and first slot.
    ///
    /// The node is not the destination.
    #[tactic(auto, using(crate::proofs::Changed::with_split_row, crate::proofs::Changed::with_same_splits))]
    pub fn set_split(
        &mut self,
        node: NodeId,
        destination: u32,
        from: u32,
        weights: &[u32],
    ) -> Result<(), SplitFault>
        requires { IsSplitOf self.old (key_of node.0 destination from, weights.now) }
        ensures ok { OnOk result
            (with_split self.old (key_of node.0 destination from) weights.now ≡ Ok self.new) }
        ensures err { OnErr result (self.new ≡ self.old) }
        ensures cause { IfErr result (λ e. e ≢ SplitFault.NoMemory
            → with_split self.old (key_of node.0 destination from) weights.now ≡ Err e) }
    {
        match self.parts.splits.set(node, destination, from, weights) {
            Ok(()) => return Ok(()),
            Err(fault) => return Err(fault),
        }
    }

    /// Sets the limit at a side of a link for the slots `from` to `to - 1`: the amount, at most 32 vehicles.
    pub fn set_limit(
        &mut self,
        side: Side,
        link: LinkId,
        from: u32,
        to: u32,
        amount: Units,
    ) -> Result<(), DemandFault>
        requires { link.0 < length self.old.network.links }
        ensures ok { OnOk result (with_limit_set self.old side link.0 from to amount.0
            ≡ Ok self.new) }
        ensures err { OnErr result (self.new ≡ self.old) }
        ensures cause { IfErr result (λ e. e ≢ DemandFault.NoMemory
            → with_limit_set self.old side link.0 from to amount.0 ≡ Err e) }
    {
        if !self.parts.are_slots(from, to) {
            return Err(DemandFault::BadSlots);
        }
        match self.parts.change_limit(side, link.0, from, to, amount) {
            Ok(_) => return Ok(()),
            Err(_) => return Err(DemandFault::NoMemory),
        }
    }

    /// Sets the exit limit of a link for the slots `from` to `to - 1`: the amount, at most 32 vehicles.
    pub fn set_exit(
        &mut self,
        link: LinkId,
        from: u32,
        to: u32,
        amount: Units,
    ) -> Result<(), DemandFault>
        requires { link.0 < length self.old.network.links }
        ensures ok { OnOk result (with_exit self.old link.0 from to amount.0 ≡ Ok self.new) }
        ensures err { OnErr result (self.new ≡ self.old) }
        ensures cause { IfErr result (λ e. e ≢ DemandFault.NoMemory
            → with_exit self.old link.0 from to amount.0 ≡ Err e) }
    {
        self.set_limit(Side::Exit, link, from, to, amount)
    }
}
