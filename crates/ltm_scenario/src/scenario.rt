//! The scenario.
ghost use Rattle.std.specs.Prelude.{◌≡◌, ◌≢◌, ℕ, ◌<◌, ◌≤◌, ◌↔◌, length, map, slice_get, Some, Ok, Err, IsOk, IsTrue, OnOk, OnErr, IfOk, IfErr, IfSome};
ghost use Rattle.ltm_limits.specs.Limits.{limit_at};
ghost use Rattle.ltm_diagram.specs.Limits.{limits_of};
ghost use Rattle.ltm_diagram.specs.Delays.{AreDelays};
ghost use Rattle.ltm_network.specs.Names.{number_of};
ghost use Rattle.ltm_splits.specs.Rows.{key_of};
ghost use Rattle.ltm_scenario.specs.Setup.{setup_checked};
ghost use Rattle.ltm_scenario.specs.Data.{empty_scenario, demand_of, splits_of};
ghost use Rattle.ltm_scenario.specs.Reads.{destination_of, destination_node};
ghost use Rattle.ltm_scenario.specs.Cells.{cells};
ghost use Rattle.ltm_scenario.specs.Valid.{IsValid};
ghost use Rattle.ltm_scenario.specs.Build.{with_link, with_destination, with_demand, with_split, with_exit, HasNoSplitAt};
ghost use Rattle.ltm_scenario.specs.Horizon.{with_horizon, MayReach};
ghost use Rattle.ltm_scenario.specs.Edits.{edited_all, horizon_after, HaveAmounts};
ghost use Rattle.ltm_scenario.specs.Shape.{SameShape};
ghost use Rattle.ltm_scenario.specs.IsScenario.{IsScenario, IsDemandOf, IsSplitOf};

mod building;
mod rows;

use crate::batch::Batch;
use crate::edit::{EditCause, EditFault};
use crate::faults::{DestinationFault, HorizonFault, LinkFault, ScenarioFault};
use crate::parts::Parts;
use crate::setup::{MOST_SLOTS, Setup, SetupFault};
use ltm_demand::{Demand, DemandFault, DemandRow};
use ltm_diagram::{Delays, Diagram, Limits};
use ltm_network::Network;
use ltm_splits::{SplitFault, Splits};
use ltm_units::{LinkId, Name, NoMemory, NodeId, Units};
use std::alloc::Global;
use std::marker::Model;

/// What a case says: setup, network, the diagram of each link, destinations, demand, splits, and for each link an entry
/// limit and an exit limit in each slot, 32 vehicles where none was set.
///
/// Contracts see these data alone: two scenarios are equal where they are.
pub struct Scenario {
    pub(crate) parts: Parts,
}

// By hand, so that letting go of a scenario is one call, and not its parts one by one wherever that may happen.
impl Drop for Scenario {
    fn drop(self) {
        let Scenario { parts: _parts } = self;
    }
}

impl Model for Scenario {
    ghost use Rattle.ltm_scenario.specs.Data.{ScenarioData};

    ghost Value = { ScenarioData };

    ghost use Rattle.ltm_scenario.specs.Parts.{scenario_in, AreParts};

    ghost view = { λ s. scenario_in s.parts };

    ghost invariant = { λ s. AreParts s.parts };
}

impl Scenario {
    /// A scenario without links, or the first field of the setup that is out of its limits.
    pub fn create(alloc: Global, setup: Setup) -> Result<Scenario, SetupFault>
        ensures ok { IfOk result (λ scenario. scenario ≡ empty_scenario setup) }
        ensures fits { OnOk result (setup_checked setup ≡ Ok tt) }
        ensures cause { IfErr result (λ e. setup_checked setup ≡ Err e) }
    {
        setup.check()?;
        Ok(Scenario {
            parts: Parts::new(alloc, setup),
        })
    }

    /// Raises the horizon to that many slots; it never falls. The entry and exit limits of the new slots are those that were
    /// never set, and all rows stay. It takes no memory, and costs a pass over the nodes.
    pub fn lengthen(&mut self, slots: u32) -> Result<(), HorizonFault>
        ensures ok { OnOk result (with_horizon self.old slots ≡ Ok self.new) }
        ensures err { OnErr result (self.new ≡ self.old) }
        ensures cause { IfErr result (λ e. with_horizon self.old slots ≡ Err e) }
    {
        match self.parts.lengthen(slots) {
            Ok(_) => return Ok(()),
            Err(fault) => return Err(fault),
        }
    }

    /// Whether the scenario may have that horizon: no shorter than its own, of at most 10,000 slots, and with no more cells
    /// than it may have. It takes no memory, and costs next to nothing where it is the present one, else a pass over the
    /// nodes.
    #[tactic(auto, using(crate::proofs::Reaching::may_stay, crate::proofs::Reaching::may_grow))]
    pub fn may_reach(&self, slots: u32) -> bool
        requires { IsValid self.now }
        ensures { IsTrue result ↔ MayReach self.now slots }
    {
        let now = self.parts.setup.slots;
        if slots == now {
            return true;
        }
        if slots < now || slots > MOST_SLOTS {
            return false;
        }
        self.parts.has_room(self.parts.cells_with(slots))
    }

    /// How many cells a loading has: the numbers that its pairs read, the counts of two sets of curves, and the entry
    /// and exit limits. It takes no memory.
    #[tactic(auto, unfolding(crate::specs::Cells::cells))]
    pub fn cells(&self) -> u128
        ensures { result ≡ cells self.now }
    {
        self.parts.cells_with(self.parts.setup.slots)
    }

    /// Makes all edits of a batch in order, or changes nothing and names the first that is refused after those before it,
    /// with its cause. A valid scenario stays valid; its shape stays, but that the horizon may grow, and its cells with it.
    ///
    /// Each amount is at most 1,000,000,000 units. It costs about what the edits touch.
    #[tactic(auto, using(crate::proofs::Batches::batch_keeps_valid, crate::proofs::Batches::batch_keeps_shape, crate::proofs::Batches::shape_stays, crate::proofs::Batches::batch_sets_horizon, crate::proofs::Shapes::same_cells, crate::proofs::Reaching::batch_reaches))]
    pub fn accept(&mut self, batch: &Batch) -> Result<(), EditFault>
        requires valid { IsValid self.old }
        requires amounts { HaveAmounts batch.now }

        ensures ok { OnOk result (edited_all self.old batch.now ≡ Ok self.new) }

        // All or nothing.
        ensures err { OnErr result (self.new ≡ self.old) }
        ensures cause { IfErr result (λ fault. fault.cause ≢ EditCause.NoMemory
            → edited_all self.old batch.now ≡ Err fault) }

        ensures valid { IsValid self.new }
        ensures shape { SameShape self.old self.new }
        ensures horizon { OnOk result (self.new.setup.slots
            ≡ horizon_after self.old.setup.slots batch.now) }
        ensures reach { OnOk result (MayReach self.old
            (horizon_after self.old.setup.slots batch.now)) }
        ensures cells { self.new.setup.slots ≡ self.old.setup.slots
            → cells self.new ≡ cells self.old }
    {
        let edits = batch.edits();
        match self.parts.accept_from(1, edits) {
            Ok(()) => return Ok(()),
            Err(fault) => return Err(fault),
        }
    }

    /// The step, the slots, the capacity of origins, how large the case may be, and how nodes move.
    pub fn setup(&self) -> &Setup
        ensures setup { result.now ≡ self.now.setup }
        ensures scenario { IsScenario self.now }
    {
        &self.parts.setup
    }

    /// Whether what moves through a turn is floored for the turn, and not for each destination.
    pub fn by_turn(&self) -> bool
        ensures { result ≡ self.now.setup.by_turn }
    {
        self.parts.setup.by_turn
    }

    /// The nodes and links.
    pub fn network(&self) -> &Network
        ensures { result.now ≡ self.now.network }
    {
        &self.parts.network
    }

    /// The diagram of a link.
    pub fn diagram(&self, link: LinkId) -> &Diagram
        requires { link.0 < length self.now.network.links }
        ensures { slice_get self.now.diagrams link.0 ≡ Some result.now }
    {
        self.parts.diagrams.diagram(link.0)
    }

    /// The limits that a link's diagram sets at the step of the setup.
    pub fn limits(&self, link: LinkId) -> Limits
        requires { link.0 < length self.now.network.links }
        ensures { (diagram : Diagram) → slice_get self.now.diagrams link.0 ≡ Some diagram
            → limits_of diagram self.now.setup.step.0 self.now.setup.carry ≡ Ok result }
    {
        self.parts.diagrams.limits(link.0)
    }

    /// The times of a link, counted in slots.
    pub fn delays(&self, link: LinkId) -> Delays
        requires { link.0 < length self.now.network.links }
        ensures { (diagram : Diagram) → (limits : Limits)
            → slice_get self.now.diagrams link.0 ≡ Some diagram
            → limits_of diagram self.now.setup.step.0 self.now.setup.carry ≡ Ok limits
            → AreDelays self.now.setup.step.0 limits result }
    {
        self.parts.diagrams.delays(link.0)
    }

    /// The most that enters a link in a slot, in thousandths of a vehicle.
    pub fn entry_limit(&self, link: LinkId, slot: u32) -> Units
        requires link { link.0 < length self.now.network.links }
        requires slot { slot < self.now.setup.slots }
        ensures { result.0 ≡ limit_at self.now.entry link.0 slot }
    {
        Units(u64::from(self.parts.entry.limit(link.0, slot)))
    }

    /// The most that leaves a link in a slot, in thousandths of a vehicle.
    pub fn exit_limit(&self, link: LinkId, slot: u32) -> Units
        requires link { link.0 < length self.now.network.links }
        requires slot { slot < self.now.setup.slots }
        ensures { result.0 ≡ limit_at self.now.exit link.0 slot }
    {
        Units(u64::from(self.parts.exit.limit(link.0, slot)))
    }

    /// The rows of demand, with a table of each destination where the case keeps its history.
    pub fn demand(&self) -> &Demand
        ensures demand { result.now.demand ≡ demand_of self.now }
        ensures tabled { result.now.tabled ≡ self.now.setup.history }
    {
        &self.parts.demand
    }

    /// The split rows.
    pub fn splits(&self) -> &Splits
        ensures { result.now ≡ splits_of self.now }
    {
        &self.parts.splits
    }

    /// The nodes that are destinations, in order of becoming one.
    pub fn destinations(&self) -> &[NodeId]
        ensures nodes { map (λ node. node.0) result.now ≡ self.now.destinations }
        ensures count { length result.now ≡ length self.now.destinations }
    {
        self.parts.destinations.list()
    }

    /// The node of a destination.
    pub fn destination_node(&self, destination: u32) -> NodeId
        requires { destination < length self.now.destinations }
        ensures node { result.0 ≡ destination_node self.now destination }
        ensures there { result.0 < length self.now.network.nodes }
    {
        self.parts.destinations.node(destination)
    }

    /// Which destination a node is, if it is one.
    pub fn destination_at(&self, node: NodeId) -> Option<u32>
        ensures place { result ≡ destination_of self.now.destinations node.0 }
        ensures there { IfSome result (λ place. (place < length self.now.destinations)
            × (destination_node self.now place ≡ node.0)) }
    {
        self.parts.destinations.place(node)
    }

    /// An equal scenario, on the same allocator.
    pub fn try_copy(&self) -> Result<Scenario, NoMemory>
        ensures { IfOk result (λ copy. copy ≡ self.now) }
    {
        let parts = &self.parts;
        Ok(Scenario {
            parts: Parts {
                alloc: parts.alloc,
                setup: parts.setup,
                network: parts.network.clone()?,
                diagrams: parts.diagrams.try_copy()?,
                destinations: parts.destinations.try_copy()?,
                demand: parts.demand.try_copy()?,
                splits: parts.splits.try_copy()?,
                entry: parts.entry.try_copy()?,
                exit: parts.exit.try_copy()?,
            },
        })
    }
}
