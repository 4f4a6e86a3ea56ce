//! The parts of a scenario.
ghost use Rattle.std.specs.Prelude.{◌≡◌, ◌≤◌, [], Ok};
ghost use Rattle.ltm_scenario.specs.Setup.{setup_checked};
ghost use Rattle.ltm_scenario.specs.Data.{empty_scenario};
ghost use Rattle.ltm_scenario.specs.Parts.{scenario_in, AreParts};
ghost use Rattle.ltm_units.specs.Bounds.{most_rows};

mod changes;
mod horizon;
mod reads;
pub mod undo;

use crate::destinations::Destinations;
use crate::diagrams::Diagrams;
use crate::setup::Setup;
use ltm_demand::Demand;
use ltm_limits::SlotLimits;
use ltm_network::{Network, networks_stay_networks};
use ltm_splits::Splits;
use std::alloc::Global;

/// The parts of a scenario side by side, each in its own table, and where further memory is taken.
///
/// Edits work on these, and not on a `Scenario`: contracts see each part here, and so the room that undoing an edit needs.
/// `AreParts` says that they are those of a scenario.
pub struct Parts {
    pub alloc: Global,
    pub setup: Setup,
    pub network: Network,
    pub diagrams: Diagrams,
    pub destinations: Destinations,
    pub demand: Demand,
    pub splits: Splits,
    pub entry: SlotLimits,
    pub exit: SlotLimits,
}

// By hand, so that letting go of them is one call.
impl Drop for Parts {
    fn drop(self) {
        let Parts {
            alloc: _alloc,
            setup: _setup,
            network: _network,
            diagrams: _diagrams,
            destinations: _destinations,
            demand: _demand,
            splits: _splits,
            entry: _entry,
            exit: _exit,
        } = self;
    }
}

/// A demand without rows, with a table of each destination where the case keeps its history. A load without history reads what
/// was produced by a slot once, and does without.
fn demand_for(alloc: Global, setup: &Setup) -> Demand
    requires { setup.now.most_demand_rows ≤ most_rows }
    ensures demand { result.demand
        ≡ record { slots = setup.now.slots; most_rows = setup.now.most_demand_rows; rows = [] } }
    ensures tabled { result.tabled ≡ setup.now.history }
{
    if setup.history {
        return Demand::of_most(alloc, setup.slots, setup.most_demand_rows);
    }
    Demand::of_rows(alloc, setup.slots, setup.most_demand_rows)
}

impl Parts {
    /// No link, no destination, no row.
    #[tactic(auto, using(crate::proofs::Empty::empty_is_scenario, crate::proofs::Empty::is_setup))]
    pub fn new(alloc: Global, setup: Setup) -> Parts
        requires { setup_checked setup ≡ Ok tt }
        ensures scenario { scenario_in result ≡ empty_scenario setup }
        ensures parts { AreParts result }
    {
        networks_stay_networks();
        Parts {
            alloc,
            setup,
            network: Network::of_most(alloc, setup.most_links),
            diagrams: Diagrams::new(alloc, setup.step, setup.carry),
            destinations: Destinations::new(alloc),
            demand: demand_for(alloc, &setup),
            splits: Splits::of_most(alloc, setup.slots, setup.most_split_rows),
            entry: SlotLimits::new(alloc, setup.slots),
            exit: SlotLimits::new(alloc, setup.slots),
        }
    }
}
