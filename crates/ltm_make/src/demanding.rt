//! The demand of a made case.
ghost use Rattle.std.specs.Prelude.{◌≡◌, ◌≢◌, ◌<◌, ◌≤◌, true, length, OnOk};
ghost use Rattle.ltm_demand.specs.Rows.{has_slots, edited_rows};
ghost use Rattle.ltm_scenario.specs.IsScenario.{IsDemandOf};
ghost use Rattle.ltm_units.specs.Bounds.{most_amount, default_demand_rows};

use crate::branches::node_at;
use crate::grid::Grid;
use crate::making::Making;
use crate::words::draw;
use ltm_demand::{DemandFault, DemandRow};
use ltm_scenario::Scenario;
use ltm_units::{NoMemory, Units};
use std::alloc::Global;

/// Of the faults of a demand row, want of memory alone can come.
fn only_memory(fault: DemandFault) -> NoMemory
    requires { fault ≢ DemandFault.NoMemory → ⊥ }
{
    match fault {
        DemandFault::NoMemory => NoMemory,
        DemandFault::BadSlots => unreachable!(),
        DemandFault::TooManyRows => unreachable!(),
    }
}

/// Sets a demand row.
#[tactic(auto, using(crate::proofs::Demanded::row_is_set))]
fn put_row(scenario: &mut Scenario, row: DemandRow) -> Result<(), NoMemory>
    requires amount { row.amount.0 ≤ most_amount }
    requires row { IsDemandOf scenario.old row }
    requires slots { has_slots scenario.old.setup.slots row ≡ true }
    requires few { length scenario.old.demand < scenario.old.setup.most_demand_rows }
    ensures { OnOk result (scenario.new
        ≡ record scenario.old { demand = edited_rows scenario.old.demand row }) }
{
    match scenario.set_demand(row) {
        Ok(()) => Ok(()),
        Err(fault) => Err(only_memory(fault)),
    }
}

impl Making {
    ghost use Rattle.ltm_make.specs.Splits.{IsLaid};
    ghost use Rattle.ltm_make.specs.Demands.{with_demand_row, with_homeward, with_awayward, with_demands, IsOrigin};
    ghost use Rattle.std.specs.Prelude.{[]};

    /// Sets the demand of a node for a destination: 1 to 20 vehicles over the first half of the horizon.
    fn add_demand(&mut self, alloc: Global, node: u32, destination: u32) -> Result<(), NoMemory>
        requires { IsOrigin self.old.scenario node destination }
        ensures { OnOk result (self.new ≡ with_demand_row node destination self.old) }
    {
        let origin = node_at(alloc, self.scenario.network(), node)?;
        let vehicles = 1 + draw(&mut self.words, 20);
        let row = DemandRow {
            origin,
            destination,
            from: 0,
            to: 30,
            amount: Units(1000 * u64::from(vehicles)),
        };
        put_row(&mut self.scenario, row)
    }

    /// Sets the demand of a node for the first node, but for that node itself.
    fn add_homeward(&mut self, alloc: Global, grid: Grid, node: u32) -> Result<(), NoMemory>
        requires laid { IsLaid grid.nodes grid.width self.old.scenario }
        requires there { node < grid.nodes }
        requires few { length self.old.scenario.demand < default_demand_rows }
        ensures { OnOk result (self.new ≡ with_homeward node self.old) }
    {
        if node == 0 {
            return Ok(());
        }
        self.add_demand(alloc, node, 0)
    }

    /// Sets the demand of a node for the end of the first row, but for that node itself.
    fn add_awayward(&mut self, alloc: Global, grid: Grid, node: u32) -> Result<(), NoMemory>
        requires laid { IsLaid grid.nodes grid.width self.old.scenario }
        requires there { node < grid.nodes }
        requires few { length self.old.scenario.demand < default_demand_rows }
        ensures { OnOk result (self.new ≡ with_awayward grid.width node self.old) }
    {
        if node + 1 == grid.width {
            return Ok(());
        }
        self.add_demand(alloc, node, 1)
    }

    /// Sets the demand of all nodes.
    pub(crate) fn add_demands(&mut self, alloc: Global, grid: Grid) -> Result<(), NoMemory>
        requires laid { IsLaid grid.nodes grid.width self.old.scenario }
        requires none { self.old.scenario.demand ≡ [] }
        ensures { OnOk result (self.new ≡ with_demands grid.width grid.nodes self.old) }
    {
        for node in 0..grid.nodes {
            self.add_homeward(alloc, grid, node)?;
            self.add_awayward(alloc, grid, node)?;
        }
        Ok(())
    }
}
