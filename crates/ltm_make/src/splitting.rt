//! The destinations and the split rows of a made case.
ghost use Rattle.std.specs.Prelude.{◌≡◌, ◌≢◌, ◌+◌, ◌<◌, ◌≤◌, ◌==◌, ◌++◌, ◌∷◌, [], false, length, sum, OnOk, IfOk, IfSome, None};
ghost use Rattle.ltm_splits.specs.Rows.{key_of, put_in};
ghost use Rattle.ltm_scenario.specs.Reads.{destination_of};
ghost use Rattle.ltm_scenario.specs.IsScenario.{IsSplitOf};
ghost use Rattle.ltm_make.specs.Links.{made_setup};
ghost use Rattle.ltm_make.specs.Splits.{IsFound, way_of};
ghost use Rattle.ltm_make.specs.Branches.{words_after};
ghost use Rattle.ltm_units.specs.Bounds.{default_split_rows};

use crate::branches::{Branch, Way, away_of, draw_weight, home_of, node_at, weights_of};
use crate::grid::Grid;
use crate::making::Making;
use ltm_scenario::{DestinationFault, Scenario};
use ltm_splits::SplitFault;
use ltm_units::{NoMemory, NodeId};
use std::alloc::Global;

/// Of the faults of a destination, want of memory alone can come.
fn only_memory(fault: DestinationFault) -> NoMemory
    requires { fault ≢ DestinationFault.NoMemory → ⊥ }
{
    match fault {
        DestinationFault::NoMemory => NoMemory,
        DestinationFault::TooMany => unreachable!(),
    }
}

/// Makes a node the last destination.
fn add_end(scenario: &mut Scenario, node: NodeId) -> Result<(), NoMemory>
    requires there { node.0 < length scenario.old.network.nodes }
    requires few { length scenario.old.destinations < scenario.old.setup.most_destinations }
    requires new { destination_of scenario.old.destinations node.0 ≡ None }
    ensures { OnOk result (scenario.new
        ≡ record scenario.old { destinations = scenario.old.destinations ++ node.0 ∷ [] }) }
{
    match scenario.add_destination(node) {
        Ok(_) => Ok(()),
        Err(fault) => Err(only_memory(fault)),
    }
}

/// Of the faults of a split row, want of memory alone can come.
fn no_other(fault: SplitFault) -> NoMemory
    requires { fault ≢ SplitFault.NoMemory → ⊥ }
{
    match fault {
        SplitFault::NoMemory => NoMemory,
        SplitFault::BadSlots => unreachable!(),
        SplitFault::ZeroWeight => unreachable!(),
        SplitFault::TooManyRows => unreachable!(),
    }
}

/// Sets the split row of a node and a destination, from slot 0 on.
fn put_row(
    scenario: &mut Scenario,
    node: NodeId,
    destination: u32,
    weights: &[u32],
) -> Result<(), NoMemory>
    requires row { IsSplitOf scenario.old (key_of node.0 destination 0, weights.now) }
    requires some { (sum weights.now == 0) ≡ false }
    requires few { length scenario.old.splits < default_split_rows }
    requires setup { scenario.old.setup ≡ made_setup }
    ensures { OnOk result (scenario.new
        ≡ record scenario.old {
          splits = put_in scenario.old.splits
              (key_of node.0 destination 0) weights.now;
        }) }
{
    match scenario.set_split(node, destination, 0, weights) {
        Ok(()) => Ok(()),
        Err(fault) => Err(no_other(fault)),
    }
}

impl Making {
    ghost use Rattle.ltm_make.specs.Grid.{roads};
    ghost use Rattle.ltm_make.specs.Roads.{IsAlong};
    ghost use Rattle.ltm_make.specs.Splits.{with_ends, with_split_row, with_home, with_away, with_splits, AreBranches, HasRoom, IsGrid, IsLaid};

    /// Where a branch leads, with its weight.
    fn draw_way(&mut self, alloc: Global, branch: Branch) -> Result<Way, NoMemory>
        requires found { IsFound self.old.scenario.network branch.to }
        requires least { branch.least ≤ 1 }
        requires few { branch.choices ≤ 3 }
        ensures way { IfOk result (λ way. way
            ≡ way_of self.old.scenario.network branch self.old.words) }
        ensures words { OnOk result (self.new.words ≡ words_after branch self.old.words) }
        ensures scenario { self.new.scenario ≡ self.old.scenario }
    {
        let node = node_at(alloc, self.scenario.network(), branch.to)?;
        let weight = draw_weight(&mut self.words, branch);
        Ok(Way { node, weight })
    }

    /// Sets the split row of a node and a destination by one or two branches.
    fn add_split(
        &mut self,
        alloc: Global,
        node: u32,
        destination: u32,
        branches: (Branch, Option<Branch>),
    ) -> Result<(), NoMemory>
        requires room { HasRoom self.old.scenario node destination }
        requires branches { AreBranches self.old.scenario.network node branches.0 branches.1 }
        ensures { OnOk result (self.new
            ≡ with_split_row node destination branches.0 branches.1 self.old) }
    {
        let at = node_at(alloc, self.scenario.network(), node)?;
        let first = self.draw_way(alloc, branches.0)?;
        let second = match branches.1 {
            Some(branch) => Some(self.draw_way(alloc, branch)?),
            None => None,
        };
        let weights = weights_of(alloc, self.scenario.network(), at, first, second)?;
        put_row(&mut self.scenario, at, destination, weights.as_slice())
    }

    /// Makes the first node, and the end of the first row, the two destinations.
    pub(crate) fn add_ends(&mut self, alloc: Global, grid: Grid) -> Result<(), NoMemory>
        requires grid { IsGrid grid.nodes grid.width }
        requires along { IsAlong self.old.scenario.network
            (roads grid.nodes grid.width grid.nodes) }
        requires setup { self.old.scenario.setup ≡ made_setup }
        requires none { self.old.scenario.destinations ≡ [] }
        ensures { OnOk result (self.new ≡ with_ends grid.width self.old) }
    {
        let first = node_at(alloc, self.scenario.network(), 0)?;
        let second = node_at(alloc, self.scenario.network(), grid.width - 1)?;
        add_end(&mut self.scenario, first)?;
        add_end(&mut self.scenario, second)
    }

    /// Sets the split row of a node towards the first node, but for that node itself.
    fn add_home(&mut self, alloc: Global, grid: Grid, node: u32) -> Result<(), NoMemory>
        requires laid { IsLaid grid.nodes grid.width self.old.scenario }
        requires there { node < grid.nodes }
        requires few { length self.old.scenario.splits < default_split_rows }
        ensures { OnOk result (self.new ≡ with_home grid.width node self.old) }
    {
        if node == 0 {
            return Ok(());
        }
        self.add_split(alloc, node, 0, home_of(grid, node))
    }

    /// Sets the split row of a node towards the end of the first row, but for that node itself.
    fn add_away(&mut self, alloc: Global, grid: Grid, node: u32) -> Result<(), NoMemory>
        requires laid { IsLaid grid.nodes grid.width self.old.scenario }
        requires there { node < grid.nodes }
        requires few { length self.old.scenario.splits < default_split_rows }
        ensures { OnOk result (self.new ≡ with_away grid.nodes grid.width node self.old) }
    {
        if node + 1 == grid.width {
            return Ok(());
        }
        self.add_split(alloc, node, 1, away_of(grid, node))
    }

    /// Sets the split rows of all nodes.
    pub(crate) fn add_splits(&mut self, alloc: Global, grid: Grid) -> Result<(), NoMemory>
        requires laid { IsLaid grid.nodes grid.width self.old.scenario }
        requires none { self.old.scenario.splits ≡ [] }
        ensures { OnOk result (self.new ≡ with_splits grid.nodes grid.width grid.nodes self.old) }
    {
        for node in 0..grid.nodes {
            self.add_home(alloc, grid, node)?;
            self.add_away(alloc, grid, node)?;
        }
        Ok(())
    }
}
