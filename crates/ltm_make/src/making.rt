//! A case that is being made.
ghost use Rattle.std.specs.Prelude.{◌≡◌, ◌≢◌, ◌<◌, ◌≤◌, length, OnOk, Ok};
ghost use Rattle.ltm_network.specs.Network.{checked, network_linked};
ghost use Rattle.ltm_scenario.specs.Build.{with_link_on};
ghost use Rattle.ltm_make.specs.Names.{name_of_link, name_of_node};
ghost use Rattle.ltm_make.specs.Links.{diagram_of, TakesLinks};

use crate::grid::{Road, roads_of};
use crate::names::{link_name, node_name};
use crate::words::draw;
use ltm_diagram::Diagram;
use ltm_scenario::{LinkFault, Scenario};
use ltm_units::{Name, NoMemory};
use rand_pcg::Pcg32;
use std::alloc::Global;

/// What is made so far of a scenario, and the words from which the rest is made.
#[derive(Drop)]
pub(crate) struct Making {
    pub(crate) scenario: Scenario,
    pub(crate) words: Pcg32,
}

/// Of the faults of a link, want of memory alone can come.
fn only_memory(fault: LinkFault) -> NoMemory
    requires { fault ≢ LinkFault.NoMemory → ⊥ }
{
    match fault {
        LinkFault::NoMemory => NoMemory,
        LinkFault::Network(_) => unreachable!(),
        LinkFault::Diagram(_) => unreachable!(),
    }
}

/// Adds a link with one of four lengths.
#[tactic(auto, using(crate::proofs::Linking::link_is_taken))]
fn join(
    scenario: &mut Scenario,
    name: Name,
    tail: Name,
    head: Name,
    choice: u32,
) -> Result<(), NoMemory>
    requires bare { TakesLinks scenario.old }
    requires few { choice < 4 }
    requires taken { checked scenario.old.network name tail head ≡ Ok tt }
    ensures { OnOk result (scenario.new
        ≡ with_link_on scenario.old (network_linked scenario.old.network name tail head)
        (diagram_of choice)) }
{
    let diagram = Diagram {
        length_m: 200 + 100 * choice,
        free_kmh: 54,
        wave_kmh: 18,
        jam_per_km: 150,
    };
    match scenario.add_link(name, tail, head, diagram) {
        Ok(_) => Ok(()),
        Err(fault) => Err(only_memory(fault)),
    }
}

impl Making {
    ghost use Rattle.ltm_scenario.specs.Data.{empty_scenario};
    ghost use Rattle.ltm_make.specs.Links.{made_setup, with_road, with_grid};

    /// Adds a link for a road. Its length is drawn.
    pub(crate) fn add_road(&mut self, alloc: Global, road: Road) -> Result<(), NoMemory>
        requires bare { TakesLinks self.old.scenario }
        requires taken { checked self.old.scenario.network
            (name_of_link (length self.old.scenario.network.links)) (name_of_node road.from)
            (name_of_node road.to) ≡ Ok tt }
        ensures { OnOk result (self.new ≡ with_road self.old road) }
    {
        let name = link_name(alloc, self.scenario.network().links())?;
        let tail = node_name(alloc, road.from)?;
        let head = node_name(alloc, road.to)?;
        let choice = draw(&mut self.words, 4);
        join(&mut self.scenario, name, tail, head, choice)
    }

    /// Adds the links of a grid.
    pub(crate) fn add_grid(&mut self, alloc: Global, nodes: u32, width: u32) -> Result<(), NoMemory>
        requires few { nodes ≤ 400 }
        requires some { 1 ≤ width }
        requires narrow { width ≤ 20 }
        requires fresh { self.old.scenario ≡ empty_scenario made_setup }
        ensures { OnOk result (self.new ≡ with_grid nodes width self.old) }
    {
        let roads = roads_of(alloc, nodes, width)?;
        for road in &roads {
            self.add_road(alloc, *road)?;
        }
        Ok(())
    }
}
