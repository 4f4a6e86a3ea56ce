//! Which nodes are moved by which thread.
ghost use Rattle.std.specs.Prelude.{◌≡◌, ◌<◌, ◌≤◌, All, length, IfOk};
ghost use Rattle.ltm_setting.specs.Setting.{setting_of};
ghost use Rattle.ltm_setting.specs.Places.{IsNode};
ghost use Rattle.ltm_used.specs.Lists.{links_of};
ghost use Rattle.ltm_lean.specs.Nodes.{AreTables};
ghost use Rattle.ltm_lean_load.specs.Nodes.{HasRoomForAll};
ghost use Rattle.ltm_lean_threads.specs.Runs.{HasRoom};

use crate::parts::Part;
use ltm_lean::{NodeRoom, Tables};
use ltm_lean_make::widest_listed;
use ltm_scenario::Scenario;
use ltm_setting::{in_links, node_count, out_links, produced_total, slot_count};
use ltm_units::{LinkId, NoMemory, NodeId};
use std::alloc::Global;

/// How many destinations can be on links, together.
fn entries_on(tables: &Tables, links: &[LinkId]) -> u64
    requires { All (λ link. link.0 < links_of tables.now.links) links.now }
{
    let mut entries = 0u64;
    for i in 0..links.len() {
        let list = tables.links.on(links[i].0 as usize);
        entries = entries.saturating_add(list.len() as u64);
    }
    entries
}

/// How many destinations can be at a node from which vehicles start: none where nobody starts.
fn entries_of_origin(scenario: &Scenario, tables: &Tables, node: NodeId) -> u64
    requires node { IsNode scenario.now node.0 }
    requires tables { AreTables (setting_of scenario.now) tables.now }
{
    let slots = slot_count(scenario);
    if produced_total(scenario, node, slots) == 0 {
        return 0;
    }
    tables.nodes.on(node.0 as usize).len() as u64
}

/// What a slot of a node costs, about: a destination costs four at each arm, two at the origin, and one at each out-link.
fn cost_of(scenario: &Scenario, tables: &Tables, node: NodeId) -> u64
    requires node { IsNode scenario.now node.0 }
    requires tables { AreTables (setting_of scenario.now) tables.now }
{
    let arms = entries_on(tables, in_links(scenario, node));
    let outs = entries_on(tables, out_links(scenario, node));
    let starts = entries_of_origin(scenario, tables, node);
    arms.saturating_mul(4)
        .saturating_add(starts.saturating_mul(2))
        .saturating_add(outs)
}

/// The first node by which the nodes before it cost as much, and how many nodes there are where all of them cost less.
fn reached(scenario: &Scenario, tables: &Tables, cost: u64) -> usize
    requires tables { AreTables (setting_of scenario.now) tables.now }
{
    let mut sum = 0u64;
    for node in 0..node_count(scenario) {
        if sum >= cost {
            return node as usize;
        }
        sum = sum.saturating_add(cost_of(scenario, tables, NodeId(node)));
    }
    node_count(scenario) as usize
}

/// What a slot of all nodes costs.
fn cost_of_all(scenario: &Scenario, tables: &Tables) -> u64
    requires tables { AreTables (setting_of scenario.now) tables.now }
{
    let mut sum = 0u64;
    for node in 0..node_count(scenario) {
        sum = sum.saturating_add(cost_of(scenario, tables, NodeId(node)));
    }
    sum
}

/// Room for the step of any node.
fn room_of(alloc: Global, scenario: &Scenario, tables: &Tables) -> Result<NodeRoom, NoMemory>
    requires tables { AreTables (setting_of scenario.now) tables.now }
    ensures { IfOk result (HasRoomForAll (setting_of scenario.now) tables.now) }
{
    let widest = widest_listed(scenario, tables);
    NodeRoom::create(alloc, widest as u32)
}

/// So many parts, in order of number, whose nodes cost about the same.
pub fn parts_of(
    alloc: Global,
    scenario: &Scenario,
    tables: &Tables,
    threads: usize,
) -> Result<Vec<Part>, NoMemory>
    requires some { 0 < threads }
    requires tables { AreTables (setting_of scenario.now) tables.now }
    ensures count { IfOk result (λ parts. length parts.items ≡ threads) }
    ensures room { IfOk result (λ parts. All (HasRoom (setting_of scenario.now) tables.now) parts.items) }
{
    let share = cost_of_all(scenario, tables) / threads as u64;
    let mut parts = Vec::new(alloc);
    for part in 0..threads {
        let until = reached(scenario, tables, share.saturating_mul(part as u64 + 1));
        let room = room_of(alloc, scenario, tables)?;
        parts.push(Part { until, room })?;
    }
    Ok(parts)
}
