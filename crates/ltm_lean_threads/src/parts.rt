//! A slot of all nodes, in parts.
ghost use Rattle.std.specs.Prelude.{◌≡◌, ℕ, ◌+◌, ◌-◌, ◌<◌, ◌≤◌, All, length, map, OnOk};
ghost use Rattle.std.specs.Thread.{IsSync};
ghost use Rattle.ltm_curve.specs.Counts.{Counts};
ghost use Rattle.ltm_loading.specs.Loading.{IsLoading};
ghost use Rattle.ltm_setting.specs.Setting.{setting_of};
ghost use Rattle.ltm_setting.specs.Places.{IsSlot};
ghost use Rattle.ltm_lean.specs.Nodes.{AreTables, IsFrozen, IsNodeAt};
ghost use Rattle.ltm_lean_kept.specs.Kept.{AreNodes, AllStand};
ghost use Rattle.ltm_lean_load.specs.Nodes.{AllMoved, HasRoomForAll};
ghost use Rattle.ltm_lean_threads.specs.Runs.{IsBegun, CanMove, HasMoved, HasRoom, AreReady, AreSame, number_of};

use ltm_lean::{LeanNode, NodeRoom, Tables};
use ltm_scenario::Scenario;
use ltm_units::NoMemory;
use std::thread::{Threads, join_mut};

/// A part of the nodes, for one thread: up to which node it goes, and room for the step of a node.
#[derive(Drop)]
pub struct Part {
    pub until: usize,
    pub room: NodeRoom,
}

/// One slot of nodes that follow one another.
fn move_run(
    scenario: &Scenario,
    tables: &Tables,
    slot: u32,
    room: &mut NodeRoom,
    nodes: &mut [LeanNode],
) -> Result<(), NoMemory>
    requires begun { IsBegun (setting_of scenario.now) tables.now slot }
    requires room { HasRoomForAll (setting_of scenario.now) tables.now room.old }
    requires nodes { All (CanMove (setting_of scenario.now) tables.now slot) nodes.old }
    ensures room { HasRoomForAll (setting_of scenario.now) tables.now room.new }
    ensures nodes { All (IsNodeAt (setting_of scenario.now) tables.now) nodes.new }
    ensures numbers { map number_of nodes.new ≡ map number_of nodes.old }
    ensures moved { OnOk result (All (HasMoved (setting_of scenario.now) tables.now slot) nodes.new) }
{
    for k in 0..nodes.len() {
        nodes[k].slot(scenario, tables, slot, room)?;
    }
    Ok(())
}

/// One slot of nodes that follow one another from a number on, in parts, each of them in a thread of its own where one can be made.
#[cycle(parts)]
fn move_parts<R: Threads + Sync>(
    rt: &R,
    scenario: &Scenario,
    tables: &Tables,
    slot: u32,
    from: usize,
    parts: &mut [Part],
    nodes: &mut [LeanNode],
) -> Result<(), NoMemory>
    requires { AreReady (setting_of scenario.now) tables.now slot parts.old nodes.old }
    ensures same { AreSame (setting_of scenario.now) tables.now parts.old nodes.old parts.new nodes.new }
    ensures moved { OnOk result (All (HasMoved (setting_of scenario.now) tables.now slot) nodes.new) }
{
    if parts.len() == 1 {
        return move_run(scenario, tables, slot, &mut parts[0].room, nodes);
    }
    let half = parts.len() / 2;
    let until = parts[half - 1].until;
    let many = until.saturating_sub(from).min(nodes.len());
    let (low, high) = parts.split_at_mut(half);
    let (front, back) = nodes.split_at_mut(many);
    move_both(
        rt, scenario, tables, slot, from, low, front, until, high, back,
    )
}

/// The same of two runs of nodes, side by side.
#[cycle(parts)]
fn move_both<R: Threads + Sync>(
    rt: &R,
    scenario: &Scenario,
    tables: &Tables,
    slot: u32,
    from: usize,
    low: &mut [Part],
    front: &mut [LeanNode],
    until: usize,
    high: &mut [Part],
    back: &mut [LeanNode],
) -> Result<(), NoMemory>
    requires front { AreReady (setting_of scenario.now) tables.now slot low.old front.old }
    requires back { AreReady (setting_of scenario.now) tables.now slot high.old back.old }
    ensures front { AreSame (setting_of scenario.now) tables.now low.old front.old low.new front.new }
    ensures back { AreSame (setting_of scenario.now) tables.now high.old back.old high.new back.new }
    ensures moved { OnOk result (All (HasMoved (setting_of scenario.now) tables.now slot) front.new
        × All (HasMoved (setting_of scenario.now) tables.now slot) back.new) }
{
    let mut first = || -> Result<(), NoMemory>
        requires { IsSync R.row × AreReady (setting_of scenario.now) tables.now slot low.now front.now }
        ensures same { AreSame (setting_of scenario.entry.now) tables.entry.now low.entry.now front.entry.now low.exit.now front.exit.now }
        ensures moved { OnOk result (All (HasMoved (setting_of scenario.entry.now) tables.entry.now slot) front.exit.now) }
    { move_parts(rt, scenario, tables, slot, from, low, front) };
    let mut second = || -> Result<(), NoMemory>
        requires { IsSync R.row × AreReady (setting_of scenario.now) tables.now slot high.now back.now }
        ensures same { AreSame (setting_of scenario.entry.now) tables.entry.now high.entry.now back.entry.now high.exit.now back.exit.now }
        ensures moved { OnOk result (All (HasMoved (setting_of scenario.entry.now) tables.entry.now slot) back.exit.now) }
    { move_parts(rt, scenario, tables, slot, until, high, back) };
    let (first, second) = join_mut(rt, &mut first, &mut second);
    first?;
    second
}

/// One slot of all nodes, in parts, each of them in a thread of its own where one can be made. The answer does not depend on the parts.
pub fn move_in_threads<R: Threads + Sync>(
    rt: &R,
    scenario: &Scenario,
    tables: &Tables,
    nodes: &mut [LeanNode],
    slot: u32,
    parts: &mut [Part],
) -> Result<(), NoMemory>
    requires slot { IsSlot scenario.now slot }
    requires tables { AreTables (setting_of scenario.now) tables.now }
    requires nodes { AreNodes (setting_of scenario.now) tables.now nodes.old }
    requires some { 0 < length parts.old }
    requires room { All (HasRoom (setting_of scenario.now) tables.now) parts.old }
    requires frozen { (c : Counts) → IsLoading (setting_of scenario.now) c → IsFrozen (setting_of scenario.now) c slot tables.now }
    requires stands { (c : Counts) → IsLoading (setting_of scenario.now) c
        → AllStand (setting_of scenario.now) c tables.now (slot - 1) slot nodes.old }
    ensures nodes { AreNodes (setting_of scenario.now) tables.now nodes.new }
    ensures count { length parts.new ≡ length parts.old }
    ensures room { All (HasRoom (setting_of scenario.now) tables.now) parts.new }
    ensures stands { OnOk result ((c : Counts) → IsLoading (setting_of scenario.now) c
        → AllStand (setting_of scenario.now) c tables.now slot (slot + 1) nodes.new) }
    ensures moved { OnOk result ((c : Counts) → IsLoading (setting_of scenario.now) c
        → AllMoved (setting_of scenario.now) c tables.now slot nodes.new) }
{
    move_parts(rt, scenario, tables, slot, 0, parts, nodes)
}
