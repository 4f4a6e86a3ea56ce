//! The loading of a scenario, with the nodes of each slot shared out over threads.
ghost use Rattle.std.specs.Prelude.{◌≡◌, ℕ, ◌+◌, ◌-◌, ◌<◌, ◌≤◌, All, length, slice_index_or, IfOk, OnOk};
ghost use Rattle.ltm_curve.specs.Counts.{Counts};
ghost use Rattle.ltm_curve.specs.TotalCurves.{HasTotals};
ghost use Rattle.ltm_flows.specs.Shown.{Shows};
ghost use Rattle.ltm_loading.specs.Loading.{IsLoading};
ghost use Rattle.ltm_setting.specs.Setting.{setting_of};
ghost use Rattle.ltm_setting.specs.Places.{all_groups};
ghost use Rattle.ltm_lean.specs.Nodes.{AreTables, IsFrozen};
ghost use Rattle.ltm_lean_kept.specs.Kept.{AreNodes, AllStand, KeptBefore};
ghost use Rattle.ltm_lean_threads.specs.Runs.{HasRoom};

use crate::parts::{Part, move_in_threads};
use crate::sharing::parts_of;
use crate::threads::{processors, threads_for};
use ltm_curve::TotalCurves;
use ltm_existence::there_is_a_loading;
use ltm_flows::Loading;
use ltm_lean::{LeanNode, Tables};
use ltm_lean_kept::keep;
use ltm_lean_load::publish;
use ltm_lean_make::{nodes_of, tables_of};
use ltm_scenario::Scenario;
use ltm_setting::{group_count, is_setting, slot_count};
use ltm_units::NoMemory;
use std::alloc::Global;
use std::thread::Threads;

/// All slots of all nodes, from an empty network on, in parts.
fn all_in_threads<R: Threads + Sync>(
    rt: &R,
    scenario: &Scenario,
    tables: &mut Tables,
    nodes: &mut [LeanNode],
    parts: &mut [Part],
    curves: &mut TotalCurves,
) -> Result<(), NoMemory>
    requires tables { AreTables (setting_of scenario.now) tables.old }
    requires nodes { AreNodes (setting_of scenario.now) tables.old nodes.old }
    requires some { 0 < length parts.old }
    requires room { All (HasRoom (setting_of scenario.now) tables.old) parts.old }
    requires shape { HasTotals curves.old (all_groups scenario.now) (setting_of scenario.now).slots }
    requires frozen { (c : Counts) → IsLoading (setting_of scenario.now) c → IsFrozen (setting_of scenario.now) c 0 tables.old }
    requires stands { (c : Counts) → IsLoading (setting_of scenario.now) c → AllStand (setting_of scenario.now) c tables.old 0 0 nodes.old }
    ensures shape { HasTotals curves.new (all_groups scenario.now) (setting_of scenario.now).slots }
    ensures kept { OnOk result ((c : Counts) → IsLoading (setting_of scenario.now) c
        → KeptBefore (setting_of scenario.now) c ((setting_of scenario.now).slots + 1) curves.new) }
{
    is_setting(scenario);
    keep(scenario, tables, nodes, 0, curves);
    for slot in 0..slot_count(scenario) {
        move_in_threads(rt, scenario, tables, nodes, slot, parts)?;
        publish(scenario, tables, nodes, slot);
        keep(scenario, tables, nodes, slot + 1, curves);
    }
    Ok(())
}

/// The loading, from what stands before the first slot on.
fn load_from<R: Threads + Sync>(
    rt: &R,
    alloc: Global,
    scenario: &Scenario,
    mut tables: Tables,
    version: u64,
    threads: usize,
) -> Result<Loading, NoMemory>
    requires some { 0 < threads }
    requires tables { AreTables (setting_of scenario.now) tables }
    requires frozen { (c : Counts) → IsLoading (setting_of scenario.now) c → IsFrozen (setting_of scenario.now) c 0 tables }
    ensures { IfOk result (Shows (setting_of scenario.now) version) }
{
    there_is_a_loading();
    is_setting(scenario);
    let mut nodes = nodes_of(alloc, scenario, &tables)?;
    let mut parts = parts_of(alloc, scenario, &tables, threads)?;
    let mut curves = TotalCurves::zeros(alloc, group_count(scenario), slot_count(scenario))?;
    all_in_threads(
        rt,
        scenario,
        &mut tables,
        &mut nodes,
        &mut parts,
        &mut curves,
    )?;
    Loading::of_totals(alloc, scenario, curves, version)
}

/// The loading of a scenario, under a version, in at most so many threads, and in at least one. It does not depend on their number,
/// and where a thread cannot be started, its nodes are moved by another.
pub fn load_in_threads<R: Threads + Sync>(
    rt: &R,
    alloc: Global,
    scenario: &Scenario,
    version: u64,
    threads: usize,
) -> Result<Loading, NoMemory>
    ensures { IfOk result (Shows (setting_of scenario.now) version) }
{
    let tables = tables_of(alloc, scenario)?;
    load_from(rt, alloc, scenario, tables, version, threads.max(1))
}

/// The same in as many threads as pay: one for each processor, up to 16, or a single one where few destinations can be on links.
pub fn load_on_processors<R: Threads + Sync>(
    rt: &R,
    alloc: Global,
    scenario: &Scenario,
    version: u64,
) -> Result<Loading, NoMemory>
    ensures { IfOk result (Shows (setting_of scenario.now) version) }
{
    let tables = tables_of(alloc, scenario)?;
    let threads = threads_for(&tables, processors(rt));
    load_from(rt, alloc, scenario, tables, version, threads)
}
