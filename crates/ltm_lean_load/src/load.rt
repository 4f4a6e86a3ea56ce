//! The loading of a scenario, of what stands on its links.
ghost use Rattle.std.specs.Prelude.{◌≡◌, ℕ, ◌<◌, ◌≤◌, length, IfOk};
ghost use Rattle.ltm_flows.specs.Shown.{Shows};
ghost use Rattle.ltm_setting.specs.Setting.{setting_of};

use crate::slots::all_slots;
use ltm_curve::TotalCurves;
use ltm_existence::there_is_a_loading;
use ltm_flows::Loading;
use ltm_lean::NodeRoom;
use ltm_lean_make::{nodes_of, tables_of, widest_listed};
use ltm_scenario::Scenario;
use ltm_setting::{group_count, is_setting, slot_count};
use ltm_units::NoMemory;
use std::alloc::Global;

/// The loading of a scenario, under a version. Of each destination only what stands on the links is kept while it is made, and of
/// links and origins the totals by boundary: it takes memory for what can stand somewhere, not for all counts.
pub fn load_lean(alloc: Global, scenario: &Scenario, version: u64) -> Result<Loading, NoMemory>
    ensures { IfOk result (Shows (setting_of scenario.now) version) }
{
    there_is_a_loading();
    is_setting(scenario);
    let mut tables = tables_of(alloc, scenario)?;
    let mut nodes = nodes_of(alloc, scenario, &tables)?;
    let widest = widest_listed(scenario, &tables);
    let mut room = NodeRoom::create(alloc, widest as u32)?;
    let mut curves = TotalCurves::zeros(alloc, group_count(scenario), slot_count(scenario))?;
    all_slots(scenario, &mut tables, &mut nodes, &mut room, &mut curves)?;
    Loading::of_totals(alloc, scenario, curves, version)
}
