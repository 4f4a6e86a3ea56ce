//! The lines of a trial.
ghost use Rattle.std.specs.Prelude.{◌≡◌, ◌++◌, ◌*◌, ℕ, OnOk};
ghost use Rattle.ltm_flows.specs.Counts.{Counts};
ghost use Rattle.ltm_loading.specs.Setting.{Setting};
ghost use Rattle.ltm_setting.specs.Setting.{setting_of};
ghost use Rattle.ltm_flows.specs.Shown.{ShowsCounts};
ghost use Rattle.ltm_times.specs.Times.{time_spent};
ghost use Rattle.ltm_report.specs.Made.{work_line};
ghost use Rattle.ltm_try_command.specs.Trial.{size_of};

use ltm_core::Core;
use ltm_flows::Loading;
use ltm_report::{size_text, work_text};
use ltm_setting::{link_count, node_count};
use ltm_times::time_spent;
use ltm_units::NoMemory;
use std::alloc::Global;

/// Says how large a core's scenario is.
#[tactic(auto, unfolding(crate::specs::Trial::size_of))]
pub(crate) fn push_size(alloc: Global, core: &Core, into: &mut Vec<u8>) -> Result<(), NoMemory>
    ensures { OnOk result (into.new.items
        ≡ into.old.items ++ size_of (setting_of core.now.scenario)) }
{
    let pairs = core.pairs();
    let nodes = node_count(core.scenario());
    let links = link_count(core.scenario());
    size_text(alloc, nodes, links, pairs, into)
}

/// Says how much was worked, and what time all vehicles spend.
pub(crate) fn push_work(
    alloc: Global,
    loading: &Loading,
    recomputed: u128,
    solved: u64,
    into: &mut Vec<u8>,
) -> Result<(), NoMemory>
    ensures { (s : Setting) (version : ℕ) (c : Counts) → ShowsCounts s version c loading.now
        → OnOk result (into.new.items
        ≡ into.old.items ++ work_line recomputed solved (time_spent s c)) }
{
    work_text(alloc, recomputed, solved, time_spent(loading), into)
}
