//! The report of the gap of a whole loading, as one text.
ghost use Rattle.std.specs.Prelude.{◌≡◌, ◌++◌, ◌<◌, IfOk, OnOk, length};
ghost use Rattle.ltm_curve.specs.Counts.{Counts};
ghost use Rattle.ltm_flows.specs.Shown.{Shows, ShowsCounts};
ghost use Rattle.ltm_setting.specs.Setting.{setting_of};
ghost use Rattle.ltm_units.specs.Texts.{texts_below};
ghost use Rattle.ltm_gap.specs.Told.{AreGaps};
ghost use Rattle.ltm_report.specs.GapReports.{gap_to_of, IsGapReport};

use crate::delay_report::load;
use crate::gaps::{gap_line_text, gap_to_text};
use ltm_flows::Loading;
use ltm_gap::{Gaps, gaps_in_threads, spent_to};
use ltm_scenario::Scenario;
use ltm_times::time_spent;
use ltm_units::NoMemory;
use std::alloc::Global;
use std::thread::Threads;

/// Appends the line of a destination.
#[tactic(auto, unfolding(ltm_setting::specs::Setting::setting_of), using(crate::proofs::Gapped::shown_suits))]
fn push_destination(
    alloc: Global,
    scenario: &Scenario,
    loading: &Loading,
    gaps: &Gaps,
    destination: u32,
    into: &mut Vec<u8>,
) -> Result<(), NoMemory>
    requires shows { Shows (setting_of scenario.now) 0 loading.now }
    requires gaps { AreGaps (setting_of scenario.now) loading.now gaps.now }
    requires destination { destination < length scenario.now.destinations }
    ensures { OnOk result ((c : Counts) → ShowsCounts (setting_of scenario.now) 0 c loading.now
        → into.new.items ≡ into.old.items ++ gap_to_of scenario.now c destination) }
{
    let _setup = scenario.setup();
    let name = scenario
        .network()
        .node_name(scenario.destination_node(destination));
    let spent = spent_to(scenario, loading, destination);
    gap_to_text(alloc, &name, spent, gaps.to(destination), into)
}

/// Appends the line of each destination.
fn push_destinations(
    alloc: Global,
    scenario: &Scenario,
    loading: &Loading,
    gaps: &Gaps,
    into: &mut Vec<u8>,
) -> Result<(), NoMemory>
    requires shows { Shows (setting_of scenario.now) 0 loading.now }
    requires gaps { AreGaps (setting_of scenario.now) loading.now gaps.now }
    ensures { OnOk result ((c : Counts) → ShowsCounts (setting_of scenario.now) 0 c loading.now
        → into.new.items ≡ into.old.items
        ++ texts_below (length scenario.now.destinations) (gap_to_of scenario.now c)) }
{
    let _setup = scenario.setup();
    let destinations = scenario.destinations().len() as u32;
    for destination in 0..destinations {
        push_destination(alloc, scenario, loading, gaps, destination, into)?;
    }
    Ok(())
}

/// Loads a scenario, and gives what all who travel spend, an estimate of the least that they could at the link times of its
/// loading, how many no route brings there by the end, and the same for each destination in order. Loading and gap of a large
/// case are found in threads; the report is the same however many there are.
#[tactic(auto, using(crate::proofs::Gapped::shown_suits))]
pub fn gap_report_of<R: Threads + Sync>(
    rt: &R,
    alloc: Global,
    scenario: &Scenario,
) -> Result<Vec<u8>, NoMemory>
    ensures { IfOk result (λ text. IsGapReport scenario.now text.items) }
{
    let _setup = scenario.setup();
    let loading = load(rt, alloc, scenario)?;
    let gaps = gaps_in_threads(rt, alloc, scenario, &loading)?;
    let mut text = Vec::new(alloc);
    gap_line_text(alloc, 0, time_spent(&loading), gaps.all(), &mut text)?;
    push_destinations(alloc, scenario, &loading, &gaps, &mut text)?;
    Ok(text)
}
