//! How the least times of all who travel are found, and what they spend.
ghost use Rattle.std.specs.Prelude.{◌≡◌, ◌≤◌, ℕ, replicate, IfOk};
ghost use Rattle.ltm_curve.specs.Counts.{Counts};
ghost use Rattle.ltm_flows.specs.Shown.{ShowsCounts};
ghost use Rattle.ltm_setting.specs.Setting.{setting_of};
ghost use Rattle.ltm_setting.specs.Places.{IsDestination};
ghost use Rattle.ltm_gap.specs.Gaps.{spent_to};
ghost use Rattle.ltm_gap.specs.Parts.{most_parts, AreDealt};
ghost use Rattle.ltm_gap.specs.Told.{Suits, AreGaps};
ghost use Rattle.ltm_units.specs.Sums.{sum_below};

use crate::arrived::arrived_at;
use crate::dealing::{all_searches, deal, is_small, parts_for};
use crate::gaps::Gaps;
use crate::parts::{all_sums, joined, sums_of};
use ltm_flows::Loading;
use ltm_scenario::Scenario;
use ltm_setting::{destination_count, little_is_produced, node_count, produced, slot_count, step};
use ltm_units::{NoMemory, NodeId};
use std::alloc::Global;
use std::thread::Threads;

/// All origins in one part.
fn one_part(alloc: Global, origins: u32) -> Result<Vec<usize>, NoMemory>
    ensures { IfOk result (λ owners. owners.items ≡ replicate origins 0) }
{
    vec![in alloc; 0usize; origins as usize].map_err(|_| NoMemory)
}

/// The gaps of the loading of a scenario, found on one thread.
pub fn gaps_of(alloc: Global, scenario: &Scenario, loading: &Loading) -> Result<Gaps, NoMemory>
    requires { Suits (setting_of scenario.now) loading.now }
    ensures { IfOk result (AreGaps (setting_of scenario.now) loading.now) }
{
    let _destinations = destination_count(scenario);
    let owners = one_part(alloc, node_count(scenario))?;
    let sums = sums_of(alloc, scenario, loading, owners.as_slice(), 0)?;
    Ok(Gaps::new(sums))
}

/// The same, whose origins are dealt out in so many parts, each in a thread of its own where one can be started.
fn gaps_in_parts<R: Threads + Sync>(
    rt: &R,
    alloc: Global,
    scenario: &Scenario,
    loading: &Loading,
    owners: &[usize],
    parts: usize,
) -> Result<Gaps, NoMemory>
    requires suits { Suits (setting_of scenario.now) loading.now }
    requires few { parts ≤ most_parts }
    requires dealt { AreDealt parts (setting_of scenario.now).nodes owners.now }
    ensures { IfOk result (AreGaps (setting_of scenario.now) loading.now) }
{
    let _destinations = destination_count(scenario);
    let found = all_sums(rt, alloc, scenario, loading, owners, parts)?;
    let sums = joined(alloc, scenario, loading, owners, found.as_slice())?;
    Ok(Gaps::new(sums))
}

/// The same, found in threads where that pays: as many as there are processors, at most 16.
pub fn gaps_in_threads<R: Threads + Sync>(
    rt: &R,
    alloc: Global,
    scenario: &Scenario,
    loading: &Loading,
) -> Result<Gaps, NoMemory>
    requires { Suits (setting_of scenario.now) loading.now }
    ensures { IfOk result (AreGaps (setting_of scenario.now) loading.now) }
{
    if is_small(scenario) {
        return gaps_of(alloc, scenario, loading);
    }
    let searches = all_searches(alloc, scenario)?;
    let parts = parts_for(rt, scenario, searches.as_slice());
    let owners = deal(alloc, searches.as_slice(), parts)?;
    gaps_in_parts(rt, alloc, scenario, loading, owners.as_slice(), parts)
}

/// What all origins have produced for a destination by a boundary.
fn produced_to(scenario: &Scenario, destination: u32, boundary: u32) -> u64
    requires { IsDestination scenario.now destination }
    ensures value { result ≡ sum_below (setting_of scenario.now).nodes
        (λ origin. (setting_of scenario.now).produced origin destination boundary) }
{
    little_is_produced(scenario);
    let mut sum = 0u64;
    for origin in 0..node_count(scenario) {
        sum += produced(scenario, NodeId(origin), destination, boundary);
    }
    sum
}

/// The time that those who travel to a destination spend, in units times milliseconds.
pub fn spent_to(scenario: &Scenario, loading: &Loading, destination: u32) -> u128
    requires destination { IsDestination scenario.now destination }
    requires suits { Suits (setting_of scenario.now) loading.now }
    ensures { (version : ℕ) (c : Counts)
        → ShowsCounts (setting_of scenario.now) version c loading.now
        → result ≡ spent_to (setting_of scenario.now) c destination }
{
    let mut sum = 0u128;
    for slot in 0..slot_count(scenario) {
        let produced = produced_to(scenario, destination, slot + 1);
        let arrived = arrived_at(scenario, loading, destination, slot + 1);
        sum += u128::from(produced.saturating_sub(arrived));
    }
    sum * u128::from(step(scenario).0)
}
