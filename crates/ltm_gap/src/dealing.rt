//! Which origins are searched side by side, and in how many parts.
ghost use Rattle.std.specs.Prelude.{◌≡◌, ◌<◌, ◌≤◌, All, length, IfOk};
ghost use Rattle.ltm_setting.specs.Setting.{setting_of};
ghost use Rattle.ltm_gap.specs.Parts.{AreDealt, most_parts};

use ltm_scenario::Scenario;
use ltm_setting::{link_count, node_count, produced_total, slot_count};
use ltm_units::{NoMemory, NodeId};
use std::alloc::Global;
use std::thread;
use std::thread::Threads;

/// No more processors are searched on than this.
const PROCESSORS: usize = 16;

/// Searches that look at links at most so often in all, for some tenths of a second, are made on one thread.
const FEW_LOOKS: u64 = 2_000_000;

/// In how many slots an origin produces something: in each it is searched from.
fn searches_from(scenario: &Scenario, origin: NodeId) -> u64 {
    let mut searches = 0u64;
    let mut before = 0;
    for slot in 0..slot_count(scenario) {
        let after = produced_total(scenario, origin, slot + 1);
        if before < after {
            searches = searches.saturating_add(1);
        }
        before = after;
    }
    searches
}

/// The same of each origin in order.
pub(crate) fn all_searches(alloc: Global, scenario: &Scenario) -> Result<Vec<u64>, NoMemory>
    ensures { IfOk result (λ searches. length searches.items ≡ (setting_of scenario.now).nodes) }
{
    let nodes = node_count(scenario);
    let mut searches = vec![in alloc; 0u64; nodes as usize].map_err(|_| NoMemory)?;
    for origin in 0..nodes {
        searches[origin as usize] = searches_from(scenario, NodeId(origin));
    }
    Ok(searches)
}

/// Whether the searches of a case are too few for a thread to be started, however much is produced.
pub(crate) fn is_small(scenario: &Scenario) -> bool {
    let most = u64::from(node_count(scenario)).saturating_mul(u64::from(slot_count(scenario)));
    most.saturating_mul(u64::from(link_count(scenario))) <= FEW_LOOKS
}

/// The sum of all, or the greatest number that there is.
fn sum_of(searches: &[u64]) -> u64 {
    let mut sum = 0u64;
    for more in searches {
        sum = sum.saturating_add(*more);
    }
    sum
}

/// How many processors there are to search on, at most 16.
fn processors<R: Threads>(rt: &R) -> usize
    ensures some { 0 < result }
    ensures few { result ≤ most_parts }
{
    match thread::available_parallelism(rt) {
        Ok(count) => count.get().min(PROCESSORS),
        Err(_) => 1,
    }
}

/// In how many parts the searches of a case are made: in one, unless they take longer than threads take to start.
pub(crate) fn parts_for<R: Threads>(rt: &R, scenario: &Scenario, searches: &[u64]) -> usize
    ensures some { 0 < result }
    ensures few { result ≤ most_parts }
{
    if sum_of(searches).saturating_mul(u64::from(link_count(scenario))) <= FEW_LOOKS {
        1
    } else {
        processors(rt)
    }
}

/// The place of the least number, the first of several.
fn least(loads: &[u64]) -> usize
    requires { 0 < length loads.now }
    ensures { result < length loads.now }
{
    let mut least = 0;
    for place in 1..loads.len() {
        if loads[place] < loads[least] {
            least = place;
        }
    }
    least
}

/// Deals the origins out in order, each to the part that has the fewest searches so far.
pub(crate) fn deal(alloc: Global, searches: &[u64], parts: usize) -> Result<Vec<usize>, NoMemory>
    requires { 0 < parts }
    ensures { IfOk result (λ owners. AreDealt parts (length searches.now) owners.items) }
{
    let mut loads = vec![in alloc; 0u64; parts].map_err(|_| NoMemory)?;
    let mut owners = Vec::new(alloc);
    for many in searches {
        let part = least(loads.as_slice());
        loads[part] = loads[part].saturating_add(*many);
        owners.push(part)?;
    }
    Ok(owners)
}
