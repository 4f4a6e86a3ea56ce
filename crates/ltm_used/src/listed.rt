//! What is found, as a list for each link.
ghost use Rattle.std.specs.Prelude.{◌≡◌, ℕ, ◌+◌, ◌*◌, ◌<◌, ◌≤◌, ◌++◌, IfOk, OnOk};
ghost use Rattle.ltm_curve.specs.Counts.{Counts};
ghost use Rattle.ltm_loading.specs.Loading.{IsLoading};
ghost use Rattle.ltm_standing.specs.Listed.{Ascends, IsListed};
ghost use Rattle.ltm_setting.specs.Setting.{setting_of};
ghost use Rattle.ltm_setting.specs.Places.{IsLink};
ghost use Rattle.ltm_used.specs.Found.{size_of};
ghost use Rattle.ltm_used.specs.Lists.{found_from, found_on, links_of, list_of};

use crate::found::Found;
use crate::laws::nothing_else;
use crate::roots::reached;
use crate::used::Used;
use ltm_scenario::Scenario;
use ltm_setting::{destination_count, is_setting, link_count};
use ltm_units::NoMemory;
use std::alloc::Global;

/// Adds the numbers that are found from one on, each less that one.
pub(crate) fn add_found(
    found: &Found,
    first: usize,
    many: u32,
    into: &mut Vec<u32>,
) -> Result<(), NoMemory>
    requires { first + many ≤ size_of found.now }
    ensures { OnOk result (into.new.items ≡ into.old.items ++ found_from found.now first many) }
{
    let _size = found.size();
    for number in 0..many {
        if found.is_found(first + number as usize) {
            into.push(number)?;
        }
    }
    Ok(())
}

/// What is found of each link.
fn lists(alloc: Global, scenario: &Scenario, found: &Found) -> Result<Used, NoMemory>
    requires { size_of found.now ≡ (setting_of scenario.now).links * (setting_of scenario.now).destinations }
    ensures links { IfOk result (λ used. links_of used ≡ (setting_of scenario.now).links) }
    ensures lists { IfOk result (λ used. (l : ℕ) → l < (setting_of scenario.now).links
        → list_of used l ≡ found_on (setting_of scenario.now) found.now l) }
{
    let many = destination_count(scenario);
    let mut starts = Vec::new(alloc);
    let mut destinations = Vec::new(alloc);
    starts.push(0)?;
    for link in 0..link_count(scenario) {
        add_found(
            found,
            link as usize * many as usize,
            many,
            &mut destinations,
        )?;
        starts.push(destinations.len())?;
    }
    Ok(Used::of(starts, destinations))
}

/// The destinations that can be on each link of a scenario, in order: those that an origin with demand for them reaches
/// by the out-links to which split rows give a weight.
pub fn used_destinations(alloc: Global, scenario: &Scenario) -> Result<Used, NoMemory>
    ensures links { IfOk result (λ used. links_of used ≡ (setting_of scenario.now).links) }
    ensures order { IfOk result (λ used. (l : ℕ) → IsLink scenario.now l → Ascends 0 (setting_of scenario.now).destinations (list_of used l)) }
    ensures listed { IfOk result (λ used. (c : Counts) (l : ℕ) → IsLoading (setting_of scenario.now) c
        → IsLink scenario.now l → IsListed (setting_of scenario.now) c l (list_of used l)) }
{
    is_setting(scenario);
    nothing_else();
    let found = reached(alloc, scenario)?;
    let used = lists(alloc, scenario, &found)?;
    Ok(used)
}
