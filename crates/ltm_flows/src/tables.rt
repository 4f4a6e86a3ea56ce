//! What a loading keeps of a scenario: the free-flow times of its links, and what its origins produce.
ghost use Rattle.std.specs.Prelude.{◌≡◌, ℕ, length, map, slice_index, IfOk};
ghost use Rattle.ltm_setting.specs.Setting.{setting_of};
ghost use Rattle.ltm_flows.specs.Origins.{produced_in_all};
ghost use Rattle.ltm_flows.specs.Production.{produced_in};
ghost use Rattle.ltm_setting.specs.Places.{IsBoundary, IsLink, IsNode};

use crate::production::Production;
use ltm_scenario::Scenario;
use ltm_setting::{limits, link_count, node_count, slot_count};
use ltm_units::{LinkId, Millis, NoMemory};
use std::alloc::Global;

/// The free-flow time of each link.
pub(crate) fn free_times(alloc: Global, scenario: &Scenario) -> Result<Vec<Millis>, NoMemory>
    ensures count { IfOk result (λ times. length times.items ≡ (setting_of scenario.now).links) }
    ensures times { IfOk result (λ times. (l : ℕ) → IsLink scenario.now l
        → slice_index (map (λ time. time.0) times.items) l
        ≡ (setting_of scenario.now).free_time l) }
{
    let mut times = vec![in alloc; Millis(0); link_count(scenario) as usize]?;
    write_free_times(scenario, &mut times);
    Ok(times)
}

/// Writes the free-flow time of each link.
pub(crate) fn write_free_times(scenario: &Scenario, into: &mut [Millis])
    requires { length into.old ≡ (setting_of scenario.now).links }
    ensures { (l : ℕ) → IsLink scenario.now l
        → slice_index (map (λ time. time.0) into.new) l ≡ (setting_of scenario.now).free_time l }
{
    for link in 0..link_count(scenario) {
        into[link as usize] = Millis(limits(scenario, LinkId(link)).free_ms);
    }
}

/// What the origin of each node has produced by each boundary.
pub(crate) fn production(alloc: Global, scenario: &Scenario) -> Result<Production, NoMemory>
    ensures nodes { IfOk result (λ p. p.nodes ≡ (setting_of scenario.now).nodes) }
    ensures room { IfOk result (λ p. p.room ≡ (setting_of scenario.now).slots) }
    ensures amounts { IfOk result (λ p. (n k : ℕ) → IsNode scenario.now n
        → IsBoundary scenario.now k
        → produced_in p n k ≡ produced_in_all (setting_of scenario.now) n k) }
{
    let last = slot_count(scenario);
    let mut production = Production::none(alloc, node_count(scenario), last)?;
    production.fill(scenario);
    Ok(production)
}
