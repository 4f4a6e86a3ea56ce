//! The searches in parts, side by side or one after another, and the sums of all parts together.
ghost use Rattle.std.specs.Prelude.{◌≡◌, ◌<◌, ◌≤◌, ◌^◌, ℕ, length, replicate, slice_index_or, IfOk};
ghost use Rattle.ltm_setting.specs.Setting.{setting_of};
ghost use Rattle.ltm_gap.specs.Parts.{most_parts, AreJoined, BothBelow, IsPart};
ghost use Rattle.ltm_gap.specs.Steps.{no_sum, AreSums};
ghost use Rattle.ltm_gap.specs.Told.{Suits};

use crate::pair::Pair;
use crate::sums::Sum;
use ltm_flows::Loading;
use ltm_scenario::Scenario;
use ltm_setting::{destination_count, node_count};
use ltm_units::{NoMemory, NodeId};
use std::alloc::Global;
use std::thread;
use std::thread::Threads;

/// The sums of all destinations, or that there is no memory for them.
pub(crate) type Sums = Result<Vec<Sum>, NoMemory>;

fn no_sums(alloc: Global, destinations: usize) -> Sums
    ensures { IfOk result (λ sums. sums.items ≡ replicate destinations no_sum) }
{
    vec![in alloc; Sum { twice: 0, late: 0 }; destinations].map_err(|_| NoMemory)
}

/// The sums of the origins of a part.
pub(crate) fn sums_of(
    alloc: Global,
    scenario: &Scenario,
    loading: &Loading,
    owners: &[usize],
    part: usize,
) -> Sums
    requires suits { Suits (setting_of scenario.now) loading.now }
    requires owners { length owners.now ≡ (setting_of scenario.now).nodes }
    ensures { IfOk result (λ sums. IsPart (setting_of scenario.now) loading.now owners.now part
        sums.items) }
{
    let mut pair = Pair::create(alloc, scenario)?;
    let mut sums = no_sums(alloc, destination_count(scenario) as usize)?;
    for origin in 0..node_count(scenario) {
        pair.add_owned(scenario, loading, owners, part, NodeId(origin), &mut sums)?;
    }
    Ok(sums)
}

/// The sums of each part, in threads as far as any can be started.
pub(crate) fn all_sums<R: Threads + Sync>(
    rt: &R,
    alloc: Global,
    scenario: &Scenario,
    loading: &Loading,
    owners: &[usize],
    parts: usize,
) -> Result<Vec<Sums>, NoMemory>
    requires suits { Suits (setting_of scenario.now) loading.now }
    requires owners { length owners.now ≡ (setting_of scenario.now).nodes }
    ensures count { IfOk result (λ found. length found.items ≡ parts) }
    ensures each { IfOk result (λ found. (part : ℕ) (d : _) → part < parts
        → IfOk (slice_index_or found.items part d)
        (λ sums. IsPart (setting_of scenario.now) loading.now owners.now part sums.items)) }
{
    let found = thread::map_indices(
        rt,
        alloc,
        parts,
        &|part| sums_of(alloc, scenario, loading, owners, part),
    )?;
    Ok(found)
}

/// Adds the sums of one more part.
fn add_sums(sums: &mut Vec<Sum>, more: &[Sum])
    requires same { length more.now ≡ length sums.old.items }
    requires room { AreSums (2 ^ 34) sums.old.items }
    requires more_room { AreSums (2 ^ 30) more.now }
    ensures { BothBelow (length sums.old.items) sums.old.items more.now sums.new.items }
{
    for destination in 0..sums.len() {
        sums[destination] = sums[destination].and(more[destination]);
    }
}

/// The sums of all parts together.
pub(crate) fn joined(
    alloc: Global,
    scenario: &Scenario,
    loading: &Loading,
    owners: &[usize],
    found: &[Sums],
) -> Sums
    requires few { length found.now ≤ most_parts }
    requires parts { (part : ℕ) (d : _) → part < length found.now
        → IfOk (slice_index_or found.now part d)
        (λ sums. IsPart (setting_of scenario.now) loading.now owners.now part sums.items) }
    ensures { IfOk result (λ sums. AreJoined (setting_of scenario.now) loading.now owners.now
        (length found.now) sums.items) }
{
    let _loading = loading;
    let _owners = owners;
    let mut sums = no_sums(alloc, destination_count(scenario) as usize)?;
    for part in 0..found.len() {
        match &found[part] {
            Ok(more) => add_sums(&mut sums, more.as_slice()),
            Err(_) => return Err(NoMemory),
        }
    }
    Ok(sums)
}
