//! Which links split rows take for which destinations.
ghost use Rattle.std.specs.Prelude.{◌≡◌, ℕ, ◌+◌, ◌*◌, ◌<◌, length, slice_index, IfOk};
ghost use Rattle.ltm_setting.specs.Setting.{setting_of};
ghost use Rattle.ltm_setting.specs.Places.{IsDestination, IsNode};
ghost use Rattle.ltm_used.specs.Found.{MarksLeads};
ghost use Rattle.ltm_used.specs.Leading.{KeepsMarks, IsMarked, AreAllMarked};

use crate::closing::out_link_at;
use ltm_scenario::Scenario;
use ltm_setting::{destination_count, link_count, out_links};
use ltm_splits::SplitKey;
use ltm_units::NoMemory;
use std::alloc::Global;

/// Marks a link for a destination.
fn mark(scenario: &Scenario, goes: &mut [u8], link: u32, destination: u32)
    requires link { link < (setting_of scenario.now).links }
    requires destination { IsDestination scenario.now destination }
    requires goes { length goes.old ≡ (setting_of scenario.now).links * (setting_of scenario.now).destinations }
    ensures keeps { KeepsMarks goes.old goes.new }
    ensures here { 0 < slice_index goes.new (link * (setting_of scenario.now).destinations + destination) }
{
    let _links = link_count(scenario);
    let number = link * destination_count(scenario) + destination;
    goes[number as usize] = 1;
}

/// Marks the out-links to which a split row gives a weight.
fn mark_row(scenario: &Scenario, goes: &mut [u8], key: SplitKey, weights: &[u32])
    requires node { IsNode scenario.now key.node.0 }
    requires destination { IsDestination scenario.now key.destination }
    requires goes { length goes.old ≡ (setting_of scenario.now).links * (setting_of scenario.now).destinations }
    requires weights { length weights.now ≡ (setting_of scenario.now).outs key.node.0 }
    ensures keeps { KeepsMarks goes.old goes.new }
    ensures marks { IsMarked (setting_of scenario.now) goes.new (key, weights.now) }
{
    for place in 0..weights.len() {
        if weights[place] != 0 {
            let link = out_link_at(scenario, key.node, place);
            mark(scenario, goes, link.0, key.destination);
        }
    }
}

/// Marks the out-links to which any split row gives a weight.
fn mark_all(scenario: &Scenario, goes: &mut [u8])
    requires { length goes.old ≡ (setting_of scenario.now).links * (setting_of scenario.now).destinations }
    ensures { AreAllMarked (setting_of scenario.now) goes.new scenario.now.splits }
{
    let _setup = scenario.setup();
    let mut rows = scenario.splits().rows();
    'rows: while let Some((key, weights)) = rows.next() {
        mark_row(scenario, goes, key, weights);
    }
}

/// A mark for each link and destination: whether some split row of the link's tail gives it a weight for the destination.
pub(crate) fn leads(alloc: Global, scenario: &Scenario) -> Result<Vec<u8>, NoMemory>
    ensures long { IfOk result (λ goes. length goes.items ≡ (setting_of scenario.now).links * (setting_of scenario.now).destinations) }
    ensures marks { IfOk result (λ goes. MarksLeads (setting_of scenario.now) goes.items) }
{
    let many = link_count(scenario) as usize * destination_count(scenario) as usize;
    let mut goes = vec![in alloc; 0u8; many].map_err(|_| NoMemory)?;
    mark_all(scenario, &mut goes);
    Ok(goes)
}
