//! The report of the totals of a whole loading by boundary, as one text.
ghost use Rattle.std.specs.Prelude.{◌≡◌, ◌++◌, ◌<◌, ◌≤◌, IfOk, OnOk, length};
ghost use Rattle.ltm_curve.specs.Counts.{Counts};
ghost use Rattle.ltm_setting.specs.Setting.{setting_of};
ghost use Rattle.ltm_flows.specs.Shown.{Shows, ShowsCounts};
ghost use Rattle.ltm_units.specs.Texts.{texts_below};
ghost use Rattle.ltm_report.specs.Sampled.{passed_of, departed_of, IsSampledReport};

use crate::delay_report::load;
use crate::sampled::{departed_text, passed_text};
use ltm_flows::Loading;
use ltm_scenario::Scenario;
use ltm_units::{LinkId, NoMemory, NodeId};
use std::alloc::Global;
use std::thread::Threads;

#[tactic(auto, unfolding(ltm_setting::specs::Setting::setting_of))]
fn push_link(
    alloc: Global,
    every: u32,
    scenario: &Scenario,
    loading: &Loading,
    link: LinkId,
    into: &mut Vec<u8>,
) -> Result<(), NoMemory>
    requires every { 1 ≤ every }
    requires link { link.0 < length scenario.now.network.links }
    requires shows { Shows (setting_of scenario.now) 0 loading.now }
    ensures { OnOk result ((c : Counts) → ShowsCounts (setting_of scenario.now) 0 c loading.now
        → into.new.items ≡ into.old.items ++ passed_of every scenario.now c link.0) }
{
    let name = scenario.network().link_name(link);
    passed_text(alloc, loading, every, &name, link, into)
}

fn push_links(
    alloc: Global,
    every: u32,
    scenario: &Scenario,
    loading: &Loading,
    into: &mut Vec<u8>,
) -> Result<(), NoMemory>
    requires every { 1 ≤ every }
    requires shows { Shows (setting_of scenario.now) 0 loading.now }
    ensures { OnOk result ((c : Counts) → ShowsCounts (setting_of scenario.now) 0 c loading.now
        → into.new.items ≡ into.old.items
        ++ texts_below (length scenario.now.network.links) (passed_of every scenario.now c)) }
{
    for link in 0..scenario.network().links() {
        push_link(alloc, every, scenario, loading, LinkId(link), into)?;
    }
    Ok(())
}

#[tactic(auto, unfolding(ltm_setting::specs::Setting::setting_of))]
fn push_node(
    alloc: Global,
    every: u32,
    scenario: &Scenario,
    loading: &Loading,
    node: NodeId,
    into: &mut Vec<u8>,
) -> Result<(), NoMemory>
    requires every { 1 ≤ every }
    requires node { node.0 < length scenario.now.network.nodes }
    requires shows { Shows (setting_of scenario.now) 0 loading.now }
    ensures { OnOk result ((c : Counts) → ShowsCounts (setting_of scenario.now) 0 c loading.now
        → into.new.items ≡ into.old.items ++ departed_of every scenario.now c node.0) }
{
    let name = scenario.network().node_name(node);
    departed_text(alloc, loading, every, &name, node, into)
}

fn push_nodes(
    alloc: Global,
    every: u32,
    scenario: &Scenario,
    loading: &Loading,
    into: &mut Vec<u8>,
) -> Result<(), NoMemory>
    requires every { 1 ≤ every }
    requires shows { Shows (setting_of scenario.now) 0 loading.now }
    ensures { OnOk result ((c : Counts) → ShowsCounts (setting_of scenario.now) 0 c loading.now
        → into.new.items ≡ into.old.items
        ++ texts_below (length scenario.now.network.nodes) (departed_of every scenario.now c)) }
{
    for node in 0..scenario.network().nodes() {
        push_node(alloc, every, scenario, loading, NodeId(node), into)?;
    }
    Ok(())
}

/// Loads a scenario, and gives what has entered and left each link, in order of number, and what has left each origin that produces
/// anything, by every boundary that lies a multiple of so many slots from the start, and by the last.
pub fn sampled_report_of<R: Threads + Sync>(
    rt: &R,
    alloc: Global,
    every: u32,
    scenario: &Scenario,
) -> Result<Vec<u8>, NoMemory>
    requires { 1 ≤ every }
    ensures { IfOk result (λ text. IsSampledReport every scenario.now text.items) }
{
    let _setup = scenario.setup();
    let loading = load(rt, alloc, scenario)?;
    let mut text = Vec::new(alloc);
    push_links(alloc, every, scenario, &loading, &mut text)?;
    push_nodes(alloc, every, scenario, &loading, &mut text)?;
    Ok(text)
}
