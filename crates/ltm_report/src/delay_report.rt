//! The report of the delays of a whole loading, as one text.
ghost use Rattle.std.specs.Prelude.{◌≡◌, ◌++◌, ◌<◌, IfOk, OnOk, length};
ghost use Rattle.ltm_curve.specs.Counts.{Counts};
ghost use Rattle.ltm_setting.specs.Setting.{setting_of};
ghost use Rattle.ltm_flows.specs.Shown.{Shows, ShowsCounts};
ghost use Rattle.ltm_times.specs.Delays.{IsLinkDelay};
ghost use Rattle.ltm_units.specs.Texts.{texts_below};
ghost use Rattle.ltm_report.specs.DelayReports.{link_delay_of, node_delay_of, IsDelayReport};

use crate::delays::{delay_text, link_delay_text};
use crate::origins::node_delay_text;
use ltm_flows::{Loading, cold};
use ltm_lean_load::is_better_lean;
use ltm_lean_threads::load_on_processors;
use ltm_scenario::Scenario;
use ltm_times::{LinkDelay, link_delays};
use ltm_units::{LinkId, NoMemory, NodeId};
use std::alloc::Global;
use std::thread::Threads;

/// The loading of a scenario, under version 0. With many destinations it is made of what stands on the links.
pub(crate) fn load<R: Threads + Sync>(
    rt: &R,
    alloc: Global,
    scenario: &Scenario,
) -> Result<Loading, NoMemory>
    ensures { IfOk result (Shows (setting_of scenario.now) 0) }
{
    if is_better_lean(scenario) {
        return load_on_processors(rt, alloc, scenario, 0);
    }
    let curves = cold(alloc, scenario)?;
    Loading::create(alloc, scenario, &curves, 0)
}

#[tactic(auto, unfolding(ltm_setting::specs::Setting::setting_of))]
fn push_link(
    alloc: Global,
    scenario: &Scenario,
    link: LinkId,
    delay: LinkDelay,
    into: &mut Vec<u8>,
) -> Result<(), NoMemory>
    requires { link.0 < length scenario.now.network.links }
    ensures { OnOk result ((c : Counts) → IsLinkDelay (setting_of scenario.now) c link.0 delay
        → into.new.items ≡ into.old.items ++ link_delay_of scenario.now c link.0) }
{
    let name = scenario.network().link_name(link);
    link_delay_text(alloc, &name, delay, into)
}

fn push_links(
    alloc: Global,
    scenario: &Scenario,
    loading: &Loading,
    into: &mut Vec<u8>,
) -> Result<(), NoMemory>
    requires { Shows (setting_of scenario.now) 0 loading.now }
    ensures { OnOk result ((c : Counts) → ShowsCounts (setting_of scenario.now) 0 c loading.now
        → into.new.items ≡ into.old.items
        ++ texts_below (length scenario.now.network.links) (link_delay_of scenario.now c)) }
{
    let delays = link_delays(alloc, loading)?;
    for link in 0..scenario.network().links() {
        push_link(alloc, scenario, LinkId(link), delays[link as usize], into)?;
    }
    Ok(())
}

#[tactic(auto, unfolding(ltm_setting::specs::Setting::setting_of))]
fn push_node(
    alloc: Global,
    scenario: &Scenario,
    loading: &Loading,
    node: NodeId,
    into: &mut Vec<u8>,
) -> Result<(), NoMemory>
    requires node { node.0 < length scenario.now.network.nodes }
    requires shows { Shows (setting_of scenario.now) 0 loading.now }
    ensures { OnOk result ((c : Counts) → ShowsCounts (setting_of scenario.now) 0 c loading.now
        → into.new.items ≡ into.old.items ++ node_delay_of scenario.now c node.0) }
{
    let name = scenario.network().node_name(node);
    node_delay_text(alloc, loading, &name, node, into)
}

fn push_nodes(
    alloc: Global,
    scenario: &Scenario,
    loading: &Loading,
    into: &mut Vec<u8>,
) -> Result<(), NoMemory>
    requires { Shows (setting_of scenario.now) 0 loading.now }
    ensures { OnOk result ((c : Counts) → ShowsCounts (setting_of scenario.now) 0 c loading.now
        → into.new.items ≡ into.old.items
        ++ texts_below (length scenario.now.network.nodes) (node_delay_of scenario.now c)) }
{
    for node in 0..scenario.network().nodes() {
        push_node(alloc, scenario, loading, NodeId(node), into)?;
    }
    Ok(())
}

/// Loads a scenario, and gives what all spend, queue and wait, the line of each link in order of number, and that of each
/// node whose origin produces anything.
pub fn delay_report_of<R: Threads + Sync>(
    rt: &R,
    alloc: Global,
    scenario: &Scenario,
) -> Result<Vec<u8>, NoMemory>
    ensures { IfOk result (λ text. IsDelayReport scenario.now text.items) }
{
    let _setup = scenario.setup();
    let loading = load(rt, alloc, scenario)?;
    let mut text = Vec::new(alloc);
    delay_text(alloc, &loading, &mut text)?;
    push_links(alloc, scenario, &loading, &mut text)?;
    push_nodes(alloc, scenario, &loading, &mut text)?;
    Ok(text)
}
