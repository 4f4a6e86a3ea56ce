//! The line of the delays of all links and of all origins.
ghost use Rattle.std.specs.Prelude.{◌≡◌, ◌++◌, ◌<◌, ℕ, IfOk, OnOk, OnErr};
ghost use Rattle.ltm_units.specs.Texts.{texts_below};
ghost use Rattle.ltm_curve.specs.Counts.{Counts};
ghost use Rattle.ltm_loading.specs.Setting.{Setting};
ghost use Rattle.ltm_flows.specs.Shown.{ShowsCounts, links_of, nodes_of};
ghost use Rattle.ltm_times.specs.Delays.{queued};
ghost use Rattle.ltm_report.specs.Rows.{peak_numbers, link_numbers};
ghost use Rattle.ltm_report.specs.RowReports.{link_delays, node_delays, delays_report};

use crate::delays::{push_seconds, push_spent, push_waited};
use crate::pieces::{push_newline, push_version};
use ltm_flows::Loading;
use ltm_times::{LinkDelay, Peak, link_delays, origin_delay, time_spent, waited};
use ltm_units::{NoMemory, NodeId, push_number, push_text, push_vehicles};
use std::alloc::Global;

#[tactic(auto, unfolding(crate::specs::Rows::peak_numbers))]
fn push_peak(into: &mut Vec<u8>, peak: Peak) -> Result<(), NoMemory>
    ensures { OnOk result (into.new.items ≡ into.old.items ++ peak_numbers peak.most.0 peak.at) }
{
    push_vehicles(into, b" ", peak.most)?;
    push_number(into, b" ", u128::from(peak.at))
}

#[tactic(auto, unfolding(crate::specs::Rows::link_numbers))]
fn push_link(into: &mut Vec<u8>, delay: LinkDelay) -> Result<(), NoMemory>
    ensures { OnOk result (into.new.items
        ≡ into.old.items ++ link_numbers delay.spent delay.queued delay.peak.most.0 delay.peak.at) }
{
    push_seconds(into, b" ", delay.spent)?;
    push_seconds(into, b" ", delay.queued)?;
    push_peak(into, delay.peak)
}

/// Appends the numbers of each link, and gives what is queued on all of them.
fn push_links(alloc: Global, loading: &Loading, into: &mut Vec<u8>) -> Result<u128, NoMemory>
    ensures text { OnOk result ((s : Setting) (version : ℕ) (c : Counts)
        → ShowsCounts s version c loading.now
        → into.new.items ≡ into.old.items ++ texts_below (links_of loading.now) (link_delays s c)) }
    ensures queued { IfOk result (λ all. (s : Setting) (version : ℕ) (c : Counts)
        → ShowsCounts s version c loading.now → all ≡ queued s c) }
{
    let delays = link_delays(alloc, loading)?;
    let mut queued = 0u128;
    for link in 0..loading.links() {
        let delay = delays[link as usize];
        push_link(into, delay)?;
        queued += delay.queued;
    }
    Ok(queued)
}

fn push_node(loading: &Loading, node: NodeId, into: &mut Vec<u8>) -> Result<(), NoMemory>
    requires { node.0 < nodes_of loading.now }
    ensures { OnOk result ((s : Setting) (version : ℕ) (c : Counts)
        → ShowsCounts s version c loading.now
        → into.new.items ≡ into.old.items ++ node_delays s c node.0) }
{
    let delay = origin_delay(loading, node);
    push_seconds(into, b" ", delay.waited)?;
    push_peak(into, delay.peak)
}

fn push_nodes(loading: &Loading, into: &mut Vec<u8>) -> Result<(), NoMemory>
    ensures { OnOk result ((s : Setting) (version : ℕ) (c : Counts)
        → ShowsCounts s version c loading.now
        → into.new.items ≡ into.old.items ++ texts_below (nodes_of loading.now) (node_delays s c)) }
{
    for node in 0..loading.nodes() {
        push_node(loading, NodeId(node), into)?;
    }
    Ok(())
}

/// Appends the line. The links are gone through once, for their numbers and for what is queued in all, which stands before
/// them.
fn push_delays(alloc: Global, loading: &Loading, into: &mut Vec<u8>) -> Result<(), NoMemory>
    ensures { OnOk result ((s : Setting) (version : ℕ) (c : Counts)
        → ShowsCounts s version c loading.now
        → into.new.items ≡ into.old.items ++ delays_report version s c) }
{
    let mut links = Vec::new(alloc);
    let queued = push_links(alloc, loading, &mut links)?;
    push_version(into, loading.version())?;
    push_spent(into, time_spent(loading), queued)?;
    push_waited(into, waited(loading))?;
    push_text(into, b" links")?;
    push_text(into, links.as_slice())?;
    push_text(into, b" nodes")?;
    push_nodes(loading, into)?;
    push_newline(into)
}

/// Appends the time that all spend, stand in queues and wait at their origins, and that of each link with its longest queue
/// and of each origin with the most that wait there, as `version 0 spent 64.900000 queued 20.700000 waited 29.000000 links
/// 30.500000 20.700000 1.800 8 5.400000 0.000000 0.000 0 nodes 29.000000 3.200 10` and so on.
pub fn delays_text(alloc: Global, loading: &Loading, into: &mut Vec<u8>) -> Result<(), NoMemory>
    ensures ok { OnOk result ((s : Setting) (version : ℕ) (c : Counts)
        → ShowsCounts s version c loading.now
        → into.new.items ≡ into.old.items ++ delays_report version s c) }
    ensures err { OnErr result (into.new.items ≡ into.old.items) }
{
    let mut line = Vec::new(alloc);
    push_delays(alloc, loading, &mut line)?;
    push_text(into, line.as_slice())
}
