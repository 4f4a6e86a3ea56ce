//! The lines of origins: who waits at them, and for how long.
ghost use Rattle.std.specs.Prelude.{◌≡◌, ◌++◌, ◌<◌, ◌≤◌, ℕ, OnOk, OnErr};
ghost use Rattle.ltm_curve.specs.Counts.{Counts};
ghost use Rattle.ltm_loading.specs.Setting.{Setting};
ghost use Rattle.ltm_flows.specs.Shown.{ShowsCounts, last_of, nodes_of};
ghost use Rattle.ltm_report.specs.Delays.{node_piece, node_delay_line, origin_piece, origin_line};
ghost use Rattle.ltm_report.specs.DelayReports.{node_delay_report, origin_report};

use crate::delays::{push_peak, push_waited};
use crate::pieces::{push_newline, push_version};
use crate::times::push_slot;
use ltm_flows::Loading;
use ltm_times::{OriginDelay, OriginState, origin_delay, origin_state};
use ltm_units::{Name, NoMemory, NodeId, push_text, push_vehicles};
use std::alloc::Global;

#[tactic(auto, unfolding(crate::specs::Delays::node_piece))]
pub(crate) fn push_node(into: &mut Vec<u8>, name: &Name) -> Result<(), NoMemory>
    ensures { OnOk result (into.new.items ≡ into.old.items ++ node_piece name.now) }
{
    push_text(into, b"node ")?;
    push_text(into, name.bytes())
}

#[tactic(auto, unfolding(crate::specs::Delays::node_delay_line))]
fn node_delay_line_text(
    alloc: Global,
    name: &Name,
    delay: OriginDelay,
    into: &mut Vec<u8>,
) -> Result<(), NoMemory>
    ensures ok { OnOk result (into.new.items
        ≡ into.old.items ++ node_delay_line name.now delay.waited delay.peak.most.0 delay.peak.at) }
    ensures err { OnErr result (into.new.items ≡ into.old.items) }
{
    let mut line = Vec::new(alloc);
    push_node(&mut line, name)?;
    push_waited(&mut line, delay.waited)?;
    push_peak(&mut line, delay.peak)?;
    push_newline(&mut line)?;
    push_text(into, line.as_slice())
}

/// Appends what is waited at the origin of a node of a loading, and how many wait at most with the first boundary that has
/// it, as `node n1 waited 29.000000 most 3.200 at 10`; nothing where the origin produces nothing.
pub fn node_delay_text(
    alloc: Global,
    loading: &Loading,
    name: &Name,
    node: NodeId,
    into: &mut Vec<u8>,
) -> Result<(), NoMemory>
    requires { node.0 < nodes_of loading.now }
    ensures ok { OnOk result ((s : Setting) (version : ℕ) (c : Counts)
        → ShowsCounts s version c loading.now
        → into.new.items ≡ into.old.items ++ node_delay_report name.now node.0 s c) }
    ensures err { OnErr result (into.new.items ≡ into.old.items) }
{
    if loading.produced(node, loading.slots()).0 == 0 {
        return Ok(());
    }
    node_delay_line_text(alloc, name, origin_delay(loading, node), into)
}

#[tactic(auto, unfolding(crate::specs::Delays::origin_piece))]
fn push_origin(into: &mut Vec<u8>, state: OriginState) -> Result<(), NoMemory>
    ensures { OnOk result (into.new.items
        ≡ into.old.items ++ origin_piece state.produced.0 state.left.0 state.waiting.0) }
{
    push_vehicles(into, b" produced ", state.produced)?;
    push_vehicles(into, b" left ", state.left)?;
    push_vehicles(into, b" waiting ", state.waiting)
}

#[tactic(auto, unfolding(crate::specs::Delays::origin_line))]
fn origin_line_text(
    alloc: Global,
    version: u64,
    name: &Name,
    boundary: u32,
    state: OriginState,
    into: &mut Vec<u8>,
) -> Result<(), NoMemory>
    ensures ok { OnOk result (into.new.items
        ≡ into.old.items ++ origin_line version name.now boundary state.produced.0 state.left.0 state.waiting.0) }
    ensures err { OnErr result (into.new.items ≡ into.old.items) }
{
    let mut line = Vec::new(alloc);
    push_version(&mut line, version)?;
    push_text(&mut line, b" ")?;
    push_node(&mut line, name)?;
    push_slot(&mut line, boundary)?;
    push_origin(&mut line, state)?;
    push_newline(&mut line)?;
    push_text(into, line.as_slice())
}

/// Appends what the origin of a node has produced and what has left it by a boundary, and how many wait there then, under the
/// version of the loading, as `version 3 node n1 slot 8 produced 5.600 left 3.400 waiting 2.200`; `slot` tells the boundary.
pub fn origin_text(
    alloc: Global,
    loading: &Loading,
    name: &Name,
    node: NodeId,
    boundary: u32,
    into: &mut Vec<u8>,
) -> Result<(), NoMemory>
    requires node { node.0 < nodes_of loading.now }
    requires boundary { boundary ≤ last_of loading.now }
    ensures ok { OnOk result ((s : Setting) (version : ℕ) (c : Counts)
        → ShowsCounts s version c loading.now
        → into.new.items ≡ into.old.items ++ origin_report version name.now node.0 boundary s c) }
    ensures err { OnErr result (into.new.items ≡ into.old.items) }
{
    let state = origin_state(loading, node, boundary);
    origin_line_text(alloc, loading.version(), name, boundary, state, into)
}
