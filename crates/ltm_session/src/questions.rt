//! The answers to questions: what is asked of a loading, or why it is not told. A question that names a link or a node is
//! refused where nothing has the name, and then one that names a slot or a boundary where there is none such; and so are totals
//! by every 0 slots.
ghost use Rattle.std.specs.Prelude.{◌≡◌, ◌≢◌, ◌++◌, ℕ, List, length, Ok, OnOk, OnErr};
ghost use Rattle.ltm_flows.specs.Shown.{last_of, links_of, nodes_of};
ghost use Rattle.ltm_script.specs.declared.command.Question.TheVariants as question;
ghost use Rattle.ltm_session.specs.Analysts.{state_of};
ghost use Rattle.ltm_report.specs.GapReports.{gap_report};
ghost use Rattle.ltm_session.specs.Answers.{Replies, ReportsShown};
ghost use Rattle.ltm_session.specs.Questions.{asked, Appends};

use crate::reports::push_time;
use ltm_core::Core;
use ltm_flows::Loading;
use ltm_network::Network;
use ltm_report::{
    bad_slots_text, curve_text, delay_text, delays_text, departures_text, gap_text, link_text,
    origin_text, queue_text, samples_text, state_text, totals_text, unknown_name_text,
};
use ltm_script::{Command, Question};
use ltm_units::{Name, NoMemory};
use std::alloc::Global;

/// Appends what has passed all links and origins by boundaries that lie so many slots apart.
fn push_samples(
    alloc: Global,
    network: &Network,
    loading: &Loading,
    every: u32,
    into: &mut Vec<u8>,
) -> Result<(), NoMemory>
    ensures ok { OnOk result (Appends loading.now
        (asked network.now (last_of loading.now) (question.Samples every)) into.old.items
        into.new.items) }
    ensures err { OnErr result (into.new.items ≡ into.old.items) }
{
    if every > 0 {
        samples_text(alloc, loading, every, into)
    } else {
        bad_slots_text(b"totals", into)
    }
}

/// Appends what has entered and left the link of a name.
fn push_link(
    alloc: Global,
    network: &Network,
    loading: &Loading,
    name: &Name,
    into: &mut Vec<u8>,
) -> Result<(), NoMemory>
    requires { links_of loading.now ≡ length network.now.links }
    ensures ok { OnOk result (Appends loading.now
        (asked network.now (last_of loading.now) (question.Link name.now)) into.old.items
        into.new.items) }
    ensures err { OnErr result (into.new.items ≡ into.old.items) }
{
    match network.find_link(name) {
        Some(link) => link_text(alloc, loading, name, link, into),
        None => unknown_name_text(b"link", into),
    }
}

/// Appends how long it takes to pass the link of a name from a slot on.
fn push_travel(
    alloc: Global,
    network: &Network,
    loading: &Loading,
    name: &Name,
    slot: u32,
    into: &mut Vec<u8>,
) -> Result<(), NoMemory>
    requires { links_of loading.now ≡ length network.now.links }
    ensures ok { OnOk result (Appends loading.now
        (asked network.now (last_of loading.now) (question.Time name.now slot)) into.old.items
        into.new.items) }
    ensures err { OnErr result (into.new.items ≡ into.old.items) }
{
    match network.find_link(name) {
        Some(link) => {
            if slot < loading.slots() {
                push_time(alloc, loading, name, link, slot, into)
            } else {
                bad_slots_text(b"time", into)
            }
        }
        None => unknown_name_text(b"time", into),
    }
}

/// Appends the queue of the link of a name at a boundary.
fn push_queue(
    alloc: Global,
    network: &Network,
    loading: &Loading,
    name: &Name,
    boundary: u32,
    into: &mut Vec<u8>,
) -> Result<(), NoMemory>
    requires { links_of loading.now ≡ length network.now.links }
    ensures ok { OnOk result (Appends loading.now
        (asked network.now (last_of loading.now) (question.Queue name.now boundary))
        into.old.items into.new.items) }
    ensures err { OnErr result (into.new.items ≡ into.old.items) }
{
    match network.find_link(name) {
        Some(link) => {
            if boundary <= loading.slots() {
                queue_text(alloc, loading, name, link, boundary, into)
            } else {
                bad_slots_text(b"queue", into)
            }
        }
        None => unknown_name_text(b"queue", into),
    }
}

/// Appends the origin of the node of a name at a boundary.
fn push_origin(
    alloc: Global,
    network: &Network,
    loading: &Loading,
    name: &Name,
    boundary: u32,
    into: &mut Vec<u8>,
) -> Result<(), NoMemory>
    requires { nodes_of loading.now ≡ length network.now.nodes }
    ensures ok { OnOk result (Appends loading.now
        (asked network.now (last_of loading.now) (question.Origin name.now boundary))
        into.old.items into.new.items) }
    ensures err { OnErr result (into.new.items ≡ into.old.items) }
{
    match network.find_node(name) {
        Some(node) => {
            if boundary <= loading.slots() {
                origin_text(alloc, loading, name, node, boundary, into)
            } else {
                bad_slots_text(b"origin", into)
            }
        }
        None => unknown_name_text(b"origin", into),
    }
}

/// Appends how all links and origins stand at a boundary.
fn push_state(
    alloc: Global,
    network: &Network,
    loading: &Loading,
    boundary: u32,
    into: &mut Vec<u8>,
) -> Result<(), NoMemory>
    ensures ok { OnOk result (Appends loading.now
        (asked network.now (last_of loading.now) (question.State boundary)) into.old.items
        into.new.items) }
    ensures err { OnErr result (into.new.items ≡ into.old.items) }
{
    if boundary <= loading.slots() {
        state_text(alloc, loading, boundary, into)
    } else {
        bad_slots_text(b"state", into)
    }
}

/// Appends what has entered and left the link of a name by each boundary.
fn push_curve(
    alloc: Global,
    network: &Network,
    loading: &Loading,
    name: &Name,
    into: &mut Vec<u8>,
) -> Result<(), NoMemory>
    requires { links_of loading.now ≡ length network.now.links }
    ensures ok { OnOk result (Appends loading.now
        (asked network.now (last_of loading.now) (question.Curve name.now)) into.old.items
        into.new.items) }
    ensures err { OnErr result (into.new.items ≡ into.old.items) }
{
    match network.find_link(name) {
        Some(link) => curve_text(alloc, loading, name, link, into),
        None => unknown_name_text(b"curve", into),
    }
}

/// Appends what the origin of the node of a name has produced and what has left it by each boundary.
fn push_departures(
    alloc: Global,
    network: &Network,
    loading: &Loading,
    name: &Name,
    into: &mut Vec<u8>,
) -> Result<(), NoMemory>
    requires { nodes_of loading.now ≡ length network.now.nodes }
    ensures ok { OnOk result (Appends loading.now
        (asked network.now (last_of loading.now) (question.Departures name.now)) into.old.items
        into.new.items) }
    ensures err { OnErr result (into.new.items ≡ into.old.items) }
{
    match network.find_node(name) {
        Some(node) => departures_text(alloc, loading, name, node, into),
        None => unknown_name_text(b"departures", into),
    }
}

/// Appends what a question asks of a loading of a network, or why it is refused. What a gap asks is more than a loading.
fn push_asked(
    alloc: Global,
    network: &Network,
    loading: &Loading,
    asks: &Question,
    into: &mut Vec<u8>,
) -> Result<(), NoMemory>
    requires links { links_of loading.now ≡ length network.now.links }
    requires nodes { nodes_of loading.now ≡ length network.now.nodes }
    requires other { asks.now ≢ question.Gap }
    ensures ok { OnOk result (Appends loading.now
        (asked network.now (last_of loading.now) asks.now) into.old.items into.new.items) }
    ensures err { OnErr result (into.new.items ≡ into.old.items) }
{
    match asks {
        Question::Totals => totals_text(alloc, loading, into),
        Question::Samples { every } => push_samples(alloc, network, loading, *every, into),
        Question::Link(name) => push_link(alloc, network, loading, name, into),
        Question::Time { link, slot } => push_travel(alloc, network, loading, link, *slot, into),
        Question::Delay => delay_text(alloc, loading, into),
        Question::Queue { link, slot } => push_queue(alloc, network, loading, link, *slot, into),
        Question::Origin { node, slot } => push_origin(alloc, network, loading, node, *slot, into),
        Question::State { slot } => push_state(alloc, network, loading, *slot, into),
        Question::Curve { link } => push_curve(alloc, network, loading, link, into),
        Question::Departures { node } => push_departures(alloc, network, loading, node, into),
        Question::Delays => delays_text(alloc, loading, into),
        Question::Gap => unreachable!(),
    }
}

/// Appends the gap of the loading that a core shows, at the limits and the demand that it was loaded with.
fn push_gap(alloc: Global, core: &Core, into: &mut Vec<u8>) -> Result<(), NoMemory>
    ensures ok { OnOk result ((text : List ℕ) × ReportsShown (state_of core.now) gap_report text
        × (into.new.items ≡ into.old.items ++ text)) }
    ensures err { OnErr result (into.new.items ≡ into.old.items) }
{
    let scenario = core.shown_scenario()?;
    gap_text(alloc, &scenario, core.shown(), into)
}

/// Appends what a question that asks for no gap asks of what a core shows, or why it is refused.
fn push_told(
    alloc: Global,
    core: &Core,
    asks: &Question,
    into: &mut Vec<u8>,
) -> Result<(), NoMemory>
    requires { asks.now ≢ question.Gap }
    ensures ok { OnOk result ((text : List ℕ)
        × Replies (state_of core.now) (Ok (Command.Ask asks.now)) text (state_of core.now)
        × (into.new.items ≡ into.old.items ++ text)) }
    ensures err { OnErr result (into.new.items ≡ into.old.items) }
{
    push_asked(alloc, core.scenario().network(), core.shown(), asks, into)
}

/// Appends what a question asks of what a core shows, or why it is refused.
pub(crate) fn reply_question(
    alloc: Global,
    core: &Core,
    asks: &Question,
    into: &mut Vec<u8>,
) -> Result<(), NoMemory>
    ensures ok { OnOk result ((text : List ℕ)
        × Replies (state_of core.now) (Ok (Command.Ask asks.now)) text (state_of core.now)
        × (into.new.items ≡ into.old.items ++ text)) }
    ensures err { OnErr result (into.new.items ≡ into.old.items) }
{
    match asks {
        Question::Gap => push_gap(alloc, core, into),
        _ => push_told(alloc, core, asks, into),
    }
}
