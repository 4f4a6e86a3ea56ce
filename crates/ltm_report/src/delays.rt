//! The lines of queues and delays.
ghost use Rattle.std.specs.Prelude.{◌≡◌, ◌++◌, ◌+◌, ◌∷◌, [], ◌/◌, ◌%◌, ◌<◌, ◌≤◌, ℕ, OnOk, OnErr};
ghost use Rattle.ltm_curve.specs.Counts.{Counts};
ghost use Rattle.ltm_loading.specs.Setting.{Setting};
ghost use Rattle.ltm_flows.specs.Shown.{ShowsCounts, last_of, links_of};
ghost use Rattle.ltm_times.specs.Delays.{IsLinkDelay};
ghost use Rattle.ltm_report.specs.Delays.{seconds_piece, spent_piece, waited_piece, peak_piece, queue_piece, delay_line, link_delay_line, queue_line};
ghost use Rattle.ltm_report.specs.DelayReports.{delay_report, link_delay_report, queue_report};

use crate::links::{push_name, push_through};
use crate::pieces::{push_newline, push_version};
use crate::times::push_slot;
use ltm_flows::Loading;
use ltm_times::{DelayTotals, LinkDelay, LinkState, Peak, delay_totals, link_state};
use ltm_units::{LinkId, Name, NoMemory, Units, push_number, push_text, push_vehicles};
use std::alloc::Global;

/// The point of a time and the six digits behind it.
fn decimals(time: u128) -> [u8; 7]
    ensures { result ≡ 46 ∷ (48 + time % 1000000 / 100000) ∷ (48 + time % 100000 / 10000) ∷ (48
        + time % 10000 / 1000)
        ∷ (48 + time % 1000 / 100) ∷ (48 + time % 100 / 10) ∷ (48 + time % 10) ∷ [] }
{
    [
        b'.',
        48 + (time % 1000000 / 100000) as u8,
        48 + (time % 100000 / 10000) as u8,
        48 + (time % 10000 / 1000) as u8,
        48 + (time % 1000 / 100) as u8,
        48 + (time % 100 / 10) as u8,
        48 + (time % 10) as u8,
    ]
}

/// Appends words and a time in vehicle seconds.
#[tactic(auto, unfolding(crate::specs::Delays::seconds_piece, crate::specs::Delays::seconds_text, ltm_units::specs::Texts::number_piece))]
pub(crate) fn push_seconds(into: &mut Vec<u8>, words: &[u8], time: u128) -> Result<(), NoMemory>
    ensures { OnOk result (into.new.items ≡ into.old.items ++ seconds_piece words.now time) }
{
    push_number(into, words, time / 1000000)?;
    push_text(into, &decimals(time))
}

#[tactic(auto, unfolding(crate::specs::Delays::spent_piece))]
pub(crate) fn push_spent(into: &mut Vec<u8>, spent: u128, queued: u128) -> Result<(), NoMemory>
    ensures { OnOk result (into.new.items ≡ into.old.items ++ spent_piece spent queued) }
{
    push_seconds(into, b" spent ", spent)?;
    push_seconds(into, b" queued ", queued)
}

#[tactic(auto, unfolding(crate::specs::Delays::waited_piece))]
pub(crate) fn push_waited(into: &mut Vec<u8>, waited: u128) -> Result<(), NoMemory>
    ensures { OnOk result (into.new.items ≡ into.old.items ++ waited_piece waited) }
{
    push_seconds(into, b" waited ", waited)
}

#[tactic(auto, unfolding(crate::specs::Delays::peak_piece))]
pub(crate) fn push_peak(into: &mut Vec<u8>, peak: Peak) -> Result<(), NoMemory>
    ensures { OnOk result (into.new.items ≡ into.old.items ++ peak_piece peak.most.0 peak.at) }
{
    push_vehicles(into, b" most ", peak.most)?;
    push_number(into, b" at ", u128::from(peak.at))
}

#[tactic(auto, unfolding(crate::specs::Delays::queue_piece))]
fn push_queue(into: &mut Vec<u8>, queue: Units) -> Result<(), NoMemory>
    ensures { OnOk result (into.new.items ≡ into.old.items ++ queue_piece queue.0) }
{
    push_vehicles(into, b" queue ", queue)
}

#[tactic(auto, unfolding(crate::specs::Delays::delay_line))]
fn delay_line_text(
    alloc: Global,
    version: u64,
    delay: DelayTotals,
    into: &mut Vec<u8>,
) -> Result<(), NoMemory>
    ensures ok { OnOk result (into.new.items
        ≡ into.old.items ++ delay_line version delay.spent delay.queued delay.waited) }
    ensures err { OnErr result (into.new.items ≡ into.old.items) }
{
    let mut line = Vec::new(alloc);
    push_version(&mut line, version)?;
    push_spent(&mut line, delay.spent, delay.queued)?;
    push_waited(&mut line, delay.waited)?;
    push_newline(&mut line)?;
    push_text(into, line.as_slice())
}

/// Appends the time that all spend, stand in queues and wait at their origins, in vehicle seconds with six decimals, under
/// the version of the loading, as `version 0 spent 64.900000 queued 20.700000 waited 29.000000`.
pub fn delay_text(alloc: Global, loading: &Loading, into: &mut Vec<u8>) -> Result<(), NoMemory>
    ensures ok { OnOk result ((s : Setting) (version : ℕ) (c : Counts)
        → ShowsCounts s version c loading.now
        → into.new.items ≡ into.old.items ++ delay_report version s c) }
    ensures err { OnErr result (into.new.items ≡ into.old.items) }
{
    let delay = delay_totals(loading);
    delay_line_text(alloc, loading.version(), delay, into)
}

#[tactic(auto, unfolding(crate::specs::Delays::link_delay_line))]
fn link_delay_line_text(
    alloc: Global,
    name: &Name,
    delay: LinkDelay,
    into: &mut Vec<u8>,
) -> Result<(), NoMemory>
    ensures ok { OnOk result (into.new.items
        ≡ into.old.items ++ link_delay_line name.now delay.spent delay.queued delay.peak.most.0 delay.peak.at) }
    ensures err { OnErr result (into.new.items ≡ into.old.items) }
{
    let mut line = Vec::new(alloc);
    push_name(&mut line, name)?;
    push_spent(&mut line, delay.spent, delay.queued)?;
    push_peak(&mut line, delay.peak)?;
    push_newline(&mut line)?;
    push_text(into, line.as_slice())
}

/// Appends what is spent on a link and stood in its queue, and the longest queue with the first boundary that has it, as
/// `link a spent 30.500000 queued 20.700000 most 1.800 at 8`.
pub fn link_delay_text(
    alloc: Global,
    name: &Name,
    delay: LinkDelay,
    into: &mut Vec<u8>,
) -> Result<(), NoMemory>
    ensures ok { OnOk result ((s : Setting) (c : Counts) (link : ℕ) → IsLinkDelay s c link delay
        → into.new.items ≡ into.old.items ++ link_delay_report name.now link s c) }
    ensures err { OnErr result (into.new.items ≡ into.old.items) }
{
    link_delay_line_text(alloc, name, delay, into)
}

#[tactic(auto, unfolding(crate::specs::Delays::queue_line))]
fn queue_line_text(
    alloc: Global,
    version: u64,
    name: &Name,
    boundary: u32,
    state: LinkState,
    into: &mut Vec<u8>,
) -> Result<(), NoMemory>
    ensures ok { OnOk result (into.new.items
        ≡ into.old.items ++ queue_line version name.now boundary state.entered.0 state.left.0 state.queue.0) }
    ensures err { OnErr result (into.new.items ≡ into.old.items) }
{
    let mut line = Vec::new(alloc);
    push_version(&mut line, version)?;
    push_text(&mut line, b" ")?;
    push_name(&mut line, name)?;
    push_slot(&mut line, boundary)?;
    push_through(&mut line, state.entered, state.left)?;
    push_queue(&mut line, state.queue)?;
    push_newline(&mut line)?;
    push_text(into, line.as_slice())
}

/// Appends what has entered and left a link by a boundary and how many stand in its queue then, under the version of the
/// loading, as `version 3 link a slot 8 in 3.400 out 1.200 queue 1.800`; `slot` tells the boundary.
pub fn queue_text(
    alloc: Global,
    loading: &Loading,
    name: &Name,
    link: LinkId,
    boundary: u32,
    into: &mut Vec<u8>,
) -> Result<(), NoMemory>
    requires link { link.0 < links_of loading.now }
    requires boundary { boundary ≤ last_of loading.now }
    ensures ok { OnOk result ((s : Setting) (version : ℕ) (c : Counts)
        → ShowsCounts s version c loading.now
        → into.new.items ≡ into.old.items ++ queue_report version name.now link.0 boundary s c) }
    ensures err { OnErr result (into.new.items ≡ into.old.items) }
{
    let state = link_state(loading, link, boundary);
    queue_line_text(alloc, loading.version(), name, boundary, state, into)
}
