//! The lines of gaps.
ghost use Rattle.std.specs.Prelude.{◌≡◌, ◌++◌, ◌+◌, ◌∷◌, [], ◌/◌, ◌%◌, ℕ, OnOk, OnErr};
ghost use Rattle.ltm_curve.specs.Counts.{Counts};
ghost use Rattle.ltm_setting.specs.Setting.{setting_of};
ghost use Rattle.ltm_flows.specs.Shown.{ShowsCounts};
ghost use Rattle.ltm_gap.specs.Told.{Suits};
ghost use Rattle.ltm_report.specs.Gaps.{gap_piece, late_piece, gap_pieces, gap_line, gap_to_line};
ghost use Rattle.ltm_report.specs.GapReports.{gap_report};

use crate::delays::push_seconds;
use crate::pieces::{push_newline, push_version};
use ltm_flows::Loading;
use ltm_gap::{Gap, gaps_of};
use ltm_scenario::Scenario;
use ltm_times::time_spent;
use ltm_units::{Name, NoMemory, push_number, push_text};
use std::alloc::Global;

/// The point of an amount and the three digits behind it.
fn thousandths(amount: u128) -> [u8; 4]
    ensures { result ≡ 46 ∷ (48 + amount % 1000 / 100) ∷ (48 + amount % 100 / 10) ∷ (48 + amount % 10) ∷ [] }
{
    [
        b'.',
        48 + (amount % 1000 / 100) as u8,
        48 + (amount % 100 / 10) as u8,
        48 + (amount % 10) as u8,
    ]
}

#[tactic(auto, unfolding(crate::specs::Gaps::late_piece, ltm_units::specs::Texts::amount_piece, ltm_units::specs::Texts::vehicles_text, ltm_units::specs::Texts::number_piece))]
fn push_late(into: &mut Vec<u8>, late: u128) -> Result<(), NoMemory>
    ensures { OnOk result (into.new.items ≡ into.old.items ++ late_piece late) }
{
    push_number(into, b" late ", late / 1000)?;
    push_text(into, &thousandths(late))
}

#[tactic(auto, unfolding(crate::specs::Gaps::gap_piece))]
fn push_gap(into: &mut Vec<u8>, spent: u128, least: u128) -> Result<(), NoMemory>
    ensures { OnOk result (into.new.items ≡ into.old.items ++ gap_piece spent least) }
{
    if spent < least {
        push_seconds(into, b" gap -", least - spent)
    } else {
        push_seconds(into, b" gap ", spent - least)
    }
}

#[tactic(auto, unfolding(crate::specs::Gaps::gap_pieces))]
fn push_gap_pieces(into: &mut Vec<u8>, spent: u128, gap: Gap) -> Result<(), NoMemory>
    ensures { OnOk result (into.new.items ≡ into.old.items ++ gap_pieces spent gap.least gap.late) }
{
    push_seconds(into, b" spent ", spent)?;
    push_seconds(into, b" least ", gap.least)?;
    push_gap(into, spent, gap.least)?;
    push_late(into, gap.late)
}

/// Appends what all who travel spend and an estimate of the least, as `version 0 spent 64.900000 least 64.900000 gap
/// 0.000000 late 4.600`.
#[tactic(auto, unfolding(crate::specs::Gaps::gap_line))]
pub(crate) fn gap_line_text(
    alloc: Global,
    version: u64,
    spent: u128,
    gap: Gap,
    into: &mut Vec<u8>,
) -> Result<(), NoMemory>
    ensures ok { OnOk result (into.new.items
        ≡ into.old.items ++ gap_line version spent gap.least gap.late) }
    ensures err { OnErr result (into.new.items ≡ into.old.items) }
{
    let mut line = Vec::new(alloc);
    push_version(&mut line, version)?;
    push_gap_pieces(&mut line, spent, gap)?;
    push_newline(&mut line)?;
    push_text(into, line.as_slice())
}

/// Appends the same of those who travel to a destination, as `to n3 spent 64.900000 least 64.900000 gap 0.000000 late
/// 4.600`.
#[tactic(auto, unfolding(crate::specs::Gaps::gap_to_line))]
pub(crate) fn gap_to_text(
    alloc: Global,
    name: &Name,
    spent: u128,
    gap: Gap,
    into: &mut Vec<u8>,
) -> Result<(), NoMemory>
    ensures ok { OnOk result (into.new.items
        ≡ into.old.items ++ gap_to_line name.now spent gap.least gap.late) }
    ensures err { OnErr result (into.new.items ≡ into.old.items) }
{
    let mut line = Vec::new(alloc);
    push_text(&mut line, b"to ")?;
    push_text(&mut line, name.bytes())?;
    push_gap_pieces(&mut line, spent, gap)?;
    push_newline(&mut line)?;
    push_text(into, line.as_slice())
}

/// Appends what all who travel spend in the loading of a scenario, an estimate of the least that they could at the link times of this
/// loading.
pub fn gap_text(
    alloc: Global,
    scenario: &Scenario,
    loading: &Loading,
    into: &mut Vec<u8>,
) -> Result<(), NoMemory>
    requires { Suits (setting_of scenario.now) loading.now }
    ensures ok { OnOk result ((version : ℕ) (c : Counts)
        → ShowsCounts (setting_of scenario.now) version c loading.now
        → into.new.items ≡ into.old.items ++ gap_report version (setting_of scenario.now) c) }
    ensures err { OnErr result (into.new.items ≡ into.old.items) }
{
    let gaps = gaps_of(alloc, scenario, loading)?;
    gap_line_text(
        alloc,
        loading.version(),
        time_spent(loading),
        gaps.all(),
        into,
    )
}
