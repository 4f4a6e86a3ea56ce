//! The report of a whole loading, as one text.
ghost use Rattle.std.specs.Prelude.{◌≡◌, ◌++◌, ◌<◌, IfOk, OnOk, length};
ghost use Rattle.ltm_curve.specs.Table.{counts_of};
ghost use Rattle.ltm_setting.specs.Setting.{setting_of};
ghost use Rattle.ltm_units.specs.Texts.{texts_below};
ghost use Rattle.ltm_report.specs.Reports.{totals_report, link_report_of, IsReport};
ghost use Rattle.ltm_setting.specs.Places.{IsShapedFor};

use crate::links::load_link_line_text;
use crate::loaded::report_of_loading;
use crate::totals::totals_line_text;
use ltm_curve::Curves;
use ltm_flows::{cold, totals_at_end};
use ltm_lean_load::is_better_lean;
use ltm_lean_threads::load_on_processors;
use ltm_loading::{down_of, up_of};
use ltm_scenario::Scenario;
use ltm_setting::link_count;
use ltm_units::{LinkId, NoMemory, Units};
use std::alloc::Global;
use std::thread::Threads;

fn push_totals(
    alloc: Global,
    scenario: &Scenario,
    curves: &Curves,
    into: &mut Vec<u8>,
) -> Result<(), NoMemory>
    requires { IsShapedFor scenario.now curves.now }
    ensures { OnOk result (into.new.items
        ≡ into.old.items ++ totals_report 0 (setting_of scenario.now) (counts_of curves.now)) }
{
    totals_line_text(alloc, 0, totals_at_end(scenario, curves), into)
}

#[tactic(auto, unfolding(ltm_setting::specs::Setting::setting_of))]
fn push_link(
    alloc: Global,
    scenario: &Scenario,
    curves: &Curves,
    link: LinkId,
    into: &mut Vec<u8>,
) -> Result<(), NoMemory>
    requires link { link.0 < length scenario.now.network.links }
    requires shape { IsShapedFor scenario.now curves.now }
    ensures { OnOk result (into.new.items
        ≡ into.old.items ++ link_report_of scenario.now (counts_of curves.now) link.0) }
{
    let _links = link_count(scenario);
    let name = scenario.network().link_name(link);
    let last = curves.slots();
    let entered = curves.total(up_of(link), last);
    let left = curves.total(down_of(link), last);
    load_link_line_text(alloc, &name, Units(entered), Units(left), into)
}

fn push_links(
    alloc: Global,
    scenario: &Scenario,
    curves: &Curves,
    into: &mut Vec<u8>,
) -> Result<(), NoMemory>
    requires { IsShapedFor scenario.now curves.now }
    ensures { OnOk result (into.new.items
        ≡ into.old.items ++ texts_below (length scenario.now.network.links)
        (link_report_of scenario.now (counts_of curves.now))) }
{
    let links = scenario.network().links();
    for link in 0..links {
        push_link(alloc, scenario, curves, LinkId(link), into)?;
    }
    Ok(())
}

/// The report of a loading whose counts are kept while it is made. The totals by boundary, of which it tells the last alone, are
/// not kept.
#[tactic(auto, unfolding(crate::specs::Reports::load_report))]
fn report_of_curves(alloc: Global, scenario: &Scenario) -> Result<Vec<u8>, NoMemory>
    ensures { IfOk result (λ text. IsReport scenario.now text.items) }
{
    let _setup = scenario.setup();
    let curves = cold(alloc, scenario)?;
    let mut text = Vec::new(alloc);
    push_totals(alloc, scenario, &curves, &mut text)?;
    push_links(alloc, scenario, &curves, &mut text)?;
    Ok(text)
}

/// Loads a scenario, and gives the totals line of its loading and the line of each link, in order of number. With many
/// destinations it is made of what stands on the links, and that of a large case in threads; the report is the same however many
/// there are.
pub fn report_of<R: Threads + Sync>(
    rt: &R,
    alloc: Global,
    scenario: &Scenario,
) -> Result<Vec<u8>, NoMemory>
    ensures { IfOk result (λ text. IsReport scenario.now text.items) }
{
    if is_better_lean(scenario) {
        let loading = load_on_processors(rt, alloc, scenario, 0)?;
        return report_of_loading(alloc, scenario, &loading);
    }
    report_of_curves(alloc, scenario)
}
