//! The report of a loading whose totals are kept, as one text.
ghost use Rattle.std.specs.Prelude.{◌≡◌, ◌++◌, ◌<◌, IfOk, OnOk, length};
ghost use Rattle.ltm_curve.specs.Counts.{Counts};
ghost use Rattle.ltm_setting.specs.Setting.{setting_of};
ghost use Rattle.ltm_flows.specs.Shown.{Shows, ShowsCounts};
ghost use Rattle.ltm_units.specs.Texts.{texts_below};
ghost use Rattle.ltm_report.specs.Reports.{link_report_of, IsReport};

use crate::links::load_link_text;
use crate::totals::totals_text;
use ltm_flows::Loading;
use ltm_scenario::Scenario;
use ltm_units::{LinkId, NoMemory};
use std::alloc::Global;

#[tactic(auto, unfolding(ltm_setting::specs::Setting::setting_of))]
fn push_link(
    alloc: Global,
    scenario: &Scenario,
    loading: &Loading,
    link: LinkId,
    into: &mut Vec<u8>,
) -> Result<(), NoMemory>
    requires link { link.0 < length scenario.now.network.links }
    requires shows { Shows (setting_of scenario.now) 0 loading.now }
    ensures { OnOk result ((c : Counts) → ShowsCounts (setting_of scenario.now) 0 c loading.now
        → into.new.items ≡ into.old.items ++ link_report_of scenario.now c link.0) }
{
    let name = scenario.network().link_name(link);
    load_link_text(alloc, loading, &name, link, into)
}

fn push_links(
    alloc: Global,
    scenario: &Scenario,
    loading: &Loading,
    into: &mut Vec<u8>,
) -> Result<(), NoMemory>
    requires { Shows (setting_of scenario.now) 0 loading.now }
    ensures { OnOk result ((c : Counts) → ShowsCounts (setting_of scenario.now) 0 c loading.now
        → into.new.items ≡ into.old.items
        ++ texts_below (length scenario.now.network.links) (link_report_of scenario.now c)) }
{
    for link in 0..scenario.network().links() {
        push_link(alloc, scenario, loading, LinkId(link), into)?;
    }
    Ok(())
}

/// The totals line of a loading of a scenario under version 0, and the line of each link, in order of number.
#[tactic(auto, unfolding(crate::specs::Reports::load_report))]
pub(crate) fn report_of_loading(
    alloc: Global,
    scenario: &Scenario,
    loading: &Loading,
) -> Result<Vec<u8>, NoMemory>
    requires { Shows (setting_of scenario.now) 0 loading.now }
    ensures { IfOk result (λ text. IsReport scenario.now text.items) }
{
    let _setup = scenario.setup();
    let mut text = Vec::new(alloc);
    totals_text(alloc, loading, &mut text)?;
    push_links(alloc, scenario, loading, &mut text)?;
    Ok(text)
}
