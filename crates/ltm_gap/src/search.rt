//! The search for earliest arrivals at the link times of a loading.
ghost use Rattle.std.specs.Prelude.{◌≡◌, length, OnOk};
ghost use Rattle.ltm_search.specs.Arrivals.{arrivals_of};
ghost use Rattle.ltm_setting.specs.Setting.{setting_of};
ghost use Rattle.ltm_setting.specs.Places.{IsNode, IsBoundary};
ghost use Rattle.ltm_gap.specs.Told.{Suits};
ghost use Rattle.ltm_gap.specs.Steps.{IsFrom};

use crate::laws::{are_ways, earliest_is_first};
use crate::leaving::{leaves, starts};
use ltm_flows::Loading;
use ltm_scenario::Scenario;
use ltm_search::{Links, Search};
use ltm_setting::{head, is_setting, out_links, slot_count, step};
use ltm_units::{LinkId, Millis, NoMemory, NodeId};

/// The links of a scenario, as one passes them in a loading of it.
#[derive(Drop)]
struct Passed<'a> {
    scenario: &'a Scenario,
    loading: &'a Loading,
}

impl Links for Passed<'_> {
    ghost use Rattle.ltm_gap.specs.Leaving.{end_of};
    ghost use Rattle.ltm_gap.specs.Steps.{ways_of};

    ghost ways = { λ links. ways_of links.scenario.now links.loading.now };

    ghost bound = { λ links n. end_of (setting_of links.scenario.now) };

    ghost stands = { λ links. Suits (setting_of links.scenario.now) links.loading.now };

    fn keep_ways(&self) {
        are_ways(self.scenario, self.loading);
    }

    fn leaving(&self, node: NodeId) -> &[LinkId] {
        is_setting(self.scenario);
        out_links(self.scenario, node)
    }

    fn head(&self, link: LinkId) -> NodeId {
        head(self.scenario, link)
    }

    fn pass(&self, link: LinkId, moment: Millis) -> Option<Millis> {
        leaves(self.scenario, self.loading, link, moment)
    }
}

/// Finds the earliest arrivals of the unit of a number, counted over all that an origin produces, which it produces in a slot.
pub(crate) fn find(
    search: &mut Search,
    scenario: &Scenario,
    loading: &Loading,
    origin: NodeId,
    slot: u32,
    number: u64,
) -> Result<(), NoMemory>
    requires suits { Suits (setting_of scenario.now) loading.now }
    requires origin { IsNode scenario.now origin.0 }
    requires slot { IsBoundary scenario.now slot }
    requires one_for_each { length (arrivals_of search.old) ≡ (setting_of scenario.now).nodes }
    ensures { OnOk result (IsFrom (setting_of scenario.now) loading.now origin.0 slot number
        search.new) }
{
    is_setting(scenario);
    earliest_is_first();
    let _step = step(scenario);
    let _slots = slot_count(scenario);
    let Some(start) = starts(loading, origin, slot, number) else {
        search.clear();
        return Ok(());
    };
    search.run(&Passed { scenario, loading }, origin, start)?;
    Ok(())
}
