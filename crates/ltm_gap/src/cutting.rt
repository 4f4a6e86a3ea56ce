//! Where a slot is cut: how many of the units that an origin produces in it can come to a node by the end.
ghost use Rattle.std.specs.Prelude.{◌≡◌, ◌<◌, ◌≤◌, ◌+◌, length, OnOk, IfOk, Some};
ghost use Rattle.ltm_flows.specs.Origins.{produced_in_all};
ghost use Rattle.ltm_search.specs.Arrivals.{arrivals_of};
ghost use Rattle.ltm_setting.specs.Setting.{setting_of};
ghost use Rattle.ltm_setting.specs.Places.{IsNode, IsSlot};
ghost use Rattle.ltm_gap.specs.Told.{Suits};
ghost use Rattle.ltm_gap.specs.Steps.{IsArrival, IsBetween, IsCut};
ghost use Rattle.ltm_units.specs.Bounds.{most_produced};

use crate::laws::{arrive_in_order, slots_meet};
use crate::search::find;
use ltm_flows::Loading;
use ltm_scenario::Scenario;
use ltm_search::Search;
use ltm_setting::{is_setting, slot_count};
use ltm_units::{Millis, NoMemory, NodeId};

/// How many units of a slot can come to a node by the end, and the earliest arrival of the last of them; of none that of the
/// slot's beginning.
#[derive(Clone, Copy)]
pub struct Cut {
    pub arriving: u64,
    pub last: Option<Millis>,
}

/// What an origin has produced in all by the two ends of a slot.
#[derive(Clone, Copy)]
pub(crate) struct Made {
    pub(crate) origin: NodeId,
    pub(crate) slot: u32,
    pub(crate) before: u64,
    pub(crate) after: u64,
}

/// The earliest arrival at a node of the unit of a number.
fn arrival_of(
    search: &mut Search,
    scenario: &Scenario,
    loading: &Loading,
    made: Made,
    number: u64,
    node: NodeId,
) -> Result<Option<Millis>, NoMemory>
    requires suits { Suits (setting_of scenario.now) loading.now }
    requires origin { IsNode scenario.now made.origin.0 }
    requires slot { IsSlot scenario.now made.slot }
    requires node { IsNode scenario.now node.0 }
    requires long { length (arrivals_of search.old) ≡ (setting_of scenario.now).nodes }
    ensures long { OnOk result (length (arrivals_of search.new) ≡ (setting_of scenario.now).nodes) }
    ensures arrival { IfOk result (IsArrival (setting_of scenario.now) loading.now made.origin.0 made.slot
        number node.0) }
{
    let _slots = slot_count(scenario);
    find(search, scenario, loading, made.origin, made.slot, number)?;
    Ok(search.arrival(node))
}

/// The last unit of a slot that comes to a node by the end, where the slot's beginning does: found by halving.
fn cut_within(
    search: &mut Search,
    scenario: &Scenario,
    loading: &Loading,
    made: Made,
    node: NodeId,
    first: Millis,
) -> Result<Cut, NoMemory>
    requires suits { Suits (setting_of scenario.now) loading.now }
    requires origin { IsNode scenario.now made.origin.0 }
    requires slot { IsSlot scenario.now made.slot }
    requires node { IsNode scenario.now node.0 }
    requires long { length (arrivals_of search.old) ≡ (setting_of scenario.now).nodes }
    requires before { made.before ≡ produced_in_all (setting_of scenario.now) made.origin.0 made.slot }
    requires after { made.after
        ≡ produced_in_all (setting_of scenario.now) made.origin.0 (made.slot + 1) }
    requires some { made.before < made.after }
    requires few { made.after ≤ most_produced }
    requires first { IsArrival (setting_of scenario.now) loading.now made.origin.0 made.slot
        made.before node.0 (Some first) }
    ensures long { OnOk result (length (arrivals_of search.new) ≡ (setting_of scenario.now).nodes) }
    ensures cut { IfOk result (IsCut (setting_of scenario.now) loading.now made.origin.0 made.slot node.0) }
{
    is_setting(scenario);
    arrive_in_order();
    let mut last = first;
    let mut low = made.before;
    let mut high = made.after + 1;
    while low + 1 < high {
        let middle = low + (high - low) / 2;
        match arrival_of(search, scenario, loading, made, middle, node)? {
            Some(time) => {
                last = time;
                low = middle;
            }
            None => high = middle,
        }
    }
    Ok(Cut {
        arriving: low - made.before,
        last: Some(last),
    })
}

/// How many units of a slot in which something is produced come to a node by the end, and when, from the earliest arrivals at its
/// two ends. Only where the first is there and the last is not, anything is looked for.
pub(crate) fn cut_slot(
    search: &mut Search,
    scenario: &Scenario,
    loading: &Loading,
    made: Made,
    node: NodeId,
    ends: (Option<Millis>, Option<Millis>),
) -> Result<Cut, NoMemory>
    requires suits { Suits (setting_of scenario.now) loading.now }
    requires origin { IsNode scenario.now made.origin.0 }
    requires slot { IsSlot scenario.now made.slot }
    requires node { IsNode scenario.now node.0 }
    requires long { length (arrivals_of search.old) ≡ (setting_of scenario.now).nodes }
    requires before { made.before ≡ produced_in_all (setting_of scenario.now) made.origin.0 made.slot }
    requires after { made.after
        ≡ produced_in_all (setting_of scenario.now) made.origin.0 (made.slot + 1) }
    requires some { made.before < made.after }
    requires few { made.after ≤ most_produced }
    requires first { IsArrival (setting_of scenario.now) loading.now made.origin.0 made.slot
        made.before node.0 ends.0 }
    requires last { IsArrival (setting_of scenario.now) loading.now made.origin.0 (made.slot + 1)
        made.after node.0 ends.1 }
    ensures long { OnOk result (length (arrivals_of search.new) ≡ (setting_of scenario.now).nodes) }
    ensures cut { IfOk result (IsCut (setting_of scenario.now) loading.now made.origin.0 made.slot node.0) }
{
    is_setting(scenario);
    arrive_in_order();
    slots_meet();
    if ends.1.is_some() {
        return Ok(Cut {
            arriving: made.after - made.before,
            last: ends.1,
        });
    }
    match ends.0 {
        None => Ok(Cut {
            arriving: 0,
            last: None,
        }),
        Some(first) => cut_within(search, scenario, loading, made, node, first),
    }
}
