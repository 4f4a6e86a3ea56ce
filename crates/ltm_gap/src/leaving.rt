//! When one leaves a link who comes to it at a moment, and when a unit starts that an origin produces.
ghost use Rattle.std.specs.Prelude.{◌≡◌, ◌<◌, ◌≤◌, ◌+◌, ◌*◌, ◌/◌, ◌^◌, ℕ, IfSome, None, option_map, length};
ghost use Rattle.ltm_curve.specs.TotalCurves.{total_at};
ghost use Rattle.ltm_curve.specs.Counts.{interpolated};
ghost use Rattle.ltm_flows.specs.Shown.{curves_of, last_of, step_of, links_of, nodes_of};
ghost use Rattle.ltm_flows.specs.Counted.{entered_by, left_by};
ghost use Rattle.ltm_setting.specs.Places.{IsLink, IsNode, IsBoundary};
ghost use Rattle.ltm_setting.specs.Setting.{setting_of};
ghost use Rattle.ltm_gap.specs.Leaving.{end_of, enters, leaves_from, first_from, open_moment};
ghost use Rattle.ltm_units.specs.Bounds.{longest_step};
ghost use Rattle.ltm_gap.specs.Told.{Suits};
ghost use Rattle.ltm_gap.specs.Steps.{first_open, first_out, last_moment, read_leaves, read_starts};

use ltm_flows::Loading;
use ltm_loading::{dep_behind, down_of, up_of};
use ltm_scenario::Scenario;
use ltm_setting::{entry_limit, exit_limit, is_setting, limits, slot_count, step};
use ltm_times::{moment_of, past};
use ltm_units::{LinkId, Millis, NodeId};

/// The first slot from one on in which something may enter a link.
#[tactic(auto, using(crate::proofs::Opening::open_none_yet, crate::proofs::Opening::open_found, crate::proofs::Opening::open_passed, crate::proofs::Opening::open_nowhere))]
fn next_entry(scenario: &Scenario, link: LinkId, from: u32) -> Option<u32>
    requires { IsLink scenario.now link.0 }
    ensures { result ≡ first_open ((setting_of scenario.now).entry_limit link.0)
        (setting_of scenario.now).slots from }
{
    for slot in from..slot_count(scenario) {
        if entry_limit(scenario, link, slot) != 0 {
            return Some(slot);
        }
    }
    None
}

/// The first slot from one on in which something may leave a link.
#[tactic(auto, using(crate::proofs::Opening::open_none_yet, crate::proofs::Opening::open_found, crate::proofs::Opening::open_passed, crate::proofs::Opening::open_nowhere))]
fn next_exit(scenario: &Scenario, link: LinkId, from: u32) -> Option<u32>
    requires { IsLink scenario.now link.0 }
    ensures { result ≡ first_open ((setting_of scenario.now).exit_limit link.0)
        (setting_of scenario.now).slots from }
{
    for slot in from..slot_count(scenario) {
        if exit_limit(scenario, link, slot) != 0 {
            return Some(slot);
        }
    }
    None
}

/// The first moment from one on in an open slot, from the slot that it is in and the first open slot from there on.
fn opened(next: Option<u32>, slot: u32, moment: Millis, step: Millis) -> Option<Millis>
    requires step { step.0 ≤ longest_step }
    ensures moment { (limit : ℕ → ℕ) (slots : ℕ) → 0 < step.0 → slot ≡ moment.0 / step.0 → slot < slots
        → next ≡ first_open limit slots slot
        → option_map (λ m. m.0) result ≡ open_moment limit step.0 slots moment.0 }
    ensures small { moment.0 ≤ 2 ^ 60 → IfSome result (λ m. m.0 ≤ 2 ^ 60) }
{
    match next {
        None => None,
        Some(open) => {
            if open == slot {
                Some(moment)
            } else {
                Some(Millis(u64::from(open) * step.0))
            }
        }
    }
}

/// When one enters a link who comes to it at a moment.
fn enters(scenario: &Scenario, link: LinkId, moment: Millis) -> Option<Millis>
    requires { IsLink scenario.now link.0 }
    ensures { option_map (λ m. m.0) result ≡ enters (setting_of scenario.now) link.0 moment.0 }
{
    let step = step(scenario);
    let slot = moment.0 / step.0;
    if slot >= u64::from(slot_count(scenario)) {
        return None;
    }
    let slot = slot as u32;
    opened(next_entry(scenario, link, slot), slot, moment, step)
}

/// When one may leave a link who could leave it at a moment behind the first.
fn lets_out(scenario: &Scenario, link: LinkId, moment: Millis) -> Option<Millis>
    requires link { IsLink scenario.now link.0 }
    requires behind { 1 ≤ moment.0 }
    requires small { moment.0 ≤ last_moment }
    ensures { option_map (λ m. m.0) result ≡ first_out (setting_of scenario.now) link.0 moment.0 }
{
    let step = step(scenario);
    let before = Millis(moment.0 - 1);
    let slot = before.0 / step.0;
    if slot >= u64::from(slot_count(scenario)) {
        return None;
    }
    let slot = slot as u32;
    match opened(next_exit(scenario, link, slot), slot, before, step) {
        None => None,
        Some(opened) => Some(Millis(opened.0 + 1)),
    }
}

/// The total of a group at a moment up to the end.
fn total_at(loading: &Loading, group: u32, moment: Millis) -> u64
    requires group { group < 2 * links_of loading.now + nodes_of loading.now + 1 }
    requires within { moment.0 ≤ last_of loading.now * step_of loading.now }
    ensures { result
        ≡ interpolated (total_at (curves_of loading.now) group) (step_of loading.now) moment.0 }
{
    let step = loading.step();
    let boundary = (moment.0 / step.0) as u32;
    past(
        loading.curves(),
        group,
        boundary,
        Millis(moment.0 % step.0),
        step,
    )
}

/// The first moment from one on at which a group has so many units.
fn reached(loading: &Loading, group: u32, count: u64, from: Millis) -> Option<Millis>
    requires { group < 2 * links_of loading.now + nodes_of loading.now + 1 }
    ensures { option_map (λ m. m.0) result
        ≡ first_from (total_at (curves_of loading.now) group) (step_of loading.now)
        (last_of loading.now) count from.0 }
{
    if from.0 > u64::from(loading.slots()) * loading.step().0 {
        return None;
    }
    if count <= total_at(loading, group, from) {
        return Some(from);
    }
    moment_of(loading.curves(), group, count, loading.step())
}

/// When one leaves a link who enters it at a moment; none where that is not by the end.
fn leaves_from(
    scenario: &Scenario,
    loading: &Loading,
    link: LinkId,
    entry: Millis,
) -> Option<Millis>
    requires suits { Suits (setting_of scenario.now) loading.now }
    requires link { IsLink scenario.now link.0 }
    requires before { entry.0 < end_of (setting_of scenario.now) }
    ensures { option_map (λ m. m.0) result
        ≡ leaves_from (setting_of scenario.now) link.0 (entered_by loading.now link.0)
        (left_by loading.now link.0) entry.0 }
{
    is_setting(scenario);
    let _step = step(scenario);
    let _curves = loading.curves();
    let _links = loading.links();
    let before = total_at(loading, up_of(link), entry);
    let soonest = Millis(entry.0 + limits(scenario, link).free_ms);
    match reached(loading, down_of(link), before, soonest) {
        None => None,
        Some(free) => lets_out(scenario, link, free),
    }
}

/// When one leaves a link who comes to it at a moment; none where that is not by the end.
pub(crate) fn leaves(
    scenario: &Scenario,
    loading: &Loading,
    link: LinkId,
    moment: Millis,
) -> Option<Millis>
    requires suits { Suits (setting_of scenario.now) loading.now }
    requires link { IsLink scenario.now link.0 }
    ensures { option_map (λ m. m.0) result
        ≡ read_leaves (setting_of scenario.now) loading.now link.0 moment.0 }
{
    match enters(scenario, link, moment) {
        None => None,
        Some(entry) => leaves_from(scenario, loading, link, entry),
    }
}

/// When the unit of a number, counted over all that an origin produces, starts: once so many have departed, and not before the
/// beginning of its slot.
pub(crate) fn starts(loading: &Loading, origin: NodeId, slot: u32, number: u64) -> Option<Millis>
    requires origin { origin.0 < nodes_of loading.now }
    requires slot { slot ≤ last_of loading.now }
    ensures { option_map (λ m. m.0) result ≡ read_starts loading.now origin.0 slot number }
{
    let group = dep_behind(loading.links(), origin);
    let moment = Millis(u64::from(slot) * loading.step().0);
    reached(loading, group, number, moment)
}
