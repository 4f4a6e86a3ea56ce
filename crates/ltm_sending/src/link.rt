//! What a link sends and what it can take.
ghost use Rattle.std.specs.Prelude.{◌≡◌, ℕ, ◌+◌, ◌*◌, ◌≤◌, length, slice_index};
ghost use Rattle.ltm_curve.specs.Table.{destinations_of, counts_of};
ghost use Rattle.ltm_loading.specs.Flows.{position, link_sending, receiving};
ghost use Rattle.ltm_setting.specs.Setting.{setting_of};
ghost use Rattle.ltm_sending.specs.MayLeave.{WaitOnLink};
ghost use Rattle.ltm_sending.specs.Fronts.{FrontAt};
ghost use Rattle.ltm_setting.specs.Places.{IsDestination, IsLink};
ghost use Rattle.ltm_units.specs.Bounds.{most_in_slot};

use crate::ago::total_ago;
use crate::leaving::{Waiting, WaitingAt, position_from, waiting_on};
use crate::parts::{limit_all, send_none, send_nothing};
use ltm_curve::{Curves, FirstUnits, Kind};
use ltm_loading::{down_of, links_are_ready, up_of};
use ltm_scenario::Scenario;
use ltm_setting::{delays, entry_limit, exit_limit, is_setting, limits, link_count, step};
use ltm_units::LinkId;

/// Writes what a link sends of each destination, out of the units that wait: the search for the boundary at which they
/// end, and one pass over the destinations. Kept out of line.
#[inline(never)]
fn send_parts(
    scenario: &Scenario,
    curves: &Curves,
    link: LinkId,
    slot: u32,
    waiting: Waiting,
    into: &mut [u64],
)
    requires link { IsLink scenario.now link.0 }
    requires ready { FrontAt scenario.now curves.now slot }
    requires waiting { WaitOnLink (setting_of scenario.now) (counts_of curves.now) link.0 slot
        (destinations_of curves.now) waiting.goal waiting.by waiting.left }
    requires room { length into.old ≡ (setting_of scenario.now).destinations }
    ensures { (d : ℕ) → IsDestination scenario.now d → slice_index into.new d
        ≡ link_sending (setting_of scenario.now) (counts_of curves.now) link.0 slot d }
{
    let _links = link_count(scenario);
    let up = up_of(link);
    curves.first_less(up, waiting.goal, waiting.by, down_of(link), slot, into);
    let limit = exit_limit(scenario, link, slot);
    limit_all(limit, waiting.goal - waiting.left, into);
}

/// Writes what a link sends of each destination, out of the units that wait, if any do. Only then it is sought where they end:
/// of two destinations boundary by boundary, of several by steps that double.
#[inline]
fn send_waiting<K: Kind>(
    scenario: &Scenario,
    curves: &Curves,
    link: LinkId,
    slot: u32,
    waiting: Waiting,
    into: &mut [u64],
)
    requires kind { K.fits (destinations_of curves.now) }
    requires link { IsLink scenario.now link.0 }
    requires ready { FrontAt scenario.now curves.now slot }
    requires waiting { WaitOnLink (setting_of scenario.now) (counts_of curves.now) link.0 slot
        (destinations_of curves.now) waiting.goal waiting.by waiting.left }
    requires room { length into.old ≡ (setting_of scenario.now).destinations }
    ensures { (d : ℕ) → IsDestination scenario.now d → slice_index into.new d
        ≡ link_sending (setting_of scenario.now) (counts_of curves.now) link.0 slot d }
{
    let whole = waiting.goal - waiting.left;
    if whole == 0 {
        send_none::<K>(curves, into);
        return;
    }
    if K::is_alone(curves) {
        into[0] = whole.min(exit_limit(scenario, link, slot));
        return;
    }
    if K::is_two(curves) {
        let at = position_from::<K>(scenario, curves, link, slot, waiting);
        let Waiting { goal, by, left } = waiting;
        let ended = WaitingAt { goal, left, by, at };
        send_two_at(scenario, curves, link, slot, ended, into);
        return;
    }
    send_parts(scenario, curves, link, slot, waiting, into);
}

/// Writes what a link sends of each of several destinations, out of the units that wait and end at a position: one pass
/// over the destinations. Kept out of line.
#[inline(never)]
fn send_parts_at(
    scenario: &Scenario,
    curves: &Curves,
    link: LinkId,
    slot: u32,
    waiting: WaitingAt,
    into: &mut [u64],
)
    requires link { IsLink scenario.now link.0 }
    requires ready { FrontAt scenario.now curves.now slot }
    requires several { 2 ≤ destinations_of curves.now }
    requires waiting { WaitOnLink (setting_of scenario.now) (counts_of curves.now) link.0 slot
        (destinations_of curves.now) waiting.goal waiting.by waiting.left }
    requires position { waiting.at
        ≡ position (setting_of scenario.now) (counts_of curves.now) link.0 slot }
    requires room { length into.old ≡ (setting_of scenario.now).destinations }
    ensures { (d : ℕ) → IsDestination scenario.now d → slice_index into.new d
        ≡ link_sending (setting_of scenario.now) (counts_of curves.now) link.0 slot d }
{
    is_setting(scenario);
    links_are_ready();
    let _links = link_count(scenario);
    let WaitingAt { goal, left, by, at } = waiting;
    let units = FirstUnits {
        group: up_of(link),
        count: goal,
        last: by,
        end: at.min(by),
    };
    curves.first_less_from(units, down_of(link), slot, into);
    let limit = exit_limit(scenario, link, slot);
    limit_all(limit, goal - left, into);
}

/// The same of two destinations, without a loop. Always in line: two readers call it.
#[inline(always)]
fn send_two_at(
    scenario: &Scenario,
    curves: &Curves,
    link: LinkId,
    slot: u32,
    waiting: WaitingAt,
    into: &mut [u64],
)
    requires link { IsLink scenario.now link.0 }
    requires ready { FrontAt scenario.now curves.now slot }
    requires two { destinations_of curves.now ≡ 2 }
    requires waiting { WaitOnLink (setting_of scenario.now) (counts_of curves.now) link.0 slot
        (destinations_of curves.now) waiting.goal waiting.by waiting.left }
    requires position { waiting.at
        ≡ position (setting_of scenario.now) (counts_of curves.now) link.0 slot }
    requires room { length into.old ≡ (setting_of scenario.now).destinations }
    ensures { (d : ℕ) → IsDestination scenario.now d → slice_index into.new d
        ≡ link_sending (setting_of scenario.now) (counts_of curves.now) link.0 slot d }
{
    is_setting(scenario);
    links_are_ready();
    let _links = link_count(scenario);
    let WaitingAt { goal, left, by, at } = waiting;
    let units = FirstUnits {
        group: up_of(link),
        count: goal,
        last: by,
        end: by.min(at),
    };
    curves.first_less_two(units, down_of(link), slot, into);
    let limit = exit_limit(scenario, link, slot);
    limit_all(limit, goal - left, into);
}

/// Writes what a link sends of each destination, out of the units that wait and end at a position, if any do.
#[inline]
fn send_waiting_at<K: Kind>(
    scenario: &Scenario,
    curves: &Curves,
    link: LinkId,
    slot: u32,
    waiting: WaitingAt,
    into: &mut [u64],
)
    requires kind { K.fits (destinations_of curves.now) }
    requires link { IsLink scenario.now link.0 }
    requires ready { FrontAt scenario.now curves.now slot }
    requires waiting { WaitOnLink (setting_of scenario.now) (counts_of curves.now) link.0 slot
        (destinations_of curves.now) waiting.goal waiting.by waiting.left }
    requires position { waiting.at
        ≡ position (setting_of scenario.now) (counts_of curves.now) link.0 slot }
    requires room { length into.old ≡ (setting_of scenario.now).destinations }
    ensures { (d : ℕ) → IsDestination scenario.now d → slice_index into.new d
        ≡ link_sending (setting_of scenario.now) (counts_of curves.now) link.0 slot d }
{
    let whole = waiting.goal - waiting.left;
    if whole == 0 {
        send_none::<K>(curves, into);
        return;
    }
    if K::is_alone(curves) {
        into[0] = whole.min(exit_limit(scenario, link, slot));
        return;
    }
    if K::is_two(curves) {
        send_two_at(scenario, curves, link, slot, waiting, into);
        return;
    }
    send_parts_at(scenario, curves, link, slot, waiting, into);
}

/// Writes what a link sends of each destination in a slot, for curves of a kind: of the units that entered it at least its
/// free-flow time ago, in their order, those that have not left yet, as many as its capacity and its exit limit let pass. The
/// exit limit cuts each destination in proportion, rounded down. Where the units end that may leave is sought only if some wait.
#[inline]
pub fn link_sends_only<K: Kind>(
    scenario: &Scenario,
    curves: &Curves,
    link: LinkId,
    slot: u32,
    into: &mut [u64],
)
    requires kind { K.fits (destinations_of curves.now) }
    requires link { IsLink scenario.now link.0 }
    requires ready { FrontAt scenario.now curves.now slot }
    requires room { length into.old ≡ (setting_of scenario.now).destinations }
    ensures { (d : ℕ) → IsDestination scenario.now d → slice_index into.new d
        ≡ link_sending (setting_of scenario.now) (counts_of curves.now) link.0 slot d }
{
    is_setting(scenario);
    let waiting = waiting_on::<K>(scenario, curves, link, slot);
    send_waiting::<K>(scenario, curves, link, slot, waiting, into);
}

/// Writes the same, and tells the position of the slot for the link: the last boundary by which no more has
/// entered the link than may have left it by the slot's end. Of which destinations the last of these units are is read there.
#[inline]
pub fn link_sends<K: Kind>(
    scenario: &Scenario,
    curves: &Curves,
    link: LinkId,
    slot: u32,
    into: &mut [u64],
) -> u32
    requires kind { K.fits (destinations_of curves.now) }
    requires link { IsLink scenario.now link.0 }
    requires ready { FrontAt scenario.now curves.now slot }
    requires room { length into.old ≡ (setting_of scenario.now).destinations }
    ensures sends { (d : ℕ) → IsDestination scenario.now d → slice_index into.new d
        ≡ link_sending (setting_of scenario.now) (counts_of curves.now) link.0 slot d }
    ensures position { result
        ≡ position (setting_of scenario.now) (counts_of curves.now) link.0 slot }
    ensures below { result ≤ slot }
{
    is_setting(scenario);
    let waiting = waiting_on::<K>(scenario, curves, link, slot);
    let at = position_from::<K>(scenario, curves, link, slot, waiting);
    let Waiting { goal, by, left } = waiting;
    let waiting = WaitingAt { goal, left, by, at };
    send_waiting_at::<K>(scenario, curves, link, slot, waiting, into);
    at
}

/// What a link can take in a slot, at most 32,000 units, for curves of a kind: its capacity, its entry limit, and the room that
/// it has had since its wave time ago.
#[inline]
pub fn link_takes<K: Kind>(scenario: &Scenario, curves: &Curves, link: LinkId, slot: u32) -> u64
    requires kind { K.fits (destinations_of curves.now) }
    requires link { IsLink scenario.now link.0 }
    requires ready { FrontAt scenario.now curves.now slot }
    ensures value { result
        ≡ receiving (setting_of scenario.now) (counts_of curves.now) link.0 slot }
    ensures small { result ≤ most_in_slot }
{
    is_setting(scenario);
    links_are_ready();
    let limits = limits(scenario, link);
    let _links = link_count(scenario);
    let up = up_of(link);
    let wave = delays(scenario, link).wave;
    let ago = total_ago::<K>(curves, down_of(link), slot, wave, step(scenario));
    let entered = K::total(curves, up, slot);
    let room = ago.total + limits.storage - entered;
    let entry = entry_limit(scenario, link, slot);
    limits.capacity_at(slot).min(entry.min(room))
}
