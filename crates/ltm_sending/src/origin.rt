//! What the origin of a node sends.
ghost use Rattle.std.specs.Prelude.{◌≡◌, ℕ, ◌+◌, ◌-◌, ◌≤◌, length, slice_index};
ghost use Rattle.ltm_curve.specs.Counts.{total};
ghost use Rattle.ltm_curve.specs.First.{first_units};
ghost use Rattle.ltm_curve.specs.FirstLaws.{IsPart};
ghost use Rattle.ltm_curve.specs.Table.{counts_of, destinations_of};
ghost use Rattle.ltm_loading.specs.Setting.{IsSetting};
ghost use Rattle.ltm_loading.specs.Flows.{origin_sending};
ghost use Rattle.ltm_setting.specs.Setting.{setting_of};
ghost use Rattle.ltm_sending.specs.MayLeave.{WaitAtOrigin};
ghost use Rattle.ltm_sending.specs.Fronts.{FrontAt};
ghost use Rattle.ltm_setting.specs.Places.{HasOut, IsBoundary, IsDestination, IsNode};

use crate::parts::send_none;
use crate::produced::Produced;
use ltm_curve::{Curves, Kind, Rows, first_less_of};
use ltm_loading::origins_are_ready;
use ltm_scenario::Scenario;
use ltm_setting::{dep_of, is_setting, origin_capacity};
use ltm_units::NodeId;

/// Units that may leave in the order in which they were produced: how many there are, how many of them ever may leave,
/// and how many have left.
#[derive(Clone, Copy)]
struct Queue {
    all: u64,
    goal: u64,
    left: u64,
}

/// The units that may leave an origin by the end of a slot.
#[inline]
fn queue_at<K: Kind>(scenario: &Scenario, curves: &Curves, node: NodeId, slot: u32) -> Queue
    requires kind { K.fits (destinations_of curves.now) }
    requires node { IsNode scenario.now node.0 }
    requires some_out { HasOut scenario.now node.0 0 }
    requires setting { IsSetting (setting_of scenario.now) }
    requires ready { FrontAt scenario.now curves.now slot }
    ensures { WaitAtOrigin (setting_of scenario.now)
        (counts_of curves.now) node.0 slot result.all result.goal result.left }
{
    origins_are_ready();
    let rows = Produced { scenario, node };
    let all = rows.total(slot + 1);
    let left = K::total(curves, dep_of(scenario, node), slot);
    let goal = all.min(left + origin_capacity(scenario));
    Queue { all, goal, left }
}

/// Writes what the units that wait at an origin are of each destination: where all of them may leave, all that was produced
/// less what has left; else the search for the slot in which those that may leave end, kept out of line.
#[inline(never)]
fn send_queue(rows: &Produced<'_>, queue: Queue, boundary: u32, gone: &[u32], into: &mut [u64])
    requires boundary { IsBoundary rows.now.scenario.now boundary }
    requires all { queue.all
        ≡ total (setting_of rows.now.scenario.now).destinations
        ((setting_of rows.now.scenario.now).produced rows.now.node.0) boundary }
    requires part { IsPart (setting_of rows.now.scenario.now).destinations
        ((setting_of rows.now.scenario.now).produced rows.now.node.0) queue.goal boundary }
    requires gone { length gone.now ≡ (setting_of rows.now.scenario.now).destinations }
    requires room { length into.old ≡ (setting_of rows.now.scenario.now).destinations }
    requires behind { (d : ℕ) → IsDestination rows.now.scenario.now d
        → slice_index gone.now d
        ≤ first_units (setting_of rows.now.scenario.now).destinations
        ((setting_of rows.now.scenario.now).produced rows.now.node.0) queue.goal boundary d }
    ensures { (d : ℕ) → IsDestination rows.now.scenario.now d → slice_index into.new d
        ≡ first_units (setting_of rows.now.scenario.now).destinations
        ((setting_of rows.now.scenario.now).produced rows.now.node.0) queue.goal boundary d - slice_index gone.now d }
{
    if queue.goal == queue.all {
        rows.write_less(boundary, gone, into);
    } else {
        first_less_of(rows, queue.goal, boundary, gone, into);
    }
}

/// Writes what the origin of a node sends of each destination in a slot, for curves of a kind: of the units that the node has
/// produced by the end of the slot, in their order, those that have not left yet, as many as the capacity of origins lets pass.
#[inline]
pub fn origin_sends<K: Kind>(
    scenario: &Scenario,
    curves: &Curves,
    node: NodeId,
    slot: u32,
    into: &mut [u64],
)
    requires kind { K.fits (destinations_of curves.now) }
    requires node { IsNode scenario.now node.0 }
    requires some_out { HasOut scenario.now node.0 0 }
    requires ready { FrontAt scenario.now curves.now slot }
    requires room { length into.old ≡ (setting_of scenario.now).destinations }
    ensures { (d : ℕ) → IsDestination scenario.now d → slice_index into.new d
        ≡ origin_sending (setting_of scenario.now) (counts_of curves.now) node.0 slot d }
{
    is_setting(scenario);
    let queue = queue_at::<K>(scenario, curves, node, slot);
    if queue.goal == queue.left {
        send_none::<K>(curves, into);
        return;
    }
    if K::is_alone(curves) {
        into[0] = queue.goal - queue.left;
        return;
    }
    let rows = Produced { scenario, node };
    let gone = curves.row(dep_of(scenario, node), slot);
    send_queue(&rows, queue, slot + 1, gone, into);
}
