//! The numbers of a pair that are read of its links: what its arms send, what its out-links can take, and the capacities.
ghost use Rattle.std.specs.Prelude.{◌≡◌, ◌↔◌, ◌++◌, ◌*◌, ◌≤◌, IsFalse, length, take, slice_range};
ghost use Rattle.ltm_curve.specs.Table.{counts_of, destinations_of};
ghost use Rattle.ltm_node.specs.Laws.{NothingIsSent};
ghost use Rattle.ltm_node.specs.Shape.{width, counts_begin, supplies_begin, weights_begin};
ghost use Rattle.ltm_setting.specs.Setting.{setting_of};
ghost use Rattle.ltm_inputs.specs.Parts.{sending_part, supply_part, capacity_part, ArePositions};
ghost use Rattle.ltm_inputs.specs.Reads.{ReadsFlows};
ghost use Rattle.ltm_sending.specs.Fronts.{FrontAt};
ghost use Rattle.ltm_setting.specs.Places.{IsNode, arms_at, node_shape};

use crate::numbers::is_any_sent;
use crate::sending::{Front, put_arms, put_supply};
use crate::shapes::shape_of;
use ltm_curve::{Alone, Any, Curves, Kind, Several, Two};
use ltm_node::{NodeInputs, NodeShape};
use ltm_scenario::Scenario;
use ltm_units::Pair;

/// Writes what each arm of a node sends, the positions of its in-links, what its out-links can take, and the capacities of
/// its arms, for curves of a kind.
#[inline]
fn put_flows_of<K: Kind>(
    front: Front,
    pair: Pair,
    sending: &mut [u64],
    positions: &mut [u32],
    supply: &mut [u64],
    capacity: &mut [u64],
)
    requires kind { K.fits (destinations_of front.curves.now) }
    requires node { IsNode front.scenario.now pair.node.0 }
    requires ready { FrontAt front.scenario.now front.curves.now pair.slot }
    requires few_outs { length supply.old ≤ 4 }
    requires room { length sending.old
        ≡ arms_at front.scenario.now pair.node.0
        * (setting_of front.scenario.now).destinations }
    requires places { (setting_of front.scenario.now).ins pair.node.0 ≤ length positions.old }
    requires outs { length supply.old ≡ (setting_of front.scenario.now).outs pair.node.0 }
    requires arms { length capacity.old ≡ arms_at front.scenario.now pair.node.0 }
    ensures sends { sending.new
        ≡ sending_part (setting_of front.entry.scenario.now)
        (counts_of front.entry.curves.now) pair.node.0 pair.slot }
    ensures positions { ArePositions (setting_of front.entry.scenario.now)
        (counts_of front.entry.curves.now) pair.node.0 pair.slot positions.new }
    ensures supply { supply.new
        ≡ supply_part (setting_of front.entry.scenario.now)
        (counts_of front.entry.curves.now) pair.node.0 pair.slot }
    ensures capacities { capacity.new ≡ capacity_part (setting_of front.entry.scenario.now)
        pair.node.0 pair.slot }
{
    put_arms::<K>(
        front,
        pair,
        supply.len() as u32,
        sending,
        positions,
        capacity,
    );
    put_supply::<K>(front.scenario, front.curves, pair, supply);
}

/// The same for any curves: with one destination, with two and with several, each in code of its own.
#[inline]
fn put_flows(
    front: Front,
    pair: Pair,
    sending: &mut [u64],
    positions: &mut [u32],
    supply: &mut [u64],
    capacity: &mut [u64],
)
    requires node { IsNode front.scenario.now pair.node.0 }
    requires ready { FrontAt front.scenario.now front.curves.now pair.slot }
    requires few_outs { length supply.old ≤ 4 }
    requires room { length sending.old
        ≡ arms_at front.scenario.now pair.node.0
        * (setting_of front.scenario.now).destinations }
    requires places { (setting_of front.scenario.now).ins pair.node.0 ≤ length positions.old }
    requires outs { length supply.old ≡ (setting_of front.scenario.now).outs pair.node.0 }
    requires arms { length capacity.old ≡ arms_at front.scenario.now pair.node.0 }
    ensures sends { sending.new
        ≡ sending_part (setting_of front.entry.scenario.now)
        (counts_of front.entry.curves.now) pair.node.0 pair.slot }
    ensures positions { ArePositions (setting_of front.entry.scenario.now)
        (counts_of front.entry.curves.now) pair.node.0 pair.slot positions.new }
    ensures supply { supply.new
        ≡ supply_part (setting_of front.entry.scenario.now)
        (counts_of front.entry.curves.now) pair.node.0 pair.slot }
    ensures capacities { capacity.new ≡ capacity_part (setting_of front.entry.scenario.now)
        pair.node.0 pair.slot }
{
    let destinations = front.curves.destinations();
    if destinations == 1 {
        put_flows_of::<Alone>(front, pair, sending, positions, supply, capacity);
        return;
    }
    if destinations == 2 {
        put_flows_of::<Two>(front, pair, sending, positions, supply, capacity);
        return;
    }
    if destinations >= 3 {
        put_flows_of::<Several>(front, pair, sending, positions, supply, capacity);
        return;
    }
    put_flows_of::<Any>(front, pair, sending, positions, supply, capacity);
}

/// Writes what each arm of a node sends, the positions of its in-links, what its out-links can take, and the capacities into
/// a row at the front of a room. Neither its counts nor its weights are told.
#[inline]
fn put_flows_in_front(
    front: Front,
    pair: Pair,
    shape: NodeShape,
    room: &mut [u64],
    positions: &mut [u32],
)
    requires node { IsNode front.scenario.now pair.node.0 }
    requires ready { FrontAt front.scenario.now front.curves.now pair.slot }
    requires shape { shape ≡ node_shape front.scenario.now pair.node.0 }
    requires few_outs { shape.outs ≤ 4 }
    requires room { width shape ≤ length room.old }
    requires places { (setting_of front.scenario.now).ins pair.node.0 ≤ length positions.old }
    ensures sends { take (counts_begin shape) room.new
        ≡ sending_part (setting_of front.entry.scenario.now)
        (counts_of front.entry.curves.now) pair.node.0 pair.slot }
    ensures limits { slice_range room.new (supplies_begin shape) (weights_begin shape)
        ≡ supply_part (setting_of front.entry.scenario.now)
        (counts_of front.entry.curves.now) pair.node.0 pair.slot
        ++ capacity_part (setting_of front.entry.scenario.now) pair.node.0 pair.slot }
    ensures positions { ArePositions (setting_of front.entry.scenario.now)
        (counts_of front.entry.curves.now) pair.node.0 pair.slot positions.new }
{
    let (sending, others) = room.split_at_mut(shape.counts_begin());
    let (_counts, limits) = others.split_at_mut(shape.counts_width());
    let (supply, rest) = limits.split_at_mut(shape.outs as usize);
    let (capacity, _weights) = rest.split_at_mut(shape.arms as usize);
    put_flows(front, pair, sending, positions, supply, capacity);
}

/// Reads what the arms of a pair at the front of a loading send, its positions as `inputs_of` gives them, what its out-links
/// can take, and its capacities. Neither counts nor weights are told. Takes no memory.
///
/// The room that the inputs of any pair need is told by `widest`; a node has at most four in-links.
pub fn flows_of(
    scenario: &Scenario,
    curves: &Curves,
    pair: Pair,
    into: &mut NodeInputs,
    positions: &mut [u32],
)
    requires node { IsNode scenario.now pair.node.0 }
    requires ready { FrontAt scenario.now curves.now pair.slot }
    requires room { width (node_shape scenario.now pair.node.0) ≤ into.old.room }
    requires places { (setting_of scenario.now).ins pair.node.0 ≤ length positions.old }
    ensures positions { ArePositions (setting_of scenario.now)
        (counts_of curves.now) pair.node.0 pair.slot positions.new }
    ensures flows { ReadsFlows (setting_of scenario.now)
        (counts_of curves.now) pair.node.0 pair.slot into.new }
    ensures room { into.new.room ≡ into.old.room }
{
    let shape = shape_of(scenario, pair.node);
    into.reshape(shape);
    let front = Front { scenario, curves };
    put_flows_in_front(front, pair, shape, into.numbers_mut(), positions);
}

/// Whether any arm sends something.
pub fn is_sent(inputs: &NodeInputs) -> bool
    ensures { IsFalse result ↔ NothingIsSent inputs.now }
{
    let shape = inputs.shape();
    let sends = shape.arms as usize * shape.destinations as usize;
    is_any_sent(&inputs.row()[..sends])
}
