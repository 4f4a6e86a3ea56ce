//! The inputs of a pair of node and slot but for its counts: what moves does not depend on them.
ghost use Rattle.std.specs.Prelude.{◌≡◌, ◌≤◌, ◌↔◌, length, take, IsTrue, IsFalse};
ghost use Rattle.ltm_curve.specs.Table.{counts_of, destinations_of};
ghost use Rattle.ltm_node.specs.Shape.{width};
ghost use Rattle.ltm_node.specs.Solvable.{IsSolvable};
ghost use Rattle.ltm_node.specs.Uncounted.{uncounted, with_no_counts};
ghost use Rattle.ltm_loading.specs.Uncounted.{uncounted_row, IsUncountedPair};
ghost use Rattle.ltm_setting.specs.Setting.{setting_of};
ghost use Rattle.ltm_inputs.specs.Idle.{IsIdle};
ghost use Rattle.ltm_sending.specs.Fronts.{FrontAt};
ghost use Rattle.ltm_setting.specs.Places.{IsNode, node_shape};
ghost use Rattle.ltm_units.specs.Bounds.{most_destinations};

use crate::numbers::is_any_sent;
use crate::row::put_limits;
use crate::sending::put_sending;
use crate::shapes::shape_of;
use ltm_curve::{Alone, Any, Curves, Kind, Several, Two};
use ltm_loading::uncounted_in_range;
use ltm_node::{NodeInputs, NodeShape};
use ltm_scenario::Scenario;
use ltm_setting::is_setting;
use ltm_units::Pair;

/// Writes the row of a pair but for its counts, if any of its arms sends something; whether one does. For curves of a kind.
#[inline]
fn put_row_if_sent<K: Kind>(
    scenario: &Scenario,
    curves: &Curves,
    pair: Pair,
    shape: NodeShape,
    row: &mut [u64],
) -> bool
    requires kind { K.fits (destinations_of curves.now) }
    requires node { IsNode scenario.now pair.node.0 }
    requires ready { FrontAt scenario.now curves.now pair.slot }
    requires shape { shape ≡ node_shape scenario.now pair.node.0 }
    requires few_arms { shape.arms ≤ 5 }
    requires few_outs { shape.outs ≤ 4 }
    requires few_destinations { shape.destinations ≤ most_destinations }
    requires room { length row.old ≡ width shape }
    ensures row { IsTrue result
        → with_no_counts shape row.new
        ≡ uncounted_row (setting_of scenario.now) (counts_of curves.now) pair.node.0 pair.slot }
    ensures idle { IsFalse result
        ↔ IsIdle (setting_of scenario.now) (counts_of curves.now) pair.node.0 pair.slot }
{
    let (sending, others) = row.split_at_mut(shape.counts_begin());
    put_sending::<K>(scenario, curves, pair, sending);
    let sent = is_any_sent(sending);
    if sent {
        let (_counts, limits) = others.split_at_mut(shape.counts_width());
        put_limits::<K>(scenario, curves, pair, shape, limits);
    }
    sent
}

/// The same for any curves: with one destination, with two and with several, each in code of its own.
#[inline]
fn put_any_row_if_sent(
    scenario: &Scenario,
    curves: &Curves,
    pair: Pair,
    shape: NodeShape,
    row: &mut [u64],
) -> bool
    requires node { IsNode scenario.now pair.node.0 }
    requires ready { FrontAt scenario.now curves.now pair.slot }
    requires shape { shape ≡ node_shape scenario.now pair.node.0 }
    requires few_arms { shape.arms ≤ 5 }
    requires few_outs { shape.outs ≤ 4 }
    requires few_destinations { shape.destinations ≤ most_destinations }
    requires room { length row.old ≡ width shape }
    ensures row { IsTrue result
        → with_no_counts shape row.new
        ≡ uncounted_row (setting_of scenario.now) (counts_of curves.now) pair.node.0 pair.slot }
    ensures idle { IsFalse result
        ↔ IsIdle (setting_of scenario.now) (counts_of curves.now) pair.node.0 pair.slot }
{
    let destinations = curves.destinations();
    if destinations == 1 {
        return put_row_if_sent::<Alone>(scenario, curves, pair, shape, row);
    }
    if destinations == 2 {
        return put_row_if_sent::<Two>(scenario, curves, pair, shape, row);
    }
    if destinations >= 3 {
        return put_row_if_sent::<Several>(scenario, curves, pair, shape, row);
    }
    put_row_if_sent::<Any>(scenario, curves, pair, shape, row)
}

/// Writes that row at the front of a room, if any arm sends something; whether one does.
#[inline]
fn put_front_if_sent(
    scenario: &Scenario,
    curves: &Curves,
    pair: Pair,
    shape: NodeShape,
    room: &mut [u64],
) -> bool
    requires node { IsNode scenario.now pair.node.0 }
    requires ready { FrontAt scenario.now curves.now pair.slot }
    requires shape { shape ≡ node_shape scenario.now pair.node.0 }
    requires few_arms { shape.arms ≤ 5 }
    requires few_outs { shape.outs ≤ 4 }
    requires few_destinations { shape.destinations ≤ most_destinations }
    requires room { width shape ≤ length room.old }
    ensures row { IsTrue result
        → with_no_counts shape (take (width shape) room.new)
        ≡ uncounted_row (setting_of scenario.now) (counts_of curves.now) pair.node.0 pair.slot }
    ensures idle { IsFalse result
        ↔ IsIdle (setting_of scenario.now) (counts_of curves.now) pair.node.0 pair.slot }
{
    let row = &mut room[..shape.width()];
    put_any_row_if_sent(scenario, curves, pair, shape, row)
}

/// Reads the inputs of a pair of node and slot at the front of a loading, if any of its arms sends something; whether one
/// does. The counts in the row are not told: what moves does not depend on them, so a loading adds it to counts that it need
/// not read. The counts of a pair whose arms send nothing stay as they are: no number of the row is told then. Takes no
/// memory.
pub fn uncounted_if_sent(
    scenario: &Scenario,
    curves: &Curves,
    pair: Pair,
    into: &mut NodeInputs,
) -> bool
    requires node { IsNode scenario.now pair.node.0 }
    requires ready { FrontAt scenario.now curves.now pair.slot }
    requires room { width (node_shape scenario.now pair.node.0) ≤ into.old.room }
    ensures inputs { IsTrue result
        → IsUncountedPair (setting_of scenario.now)
        (counts_of curves.now) pair.node.0 pair.slot (uncounted into.new) }
    ensures solvable { IsTrue result → IsSolvable (uncounted into.new) }
    ensures idle { IsFalse result
        ↔ IsIdle (setting_of scenario.now) (counts_of curves.now) pair.node.0 pair.slot }
    ensures room { into.new.room ≡ into.old.room }
{
    is_setting(scenario);
    uncounted_in_range();
    let shape = shape_of(scenario, pair.node);
    into.reshape(shape);
    put_front_if_sent(scenario, curves, pair, shape, into.numbers_mut())
}
