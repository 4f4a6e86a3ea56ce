//! The inputs of a pair of node and slot, and its counts written into them.
ghost use Rattle.std.specs.Prelude.{◌≡◌, ◌≤◌, length, take};
ghost use Rattle.ltm_curve.specs.Table.{counts_of};
ghost use Rattle.ltm_node.specs.Shape.{width};
ghost use Rattle.ltm_node.specs.Solvable.{IsSolvable};
ghost use Rattle.ltm_node.specs.Uncounted.{uncounted, with_no_counts};
ghost use Rattle.ltm_loading.specs.Pairs.{pair_row};
ghost use Rattle.ltm_loading.specs.NextPair.{IsPairInputs};
ghost use Rattle.ltm_loading.specs.Uncounted.{uncounted_row, IsUncountedPair};
ghost use Rattle.ltm_setting.specs.Setting.{setting_of};
ghost use Rattle.ltm_inputs.specs.Parts.{ArePositions};
ghost use Rattle.ltm_sending.specs.Fronts.{FrontAt};
ghost use Rattle.ltm_setting.specs.Places.{IsNode, node_shape};
ghost use Rattle.ltm_units.specs.Bounds.{most_destinations};

use crate::flows::flows_of;
use crate::row::put_counts;
use crate::shapes::shape_of;
use crate::weights::weigh;
use ltm_curve::Curves;
use ltm_loading::in_range;
use ltm_node::{NodeInputs, NodeShape};
use ltm_scenario::Scenario;
use ltm_setting::is_setting;
use ltm_units::Pair;

/// Reads the inputs of a pair of node and slot at the front of a loading, ready for `solve`, and for each in-link the
/// position of the slot: the last boundary by which no more has entered the link than may have left it by the slot's end.
/// Amounts are thousandths of a vehicle. Takes no memory.
///
/// The room that the inputs of any pair need is told by `widest`; a node has at most four in-links.
pub fn inputs_of(
    scenario: &Scenario,
    curves: &Curves,
    pair: Pair,
    into: &mut NodeInputs,
    positions: &mut [u32],
)
    requires node { IsNode scenario.now pair.node.0 }
    requires ready { FrontAt scenario.now curves.now pair.slot }
    requires room { width (node_shape scenario.now pair.node.0) ≤ into.old.room }
    requires places { (setting_of scenario.now).ins pair.node.0 ≤ length positions.old }
    ensures positions { ArePositions (setting_of scenario.now)
        (counts_of curves.now) pair.node.0 pair.slot positions.new }
    ensures inputs { IsPairInputs (setting_of scenario.now)
        (counts_of curves.now) pair.node.0 pair.slot into.new }
    ensures room { into.new.room ≡ into.old.room }
    ensures solvable { IsSolvable into.new }
{
    flows_of(scenario, curves, pair, into, positions);
    weigh(scenario, pair, into);
    count_in(scenario, curves, pair, into);
}

/// Writes the counts into the row of a pair of which they are not told.
fn put_counts_in(
    scenario: &Scenario,
    curves: &Curves,
    pair: Pair,
    shape: NodeShape,
    row: &mut [u64],
)
    requires node { IsNode scenario.now pair.node.0 }
    requires ready { FrontAt scenario.now curves.now pair.slot }
    requires shape { shape ≡ node_shape scenario.now pair.node.0 }
    requires few_arms { shape.arms ≤ 5 }
    requires few_destinations { shape.destinations ≤ most_destinations }
    requires room { length row.old ≡ width shape }
    requires row { with_no_counts shape row.old
        ≡ uncounted_row (setting_of scenario.now) (counts_of curves.now) pair.node.0 pair.slot }
    ensures { row.new ≡ pair_row (setting_of scenario.now)
        (counts_of curves.now) pair.node.0 pair.slot }
{
    let (_sending, others) = row.split_at_mut(shape.counts_begin());
    let (counts, _limits) = others.split_at_mut(shape.counts_width());
    put_counts(scenario, curves, pair, shape, counts);
}

/// Writes the counts into the row of a pair of which they are not told, and which stands at the front of a room.
#[inline]
fn put_counts_in_front(
    scenario: &Scenario,
    curves: &Curves,
    pair: Pair,
    shape: NodeShape,
    room: &mut [u64],
)
    requires node { IsNode scenario.now pair.node.0 }
    requires ready { FrontAt scenario.now curves.now pair.slot }
    requires shape { shape ≡ node_shape scenario.now pair.node.0 }
    requires few_arms { shape.arms ≤ 5 }
    requires few_destinations { shape.destinations ≤ most_destinations }
    requires room { width shape ≤ length room.old }
    requires row { with_no_counts shape (take (width shape) room.old)
        ≡ uncounted_row (setting_of scenario.now) (counts_of curves.now) pair.node.0 pair.slot }
    ensures { take (width shape) room.new
        ≡ pair_row (setting_of scenario.now) (counts_of curves.now) pair.node.0 pair.slot }
{
    let row = &mut room[..shape.width()];
    put_counts_in(scenario, curves, pair, shape, row);
}

/// Writes the counts of a pair at the front of a loading into its inputs, of which all else is told: then they are those that
/// `inputs_of` reads. Takes no memory.
pub fn count_in(scenario: &Scenario, curves: &Curves, pair: Pair, into: &mut NodeInputs)
    requires node { IsNode scenario.now pair.node.0 }
    requires ready { FrontAt scenario.now curves.now pair.slot }
    requires uncounted { IsUncountedPair (setting_of scenario.now)
        (counts_of curves.now) pair.node.0 pair.slot (uncounted into.old) }
    ensures inputs { IsPairInputs (setting_of scenario.now)
        (counts_of curves.now) pair.node.0 pair.slot into.new }
    ensures room { into.new.room ≡ into.old.room }
    ensures solvable { IsSolvable into.new }
{
    is_setting(scenario);
    in_range();
    let shape = shape_of(scenario, pair.node);
    put_counts_in_front(scenario, curves, pair, shape, into.numbers_mut());
}
