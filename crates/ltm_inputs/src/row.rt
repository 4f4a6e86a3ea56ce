//! The blocks of a pair's row: its counts and its limits.
ghost use Rattle.std.specs.Prelude.{◌≡◌, ◌+◌, ◌*◌, ◌≤◌, length};
ghost use Rattle.ltm_curve.specs.Table.{counts_of, destinations_of};
ghost use Rattle.ltm_node.specs.Shape.{counts_width};
ghost use Rattle.ltm_loading.specs.Pairs.{count_row};
ghost use Rattle.ltm_setting.specs.Setting.{setting_of};
ghost use Rattle.ltm_inputs.specs.Parts.{limit_parts};
ghost use Rattle.ltm_sending.specs.Fronts.{FrontAt};
ghost use Rattle.ltm_setting.specs.Places.{IsNode, node_shape};
ghost use Rattle.ltm_units.specs.Bounds.{most_destinations};

use crate::capacities::put_capacity;
use crate::counts::{arrived, put_flows_counted};
use crate::sending::put_supply;
use crate::weights::put_weights;
use ltm_curve::{Curves, Kind};
use ltm_loading::groups_by_row;
use ltm_node::NodeShape;
use ltm_scenario::Scenario;
use ltm_units::Pair;

/// Writes the numbers of a pair that stand behind all counts, for curves of a kind.
#[inline]
pub(crate) fn put_limits<K: Kind>(
    scenario: &Scenario,
    curves: &Curves,
    pair: Pair,
    shape: NodeShape,
    into: &mut [u64],
)
    requires kind { K.fits (destinations_of curves.now) }
    requires node { IsNode scenario.now pair.node.0 }
    requires ready { FrontAt scenario.now curves.now pair.slot }
    requires shape { shape ≡ node_shape scenario.now pair.node.0 }
    requires few_arms { shape.arms ≤ 5 }
    requires few_outs { shape.outs ≤ 4 }
    requires room { length into.old ≡ shape.outs + (shape.arms + shape.destinations * shape.outs) }
    ensures { into.new ≡ limit_parts (setting_of scenario.now)
        (counts_of curves.now) pair.node.0 pair.slot }
{
    let (supply, rest) = into.split_at_mut(shape.outs as usize);
    let (capacity, weights) = rest.split_at_mut(shape.arms as usize);
    put_supply::<K>(scenario, curves, pair, supply);
    put_capacity(scenario, pair, capacity);
    put_weights(scenario, pair, shape.outs, weights);
}

/// Writes what has been counted at the node of a pair by the beginning of the slot.
pub(crate) fn put_counts(
    scenario: &Scenario,
    curves: &Curves,
    pair: Pair,
    shape: NodeShape,
    into: &mut [u64],
)
    requires node { IsNode scenario.now pair.node.0 }
    requires ready { FrontAt scenario.now curves.now pair.slot }
    requires shape { shape ≡ node_shape scenario.now pair.node.0 }
    requires few_arms { shape.arms ≤ 5 }
    requires few_destinations { shape.destinations ≤ most_destinations }
    requires room { length into.old ≡ counts_width shape }
    ensures { into.new ≡ count_row (setting_of scenario.now)
        (counts_of curves.now) pair.node.0 pair.slot }
{
    groups_by_row();
    let (flows, come) = into.split_at_mut(shape.arrived_after_place());
    put_flows_counted(scenario, curves, pair, flows);
    come[0] = arrived(scenario, curves, pair);
}
