//! What curves come to in all at the last boundary, of a scenario whose loading is kept by nobody.
ghost use Rattle.std.specs.Prelude.{◌≡◌};
ghost use Rattle.ltm_curve.specs.Table.{counts_of};
ghost use Rattle.ltm_loading.specs.Totals.{generated};
ghost use Rattle.ltm_setting.specs.Setting.{setting_of};
ghost use Rattle.ltm_flows.specs.InAll.{AreTotals};
ghost use Rattle.ltm_setting.specs.Places.{IsShapedFor};

use crate::loading_totals::Totals;
use crate::sums::sum_up;
use ltm_curve::Curves;
use ltm_scenario::Scenario;
use ltm_setting::{link_count, little_is_produced, node_count, produced_total, slot_count};
use ltm_units::NodeId;

/// What all origins have produced.
fn generated_at_end(scenario: &Scenario) -> u64
    ensures { result ≡ generated (setting_of scenario.now) (setting_of scenario.now).slots }
{
    little_is_produced(scenario);
    let last = slot_count(scenario);
    let mut sum = 0;
    for node in 0..node_count(scenario) {
        sum += produced_total(scenario, NodeId(node), last);
    }
    sum
}

/// What curves of a scenario come to in all at the last boundary. Takes no memory.
pub fn totals_at_end(scenario: &Scenario, curves: &Curves) -> Totals
    requires { IsShapedFor scenario.now curves.now }
    ensures { AreTotals (setting_of scenario.now) (counts_of curves.now)
        (setting_of scenario.now).slots result }
{
    let generated = generated_at_end(scenario);
    let links = link_count(scenario);
    let nodes = node_count(scenario);
    sum_up(curves, links, nodes, slot_count(scenario), generated)
}
