//! What origins produce is renewed in the loading that is shown, after the edits that change it.
ghost use Rattle.std.specs.Prelude.{◌≡◌, ◌≤◌, length, drop};
ghost use Rattle.ltm_setting.specs.Setting.{setting_of};
ghost use Rattle.ltm_flows.specs.Shown.{nodes_of};
ghost use Rattle.ltm_core.specs.Producing.{demand_changes, changes, edits_change, batches_change, Renews};

use ltm_flows::Loading;
use ltm_scenario::{Batch, Edit, Scenario};
use ltm_units::Name;

/// Renews what an origin has produced behind a boundary; nothing where no node has the name.
fn renew_origin(scenario: &Scenario, origin: &Name, behind: u32, shown: &mut Loading)
    requires { nodes_of shown.old ≡ length scenario.now.network.nodes }
    ensures { Renews (setting_of scenario.now)
        (demand_changes scenario.now.network origin.now behind) shown.old shown.new }
{
    if let Some(node) = scenario.network().find_node(origin) {
        shown.renew_production(scenario, node, behind);
    }
}

/// Renews what an edit changes of what origins have produced.
fn renew_after(scenario: &Scenario, edit: &Edit, shown: &mut Loading)
    requires { nodes_of shown.old ≡ length scenario.now.network.nodes }
    ensures { Renews (setting_of scenario.now)
        (λ n k. changes scenario.now.network n k edit.now) shown.old shown.new }
{
    match edit {
        Edit::Demand { origin, from, .. } => renew_origin(scenario, origin, *from, shown),
        Edit::Limit { .. }
        | Edit::Split { .. }
        | Edit::Splits { .. }
        | Edit::Diagram { .. }
        | Edit::Exit { .. }
        | Edit::Horizon { .. } => {}
    }
}

/// Renews what edits change.
fn renew_after_edits(scenario: &Scenario, edits: &[Edit], shown: &mut Loading)
    requires { nodes_of shown.old ≡ length scenario.now.network.nodes }
    ensures { Renews (setting_of scenario.now)
        (edits_change scenario.now.network edits.now) shown.old shown.new }
{
    for edit in edits {
        renew_after(scenario, edit, shown);
    }
}

/// Renews what batches change.
fn renew_after_batches(scenario: &Scenario, batches: &[Batch], shown: &mut Loading)
    requires { nodes_of shown.old ≡ length scenario.now.network.nodes }
    ensures { Renews (setting_of scenario.now)
        (batches_change scenario.now.network batches.now) shown.old shown.new }
{
    for batch in batches {
        renew_after_edits(scenario, batch.edits(), shown);
    }
}

/// Renews what the batches from one on change.
pub(crate) fn renew_since(scenario: &Scenario, batches: &[Batch], from: u64, shown: &mut Loading)
    requires from { from ≤ length batches.now }
    requires nodes { nodes_of shown.old ≡ length scenario.now.network.nodes }
    ensures { Renews (setting_of scenario.now)
        (batches_change scenario.now.network (drop from batches.now)) shown.old shown.new }
{
    renew_after_batches(scenario, &batches[from as usize..], shown);
}
