//! The links out of a node before the first slot.
ghost use Rattle.std.specs.Prelude.{◌≡◌, ℕ, ◌<◌, slice_index_or, IfOk};
ghost use Rattle.ltm_setting.specs.Setting.{setting_of};
ghost use Rattle.ltm_setting.specs.Places.{HasOut, IsLink, IsNode};
ghost use Rattle.ltm_used.specs.Lists.{list_of};
ghost use Rattle.ltm_lean.specs.declared.outgoing.Outgoing.{Outgoing};
ghost use Rattle.ltm_lean.specs.Ends.{IsOutgoing};
ghost use Rattle.ltm_lean.specs.Nodes.{AreOutgoing, AreTables};

use crate::lists::{link_list, node_list};
use ltm_lean::{Mail, Outgoing, Tables};
use ltm_lean_node::places_of;
use ltm_scenario::Scenario;
use ltm_setting::out_links;
use ltm_units::{LinkId, NoMemory, NodeId};
use std::alloc::Global;

/// A link out of a node before the first slot: nothing has entered it.
fn outgoing_of(
    alloc: Global,
    scenario: &Scenario,
    tables: &Tables,
    node: NodeId,
    link: LinkId,
) -> Result<Outgoing, NoMemory>
    requires node { IsNode scenario.now node.0 }
    requires link { IsLink scenario.now link.0 }
    requires tables { AreTables (setting_of scenario.now) tables.now }
    ensures link { IfOk result (IsOutgoing link.0 (list_of tables.now.links link.0) (list_of tables.now.nodes node.0)) }
    ensures still { IfOk result (λ y. y.mail.came ≡ 0) }
{
    let list = link_list(scenario, tables, link);
    let places = places_of(alloc, list, node_list(scenario, tables, node))?;
    let mail = Mail::none(alloc, list.len())?;
    Ok(Outgoing { link, places, mail })
}

/// The links out of a node before the first slot: nothing has entered any.
pub(crate) fn all_outgoing(
    alloc: Global,
    scenario: &Scenario,
    tables: &Tables,
    node: NodeId,
) -> Result<Vec<Outgoing>, NoMemory>
    requires node { IsNode scenario.now node.0 }
    requires tables { AreTables (setting_of scenario.now) tables.now }
    ensures links { IfOk result (λ outs. AreOutgoing (setting_of scenario.now) tables.now node.0 outs.items) }
    ensures still { IfOk result (λ outs. (j : ℕ) (d : Outgoing) → HasOut scenario.now node.0 j → (slice_index_or outs.items j d).mail.came ≡ 0) }
{
    let links = out_links(scenario, node);
    let mut outs = Vec::new(alloc);
    for j in 0..links.len() {
        let outgoing = outgoing_of(alloc, scenario, tables, node, links[j])?;
        outs.push(outgoing)?;
    }
    Ok(outs)
}
