//! The links into a node before the first slot.
ghost use Rattle.std.specs.Prelude.{◌≡◌, ℕ, ◌<◌, slice_index_or, IfOk};
ghost use Rattle.ltm_curve.specs.Counts.{Counts};
ghost use Rattle.ltm_loading.specs.Loading.{IsLoading};
ghost use Rattle.ltm_setting.specs.Setting.{setting_of};
ghost use Rattle.ltm_setting.specs.Places.{HasIn, IsLink, IsNode};
ghost use Rattle.ltm_standing.specs.Listed.{Stands};
ghost use Rattle.ltm_used.specs.Lists.{list_of};
ghost use Rattle.ltm_lean.specs.declared.incoming.Incoming.{Incoming};
ghost use Rattle.ltm_lean.specs.Ends.{IsIncoming};
ghost use Rattle.ltm_lean.specs.Nodes.{AreIncoming, AreTables, StandAt};

use crate::lists::{link_list, node_list};
use ltm_lean::{Incoming, Tables};
use ltm_lean_node::places_of;
use ltm_scenario::Scenario;
use ltm_setting::in_links;
use ltm_standing::Standing;
use ltm_units::{LinkId, NoMemory, NodeId};
use std::alloc::Global;

/// A link into a node before the first slot: nothing stands on it.
fn incoming_of(
    alloc: Global,
    scenario: &Scenario,
    tables: &Tables,
    node: NodeId,
    link: LinkId,
) -> Result<Incoming, NoMemory>
    requires node { IsNode scenario.now node.0 }
    requires link { IsLink scenario.now link.0 }
    requires tables { AreTables (setting_of scenario.now) tables.now }
    ensures link { IfOk result (IsIncoming link.0 (list_of tables.now.links link.0) (list_of tables.now.nodes node.0)) }
    ensures stands { IfOk result (λ x. (c : Counts) → IsLoading (setting_of scenario.now) c
        → Stands c link.0 (list_of tables.now.links link.0) 0 0 x.standing) }
    ensures still { IfOk result (λ x. x.gone ≡ 0) }
{
    let list = link_list(scenario, tables, link);
    let places = places_of(alloc, list, node_list(scenario, tables, node))?;
    let standing = Standing::create(alloc, list.len())?;
    let room = vec![in alloc; 0u32; list.len()].map_err(|_| NoMemory)?;
    Ok(Incoming {
        link,
        standing,
        places,
        room,
        gone: 0,
    })
}

/// The links into a node before the first slot: nothing stands on any.
pub(crate) fn all_incoming(
    alloc: Global,
    scenario: &Scenario,
    tables: &Tables,
    node: NodeId,
) -> Result<Vec<Incoming>, NoMemory>
    requires node { IsNode scenario.now node.0 }
    requires tables { AreTables (setting_of scenario.now) tables.now }
    ensures links { IfOk result (λ ins. AreIncoming (setting_of scenario.now) tables.now node.0 ins.items) }
    ensures stands { IfOk result (λ ins. (c : Counts) → IsLoading (setting_of scenario.now) c
        → StandAt (setting_of scenario.now) c tables.now node.0 0 0 ins.items) }
    ensures still { IfOk result (λ ins. (i : ℕ) (d : Incoming) → HasIn scenario.now node.0 i → (slice_index_or ins.items i d).gone ≡ 0) }
{
    let links = in_links(scenario, node);
    let mut ins = Vec::new(alloc);
    for i in 0..links.len() {
        let incoming = incoming_of(alloc, scenario, tables, node, links[i])?;
        ins.push(incoming)?;
    }
    Ok(ins)
}
