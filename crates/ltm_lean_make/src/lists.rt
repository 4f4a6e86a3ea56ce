//! The lists of a link and of a node, as the calls here take them.
ghost use Rattle.std.specs.Prelude.{◌≡◌, ◌≤◌, length};
ghost use Rattle.ltm_setting.specs.Setting.{setting_of};
ghost use Rattle.ltm_setting.specs.Places.{IsLink, IsNode};
ghost use Rattle.ltm_units.specs.Bounds.{most_destinations};
ghost use Rattle.ltm_used.specs.Lists.{list_of};
ghost use Rattle.ltm_lean_node.specs.Places.{Rises};
ghost use Rattle.ltm_lean.specs.Nodes.{AreTables};

use ltm_lean::Tables;
use ltm_scenario::Scenario;
use ltm_setting::destination_count;
use ltm_units::{LinkId, NodeId};

/// The destinations that can be on a link, in order.
pub(crate) fn link_list<'a>(scenario: &Scenario, tables: &'a Tables, link: LinkId) -> &'a [u32]
    requires link { IsLink scenario.now link.0 }
    requires tables { AreTables (setting_of scenario.now) tables.now }
    ensures list { result.now ≡ list_of tables.now.links link.0 }
    ensures rise { Rises result.now }
    ensures few { length result.now ≤ most_destinations }
{
    let _destinations = destination_count(scenario);
    tables.links.on(link.0 as usize)
}

/// The destinations that can be at a node, in order.
pub(crate) fn node_list<'a>(scenario: &Scenario, tables: &'a Tables, node: NodeId) -> &'a [u32]
    requires node { IsNode scenario.now node.0 }
    requires tables { AreTables (setting_of scenario.now) tables.now }
    ensures list { result.now ≡ list_of tables.now.nodes node.0 }
    ensures rise { Rises result.now }
    ensures few { length result.now ≤ most_destinations }
{
    let _destinations = destination_count(scenario);
    tables.nodes.on(node.0 as usize)
}
