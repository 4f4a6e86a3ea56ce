//! Where the counts of a network stand in the curves of its loadings.
ghost use Rattle.std.specs.Prelude.{◌≡◌, ◌+◌, ◌*◌, ◌<◌, ◌≤◌, ◌^◌};
ghost use Rattle.ltm_loading.specs.Groups.{up_of, down_of};

use ltm_units::{LinkId, NodeId};

/// The group of what has entered a link.
#[inline]
pub fn up_of(link: LinkId) -> u32
    requires { link.0 < 2 ^ 31 }
    ensures { result ≡ up_of link.0 }
{
    2 * link.0
}

/// The group of what has left a link.
#[inline]
pub fn down_of(link: LinkId) -> u32
    requires { link.0 < 2 ^ 31 }
    ensures { result ≡ down_of link.0 }
{
    2 * link.0 + 1
}

/// The group of what has left the origin of a node: behind those of so many links, node after node.
#[inline]
pub fn dep_behind(links: u32, node: NodeId) -> u32
    requires links { links < 2 ^ 30 }
    requires node { node.0 < 2 ^ 31 }
    ensures { result ≡ 2 * links + node.0 }
{
    2 * links + node.0
}

/// The group of what has arrived: behind those of so many links and nodes.
#[inline]
pub fn arr_behind(links: u32, nodes: u32) -> u32
    requires links { links < 2 ^ 30 }
    requires nodes { nodes < 2 ^ 31 }
    ensures { result ≡ 2 * links + nodes }
{
    2 * links + nodes
}
