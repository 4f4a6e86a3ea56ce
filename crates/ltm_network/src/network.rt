//! The network.
ghost use Rattle.std.specs.Prelude.{◌≡◌, ◌≢◌, ℕ, ◌+◌, ◌<◌, ◌≤◌, List, [], ◌∷◌, ◌++◌, length, map, All, Contains, IsNone, ◌↔◌, take, OnOk, OnErr, IfOk, IfErr, IfSome, Ok, Err, None, vec_len, vec_capacity};
ghost use Rattle.ltm_units.specs.Bounds as bounds;

use crate::ends::Ends;
use crate::names::Names;
use crate::nodes::Nodes;
use ltm_units::{LinkId, Name, NoMemory, NodeId};
use std::alloc::{AllocError, Global};
use std::marker::Model;

/// The most links of a network that does not say how many it takes.
pub const DEFAULT_LINKS: u32 = 4_000;

/// The most links that leave a node, and the most that enter it.
const MOST_AT_NODE: usize = 4;

/// Why a network takes no link.
#[derive(Clone, Copy, Debug, PartialEq, Eq)]
pub enum NetworkFault {
    /// A link has that name.
    TwiceNamed,
    /// The link would lead from a node to itself.
    SelfLoop,
    /// There are as many links as the network takes.
    TooManyLinks,
    /// Four links leave the tail.
    TooManyOut,
    /// Four links enter the head.
    TooManyIn,
    /// Memory was not found.
    NoMemory,
}

impl From<NoMemory> for NetworkFault {
    ghost use Rattle.std.specs.Prelude.{◌≡◌};
    ghost use Rattle.ltm_network.specs.declared.network.NetworkFault.TheVariants.{NoMemory};

    ghost from_gives = { λ _ fault. fault ≡ NoMemory };

    fn from(_e: NoMemory) -> NetworkFault {
        NetworkFault::NoMemory
    }
}

/// Links and the nodes between them.
///
/// ```text
///              n2
///         a  ↗    ↘  b          a: n1 to n2,  b: n2 to n3,  c: n1 to n3
///          n1  →  n3            out_links(n1) = a c,  in_links(n3) = b c
///              c
/// ```
///
/// Links are numbered in order of adding, nodes in order of first being named, the tail before the head. Contracts
/// see the most links that it takes, the names of the nodes and, for each link, its name and the numbers of its ends.
pub struct Network {
    most_links: u32,
    nodes: Nodes,
    link_names: Names,
    ends: Vec<Ends>,
}

// By hand, so that letting go of a network is one call, and not its parts one by one wherever that may happen.
impl Drop for Network {
    fn drop(self) {
        let Network {
            most_links: _most_links,
            nodes: _nodes,
            link_names: _link_names,
            ends: _ends,
        } = self;
    }
}

impl Model for Network {
    ghost use Rattle.ltm_network.specs.Network.{NetworkData};

    ghost Value = { NetworkData };

    ghost use Rattle.ltm_network.specs.Tables.{network_of, AreTables};

    ghost view = { λ n. network_of n.most_links n.nodes.names n.link_names n.ends.items };

    ghost invariant = { λ n. AreTables n.most_links n.nodes n.link_names n.ends.items };
}

/// A clone is equal to its source; only memory can be wanting.
impl Clone for Network {
    ghost use Rattle.std.specs.Prelude.{◌≡◌};

    ghost is_clone = { λ network copy. copy ≡ network };

    fn clone(&self) -> Result<Network, AllocError> {
        Ok(Network {
            most_links: self.most_links,
            nodes: self.nodes.clone()?,
            link_names: self.link_names.clone()?,
            ends: self.ends.clone()?,
        })
    }
}

impl Network {
    ghost use Rattle.ltm_network.specs.Network.{empty_network, tail_of, head_of, link_name, link_names, node_name, out_links, in_links, find_link, find_node, out_degree, in_degree, checked, network_linked, with_link};
    ghost use Rattle.ltm_network.specs.Names.{same};
    ghost use Rattle.ltm_network.specs.IsNetwork.{IsNetwork};
    ghost use Rattle.std.specs.Option.{option_map};

    /// A network without links and nodes, which takes at most 4,000 links.
    pub fn new(alloc: Global) -> Network
        ensures { result ≡ empty_network bounds.default_links }
    {
        Network::of_most(alloc, DEFAULT_LINKS)
    }

    /// A network without links and nodes, which takes at most so many links.
    pub fn of_most(alloc: Global, most_links: u32) -> Network
        requires { most_links ≤ bounds.most_links }
        ensures { result ≡ empty_network most_links }
    {
        Network {
            most_links,
            nodes: Nodes::new(alloc),
            link_names: Names::new(alloc),
            ends: Vec::new(alloc),
        }
    }

    /// How many links there are.
    pub fn links(&self) -> u32
        ensures count { result ≡ length self.now.links }
        ensures network { IsNetwork self.now }
    {
        self.ends.len() as u32
    }

    /// How many nodes there are.
    pub fn nodes(&self) -> u32
        ensures count { result ≡ length self.now.nodes }
        ensures network { IsNetwork self.now }
    {
        self.nodes.len() as u32
    }

    /// The node that a link leads from.
    pub fn tail(&self, link: LinkId) -> NodeId
        requires { link.0 < length self.now.links }
        ensures tail { result.0 ≡ tail_of self.now link.0 }
        ensures there { result.0 < length self.now.nodes }
    {
        NodeId(self.ends[link.0 as usize].tail)
    }

    /// The node that a link leads to.
    pub fn head(&self, link: LinkId) -> NodeId
        requires { link.0 < length self.now.links }
        ensures head { result.0 ≡ head_of self.now link.0 }
        ensures there { result.0 < length self.now.nodes }
    {
        NodeId(self.ends[link.0 as usize].head)
    }

    /// The links that leave a node, in order of number.
    pub fn out_links(&self, node: NodeId) -> &[LinkId]
        requires { node.0 < length self.now.nodes }
        ensures links { map (λ link. link.0) result.now ≡ out_links self.now node.0 }
        ensures few { length result.now ≤ 4 }
        ensures there { All (λ link. link.0 < length self.now.links) result.now }
    {
        self.nodes.out_links(node.0)
    }

    /// The links that enter a node, in order of number.
    pub fn in_links(&self, node: NodeId) -> &[LinkId]
        requires { node.0 < length self.now.nodes }
        ensures links { map (λ link. link.0) result.now ≡ in_links self.now node.0 }
        ensures few { length result.now ≤ 4 }
        ensures there { All (λ link. link.0 < length self.now.links) result.now }
    {
        self.nodes.in_links(node.0)
    }

    /// The link of that name; none exactly where no link has it.
    pub fn find_link(&self, name: &Name) -> Option<LinkId>
        ensures place { option_map (λ link. link.0) result ≡ find_link self.now name.now }
        ensures absent { IsNone result ↔ (Contains (link_names self.now) name.now → ⊥) }
        ensures there { IfSome result (λ link. link.0 < length self.now.links) }
    {
        self.link_names.find(name).map(LinkId)
    }

    /// The node of that name; none exactly where no node has it.
    pub fn find_node(&self, name: &Name) -> Option<NodeId>
        ensures place { option_map (λ node. node.0) result ≡ find_node self.now name.now }
        ensures absent { IsNone result ↔ (Contains self.now.nodes name.now → ⊥) }
        ensures there { IfSome result (λ node. node.0 < length self.now.nodes) }
    {
        self.nodes.find(name).map(NodeId)
    }

    /// The name of a link.
    pub fn link_name(&self, link: LinkId) -> Name
        requires { link.0 < length self.now.links }
        ensures { result ≡ link_name self.now link.0 }
    {
        self.link_names.name(link.0)
    }

    /// The name of a node.
    pub fn node_name(&self, node: NodeId) -> Name
        requires { node.0 < length self.now.nodes }
        ensures { result ≡ node_name self.now node.0 }
    {
        self.nodes.name(node.0)
    }

    /// Adds a link of that name, and its ends where they are new. It refuses with the first fault in the order of
    /// `NetworkFault`; then, and without memory, the network stays as it was.
    #[tactic(auto, unfolding(crate::specs::Network::with_link))]
    pub fn add_link(&mut self, name: Name, tail: Name, head: Name) -> Result<LinkId, NetworkFault>
        ensures ok { OnOk result (with_link self.old name tail head ≡ Ok self.new) }
        ensures number { IfOk result (λ link. link.0 ≡ length self.old.links) }
        ensures err { OnErr result (self.new ≡ self.old) }
        ensures cause { IfErr result (λ fault. fault ≢ NetworkFault.NoMemory
            → with_link self.old name tail head ≡ Err fault) }
    {
        self.check_link(&name, &tail, &head)?;
        let link = self.join(name, &tail, &head)?;
        Ok(link)
    }

    /// Whether a link of that name may lead between these nodes: what `add_link` would refuse but for want of memory.
    #[tactic(auto, unfolding(crate::specs::Network::checked))]
    pub fn check_link(&self, name: &Name, tail: &Name, head: &Name) -> Result<(), NetworkFault>
        ensures { result ≡ checked self.now name.now tail.now head.now }
    {
        if self.find_link(name).is_some() {
            return Err(NetworkFault::TwiceNamed);
        }
        if *tail == *head {
            return Err(NetworkFault::SelfLoop);
        }
        if self.links() >= self.most_links {
            return Err(NetworkFault::TooManyLinks);
        }
        if self.out_degree(tail) >= MOST_AT_NODE {
            return Err(NetworkFault::TooManyOut);
        }
        if self.in_degree(head) >= MOST_AT_NODE {
            return Err(NetworkFault::TooManyIn);
        }
        Ok(())
    }

    /// How many links leave the node of that name.
    fn out_degree(&self, name: &Name) -> usize
        ensures { result ≡ out_degree self.now name.now }
    {
        match self.find_node(name) {
            Some(node) => self.out_links(node).len(),
            None => 0,
        }
    }

    /// How many links enter the node of that name.
    fn in_degree(&self, name: &Name) -> usize
        ensures { result ≡ in_degree self.now name.now }
    {
        match self.find_node(name) {
            Some(node) => self.in_links(node).len(),
            None => 0,
        }
    }

    /// Adds a link that was checked. What needs memory comes first, and is undone where a later part finds none.
    fn join(&mut self, name: Name, tail: &Name, head: &Name) -> Result<LinkId, NoMemory>
        requires { checked self.old name tail.now head.now ≡ Ok tt }
        ensures ok { OnOk result (self.new ≡ network_linked self.old name tail.now head.now) }
        ensures number { IfOk result (λ link. link.0 ≡ length self.old.links) }
        ensures err { OnErr result (self.new ≡ self.old) }
    {
        let link = LinkId(self.links());
        self.ends.reserve(1)?;
        self.link_names.push(name)?;
        match self.nodes.make_ends(tail, head) {
            Ok(ends) => {
                push_ends(&mut self.ends, ends);
                self.nodes.connect(link, ends);
                Ok(link)
            }
            Err(fault) => {
                self.link_names.truncate(link.0 as usize);
                Err(fault)
            }
        }
    }
}

/// Puts the ends last, where room is reserved.
fn push_ends(list: &mut Vec<Ends>, ends: Ends)
    requires { vec_len list.old < vec_capacity list.old }
    ensures { list.new.items ≡ list.old.items ++ ends ∷ [] }
{
    match list.push(ends) {
        Ok(()) => {}
        Err(_) => unreachable!(),
    }
}
