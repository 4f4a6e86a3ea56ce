//! The nodes of a network: their names, and which links leave and enter each.
ghost use Rattle.std.specs.Prelude.{◌≡◌, ℕ, ◌+◌, ◌<◌, ◌≤◌, List, [], ◌∷◌, ◌++◌, length, map, slice_get, slice_index_or, slice_set, take, Some, OnOk, OnErr, IfOk, vec_len, vec_capacity};
ghost use Rattle.ltm_network.specs.Names.{place_of, with_name, number_of};
ghost use Rattle.ltm_units.specs.Bounds.{most_nodes};

use crate::adjacent::Adjacent;
use crate::ends::Ends;
use crate::names::Names;
use ltm_units::{LinkId, Name, NoMemory};
use std::alloc::{AllocError, Global};
use std::marker::Model;

/// Three tables side by side, by the number of the node.
#[derive(Drop)]
pub struct Nodes {
    names: Names,
    outs: Vec<Adjacent>,
    ins: Vec<Adjacent>,
}

impl Model for Nodes {
    ghost use Rattle.ltm_network.specs.Nodes.{NodeTables};

    ghost Value = { NodeTables };

    ghost view = { λ n. record { names = n.names; outs = n.outs.items; ins = n.ins.items } };
}

impl Clone for Nodes {
    ghost use Rattle.std.specs.Prelude.{◌≡◌};

    ghost is_clone = { λ nodes copy. copy ≡ nodes };

    fn clone(&self) -> Result<Nodes, AllocError> {
        Ok(Nodes {
            names: self.names.clone()?,
            outs: self.outs.clone()?,
            ins: self.ins.clone()?,
        })
    }
}

impl Nodes {
    ghost use Rattle.ltm_network.specs.Nodes.{NodeTables, with_node, first_nodes, with_ends};

    pub fn new(alloc: Global) -> Nodes
        ensures { result ≡ record { names = []; outs = []; ins = [] } }
    {
        Nodes {
            names: Names::new(alloc),
            outs: Vec::new(alloc),
            ins: Vec::new(alloc),
        }
    }

    pub fn len(&self) -> usize
        ensures { result ≡ length self.now.names }
    {
        self.names.len()
    }

    pub fn name(&self, node: u32) -> Name
        requires { node < length self.now.names }
        ensures { slice_get self.now.names node ≡ Some result }
    {
        self.names.name(node)
    }

    pub fn find(&self, name: &Name) -> Option<u32>
        ensures { result ≡ place_of self.now.names name.now }
    {
        self.names.find(name)
    }

    pub fn out_links(&self, node: u32) -> &[LinkId]
        requires { node < length self.now.outs }
        ensures links { map (λ link. link.0) result.now ≡ slice_index_or self.now.outs node [] }
        ensures few { length result.now ≤ 4 }
    {
        self.outs[node as usize].links()
    }

    pub fn in_links(&self, node: u32) -> &[LinkId]
        requires { node < length self.now.ins }
        ensures links { map (λ link. link.0) result.now ≡ slice_index_or self.now.ins node [] }
        ensures few { length result.now ≤ 4 }
    {
        self.ins[node as usize].links()
    }

    /// The number of the node of that name, which is made where there is none.
    pub fn make(&mut self, name: &Name) -> Result<u32, NoMemory>
        requires { length self.old.names ≤ most_nodes + 1 }
        ensures ok { OnOk result (self.new ≡ with_node self.old name.now) }
        ensures number { IfOk result (λ node. node ≡ number_of self.old.names name.now) }
        ensures err { OnErr result (self.new ≡ self.old) }
    {
        if let Some(node) = self.names.find(name) {
            return Ok(node);
        }
        let node = self.names.len() as u32;
        self.outs.reserve(1)?;
        self.ins.reserve(1)?;
        self.names.push(*name)?;
        push_new(&mut self.outs);
        push_new(&mut self.ins);
        Ok(node)
    }

    /// The numbers of the two ends of a link, the tail before the head, which are made where there is none.
    pub fn make_ends(&mut self, tail: &Name, head: &Name) -> Result<Ends, NoMemory>
        requires few { length self.old.names ≤ most_nodes }
        requires outs { length self.old.outs ≡ length self.old.names }
        requires ins { length self.old.ins ≡ length self.old.names }
        ensures ok { OnOk result (self.new ≡ with_node (with_node self.old tail.now) head.now) }
        ensures tail { IfOk result (λ ends. ends.tail ≡ number_of self.old.names tail.now) }
        ensures head { IfOk result
            (λ ends. ends.head ≡ number_of (with_name self.old.names tail.now) head.now) }
        ensures err { OnErr result (self.new ≡ self.old) }
    {
        let count = self.names.len();
        let tail = self.make(tail)?;
        match self.make(head) {
            Ok(head) => Ok(Ends { tail, head }),
            Err(fault) => {
                self.truncate(count);
                Err(fault)
            }
        }
    }

    /// Keeps the first nodes, this many.
    fn truncate(&mut self, count: usize)
        ensures { self.new ≡ first_nodes count self.old }
    {
        self.names.truncate(count);
        self.outs.truncate(count);
        self.ins.truncate(count);
    }

    /// Puts a link last among those that leave its tail and among those that enter its head.
    pub fn connect(&mut self, link: LinkId, ends: Ends)
        requires tail { ends.tail < length self.old.outs }
        requires head { ends.head < length self.old.ins }
        requires out_room { length (slice_index_or self.old.outs ends.tail []) < 4 }
        requires in_room { length (slice_index_or self.old.ins ends.head []) < 4 }
        ensures { self.new ≡ with_ends self.old link.0 ends.tail ends.head }
    {
        push_link(&mut self.outs, ends.tail, link);
        push_link(&mut self.ins, ends.head, link);
    }
}

/// Puts a node without links last, where room is reserved.
fn push_new(list: &mut Vec<Adjacent>)
    requires { vec_len list.old < vec_capacity list.old }
    ensures { list.new.items ≡ list.old.items ++ [] ∷ [] }
{
    match list.push(Adjacent::new()) {
        Ok(()) => {}
        Err(_) => unreachable!(),
    }
}

/// Puts the link last among those of the node.
fn push_link(list: &mut Vec<Adjacent>, node: u32, link: LinkId)
    requires there { node < vec_len list.old }
    requires room { length (slice_index_or list.old.items node []) < 4 }
    ensures { list.new.items
        ≡ slice_set list.old.items node (slice_index_or list.old.items node [] ++ link.0 ∷ []) }
{
    let at = &mut list[node as usize];
    at.push(link);
}
