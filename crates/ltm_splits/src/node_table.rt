//! The rows of all nodes, found by node number and destination.
ghost use Rattle.std.specs.Prelude.{◌≡◌, ℕ, ◌+◌, ◌<◌, ◌≤◌, ◌^◌, [], None, IfOk, OnOk, OnErr, is_some, if◌then◌else◌, length, slice_index_or, unwrap_or, vec_len};
ghost use Rattle.std.specs.Option.{option_copied};
ghost use Rattle.std.specs.Map.{lookup, remove_entry};
ghost use Rattle.std.specs.BTreeMap.{insert_entry, is_at};
ghost use Rattle.std.specs.Ordering.{nat_cmp};
ghost use Rattle.ltm_splits.specs.Table.{rows_of_all, entries_at, with_entries};

use crate::keys::SplitKey;
use crate::node_rows::NodeRows;
use crate::pair_rows::PairRows;
use crate::weights::Weights;
use ltm_units::{NoMemory, NodeId};
use std::alloc::Global;
use std::marker::Model;

/// By node number, up to the last that has had a row.
#[derive(Drop)]
pub struct NodeTable {
    nodes: Vec<NodeRows>,
}

impl Model for NodeTable {
    ghost use Rattle.ltm_splits.specs.Table.{Entry};
    ghost use Rattle.std.specs.Prelude.{List, ◌≤◌, ◌^◌, vec_len};

    ghost Value = { List (List (List Entry)) };

    ghost view = { λ t. t.nodes.items };

    ghost invariant = { λ t. vec_len t.nodes ≤ 2 ^ 32 };
}

impl NodeTable {
    pub fn new(alloc: Global) -> NodeTable
        ensures { result ≡ [] }
    {
        NodeTable {
            nodes: Vec::new(alloc),
        }
    }

    /// The rows of the node and the destination.
    #[inline]
    pub fn pair(&self, node: NodeId, destination: u32) -> Option<&PairRows>
        ensures { unwrap_or (option_copied result) [] ≡ entries_at self.now node.0 destination }
    {
        match self.nodes.get(node.0 as usize) {
            Some(rows) => rows.pair(destination),
            None => None,
        }
    }

    /// The lists by node number.
    pub fn nodes(&self) -> &[NodeRows]
        ensures lists { result.now ≡ self.now }
        ensures few { length self.now ≤ 2 ^ 32 }
    {
        &self.nodes
    }

    /// Makes room for rows of the node and the destination. No row changes, whatever the result.
    pub fn make_room(&mut self, node: NodeId, destination: u32) -> Result<(), NoMemory>
        ensures node { OnOk result (node.0 < length self.new) }
        ensures destination { OnOk result
            (destination < length (slice_index_or self.new node.0 [])) }
        ensures lists { (n : ℕ) → (d : ℕ) → entries_at self.new n d ≡ entries_at self.old n d }
        ensures rows { rows_of_all self.new ≡ rows_of_all self.old }
    {
        make_node(&mut self.nodes, node)?;
        self.nodes[node.0 as usize].make_room(destination)
    }

    /// Gives the row with that key other weights, where there is one.
    pub fn replace(&mut self, key: SplitKey, weights: Weights) -> bool
        ensures stood { result
            ≡ is_some (lookup (is_at (nat_cmp key.from))
            (entries_at self.old key.node.0 key.destination)) }
        ensures rows { self.new ≡ (if result
            then with_entries self.old key.node.0 key.destination
            (insert_entry nat_cmp (entries_at self.old key.node.0 key.destination) key.from weights)
            else self.old) }
    {
        if key.node.0 as usize >= self.nodes.len() {
            return false;
        }
        self.nodes[key.node.0 as usize].replace(key.destination, key.from, weights)
    }

    /// Adds a row with a key that no row has.
    pub fn insert(&mut self, key: SplitKey, weights: Weights) -> Result<(), NoMemory>
        requires node { key.node.0 < length self.old }
        requires destination { key.destination < length (slice_index_or self.old key.node.0 []) }
        requires new { lookup (is_at (nat_cmp key.from))
            (entries_at self.old key.node.0 key.destination) ≡ None }
        ensures ok { OnOk result (self.new ≡ with_entries self.old key.node.0 key.destination
            (insert_entry nat_cmp (entries_at self.old key.node.0 key.destination) key.from weights)) }
        ensures err { OnErr result (self.new ≡ self.old) }
    {
        self.nodes[key.node.0 as usize].insert(key.destination, key.from, weights)
    }

    /// Takes out the row with that key, where there is one.
    pub fn remove(&mut self, key: SplitKey) -> bool
        ensures stood { result
            ≡ is_some (lookup (is_at (nat_cmp key.from))
            (entries_at self.old key.node.0 key.destination)) }
        ensures rows { self.new ≡ with_entries self.old key.node.0 key.destination
            (remove_entry (is_at (nat_cmp key.from))
            (entries_at self.old key.node.0 key.destination)) }
    {
        if key.node.0 as usize >= self.nodes.len() {
            return false;
        }
        self.nodes[key.node.0 as usize].remove(key.destination, key.from)
    }

    /// Puts other rows of the node and the destination in place of those that stand, which come back.
    pub fn exchange(&mut self, node: NodeId, destination: u32, rows: PairRows) -> PairRows
        requires node { node.0 < length self.old }
        requires destination { destination < length (slice_index_or self.old node.0 []) }
        ensures rows { self.new ≡ with_entries self.old node.0 destination rows }
        ensures was { result ≡ entries_at self.old node.0 destination }
    {
        self.nodes[node.0 as usize].exchange(destination, rows)
    }

    pub fn try_copy(&self) -> Result<NodeTable, NoMemory>
        ensures { IfOk result (λ copy. copy ≡ self.now) }
    {
        let mut nodes = Vec::new(*self.nodes.allocator());
        for node in &self.nodes {
            nodes.push(node.try_copy()?)?;
        }
        Ok(NodeTable { nodes })
    }
}

fn make_node(nodes: &mut Vec<NodeRows>, node: NodeId) -> Result<(), NoMemory>
    requires { vec_len nodes.old ≤ 2 ^ 32 }
    ensures node { OnOk result (node.0 < length nodes.new.items) }
    ensures lists { (n : ℕ)
        → slice_index_or nodes.new.items n [] ≡ slice_index_or nodes.old.items n [] }
    ensures rows { rows_of_all nodes.new.items ≡ rows_of_all nodes.old.items }
    ensures few { vec_len nodes.new ≤ 2 ^ 32 }
{
    let alloc = *nodes.allocator();
    'room: while nodes.len() <= node.0 as usize {
        nodes.push(NodeRows::new(alloc))?;
    }
    Ok(())
}
