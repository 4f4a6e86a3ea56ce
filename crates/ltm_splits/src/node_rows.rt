//! The rows of one node: a list for each destination.
ghost use Rattle.std.specs.Prelude.{◌≡◌, ℕ, ◌+◌, ◌<◌, ◌≤◌, ◌^◌, [], None, IfOk, OnOk, OnErr, is_some, if◌then◌else◌, length, slice_index_or, slice_set, unwrap_or};
ghost use Rattle.std.specs.Option.{option_copied};
ghost use Rattle.std.specs.Map.{lookup, remove_entry};
ghost use Rattle.std.specs.BTreeMap.{insert_entry, is_at};
ghost use Rattle.std.specs.Ordering.{nat_cmp};
ghost use Rattle.ltm_splits.specs.Table.{rows_of_node};

use crate::pair_rows::PairRows;
use crate::weights::Weights;
use ltm_units::NoMemory;
use std::alloc::Global;
use std::marker::Model;
use std::mem;

/// By destination, up to the last that has had a row.
#[derive(Drop)]
pub struct NodeRows {
    pairs: Vec<PairRows>,
}

impl Model for NodeRows {
    ghost use Rattle.ltm_splits.specs.Table.{Entry};
    ghost use Rattle.std.specs.Prelude.{List};
    ghost use Rattle.std.specs.Prelude.{◌≤◌, ◌^◌, vec_len};

    ghost Value = { List (List Entry) };

    ghost view = { λ n. n.pairs.items };

    ghost invariant = { λ n. vec_len n.pairs ≤ 2 ^ 32 };
}

impl NodeRows {
    pub fn new(alloc: Global) -> NodeRows
        ensures { result ≡ [] }
    {
        NodeRows {
            pairs: Vec::new(alloc),
        }
    }

    /// The rows of the node and the destination.
    #[inline]
    pub fn pair(&self, destination: u32) -> Option<&PairRows>
        ensures { unwrap_or (option_copied result) [] ≡ slice_index_or self.now destination [] }
    {
        self.pairs.get(destination as usize)
    }

    /// The lists by destination.
    pub fn pairs(&self) -> &[PairRows]
        ensures lists { result.now ≡ self.now }
        ensures few { length self.now ≤ 2 ^ 32 }
    {
        &self.pairs
    }

    /// Makes room for rows of the destination. No row changes, whatever the result.
    pub fn make_room(&mut self, destination: u32) -> Result<(), NoMemory>
        ensures room { OnOk result (destination < length self.new) }
        ensures lists { (d : ℕ) → slice_index_or self.new d [] ≡ slice_index_or self.old d [] }
        ensures rows { (node : ℕ) → rows_of_node node self.new ≡ rows_of_node node self.old }
    {
        'room: while self.pairs.len() <= destination as usize {
            self.pairs.push(PairRows::new())?;
        }
        Ok(())
    }

    /// Gives the row with that first slot other weights, where there is one.
    pub fn replace(&mut self, destination: u32, from: u32, weights: Weights) -> bool
        ensures stood { result
            ≡ is_some (lookup (is_at (nat_cmp from)) (slice_index_or self.old destination [])) }
        ensures rows { self.new ≡ (if result
            then slice_set self.old destination
            (insert_entry nat_cmp (slice_index_or self.old destination []) from weights)
            else self.old) }
    {
        if destination as usize >= self.pairs.len() {
            return false;
        }
        self.pairs[destination as usize].replace(from, weights)
    }

    /// Adds a row with a first slot that no row of the destination has.
    pub fn insert(&mut self, destination: u32, from: u32, weights: Weights) -> Result<(), NoMemory>
        requires room { destination < length self.old }
        requires new { lookup (is_at (nat_cmp from)) (slice_index_or self.old destination [])
            ≡ None }
        ensures ok { OnOk result
            (self.new ≡ slice_set self.old destination
            (insert_entry nat_cmp (slice_index_or self.old destination []) from weights)) }
        ensures err { OnErr result (self.new ≡ self.old) }
    {
        let alloc = *self.pairs.allocator();
        self.pairs[destination as usize].insert(alloc, from, weights)
    }

    /// Takes out the row with that first slot, where there is one.
    pub fn remove(&mut self, destination: u32, from: u32) -> bool
        ensures stood { result
            ≡ is_some (lookup (is_at (nat_cmp from)) (slice_index_or self.old destination [])) }
        ensures rows { self.new
            ≡ slice_set self.old destination
            (remove_entry (is_at (nat_cmp from)) (slice_index_or self.old destination [])) }
    {
        if destination as usize >= self.pairs.len() {
            return false;
        }
        self.pairs[destination as usize].remove(from)
    }

    /// Puts other rows of the destination in place of those that it has, which come back.
    pub fn exchange(&mut self, destination: u32, rows: PairRows) -> PairRows
        requires room { destination < length self.old }
        ensures rows { self.new ≡ slice_set self.old destination rows }
        ensures was { result ≡ slice_index_or self.old destination [] }
    {
        mem::replace(&mut self.pairs[destination as usize], rows)
    }

    pub fn try_copy(&self) -> Result<NodeRows, NoMemory>
        ensures { IfOk result (λ copy. copy ≡ self.now) }
    {
        let mut pairs = Vec::new(*self.pairs.allocator());
        for pair in &self.pairs {
            pairs.push(pair.try_copy()?)?;
        }
        Ok(NodeRows { pairs })
    }
}
