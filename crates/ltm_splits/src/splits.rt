//! The table of split rows.
ghost use Rattle.std.specs.Prelude.{◌≡◌, ◌≢◌, ◌≤◌, ◌<◌, [], Ok, Err, Some, None, IsTrue, IsSome, IsNone, IfSome, IfOk, IfErr, OnOk, OnErr, is_some, if◌then◌else◌, length};
ghost use Rattle.std.specs.Option.{option_copied};
ghost use Rattle.ltm_splits.specs.Weights.{AreWeights};
ghost use Rattle.ltm_units.specs.Bounds as bounds;
ghost use Rattle.ltm_units.specs.Bounds.{most_slots};

mod staying;
mod whole;

use crate::keys::{SplitFault, SplitKey};
use crate::node_table::NodeTable;
use crate::rows::Rows;
use crate::weights::Weights;
use ltm_units::{NoMemory, NodeId};
use std::alloc::Global;
use std::marker::Model;

/// The most rows of a table that is not told how many it takes.
pub const DEFAULT_SPLIT_ROWS: u32 = 50_000;

/// Split rows: from its first slot on, a row spreads the traffic of a node for a destination over the node's out-links,
/// until a later row of the same node and destination takes its place.
///
/// Rows lie by node number and destination, so what a loading asks is found without a search but among the rows of one
/// pair, mostly one.
pub struct Splits {
    slots: u32,
    most_rows: u32,
    count: usize,
    table: NodeTable,
}

// By hand, so that letting go of splits is one call, and not its parts one by one wherever that may happen.
impl Drop for Splits {
    fn drop(self) {
        let Splits {
            slots: _slots,
            most_rows: _most_rows,
            count: _count,
            table: _table,
        } = self;
    }
}

impl Model for Splits {
    ghost use Rattle.std.specs.Prelude.{◌≡◌, ◌≤◌, length};
    ghost use Rattle.ltm_splits.specs.Rows.{SplitsData, IsOrdered, HaveWeights};
    ghost use Rattle.ltm_splits.specs.Table.{rows_of_all};

    ghost Value = { SplitsData };

    ghost view = { λ s. record { slots = s.slots; most_rows = s.most_rows; rows = rows_of_all s.table } };

    ghost invariant = { λ s. IsOrdered (rows_of_all s.table) × (s.count ≡ length (rows_of_all s.table)) × HaveWeights (rows_of_all s.table) × (length (rows_of_all s.table) ≤ s.most_rows) };
}

impl Splits {
    ghost use Rattle.ltm_splits.specs.Rows.{IsOrdered, HaveWeights, key_of, with_rows, with_slots, with_row, row_of, put_in, taken_out, put_back, row_in_force, begins};

    /// A table without rows, for that many slots, and at most 50,000 rows. It takes no memory.
    pub fn new(alloc: Global, slots: u32) -> Splits
        ensures slots { result.slots ≡ slots }
        ensures most { result.most_rows ≡ bounds.default_split_rows }
        ensures rows { result.rows ≡ [] }
    {
        Splits::of_most(alloc, slots, DEFAULT_SPLIT_ROWS)
    }

    /// A table without rows, for that many slots, and at most so many rows. It takes no memory.
    pub fn of_most(alloc: Global, slots: u32, most_rows: u32) -> Splits
        ensures slots { result.slots ≡ slots }
        ensures most { result.most_rows ≡ most_rows }
        ensures rows { result.rows ≡ [] }
    {
        Splits {
            slots,
            most_rows,
            count: 0,
            table: NodeTable::new(alloc),
        }
    }

    /// The horizon: rows begin in slots below it.
    pub fn slots(&self) -> u32
        ensures { result ≡ self.now.slots }
    {
        self.slots
    }

    /// How many rows there are.
    pub fn row_count(&self) -> usize
        ensures count { result ≡ length self.now.rows }
        ensures ordered { IsOrdered self.now.rows }
        ensures weights { HaveWeights self.now.rows }
    {
        self.count
    }

    /// Sets the row that begins at the slot `from`: one weight per out-link in order of link number, in place of the row
    /// with the same node, destination and first slot if there is one.
    ///
    /// Where such a row stands already no memory is needed.
    pub fn set(
        &mut self,
        node: NodeId,
        destination: u32,
        from: u32,
        weights: &[u32],
    ) -> Result<(), SplitFault>
        requires { length weights.now ≤ 4 }
        ensures ok { OnOk result (with_row self.old (key_of node.0 destination from) weights.now
            ≡ Ok self.new) }
        ensures err { OnErr result (self.new ≡ self.old) }
        ensures cause { IfErr result (λ e. e ≢ SplitFault.NoMemory
            → with_row self.old (key_of node.0 destination from) weights.now ≡ Err e) }
        ensures slots { self.new.slots ≡ self.old.slots }
        ensures have_weights { HaveWeights self.new.rows }
        ensures no_memory { result ≡ Err SplitFault.NoMemory
            → row_of self.old.rows (key_of node.0 destination from) ≡ None }

        // The row stands, and putting back what stood there before gives back the very rows.
        ensures stands { OnOk result (row_of self.new.rows (key_of node.0 destination from)
            ≡ Some weights.now) }
        ensures back { OnOk result
            (put_back self.new.rows (key_of node.0 destination from)
            (row_of self.old.rows (key_of node.0 destination from)) ≡ self.old.rows) }
    {
        if from >= self.slots {
            return Err(SplitFault::BadSlots);
        }
        let Some(weights) = Weights::of(weights) else {
            return Err(SplitFault::ZeroWeight);
        };
        let key = SplitKey {
            node,
            destination,
            from,
        };
        if self.replace(key, weights) {
            return Ok(());
        }
        if self.count >= self.most_rows as usize {
            return Err(SplitFault::TooManyRows);
        }
        match self.add(key, weights) {
            Ok(()) => return Ok(()),
            Err(_) => return Err(SplitFault::NoMemory),
        }
    }

    /// The weights in force at the slot, as they lie in the table: those of the row with the greatest first slot at or
    /// before it.
    #[inline]
    pub fn weights_at(&self, node: NodeId, destination: u32, slot: u32) -> Option<&Weights>
        ensures { option_copied result ≡ row_in_force self.now.rows node.0 destination slot }
    {
        match self.table.pair(node, destination) {
            Some(pair) => pair.at(slot),
            None => None,
        }
    }

    /// The weights in force at the slot as a slice.
    #[inline]
    pub fn row_at(&self, node: NodeId, destination: u32, slot: u32) -> Option<&[u32]>
        ensures weights { option_copied result
            ≡ row_in_force self.now.rows node.0 destination slot }
        ensures some { IfSome result (λ weights. AreWeights weights.now) }
    {
        match self.weights_at(node, destination, slot) {
            Some(weights) => Some(weights.as_slice()),
            None => None,
        }
    }

    /// The least first slot.
    pub fn begins(&self, node: NodeId, destination: u32) -> Option<u32>
        ensures { result ≡ begins self.now.rows node.0 destination }
    {
        match self.table.pair(node, destination) {
            Some(pair) => pair.begins(),
            None => None,
        }
    }

    /// The weights of the row with exactly that key.
    pub fn row(&self, node: NodeId, destination: u32, from: u32) -> Option<&[u32]>
        ensures weights { option_copied result
            ≡ row_of self.now.rows (key_of node.0 destination from) }
        ensures some { IfSome result (λ weights. AreWeights weights.now) }
    {
        match self.table.pair(node, destination) {
            Some(pair) => pair.get(from),
            None => None,
        }
    }

    /// The keys and weights of all rows in the order of the keys.
    pub fn rows(&self) -> Rows<'_>
        ensures rows { result ≡ self.now.rows }
        ensures ordered { IsOrdered self.now.rows }
        ensures weights { HaveWeights self.now.rows }
    {
        Rows::of(self.table.nodes())
    }

    /// Raises the horizon. No row changes, and no memory is taken.
    pub fn lengthen(&mut self, slots: u32)
        requires longer { self.old.slots ≤ slots }
        requires most { slots ≤ most_slots }
        ensures { self.new ≡ with_slots self.old slots }
    {
        self.slots = slots;
    }

    /// Lowers the horizon, as to undo a `lengthen`. No row changes, and no memory is taken.
    pub fn shorten(&mut self, fewer: u32)
        requires { fewer ≤ self.old.slots }
        ensures { self.new ≡ with_slots self.old fewer }
    {
        self.slots = fewer;
    }

    /// Gives a row that stands other weights, as to undo a `set`. No memory is taken.
    pub fn put_back(&mut self, node: NodeId, destination: u32, from: u32, weights: &[u32])
        requires stands { IsSome (row_of self.old.rows (key_of node.0 destination from)) }
        requires weights { AreWeights weights.now }
        ensures rows { self.new
            ≡ with_rows self.old (put_in self.old.rows
            (key_of node.0 destination from) weights.now) }
        ensures have_weights { HaveWeights self.new.rows }
    {
        let key = SplitKey {
            node,
            destination,
            from,
        };
        let Some(weights) = Weights::of(weights) else {
            unreachable!();
        };
        let _stood = self.replace(key, weights);
    }

    /// Takes out the row with that key, as to undo a `set`, and leaves all others. No memory is taken.
    pub fn take_out(&mut self, node: NodeId, destination: u32, from: u32)
        ensures rows { self.new
            ≡ with_rows self.old (taken_out self.old.rows (key_of node.0 destination from)) }
        ensures have_weights { HaveWeights self.new.rows }
    {
        let key = SplitKey {
            node,
            destination,
            from,
        };
        if self.table.remove(key) {
            self.count -= 1;
        }
    }

    /// An equal table, on the same allocator.
    pub fn try_copy(&self) -> Result<Splits, NoMemory>
        ensures { IfOk result (λ copy. copy ≡ self.now) }
    {
        Ok(Splits {
            slots: self.slots,
            most_rows: self.most_rows,
            count: self.count,
            table: self.table.try_copy()?,
        })
    }

    // Gives the row with that key other weights, where there is one.
    fn replace(&mut self, key: SplitKey, weights: Weights) -> bool
        requires { AreWeights weights }
        ensures stood { result ≡ is_some (row_of self.old.rows key) }
        ensures rows { self.new
            ≡ (if result then with_rows self.old (put_in self.old.rows key weights) else self.old) }
        ensures have_weights { HaveWeights self.new.rows }
        ensures stands { IsTrue result → row_of self.new.rows key ≡ Some weights }
        ensures back { IsTrue result
            → put_back self.new.rows key (row_of self.old.rows key) ≡ self.old.rows }
    {
        self.table.replace(key, weights)
    }

    // Adds a row with a key that no row has.
    fn add(&mut self, key: SplitKey, weights: Weights) -> Result<(), NoMemory>
        requires new { row_of self.old.rows key ≡ None }
        requires few { length self.old.rows < self.old.most_rows }
        requires weights { AreWeights weights }
        ensures ok { OnOk result (self.new
            ≡ with_rows self.old (put_in self.old.rows key weights)) }
        ensures err { OnErr result (self.new ≡ self.old) }
        ensures have_weights { HaveWeights self.new.rows }
        ensures stands { OnOk result (row_of self.new.rows key ≡ Some weights) }
        ensures back { OnOk result (put_back self.new.rows key (row_of self.old.rows key)
            ≡ self.old.rows) }
    {
        self.table.make_room(key.node, key.destination)?;
        self.table.insert(key, weights)?;
        self.count += 1;
        Ok(())
    }
}
