//! The rows of one node and one destination.
ghost use Rattle.std.specs.Prelude.{◌≡◌, ℕ, [], ◌∷◌, ◌++◌, length, Some, None, IfOk, IfErr, IfSome, OnOk, OnErr, IsSome, is_some, if◌then◌else◌, slice_get, sum, ◌<◌, ◌≤◌, ◌-◌, ◌^◌};
ghost use Rattle.std.specs.Option.{option_map, option_copied};
ghost use Rattle.std.specs.Map.{lookup, remove_entry};
ghost use Rattle.std.specs.BTreeMap.{insert_entry, is_at};
ghost use Rattle.std.specs.Ordering.{nat_cmp};
ghost use Rattle.ltm_splits.specs.Entries.{start_at, IsRising, IsAt, IsGap, IsCount, entry_in_force};
ghost use Rattle.ltm_splits.specs.Weights.{AreWeights};

use crate::row_list::RowList;
use crate::weights::Weights;
use ltm_units::NoMemory;
use std::alloc::Global;
use std::marker::Model;

/// The rows of a node and a destination: first slots that rise, each with the weights from then on, mostly one. Contracts
/// see them as the list of both.
pub struct PairRows {
    rows: RowList,
}

// By hand, so that letting go of them is one call.
impl Drop for PairRows {
    fn drop(self) {
        let PairRows { rows: _rows } = self;
    }
}

impl Model for PairRows {
    ghost use Rattle.ltm_splits.specs.Table.{Entry};
    ghost use Rattle.ltm_splits.specs.Entries.{IsRising};
    ghost use Rattle.ltm_splits.specs.RowLists.{entries_of};
    ghost use Rattle.std.specs.Prelude.{List};

    ghost Value = { List Entry };

    ghost view = { λ p. entries_of p.rows };

    ghost invariant = { λ p. IsRising (entries_of p.rows) };
}

impl PairRows {
    /// No row. It takes no memory.
    pub fn new() -> PairRows
        ensures { result ≡ [] }
    {
        PairRows {
            rows: RowList::Empty,
        }
    }

    /// Adds a row behind all others.
    pub fn push(&mut self, alloc: Global, from: u32, weights: Weights) -> Result<(), NoMemory>
        requires { (i : ℕ) → i < length self.old → start_at self.old i < from }
        ensures ok { OnOk result (self.new ≡ self.old ++ (from, weights) ∷ []) }
        ensures err { OnErr result (self.new ≡ self.old) }
    {
        let end = self.rows.as_slice().len();
        Ok(self.rows.insert(alloc, end, (from, weights))?)
    }

    /// The weights of the last row that begins at or before the slot.
    #[inline]
    pub(crate) fn at(&self, slot: u32) -> Option<&Weights>
        ensures { option_copied result ≡ entry_in_force self.now slot }
    {
        match &self.rows {
            RowList::Empty => None,
            RowList::One(row) => {
                if row[0].0 > slot {
                    return None;
                }
                Some(&row[0].1)
            }
            RowList::More(_) => self.last_begun(slot),
        }
    }

    // The same of however many rows.
    #[inline(never)]
    fn last_begun(&self, slot: u32) -> Option<&Weights>
        ensures { option_copied result ≡ entry_in_force self.now slot }
    {
        let count = self.count_begun(slot);
        if count == 0 {
            return None;
        }
        let last = count - 1;
        Some(&self.rows.as_slice()[last].1)
    }

    /// The slot until which the row in force at a slot stays in force: the first slot of the next row, or the greatest number
    /// where no row follows.
    pub(crate) fn stays_until(&self, slot: u32) -> u32
        ensures stays { (u : ℕ) → slot ≤ u → u < result → entry_in_force self.now u ≡ entry_in_force self.now slot }
        ensures later { slot < 2 ^ 32 - 1 → slot < result }
    {
        let count = self.count_begun(slot);
        match self.rows.as_slice().get(count) {
            Some(row) => row.0,
            None => u32::MAX,
        }
    }

    /// The first slot of the first row.
    pub(crate) fn begins(&self) -> Option<u32>
        ensures { result ≡ option_map (λ e. e.0) (slice_get self.now 0) }
    {
        self.rows.as_slice().first().map(|row| row.0)
    }

    /// The weights of the row with exactly that first slot.
    pub(crate) fn get(&self, from: u32) -> Option<&[u32]>
        ensures weights { option_copied result ≡ lookup (is_at (nat_cmp from)) self.now }
        ensures some { IfSome result (λ weights. AreWeights weights.now) }
    {
        match self.search(from) {
            Ok(place) => Some(self.rows.as_slice()[place].1.as_slice()),
            Err(_) => None,
        }
    }

    /// The rows in order of first slot.
    pub fn rows(&self) -> &[(u32, Weights)]
        ensures rows { result.now ≡ self.now }
        ensures rising { IsRising self.now }
    {
        self.rows.as_slice()
    }

    /// Gives the row with that first slot other weights, where there is one.
    pub(crate) fn replace(&mut self, from: u32, weights: Weights) -> bool
        ensures stood { result ≡ is_some (lookup (is_at (nat_cmp from)) self.old) }
        ensures rows { self.new
            ≡ (if result then insert_entry nat_cmp self.old from weights else self.old) }
    {
        match self.search(from) {
            Ok(place) => {
                self.rows.replace(place, (from, weights));
                true
            }
            Err(_) => false,
        }
    }

    /// Adds a row with a first slot that no row has.
    pub(crate) fn insert(
        &mut self,
        alloc: Global,
        from: u32,
        weights: Weights,
    ) -> Result<(), NoMemory>
        requires { lookup (is_at (nat_cmp from)) self.old ≡ None }
        ensures ok { OnOk result (self.new ≡ insert_entry nat_cmp self.old from weights) }
        ensures err { OnErr result (self.new ≡ self.old) }
    {
        match self.search(from) {
            Ok(_) => unreachable!(),
            Err(place) => Ok(self.rows.insert(alloc, place, (from, weights))?),
        }
    }

    /// Takes out the row with that first slot, where there is one.
    pub(crate) fn remove(&mut self, from: u32) -> bool
        ensures stood { result ≡ is_some (lookup (is_at (nat_cmp from)) self.old) }
        ensures rows { self.new ≡ remove_entry (is_at (nat_cmp from)) self.old }
    {
        match self.search(from) {
            Ok(place) => {
                self.rows.remove(place);
                true
            }
            Err(_) => false,
        }
    }

    pub(crate) fn try_copy(&self) -> Result<PairRows, NoMemory>
        ensures { IfOk result (λ copy. copy ≡ self.now) }
    {
        Ok(PairRows {
            rows: self.rows.try_copy()?,
        })
    }

    // Where the row with that first slot is, or where it would go.
    fn search(&self, from: u32) -> Result<usize, usize>
        ensures found { IfOk result (IsAt self.now from) }
        ensures gap { IfErr result (IsGap self.now from) }
        ensures rising { IsRising self.now }
    {
        self.rows
            .as_slice()
            .binary_search_by_key(&from, |row| row.0)
    }

    // How many rows begin at or before the slot.
    fn count_begun(&self, slot: u32) -> usize
        ensures { IsCount self.now slot result }
    {
        self.rows.as_slice().partition_point(|row| row.0 <= slot)
    }
}
