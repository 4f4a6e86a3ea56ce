//! The short list of a pair's rows: a single row lies where the list itself lies, and only more of them lie apart.
ghost use Rattle.std.specs.Prelude.{◌≡◌, ◌<◌, ◌≤◌, IfOk, OnOk, OnErr, List, [], ◌∷◌, length, slice_set};
ghost use Rattle.std.specs.List.{insert, remove};
ghost use Rattle.ltm_splits.specs.RowLists.{entries_of};

use crate::weights::Weights;
use ltm_units::NoMemory;
use std::alloc::Global;

/// First slots, each with the weights from then on.
#[derive(Drop)]
pub enum RowList {
    Empty,
    One([(u32, Weights); 1]),
    More(Vec<(u32, Weights)>),
}

impl RowList {
    #[inline]
    pub fn as_slice(&self) -> &[(u32, Weights)]
        ensures { result.now ≡ entries_of self.now }
    {
        match self {
            RowList::Empty => &[],
            RowList::One(row) => row,
            RowList::More(rows) => rows,
        }
    }

    /// Puts a row at a place before the rows from there on.
    pub fn insert(
        &mut self,
        alloc: Global,
        place: usize,
        row: (u32, Weights),
    ) -> Result<(), NoMemory>
        requires { place ≤ length (entries_of self.old) }
        ensures ok { OnOk result (entries_of self.new ≡ insert (entries_of self.old) place row) }
        ensures err { OnErr result (entries_of self.new ≡ entries_of self.old) }
    {
        match self {
            RowList::Empty => {
                *self = RowList::One([row]);
                Ok(())
            }
            RowList::One(only) => {
                let rows = two_rows(alloc, only[0], place, row)?;
                *self = RowList::More(rows);
                Ok(())
            }
            RowList::More(rows) => Ok(rows.insert(place, row)?),
        }
    }

    /// Writes over the row at a place.
    pub fn replace(&mut self, place: usize, row: (u32, Weights))
        requires { place < length (entries_of self.old) }
        ensures { entries_of self.new ≡ slice_set (entries_of self.old) place row }
    {
        match self {
            RowList::Empty => unreachable!(),
            RowList::One(only) => only[0] = row,
            RowList::More(rows) => rows[place] = row,
        }
    }

    /// Takes out the row at a place.
    pub fn remove(&mut self, place: usize)
        requires { place < length (entries_of self.old) }
        ensures { entries_of self.new ≡ remove (entries_of self.old) place }
    {
        match self {
            RowList::Empty => unreachable!(),
            RowList::One(only) => {
                let _only = only[0];
                *self = RowList::Empty;
            }
            RowList::More(rows) => {
                rows.remove(place);
            }
        }
    }

    pub fn try_copy(&self) -> Result<RowList, NoMemory>
        ensures { IfOk result (λ copy. entries_of copy ≡ entries_of self.now) }
    {
        match self {
            RowList::Empty => Ok(RowList::Empty),
            RowList::One(row) => Ok(RowList::One([row[0]])),
            RowList::More(rows) => {
                let rows = Vec::from_slice(*rows.allocator(), rows)?;
                Ok(RowList::More(rows))
            }
        }
    }
}

/// A row, and another before or behind it.
fn two_rows(
    alloc: Global,
    only: (u32, Weights),
    place: usize,
    row: (u32, Weights),
) -> Result<Vec<(u32, Weights)>, NoMemory>
    requires { place ≤ 1 }
    ensures { IfOk result (λ rows. rows.items ≡ insert (only ∷ []) place row) }
{
    let mut rows = Vec::with_capacity(alloc, 2)?;
    rows.push(only)?;
    rows.insert(place, row)?;
    Ok(rows)
}
