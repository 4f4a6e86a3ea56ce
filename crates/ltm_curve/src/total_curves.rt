//! A table of totals.
//!
//! It holds the total of each group at each boundary and no count by destination, so it is small. Totals are kept in 32 bits,
//! boundary by boundary; but those of the last group, which in a loading gathers what has arrived from everywhere, may need
//! more, and lie in a table of their own. The word `total_at` of `specs/TotalCurves.antt` says so, and here `place`
//! and what takes a whole boundary at once (`reserve`, `lengthen`, `copy_narrow`, `copy_changed_narrow`) rest on it.
ghost use Rattle.std.specs.Prelude.{◌≡◌, ℕ, ◌+◌, ◌*◌, ◌^◌, ◌<◌, ◌≤◌, length, replicate, slice_index, IfOk};
ghost use Rattle.std.specs.Vec.{vec_capacity};
ghost use Rattle.ltm_curve.specs.Table.{groups_of, slots_of, total_of};
ghost use Rattle.ltm_curve.specs.Totals.{most_total};

use crate::curves::{Curves, zero_counts};
use ltm_units::NoMemory;
use std::alloc::Global;

mod copying;
mod growing;
mod row_copies;

/// A total for each group and boundary, in thousandths of a vehicle: cumulative counts without destinations.
#[derive(Drop)]
pub struct TotalCurves {
    narrow: u32,
    slots: u32,
    room: u32,
    totals: Vec<u32>,
    last: Vec<u64>,
    ghost long: { length totals.items ≡ (slots + 1) * narrow },
    ghost last_long: { length last.items ≡ slots + 1 },
    ghost last_small: { (k : ℕ) → slice_index last.items k ≤ most_total },
    ghost within: { slots ≤ room },
    ghost totals_room: { (room + 1) * narrow ≤ vec_capacity totals },
    ghost last_room: { room + 1 ≤ vec_capacity last },
}

/// How many totals there are of so many groups.
fn table_size(groups: u32, slots: u32) -> usize
    ensures { result ≡ (slots + 1) * groups }
{
    (slots as usize + 1) * groups as usize
}

/// So many totals, all 0.
fn zero_totals(alloc: Global, many: usize) -> Result<Vec<u64>, NoMemory>
    ensures { IfOk result (λ totals. totals.items ≡ replicate many 0) }
{
    vec![in alloc; 0u64; many].map_err(|_| NoMemory)
}

/// A table of totals, all 0, in which so many groups are kept in 32 bits, and one more.
fn empty(alloc: Global, narrow: u32, slots: u32) -> Result<TotalCurves, NoMemory>
    ensures narrow { IfOk result (λ t. t.narrow ≡ narrow) }
    ensures slots { IfOk result (λ t. t.slots ≡ slots) }
    ensures none { IfOk result (λ t. (k : ℕ) → slice_index t.totals.items k ≡ 0) }
    ensures none_last { IfOk result (λ t. (k : ℕ) → slice_index t.last.items k ≡ 0) }
{
    let totals = zero_counts(alloc, table_size(narrow, slots))?;
    let last = zero_totals(alloc, slots as usize + 1)?;
    Ok(TotalCurves {
        narrow,
        slots,
        room: slots,
        totals,
        last,
    })
}

impl TotalCurves {
    ghost use Rattle.ltm_curve.specs.TotalCurves.{total_groups, total_slots, total_at, HasTotals, IsTotal, SetsTotal, AreNarrow, AreTotalsOf};

    /// The totals of curves, of which there is some group. But for the last group each is less than 2^32.
    pub fn of(alloc: Global, curves: &Curves) -> Result<TotalCurves, NoMemory>
        requires some_group { 1 ≤ groups_of curves.now }
        requires small { AreNarrow curves.now }
        ensures { IfOk result (λ t. AreTotalsOf t curves.now) }
    {
        let mut totals = empty(alloc, curves.groups() - 1, curves.slots())?;
        totals.copy_all(curves);
        Ok(totals)
    }

    /// So many groups and slots, of which there is some group; each total is 0.
    #[tactic(auto, unfolding(crate::specs::TotalCurves::total_at))]
    pub fn zeros(alloc: Global, groups: u32, slots: u32) -> Result<TotalCurves, NoMemory>
        requires some_group { 1 ≤ groups }
        ensures shape { IfOk result (λ t. HasTotals t groups slots) }
        ensures zeros { IfOk result (λ t. (g k : ℕ) → total_at t g k ≡ 0) }
    {
        empty(alloc, groups - 1, slots)
    }

    /// How many slots there are; there is one boundary more.
    pub fn slots(&self) -> u32
        ensures { result ≡ total_slots self.now }
    {
        self.slots
    }

    /// Where a total that is kept in 32 bits lies in its table.
    fn place(&self, group: u32, boundary: u32) -> usize
        requires group { group < self.now.narrow }
        requires boundary { boundary ≤ self.now.slots }
        ensures place { result ≡ boundary * self.now.narrow + group }
        ensures within { result < length self.now.totals.items }
    {
        let _totals = &self.totals;
        boundary as usize * self.narrow as usize + group as usize
    }

    /// The total of a group at a boundary.
    #[tactic(auto, unfolding(crate::specs::TotalCurves::total_at))]
    pub fn total(&self, group: u32, boundary: u32) -> u64
        requires group { group < total_groups self.now }
        requires boundary { boundary ≤ total_slots self.now }
        ensures total { result ≡ total_at self.now group boundary }
        ensures small { result ≤ most_total }
    {
        if group < self.narrow {
            let at = self.place(group, boundary);
            u64::from(self.totals[at])
        } else {
            self.last[boundary as usize]
        }
    }

    /// Changes a total, and no other. But for the last group each is less than 2^32.
    pub fn set(&mut self, group: u32, boundary: u32, total: u64)
        requires place { IsTotal self.old group boundary }
        requires small { total ≤ most_total }
        requires narrow { group < self.old.narrow → total < 2 ^ 32 }
        ensures { SetsTotal self.old self.new group boundary total }
    {
        if group < self.narrow {
            let at = self.place(group, boundary);
            self.totals[at] = total as u32;
        } else {
            self.last[boundary as usize] = total;
        }
    }
}
