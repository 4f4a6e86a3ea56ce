//! A table of cumulative counts.
//!
//! All counts of one boundary lie side by side, group after group, so that a loading walks through memory in order and
//! further boundaries can be added at the end. The words `counts_of` and `place` of `specs/Table.antt` say so, and here
//! `place`, `row_number`, `start` and what takes a whole boundary at once (`carry`, `reserve`, `lengthen`, `totals_at`)
//! rest on it; no contract does. A count is kept in 32 bits, since twice as many then lie in a cache. With three
//! destinations or more the totals of the groups lie in a dense table of their own, in the same order, so that looking back
//! at totals reads few numbers; with one the count is the total, and with two it is their sum. Totals are kept in 32 bits,
//! capped at the greatest such number; who reads that one sums the row instead, so each total is exact. In a loading only
//! what has arrived can come to so much.
ghost use Rattle.std.specs.Prelude.{◌≡◌, ℕ, ◌+◌, ◌*◌, ◌^◌, ◌<◌, ◌≤◌, length, sum, replicate, slice_index, IfOk};
ghost use Rattle.std.specs.Vec.{vec_capacity};
ghost use Rattle.ltm_units.specs.Bounds.{most_destinations};
ghost use Rattle.ltm_curve.specs.Totals.{capped, most_total, AreCappedTotals};

use ltm_units::{NoMemory, sum_of};
use std::alloc::Global;

mod adding;
mod copies;
mod moving;
mod room;
mod row_totals;
mod totals;

pub(crate) use room::{fill_to, reserve_to};
pub(crate) use row_totals::TotalRow;

/// Groups of rows of counts: a count, in thousandths of a vehicle, for each group, destination and boundary.
#[derive(Drop)]
pub struct Curves {
    groups: u32,
    destinations: u32,
    slots: u32,
    room: u32,
    counts: Vec<u32>,
    totals: Vec<u32>,
    ghost long: { length counts.items ≡ (slots + 1) * groups * destinations },
    ghost few: { destinations ≤ most_destinations },
    ghost small: { (i : ℕ) → slice_index counts.items i < 2 ^ 31 },
    ghost no_totals: { destinations < 3 → length totals.items ≡ 0 },
    ghost all_totals: { 3 ≤ destinations → length totals.items ≡ (slots + 1) * groups },
    ghost sums: { 3 ≤ destinations → AreCappedTotals totals.items counts.items destinations ((slots + 1) * groups) },
    ghost within: { slots ≤ room },
    ghost counts_room: { (room + 1) * groups * destinations ≤ vec_capacity counts },
    ghost totals_room: { 3 ≤ destinations → (room + 1) * groups ≤ vec_capacity totals },
}

/// Writes two counts in 32 bits.
#[inline]
fn write_both(into: &mut [u32], counts: &[u64])
    requires counts { length into.old ≡ 2 }
    requires count { length counts.now ≡ 2 }
    requires small { (d : ℕ) → d < length counts.now → slice_index counts.now d < 2 ^ 31 }
    ensures { into.new ≡ counts.now }
{
    into[0] = counts[0] as u32;
    into[1] = counts[1] as u32;
}

/// Writes a row of counts in 32 bits.
fn write_many(into: &mut [u32], counts: &[u64])
    requires count { length into.old ≡ length counts.now }
    requires small { (d : ℕ) → d < length counts.now → slice_index counts.now d < 2 ^ 31 }
    ensures { into.new ≡ counts.now }
{
    for destination in 0..into.len() {
        into[destination] = counts[destination] as u32;
    }
}

/// So many counts, all 0.
pub(crate) fn zero_counts(alloc: Global, many: usize) -> Result<Vec<u32>, NoMemory>
    ensures { IfOk result (λ counts. counts.items ≡ replicate many 0) }
{
    vec![in alloc; 0u32; many].map_err(|_| NoMemory)
}

/// How many totals are kept of so many rows: none where there are one or two destinations, whose counts tell the total.
fn total_count(destinations: u32, rows: usize) -> usize
    ensures several { 3 ≤ destinations → result ≡ rows }
    ensures few { destinations < 3 → result ≡ 0 }
{
    if destinations < 3 { 0 } else { rows }
}

/// A total as it is kept: the greatest number of 32 bits where it is greater.
#[inline]
fn capped(total: u64) -> u32
    ensures { result ≡ capped total }
{
    total.min(u64::from(u32::MAX)) as u32
}

impl Curves {
    ghost use Rattle.ltm_curve.specs.Table.{groups_of, destinations_of, slots_of, place, counts_of, total_of, HasShape, IsIn, IsEmpty, Sets, SetsRow};

    /// Curves of this shape whose counts are all 0. There are `slots + 1` boundaries.
    #[tactic(auto, unfolding(crate::specs::Table::counts_of))]
    pub fn create(
        alloc: Global,
        groups: u32,
        destinations: u32,
        slots: u32,
    ) -> Result<Curves, NoMemory>
        requires { destinations ≤ most_destinations }
        ensures shape { IfOk result (λ c. HasShape c groups destinations slots) }
        ensures empty { IfOk result IsEmpty }
    {
        let rows = (slots as usize + 1).checked_mul(groups as usize);
        let Some(rows) = rows else {
            return Err(NoMemory);
        };
        let Some(size) = rows.checked_mul(destinations as usize) else {
            return Err(NoMemory);
        };
        let counts = zero_counts(alloc, size)?;
        let totals = zero_counts(alloc, total_count(destinations, rows))?;
        Ok(Curves {
            groups,
            destinations,
            slots,
            room: slots,
            counts,
            totals,
        })
    }

    /// How many groups there are.
    pub fn groups(&self) -> u32
        ensures { result ≡ groups_of self.now }
    {
        self.groups
    }

    /// How many destinations each group has.
    pub fn destinations(&self) -> u32
        ensures value { result ≡ destinations_of self.now }
        ensures few { result ≤ most_destinations }
    {
        self.destinations
    }

    /// How many slots there are; there is one boundary more.
    pub fn slots(&self) -> u32
        ensures { result ≡ slots_of self.now }
    {
        self.slots
    }

    /// Where a count lies in the table.
    fn place(&self, group: u32, destination: u32, boundary: u32) -> usize
        requires { IsIn self.now group destination boundary }
        ensures place { result ≡ place self.now group destination boundary }
        ensures within { result < length self.now.counts.items }
    {
        let _counts = &self.counts;
        (boundary as usize * self.groups as usize + group as usize) * self.destinations as usize
            + destination as usize
    }

    /// A count.
    #[tactic(auto, unfolding(crate::specs::Table::counts_of))]
    pub fn get(&self, group: u32, destination: u32, boundary: u32) -> u64
        requires { IsIn self.now group destination boundary }
        ensures count { result ≡ counts_of self.now group destination boundary }
        ensures small { result < 2 ^ 31 }
    {
        let at = self.place(group, destination, boundary);
        u64::from(self.counts[at])
    }

    /// The number of the row of a group at a boundary, which is also the place of its total.
    fn row_number(&self, group: u32, boundary: u32) -> usize
        requires group { group < groups_of self.now }
        requires boundary { boundary ≤ slots_of self.now }
        ensures number { result ≡ boundary * self.now.groups + group }
        ensures within { result < (self.now.slots + 1) * self.now.groups }
    {
        boundary as usize * self.groups as usize + group as usize
    }

    /// Changes a count, and no other.
    pub fn set(&mut self, group: u32, destination: u32, boundary: u32, count: u64)
        requires place { IsIn self.old group destination boundary }
        requires small { count < 2 ^ 31 }
        ensures { Sets self.old self.new group destination boundary count }
    {
        if self.destinations > 2 {
            self.set_one(group, destination, boundary, count);
        } else {
            self.set_count(group, destination, boundary, count);
        }
    }

    /// The same where there are one or two destinations: no total is kept.
    fn set_count(&mut self, group: u32, destination: u32, boundary: u32, count: u64)
        requires place { IsIn self.old group destination boundary }
        requires few { destinations_of self.old < 3 }
        requires small { count < 2 ^ 31 }
        ensures { Sets self.old self.new group destination boundary count }
    {
        let place = self.place(group, destination, boundary);
        self.counts[place] = count as u32;
    }

    /// The same where there are several destinations: the total changes by as much.
    fn set_one(&mut self, group: u32, destination: u32, boundary: u32, count: u64)
        requires place { IsIn self.old group destination boundary }
        requires several { 3 ≤ destinations_of self.old }
        requires small { count < 2 ^ 31 }
        ensures { Sets self.old self.new group destination boundary count }
    {
        let others = self.others(group, destination, boundary);
        let row = self.row_number(group, boundary);
        let place = self.place(group, destination, boundary);
        self.totals[row] = capped(others + count);
        self.counts[place] = count as u32;
    }

    /// The total of a group at a boundary without one of several destinations.
    #[tactic(auto, using(crate::proofs::Places::count_within, crate::proofs::Places::total_small))]
    fn others(&self, group: u32, destination: u32, boundary: u32) -> u64
        requires place { IsIn self.now group destination boundary }
        requires several { 3 ≤ destinations_of self.now }
        ensures total { result + counts_of self.now group destination boundary
            ≡ total_of self.now group boundary }
        ensures small { result ≤ most_total }
    {
        self.kept_total(group, boundary) - self.get(group, destination, boundary)
    }

    /// Where the counts of a group at a boundary begin in the table.
    fn start(&self, group: u32, boundary: u32) -> usize
        requires group { group < groups_of self.now }
        requires boundary { boundary ≤ slots_of self.now }
        ensures place { result ≡ place self.now group 0 boundary }
        ensures within { result + destinations_of self.now ≤ length self.now.counts.items }
    {
        let _counts = &self.counts;
        (boundary as usize * self.groups as usize + group as usize) * self.destinations as usize
    }

    /// The counts of a group at a boundary, one for each destination.
    #[tactic(auto, unfolding(crate::specs::Table::counts_of))]
    pub fn row(&self, group: u32, boundary: u32) -> &[u32]
        requires group { group < groups_of self.now }
        requires boundary { boundary ≤ slots_of self.now }
        ensures count { length result.now ≡ destinations_of self.now }
        ensures counts { (d : ℕ) → d < destinations_of self.now
            → slice_index result.now d ≡ counts_of self.now group d boundary }
        ensures small { (d : ℕ) → slice_index result.now d < 2 ^ 31 }
    {
        let from = self.start(group, boundary);
        &self.counts[from..from + self.destinations as usize]
    }

    /// Changes the counts of a group at a boundary, and no others.
    #[tactic(auto, unfolding(crate::specs::Table::counts_of))]
    pub fn set_row(&mut self, group: u32, boundary: u32, counts: &[u64])
        requires group { group < groups_of self.old }
        requires boundary { boundary ≤ slots_of self.old }
        requires count { length counts.now ≡ destinations_of self.old }
        requires small { (d : ℕ) → d < length counts.now → slice_index counts.now d < 2 ^ 31 }
        ensures { SetsRow self.old self.new group boundary counts.now }
    {
        if counts.len() == 2 {
            self.set_two(group, boundary, counts);
        } else if counts.len() == 1 {
            self.set_count(group, 0, boundary, counts[0]);
        } else if counts.len() > 2 {
            self.set_several(group, boundary, counts);
        }
    }

    /// The same where there are two destinations, without a loop.
    #[inline]
    fn set_two(&mut self, group: u32, boundary: u32, counts: &[u64])
        requires group { group < groups_of self.old }
        requires boundary { boundary ≤ slots_of self.old }
        requires count { length counts.now ≡ destinations_of self.old }
        requires two { destinations_of self.old ≡ 2 }
        requires small { (d : ℕ) → d < length counts.now → slice_index counts.now d < 2 ^ 31 }
        ensures { SetsRow self.old self.new group boundary counts.now }
    {
        let from = self.start(group, boundary);
        let to = from + self.destinations as usize;
        write_both(&mut self.counts[from..to], counts);
    }

    /// The same where there are several destinations, in one copy and one sum.
    fn set_several(&mut self, group: u32, boundary: u32, counts: &[u64])
        requires group { group < groups_of self.old }
        requires boundary { boundary ≤ slots_of self.old }
        requires count { length counts.now ≡ destinations_of self.old }
        requires several { 3 ≤ destinations_of self.old }
        requires small { (d : ℕ) → d < length counts.now → slice_index counts.now d < 2 ^ 31 }
        ensures { SetsRow self.old self.new group boundary counts.now }
    {
        let row = self.row_number(group, boundary);
        let from = self.start(group, boundary);
        let to = from + self.destinations as usize;
        self.totals[row] = capped(sum_of(counts));
        write_many(&mut self.counts[from..to], counts);
    }
}
