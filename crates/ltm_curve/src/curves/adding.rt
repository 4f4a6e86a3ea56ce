//! Amounts that are added to counts in place.
ghost use Rattle.std.specs.Prelude.{◌≡◌, ℕ, ◌+◌, ◌*◌, ◌/◌, ◌^◌, ◌<◌, ◌≤◌, length, sum, slice_index};
ghost use Rattle.ltm_units.specs.Bounds.{most_destinations};
ghost use Rattle.ltm_units.specs.Sums.{sum_below};
ghost use Rattle.ltm_curve.specs.Adding.{AddsAmounts};

use super::{Curves, capped};

/// Adds amounts to four counts, all of which are read before one is written.
#[inline]
fn add_four(row: &mut [u32], amounts: &[u64], begin: usize)
    requires count { length row.old ≡ length amounts.now }
    requires four { begin + 4 ≤ length amounts.now }
    requires small { (d : ℕ) → begin ≤ d → d < length amounts.now
        → slice_index row.old d + slice_index amounts.now d < 2 ^ 31 }
    ensures { AddsAmounts row.old row.new amounts.now begin (begin + 4) }
{
    let first = row[begin] + amounts[begin] as u32;
    let second = row[begin + 1] + amounts[begin + 1] as u32;
    let third = row[begin + 2] + amounts[begin + 2] as u32;
    let fourth = row[begin + 3] + amounts[begin + 3] as u32;
    row[begin] = first;
    row[begin + 1] = second;
    row[begin + 2] = third;
    row[begin + 3] = fourth;
}

/// Adds amounts to all counts but for the last, fewer than four, and gives the sum of these amounts, which is made in two parts,
/// so that each is one of a pair of numbers that are added at a time.
#[inline]
fn add_fours(row: &mut [u32], amounts: &[u64]) -> u64
    requires count { length row.old ≡ length amounts.now }
    requires few { length amounts.now ≤ most_destinations }
    requires small { (d : ℕ) → d < length amounts.now
        → slice_index row.old d + slice_index amounts.now d < 2 ^ 31 }
    ensures whole { result ≡ sum_below (length amounts.now / 4 * 4) (slice_index amounts.now) }
    ensures added { AddsAmounts row.old row.new amounts.now 0 (length amounts.now / 4 * 4) }
{
    let mut even = 0;
    let mut odd = 0;
    let mut begin = 0;
    while begin + 4 <= amounts.len() {
        even += amounts[begin] + amounts[begin + 2];
        odd += amounts[begin + 1] + amounts[begin + 3];
        add_four(row, amounts, begin);
        begin += 4;
    }
    even + odd
}

/// Adds an amount to a count, and gives it.
#[inline]
fn add_one(row: &mut [u32], amounts: &[u64], place: usize) -> u64
    requires count { length row.old ≡ length amounts.now }
    requires one { place < length amounts.now }
    requires small { slice_index row.old place + slice_index amounts.now place < 2 ^ 31 }
    ensures amount { result ≡ slice_index amounts.now place }
    ensures added { AddsAmounts row.old row.new amounts.now place (place + 1) }
{
    let amount = amounts[place];
    row[place] += amount as u32;
    amount
}

/// Adds amounts to the two counts that follow whole fours, where there are two more, and gives their sum.
#[inline]
fn add_pair(row: &mut [u32], amounts: &[u64]) -> u64
    requires count { length row.old ≡ length amounts.now }
    requires small { (d : ℕ) → length amounts.now / 4 * 4 ≤ d → d < length amounts.now
        → slice_index row.old d + slice_index amounts.now d < 2 ^ 31 }
    ensures whole { sum_below (length amounts.now / 4 * 4) (slice_index amounts.now) + result
        ≡ sum_below (length amounts.now / 2 * 2) (slice_index amounts.now) }
    ensures added { AddsAmounts row.old row.new amounts.now
        (length amounts.now / 4 * 4) (length amounts.now / 2 * 2) }
{
    if (amounts.len() / 2) % 2 == 0 {
        return 0;
    }
    let place = amounts.len() / 4 * 4;
    let first = add_one(row, amounts, place);
    first + add_one(row, amounts, place + 1)
}

/// Adds its amount to the last of an odd count of counts, and gives it.
#[inline]
fn add_odd(row: &mut [u32], amounts: &[u64]) -> u64
    requires count { length row.old ≡ length amounts.now }
    requires small { (d : ℕ) → length amounts.now / 2 * 2 ≤ d → d < length amounts.now
        → slice_index row.old d + slice_index amounts.now d < 2 ^ 31 }
    ensures whole { sum_below (length amounts.now / 2 * 2) (slice_index amounts.now) + result
        ≡ sum_below (length amounts.now) (slice_index amounts.now) }
    ensures added { AddsAmounts row.old row.new amounts.now
        (length amounts.now / 2 * 2) (length amounts.now) }
{
    if amounts.len() % 2 == 0 {
        return 0;
    }
    add_one(row, amounts, amounts.len() - 1)
}

/// Adds amounts to a row of counts in 32 bits, four at a time, and gives their sum.
fn add_many(row: &mut [u32], amounts: &[u64]) -> u64
    requires count { length row.old ≡ length amounts.now }
    requires few { length amounts.now ≤ most_destinations }
    requires small { (d : ℕ) → d < length amounts.now
        → slice_index row.old d + slice_index amounts.now d < 2 ^ 31 }
    ensures whole { result ≡ sum amounts.now }
    ensures added { (d : ℕ) → d < length amounts.now
        → slice_index row.new d ≡ slice_index row.old d + slice_index amounts.now d }
{
    let fours = add_fours(row, amounts);
    let pair = add_pair(row, amounts);
    let odd = add_odd(row, amounts);
    fours + pair + odd
}

/// Adds amounts to two counts.
#[inline]
fn add_both(row: &mut [u32], amounts: &[u64])
    requires counts { length row.old ≡ 2 }
    requires count { length amounts.now ≡ 2 }
    requires small { (d : ℕ) → d < length amounts.now
        → slice_index row.old d + slice_index amounts.now d < 2 ^ 31 }
    ensures { (d : ℕ) → d < length amounts.now
        → slice_index row.new d ≡ slice_index row.old d + slice_index amounts.now d }
{
    row[0] += amounts[0] as u32;
    row[1] += amounts[1] as u32;
}

impl Curves {
    ghost use Rattle.ltm_curve.specs.Table.{groups_of, destinations_of, slots_of, counts_of, AddsRow};

    /// Adds amounts to the counts of a group at a boundary, and changes no others.
    #[tactic(auto, unfolding(crate::specs::Table::counts_of))]
    pub fn add_row(&mut self, group: u32, boundary: u32, amounts: &[u64])
        requires group { group < groups_of self.old }
        requires boundary { boundary ≤ slots_of self.old }
        requires count { length amounts.now ≡ destinations_of self.old }
        requires small { (d : ℕ) → d < length amounts.now
            → counts_of self.old group d boundary + slice_index amounts.now d < 2 ^ 31 }
        ensures { AddsRow self.old self.new group boundary amounts.now }
    {
        if amounts.len() == 2 {
            self.add_two(group, boundary, amounts);
        } else if amounts.len() == 1 {
            let count = self.get(group, 0, boundary) + amounts[0];
            self.set_count(group, 0, boundary, count);
        } else if amounts.len() > 2 {
            self.add_several(group, boundary, amounts);
        }
    }

    /// The same where there are two destinations, without a loop.
    #[inline]
    #[tactic(auto, unfolding(crate::specs::Table::counts_of))]
    fn add_two(&mut self, group: u32, boundary: u32, amounts: &[u64])
        requires group { group < groups_of self.old }
        requires boundary { boundary ≤ slots_of self.old }
        requires count { length amounts.now ≡ destinations_of self.old }
        requires two { destinations_of self.old ≡ 2 }
        requires small { (d : ℕ) → d < length amounts.now
            → counts_of self.old group d boundary + slice_index amounts.now d < 2 ^ 31 }
        ensures { AddsRow self.old self.new group boundary amounts.now }
    {
        let from = self.start(group, boundary);
        let to = from + self.destinations as usize;
        add_both(&mut self.counts[from..to], amounts);
    }

    /// The same where there are several destinations: what is kept of the total grows by as much, or stays capped. Kept out
    /// of line.
    #[inline(never)]
    #[tactic(auto, unfolding(crate::specs::Table::counts_of))]
    fn add_several(&mut self, group: u32, boundary: u32, amounts: &[u64])
        requires group { group < groups_of self.old }
        requires boundary { boundary ≤ slots_of self.old }
        requires count { length amounts.now ≡ destinations_of self.old }
        requires several { 3 ≤ destinations_of self.old }
        requires small { (d : ℕ) → d < length amounts.now
            → counts_of self.old group d boundary + slice_index amounts.now d < 2 ^ 31 }
        ensures { AddsRow self.old self.new group boundary amounts.now }
    {
        let row = self.row_number(group, boundary);
        let from = self.start(group, boundary);
        let to = from + self.destinations as usize;
        let kept = u64::from(self.totals[row]);
        let whole = add_many(&mut self.counts[from..to], amounts);
        self.totals[row] = capped(kept + whole);
    }
}
