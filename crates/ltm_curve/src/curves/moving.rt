//! Counts at a slot's end, made of those of its beginning and what has moved.
ghost use Rattle.std.specs.Prelude.{◌≡◌, ◌↔◌, ℕ, ◌+◌, ◌*◌, ◌/◌, ◌^◌, ◌<◌, ◌≤◌, ◌⊎◌, length, sum, slice_index, IsFalse};
ghost use Rattle.ltm_units.specs.Bounds.{most_destinations};
ghost use Rattle.ltm_units.specs.Sums.{sum_below};
ghost use Rattle.ltm_curve.specs.First.{list_below};
ghost use Rattle.ltm_curve.specs.Moving.{StandSums, WritesSums};

use super::{Curves, capped};

/// Writes four sums, all of which are made before one is written; whether some number there was another one.
#[inline]
fn write_four(table: &mut [u32], from: usize, to: usize, amounts: &[u64], begin: usize) -> bool
    requires apart { from + length amounts.now ≤ to }
    requires within { to + length amounts.now ≤ length table.old }
    requires four { begin + 4 ≤ length amounts.now }
    requires small { (d : ℕ) → d < length amounts.now
        → slice_index table.old (from + d) + slice_index amounts.now d < 2 ^ 31 }
    ensures same { IsFalse result ↔ StandSums table.old from to amounts.now begin (begin + 4) }
    ensures sums { WritesSums table.old table.new from to amounts.now begin (begin + 4) }
{
    let first = table[from + begin] + amounts[begin] as u32;
    let second = table[from + begin + 1] + amounts[begin + 1] as u32;
    let third = table[from + begin + 2] + amounts[begin + 2] as u32;
    let fourth = table[from + begin + 3] + amounts[begin + 3] as u32;
    let front = (table[to + begin] != first) | (table[to + begin + 1] != second);
    let back = (table[to + begin + 2] != third) | (table[to + begin + 3] != fourth);
    table[to + begin] = first;
    table[to + begin + 1] = second;
    table[to + begin + 2] = third;
    table[to + begin + 3] = fourth;
    front | back
}

/// Writes all sums but for the last, fewer than four; whether some number there was another one, and the sum of their amounts,
/// which is made in two parts, so that each is one of a pair of numbers that are added at a time.
#[inline]
fn write_fours(table: &mut [u32], from: usize, to: usize, amounts: &[u64]) -> (bool, u64)
    requires apart { from + length amounts.now ≤ to }
    requires within { to + length amounts.now ≤ length table.old }
    requires few { length amounts.now ≤ most_destinations }
    requires small { (d : ℕ) → d < length amounts.now
        → slice_index table.old (from + d) + slice_index amounts.now d < 2 ^ 31 }
    ensures same { IsFalse result.0
        ↔ StandSums table.old from to amounts.now 0 (length amounts.now / 4 * 4) }
    ensures whole { result.1 ≡ sum_below (length amounts.now / 4 * 4) (slice_index amounts.now) }
    ensures sums { WritesSums table.old table.new from to amounts.now 0 (length amounts.now / 4 * 4) }
{
    let mut differs = false;
    let mut even = 0;
    let mut odd = 0;
    let mut begin = 0;
    while begin + 4 <= amounts.len() {
        even += amounts[begin] + amounts[begin + 2];
        odd += amounts[begin + 1] + amounts[begin + 3];
        differs |= write_four(table, from, to, amounts, begin);
        begin += 4;
    }
    (differs, even + odd)
}

/// Writes one sum; whether the number there was another one.
#[inline]
fn write_one(table: &mut [u32], from: usize, to: usize, amounts: &[u64], place: usize) -> bool
    requires apart { from + length amounts.now ≤ to }
    requires within { to + length amounts.now ≤ length table.old }
    requires one { place < length amounts.now }
    requires small { (d : ℕ) → d < length amounts.now
        → slice_index table.old (from + d) + slice_index amounts.now d < 2 ^ 31 }
    ensures same { IsFalse result ↔ StandSums table.old from to amounts.now place (place + 1) }
    ensures sums { WritesSums table.old table.new from to amounts.now place (place + 1) }
{
    let count = table[from + place] + amounts[place] as u32;
    let differs = table[to + place] != count;
    table[to + place] = count;
    differs
}

/// Writes the two sums that follow whole fours, where there are two more; whether some number there was another one, and the
/// sum of their amounts.
#[inline]
fn write_two(table: &mut [u32], from: usize, to: usize, amounts: &[u64]) -> (bool, u64)
    requires apart { from + length amounts.now ≤ to }
    requires within { to + length amounts.now ≤ length table.old }
    requires small { (d : ℕ) → d < length amounts.now
        → slice_index table.old (from + d) + slice_index amounts.now d < 2 ^ 31 }
    ensures same { IsFalse result.0
        ↔ StandSums table.old from to amounts.now (length amounts.now / 4 * 4) (length amounts.now / 2 * 2) }
    ensures whole { sum_below (length amounts.now / 4 * 4) (slice_index amounts.now) + result.1
        ≡ sum_below (length amounts.now / 2 * 2) (slice_index amounts.now) }
    ensures sums { WritesSums table.old table.new from to amounts.now
        (length amounts.now / 4 * 4) (length amounts.now / 2 * 2) }
{
    if (amounts.len() / 2) % 2 == 0 {
        return (false, 0);
    }
    let place = amounts.len() / 4 * 4;
    let first = write_one(table, from, to, amounts, place);
    let second = write_one(table, from, to, amounts, place + 1);
    (first | second, amounts[place] + amounts[place + 1])
}

/// Writes the last sum of an odd count; whether the number there was another one, and its amount.
#[inline]
fn write_odd(table: &mut [u32], from: usize, to: usize, amounts: &[u64]) -> (bool, u64)
    requires apart { from + length amounts.now ≤ to }
    requires within { to + length amounts.now ≤ length table.old }
    requires small { (d : ℕ) → d < length amounts.now
        → slice_index table.old (from + d) + slice_index amounts.now d < 2 ^ 31 }
    ensures same { IsFalse result.0
        ↔ StandSums table.old from to amounts.now (length amounts.now / 2 * 2) (length amounts.now) }
    ensures whole { sum_below (length amounts.now / 2 * 2) (slice_index amounts.now) + result.1
        ≡ sum_below (length amounts.now) (slice_index amounts.now) }
    ensures sums { WritesSums table.old table.new from to amounts.now
        (length amounts.now / 2 * 2) (length amounts.now) }
{
    if amounts.len() % 2 == 0 {
        return (false, 0);
    }
    let place = amounts.len() - 1;
    let differs = write_one(table, from, to, amounts, place);
    (differs, amounts[place])
}

/// Writes the last sums, fewer than four, without a loop; whether some number there was another one, and the sum of their
/// amounts.
#[inline]
fn write_last(table: &mut [u32], from: usize, to: usize, amounts: &[u64]) -> (bool, u64)
    requires apart { from + length amounts.now ≤ to }
    requires within { to + length amounts.now ≤ length table.old }
    requires few { length amounts.now ≤ most_destinations }
    requires small { (d : ℕ) → d < length amounts.now
        → slice_index table.old (from + d) + slice_index amounts.now d < 2 ^ 31 }
    ensures same { IsFalse result.0
        ↔ StandSums table.old from to amounts.now (length amounts.now / 4 * 4) (length amounts.now) }
    ensures whole { sum_below (length amounts.now / 4 * 4) (slice_index amounts.now) + result.1
        ≡ sum_below (length amounts.now) (slice_index amounts.now) }
    ensures sums { WritesSums table.old table.new from to amounts.now
        (length amounts.now / 4 * 4) (length amounts.now) }
{
    let (two_differ, two_whole) = write_two(table, from, to, amounts);
    let (odd_differs, odd_whole) = write_odd(table, from, to, amounts);
    (two_differ | odd_differs, two_whole + odd_whole)
}

/// Writes numbers that begin at one place of a table, and amounts that are added, over those at another place, four at a time;
/// whether some number there was another one, and the sum of the amounts.
fn write_sums(table: &mut [u32], from: usize, to: usize, amounts: &[u64]) -> (bool, u64)
    requires apart { from + length amounts.now ≤ to }
    requires within { to + length amounts.now ≤ length table.old }
    requires few { length amounts.now ≤ most_destinations }
    requires small { (d : ℕ) → d < length amounts.now
        → slice_index table.old (from + d) + slice_index amounts.now d < 2 ^ 31 }
    ensures same { IsFalse result.0 ↔ ((d : ℕ) → d < length amounts.now
        → slice_index table.old (to + d)
        ≡ slice_index table.old (from + d) + slice_index amounts.now d) }
    ensures whole { result.1 ≡ sum amounts.now }
    ensures sums { (d : ℕ) → d < length amounts.now → slice_index table.new (to + d)
        ≡ slice_index table.old (from + d) + slice_index amounts.now d }
    ensures others { (i : ℕ) → (i < to) ⊎ (to + length amounts.now ≤ i)
        → slice_index table.new i ≡ slice_index table.old i }
{
    let (fours_differ, fours_whole) = write_fours(table, from, to, amounts);
    let (last_differ, last_whole) = write_last(table, from, to, amounts);
    (fours_differ | last_differ, fours_whole + last_whole)
}

impl Curves {
    ghost use Rattle.ltm_curve.specs.Table.{groups_of, destinations_of, slots_of, counts_of, SetsRow};

    /// Sets the counts of a group at a slot's end to those of its beginning and amounts that are added, and no others;
    /// whether some count was another one. There are several destinations: what is kept of the total grows by as much, or
    /// stays capped.
    #[tactic(auto, unfolding(crate::specs::Table::counts_of))]
    pub fn move_row(&mut self, group: u32, slot: u32, amounts: &[u64]) -> bool
        requires group { group < groups_of self.old }
        requires slot { slot < slots_of self.old }
        requires count { length amounts.now ≡ destinations_of self.old }
        requires several { 3 ≤ destinations_of self.old }
        requires small { (d : ℕ) → d < length amounts.now
            → counts_of self.old group d slot + slice_index amounts.now d < 2 ^ 31 }
        ensures same { IsFalse result ↔ ((d : ℕ) → d < length amounts.now
            → counts_of self.old group d (slot + 1)
            ≡ counts_of self.old group d slot + slice_index amounts.now d) }
        ensures sets { SetsRow self.old self.new group (slot + 1) (list_below (length amounts.now)
            (λ d. counts_of self.old group d slot + slice_index amounts.now d)) }
    {
        let before = self.row_number(group, slot);
        let row = self.row_number(group, slot + 1);
        let from = self.start(group, slot);
        let to = self.start(group, slot + 1);
        let kept = u64::from(self.totals[before]);
        let (differs, whole) = write_sums(&mut self.counts, from, to, amounts);
        self.totals[row] = capped(kept + whole);
        differs
    }
}
