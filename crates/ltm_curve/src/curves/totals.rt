//! Totals over all destinations.
ghost use Rattle.std.specs.Prelude.{◌≡◌, ◌<◌, ◌≤◌};
ghost use Rattle.ltm_curve.specs.Totals.{most_total};

use super::Curves;

impl Curves {
    ghost use Rattle.ltm_curve.specs.Table.{groups_of, destinations_of, slots_of, total_of};

    /// The total of a group at a boundary, over all destinations.
    #[tactic(auto, using(crate::proofs::Places::total_small))]
    pub fn total(&self, group: u32, boundary: u32) -> u64
        requires group { group < groups_of self.now }
        requires boundary { boundary ≤ slots_of self.now }
        ensures total { result ≡ total_of self.now group boundary }
        ensures small { result ≤ most_total }
    {
        if self.destinations > 2 {
            self.kept_total(group, boundary)
        } else if self.destinations == 2 {
            self.both_total(group, boundary)
        } else if self.destinations == 1 {
            self.get(group, 0, boundary)
        } else {
            0
        }
    }

    /// The same where there is one destination, whose count is the total.
    #[inline]
    pub(crate) fn only_total(&self, group: u32, boundary: u32) -> u64
        requires group { group < groups_of self.now }
        requires boundary { boundary ≤ slots_of self.now }
        requires one { destinations_of self.now ≡ 1 }
        ensures { result ≡ total_of self.now group boundary }
    {
        let at = self.row_number(group, boundary);
        u64::from(self.counts[at])
    }

    /// The same where there are two destinations, whose counts are added.
    #[inline]
    #[tactic(auto, unfolding(crate::specs::Table::counts_of))]
    pub(crate) fn both_total(&self, group: u32, boundary: u32) -> u64
        requires group { group < groups_of self.now }
        requires boundary { boundary ≤ slots_of self.now }
        requires two { destinations_of self.now ≡ 2 }
        ensures { result ≡ total_of self.now group boundary }
    {
        let row = self.row(group, boundary);
        u64::from(row[0]) + u64::from(row[1])
    }

    /// The same where there are more destinations, read where it is kept.
    #[inline]
    pub(crate) fn kept_total(&self, group: u32, boundary: u32) -> u64
        requires group { group < groups_of self.now }
        requires boundary { boundary ≤ slots_of self.now }
        requires several { 3 ≤ destinations_of self.now }
        ensures { result ≡ total_of self.now group boundary }
    {
        let kept = self.totals[self.row_number(group, boundary)];
        if kept == u32::MAX {
            return self.summed_total(group, boundary);
        }
        u64::from(kept)
    }

    /// The same, summed anew: it may be more than what is kept. Kept out of line, since seldom so.
    #[inline(never)]
    fn summed_total(&self, group: u32, boundary: u32) -> u64
        requires group { group < groups_of self.now }
        requires boundary { boundary ≤ slots_of self.now }
        ensures { result ≡ total_of self.now group boundary }
    {
        let row = self.row(group, boundary);
        let mut total = 0u64;
        for destination in 0..row.len() {
            total += u64::from(row[destination]);
        }
        total
    }
}
