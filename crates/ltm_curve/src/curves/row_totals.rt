//! Where the totals of all groups at a boundary are read, side by side.
ghost use Rattle.std.specs.Prelude.{◌≡◌, ℕ, ◌+◌, ◌*◌, ◌^◌, ◌<◌, ◌≤◌, length, slice_index};
ghost use Rattle.ltm_curve.specs.Totals.{row_sum, capped};

use super::Curves;

/// Numbers of all groups at a boundary, so many of each: their sum is the total of the group as it is kept.
#[derive(Drop)]
pub(crate) struct TotalRow<'a> {
    pub(crate) numbers: &'a [u32],
    pub(crate) each: usize,
    ghost few: { each ≤ 2 },
    ghost small: { each ≡ 2 → (i : ℕ) → slice_index numbers.now i < 2 ^ 31 },
}

impl TotalRow<'_> {
    /// The total of a group as it is kept.
    #[inline]
    pub(crate) fn total(&self, group: usize) -> u32
        requires { group * self.now.each + self.now.each ≤ length self.now.numbers.now }
        ensures { result ≡ row_sum self.now.numbers.now self.now.each group }
    {
        let numbers = self.numbers;
        if self.each == 2 {
            return numbers[group * 2] + numbers[group * 2 + 1];
        }
        if self.each == 1 {
            return numbers[group];
        }
        0
    }
}

impl Curves {
    ghost use Rattle.ltm_curve.specs.Table.{groups_of, slots_of, total_of};

    /// The totals of all groups at a boundary: as they are kept, or where there are one or two destinations their counts.
    #[inline]
    pub(crate) fn totals_at(&self, boundary: u32) -> TotalRow<'_>
        requires boundary { boundary ≤ slots_of self.now }
        ensures count { length result.numbers.now ≡ groups_of self.now * result.each }
        ensures totals { (g : ℕ) → g < groups_of self.now
            → row_sum result.numbers.now result.each g
            ≡ capped (total_of self.now g boundary) }
    {
        let from = boundary as usize * self.groups as usize;
        let to = from + self.groups as usize;
        if self.destinations > 2 {
            let numbers = &self.totals[from..to];
            return TotalRow { numbers, each: 1 };
        }
        let each = self.destinations as usize;
        let numbers = &self.counts[from * each..to * each];
        TotalRow { numbers, each }
    }
}
