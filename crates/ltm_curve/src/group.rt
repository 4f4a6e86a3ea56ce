//! A group of curves, as rows of counts.
ghost use Rattle.std.specs.Prelude.{◌≡◌, ℕ, ◌+◌, ◌-◌, ◌^◌, ◌<◌, ◌≤◌, length, sum, slice_index};
ghost use Rattle.ltm_curve.specs.Counts.{total};
ghost use Rattle.ltm_curve.specs.First.{entries, mixed, first_units, last_within, RowsRise};
ghost use Rattle.ltm_curve.specs.FirstLaws.{IsPart};

use crate::curves::Curves;
use crate::rows::Rows;
use ltm_units::share_of;

#[derive(Drop)]
pub(crate) struct Group<'a> {
    pub(crate) curves: &'a Curves,
    pub(crate) group: u32,
    ghost in_range: { group < curves.now.groups },
}

impl Group<'_> {
    ghost use Rattle.ltm_curve.specs.Table.{destinations_of, slots_of, counts_of};

    /// Writes the counts of two destinations at a boundary, each less a number.
    #[inline]
    pub(crate) fn write_less_two(&self, boundary: u32, less: &[u32], into: &mut [u64])
        requires two { destinations_of self.now.curves.now ≡ 2 }
        requires boundary { boundary ≤ slots_of self.now.curves.now }
        requires less { length less.now ≡ destinations_of self.now.curves.now }
        requires room { length into.old ≡ destinations_of self.now.curves.now }
        requires behind { (d : ℕ) → d < destinations_of self.now.curves.now → slice_index less.now d
            ≤ counts_of self.now.curves.now self.now.group d boundary }
        ensures { (d : ℕ) → d < destinations_of self.now.curves.now → slice_index into.new d
            ≡ counts_of self.now.curves.now self.now.group d boundary - slice_index less.now d }
    {
        let row = self.curves.row(self.group, boundary);
        let first = u64::from(row[0] - less[0]);
        let other = u64::from(row[1] - less[1]);
        into[0] = first;
        into[1] = other;
    }

    /// Writes the counts of two destinations at a slot's start with their shares of a part of the units that enter in the
    /// slot, each less a number: what of the part the first does not get is the other's.
    #[inline]
    pub(crate) fn write_mixed_two(&self, slot: u32, part: u64, less: &[u32], into: &mut [u64])
        requires two { destinations_of self.now.curves.now ≡ 2 }
        requires next { slot + 1 < 2 ^ 32 }
        requires slot { slot < slots_of self.now.curves.now }
        requires rise { RowsRise (destinations_of self.now.curves.now)
            (counts_of self.now.curves.now self.now.group) (slot + 1) }
        requires part { part ≤ sum (entries (destinations_of self.now.curves.now)
            (counts_of self.now.curves.now self.now.group) slot) }
        requires less { length less.now ≡ destinations_of self.now.curves.now }
        requires room { length into.old ≡ destinations_of self.now.curves.now }
        requires behind { (d : ℕ) → d < destinations_of self.now.curves.now → slice_index less.now d
            ≤ mixed (destinations_of self.now.curves.now)
            (counts_of self.now.curves.now self.now.group) slot part d }
        ensures { (d : ℕ) → d < destinations_of self.now.curves.now → slice_index into.new d
            ≡ mixed (destinations_of self.now.curves.now)
            (counts_of self.now.curves.now self.now.group) slot part d - slice_index less.now d }
    {
        let before = self.curves.row(self.group, slot);
        let after = self.curves.row(self.group, slot + 1);
        let entered = u64::from(after[0] - before[0]);
        let whole = entered + u64::from(after[1] - before[1]);
        let share = share_of(part, entered, whole);
        into[0] = u64::from(before[0]) + share - u64::from(less[0]);
        into[1] = u64::from(before[1]) + (part - share) - u64::from(less[1]);
    }
}

impl Group<'_> {
    ghost use Rattle.ltm_curve.specs.Table.{destinations_of, slots_of, counts_of};

    /// Writes what two destinations have of the first n units, each less a number, from the boundary at which these end and
    /// what is then left of them.
    #[inline]
    pub(crate) fn write_first_two(
        &self,
        n: u64,
        last: u32,
        end: u32,
        part: u64,
        less: &[u32],
        into: &mut [u64],
    )
        requires two { destinations_of self.now.curves.now ≡ 2 }
        requires last { last ≤ slots_of self.now.curves.now }
        requires units { IsPart (destinations_of self.now.curves.now)
            (counts_of self.now.curves.now self.now.group) n last }
        requires end { end
            ≡ last_within (total (destinations_of self.now.curves.now)
            (counts_of self.now.curves.now self.now.group)) n last }
        requires below { end ≤ last }
        requires part { part
            ≡ n - total (destinations_of self.now.curves.now)
            (counts_of self.now.curves.now self.now.group) end }
        requires less { length less.now ≡ destinations_of self.now.curves.now }
        requires room { length into.old ≡ destinations_of self.now.curves.now }
        requires behind { (d : ℕ) → d < destinations_of self.now.curves.now → slice_index less.now d
            ≤ first_units (destinations_of self.now.curves.now)
            (counts_of self.now.curves.now self.now.group) n last d }
        ensures { (d : ℕ) → d < destinations_of self.now.curves.now → slice_index into.new d
            ≡ first_units (destinations_of self.now.curves.now)
            (counts_of self.now.curves.now self.now.group) n last d - slice_index less.now d }
    {
        if part == 0 {
            self.write_less_two(end, less, into);
        } else {
            self.write_mixed_two(end, part, less, into);
        }
    }
}

impl Rows for Group<'_> {
    ghost use Rattle.std.specs.Prelude.{ℕ};
    ghost use Rattle.ltm_curve.specs.Table.{destinations_of, slots_of, counts_of};

    ghost rows = { λ s. counts_of s.curves.now s.group };

    ghost width = { λ s. destinations_of s.curves.now };

    ghost end = { λ s. slots_of s.curves.now };

    fn destinations(&self) -> u32 {
        self.curves.destinations()
    }

    fn count(&self, destination: u32, boundary: u32) -> u64 {
        self.curves.get(self.group, destination, boundary)
    }

    fn total(&self, boundary: u32) -> u64 {
        self.curves.total(self.group, boundary)
    }

    fn write_less(&self, boundary: u32, less: &[u32], into: &mut [u64]) {
        let row = self.curves.row(self.group, boundary);
        for destination in 0..row.len() {
            into[destination] = u64::from(row[destination] - less[destination]);
        }
    }

    fn write_mixed_less(&self, slot: u32, part: u64, less: &[u32], into: &mut [u64]) {
        if less.len() == 2 {
            self.write_mixed_two(slot, part, less, into);
            return;
        }
        let before = self.curves.row(self.group, slot);
        let after = self.curves.row(self.group, slot + 1);
        let mut rest = part;
        let mut whole = self.curves.total(self.group, slot + 1)
            - self.curves.total(self.group, slot);
        for destination in 0..before.len() {
            let entered = u64::from(after[destination] - before[destination]);
            let share = share_of(rest, entered, whole);
            rest -= share;
            whole -= entered;
            into[destination] = u64::from(before[destination]) + share
                - u64::from(less[destination]);
        }
    }
}
