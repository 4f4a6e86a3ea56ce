//! Totals that are copied from curves.
ghost use Rattle.std.specs.Prelude.{◌≡◌, ℕ, ◌+◌, ◌<◌, ◌≤◌, ◌⊎◌, true, false};
ghost use Rattle.ltm_curve.specs.Cells.{is_changed, HasCells};
ghost use Rattle.ltm_curve.specs.Table.{groups_of, slots_of, total_of};

use super::TotalCurves;
use super::row_copies::{copy_row, copy_words};
use crate::changed::Changed;
use crate::curves::Curves;

impl TotalCurves {
    ghost use Rattle.ltm_curve.specs.TotalCurves.{total_groups, total_slots, total_at, HasTotals, IsTotal, SetsTotal, AreNarrow, AreTotalsOf, TotalsBefore, TotalsBut};

    /// Copies the total of a group at a boundary.
    fn copy_total(&mut self, curves: &Curves, group: u32, boundary: u32)
        requires shape { HasTotals self.old (groups_of curves.now) (slots_of curves.now) }
        requires small { AreNarrow curves.now }
        requires group { group < groups_of curves.now }
        requires boundary { boundary ≤ slots_of curves.now }
        ensures { SetsTotal self.old self.new group boundary (total_of curves.now group boundary) }
    {
        let total = curves.total(group, boundary);
        self.set(group, boundary, total);
    }

    /// Copies the totals at a boundary that are kept in 32 bits.
    fn copy_narrow(&mut self, curves: &Curves, boundary: u32)
        requires shape { HasTotals self.old (groups_of curves.now) (slots_of curves.now) }
        requires small { AreNarrow curves.now }
        requires boundary { boundary ≤ slots_of curves.now }
        ensures shape { HasTotals self.new (groups_of curves.now) (slots_of curves.now) }
        ensures copied { (g : ℕ) → g + 1 < groups_of curves.now
            → total_at self.new g boundary ≡ total_of curves.now g boundary }
        ensures others { (g k : ℕ) → IsTotal self.old g k
            → (total_at self.new g k ≡ total_of curves.now g k)
            ⊎ (total_at self.new g k ≡ total_at self.old g k) }
    {
        let totals = curves.totals_at(boundary);
        let from = boundary as usize * self.narrow as usize;
        let to = from + self.narrow as usize;
        copy_row(&mut self.totals[from..to], &totals);
    }

    /// Copies the totals of all groups at a boundary.
    fn copy_row(&mut self, curves: &Curves, boundary: u32)
        requires small { AreNarrow curves.now }
        requires boundary { boundary ≤ slots_of curves.now }
        requires before { TotalsBefore self.old curves.now boundary }
        ensures { TotalsBefore self.new curves.now (boundary + 1) }
    {
        self.copy_narrow(curves, boundary);
        self.copy_total(curves, self.narrow, boundary);
    }

    /// Becomes the totals of curves of the same shape.
    pub(super) fn copy_all(&mut self, curves: &Curves)
        requires shape { HasTotals self.old (groups_of curves.now) (slots_of curves.now) }
        requires small { AreNarrow curves.now }
        ensures { AreTotalsOf self.new curves.now }
    {
        for boundary in 0..curves.slots() {
            self.copy_row(curves, boundary);
        }
        self.copy_row(curves, curves.slots());
    }

    /// Copies the totals of the changed groups at a boundary that are kept in 32 bits.
    fn copy_changed_narrow(&mut self, curves: &Curves, changed: &Changed, boundary: u32)
        requires shape { HasTotals self.old (groups_of curves.now) (slots_of curves.now) }
        requires small { AreNarrow curves.now }
        requires cells { HasCells changed.now (groups_of curves.now) (slots_of curves.now) }
        requires boundary { boundary ≤ slots_of curves.now }
        ensures shape { HasTotals self.new (groups_of curves.now) (slots_of curves.now) }
        ensures copied { (g : ℕ) → g + 1 < groups_of curves.now
            → is_changed changed.now g boundary ≡ true
            → total_at self.new g boundary ≡ total_of curves.now g boundary }
        ensures others { (g k : ℕ) → IsTotal self.old g k
            → (total_at self.new g k ≡ total_of curves.now g k)
            ⊎ (total_at self.new g k ≡ total_at self.old g k) }
    {
        let totals = curves.totals_at(boundary);
        let from = boundary as usize * self.narrow as usize;
        let to = from + self.narrow as usize;
        copy_words(&mut self.totals[from..to], &totals, changed, boundary);
    }

    /// Copies the totals of the changed groups at a boundary, and of the last one.
    fn copy_changed_row(&mut self, curves: &Curves, changed: &Changed, boundary: u32)
        requires small { AreNarrow curves.now }
        requires cells { HasCells changed.now (groups_of curves.now) (slots_of curves.now) }
        requires boundary { boundary ≤ slots_of curves.now }
        requires but { TotalsBut self.old curves.now changed.now boundary }
        ensures { TotalsBut self.new curves.now changed.now (boundary + 1) }
    {
        self.copy_changed_narrow(curves, changed, boundary);
        self.copy_total(curves, self.narrow, boundary);
    }

    /// Becomes the totals of curves of the same shape, where these are the same but in the changed cells, which alone are
    /// copied: only boundaries between the first and the last of these are looked at. But for the last group each total of
    /// the curves is less than 2^32.
    pub fn copy_changed(&mut self, curves: &Curves, changed: &Changed)
        requires shape { HasTotals self.old (groups_of curves.now) (slots_of curves.now) }
        requires small { AreNarrow curves.now }
        requires cells { HasCells changed.now (groups_of curves.now) (slots_of curves.now) }
        requires outside { (g k : ℕ) → g < groups_of curves.now → k ≤ slots_of curves.now
            → is_changed changed.now g k ≡ false
            → total_at self.old g k ≡ total_of curves.now g k }
        ensures { AreTotalsOf self.new curves.now }
    {
        for boundary in changed.from()..changed.to() {
            self.copy_changed_row(curves, changed, boundary);
        }
    }
}
