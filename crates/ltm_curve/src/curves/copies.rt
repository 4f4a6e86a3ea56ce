//! Counts that are copied: from boundary to boundary, and from curves to curves.
ghost use Rattle.std.specs.Prelude.{◌≡◌, ℕ, ◌+◌, ◌*◌, ◌^◌, ◌<◌, ◌≤◌, length, sum, slice_index, false};
ghost use Rattle.std.specs.Vec.{vec_capacity};
ghost use Rattle.ltm_curve.specs.Blocks.{IsCarried};
ghost use Rattle.ltm_curve.specs.Cells.{is_changed, HasCells};

use super::{Curves, capped};
use crate::changed::Changed;

/// Takes over all numbers of another table of the same length.
fn copy_all<T: Copy>(table: &mut Vec<T>, other: &Vec<T>)
    requires { length table.old.items ≡ length other.now.items }
    ensures same { table.new.items ≡ other.now.items }
    ensures room { vec_capacity table.new ≡ vec_capacity table.old }
{
    table.as_mut_slice().copy_from_slice(other.as_slice());
}

/// Carries a block of numbers of a table of such blocks on to the next block: all at once, as the two lie apart.
fn carry_block<T: Copy>(table: &mut Vec<T>, width: usize, block: usize)
    requires within { (block + 2) * width ≤ length table.old.items }
    ensures carried { IsCarried table.old.items table.new.items width block }
    ensures room { vec_capacity table.new ≡ vec_capacity table.old }
{
    let _length = table.len();
    let from = block * width;
    let to = from + width;
    let (front, back) = table.as_mut_slice().split_at_mut(to);
    back[..width].copy_from_slice(&front[from..to]);
}

impl Curves {
    ghost use Rattle.ltm_curve.specs.Table.{groups_of, destinations_of, slots_of, counts_of, SameShape, IsIn, SetsRow, Carries};
    ghost use Rattle.ltm_curve.specs.CurveLaws.{SameCounts};
    ghost use Rattle.ltm_curve.specs.Copying.{CopiesCell, AgreesBut};

    /// Carries the counts of all groups at a boundary on to the next boundary, and changes no other.
    pub fn carry(&mut self, boundary: u32)
        requires { boundary < slots_of self.old }
        ensures { Carries self.old self.new boundary }
    {
        carry_block(
            &mut self.counts,
            self.groups as usize * self.destinations as usize,
            boundary as usize,
        );
        if self.destinations > 2 {
            carry_block(&mut self.totals, self.groups as usize, boundary as usize);
        }
    }

    /// Takes over all counts of other curves of the same shape.
    pub fn copy_from(&mut self, other: &Curves)
        requires { SameShape self.old other.now }
        ensures same { SameCounts self.new other.now }
        ensures all { counts_of self.new ≡ counts_of other.now }
    {
        copy_all(&mut self.counts, &other.counts);
        copy_all(&mut self.totals, &other.totals);
    }

    /// Changes the counts of a group at a boundary where there are several destinations, whose total is told beside.
    fn put_row(&mut self, group: u32, boundary: u32, counts: &[u32], total: u64)
        requires group { group < groups_of self.old }
        requires boundary { boundary ≤ slots_of self.old }
        requires count { length counts.now ≡ destinations_of self.old }
        requires several { 3 ≤ destinations_of self.old }
        requires small { (d : ℕ) → d < length counts.now → slice_index counts.now d < 2 ^ 31 }
        requires total { total ≡ sum counts.now }
        ensures { SetsRow self.old self.new group boundary counts.now }
    {
        let row = self.row_number(group, boundary);
        let from = self.start(group, boundary);
        let to = from + self.destinations as usize;
        self.totals[row] = capped(total);
        self.counts[from..to].copy_from_slice(counts);
    }

    /// Changes the counts of a group at a boundary where there are two destinations.
    fn put_both(&mut self, group: u32, boundary: u32, counts: &[u32])
        requires group { group < groups_of self.old }
        requires boundary { boundary ≤ slots_of self.old }
        requires count { length counts.now ≡ destinations_of self.old }
        requires two { destinations_of self.old ≡ 2 }
        requires small { (d : ℕ) → d < length counts.now → slice_index counts.now d < 2 ^ 31 }
        ensures { SetsRow self.old self.new group boundary counts.now }
    {
        let from = self.start(group, boundary);
        let to = from + self.destinations as usize;
        self.counts[from..to].copy_from_slice(counts);
    }

    /// Copies the counts of a group at a boundary from other curves.
    fn copy_cell(&mut self, other: &Curves, group: u32, boundary: u32)
        requires shape { SameShape self.old other.now }
        requires group { group < groups_of self.old }
        requires boundary { boundary ≤ slots_of self.old }
        ensures { CopiesCell self.old self.new other.now group boundary }
    {
        if self.destinations == 2 {
            self.put_both(group, boundary, other.row(group, boundary));
        } else if self.destinations == 1 {
            self.set_count(group, 0, boundary, other.get(group, 0, boundary));
        } else if self.destinations > 2 {
            let total = other.total(group, boundary);
            self.put_row(group, boundary, other.row(group, boundary), total);
        }
    }

    /// Copies the counts of the changed groups at a boundary from other curves.
    fn copy_boundary(&mut self, other: &Curves, changed: &Changed, boundary: u32)
        requires cells { HasCells changed.now (groups_of self.old) (slots_of self.old) }
        requires boundary { boundary ≤ slots_of self.old }
        requires agrees { AgreesBut self.old other.now changed.now boundary 0 }
        ensures { AgreesBut self.new other.now changed.now (boundary + 1) 0 }
    {
        let mut group = 0;
        while group < self.groups {
            let Some(next) = changed.next(group, boundary) else {
                return;
            };
            self.copy_cell(other, next, boundary);
            group = next + 1;
        }
    }

    /// Takes over all counts of other curves of the same shape, where these are the same but in the changed cells, which
    /// alone are copied.
    pub fn copy_changed(&mut self, other: &Curves, changed: &Changed)
        requires shape { SameShape self.old other.now }
        requires cells { HasCells changed.now (groups_of self.old) (slots_of self.old) }
        requires outside { (g d k : ℕ) → IsIn self.old g d k → is_changed changed.now g k ≡ false
            → counts_of self.old g d k ≡ counts_of other.now g d k }
        ensures same { SameCounts self.new other.now }
        ensures all { counts_of self.new ≡ counts_of other.now }
    {
        for boundary in 0..self.slots {
            self.copy_boundary(other, changed, boundary);
        }
        self.copy_boundary(other, changed, self.slots);
    }
}
