//! Totals of a row that are copied into another. The changed groups are told 64 at a time.
ghost use Rattle.std.specs.Prelude.{◌≡◌, ℕ, ◌+◌, ◌-◌, ◌*◌, ◌^◌, ◌<◌, ◌≤◌, length, slice_index, true};
ghost use Rattle.std.specs.Int.{bit_at};
ghost use Rattle.ltm_curve.specs.Cells.{cell_groups, cell_slots, is_changed};
ghost use Rattle.ltm_curve.specs.RowTotals.{StaysOrIsTotal};
ghost use Rattle.ltm_curve.specs.Totals.{row_sum};

use crate::changed::Changed;
use crate::curves::TotalRow;
use ltm_marks::first_from;

/// Copies the totals of the groups from one on for which a word has a bit.
#[inline]
fn copy_word(into: &mut [u32], totals: &TotalRow<'_>, first: usize, word: u64)
    requires first { first ≤ 2 ^ 32 }
    requires enough { length into.old * totals.now.each ≤ length totals.now.numbers.now }
    ensures count { length into.new ≡ length into.old }
    ensures copied { (g : ℕ) → g < length into.old → first ≤ g → g < first + 64
        → bit_at word (g - first) ≡ 1
        → slice_index into.new g ≡ row_sum totals.now.numbers.now totals.now.each g }
    ensures others { StaysOrIsTotal totals.now.numbers.now totals.now.each into.old into.new }
{
    let mut from = 0u32;
    while from < 64 {
        let Some(bit) = first_from(word, from) else {
            return;
        };
        let group = first + bit as usize;
        if group >= into.len() {
            return;
        }
        into[group] = totals.total(group);
        from = bit + 1;
    }
}

/// Copies the totals of the changed groups at a boundary.
#[inline]
pub(super) fn copy_words(into: &mut [u32], totals: &TotalRow<'_>, changed: &Changed, boundary: u32)
    requires groups { length into.old ≤ cell_groups changed.now }
    requires boundary { boundary ≤ cell_slots changed.now }
    requires enough { length into.old * totals.now.each ≤ length totals.now.numbers.now }
    ensures count { length into.new ≡ length into.old }
    ensures copied { (g : ℕ) → g < length into.old → is_changed changed.now g boundary ≡ true
        → slice_index into.new g ≡ row_sum totals.now.numbers.now totals.now.each g }
    ensures others { StaysOrIsTotal totals.now.numbers.now totals.now.each into.old into.new }
{
    let _groups = changed.groups();
    let mut first = 0;
    while first < into.len() {
        let word = changed.word(first as u32, boundary);
        copy_word(into, totals, first, word);
        first += 64;
    }
}

/// Copies the totals of all groups of a row.
pub(super) fn copy_row(into: &mut [u32], totals: &TotalRow<'_>)
    requires enough { length into.old * totals.now.each ≤ length totals.now.numbers.now }
    ensures count { length into.new ≡ length into.old }
    ensures copied { (g : ℕ) → g < length into.old
        → slice_index into.new g ≡ row_sum totals.now.numbers.now totals.now.each g }
{
    if totals.each == 1 {
        into.copy_from_slice(&totals.numbers[..into.len()]);
        return;
    }
    for group in 0..into.len() {
        into[group] = totals.total(group);
    }
}
