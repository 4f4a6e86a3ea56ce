//! A table of units once one amount of a row stands in place of another.
//!
//! The numbers of a slot lie side by side, `width` of them: first that of all destinations together, then one for each
//! destination. A row changes two, the first and that of its destination, `own` places behind it.
ghost use Rattle.std.specs.Prelude.{◌≡◌, ◌≢◌, ℕ, ◌+◌, ◌-◌, ◌*◌, ◌<◌, ◌≤◌, ◌^◌, length, slice_index, slice_set};
ghost use Rattle.ltm_demand.specs.Produced.{produced};
ghost use Rattle.ltm_demand.specs.Productions.{IsOneOf};
ghost use Rattle.ltm_units.specs.Bounds.{most_amount};

use crate::DemandRow;
use crate::pace::Pace;

/// Puts the amount of a row in place of another in a table of `slots` slots.
pub(crate) fn shift(units: &mut [u64], width: usize, slots: usize, row: &DemandRow, was: u64)
    requires own { row.now.destination + 1 < width }
    requires was { was ≤ most_amount }
    requires now { row.now.amount.0 ≤ most_amount }
    requires slots { row.now.from < row.now.to }
    requires within { row.now.to ≤ slots }
    requires reaches { slots * width ≤ length units.old }
    requires has { (c t : ℕ) → IsOneOf (row.now.destination + 1) c → t < slots
        → produced row.now.from row.now.to was t ≤ slice_index units.old (t * width + c) }
    requires room { (c t : ℕ) → IsOneOf (row.now.destination + 1) c → t < slots
        → slice_index units.old (t * width + c) < 2 ^ 63 }
    ensures len { length units.new ≡ length units.old }
    ensures shifted { (c t : ℕ) → IsOneOf (row.now.destination + 1) c → t < slots
        → slice_index units.new (t * width + c) + produced row.now.from row.now.to was t
        ≡ slice_index units.old (t * width + c)
        + produced row.now.from row.now.to row.now.amount.0 t }
    ensures others { (c t : ℕ) → c < width → c ≢ 0 → c ≢ row.now.destination + 1
        → slice_index units.new (t * width + c) ≡ slice_index units.old (t * width + c) }
{
    shift_during(units, width, row, was);
    shift_after(units, width, slots, row, was);
}

/// Puts one amount in place of another in a number.
#[inline]
fn exchange(units: &mut [u64], place: usize, gone: u64, come: u64)
    requires place { place < length units.old }
    requires has { gone ≤ slice_index units.old place }
    requires room { slice_index units.old place < 2 ^ 63 }
    requires come { come ≤ most_amount }
    ensures { units.new ≡ slice_set units.old place (slice_index units.old place - gone + come) }
{
    units[place] = units[place] - gone + come;
}

/// The same in both numbers of a slot.
#[inline]
fn exchange_both(units: &mut [u64], width: usize, own: usize, slot: usize, gone: u64, come: u64)
    requires behind { 0 < own }
    requires own { own < width }
    requires within { (slot + 1) * width ≤ length units.old }
    requires has { (c : ℕ) → IsOneOf own c → gone ≤ slice_index units.old (slot * width + c) }
    requires room { (c : ℕ) → IsOneOf own c → slice_index units.old (slot * width + c) < 2 ^ 63 }
    requires come { come ≤ most_amount }
    ensures len { length units.new ≡ length units.old }
    ensures here { (c : ℕ) → IsOneOf own c
        → slice_index units.new (slot * width + c) + gone
        ≡ slice_index units.old (slot * width + c) + come }
    ensures elsewhere { (c t : ℕ) → c < width → t ≢ slot
        → slice_index units.new (t * width + c) ≡ slice_index units.old (t * width + c) }
    ensures others { (c t : ℕ) → c < width → c ≢ 0 → c ≢ own
        → slice_index units.new (t * width + c) ≡ slice_index units.old (t * width + c) }
{
    let place = slot * width;
    exchange(units, place, gone, come);
    exchange(units, place + own, gone, come);
}

/// The slots of the row.
fn shift_during(units: &mut [u64], width: usize, row: &DemandRow, was: u64)
    requires own { row.now.destination + 1 < width }
    requires was { was ≤ most_amount }
    requires now { row.now.amount.0 ≤ most_amount }
    requires slots { row.now.from < row.now.to }
    requires reaches { row.now.to * width ≤ length units.old }
    requires has { (c t : ℕ) → IsOneOf (row.now.destination + 1) c → t < row.now.to
        → produced row.now.from row.now.to was t ≤ slice_index units.old (t * width + c) }
    requires room { (c t : ℕ) → IsOneOf (row.now.destination + 1) c → t < row.now.to
        → slice_index units.old (t * width + c) < 2 ^ 63 }
    ensures len { length units.new ≡ length units.old }
    ensures shifted { (c t : ℕ) → IsOneOf (row.now.destination + 1) c → t < row.now.to
        → slice_index units.new (t * width + c) + produced row.now.from row.now.to was t
        ≡ slice_index units.old (t * width + c)
        + produced row.now.from row.now.to row.now.amount.0 t }
    ensures rest { (c t : ℕ) → c < width → row.now.to ≤ t
        → slice_index units.new (t * width + c) ≡ slice_index units.old (t * width + c) }
    ensures others { (c t : ℕ) → c < width → c ≢ 0 → c ≢ row.now.destination + 1
        → slice_index units.new (t * width + c) ≡ slice_index units.old (t * width + c) }
{
    let own = row.destination as usize + 1;
    let slots = (row.to - row.from) as u64;
    let mut gone = Pace::of(was, slots);
    let mut come = Pace::of(row.amount.0, slots);
    for slot in row.from as usize..row.to as usize {
        exchange_both(units, width, own, slot, gone.next(), come.next());
    }
}

/// The slots behind the row, up to and without `slots`.
fn shift_after(units: &mut [u64], width: usize, slots: usize, row: &DemandRow, was: u64)
    requires own { row.now.destination + 1 < width }
    requires now { row.now.amount.0 ≤ most_amount }
    requires reaches { slots * width ≤ length units.old }
    requires has { (c t : ℕ) → IsOneOf (row.now.destination + 1) c → row.now.to ≤ t → t < slots
        → was ≤ slice_index units.old (t * width + c) }
    requires room { (c t : ℕ) → IsOneOf (row.now.destination + 1) c → row.now.to ≤ t → t < slots
        → slice_index units.old (t * width + c) < 2 ^ 63 }
    ensures len { length units.new ≡ length units.old }
    ensures front { (c t : ℕ) → c < width → t < row.now.to
        → slice_index units.new (t * width + c) ≡ slice_index units.old (t * width + c) }
    ensures shifted { (c t : ℕ) → IsOneOf (row.now.destination + 1) c → row.now.to ≤ t → t < slots
        → slice_index units.new (t * width + c) + was
        ≡ slice_index units.old (t * width + c) + row.now.amount.0 }
    ensures others { (c t : ℕ) → c < width → c ≢ 0 → c ≢ row.now.destination + 1
        → slice_index units.new (t * width + c) ≡ slice_index units.old (t * width + c) }
{
    let own = row.destination as usize + 1;
    let now = row.amount.0;
    for slot in row.to as usize..slots {
        exchange_both(units, width, own, slot, was, now);
    }
}
