//! What the rows of an origin to a destination have produced, where no table says so.
//!
//! Rows lie in the order of their keys, so those of an origin to a destination lie side by side.
ghost use Rattle.std.specs.Prelude.{◌≡◌, ◌+◌, ◌<◌, ◌≤◌, ◌↔◌, All, IsTrue};
ghost use Rattle.ltm_demand.specs.Produced.{produced, by_end_to, total};
ghost use Rattle.ltm_demand.specs.Places.{NeverFall, IsBegin};
ghost use Rattle.ltm_units.specs.Bounds.{most_amount, most_produced};

use crate::DemandRow;

/// The units that a row has produced by the end of a slot.
#[inline]
fn produced_by(row: &DemandRow, slot: u32) -> u64
    requires slots { row.now.from < row.now.to }
    requires small { row.now.amount.0 ≤ most_amount }
    ensures { result ≡ produced row.now.from row.now.to row.now.amount.0 slot }
{
    if slot < row.from {
        return 0;
    }
    let passed = u64::from(slot) + 1;
    if u64::from(row.to) <= passed {
        return row.amount.0;
    }
    row.amount.0 * (passed - u64::from(row.from)) / u64::from(row.to - row.from)
}

/// Whether the rows to a destination begin at a place.
#[inline]
fn begin_at(rows: &[DemandRow], destination: u32, place: usize) -> bool
    requires { NeverFall rows.now }
    ensures { IsTrue result ↔ IsBegin rows.now destination place }
{
    if place > rows.len() {
        return false;
    }
    if place > 0 && rows[place - 1].destination >= destination {
        return false;
    }
    place == rows.len() || rows[place].destination >= destination
}

/// Where the rows to a destination begin: at the place that is guessed, or else where a search finds them.
#[inline]
fn begin_near(rows: &[DemandRow], destination: u32, guess: usize) -> usize
    requires { NeverFall rows.now }
    ensures { IsBegin rows.now destination result }
{
    if begin_at(rows, destination, guess) {
        return guess;
    }
    search(rows, destination)
}

/// Where the rows to a destination begin.
fn search(rows: &[DemandRow], destination: u32) -> usize
    requires { NeverFall rows.now }
    ensures { IsBegin rows.now destination result }
{
    rows.partition_point(|row| row.destination < destination)
}

/// What the rows to a destination have produced by the end of a slot, of rows that begin at a place, and the place behind them.
#[inline]
fn sum_from(rows: &[DemandRow], begin: usize, destination: u32, slot: u32) -> (u64, usize)
    requires order { NeverFall rows.now }
    requires begin { IsBegin rows.now destination begin }
    requires each { All (λ row. (row.from < row.to) × (row.amount.0 ≤ most_amount)) rows.now }
    requires small { total rows.now ≤ most_produced }
    ensures { result.0 ≡ by_end_to rows.now destination slot }
{
    let mut sum = 0;
    let mut place = begin;
    'rows: while place < rows.len() {
        if rows[place].destination != destination {
            return (sum, place);
        }
        sum += produced_by(&rows[place], slot);
        place += 1;
    }
    (sum, place)
}

/// What the rows have produced to a destination by the end of a slot. They are looked for at the place `near` first, which
/// becomes the place behind them; it changes no answer.
#[inline]
pub fn sum_to(rows: &[DemandRow], destination: u32, slot: u32, near: &mut usize) -> u64
    requires order { NeverFall rows.now }
    requires each { All (λ row. (row.from < row.to) × (row.amount.0 ≤ most_amount)) rows.now }
    requires small { total rows.now ≤ most_produced }
    ensures { result ≡ by_end_to rows.now destination slot }
{
    let begin = begin_near(rows, destination, *near);
    let (sum, behind) = sum_from(rows, begin, destination, slot);
    *near = behind;
    sum
}
