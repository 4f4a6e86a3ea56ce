//! Rows in the order of their keys: where one stands, and the edits of the list.
ghost use Rattle.std.specs.Prelude.{◌≡◌, ℕ, ◌+◌, ◌<◌, ◌≤◌, ◌*◌, IfOk, IfErr, length, vec_len, vec_capacity, List};
ghost use Rattle.std.specs.List.Sorted.{IsStrictlySortedBy};
ghost use Rattle.ltm_demand.specs.Rows.{row_cmp, edited_rows, amount_at};
ghost use Rattle.ltm_demand.specs.Produced.{by_end, total, has};
ghost use Rattle.ltm_demand.specs.Places.{IsAt, IsGap};

use crate::DemandRow;
use std::cmp::Ordering;

fn compare(a: &DemandRow, b: &DemandRow) -> Ordering
    ensures { result ≡ row_cmp a.now b.now }
{
    let ends = a.from.cmp(&b.from).then(a.to.cmp(&b.to));
    a.origin
        .0
        .cmp(&b.origin.0)
        .then(a.destination.cmp(&b.destination).then(ends))
}

/// The place of the row with this key, or the place where it would go.
pub fn find(rows: &[DemandRow], row: &DemandRow) -> Result<usize, usize>
    requires { IsStrictlySortedBy row_cmp rows.now }
    ensures found { IfOk result (IsAt rows.now row.now) }
    ensures absent { IfErr result (IsGap rows.now row.now) }
{
    rows.binary_search_by(|r| compare(r, row))
}

/// Writes over the row at the place, or takes it out where the amount is 0; the amount that stood there.
pub fn put_over(rows: &mut Vec<DemandRow>, place: usize, row: &DemandRow) -> u64
    requires { IsAt rows.old.items row.now place }
    ensures rows { rows.new.items ≡ edited_rows rows.old.items row.now }
    ensures was { result ≡ amount_at rows.old.items row.now }
    ensures capacity { vec_capacity rows.new ≡ vec_capacity rows.old }
    ensures vacant { row.now.amount.0 ≡ 0 → vec_len rows.new < vec_capacity rows.new }
{
    let was = rows[place].amount.0;
    if row.amount.0 == 0 {
        rows.remove(place);
        return was;
    }
    rows[place] = *row;
    was
}

/// Puts a new row into its place, for which there is room.
pub fn put_in(rows: &mut Vec<DemandRow>, place: usize, row: &DemandRow)
    requires gap { IsGap rows.old.items row.now place }
    requires some { 0 < row.now.amount.0 }
    requires room { vec_len rows.old < vec_capacity rows.old }
    ensures rows { rows.new.items ≡ edited_rows rows.old.items row.now }
    ensures len { vec_len rows.new ≡ vec_len rows.old + 1 }
    ensures capacity { vec_capacity rows.old ≤ vec_capacity rows.new }
{
    match rows.insert(place, *row) {
        Ok(()) => {}
        Err(_) => unreachable!(),
    }
}
