//! What rows of demand produce, which are refused, and how a change is undone.
use ltm_demand::{Demand, DemandFault, DemandRow};
use ltm_units::{NodeId, Units};
use std::alloc::Global;

/// Whether a row is set; none where its amount is too large.
type Answer = Option<Result<(), DemandFault>>;

const DONE: Answer = Some(Ok(()));

const NO_SLOTS: Answer = Some(Err(DemandFault::BadSlots));

const TOO_MANY: Answer = Some(Err(DemandFault::TooManyRows));

fn row(origin: u32, destination: u32, from: u32, to: u32, amount: u64) -> DemandRow {
    DemandRow {
        origin: NodeId(origin),
        destination,
        from,
        to,
        amount: Units(amount),
    }
}

fn set(demand: &mut Demand, row: DemandRow) -> Answer {
    if row.amount.0 > 1_000_000_000 {
        return None;
    }
    Some(demand.set(row))
}

/// What stood there, where a row is changed.
fn change(demand: &mut Demand, row: DemandRow) -> Option<Units> {
    if row.amount.0 > 1_000_000_000 {
        return None;
    }
    demand.change(row).ok()
}

/// What node 7 has produced for destination 3 by the end of a slot, from the row of all destinations; where there is none, from
/// the rows that are looked for in a wrong place.
fn produced_in_row(demand: &Demand, slot: u32) -> u64 {
    let mut near = 5;
    match demand.row_by_end(NodeId(7), slot) {
        Some(each) => each.get(3).copied().unwrap_or(u64::MAX),
        None => demand.by_end_near(NodeId(7), 3, slot, &mut near).0,
    }
}

/// What node 7 has produced for destination 3 by the end of a slot, told in three ways.
fn produced(demand: &Demand, slot: u32) -> [u64; 3] {
    [
        demand.by_end(NodeId(7), 3, slot).0,
        demand.origin_by_end(NodeId(7), slot).0,
        produced_in_row(demand, slot),
    ]
}

/// The same of other nodes, and of another destination.
fn produced_elsewhere(demand: &Demand, slot: u32) -> [u64; 7] {
    [
        demand.by_end(NodeId(0), 3, slot).0,
        demand.by_end(NodeId(6), 3, slot).0,
        demand.by_end(NodeId(8), 3, slot).0,
        demand.origin_by_end(NodeId(0), slot).0,
        demand.origin_by_end(NodeId(6), slot).0,
        demand.origin_by_end(NodeId(8), slot).0,
        demand.by_end(NodeId(7), 2, slot).0,
    ]
}

/// Whether a row alone is set, and what it has produced by the end of a slot.
fn produced_by(demand: &mut Demand, row: DemandRow, slot: u32) -> (Answer, [u64; 3], [u64; 7]) {
    let answer = set(demand, row);
    let here = produced(demand, slot);
    (answer, here, produced_elsewhere(demand, slot))
}

/// The same with a table of each destination, and without one.
fn produced_by_both(alloc: Global, row: DemandRow, slot: u32) -> [(Answer, [u64; 3], [u64; 7]); 2] {
    let mut tabled = Demand::new(alloc, 360);
    let mut of_rows = Demand::of_rows(alloc, 360, 10);
    [
        produced_by(&mut tabled, row, slot),
        produced_by(&mut of_rows, row, slot),
    ]
}

#[test]
fn produces_evenly_and_floored(rt: HostRuntime) {
    // amount, first slot, end, slot, what is produced by its end
    for (amount, from, to, slot, want) in [
        (1000, 0, 2, 0, 500),
        (1000, 0, 2, 1, 1000),
        (1000, 0, 2, 3, 1000),
        (5000, 0, 5, 0, 1000),
        (5000, 0, 5, 3, 4000),
        (5000, 0, 5, 11, 5000),
        (360_000, 30, 60, 29, 0),
        (360_000, 30, 60, 30, 12_000),
        (360_000, 30, 60, 59, 360_000),
        (1000, 1, 4, 0, 0),
        (1000, 1, 4, 1, 333),
        (1000, 1, 4, 2, 666),
        (1000, 1, 4, 3, 1000),
        (1, 0, 2, 0, 0),
    ] {
        assert!(rt;
            produced_by_both(rt.alloc(), row(7, 3, from, to, amount), slot)
                == [(DONE, [want; 3], [0; 7]); 2],
            "{amount} at {slot}"
        );
    }
}

/// The place of the first row that is answered otherwise; none where all are answered so.
fn first_otherwise(demand: &mut Demand, rows: &[(DemandRow, Answer)]) -> Option<usize> {
    for (place, (row, want)) in rows.iter().enumerate() {
        if set(demand, *row) != *want {
            return Some(place);
        }
    }
    None
}

/// Makes five slots of four, and sets a row over all of them. The slots, and whether the row is set.
fn set_longer(demand: &mut Demand) -> (u32, Answer) {
    if demand.slots() > 5 {
        return (demand.slots(), None);
    }
    demand.lengthen(5);
    let answer = set(demand, row(0, 1, 0, 5, 1000));
    (demand.slots(), answer)
}

/// The first row that is answered otherwise in four slots, and what is answered in five.
fn answered(alloc: Global, rows: &[(DemandRow, Answer)]) -> (Option<usize>, (u32, Answer)) {
    let mut demand = Demand::new(alloc, 4);
    let otherwise = first_otherwise(&mut demand, rows);
    (otherwise, set_longer(&mut demand))
}

#[test]
fn refuses_in_order(rt: HostRuntime) {
    let rows = [
        (row(0, 1, 0, 4, 1000), DONE),
        (row(0, 1, 0, 4, 0), DONE),
        (row(0, 1, 2, 2, 1000), NO_SLOTS),
        (row(0, 1, 2, 2, 0), NO_SLOTS),
        (row(0, 1, 3, 2, 1000), NO_SLOTS),
        (row(0, 1, 3, 2, 0), NO_SLOTS),
        (row(0, 1, 0, 5, 1000), NO_SLOTS),
        (row(0, 1, 0, 5, 0), NO_SLOTS),
    ];
    assert!(rt; answered(rt.alloc(), &rows) == (None, (5, DONE)));
}

/// Sets ten thousand rows. Whether all are set.
fn fill(demand: &mut Demand) -> bool {
    for k in 0..10_000u32 {
        if set(demand, row(k / 100, k % 50, k % 7, 8 + k % 3, 2)) != DONE {
            return false;
        }
    }
    true
}

/// The first row that is answered otherwise where there are ten thousand; what stood where one is changed, and then taken
/// out; and what is then answered to one more.
fn set_beyond(
    demand: &mut Demand,
    rows: &[(DemandRow, Answer)],
) -> (Option<usize>, [Option<Units>; 2], Answer) {
    let otherwise = first_otherwise(demand, rows);
    let changed = change(demand, row(0, 0, 0, 8, 5));
    let left = change(demand, row(0, 0, 0, 8, 0));
    (
        otherwise,
        [changed, left],
        set(demand, row(100, 0, 0, 8, 1)),
    )
}

/// Whether ten thousand rows are set, how many there are, and what they produce.
fn filled(demand: &mut Demand) -> (bool, usize, u64) {
    let done = fill(demand);
    (done, demand.row_count(), demand.total().0)
}

/// The same, what is answered to further rows, and how many there are then.
fn told_of_most(
    alloc: Global,
    rows: &[(DemandRow, Answer)],
) -> (
    (bool, usize, u64),
    (Option<usize>, [Option<Units>; 2], Answer),
    usize,
) {
    let mut demand = Demand::new(alloc, 10_000);
    let before = filled(&mut demand);
    let beyond = set_beyond(&mut demand, rows);
    (before, beyond, demand.row_count())
}

#[test]
fn has_at_most_ten_thousand_rows(rt: HostRuntime) {
    let rows = [
        (row(100, 0, 0, 8, 1), TOO_MANY),
        (row(100, 0, 0, 0, 1), NO_SLOTS),
        (row(100, 0, 0, 8, 0), DONE),
    ];
    let (before, beyond, count) = told_of_most(rt.alloc(), &rows);
    assert!(rt; before == (true, 10_000, 20_000) && count == 10_000);
    assert!(rt; beyond == (None, [Some(Units(2)), Some(Units(5))], DONE));
}

/// Changes the first row of node 1 and changes it back. What stood there, what is produced and whether there is a row
/// between, and what is produced by slot 2 afterwards.
fn change_and_back(demand: &mut Demand, amount: u64) -> Option<(u64, u64, bool, u64)> {
    let changed = row(1, 0, 0, 5, amount);
    if changed.amount.0 > 1_000_000_000 {
        return None;
    }
    match demand.change(changed) {
        Ok(was) => {
            let produced = demand.by_end(NodeId(1), 0, 4).0;
            let has = demand.has(NodeId(1), 0);
            demand.restore(DemandRow {
                amount: was,
                ..changed
            });
            Some((was.0, produced, has, demand.by_end(NodeId(1), 0, 2).0))
        }
        Err(_) => None,
    }
}

/// The first of some amounts after which something is told otherwise, or the rows are not those of before.
fn first_not_undone(demand: &mut Demand, before: &Demand, amounts: &[u64]) -> Option<u64> {
    for amount in amounts {
        let told = change_and_back(demand, *amount);
        if told != Some((5000, *amount, *amount > 0, 3000)) {
            return Some(*amount);
        }
        if !demand.rows().eq(before.rows()) {
            return Some(*amount);
        }
    }
    None
}

/// The first three rows.
fn first_rows(demand: &Demand) -> [Option<DemandRow>; 3] {
    let mut rows = demand.rows();
    [rows.next(), rows.next(), rows.next()]
}

/// Changes that are undone, and then what is told of the copy that was made before them; none without memory.
fn undone_and_copy(demand: &mut Demand) -> Option<(Option<u64>, u64)> {
    match demand.try_copy() {
        Ok(before) => {
            let amount = first_not_undone(demand, &before, &[0, 1, 5000]);
            Some((amount, before.by_end(NodeId(0), 1, 2).0))
        }
        Err(_) => None,
    }
}

/// Whether two rows are set; what is told of changes that are undone; the rows then; and whether node 0 has rows for two
/// destinations.
fn told_of_changes(
    alloc: Global,
) -> (
    [Answer; 2],
    Option<(Option<u64>, u64)>,
    [Option<DemandRow>; 3],
    [bool; 2],
) {
    let mut demand = Demand::new(alloc, 12);
    let first = set(&mut demand, row(1, 0, 0, 5, 5000));
    let second = set(&mut demand, row(0, 1, 2, 4, 70));
    let undone = undone_and_copy(&mut demand);
    let rows = first_rows(&demand);
    let has = [demand.has(NodeId(0), 1), demand.has(NodeId(0), 0)];
    ([first, second], undone, rows, has)
}

#[test]
fn changes_are_undone(rt: HostRuntime) {
    let (answers, undone, rows, has) = told_of_changes(rt.alloc());
    assert!(rt; answers == [DONE, DONE] && undone == Some((None, 35)));
    let left = [Some(row(0, 1, 2, 4, 70)), Some(row(1, 0, 0, 5, 5000)), None];
    assert!(rt; rows == left && has == [true, false]);
}
