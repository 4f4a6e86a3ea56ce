//! Split rows: which are refused, and which are in force.
use ltm_splits::{SplitFault, SplitKey, Splits, rules_of_rows};
use ltm_units::NodeId;
use std::alloc::Global;

/// A node, a destination, a first slot, weights, and whether the row is set.
type Row = (u32, u32, u32, &'static [u32], Result<(), SplitFault>);

/// The place of the first row that is answered otherwise; none where all are answered so.
fn first_otherwise(splits: &mut Splits, rows: &[Row]) -> Option<usize> {
    for (place, (node, destination, from, weights, want)) in rows.iter().enumerate() {
        if weights.len() > 4 {
            return Some(place);
        }
        if splits.set(NodeId(*node), *destination, *from, weights) != *want {
            return Some(place);
        }
    }
    None
}

/// Makes the horizon longer and shorter. The slots and the rows at first, of ten slots with one row more, and the slots at
/// the end.
fn longer_and_shorter(splits: &mut Splits) -> ([usize; 2], [usize; 2], u32) {
    let first = [splits.row_count(), splits.slots() as usize];
    if splits.slots() != 4 {
        return (first, [0, 0], 0);
    }
    splits.lengthen(10);
    let _ = splits.set(NodeId(7), 1, 9, &[1, 1]);
    let then = [splits.row_count(), splits.slots() as usize];
    splits.lengthen(12);
    splits.shorten(11);
    (first, then, splits.slots())
}

/// What is answered to rows over four slots, and how the horizon changes.
fn answered(alloc: Global, rows: &[Row]) -> (Option<usize>, ([usize; 2], [usize; 2], u32)) {
    let mut splits = Splits::new(alloc, 4);
    let otherwise = first_otherwise(&mut splits, rows);
    (otherwise, longer_and_shorter(&mut splits))
}

#[test]
fn refuses_in_order(rt: HostRuntime) {
    let rows: [Row; 6] = [
        (7, 1, 4, &[0, 0], Err(SplitFault::BadSlots)),
        (7, 1, 4, &[1], Err(SplitFault::BadSlots)),
        (7, 1, 3, &[0, 0], Err(SplitFault::ZeroWeight)),
        (7, 1, 0, &[], Err(SplitFault::ZeroWeight)),
        (7, 1, 0, &[2, 1], Ok(())),
        (7, 1, 3, &[0, 5], Ok(())),
    ];
    let told = (None, ([2, 4], [3, 10], 11));
    assert!(rt; answered(rt.alloc(), &rows) == told);
}

fn is_told(alloc: Global, fault: SplitFault, want: &str) -> bool {
    match format!(in alloc; "{fault}") {
        Ok(text) => text.as_str() == want,
        Err(_) => false,
    }
}

#[test]
fn tells_a_fault(rt: HostRuntime) {
    assert!(rt; is_told(rt.alloc(), SplitFault::ZeroWeight, "no weight is above 0"));
}

/// Sets a row in each of ten thousand slots of a node. Whether all are set.
fn fill_node(splits: &mut Splits, node: u32) -> bool {
    for from in 0..10_000u32 {
        if splits.set(NodeId(node), 0, from, &[1]).is_err() {
            return false;
        }
    }
    true
}

/// Sets fifty thousand rows. Whether all are set, and how many there are.
fn fill(splits: &mut Splits) -> (bool, usize) {
    for node in 0..5u32 {
        if !fill_node(splits, node) {
            return (false, splits.row_count());
        }
    }
    (true, splits.row_count())
}

/// What is told of fifty thousand rows, what is answered to two more, and how many there are then.
fn told_of_most(alloc: Global, rows: &[Row]) -> ((bool, usize), Option<usize>, usize) {
    let mut splits = Splits::new(alloc, 10_000);
    let filled = fill(&mut splits);
    let otherwise = first_otherwise(&mut splits, rows);
    (filled, otherwise, splits.row_count())
}

#[test]
fn has_at_most_fifty_thousand_rows(rt: HostRuntime) {
    let rows: [Row; 2] = [
        (5, 0, 0, &[1], Err(SplitFault::TooManyRows)),
        (4, 0, 7, &[2], Ok(())),
    ];
    let told = ((true, 50_000), None, 50_000);
    assert!(rt; told_of_most(rt.alloc(), &rows) == told);
}

/// The first of some slots where the weights in force of node 2 for destination 1 are others.
fn first_other(splits: &Splits, cases: &[(u32, &[u32])]) -> Option<u32> {
    for (slot, want) in cases {
        if splits.row_at(NodeId(2), 1, *slot).unwrap_or(&[]) != *want {
            return Some(*slot);
        }
    }
    None
}

/// The first slots of two nodes for some destinations, and whether there are the weights of one row, and no weights where
/// no row begins.
fn begun(splits: &Splits) -> ([Option<u32>; 4], bool, bool) {
    let begins = [
        splits.begins(NodeId(2), 1),
        splits.begins(NodeId(2), 0),
        splits.begins(NodeId(2), 2),
        splits.begins(NodeId(9), 0),
    ];
    let stands = splits.row(NodeId(2), 1, 6).unwrap_or(&[]) == [3, 0].as_slice();
    (begins, stands, splits.row(NodeId(2), 1, 5).is_none())
}

/// What is told of rows over ten slots.
fn told_of_rows(
    alloc: Global,
    rows: &[Row],
    cases: &[(u32, &[u32])],
) -> (Option<usize>, Option<u32>, ([Option<u32>; 4], bool, bool)) {
    let mut splits = Splits::new(alloc, 10);
    let otherwise = first_otherwise(&mut splits, rows);
    let other = first_other(&splits, cases);
    (otherwise, other, begun(&splits))
}

#[test]
fn finds_the_row_in_force(rt: HostRuntime) {
    let rows: [Row; 5] = [
        (2, 1, 6, &[0, 3], Ok(())),
        (2, 1, 2, &[1, 1], Ok(())),
        (2, 0, 0, &[9, 9], Ok(())),
        (0, 1, 0, &[4], Ok(())),
        (2, 1, 6, &[3, 0], Ok(())),
    ];
    // A slot, and the weights in force of node 2 for destination 1: before, at and after each of its rows.
    let cases: [(u32, &[u32]); 6] = [
        (1, &[]),
        (2, &[1, 1]),
        (5, &[1, 1]),
        (6, &[3, 0]),
        (7, &[3, 0]),
        (9, &[3, 0]),
    ];
    let (otherwise, other, begun) = told_of_rows(rt.alloc(), &rows, &cases);
    assert!(rt; (otherwise, other) == (None, None));
    let begins = [Some(2), Some(0), None, None];
    assert!(rt; begun == (begins, true, true));
}

/// Puts back the weights of one row, and takes another out. Whether the first stood.
fn undo(splits: &mut Splits) -> bool {
    if splits.row(NodeId(1), 2, 5).is_none() {
        return false;
    }
    splits.put_back(NodeId(1), 2, 5, &[1, 2]);
    splits.take_out(NodeId(1), 0, 0);
    true
}

/// The keys of the first four rows; none of a row with other weights.
fn first_keys(splits: &Splits) -> [Option<(u32, u32, u32)>; 4] {
    let mut keys = [None; 4];
    let mut rows = splits.rows();
    for place in 0..4 {
        keys[place] = rows.next().and_then(key_of);
    }
    keys
}

fn key_of(row: (SplitKey, &[u32])) -> Option<(u32, u32, u32)> {
    let (key, weights) = row;
    if weights == [1, 2].as_slice() {
        Some((key.node.0, key.destination, key.from))
    } else {
        None
    }
}

/// The keys of a copy; none at all without memory.
fn keys_of_copy(splits: &Splits) -> Option<[Option<(u32, u32, u32)>; 4]> {
    match splits.try_copy() {
        Ok(copy) => Some(first_keys(&copy)),
        Err(_) => None,
    }
}

/// What is answered to rows, whether a row that is undone stood, and the keys then.
fn undone(
    alloc: Global,
    rows: &[Row],
) -> (Option<usize>, bool, Option<[Option<(u32, u32, u32)>; 4]>) {
    let mut splits = Splits::new(alloc, 10);
    let otherwise = first_otherwise(&mut splits, rows);
    let stood = undo(&mut splits);
    (otherwise, stood, keys_of_copy(&splits))
}

#[test]
fn goes_over_the_rows_and_undoes(rt: HostRuntime) {
    let rows: [Row; 5] = [
        (3, 0, 0, &[1, 2], Ok(())),
        (1, 2, 5, &[1, 2], Ok(())),
        (1, 2, 0, &[1, 2], Ok(())),
        (1, 0, 0, &[1, 2], Ok(())),
        (1, 2, 5, &[7], Ok(())),
    ];
    let (otherwise, stood, keys) = undone(rt.alloc(), &rows);
    assert!(rt; (otherwise, stood) == (None, true));
    let left = [Some((1, 2, 0)), Some((1, 2, 5)), Some((3, 0, 0)), None];
    assert!(rt; keys == Some(left));
    rules_of_rows();
}
