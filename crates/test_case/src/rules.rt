//! The rules of a valid case, its cells, and its readers.
use crate::acts::{Act, Told};
use crate::cases::Case;
use crate::stories::tell;

// The demand row comes before the late split row of an earlier node, and the weight of that leads to a node without a row.
const RULES: &[(Act, Told)] = &[
    (Act::Demand(5), Told::Yes),
    (Act::Split(0, 1), Told::Yes),
    (Act::Lacks("n0005", "n1000"), Told::Yes),
    (Act::Split(5, 0), Told::Yes),
    (Act::Lacks("n0000", "n1000"), Told::Yes),
    (Act::Split(0, 0), Told::Yes),
    (Act::Lacks("n0001", "n1000"), Told::Yes),
    (Act::SplitAll, Told::Yes),
    (Act::Cells, Told::Cells(180_056_004)),
    (Act::Check, Told::Cells(180_056_004)),
];

#[test]
fn rules_are_checked_in_order(rt: HostRuntime) {
    tell(&rt, rt.alloc(), Case::Corridor(10_000), RULES);
}

const SHORT: &[(Act, Told)] = &[
    (Act::Demand(0), Told::Yes),
    (Act::SplitAll, Told::Yes),
    (Act::Cells, Told::Cells(36_016_004)),
    (Act::Check, Told::Yes),
];

#[test]
fn short_corridor_is_valid(rt: HostRuntime) {
    tell(&rt, rt.alloc(), Case::Corridor(2_000), SHORT);
}

const UNSPLIT: &[(Act, Told)] = &[(Act::Lacks("n1", "n2"), Told::Yes)];

#[test]
fn road_without_split_row_names_it(rt: HostRuntime) {
    tell(&rt, rt.alloc(), Case::UnsplitRoad, UNSPLIT);
}

const COPY: &[(Act, Told)] = &[
    (Act::Books, Told::Books([4, 1, 1000, 1])),
    (Act::Destination, Told::Pair(1, 0)),
    (Act::Wave, Told::Pair(0, 4000)),
    (Act::Limits(0), Told::Pair(32_000, 32_000)),
    (Act::Limits(1), Told::Pair(32_000, 0)),
    (Act::Limits(2), Told::Pair(32_000, 0)),
    (Act::Limits(3), Told::Pair(32_000, 32_000)),
];

#[test]
fn copy_says_the_same(rt: HostRuntime) {
    tell(&rt, rt.alloc(), Case::ClosedCopy, COPY);
}
