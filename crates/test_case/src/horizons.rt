//! A longer horizon: when it is refused, what its slots hold, and what a refused batch leaves.
use crate::acts::{Act, Told};
use crate::cases::Case;
use crate::changes::Change::{Demand, Horizon, Limit};
use crate::stories::tell;
use ltm_scenario::{EditCause, HorizonFault};

const BAD_SLOTS: Told = Told::Refused(1, EditCause::BadSlots);

const LONGER: &[(Act, Told)] = &[
    (Act::Edit(Horizon(3)), BAD_SLOTS),
    (Act::Edit(Horizon(0)), BAD_SLOTS),
    (Act::Edit(Horizon(10_001)), BAD_SLOTS),
    (Act::Edit(Horizon(4)), Told::Yes),
    (Act::Edit(Horizon(4)), BAD_SLOTS),
    (Act::Edit(Horizon(10_000)), Told::Yes),
    (Act::Edit(Horizon(10_001)), BAD_SLOTS),
    (Act::Books, Told::Books([10_000, 1, 1000, 1])),
];

#[test]
fn horizons_are_longer_and_at_most_ten_thousand(rt: HostRuntime) {
    tell(&rt, rt.alloc(), Case::Road(3), LONGER);
}

const LATER: &[(Act, Told)] = &[
    (
        Act::Batch(&[Demand("n1", "n2", 4, 6), Horizon(6)]),
        BAD_SLOTS,
    ),
    (Act::Books, Told::Books([3, 1, 1000, 1])),
    (
        Act::Batch(&[Horizon(6), Demand("n1", "n2", 4, 6)]),
        Told::Yes,
    ),
    (Act::Books, Told::Books([6, 1, 2000, 1])),
];

#[test]
fn later_edits_see_the_longer_horizon(rt: HostRuntime) {
    tell(&rt, rt.alloc(), Case::Road(3), LATER);
}

const REFUSED: &[(Act, Told)] = &[
    (Act::Edit(Limit("a", 2, 3)), Told::Yes),
    (
        Act::Batch(&[
            Horizon(6),
            Limit("a", 1, 5),
            Demand("n1", "n2", 4, 6),
            Limit("z", 0, 1),
        ]),
        Told::Refused(4, EditCause::UnknownName),
    ),
    (Act::Books, Told::Books([3, 1, 1000, 1])),
    (Act::Lengthen(6), Told::Yes),
    (Act::Limits(1), Told::Pair(32_000, 32_000)),
    (Act::Limits(2), Told::Pair(0, 32_000)),
    (Act::Limits(3), Told::Pair(32_000, 32_000)),
    (Act::Limits(4), Told::Pair(32_000, 32_000)),
    (Act::Limits(5), Told::Pair(32_000, 32_000)),
];

// What a refused batch set in new slots does not come back with them, and the last slot's limit is not theirs.
#[test]
fn refused_batch_leaves_the_horizon(rt: HostRuntime) {
    tell(&rt, rt.alloc(), Case::Road(3), REFUSED);
}

const TOO_LONG: &[(Act, Told)] = &[
    (Act::Demand(0), Told::Yes),
    (Act::SplitAll, Told::Yes),
    (
        Act::Edit(Horizon(10_000)),
        Told::Refused(1, EditCause::CellsOver(180_056_004)),
    ),
    (
        Act::Lengthen(10_000),
        Told::NoHorizon(HorizonFault::CellsOver(180_056_004)),
    ),
    (
        Act::Lengthen(2_000),
        Told::NoHorizon(HorizonFault::BadSlots),
    ),
    (Act::Books, Told::Books([2_000, 1000, 1000, 1000])),
];

#[test]
fn long_corridor_would_have_too_many_cells(rt: HostRuntime) {
    tell(&rt, rt.alloc(), Case::Corridor(2_000), TOO_LONG);
}
