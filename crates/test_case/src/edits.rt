//! Batches of edits: the cause of each refusal, and what is left.
use crate::acts::{Act, Told};
use crate::cases::Case;
use crate::changes::Change::{Demand, Exit, Limit, Split, Wave};
use crate::stories::tell;
use ltm_diagram::{DiagramFault, Field};
use ltm_scenario::EditCause;

const ZERO_WAVE: Told = Told::Refused(1, EditCause::Diagram(DiagramFault::Zero(Field::Wave)));

const ONE_ROAD: &[(Act, Told)] = &[
    (
        Act::Edit(Demand("n2", "n1", 0, 2)),
        Told::Refused(1, EditCause::UnknownDestination),
    ),
    (
        Act::Edit(Split("n1", "n2", 0, "a", 0)),
        Told::Refused(1, EditCause::ZeroWeight),
    ),
    (
        Act::Edit(Limit("a", 2, 2)),
        Told::Refused(1, EditCause::BadSlots),
    ),
    (
        Act::Edit(Demand("n1", "n2", 0, 5)),
        Told::Refused(1, EditCause::BadSlots),
    ),
    (Act::Edit(Wave("a", 0)), ZERO_WAVE),
];

#[test]
fn edits_of_one_road_are_refused(rt: HostRuntime) {
    tell(&rt, rt.alloc(), Case::Road(4), ONE_ROAD);
}

const REFUSED_BATCH: &[(Act, Told)] = &[
    (
        Act::Batch(&[Limit("a", 0, 1), Limit("z", 0, 1)]),
        Told::Refused(2, EditCause::UnknownName),
    ),
    (Act::Books, Told::Books([4, 1, 1000, 1])),
    (Act::Limits(0), Told::Pair(32_000, 32_000)),
];

#[test]
fn refused_batch_changes_nothing(rt: HostRuntime) {
    tell(&rt, rt.alloc(), Case::Road(4), REFUSED_BATCH);
}

// The second stands in place of a row that there is.
const FULL_ROAD: &[(Act, Told)] = &[
    (
        Act::Edit(Demand("n1", "n2", 0, 2)),
        Told::Refused(1, EditCause::TooManyRows),
    ),
    (Act::Edit(Demand("n1", "n2", 0, 1)), Told::Yes),
];

#[test]
fn ten_thousand_demand_rows_are_the_most(rt: HostRuntime) {
    tell(&rt, rt.alloc(), Case::FullRoad, FULL_ROAD);
}

const IN_ORDER: &[(Act, Told)] = &[
    // Demand.
    (
        Act::Edit(Demand("x", "y", 2, 2)),
        Told::Refused(1, EditCause::UnknownName),
    ),
    (
        Act::Edit(Demand("n3", "y", 2, 2)),
        Told::Refused(1, EditCause::UnknownName),
    ),
    (
        Act::Edit(Demand("n3", "n1", 2, 2)),
        Told::Refused(1, EditCause::UnknownDestination),
    ),
    (
        Act::Edit(Demand("n3", "n3", 2, 2)),
        Told::Refused(1, EditCause::NoOrigin),
    ),
    (
        Act::Edit(Demand("n2", "n2", 2, 2)),
        Told::Refused(1, EditCause::SameEnds),
    ),
    (
        Act::Edit(Demand("n1", "n2", 0, 5)),
        Told::Refused(1, EditCause::BadSlots),
    ),
    (
        Act::Edit(Demand("n1", "n2", 0, 4)),
        Told::Refused(1, EditCause::OpenSplit),
    ),
    (Act::Edit(Demand("n1", "n3", 0, 4)), Told::Yes),
    // Split rows.
    (
        Act::Edit(Split("x", "y", 4, "b", 0)),
        Told::Refused(1, EditCause::UnknownName),
    ),
    (
        Act::Edit(Split("n3", "y", 4, "b", 0)),
        Told::Refused(1, EditCause::UnknownName),
    ),
    (
        Act::Edit(Split("n1", "n1", 4, "b", 0)),
        Told::Refused(1, EditCause::UnknownDestination),
    ),
    (
        Act::Edit(Split("n3", "n3", 4, "b", 0)),
        Told::Refused(1, EditCause::SameEnds),
    ),
    (
        Act::Edit(Split("n1", "n2", 4, "b", 0)),
        Told::Refused(1, EditCause::BadSlots),
    ),
    (
        Act::Edit(Split("n1", "n2", 3, "b", 0)),
        Told::Refused(1, EditCause::UnknownName),
    ),
    (
        Act::Edit(Split("n1", "n2", 3, "a", 0)),
        Told::Refused(1, EditCause::ZeroWeight),
    ),
    (
        Act::Edit(Split("n1", "n2", 3, "a", 1)),
        Told::Refused(1, EditCause::OpenSplit),
    ),
    (
        Act::Edit(Split("n1", "n2", 0, "c", 1)),
        Told::Refused(1, EditCause::OpenSplit),
    ),
    (Act::Edit(Split("n1", "n2", 0, "a", 1)), Told::Yes),
    // Entry and exit limits.
    (
        Act::Edit(Limit("z", 2, 2)),
        Told::Refused(1, EditCause::UnknownName),
    ),
    (
        Act::Edit(Exit("z", 2, 2)),
        Told::Refused(1, EditCause::UnknownName),
    ),
    (
        Act::Edit(Limit("a", 2, 2)),
        Told::Refused(1, EditCause::BadSlots),
    ),
    (
        Act::Edit(Exit("a", 2, 2)),
        Told::Refused(1, EditCause::BadSlots),
    ),
    (
        Act::Edit(Limit("a", 0, 5)),
        Told::Refused(1, EditCause::BadSlots),
    ),
    (
        Act::Edit(Exit("a", 0, 5)),
        Told::Refused(1, EditCause::BadSlots),
    ),
    (Act::Edit(Limit("a", 0, 4)), Told::Yes),
    (Act::Edit(Exit("a", 0, 4)), Told::Yes),
    // Diagrams.
    (
        Act::Edit(Wave("z", 0)),
        Told::Refused(1, EditCause::UnknownName),
    ),
    (Act::Edit(Wave("a", 0)), ZERO_WAVE),
    (Act::Edit(Wave("a", 36)), Told::Yes),
];

// Each edit breaks what its cause says, and mostly what later causes say.
#[test]
fn causes_come_in_order(rt: HostRuntime) {
    tell(&rt, rt.alloc(), Case::ThreeLinks, IN_ORDER);
}
