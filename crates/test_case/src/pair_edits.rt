//! Edits of all split rows of a node and a destination: the cause of each refusal, and what is left.
use crate::acts::{Act, Told};
use crate::cases::Case;
use crate::changes::Change::{Limit, Splits};
use crate::stories::tell;
use ltm_scenario::EditCause;

const UNKNOWN: Told = Told::Refused(1, EditCause::UnknownName);

const BAD_SLOTS: Told = Told::Refused(1, EditCause::BadSlots);

const OPEN: Told = Told::Refused(1, EditCause::OpenSplit);

const IN_ORDER: &[(Act, Told)] = &[
    (Act::Edit(Splits("x", "y", &[(4, "b", 0)])), UNKNOWN),
    (Act::Edit(Splits("n3", "y", &[(4, "b", 0)])), UNKNOWN),
    (
        Act::Edit(Splits("n1", "n1", &[(4, "b", 0)])),
        Told::Refused(1, EditCause::UnknownDestination),
    ),
    (
        Act::Edit(Splits("n3", "n3", &[(4, "b", 0)])),
        Told::Refused(1, EditCause::SameEnds),
    ),
    (Act::Edit(Splits("n1", "n2", &[])), BAD_SLOTS),
    (Act::Edit(Splits("n1", "n2", &[(1, "b", 0)])), BAD_SLOTS),
    (Act::Edit(Splits("n1", "n2", &[(0, "b", 0)])), UNKNOWN),
    (
        Act::Edit(Splits("n1", "n2", &[(0, "a", 0), (0, "b", 0)])),
        Told::Refused(1, EditCause::ZeroWeight),
    ),
    (
        Act::Edit(Splits("n1", "n2", &[(0, "c", 1), (0, "b", 0)])),
        OPEN,
    ),
    (
        Act::Edit(Splits("n1", "n2", &[(0, "a", 1), (0, "b", 0)])),
        BAD_SLOTS,
    ),
    (
        Act::Edit(Splits("n1", "n2", &[(0, "a", 1), (4, "b", 0)])),
        BAD_SLOTS,
    ),
    (
        Act::Edit(Splits("n1", "n2", &[(0, "a", 1), (3, "b", 0)])),
        UNKNOWN,
    ),
    (Act::Books, Told::Books([4, 3, 1000, 2])),
];

// Each edit breaks what its cause says, and mostly what later causes say.
#[test]
fn causes_come_row_by_row(rt: HostRuntime) {
    tell(&rt, rt.alloc(), Case::ThreeLinks, IN_ORDER);
}

// Of the pair of n1 and n2 no row stood before; of that of n1 and n3 one did.
const ROWS_COUNTED: &[(Act, Told)] = &[
    (
        Act::Batch(&[Splits("n1", "n2", &[(0, "a", 1)]), Limit("z", 0, 1)]),
        Told::Refused(2, EditCause::UnknownName),
    ),
    (Act::Books, Told::Books([4, 3, 1000, 2])),
    (
        Act::Edit(Splits("n1", "n2", &[(0, "a", 1), (1, "a", 2), (3, "a", 1)])),
        Told::Yes,
    ),
    (Act::Books, Told::Books([4, 3, 1000, 5])),
    (
        Act::Edit(Splits("n1", "n3", &[(0, "c", 1), (2, "a", 7)])),
        Told::Yes,
    ),
    (Act::Books, Told::Books([4, 3, 1000, 6])),
    (
        Act::Batch(&[Splits("n1", "n2", &[(0, "a", 1)]), Limit("z", 0, 1)]),
        Told::Refused(2, EditCause::UnknownName),
    ),
    (Act::Books, Told::Books([4, 3, 1000, 6])),
    (Act::Edit(Splits("n1", "n2", &[(0, "a", 1)])), Told::Yes),
    (Act::Books, Told::Books([4, 3, 1000, 4])),
    (Act::Check, Told::Yes),
];

#[test]
fn rows_of_a_pair_are_replaced(rt: HostRuntime) {
    tell(&rt, rt.alloc(), Case::ThreeLinks, ROWS_COUNTED);
}

const MANY: Told = Told::Refused(1, EditCause::TooManyRows);

const FEW_ROWS: &[(Act, Told)] = &[
    (
        Act::Edit(Splits("n1", "n2", &[(0, "a", 1), (1, "a", 2)])),
        MANY,
    ),
    (Act::Edit(Splits("n1", "n2", &[(0, "a", 1)])), Told::Yes),
    (
        Act::Edit(Splits("n1", "n3", &[(0, "c", 1), (1, "c", 2)])),
        MANY,
    ),
    (Act::Edit(Splits("n1", "n3", &[(0, "c", 1)])), Told::Yes),
    (Act::Books, Told::Books([4, 3, 1000, 3])),
];

#[test]
fn too_many_rows_count_what_is_replaced(rt: HostRuntime) {
    tell(&rt, rt.alloc(), Case::FewRows, FEW_ROWS);
}
