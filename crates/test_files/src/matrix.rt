//! A demand as a matrix over the slices of a profile: the same as its rows, and what is wrong with either file.
use crate::cases::{Read, expect, expect_read};
use crate::folders::{Base, Put};
use ltm_io::Doc;

/// A setup with so many rows of demand and of splits.
const TWO_ROWS: &str = "step_ms,slots,origin_capacity,rows\n1000,4,1,2\n";

const ONE_ROW: &str = "step_ms,slots,origin_capacity,rows\n1000,4,1,1\n";

const PAIR: &str = "origin,destination,vehicles\nn1,n2,0.005\n";

const SMALL_PAIR: &str = "origin,destination,vehicles\nn1,n2,0.001\n";

const NO_PAIR: &str = "origin,destination,vehicles\n";

// At the bound of rows and one beyond, as rows and as a matrix: a slice that gets nothing makes no row.
const BOUNDS: &[(Base, Put, &str)] = &[
    (
        Base::Setup(TWO_ROWS),
        Put::Rows(Doc::Demand, "n1,n2,0,2,0.002\nn1,n2,2,4,0.003\n"),
        "good",
    ),
    (
        Base::Demand(TWO_ROWS, PAIR),
        Put::Rows(Doc::Profile, "0,2,1\n2,4,1\n"),
        "good",
    ),
    (
        Base::Setup(TWO_ROWS),
        Put::Rows(
            Doc::Demand,
            "n1,n2,0,1,0.001\nn1,n2,1,2,0.002\nn1,n2,2,4,0.002\n",
        ),
        "Demand 4 TooManyRows",
    ),
    (
        Base::Demand(TWO_ROWS, PAIR),
        Put::Rows(Doc::Profile, "0,1,1\n1,2,1\n2,4,1\n"),
        "Demand 2 TooManyRows",
    ),
    (
        Base::Demand(ONE_ROW, SMALL_PAIR),
        Put::Rows(Doc::Profile, "0,1,1\n1,2,1\n2,4,1\n"),
        "good",
    ),
];

#[test]
fn rows_of_a_matrix_are_counted(rt: HostRuntime) {
    expect(&rt, rt.alloc(), BOUNDS);
}

const PROFILES: &[(Base, Put, &str)] = &[
    (Base::Demand(TWO_ROWS, PAIR), Put::Nothing, "no Profile"),
    (
        Base::Demand(TWO_ROWS, PAIR),
        Put::Text(Doc::Profile, "from_slot,to_slot\n0,4\n"),
        "Profile 1 Header",
    ),
    (
        Base::Demand(TWO_ROWS, NO_PAIR),
        Put::Rows(Doc::Profile, ""),
        "Profile 2 Rows",
    ),
    (
        Base::Demand(TWO_ROWS, NO_PAIR),
        Put::Rows(Doc::Profile, "0,4,1\n4,5\n"),
        "Profile 3 Width",
    ),
    (
        Base::Demand(TWO_ROWS, NO_PAIR),
        Put::Rows(Doc::Profile, "4,0,x\n"),
        "Profile 2 Field(3)",
    ),
    (
        Base::Demand(TWO_ROWS, NO_PAIR),
        Put::Rows(Doc::Profile, "0,5,0\n"),
        "Profile 2 BadSlots",
    ),
    (
        Base::Demand(TWO_ROWS, NO_PAIR),
        Put::Rows(Doc::Profile, "0,2,1\n1,4,1\n"),
        "Profile 3 BadSlots",
    ),
    (
        Base::Demand(TWO_ROWS, NO_PAIR),
        Put::Rows(Doc::Profile, "0,2,1000000\n2,4,1000001\n"),
        "Profile 3 Range(3)",
    ),
    (
        Base::Demand(TWO_ROWS, "origin,destination,vehicles\nn2,n2,1,\n"),
        Put::Rows(Doc::Profile, "0,4,1\n"),
        "Demand 2 Width",
    ),
    (
        Base::Demand(TWO_ROWS, "origin,destination,vehicles\nn2,n1,1\n"),
        Put::Rows(Doc::Profile, "0,4,1\n"),
        "Demand 2 NoOrigin",
    ),
    (
        Base::Demand(TWO_ROWS, "origin,destination,vehicles,\n"),
        Put::Rows(Doc::Profile, "0,4,1\n"),
        "Demand 1 Header",
    ),
    // Beside rows no profile is looked at.
    (Base::OneRoad, Put::Text(Doc::Profile, "no profile"), "good"),
];

#[test]
fn profiles_are_read_field_by_field(rt: HostRuntime) {
    expect(&rt, rt.alloc(), PROFILES);
}

/// What the one road says with five thousandths in two rows.
const TWO_SLICES: Read = Read {
    slots: 4,
    links: 1,
    nodes: 2,
    destinations: 1,
    ends: [Some(1), Some(1)],
    demand_rows: 2,
    vehicles: 5,
    split_rows: 1,
    weights: [Some(1), None, None],
    last_weight: None,
    exits: [Some(32_000), Some(32_000), Some(32_000), Some(32_000), None],
    entries: [Some(32_000), Some(32_000), Some(32_000), Some(32_000), None],
};

#[test]
fn matrix_says_what_its_rows_say(rt: HostRuntime) {
    let rows = Put::Rows(Doc::Demand, "n1,n2,0,2,0.002\nn1,n2,2,4,0.003\n");
    expect_read(&rt, rt.alloc(), Base::Setup(TWO_ROWS), rows, &TWO_SLICES);
    let slices = Put::Rows(Doc::Profile, "0,2,1\n2,4,1\n");
    expect_read(
        &rt,
        rt.alloc(),
        Base::Demand(TWO_ROWS, PAIR),
        slices,
        &TWO_SLICES,
    );
}
