//! What the files of a good case say.
use crate::cases::{Read, expect_read};
use crate::folders::{Base, Put};
use ltm_io::Doc;

const ONE_ROAD: Read = Read {
    slots: 4,
    links: 1,
    nodes: 2,
    destinations: 1,
    ends: [Some(1), Some(1)],
    demand_rows: 1,
    vehicles: 1000,
    split_rows: 1,
    weights: [Some(1), None, None],
    last_weight: None,
    exits: [Some(32_000), Some(32_000), Some(32_000), Some(32_000), None],
    entries: [Some(32_000), Some(32_000), Some(32_000), Some(32_000), None],
};

#[test]
fn one_road_is_read(rt: HostRuntime) {
    expect_read(&rt, rt.alloc(), Base::OneRoad, Put::Nothing, &ONE_ROAD);
}

const SIGNALLED: Read = Read {
    slots: 4,
    links: 1,
    nodes: 2,
    destinations: 1,
    ends: [Some(1), Some(1)],
    demand_rows: 1,
    vehicles: 1000,
    split_rows: 1,
    weights: [Some(1), None, None],
    last_weight: None,
    exits: [Some(32_000), Some(250), Some(32_000), Some(32_000), None],
    entries: [Some(32_000), Some(32_000), Some(32_000), Some(32_000), None],
};

#[test]
fn signals_set_exit_limits(rt: HostRuntime) {
    let base = Base::Setup("step_ms,slots,origin_capacity,signals\n1000,4,1,1\n");
    let put = Put::Rows(Doc::Signals, "a,1,3,0.25\na,2,4,40\n");
    expect_read(&rt, rt.alloc(), base, put, &SIGNALLED);
}

const LIMITED: Read = Read {
    slots: 4,
    links: 1,
    nodes: 2,
    destinations: 1,
    ends: [Some(1), Some(1)],
    demand_rows: 1,
    vehicles: 1000,
    split_rows: 1,
    weights: [Some(1), None, None],
    last_weight: None,
    exits: [Some(32_000), Some(32_000), Some(32_000), Some(32_000), None],
    entries: [Some(32_000), Some(250), Some(32_000), Some(32_000), None],
};

#[test]
fn limits_set_entry_limits(rt: HostRuntime) {
    let base = Base::Setup("step_ms,slots,origin_capacity,limits\n1000,4,1,1\n");
    let put = Put::Rows(Doc::Limits, "a,1,3,0.25\na,2,4,40\n");
    expect_read(&rt, rt.alloc(), base, put, &LIMITED);
}

const THREE_ROADS: Read = Read {
    slots: 4,
    links: 3,
    nodes: 3,
    destinations: 2,
    ends: [Some(2), Some(1)],
    demand_rows: 1,
    vehicles: 500,
    split_rows: 3,
    weights: [Some(3), Some(0), None],
    last_weight: None,
    exits: [Some(32_000), Some(32_000), Some(32_000), Some(32_000), None],
    entries: [Some(32_000), Some(32_000), Some(32_000), Some(32_000), None],
};

#[test]
fn later_rows_replace_earlier_ones(rt: HostRuntime) {
    expect_read(
        &rt,
        rt.alloc(),
        Base::ThreeRoads,
        Put::Nothing,
        &THREE_ROADS,
    );
}
