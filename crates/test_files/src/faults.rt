//! The first fault of a bad case.
use crate::cases::{expect, expect_rows};
use crate::folders::{Base, Put};
use ltm_io::Doc;

const SETUP: &[(&str, &str)] = &[
    ("", "Setup 2 Rows"),
    ("1000,4,1,0\n", "Setup 2 Width"),
    ("1000,4,1\n,,\n", "Setup 3 Rows"),
    ("0x10,4,1\n", "Setup 2 Field(1)"),
    ("0,0,x\n", "Setup 2 Field(3)"),
    ("0,0,0\n,,\n", "Setup 2 Range(1)"),
    ("1000,10001,0\n", "Setup 2 Range(2)"),
    ("1000,4,32.001\n", "Setup 2 Range(3)"),
    (
        "2001,4,1\n",
        "Links 2 StepTooLong { free_ms: 2000, wave_ms: 4000 }",
    ),
];

#[test]
fn setup_is_read_field_by_field(rt: HostRuntime) {
    expect_rows(&rt, rt.alloc(), Doc::Setup, SETUP);
}

const LINKS: &[(&str, &str)] = &[
    ("", "Demand 2 Unknown(1)"),
    (",,,,,\n", "Links 2 Width"),
    ("a,n1,,x,36,18,150\n", "Links 2 Field(3)"),
    ("a,n1,n1,0,0,0,0\n", "Links 2 SelfLoop"),
    ("a,n1,n2,20,0,18,10001\n", "Links 2 Zero(Free)"),
    (
        "a,n1,n2,20,36,18,150\na,n1,n2,20,36,18,150\n",
        "Links 3 TwiceNamed",
    ),
];

#[test]
fn links_are_read_field_by_field(rt: HostRuntime) {
    expect_rows(&rt, rt.alloc(), Doc::Links, LINKS);
}

const DEMAND: &[(&str, &str)] = &[
    ("n1,n2,0,2\n", "Demand 2 Width"),
    ("n1,n9,0,2,1.0000\n", "Demand 2 Field(5)"),
    ("n9,n9,0,2,1\n", "Demand 2 Unknown(1)"),
    ("n1,n9,2,2,1\n", "Demand 2 Unknown(2)"),
    ("n2,n2,2,2,1\n", "Demand 2 NoOrigin"),
    ("n1,n1,2,2,1\n", "Demand 2 SameEnds"),
    ("n1,n2,0,2,1\nn1,n2,3,5,1\n", "Demand 3 BadSlots"),
];

#[test]
fn demand_is_read_field_by_field(rt: HostRuntime) {
    expect_rows(&rt, rt.alloc(), Doc::Demand, DEMAND);
}

const SPLITS: &[(&str, &str)] = &[
    ("n1,n2,0,a=1,\n", "Splits 2 Width"),
    ("n9,n9,9,a=1 a=2\n", "Splits 2 Field(4)"),
    ("n9,n9,9,b=1\n", "Splits 2 Unknown(1)"),
    ("n1,n9,9,b=1\n", "Splits 2 Unknown(2)"),
    ("n1,n1,9,b=1\n", "Splits 2 SameEnds"),
    ("n1,n2,4,b=1\n", "Splits 2 BadSlots"),
    ("n1,n2,0,a=0 b=0\n", "Splits 2 Unknown(4)"),
    ("n1,n2,0,a=0\n", "Splits 2 ZeroWeight"),
    ("", "Whole 0 NoSplit"),
    ("n1,n2,1,a=1\n", "Whole 0 NoSplit"),
];

#[test]
fn splits_are_read_field_by_field(rt: HostRuntime) {
    expect_rows(&rt, rt.alloc(), Doc::Splits, SPLITS);
}

const HEADERS: &[(Base, Put, &str)] = &[
    (
        Base::OneRoad,
        Put::Text(Doc::Setup, "step_ms,slots\n1000,4\n"),
        "Setup 1 Header",
    ),
    (
        Base::OneRoad,
        Put::Text(
            Doc::Setup,
            "step_ms,slots,origin_capacity,signal\n1000,4,1,0\n",
        ),
        "Setup 1 Header",
    ),
    (
        Base::OneRoad,
        Put::Text(Doc::Setup, "step_ms,slots,origin_capacity \n1000,4,1\n"),
        "Setup 1 Header",
    ),
    (Base::OneRoad, Put::Text(Doc::Links, ""), "Links 1 Header"),
    (
        Base::OneRoad,
        Put::Text(
            Doc::Demand,
            "origin,destination,from_slot,to_slot,vehicles,\n",
        ),
        "Demand 1 Header",
    ),
    (
        Base::OneRoad,
        Put::Text(Doc::Splits, "node,destination,from_slot,Weights\n"),
        "Splits 1 Header",
    ),
];

#[test]
fn headers_name_all_fields(rt: HostRuntime) {
    expect(&rt, rt.alloc(), HEADERS);
}

const SIGNALLED: Base = Base::Setup("step_ms,slots,origin_capacity,signals\n1000,4,1,1\n");

const SIGNALS: &[(Base, Put, &str)] = &[
    (SIGNALLED, Put::Nothing, "no Signals"),
    (
        SIGNALLED,
        Put::Rows(Doc::Signals, "a,0,4,1,\n"),
        "Signals 2 Width",
    ),
    (
        SIGNALLED,
        Put::Rows(Doc::Signals, "a,x,y,1\n"),
        "Signals 2 Field(2)",
    ),
    (
        SIGNALLED,
        Put::Rows(Doc::Signals, "z,0,4,1\n"),
        "Signals 2 Unknown(1)",
    ),
    (
        SIGNALLED,
        Put::Rows(Doc::Signals, "n1,4,0,1\n"),
        "Signals 2 Unknown(1)",
    ),
    (
        SIGNALLED,
        Put::Rows(Doc::Signals, "a,0,5,1\n"),
        "Signals 2 BadSlots",
    ),
    (SIGNALLED, Put::Rows(Doc::Signals, "a,0,4,1\n"), "good"),
    (
        Base::Setup("step_ms,slots,origin_capacity,signals\n1000,4,1,0\n"),
        Put::Text(Doc::Signals, "no signals"),
        "good",
    ),
    (
        Base::Setup("step_ms,slots,origin_capacity,signals\n1000,4,1,2\n"),
        Put::Nothing,
        "Setup 2 Range(4)",
    ),
];

#[test]
fn signals_are_read_where_the_setup_asks(rt: HostRuntime) {
    expect(&rt, rt.alloc(), SIGNALS);
}

const LIMITED: Base = Base::Setup("step_ms,slots,origin_capacity,signals,limits\n1000,4,1,0,1\n");

const LIMITS: &[(Base, Put, &str)] = &[
    (LIMITED, Put::Nothing, "no Limits"),
    (
        LIMITED,
        Put::Text(Doc::Limits, "no limits"),
        "Limits 1 Header",
    ),
    (
        LIMITED,
        Put::Rows(Doc::Limits, "a,0,5,1\n"),
        "Limits 2 BadSlots",
    ),
    (
        Base::Setup("step_ms,slots,origin_capacity,signals,limits\n1000,4,1,1,1\n"),
        Put::Rows(Doc::Limits, "z,0,4,1\n"),
        "no Signals",
    ),
];

#[test]
fn limits_are_read_where_the_setup_asks(rt: HostRuntime) {
    expect(&rt, rt.alloc(), LIMITS);
}

const FETCHED: &[(Base, Put, &str)] = &[
    (Base::Empty, Put::Nothing, "no Setup"),
    (Base::Empty, Put::Text(Doc::Setup, "no setup"), "no Links"),
    (SIGNALLED, Put::Text(Doc::Links, "no links"), "no Signals"),
];

#[test]
fn files_are_fetched_before_they_are_read(rt: HostRuntime) {
    expect(&rt, rt.alloc(), FETCHED);
}

const LONG: &[(Base, Put, &str)] = &[
    (
        Base::OneRoad,
        Put::Newlines(Doc::Demand, 16_777_217),
        "too long Demand",
    ),
    (
        Base::OneRoad,
        Put::Newlines(Doc::Demand, 16_777_216),
        "Demand 1 Header",
    ),
    (
        Base::Setup("step_ms,slots,origin_capacity,rows,history\n1000,4,1,500000,0\n"),
        Put::Newlines(Doc::Splits, 16_777_217),
        "too long Splits",
    ),
    (
        Base::Setup("step_ms,slots,origin_capacity,rows,history\n1000,4,1,500001,0\n"),
        Put::Newlines(Doc::Splits, 16_777_217),
        "Splits 1 Header",
    ),
    (
        Base::Setup("step_ms,slots,origin_capacity,rows,history\n1000,4,1,500001,0\n"),
        Put::Newlines(Doc::Links, 16_777_217),
        "too long Links",
    ),
];

#[test]
fn no_longer_file_is_read(rt: HostRuntime) {
    expect(&rt, rt.alloc(), LONG);
}
