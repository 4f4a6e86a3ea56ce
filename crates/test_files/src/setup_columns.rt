//! The columns that a setup may have besides: their order, and the sizes that they ask for.
use crate::cases::expect;
use crate::folders::{Base, Put};
use ltm_io::Doc;

// The one road has 102 cells.
const COLUMNS: &[(Base, Put, &str)] = &[
    (
        Base::Setup("step_ms,slots,origin_capacity,signals,limits,cells\n0,0,0,2,2,x\n"),
        Put::Nothing,
        "Setup 2 Field(6)",
    ),
    (
        Base::Setup("step_ms,slots,origin_capacity,signals,limits,cells\n1000,4,1,2,2,0\n"),
        Put::Nothing,
        "Setup 2 Range(4)",
    ),
    (
        Base::Setup("step_ms,slots,origin_capacity,signals,limits,cells\n1000,4,1,0,2,0\n"),
        Put::Nothing,
        "Setup 2 Range(5)",
    ),
    (
        Base::Setup("step_ms,slots,origin_capacity,signals,cells\n1000,4,1,0,0\n"),
        Put::Nothing,
        "Setup 2 Range(5)",
    ),
    (
        Base::Setup("step_ms,slots,origin_capacity,limits,cells\n1000,4,0,2,0\n"),
        Put::Nothing,
        "Setup 2 Range(3)",
    ),
    (
        Base::Setup("step_ms,slots,origin_capacity,cells\n1000,4,1,4294967296\n"),
        Put::Nothing,
        "Setup 2 Field(4)",
    ),
    (
        Base::Setup("step_ms,slots,origin_capacity,limits\n1000,4,1\n"),
        Put::Nothing,
        "Setup 2 Width",
    ),
    (
        Base::Setup("step_ms,slots,origin_capacity,limits,signals\n1000,4,1,0,0\n"),
        Put::Nothing,
        "Setup 1 Header",
    ),
    (
        Base::Setup("step_ms,slots,origin_capacity,cells\n1000,4,1,101\n"),
        Put::Nothing,
        "Whole 0 CellsOver(102)",
    ),
    (
        Base::Setup("step_ms,slots,origin_capacity,signals,limits,cells\n1000,4,1,0,0,102\n"),
        Put::Nothing,
        "good",
    ),
];

#[test]
fn columns_follow_in_one_order(rt: HostRuntime) {
    expect(&rt, rt.alloc(), COLUMNS);
}

const SIZES: &[(Base, Put, &str)] = &[
    (
        Base::Setup(
            "step_ms,slots,origin_capacity,signals,limits,cells,rows,links,destinations,moves\n1000,4,1,0,0,102,0,0,0,2\n",
        ),
        Put::Nothing,
        "Setup 2 Range(7)",
    ),
    (
        Base::Setup(
            "step_ms,slots,origin_capacity,rows,links,destinations,moves\n1000,4,1,1,16001,0,2\n",
        ),
        Put::Nothing,
        "Setup 2 Range(5)",
    ),
    (
        Base::Setup("step_ms,slots,origin_capacity,destinations,moves\n1000,4,1,257,2\n"),
        Put::Nothing,
        "Setup 2 Range(4)",
    ),
    (
        Base::Setup("step_ms,slots,origin_capacity,destinations,moves\n1000,4,1,256,2\n"),
        Put::Nothing,
        "Setup 2 Range(5)",
    ),
    (
        Base::Setup("step_ms,slots,origin_capacity,moves,carry\n1000,4,1,2,2\n"),
        Put::Nothing,
        "Setup 2 Range(4)",
    ),
    (
        Base::Setup("step_ms,slots,origin_capacity,moves,carry\n1000,4,1,1,2\n"),
        Put::Nothing,
        "Setup 2 Range(5)",
    ),
    (
        Base::Setup("step_ms,slots,origin_capacity,moves,rows\n1000,4,1,1,1\n"),
        Put::Nothing,
        "Setup 1 Header",
    ),
    (
        Base::Setup("step_ms,slots,origin_capacity,carry,moves\n1000,4,1,1,1\n"),
        Put::Nothing,
        "Setup 1 Header",
    ),
    (
        Base::Setup("step_ms,slots,origin_capacity,rows\n1000,4,1,1\n"),
        Put::Rows(Doc::Demand, "n1,n2,0,2,1\nn1,n2,2,4,1\n"),
        "Demand 3 TooManyRows",
    ),
    (
        Base::Setup("step_ms,slots,origin_capacity,rows\n1000,4,1,1\n"),
        Put::Rows(Doc::Splits, "n1,n2,0,a=1\nn1,n2,2,a=1\n"),
        "Splits 3 TooManyRows",
    ),
    (
        Base::Setup("step_ms,slots,origin_capacity,links\n1000,4,1,1\n"),
        Put::Rows(Doc::Links, "a,n1,n2,20,36,18,150\nb,n2,n1,20,36,18,150\n"),
        "Links 3 TooManyLinks",
    ),
    (
        Base::Setup(
            "step_ms,slots,origin_capacity,rows,links,destinations,moves,carry\n1000,4,1,1,1,1,1,1\n",
        ),
        Put::Nothing,
        "good",
    ),
];

// Where no history is kept, cells are not asked for, and the other sizes go further.
const HISTORY: &[(Base, Put, &str)] = &[
    (
        Base::Setup("step_ms,slots,origin_capacity,history\n1000,4,1,2\n"),
        Put::Nothing,
        "Setup 2 Range(4)",
    ),
    (
        Base::Setup("step_ms,slots,origin_capacity,carry,history\n1000,4,1,2,2\n"),
        Put::Nothing,
        "Setup 2 Range(4)",
    ),
    (
        Base::Setup("step_ms,slots,origin_capacity,history,carry\n1000,4,1,0,0\n"),
        Put::Nothing,
        "Setup 1 Header",
    ),
    (
        Base::Setup("step_ms,slots,origin_capacity,links,history\n1000,4,1,16001,1\n"),
        Put::Nothing,
        "Setup 2 Range(4)",
    ),
    (
        Base::Setup(
            "step_ms,slots,origin_capacity,rows,links,destinations,history\n1000,4,1,8000001,40000,2000,0\n",
        ),
        Put::Nothing,
        "Setup 2 Range(4)",
    ),
    (
        Base::Setup(
            "step_ms,slots,origin_capacity,rows,links,destinations,history\n1000,4,1,8000000,40001,2000,0\n",
        ),
        Put::Nothing,
        "Setup 2 Range(5)",
    ),
    (
        Base::Setup(
            "step_ms,slots,origin_capacity,rows,links,destinations,history\n1000,4,1,8000000,40000,2001,0\n",
        ),
        Put::Nothing,
        "Setup 2 Range(6)",
    ),
    (
        Base::Setup(
            "step_ms,slots,origin_capacity,rows,links,destinations,history\n1000,4,1,8000000,40000,2000,0\n",
        ),
        Put::Nothing,
        "good",
    ),
    (
        Base::Setup("step_ms,slots,origin_capacity,cells,history\n1000,4,1,101,1\n"),
        Put::Nothing,
        "Whole 0 CellsOver(102)",
    ),
    (
        Base::Setup("step_ms,slots,origin_capacity,cells,history\n1000,4,1,1,0\n"),
        Put::Nothing,
        "good",
    ),
];

#[test]
fn sizes_are_those_of_the_setup(rt: HostRuntime) {
    expect(&rt, rt.alloc(), SIZES);
}

#[test]
fn history_may_be_left_out(rt: HostRuntime) {
    expect(&rt, rt.alloc(), HISTORY);
}
