//! A curve file is written and is then found right; with another count, or without a record, it is not.
use crate::cases::{expect, one_road};
use ltm_command::Status;
use ltm_io::Doc;
use std::test::Fail;

const CURVES: &str =
    "kind,name,destination,counts\nup,a,n2,0 500 1000 1000 1000\ndown,a,n2,0 0 0 500 1000\ndep,n1,n2,0 500 1000 1000 1000\ndep,n2,n2,0 0 0 0 0\narr,n2,n2,0 0 0 500 1000\n";

// The same with another count, without its last record, and with a vehicle that leaves a node without out-links.
const OTHER: &str =
    "kind,name,destination,counts\nup,a,n2,0 500 1000 1000 1000\ndown,a,n2,0 0 0 499 1000\ndep,n1,n2,0 500 1000 1000 1000\ndep,n2,n2,0 0 0 0 0\narr,n2,n2,0 0 0 500 1000\n";

const SHORT: &str =
    "kind,name,destination,counts\nup,a,n2,0 500 1000 1000 1000\ndown,a,n2,0 0 0 500 1000\ndep,n1,n2,0 500 1000 1000 1000\ndep,n2,n2,0 0 0 0 0\n";

const LEAVING: &str =
    "kind,name,destination,counts\nup,a,n2,0 500 1000 1000 1000\ndown,a,n2,0 0 0 500 1000\ndep,n1,n2,0 500 1000 1000 1000\ndep,n2,n2,0 0 0 0 1\narr,n2,n2,0 0 0 500 1000\n";

#[test]
fn curves_are_written_and_checked(rt: HostRuntime) -> Result<(), Fail> {
    let mut folder = one_road(rt.alloc())?;
    expect(&rt, &["check"], &mut folder, Status::FolderFault, "")?;
    expect(&rt, &["curves"], &mut folder, Status::Ok, CURVES)?;
    let cases = [
        (CURVES, Status::Ok, "loading yes\n"),
        (OTHER, Status::NotLoading, "loading no node n2 slot 2\n"),
        (LEAVING, Status::NotLoading, "loading no start\n"),
        (SHORT, Status::BadCurves, "bad curves row 6 Rows\n"),
    ];
    for (text, status, line) in cases {
        folder.put(Doc::Curves, text.as_bytes())?;
        expect(&rt, &["check"], &mut folder, status, line)?;
    }
    Ok(())
}
