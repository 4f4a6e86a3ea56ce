//! The curve files of small cases, and files that do not tell their loading.
use ltm_casefile::read_case;
use ltm_check::CurvesCause;
use ltm_check_command::{Refusal, check_text, write_loading};
use ltm_io::{Doc, MemFolder, SureSink};
use ltm_units::{Name, NoMemory};
use std::alloc::Global;
use std::test::Fail;

/// The loading of one road of capacity 500 over four slots; a vehicle starts in the first two.
pub(crate) const FILE: &str =
    "kind,name,destination,counts\nup,a,n2,0 500 1000 1000 1000\ndown,a,n2,0 0 0 500 1000\ndep,n1,n2,0 500 1000 1000 1000\ndep,n2,n2,0 0 0 0 0\narr,n2,n2,0 0 0 500 1000\n";

const HEADER: &str = "kind,name,destination,counts\n";

/// One road with this demand and these split rows.
fn one_road_with(alloc: Global, demand: &str, splits: &str) -> Result<MemFolder, NoMemory> {
    MemFolder::of_case(
        alloc,
        &[],
        "step_ms,slots,origin_capacity\n1000,4,1\n",
        "link,from,to,length_m,free_kmh,wave_kmh,jam_per_km\na,n1,n2,20,36,18,150\n",
        demand,
        splits,
    )
}

pub(crate) fn one_road(alloc: Global) -> Result<MemFolder, NoMemory> {
    one_road_with(
        alloc,
        "origin,destination,from_slot,to_slot,vehicles\nn1,n2,0,2,1\n",
        "node,destination,from_slot,weights\nn1,n2,0,a=1\n",
    )
}

/// The same road, on which nobody is to go anywhere.
fn empty_road(alloc: Global) -> Result<MemFolder, NoMemory> {
    one_road_with(
        alloc,
        "origin,destination,from_slot,to_slot,vehicles\n",
        "node,destination,from_slot,weights\n",
    )
}

/// Whether the curve file of a folder's case is this text.
fn writes(alloc: Global, folder: &mut MemFolder, file: &str) -> bool {
    let Ok(scenario) = read_case(alloc, folder) else {
        return false;
    };
    match SureSink::create(alloc, 7) {
        Ok(mut sink) => {
            let done = write_loading(alloc, &scenario, &mut sink);
            done.is_ok() && sink.written() == file.as_bytes()
        }
        Err(_) => false,
    }
}

/// Whether a check of a folder with this file says yes, or this refusal where there is one.
fn answers(alloc: Global, folder: &mut MemFolder, file: &str, refusal: Option<Refusal>) -> bool {
    if folder.put(Doc::Curves, file.as_bytes()).is_err() {
        return false;
    }
    match check_text(alloc, folder) {
        Ok(text) => refusal.is_none() && text.as_slice() == b"loading yes\n".as_slice(),
        Err(found) => refusal == Some(found),
    }
}

#[test]
fn writes_curve_files(rt: HostRuntime) -> Result<(), Fail> {
    let mut road = one_road(rt.alloc())?;
    let mut empty = empty_road(rt.alloc())?;
    let well = [
        writes(rt.alloc(), &mut road, FILE),
        writes(rt.alloc(), &mut empty, HEADER),
        answers(rt.alloc(), &mut road, FILE, None),
        answers(rt.alloc(), &mut empty, HEADER, None),
        answers(rt.alloc(), &mut empty, FILE, bad(2, CurvesCause::Rows)),
    ];
    assert!(rt; well == [true; 5]);
    Ok(())
}

fn bad(row: u32, cause: CurvesCause) -> Option<Refusal> {
    Some(Refusal::BadCurves { row, cause })
}

/// That the counts of a node at the end of a slot are not its node step.
fn not_of(node: &[u8], slot: u32) -> Option<Refusal> {
    match Name::read(node) {
        Some(node) => Some(Refusal::NoStep { node, slot }),
        None => None,
    }
}

#[test]
fn tells_loadings_from_other_files(rt: HostRuntime) -> Result<(), Fail> {
    let mut folder = one_road(rt.alloc())?;
    let files = [
        (
            "kind,name,destination,counts\nup,a,n2,0 500 1000 1000 1000\ndown,a,n2,0 0 0 499 1000\ndep,n1,n2,0 500 1000 1000 1000\ndep,n2,n2,0 0 0 0 0\narr,n2,n2,0 0 0 500 1000\n",
            not_of(b"n2", 2),
        ),
        (
            "kind,name,destination,counts\nup,a,n2,0 500 1000 1000 1000\ndown,a,n2,0 0 0 281474976710656 1000\ndep,n1,n2,0 500 1000 1000 1000\ndep,n2,n2,0 0 0 0 0\narr,n2,n2,0 0 0 500 1000\n",
            not_of(b"n2", 2),
        ),
        (
            "kind,name,destination,counts\nup,a,n2,0 500 1000 1000 1000\ndown,a,n2,0 0 0 500 1000\ndep,n1,n2,0 500 1000 1000 1000\ndep,n2,n2,0 0 0 0 1\narr,n2,n2,0 0 0 500 1000\n",
            Some(Refusal::NoStart),
        ),
        ("kind,name,destination\n", bad(1, CurvesCause::Header)),
        (
            "kind,name,destination,counts\nup,a,n2\n",
            bad(2, CurvesCause::Width),
        ),
        (
            "kind,name,destination,counts\ndown,a,n2,0 0 0 500 1000\n",
            bad(2, CurvesCause::Field(1)),
        ),
        (
            "kind,name,destination,counts\nup,a,n2,0 500 1000 1000\n",
            bad(2, CurvesCause::Field(4)),
        ),
        (
            "kind,name,destination,counts\nup,a,n2,0 500 1000 1000 281474976710657\n",
            bad(2, CurvesCause::Field(4)),
        ),
        (
            "kind,name,destination,counts\nup,a,n2,0 500 1000 1000 1000\ndown,a,n2,0 0 0 500 1000\ndep,n1,n2,0 500 1000 1000 1000\ndep,n2,n2,0 0 0 0 0\n",
            bad(6, CurvesCause::Rows),
        ),
        (
            "kind,name,destination,counts\nup,a,n2,0 500 1000 1000 1000\ndown,a,n2,0 0 0 500 1000\ndep,n1,n2,0 500 1000 1000 1000\ndep,n2,n2,0 0 0 0 0\narr,n2,n2,0 0 0 500 1000\nmore\n",
            bad(7, CurvesCause::Rows),
        ),
    ];
    for (file, refusal) in files {
        assert!(rt;
            answers(rt.alloc(), &mut folder, file, refusal),
            "at {file}"
        );
    }
    Ok(())
}
