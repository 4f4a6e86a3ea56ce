//! Routes by free-flow time, by hand.
use crate::cases::{DEMAND, LINKS, SETUP, USAGE, expect};
use ltm_command::Status;
use ltm_io::{Doc, MemFolder};
use ltm_units::NoMemory;
use std::alloc::Global;
use std::test::Fail;

/// The roads and the demand of a case; no splits, and no signals.
fn roads_of(alloc: Global, setup: &str, links: &str, demand: &str) -> Result<MemFolder, NoMemory> {
    let mut folder = MemFolder::create(alloc, &[])?;
    folder.put(Doc::Setup, setup.as_bytes())?;
    folder.put(Doc::Links, links.as_bytes())?;
    folder.put(Doc::Demand, demand.as_bytes())?;
    Ok(folder)
}

/// One link; two equal links, which share; and a second link that takes longer, which gets nothing. The setup may ask for
/// signals.
#[test]
fn writes_routes(rt: HostRuntime) -> Result<(), Fail> {
    let cases: [(&str, &str, &str); 4] = [
        (SETUP, LINKS, "n1,n2,0,a=1\n"),
        (
            SETUP,
            "link,from,to,length_m,free_kmh,wave_kmh,jam_per_km\na,n1,n2,20,36,18,150\nc,n1,n2,20,36,18,150\n",
            "n1,n2,0,a=1 c=1\n",
        ),
        (
            SETUP,
            "link,from,to,length_m,free_kmh,wave_kmh,jam_per_km\na,n1,n2,20,36,18,150\nc,n1,n2,40,36,18,150\n",
            "n1,n2,0,a=1\n",
        ),
        (
            "step_ms,slots,origin_capacity,signals\n1000,4,1,1\n",
            LINKS,
            "n1,n2,0,a=1\n",
        ),
    ];
    for (setup, links, row) in cases {
        let text = format!(in rt.alloc(); "node,destination,from_slot,weights\n{row}")?;
        let mut folder = roads_of(rt.alloc(), setup, links, DEMAND)?;
        expect(&rt, &["routes"], &mut folder, Status::Ok, text.as_str())?;
        let times = "from n1 to n2 time 2000\n";
        expect(&rt, &["routes", "times"], &mut folder, Status::Ok, times)?;
    }
    Ok(())
}

/// No way leads from `n1` to `n3`; and the setup has a field out of its limits.
#[test]
fn refuses_what_routes_cannot_mend(rt: HostRuntime) -> Result<(), Fail> {
    let links =
        "link,from,to,length_m,free_kmh,wave_kmh,jam_per_km\na,n1,n2,20,36,18,150\nr,n3,n1,20,36,18,150\n";
    let demand = "origin,destination,from_slot,to_slot,vehicles\nn1,n2,0,2,1\nn1,n3,0,2,1\n";
    let mut folder = roads_of(rt.alloc(), SETUP, links, demand)?;
    let line = "bad case whole row 0 NoSplit n1 n3\n";
    expect(&rt, &["routes"], &mut folder, Status::BadCase, line)?;
    expect(
        &rt,
        &["routes", "times"],
        &mut folder,
        Status::BadCase,
        line,
    )?;
    let setup = "step_ms,slots,origin_capacity,signals\n1000,4,1,2\n";
    let mut folder = roads_of(rt.alloc(), setup, LINKS, DEMAND)?;
    let line = "bad case setup row 2 Range 4\n";
    expect(&rt, &["routes"], &mut folder, Status::BadCase, line)
}

#[test]
fn routes_are_told_of_the_outside(rt: HostRuntime) -> Result<(), Fail> {
    let alloc = rt.alloc();
    let mut folder = MemFolder::create(alloc, &[])?;
    folder.put(Doc::Setup, SETUP.as_bytes())?;
    folder.put(Doc::Links, LINKS.as_bytes())?;
    expect(&rt, &["routes"], &mut folder, Status::FolderFault, "")?;
    expect(&rt, &["routes", "time"], &mut folder, Status::Usage, USAGE)?;
    expect(&rt, &["times"], &mut folder, Status::Usage, USAGE)
}
