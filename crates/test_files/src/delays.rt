//! The report of the delays of a case.
use ltm_casefile::read_case;
use ltm_io::MemFolder;
use ltm_report::delay_report_of;
use ltm_units::NoMemory;
use std::alloc::Global;
use std::thread::Threads;

/// Seven vehicles set out over two links of 20 m, of which the second lets through two fifths of the first.
fn spillback(alloc: Global) -> Result<MemFolder, NoMemory> {
    MemFolder::of_case(
        alloc,
        &[],
        "step_ms,slots,origin_capacity\n1000,16,1\n",
        "link,from,to,length_m,free_kmh,wave_kmh,jam_per_km\na,n1,n2,20,36,18,150\nb,n2,n3,20,36,18,60\n",
        "origin,destination,from_slot,to_slot,vehicles\nn1,n3,0,10,7\n",
        "node,destination,from_slot,weights\nn1,n3,0,a=1\nn2,n3,0,b=1\n",
    )
}

/// Whether a case has this report.
fn is_report<R: Threads + Sync>(rt: &R, alloc: Global, want: &str) -> bool {
    let Ok(mut folder) = spillback(alloc) else {
        return false;
    };
    let Ok(scenario) = read_case(alloc, &mut folder) else {
        return false;
    };
    match delay_report_of(rt, alloc, &scenario) {
        Ok(text) => text.as_slice() == want.as_bytes(),
        Err(_) => false,
    }
}

// By hand, boundary by boundary.
#[test]
fn spillback_is_told_link_by_link(rt: HostRuntime) {
    let want = "version 0 spent 64.900000 queued 20.700000 waited 29.000000\n\
        link a spent 30.500000 queued 20.700000 most 1.800 at 8\n\
        link b spent 5.400000 queued 0.000000 most 0.000 at 0\n\
        node n1 waited 29.000000 most 3.200 at 10\n";
    assert!(rt; is_report(&rt, rt.alloc(), want));
}
