//! Cases of whole networks, whose output was computed by another engine. The folder `examples` has more.
use crate::cases::{expect, folder_of, hour};
use ltm_command::Status;
use ltm_io::{Doc, MemFolder};
use ltm_units::NoMemory;
use std::alloc::Global;
use std::process::Abort;
use std::test::Fail;
use std::thread::Threads;

/// The files of a case, and what `load` writes of it.
#[derive(Clone, Copy)]
struct Network {
    setup: &'static str,
    links: &'static str,
    demand: &'static str,
    splits: &'static str,
    signals: &'static str,
    report: &'static str,
}

/// Two destinations, and a split row that takes the place of another in slot 5.
fn late_split_row() -> Network {
    Network {
        setup: "step_ms,slots,origin_capacity\n1000,12,1\n",
        links: "link,from,to,length_m,free_kmh,wave_kmh,jam_per_km\na,n1,n2,20,36,18,150\nb,n2,n3,20,36,18,150\nc,n2,n4,25,36,18,150\nd,n4,n3,30,36,18,120\n",
        demand: "origin,destination,from_slot,to_slot,vehicles\nn1,n3,0,6,4\nn1,n4,2,5,1.5\nn2,n3,1,3,0.7\n",
        splits: "node,destination,from_slot,weights\nn1,n3,0,a=1\nn1,n4,0,a=1\nn2,n3,0,b=2 c=1\nn2,n4,0,c=1\nn4,n3,0,d=1\nn2,n3,5,b=1\n",
        signals: "link,from_slot,to_slot,vehicles\n",
        report: "version 0 generated 6.200 arrived 4.493 on_links 1.707 waiting 0.000\nlink a in 5.500 out 4.897\nlink b in 3.534 out 2.833\nlink c in 2.063 out 1.660\nlink d in 0.663 out 0.663\n",
    }
}

/// The same, with signals of which the later goes over the earlier.
fn later_signals() -> Network {
    Network {
        setup: "step_ms,slots,origin_capacity,signals\n1000,12,1,1\n",
        links: "link,from,to,length_m,free_kmh,wave_kmh,jam_per_km\na,n1,n2,20,36,18,150\nb,n2,n3,20,36,18,150\nc,n2,n4,25,36,18,150\nd,n4,n3,30,36,18,120\n",
        demand: "origin,destination,from_slot,to_slot,vehicles\nn1,n3,0,6,4\nn1,n4,2,5,1.5\nn2,n3,1,3,0.7\n",
        splits: "node,destination,from_slot,weights\nn1,n3,0,a=1\nn1,n4,0,a=1\nn2,n3,0,b=2 c=1\nn2,n4,0,c=1\nn4,n3,0,d=1\nn2,n3,5,b=1\n",
        signals: "link,from_slot,to_slot,vehicles\nb,2,8,0.2\nb,4,6,1\na,0,12,0\n",
        report: "version 0 generated 6.200 arrived 0.700 on_links 2.999 waiting 2.501\nlink a in 2.999 out 0.000\nlink b in 0.466 out 0.466\nlink c in 0.234 out 0.234\nlink d in 0.234 out 0.234\n",
    }
}

/// The hour of four links in a row.
fn an_hour() -> Network {
    let [setup, links, demand, splits] = hour();
    Network {
        setup,
        links,
        demand,
        splits,
        signals: "link,from_slot,to_slot,vehicles\n",
        report: "version 0 generated 4320.000 arrived 4248.000 on_links 72.000 waiting 0.000\nlink f1 in 4320.000 out 4302.000\nlink f2 in 4302.000 out 4284.000\nlink f3 in 4284.000 out 4266.000\nlink f4 in 4266.000 out 4248.000\n",
    }
}

fn files_of(alloc: Global, network: &Network) -> Result<MemFolder, NoMemory> {
    let files = [network.setup, network.links, network.demand, network.splits];
    let mut folder = folder_of(alloc, files, &[])?;
    folder.put(Doc::Signals, network.signals.as_bytes())?;
    Ok(folder)
}

/// The case is loaded, and the report is written.
fn expect_report<R: Abort + AllocGlobal + Threads + Sync>(
    rt: &R,
    network: &Network,
) -> Result<(), Fail> {
    let mut folder = files_of(rt.alloc(), network)?;
    expect(rt, &["load"], &mut folder, Status::Ok, network.report)
}

#[test]
fn later_rows_go_over_earlier_ones(rt: HostRuntime) -> Result<(), Fail> {
    expect_report(&rt, &late_split_row())?;
    expect_report(&rt, &later_signals())
}

#[test]
fn loads_an_hour(rt: HostRuntime) -> Result<(), Fail> {
    expect_report(&rt, &an_hour())
}
