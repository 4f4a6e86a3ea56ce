//! Files of many records are read to their ends: no number of records hides in want of memory.
use crate::cases::{Read, expect_read};
use crate::folders::{Base, DEMAND, LINKS, Put, SPLITS};
use ltm_io::MemFolder;
use ltm_units::NoMemory;
use std::alloc::Global;

/// So many roads `l0`, `l1` .. one after the other, over the nodes `n0`, `n1` ..
fn links_text(alloc: Global, links: u16) -> Result<String, NoMemory> {
    let mut text = String::from_str(alloc, LINKS)?;
    for link in 0..u32::from(links) {
        write!(text, "l{link},n{link},n{},20,36,18,150\n", link + 1)?;
    }
    Ok(text)
}

/// Record k, counted from 0, asks for k vehicles from one of 100 first slots: all but 100 records stand in place of the one
/// that is 100 before them.
fn demand_text(alloc: Global, records: u32) -> Result<String, NoMemory> {
    let mut text = String::from_str(alloc, DEMAND)?;
    for k in 0..records {
        write!(text, "n0,n1,{},100,{k}\n", k % 100)?;
    }
    Ok(text)
}

/// Node after node has a row from each of 10,000 slots on, with the number of the slot and one as its weight.
fn splits_text(alloc: Global, records: u32) -> Result<String, NoMemory> {
    let mut text = String::from_str(alloc, SPLITS)?;
    for k in 0..records {
        let (node, slot) = (k / 10_000, k % 10_000);
        write!(text, "n{node},n4,{slot},l{node}={}\n", slot + 1)?;
    }
    Ok(text)
}

pub fn many_links(alloc: Global) -> Result<MemFolder, NoMemory> {
    let links = links_text(alloc, 4_000)?;
    MemFolder::of_case(
        alloc,
        &[],
        "step_ms,slots,origin_capacity\n1000,4,1\n",
        &links,
        DEMAND,
        SPLITS,
    )
}

pub fn many_demands(alloc: Global) -> Result<MemFolder, NoMemory> {
    let demand = demand_text(alloc, 70_000)?;
    MemFolder::of_case(
        alloc,
        &[],
        "step_ms,slots,origin_capacity\n1000,100,1\n",
        "link,from,to,length_m,free_kmh,wave_kmh,jam_per_km\nl0,n0,n1,20,36,18,150\n",
        &demand,
        "node,destination,from_slot,weights\nn0,n1,0,l0=1\n",
    )
}

pub fn many_splits(alloc: Global) -> Result<MemFolder, NoMemory> {
    let splits = splits_text(alloc, 40_000)?;
    MemFolder::of_case(
        alloc,
        &[],
        "step_ms,slots,origin_capacity\n1000,10000,1\n",
        "link,from,to,length_m,free_kmh,wave_kmh,jam_per_km\nl0,n0,n1,20,36,18,150\nl1,n1,n2,20,36,18,150\nl2,n2,n3,20,36,18,150\nl3,n3,n4,20,36,18,150\n",
        "origin,destination,from_slot,to_slot,vehicles\nn0,n4,0,1,1\n",
        &splits,
    )
}

const FOUR_SLOTS: [Option<u64>; 5] = [Some(32_000), Some(32_000), Some(32_000), Some(32_000), None];

const MORE_SLOTS: [Option<u64>; 5] = [Some(32_000); 5];

const LINKS_READ: Read = Read {
    slots: 4,
    links: 4_000,
    nodes: 4_001,
    destinations: 0,
    ends: [None, None],
    demand_rows: 0,
    vehicles: 0,
    split_rows: 0,
    weights: [None; 3],
    last_weight: None,
    exits: FOUR_SLOTS,
    entries: FOUR_SLOTS,
};

#[test]
fn four_thousand_links_are_read(rt: HostRuntime) {
    expect_read(&rt, rt.alloc(), Base::ManyLinks, Put::Nothing, &LINKS_READ);
}

const DEMANDS_READ: Read = Read {
    slots: 100,
    links: 1,
    nodes: 2,
    destinations: 1,
    ends: [Some(1), Some(1)],
    demand_rows: 100,
    vehicles: 6_994_950_000,
    split_rows: 1,
    weights: [Some(1), None, None],
    last_weight: None,
    exits: MORE_SLOTS,
    entries: MORE_SLOTS,
};

// The records that stay ask for 69,900 to 69,999 vehicles.
#[test]
fn seventy_thousand_records_of_demand_are_read(rt: HostRuntime) {
    expect_read(
        &rt,
        rt.alloc(),
        Base::ManyDemands,
        Put::Nothing,
        &DEMANDS_READ,
    );
}

const SPLITS_READ: Read = Read {
    slots: 10_000,
    links: 4,
    nodes: 5,
    destinations: 1,
    ends: [Some(4), Some(4)],
    demand_rows: 1,
    vehicles: 1_000,
    split_rows: 40_000,
    weights: [Some(1), None, None],
    last_weight: Some(10_000),
    exits: MORE_SLOTS,
    entries: MORE_SLOTS,
};

#[test]
fn forty_thousand_split_rows_are_read(rt: HostRuntime) {
    expect_read(
        &rt,
        rt.alloc(),
        Base::ManySplits,
        Put::Nothing,
        &SPLITS_READ,
    );
}
