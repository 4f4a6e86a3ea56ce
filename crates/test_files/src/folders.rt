//! Folders in memory.
use crate::long::{many_demands, many_links, many_splits};
use ltm_io::{Doc, MemFolder};
use ltm_units::NoMemory;
use std::alloc::Global;

pub const SETUP: &str = "step_ms,slots,origin_capacity\n";

pub const LINKS: &str = "link,from,to,length_m,free_kmh,wave_kmh,jam_per_km\n";

pub const DEMAND: &str = "origin,destination,from_slot,to_slot,vehicles\n";

/// Of the slices of a matrix.
const PROFILE: &str = "from_slot,to_slot,share\n";

pub const SPLITS: &str = "node,destination,from_slot,weights\n";

/// Of signals and of entry limits.
const SIDE_LIMITS: &str = "link,from_slot,to_slot,vehicles\n";

/// What a folder holds at first.
#[derive(Clone, Copy)]
pub enum Base {
    /// No file.
    Empty,
    /// One road `a` from `n1` to `n2`, and one vehicle.
    OneRoad,
    /// The same, with this setup.
    Setup(&'static str),
    /// The one road, with this setup and this demand.
    Demand(&'static str, &'static str),
    /// ```text
    ///              n2
    ///         a  ↗    ↘  b
    ///          n1  →  n3
    ///              c
    /// ```
    ///
    /// A demand of nothing names its destination first. Later rows stand in place of earlier ones with the same numbers.
    ThreeRoads,
    /// Four thousand links.
    ManyLinks,
    /// Seventy thousand records of demand.
    ManyDemands,
    /// Forty thousand split rows.
    ManySplits,
}

/// What is then put into it.
#[derive(Clone, Copy)]
pub enum Put {
    Nothing,
    /// The records of a file, below its header.
    Rows(Doc, &'static str),
    /// A whole file.
    Text(Doc, &'static str),
    /// A file of so many newlines.
    Newlines(Doc, usize),
}

fn header(doc: Doc) -> &'static str {
    match doc {
        Doc::Setup => SETUP,
        Doc::Links => LINKS,
        Doc::Demand => DEMAND,
        Doc::Profile => PROFILE,
        Doc::Splits => SPLITS,
        _ => SIDE_LIMITS,
    }
}

const ONE_VEHICLE: &str = "origin,destination,from_slot,to_slot,vehicles\nn1,n2,0,2,1\n";

fn road_with(alloc: Global, setup: &str, demand: &str) -> Result<MemFolder, NoMemory> {
    MemFolder::of_case(
        alloc,
        &[],
        setup,
        "link,from,to,length_m,free_kmh,wave_kmh,jam_per_km\na,n1,n2,20,36,18,150\n",
        demand,
        "node,destination,from_slot,weights\nn1,n2,0,a=1\n",
    )
}

fn three_roads(alloc: Global) -> Result<MemFolder, NoMemory> {
    MemFolder::of_case(
        alloc,
        &[],
        "step_ms,slots,origin_capacity\n1000,4,1\n",
        "link,from,to,length_m,free_kmh,wave_kmh,jam_per_km\na,n1,n2,20,36,18,150\nb,n2,n3,20,36,18,150\nc,n1,n3,20,36,18,150\n",
        "origin,destination,from_slot,to_slot,vehicles\nn1,n3,0,2,0\nn1,n2,0,2,1\nn1,n2,00,02,0.5\n",
        "node,destination,from_slot,weights\nn1,n2,0,c=1\nn1,n2,0,a=3\nn1,n3,0,c=2\nn2,n3,0,b=1\n",
    )
}

/// The folder with what it holds at first.
pub fn folder_of(alloc: Global, base: Base) -> Result<MemFolder, NoMemory> {
    match base {
        Base::Empty => MemFolder::create(alloc, &[]),
        Base::OneRoad => {
            road_with(
                alloc,
                "step_ms,slots,origin_capacity\n1000,4,1\n",
                ONE_VEHICLE,
            )
        }
        Base::Setup(setup) => road_with(alloc, setup, ONE_VEHICLE),
        Base::Demand(setup, demand) => road_with(alloc, setup, demand),
        Base::ThreeRoads => three_roads(alloc),
        Base::ManyLinks => many_links(alloc),
        Base::ManyDemands => many_demands(alloc),
        Base::ManySplits => many_splits(alloc),
    }
}

fn put_rows(alloc: Global, folder: &mut MemFolder, doc: Doc, rows: &str) -> Result<(), NoMemory> {
    let text = format!(in alloc; "{}{rows}", header(doc))?;
    folder.put(doc, text.as_bytes())
}

fn put_newlines(
    alloc: Global,
    folder: &mut MemFolder,
    doc: Doc,
    count: usize,
) -> Result<(), NoMemory> {
    let text = vec![in alloc; b'\n'; count]?;
    folder.put(doc, &text)
}

/// Puts something into a folder.
pub fn fill(alloc: Global, folder: &mut MemFolder, put: Put) -> Result<(), NoMemory> {
    match put {
        Put::Nothing => Ok(()),
        Put::Rows(doc, rows) => put_rows(alloc, folder, doc, rows),
        Put::Text(doc, text) => folder.put(doc, text.as_bytes()),
        Put::Newlines(doc, count) => put_newlines(alloc, folder, doc, count),
    }
}
