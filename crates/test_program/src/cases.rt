//! A small case in memory, and one run of the program over a folder, a script and an output in memory.
use ltm_command::Status;
use ltm_io::{Doc, MemFolder, MemSink, MemSource};
use ltm_program::run_alone;
use ltm_units::NoMemory;
use std::alloc::{AllocError, Global};
use std::process::Abort;
use std::test::Fail;
use std::thread::Threads;

// One road of 20 m over four slots of a second, with half a vehicle in each of the first two.
pub const SETUP: &str = "step_ms,slots,origin_capacity\n1000,4,1\n";

pub const LINKS: &str =
    "link,from,to,length_m,free_kmh,wave_kmh,jam_per_km\na,n1,n2,20,36,18,150\n";

pub const DEMAND: &str = "origin,destination,from_slot,to_slot,vehicles\nn1,n2,0,2,1\n";

pub const SPLITS: &str = "node,destination,from_slot,weights\nn1,n2,0,a=1\n";

pub const USAGE: &str =
    "usage: ltm load | ltm delay | ltm gap | ltm totals N | ltm session N | ltm try START NODES | ltm routes [times] | ltm curves | ltm check | ltm view V | ltm editors K\n";

/// The four files of a case, in a folder of which these fetches fail.
pub fn folder_of(alloc: Global, files: [&str; 4], failing: &[u64]) -> Result<MemFolder, NoMemory> {
    let [setup, links, demand, splits] = files;
    MemFolder::of_case(alloc, failing, setup, links, demand, splits)
}

/// The files of the one road.
pub fn one_road(alloc: Global) -> Result<MemFolder, NoMemory> {
    folder_of(alloc, [SETUP, LINKS, DEMAND, SPLITS], &[])
}

/// The files of four links in a row, an hour in slots of ten seconds, and 4320 vehicles.
pub fn hour() -> [&'static str; 4] {
    [
        "step_ms,slots,origin_capacity\n10000,360,32\n",
        "link,from,to,length_m,free_kmh,wave_kmh,jam_per_km\nf1,g0,g1,500,120,20,300\nf2,g1,g2,500,120,20,300\nf3,g2,g3,500,120,20,300\nf4,g3,g4,500,120,20,300\n",
        "origin,destination,from_slot,to_slot,vehicles\ng0,g4,0,30,360\ng0,g4,30,60,360\ng0,g4,60,90,360\ng0,g4,90,120,360\ng0,g4,120,150,360\ng0,g4,150,180,360\ng0,g4,180,210,360\ng0,g4,210,240,360\ng0,g4,240,270,360\ng0,g4,270,300,360\ng0,g4,300,330,360\ng0,g4,330,360,360\n",
        "node,destination,from_slot,weights\ng0,g4,0,f1=1\ng1,g4,0,f2=1\ng2,g4,0,f3=1\ng3,g4,0,f4=1\n",
    ]
}

fn words_of(alloc: Global, texts: &[&str]) -> Result<Vec<String>, AllocError> {
    let mut words = Vec::new(alloc);
    for text in texts {
        words.push(String::from_str(alloc, text)?)?;
    }
    Ok(words)
}

/// Does what these words ask for.
pub fn run<R: Threads + Sync>(
    rt: &R,
    alloc: Global,
    words: &[&str],
    folder: &mut MemFolder,
    input: &mut MemSource,
    output: &mut MemSink,
) -> Result<Status, Fail> {
    let words = words_of(alloc, words)?;
    Ok(run_alone(rt, alloc, words.as_slice(), folder, input, output))
}

/// These words over the folder and the script end with this status and write this text.
pub fn expect_served<R: Abort + AllocGlobal + Threads + Sync>(
    rt: &R,
    words: &[&str],
    folder: &mut MemFolder,
    script: &[u8],
    status: Status,
    text: &str,
) -> Result<(), Fail> {
    let alloc = rt.alloc();
    let mut input = MemSource::create(alloc, script, 4096, &[])?;
    let mut output = MemSink::create(alloc, 1000, &[])?;
    let got = run(rt, alloc, words, folder, &mut input, &mut output)?;
    assert!(rt; got == status, "at {text}");
    assert!(rt; output.written() == text.as_bytes(), "at {text}");
    Ok(())
}

/// The same, with no script.
pub fn expect<R: Abort + AllocGlobal + Threads + Sync>(
    rt: &R,
    words: &[&str],
    folder: &mut MemFolder,
    status: Status,
    text: &str,
) -> Result<(), Fail> {
    expect_served(rt, words, folder, b"", status, text)
}
