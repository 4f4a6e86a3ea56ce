//! Small cases, and a session of one. A core is let go in one place alone, and nothing is asserted where one is owned: each
//! such place is dear to prove.
use ltm_casefile::read_case;
use ltm_core::Core;
use ltm_io::{MemFolder, Sink, Source, SureSink, SureSource};
use ltm_scenario::Scenario;
use ltm_session::{Served, SessionEnd, serve_alone};
use ltm_units::NoMemory;
use std::alloc::Global;
use std::process::Abort;

/// A small case.
#[derive(Clone, Copy)]
pub enum Case {
    /// Link `a` from `n1` to `n2` of 20 m, 36 and 18 km/h and 150 vehicles per km, over four slots of a second: capacity
    /// 500, free-flow time 2 slots, wave time 4 slots. A vehicle starts in each of the first two slots.
    OneRoad,
    /// The same link of 25 m: its free-flow time is two and a half slots.
    LongerRoad,
    /// The first link over three slots.
    ShortRoad,
    /// Two links of 20 m in a row, `a` and `b`, over twelve slots; five vehicles start in the first five.
    TwoRoads,
    /// The two links over so many slots, at least five.
    TwoRoadsOver(u32),
    /// The same two links, of which `b` can take 200 thousandths in a slot and holds 1,200, over sixteen slots; seven
    /// vehicles start in the first ten.
    Spillback,
    /// A thousand links of 20 m in a row over two slots.
    Corridor,
}

fn one_road(alloc: Global, setup: &str, links: &str) -> Result<MemFolder, NoMemory> {
    MemFolder::of_case(
        alloc,
        &[],
        setup,
        links,
        "origin,destination,from_slot,to_slot,vehicles\nn1,n2,0,2,1\n",
        "node,destination,from_slot,weights\nn1,n2,0,a=1\n",
    )
}

fn two_roads(alloc: Global, slots: u32) -> Result<MemFolder, NoMemory> {
    let setup = format!(in alloc; "step_ms,slots,origin_capacity\n1000,{slots},1\n")?;
    MemFolder::of_case(
        alloc,
        &[],
        &setup,
        "link,from,to,length_m,free_kmh,wave_kmh,jam_per_km\na,n1,n2,20,36,18,150\nb,n2,n3,20,36,18,150\n",
        "origin,destination,from_slot,to_slot,vehicles\nn1,n3,0,5,5\n",
        "node,destination,from_slot,weights\nn1,n3,0,a=1\nn2,n3,0,b=1\n",
    )
}

fn spillback(alloc: Global) -> Result<MemFolder, NoMemory> {
    MemFolder::of_case(
        alloc,
        &[],
        "step_ms,slots,origin_capacity\n1000,16,1\n",
        "link,from,to,length_m,free_kmh,wave_kmh,jam_per_km\na,n1,n2,20,36,18,150\nb,n2,n3,20,36,18,60\n",
        "origin,destination,from_slot,to_slot,vehicles\nn1,n3,0,10,7\n",
        "node,destination,from_slot,weights\nn1,n3,0,a=1\nn2,n3,0,b=1\n",
    )
}

fn corridor(alloc: Global) -> Result<MemFolder, NoMemory> {
    let mut links = String::from_str(
        alloc,
        "link,from,to,length_m,free_kmh,wave_kmh,jam_per_km\n",
    )?;
    let mut splits = String::from_str(alloc, "node,destination,from_slot,weights\n")?;
    for tail in 0..1000u32 {
        let head = tail + 1;
        write!(links, "l{tail},n{tail},n{head},20,36,18,150\n")?;
        write!(splits, "n{tail},n1000,0,l{tail}=1\n")?;
    }
    MemFolder::of_case(
        alloc,
        &[],
        "step_ms,slots,origin_capacity\n1000,2,1\n",
        &links,
        "origin,destination,from_slot,to_slot,vehicles\nn0,n1000,0,2,1\n",
        &splits,
    )
}

const FOUR_SLOTS: &str = "step_ms,slots,origin_capacity\n1000,4,1\n";

const THREE_SLOTS: &str = "step_ms,slots,origin_capacity\n1000,3,1\n";

const TWENTY_METRES: &str =
    "link,from,to,length_m,free_kmh,wave_kmh,jam_per_km\na,n1,n2,20,36,18,150\n";

const TWENTY_FIVE_METRES: &str =
    "link,from,to,length_m,free_kmh,wave_kmh,jam_per_km\na,n1,n2,25,36,18,150\n";

fn folder(alloc: Global, case: Case) -> Result<MemFolder, NoMemory> {
    match case {
        Case::OneRoad => one_road(alloc, FOUR_SLOTS, TWENTY_METRES),
        Case::LongerRoad => one_road(alloc, FOUR_SLOTS, TWENTY_FIVE_METRES),
        Case::ShortRoad => one_road(alloc, THREE_SLOTS, TWENTY_METRES),
        Case::TwoRoads => two_roads(alloc, 12),
        Case::TwoRoadsOver(slots) => two_roads(alloc, slots),
        Case::Spillback => spillback(alloc),
        Case::Corridor => corridor(alloc),
    }
}

/// The scenario of a case; none without memory.
pub fn scenario_of(alloc: Global, case: Case) -> Option<Scenario> {
    let mut folder = folder(alloc, case).ok()?;
    read_case(alloc, &mut folder).ok()
}

/// The core of the case in a folder; none without memory.
fn read_core(alloc: Global, folder: &mut MemFolder) -> Option<Core> {
    match read_case(alloc, folder) {
        Ok(scenario) => Core::create(alloc, scenario).ok(),
        Err(_) => None,
    }
}

fn core_of(alloc: Global, case: Case) -> Option<Core> {
    let mut folder = folder(alloc, case).ok()?;
    read_core(alloc, &mut folder)
}

/// Lets a core go.
fn let_go(_core: Core) {}

/// How a session ended and what its core then is: how many batches are accepted and shown, whether it rests, and the next
/// settle count.
#[derive(Drop)]
pub struct Outcome {
    pub end: SessionEnd,
    pub accepted: usize,
    pub version: u64,
    pub shown: u64,
    pub rests: bool,
    pub count: Option<u128>,
}

fn look(core: &mut Core, end: SessionEnd) -> Outcome {
    Outcome {
        end,
        accepted: core.accepted().len(),
        version: core.version(),
        shown: core.shown().version(),
        rests: core.at_rest(),
        count: core.settle_count(),
    }
}

/// Serves a script to a core that has accepted nothing.
fn serve_core<S: Source, W: Sink>(
    alloc: Global,
    core: Core,
    source: &mut S,
    sink: &mut W,
) -> Option<Outcome> {
    if core.version() != 0 {
        let_go(core);
        return None;
    }
    let Served { end, mut core } = serve_alone(alloc, core, source, sink);
    let outcome = look(&mut core, end);
    let_go(core);
    Some(outcome)
}

/// Serves a script to the core of a case; none without memory.
pub fn serve<S: Source, W: Sink>(
    alloc: Global,
    case: Case,
    source: &mut S,
    sink: &mut W,
) -> Option<Outcome> {
    match core_of(alloc, case) {
        Some(core) => serve_core(alloc, core, source, sink),
        None => None,
    }
}

/// Serves a script from memory, and gives what is written too.
fn serve_script(alloc: Global, case: Case, script: &[u8]) -> Option<(Outcome, SureSink)> {
    let mut source = SureSource::create(alloc, script, 4096).ok()?;
    let mut sink = SureSink::create(alloc, 4096).ok()?;
    let outcome = serve(alloc, case, &mut source, &mut sink)?;
    Some((outcome, sink))
}

/// Serves a script, and compares what is written and how that ends.
pub fn expect_bytes(
    rt: &impl Abort,
    alloc: Global,
    case: Case,
    script: &[u8],
    output: &[u8],
    end: SessionEnd,
) -> Outcome {
    let (outcome, sink) = serve_script(alloc, case, script).expect(rt, "memory");
    assert!(rt; sink.written() == output);
    assert!(rt; outcome.end == end);
    outcome
}

/// The same, where the output is a text.
pub fn expect_served(
    rt: &impl Abort,
    alloc: Global,
    case: Case,
    script: &[u8],
    output: &str,
    end: SessionEnd,
) -> Outcome {
    expect_bytes(rt, alloc, case, script, output.as_bytes(), end)
}

/// The same, where the script is answered to its end.
pub fn expect_answers(rt: &impl Abort, alloc: Global, case: Case, script: &str, output: &str) {
    let script = script.as_bytes();
    let _outcome = expect_served(rt, alloc, case, script, output, SessionEnd::Ended);
}
