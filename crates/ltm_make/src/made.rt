//! The made case.
ghost use Rattle.std.specs.Prelude.{◌≡◌, ◌≢◌, ◌+◌, ◌*◌, ◌%◌, ◌<◌, ◌≤◌, ◌⊎◌, ◌↔◌, ℕ, Err, IfOk, IfErr, OnOk, IsOk, length};
ghost use Rattle.ltm_scenario.specs.Edits.{edited_all, HaveAmounts};
ghost use Rattle.ltm_scenario.specs.Valid.{IsValid};
ghost use Rattle.ltm_make.specs.Words.{word, rest};
ghost use Rattle.ltm_make.specs.Grid.{IsWidth};
ghost use Rattle.ltm_make.specs.Links.{making_from};
ghost use Rattle.ltm_make.specs.Splits.{IsGrid};
ghost use Rattle.ltm_make.specs.MadeCase.{made_from, two_edits, bytes_of, IsMade};

use crate::grid::{Grid, width_of};
use crate::making::Making;
use crate::names::{link_name, node_name};
use crate::words::{draw, generator};
use ltm_scenario::{Batch, BatchFault, Edit, Scenario, Setup};
use ltm_units::{Millis, NoMemory, Units};
use rand_pcg::Pcg32;
use std::alloc::Global;

/// The fewest and the most nodes of a made case.
const FEWEST: u32 = 4;

const MOST: u32 = 400;

/// How many bytes a schedule has for each node.
const BYTES_A_NODE: u32 = 480;

/// A valid case, a batch that it accepts, and a schedule for its repair.
#[derive(Drop)]
pub struct Made {
    pub scenario: Scenario,
    pub batch: Batch,
    /// One byte for each step of a virtual worker.
    pub schedule: Vec<u8>,
}

/// Why no case was made.
#[derive(Clone, Copy, Debug, PartialEq, Eq)]
pub enum MakeFault {
    /// Fewer than 4 nodes, or more than 400.
    BadSize,
    /// Memory was not found.
    NoMemory,
}

impl From<NoMemory> for MakeFault {
    ghost use Rattle.std.specs.Prelude.{◌≡◌};
    ghost use Rattle.ltm_make.specs.declared.made.MakeFault.TheVariants as fault;

    ghost from_gives = { λ _ e. e ≡ fault.NoMemory };

    fn from(_e: NoMemory) -> MakeFault {
        MakeFault::NoMemory
    }
}

/// Nothing yet but the words of a number.
fn open(alloc: Global, start: u64) -> Making
    ensures { result ≡ making_from start }
{
    match Scenario::create(alloc, Setup::of(Millis(10_000), 60, Units(32_000))) {
        Ok(scenario) => Making {
            scenario,
            words: generator(start),
        },
        Err(_) => unreachable!(),
    }
}

/// The scenario, and the words behind those that it took.
fn make_scenario(alloc: Global, start: u64, grid: Grid) -> Result<Making, NoMemory>
    requires { IsGrid grid.nodes grid.width }
    ensures { IfOk result (λ making. making ≡ made_from start grid.nodes grid.width) }
{
    let mut making = open(alloc, start);
    making.add_grid(alloc, grid.nodes, grid.width)?;
    making.add_ends(alloc, grid)?;
    making.add_splits(alloc, grid)?;
    making.add_demands(alloc, grid)?;
    Ok(making)
}

/// The batch of a limit on a link and of the demand of the last node.
fn make_batch(alloc: Global, link: u32, last: u32) -> Result<Batch, NoMemory>
    ensures { IfOk result (λ batch. batch ≡ two_edits link last) }
{
    let limit = Edit::Limit {
        link: link_name(alloc, link)?,
        from: 5,
        to: 15,
        amount: Units(1000),
    };
    let demand = Edit::Demand {
        origin: node_name(alloc, last)?,
        destination: node_name(alloc, 0)?,
        from: 0,
        to: 10,
        amount: Units(30_000),
    };
    match Batch::of(alloc, &[limit, demand]) {
        Ok(batch) => Ok(batch),
        Err(BatchFault::NoMemory) => Err(NoMemory),
        Err(BatchFault::Count) => unreachable!(),
    }
}

/// So many bytes, one of each word.
fn draw_bytes(alloc: Global, words: &mut Pcg32, count: u32) -> Result<Vec<u8>, NoMemory>
    ensures { IfOk result (λ bytes. bytes.items ≡ bytes_of count words.old) }
{
    let mut bytes = Vec::new(alloc);
    bytes.reserve(count as usize)?;
    let mut drawn = 0;
    while drawn < count {
        bytes.push(draw(words, 256) as u8)?;
        drawn += 1;
    }
    Ok(bytes)
}

/// The case of a number, with so many nodes on a grid: its scenario, a batch and a schedule, each from the words of the
/// generator of that number. The scenario is valid, and it accepts the batch.
///
/// It takes the memory of what it makes, and time in proportion to the nodes.
pub fn make_case(alloc: Global, start: u64, nodes: u32) -> Result<Made, MakeFault>
    ensures made { (width : ℕ) → IsWidth nodes width → IfOk result (IsMade start nodes width) }
    ensures valid { IfOk result (λ made. IsValid made.scenario) }
    ensures amounts { IfOk result (λ made. HaveAmounts made.batch) }
    ensures accepted { IfOk result (λ made. IsOk (edited_all made.scenario made.batch)) }
    ensures size { (result ≡ Err MakeFault.BadSize) ↔ ((nodes < FEWEST) ⊎ (MOST < nodes)) }
{
    if nodes < FEWEST || nodes > MOST {
        return Err(MakeFault::BadSize);
    }
    match make_all(alloc, start, nodes) {
        Ok(made) => Ok(made),
        Err(NoMemory) => Err(MakeFault::NoMemory),
    }
}

/// The same for a number of nodes that has a grid.
fn make_all(alloc: Global, start: u64, nodes: u32) -> Result<Made, NoMemory>
    requires some { 4 ≤ nodes }
    requires few { nodes ≤ 400 }
    ensures made { (width : ℕ) → IsWidth nodes width → IfOk result (IsMade start nodes width) }
    ensures valid { IfOk result (λ made. IsValid made.scenario) }
    ensures amounts { IfOk result (λ made. HaveAmounts made.batch) }
    ensures accepted { IfOk result (λ made. IsOk (edited_all made.scenario made.batch)) }
{
    let width = width_of(nodes);
    let grid = Grid { nodes, width };
    let mut making = make_scenario(alloc, start, grid)?;
    let _setup = making.scenario.setup();
    let links = making.scenario.network().links();
    let link = draw(&mut making.words, links);
    let batch = make_batch(alloc, link, nodes - 1)?;
    let schedule = draw_bytes(alloc, &mut making.words, BYTES_A_NODE * nodes)?;
    Ok(Made {
        scenario: making.scenario,
        batch,
        schedule,
    })
}
