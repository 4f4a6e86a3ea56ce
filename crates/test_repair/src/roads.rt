//! Small cases, and batches of edits for them.
ghost use Rattle.std.specs.Prelude.{IfSome};
ghost use Rattle.ltm_scenario.specs.Valid.{IsValid};

use ltm_casefile::read_case;
use ltm_diagram::Diagram;
use ltm_io::MemFolder;
use ltm_scenario::{Batch, Edit, Scenario};
use ltm_units::{Name, NoMemory, Units};
use std::alloc::Global;

/// A case.
#[derive(Clone, Copy)]
pub enum Case {
    /// Link `a` from `n1` to `n2` of 20 m, 36 and 18 km/h and 150 vehicles per km, over four slots of a second: capacity
    /// 500, free-flow time 2 slots, wave time 4 slots. A vehicle of 1000 units starts in the first two slots.
    OneRoad,
    /// The first three slots of it.
    ShortRoad,
    /// Two such links in a row, `a` and `b`, over twelve slots; five vehicles start in the first five.
    TwoRoads,
}

/// A batch of edits.
#[derive(Clone, Copy)]
pub enum Change {
    /// The entry of `a` is closed in slot 0.
    CloseA,
    /// The entry of `b` is closed in all twelve slots.
    CloseB,
    /// The entry of `a` is closed in slot 0, and then that of `z`, which is no link.
    CloseAThenZ,
    /// A wave speed of 36 km/h in place of 18 on `a`: capacity 750 and a wave time of 2 slots.
    FasterWave,
    /// The demand of the one road, set again.
    SameDemand,
    /// So many slots.
    Slots(u32),
    /// Five slots, and then the entry of `z`, which is no link, is closed in slot 0.
    FiveSlotsThenZ,
}

fn one_road(alloc: Global, setup: &str) -> Result<MemFolder, NoMemory> {
    MemFolder::of_case(
        alloc,
        &[],
        setup,
        "link,from,to,length_m,free_kmh,wave_kmh,jam_per_km\na,n1,n2,20,36,18,150\n",
        "origin,destination,from_slot,to_slot,vehicles\nn1,n2,0,2,1\n",
        "node,destination,from_slot,weights\nn1,n2,0,a=1\n",
    )
}

fn two_roads(alloc: Global) -> Result<MemFolder, NoMemory> {
    MemFolder::of_case(
        alloc,
        &[],
        "step_ms,slots,origin_capacity\n1000,12,1\n",
        "link,from,to,length_m,free_kmh,wave_kmh,jam_per_km\na,n1,n2,20,36,18,150\nb,n2,n3,20,36,18,150\n",
        "origin,destination,from_slot,to_slot,vehicles\nn1,n3,0,5,5\n",
        "node,destination,from_slot,weights\nn1,n3,0,a=1\nn2,n3,0,b=1\n",
    )
}

/// The files of a case.
fn files(alloc: Global, case: Case) -> Result<MemFolder, NoMemory> {
    match case {
        Case::OneRoad => one_road(alloc, "step_ms,slots,origin_capacity\n1000,4,1\n"),
        Case::ShortRoad => one_road(alloc, "step_ms,slots,origin_capacity\n1000,3,1\n"),
        Case::TwoRoads => two_roads(alloc),
    }
}

/// The scenario of a case.
pub fn scenario_of(alloc: Global, case: Case) -> Option<Scenario>
    ensures { IfSome result IsValid }
{
    let mut folder = files(alloc, case).ok()?;
    read_case(alloc, &mut folder).ok()
}

fn name(text: &str) -> Option<Name> {
    Name::read(text.as_bytes())
}

/// The entry of a link is closed from the start up to a slot.
fn closure(link: &str, to: u32) -> Option<Edit> {
    let link = name(link)?;
    Some(Edit::Limit {
        link,
        from: 0,
        to,
        amount: Units(0),
    })
}

fn faster_wave() -> Option<Edit> {
    let link = name("a")?;
    Some(Edit::Diagram {
        link,
        diagram: Diagram {
            length_m: 20,
            free_kmh: 36,
            wave_kmh: 36,
            jam_per_km: 150,
        },
    })
}

fn same_demand() -> Option<Edit> {
    let origin = name("n1")?;
    let destination = name("n2")?;
    Some(Edit::Demand {
        origin,
        destination,
        from: 0,
        to: 2,
        amount: Units(1000),
    })
}

/// The batch of a change.
pub fn batch_of(alloc: Global, change: Change) -> Option<Batch> {
    match change {
        Change::CloseA => Batch::of(alloc, &[closure("a", 1)?]).ok(),
        Change::CloseB => Batch::of(alloc, &[closure("b", 12)?]).ok(),
        Change::CloseAThenZ => Batch::of(alloc, &[closure("a", 1)?, closure("z", 1)?]).ok(),
        Change::FasterWave => Batch::of(alloc, &[faster_wave()?]).ok(),
        Change::SameDemand => Batch::of(alloc, &[same_demand()?]).ok(),
        Change::Slots(slots) => Batch::of(alloc, &[Edit::Horizon { slots }]).ok(),
        Change::FiveSlotsThenZ => Batch::of(
            alloc,
            &[Edit::Horizon { slots: 5 }, closure("z", 1)?],
        ).ok(),
    }
}
