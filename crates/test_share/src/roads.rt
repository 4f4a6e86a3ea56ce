//! One road, and the batches of edits that editors have for it.
ghost use Rattle.std.specs.Prelude.{◌≡◌, [], IfSome};
ghost use Rattle.ltm_scenario.specs.Valid.{IsValid};

use ltm_casefile::read_case;
use ltm_core::Core;
use ltm_editors::Office;
use ltm_io::MemFolder;
use ltm_scenario::{Batch, Edit, Scenario};
use ltm_units::{Name, NoMemory, Units};
use std::alloc::Global;

/// A batch of edits.
#[derive(Clone, Copy)]
pub enum Change {
    /// The entry of `a` is closed in slot 0.
    CloseA,
    /// That of `z` is, which is no link.
    CloseZ,
    /// The entry of `a` is closed in slot 0, and then that of `z`.
    CloseAThenZ,
    /// The horizon becomes that many slots.
    Slots(u32),
}

/// Link `a` from `n1` to `n2` of 20 m, 36 and 18 km/h and 150 vehicles per km, over four slots of a second. A vehicle of 1000
/// units starts in the first two slots.
fn one_road(alloc: Global) -> Result<MemFolder, NoMemory> {
    MemFolder::of_case(
        alloc,
        &[],
        "step_ms,slots,origin_capacity\n1000,4,1\n",
        "link,from,to,length_m,free_kmh,wave_kmh,jam_per_km\na,n1,n2,20,36,18,150\n",
        "origin,destination,from_slot,to_slot,vehicles\nn1,n2,0,2,1\n",
        "node,destination,from_slot,weights\nn1,n2,0,a=1\n",
    )
}

/// The scenario of the road.
pub fn scenario_of(alloc: Global) -> Option<Scenario>
    ensures { IfSome result IsValid }
{
    let mut folder = one_road(alloc).ok()?;
    read_case(alloc, &mut folder).ok()
}

/// An office with a core of the road.
pub fn office_of(alloc: Global) -> Option<Office>
    ensures { IfSome result (λ o. o.history ≡ []) }
{
    let Some(scenario) = scenario_of(alloc) else {
        return None;
    };
    match Core::create(alloc, scenario) {
        Ok(core) => return Some(Office::create(alloc, core)),
        Err(_) => return None,
    }
}

/// The entry of a link is closed in slot 0.
fn closure(link: &str) -> Option<Edit> {
    let link = Name::read(link.as_bytes())?;
    Some(Edit::Limit {
        link,
        from: 0,
        to: 1,
        amount: Units(0),
    })
}

/// The batch of a change.
pub fn batch_of(alloc: Global, change: Change) -> Option<Batch> {
    match change {
        Change::CloseA => Batch::of(alloc, &[closure("a")?]).ok(),
        Change::CloseZ => Batch::of(alloc, &[closure("z")?]).ok(),
        Change::CloseAThenZ => Batch::of(alloc, &[closure("a")?, closure("z")?]).ok(),
        Change::Slots(slots) => Batch::of(alloc, &[Edit::Horizon { slots }]).ok(),
    }
}
