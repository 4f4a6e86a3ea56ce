//! The setup of a case.
ghost use Rattle.std.specs.Prelude.{◌≡◌, ◌&&◌};
ghost use Rattle.ltm_scenario.specs.Setup.{kept_or, limited};

use ltm_demand::DEFAULT_DEMAND_ROWS;
use ltm_network::DEFAULT_LINKS;
use ltm_splits::DEFAULT_SPLIT_ROWS;
use ltm_units::{Millis, Units};

/// The most slots of a horizon.
pub const MOST_SLOTS: u32 = 10_000;

/// The most rows of demand, and of splits, that a setup may ask for.
const MOST_ROWS: u64 = 8_000_000;

const MOST_ROUTED_ROWS: u64 = 160_000_000;

/// The most links that a setup may ask for.
const MOST_LINKS: u64 = 40_000;

/// The most destinations that a setup may ask for.
const MOST_DESTINATIONS: u64 = 2_000;

/// The most rows of demand, and of splits, where the history of a loading is kept.
const MOST_KEPT_ROWS: u64 = 500_000;

/// The most links where it is.
const MOST_KEPT_LINKS: u64 = 16_000;

/// The most destinations where it is.
const MOST_KEPT_DESTINATIONS: u64 = 256;

/// The most cells of a case that does not say how many it may have.
pub const DEFAULT_CELLS: u32 = 54_000_000;

/// The most destinations of such a case.
pub const DEFAULT_DESTINATIONS: u32 = 64;

/// How long a slot is, how many there are, what leaves an origin in one, how large the case may be, and how nodes move and links
/// round their capacity.
#[derive(Clone, Copy, Debug, PartialEq, Eq)]
pub struct Setup {
    /// The length of a slot, 1 to 60,000 ms.
    pub step: Millis,
    /// The slots of the horizon, 1 to 10,000.
    pub slots: u32,
    /// The most that leaves an origin in a slot, 1 to 32,000 thousandths of a vehicle.
    pub origin_capacity: Units,
    /// The most cells that the case may have where its history is kept, at least 1.
    pub most_cells: u32,
    /// The most rows of demand, 1 to 500,000 with history and 1 to 8,000,000 without it.
    pub most_demand_rows: u32,
    /// The most split rows, 1 to 500,000 with history and 1 to 8,000,000 without it.
    pub most_split_rows: u32,
    /// The most links, 1 to 16,000 with history and 1 to 40,000 without it.
    pub most_links: u32,
    /// The most destinations, 1 to 256 with history and 1 to 2,000 without it.
    pub most_destinations: u32,
    /// Whether what moves through a turn is floored for the turn, and not for each destination.
    pub by_turn: bool,
    /// Whether what is left over of a link's capacity, rounded down, is carried to the next slot.
    pub carry: bool,
    /// Whether a loading keeps the counts of each destination at every boundary, as sessions, curves and checks need them.
    pub history: bool,
}

/// Why a setup is none.
#[derive(Clone, Copy, Debug, PartialEq, Eq)]
pub enum SetupFault {
    /// The first field that is out of its limits, counted from 1: step, slots, capacity of origins.
    Range(u32),
    /// These three are within their limits, and the most cells are not.
    MostCells,
    /// All before are within their limits, and the most rows of demand or of splits are not.
    MostRows,
    /// All before are within their limits, and the most links are not.
    MostLinks,
    /// All before are within their limits, and the most destinations are not.
    MostDestinations,
}

impl Setup {
    ghost use Rattle.ltm_scenario.specs.Setup.{setup_of, sizes_checked, setup_checked};

    /// The setup of a case that does not say how large it may be.
    pub fn of(step: Millis, slots: u32, origin_capacity: Units) -> Setup
        ensures { result ≡ setup_of step slots origin_capacity }
    {
        Setup {
            step,
            slots,
            origin_capacity,
            most_cells: DEFAULT_CELLS,
            most_demand_rows: DEFAULT_DEMAND_ROWS,
            most_split_rows: DEFAULT_SPLIT_ROWS,
            most_links: DEFAULT_LINKS,
            most_destinations: DEFAULT_DESTINATIONS,
            by_turn: false,
            carry: false,
            history: true,
        }
    }

    /// Whether each field is within its limits.
    pub(crate) fn check(&self) -> Result<(), SetupFault>
        ensures { result ≡ setup_checked self.now }
    {
        limited(60_000, self.step.0, SetupFault::Range(1))?;
        limited(
            u64::from(MOST_SLOTS),
            u64::from(self.slots),
            SetupFault::Range(2),
        )?;
        limited(32_000, self.origin_capacity.0, SetupFault::Range(3))?;
        limited(
            u64::from(u32::MAX),
            u64::from(self.most_cells),
            SetupFault::MostCells,
        )?;
        self.check_sizes()
    }

    /// Whether rows, links and destinations are within their limits.
    fn check_sizes(&self) -> Result<(), SetupFault>
        ensures { result ≡ sizes_checked self.now }
    {
        let rows = kept_or(self.history, MOST_KEPT_ROWS, MOST_ROWS);
        let split_rows = kept_or(self.history, MOST_KEPT_ROWS, MOST_ROUTED_ROWS);
        let links = kept_or(self.history, MOST_KEPT_LINKS, MOST_LINKS);
        let destinations = kept_or(self.history, MOST_KEPT_DESTINATIONS, MOST_DESTINATIONS);
        limited(rows, u64::from(self.most_demand_rows), SetupFault::MostRows)?;
        limited(
            split_rows,
            u64::from(self.most_split_rows),
            SetupFault::MostRows,
        )?;
        limited(links, u64::from(self.most_links), SetupFault::MostLinks)?;
        limited(
            destinations,
            u64::from(self.most_destinations),
            SetupFault::MostDestinations,
        )
    }
}

/// The limit of a case with history, or of one without it.
fn kept_or(history: bool, kept: u64, most: u64) -> u64
    ensures { result ≡ kept_or history kept most }
{
    if history { kept } else { most }
}

/// Refuses a number that is 0 or more than this.
fn limited(most: u64, number: u64, fault: SetupFault) -> Result<(), SetupFault>
    ensures { result ≡ limited most number fault }
{
    if !(1..=most).contains(&number) {
        return Err(fault);
    }
    Ok(())
}
