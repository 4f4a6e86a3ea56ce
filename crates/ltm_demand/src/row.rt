//! A row of demand, and why one is refused.
use ltm_units::{NoMemory, NodeId, Units};
use std::error::Error;
use std::fmt;

/// Vehicles from an origin to a destination, that start evenly over the slots from `from` up to, and without, `to`.
///
/// The first four fields are the row's key: a demand has at most one row for each.
#[derive(Clone, Copy, Debug, PartialEq, Eq)]
pub struct DemandRow {
    /// The node where the vehicles start.
    pub origin: NodeId,
    /// The destination, by its place in the case's list of destinations.
    pub destination: u32,
    /// The first slot, counted from 0.
    pub from: u32,
    /// The slot after the last.
    pub to: u32,
    /// Thousandths of a vehicle, at most 1,000,000,000.
    pub amount: Units,
}

/// Why a row is not set.
#[derive(Clone, Copy, Debug, PartialEq, Eq)]
pub enum DemandFault {
    /// The row has no slot, or one past the horizon.
    BadSlots,
    /// The demand has as many rows as it may have, and none with this key.
    TooManyRows,
    /// Memory was not found.
    NoMemory,
}

impl fmt::Display for DemandFault {
    ghost use Rattle.std.specs.Prelude.{Some};
    ghost use Rattle.ltm_demand.specs.Texts.{fault_text};

    ghost output = { λ fault. Some (fault_text fault) };

    fn fmt<W: fmt::Write>(&self, f: &mut fmt::Formatter<W>) -> fmt::Result {
        match self {
            DemandFault::BadSlots => write!(f, "bad slots"),
            DemandFault::TooManyRows => write!(f, "too many rows"),
            DemandFault::NoMemory => write!(f, "out of memory"),
        }
    }
}

impl Error for DemandFault {}

impl From<NoMemory> for DemandFault {
    ghost use Rattle.std.specs.Prelude.{◌≡◌};
    ghost use Rattle.ltm_demand.specs.declared.row.DemandFault.TheVariants as fault;

    ghost from_gives = { λ _ e. e ≡ fault.NoMemory };

    fn from(_e: NoMemory) -> DemandFault {
        DemandFault::NoMemory
    }
}
