//! What a split row is known by, and why one may be refused.
use ltm_units::NodeId;
use std::error::Error;
use std::fmt;

/// What a split row is known by. Rows are listed in this order: by node, then by destination, then by first slot.
#[derive(Clone, Copy, Debug, PartialEq, Eq, PartialOrd, Ord)]
pub struct SplitKey {
    pub node: NodeId,
    /// The destination, by its place in the case's list of destinations.
    pub destination: u32,
    /// The first slot in which the row may be in force.
    pub from: u32,
}

/// Why a row was not taken. The table is as it was before.
#[derive(Clone, Copy, Debug, PartialEq, Eq)]
pub enum SplitFault {
    /// The row's first slot is not below the horizon.
    BadSlots,
    /// No out-link has a weight above 0.
    ZeroWeight,
    /// The table has as many rows as it may have, and none with this key.
    TooManyRows,
    NoMemory,
}

impl fmt::Display for SplitFault {
    ghost use Rattle.std.specs.Prelude.{Some};
    ghost use Rattle.ltm_splits.specs.Texts.{fault_text};

    ghost output = { λ fault. Some (fault_text fault) };

    fn fmt<W: fmt::Write>(&self, f: &mut fmt::Formatter<W>) -> fmt::Result {
        match self {
            SplitFault::BadSlots => write!(f, "the first slot is not below the horizon"),
            SplitFault::ZeroWeight => write!(f, "no weight is above 0"),
            SplitFault::TooManyRows => write!(f, "too many rows"),
            SplitFault::NoMemory => write!(f, "out of memory"),
        }
    }
}

impl Error for SplitFault {}
