//! What is wrong with a case.
use ltm_diagram::DiagramFault;
use ltm_network::NetworkFault;
use ltm_units::{Name, NoMemory};
use std::alloc::{AllocError, AllocFailed};
use std::fmt;
use thiserror::Error;

/// A file of a case, or the whole of it.
#[derive(Clone, Copy, Debug, PartialEq, Eq)]
pub enum File {
    Setup,
    Links,
    Demand,
    Splits,
    Signals,
    Limits,
    /// The slices over which a matrix of demand is split.
    Profile,
    /// What no file says alone.
    Whole,
}

/// What is wrong with a record, with a file, or with the whole case. Fields are counted from 1.
#[derive(Clone, Copy, PartialEq, Eq)]
pub enum CaseCause {
    /// The first record is missing, or does not name the fields of the file.
    Header,
    /// The setup has no second record, or has a third; or the profile has no second.
    Rows,
    /// The record has not as many fields as the header.
    Width,
    /// The field is not of its kind.
    Field(u32),
    /// The field of the setup, or of the profile, is out of its limits.
    Range(u32),
    /// The network takes no such link. No call of this crate tells `NetworkFault::NoMemory`: `memory_is_never_a_bad_case`.
    Network(NetworkFault),
    /// The link's diagram sets no limits at the step of the setup.
    Diagram(DiagramFault),
    /// The field names no node, no link, or a link that does not leave the node.
    Unknown(u32),
    /// No link leaves the origin.
    NoOrigin,
    /// The origin, or the node of a split row, is the destination.
    SameEnds,
    /// The slots are none, or go past the horizon, or those of a profile begin before the slice above them ends.
    BadSlots,
    /// All weights are 0.
    ZeroWeight,
    /// The record would name a 65th destination.
    TooManyDestinations,
    /// The record would leave 10,001 demand rows, or 50,001 split rows.
    TooManyRows,
    /// The node and the destination lack the split row that a rule asks for: any at all, or one from slot 0 on.
    NoSplit { node: Name, destination: Name },
    /// The cells are more than the case may have; this many.
    CellsOver(u128),
}

impl fmt::Debug for CaseCause {
    fn fmt<W: fmt::Write>(&self, f: &mut fmt::Formatter<W>) -> fmt::Result {
        match self {
            CaseCause::Header => write!(f, "Header"),
            CaseCause::Rows => write!(f, "Rows"),
            CaseCause::Width => write!(f, "Width"),
            CaseCause::Field(field) => write!(f, "Field({field})"),
            CaseCause::Range(field) => write!(f, "Range({field})"),
            CaseCause::Network(fault) => write!(f, "{fault:?}"),
            CaseCause::Diagram(fault) => write!(f, "{fault:?}"),
            CaseCause::Unknown(field) => write!(f, "Unknown({field})"),
            CaseCause::NoOrigin => write!(f, "NoOrigin"),
            CaseCause::SameEnds => write!(f, "SameEnds"),
            CaseCause::BadSlots => write!(f, "BadSlots"),
            CaseCause::ZeroWeight => write!(f, "ZeroWeight"),
            CaseCause::TooManyDestinations => write!(f, "TooManyDestinations"),
            CaseCause::TooManyRows => write!(f, "TooManyRows"),
            CaseCause::NoSplit { .. } => write!(f, "NoSplit"),
            CaseCause::CellsOver(cells) => write!(f, "CellsOver({cells})"),
        }
    }
}

/// Why there is no scenario.
#[derive(Clone, Copy, Debug, PartialEq, Eq, Error)]
pub enum CaseFault {
    /// The folder did not give the file, or has none of its name.
    #[error("a file of the case could not be read")]
    Folder(File),
    /// The file has more than 16,777,216 bytes.
    #[error("a file of the case is too long")]
    TooLong(File),
    /// The first fault of the case. Row 1 is the header; row 0 stands for the whole case.
    #[error("the case is bad")]
    Bad {
        file: File,
        row: u32,
        cause: CaseCause,
    },
    /// The case keeps no history, which the call needs.
    #[error("the case keeps no history")]
    NoHistory,
    /// Memory was not found.
    #[error("out of memory")]
    NoMemory,
}

impl From<NoMemory> for CaseFault {
    ghost use Rattle.std.specs.Prelude.{◌≡◌};
    ghost use Rattle.ltm_casefile.specs.declared.faults.CaseFault.TheVariants as fault;

    ghost from_gives = { λ _ e. e ≡ fault.NoMemory };

    fn from(_e: NoMemory) -> CaseFault {
        CaseFault::NoMemory
    }
}

/// Why a record is not taken.
#[derive(Clone, Copy, PartialEq, Eq)]
pub enum RecordFault {
    Cause(CaseCause),
    /// Memory was not found.
    NoMemory,
}

impl From<CaseCause> for RecordFault {
    ghost use Rattle.std.specs.Prelude.{◌≡◌};
    ghost use Rattle.ltm_casefile.specs.declared.faults.RecordFault.TheVariants as fault;

    ghost from_gives = { λ cause e. e ≡ fault.Cause cause };

    fn from(cause: CaseCause) -> RecordFault {
        RecordFault::Cause(cause)
    }
}

impl From<NoMemory> for RecordFault {
    ghost use Rattle.std.specs.Prelude.{◌≡◌};
    ghost use Rattle.ltm_casefile.specs.declared.faults.RecordFault.TheVariants as fault;

    ghost from_gives = { λ _ e. e ≡ fault.NoMemory };

    fn from(_e: NoMemory) -> RecordFault {
        RecordFault::NoMemory
    }
}
