//! Why a text is no curve file, and what is said of curves.
use ltm_units::{NoMemory, Pair};

/// What is wrong with a record of a curve file. Fields are counted from 1.
#[derive(Clone, Copy, Debug, PartialEq, Eq)]
pub enum CurvesCause {
    /// The first record is missing, or is not `kind,name,destination,counts`.
    Header,
    /// The record has not four fields.
    Width,
    /// The field is not the one that is due there; of the fourth, it is no list of one count for each boundary.
    Field(u32),
    /// A record is missing here, or is one too many.
    Rows,
}

/// Why a text is no curve file of a scenario.
#[derive(Clone, Copy, Debug, PartialEq, Eq)]
pub enum CurvesFault {
    /// What is wrong first, and with which record; the header is record 1.
    Bad { row: u32, cause: CurvesCause },
    /// Memory was not found.
    NoMemory,
}

impl From<NoMemory> for CurvesFault {
    ghost use Rattle.std.specs.Prelude.{◌≡◌};
    ghost use Rattle.ltm_check.specs.declared.faults.CurvesFault.TheVariants as fault;

    ghost from_gives = { λ _ e. e ≡ fault.NoMemory };

    fn from(_e: NoMemory) -> CurvesFault {
        CurvesFault::NoMemory
    }
}

/// Why a file that is read piece by piece is no curve file of a scenario.
#[derive(Clone, Copy, Debug, PartialEq, Eq)]
pub enum FileFault {
    /// What is wrong first with its bytes.
    Curves(CurvesFault),
    /// It has more bytes than were allowed.
    TooLong,
    /// A read failed, and the file's count of faults rose.
    ReadFault,
    /// Memory was not found.
    NoMemory,
}

impl From<NoMemory> for FileFault {
    ghost use Rattle.std.specs.Prelude.{◌≡◌};
    ghost use Rattle.ltm_check.specs.declared.faults.FileFault.TheVariants as fault;

    ghost from_gives = { λ _ e. e ≡ fault.NoMemory };

    fn from(_e: NoMemory) -> FileFault {
        FileFault::NoMemory
    }
}

/// What is said of curves.
#[derive(Clone, Copy, Debug, PartialEq, Eq)]
pub enum Checked {
    /// They are the loading.
    Yes,
    /// Something is counted at the start, or leaves the origin of a node without out-links.
    Start,
    /// This pair is the first, by slot and then by node, whose counts at the slot's end are not its node step.
    No(Pair),
}
