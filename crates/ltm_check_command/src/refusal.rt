//! Why a check does not say yes.
use ltm_casefile::CaseFault;
use ltm_check::CurvesCause;
use ltm_units::Name;

/// Why curves are not said to be the loading of a case.
#[derive(Clone, Copy, PartialEq, Eq)]
pub enum Refusal {
    /// There is no case, with its first fault; or memory was not found.
    Case(CaseFault),
    /// The folder did not give `curves.csv`, or has none.
    NoCurves,
    /// `curves.csv` has more than 268,435,456 bytes.
    LongCurves,
    /// `curves.csv` is no curve file of the case: what is wrong first, and with which record; the header is record 1.
    BadCurves { row: u32, cause: CurvesCause },
    /// Something is counted at the start, or leaves the origin of a node without out-links.
    NoStart,
    /// The counts of this node at the end of this slot are not its node step, and those of all nodes before it, by slot and
    /// then by node, are.
    NoStep { node: Name, slot: u32 },
}
