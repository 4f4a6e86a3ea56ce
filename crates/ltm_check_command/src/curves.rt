//! The counts of the curve file.
ghost use Rattle.std.specs.Prelude.{◌≡◌, ◌≢◌, ◌≤◌, ◌<◌, ℕ, List, Ok, Err, IfOk, IfErr};
ghost use Rattle.ltm_io.specs.Faults.{Rose};
ghost use Rattle.ltm_io.specs.declared.doc.Doc.{Doc};
ghost use Rattle.ltm_scenario.specs.Data.{ScenarioData};
ghost use Rattle.ltm_check.specs.Pieces.{AnswersFile};
ghost use Rattle.ltm_check.specs.declared.faults.FileFault.{FileFault};
ghost use Rattle.ltm_check_command.specs.declared.refusal.Refusal.{Refusal};
ghost use Rattle.ltm_check_command.specs.Checks.{most_bytes};
ghost use Rattle.ltm_check_command.specs.Curves.{KeepsFile, RefusesBytes, RefusesFile};

use crate::refusal::Refusal;
use ltm_casefile::CaseFault;
use ltm_check::{CurvesFault, FileFault, read_curves_from};
use ltm_curve::Curves;
use ltm_io::{Doc, OpenFault, OpenFolder};
use ltm_scenario::Scenario;
use std::alloc::Global;

/// The most bytes that a curve file may have.
const MOST: u64 = 268_435_456;

/// Why a file is refused.
fn refused(fault: FileFault) -> Refusal
    ensures missing { result ≡ Refusal.NoCurves → fault ≡ FileFault.ReadFault }
    ensures told { (s : ScenarioData) (bytes : List ℕ) → AnswersFile s most_bytes bytes (Err fault)
        → RefusesBytes s bytes result }
{
    match fault {
        FileFault::Curves(CurvesFault::Bad { row, cause }) => Refusal::BadCurves { row, cause },
        FileFault::TooLong => Refusal::LongCurves,
        FileFault::ReadFault => Refusal::NoCurves,
        FileFault::Curves(CurvesFault::NoMemory) | FileFault::NoMemory => {
            Refusal::Case(CaseFault::NoMemory)
        }
    }
}

/// The counts of `curves.csv`, which is read piece by piece.
pub(crate) fn read_file<F: OpenFolder>(
    alloc: Global,
    scenario: &Scenario,
    folder: &mut F,
) -> Result<Curves, Refusal>
    ensures file { IfOk result (KeepsFile scenario.now (F.told folder.old)) }
    ensures fault { IfErr result (RefusesFile scenario.now (F.told folder.old)) }
    ensures missing { result ≡ Err Refusal.NoCurves
        → Rose (F.faults folder.old Doc.Curves) (F.faults folder.new Doc.Curves) }
    ensures keeps { F.told folder.new ≡ F.told folder.old }
    ensures later { (d : Doc) → F.faults folder.old d ≤ F.faults folder.new d }
    ensures others { (d : Doc) → d ≢ Doc.Curves → F.faults folder.new d ≡ F.faults folder.old d }
{
    let mut file = match folder.open(alloc, Doc::Curves) {
        Ok(file) => file,
        Err(OpenFault::Failed) => return Err(Refusal::NoCurves),
        Err(OpenFault::NoMemory) => return Err(Refusal::Case(CaseFault::NoMemory)),
    };
    let read = read_curves_from(alloc, scenario, &mut file, MOST);
    folder.close(Doc::Curves, file);
    match read {
        Ok(curves) => Ok(curves),
        Err(fault) => Err(refused(fault)),
    }
}
