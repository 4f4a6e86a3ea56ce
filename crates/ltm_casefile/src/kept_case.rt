//! The scenario of a case whose history is kept.
ghost use Rattle.std.specs.Prelude.{◌≡◌, ◌≤◌, ◌⊎◌, ℕ, Ok, Err, IfOk, IfErr, IfSome, Some, true, false};
ghost use Rattle.ltm_io.specs.Folder.{Files};
ghost use Rattle.ltm_io.specs.Faults.{Rose};
ghost use Rattle.ltm_io.specs.declared.doc.Doc.{Doc};
ghost use Rattle.ltm_scenario.specs.Valid.{IsValid};
ghost use Rattle.ltm_casefile.specs.Case.{is_case_file, asks_for};
ghost use Rattle.ltm_casefile.specs.KeptCase.{kept_case_of};
ghost use Rattle.ltm_casefile.specs.Faults.{Agrees, HasRisen, WasAsked, HidesNoMemory};

use crate::case::read_case;
use crate::faults::CaseFault;
use ltm_io::Folder;
use ltm_scenario::Scenario;
use std::alloc::Global;

/// The same as `read_case` for whoever needs all counts of a loading: a case that keeps no history is refused, once it is found to
/// be valid.
#[tactic(auto, using(crate::proofs::Keeping::lacks_still, crate::proofs::Keeping::is_kept, crate::proofs::Keeping::is_not_kept))]
pub fn read_kept_case<F: Folder>(alloc: Global, folder: &mut F) -> Result<Scenario, CaseFault>
    ensures ok { IfOk result (λ scenario. IfSome (F.told folder.old) (λ files. kept_case_of files
        ≡ Ok scenario)) }
    ensures valid { IfOk result IsValid }
    ensures history { IfOk result (λ scenario. scenario.setup.history ≡ true) }
    ensures fault { IfErr result (λ e. IfSome (F.told folder.old)
        (λ files. Agrees (kept_case_of files) e)) }
    ensures memory { IfErr result HidesNoMemory }
    ensures risen { IfErr result (HasRisen (F.faults folder.old) (F.faults folder.new)) }
    ensures asked { IfErr result (λ e. IfSome (F.told folder.old)
        (λ files. WasAsked (asks_for files) e)) }
    ensures keeps { F.told folder.new ≡ F.told folder.old }
    ensures later { (d : Doc) → F.faults folder.old d ≤ F.faults folder.new d }
    ensures others { (d : Doc) → is_case_file d ≡ false
        → F.faults folder.new d ≡ F.faults folder.old d }
    ensures unasked { IfSome (F.told folder.old) (λ files.
        (d : Doc) → asks_for files d ≡ false → F.faults folder.new d ≡ F.faults folder.old d) }
    ensures complete { (files : Files) → F.told folder.old ≡ Some files
        → ((d : Doc) → asks_for files d ≡ true
        → Rose (F.faults folder.old d) (F.faults folder.new d) → ⊥)
        → (result ≡ kept_case_of files) ⊎ (result ≡ Err CaseFault.NoMemory) }
{
    let scenario = match read_case(alloc, folder) {
        Ok(scenario) => scenario,
        Err(fault) => return Err(fault),
    };
    if !scenario.setup().history {
        return Err(CaseFault::NoHistory);
    }
    Ok(scenario)
}
