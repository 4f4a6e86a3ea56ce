//! The scenario of a case.
ghost use Rattle.std.specs.Prelude.{◌≡◌, ◌≤◌, ◌⊎◌, ℕ, [], Ok, Err, IfOk, IfErr, OnOk, IfSome, Some, None, true, false};
ghost use Rattle.ltm_io.specs.Folder.{Files};
ghost use Rattle.ltm_io.specs.Faults.{Rose};
ghost use Rattle.ltm_io.specs.declared.doc.Doc.{Doc};
ghost use Rattle.ltm_scenario.specs.Valid.{IsValid};
ghost use Rattle.ltm_casefile.specs.Case.{case_of, built, filled, limited, whole, cause_of_whole, is_case_file, asks_for};
ghost use Rattle.ltm_casefile.specs.Faults.{Agrees, Says, HasRisen, WasAsked, HidesNoMemory};

use crate::faults::{CaseCause, CaseFault, File};
use crate::fetch_case::{Parts, fetch_parts};
use crate::roads::fill_roads;
use crate::routed::route_if;
use crate::tables::Table;
use crate::texts::{LimitTexts, Texts};
use ltm_io::Folder;
use ltm_scenario::{Scenario, ScenarioFault};
use std::alloc::Global;

fn add_limits(alloc: Global, scenario: &mut Scenario, texts: &LimitTexts) -> Result<(), CaseFault>
    ensures ok { OnOk result (limited scenario.old texts.now ≡ Ok scenario.new) }
    ensures fault { IfErr result (Says (limited scenario.old texts.now)) }
{
    match Table::Signals.add_if(alloc, scenario, &texts.signals) {
        Ok(()) => {}
        Err(fault) => return Err(fault),
    }
    Table::Limits.add_if(alloc, scenario, &texts.limits)
}

/// Adds what the files say to a scenario without split rows: links, demand, splits, then routes where they are asked for,
/// signals, entry limits.
#[tactic(auto, unfolding(crate::specs::Case::filled))]
fn fill(
    alloc: Global,
    scenario: &mut Scenario,
    routes: bool,
    texts: &Texts,
    limits: &LimitTexts,
) -> Result<(), CaseFault>
    requires { scenario.old.splits ≡ [] }
    ensures ok { OnOk result (filled scenario.old routes texts.now limits.now
        ≡ Ok scenario.new) }
    ensures fault { IfErr result (Says (filled scenario.old routes texts.now limits.now)) }
{
    match fill_roads(alloc, scenario, &texts.roads) {
        Ok(()) => {}
        Err(fault) => return Err(fault),
    }
    match Table::Splits.add_to(alloc, scenario, &texts.splits) {
        Ok(()) => {}
        Err(fault) => return Err(fault),
    }
    match route_if(alloc, scenario, routes) {
        Ok(()) => {}
        Err(fault) => return Err(fault),
    }
    add_limits(alloc, scenario, limits)
}

fn cause_of(fault: ScenarioFault) -> CaseCause
    ensures { result ≡ cause_of_whole fault }
{
    match fault {
        ScenarioFault::NoSplit { node, destination } => CaseCause::NoSplit { node, destination },
        ScenarioFault::CellsOver(cells) => CaseCause::CellsOver(cells),
    }
}

/// Whether the rules of a valid case hold; the first that is broken.
pub fn check_case(scenario: &Scenario) -> Result<(), CaseFault>
    ensures ok { OnOk result (whole scenario.now ≡ Ok scenario.now) }
    ensures valid { OnOk result (IsValid scenario.now) }
    ensures fault { IfErr result (Says (whole scenario.now)) }
{
    match scenario.check() {
        Ok(()) => Ok(()),
        Err(fault) => Err(CaseFault::Bad {
            file: File::Whole,
            row: 0,
            cause: cause_of(fault),
        }),
    }
}

/// The scenario that the parts of a case make, where it is valid.
fn build(alloc: Global, parts: Parts) -> Result<Scenario, CaseFault>
    requires { parts.scenario.splits ≡ [] }
    ensures ok { IfOk result (λ scenario. built parts ≡ Ok scenario) }
    ensures valid { IfOk result IsValid }
    ensures fault { IfErr result (Says (built parts)) }
{
    let Parts {
        mut scenario,
        routes,
        texts,
        limits,
    } = parts;
    fill(alloc, &mut scenario, routes, &texts, &limits)?;
    check_case(&scenario)?;
    Ok(scenario)
}

/// The valid scenario that the files of a folder describe, or the first fault: first a file that is missing, cannot be
/// read or is too long, in the order setup, links, demand, profile, splits, the profile where the demand is a matrix; then what
/// the setup says; then the file of signals and that of entry limits, each where the setup asks for it, likewise; then what links,
/// profile, demand, splits, signals and entry limits say; then the whole case.
///
/// Each file is fetched once, and its records are read up to its first fault.
#[tactic(auto, using(crate::proofs::Memory::built_said))]
pub fn read_case<F: Folder>(alloc: Global, folder: &mut F) -> Result<Scenario, CaseFault>
    ensures ok { IfOk result (λ scenario. IfSome (F.told folder.old) (λ files. case_of files
        ≡ Ok scenario)) }
    ensures valid { IfOk result IsValid }

    // Too long a file and a bad case are told as they are.
    ensures fault { IfErr result (λ e. IfSome (F.told folder.old)
        (λ files. Agrees (case_of files) e)) }

    // Nor is want of memory ever told as a bad case.
    ensures memory { IfErr result HidesNoMemory }

    // A file is not given only where its count of faults rose in this call, and the case has such a file.
    ensures risen { IfErr result (HasRisen (F.faults folder.old) (F.faults folder.new)) }
    ensures asked { IfErr result (λ e. IfSome (F.told folder.old)
        (λ files. WasAsked (asks_for files) e)) }

    ensures keeps { F.told folder.new ≡ F.told folder.old }
    ensures later { (d : Doc) → F.faults folder.old d ≤ F.faults folder.new d }
    ensures others { (d : Doc) → is_case_file d ≡ false
        → F.faults folder.new d ≡ F.faults folder.old d }
    ensures unasked { IfSome (F.told folder.old) (λ files.
        (d : Doc) → asks_for files d ≡ false → F.faults folder.new d ≡ F.faults folder.old d) }

    // Where no count rose of a file that the case has, the answer is the one of the files, or memory was not found.
    ensures complete { (files : Files) → F.told folder.old ≡ Some files
        → ((d : Doc) → asks_for files d ≡ true
        → Rose (F.faults folder.old d) (F.faults folder.new d) → ⊥)
        → (result ≡ case_of files) ⊎ (result ≡ Err CaseFault.NoMemory) }
{
    match fetch_parts(alloc, folder) {
        Ok(parts) => return build(alloc, parts),
        Err(fault) => return Err(fault),
    }
}
