//! The roads and the demand of a case, without its splits.
ghost use Rattle.std.specs.Prelude.{◌≡◌, ◌≤◌, ◌⊎◌, ℕ, [], Ok, Err, IfOk, IfErr, OnOk, IfSome, Some, true, false};
ghost use Rattle.ltm_io.specs.Folder.{Files};
ghost use Rattle.ltm_io.specs.Faults.{Rose};
ghost use Rattle.ltm_io.specs.declared.doc.Doc.{Doc};
ghost use Rattle.ltm_casefile.specs.Faults.{Agrees, Says, HasRisen, WasAsked, HidesNoMemory};
ghost use Rattle.ltm_casefile.specs.Roads.{with_demand_file, roads_filled, roads_in, unsplit_case_of, is_of_roads, roads_ask};

use crate::faults::CaseFault;
use crate::fetch::fetch_road_texts;
use crate::matrix::add_matrix;
use crate::profile::read_profile;
use crate::setup::open_setup;
use crate::tables::Table;
use crate::texts::{FileText, RoadTexts};
use ltm_io::Folder;
use ltm_scenario::Scenario;
use std::alloc::Global;

/// Adds the demand: rows, or a matrix beside a profile.
fn fill_demand(
    alloc: Global,
    scenario: &mut Scenario,
    profile: &Option<FileText>,
    demand: &FileText,
) -> Result<(), CaseFault>
    ensures ok { OnOk result (with_demand_file scenario.old profile.now demand.now
        ≡ Ok scenario.new) }
    ensures fault { IfErr result (Says (with_demand_file scenario.old profile.now demand.now)) }
{
    match profile {
        None => return Table::Demand.add_to(alloc, scenario, demand),
        Some(text) => {
            let profile = match read_profile(alloc, scenario, text) {
                Ok(profile) => profile,
                Err(fault) => return Err(fault),
            };
            return add_matrix(alloc, scenario, &profile, demand);
        }
    }
}

/// Adds the links and the demand to a scenario without links.
#[tactic(auto, unfolding(crate::specs::Roads::roads_filled))]
pub fn fill_roads(
    alloc: Global,
    scenario: &mut Scenario,
    texts: &RoadTexts,
) -> Result<(), CaseFault>
    requires { scenario.old.splits ≡ [] }
    ensures ok { OnOk result (roads_filled scenario.old texts.now ≡ Ok scenario.new) }
    ensures fault { IfErr result (Says (roads_filled scenario.old texts.now)) }
{
    match Table::Links.add_to(alloc, scenario, &texts.links) {
        Ok(()) => {}
        Err(fault) => return Err(fault),
    }
    fill_demand(alloc, scenario, &texts.profile, &texts.demand)
}

/// The scenario that the texts say.
#[tactic(auto, unfolding(crate::specs::Roads::roads_in), using(crate::proofs::Unsplit::unsplit))]
fn build_roads(alloc: Global, texts: &RoadTexts) -> Result<Scenario, CaseFault>
    ensures ok { IfOk result (λ scenario. roads_in texts.now ≡ Ok scenario) }
    ensures unsplit { IfOk result (λ scenario. scenario.splits ≡ []) }
    ensures fault { IfErr result (Says (roads_in texts.now)) }
{
    let opened = open_setup(alloc, texts.setup())?;
    let mut scenario = opened.scenario;
    fill_roads(alloc, &mut scenario, texts)?;
    Ok(scenario)
}

/// The scenario without split rows that the setup, the links and the demand of a folder describe, or the first fault:
/// first a file that is missing, cannot be read or is too long, in this order, and last the profile where the demand is a matrix; then
/// what setup, links, profile and demand say, in this order. Whether the case is whole is not asked.
///
/// The setup may ask for signals and for entry limits; neither is fetched.
#[tactic(auto, using(crate::proofs::Memory::roads_said))]
pub fn read_roads<F: Folder>(alloc: Global, folder: &mut F) -> Result<Scenario, CaseFault>
    ensures ok { IfOk result (λ scenario. IfSome (F.told folder.old) (λ files. unsplit_case_of files
        ≡ Ok scenario)) }
    ensures unsplit { IfOk result (λ scenario. scenario.splits ≡ []) }

    // Too long a file and bad records are told as they are.
    ensures fault { IfErr result (λ e. IfSome (F.told folder.old)
        (λ files. Agrees (unsplit_case_of files) e)) }

    // Nor is want of memory ever told as bad records.
    ensures memory { IfErr result HidesNoMemory }

    // A file is not given only where its count of faults rose in this call, and it is one of these four: the profile only where
    // the demand is a matrix.
    ensures risen { IfErr result (HasRisen (F.faults folder.old) (F.faults folder.new)) }
    ensures asked { IfErr result (WasAsked is_of_roads) }
    ensures needed { IfErr result (λ e. IfSome (F.told folder.old)
        (λ files. WasAsked (roads_ask files) e)) }

    ensures keeps { F.told folder.new ≡ F.told folder.old }
    ensures later { (d : Doc) → F.faults folder.old d ≤ F.faults folder.new d }
    ensures others { (d : Doc) → is_of_roads d ≡ false
        → F.faults folder.new d ≡ F.faults folder.old d }
    ensures unasked { IfSome (F.told folder.old) (λ files.
        (d : Doc) → roads_ask files d ≡ false → F.faults folder.new d ≡ F.faults folder.old d) }

    // Where no count rose of these files, the answer is the one of the files, or memory was not found.
    ensures complete { (files : Files) → F.told folder.old ≡ Some files
        → ((d : Doc) → is_of_roads d ≡ true
        → Rose (F.faults folder.old d) (F.faults folder.new d) → ⊥)
        → (result ≡ unsplit_case_of files) ⊎ (result ≡ Err CaseFault.NoMemory) }
{
    match fetch_road_texts(alloc, folder) {
        Ok(texts) => return build_roads(alloc, &texts),
        Err(fault) => return Err(fault),
    }
}
