//! The roads and the demand of a case, and what least routes over them make of it.
ghost use Rattle.std.specs.Prelude.{◌≡◌, ◌≤◌, ℕ, [], length, Ok, Err, IfOk, IfErr, OnOk, true, false, IfSome};
ghost use Rattle.ltm_io.specs.declared.doc.Doc.{Doc};
ghost use Rattle.ltm_scenario.specs.Data.{ScenarioData};
ghost use Rattle.ltm_scenario.specs.IsScenario.{IsScenario};
ghost use Rattle.ltm_scenario.specs.Valid.{IsValid};
ghost use Rattle.ltm_casefile.specs.Case.{whole};
ghost use Rattle.ltm_casefile.specs.Faults.{Says, HasRisen, WasAsked};
ghost use Rattle.ltm_casefile.specs.Roads.{is_of_roads, roads_ask};
ghost use Rattle.ltm_routes.specs.Split.{AreAllRoutes, route_splits, with_splits, KeepsRest};
ghost use Rattle.ltm_routes_command.specs.Routing.{routed, is_readable, RoutesAnswer, AnswersRoutes, SaysOfRoutes, AnswersFault};
ghost use Rattle.ltm_routes_command.specs.File.{IsSplitsOf, IsTimesOf, IsSplitsFile, IsTimesFile};

use crate::lines::RouteLines;
use crate::texts::routes_text;
use ltm_casefile::{CaseCause, CaseFault, File, LONGEST_FILE, check_case, read_roads};
use ltm_io::Folder;
use ltm_network::{links_at_their_places, names_are_found};
use ltm_routes::{Routes, RoutesFault, all_are_missing, all_routes, routes_settle, set_all};
use ltm_scenario::Scenario;
use std::alloc::Global;

/// The scenario with the route splits, where that is a valid case.
#[tactic(auto, using(crate::proofs::Routed::few, crate::proofs::Routed::over))]
fn split_roads(alloc: Global, roads: Scenario, all: &[Routes]) -> Result<Scenario, CaseFault>
    requires none { roads.splits ≡ [] }
    requires routes { AreAllRoutes roads all.now }
    ensures ok { IfOk result (λ split. routed roads all.now ≡ Ok split) }
    ensures set { IfOk result (λ split. with_splits roads (route_splits roads all.now) ≡ Ok split) }
    ensures rest { IfOk result (KeepsRest roads) }
    ensures valid { IfOk result IsValid }
    ensures whole { IfOk result (λ split. whole split ≡ Ok split) }
    ensures fault { IfErr result (Says (routed roads all.now)) }
{
    let split = match set_all(alloc, roads, all) {
        Ok(split) => split,
        Err(RoutesFault::TooManyRows) => {
            return Err(CaseFault::Bad {
                file: File::Whole,
                row: 0,
                cause: CaseCause::TooManyRows,
            });
        }
        Err(RoutesFault::NoMemory) => return Err(CaseFault::NoMemory),
    };
    match check_case(&split) {
        Ok(()) => return Ok(split),
        Err(fault) => return Err(fault),
    }
}

/// The lines of least routes over these roads, or what is wrong with the case that they make.
fn text_over(alloc: Global, lines: RouteLines, roads: Scenario) -> Result<Vec<u8>, CaseFault>
    requires { roads.splits ≡ [] }
    ensures text { IfOk result (λ text. RoutesAnswer lines (Ok roads) (Ok text.items)) }
    ensures fault { IfErr result (SaysOfRoutes lines roads) }
    ensures scenario { OnOk result (IsScenario roads) }
    ensures splits { lines ≡ RouteLines.Splits
        → IfOk result (λ text. (split : ScenarioData) × IsSplitsOf roads split text.items) }
    ensures times { lines ≡ RouteLines.Times → IfOk result (λ text. IsTimesOf roads text.items) }
{
    names_are_found();
    links_at_their_places();
    all_are_missing();
    let _setup = roads.setup();
    let all = all_routes(alloc, &roads)?;
    let split = match split_roads(alloc, roads, &all) {
        Ok(split) => split,
        Err(fault) => return Err(fault),
    };
    let text = routes_text(alloc, lines, &split, &all)?;
    if !is_readable(lines, &text) {
        return Err(CaseFault::TooLong(File::Splits));
    }
    Ok(text)
}

/// Whether the lines are no file of a case, or one that can be read.
fn is_readable(lines: RouteLines, text: &[u8]) -> bool
    ensures { result ≡ is_readable lines text.now }
{
    match lines {
        RouteLines::Splits => text.len() as u64 <= LONGEST_FILE,
        RouteLines::Times => true,
    }
}

/// The lines of least free-flow routes over what the setup, the links and the demand of a folder say: for each node and
/// destination with a route, in order of destination, then of node, the record of its split row or the time of its routes.
///
/// The first fault is told: of these files, and of the profile of a matrix, as `read_roads` has it; then more route splits than
/// the setup allows; then the first rule of a valid case that is broken once they are set, with row 0 of the whole case; then
/// splits that are too long to be read. The setup may ask for signals and for entry limits; neither is fetched.
pub fn route_text<F: Folder>(
    alloc: Global,
    lines: RouteLines,
    folder: &mut F,
) -> Result<Vec<u8>, CaseFault>
    ensures text { IfOk result (λ text. AnswersRoutes lines (F.told folder.old) (Ok text.items)) }
    ensures fault { IfErr result (AnswersFault lines (F.told folder.old)) }

    // The splits are read back as they were set, and the times are the least.
    ensures splits { lines ≡ RouteLines.Splits
        → IfOk result (λ text. IsSplitsFile (F.told folder.old) text.items) }
    ensures times { lines ≡ RouteLines.Times
        → IfOk result (λ text. IsTimesFile (F.told folder.old) text.items) }

    // A file is not given only where its count of faults rose in this call, and it is one of these, or the profile where the
    // demand is a matrix.
    ensures risen { IfErr result (HasRisen (F.faults folder.old) (F.faults folder.new)) }
    ensures asked { IfErr result (WasAsked is_of_roads) }
    ensures needed { IfErr result (λ e. IfSome (F.told folder.old)
        (λ files. WasAsked (roads_ask files) e)) }

    ensures keeps { F.told folder.new ≡ F.told folder.old }
    ensures later { (d : Doc) → F.faults folder.old d ≤ F.faults folder.new d }
    ensures others { (d : Doc) → is_of_roads d ≡ false
        → F.faults folder.new d ≡ F.faults folder.old d }
    ensures unasked { IfSome (F.told folder.old) (λ files.
        (d : Doc) → roads_ask files d ≡ false → F.faults folder.new d ≡ F.faults folder.old d) }
{
    routes_settle();
    match read_roads(alloc, folder) {
        Ok(roads) => return text_over(alloc, lines, roads),
        Err(fault) => return Err(fault),
    }
}
