//! A core: a scenario that is edited, its loading that is repaired, and a finished loading that others read.
ghost use Rattle.std.specs.Prelude.{◌≡◌, ◌↔◌, ◌<◌, ◌≤◌, ◌*◌, ◌^◌, IsTrue, IfOk, IfErr, true};
ghost use Rattle.ltm_curve.specs.Table.{counts_of};
ghost use Rattle.ltm_scenario.specs.Valid.{IsValid};
ghost use Rattle.ltm_scenario.specs.IsScenario.{IsScenario};
ghost use Rattle.ltm_setting.specs.Setting.{setting_of};
ghost use Rattle.ltm_flows.specs.Shown.{Shows, last_of, loading_room};
ghost use Rattle.ltm_working.specs.Cells.{count_cells};
ghost use Rattle.ltm_working.specs.Ready.{IsOpened};
ghost use Rattle.ltm_core.specs.Log.{batches_of, version_now, scenario_now};

mod batches;
mod claiming;
mod recomputing;
mod showing;
mod shown_again;

use crate::history::History;
use crate::laws::repair_laws;
use crate::log::Log;
use crate::scratch::Scratch;
use ltm_flows::Loading;
use ltm_loading::one_loading;
use ltm_repair::none_twice;
use ltm_scenario::{Batch, Scenario};
use ltm_setting::{is_setting, node_count, slot_count};
use ltm_turn::Told;
use ltm_units::NoMemory;
use ltm_working::Table;
use std::alloc::Global;
use std::marker::Model;

/// The scenario with which it began, the batches that it accepted with a mark where a settle was counted, the scenario as
/// these leave it, what a repair works on, the finished loading that others read meanwhile, and, for contracts alone, what
/// was done to it since it began.
///
/// Any number of owners of a `Scratch` claim pairs, work on them and commit them, in any order; what holds of every core
/// is `HoldsOfCore`: among it, that its history led to it, and that no pair was committed twice between two batches.
pub struct Core {
    log: Log,
    scenario: Scenario,
    table: Table,
    shown: Loading,
    commits: u128,
    stopped: bool,
    history: History,
}

// By hand, so that letting go of a core is one call, and not its parts one by one wherever that may happen.
impl Drop for Core {
    fn drop(self) {
        let Core {
            log: _log,
            scenario: _scenario,
            table: _table,
            shown: _shown,
            commits: _commits,
            stopped: _stopped,
            history: _history,
        } = self;
    }
}

impl Model for Core {
    ghost use Rattle.ltm_core.specs.Cores.{CoreData};

    ghost Value = { CoreData };

    ghost use Rattle.std.specs.Coded.{codes};
    ghost use Rattle.ltm_working.specs.contracts.table.Table as table_row;

    ghost coded = { Prim.hlevel (codes, table_row.the_row.coded) };

    ghost use Rattle.ltm_core.specs.Cores.{core_of, IsCore};
    ghost use Rattle.ltm_core.specs.Histories.{events_of, CameBy};

    ghost view = { λ c. core_of c.log.log c.scenario c.table c.shown c.commits c.stopped (events_of c.history) };

    ghost invariant = { λ c. IsCore (core_of c.log.log c.scenario c.table c.shown c.commits c.stopped (events_of c.history))
        × CameBy (core_of c.log.log c.scenario c.table c.shown c.commits c.stopped (events_of c.history)) };
}

impl Told for Core {
    ghost use Rattle.ltm_core.specs.Told.{told_of};
    ghost use Rattle.ltm_core.specs.Runs.{MakesOneEvent};
    ghost use Rattle.ltm_flows.specs.Shown.{version_of};

    type Entry = crate::entry::LogEntry;

    ghost entries = { told_of };

    ghost number = { λ c. version_of c.shown };

    ghost may_become = { MakesOneEvent };
}

/// What a core begins with.
#[derive(Drop)]
struct Begun {
    opening: Scenario,
    table: Table,
    shown: Loading,
}

/// The scenario again, its loading, worked out, and the loading to be shown.
fn begin(alloc: Global, scenario: &Scenario) -> Result<Begun, NoMemory>
    ensures opening { IfOk result (λ b. b.opening ≡ scenario.now) }
    ensures table { IfOk result (λ b. IsOpened (setting_of scenario.now) b.table) }
    ensures shown { IfOk result (λ b. Shows (setting_of scenario.now) 0 b.shown) }
    ensures room { IfOk result (λ b. last_of b.shown ≤ loading_room b.shown) }
{
    let opening = scenario.try_copy()?;
    let table = Table::create(alloc, scenario)?;
    let shown = Loading::create(alloc, scenario, table.curves(), 0)?;
    let _room = shown.room();
    Ok(Begun {
        opening,
        table,
        shown,
    })
}

impl Core {
    ghost use Rattle.ltm_core.specs.Cores.{IsCore, IsShownOf, IsResting, IsNoneOut, claims_of, repair_of};
    ghost use Rattle.ltm_core.specs.CoreAnswers.{IsOpeningCore, Keeps};
    ghost use Rattle.ltm_core.specs.Runs.{HoldsOfCore};

    /// A core of a scenario, whose loading is worked out and shown: at rest, and no batch accepted. All memory for repairs
    /// is taken here.
    pub fn create(alloc: Global, scenario: Scenario) -> Result<Core, (Scenario, NoMemory)>
        requires { IsValid scenario }
        ensures ok { IfOk result (IsOpeningCore scenario) }
        ensures err { IfErr result (λ e. e.0 ≡ scenario) }
    {
        repair_laws();
        one_loading();
        is_setting(&scenario);
        let _setup = scenario.setup();
        match begin(alloc, &scenario) {
            Ok(begun) => {
                let Begun {
                    opening,
                    table,
                    shown,
                } = begun;
                return Ok(Core {
                    log: Log::begin(alloc, opening),
                    scenario,
                    table,
                    shown,
                    commits: 0,
                    stopped: false,
                    history: History::None,
                });
            }
            Err(fault) => return Err((scenario, fault)),
        }
    }

    /// What holds of every core, at any time. Costs nothing when it runs.
    pub fn facts(&self)
        ensures { HoldsOfCore self.now }
    {
        repair_laws();
        none_twice();
        let _table = &self.table;
    }

    /// The buffers of one more worker.
    pub fn scratch(&self) -> Result<Scratch, NoMemory> {
        Scratch::create(self.log.alloc())
    }

    /// How many batches are accepted.
    pub fn version(&self) -> u64
        ensures version { result ≡ version_now self.now.log }
        ensures few { result < 2 ^ 63 }
    {
        self.log.version()
    }

    /// The accepted batches, in order.
    pub fn accepted(&self) -> &[Batch]
        ensures { result.now ≡ batches_of self.now.log }
    {
        self.log.batches()
    }

    /// The scenario as the accepted batches leave it.
    pub fn scenario(&self) -> &Scenario
        ensures value { result.now ≡ self.now.scenario }
        ensures scenario { result.now ≡ scenario_now self.now.log }
        ensures valid { IsValid result.now }
        ensures network { result.now.network ≡ self.now.log.opening.network }
    {
        &self.scenario
    }

    /// The finished loading that others read.
    pub fn shown(&self) -> &Loading
        ensures loading { result.now ≡ self.now.shown }
        ensures is_shown { IsShownOf self.now.log self.now.shown }
    {
        &self.shown
    }

    /// Whether no pair is active or claimed.
    pub fn at_rest(&self) -> bool
        ensures { IsTrue result ↔ IsResting self.now }
    {
        self.table.is_at_rest(&self.scenario)
    }

    /// How many pairs are claimed.
    pub fn claimed(&self) -> u32
        ensures count { result ≡ claims_of self.now }
        ensures none { (result ≡ 0) ↔ IsNoneOut self.now }
    {
        self.table.claimed()
    }

    /// In how many cells, each a group of counts at a boundary, a commit has changed some count since the last publishing.
    pub fn changed(&self) -> u64
        ensures { result ≡ count_cells (setting_of self.now.scenario) (repair_of self.now).changed }
    {
        self.table.changed()
    }

    /// How many pairs of node and slot there are.
    pub fn pairs(&self) -> u64
        ensures { result ≡ (setting_of self.now.scenario).nodes *
            (setting_of self.now.scenario).slots }
    {
        u64::from(node_count(&self.scenario)) * u64::from(slot_count(&self.scenario))
    }

    /// Tells workers to end.
    pub fn stop(&mut self)
        ensures only { self.new ≡ record self.old { stopped = true } }
        ensures stays { Keeps self.old self.new }
    {
        self.stopped = true;
    }

    /// Whether workers are to end.
    pub fn stopped(&self) -> bool
        ensures { result ≡ self.now.stopped }
    {
        self.stopped
    }
}
