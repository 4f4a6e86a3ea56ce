//! What an editor does: it has a batch accepted.
ghost use Rattle.std.specs.Prelude.{◌≡◌, ◌≢◌, ℕ, ◌<◌, ◌≤◌, IfErr, OnOk, OnErr, Err};
ghost use Rattle.ltm_scenario.specs.Edits.{edited_all, horizon_after, HaveAmounts};
ghost use Rattle.ltm_scenario.specs.Valid.{IsValid};
ghost use Rattle.ltm_curve.specs.Counts.{Counts};
ghost use Rattle.ltm_loading.specs.Setting.{Setting};
ghost use Rattle.ltm_flows.specs.Shown.{ShowsCounts, SameLoading, loading_room};
ghost use Rattle.ltm_working.specs.Growing.{TableSeenAs, TableHasRoom};
ghost use Rattle.ltm_scenario.specs.Horizon.{MayReach};
ghost use Rattle.ltm_core.specs.Taking.{TakesBatch};
ghost use Rattle.ltm_working.specs.Scenarios.{IsReadyFor};
ghost use Rattle.ltm_units.specs.Bounds.{most_slots};

use super::Core;
use crate::history::{Event, add};
use crate::laws::repair_laws;
use crate::log::Log;
use ltm_flows::Loading;
use ltm_pairs::batch_touches_readers;
use ltm_scenario::{Batch, EditCause, EditFault, Scenario};
use ltm_setting::{is_setting, slot_count};
use ltm_units::NoMemory;
use ltm_working::{Table, tables_fit, wide_room};

/// Takes the memory for a horizon.
fn reserve_slots(table: &mut Table, shown: &mut Loading, slots: u32) -> Result<(), NoMemory>
    requires { slots ≤ most_slots }
    ensures table { TableSeenAs table.old table.new }
    ensures shown { SameLoading shown.old shown.new }
    ensures shows { (s : Setting) (version : ℕ) (c : Counts) → ShowsCounts s version c shown.old
        → ShowsCounts s version c shown.new }
    ensures no_less { loading_room shown.old ≤ loading_room shown.new }
    ensures table_room { OnOk result (TableHasRoom table.new slots) }
    ensures shown_room { OnOk result (slots ≤ loading_room shown.new) }
{
    let working = table.reserve(slots);
    let wide = wide_room(shown.room(), slots);
    let finished = shown.reserve(wide);
    working?;
    finished
}

/// Takes the memory for one more batch, its mark and a horizon.
fn reserve_all(
    log: &mut Log,
    table: &mut Table,
    shown: &mut Loading,
    slots: u32,
) -> Result<(), NoMemory>
    requires { slots ≤ most_slots }
    ensures log { log.new.log ≡ log.old.log }
    ensures table { TableSeenAs table.old table.new }
    ensures shown { SameLoading shown.old shown.new }
    ensures shows { (s : Setting) (version : ℕ) (c : Counts) → ShowsCounts s version c shown.old
        → ShowsCounts s version c shown.new }
    ensures no_less { loading_room shown.old ≤ loading_room shown.new }
    ensures log_room { OnOk result (0 < log.new.room) }
    ensures table_room { OnOk result (TableHasRoom table.new slots) }
    ensures shown_room { OnOk result (slots ≤ loading_room shown.new) }
{
    let entry = log.reserve();
    let room = reserve_slots(table, shown, slots);
    entry?;
    room
}

/// Makes the edits of a batch in a scenario, and takes them into its table, which has room for them.
fn take_batch(scenario: &mut Scenario, table: &mut Table, batch: &Batch) -> Result<(), EditFault>
    requires valid { IsValid scenario.old }
    requires amounts { HaveAmounts batch.now }
    requires room { TableHasRoom table.old (horizon_after scenario.old.setup.slots batch.now) }
    requires ready { IsReadyFor scenario.old table.old }
    ensures ok { OnOk result (TakesBatch scenario.old scenario.new table.old table.new batch.now) }
    ensures same { OnErr result ((scenario.new ≡ scenario.old) × (table.new ≡ table.old)) }
    ensures cause { IfErr result (λ e. e.cause ≢ EditCause.NoMemory
        → edited_all scenario.old batch.now ≡ Err e) }
{
    batch_touches_readers();
    tables_fit();
    let _before = scenario.setup();
    match scenario.accept(batch) {
        Ok(()) => {
            let _after = scenario.setup();
            let _slots = slot_count(scenario);
            is_setting(scenario);
            table.take_in(scenario, batch.edits());
            return Ok(());
        }
        Err(fault) => return Err(fault),
    }
}

/// The first fault of a batch that asks for a horizon which its scenario may not reach.
fn refuse(scenario: &mut Scenario, batch: Batch) -> (Batch, EditFault)
    requires valid { IsValid scenario.old }
    requires amounts { HaveAmounts batch }
    requires beyond { MayReach scenario.old (horizon_after scenario.old.setup.slots batch) → ⊥ }
    ensures same { scenario.new ≡ scenario.old }
    ensures back { result.0 ≡ batch }
    ensures cause { result.1.cause ≢ EditCause.NoMemory
        → edited_all scenario.old batch ≡ Err result.1 }
{
    match scenario.accept(&batch) {
        Ok(()) => unreachable!(),
        Err(fault) => (batch, fault),
    }
}

/// A batch that is given back for want of memory.
fn no_memory(batch: Batch) -> Result<(), (Batch, EditFault)>
    ensures { result ≡ Err (batch, record { place = 0; cause = EditCause.NoMemory }) }
{
    Err((
        batch,
        EditFault {
            place: 0,
            cause: EditCause::NoMemory,
        },
    ))
}

impl Core {
    ghost use Rattle.ltm_core.specs.CoreAnswers.{TellsAccept};
    ghost use Rattle.ltm_scenario.specs.Horizon.{MayReach};

    /// Makes all edits of a batch in order, or changes nothing but room and gives the batch back with the first edit that is
    /// refused and its cause. Claims are void; a pair is then active exactly where it was active or claimed, is touched, or
    /// is new: of a slot by which the horizon is longer. What is shown stays.
    ///
    /// Each amount is at most 1,000,000,000 units. All memory is taken first. Where the horizon may not be reached, which no
    /// memory could change, none is taken.
    pub fn accept(&mut self, batch: Batch) -> Result<(), (Batch, EditFault)>
        requires amounts { HaveAmounts batch }
        ensures answer { TellsAccept self.old batch result self.new }
        ensures shown { SameLoading self.old.shown self.new.shown }
        ensures beyond { (MayReach self.old.scenario
            (horizon_after self.old.scenario.setup.slots batch) → ⊥) → self.new ≡ self.old }
    {
        repair_laws();
        let slots = batch.horizon(self.scenario.setup().slots);
        if !self.scenario.may_reach(slots) {
            return Err(refuse(&mut self.scenario, batch));
        }
        match reserve_all(&mut self.log, &mut self.table, &mut self.shown, slots) {
            Err(_) => return no_memory(batch),
            Ok(()) => match take_batch(&mut self.scenario, &mut self.table, &batch) {
                Err(fault) => return Err((batch, fault)),
                Ok(()) => {
                    self.log.push(batch);
                    add(&mut self.history, Event::Accept);
                    return Ok(());
                }
            },
        }
    }
}
