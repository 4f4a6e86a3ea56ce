//! An office: a core with the history of the calls that were made on it.
ghost use Rattle.std.specs.Prelude.{◌≡◌, ◌<◌, ◌++◌, ◌∷◌, [], List, IfOk, IfErr, OnOk, OnErr, vec_len, vec_capacity};
ghost use Rattle.ltm_scenario.specs.Edits.{HaveAmounts};
ghost use Rattle.ltm_core.specs.Cores.{IsNoneOut};
ghost use Rattle.ltm_core.specs.CoreAnswers.{LooksAs};
ghost use Rattle.ltm_editors.specs.Lists.{GrowsBy};
ghost use Rattle.ltm_editors.specs.Offices.{office_of, editor_of, IsOffice, TellsVerdict, AnswersCall, StaysAs};

use crate::call::{Call, Verdict};
use crate::recorded::Recorded;
use ltm_core::Core;
use ltm_scenario::{Batch, EditCause, EditFault, Scenario};
use ltm_units::NoMemory;
use std::alloc::Global;
use std::marker::Model;
use std::snapshot::Snapshot;

/// A core, and the calls that were made on it, each with what it was answered. It is no value that can be let go: its core is
/// taken out at the end.
pub struct Office {
    core: Core,
    calls: Vec<Call>,
}

impl Model for Office {
    ghost use Rattle.ltm_editors.specs.Offices.{OfficeData};

    ghost Value = { OfficeData };

    ghost use Rattle.std.specs.Coded.{codes};
    ghost use Rattle.ltm_core.specs.contracts.the_core.Core as core_row;
    ghost use Rattle.ltm_editors.specs.contracts.call.Call as call_row;

    ghost coded = { Prim.hlevel (codes, core_row.the_row.coded, call_row.the_row.coded) };

    ghost use Rattle.ltm_editors.specs.Offices.{office_of, IsOffice};

    ghost view = { λ o. office_of o.core o.calls.items };

    ghost invariant = { λ o. IsOffice o.core o.calls.items };
}

impl Recorded for Office {
    ghost use Rattle.ltm_editors.specs.Offices.{opening_of, history_of, editor_of};

    type Opening = Scenario;

    type Entry = Call;

    ghost opening = { opening_of };

    ghost history = { history_of };

    ghost author = { editor_of };
}

/// What the core answers to a batch, as a verdict.
fn ask(core: &mut Core, batch: Batch) -> Result<Verdict, (Batch, NoMemory)>
    requires { HaveAmounts batch }
    ensures ok { IfOk result (λ verdict. TellsVerdict core.old batch verdict core.new) }
    ensures back { IfErr result (λ e. e.0 ≡ batch) }
    ensures same { OnErr result (LooksAs core.old core.new) }
{
    match core.accept(batch) {
        Ok(()) => return Ok(Verdict::Accepted(core.accepted().len() as u64)),
        Err((back, fault)) => {
            if fault.cause == EditCause::NoMemory {
                return Err((back, NoMemory));
            }
            return Ok(Verdict::Refused(fault));
        }
    }
}

/// Takes the memory for one more call.
fn reserve_call(calls: &mut Vec<Call>) -> Result<(), NoMemory>
    ensures same { calls.new.items ≡ calls.old.items }
    ensures room { OnOk result (vec_len calls.new < vec_capacity calls.new) }
{
    calls.reserve(1)?;
    Ok(())
}

/// Puts a call last, where room is reserved.
fn put(calls: &mut Vec<Call>, call: Call)
    requires { vec_len calls.old < vec_capacity calls.old }
    ensures { calls.new.items ≡ calls.old.items ++ call ∷ [] }
{
    match calls.push(call) {
        Ok(()) => {}
        Err(_) => unreachable!(),
    }
}

/// Has the core accept a batch, and notes the call, where room is reserved.
fn note(
    core: &mut Core,
    calls: &mut Vec<Call>,
    editor: u32,
    batch: Batch,
) -> Result<Verdict, (Batch, NoMemory)>
    requires room { vec_len calls.old < vec_capacity calls.old }
    requires amounts { HaveAmounts batch }
    requires office { IsOffice core.old calls.old.items }
    ensures office { IsOffice core.new calls.new.items }
    ensures ok { IfOk result (λ verdict. AnswersCall
        (office_of core.old calls.old.items) editor batch verdict
        (office_of core.new calls.new.items)) }
    ensures back { IfErr result (λ e. e.0 ≡ batch) }
    ensures same { OnErr result (StaysAs (office_of core.old calls.old.items)
        (office_of core.new calls.new.items)) }
    ensures opening { core.new.log.opening ≡ core.old.log.opening }
    ensures grows { (found : List _) → GrowsBy editor_of editor found calls.old.items
        → GrowsBy editor_of editor found calls.new.items }
{
    let about = Snapshot::of(&batch);
    match ask(core, batch) {
        Ok(verdict) => {
            let call = Call {
                editor,
                verdict,
                batch: about,
            };
            put(calls, call);
            return Ok(verdict);
        }
        Err(refused) => return Err(refused),
    }
}

/// Has the core accept a batch, and notes the call; all memory is taken first.
fn answer(
    core: &mut Core,
    calls: &mut Vec<Call>,
    editor: u32,
    batch: Batch,
) -> Result<Verdict, (Batch, NoMemory)>
    requires amounts { HaveAmounts batch }
    requires office { IsOffice core.old calls.old.items }
    ensures office { IsOffice core.new calls.new.items }
    ensures ok { IfOk result (λ verdict. AnswersCall
        (office_of core.old calls.old.items) editor batch verdict
        (office_of core.new calls.new.items)) }
    ensures back { IfErr result (λ e. e.0 ≡ batch) }
    ensures same { OnErr result (StaysAs (office_of core.old calls.old.items)
        (office_of core.new calls.new.items)) }
    ensures opening { core.new.log.opening ≡ core.old.log.opening }
    ensures grows { (found : List _) → GrowsBy editor_of editor found calls.old.items
        → GrowsBy editor_of editor found calls.new.items }
{
    match reserve_call(calls) {
        Ok(()) => return note(core, calls, editor, batch),
        Err(_) => return Err((batch, NoMemory)),
    }
}

impl Office {
    ghost use Rattle.ltm_editors.specs.History.{IsLegalHistory};
    ghost use Rattle.ltm_editors.specs.Offices.{opening_of};

    /// An office with a core that has accepted nothing, and of which no claim is out: no call was made. Takes no memory.
    pub fn create(alloc: Global, core: Core) -> Office
        requires fresh { core.log.batches ≡ [] }
        requires none_out { IsNoneOut core }
        ensures core { result.core ≡ core }
        ensures history { result.history ≡ [] }
    {
        Office {
            core,
            calls: Vec::new(alloc),
        }
    }

    /// What holds of every office. Costs nothing when it runs.
    pub fn facts(&self)
        ensures { IsOffice self.now.core self.now.history }
    {
        let _core = &self.core;
    }

    /// The calls in order: a legal history.
    pub fn calls(&self) -> &[Call]
        ensures calls { result.now ≡ self.now.history }
        ensures legal { IsLegalHistory (opening_of self.now) result.now }
    {
        &self.calls
    }

    /// The core.
    pub fn core(&self) -> &Core
        ensures { result.now ≡ self.now.core }
    {
        &self.core
    }

    /// The core alone: the calls are let go.
    pub fn into_core(self) -> Core
        ensures { result ≡ self.core }
    {
        let Office {
            core,
            calls: _calls,
        } = self;
        core
    }

    // Has the core accept a batch, and notes the call.
    pub(crate) fn accept(&mut self, editor: u32, batch: Batch) -> Result<Verdict, (Batch, NoMemory)>
        requires { HaveAmounts batch }
        ensures ok { IfOk result (λ verdict. AnswersCall self.old editor batch verdict self.new) }
        ensures back { IfErr result (λ e. e.0 ≡ batch) }
        ensures same { OnErr result (StaysAs self.old self.new) }
        ensures opening { opening_of self.new ≡ opening_of self.old }
        ensures grows { (found : List _) → GrowsBy editor_of editor found self.old.history
            → GrowsBy editor_of editor found self.new.history }
    {
        answer(&mut self.core, &mut self.calls, editor, batch)
    }
}
