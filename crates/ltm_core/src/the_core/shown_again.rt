//! The scenario whose loading is shown.
ghost use Rattle.std.specs.Prelude.{◌≡◌, ◌≤◌, List, length, take, All, IfOk, OnOk};
ghost use Rattle.ltm_flows.specs.Shown.{version_of};
ghost use Rattle.ltm_scenario.specs.Edits.{HaveAmounts};
ghost use Rattle.ltm_scenario.specs.Valid.{IsValid};
ghost use Rattle.ltm_core.specs.Log.{after_batch, after_batches, scenario_at};

use super::Core;
use ltm_scenario::{Batch, Scenario};
use ltm_units::NoMemory;

/// Makes the edits of a batch that was accepted once.
fn make(scenario: &mut Scenario, batch: &Batch) -> Result<(), NoMemory>
    requires valid { IsValid scenario.old }
    requires amounts { HaveAmounts batch.now }
    ensures made { OnOk result (scenario.new ≡ after_batch scenario.old batch.now) }
    ensures valid { IsValid scenario.new }
{
    match scenario.accept(batch) {
        Ok(()) => Ok(()),
        Err(_) => Err(NoMemory),
    }
}

/// A scenario after some batches that were accepted once.
fn after(opening: &Scenario, batches: &[Batch], count: usize) -> Result<Scenario, NoMemory>
    requires valid { IsValid opening.now }
    requires amounts { All HaveAmounts batches.now }
    requires count { count ≤ length batches.now }
    ensures { IfOk result (λ s. s ≡ after_batches opening.now (take count batches.now)) }
{
    let mut scenario = opening.try_copy()?;
    for place in 0..count {
        make(&mut scenario, &batches[place])?;
    }
    Ok(scenario)
}

impl Core {
    /// The scenario whose loading is shown, made again from the opening one: what was accepted since is left out.
    pub fn shown_scenario(&self) -> Result<Scenario, NoMemory>
        ensures { IfOk result (λ s. s ≡ scenario_at self.now.log (version_of self.now.shown)) }
    {
        let count = self.shown.version() as usize;
        after(self.log.opening(), self.log.batches(), count)
    }
}
