//! The loading of a case as a curve file.
ghost use Rattle.std.specs.Prelude.{◌≡◌, ◌≤◌, ◌⊎◌, List, ℕ, OnOk, IsErrOf};
ghost use Rattle.ltm_io.specs.Faults.{Rose};
ghost use Rattle.ltm_io.specs.Sink.{appended, AppendsFront};
ghost use Rattle.ltm_check_command.specs.Loaded.{IsLoadingText};

use ltm_check::{is_named, loading_is_told, write_curves};
use ltm_flows::cold;
use ltm_io::{Sink, SinkError};
use ltm_scenario::Scenario;
use ltm_setting::is_setting;
use std::alloc::Global;

/// Writes the loading of a scenario (Yperman 2007) as a curve file, a piece at a time.
///
/// Nothing is written before the loading is made. With an error a front of the file, or nothing, was written.
pub fn write_loading<W: Sink>(
    alloc: Global,
    scenario: &Scenario,
    output: &mut W,
) -> Result<(), SinkError>
    ensures ok { OnOk result ((text : List ℕ) × IsLoadingText scenario.now text
        × (W.written output.new ≡ appended text (W.written output.old))) }
    ensures fault { IsErrOf result SinkError.WriteFault
        → (text : List ℕ) × IsLoadingText scenario.now text
        × AppendsFront (W.written output.old) (W.written output.new) text }
    ensures memory { IsErrOf result SinkError.NoMemory
        → (W.written output.new ≡ W.written output.old)
        ⊎ ((text : List ℕ) × IsLoadingText scenario.now text
        × AppendsFront (W.written output.old) (W.written output.new) text) }
    ensures later { W.faults output.old ≤ W.faults output.new }
    ensures cause { IsErrOf result SinkError.WriteFault
        → Rose (W.faults output.old) (W.faults output.new) }
{
    is_setting(scenario);
    is_named(scenario);
    loading_is_told();
    let _setup = scenario.setup();
    match cold(alloc, scenario) {
        Ok(curves) => return write_curves(alloc, scenario, &curves, output),
        Err(_) => return Err(SinkError::NoMemory),
    }
}
