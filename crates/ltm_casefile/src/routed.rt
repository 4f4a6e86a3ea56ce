//! The routes of nodes without a split row.
ghost use Rattle.std.specs.Prelude.{◌≡◌, Ok, OnOk, IfErr};
ghost use Rattle.ltm_casefile.specs.Faults.{Says};
ghost use Rattle.ltm_casefile.specs.Routed.{routed_if};

use crate::faults::{CaseCause, CaseFault, File};
use ltm_routes::{RoutesFault, set_routes};
use ltm_scenario::Scenario;
use std::alloc::Global;

/// Gives each node without a split row for a destination its routes from slot 0 on, where that is asked for.
pub fn route_if(alloc: Global, scenario: &mut Scenario, asked: bool) -> Result<(), CaseFault>
    ensures ok { OnOk result (routed_if asked scenario.old ≡ Ok scenario.new) }
    ensures fault { IfErr result (Says (routed_if asked scenario.old)) }
{
    if !asked {
        return Ok(());
    }
    match set_routes(alloc, scenario) {
        Ok(()) => Ok(()),
        Err(RoutesFault::TooManyRows) => Err(CaseFault::Bad {
            file: File::Whole,
            row: 0,
            cause: CaseCause::TooManyRows,
        }),
        Err(RoutesFault::NoMemory) => Err(CaseFault::NoMemory),
    }
}
