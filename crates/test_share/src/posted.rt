//! A scenario once a batch is accepted, and its loading.
ghost use Rattle.std.specs.Prelude.{◌≡◌, Ok, IfSome};
ghost use Rattle.ltm_scenario.specs.Valid.{IsValid};
ghost use Rattle.ltm_scenario.specs.Edits.{edited_all};
ghost use Rattle.ltm_board.specs.Lists.{IsLoadingOf};

use ltm_flows::{Loading, cold};
use ltm_scenario::{Batch, Scenario};
use std::alloc::Global;

/// The scenario once a batch is accepted.
pub fn edited(scenario: &Scenario, batch: &Batch) -> Option<Scenario>
    requires { IsValid scenario.now }
    ensures ok { IfSome result (λ next. edited_all scenario.now batch.now ≡ Ok next) }
    ensures valid { IfSome result IsValid }
{
    if !batch.has_amounts() {
        return None;
    }
    let mut next = scenario.try_copy().ok()?;
    match next.accept(batch) {
        Ok(()) => return Some(next),
        Err(_) => return None,
    }
}

/// The loading of a scenario.
pub fn loading_of(alloc: Global, scenario: &Scenario) -> Option<Loading>
    ensures { IfSome result (IsLoadingOf scenario.now) }
{
    let curves = cold(alloc, scenario).ok()?;
    Loading::create(alloc, scenario, &curves, 0).ok()
}
