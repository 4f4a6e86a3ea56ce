//! Which loadings are made without history.
ghost use Rattle.std.specs.Prelude.{◌≡◌};
ghost use Rattle.ltm_lean_load.specs.Choice.{is_better_lean};

use ltm_scenario::Scenario;

/// From how many destinations on a loading that is asked for once is made of what stands on the links. With fewer, counts at
/// all boundaries are made as fast, and take little memory.
const FEWEST_DESTINATIONS: usize = 16;

/// Whether the loading of a scenario, asked for once, is better made of what stands on the links: always where the case keeps no
/// history.
pub fn is_better_lean(scenario: &Scenario) -> bool
    ensures { result ≡ is_better_lean scenario.now }
{
    !scenario.setup().history || FEWEST_DESTINATIONS <= scenario.destinations().len()
}
