//! Times counted in steps.
ghost use Rattle.std.specs.Prelude.{◌≤◌};
ghost use Rattle.ltm_times.specs.Behind.{IsBehind};

use ltm_units::Millis;

/// A time as whole steps, rounded up, and by how much they are longer. What lies that time before a boundary lies `rest`
/// past the boundary that is `whole` before it, so one division serves all boundaries.
///
/// Of 15,000 ms in steps of 10,000 ms: 2 steps, and a rest of 5,000 ms.
#[derive(Clone, Copy)]
pub(crate) struct Behind {
    pub(crate) whole: u64,
    pub(crate) rest: Millis,
}

impl Behind {
    /// A time, counted in steps.
    #[tactic(auto, using(crate::proofs::InSteps::quotient_below))]
    pub(crate) fn of(time: Millis, step: Millis) -> Behind
        requires { 1 ≤ step.0 }
        ensures { IsBehind step.0 time.0 result }
    {
        let whole = time.0 / step.0;
        let over = time.0 % step.0;
        if over == 0 {
            Behind {
                whole,
                rest: Millis(0),
            }
        } else {
            Behind {
                whole: whole + 1,
                rest: Millis(step.0 - over),
            }
        }
    }
}
