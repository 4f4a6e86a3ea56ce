//! Times counted in slots.
ghost use Rattle.std.specs.Prelude.{◌≡◌, ◌≤◌, ◌*◌, ◌+◌, ◌<◌};
ghost use Rattle.ltm_diagram.specs.Delays.{IsDelay, AreDelays};
ghost use Rattle.ltm_units.specs.Bounds.{longest_step, longest_time};

use crate::diagram::Limits;
use ltm_units::Millis;

/// A time as whole slots, rounded up, and by how much they are longer. What lies that time before a boundary lies so many
/// boundaries before it, and `rest` milliseconds later.
///
/// Of 15,000 ms in slots of 10,000 ms: 2 slots, and a rest of 5,000 ms.
#[derive(Clone, Copy, Debug, PartialEq, Eq)]
pub struct Delay {
    /// The whole slots.
    pub slots: u32,
    /// The milliseconds by which the slots are longer than the time, less than a slot.
    pub rest: u32,
}

/// The two times of a link, counted in slots.
#[derive(Clone, Copy, Debug, PartialEq, Eq)]
pub struct Delays {
    /// The free-flow time.
    pub free: Delay,
    /// The wave time.
    pub wave: Delay,
}

impl Delay {
    /// A time of at most 1,000 hours, in slots of `step`.
    #[tactic(auto, using(std::proofs::lemmas::Grind::div_ceil_times))]
    pub fn of(time: Millis, step: Millis) -> Delay
        requires some { 1 ≤ step.0 }
        requires most { step.0 ≤ longest_step }
        requires time { time.0 ≤ longest_time }
        ensures { IsDelay step.0 time.0 result }
    {
        let slots = time.0.div_ceil(step.0);
        Delay {
            slots: slots as u32,
            rest: (slots * step.0 - time.0) as u32,
        }
    }
}

impl Delays {
    /// The times of some limits, in slots of `step`.
    pub fn of(limits: &Limits, step: Millis) -> Delays
        requires some { 1 ≤ step.0 }
        requires most { step.0 ≤ longest_step }
        requires free { limits.now.free_ms ≤ longest_time }
        requires wave { limits.now.wave_ms ≤ longest_time }
        ensures { AreDelays step.0 limits.now result }
    {
        Delays {
            free: Delay::of(Millis(limits.free_ms), step),
            wave: Delay::of(Millis(limits.wave_ms), step),
        }
    }
}
