//! The buffers of virtual workers.
use ltm_core::{Core, Scratch};
use ltm_units::NoMemory;
use std::marker::Model;

/// How many virtual workers there are.
pub const WORKERS: usize = 4;

/// The buffers of four virtual workers, with room for any pair of any scenario. One bench may serve every core.
#[derive(Drop)]
pub struct Bench {
    pub(crate) scratches: [Option<Scratch>; WORKERS],
}

impl Model for Bench {
    ghost use Rattle.std.specs.Prelude.{All, IsSome};

    ghost Value = { Unit {0} };

    ghost view = { λ b. tt };

    ghost invariant = { λ b. All IsSome b.scratches };
}

impl Bench {
    /// The buffers of four workers.
    pub fn create(core: &Core) -> Result<Bench, NoMemory> {
        let first = core.scratch()?;
        let second = core.scratch()?;
        let third = core.scratch()?;
        let fourth = core.scratch()?;
        Ok(Bench {
            scratches: [Some(first), Some(second), Some(third), Some(fourth)],
        })
    }
}
