//! The batches of an editor.
ghost use Rattle.std.specs.Prelude.{◌≡◌};

use ltm_scenario::Batch;
use std::marker::Model;

/// The batches that an editor has, in order. Contracts see their list.
#[derive(Drop)]
pub struct Script {
    pub(crate) batches: Vec<Batch>,
}

impl Model for Script {
    ghost use Rattle.std.specs.Prelude.{List};
    ghost use Rattle.ltm_scenario.specs.declared.edit.Edit.{Edit};

    ghost Value = { List (List Edit) };

    ghost view = { λ s. s.batches.items };
}

impl Script {
    /// The batches themselves.
    pub fn into_batches(self) -> Vec<Batch>
        ensures { result.items ≡ self }
    {
        let Script { batches } = self;
        batches
    }
}
