//! Split rows by the names of out-links.
ghost use Rattle.std.specs.Prelude.{◌≡◌, IfOk};

use crate::weights::Weights;
use ltm_units::NoMemory;
use std::marker::Model;

/// Rows of a node for a destination: first slots, each with the weights from then on, by the names of out-links. Contracts see
/// the list of both.
pub struct SplitRows {
    rows: Vec<(u32, Weights)>,
}

// By hand, so that letting go of them is one call.
impl Drop for SplitRows {
    fn drop(self) {
        let SplitRows { rows: _rows } = self;
    }
}

impl Model for SplitRows {
    ghost use Rattle.std.specs.Prelude.{List};
    ghost use Rattle.ltm_scenario.specs.Weights.{NamedRow};

    ghost Value = { List NamedRow };

    ghost view = { λ r. r.rows.items };
}

impl SplitRows {
    /// The rows, whatever their slots.
    pub fn of(rows: Vec<(u32, Weights)>) -> SplitRows
        ensures { result ≡ rows.items }
    {
        SplitRows { rows }
    }

    /// First slots, each with the weights from then on.
    pub fn rows(&self) -> &[(u32, Weights)]
        ensures { result.now ≡ self.now }
    {
        &self.rows
    }

    /// Equal rows, on the same allocator.
    pub fn try_copy(&self) -> Result<SplitRows, NoMemory>
        ensures { IfOk result (λ copy. copy ≡ self.now) }
    {
        let rows = Vec::from_slice(*self.rows.allocator(), &self.rows)?;
        Ok(SplitRows { rows })
    }
}
