//! The inputs of a pair without its counts.
ghost use Rattle.std.specs.Prelude.{◌≡◌, ◌+◌, length, take, slice_range};
ghost use Rattle.ltm_node.specs.Shape.{counts_begin, supplies_begin, weights_begin};
ghost use Rattle.ltm_node.specs.Solvable.{IsSolvable};
ghost use Rattle.ltm_node.specs.Uncounted.{uncounted};
ghost use Rattle.ltm_rows.specs.declared.layout.Part.TheVariants.{Amounts, Weights};
ghost use Rattle.ltm_rows.specs.Starts.{part_width};
ghost use Rattle.ltm_rows.specs.Parts.{row_of_parts, without_counts, AreNarrow};

use ltm_node::NodeInputs;

/// What is kept of a pair: what its arms send, and supplies and capacities, which are its amounts; and its weights.
#[derive(Clone, Copy)]
pub struct Parts<'a> {
    pub sends: &'a [u64],
    pub limits: &'a [u64],
    pub weights: &'a [u64],
}

/// What of a pair's inputs is kept.
#[inline]
pub fn parts_of(inputs: &NodeInputs) -> Parts<'_>
    ensures row { row_of_parts result ≡ without_counts inputs.now.shape inputs.now.row }
    ensures sends { result.sends.now ≡ take (counts_begin inputs.now.shape) inputs.now.row }
    ensures limits { result.limits.now ≡ slice_range inputs.now.row
        (supplies_begin inputs.now.shape) (weights_begin inputs.now.shape) }
    ensures amounts { length result.sends.now + length result.limits.now
        ≡ part_width Amounts inputs.now.shape }
    ensures weights { length result.weights.now ≡ part_width Weights inputs.now.shape }
    ensures narrow { IsSolvable inputs.now → AreNarrow result }
    ensures narrow_uncounted { IsSolvable (uncounted inputs.now) → AreNarrow result }
{
    let shape = inputs.shape();
    let row = inputs.row();
    Parts {
        sends: &row[..shape.counts_begin()],
        limits: &row[shape.supplies_begin()..shape.weights_begin()],
        weights: &row[shape.weights_begin()..],
    }
}
