//! What holds of counts that were kept in 32 bits.
ghost use Rattle.ltm_check.specs.Verdict.{KeptAnswersAlike};

use ltm_loading::{
    counts_by_place, counts_set_only, counts_small, inputs_read_only, outputs_small,
    set_by_one_pair,
};

/// What is said of counts as curves keep them holds of the counts themselves: no count of a loading is as great as the
/// greatest that curves hold.
pub fn kept_answers_alike()
    ensures { KeptAnswersAlike }
{
    counts_by_place();
    counts_small();
    outputs_small();
    inputs_read_only();
    counts_set_only();
    set_by_one_pair();
}
