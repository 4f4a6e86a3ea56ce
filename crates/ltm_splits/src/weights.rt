//! The weights of a row, as they lie in a table.
ghost use Rattle.std.specs.Prelude.{◌≡◌, ◌==◌, ◌<◌, ◌≤◌, ◌^◌, All, Some, None, length, sum, if◌then◌else◌};
ghost use Rattle.std.specs.List.{list_all};
ghost use Rattle.ltm_splits.specs.Weights.{AreWeights};

use ltm_units::Four;
use std::marker::Model;

/// One weight per out-link in order of link number: at most four, and not all of them 0.
#[derive(Clone, Copy)]
pub struct Weights {
    values: Four<u32>,
}

impl Model for Weights {
    ghost use Rattle.std.specs.Prelude.{ℕ, List};
    ghost use Rattle.ltm_splits.specs.Weights.{AreWeights};

    ghost Value = { List ℕ };

    ghost view = { λ w. w.values };

    ghost invariant = { λ w. AreWeights w.values };

    ghost inverse = { λ weights. record { values = weights } };
}

impl Weights {
    /// The weights, where they are not all 0: then they have no sum, and no row has them.
    pub fn of(weights: &[u32]) -> Option<Weights>
        requires { length weights.now ≤ 4 }
        ensures { result ≡ (if sum weights.now == 0 then None else Some weights.now) }
    {
        if are_zero(weights) {
            return None;
        }
        fit_32_bits(weights);
        match Four::of(weights) {
            Some(values) => Some(Weights { values }),
            None => unreachable!(),
        }
    }

    /// The weights in order of link number.
    #[inline]
    pub fn as_slice(&self) -> &[u32]
        ensures weights { result.now ≡ self.now }
        ensures some { AreWeights self.now }
    {
        self.values.as_slice()
    }
}

/// Each weight fits 32 bits. The function does nothing but read them.
fn fit_32_bits(weights: &[u32])
    ensures { All (λ weight. weight < 2 ^ 32) weights.now }
{}

/// Whether the weights are all 0.
fn are_zero(weights: &[u32]) -> bool
    ensures { result ≡ (sum weights.now == 0) }
{
    is_each_zero(weights)
}

fn is_each_zero(weights: &[u32]) -> bool
    ensures { result ≡ list_all (λ weight. weight == 0) weights.now }
{
    weights.iter().all(|weight| *weight == 0)
}
