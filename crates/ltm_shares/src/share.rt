//! The shares of the arms of a node.
ghost use Rattle.std.specs.Prelude.{◌≡◌, ℕ, ◌<◌, ◌≤◌, ◌*◌, ◌/◌, ◌^◌, slice_index};
ghost use Rattle.ltm_shares.specs.Factors.{AreFactors};
ghost use Rattle.ltm_shares.specs.Demands.{greatest_weight};
ghost use Rattle.ltm_units.specs.Bounds.{most_in_slot};

use crate::factor::{WHOLE, factor_of, nearest_below};
use crate::sent::ARMS;

/// The shares of the arms: an arm gets `numerators[arm] / denominator` of all that it sends.
#[derive(Drop)]
pub struct Shares {
    /// What the numerators are parts of.
    pub denominator: u128,
    /// One for each arm.
    pub numerators: [u128; ARMS],
    /// The share of each arm in 2^-32nds, rounded down.
    factors: [u64; ARMS],
    ghost positive: { 0 < denominator },
    ghost small: { denominator ≤ 163840000 ^ 4 },
    ghost in_factors: { AreFactors denominator numerators factors },
}

impl Shares {
    /// The shares with these numerators.
    pub(crate) fn over(denominator: u128, numerators: [u128; ARMS]) -> Shares
        requires positive { 0 < denominator }
        requires small { denominator ≤ greatest_weight ^ 4 }
        ensures denominator { result.denominator ≡ denominator }
        ensures numerators { result.numerators ≡ numerators }
    {
        let mut factors = [0u64; ARMS];
        for arm in 0..ARMS {
            factors[arm] = factor_of(numerators[arm], denominator);
        }
        Shares {
            denominator,
            numerators,
            factors,
        }
    }

    /// An arm's share of an amount of at most 32,000 units, rounded down.
    #[inline]
    pub fn of(&self, arm: usize, amount: u64) -> u64
        requires arm { arm < 5 }
        requires fraction { slice_index self.now.numerators arm ≤ self.now.denominator }
        requires amount { amount ≤ most_in_slot }
        ensures { result ≡ slice_index self.now.numerators arm * amount / self.now.denominator }
    {
        let scaled = self.factors[arm] * amount;
        let low = scaled / WHOLE;
        if scaled % WHOLE + amount <= WHOLE {
            return low;
        }
        nearest_below(self.numerators[arm], self.denominator, amount, low)
    }
}
