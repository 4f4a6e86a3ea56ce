//! What part of what it sends an arm moves.
ghost use Rattle.std.specs.Prelude.{◌≡◌, ◌<◌, ◌≤◌, ◌*◌, ◌/◌};
ghost use Rattle.ltm_units.specs.Bounds.{most_in_slot};

use ltm_shares::Shares;

/// What part of what it sends an arm moves.
#[derive(Clone, Copy)]
pub enum Portion<'a> {
    /// Each arm moves all.
    Whole,
    /// Each arm moves its share.
    Share(&'a Shares),
}

impl Portion<'_> {
    ghost use Rattle.ltm_node.specs.Portion.{denominator, numerator};

    /// What an arm moves of an amount of at most 32,000 units, rounded down.
    #[inline]
    pub fn of(self, arm: u32, amount: u64) -> u64
        requires arm { arm < 5 }
        requires fraction { numerator self arm ≤ denominator self }
        requires amount { amount ≤ most_in_slot }
        ensures { result ≡ numerator self.entry arm * amount / denominator self.entry }
    {
        match self {
            Portion::Whole => amount,
            Portion::Share(shares) => shares.of(arm as usize, amount),
        }
    }
}
