//! A fraction of at most 1 as a whole number of 2^-32nds.
//!
//! With it a share of an amount is one product and a shift in nearly all cases.
ghost use Rattle.std.specs.Prelude.{◌≡◌, ◌<◌, ◌≤◌, ◌*◌, ◌+◌, ◌/◌, ◌^◌};
ghost use Rattle.ltm_shares.specs.Factors.{factor};
ghost use Rattle.ltm_shares.specs.Demands.{greatest_weight};
ghost use Rattle.ltm_units.specs.Bounds.{most_in_slot};

use crate::wide::product;

/// How many 2^-32nds a whole is.
pub const WHOLE: u64 = 0x1_0000_0000;

/// Below this a fraction is brought to 2^-32nds in 64 bits.
const NARROW: u128 = 0x1_0000_0000;

/// Below this it is brought to them in one division.
const WIDE: u128 = 0x8000_0000_0000_0000_0000_0000;

/// How many 2^-32nds a fraction of at most 1 is, rounded down.
pub fn factor_of(numerator: u128, denominator: u128) -> u64
    requires positive { 0 < denominator }
    requires small { denominator ≤ greatest_weight ^ 4 }
    ensures { numerator ≤ denominator → result ≡ factor numerator denominator }
{
    if numerator >= denominator {
        return WHOLE;
    }
    if numerator == 0 {
        return 0;
    }
    if denominator < NARROW {
        return numerator as u64 * WHOLE / denominator as u64;
    }
    wide_factor(numerator, denominator)
}

/// The same for a fraction below 1, in 128 bits.
#[inline(never)]
fn wide_factor(numerator: u128, denominator: u128) -> u64
    requires below_one { numerator < denominator }
    requires small { denominator ≤ greatest_weight ^ 4 }
    ensures { result ≡ factor numerator denominator }
{
    if denominator < WIDE {
        return (product(numerator, u128::from(WHOLE)) / denominator) as u64;
    }
    let (first, rest) = digit(numerator, denominator);
    let (second, _) = digit(rest, denominator);
    first * 0x1_0000 + second
}

/// How many 2^-16ths a fraction below 1 is, and the numerator of what remains of the next 2^-16th.
fn digit(numerator: u128, denominator: u128) -> (u64, u128)
    requires below_one { numerator < denominator }
    requires small { denominator ≤ greatest_weight ^ 4 }
    ensures whole { numerator * 2 ^ 16 ≡ result.0 * denominator + result.1 }
    ensures digit { result.0 < 2 ^ 16 }
    ensures below_one { result.1 < denominator }
{
    let scaled = product(numerator, 0x1_0000);
    ((scaled / denominator) as u64, scaled % denominator)
}

/// A fraction of an amount, rounded down, that is one of two neighbours: the greater one where the fraction reaches it.
#[inline(never)]
pub fn nearest_below(numerator: u128, denominator: u128, amount: u64, low: u64) -> u64
    requires fraction { numerator ≤ denominator }
    requires small { denominator ≤ greatest_weight ^ 4 }
    requires amount { amount ≤ most_in_slot }
    requires low { low ≤ most_in_slot }
    requires at_least { low * denominator ≤ numerator * amount }
    requires below { numerator * amount < (low + 2) * denominator }
    ensures { result ≡ numerator * amount / denominator }
{
    if product(u128::from(low) + 1, denominator) <= product(numerator, u128::from(amount)) {
        low + 1
    } else {
        low
    }
}
