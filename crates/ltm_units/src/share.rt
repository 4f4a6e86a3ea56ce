//! A share in proportion: the one rule by which an amount is rounded down.
ghost use Rattle.std.specs.Prelude.{◌≡◌, ◌*◌, ◌/◌, ◌≤◌};

/// Amounts and wholes below this have products that fit a u64.
const NARROW: u64 = 0x1_0000_0000;

/// The share of an amount that falls to a part of a whole, rounded down; 0 where the whole is 0.
///
/// The amount and its share are in one unit, thousandths of a vehicle as a rule; the part and the whole are in any one unit,
/// as weights, counts or milliseconds. A nested split takes the shares in turn: each part gets its share of what is left of
/// the amount, as one of the parts that are left. So the last part above 0 is the whole, and gets all that is left without a
/// division. Where the amount and the whole are below 2^32, one division in 64 bits is enough.
#[inline]
#[tactic(auto, using(crate::proofs::Splits::share_within))]
pub fn share_of(amount: u64, part: u64, whole: u64) -> u64
    requires { part ≤ whole }
    ensures share { result ≡ amount * part / whole }
    ensures within { result ≤ amount }
{
    if part == 0 || amount == 0 {
        0
    } else if part == whole {
        amount
    } else if amount < NARROW && whole < NARROW {
        amount * part / whole
    } else {
        (u128::from(amount) * u128::from(part) / u128::from(whole)) as u64
    }
}
