//! How an amount for a destination is split over the weights of the out-links.
ghost use Rattle.std.specs.Prelude.{◌≡◌, ◌<◌, ◌≤◌, ◌*◌, ◌/◌, ◌^◌};
ghost use Rattle.ltm_units.specs.Bounds.{most_in_slot};

/// The part of what is left of an amount that goes to one of the weights that are left: the narrow form of
/// `ltm_units::share_of` for amounts of at most 32,000 units, whose product with a weight always fits a u64.
#[inline]
pub fn share_of_rest(left: u64, weight: u64, rest: u64) -> u64
    requires left { left ≤ most_in_slot }
    requires weight { weight ≤ rest }
    requires rest { rest < 2 ^ 40 }
    ensures part { result ≡ left * weight / rest }
    ensures within { result ≤ left }
{
    if weight == 0 {
        0
    } else if weight == rest {
        left
    } else {
        left * weight / rest
    }
}

/// What moves of a part of a turn: the part of what is left to move that falls to it, of all parts that are left.
#[inline]
pub fn part_of_turn(left: u64, part: u64, rest: u64) -> u64
    requires left { left ≤ most_in_slot }
    requires part { part ≤ rest }
    requires rest { rest < 2 ^ 40 }
    ensures part { result ≡ left * part / rest }
    ensures within { result ≤ left }
{
    if left == rest {
        part
    } else if left == 0 {
        0
    } else {
        share_of_rest(left, part, rest)
    }
}
