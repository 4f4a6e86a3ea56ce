//! Sums of a few numbers.
ghost use Rattle.std.specs.Prelude.{◌≡◌, ◌<◌, ◌^◌, sum};

/// The sum of numbers, which fits: of up to four, as a node has out-links and most cases have destinations, without a loop.
#[inline]
pub fn sum_of(numbers: &[u64]) -> u64
    requires fits { sum numbers.now < 2 ^ 64 }
    ensures { result ≡ sum numbers.now }
{
    match numbers {
        [one, two] => *one + *two,
        [] => 0,
        [one] => *one,
        [one, two, three] => *one + *two + *three,
        [one, two, three, four] => *one + *two + *three + *four,
        _ => sum_many(numbers),
    }
}

/// The same for any count of numbers. Kept out of line.
#[inline(never)]
fn sum_many(numbers: &[u64]) -> u64
    requires fits { sum numbers.now < 2 ^ 64 }
    ensures { result ≡ sum numbers.now }
{
    numbers.iter().sum()
}
