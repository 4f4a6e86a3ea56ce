//! Numbers of 32 bits, and amounts above 0.
ghost use Rattle.std.specs.Prelude.{◌≡◌, ◌↔◌, ◌<◌, ◌≤◌, ◌+◌, ℕ, IsFalse, length, slice_index, take};

/// Writes some numbers of 32 bits: up to four, as for the out-links of a node, without a loop.
#[inline]
pub(crate) fn put_numbers(numbers: &[u32], into: &mut [u64])
    requires { length into.old ≡ length numbers.now }
    ensures { into.new ≡ numbers.now }
{
    if into.len() > 4 {
        put_many(numbers, into);
    } else {
        put_few(numbers, into);
    }
}

/// The same for up to four numbers.
#[inline]
fn put_few(numbers: &[u32], into: &mut [u64])
    requires few { length into.old ≤ 4 }
    requires same { length into.old ≡ length numbers.now }
    ensures { into.new ≡ numbers.now }
{
    if into.len() > 2 {
        put_three_or_four(numbers, into);
    } else if into.len() == 2 {
        into[0] = u64::from(numbers[0]);
        into[1] = u64::from(numbers[1]);
    } else if into.len() == 1 {
        into[0] = u64::from(numbers[0]);
    }
}

/// The same for three or four numbers.
#[inline]
fn put_three_or_four(numbers: &[u32], into: &mut [u64])
    requires few { length into.old ≤ 4 }
    requires more { 2 < length into.old }
    requires same { length into.old ≡ length numbers.now }
    ensures { into.new ≡ numbers.now }
{
    if into.len() == 4 {
        into[0] = u64::from(numbers[0]);
        into[1] = u64::from(numbers[1]);
        into[2] = u64::from(numbers[2]);
        into[3] = u64::from(numbers[3]);
    } else {
        into[0] = u64::from(numbers[0]);
        into[1] = u64::from(numbers[1]);
        into[2] = u64::from(numbers[2]);
    }
}

/// Writes some numbers but for the last of them, fewer than four: four at a time, all of which are read before one is
/// written. Returns how many are written.
#[inline]
fn put_fours(numbers: &[u32], into: &mut [u64]) -> usize
    requires { length into.old ≡ length numbers.now }
    ensures few { length numbers.now < result + 4 }
    ensures within { result ≤ length numbers.now }
    ensures count { length into.new ≡ length numbers.now }
    ensures written { take result into.new ≡ take result numbers.now }
{
    let mut place = 0;
    while place + 4 <= into.len() {
        let first = u64::from(numbers[place]);
        let second = u64::from(numbers[place + 1]);
        let third = u64::from(numbers[place + 2]);
        let fourth = u64::from(numbers[place + 3]);
        into[place] = first;
        into[place + 1] = second;
        into[place + 2] = third;
        into[place + 3] = fourth;
        place += 4;
    }
    place
}

/// Writes any count of numbers. Kept out of line.
#[inline(never)]
fn put_many(numbers: &[u32], into: &mut [u64])
    requires { length into.old ≡ length numbers.now }
    ensures { into.new ≡ numbers.now }
{
    let place = put_fours(numbers, into);
    put_few(&numbers[place..], &mut into[place..]);
}

/// Whether any amount is above 0, one by one.
#[inline]
fn is_one_sent(amounts: &[u64]) -> bool
    ensures { IsFalse result ↔ ((k : ℕ) → k < length amounts.now → slice_index amounts.now k ≡ 0) }
{
    for amount in amounts {
        if *amount != 0 {
            return true;
        }
    }
    false
}

/// Whether any of the four amounts from a place on is above 0.
#[inline]
fn is_four_sent(amounts: &[u64], place: usize) -> bool
    requires { place + 4 ≤ length amounts.now }
    ensures { IsFalse result ↔ ((k : ℕ) → place ≤ k → k < place + 4 → slice_index amounts.now k ≡ 0) }
{
    let front = (amounts[place] != 0) | (amounts[place + 1] != 0);
    let back = (amounts[place + 2] != 0) | (amounts[place + 3] != 0);
    front | back
}

/// Whether any of the eight amounts from a place on is above 0.
#[inline]
fn is_eight_sent(amounts: &[u64], place: usize) -> bool
    requires { place + 8 ≤ length amounts.now }
    ensures { IsFalse result ↔ ((k : ℕ) → place ≤ k → k < place + 8 → slice_index amounts.now k ≡ 0) }
{
    is_four_sent(amounts, place) | is_four_sent(amounts, place + 4)
}

/// Whether any amount is above 0: eight at a time, since most arms send nothing, and then one by one.
pub(crate) fn is_any_sent(amounts: &[u64]) -> bool
    ensures { IsFalse result ↔ ((k : ℕ) → k < length amounts.now → slice_index amounts.now k ≡ 0) }
{
    let mut place = 0;
    while place + 8 <= amounts.len() {
        if is_eight_sent(amounts, place) {
            return true;
        }
        place += 8;
    }
    is_one_sent(&amounts[place..])
}
