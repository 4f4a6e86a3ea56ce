//! Numbers in 32 bits beside numbers in 64 bits.
ghost use Rattle.std.specs.Prelude.{◌≡◌, ◌↔◌, ◌*◌, ◌/◌, ◌^◌, ◌<◌, ℕ, length, slice_index, IsTrue};

/// Whether two rows of one length are equal: of one, two and four numbers, as with so many destinations, without a loop.
#[inline]
pub fn same_numbers(numbers: &[u32], others: &[u64]) -> bool
    requires { length numbers.now ≡ length others.now }
    ensures { IsTrue result ↔ numbers.now ≡ others.now }
{
    if others.len() == 2 {
        let first = u64::from(numbers[0]) != others[0];
        let second = u64::from(numbers[1]) != others[1];
        return !(first | second);
    }
    if others.len() == 1 {
        return u64::from(numbers[0]) == others[0];
    }
    if others.len() == 4 {
        let first = u64::from(numbers[0]) != others[0];
        let second = u64::from(numbers[1]) != others[1];
        let third = u64::from(numbers[2]) != others[2];
        let fourth = u64::from(numbers[3]) != others[3];
        return !((first | second) | (third | fourth));
    }
    same_many(numbers, others)
}

/// The same for any count of numbers. That they differ is told at the first number that does.
fn same_many(numbers: &[u32], others: &[u64]) -> bool
    requires { length numbers.now ≡ length others.now }
    ensures { IsTrue result ↔ numbers.now ≡ others.now }
{
    for place in 0..numbers.len() {
        if u64::from(numbers[place]) != others[place] {
            return false;
        }
    }
    true
}

/// The same, where all are likely to be equal: several numbers are looked at at a time, and none is left out.
fn same_in_all(numbers: &[u32], others: &[u64]) -> bool
    requires { length numbers.now ≡ length others.now }
    ensures { IsTrue result ↔ numbers.now ≡ others.now }
{
    let mut any = false;
    for place in 0..numbers.len() {
        any |= u64::from(numbers[place]) != others[place];
    }
    !any
}

/// Whether two rows are equal. That they differ is told at the first number that does.
pub(crate) fn same_row(numbers: &[u32], others: &[u64]) -> bool
    ensures { IsTrue result ↔ numbers.now ≡ others.now }
{
    if numbers.len() != others.len() {
        return false;
    }
    same_numbers(numbers, others)
}

/// Whether two rows are equal, where they are likely to be.
pub(crate) fn still_same_row(numbers: &[u32], others: &[u64]) -> bool
    ensures { IsTrue result ↔ numbers.now ≡ others.now }
{
    if numbers.len() != others.len() {
        return false;
    }
    same_in_all(numbers, others)
}

/// Writes a row of numbers in 32 bits but for the last of them, fewer than four: four at a time, all of which are read before
/// one is written. Returns how many are written.
#[inline]
fn write_fours(into: &mut [u32], numbers: &[u64]) -> usize
    requires count { length into.old ≡ length numbers.now }
    requires small { (i : ℕ) → i < length numbers.now → slice_index numbers.now i < 2 ^ 32 }
    ensures many { result ≡ length numbers.now / 4 * 4 }
    ensures count { length into.new ≡ length numbers.now }
    ensures written { (i : ℕ) → i < result → slice_index into.new i ≡ slice_index numbers.now i }
{
    let mut place = 0;
    while place + 4 <= into.len() {
        let first = numbers[place] as u32;
        let second = numbers[place + 1] as u32;
        let third = numbers[place + 2] as u32;
        let fourth = numbers[place + 3] as u32;
        into[place] = first;
        into[place + 1] = second;
        into[place + 2] = third;
        into[place + 3] = fourth;
        place += 4;
    }
    place
}

/// Writes the two numbers of a row that follow whole fours, where there are two more.
#[inline]
fn write_two(into: &mut [u32], numbers: &[u64], place: usize)
    requires count { length into.old ≡ length numbers.now }
    requires small { (i : ℕ) → i < length numbers.now → slice_index numbers.now i < 2 ^ 32 }
    requires place { place ≡ length numbers.now / 4 * 4 }
    requires before { (i : ℕ) → i < place → slice_index into.old i ≡ slice_index numbers.now i }
    ensures count { length into.new ≡ length numbers.now }
    ensures written { (i : ℕ) → i < length numbers.now / 2 * 2
        → slice_index into.new i ≡ slice_index numbers.now i }
{
    if (numbers.len() / 2) % 2 == 1 {
        let first = numbers[place] as u32;
        let second = numbers[place + 1] as u32;
        into[place] = first;
        into[place + 1] = second;
    }
}

/// Writes the last number of a row of an odd count.
#[inline]
fn write_last(into: &mut [u32], numbers: &[u64])
    requires count { length into.old ≡ length numbers.now }
    requires small { (i : ℕ) → i < length numbers.now → slice_index numbers.now i < 2 ^ 32 }
    requires before { (i : ℕ) → i < length numbers.now / 2 * 2
        → slice_index into.old i ≡ slice_index numbers.now i }
    ensures { into.new ≡ numbers.now }
{
    if numbers.len() % 2 == 1 {
        let last = numbers.len() - 1;
        into[last] = numbers[last] as u32;
    }
}

/// Writes a row of numbers in 32 bits.
#[inline]
pub(crate) fn write_row(into: &mut [u32], numbers: &[u64])
    requires count { length into.old ≡ length numbers.now }
    requires small { (i : ℕ) → i < length numbers.now → slice_index numbers.now i < 2 ^ 32 }
    ensures { into.new ≡ numbers.now }
{
    let place = write_fours(into, numbers);
    write_two(into, numbers, place);
    write_last(into, numbers);
}
