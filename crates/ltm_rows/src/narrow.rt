//! Numbers in 16 bits beside numbers in 64 bits.
ghost use Rattle.std.specs.Prelude.{◌≡◌, ◌↔◌, ◌+◌, ◌*◌, ◌/◌, ◌++◌, ◌^◌, ◌<◌, ◌≤◌, ℕ, length, slice_index, replicate, IsTrue};

/// Whether four numbers from a place on are equal, by one test for all of them.
#[inline]
fn same_four(numbers: &[u16], others: &[u64], place: usize) -> bool
    requires numbers { place + 4 ≤ length numbers.now }
    requires others { place + 4 ≤ length others.now }
    ensures { IsTrue result ↔ (slice_index numbers.now place ≡ slice_index others.now place)
        × (slice_index numbers.now (place + 1) ≡ slice_index others.now (place + 1))
        × (slice_index numbers.now (place + 2) ≡ slice_index others.now (place + 2))
        × (slice_index numbers.now (place + 3) ≡ slice_index others.now (place + 3)) }
{
    let first = u64::from(numbers[place]) != others[place];
    let second = u64::from(numbers[place + 1]) != others[place + 1];
    let third = u64::from(numbers[place + 2]) != others[place + 2];
    let fourth = u64::from(numbers[place + 3]) != others[place + 3];
    !((first | second) | (third | fourth))
}

/// Whether two rows are equal but for the last numbers, fewer than four. That they differ is told at the first four that do.
#[inline]
fn same_fours(numbers: &[u16], others: &[u64]) -> bool
    requires { length numbers.now ≡ length others.now }
    ensures { IsTrue result ↔ ((i : ℕ) → i < length numbers.now / 4 * 4
        → slice_index numbers.now i ≡ slice_index others.now i) }
{
    let mut place = 0;
    while place + 4 <= numbers.len() {
        if !same_four(numbers, others, place) {
            return false;
        }
        place += 4;
    }
    true
}

/// Whether two rows are equal: four numbers are looked at at a time, and then the last ones.
#[inline]
fn same_narrow(numbers: &[u16], others: &[u64]) -> bool
    requires { length numbers.now ≡ length others.now }
    ensures { IsTrue result ↔ numbers.now ≡ others.now }
{
    if !same_fours(numbers, others) {
        return false;
    }
    for place in numbers.len() / 4 * 4..numbers.len() {
        if u64::from(numbers[place]) != others[place] {
            return false;
        }
    }
    true
}

/// Whether a row is made of two others, one behind the other. That they differ is told at the first four numbers that do.
#[inline]
pub(crate) fn same_narrow_parts(numbers: &[u16], front: &[u64], back: &[u64]) -> bool
    requires { length numbers.now ≡ length front.now + length back.now }
    ensures { IsTrue result ↔ numbers.now ≡ front.now ++ back.now }
{
    let (first, second) = numbers.split_at(front.len());
    if !same_narrow(first, front) {
        return false;
    }
    same_narrow(second, back)
}

/// Writes a row of numbers in 16 bits but for the last of them, fewer than four: four at a time, all of which are read before
/// one is written. Returns how many are written.
#[inline]
fn write_fours(into: &mut [u16], numbers: &[u64]) -> usize
    requires count { length into.old ≡ length numbers.now }
    requires small { (i : ℕ) → i < length numbers.now → slice_index numbers.now i < 2 ^ 16 }
    ensures many { result ≡ length numbers.now / 4 * 4 }
    ensures count { length into.new ≡ length numbers.now }
    ensures written { (i : ℕ) → i < result → slice_index into.new i ≡ slice_index numbers.now i }
{
    let mut place = 0;
    while place + 4 <= into.len() {
        let first = numbers[place] as u16;
        let second = numbers[place + 1] as u16;
        let third = numbers[place + 2] as u16;
        let fourth = numbers[place + 3] as u16;
        into[place] = first;
        into[place + 1] = second;
        into[place + 2] = third;
        into[place + 3] = fourth;
        place += 4;
    }
    place
}

/// Writes the two numbers of a row that follow whole fours, where there are two more.
#[inline]
fn write_two(into: &mut [u16], numbers: &[u64], place: usize)
    requires count { length into.old ≡ length numbers.now }
    requires small { (i : ℕ) → i < length numbers.now → slice_index numbers.now i < 2 ^ 16 }
    requires place { place ≡ length numbers.now / 4 * 4 }
    requires before { (i : ℕ) → i < place → slice_index into.old i ≡ slice_index numbers.now i }
    ensures count { length into.new ≡ length numbers.now }
    ensures written { (i : ℕ) → i < length numbers.now / 2 * 2
        → slice_index into.new i ≡ slice_index numbers.now i }
{
    if (numbers.len() / 2) % 2 == 1 {
        let first = numbers[place] as u16;
        let second = numbers[place + 1] as u16;
        into[place] = first;
        into[place + 1] = second;
    }
}

/// Writes the last number of a row of an odd count.
#[inline]
fn write_last(into: &mut [u16], numbers: &[u64])
    requires count { length into.old ≡ length numbers.now }
    requires small { (i : ℕ) → i < length numbers.now → slice_index numbers.now i < 2 ^ 16 }
    requires before { (i : ℕ) → i < length numbers.now / 2 * 2
        → slice_index into.old i ≡ slice_index numbers.now i }
    ensures { into.new ≡ numbers.now }
{
    if numbers.len() % 2 == 1 {
        let last = numbers.len() - 1;
        into[last] = numbers[last] as u16;
    }
}

/// Writes a row of numbers in 16 bits.
#[inline]
fn write_narrow(into: &mut [u16], numbers: &[u64])
    requires count { length into.old ≡ length numbers.now }
    requires small { (i : ℕ) → i < length numbers.now → slice_index numbers.now i < 2 ^ 16 }
    ensures { into.new ≡ numbers.now }
{
    let place = write_fours(into, numbers);
    write_two(into, numbers, place);
    write_last(into, numbers);
}

/// Writes two rows of numbers in 16 bits, one behind the other.
#[inline]
pub(crate) fn write_narrow_parts(into: &mut [u16], front: &[u64], back: &[u64])
    requires count { length into.old ≡ length front.now + length back.now }
    requires front { (i : ℕ) → i < length front.now → slice_index front.now i < 2 ^ 16 }
    requires back { (i : ℕ) → i < length back.now → slice_index back.now i < 2 ^ 16 }
    ensures { into.new ≡ front.now ++ back.now }
{
    let (first, second) = into.split_at_mut(front.len());
    write_narrow(first, front);
    write_narrow(second, back);
}

/// The same where zeros stand and the front is zeros: the back alone is written.
#[inline]
pub(crate) fn write_behind_zeros(into: &mut [u16], front: &[u64], back: &[u64])
    requires count { length into.old ≡ length front.now + length back.now }
    requires zeros { into.old ≡ replicate (length front.now + length back.now) 0 }
    requires front { (i : ℕ) → i < length front.now → slice_index front.now i ≡ 0 }
    requires back { (i : ℕ) → i < length back.now → slice_index back.now i < 2 ^ 16 }
    ensures { into.new ≡ front.now ++ back.now }
{
    let (_zeros, second) = into.split_at_mut(front.len());
    write_narrow(second, back);
}
