//! Numbers of destinations, place by place.
ghost use Rattle.std.specs.Prelude.{◌≡◌, ℕ, ◌+◌, ◌-◌, ◌*◌, ◌%◌, ◌^◌, ◌<◌, ◌≤◌, length, slice_index, sum};
ghost use Rattle.ltm_units.specs.Bounds.{most_in_slot};
ghost use Rattle.ltm_units.specs.Nested.{nested_split};
ghost use Rattle.ltm_loading.specs.Flows.{limited};

use ltm_units::share_of;

/// Adds amounts to numbers, modulo 2^32.
pub(crate) fn add_all(numbers: &mut [u32], more: &[u16])
    requires { length more.now ≡ length numbers.old }
    ensures { (i : ℕ) → i < length numbers.old
        → slice_index numbers.new i ≡ (slice_index numbers.old i + slice_index more.now i) % 2 ^ 32 }
{
    for i in 0..numbers.len() {
        numbers[i] = numbers[i].wrapping_add(u32::from(more[i]));
    }
}

/// Takes amounts from numbers, modulo 2^32.
pub(crate) fn take_row(numbers: &mut [u32], less: &[u16])
    requires { length less.now ≡ length numbers.old }
    ensures numbers { (i : ℕ) → i < length numbers.old
        → slice_index numbers.new i
        ≡ (slice_index numbers.old i + (2 ^ 32 - slice_index less.now i)) % 2 ^ 32 }
    ensures fits { (i : ℕ) → slice_index less.now i < 2 ^ 32 }
{
    for i in 0..numbers.len() {
        numbers[i] = numbers[i].wrapping_sub(u32::from(less[i]));
    }
}

/// The same of amounts of 32 bits.
pub(crate) fn take_all(numbers: &mut [u32], less: &[u32])
    requires { length less.now ≡ length numbers.old }
    ensures numbers { (i : ℕ) → i < length numbers.old
        → slice_index numbers.new i
        ≡ (slice_index numbers.old i + (2 ^ 32 - slice_index less.now i)) % 2 ^ 32 }
    ensures fits { (i : ℕ) → slice_index less.now i < 2 ^ 32 }
{
    for i in 0..numbers.len() {
        numbers[i] = numbers[i].wrapping_sub(less[i]);
    }
}

/// Adds the nested split of a part of a row to numbers, modulo 2^32.
pub(crate) fn add_split(part: u64, total: u64, row: &[u16], numbers: &mut [u32])
    requires same { length row.now ≡ length numbers.old }
    requires total { total ≡ sum row.now }
    requires small { total < 2 ^ 32 }
    requires within { part ≤ total }
    ensures { (i : ℕ) → i < length numbers.old
        → slice_index numbers.new i
        ≡ (slice_index numbers.old i + slice_index (nested_split part row.now) i) % 2 ^ 32 }
{
    let mut rest = part;
    let mut whole = total;
    for i in 0..numbers.len() {
        let entered = u64::from(row[i]);
        let share = share_of(rest, entered, whole);
        rest -= share;
        whole -= entered;
        numbers[i] = numbers[i].wrapping_add(share as u32);
    }
}

/// What passes a limit of a part of a whole.
#[inline]
fn within(limit: u64, whole: u64, part: u32) -> u32
    requires limit { limit < whole }
    requires small { whole ≤ most_in_slot }
    ensures { result ≡ limited limit whole part }
{
    (u64::from(part) * limit / whole) as u32
}

/// Brings numbers, each a part of a whole, within a limit of the whole.
pub(crate) fn limit_all(limit: u64, whole: u64, parts: &mut [u32])
    requires small { whole ≤ most_in_slot }
    ensures { (i : ℕ) → i < length parts.old
        → slice_index parts.new i ≡ limited limit whole (slice_index parts.old i) }
{
    if whole <= limit {
        return;
    }
    for i in 0..parts.len() {
        parts[i] = within(limit, whole, parts[i]);
    }
}
