//! The numbers that texts parse.
ghost use Rattle.std.specs.Prelude.{◌≡◌, ℕ, ◌<◌, ◌≤◌, ◌+◌, ◌^◌, ◌↔◌, ◌==◌, ◌&&◌, ◌||◌, not, min, nat_lt, true, Some, None, Err, IfOk, IfSome, position, if◌then◌else◌};
ghost use Rattle.std.specs.List.{list_all};
ghost use Rattle.ltm_units.specs.Numbers.{is_digit, is_point, value, number_told, whole, vehicles, bad_place, sized, IsFirstBad};
ghost use Rattle.ltm_units.specs.Bounds.{most_amount};

use crate::Units;

/// Why a text tells no amount of vehicles.
#[derive(Clone, Copy, Debug, PartialEq, Eq)]
pub enum NumberFault {
    /// The text has no byte.
    Empty,
    /// The byte at this place, counted from 0, is none that an amount has there.
    BadByte(u64),
    /// More than three digits stand behind the point.
    TooManyDecimals,
    /// The amount is above 1,000,000 vehicles.
    TooLarge,
}

const CAP: u64 = 1 << 40;

/// The value of digits, where it fits.
#[tactic(auto, using(crate::proofs::Digits::steps))]
fn value_of(digits: &[u8]) -> Option<u64>
    requires { list_all is_digit digits.now ≡ true }
    ensures { result ≡ (if nat_lt (value digits.now) (2 ^ 64) then Some
        (value digits.now) else None) }
{
    let mut sum: u64 = 0;
    for d in digits {
        sum = sum.checked_mul(10)?.checked_add(u64::from(*d - b'0'))?;
    }
    Some(sum)
}

/// The value of digits, up to a cap.
fn capped(digits: &[u8]) -> u64
    requires { list_all is_digit digits.now ≡ true }
    ensures { result ≡ min (value digits.now) (2 ^ 40) }
{
    match value_of(digits) {
        Some(sum) => sum.min(CAP),
        None => CAP,
    }
}

fn are_digits(text: &[u8]) -> bool
    ensures { result ≡ list_all is_digit text.now }
{
    text.iter().all(|b| *b >= 48 && *b <= 57)
}

/// The number that a text tells: one or more digits, no more than so many, with a value of at most `most`.
pub fn read_number(text: &[u8], most_digits: usize, most: u64) -> Option<u64>
    ensures number { result ≡ number_told most_digits most text.now }
    ensures small { IfSome result (λ number. number ≤ most) }
{
    if text.is_empty() || text.len() > most_digits || !are_digits(text) {
        return None;
    }
    let number = value_of(text)?;
    if number <= most { Some(number) } else { None }
}

/// A whole number of 1 to 10 digits, where it is below 2^32.
pub fn read_whole(text: &[u8]) -> Option<u32>
    ensures { result ≡ whole text.now }
{
    match read_number(text, 10, 4_294_967_295) {
        Some(number) => Some(number as u32),
        None => None,
    }
}

/// Whether no amount has this byte at this place of a text of this length, behind a point or not.
fn is_bad(byte: u8, place: usize, len: usize, has_point: bool) -> bool
    requires { place < len }
    ensures { result ≡ (not (is_digit byte) && (not (is_point byte) || (place == 0) || (place
        + 1 == len) || has_point)) }
{
    !(byte >= 48 && byte <= 57) && (byte != b'.' || place == 0 || place + 1 == len || has_point)
}

/// The first byte that no amount has at its place.
#[tactic(auto, using(crate::proofs::BadBytes::steps))]
fn find_bad(text: &[u8]) -> Option<usize>
    ensures { result ≡ bad_place text.now }
{
    let mut has_point = false;
    for (place, byte) in text.iter().enumerate() {
        if is_bad(*byte, place, text.len(), has_point) {
            return Some(place);
        }
        has_point = has_point || *byte == b'.';
    }
    None
}

fn find_point(text: &[u8]) -> Option<usize>
    ensures { result ≡ position is_point text.now }
{
    text.iter().position(|b| *b == b'.')
}

/// The amount of these digits before and behind the point.
fn amount(front: &[u8], back: &[u8]) -> Result<Units, NumberFault>
    requires front { list_all is_digit front.now ≡ true }
    requires back { list_all is_digit back.now ≡ true }
    ensures value { result ≡ sized front.now back.now }
    ensures small { IfOk result (λ units. units.0 ≤ most_amount) }
{
    if back.len() > 3 {
        return Err(NumberFault::TooManyDecimals);
    }
    let scale: u64 = match back.len() {
        0 => 1000,
        1 => 100,
        2 => 10,
        _ => 1,
    };
    let units = capped(front) * 1000 + capped(back) * scale;
    if units > 1_000_000_000 {
        Err(NumberFault::TooLarge)
    } else {
        Ok(Units(units))
    }
}

/// The amount that a text tells, or its first fault.
#[tactic(auto, using(crate::proofs::BadBytes::parts))]
fn parse(text: &[u8]) -> Result<Units, NumberFault>
    ensures value { result ≡ vehicles text.now }
    ensures small { IfOk result (λ units. units.0 ≤ most_amount) }
{
    if text.is_empty() {
        return Err(NumberFault::Empty);
    }
    match find_bad(text) {
        Some(place) => Err(NumberFault::BadByte(place as u64)),
        None => match find_point(text) {
            None => amount(text, &[]),
            Some(p) => amount(&text[..p], &text[p + 1..]),
        },
    }
}

/// The amount that a text tells in vehicles, as `7`, `7.2` or `7.225`: digits, or digits, a point and one to three
/// digits, of at most 1,000,000 vehicles.
///
/// Where several faults stand together the first in the order of `NumberFault` is told, and of several bad bytes the
/// first.
pub fn read_vehicles(text: &[u8]) -> Result<Units, NumberFault>
    ensures value { result ≡ vehicles text.now }
    ensures small { IfOk result (λ units. units.0 ≤ most_amount) }
    ensures bad_byte { (place : ℕ)
        → (result ≡ Err (NumberFault.BadByte place)) ↔ IsFirstBad text.now place }
{
    parse(text)
}
