//! Where the destinations of one list stand in another.
ghost use Rattle.std.specs.Prelude.{◌≡◌, ◌≢◌, ℕ, ◌<◌, ◌≤◌, ◌^◌, length, slice_index, IfOk};
ghost use Rattle.ltm_lean_node.specs.Places.{Rises, ArePlaces, AreApart};

use ltm_units::NoMemory;
use std::alloc::Global;

/// The first place from one on at which a list has no number below another.
fn seek(outer: &[u32], number: u32, from: usize) -> usize
    requires from { from ≤ length outer.now }
    requires before { (x : ℕ) → x < from → slice_index outer.now x < number }
    ensures within { result ≤ length outer.now }
    ensures before { (x : ℕ) → x < result → slice_index outer.now x < number }
    ensures here { result < length outer.now → number ≤ slice_index outer.now result }
{
    let mut at = from;
    while at < outer.len() && outer[at] < number {
        at += 1;
    }
    at
}

/// A place, where the list has the number there; else the length of the list.
fn place_or_end(outer: &[u32], number: u32, at: usize) -> usize
    requires { at ≤ length outer.now }
    ensures within { result ≤ length outer.now }
    ensures there { result < length outer.now → slice_index outer.now result ≡ number }
    ensures none { length outer.now ≤ result → at < length outer.now → slice_index outer.now at ≢ number }
{
    if at < outer.len() && outer[at] == number {
        return at;
    }
    outer.len()
}

/// The place of each number of a list in another, or the length of the other where it is not there. Both rise: one walk along
/// them.
pub fn places_of(alloc: Global, inner: &[u32], outer: &[u32]) -> Result<Vec<u32>, NoMemory>
    requires inner { Rises inner.now }
    requires outer { Rises outer.now }
    requires fits { length outer.now < 2 ^ 32 }
    ensures { IfOk result (λ places. ArePlaces inner.now outer.now places.items) }
{
    let mut places = Vec::new(alloc);
    let mut at = 0;
    for i in 0..inner.len() {
        at = seek(outer, inner[i], at);
        let place = place_or_end(outer, inner[i], at);
        places.push(place as u32)?;
    }
    Ok(places)
}

/// Writes numbers at their places, and 0 at all others. A number whose place is not there is not written.
pub fn scatter(numbers: &[u32], places: &[u32], into: &mut [u64])
    requires same { length places.now ≡ length numbers.now }
    requires apart { AreApart places.now (length into.old) }
    ensures here { (i : ℕ) → i < length numbers.now → slice_index places.now i < length into.old
        → slice_index into.new (slice_index places.now i) ≡ slice_index numbers.now i }
    ensures others { (x : ℕ) → x < length into.old → ((i : ℕ) → i < length numbers.now → slice_index places.now i ≢ x)
        → slice_index into.new x ≡ 0 }
{
    into.fill(0);
    for i in 0..numbers.len() {
        let place = places[i] as usize;
        if place < into.len() {
            into[place] = u64::from(numbers[i]);
        }
    }
}
