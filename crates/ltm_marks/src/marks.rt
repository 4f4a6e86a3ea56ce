//! Marks of places in rows.
ghost use Rattle.std.specs.Int.{bit_at};
ghost use Rattle.ltm_marks.specs.Bits.{NoBit, IsFirstBit};
ghost use Rattle.std.specs.Prelude.{◌≡◌, ℕ, ◌+◌, ◌*◌, ◌/◌, ◌%◌, ◌==◌, ◌<◌, ◌≤◌, ◌⊎◌, length, true, false, IfOk, OnErr, OnOk, MatchOption, slice_index, replicate, ◌++◌};
ghost use Rattle.ltm_units.specs.Bounds.{most_marked};

use ltm_units::NoMemory;
use std::alloc::Global;

/// A mark for each place of each row. The places of a row lie side by side, 64 in a word, and rows lie one after another.
#[derive(Drop)]
pub struct Marks {
    width: usize,
    rows: usize,
    words: usize,
    room: usize,
    bits: Vec<u64>,
    ghost narrow: { width ≤ most_marked },
    ghost words_are: { words ≡ width / 64 + 1 },
    ghost within: { rows ≤ room },
    ghost few: { room ≤ most_marked },
    ghost long: { length bits.items ≡ room * words },
    ghost rest: { (i : ℕ) → rows * words ≤ i → slice_index bits.items i ≡ 0 },
}

/// The first set bit of a word, not below a place.
#[inline]
pub fn first_from(word: u64, from: u32) -> Option<u32>
    requires { from < 64 }
    ensures { MatchOption result (NoBit word from) (IsFirstBit word from) }
{
    let rest = word >> from;
    if rest == 0 {
        return None;
    }
    Some(from + rest.trailing_zeros())
}

/// So many words without bits for each row.
#[tactic(auto, using(crate::proofs::Bits::words_fit))]
fn zeros(alloc: Global, words: usize, rows: usize) -> Result<Vec<u64>, NoMemory>
    requires words { words ≤ most_marked / 64 + 1 }
    requires rows { rows ≤ most_marked }
    ensures { IfOk result (λ bits. bits.items ≡ replicate (rows * words) 0) }
{
    vec![in alloc; 0u64; rows * words].map_err(|_| NoMemory)
}

/// Puts words without bits for some rows behind those that are there.
fn extend(bits: &mut Vec<u64>, words: usize, rows: usize) -> Result<(), NoMemory>
    requires words { words ≤ most_marked / 64 + 1 }
    requires rows { rows ≤ most_marked }
    ensures ok { OnOk result (bits.new.items ≡ bits.old.items ++ replicate (rows * words) 0) }
    ensures err { OnErr result (bits.new.items ≡ bits.old.items) }
{
    let alloc = *bits.allocator();
    let more = zeros(alloc, words, rows)?;
    match bits.extend_from_slice(&more) {
        Ok(()) => Ok(()),
        Err(_) => Err(NoMemory),
    }
}

/// Takes the bits of some words away, the last word not included.
fn clear_words(bits: &mut Vec<u64>, from: usize, to: usize)
    requires order { from ≤ to }
    requires within { to ≤ length bits.old.items }
    ensures count { length bits.new.items ≡ length bits.old.items }
    ensures none { (i : ℕ) → from ≤ i → i < to → slice_index bits.new.items i ≡ 0 }
    ensures others { (i : ℕ) → (i < from) ⊎ (to ≤ i)
        → slice_index bits.new.items i ≡ slice_index bits.old.items i }
{
    for at in from..to {
        bits[at] = 0;
    }
}

/// Takes all bits away.
fn clear_bits(bits: &mut Vec<u64>)
    ensures count { length bits.new.items ≡ length bits.old.items }
    ensures none { (i : ℕ) → i < length bits.old.items → slice_index bits.new.items i ≡ 0 }
{
    bits.as_mut_slice().fill(0);
}

impl Marks {
    ghost use Rattle.ltm_marks.specs.Marks.{width_of, rows_of, room_of, word_of, is_marked, SetsMark, ClearsRows, SameMarks, IsNext, HasNone, IsNextInWord, HasNoneInWord, HasNoneNear};

    /// So many rows of so many places, none of them marked.
    #[tactic(auto, using(crate::proofs::Bits::none_marked))]
    pub fn create(alloc: Global, width: usize, rows: usize) -> Result<Marks, NoMemory>
        requires width { width ≤ most_marked }
        requires rows { rows ≤ most_marked }
        ensures width { IfOk result (λ m. width_of m ≡ width) }
        ensures rows { IfOk result (λ m. rows_of m ≡ rows) }
        ensures none { IfOk result (λ m. (place row : ℕ) → is_marked m place row ≡ false) }
    {
        let words = width / 64 + 1;
        let bits = zeros(alloc, words, rows)?;
        Ok(Marks {
            width,
            rows,
            words,
            room: rows,
            bits,
        })
    }

    /// How many places a row has.
    #[inline]
    pub fn width(&self) -> usize
        ensures value { result ≡ width_of self.now }
        ensures small { result ≤ most_marked }
    {
        self.width
    }

    /// How many rows there are.
    #[inline]
    pub fn rows(&self) -> usize
        ensures value { result ≡ rows_of self.now }
        ensures small { result ≤ most_marked }
    {
        self.rows
    }

    /// The greatest number of rows for which there is room.
    #[inline]
    pub fn room(&self) -> usize
        ensures value { result ≡ room_of self.now }
        ensures within { rows_of self.now ≤ result }
    {
        self.room
    }

    /// The word of a place.
    #[inline]
    fn word(&self, place: usize, row: usize) -> usize
        requires place { place < width_of self.now }
        requires row { row < rows_of self.now }
        ensures value { result ≡ word_of self.now place row }
        ensures inside { result < rows_of self.now * self.now.words }
        ensures within { result < length self.now.bits.items }
    {
        let _bits = self.bits.len();
        row * self.words + place / 64
    }

    /// Whether the place is marked.
    #[inline]
    #[tactic(auto, unfolding(crate::specs::Marks::is_marked))]
    pub fn is_marked(&self, place: usize, row: usize) -> bool
        requires place { place < width_of self.now }
        requires row { row < rows_of self.now }
        ensures { result ≡ is_marked self.now place row }
    {
        let word = self.word(place, row);
        (self.bits[word] >> (place % 64)) & 1 == 1
    }

    /// Marks the place, and changes no other mark.
    #[inline]
    pub fn mark(&mut self, place: usize, row: usize)
        requires place { place < width_of self.old }
        requires row { row < rows_of self.old }
        ensures { SetsMark self.old self.new place row true }
    {
        let word = self.word(place, row);
        self.bits[word] |= 1 << (place % 64);
    }

    /// Takes the mark of the place away, and changes no other.
    #[inline]
    pub fn unmark(&mut self, place: usize, row: usize)
        requires place { place < width_of self.old }
        requires row { row < rows_of self.old }
        ensures { SetsMark self.old self.new place row false }
    {
        let word = self.word(place, row);
        self.bits[word] &= !(1 << (place % 64));
    }

    /// The first marked place of a row in the word of a place, not below it.
    #[inline]
    fn next_in_word(&self, row: usize, from: usize) -> Option<usize>
        requires row { row < rows_of self.now }
        requires from { from < width_of self.now }
        ensures { MatchOption result (HasNoneInWord self.now row from)
            (IsNextInWord self.now row from) }
    {
        let word = self.word(from, row);
        let bit = from % 64;
        match first_from(self.bits[word], bit as u32) {
            Some(found) => Some(from - bit + found as usize),
            None => None,
        }
    }

    /// The word with the mark of a place: the marks of 64 places of a row, a bit each.
    #[inline]
    pub fn word_with(&self, row: usize, place: usize) -> u64
        requires row { row < rows_of self.now }
        requires place { place < width_of self.now }
        ensures { (p : ℕ) → p / 64 ≡ place / 64
            → is_marked self.now p row ≡ (bit_at result (p % 64) == 1) }
    {
        let word = self.word(place, row);
        self.bits[word]
    }

    /// The first marked place of a row, not below one, if it lies in the same word; none exactly where none of that word does.
    #[inline]
    pub fn next_near(&self, row: usize, from: usize) -> Option<usize>
        requires row { row < rows_of self.now }
        requires from { from < width_of self.now }
        ensures { MatchOption result (HasNoneNear self.now row from) (IsNext self.now row from) }
    {
        if let Some(place) = self.next_in_word(row, from) {
            return if place < self.width {
                Some(place)
            } else {
                None
            };
        }
        None
    }

    /// The first marked place of a row, not below one; none exactly where there is none.
    pub fn next_marked(&self, row: usize, from: usize) -> Option<usize>
        requires { row < rows_of self.now }
        ensures { MatchOption result (HasNone self.now row from) (IsNext self.now row from) }
    {
        let mut from = from;
        while from < self.width {
            if let Some(place) = self.next_in_word(row, from) {
                return if place < self.width {
                    Some(place)
                } else {
                    None
                };
            }
            from = (from / 64 + 1) * 64;
        }
        None
    }

    /// Takes the marks of some rows away, the last row not included, and changes no other.
    pub fn clear_rows(&mut self, from: usize, to: usize)
        requires order { from ≤ to }
        requires rows { to ≤ rows_of self.old }
        ensures { ClearsRows self.old self.new from to }
    {
        clear_words(&mut self.bits, from * self.words, to * self.words);
    }

    /// Takes every mark away.
    pub fn clear(&mut self)
        ensures width { width_of self.new ≡ width_of self.old }
        ensures rows { rows_of self.new ≡ rows_of self.old }
        ensures room { room_of self.new ≡ room_of self.old }
        ensures none { (place row : ℕ) → is_marked self.new place row ≡ false }
    {
        clear_bits(&mut self.bits);
    }

    /// Makes room for so many rows. With want of memory nothing changes.
    pub fn reserve(&mut self, rows: usize) -> Result<(), NoMemory>
        requires { rows ≤ most_marked }
        ensures same { SameMarks self.old self.new }
        ensures room { OnOk result (rows ≤ room_of self.new) }
        ensures stays { OnErr result (room_of self.new ≡ room_of self.old) }
        ensures no_less { room_of self.old ≤ room_of self.new }
    {
        if rows <= self.room {
            return Ok(());
        }
        extend(&mut self.bits, self.words, rows - self.room)?;
        self.room = rows;
        Ok(())
    }

    /// Raises the number of rows within the room. No place of a new row is marked.
    #[inline]
    pub fn lengthen(&mut self, rows: usize)
        requires rows { rows_of self.old ≤ rows }
        requires room { rows ≤ room_of self.old }
        ensures width { width_of self.new ≡ width_of self.old }
        ensures rows { rows_of self.new ≡ rows }
        ensures room { room_of self.new ≡ room_of self.old }
        ensures marks { (place row : ℕ)
            → is_marked self.new place row ≡ is_marked self.old place row }
        ensures new { (place row : ℕ) → place < width_of self.old → rows_of self.old ≤ row
            → is_marked self.new place row ≡ false }
    {
        self.rows = rows;
    }
}
