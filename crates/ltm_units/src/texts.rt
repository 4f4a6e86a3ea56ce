//! The pieces of lines: words, numbers and amounts, each appended whole or not at all.
ghost use Rattle.std.specs.Prelude.{◌≡◌, ◌++◌, ◌+◌, ◌∷◌, [], ◌/◌, ◌%◌, ◌≤◌, length, OnOk, OnErr, vec_len, vec_capacity};
ghost use Rattle.ltm_units.specs.Texts.{vehicles_text, number_piece, amount_piece};

use crate::{NoMemory, Units};
use itoa::Buffer;

/// Appends a text where room for it is there.
pub fn append(into: &mut Vec<u8>, text: &[u8])
    requires room { vec_len into.old + length text.now ≤ vec_capacity into.old }
    ensures items { into.new.items ≡ into.old.items ++ text.now }
    ensures len { vec_len into.new ≡ vec_len into.old + length text.now }
    ensures capacity { vec_capacity into.old ≤ vec_capacity into.new }
{
    match into.extend_from_slice(text) {
        Ok(()) => {}
        Err(_) => unreachable!(),
    }
}

/// Appends words and a number where room for them is there; a number takes at most 40 bytes.
#[tactic(auto, unfolding(crate::specs::Texts::number_piece))]
pub fn append_number(into: &mut Vec<u8>, words: &[u8], number: u128)
    requires room { vec_len into.old + length words.now + 40 ≤ vec_capacity into.old }
    ensures items { into.new.items ≡ into.old.items ++ number_piece words.now number }
    ensures len { vec_len into.new ≤ vec_len into.old + length words.now + 40 }
    ensures capacity { vec_capacity into.old ≤ vec_capacity into.new }
{
    let mut digits = Buffer::new();
    append(into, words);
    append(into, digits.format(number).as_bytes());
}

/// The point of an amount and the three digits behind it.
fn decimals(amount: u64) -> [u8; 4]
    ensures { result ≡ 46 ∷ (48 + amount % 1000 / 100) ∷ (48 + amount % 100 / 10) ∷ (48
        + amount % 10) ∷ [] }
{
    [
        b'.',
        48 + (amount % 1000 / 100) as u8,
        48 + (amount % 100 / 10) as u8,
        48 + (amount % 10) as u8,
    ]
}

/// Appends words and an amount where room for them is there; an amount takes at most 44 bytes.
#[tactic(auto, unfolding(crate::specs::Texts::amount_piece, crate::specs::Texts::number_piece, crate::specs::Texts::vehicles_text))]
fn append_vehicles(into: &mut Vec<u8>, words: &[u8], amount: Units)
    requires room { vec_len into.old + length words.now + 44 ≤ vec_capacity into.old }
    ensures { into.new.items ≡ into.old.items ++ amount_piece words.now amount.0 }
{
    append_number(into, words, u128::from(amount.0 / 1000));
    append(into, &decimals(amount.0));
}

/// Appends the whole text, or nothing.
pub fn push_text(into: &mut Vec<u8>, text: &[u8]) -> Result<(), NoMemory>
    ensures ok { OnOk result (into.new.items ≡ into.old.items ++ text.now) }
    ensures err { OnErr result (into.new.items ≡ into.old.items) }
{
    into.extend_from_slice(text)?;
    Ok(())
}

/// Appends words and a number, or nothing.
pub fn push_number(into: &mut Vec<u8>, words: &[u8], number: u128) -> Result<(), NoMemory>
    ensures ok { OnOk result (into.new.items ≡ into.old.items ++ number_piece words.now number) }
    ensures err { OnErr result (into.new.items ≡ into.old.items) }
{
    into.reserve(words.len() + 40)?;
    append_number(into, words, number);
    Ok(())
}

/// Appends words and an amount as whole vehicles, a point and three digits, or nothing.
pub fn push_vehicles(into: &mut Vec<u8>, words: &[u8], amount: Units) -> Result<(), NoMemory>
    ensures ok { OnOk result (into.new.items ≡ into.old.items ++ amount_piece words.now amount.0) }
    ensures err { OnErr result (into.new.items ≡ into.old.items) }
{
    into.reserve(words.len() + 44)?;
    append_vehicles(into, words, amount);
    Ok(())
}

/// Appends an amount as whole vehicles, a point and three digits, or nothing.
#[tactic(auto, unfolding(crate::specs::Texts::amount_piece))]
pub fn write_vehicles(amount: Units, into: &mut Vec<u8>) -> Result<(), NoMemory>
    ensures ok { OnOk result (into.new.items ≡ into.old.items ++ vehicles_text amount.0) }
    ensures err { OnErr result (into.new.items ≡ into.old.items) }
{
    push_vehicles(into, b"", amount)
}
