//! The members of an object.
ghost use Rattle.std.specs.Prelude.{◌≡◌, ◌≤◌, option_map, IfSome};
ghost use Rattle.serde_json.specs.View.{view};
ghost use Rattle.ltm_script.specs.Members.{text_in, name_in, whole_of, whole_in, amount_in};
ghost use Rattle.ltm_units.specs.Bounds.{most_amount};

use ltm_units::{Name, Units, read_vehicles};
use serde_json::Value;

/// The text of a member.
pub(crate) fn find_text<'a>(value: &'a Value, key: &str) -> Option<&'a str>
    ensures { option_map (λ s. s.now) result ≡ text_in key.now (view value.now) }
{
    match value.get(key) {
        Some(found) => found.as_str(),
        None => None,
    }
}

/// The name in the text of a member.
pub(crate) fn find_name(value: &Value, key: &str) -> Option<Name>
    ensures { result ≡ name_in key.now (view value.now) }
{
    match find_text(value, key) {
        Some(text) => Name::read(text.as_bytes()),
        None => None,
    }
}

/// The whole number that a value is, where it is below 2^32.
pub(crate) fn read_whole(value: &Value) -> Option<u32>
    ensures { result ≡ whole_of (view value.now) }
{
    match value.as_u64() {
        Some(n) if n <= 0xffff_ffff => Some(n as u32),
        _ => None,
    }
}

/// The whole number of a member.
pub(crate) fn find_whole(value: &Value, key: &str) -> Option<u32>
    ensures { result ≡ whole_in key.now (view value.now) }
{
    match value.get(key) {
        Some(found) => read_whole(found),
        None => None,
    }
}

/// The vehicles in the text of a member.
pub(crate) fn find_amount(value: &Value, key: &str) -> Option<Units>
    ensures amount { result ≡ amount_in key.now (view value.now) }
    ensures small { IfSome result (λ units. units.0 ≤ most_amount) }
{
    match find_text(value, key) {
        Some(text) => match read_vehicles(text.as_bytes()) {
            Ok(amount) => Some(amount),
            Err(_) => None,
        },
        None => None,
    }
}
