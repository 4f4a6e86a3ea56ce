//! The fields of a record, each of its kind. Places are counted from 0.
ghost use Rattle.std.specs.Prelude.{◌≡◌, ◌≤◌, IfSome, length};
ghost use Rattle.csv.specs.Records.{fields_of};
ghost use Rattle.ltm_records.specs.Fields.{field, has, name_at as the_name, whole_at as the_whole, vehicles_at as the_vehicles};
ghost use Rattle.ltm_units.specs.Bounds.{most_amount};

use csv::ByteRecord;
use ltm_units::{Name, Units, read_vehicles, read_whole};

/// How many fields the record has.
pub fn width(row: &ByteRecord) -> usize
    ensures { result ≡ length (fields_of row.now) }
{
    row.len()
}

/// The field at a place, or no bytes where the record is shorter.
pub fn text_at(row: &ByteRecord, place: usize) -> &[u8]
    ensures { result.now ≡ field (fields_of row.now) place }
{
    match row.get(place) {
        Some(text) => text,
        None => &[],
    }
}

/// Whether the field at a place is this text.
pub fn has(row: &ByteRecord, place: usize, text: &[u8]) -> bool
    ensures { result ≡ has (fields_of row.now) place text.now }
{
    text_at(row, place) == text
}

/// The field at a place, where it is a name.
pub fn name_at(row: &ByteRecord, place: usize) -> Option<Name>
    ensures { result ≡ the_name (fields_of row.now) place }
{
    Name::read(text_at(row, place))
}

/// The field at a place, where it is a whole number below 2^32.
pub fn whole_at(row: &ByteRecord, place: usize) -> Option<u32>
    ensures { result ≡ the_whole (fields_of row.now) place }
{
    read_whole(text_at(row, place))
}

/// The field at a place, where it is an amount of vehicles, at most 1,000,000 of them.
pub fn vehicles_at(row: &ByteRecord, place: usize) -> Option<Units>
    ensures value { result ≡ the_vehicles (fields_of row.now) place }
    ensures small { IfSome result (λ units. units.0 ≤ most_amount) }
{
    match read_vehicles(text_at(row, place)) {
        Ok(amount) => Some(amount),
        Err(_) => None,
    }
}
