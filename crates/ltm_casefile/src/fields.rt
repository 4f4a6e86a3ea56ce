//! The fields of a record, each of its kind, or the cause that names the field. Fields are counted from 1.
ghost use Rattle.std.specs.Prelude.{◌≡◌, ◌≤◌, IfOk};
ghost use Rattle.csv.specs.Records.{fields_of};
ghost use Rattle.ltm_casefile.specs.Fields.{has_width, name_in, number_in, amount_in, weights_in};
ghost use Rattle.ltm_units.specs.Bounds.{most_amount};

use crate::faults::CaseCause;
use csv::ByteRecord;
use ltm_records::{name_at, read_weights, text_at, vehicles_at, whole_at, width};
use ltm_scenario::Weights;
use ltm_units::{Name, Units};

pub fn check_width(row: &ByteRecord, fields: usize) -> Result<(), CaseCause>
    ensures { result ≡ has_width (fields_of row.now) fields }
{
    if width(row) == fields {
        Ok(())
    } else {
        Err(CaseCause::Width)
    }
}

pub fn read_name(row: &ByteRecord, field: u32) -> Result<Name, CaseCause>
    requires { 1 ≤ field }
    ensures { result ≡ name_in (fields_of row.now) field }
{
    match name_at(row, (field - 1) as usize) {
        Some(name) => Ok(name),
        None => Err(CaseCause::Field(field)),
    }
}

pub fn read_number(row: &ByteRecord, field: u32) -> Result<u32, CaseCause>
    requires { 1 ≤ field }
    ensures { result ≡ number_in (fields_of row.now) field }
{
    match whole_at(row, (field - 1) as usize) {
        Some(number) => Ok(number),
        None => Err(CaseCause::Field(field)),
    }
}

/// Thousandths of a vehicle.
pub fn read_amount(row: &ByteRecord, field: u32) -> Result<Units, CaseCause>
    requires { 1 ≤ field }
    ensures amount { result ≡ amount_in (fields_of row.now) field }
    ensures small { IfOk result (λ amount. amount.0 ≤ most_amount) }
{
    match vehicles_at(row, (field - 1) as usize) {
        Some(amount) => Ok(amount),
        None => Err(CaseCause::Field(field)),
    }
}

/// One to four weights, each with the name of a link, no name twice.
pub fn read_split_weights(row: &ByteRecord, field: u32) -> Result<Weights, CaseCause>
    requires { 1 ≤ field }
    ensures { result ≡ weights_in (fields_of row.now) field }
{
    let Some(entries) = read_weights(text_at(row, (field - 1) as usize)) else {
        return Err(CaseCause::Field(field));
    };
    match Weights::of(entries) {
        Some(weights) => Ok(weights),
        None => Err(CaseCause::Field(field)),
    }
}
