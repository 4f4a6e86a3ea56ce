//! Records of a matrix, each split over the slices of a profile.
ghost use Rattle.std.specs.Prelude.{◌≡◌, ◌≢◌, ◌≤◌, length, Ok, Err, IfOk, IfErr, OnOk};
ghost use Rattle.csv.specs.Records.{fields_of};
ghost use Rattle.ltm_records.specs.Left.{records_of};
ghost use Rattle.ltm_units.specs.Bounds.{most_amount};
ghost use Rattle.ltm_scenario.specs.Build.{with_demand};
ghost use Rattle.ltm_scenario.specs.IsScenario.{IsDemandOf};
ghost use Rattle.ltm_demand.specs.declared.row.DemandFault.{DemandFault};
ghost use Rattle.ltm_casefile.specs.Causes.{Tells, taken};
ghost use Rattle.ltm_casefile.specs.Faults.{Says};
ghost use Rattle.ltm_casefile.specs.Folder.{longest_large_file};
ghost use Rattle.ltm_casefile.specs.Matrix.{is_matrix_header, is_matrix, matrix_record, part_of, given, slice_row, slices_set, whole_row, with_matrix_record, matrix_row_added, matrix_added};
ghost use Rattle.ltm_casefile.specs.Profile.{AreSlices, IsSlice, most_shares};
ghost use Rattle.ltm_casefile.specs.Rows.{rows_from};
ghost use Rattle.ltm_casefile.specs.declared.faults.CaseCause.TheVariants.{TooManyRows};
ghost use Rattle.ltm_casefile.specs.declared.faults.File.TheVariants as file;

use crate::demand::{add_destination, find_pair};
use crate::faults::{CaseCause, CaseFault, File, RecordFault};
use crate::fields::{check_width, read_amount, read_name};
use crate::profile::{Profile, Slice};
use crate::texts::FileText;
use csv::ByteRecord;
use ltm_demand::{DemandFault, DemandRow};
use ltm_records::{Records, has, width};
use ltm_scenario::Scenario;
use ltm_units::{Name, NoMemory, Units};
use std::alloc::Global;

/// What a record of a matrix says.
#[derive(Clone, Copy)]
pub struct MatrixRecord {
    pub origin: Name,
    pub destination: Name,
    /// Thousandths of a vehicle, at most 1,000,000,000.
    pub amount: Units,
}

/// How many fields a record has.
const WIDTH: usize = 3;

/// Whether the record is `origin,destination,vehicles`.
pub fn is_matrix_header(row: &ByteRecord) -> bool
    ensures { result ≡ is_matrix_header (fields_of row.now) }
{
    width(row) == WIDTH
        && has(row, 0, b"origin")
        && has(row, 1, b"destination")
        && has(row, 2, b"vehicles")
}

/// Whether the demand is a matrix: its header alone is read.
pub fn has_matrix(alloc: Global, text: &[u8]) -> Result<bool, NoMemory>
    ensures { IfOk result (λ has. has ≡ is_matrix text.now) }
{
    let mut records = Records::of(alloc, text);
    let mut row = ByteRecord::new(alloc);
    if !records.next(&mut row)? {
        return Ok(false);
    }
    Ok(is_matrix_header(&row))
}

#[tactic(auto, unfolding(crate::specs::Matrix::matrix_record))]
fn read_record(row: &ByteRecord) -> Result<MatrixRecord, CaseCause>
    ensures record { result ≡ matrix_record (fields_of row.now) }
    ensures small { IfOk result (λ r. r.amount.0 ≤ most_amount) }
{
    check_width(row, WIDTH)?;
    let origin = read_name(row, 1)?;
    let destination = read_name(row, 2)?;
    let amount = read_amount(row, 3)?;
    Ok(MatrixRecord {
        origin,
        destination,
        amount,
    })
}

/// What the slices get whose shares come to this, in whole thousandths.
fn given(total: u64, amount: u64, shares: u64) -> u64
    requires some { 1 ≤ total }
    requires amount { amount ≤ most_amount }
    requires shares { shares ≤ total }
    requires small { total ≤ most_shares }
    ensures given { result ≡ given total amount shares }
    ensures small { result ≤ amount }
{
    amount * shares / total
}

/// The row of a slice: what the slices up to it get, less what those before it get.
fn row_of(total: u64, row: &DemandRow, slice: &Slice) -> DemandRow
    requires some { 1 ≤ total }
    requires amount { row.now.amount.0 ≤ most_amount }
    requires slice { IsSlice total slice.now }
    requires small { total ≤ most_shares }
    ensures row { result ≡ slice_row total row.now slice.now }
    ensures small { result.amount.0 ≤ most_amount }
{
    let before = given(total, row.amount.0, slice.before);
    let up_to = given(total, row.amount.0, slice.up_to);
    DemandRow {
        origin: row.origin,
        destination: row.destination,
        from: slice.from,
        to: slice.to,
        amount: Units(up_to - before),
    }
}

/// Sets a row for each slice, of one that holds all that is split.
fn set_slices(
    scenario: &mut Scenario,
    profile: &Profile,
    row: &DemandRow,
) -> Result<(), DemandFault>
    requires some { 1 ≤ profile.now.total }
    requires amount { row.now.amount.0 ≤ most_amount }
    requires row { IsDemandOf scenario.old row.now }
    ensures ok { OnOk result (slices_set profile.now.total row.now scenario.old profile.now.slices
        ≡ Ok scenario.new) }
    ensures cause { IfErr result (λ e. e ≢ DemandFault.NoMemory
        → slices_set profile.now.total row.now scenario.old profile.now.slices ≡ Err e) }
{
    let total = profile.total();
    'slices: for slice in profile.slices() {
        match scenario.set_demand(row_of(total, row, slice)) {
            Ok(()) => {}
            Err(fault) => return Err(fault),
        }
    }
    Ok(())
}

fn set_record(
    scenario: &mut Scenario,
    profile: &Profile,
    said: &MatrixRecord,
) -> Result<(), RecordFault>
    requires some { 1 ≤ profile.now.total }
    requires amount { said.now.amount.0 ≤ most_amount }
    ensures ok { OnOk result (with_matrix_record profile.now scenario.old said.now
        ≡ Ok scenario.new) }
    ensures cause { IfErr result (Tells (with_matrix_record profile.now scenario.old said.now)) }
{
    let (origin, end) = find_pair(scenario, &said.origin, &said.destination)?;
    let destination = add_destination(scenario, end)?;
    let whole = DemandRow {
        origin,
        destination,
        from: 0,
        to: 0,
        amount: said.amount,
    };
    match set_slices(scenario, profile, &whole) {
        Ok(()) => return Ok(()),
        Err(DemandFault::NoMemory) => return Err(RecordFault::NoMemory),
        Err(_) => return Err(RecordFault::Cause(CaseCause::TooManyRows)),
    }
}

/// Sets the rows of a record, and makes its destination one.
fn add_record(
    scenario: &mut Scenario,
    profile: &Profile,
    row: &ByteRecord,
) -> Result<(), RecordFault>
    requires { 1 ≤ profile.now.total }
    ensures ok { OnOk result (matrix_row_added profile.now scenario.old (fields_of row.now)
        ≡ Ok scenario.new) }
    ensures cause { IfErr result (Tells
        (matrix_row_added profile.now scenario.old (fields_of row.now))) }
{
    let said = read_record(row)?;
    set_record(scenario, profile, &said)
}

/// Adds the records that are left, the first of which is in row 2.
fn add_records(
    scenario: &mut Scenario,
    profile: &Profile,
    records: &mut Records,
    row: &mut ByteRecord,
) -> Result<(), CaseFault>
    requires some { 1 ≤ profile.now.total }
    requires few { length records.old ≤ longest_large_file }
    ensures ok { OnOk result (rows_from file.Demand (matrix_row_added profile.now) 2 scenario.old
        records.old ≡ Ok scenario.new) }
    ensures fault { IfErr result (Says (rows_from file.Demand (matrix_row_added profile.now) 2
        scenario.old records.old)) }
{
    let mut number = 2;
    'rows: while records.next(row)? {
        match add_record(scenario, profile, row) {
            Ok(()) => {}
            Err(RecordFault::NoMemory) => return Err(CaseFault::NoMemory),
            Err(RecordFault::Cause(cause)) => return Err(bad(number, cause)),
        }
        number += 1;
    }
    Ok(())
}

fn bad(row: u32, cause: CaseCause) -> CaseFault
    ensures { result ≡ CaseFault.Bad File.Demand row cause }
{
    CaseFault::Bad {
        file: File::Demand,
        row,
        cause,
    }
}

/// Adds the demand of a matrix to the scenario.
#[tactic(auto, unfolding(crate::specs::Matrix::matrix_added))]
pub fn add_matrix(
    alloc: Global,
    scenario: &mut Scenario,
    profile: &Profile,
    text: &FileText,
) -> Result<(), CaseFault>
    requires { 1 ≤ profile.now.total }
    ensures ok { OnOk result (matrix_added profile.now scenario.old (records_of text.now)
        ≡ Ok scenario.new) }
    ensures fault { IfErr result (Says (matrix_added profile.now scenario.old (records_of text.now))) }
{
    let mut records = Records::of(alloc, text.bytes());
    let mut row = ByteRecord::new(alloc);
    if !records.next(&mut row)? || !is_matrix_header(&row) {
        return Err(bad(1, CaseCause::Header));
    }
    add_records(scenario, profile, &mut records, &mut row)
}
