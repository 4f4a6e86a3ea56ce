//! Reading a piece of a curve file.
ghost use Rattle.std.specs.Prelude.{◌≡◌, ◌<◌, ◌≤◌, ◌+◌, ◌++◌, List, true, false, drop, Some, OnOk, IfOk, IfErr};
ghost use Rattle.std.specs.Prelude.{slice_get};
ghost use Rattle.csv.specs.Records.{fields_of};
ghost use Rattle.ltm_records.specs.Fields.{Fields};
ghost use Rattle.ltm_records.specs.Left.{records_of};
ghost use Rattle.ltm_check.specs.Due.{record_count};
ghost use Rattle.ltm_check.specs.Faults.{IsFault};
ghost use Rattle.ltm_check.specs.File.{is_curves_header};
ghost use Rattle.ltm_check.specs.Pieces.{IsReadTo};
ghost use Rattle.ltm_setting.specs.Places.{IsShapedFor};

use crate::due::record_count;
use crate::faults::{CurvesCause, CurvesFault};
use crate::read::bad_at;
use crate::record::{is_curves_header, read_record};
use csv::ByteRecord;
use ltm_curve::Curves;
use ltm_records::Records;
use ltm_scenario::Scenario;
use ltm_setting::destination_count;
use std::alloc::Global;

/// Whether the first record is the header.
fn read_header(row: &ByteRecord) -> Result<(), CurvesFault>
    ensures right { OnOk result (is_curves_header (fields_of row.now) ≡ true) }
    ensures fault { IfErr result (λ e. (is_curves_header (fields_of row.now) ≡ false)
        × (e ≡ CurvesFault.Bad 1 CurvesCause.Header)) }
{
    if is_curves_header(row) {
        return Ok(());
    }
    Err(CurvesFault::Bad {
        row: 1,
        cause: CurvesCause::Header,
    })
}

/// Reads the record at a place below the header into the curves.
fn read_below(
    scenario: &Scenario,
    curves: &mut Curves,
    place: u32,
    row: &ByteRecord,
) -> Result<(), CurvesFault>
    requires shape { IsShapedFor scenario.now curves.old }
    requires place { place < record_count scenario.now }
    ensures shape { IsShapedFor scenario.now curves.new }
    ensures right { OnOk result ((records : List Fields)
        → IsReadTo scenario.now records curves.old (place + 1)
        → slice_get records (place + 1) ≡ Some (fields_of row.now)
        → IsReadTo scenario.now records curves.new (place + 2)) }
    ensures fault { IfErr result (λ e. (records : List Fields)
        → IsReadTo scenario.now records curves.old (place + 1)
        → slice_get records (place + 1) ≡ Some (fields_of row.now)
        → IsFault scenario.now records e) }
{
    let _count = record_count(scenario);
    let destinations = destination_count(scenario);
    let (group, destination) = (place / destinations, place % destinations);
    match read_record(scenario, curves, group, destination, row) {
        Some(cause) => Err(bad_at(place, cause)),
        None => Ok(()),
    }
}

/// Reads the header, which is record 0, or a record below it into the curves.
fn read_next(
    scenario: &Scenario,
    curves: &mut Curves,
    next: u32,
    row: &ByteRecord,
) -> Result<(), CurvesFault>
    requires shape { IsShapedFor scenario.now curves.old }
    requires next { next ≤ record_count scenario.now }
    ensures shape { IsShapedFor scenario.now curves.new }
    ensures right { OnOk result ((records : List Fields)
        → IsReadTo scenario.now records curves.old next
        → slice_get records next ≡ Some (fields_of row.now)
        → IsReadTo scenario.now records curves.new (next + 1)) }
    ensures fault { IfErr result (λ e. (records : List Fields)
        → IsReadTo scenario.now records curves.old next
        → slice_get records next ≡ Some (fields_of row.now) → IsFault scenario.now records e) }
{
    if next == 0 {
        return read_header(row);
    }
    read_below(scenario, curves, next - 1, row)
}

/// Reads the records of a piece of a file into the curves, where so many came before it, up to the first that is wrong. How many
/// records there are then.
pub(crate) fn read_piece(
    alloc: Global,
    scenario: &Scenario,
    curves: &mut Curves,
    next: u32,
    piece: &[u8],
) -> Result<u32, CurvesFault>
    requires shape { IsShapedFor scenario.now curves.old }
    requires next { next ≤ record_count scenario.now + 1 }
    ensures shape { IsShapedFor scenario.now curves.new }
    ensures few { IfOk result (λ n. n ≤ record_count scenario.now + 1) }
    ensures right { IfOk result (λ n. (records rest : List Fields)
        → IsReadTo scenario.now records curves.old next
        → drop next records ≡ records_of piece.now ++ rest
        → IsReadTo scenario.now records curves.new n × (drop n records ≡ rest)) }
    ensures fault { IfErr result (λ e. (records rest : List Fields)
        → IsReadTo scenario.now records curves.old next
        → drop next records ≡ records_of piece.now ++ rest → IsFault scenario.now records e) }
{
    let count = record_count(scenario);
    let mut records = Records::of(alloc, piece);
    let mut row = ByteRecord::new(alloc);
    for index in next..count + 1 {
        if !records.next(&mut row)? {
            return Ok(index);
        }
        if let Err(fault) = read_next(scenario, curves, index, &row) {
            return Err(fault);
        }
    }
    if records.next(&mut row)? {
        return Err(bad_at(count, CurvesCause::Rows));
    }
    Ok(count + 1)
}
