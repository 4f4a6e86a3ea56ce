//! Reading a curve file.
ghost use Rattle.std.specs.Prelude.{◌≡◌, ◌<◌, ◌^◌, ◌+◌, OnOk, IfOk, IfErr};
ghost use Rattle.ltm_records.specs.Left.{records_of};
ghost use Rattle.ltm_curve.specs.Table.{SameShape};
ghost use Rattle.ltm_setting.specs.Setting.{setting_of};
ghost use Rattle.ltm_check.specs.Due.{record_count};
ghost use Rattle.ltm_check.specs.File.{AreRightBelow, IsCurveFile, told, told_by};
ghost use Rattle.ltm_check.specs.Faults.{IsFaultBelow, IsFault};
ghost use Rattle.ltm_check.specs.Kept.{Keeps};
ghost use Rattle.ltm_setting.specs.Places.{IsShapedFor};

use crate::due::record_count;
use crate::faults::{CurvesCause, CurvesFault};
use crate::record::{is_curves_header, read_record};
use csv::ByteRecord;
use ltm_curve::Curves;
use ltm_flows::fresh;
use ltm_records::Records;
use ltm_scenario::Scenario;
use ltm_setting::destination_count;
use std::alloc::Global;

/// Reads the records below the header into curves of the scenario's shape, up to the first that is wrong.
fn read_rows(
    scenario: &Scenario,
    curves: &mut Curves,
    records: &mut Records,
    row: &mut ByteRecord,
) -> Result<(), CurvesFault>
    requires shape { IsShapedFor scenario.now curves.old }
    ensures right { OnOk result (AreRightBelow scenario.now records.old (record_count scenario.now
        + 1)) }
    ensures keeps { OnOk result (Keeps (setting_of scenario.now)
        (told_by scenario.now records.old) curves.new) }
    ensures fault { IfErr result (IsFaultBelow scenario.now records.old) }
{
    let destinations = destination_count(scenario);
    let count = record_count(scenario);
    for place in 0..count {
        if !records.next(row)? {
            return Err(bad_at(place, CurvesCause::Rows));
        }
        let (group, destination) = (place / destinations, place % destinations);
        if let Some(cause) = read_record(scenario, curves, group, destination, row) {
            return Err(bad_at(place, cause));
        }
    }
    if records.next(row)? {
        return Err(bad_at(count, CurvesCause::Rows));
    }
    Ok(())
}

/// Something is wrong at a place below the header.
pub(crate) fn bad_at(place: u32, cause: CurvesCause) -> CurvesFault
    requires { place < 2 ^ 31 }
    ensures { result ≡ CurvesFault.Bad (place + 2) cause }
{
    CurvesFault::Bad {
        row: place + 2,
        cause,
    }
}

/// Reads a curve file of a scenario: the header `kind,name,destination,counts`, and below it a record for each group of
/// counts in order (`up` and `down` of each link, `dep` of each node, `arr`) and for each destination in order, with the
/// name of the link, node or destination, the destination's name, and a count of at most 2^48 thousandths of a vehicle for
/// each boundary, with one space between two. A count that curves do not hold is kept as the greatest that they do; no count
/// of a loading is as great.
pub fn read_curves(alloc: Global, scenario: &Scenario, bytes: &[u8]) -> Result<Curves, CurvesFault>
    ensures file { OnOk result (IsCurveFile scenario.now (records_of bytes.now)) }
    ensures keeps { IfOk result (Keeps (setting_of scenario.now)
        (told scenario.now (records_of bytes.now))) }
    ensures fault { IfErr result (IsFault scenario.now (records_of bytes.now)) }
{
    let mut records = Records::of(alloc, bytes);
    let mut row = ByteRecord::new(alloc);
    if !records.next(&mut row)? || !is_curves_header(&row) {
        return Err(CurvesFault::Bad {
            row: 1,
            cause: CurvesCause::Header,
        });
    }
    let mut curves = fresh(alloc, scenario)?;
    read_rows(scenario, &mut curves, &mut records, &mut row)?;
    Ok(curves)
}
