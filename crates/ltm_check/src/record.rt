//! A record of a curve file.
ghost use Rattle.std.specs.Prelude.{◌≡◌, ◌<◌, IsNone};
ghost use Rattle.csv.specs.Records.{fields_of};
ghost use Rattle.ltm_curve.specs.Table.{SameShape};
ghost use Rattle.ltm_check.specs.File.{is_curves_header, counts_in, fault_of, or_no_counts};
ghost use Rattle.ltm_check.specs.Kept.{PutsCounts};
ghost use Rattle.ltm_setting.specs.Places.{IsDestination, IsShapedFor, all_groups};

use crate::counts::read_counts;
use crate::due::{kind_of, name_of, name_of_destination};
use crate::faults::CurvesCause;
use csv::ByteRecord;
use ltm_curve::Curves;
use ltm_records::{has, text_at, width};
use ltm_scenario::Scenario;

/// Whether the record is `kind,name,destination,counts`.
pub(crate) fn is_curves_header(row: &ByteRecord) -> bool
    ensures { result ≡ is_curves_header (fields_of row.now) }
{
    width(row) == 4
        && has(row, 0, b"kind")
        && has(row, 1, b"name")
        && has(row, 2, b"destination")
        && has(row, 3, b"counts")
}

/// Reads the record of a group and a destination into the curves, or what is wrong with it first.
pub(crate) fn read_record(
    scenario: &Scenario,
    curves: &mut Curves,
    group: u32,
    destination: u32,
    row: &ByteRecord,
) -> Option<CurvesCause>
    requires shape { IsShapedFor scenario.now curves.old }
    requires group { group < all_groups scenario.now }
    requires destination { IsDestination scenario.now destination }
    ensures fault { result ≡ fault_of scenario.now group destination (fields_of row.now) }
    ensures puts { IsNone result
        → PutsCounts curves.old curves.new group destination
        (or_no_counts (counts_in scenario.now (fields_of row.now))) }
    ensures shape { SameShape curves.new curves.old }
{
    if width(row) != 4 {
        return Some(CurvesCause::Width);
    }
    if !has(row, 0, kind_of(scenario, group)) {
        return Some(CurvesCause::Field(1));
    }
    if !has(row, 1, name_of(scenario, group, destination).bytes()) {
        return Some(CurvesCause::Field(2));
    }
    if !has(row, 2, name_of_destination(scenario, destination).bytes()) {
        return Some(CurvesCause::Field(3));
    }
    if read_counts(curves, group, destination, text_at(row, 3)) {
        None
    } else {
        Some(CurvesCause::Field(4))
    }
}
