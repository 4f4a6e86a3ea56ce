//! Records of signals, which are exit limits, and of entry limits.
ghost use Rattle.std.specs.Prelude.{◌≡◌, Ok, OnOk, IfErr};
ghost use Rattle.ltm_casefile.specs.Causes.{Tells};
ghost use Rattle.csv.specs.Records.{fields_of};
ghost use Rattle.ltm_casefile.specs.SideLimits.{is_limits_header, limit_record, with_limit_record, limit_added};

use crate::faults::{CaseCause, RecordFault};
use crate::fields::{check_width, read_amount, read_name, read_number};
use csv::ByteRecord;
use ltm_demand::DemandFault;
use ltm_records::{has, width};
use ltm_scenario::{Scenario, Side};
use ltm_units::{Name, Units};

/// What a record of limits says, at whichever side of the link.
#[derive(Clone, Copy)]
pub struct LimitRecord {
    pub link: Name,
    /// The first slot.
    pub from: u32,
    /// The slot after the last.
    pub to: u32,
    /// Thousandths of a vehicle.
    pub amount: Units,
}

/// How many fields a record has.
const WIDTH: usize = 4;

/// Whether the record is `link,from_slot,to_slot,vehicles`.
pub fn is_limits_header(row: &ByteRecord) -> bool
    ensures { result ≡ is_limits_header (fields_of row.now) }
{
    width(row) == WIDTH
        && has(row, 0, b"link")
        && has(row, 1, b"from_slot")
        && has(row, 2, b"to_slot")
        && has(row, 3, b"vehicles")
}

#[tactic(auto, unfolding(crate::specs::SideLimits::limit_record))]
fn read_limit(row: &ByteRecord) -> Result<LimitRecord, CaseCause>
    ensures { result ≡ limit_record (fields_of row.now) }
{
    check_width(row, WIDTH)?;
    let link = read_name(row, 1)?;
    let from = read_number(row, 2)?;
    let to = read_number(row, 3)?;
    let amount = read_amount(row, 4)?;
    Ok(LimitRecord {
        link,
        from,
        to,
        amount,
    })
}

fn set_limit(scenario: &mut Scenario, side: Side, limit: &LimitRecord) -> Result<(), RecordFault>
    ensures ok { OnOk result (with_limit_record side scenario.old limit.now ≡ Ok scenario.new) }
    ensures cause { IfErr result (Tells (with_limit_record side scenario.old limit.now)) }
{
    let Some(link) = scenario.network().find_link(&limit.link) else {
        return Err(RecordFault::Cause(CaseCause::Unknown(1)));
    };
    match scenario.set_limit(side, link, limit.from, limit.to, limit.amount) {
        Ok(()) => return Ok(()),
        Err(DemandFault::NoMemory) => return Err(RecordFault::NoMemory),
        Err(_) => return Err(RecordFault::Cause(CaseCause::BadSlots)),
    }
}

/// Sets the limit of a record at that side of its link.
pub fn add_limit(scenario: &mut Scenario, side: Side, row: &ByteRecord) -> Result<(), RecordFault>
    ensures ok { OnOk result (limit_added side scenario.old (fields_of row.now) ≡ Ok scenario.new) }
    ensures cause { IfErr result (Tells (limit_added side scenario.old (fields_of row.now))) }
{
    let limit = read_limit(row)?;
    set_limit(scenario, side, &limit)
}
