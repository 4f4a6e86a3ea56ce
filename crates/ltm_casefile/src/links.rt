//! Records of links.
ghost use Rattle.std.specs.Prelude.{◌≡◌, [], Ok, OnOk, IfErr};
ghost use Rattle.ltm_casefile.specs.Causes.{Tells};
ghost use Rattle.csv.specs.Records.{fields_of};
ghost use Rattle.ltm_casefile.specs.Links.{is_links_header, cause_of_link, with_link_record, link_record, link_added};

use crate::faults::{CaseCause, RecordFault};
use crate::fields::{check_width, read_name, read_number};
use csv::ByteRecord;
use ltm_diagram::Diagram;
use ltm_network::NetworkFault;
use ltm_records::{has, width};
use ltm_scenario::{LinkFault, Scenario};
use ltm_units::Name;

/// What a record of links says.
#[derive(Clone, Copy)]
pub struct LinkRecord {
    pub name: Name,
    pub tail: Name,
    pub head: Name,
    pub diagram: Diagram,
}

fn cause_of(fault: LinkFault) -> CaseCause
    ensures { result ≡ cause_of_link fault }
{
    match fault {
        LinkFault::Network(fault) => CaseCause::Network(fault),
        LinkFault::Diagram(fault) => CaseCause::Diagram(fault),
        LinkFault::NoMemory => CaseCause::Network(NetworkFault::NoMemory),
    }
}

/// How many fields a record has.
const WIDTH: usize = 7;

/// Whether the record is `link,from,to,length_m,free_kmh,wave_kmh,jam_per_km`.
pub fn is_links_header(row: &ByteRecord) -> bool
    ensures { result ≡ is_links_header (fields_of row.now) }
{
    width(row) == WIDTH
        && has(row, 0, b"link")
        && has(row, 1, b"from")
        && has(row, 2, b"to")
        && has(row, 3, b"length_m")
        && has(row, 4, b"free_kmh")
        && has(row, 5, b"wave_kmh")
        && has(row, 6, b"jam_per_km")
}

#[tactic(auto, unfolding(crate::specs::Links::link_record))]
fn read_link(row: &ByteRecord) -> Result<LinkRecord, CaseCause>
    ensures { result ≡ link_record (fields_of row.now) }
{
    check_width(row, WIDTH)?;
    let name = read_name(row, 1)?;
    let tail = read_name(row, 2)?;
    let head = read_name(row, 3)?;
    let diagram = Diagram {
        length_m: read_number(row, 4)?,
        free_kmh: read_number(row, 5)?,
        wave_kmh: read_number(row, 6)?,
        jam_per_km: read_number(row, 7)?,
    };
    Ok(LinkRecord {
        name,
        tail,
        head,
        diagram,
    })
}

fn join(scenario: &mut Scenario, link: &LinkRecord) -> Result<(), RecordFault>
    requires { scenario.old.splits ≡ [] }
    ensures ok { OnOk result (with_link_record scenario.old link.now ≡ Ok scenario.new) }
    ensures cause { IfErr result (Tells (with_link_record scenario.old link.now)) }
    ensures splits { scenario.new.splits ≡ [] }
{
    match scenario.add_link(link.name, link.tail, link.head, link.diagram) {
        Ok(_) => return Ok(()),
        Err(LinkFault::NoMemory) => return Err(RecordFault::NoMemory),
        Err(fault) => return Err(RecordFault::Cause(cause_of(fault))),
    }
}

/// Adds the link of a record to a scenario without split rows.
pub fn add_link(scenario: &mut Scenario, row: &ByteRecord) -> Result<(), RecordFault>
    requires { scenario.old.splits ≡ [] }
    ensures ok { OnOk result (link_added scenario.old (fields_of row.now) ≡ Ok scenario.new) }
    ensures cause { IfErr result (Tells (link_added scenario.old (fields_of row.now))) }
    ensures splits { scenario.new.splits ≡ [] }
{
    let link = read_link(row)?;
    join(scenario, &link)
}
