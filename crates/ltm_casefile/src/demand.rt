//! Records of demand.
ghost use Rattle.std.specs.Prelude.{◌≡◌, ◌<◌, ◌≤◌, ◌==◌, length, true, false, Some, Ok, OnOk, IfOk, IfErr};
ghost use Rattle.ltm_scenario.specs.Reads.{has_no_out_link, destination_of, destination_node};
ghost use Rattle.ltm_scenario.specs.Build.{with_destination, are_slots};
ghost use Rattle.ltm_casefile.specs.Causes.{taken, Tells};
ghost use Rattle.csv.specs.Records.{fields_of};
ghost use Rattle.ltm_casefile.specs.Demand.{is_demand_header, demand_record, pair_ends, demand_ends, place_of, with_demand_record, demand_added};
ghost use Rattle.ltm_casefile.specs.declared.faults.CaseCause.TheVariants.{TooManyDestinations};
ghost use Rattle.ltm_units.specs.Bounds.{most_amount};

use crate::faults::{CaseCause, RecordFault};
use crate::fields::{check_width, read_amount, read_name, read_number};
use csv::ByteRecord;
use ltm_demand::{DemandFault, DemandRow};
use ltm_records::{has, width};
use ltm_scenario::{DestinationFault, Scenario};
use ltm_units::{Name, NodeId, Units};

/// What a record of demand says.
#[derive(Clone, Copy)]
pub struct DemandRecord {
    pub origin: Name,
    pub destination: Name,
    /// The first slot.
    pub from: u32,
    /// The slot after the last.
    pub to: u32,
    /// Thousandths of a vehicle, at most 1,000,000,000.
    pub amount: Units,
}

/// How many fields a record has.
const WIDTH: usize = 5;

/// Whether the record is `origin,destination,from_slot,to_slot,vehicles`.
pub fn is_demand_header(row: &ByteRecord) -> bool
    ensures { result ≡ is_demand_header (fields_of row.now) }
{
    width(row) == WIDTH
        && has(row, 0, b"origin")
        && has(row, 1, b"destination")
        && has(row, 2, b"from_slot")
        && has(row, 3, b"to_slot")
        && has(row, 4, b"vehicles")
}

#[tactic(auto, unfolding(crate::specs::Demand::demand_record))]
fn read_demand(row: &ByteRecord) -> Result<DemandRecord, CaseCause>
    ensures record { result ≡ demand_record (fields_of row.now) }
    ensures small { IfOk result (λ r. r.amount.0 ≤ most_amount) }
{
    check_width(row, WIDTH)?;
    let origin = read_name(row, 1)?;
    let destination = read_name(row, 2)?;
    let from = read_number(row, 3)?;
    let to = read_number(row, 4)?;
    let amount = read_amount(row, 5)?;
    Ok(DemandRecord {
        origin,
        destination,
        from,
        to,
        amount,
    })
}

/// An origin and a destination, both nodes.
#[tactic(auto, unfolding(crate::specs::Demand::pair_ends))]
pub fn find_pair(scenario: &Scenario, from: &Name, to: &Name) -> Result<(NodeId, NodeId), CaseCause>
    ensures ok { IfOk result (λ ends. pair_ends scenario.now from.now to.now
        ≡ Ok (ends.0.0, ends.1.0)) }
    ensures cause { IfErr result (λ e. pair_ends scenario.now from.now to.now ≡ Err e) }
    ensures origin { IfOk result (λ ends. ends.0.0 < length scenario.now.network.nodes) }
    ensures out { IfOk result (λ ends. has_no_out_link scenario.now ends.0.0 ≡ false) }
    ensures destination { IfOk result (λ ends. ends.1.0 < length scenario.now.network.nodes) }
    ensures apart { IfOk result (λ ends. (ends.0.0 == ends.1.0) ≡ false) }
{
    let network = scenario.network();
    let Some(origin) = network.find_node(from) else {
        return Err(CaseCause::Unknown(1));
    };
    let Some(end) = network.find_node(to) else {
        return Err(CaseCause::Unknown(2));
    };
    if scenario.has_no_out_link(origin) {
        return Err(CaseCause::NoOrigin);
    }
    if origin.0 == end.0 {
        return Err(CaseCause::SameEnds);
    }
    Ok((origin, end))
}

/// Those of a record, whose slots are within the horizon.
fn find_ends(scenario: &Scenario, row: &DemandRecord) -> Result<(NodeId, NodeId), CaseCause>
    ensures ok { IfOk result (λ ends. demand_ends scenario.now row.now ≡ Ok (ends.0.0, ends.1.0)) }
    ensures cause { IfErr result (λ e. demand_ends scenario.now row.now ≡ Err e) }
    ensures origin { IfOk result (λ ends. ends.0.0 < length scenario.now.network.nodes) }
    ensures out { IfOk result (λ ends. has_no_out_link scenario.now ends.0.0 ≡ false) }
    ensures destination { IfOk result (λ ends. ends.1.0 < length scenario.now.network.nodes) }
    ensures apart { IfOk result (λ ends. (ends.0.0 == ends.1.0) ≡ false) }
    ensures slots { OnOk result (are_slots scenario.now row.now.from row.now.to ≡ true) }
{
    let ends = find_pair(scenario, &row.origin, &row.destination)?;
    if !scenario.are_slots(row.from, row.to) {
        return Err(CaseCause::BadSlots);
    }
    Ok(ends)
}

/// The place of the node among the destinations, a new last one where it had none.
pub fn add_destination(scenario: &mut Scenario, node: NodeId) -> Result<u32, RecordFault>
    requires { node.0 < length scenario.old.network.nodes }
    ensures ok { OnOk result (with_destination scenario.old node.0 ≡ Ok scenario.new) }
    ensures cause { IfErr result (Tells (taken
        (with_destination scenario.old node.0) TooManyDestinations)) }
    ensures place { IfOk result (λ place. place_of scenario.new node.0 ≡ place) }
    ensures there { IfOk result (λ place. place < length scenario.new.destinations) }
    ensures node { IfOk result (λ place. destination_node scenario.new place ≡ node.0) }
    ensures network { scenario.new.network ≡ scenario.old.network }
    ensures setup { scenario.new.setup ≡ scenario.old.setup }
{
    match scenario.add_destination(node) {
        Ok(place) => return Ok(place),
        Err(DestinationFault::NoMemory) => return Err(RecordFault::NoMemory),
        Err(DestinationFault::TooMany) => return Err(RecordFault::Cause(
            CaseCause::TooManyDestinations,
        )),
    }
}

fn set_demand(scenario: &mut Scenario, row: &DemandRecord) -> Result<(), RecordFault>
    requires { row.now.amount.0 ≤ most_amount }
    ensures ok { OnOk result (with_demand_record scenario.old row.now ≡ Ok scenario.new) }
    ensures cause { IfErr result (Tells (with_demand_record scenario.old row.now)) }
{
    let (origin, end) = find_ends(scenario, row)?;
    let destination = add_destination(scenario, end)?;
    let set = scenario.set_demand(DemandRow {
        origin,
        destination,
        from: row.from,
        to: row.to,
        amount: row.amount,
    });
    match set {
        Ok(()) => return Ok(()),
        Err(DemandFault::NoMemory) => return Err(RecordFault::NoMemory),
        Err(_) => return Err(RecordFault::Cause(CaseCause::TooManyRows)),
    }
}

/// Sets the demand row of a record, and makes its destination one.
pub fn add_demand(scenario: &mut Scenario, row: &ByteRecord) -> Result<(), RecordFault>
    ensures ok { OnOk result (demand_added scenario.old (fields_of row.now) ≡ Ok scenario.new) }
    ensures cause { IfErr result (Tells (demand_added scenario.old (fields_of row.now))) }
{
    let record = read_demand(row)?;
    set_demand(scenario, &record)
}
