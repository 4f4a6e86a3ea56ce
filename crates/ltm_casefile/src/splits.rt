//! Records of splits.
ghost use Rattle.std.specs.Prelude.{◌≡◌, ◌<◌, ◌==◌, sum, length, false, Ok, OnOk, IfOk, IfErr};
ghost use Rattle.std.specs.List.{list_all};
ghost use Rattle.ltm_network.specs.Network.{out_links};
ghost use Rattle.ltm_scenario.specs.Edits.{is_out_link, weight_of, weights_at};
ghost use Rattle.ltm_casefile.specs.Causes.{Tells};
ghost use Rattle.csv.specs.Records.{fields_of};
ghost use Rattle.ltm_casefile.specs.Splits.{is_splits_header, split_record, split_ends, with_split_record, split_added};

use crate::demand::add_destination;
use crate::faults::{CaseCause, RecordFault};
use crate::fields::{check_width, read_name, read_number, read_split_weights};
use csv::ByteRecord;
use ltm_records::{has, width};
use ltm_scenario::{Scenario, Weights};
use ltm_splits::SplitFault;
use ltm_units::{Name, NoMemory, NodeId};

/// What a record of splits says.
#[derive(Clone, Copy)]
pub struct SplitRecord {
    pub node: Name,
    pub destination: Name,
    /// The first slot in which the row may be in force.
    pub from: u32,
    pub weights: Weights,
}

/// How many fields a record has.
const WIDTH: usize = 4;

/// Whether the record is `node,destination,from_slot,weights`.
pub fn is_splits_header(row: &ByteRecord) -> bool
    ensures { result ≡ is_splits_header (fields_of row.now) }
{
    width(row) == WIDTH
        && has(row, 0, b"node")
        && has(row, 1, b"destination")
        && has(row, 2, b"from_slot")
        && has(row, 3, b"weights")
}

#[tactic(auto, unfolding(crate::specs::Splits::split_record))]
fn read_split(row: &ByteRecord) -> Result<SplitRecord, CaseCause>
    ensures { result ≡ split_record (fields_of row.now) }
{
    check_width(row, WIDTH)?;
    let node = read_name(row, 1)?;
    let destination = read_name(row, 2)?;
    let from = read_number(row, 3)?;
    let weights = read_split_weights(row, 4)?;
    Ok(SplitRecord {
        node,
        destination,
        from,
        weights,
    })
}

/// Whether all weights are those of out-links of the node.
fn are_out_links(scenario: &Scenario, node: NodeId, weights: &Weights) -> bool
    ensures { result ≡ list_all (λ w. is_out_link scenario.now node.0 w.0) weights.now }
{
    scenario.are_out_links(node, weights.pairs())
}

/// The node and the destination, both nodes.
#[tactic(auto, unfolding(crate::specs::Splits::split_ends))]
fn find_ends(scenario: &Scenario, row: &SplitRecord) -> Result<(NodeId, NodeId), CaseCause>
    ensures ok { IfOk result (λ ends. split_ends scenario.now row.now ≡ Ok (ends.0.0, ends.1.0)) }
    ensures cause { IfErr result (λ e. split_ends scenario.now row.now ≡ Err e) }
    ensures node { IfOk result (λ ends. ends.0.0 < length scenario.now.network.nodes) }
    ensures destination { IfOk result (λ ends. ends.1.0 < length scenario.now.network.nodes) }
    ensures apart { IfOk result (λ ends. (ends.0.0 == ends.1.0) ≡ false) }
{
    let network = scenario.network();
    let Some(node) = network.find_node(&row.node) else {
        return Err(CaseCause::Unknown(1));
    };
    let Some(end) = network.find_node(&row.destination) else {
        return Err(CaseCause::Unknown(2));
    };
    if node.0 == end.0 {
        return Err(CaseCause::SameEnds);
    }
    if row.from >= scenario.setup().slots {
        return Err(CaseCause::BadSlots);
    }
    if !are_out_links(scenario, node, &row.weights) {
        return Err(CaseCause::Unknown(4));
    }
    Ok((node, end))
}

fn set_split(scenario: &mut Scenario, row: &SplitRecord) -> Result<(), RecordFault>
    ensures ok { OnOk result (with_split_record scenario.old row.now ≡ Ok scenario.new) }
    ensures cause { IfErr result (Tells (with_split_record scenario.old row.now)) }
{
    let (node, end) = find_ends(scenario, row)?;
    let Some(weights) = scenario.weights_at(node, row.weights.pairs()) else {
        return Err(RecordFault::Cause(CaseCause::ZeroWeight));
    };
    let destination = add_destination(scenario, end)?;
    match scenario.set_split(node, destination, row.from, weights.as_slice()) {
        Ok(()) => return Ok(()),
        Err(SplitFault::NoMemory) => return Err(RecordFault::NoMemory),
        Err(_) => return Err(RecordFault::Cause(CaseCause::TooManyRows)),
    }
}

/// Sets the split row of a record, and makes its destination one.
pub fn add_split(scenario: &mut Scenario, row: &ByteRecord) -> Result<(), RecordFault>
    ensures ok { OnOk result (split_added scenario.old (fields_of row.now) ≡ Ok scenario.new) }
    ensures cause { IfErr result (Tells (split_added scenario.old (fields_of row.now))) }
{
    let split = read_split(row)?;
    set_split(scenario, &split)
}
