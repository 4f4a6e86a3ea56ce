//! The lines of routes: a record of `splits.csv` for each, and its time.
ghost use Rattle.std.specs.Prelude.{◌≡◌, ◌++◌, OnOk, OnErr};
ghost use Rattle.ltm_report.specs.Routes.{splits_header_line, entry_piece, further_entries, entries, key_piece, route_row_line, ends_piece, route_time_piece, route_time_line};

use crate::pieces::push_newline;
use ltm_units::{Millis, Name, NoMemory, push_number, push_text};
use std::alloc::Global;

/// Appends the header of `splits.csv`.
#[tactic(auto, unfolding(crate::specs::Routes::splits_header_line))]
pub fn splits_header_text(into: &mut Vec<u8>) -> Result<(), NoMemory>
    ensures ok { OnOk result (into.new.items ≡ into.old.items ++ splits_header_line) }
    ensures err { OnErr result (into.new.items ≡ into.old.items) }
{
    push_text(into, b"node,destination,from_slot,weights\n")
}

#[tactic(auto, unfolding(crate::specs::Routes::entry_piece))]
fn push_entry(into: &mut Vec<u8>, link: &Name) -> Result<(), NoMemory>
    ensures { OnOk result (into.new.items ≡ into.old.items ++ entry_piece link.now) }
{
    push_text(into, link.bytes())?;
    push_text(into, b"=1")
}

fn push_further_entries(into: &mut Vec<u8>, links: &[Name]) -> Result<(), NoMemory>
    ensures { OnOk result (into.new.items ≡ into.old.items ++ further_entries links.now) }
{
    match links {
        [] => Ok(()),
        [link, links @ ..] => {
            push_text(into, b" ")?;
            push_entry(into, link)?;
            push_further_entries(into, links)
        }
    }
}

fn push_entries(into: &mut Vec<u8>, links: &[Name]) -> Result<(), NoMemory>
    ensures { OnOk result (into.new.items ≡ into.old.items ++ entries links.now) }
{
    match links {
        [] => Ok(()),
        [link, links @ ..] => {
            push_entry(into, link)?;
            push_further_entries(into, links)
        }
    }
}

#[tactic(auto, unfolding(crate::specs::Routes::key_piece))]
fn push_key(into: &mut Vec<u8>, node: &Name, destination: &Name) -> Result<(), NoMemory>
    ensures { OnOk result (into.new.items ≡ into.old.items ++ key_piece node.now destination.now) }
{
    push_text(into, node.bytes())?;
    push_text(into, b",")?;
    push_text(into, destination.bytes())?;
    push_text(into, b",0,")
}

/// Appends the split row of a node that sends equal parts over these links to a destination from the first slot on, as
/// `n1,n2,0,a=1 c=1`.
#[tactic(auto, unfolding(crate::specs::Routes::route_row_line))]
pub fn route_row_text(
    alloc: Global,
    node: &Name,
    destination: &Name,
    links: &[Name],
    into: &mut Vec<u8>,
) -> Result<(), NoMemory>
    ensures ok { OnOk result (into.new.items
        ≡ into.old.items ++ route_row_line node.now destination.now links.now) }
    ensures err { OnErr result (into.new.items ≡ into.old.items) }
{
    let mut line = Vec::new(alloc);
    push_key(&mut line, node, destination)?;
    push_entries(&mut line, links)?;
    push_newline(&mut line)?;
    push_text(into, line.as_slice())
}

#[tactic(auto, unfolding(crate::specs::Routes::ends_piece))]
fn push_ends(into: &mut Vec<u8>, node: &Name, destination: &Name) -> Result<(), NoMemory>
    ensures { OnOk result (into.new.items ≡ into.old.items ++ ends_piece node.now destination.now) }
{
    push_text(into, b"from ")?;
    push_text(into, node.bytes())?;
    push_text(into, b" to ")?;
    push_text(into, destination.bytes())
}

#[tactic(auto, unfolding(crate::specs::Routes::route_time_piece))]
fn push_route_time(into: &mut Vec<u8>, time: Millis) -> Result<(), NoMemory>
    ensures { OnOk result (into.new.items ≡ into.old.items ++ route_time_piece time.0) }
{
    push_number(into, b" time ", u128::from(time.0))
}

/// Appends the least time from a node to a destination in milliseconds, as `from n1 to n2 time 2000`.
#[tactic(auto, unfolding(crate::specs::Routes::route_time_line))]
pub fn route_time_text(
    alloc: Global,
    node: &Name,
    destination: &Name,
    time: Millis,
    into: &mut Vec<u8>,
) -> Result<(), NoMemory>
    ensures ok { OnOk result (into.new.items
        ≡ into.old.items ++ route_time_line node.now destination.now time.0) }
    ensures err { OnErr result (into.new.items ≡ into.old.items) }
{
    let mut line = Vec::new(alloc);
    push_ends(&mut line, node, destination)?;
    push_route_time(&mut line, time)?;
    push_newline(&mut line)?;
    push_text(into, line.as_slice())
}
