//! The loading of a made case of 400 nodes, checked as it is, and once it was written and read; and written to a sink that fails.
use ltm_check::{Checked, check_curves, read_curves, write_curves};
use ltm_check_command::write_loading;
use ltm_flows::cold;
use ltm_io::{MemSink, SinkError};
use ltm_make::make_case;
use ltm_scenario::Scenario;
use std::alloc::Global;
use std::test::Fail;

/// What is said of the loading of a scenario, and of the curves that its text tells.
fn said(alloc: Global, scenario: &Scenario) -> Option<[Checked; 2]> {
    let Ok(curves) = cold(alloc, scenario) else {
        return None;
    };
    let Ok(mut sink) = MemSink::create(alloc, u32::MAX, &[]) else {
        return None;
    };
    if write_curves(alloc, scenario, &curves, &mut sink).is_err() {
        return None;
    }
    let Ok(read) = read_curves(alloc, scenario, sink.written()) else {
        return None;
    };
    let Ok(first) = check_curves(alloc, scenario, &curves) else {
        return None;
    };
    let Ok(second) = check_curves(alloc, scenario, &read) else {
        return None;
    };
    Some([first, second])
}

/// The same of the case of two numbers.
fn said_of_made(alloc: Global, start: u64, nodes: u32) -> Option<[Checked; 2]> {
    match make_case(alloc, start, nodes) {
        Ok(made) => said(alloc, &made.scenario),
        Err(_) => None,
    }
}

#[test]
fn loading_of_a_made_case_is_one(rt: HostRuntime) {
    assert!(rt; said_of_made(rt.alloc(), 7, 400) == Some([Checked::Yes, Checked::Yes]));
}

/// Whether the loading is written in pieces of 64 KiB and no more than a record, of which the first alone is there where the second
/// write fails.
fn is_cut(alloc: Global, scenario: &Scenario, whole: &mut MemSink, cut: &mut MemSink) -> bool {
    let all = write_loading(alloc, scenario, whole);
    let failed = write_loading(alloc, scenario, cut);
    let (text, front) = (whole.written(), cut.written());
    let is_piece = front.len() >= 65_536 && front.len() < 131_072 && front.len() < text.len();
    all.is_ok() && failed == Err(SinkError::WriteFault) && is_piece && text.starts_with(front)
}

#[test]
fn a_piece_is_there_where_the_second_fails(rt: HostRuntime) -> Result<(), Fail> {
    let made = make_case(rt.alloc(), 7, 400)?;
    let mut whole = MemSink::create(rt.alloc(), u32::MAX, &[])?;
    let mut cut = MemSink::create(rt.alloc(), u32::MAX, &[2])?;
    assert!(rt; is_cut(rt.alloc(), &made.scenario, &mut whole, &mut cut));
    Ok(())
}
