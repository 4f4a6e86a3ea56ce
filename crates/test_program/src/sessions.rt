//! Sessions of a small case: what is written under each status. Values by hand.
use crate::cases::{DEMAND, LINKS, SETUP, SPLITS, expect_served, folder_of, one_road, run};
use ltm_command::Status;
use ltm_io::{MemFolder, MemSink, MemSource};
use std::alloc::Global;
use std::process::Abort;
use std::test::Fail;
use std::thread::Threads;

/// A closure at the entry of the road in the first slot, a settle and the totals: lines of 83, 16 and 16 bytes.
const SCRIPT: &str =
    "{\"do\":\"edit\",\"edits\":[{\"kind\":\"limit\",\"link\":\"a\",\"from\":0,\"to\":1,\"vehicles\":\"0\"}]}\n{\"do\":\"settle\"}\n{\"do\":\"totals\"}\n";

/// Their answers, of 19, 31 and 69 bytes.
const ANSWERS: &str =
    "accepted version 1\nsettled version 1 recomputed 5\nversion 1 generated 1.000 arrived 0.500 on_links 0.500 waiting 0.000\n";

const TOTALS: &str = "version 0 generated 1.000 arrived 1.000 on_links 0.000 waiting 0.000\n";

/// A run of the session ends with this status and has written so many bytes of the answers. Reads give 7 bytes, writes take
/// 5, and these fail.
fn expect_front<R: Abort + AllocGlobal + Threads + Sync>(
    rt: &R,
    folder: &mut MemFolder,
    reads: &[u64],
    writes: &[u64],
    status: Status,
    due: usize,
) -> Result<(), Fail> {
    let alloc = rt.alloc();
    let mut input = MemSource::create(alloc, SCRIPT.as_bytes(), 7, reads)?;
    let mut output = MemSink::create(alloc, 5, writes)?;
    let got = run(
        rt,
        alloc,
        &["session", "0"],
        folder,
        &mut input,
        &mut output,
    )?;
    let written = output.written();
    let is_front = ANSWERS.as_bytes().starts_with(written);
    assert!(rt;
        got == status && is_front && written.len() == due,
        "{due} bytes due"
    );
    Ok(())
}

#[test]
fn each_fetch_fails_in_turn(rt: HostRuntime) -> Result<(), Fail> {
    for number in 1..5u64 {
        let files = [SETUP, LINKS, DEMAND, SPLITS];
        let mut folder = folder_of(rt.alloc(), files, &[number])?;
        expect_front(&rt, &mut folder, &[], &[], Status::FolderFault, 0)?;
    }
    Ok(())
}

/// How many bytes are written when this read of 7 bytes fails: the answers to the lines that came whole before it.
fn due_before_read(number: u64) -> usize {
    match number {
        0..=12 => 0,
        13..=15 => 19,
        16..=17 => 50,
        _ => 119,
    }
}

// 17 reads give the script, and one more finds its end.
#[test]
fn each_read_fails_in_turn(rt: HostRuntime) -> Result<(), Fail> {
    let mut folder = one_road(rt.alloc())?;
    for number in 1..19u64 {
        let due = due_before_read(number);
        expect_front(&rt, &mut folder, &[number], &[], Status::ReadFault, due)?;
    }
    expect_front(&rt, &mut folder, &[19], &[], Status::Ok, 119)
}

/// How many bytes are written when this write fails: each of those before took 5 bytes, and less at the end of an answer.
fn due_before_write(number: usize) -> usize {
    match number {
        0 => 0,
        1..=4 => 5 * (number - 1),
        5..=11 => 19 + 5 * (number - 5),
        12..=25 => 50 + 5 * (number - 12),
        _ => 119,
    }
}

// 25 writes take the answers.
#[test]
fn each_write_fails_in_turn(rt: HostRuntime) -> Result<(), Fail> {
    let mut folder = one_road(rt.alloc())?;
    for number in 1..26usize {
        let due = due_before_write(number);
        expect_front(
            &rt,
            &mut folder,
            &[],
            &[number as u64],
            Status::WriteFault,
            due,
        )?;
    }
    expect_front(&rt, &mut folder, &[], &[26], Status::Ok, 119)
}

/// A question, and then a line that is one byte too long.
fn long_script(alloc: Global) -> Result<Vec<u8>, Fail> {
    let mut script = Vec::from_slice(alloc, b"{\"do\":\"totals\"}\n")?;
    for _ in 0..65_537 {
        script.push(b'x')?;
    }
    Ok(script)
}

#[test]
fn a_line_that_is_too_long_is_told_last(rt: HostRuntime) -> Result<(), Fail> {
    let mut folder = one_road(rt.alloc())?;
    let script = long_script(rt.alloc())?;
    let text = format!(in rt.alloc(); "{TOTALS}too long line 2\n")?;
    expect_served(
        &rt,
        &["session", "0"],
        &mut folder,
        script.as_slice(),
        Status::TooLong,
        text.as_str(),
    )
}

// An empty line is no JSON. After 100,000 of them one more is too many.
#[test]
fn a_line_too_many_is_told_last(rt: HostRuntime) -> Result<(), Fail> {
    let alloc = rt.alloc();
    let mut folder = one_road(alloc)?;
    let script: Vec<u8> = vec![in alloc; b'\n'; 100_001]?;
    let mut text = String::new(alloc);
    for _ in 0..100_000 {
        text.push_str("refused command NotJson\n")?;
    }
    text.push_str("too many commands\n")?;
    expect_served(
        &rt,
        &["session", "0"],
        &mut folder,
        script.as_slice(),
        Status::TooManyCommands,
        text.as_str(),
    )
}

#[test]
fn a_bad_case_is_not_served(rt: HostRuntime) -> Result<(), Fail> {
    let setup = "step_ms,slots,origin_capacity\n1000,10001,1\n";
    let mut folder = folder_of(rt.alloc(), [setup, LINKS, DEMAND, SPLITS], &[])?;
    expect_served(
        &rt,
        &["session", "0"],
        &mut folder,
        SCRIPT.as_bytes(),
        Status::BadCase,
        "bad case setup row 2 Range 2\n",
    )
}

#[test]
fn a_script_is_served_to_its_end(rt: HostRuntime) -> Result<(), Fail> {
    let mut folder = one_road(rt.alloc())?;
    let words = ["session", "00"];
    expect_served(&rt, &words, &mut folder, b"", Status::Ok, "")?;
    let script = SCRIPT.as_bytes();
    expect_served(&rt, &words, &mut folder, script, Status::Ok, ANSWERS)
}
