//! Trials of made cases, with values of an engine that was written without this one.
use crate::cases::{USAGE, expect};
use ltm_command::Status;
use ltm_io::MemFolder;
use std::process::Abort;
use std::test::Fail;
use std::thread::Threads;

/// These words, over a folder without files, end with this status and write this text.
fn expect_trial<R: Abort + AllocGlobal + Threads + Sync>(
    rt: &R,
    words: &[&str],
    status: Status,
    text: &str,
) -> Result<(), Fail> {
    let mut folder = MemFolder::create(rt.alloc(), &[])?;
    expect(rt, words, &mut folder, status, text)
}

#[test]
fn tries_small_grids_and_a_wide_one(rt: HostRuntime) -> Result<(), Fail> {
    let one =
        "case nodes 4 links 8 pairs 240\nversion 0 generated 53.000 arrived 53.000 on_links 0.000 waiting 0.000\nversion 1 generated 83.000 arrived 83.000 on_links 0.000 waiting 0.000\nrecomputed 232 solved 232 spent 3969740000\n";
    let last =
        "case nodes 5 links 10 pairs 300\nversion 0 generated 58.000 arrived 58.000 on_links 0.000 waiting 0.000\nversion 1 generated 88.000 arrived 88.000 on_links 0.000 waiting 0.000\nrecomputed 252 solved 252 spent 4055910000\n";
    let wide =
        "case nodes 400 links 1520 pairs 24000\nversion 0 generated 8602.000 arrived 1093.527 on_links 7508.473 waiting 0.000\nversion 1 generated 8632.000 arrived 1093.527 on_links 7538.473 waiting 0.000\nrecomputed 7939 solved 7939 spent 3652645290000\n";
    let cases: [([&str; 3], &str); 4] = [
        (["try", "1", "4"], one),
        (["try", "00000000000000000001", "004"], one),
        (["try", "18446744073709551615", "5"], last),
        (["try", "7", "400"], wide),
    ];
    for (words, text) in cases {
        expect_trial(&rt, &words, Status::Ok, text)?;
    }
    Ok(())
}

#[test]
fn asks_for_two_numbers_in_their_ranges(rt: HostRuntime) -> Result<(), Fail> {
    let cases: [[&str; 3]; 6] = [
        ["try", "1", "3"],
        ["try", "1", "401"],
        ["try", "1", "0004"],
        ["try", "18446744073709551616", "4"],
        ["try", "-1", "4"],
        ["try", "", "4"],
    ];
    for words in cases {
        expect_trial(&rt, &words, Status::Usage, USAGE)?;
    }
    expect_trial(&rt, &["try", "1"], Status::Usage, USAGE)
}
