//! Loading a small case, and what is told of words, files and the outside. Values by hand.
use crate::cases::{DEMAND, LINKS, SETUP, SPLITS, USAGE, expect, folder_of, one_road, run};
use ltm_command::Status;
use ltm_io::{Doc, MemFolder, MemSink, MemSource};
use std::test::Fail;

const REPORT: &str =
    "version 0 generated 1.000 arrived 1.000 on_links 0.000 waiting 0.000\nlink a in 1.000 out 1.000\n";

// The fifth is the road with a byte order mark, quotes, other line ends and an empty line; in the last the file of links is
// cut, so that a road of 15 vehicles a kilometre is left.
#[test]
fn loads_a_case(rt: HostRuntime) -> Result<(), Fail> {
    let cases: [(&str, &str, &str, &str); 7] = [
        (SETUP, LINKS, DEMAND, REPORT),
        (
            SETUP,
            LINKS,
            "origin,destination,from_slot,to_slot,vehicles\n",
            "version 0 generated 0.000 arrived 0.000 on_links 0.000 waiting 0.000\nlink a in 0.000 out 0.000\n",
        ),
        (
            "step_ms,slots,origin_capacity\n1000,3,1\n",
            LINKS,
            DEMAND,
            "version 0 generated 1.000 arrived 0.500 on_links 0.500 waiting 0.000\nlink a in 1.000 out 0.500\n",
        ),
        (
            SETUP,
            "link,from,to,length_m,free_kmh,wave_kmh,jam_per_km\na,n1,n2,25,36,18,150\n",
            DEMAND,
            "version 0 generated 1.000 arrived 0.750 on_links 0.250 waiting 0.000\nlink a in 1.000 out 0.750\n",
        ),
        (
            "\u{feff}step_ms,\"slots\",origin_capacity\r\n\r\n1000,4,1.000",
            LINKS,
            DEMAND,
            REPORT,
        ),
        (
            "step_ms,slots,origin_capacity,signals\n1000,4,1,0\n",
            LINKS,
            DEMAND,
            REPORT,
        ),
        (
            SETUP,
            "link,from,to,length_m,free_kmh,wave_kmh,jam_per_km\na,n1,n2,20,36,18,15",
            DEMAND,
            "version 0 generated 1.000 arrived 0.100 on_links 0.100 waiting 0.800\nlink a in 0.200 out 0.100\n",
        ),
    ];
    for (setup, links, demand, text) in cases {
        let mut folder = folder_of(rt.alloc(), [setup, links, demand, SPLITS], &[])?;
        expect(&rt, &["load"], &mut folder, Status::Ok, text)?;
    }
    Ok(())
}

#[test]
fn loads_a_corridor(rt: HostRuntime) -> Result<(), Fail> {
    let files = [
        "step_ms,slots,origin_capacity\n1000,12,1\n",
        "link,from,to,length_m,free_kmh,wave_kmh,jam_per_km\na,n1,n2,20,36,18,150\nb,n2,n3,20,36,18,150\n",
        "origin,destination,from_slot,to_slot,vehicles\nn1,n3,0,5,5\n",
        "node,destination,from_slot,weights\nn1,n3,0,a=1\nn2,n3,0,b=1\n",
    ];
    let text =
        "version 0 generated 5.000 arrived 4.000 on_links 1.000 waiting 0.000\nlink a in 5.000 out 5.000\nlink b in 5.000 out 4.000\n";
    let mut folder = folder_of(rt.alloc(), files, &[])?;
    expect(&rt, &["load"], &mut folder, Status::Ok, text)
}

// In two the file of links is cut within its last field or before it.
#[test]
fn tells_delays(rt: HostRuntime) -> Result<(), Fail> {
    let mut folder = one_road(rt.alloc())?;
    let text =
        "version 0 spent 2.000000 queued 0.000000 waited 0.000000\nlink a spent 2.000000 queued 0.000000 most 0.000 at 0\nnode n1 waited 0.000000 most 0.000 at 0\n";
    expect(&rt, &["delay"], &mut folder, Status::Ok, text)?;
    expect(&rt, &["delay", "a"], &mut folder, Status::Usage, USAGE)?;
    let mut folder = folder_of(rt.alloc(), [SETUP, LINKS, DEMAND, "node\n"], &[])?;
    let line = "bad case splits row 1 Header\n";
    expect(&rt, &["delay"], &mut folder, Status::BadCase, line)
}

// A queue from the start: the units of the first three slots arrive in time, and 0.300 vehicles of the fourth; the others are late.
#[test]
fn tells_the_gap(rt: HostRuntime) -> Result<(), Fail> {
    let files = [
        "step_ms,slots,origin_capacity\n1000,16,1\n",
        "link,from,to,length_m,free_kmh,wave_kmh,jam_per_km\na,n1,n2,20,36,18,150\nb,n2,n3,20,36,18,60\n",
        "origin,destination,from_slot,to_slot,vehicles\nn1,n3,0,10,7\n",
        "node,destination,from_slot,weights\nn1,n3,0,a=1\nn2,n3,0,b=1\n",
    ];
    let text =
        "version 0 spent 64.900000 least 64.900000 gap 0.000000 late 4.600\nto n3 spent 64.900000 least 64.900000 gap 0.000000 late 4.600\n";
    let mut folder = folder_of(rt.alloc(), files, &[])?;
    expect(&rt, &["gap"], &mut folder, Status::Ok, text)?;
    expect(&rt, &["gap", "n3"], &mut folder, Status::Usage, USAGE)
}

// By hand: half a vehicle sets out in each of the first two slots, and takes two seconds over the road.
#[test]
fn totals_are_told_by_boundary(rt: HostRuntime) -> Result<(), Fail> {
    let alloc = rt.alloc();
    let mut folder = one_road(alloc)?;
    let each =
        "link a entered 500 1000 1000 1000 left 0 0 500 1000\norigin n1 departed 500 1000 1000 1000\n";
    expect(&rt, &["totals", "1"], &mut folder, Status::Ok, each)?;
    let third = "link a entered 1000 1000 left 500 1000\norigin n1 departed 1000 1000\n";
    expect(&rt, &["totals", "3"], &mut folder, Status::Ok, third)?;
    let last = "link a entered 1000 left 1000\norigin n1 departed 1000\n";
    expect(&rt, &["totals", "4"], &mut folder, Status::Ok, last)?;
    expect(&rt, &["totals", "10000"], &mut folder, Status::Ok, last)?;
    let others: [&[&str]; 3] = [&["totals"], &["totals", "0"], &["totals", "10001"]];
    for words in others {
        expect(&rt, words, &mut folder, Status::Usage, USAGE)?;
    }
    Ok(())
}

#[test]
fn refuses_a_bad_case(rt: HostRuntime) -> Result<(), Fail> {
    let cases: [(&str, &str, &str, &str); 8] = [
        (
            "step_ms,slots,origin_capacity\n2001,4,1\n",
            LINKS,
            SPLITS,
            "bad case links row 2 StepTooLong 2000 4000\n",
        ),
        (
            SETUP,
            LINKS,
            "node,destination,from_slot,weights\n",
            "bad case whole row 0 NoSplit n1 n2\n",
        ),
        (
            SETUP,
            "link,from,to,length_m,free_kmh,wave_kmh,jam_per_km\na,n1,n2,20,36,18,150\na,n2,n3,20,36,18,150\n",
            SPLITS,
            "bad case links row 3 TwiceNamed\n",
        ),
        ("", LINKS, SPLITS, "bad case setup row 1 Header\n"),
        (
            "step_ms,slots,origin_capacity\n1000,10001,1\n",
            LINKS,
            SPLITS,
            "bad case setup row 2 Range 2\n",
        ),
        (
            "step_ms,slots,origin_capacity\n1000,4294967296,1\n",
            LINKS,
            SPLITS,
            "bad case setup row 2 Field 2\n",
        ),
        (
            SETUP,
            "link,from,to,length_m,free_kmh,wave_kmh,jam_per_km\na,n1,n2,20,36,18",
            SPLITS,
            "bad case links row 2 Width\n",
        ),
        (
            SETUP,
            "link,from,to,length_m,free_kmh,wave_kmh,jam_per_km\na,n1,n2,20,36,18,",
            SPLITS,
            "bad case links row 2 Field 7\n",
        ),
    ];
    for (setup, links, splits, text) in cases {
        let mut folder = folder_of(rt.alloc(), [setup, links, DEMAND, splits], &[])?;
        expect(&rt, &["load"], &mut folder, Status::BadCase, text)?;
    }
    Ok(())
}

#[test]
fn fetches_signals_where_they_are_asked_for(rt: HostRuntime) -> Result<(), Fail> {
    let setup = "step_ms,slots,origin_capacity,signals\n1000,4,1,1\n";
    let mut folder = folder_of(rt.alloc(), [setup, LINKS, DEMAND, SPLITS], &[])?;
    expect(&rt, &["load"], &mut folder, Status::FolderFault, "")?;
    folder.put(Doc::Signals, b"link,from_slot,to_slot,vehicles\nz,0,4,1\n")?;
    let line = "bad case signals row 2 Unknown 1\n";
    expect(&rt, &["load"], &mut folder, Status::BadCase, line)
}

// What needs all counts of a loading is refused; no line of a script is read.
#[test]
fn says_that_a_case_keeps_no_history(rt: HostRuntime) -> Result<(), Fail> {
    let setup = "step_ms,slots,origin_capacity,history\n1000,4,1,0\n";
    let mut folder = folder_of(rt.alloc(), [setup, LINKS, DEMAND, SPLITS], &[])?;
    let line = "no history\n";
    let refused: [&[&str]; 3] = [&["curves"], &["check"], &["session", "0"]];
    for words in refused {
        expect(&rt, words, &mut folder, Status::NoHistory, line)?;
    }
    expect(&rt, &["load"], &mut folder, Status::Ok, REPORT)
}

#[test]
fn other_words_are_told_the_usage(rt: HostRuntime) -> Result<(), Fail> {
    let cases: [&[&str]; 7] = [
        &[],
        &["load", "x"],
        &["session"],
        &["session", "65"],
        &["session", "000"],
        &["session", ""],
        &["session", "0", "0"],
    ];
    let mut folder = one_road(rt.alloc())?;
    for words in cases {
        expect(&rt, words, &mut folder, Status::Usage, USAGE)?;
    }
    Ok(())
}

#[test]
fn faults_of_the_outside_are_told(rt: HostRuntime) -> Result<(), Fail> {
    let alloc = rt.alloc();
    let mut folder = MemFolder::create(alloc, &[])?;
    folder.put(Doc::Setup, SETUP.as_bytes())?;
    folder.put(Doc::Links, LINKS.as_bytes())?;
    folder.put(Doc::Splits, SPLITS.as_bytes())?;
    expect(&rt, &["load"], &mut folder, Status::FolderFault, "")?;
    let mut folder = one_road(alloc)?;
    for (failing, front) in [(1, ""), (3, "version 0 gene")] {
        let mut input = MemSource::create(alloc, b"", 1, &[])?;
        let mut output = MemSink::create(alloc, 7, &[failing])?;
        let got = run(&rt, alloc, &["load"], &mut folder, &mut input, &mut output)?;
        assert!(rt; got == Status::WriteFault, "at write {failing}");
        assert!(rt; output.written() == front.as_bytes(), "at write {failing}");
    }
    Ok(())
}

#[test]
fn a_file_that_is_too_long_is_refused(rt: HostRuntime) -> Result<(), Fail> {
    let alloc = rt.alloc();
    let mut folder = one_road(alloc)?;
    let long: Vec<u8> = vec![in alloc; b'\n'; 16_777_217]?;
    folder.put(Doc::Setup, long.as_slice())?;
    let line = "too long setup\n";
    expect(&rt, &["load"], &mut folder, Status::TooLong, line)?;
    expect(&rt, &["session", "0"], &mut folder, Status::TooLong, line)
}
