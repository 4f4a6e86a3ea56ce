//! Editors of the one road.
use crate::cases::{USAGE, one_road};
use ltm_command::Status;
use ltm_io::{Doc, MemFolder, SureSink, SureSource};
use ltm_program::run;
use ltm_units::NoMemory;
use ltm_workers::PlainGate;
use std::alloc::{AllocError, Global};
use std::sync::Wait;
use std::test::Fail;
use std::thread::Threads;

fn words_of(alloc: Global, editors: &str) -> Result<Vec<String>, AllocError> {
    let mut words = Vec::new(alloc);
    words.push(String::from_str(alloc, "editors")?)?;
    words.push(String::from_str(alloc, editors)?)?;
    Ok(words)
}

/// Lets so many editors edit the road: the status, and what was written.
fn edit<R: Threads + Wait + Sync + AllocGlobal>(
    rt: &R,
    editors: &str,
    folder: &mut MemFolder,
) -> Result<(Status, SureSink), Fail> {
    let alloc = rt.alloc();
    let words = words_of(alloc, editors)?;
    let mut input = SureSource::create(alloc, b"", 100)?;
    let mut output = SureSink::create(alloc, 1000)?;
    let status = run(
        rt,
        alloc,
        words.as_slice(),
        folder,
        &mut input,
        &mut output,
        &PlainGate,
    );
    Ok((status, output))
}

/// The road with the files of the first two editors.
fn road_with(alloc: Global, first: &[u8], second: &[u8]) -> Result<MemFolder, NoMemory> {
    let mut folder = one_road(alloc)?;
    folder.put(Doc::Edits1, first)?;
    folder.put(Doc::Edits2, second)?;
    Ok(folder)
}

/// The entry of the road is closed in slot 0, and that of `z`, which is no link.
const CLOSE_A: &str =
    "{\"do\":\"edit\",\"edits\":[{\"kind\":\"limit\",\"link\":\"a\",\"from\":0,\"to\":1,\"vehicles\":\"0\"}]}\n";

const CLOSE_Z: &str =
    "{\"do\":\"edit\",\"edits\":[{\"kind\":\"limit\",\"link\":\"z\",\"from\":0,\"to\":1,\"vehicles\":\"0\"}]}\n";

const FIRST_COMES_FIRST: &str =
    "call 1 editor 1 accepted version 1\ncall 2 editor 2 refused edit 1 UnknownName\nversion 1 generated 1.000 arrived 0.500 on_links 0.500 waiting 0.000\n";

const SECOND_COMES_FIRST: &str =
    "call 1 editor 2 refused edit 1 UnknownName\ncall 2 editor 1 accepted version 1\nversion 1 generated 1.000 arrived 0.500 on_links 0.500 waiting 0.000\n";

// Either editor comes first.
#[test]
fn two_editors_write_one_history(rt: HostRuntime) -> Result<(), Fail> {
    let mut folder = road_with(rt.alloc(), CLOSE_A.as_bytes(), CLOSE_Z.as_bytes())?;
    let (status, output) = edit(&rt, "2", &mut folder)?;
    let written = output.written();
    let is_one = written == FIRST_COMES_FIRST.as_bytes();
    let is_other = written == SECOND_COMES_FIRST.as_bytes();
    assert!(rt; status == Status::Ok);
    assert!(rt; is_one || is_other);
    Ok(())
}

const SETTLE: &str = "{\"do\":\"settle\"}\n";

// What is wrong first: a file that is missing, then one with 10,001 lines, then the first line that is no edit.
#[test]
fn the_first_fault_of_the_files_is_told(rt: HostRuntime) -> Result<(), Fail> {
    let alloc: Global = rt.alloc();
    let many = vec![in alloc; b'\n'; 10001]?;
    let settle = SETTLE.as_bytes();
    let cases: [(&str, &[u8], &[u8], Status, &str); 7] = [
        (
            "2",
            CLOSE_A.as_bytes(),
            settle,
            Status::BadScript,
            "bad script edits2 line 1 NotEdit\n",
        ),
        (
            "2",
            b"\n\n",
            settle,
            Status::BadScript,
            "bad script edits1 line 1 NotJson\n",
        ),
        (
            "1",
            b"{}",
            settle,
            Status::BadScript,
            "bad script edits1 line 1 NotCommand 0\n",
        ),
        (
            "2",
            settle,
            many.as_slice(),
            Status::TooManyCommands,
            "too many commands\n",
        ),
        ("3", many.as_slice(), settle, Status::FolderFault, ""),
        ("0", CLOSE_A.as_bytes(), settle, Status::Usage, USAGE),
        ("9", CLOSE_A.as_bytes(), settle, Status::Usage, USAGE),
    ];
    for (editors, first, second, due, text) in cases {
        let mut folder = road_with(alloc, first, second)?;
        let (status, output) = edit(&rt, editors, &mut folder)?;
        let written = output.written() == text.as_bytes();
        assert!(rt; status == due, "with {editors} editors: {text}");
        assert!(rt; written, "with {editors} editors: {text}");
    }
    Ok(())
}
