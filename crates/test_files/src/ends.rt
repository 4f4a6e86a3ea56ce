//! What no clause says of folders and outputs: that calls succeed, and what the system gives.
use ltm_io::{
    Doc, Fetched, Folder, MemFolder, MemSink, RealFolder, RealOutput, Sink, SinkError, SureSink,
    write_all_known,
};
use std::alloc::Global;
use std::io::{Error, ErrorKind, Write};
use std::{env, fs, io, process};

/// A file, how many bytes it may have, and what is answered with which bytes.
type Row<'a> = (Doc, u64, Fetched, &'a [u8]);

// A fetch through the bound.
fn fetch_one<F: Folder>(folder: &mut F, doc: Doc, into: &mut Vec<u8>, max: u64) -> Fetched {
    folder.fetch(doc, into, max)
}

/// The place of the first fetch that is answered otherwise; none where all are answered so.
fn first_otherwise<F: Folder>(
    folder: &mut F,
    into: &mut Vec<u8>,
    rows: &[Row<'_>],
) -> Option<usize> {
    for (place, (doc, max, answer, bytes)) in rows.iter().enumerate() {
        if fetch_one(folder, *doc, into, *max) != *answer || into.as_slice() != *bytes {
            return Some(place);
        }
    }
    None
}

/// The same with a buffer in which something stands; the greatest number without memory for it.
fn fetch_all<F: Folder>(alloc: Global, folder: &mut F, rows: &[Row<'_>]) -> Option<usize> {
    match vec![in alloc; b'?'; 40] {
        Ok(mut into) => first_otherwise(folder, &mut into, rows),
        Err(_) => Some(usize::MAX),
    }
}

fn fill(folder: &mut MemFolder) -> bool {
    folder.put(Doc::Setup, b"before").is_ok()
        && folder.put(Doc::Edits8, b"xyz").is_ok()
        && folder.put(Doc::Setup, b"abc").is_ok()
}

/// Whether the files of a folder are put, the first fetch that is answered otherwise, whether a file is emptied, and the
/// first such fetch then.
fn fetched(
    alloc: Global,
    rows: &[Row<'_>],
    emptied: &[Row<'_>],
) -> Option<(bool, Option<usize>, bool, Option<usize>)> {
    match MemFolder::create(alloc, &[2, 5]) {
        Ok(mut folder) => {
            let filled = fill(&mut folder);
            let first = fetch_all(alloc, &mut folder, rows);
            let put = folder.put(Doc::Setup, b"").is_ok();
            Some((filled, first, put, fetch_all(alloc, &mut folder, emptied)))
        }
        Err(_) => None,
    }
}

#[test]
fn memory_folder_answers_by_its_files_and_its_list(rt: HostRuntime) {
    let rows: [Row<'_>; 7] = [
        (Doc::Setup, 3, Fetched::Found, b"abc"),
        (Doc::Setup, 3, Fetched::Failed, b""),
        (Doc::Setup, 2, Fetched::TooLong, b""),
        (Doc::Links, 9, Fetched::Failed, b""),
        (Doc::Edits8, 9, Fetched::Failed, b""),
        (Doc::Edits8, 9, Fetched::Found, b"xyz"),
        (Doc::Edits7, 9, Fetched::Failed, b""),
    ];
    let emptied: [Row<'_>; 1] = [(Doc::Setup, 0, Fetched::Found, b"")];
    let told = fetched(rt.alloc(), &rows, &emptied);
    assert!(rt; told == Some((true, None, true, None)));
}

// Three writes through the bound, of which the last two may follow a fault.
fn write_thrice<W: Sink>(sink: &mut W) -> [Result<(), SinkError>; 3] {
    let first = write_all_known(sink, b"abcdefg");
    let second = write_all_known(sink, b"");
    let third = write_all_known(sink, b"hi");
    [first, second, third]
}

/// What is answered to writes, and whether these bytes are written.
fn written_in_pieces(alloc: Global, want: &[u8]) -> Option<([Result<usize, SinkError>; 3], bool)> {
    match MemSink::create(alloc, 3, &[]) {
        Ok(mut sink) => {
            let answers = [sink.write(b"abcd"), sink.write(b"de"), sink.write(b"")];
            Some((answers, sink.written() == want))
        }
        Err(_) => None,
    }
}

/// The same of three texts that are written to a sink that fails at some calls.
fn written_thrice(
    alloc: Global,
    piece: u32,
    failing: &[u64],
    want: &[u8],
) -> Option<([Result<(), SinkError>; 3], bool)> {
    if piece == 0 {
        return None;
    }
    match MemSink::create(alloc, piece, failing) {
        Ok(mut sink) => {
            let answers = write_thrice(&mut sink);
            Some((answers, sink.written() == want))
        }
        Err(_) => None,
    }
}

/// The same of a sink that never fails.
fn surely_written(alloc: Global, want: &[u8]) -> Option<([Result<(), SinkError>; 3], bool)> {
    match SureSink::create(alloc, 2) {
        Ok(mut sink) => {
            let answers = write_thrice(&mut sink);
            Some((answers, sink.written() == want))
        }
        Err(_) => None,
    }
}

#[test]
fn memory_sinks_take_pieces(rt: HostRuntime) {
    let pieces = written_in_pieces(rt.alloc(), b"abcde");
    assert!(rt; pieces == Some(([Ok(3), Ok(2), Ok(0)], true)));

    // Its second call fails, so a front of the first text is written, and then the third text.
    let failed = Some(([Err(SinkError::WriteFault), Ok(()), Ok(())], true));
    let short = written_thrice(rt.alloc(), 3, &[2], b"abchi");
    let long = written_thrice(rt.alloc(), 100, &[1, 3], b"hi");
    assert!(rt; short == failed && long == failed);

    let sure = surely_written(rt.alloc(), b"abcdefghi");
    assert!(rt; sure == Some(([Ok(()), Ok(()), Ok(())], true)));
}

// A writer that answers each of its calls in another way.
#[derive(Drop)]
struct Moody {
    calls: u8,
}

impl Write for Moody {
    fn write(&mut self, buf: &[u8]) -> io::Result<usize> {
        self.calls = self.calls.saturating_add(1);
        match self.calls {
            1 => Err(Error::from(ErrorKind::Interrupted)),
            2 => Ok(buf.len().min(2)),
            3 => Ok(0),
            4 => Err(Error::from(ErrorKind::BrokenPipe)),
            5 => Err(Error::from(ErrorKind::OutOfMemory)),
            _ => Ok(buf.len()),
        }
    }

    fn flush(&mut self) -> io::Result<()> {
        Ok(())
    }
}

/// What is answered to five writes of four bytes, and to one of none.
fn moody_answers() -> [Result<usize, SinkError>; 6] {
    let mut output = RealOutput::new(Moody { calls: 0 });
    [
        output.write(b"abcd"),
        output.write(b"abcd"),
        output.write(b"abcd"),
        output.write(b"abcd"),
        output.write(b"abcd"),
        output.write(b""),
    ]
}

#[test]
fn real_output_tells_faults_from_interruptions(rt: HostRuntime) {
    let fault = Err(SinkError::WriteFault);
    let no_memory = Err(SinkError::NoMemory);
    let answers = [Ok(2), fault, fault, no_memory, Ok(4), Ok(0)];
    assert!(rt; moody_answers() == answers);
}

fn write_files(rt: &HostRuntime, long: &[u8]) -> bool {
    fs::write(rt, "setup.csv", "step_ms\n").is_ok()
        && fs::write(rt, "edits1.jsonl", "").is_ok()
        && fs::write(rt, "curves.csv", long).is_ok()
}

/// The first fetch of files that were written that is answered otherwise.
fn fetch_written(rt: &HostRuntime, long: &[u8]) -> Option<usize> {
    let rows: [Row<'_>; 6] = [
        (Doc::Setup, 8, Fetched::Found, b"step_ms\n"),
        (Doc::Setup, 7, Fetched::TooLong, b""),
        (Doc::Links, 8, Fetched::Failed, b""),
        (Doc::Edits1, 0, Fetched::Found, b""),
        (Doc::Curves, 299_999, Fetched::TooLong, b""),
        (Doc::Curves, u64::MAX, Fetched::Found, long),
    ];
    let mut folder = RealFolder::new(rt);
    fetch_all(rt.alloc(), &mut folder, &rows)
}

/// Whether files are written in a new folder, the first fetch of them that is answered otherwise, and whether the folder is
/// taken away.
fn fetched_in(rt: &HostRuntime, place: &str, long: &[u8]) -> (bool, Option<usize>, bool) {
    let there = fs::create_dir_all(rt, place).is_ok() && env::set_current_dir(rt, place).is_ok();
    let written = there && write_files(rt, long);
    let first = fetch_written(rt, long);
    (written, first, fs::remove_dir_all(rt, place).is_ok())
}

/// The same in a folder of that name among those for a time.
fn fetched_below(rt: &HostRuntime, name: &str, long: &[u8]) -> (bool, Option<usize>, bool) {
    match env::temp_dir(rt) {
        Ok(places) => match places.join(rt.alloc(), name) {
            Ok(place) => fetched_in(rt, place.as_str(), long),
            Err(_) => (false, None, false),
        },
        Err(_) => (false, None, false),
    }
}

/// The same in a folder whose name no other process uses.
fn fetched_apart(rt: &HostRuntime, long: &[u8]) -> (bool, Option<usize>, bool) {
    let id = process::id(rt.process());
    match format!(in rt.alloc(); "ltm_io_test_{id}") {
        Ok(name) => fetched_below(rt, name.as_str(), long),
        Err(_) => (false, None, false),
    }
}

/// The same with a file of 300,000 bytes.
fn fetched_long(rt: &HostRuntime) -> (bool, Option<usize>, bool) {
    match vec![in rt.alloc(); b'x'; 300_000] {
        Ok(long) => fetched_apart(rt, long.as_slice()),
        Err(_) => (false, None, false),
    }
}

#[test]
fn real_folder_reads_what_was_written(rt: HostRuntime) {
    assert!(rt; fetched_long(&rt) == (true, None, true));
}
