//! A long file of a folder in memory is opened and read to its end: no length hides in want of memory.
use ltm_io::{Doc, Line, Lines, MemFolder, OpenFolder, Source};
use ltm_units::NoMemory;
use std::alloc::Global;
use std::test::Fail;

/// How many lines the file has: some 130,000 bytes.
const COUNT: u64 = 10_000;

/// More than the file has bytes.
const MANY: u64 = 1_000_000;

/// Line k, counted from 0, has the numbers k and 5000 k, so that lines are not of one length.
fn long_text(alloc: Global) -> Result<String, NoMemory> {
    let mut text = String::new(alloc);
    for k in 0..COUNT {
        write!(text, "{k},{}\n", 5_000 * k)?;
    }
    Ok(text)
}

/// The file of a folder that has no other.
fn opened(alloc: Global, text: &[u8]) -> Option<<MemFolder as OpenFolder>::File> {
    let mut folder = MemFolder::create(alloc, &[]).ok()?;
    folder.put(Doc::Curves, text).ok()?;
    folder.open(alloc, Doc::Curves).ok()
}

/// Puts what one read gives behind the bytes; whether it gave any.
fn read_piece<S: Source>(source: &mut S, piece: &mut [u8], bytes: &mut Vec<u8>) -> Option<bool> {
    let count = source.read(piece).ok()?;
    bytes.extend_from_slice(&piece[..count]).ok()?;
    Some(count > 0)
}

/// All bytes of a source, of which each read asks for so many.
fn read_all<S: Source>(alloc: Global, source: &mut S, size: usize) -> Option<Vec<u8>> {
    let mut piece = vec![in alloc; 0u8; size].ok()?;
    let mut bytes = Vec::new(alloc);
    for _ in 0..MANY {
        if !read_piece(source, &mut piece, &mut bytes)? {
            return Some(bytes);
        }
    }
    None
}

/// The bytes of a file that is put into a folder, opened, and read to its end by so many at a time.
fn pieces_of(alloc: Global, text: &[u8], size: usize) -> Option<Vec<u8>> {
    let mut file = opened(alloc, text)?;
    read_all(alloc, &mut file, size)
}

#[test]
fn a_long_file_is_read_by_pieces(rt: HostRuntime) -> Result<(), Fail> {
    let text = long_text(rt.alloc())?;
    assert!(rt; text.len() > 100_000);
    for size in [1, 700, 4096, 200_000] {
        let Some(bytes) = pieces_of(rt.alloc(), text.as_bytes(), size) else {
            panic!(rt; "not read by {size}")
        };
        assert!(rt; bytes.as_slice() == text.as_bytes(), "by {size}");
    }
    Ok(())
}

/// The lines of a source up to its end, of at most 20 bytes each, with a newline behind each.
fn read_lines<S: Source>(alloc: Global, source: &mut S) -> Option<Vec<u8>> {
    let mut lines = Lines::create(alloc, 20).ok()?;
    let mut bytes = Vec::new(alloc);
    for _ in 0..MANY {
        match lines.next(source) {
            Line::Text => bytes.extend_from_slice(lines.text()).ok()?,
            Line::End => return Some(bytes),
            Line::TooLong | Line::ReadFault => return None,
        }
        bytes.push(b'\n').ok()?;
    }
    None
}

/// The lines of a file that is put into a folder and opened.
fn lines_of(alloc: Global, text: &[u8]) -> Option<Vec<u8>> {
    let mut file = opened(alloc, text)?;
    read_lines(alloc, &mut file)
}

// Lines lie across the pieces that the reader of lines asks for.
#[test]
fn a_long_file_is_read_line_by_line(rt: HostRuntime) -> Result<(), Fail> {
    let text = long_text(rt.alloc())?;
    let Some(bytes) = lines_of(rt.alloc(), text.as_bytes()) else {
        panic!(rt; "not read")
    };
    assert!(rt; bytes.as_slice() == text.as_bytes());
    Ok(())
}
