//! What no clause says of the input and its lines: that calls succeed, and what the system gives.
use ltm_io::{Line, Lines, MemSource, ReadFault, RealInput, Source, SureSource};
use std::alloc::Global;
use std::io;
use std::io::{Error, ErrorKind, Read};

// The next line through the bound.
fn next_line<S: Source>(lines: &mut Lines, source: &mut S) -> Line {
    lines.next(source)
}

/// Whether these are the next lines, and there are no more for ever.
fn are_all(lines: &mut Lines, source: &mut SureSource, texts: &[&[u8]]) -> bool {
    for text in texts {
        if next_line(lines, source) != Line::Text || lines.text() != *text {
            return false;
        }
    }
    next_line(lines, source) == Line::End && next_line(lines, source) == Line::End
}

/// Whether a source has these lines, of at most three bytes.
fn has_lines(alloc: Global, source: &mut SureSource, texts: &[&[u8]]) -> bool {
    match Lines::create(alloc, 3) {
        Ok(mut lines) => are_all(&mut lines, source, texts),
        Err(_) => false,
    }
}

/// Whether a script has these lines, where so many bytes are read at a time.
fn is_cut(alloc: Global, script: &[u8], piece: u32, texts: &[&[u8]]) -> bool {
    if piece == 0 {
        return false;
    }
    match SureSource::create(alloc, script, piece) {
        Ok(mut source) => has_lines(alloc, &mut source, texts),
        Err(_) => false,
    }
}

#[test]
fn lines_are_cut_at_newlines(rt: HostRuntime) {
    let ends: [(&[u8], &[&[u8]]); 6] = [
        (b"", &[]),
        (b"\n", &[b""]),
        (b"ab", &[b"ab"]),
        (b"ab\n", &[b"ab"]),
        (b"ab\n\ncde", &[b"ab", b"", b"cde"]),
        (b"\r\n\x00", &[b"\r", b"\x00"]),
    ];
    for (script, texts) in ends {
        for piece in [1, 2, 3, 100] {
            assert!(rt;
                is_cut(rt.alloc(), script, piece, texts),
                "{script:?} by {piece}"
            );
        }
    }
}

/// Three answers of lines of at most three bytes.
fn first_three<S: Source>(alloc: Global, source: &mut S) -> Option<[Line; 3]> {
    match Lines::create(alloc, 3) {
        Ok(mut lines) => Some([lines.next(source), lines.next(source), lines.next(source)]),
        Err(_) => None,
    }
}

/// Three answers to a script of which five bytes are read at a time.
fn answers_to(alloc: Global, script: &[u8]) -> Option<[Line; 3]> {
    match SureSource::create(alloc, script, 5) {
        Ok(mut source) => first_three(alloc, &mut source),
        Err(_) => None,
    }
}

/// The same of three bytes at a time, where some reads fail.
fn answers_to_failing(alloc: Global, script: &[u8], failing: &[u64]) -> Option<[Line; 3]> {
    match MemSource::create(alloc, script, 3, failing) {
        Ok(mut source) => first_three(alloc, &mut source),
        Err(_) => None,
    }
}

#[test]
fn a_long_line_or_a_failed_read_is_the_last_answer(rt: HostRuntime) {
    // Three bytes fit, four do not; what follows is not looked at.
    let long = answers_to(rt.alloc(), b"abc\nabcd\nab\n");
    assert!(rt; long == Some([Line::Text, Line::TooLong, Line::TooLong]));

    // The second read of two bytes fails, in the midst of a line.
    let failed = answers_to_failing(rt.alloc(), b"a\nbcd\n", &[2]);
    assert!(rt; failed == Some([Line::Text, Line::ReadFault, Line::ReadFault]));
}

// A reader that answers each of its calls in another way.
#[derive(Drop)]
struct Moody {
    calls: u8,
}

impl Read for Moody {
    fn read(&mut self, buf: &mut [u8]) -> io::Result<usize> {
        self.calls = self.calls.saturating_add(1);
        match self.calls {
            1 => Err(Error::from(ErrorKind::Interrupted)),
            2 => Ok(buf.len().min(2)),
            3 => Err(Error::from(ErrorKind::BrokenPipe)),
            4 => Err(Error::from(ErrorKind::OutOfMemory)),
            _ => Ok(0),
        }
    }
}

/// What is answered to four reads of four bytes.
fn moody_answers() -> [Result<usize, ReadFault>; 4] {
    let mut input = RealInput::new(Moody { calls: 0 });
    let mut into = [0u8; 4];
    [
        input.read(&mut into),
        input.read(&mut into),
        input.read(&mut into),
        input.read(&mut into),
    ]
}

#[test]
fn real_input_tells_faults_from_interruptions(rt: HostRuntime) {
    let answers = [Ok(2), Err(ReadFault), Err(ReadFault), Ok(0)];
    assert!(rt; moody_answers() == answers);
}
