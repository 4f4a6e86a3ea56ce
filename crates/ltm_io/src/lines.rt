//! The lines of a source.
ghost use Rattle.std.specs.Prelude.{◌≡◌, ◌≢◌, ◌≤◌, ◌<◌, ℕ, List, [], length, None, Some, IfOk, IfSome, vec_capacity, ◌==◌};
ghost use Rattle.std.specs.List.{list_any};
ghost use Rattle.ltm_io.specs.Faults.{Rose};

use crate::Source;
use crate::read_ahead::ReadAhead;
use ltm_units::NoMemory;
use std::alloc::Global;

/// How many bytes are read ahead.
const AHEAD: usize = 4096;

/// What was found of a line.
#[derive(Clone, Copy, Debug, PartialEq, Eq)]
pub enum Line {
    /// The line is there, without its newline.
    Text,
    /// No byte is left.
    End,
    /// The line has more bytes than are allowed.
    TooLong,
    /// A read failed.
    ReadFault,
}

/// A reader of the lines of a source, in room that it takes when it is made.
///
/// It reads ahead, but only where it has given all that it has read. A line ends at its newline; the last line needs
/// none. Once a line was too long or a read failed, every answer is that answer.
pub struct Lines {
    line: Vec<u8>,
    ahead: ReadAhead,
    max: u32,
    kept: Option<Line>,
    ghost room: { max ≤ vec_capacity line },
}

// By hand, so that letting go of a reader is one call.
impl Drop for Lines {
    fn drop(self) {
        let Lines {
            line: _line,
            ahead: _ahead,
            max: _max,
            kept: _kept,
        } = self;
    }
}

impl Lines {
    ghost use Rattle.ltm_io.specs.Lines.{max_of, taken_by, text_of, kept_by, coming};
    ghost use Rattle.ltm_io.specs.Answers.{Answers, GivesLine, CutsLine, kept_after};

    /// A reader of lines of at most `max` bytes, which has taken nothing and keeps no answer. It takes all the memory
    /// that later calls need.
    pub fn create(alloc: Global, max: u32) -> Result<Lines, NoMemory>
        ensures max { IfOk result (λ lines. max_of lines ≡ max) }
        ensures taken { IfOk result (λ lines. taken_by lines ≡ []) }
        ensures kept { IfOk result (λ lines. kept_by lines ≡ None) }
    {
        let line = Vec::with_capacity(alloc, max as usize)?;
        let ahead = ReadAhead::create(alloc, AHEAD)?;
        Ok(Lines {
            line,
            ahead,
            max,
            kept: None,
        })
    }

    /// The line that `next` read last, and after a failed read what came of one.
    pub fn text(&self) -> &[u8]
        ensures { result.now ≡ text_of self.now }
    {
        self.line.as_slice()
    }

    /// Whether a whole line is at hand, so that the next call of `next` reads nothing.
    pub fn has_line(&self) -> bool
        ensures { result ≡ list_any (λ byte. byte == 10) (taken_by self.now) }
    {
        self.ahead.has_newline()
    }

    /// Reads the next line. It takes no memory.
    pub fn next<S: Source>(&mut self, source: &mut S) -> Line
        // The kept answer, where there is one; and then nothing changes.
        ensures kept { IfSome (kept_by self.old) (λ answer. result ≡ answer) }
        ensures same { kept_by self.old ≢ None → self.new ≡ self.old }
        ensures untouched { kept_by self.old ≢ None → source.new ≡ source.old }

        // Else the answer to the lines that are coming, where they are told and no read fails. With a failed read the
        // bytes that came since the last line are the text, and no whole line is among them.
        ensures answer { kept_by self.old ≡ None → result ≢ Line.ReadFault
            → Answers (max_of self.old) result (coming self.old (S.left source.old)) }
        ensures line { kept_by self.old ≡ None → result ≡ Line.Text
            → GivesLine (coming self.old (S.left source.old)) (text_of self.new)
            (coming self.new (S.left source.new)) }
        ensures fits { kept_by self.old ≡ None → result ≡ Line.Text
            → length (text_of self.new) ≤ max_of self.old }
        ensures end { kept_by self.old ≡ None → result ≡ Line.End
            → coming self.new (S.left source.new) ≡ coming self.old (S.left source.old) }
        ensures all { kept_by self.old ≡ None → result ≡ Line.End → taken_by self.new ≡ [] }
        ensures rest { kept_by self.old ≡ None → result ≡ Line.End
            → IfSome (S.left source.new) (λ bytes. bytes ≡ []) }
        ensures cut { kept_by self.old ≡ None → result ≡ Line.ReadFault
            → CutsLine (coming self.old (S.left source.old)) (text_of self.new)
            (S.left source.new) }
        ensures keeps { kept_by self.old ≡ None → kept_by self.new ≡ kept_after result }

        // Always.
        ensures max { max_of self.new ≡ max_of self.old }
        ensures later { S.faults source.old ≤ S.faults source.new }
        ensures fault { kept_by self.old ≡ None → result ≡ Line.ReadFault
            → Rose (S.faults source.old) (S.faults source.new) }
    {
        if let Some(kept) = self.kept {
            return kept;
        }
        let answer = self.read_line(source);
        if answer == Line::TooLong || answer == Line::ReadFault {
            self.kept = Some(answer);
        }
        answer
    }

    // Reads the next line, and keeps no answer.
    #[tactic(auto, using(crate::proofs::Steps::line_steps))]
    fn read_line<S: Source>(&mut self, source: &mut S) -> Line
        ensures answer { result ≢ Line.ReadFault
            → Answers (max_of self.old) result (coming self.old (S.left source.old)) }
        ensures line { result ≡ Line.Text
            → GivesLine (coming self.old (S.left source.old)) (text_of self.new)
            (coming self.new (S.left source.new)) }
        ensures fits { result ≡ Line.Text → length (text_of self.new) ≤ max_of self.old }
        ensures end { result ≡ Line.End
            → coming self.new (S.left source.new) ≡ coming self.old (S.left source.old) }
        ensures all { result ≡ Line.End → taken_by self.new ≡ [] }
        ensures rest { result ≡ Line.End → IfSome (S.left source.new) (λ bytes. bytes ≡ []) }
        ensures cut { result ≡ Line.ReadFault
            → CutsLine (coming self.old (S.left source.old)) (text_of self.new)
            (S.left source.new) }
        ensures kept { kept_by self.new ≡ kept_by self.old }
        ensures max { max_of self.new ≡ max_of self.old }
        ensures later { S.faults source.old ≤ S.faults source.new }
        ensures fault { result ≡ Line.ReadFault → Rose (S.faults source.old) (S.faults source.new) }
    {
        self.line.clear();
        for _ in 0..u64::MAX {
            match self.ahead.next_byte(source) {
                Err(_) => return Line::ReadFault,
                Ok(None) => {
                    return if self.line.is_empty() {
                        Line::End
                    } else {
                        Line::Text
                    };
                }
                Ok(Some(byte)) => {
                    if byte == b'\n' {
                        return Line::Text;
                    }
                    if self.line.len() >= self.max as usize || self.line.push(byte).is_err() {
                        return Line::TooLong;
                    }
                }
            }
        }
        Line::TooLong
    }
}
