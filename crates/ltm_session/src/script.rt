//! The next line of a script, or how the session ends.
ghost use Rattle.std.specs.Prelude.{◌≡◌, ◌⊎◌, ℕ, ◌+◌, ◌<◌, ◌≤◌, length, None, OnOk, IfErr, Err};
ghost use Rattle.ltm_io.specs.Faults.{Rose};
ghost use Rattle.ltm_io.specs.Lines.{max_of, text_of, kept_by, coming};
ghost use Rattle.ltm_io.specs.Answers.{GivesLine};
ghost use Rattle.ltm_session.specs.Serving.{EndsIfTold};
ghost use Rattle.ltm_session.specs.Session.{longest_line, most_lines};

use crate::ends::SessionEnd;
use ltm_io::{Line, Lines, Source};
use ltm_units::NoMemory;
use std::alloc::Global;

/// The most bytes of a line.
const LONGEST_LINE: u32 = 65_536;

/// The most lines of a script.
pub(crate) const MOST_LINES: u32 = 100_000;

/// What a script is served with: what reads its lines, and room for an answer.
#[derive(Drop)]
pub struct Script {
    pub(crate) lines: Lines,
    pub(crate) text: Vec<u8>,
}

impl Script {
    ghost use Rattle.std.specs.Prelude.{IfOk};
    ghost use Rattle.ltm_session.specs.Answerers.{IsUnread};

    /// Takes the memory with which the lines of a script are read.
    pub fn create(alloc: Global) -> Result<Script, NoMemory>
        ensures unread { IfOk result (λ script. IsUnread script) }
    {
        let lines = Lines::create(alloc, LONGEST_LINE)?;
        Ok(Script {
            lines,
            text: Vec::new(alloc),
        })
    }
}

/// Reads the next line after so many, or says how the session ends.
pub(crate) fn next_line<S: Source>(
    lines: &mut Lines,
    source: &mut S,
    answered: u32,
) -> Result<(), SessionEnd>
    requires unkept { kept_by lines.old ≡ None }
    requires max { max_of lines.old ≡ longest_line }
    requires few { answered < most_lines }
    ensures line { OnOk result (GivesLine (coming lines.old (S.left source.old)) (text_of lines.new)
        (coming lines.new (S.left source.new))) }
    ensures fits { OnOk result (length (text_of lines.new) ≤ longest_line) }
    ensures unkept { OnOk result (kept_by lines.new ≡ None) }
    ensures max { max_of lines.new ≡ longest_line }
    ensures end { IfErr result (λ end. EndsIfTold end answered
        (coming lines.old (S.left source.old))
        (S.left source.new)) }
    ensures read { IfErr result (λ end. (end ≡ SessionEnd.Ended)
        ⊎ ((end ≡ SessionEnd.ReadFault) ⊎ (end ≡ SessionEnd.LineTooLong (answered + 1)))) }
    ensures later { S.faults source.old ≤ S.faults source.new }
    ensures fault { result ≡ Err SessionEnd.ReadFault
        → Rose (S.faults source.old) (S.faults source.new) }
{
    match lines.next(source) {
        Line::Text => Ok(()),
        Line::End => Err(SessionEnd::Ended),
        Line::TooLong => Err(SessionEnd::LineTooLong(answered + 1)),
        Line::ReadFault => Err(SessionEnd::ReadFault),
    }
}

/// How the session ends that has answered as many lines as a script may have.
pub(crate) fn end_of_lines<S: Source>(lines: &mut Lines, source: &mut S) -> SessionEnd
    requires unkept { kept_by lines.old ≡ None }
    requires max { max_of lines.old ≡ longest_line }
    ensures end { EndsIfTold result most_lines (coming lines.old (S.left source.old))
        (S.left source.new) }
    ensures read { (result ≡ SessionEnd.Ended)
        ⊎ ((result ≡ SessionEnd.ReadFault) ⊎ (result ≡ SessionEnd.TooManyCommands)) }
    ensures later { S.faults source.old ≤ S.faults source.new }
    ensures fault { result ≡ SessionEnd.ReadFault
        → Rose (S.faults source.old) (S.faults source.new) }
{
    match lines.next(source) {
        Line::Text | Line::TooLong => SessionEnd::TooManyCommands,
        Line::End => SessionEnd::Ended,
        Line::ReadFault => SessionEnd::ReadFault,
    }
}
