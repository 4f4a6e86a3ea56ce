//! One loop over the lines of a script, whoever answers them.
ghost use Rattle.std.specs.Prelude.{◌≡◌, ◌≢◌, ◌≤◌};
ghost use Rattle.ltm_io.specs.Faults.{Rose};
ghost use Rattle.ltm_session.specs.Answerers.{IsUnread, Serves};

use crate::answerer::Answerer;
use crate::ends::SessionEnd;
use crate::script::{MOST_LINES, Script, end_of_lines, next_line};
use ltm_io::{Lines, Sink, Source};

/// Tells who answers lines if the next one is not at hand.
fn tell_if_waiting<A: Answerer>(answerer: &A, lines: &Lines) {
    if !lines.has_line() {
        answerer.before_wait();
    }
}

/// Has each line of a script answered in order, its answer written whole before the next line is read, and says how
/// that ends.
pub fn serve_lines<A: Answerer, S: Source, W: Sink>(
    answerer: A,
    script: Script,
    source: &mut S,
    sink: &mut W,
) -> (A, SessionEnd)
    requires unread { IsUnread script }
    requires awaits { A.awaits answerer }
    ensures serves { Serves A.rule (A.knows answerer) (A.knows result.0) (S.left source.old)
        (S.left source.new)
        result.1 (W.written sink.old) (W.written sink.new) }
    ensures awaits { result.1 ≢ SessionEnd.WriteFault → result.1 ≢ SessionEnd.NoMemory
        → A.awaits result.0 }
    ensures keeps { A.keeps answerer result.0 }
    ensures read_fault { result.1 ≡ SessionEnd.ReadFault
        → Rose (S.faults source.old) (S.faults source.new) }
    ensures write_fault { result.1 ≡ SessionEnd.WriteFault
        → Rose (W.faults sink.old) (W.faults sink.new) }
    ensures later { W.faults sink.old ≤ W.faults sink.new }
{
    let Script {
        mut lines,
        mut text,
    } = script;
    let mut answerer = answerer;
    for answered in 0..MOST_LINES {
        tell_if_waiting(&answerer, &lines);
        if let Err(end) = next_line(&mut lines, source, answered) {
            return (answerer, end);
        }
        let (after, done) = answerer.serve_line(lines.text(), &mut text, sink);
        answerer = after;
        if let Err(end) = done {
            return (answerer, end);
        }
    }
    let end = end_of_lines(&mut lines, source);
    (answerer, end)
}
