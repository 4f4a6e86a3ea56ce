//! A session on one thread.
ghost use Rattle.std.specs.Prelude.{◌≡◌, ◌≢◌, ◌++◌, ◌≤◌, ℕ, List, [], Some, None, Err, OnOk, OnErr, IfOk, IfErr, ◌⊎◌};
ghost use Rattle.ltm_io.specs.Faults.{Rose};
ghost use Rattle.ltm_io.specs.Sink.{appended, AppendsFront};
ghost use Rattle.ltm_core.specs.Log.{version_now};
ghost use Rattle.ltm_session.specs.Analysts.{state_of, opening_of};
ghost use Rattle.ltm_session.specs.Answers.{AnswersAlone};
ghost use Rattle.ltm_session.specs.Ready.{AwaitsLine};
ghost use Rattle.ltm_session.specs.Answerers.{IsUnread};
ghost use Rattle.ltm_session.specs.Session.{AnswersLine, IsSession, Wrote, end_of};
ghost use Rattle.ltm_session.specs.Serving.{StopsAt};

use crate::alone::Alone;
use crate::answering::answer;
use crate::ends::SessionEnd;
use crate::looping::serve_lines;
use crate::script::Script;
use ltm_core::{Core, Scratch};
use ltm_io::{Sink, SinkError, Source, write_all_known};
use ltm_units::NoMemory;
use std::alloc::Global;

/// How a session ended, and the core that it leaves.
#[derive(Drop)]
pub struct Served {
    pub end: SessionEnd,
    pub core: Core,
}

/// Takes the memory that a session needs beside its answers.
fn take_seat(alloc: Global, core: &Core) -> Result<(Script, Scratch), NoMemory>
    ensures { IfOk result (λ seat. IsUnread seat.0) }
{
    let script = Script::create(alloc)?;
    let scratch = core.scratch()?;
    Ok((script, scratch))
}

/// Writes an answer.
pub fn write_answer<W: Sink>(text: &[u8], sink: &mut W) -> Result<(), SessionEnd>
    ensures ok { OnOk result (W.written sink.new ≡ appended text.now (W.written sink.old)) }
    ensures err { OnErr result (AppendsFront (W.written sink.old) (W.written sink.new) text.now) }
    ensures end { IfErr result (λ end. (end ≡ SessionEnd.WriteFault)
        ⊎ (end ≡ SessionEnd.NoMemory)) }
    ensures later { W.faults sink.old ≤ W.faults sink.new }
    ensures fault { result ≡ Err SessionEnd.WriteFault
        → Rose (W.faults sink.old) (W.faults sink.new) }
{
    match write_all_known(sink, text) {
        Ok(()) => Ok(()),
        Err(SinkError::WriteFault) => Err(SessionEnd::WriteFault),
        Err(SinkError::NoMemory) => Err(SessionEnd::NoMemory),
    }
}

/// Answers one line, and writes the answer whole.
#[tactic(auto, using(crate::proofs::Looking::looks_state))]
pub fn serve_line<W: Sink>(
    alloc: Global,
    core: &mut Core,
    scratch: &mut Scratch,
    line: &[u8],
    text: &mut Vec<u8>,
    sink: &mut W,
) -> Result<(), SessionEnd>
    requires { AwaitsLine core.old }
    ensures ok { OnOk result ((words : List ℕ)
        × AnswersLine AnswersAlone (state_of core.old) line.now words (state_of core.new)
        × (W.written sink.new ≡ appended words (W.written sink.old))) }
    ensures err { IfErr result (λ end. StopsAt AnswersAlone (state_of core.old) line.now
        (state_of core.new) end
        (W.written sink.old) (W.written sink.new)) }
    ensures awaits { AwaitsLine core.new }
    ensures later { W.faults sink.old ≤ W.faults sink.new }
    ensures fault { result ≡ Err SessionEnd.WriteFault
        → Rose (W.faults sink.old) (W.faults sink.new) }
{
    text.clear();
    answer(alloc, core, scratch, line, text)?;
    write_answer(text.as_slice(), sink)
}

/// Serves a script without workers: each line is answered in order, and its answer is written whole before the next line is
/// read.
///
/// The core has accepted nothing, as `Core::create` gives it. A script has at most 100,000 lines of at most 65,536 bytes
/// each, without their newlines; the last line needs no newline. The core that is handed back has the log of the lines that
/// were answered, has counted one settle for each of them that settles, and shows what was settled last.
pub fn serve_alone<S: Source, W: Sink>(
    alloc: Global,
    core: Core,
    source: &mut S,
    sink: &mut W,
) -> Served
    requires fresh { version_now core.log ≡ 0 }
    // What was answered, what was written of it, how that ended, and the log, what is shown and how many settles were
    // counted then.
    ensures session { (output : List ℕ)
        × IsSession AnswersAlone (opening_of core) (S.left source.old) (S.left source.new)
        result.end output (state_of result.core)
        × Wrote result.end (W.written sink.old) (W.written sink.new) output }
    ensures awaits { AwaitsLine result.core }
    // Where nothing failed, the session ended as its script says.
    ensures end { (script : List ℕ) → S.left source.old ≡ Some script
        → result.end ≢ SessionEnd.ReadFault
        → result.end ≢ SessionEnd.WriteFault → result.end ≢ SessionEnd.NoMemory
        → result.end ≡ end_of script }
    ensures read { (script : List ℕ) → S.left source.old ≡ Some script
        → result.end ≡ SessionEnd.Ended
        → S.left source.new ≡ Some [] }
    // A fault of the outside is told only where a count of faults rose.
    ensures read_fault { result.end ≡ SessionEnd.ReadFault
        → Rose (S.faults source.old) (S.faults source.new) }
    ensures write_fault { result.end ≡ SessionEnd.WriteFault
        → Rose (W.faults sink.old) (W.faults sink.new) }
    ensures later { W.faults sink.old ≤ W.faults sink.new }
{
    core.facts();
    match take_seat(alloc, &core) {
        Ok((script, scratch)) => {
            let alone = Alone {
                alloc,
                core,
                scratch,
            };
            let (alone, end) = serve_lines(alone, script, source, sink);
            return Served {
                end,
                core: alone.core,
            };
        }
        Err(_) => {
            return Served {
                end: SessionEnd::NoMemory,
                core,
            };
        }
    }
}
