//! Who answers the lines of a script.
ghost use Rattle.std.specs.Prelude.{◌≡◌, ◌≤◌, ℕ, List, Err, OnOk, IfErr};
ghost use Rattle.ltm_io.specs.Faults.{Rose};
ghost use Rattle.ltm_io.specs.Sink.{appended};
ghost use Rattle.ltm_session.specs.Session.{Answering};
ghost use Rattle.ltm_session.specs.Answerers.{AnswersBy, Knowing, StopsBy};

use crate::ends::SessionEnd;
use ltm_io::Sink;

/// Who answers the lines of a script, one after another: a core alone, or one beside workers.
///
/// `rule` is how lines are answered, `knows` which machines of the analysts may be behind it, `awaits` that it may be
/// given a line, as it may be again after each that it answered, and `keeps` what stays of it from line to line, also where
/// it stopped.
pub trait Answerer: Sized {
    ghost rule: { Answering };

    ghost knows: { Self → Knowing };

    ghost awaits: { Self → Type 0 };

    ghost keeps: { Self → Self → Type 0 };

    /// Answers a line, which stands without its newline, and writes the answer whole; `text` is room for it.
    fn serve_line<W: Sink>(
        self,
        line: &[u8],
        text: &mut Vec<u8>,
        sink: &mut W,
    ) -> (Self, Result<(), SessionEnd>)
        requires { awaits self }
        ensures ok { OnOk result.1 ((words : List ℕ)
            × AnswersBy rule (knows self) (knows result.0) line.now words
            × (W.written sink.new ≡ appended words (W.written sink.old))) }
        ensures err { IfErr result.1 (λ end. StopsBy rule (knows self) (knows result.0) line.now end
            (W.written sink.old) (W.written sink.new)) }
        ensures awaits { OnOk result.1 (awaits result.0) }
        ensures keeps { keeps self result.0 }
        ensures later { W.faults sink.old ≤ W.faults sink.new }
        ensures fault { result.1 ≡ Err SessionEnd.WriteFault
            → Rose (W.faults sink.old) (W.faults sink.new) };

    /// Is told that the next line is not at hand, so that whoever works beside it may go on meanwhile.
    fn before_wait(&self);

    ghost stays: { (a : Self) → keeps a a };

    ghost goes_on: { (a b c : Self) → keeps a b → keeps b c → keeps a c };
}
