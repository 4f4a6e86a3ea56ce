//! What holds of the outputs of sessions. Each law is the contract of a function that does nothing.
ghost use Rattle.ltm_session.specs.Laws.{AloneIsASession, AnswersAreLines, LinesSettleOnce, OneOutput};
ghost use Rattle.ltm_session.specs.Laws.{FrontsKeepThePromise, OutputsKeepThePromise};

use ltm_core::logs_tell_all;
use ltm_loading::one_loading;
use ltm_setting::scenarios_are_settings;

/// An output of a session without workers is one of a session beside workers, in which nothing is shown in between.
pub fn alone_is_a_session()
    ensures { AloneIsASession }
{
    logs_tell_all();
}

/// Without workers a scenario and a script have one output.
pub fn one_output()
    ensures { OneOutput }
{
    scenarios_are_settings();
    one_loading();
}

/// Of the lines that a session answers each that settles is counted as one settle, and no other is: so the core that `serve_alone` or
/// `serve` of `ltm_session_workers` hands back has counted exactly those.
pub fn lines_settle_once()
    ensures { LinesSettleOnce }
{}

/// The promise: every report that a session writes between a settle and the next accepted edit is that of the one
/// loading of the scenario as the accepted edits leave it, and every other report is that of a finished loading of a
/// prefix of those edits, never shorter than one shown before. It holds of each whole output, and of whatever front of
/// one was written.
pub fn sessions_keep_the_promise()
    ensures whole { OutputsKeepThePromise }
    ensures fronts { FrontsKeepThePromise }
{
    logs_tell_all();
}

/// Each answer is one line, so an output has one cut into answers: behind each newline.
pub fn answers_are_lines()
    ensures { AnswersAreLines }
{}
