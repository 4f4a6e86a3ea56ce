//! What follows of every run, by name. Each law is the contract of a function that does nothing.
ghost use Rattle.ltm_program.specs.Headline.{Headline, HeadlineOfFronts, HeadlineOfViews};
ghost use Rattle.ltm_program.specs.RanLaws.{TextsSay, SessionsSay, EditorsSay, RefusalsSay, FilesStay};

use ltm_session::{alone_is_a_session, sessions_keep_the_promise};

/// What a command wrote that answers one text.
pub fn texts_say()
    ensures { TextsSay }
{}

/// What a session wrote, and a session that viewers look on at.
pub fn sessions_say()
    ensures { SessionsSay }
{
    alone_is_a_session();
}

/// What several editors wrote.
pub fn editors_say()
    ensures { EditorsSay }
{}

/// Which refusal comes when.
pub fn refusals_say()
    ensures { RefusalsSay }
{}

/// Which files are not touched.
pub fn files_stay()
    ensures { FilesStay }
{}

/// The promise, of the whole program: every report that a session writes between a settle and the next accepted edit is
/// that of the one loading of the scenario as the accepted edits leave it, and every other report is that of a finished
/// loading of a prefix of those edits, never shorter than one shown before. It holds of a session that ends well, of one
/// that viewers look on at, and of whatever any session wrote.
pub fn the_promise_is_kept()
    ensures well { Headline }
    ensures fronts { HeadlineOfFronts }
    ensures views { HeadlineOfViews }
{
    sessions_say();
    sessions_keep_the_promise();
}
