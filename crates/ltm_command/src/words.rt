//! The words of the command line.
ghost use Rattle.std.specs.Prelude.{◌≡◌, ◌≤◌, ◌<◌, ℕ, List, map, string_bytes, option_map, codes, IfSome, Some, None};
ghost use Rattle.ltm_routes_command.specs.declared.lines.RouteLines.{RouteLines};
ghost use Rattle.ltm_try_command.specs.Words.{start_of, nodes_of};
ghost use Rattle.ltm_command.specs.declared.words.Command.{Command};
ghost use Rattle.ltm_command.specs.Words as says;
ghost use Rattle.ltm_command.specs.Words.{IsSized, OneReading, usage_line};

use ltm_routes_command::RouteLines;
use ltm_try_command::{read_nodes, read_start};
use ltm_units::read_number;

/// What is told of a case's loading.
#[derive(Clone, Copy)]
pub enum Report {
    /// What entered and left: in all, and by link.
    Load,
    /// What is spent, queued and waited: in all, by link and by origin.
    Delay,
    /// What those who travel spend, against the least that they could have: in all, and by destination.
    Gap,
    /// What has passed each link and left each origin by every boundary of so many slots, and by the last.
    Totals { every: u32 },
}

/// All that the program can be asked for.
#[derive(Clone, Copy)]
pub enum Command {
    /// A report of the case's loading.
    Report(Report),
    /// The loading of the case as a curve file.
    Curves,
    /// Whether the curve file beside the case is its loading.
    Check,
    /// Least free-flow routes for the roads and the demand of the case: a whole `splits.csv`, or the times that they take.
    Routes(RouteLines),
    /// A trial of a made case: where its words start, and how many nodes it has.
    Try { start: u64, nodes: u32 },
    /// The script of the input, served beside so many workers.
    Session { workers: u32 },
    /// The script of the input, served while so many viewers look on.
    View { viewers: u32 },
    /// Files of edits, made by so many editors.
    Editors { editors: u32 },
}

/// The number that a word names, of so few digits, from the least to the most.
fn number_of(word: &str, digits: usize, least: u32, most: u32) -> Option<u32>
    ensures { result ≡ says.number_of digits least most word.now }
{
    match read_number(word.as_bytes(), digits, u64::from(most)) {
        Some(number) if number >= u64::from(least) => Some(number as u32),
        _ => None,
    }
}

fn session(word: &str) -> Option<Command>
    ensures { result ≡ option_map Command.Session (says.workers_of word.now) }
{
    let workers = number_of(word, 2, 0, 64)?;
    Some(Command::Session { workers })
}

fn view(word: &str) -> Option<Command>
    ensures { result ≡ option_map Command.View (says.viewers_of word.now) }
{
    let viewers = number_of(word, 1, 1, 2)?;
    Some(Command::View { viewers })
}

fn editors(word: &str) -> Option<Command>
    ensures { result ≡ option_map Command.Editors (says.editors_of word.now) }
{
    let editors = number_of(word, 1, 1, 8)?;
    Some(Command::Editors { editors })
}

fn totals(word: &str) -> Option<Command>
    ensures { result ≡ option_map says.totals_of (says.every_of word.now) }
{
    let every = number_of(word, 5, 1, 10_000)?;
    Some(Command::Report(Report::Totals { every }))
}

fn trial(start: &str, nodes: &str) -> Option<Command>
    ensures { result ≡ says.trial_of (start_of start.now) (nodes_of nodes.now) }
{
    let start = read_start(start.as_bytes())?;
    let nodes = read_nodes(nodes.as_bytes())?;
    Some(Command::Try { start, nodes })
}

fn one_word(word: &str) -> Option<Command>
    ensures { result ≡ says.one_word word.now }
{
    if word == "load" {
        return Some(Command::Report(Report::Load));
    }
    if word == "delay" {
        return Some(Command::Report(Report::Delay));
    }
    if word == "gap" {
        return Some(Command::Report(Report::Gap));
    }
    if word == "curves" {
        return Some(Command::Curves);
    }
    if word == "check" {
        return Some(Command::Check);
    }
    if word == "routes" {
        return Some(Command::Routes(RouteLines::Splits));
    }
    None
}

fn routes(word: &str) -> Option<Command>
    ensures { result ≡ says.when word.now (codes "times") (Some (Command.Routes RouteLines.Times)) None }
{
    if word == "times" {
        return Some(Command::Routes(RouteLines::Times));
    }
    None
}

fn two_words(first: &str, second: &str) -> Option<Command>
    ensures { result ≡ says.two_words first.now second.now }
{
    if first == "routes" {
        return routes(second);
    }
    if first == "totals" {
        return totals(second);
    }
    if first == "session" {
        return session(second);
    }
    if first == "view" {
        return view(second);
    }
    if first == "editors" {
        return editors(second);
    }
    None
}

fn three_words(first: &str, second: &str, third: &str) -> Option<Command>
    ensures { result ≡ says.when first.now (codes "try")
        (says.trial_of (start_of second.now) (nodes_of third.now)) None }
{
    if first == "try" {
        return trial(second, third);
    }
    None
}

/// The command that the words ask for, none where they ask for none.
pub fn command_of(words: &[String]) -> Option<Command>
    ensures reading { result ≡ says.command_of (map string_bytes words.now) }
    ensures sized { IfSome result IsSized }
{
    match words {
        [word] => one_word(word.as_str()),
        [first, second] => two_words(first.as_str(), second.as_str()),
        [first, second, third] => three_words(first.as_str(), second.as_str(), third.as_str()),
        _ => None,
    }
}

/// The reading gives exactly the command that the words ask for.
pub fn one_reading()
    ensures { OneReading }
{}

/// What the usage line says, with its newline.
#[tactic(auto, unfolding(crate::specs::Words::usage_line))]
pub fn usage_text() -> &'static [u8]
    ensures { result.now ≡ usage_line }
{
    b"usage: ltm load | ltm delay | ltm gap | ltm totals N | ltm session N | ltm try START NODES | ltm routes [times] | ltm curves | ltm check | ltm view V | ltm editors K\n"
}
