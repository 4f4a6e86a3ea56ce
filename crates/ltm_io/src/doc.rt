//! The files that a folder may hold.
ghost use Rattle.std.specs.Prelude.{◌≡◌, ◌<◌};
ghost use Rattle.ltm_io.specs.Doc.{name_of, place_of};

/// How many files there are.
pub const DOC_COUNT: usize = 16;

/// A file of a folder: one of the case (signals, entry limits and the profile of a matrix among them), the curves, or one of eight
/// lists of edits.
#[derive(Clone, Copy, Debug, PartialEq, Eq)]
pub enum Doc {
    Setup,
    Links,
    Demand,
    Splits,
    Signals,
    Limits,
    Profile,
    Curves,
    Edits1,
    Edits2,
    Edits3,
    Edits4,
    Edits5,
    Edits6,
    Edits7,
    Edits8,
}

impl Doc {
    /// The name under which the file stands in its folder.
    pub fn file_name(self) -> &'static str
        ensures { result.now ≡ name_of self }
    {
        match self {
            Doc::Setup => "setup.csv",
            Doc::Links => "links.csv",
            Doc::Demand => "demand.csv",
            Doc::Splits => "splits.csv",
            Doc::Signals => "signals.csv",
            Doc::Limits => "limits.csv",
            Doc::Profile => "profile.csv",
            Doc::Curves => "curves.csv",
            Doc::Edits1 => "edits1.jsonl",
            Doc::Edits2 => "edits2.jsonl",
            Doc::Edits3 => "edits3.jsonl",
            Doc::Edits4 => "edits4.jsonl",
            Doc::Edits5 => "edits5.jsonl",
            Doc::Edits6 => "edits6.jsonl",
            Doc::Edits7 => "edits7.jsonl",
            Doc::Edits8 => "edits8.jsonl",
        }
    }

    /// The file's place in a table with one entry for each file.
    pub fn place(self) -> usize
        ensures place { result ≡ place_of self }
        ensures within { result < DOC_COUNT }
    {
        match self {
            Doc::Setup => 0,
            Doc::Links => 1,
            Doc::Demand => 2,
            Doc::Splits => 3,
            Doc::Signals => 4,
            Doc::Limits => 5,
            Doc::Profile => 6,
            Doc::Curves => 7,
            Doc::Edits1 => 8,
            Doc::Edits2 => 9,
            Doc::Edits3 => 10,
            Doc::Edits4 => 11,
            Doc::Edits5 => 12,
            Doc::Edits6 => 13,
            Doc::Edits7 => 14,
            Doc::Edits8 => 15,
        }
    }
}
