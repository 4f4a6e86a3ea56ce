//! The bytes of the files of a case.
ghost use Rattle.std.specs.Prelude.{◌≡◌, ◌≤◌, length};
ghost use Rattle.ltm_casefile.specs.Folder.{longest_large_file};

use std::marker::Model;

/// The bytes of a file of a case, at most 268,435,456 of them.
#[derive(Drop)]
pub struct FileText {
    bytes: Vec<u8>,
}

impl Model for FileText {
    ghost use Rattle.std.specs.Prelude.{◌≤◌, ℕ, List, length};
    ghost use Rattle.ltm_casefile.specs.Folder.{longest_large_file};

    ghost Value = { List ℕ };

    ghost view = { λ t. t.bytes.items };

    ghost invariant = { λ t. length t.bytes.items ≤ longest_large_file };
}

impl FileText {
    pub fn of(bytes: Vec<u8>) -> FileText
        requires { length bytes.items ≤ longest_large_file }
        ensures { result ≡ bytes.items }
    {
        FileText { bytes }
    }

    pub fn bytes(&self) -> &[u8]
        ensures bytes { result.now ≡ self.now }
        ensures short { length self.now ≤ longest_large_file }
    {
        &self.bytes
    }
}

/// The bytes of the files that say the roads and who travels on them.
pub struct RoadTexts {
    pub setup: FileText,
    pub links: FileText,
    pub demand: FileText,
    /// Where the demand is a matrix.
    pub profile: Option<FileText>,
}

// By hand, so that letting go of texts is one call, and not their parts one by one wherever that may happen.
impl Drop for RoadTexts {
    fn drop(self) {
        let RoadTexts {
            setup: _setup,
            links: _links,
            demand: _demand,
            profile: _profile,
        } = self;
    }
}

impl Model for RoadTexts {
    ghost use Rattle.ltm_casefile.specs.Roads.{RoadTexts as RoadTextsData};

    ghost Value = { RoadTextsData };

    ghost view = { λ t. record { setup = t.setup; links = t.links; demand = t.demand; profile = t.profile } };
}

impl RoadTexts {
    pub fn setup(&self) -> &[u8]
        ensures { result.now ≡ self.now.setup }
    {
        self.setup.bytes()
    }
}

/// The bytes of the files that each case has.
pub struct Texts {
    pub roads: RoadTexts,
    pub splits: FileText,
}

// By hand, as above.
impl Drop for Texts {
    fn drop(self) {
        let Texts {
            roads: _roads,
            splits: _splits,
        } = self;
    }
}

impl Model for Texts {
    ghost use Rattle.ltm_casefile.specs.Case.{CaseTexts};

    ghost Value = { CaseTexts };

    ghost view = { λ t. record { roads = t.roads; splits = t.splits } };
}

impl Texts {
    pub fn setup(&self) -> &[u8]
        ensures { result.now ≡ self.now.roads.setup }
    {
        self.roads.setup()
    }
}

/// The bytes of the signals and of the entry limits, each where the setup asks for them.
pub struct LimitTexts {
    pub signals: Option<FileText>,
    pub limits: Option<FileText>,
}

// By hand, as above.
impl Drop for LimitTexts {
    fn drop(self) {
        let LimitTexts {
            signals: _signals,
            limits: _limits,
        } = self;
    }
}

impl Model for LimitTexts {
    ghost use Rattle.ltm_casefile.specs.Case.{LimitTexts as LimitTextsData};

    ghost Value = { LimitTextsData };

    ghost view = { λ t. record { signals = t.signals; limits = t.limits } };
}
