//! Fetches the files of a case, as bytes.
ghost use Rattle.std.specs.Prelude.{◌≡◌, ◌≤◌, ℕ, length, Ok, Err, IfOk, IfErr, IfSome, IsSome, Some, None, true, false};
ghost use Rattle.ltm_io.specs.declared.doc.Doc.{Doc};
ghost use Rattle.ltm_casefile.specs.declared.faults.File.{File};
ghost use Rattle.ltm_casefile.specs.Folder.{doc_of, longest_large_file, text_of, text_within, text_if};
ghost use Rattle.ltm_casefile.specs.Case.{texts_of, limit_texts_of, is_of_each, each_asks, is_asked};
ghost use Rattle.ltm_casefile.specs.Roads.{road_texts_of, is_of_roads, roads_ask};
ghost use Rattle.ltm_casefile.specs.Faults.{Agrees, HasRisen, WasAsked, HidesNoMemory};
ghost use Rattle.ltm_units.specs.Bounds.{longest_file};

use crate::faults::{CaseFault, File};
use crate::matrix::has_matrix;
use crate::setup::{Asked, longest_beside};
use crate::texts::{FileText, LimitTexts, RoadTexts, Texts};
use ltm_io::{Doc, Fetched, Folder};
use std::alloc::Global;

/// The most bytes that a file of a case may have, but for demand and splits of one that asks for many rows.
pub const LONGEST_FILE: u64 = 16_777_216;

/// The most bytes that these may have there.
pub(crate) const LONGEST_LARGE_FILE: u64 = 268_435_456;

impl File {
    /// The file of the folder; None for the whole case.
    fn doc(self) -> Option<Doc>
        ensures { result ≡ doc_of self }
    {
        match self {
            File::Setup => Some(Doc::Setup),
            File::Links => Some(Doc::Links),
            File::Demand => Some(Doc::Demand),
            File::Splits => Some(Doc::Splits),
            File::Signals => Some(Doc::Signals),
            File::Limits => Some(Doc::Limits),
            File::Profile => Some(Doc::Profile),
            File::Whole => None,
        }
    }
}

/// The bytes of one file of the folder, at most so many of them.
fn fetch<F: Folder>(
    alloc: Global,
    folder: &mut F,
    file: File,
    most: u64,
) -> Result<FileText, CaseFault>
    requires file { IsSome (doc_of file) }
    requires most { most ≤ longest_large_file }
    ensures keeps { F.told folder.new ≡ F.told folder.old }
    ensures later { (d : Doc) → F.faults folder.old d ≤ F.faults folder.new d }
    ensures others { (d : Doc) → (doc_of file ≡ Some d → ⊥)
        → F.faults folder.new d ≡ F.faults folder.old d }
    ensures ok { IfOk result (λ v. IfSome (F.told folder.old) (λ files. text_within most files file
        ≡ Ok v)) }
    ensures fault { IfErr result (λ e. IfSome (F.told folder.old)
        (λ files. Agrees (text_within most files file) e)) }
    ensures risen { IfErr result (HasRisen (F.faults folder.old) (F.faults folder.new)) }
    ensures given { (f : File) → result ≡ Err (CaseFault.Folder f) → f ≡ file }
    ensures memory { IfErr result HidesNoMemory }
{
    let Some(doc) = file.doc() else {
        unreachable!();
    };
    let mut bytes = Vec::new(alloc);
    match folder.fetch(doc, &mut bytes, most) {
        Fetched::Found => Ok(FileText::of(bytes)),
        Fetched::TooLong => Err(CaseFault::TooLong(file)),
        Fetched::Failed => Err(CaseFault::Folder(file)),
        Fetched::NoMemory => Err(CaseFault::NoMemory),
    }
}

/// The bytes of a file, fetched where it is asked for.
fn fetch_if<F: Folder>(
    alloc: Global,
    folder: &mut F,
    asked: bool,
    file: File,
) -> Result<Option<FileText>, CaseFault>
    requires { IsSome (doc_of file) }
    ensures keeps { F.told folder.new ≡ F.told folder.old }
    ensures later { (d : Doc) → F.faults folder.old d ≤ F.faults folder.new d }
    ensures others { (d : Doc) → (doc_of file ≡ Some d → asked ≡ false)
        → F.faults folder.new d ≡ F.faults folder.old d }
    ensures ok { IfOk result (λ v. IfSome (F.told folder.old) (λ files. text_if asked files file
        ≡ Ok v)) }
    ensures fault { IfErr result (λ e. IfSome (F.told folder.old)
        (λ files. Agrees (text_if asked files file) e)) }
    ensures risen { IfErr result (HasRisen (F.faults folder.old) (F.faults folder.new)) }
    ensures given { (f : File) → result ≡ Err (CaseFault.Folder f) → (f ≡ file) × (asked ≡ true) }
    ensures memory { IfErr result HidesNoMemory }
{
    if !asked {
        return Ok(None);
    }
    let text = fetch(alloc, folder, file, LONGEST_FILE)?;
    Ok(Some(text))
}

/// The bytes of the files that say the roads, fetched in order; last the profile, where the demand is a matrix.
#[tactic(auto, unfolding(crate::specs::Roads::road_texts_of))]
pub fn fetch_road_texts<F: Folder>(alloc: Global, folder: &mut F) -> Result<RoadTexts, CaseFault>
    ensures keeps { F.told folder.new ≡ F.told folder.old }
    ensures later { (d : Doc) → F.faults folder.old d ≤ F.faults folder.new d }
    ensures others { (d : Doc) → is_of_roads d ≡ false
        → F.faults folder.new d ≡ F.faults folder.old d }
    ensures ok { IfOk result (λ t. IfSome (F.told folder.old) (λ files. road_texts_of files
        ≡ Ok t)) }
    ensures fault { IfErr result (λ e. IfSome (F.told folder.old)
        (λ files. Agrees (road_texts_of files) e)) }
    ensures risen { IfErr result (HasRisen (F.faults folder.old) (F.faults folder.new)) }
    ensures asked { IfErr result (WasAsked is_of_roads) }
    ensures needed { IfErr result (λ e. IfSome (F.told folder.old)
        (λ files. WasAsked (roads_ask files) e)) }
    ensures unasked { IfSome (F.told folder.old) (λ files.
        (d : Doc) → roads_ask files d ≡ false → F.faults folder.new d ≡ F.faults folder.old d) }
    ensures memory { IfErr result HidesNoMemory }
{
    let setup = fetch(alloc, folder, File::Setup, LONGEST_FILE)?;
    let links = fetch(alloc, folder, File::Links, LONGEST_FILE)?;
    let most = longest_beside(alloc, setup.bytes())?;
    let demand = fetch(alloc, folder, File::Demand, most)?;
    let asked = has_matrix(alloc, demand.bytes())?;
    let profile = fetch_if(alloc, folder, asked, File::Profile)?;
    Ok(RoadTexts {
        setup,
        links,
        demand,
        profile,
    })
}

/// The bytes of the files that each case has, fetched in order.
#[tactic(auto, unfolding(crate::specs::Case::texts_of))]
pub fn fetch_texts<F: Folder>(alloc: Global, folder: &mut F) -> Result<Texts, CaseFault>
    ensures keeps { F.told folder.new ≡ F.told folder.old }
    ensures later { (d : Doc) → F.faults folder.old d ≤ F.faults folder.new d }
    ensures others { (d : Doc) → is_of_each d ≡ false
        → F.faults folder.new d ≡ F.faults folder.old d }
    ensures ok { IfOk result (λ t. IfSome (F.told folder.old) (λ files. texts_of files ≡ Ok t)) }
    ensures fault { IfErr result (λ e. IfSome (F.told folder.old)
        (λ files. Agrees (texts_of files) e)) }
    ensures risen { IfErr result (HasRisen (F.faults folder.old) (F.faults folder.new)) }
    ensures asked { IfErr result (λ e. IfSome (F.told folder.old)
        (λ files. WasAsked (each_asks files) e)) }
    ensures unasked { IfSome (F.told folder.old) (λ files.
        (d : Doc) → each_asks files d ≡ false → F.faults folder.new d ≡ F.faults folder.old d) }
    ensures memory { IfErr result HidesNoMemory }
{
    let roads = fetch_road_texts(alloc, folder)?;
    let most = longest_beside(alloc, roads.setup())?;
    let splits = fetch(alloc, folder, File::Splits, most)?;
    Ok(Texts { roads, splits })
}

/// The bytes of the signals and then of the entry limits, each fetched where they are asked for.
#[tactic(auto, unfolding(crate::specs::Case::limit_texts_of))]
pub fn fetch_limits<F: Folder>(
    alloc: Global,
    folder: &mut F,
    asked: Asked,
) -> Result<LimitTexts, CaseFault>
    ensures keeps { F.told folder.new ≡ F.told folder.old }
    ensures later { (d : Doc) → F.faults folder.old d ≤ F.faults folder.new d }
    ensures others { (d : Doc) → is_asked asked d ≡ false
        → F.faults folder.new d ≡ F.faults folder.old d }
    ensures ok { IfOk result (λ t. IfSome (F.told folder.old) (λ files. limit_texts_of files asked
        ≡ Ok t)) }
    ensures fault { IfErr result (λ e. IfSome (F.told folder.old)
        (λ files. Agrees (limit_texts_of files asked) e)) }
    ensures risen { IfErr result (HasRisen (F.faults folder.old) (F.faults folder.new)) }
    ensures asked { IfErr result (WasAsked (is_asked asked)) }
    ensures memory { IfErr result HidesNoMemory }
{
    let signals = fetch_if(alloc, folder, asked.signals, File::Signals)?;
    let limits = fetch_if(alloc, folder, asked.limits, File::Limits)?;
    Ok(LimitTexts { signals, limits })
}
