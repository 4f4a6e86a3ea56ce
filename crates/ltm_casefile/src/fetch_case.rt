//! Fetches a case from its folder: the files that each case has, and signals and limits where the setup asks for them.
ghost use Rattle.std.specs.Prelude.{◌≡◌, ◌≤◌, ℕ, [], Ok, Err, IfOk, IfErr, IfSome, Some, None, true, false};
ghost use Rattle.ltm_io.specs.Folder.{Files};
ghost use Rattle.ltm_io.specs.declared.doc.Doc.{Doc};
ghost use Rattle.ltm_casefile.specs.Case.{parts_of, is_case_file, asks_for};
ghost use Rattle.ltm_casefile.specs.Faults.{Agrees, HasRisen, WasAsked, HidesNoMemory};

use crate::faults::CaseFault;
use crate::fetch::{fetch_limits, fetch_texts};
use crate::setup::open_setup;
use crate::texts::{LimitTexts, Texts};
use ltm_io::Folder;
use ltm_scenario::Scenario;
use std::alloc::Global;
use std::marker::Model;

/// A scenario without links, whether nodes take their routes, and the files that fill it.
#[derive(Drop)]
pub struct Parts {
    pub scenario: Scenario,
    pub routes: bool,
    pub texts: Texts,
    /// The signals and the entry limits, each where the setup asks for them.
    pub limits: LimitTexts,
}

impl Model for Parts {
    ghost use Rattle.ltm_casefile.specs.Case.{CaseParts};

    ghost Value = { CaseParts };

    ghost view = { λ p. record { scenario = p.scenario; routes = p.routes; texts = p.texts; limits = p.limits } };
}

/// Fetches the files that each case has, then reads the setup, then fetches signals and limits where it asks for them.
#[tactic(auto, unfolding(crate::specs::Case::parts_of), using(crate::proofs::Memory::setup_said))]
pub fn fetch_parts<F: Folder>(alloc: Global, folder: &mut F) -> Result<Parts, CaseFault>
    ensures ok { IfOk result (λ parts. IfSome (F.told folder.old) (λ files. parts_of files
        ≡ Ok parts)) }
    ensures empty { IfOk result (λ parts. parts.scenario.splits ≡ []) }
    ensures fault { IfErr result (λ e. IfSome (F.told folder.old)
        (λ files. Agrees (parts_of files) e)) }
    ensures risen { IfErr result (HasRisen (F.faults folder.old) (F.faults folder.new)) }
    ensures asked { IfErr result (λ e. IfSome (F.told folder.old)
        (λ files. WasAsked (asks_for files) e)) }
    ensures memory { IfErr result HidesNoMemory }
    ensures keeps { F.told folder.new ≡ F.told folder.old }
    ensures later { (d : Doc) → F.faults folder.old d ≤ F.faults folder.new d }
    ensures others { (d : Doc) → is_case_file d ≡ false
        → F.faults folder.new d ≡ F.faults folder.old d }
    ensures unasked { IfSome (F.told folder.old) (λ files.
        (d : Doc) → asks_for files d ≡ false → F.faults folder.new d ≡ F.faults folder.old d) }
{
    let texts = fetch_texts(alloc, folder)?;
    let opened = open_setup(alloc, texts.setup())?;
    match fetch_limits(alloc, folder, opened.asked) {
        Ok(limits) => return Ok(Parts {
            scenario: opened.scenario,
            routes: opened.asked.routes,
            texts,
            limits,
        }),
        Err(fault) => return Err(fault),
    }
}
