//! Whether the curve file beside a case is its loading.
ghost use Rattle.std.specs.Prelude.{◌≡◌, ◌≤◌, ◌⊎◌, List, true, false, Ok, Err, IfOk, IfErr, IfSome};
ghost use Rattle.ltm_io.specs.declared.doc.Doc.{Doc};
ghost use Rattle.ltm_curve.specs.Counts.{Counts};
ghost use Rattle.ltm_curve.specs.Table.{counts_of};
ghost use Rattle.ltm_scenario.specs.Network.{node_name};
ghost use Rattle.ltm_check.specs.Fields.{Fields};
ghost use Rattle.ltm_setting.specs.Setting.{setting_of};
ghost use Rattle.ltm_check.specs.Kept.{Keeps};
ghost use Rattle.ltm_check.specs.Verdict.{IsVerdict};
ghost use Rattle.ltm_casefile.specs.declared.faults.CaseFault.{CaseFault};
ghost use Rattle.ltm_check_command.specs.declared.refusal.Refusal.{Refusal};
ghost use Rattle.ltm_check_command.specs.Lines.{yes_line};
ghost use Rattle.ltm_check_command.specs.Checks.{Refuses, RecordsAnswer, AnswersCheck, AnswersRefusal, HasMissed, is_check_file, check_asks_for};
ghost use Rattle.ltm_check_command.specs.Curves.{KeepsRecords};
ghost use Rattle.ltm_setting.specs.Places.{IsNode, IsShapedFor};

use crate::curves::read_file;
use crate::lines::yes_text;
use crate::refusal::Refusal;
use ltm_casefile::{CaseFault, read_kept_case};
use ltm_check::{Checked, check_curves, kept_answers_alike};
use ltm_curve::Curves;
use ltm_io::OpenFolder;
use ltm_scenario::Scenario;
use ltm_setting::is_setting;
use ltm_units::{NoMemory, Pair};
use std::alloc::Global;

/// What is said of the counts that curves keep.
fn said_of(alloc: Global, scenario: &Scenario, curves: &Curves) -> Result<Checked, NoMemory>
    requires { IsShapedFor scenario.now curves.now }
    ensures kept { IfOk result (IsVerdict (setting_of scenario.now) (counts_of curves.now)) }
    ensures told { IfOk result (λ said. (counts : Counts)
        → Keeps (setting_of scenario.now) counts curves.now
        → IsVerdict (setting_of scenario.now) counts said) }
{
    is_setting(scenario);
    kept_answers_alike();
    let said = check_curves(alloc, scenario, curves)?;
    Ok(said)
}

/// That the counts of a pair are not its node step.
#[tactic(auto, unfolding(ltm_setting::specs::Setting::setting_of))]
fn no_step(scenario: &Scenario, pair: Pair) -> Refusal
    requires { IsNode scenario.now pair.node.0 }
    ensures { result ≡ Refusal.NoStep (node_name scenario.now.network pair.node.0) pair.slot }
{
    Refusal::NoStep {
        node: scenario.network().node_name(pair.node),
        slot: pair.slot,
    }
}

/// The line that says yes.
fn say_yes(alloc: Global) -> Result<Vec<u8>, Refusal>
    ensures text { IfOk result (λ text. text.items ≡ yes_line) }
    ensures fault { IfErr result (λ e. e ≡ Refusal.Case CaseFault.NoMemory) }
{
    match yes_text(alloc) {
        Ok(text) => Ok(text),
        Err(_) => Err(Refusal::Case(CaseFault::NoMemory)),
    }
}

/// What is answered to a curve file whose counts curves keep.
fn answer_curves(alloc: Global, scenario: &Scenario, curves: &Curves) -> Result<Vec<u8>, Refusal>
    requires { IsShapedFor scenario.now curves.now }
    ensures text { IfOk result (λ text. (records : List Fields)
        → KeepsRecords scenario.now records curves.now
        → RecordsAnswer scenario.now records (Ok text.items)) }
    ensures fault { IfErr result (λ e. (e ≡ Refusal.Case CaseFault.NoMemory)
        ⊎ ((records : List Fields) → KeepsRecords scenario.now records curves.now
        → Refuses scenario.now records e)) }
{
    match said_of(alloc, scenario, curves) {
        Ok(Checked::Yes) => say_yes(alloc),
        Ok(Checked::Start) => Err(Refusal::NoStart),
        Ok(Checked::No(pair)) => Err(no_step(scenario, pair)),
        Err(NoMemory) => Err(Refusal::Case(CaseFault::NoMemory)),
    }
}

/// Says yes where the `curves.csv` of a folder tells the loading of its case, and else why not: the first fault of the case, as
/// `read_kept_case` has it; then that the file was not given, or has more than 268,435,456 bytes; then its first fault; then that
/// what it counts does not start as a loading does; then the first pair, by slot and then by node, that is not its node step.
pub fn check_text<F: OpenFolder>(alloc: Global, folder: &mut F) -> Result<Vec<u8>, Refusal>
    ensures text { IfOk result (λ text. AnswersCheck (F.told folder.old) (Ok text.items)) }
    ensures fault { IfErr result (AnswersRefusal (F.told folder.old)) }

    // A file is not given only where its count of faults rose in this call, and it is one of the case or the curves.
    ensures missed { IfErr result (HasMissed (F.told folder.old) (F.faults folder.old)
        (F.faults folder.new)) }

    ensures keeps { F.told folder.new ≡ F.told folder.old }
    ensures later { (d : Doc) → F.faults folder.old d ≤ F.faults folder.new d }
    ensures others { (d : Doc) → is_check_file d ≡ false
        → F.faults folder.new d ≡ F.faults folder.old d }
    ensures unasked { IfSome (F.told folder.old) (λ files. (d : Doc)
        → check_asks_for files d ≡ false → F.faults folder.new d ≡ F.faults folder.old d) }
{
    let scenario = match read_kept_case(alloc, folder) {
        Ok(scenario) => scenario,
        Err(fault) => return Err(Refusal::Case(fault)),
    };
    let curves = match read_file(alloc, &scenario, folder) {
        Ok(curves) => curves,
        Err(refusal) => return Err(refusal),
    };
    answer_curves(alloc, &scenario, &curves)
}
