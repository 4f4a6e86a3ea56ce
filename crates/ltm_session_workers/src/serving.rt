//! A session beside workers.
ghost use Rattle.std.specs.Prelude.{◌≡◌, ◌≢◌, ◌≤◌, ℕ, List, [], Some, None, IfOk, false, vec_len};
ghost use Rattle.ltm_io.specs.Faults.{Rose};
ghost use Rattle.ltm_core.specs.Log.{version_now};
ghost use Rattle.ltm_core.specs.Told.{settles_of};
ghost use Rattle.ltm_session.specs.Analysts.{Analysts, state_of, opening_of};
ghost use Rattle.ltm_session.specs.Answerers.{IsUnread};
ghost use Rattle.ltm_session.specs.Answers.{AnswersAlone, AnswersBeside};
ghost use Rattle.ltm_session.specs.Session.{IsSession, Wrote, end_of};

use crate::crew::{Gear, Outfit, crew};
use crate::place::Place;
use ltm_core::{Core, Scratch, lists_tell_all, logs_tell_all};
use ltm_io::{Sink, Source};
use ltm_session::{Script, Served, SessionEnd, serve_alone};
use ltm_turn::Turn;
use ltm_units::NoMemory;
use ltm_workers::{Gate, Hints};
use std::alloc::Global;
use std::sync::Wait;
use std::thread::Threads;

/// The buffers of so many workers.
fn scratches_of(alloc: Global, core: &Core, workers: u32) -> Result<Vec<Scratch>, NoMemory> {
    let mut scratches = Vec::new(alloc);
    for _worker in 0..workers {
        scratches.push(core.scratch()?)?;
    }
    Ok(scratches)
}

/// Takes the memory that an editor and so many workers need beside the answers.
fn take_gear(alloc: Global, core: &Core, workers: u32) -> Result<Gear, NoMemory>
    ensures { IfOk result (λ gear. IsUnread gear.script) }
{
    let script = Script::create(alloc)?;
    let scratch = core.scratch()?;
    let scratches = scratches_of(alloc, core, workers)?;
    Ok(Gear {
        script,
        scratch,
        scratches,
    })
}

/// Serves a script with up to 64 workers beside the caller's thread, which is the editor: each line is answered in order, and
/// its answer is written whole before the next line is read. Without workers it is `serve_alone`.
///
/// The core has accepted nothing and is not stopped, as `Core::create` gives it. A worker for which no thread can be made is
/// left out. The core that is handed back has the log of the lines that were answered, and has counted one settle for each of
/// them that settles.
pub fn serve<R: Threads + Wait + Sync, S: Source, W: Sink, G: Gate>(
    rt: &R,
    alloc: Global,
    core: Core,
    workers: u32,
    source: &mut S,
    sink: &mut W,
    gate: &G,
) -> Served
    requires workers { workers ≤ 64 }
    requires fresh { version_now core.log ≡ 0 }
    requires running { core.stopped ≡ false }
    // What was answered, what was written of it, how that ended, and the log and how many settles were counted then.
    ensures session { (output : List ℕ) × (t : Analysts)
        × IsSession AnswersBeside (opening_of core) (S.left source.old) (S.left source.new)
        result.end output t
        × Wrote result.end (W.written sink.old) (W.written sink.new) output
        × (result.core.log ≡ t.log) × (settles_of result.core ≡ t.settles) }
    ensures alone { workers ≡ 0
        → (output : List ℕ)
        × IsSession AnswersAlone (opening_of core) (S.left source.old) (S.left source.new)
        result.end output (state_of result.core)
        × Wrote result.end (W.written sink.old) (W.written sink.new) output }
    // Where nothing failed, the session ended as its script says.
    ensures end { (script : List ℕ) → S.left source.old ≡ Some script
        → result.end ≢ SessionEnd.ReadFault → result.end ≢ SessionEnd.WriteFault
        → result.end ≢ SessionEnd.NoMemory → result.end ≡ end_of script }
    ensures read { (script : List ℕ) → S.left source.old ≡ Some script
        → result.end ≡ SessionEnd.Ended → S.left source.new ≡ Some [] }
    // A fault of the outside is told only where a count of faults rose.
    ensures read_fault { result.end ≡ SessionEnd.ReadFault
        → Rose (S.faults source.old) (S.faults source.new) }
    ensures write_fault { result.end ≡ SessionEnd.WriteFault
        → Rose (W.faults sink.old) (W.faults sink.new) }
    ensures later { W.faults sink.old ≤ W.faults sink.new }
{
    logs_tell_all();
    lists_tell_all();
    if workers == 0 {
        return serve_alone(alloc, core, source, sink);
    }
    core.facts();
    let Ok(gear) = take_gear(alloc, &core, workers) else {
        return Served {
            end: SessionEnd::NoMemory,
            core,
        };
    };
    match Turn::create(alloc, core) {
        Ok((turn, editor)) => {
            let hints = Hints::new();
            let place = Place {
                rt,
                alloc,
                turn: &turn,
                hints: &hints,
            };
            let (editor, end) = crew(&place, workers, Outfit { editor, gear }, source, sink, gate);
            let core = turn.close(editor);
            core.facts();
            return Served { end, core };
        }
        Err((core, _)) => {
            return Served {
                end: SessionEnd::NoMemory,
                core,
            };
        }
    }
}
