//! A line beside workers.
ghost use Rattle.std.specs.Prelude.{◌≡◌, ◌≢◌, ◌⊎◌, ◌++◌, ◌+◌, ◌≤◌, ℕ, List, Ok, Err, OnOk, OnErr, IfErr, vec_len, vec_capacity};
ghost use mathlib.Core.List.{IsPrefix};
ghost use Rattle.ltm_io.specs.Faults.{Rose};
ghost use Rattle.ltm_io.specs.Sink.{appended};
ghost use Rattle.ltm_core.specs.Shown.{version_of};
ghost use Rattle.ltm_script.specs.Commands.{HasAmounts};
ghost use Rattle.ltm_report.specs.Answers.{settled_line, answer_room};
ghost use Rattle.ltm_core.specs.Log.{version_now};
ghost use Rattle.ltm_core.specs.CoreAnswers.{LooksAs};
ghost use Rattle.ltm_core.specs.Told.{told_of, TellsLog};
ghost use Rattle.ltm_turn.specs.Passes.{turn_id, editor_turn, editor_list, editor_seen, editor_workers};
ghost use Rattle.ltm_session.specs.Analysts.{state_of};
ghost use Rattle.ltm_session.specs.Answers.{Replies};
ghost use Rattle.ltm_session_workers.specs.Beside.{SaidBeside, LineBeside, StopsBeside};

use crate::place::Place;
use ltm_core::{Core, lists_tell_all, logs_tell_all};
use ltm_io::Sink;
use ltm_report::{ANSWER_ROOM, settled_text};
use ltm_script::{Command, CommandFault, read_command};
use ltm_session::{SessionEnd, reply, reply_fault, write_answer};
use ltm_turn::EditorPass;
use ltm_units::NoMemory;
use ltm_workers::{Settled, Settler, settle_beside};
use std::alloc::Global;
use std::sync::Wait;

/// Answers a command that is no settle, in a held turn.
fn reply_held(
    alloc: Global,
    core: &mut Core,
    command: Command,
    text: &mut Vec<u8>,
) -> Result<(), NoMemory>
    requires amounts { HasAmounts command }
    requires other { command ≢ Command.Settle }
    ensures ok { OnOk result ((words : List ℕ)
        × Replies (state_of core.old) (Ok command) words (state_of core.new)
        × (text.new.items ≡ text.old.items ++ words)) }
    ensures err { OnErr result ((text.new.items ≡ text.old.items) × LooksAs core.old core.new) }
    ensures grows { IsPrefix (told_of core.old) (told_of core.new) }
    ensures told { TellsLog (told_of core.old) core.old.log
        × TellsLog (told_of core.new) core.new.log }
    ensures shown { version_of core.new.shown ≡ version_of core.old.shown }
    ensures finished { (version_of core.old.shown ≤ version_now core.old.log)
        × (version_of core.new.shown ≤ version_now core.new.log) }
{
    lists_tell_all();
    let _before = core.shown();
    core.facts();
    let done = reply(alloc, core, command, text);
    let _after = core.shown();
    core.facts();
    done
}

/// Whether batches are accepted whose loading is not shown yet.
fn is_behind(core: &Core) -> bool {
    core.shown().version() != core.version()
}

/// Answers a command that is no settle, in one turn, and notes whether there is work to do then.
fn reply_beside<R: Wait>(
    place: &Place<R>,
    editor: EditorPass<Core>,
    command: Command,
    text: &mut Vec<u8>,
) -> (EditorPass<Core>, Result<(), NoMemory>)
    requires turn { editor_turn editor ≡ turn_id place.now.turn.now }
    requires amounts { HasAmounts command }
    requires other { command ≢ Command.Settle }
    ensures turn { (editor_turn result.0 ≡ turn_id place.now.turn.now)
        × (editor_workers result.0 ≡ editor_workers editor) }
    ensures ok { OnOk result.1 ((words : List ℕ)
        × SaidBeside (Ok command) words (editor_list editor) (editor_seen editor)
        (editor_list result.0) (editor_seen result.0)
        × (text.new.items ≡ text.old.items ++ words)) }
    ensures err { OnErr result.1 ((text.new.items ≡ text.old.items)
        × (editor_list result.0 ≡ editor_list editor)
        × (editor_seen editor ≤ editor_seen result.0)) }
{
    lists_tell_all();
    let turn = place.turn;
    let mut held = turn.take_editor(place.rt, editor);
    let done = reply_held(place.alloc, held.get_mut(), command, text);
    let behind = is_behind(held.get());
    let editor = turn.give_editor(held);
    place.hints.note_behind(behind);
    (editor, done)
}

/// Appends what a settle has counted, for which there is room.
fn push_settled(settled: Settled, text: &mut Vec<u8>)
    requires { vec_len text.old + answer_room ≤ vec_capacity text.old }
    ensures { text.new.items ≡ text.old.items ++ settled_line settled.version settled.count }
{
    match settled_text(settled.version, settled.count, text) {
        Ok(()) => return,
        Err(_) => unreachable!(),
    }
}

/// Settles, and appends the count, for which there is room.
fn settle_in_room<R: Wait>(
    place: &Place<R>,
    editor: EditorPass<Core>,
    settler: Settler,
    text: &mut Vec<u8>,
) -> (EditorPass<Core>, Settler)
    requires turn { editor_turn editor ≡ turn_id place.now.turn.now }
    requires room { vec_len text.old + answer_room ≤ vec_capacity text.old }
    ensures turn { (editor_turn result.0 ≡ turn_id place.now.turn.now)
        × (editor_workers result.0 ≡ editor_workers editor) }
    ensures told { (words : List ℕ)
        × SaidBeside (Ok Command.Settle) words (editor_list editor) (editor_seen editor)
        (editor_list result.0) (editor_seen result.0)
        × (text.new.items ≡ text.old.items ++ words) }
{
    logs_tell_all();
    lists_tell_all();
    let (editor, settler, settled) = settle_beside(
        place.rt,
        place.turn,
        place.hints,
        editor,
        settler,
    );
    place.hints.note_behind(false);
    push_settled(settled, text);
    (editor, settler)
}

/// Settles, and appends the count. Its room is taken before.
fn settle_line<R: Wait>(
    place: &Place<R>,
    editor: EditorPass<Core>,
    settler: Settler,
    text: &mut Vec<u8>,
) -> (EditorPass<Core>, Settler, Result<(), NoMemory>)
    requires { editor_turn editor ≡ turn_id place.now.turn.now }
    ensures turn { (editor_turn result.0 ≡ turn_id place.now.turn.now)
        × (editor_workers result.0 ≡ editor_workers editor) }
    ensures ok { OnOk result.2 ((words : List ℕ)
        × SaidBeside (Ok Command.Settle) words (editor_list editor) (editor_seen editor)
        (editor_list result.0) (editor_seen result.0)
        × (text.new.items ≡ text.old.items ++ words)) }
    ensures err { OnErr result.2 ((text.new.items ≡ text.old.items)
        × (editor_list result.0 ≡ editor_list editor)
        × (editor_seen editor ≤ editor_seen result.0)) }
{
    match text.reserve(ANSWER_ROOM) {
        Ok(()) => {
            let (editor, settler) = settle_in_room(place, editor, settler, text);
            return (editor, settler, Ok(()));
        }
        Err(_) => return (editor, settler, Err(NoMemory)),
    }
}

/// Appends the answer to a line.
fn answer_beside<R: Wait>(
    place: &Place<R>,
    editor: EditorPass<Core>,
    settler: Settler,
    line: &[u8],
    text: &mut Vec<u8>,
) -> (EditorPass<Core>, Settler, Result<(), NoMemory>)
    requires { editor_turn editor ≡ turn_id place.now.turn.now }
    ensures turn { (editor_turn result.0 ≡ turn_id place.now.turn.now)
        × (editor_workers result.0 ≡ editor_workers editor) }
    ensures ok { OnOk result.2 ((words : List ℕ)
        × LineBeside line.now words (editor_list editor) (editor_seen editor) (editor_list result.0)
        (editor_seen result.0)
        × (text.new.items ≡ text.old.items ++ words)) }
    ensures err { OnErr result.2 ((text.new.items ≡ text.old.items)
        × (editor_list result.0 ≡ editor_list editor)
        × (editor_seen editor ≤ editor_seen result.0)) }
{
    match read_command(place.alloc, line) {
        Ok(Command::Settle) => return settle_line(place, editor, settler, text),
        Ok(command) => {
            let (editor, done) = reply_beside(place, editor, command, text);
            return (editor, settler, done);
        }
        Err(CommandFault::NoMemory) => return (editor, settler, Err(NoMemory)),
        Err(fault) => {
            let done = reply_fault(place.alloc, fault, text);
            return (editor, settler, done);
        }
    }
}

/// Answers one line beside workers, and writes the answer whole. No turn is held while it is written.
pub(crate) fn line_beside<R: Wait, W: Sink>(
    place: &Place<R>,
    editor: EditorPass<Core>,
    settler: Settler,
    line: &[u8],
    text: &mut Vec<u8>,
    sink: &mut W,
) -> (EditorPass<Core>, Settler, Result<(), SessionEnd>)
    requires { editor_turn editor ≡ turn_id place.now.turn.now }
    ensures turn { (editor_turn result.0 ≡ turn_id place.now.turn.now)
        × (editor_workers result.0 ≡ editor_workers editor) }
    ensures ok { OnOk result.2 ((words : List ℕ)
        × LineBeside line.now words (editor_list editor) (editor_seen editor) (editor_list result.0)
        (editor_seen result.0)
        × (W.written sink.new ≡ appended words (W.written sink.old))) }
    ensures err { IfErr result.2 (λ end. StopsBeside line.now end (W.written sink.old)
        (W.written sink.new) (editor_list editor) (editor_seen editor) (editor_list result.0)
        (editor_seen result.0)) }
    ensures which { IfErr result.2 (λ end. (end ≡ SessionEnd.WriteFault)
        ⊎ (end ≡ SessionEnd.NoMemory)) }
    ensures later { W.faults sink.old ≤ W.faults sink.new }
    ensures fault { result.2 ≡ Err SessionEnd.WriteFault
        → Rose (W.faults sink.old) (W.faults sink.new) }
{
    text.clear();
    let (editor, settler, done) = answer_beside(place, editor, settler, line, text);
    let Ok(()) = done else {
        return (editor, settler, Err(SessionEnd::NoMemory));
    };
    match write_answer(text.as_slice(), sink) {
        Ok(()) => return (editor, settler, Ok(())),
        Err(end) => return (editor, settler, Err(end)),
    }
}
