//! A value that two threads hold by turns.
ghost use Rattle.std.specs.Prelude.{◌≡◌, IfSome};
ghost use Rattle.ltm_turn.specs.Passes.{turn_id, editor_turn, worker_turn, editor_workers};

use ltm_turn::{EditorPass, Told, Turn, WorkerPass};
use std::alloc::Global;
use std::sync::Wait;
use std::thread::{Threads, join};

// How many turns each thread takes.
const TURNS: u64 = 200;

// A list of numbers, and a number.
#[derive(Drop)]
struct Board {
    list: Vec<u8>,
    number: u64,
}

impl Told for Board {
    type Entry = u8;

    ghost entries = { λ v. v.list.items };

    ghost number = { λ v. v.number };

    ghost may_become = { λ v w. w.list.items ≡ v.list.items };
}

/// A board without entries in a turn, and the pass of its editor.
fn created(alloc: Global) -> Option<(Turn<Board>, EditorPass<Board>)>
    ensures { IfSome result (λ r. (editor_turn r.1 ≡ turn_id r.0) × (editor_workers r.1 ≡ 0)) }
{
    let board = Board {
        list: Vec::new(alloc),
        number: 0,
    };
    Turn::create(alloc, board).ok()
}

/// A worker makes a number below 3 to 3.
fn raise(rt: &impl Wait, turn: &Turn<Board>, worker: WorkerPass<Board>) -> WorkerPass<Board>
    requires { worker_turn worker ≡ turn_id turn.now }
    ensures { worker_turn result ≡ turn_id turn.now }
{
    let mut held = turn.take_worker(rt, worker);
    let number = held.get().number;
    held.get_mut().number = number.max(3);
    turn.give_worker(held)
}

/// The editor puts an entry behind those that it finds: how many these are, the number that it finds, and whether there was
/// memory.
fn append(
    rt: &impl Wait,
    turn: &Turn<Board>,
    editor: EditorPass<Board>,
) -> (EditorPass<Board>, usize, u64, bool)
    requires { editor_turn editor ≡ turn_id turn.now }
    ensures turn { editor_turn result.0 ≡ turn_id turn.now }
    ensures workers { editor_workers result.0 ≡ editor_workers editor }
{
    let mut held = turn.take_editor(rt, editor);
    let found = held.get().list.len();
    let number = held.get().number;
    let pushed = held.get_mut().list.push(7).is_ok();
    (turn.give_editor(held), found, number, pushed)
}

/// What is found of a turn in which a worker raises the number and the editor puts an entry: how many workers there are
/// before and after; what the editor found, and whether there was memory; the number at the end, and whether the entry is
/// the only one.
fn raise_and_append(
    rt: &impl Wait,
    turn: Turn<Board>,
    mut editor: EditorPass<Board>,
) -> ([u32; 2], (usize, u64, bool), (u64, bool))
    requires { (editor_turn editor ≡ turn_id turn) × (editor_workers editor ≡ 0) }
{
    let worker = turn.split(&mut editor);
    let before = editor.workers();
    let worker = raise(rt, &turn, worker);
    let (mut editor, entries, number, pushed) = append(rt, &turn, editor);
    turn.join(&mut editor, worker);
    let after = editor.workers();
    let board = turn.close(editor);
    let alone = board.list.as_slice() == [7].as_slice();
    (
        [before, after],
        (entries, number, pushed),
        (board.number, alone),
    )
}

// A worker raises the number, and the editor puts an entry behind those that it finds.
#[test]
fn the_editor_finds_the_list_that_it_left(rt: HostRuntime) {
    let Some((turn, editor)) = created(rt.alloc()) else {
        panic!(rt; "no memory")
    };
    let (workers, found, left) = raise_and_append(&rt, turn, editor);
    assert!(rt; workers == [1, 0] && found == (0, 3, true) && left == (3, true));
}

// The worker raises the number by one in each of many turns.
fn count_as_worker(
    rt: &impl Wait,
    turn: &Turn<Board>,
    mut pass: WorkerPass<Board>,
) -> WorkerPass<Board>
    requires { worker_turn pass ≡ turn_id turn.now }
    ensures { worker_turn result ≡ turn_id turn.now }
{
    for _ in 0..TURNS {
        let mut held = turn.take_worker(rt, pass);
        let number = held.get().number;
        held.get_mut().number = number.saturating_add(1);
        pass = turn.give_worker(held);
    }
    pass
}

// The editor does the same.
fn count_as_editor(
    rt: &impl Wait,
    turn: &Turn<Board>,
    mut pass: EditorPass<Board>,
) -> EditorPass<Board>
    requires { editor_turn pass ≡ turn_id turn.now }
    ensures turn { editor_turn result ≡ turn_id turn.now }
    ensures workers { editor_workers result ≡ editor_workers pass }
{
    for _ in 0..TURNS {
        let mut held = turn.take_editor(rt, pass);
        let number = held.get().number;
        held.get_mut().number = number.saturating_add(1);
        pass = turn.give_editor(held);
    }
    pass
}

// Two threads count in one value: the number at the end.
fn count_together<R: Threads + Wait + Sync>(
    rt: &R,
    turn: Turn<Board>,
    mut editor: EditorPass<Board>,
) -> u64
    requires { (editor_turn editor ≡ turn_id turn) × (editor_workers editor ≡ 0) }
{
    let worker = turn.split(&mut editor);
    let (worker, mut editor) = join(
        rt,
        || -> WorkerPass<Board>
            requires { worker_turn worker ≡ turn_id turn }
            ensures { worker_turn result ≡ turn_id turn }
        { count_as_worker(rt, &turn, worker) },
        || -> EditorPass<Board>
            requires { editor_turn editor ≡ turn_id turn }
            ensures turn { editor_turn result ≡ turn_id turn }
            ensures workers { editor_workers result ≡ editor_workers editor }
        { count_as_editor(rt, &turn, editor) },
    );
    turn.join(&mut editor, worker);
    turn.close(editor).number
}

// None of their counts is lost.
#[test]
fn two_threads_lose_no_count(rt: HostRuntime) {
    let Some((turn, editor)) = created(rt.alloc()) else {
        panic!(rt; "no memory")
    };
    assert!(rt; count_together(&rt, turn, editor) == 2 * TURNS);
}
