//! Two workers are at work on two pairs of one slot at once, while the editor waits for its next line.
use crate::cases::one_road;
use ltm_command::Status;
use ltm_io::{ReadFault, Source, SureSink};
use ltm_program::run;
use ltm_units::Pair;
use ltm_workers::Gate;
use std::sync::Wait;
use std::sync::atomic::AtomicU64;
use std::sync::atomic::Ordering::SeqCst;
use std::test::Fail;
use std::thread::yield_now;

/// How often a wait yields before it gives up.
const PATIENCE: u64 = 20_000_000;

/// How often the editor yields before it gives the edit: workers that found nothing to do sleep by then.
const LEISURE: u64 = 100_000;

/// Holds the first worker that comes until a second has come, or until it has waited too long.
#[derive(Drop)]
struct Meeting {
    entered: AtomicU64,
    met: AtomicU64,
}

impl Meeting {
    fn new() -> Meeting {
        Meeting {
            entered: AtomicU64::new(0),
            met: AtomicU64::new(0),
        }
    }

    /// Waits until two workers have come; whether they came in time.
    fn wait(&self) -> bool {
        for _ in 0..PATIENCE {
            if self.entered.load(SeqCst) > 1 {
                return true;
            }
            yield_now();
        }
        false
    }
}

impl Gate for Meeting {
    fn between<R: Wait>(&self, _rt: &R, _pair: Pair) {
        if self.entered.fetch_add(1, SeqCst) == 0 && self.wait() {
            self.met.store(1, SeqCst);
        }
    }
}

/// A wave speed of 36 km/h in place of 18: all pairs of slot 0 are to be worked on, one of each of the two nodes.
const EDIT: &str =
    "{\"do\":\"edit\",\"edits\":[{\"kind\":\"diagram\",\"link\":\"a\",\"length_m\":20,\"free_kmh\":36,\"wave_kmh\":36,\"jam_per_km\":150}]}\n";

/// Gives the edit in one read, at leisure. Before it ends it waits until two workers have come to the gate.
#[derive(Drop)]
struct EditThenWait<'a> {
    gate: &'a Meeting,
    given: bool,
}

impl<'a> Source for EditThenWait<'a> {
    ghost use Rattle.std.specs.Prelude.{None};

    ghost left = { λ _. None };

    ghost faults = { λ _. 0 };

    fn read(&mut self, into: &mut [u8]) -> Result<usize, ReadFault> {
        let line = EDIT.as_bytes();
        if self.given || into.len() < line.len() {
            let _met = self.gate.wait();
            return Ok(0);
        }
        for _ in 0..LEISURE {
            yield_now();
        }
        self.given = true;
        into[..line.len()].copy_from_slice(line);
        Ok(line.len())
    }
}

#[test]
fn two_workers_are_at_work_at_once(rt: HostRuntime) -> Result<(), Fail> {
    let alloc = rt.alloc();
    let gate = Meeting::new();
    let mut words = Vec::new(alloc);
    words.push(String::from_str(alloc, "session")?)?;
    words.push(String::from_str(alloc, "2")?)?;
    let mut folder = one_road(alloc)?;
    let mut input = EditThenWait {
        gate: &gate,
        given: false,
    };
    let mut output = SureSink::create(alloc, 100)?;
    let status = run(
        &rt,
        alloc,
        words.as_slice(),
        &mut folder,
        &mut input,
        &mut output,
        &gate,
    );
    assert!(rt; status == Status::Ok);
    assert!(rt; output.written() == "accepted version 1\n".as_bytes());
    assert!(rt; gate.met.load(SeqCst) == 1);
    Ok(())
}
