//! A partner who gives the next line only when the last one has been answered.
use crate::cases::{Case, serve};
use ltm_io::{ReadFault, Sink, SinkError, Source};
use ltm_session::SessionEnd;
use std::cell::Cell;

const LINES: [&str; 3] = [
    "{\"do\":\"totals\"}\n",
    "{\"do\":\"link\",\"link\":\"a\"}\n",
    "{\"do\":\"settle\"}\n",
];

/// Gives one line a read, and fails where not as many lines were heard as given.
#[derive(Drop)]
struct Speaker<'a> {
    heard: &'a Cell<u64>,
    given: u64,
    faults: u64,
}

impl<'a> Source for Speaker<'a> {
    ghost use Rattle.std.specs.Prelude.{◌≡◌, ℕ, ◌<◌, ◌≤◌, [], length, take, None, IfOk, IfSome, OnErr};
    ghost use Rattle.ltm_io.specs.Faults.{Rose};

    ghost left = { λ _. None };

    ghost faults = { λ speaker. speaker.faults };

    fn read(&mut self, into: &mut [u8]) -> Result<usize, ReadFault> {
        if self.heard.get() != self.given {
            self.faults = self.faults.saturating_add(1);
            return Err(ReadFault);
        }
        let line = LINES.get(self.given as usize).map_or("", |line| *line);
        let taken = line.len().min(into.len());
        into[..taken].copy_from_slice(&line.as_bytes()[..taken]);
        self.given = self.given.saturating_add(1);
        Ok(taken)
    }
}

/// Takes all that is written, and counts the newlines.
#[derive(Drop)]
struct Hearer<'a> {
    heard: &'a Cell<u64>,
}

impl<'a> Sink for Hearer<'a> {
    ghost use Rattle.std.specs.Prelude.{None};

    ghost written = { λ _. None };

    ghost faults = { λ _. 0 };

    fn write(&mut self, piece: &[u8]) -> Result<usize, SinkError> {
        for byte in piece {
            if *byte == b'\n' {
                self.heard.set(self.heard.get().saturating_add(1));
            }
        }
        Ok(piece.len())
    }
}

#[test]
fn answers_are_written_before_the_next_line_is_read(rt: HostRuntime) {
    let heard = Cell::new(0u64);
    let mut source = Speaker {
        heard: &heard,
        given: 0,
        faults: 0,
    };
    let mut sink = Hearer { heard: &heard };
    let outcome = serve(rt.alloc(), Case::OneRoad, &mut source, &mut sink).expect(&rt, "memory");
    assert!(&rt; outcome.end == SessionEnd::Ended);
    assert!(&rt; heard.get() == 3);
}
