//! A core that answers lines by itself, without workers.
ghost use Rattle.std.specs.Prelude.{◌≡◌};
ghost use Rattle.ltm_session.specs.Analysts.{state_of};
ghost use Rattle.ltm_session.specs.Answers.{AnswersAlone};
ghost use Rattle.ltm_session.specs.Ready.{AwaitsLine};

use crate::answerer::Answerer;
use crate::ends::SessionEnd;
use crate::serving::serve_line;
use ltm_core::{Core, Scratch};
use ltm_io::Sink;
use std::alloc::Global;

/// A core without workers, and what its repair needs.
#[derive(Drop)]
pub(crate) struct Alone {
    pub(crate) alloc: Global,
    pub(crate) core: Core,
    pub(crate) scratch: Scratch,
}

impl Answerer for Alone {
    ghost rule = { AnswersAlone };

    ghost knows = { λ a s. s ≡ state_of a.core };

    ghost awaits = { λ a. AwaitsLine a.core };

    ghost keeps = { λ a b. AwaitsLine a.core → AwaitsLine b.core };

    fn serve_line<W: Sink>(
        self,
        line: &[u8],
        text: &mut Vec<u8>,
        sink: &mut W,
    ) -> (Alone, Result<(), SessionEnd>) {
        let Alone {
            alloc,
            mut core,
            mut scratch,
        } = self;
        let done = serve_line(alloc, &mut core, &mut scratch, line, text, sink);
        (
            Alone {
                alloc,
                core,
                scratch,
            },
            done,
        )
    }

    fn before_wait(&self) {}

    ghost stays = { λ a p. p };

    ghost goes_on = { λ a b c p q r. q (p r) };
}
