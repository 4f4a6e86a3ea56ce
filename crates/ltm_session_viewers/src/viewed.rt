//! A core whose lines are answered while its loadings are posted.
ghost use Rattle.std.specs.Prelude.{◌≡◌};
ghost use Rattle.ltm_session.specs.Analysts.{state_of};
ghost use Rattle.ltm_session.specs.Answers.{AnswersAlone};
ghost use Rattle.ltm_session.specs.Ready.{AwaitsLine};
ghost use Rattle.ltm_session_viewers.specs.Hung.{AllHave, board_hooks, shown_list};

use crate::boards::Boards;
use crate::news::News;
use crate::posting::post_newer;
use ltm_core::{Core, Scratch};
use ltm_io::Sink;
use ltm_session::{Answerer, SessionEnd, serve_line};
use std::alloc::Global;
use std::sync::Wait;

/// A core, what its repair needs, and where its loadings are posted. It is not `Drop`: its boards are ended.
pub(crate) struct Viewed<'a, R> {
    pub(crate) rt: &'a R,
    pub(crate) alloc: Global,
    pub(crate) news: &'a News,
    pub(crate) core: &'a mut Core,
    pub(crate) scratch: Scratch,
    pub(crate) boards: Boards,
}

impl<'a, R: Wait> Answerer for Viewed<'a, R> {
    ghost rule = { AnswersAlone };

    ghost knows = { λ v s. s ≡ state_of v.core.now };

    ghost awaits = { λ v. AwaitsLine v.core.now × AllHave v.boards (shown_list v.core.now) };

    ghost keeps = { λ a b. (b.core.ghost_name ≡ a.core.ghost_name)
        × (board_hooks b.boards ≡ board_hooks a.boards) };

    fn serve_line<W: Sink>(
        self,
        line: &[u8],
        text: &mut Vec<u8>,
        sink: &mut W,
    ) -> (Viewed<'a, R>, Result<(), SessionEnd>) {
        let Viewed {
            rt,
            alloc,
            news,
            core,
            mut scratch,
            mut boards,
        } = self;
        let before = core.shown().version();
        if let Err(end) = serve_line(alloc, core, &mut scratch, line, text, sink) {
            let viewed = Viewed {
                rt,
                alloc,
                news,
                core,
                scratch,
                boards,
            };
            return (viewed, Err(end));
        }
        let posted = post_newer(rt, news, core, before, &mut boards);
        let viewed = Viewed {
            rt,
            alloc,
            news,
            core,
            scratch,
            boards,
        };
        (viewed, posted)
    }

    fn before_wait(&self) {}

    ghost use Rattle.std.proofs.Common.{refl, ◌∙◌};

    ghost stays = { λ a. (refl, refl) };

    ghost goes_on = { λ a b c p q. (q.0 ∙ p.0, q.1 ∙ p.1) };
}
