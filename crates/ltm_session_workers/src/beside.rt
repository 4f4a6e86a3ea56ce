//! An editor that answers lines beside workers.
ghost use Rattle.std.specs.Prelude.{◌≡◌};
ghost use Rattle.ltm_turn.specs.Passes.{turn_id, editor_turn, editor_list, editor_seen, editor_workers};
ghost use Rattle.ltm_session.specs.Answers.{AnswersBeside};
ghost use Rattle.ltm_session_workers.specs.Beside.{IsKnown};

use crate::answering::line_beside;
use crate::place::Place;
use ltm_core::Core;
use ltm_io::Sink;
use ltm_session::{Answerer, SessionEnd};
use ltm_turn::EditorPass;
use ltm_workers::Settler;
use std::sync::Wait;

/// An editor, where it answers lines, and what it settles with.
pub(crate) struct Beside<'a, R> {
    pub(crate) place: &'a Place<'a, R>,
    pub(crate) editor: EditorPass<Core>,
    pub(crate) settler: Settler,
}

impl<'a, R: Wait> Answerer for Beside<'a, R> {
    ghost rule = { AnswersBeside };

    ghost knows = { λ b s. IsKnown s (editor_list b.editor) (editor_seen b.editor) };

    ghost awaits = { λ b. editor_turn b.editor ≡ turn_id b.place.now.turn.now };

    ghost keeps = { λ a b. (editor_turn b.editor ≡ editor_turn a.editor)
        × (editor_workers b.editor ≡ editor_workers a.editor) };

    fn serve_line<W: Sink>(
        self,
        line: &[u8],
        text: &mut Vec<u8>,
        sink: &mut W,
    ) -> (Beside<'a, R>, Result<(), SessionEnd>) {
        let Beside {
            place,
            editor,
            settler,
        } = self;
        let (editor, settler, done) = line_beside(place, editor, settler, line, text, sink);
        let beside = Beside {
            place,
            editor,
            settler,
        };
        (beside, done)
    }

    fn before_wait(&self) {
        self.place.hints.call_while_reading(self.place.turn);
    }

    ghost use Rattle.std.proofs.Common.{refl, ◌∙◌};

    ghost stays = { λ a. (refl, refl) };

    ghost goes_on = { λ a b c p q. (q.0 ∙ p.0, q.1 ∙ p.1) };
}
