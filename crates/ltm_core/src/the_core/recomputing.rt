//! A pair is claimed, worked on and committed in one call.
use super::Core;
use crate::answers::Recomputed;
use crate::history::{Event, add};
use crate::laws::repair_laws;
use crate::scratch::Scratch;
use ltm_setting::{is_setting, node_count};
use ltm_working::Found;

impl Core {
    ghost use Rattle.ltm_core.specs.CoreAnswers.{Keeps, TellsRecompute};

    /// Claims a pair as `claim` does, works on it and commits it: for who has no cause to let others act in between. No
    /// claim is handed out and compared again. Takes no memory.
    pub fn recompute(&mut self, scratch: &mut Scratch) -> Recomputed
        ensures answer { TellsRecompute self.old result self.new }
        ensures stays { Keeps self.old self.new }
    {
        repair_laws();
        is_setting(&self.scenario);
        let _nodes = node_count(&self.scenario);
        let found = self
            .table
            .recompute(&self.scenario, &mut scratch.inputs, &mut scratch.outputs);
        match found {
            Found::Work(pair) => {
                self.commits += 1;
                add(&mut self.history, Event::Claim(pair));
                add(&mut self.history, Event::Commit(pair));
                return Recomputed::Done(pair);
            }
            Found::Wait => {
                add(&mut self.history, Event::Look);
                return Recomputed::NotYet;
            }
            Found::Rest => {
                add(&mut self.history, Event::Look);
                return Recomputed::Rest;
            }
        }
    }
}
