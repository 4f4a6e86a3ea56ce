//! What workers do: claim a pair, commit it, or give it back.
ghost use Rattle.std.specs.Prelude.{◌≡◌, ◌↔◌, IsTrue};

use super::Core;
use crate::answers::{Claimed, Committed};
use crate::claim::{Claim, Done};
use crate::history::{Event, add};
use crate::laws::repair_laws;
use crate::scratch::Scratch;
use ltm_inputs::shape_of;
use ltm_node::{NodeInputs, NodeShape, Solved};
use ltm_setting::{is_setting, node_count};
use ltm_units::Pair;
use ltm_working::Found;

/// Whether two shapes are equal.
fn same_shape(a: NodeShape, b: NodeShape) -> bool
    ensures { IsTrue result ↔ (a ≡ b) }
{
    a == b
}

impl Core {
    ghost use Rattle.ltm_repair.specs.Answers.{AnswersClaim};
    ghost use Rattle.ltm_repair.specs.Making.{claim_event};
    ghost use Rattle.ltm_core.specs.Cores.{repair_of};
    ghost use Rattle.ltm_core.specs.CoreAnswers.{answer_in, KeepsClaim, KeepsAll, Adds, IsKeptClaim, Keeps, CommitsDone, TellsCommit, TellsGiveBack};

    /// Claims a pair of the front slot whose inputs differ from the kept ones. Settled pairs are dropped on the way; while
    /// claims are out, at their slot alone. Takes no memory.
    pub fn claim(&mut self, scratch: Scratch) -> Claimed
        ensures answer { AnswersClaim (repair_of self.old) (answer_in result) (repair_of self.new) }
        ensures kept { KeepsClaim result self.new }
        ensures keeps { KeepsAll self.old self.new }
        ensures adds { Adds self.old (claim_event (answer_in result)) self.new }
        ensures stays { Keeps self.old self.new }
    {
        repair_laws();
        is_setting(&self.scenario);
        let ticket = self.log.version();
        let Scratch {
            mut inputs,
            outputs,
        } = scratch;
        match self.table.claim(&self.scenario, &mut inputs) {
            Found::Work(pair) => {
                add(&mut self.history, Event::Claim(pair));
                return Claimed::Got(Claim {
                    pair,
                    ticket,
                    inputs,
                    outputs,
                });
            }
            Found::Wait => {
                add(&mut self.history, Event::Look);
                return Claimed::NotYet(Scratch { inputs, outputs });
            }
            Found::Rest => {
                add(&mut self.history, Event::Look);
                return Claimed::Rest(Scratch { inputs, outputs });
            }
        }
    }

    /// Whether a claim is kept that has this pair, ticket and inputs.
    fn keeps(&self, pair: Pair, ticket: u64, inputs: &NodeInputs) -> bool
        ensures { IsTrue result ↔ IsKeptClaim self.now pair ticket inputs.now }
    {
        if ticket != self.log.version() {
            return false;
        }
        if !self.table.holds(&self.scenario, pair, inputs.row()) {
            return false;
        }
        same_shape(inputs.shape(), shape_of(&self.scenario, pair.node))
    }

    /// Commits a claim that is kept.
    fn commit_kept(&mut self, pair: Pair, ticket: u64, solved: &Solved)
        requires { IsKeptClaim self.old pair ticket solved.now.inputs }
        ensures { CommitsDone self.old pair solved.now.inputs.row self.new }
    {
        repair_laws();
        is_setting(&self.scenario);
        let _nodes = node_count(&self.scenario);
        let _ticket = ticket;
        self.table.commit(&self.scenario, pair, solved);
        self.commits += 1;
        add(&mut self.history, Event::Commit(pair));
    }

    /// Sets the counts of a claimed pair to its step and keeps its inputs, where its claim is kept; exactly the readers of
    /// what changed become active. The pair may be any pair. Takes no memory.
    pub fn commit(&mut self, done: Done) -> Committed
        ensures answer { TellsCommit self.old done result self.new }
        ensures stays { Keeps self.old self.new }
    {
        let now = self.log.version();
        if self.keeps(done.pair, done.ticket, done.solved.inputs()) {
            self.commit_kept(done.pair, done.ticket, &done.solved);
            return Committed::Ok(done.into_scratch());
        }
        let claimed_at = done.ticket;
        Committed::Stale {
            claimed_at,
            now,
            scratch: done.into_scratch(),
        }
    }

    /// Frees the pair of a claim, where it is kept.
    fn free(&mut self, claim: &Claim)
        ensures { TellsGiveBack self.old claim.now self.new }
    {
        repair_laws();
        if self.keeps(claim.pair, claim.ticket, &claim.inputs) {
            self.table.give_back(&self.scenario, claim.pair);
            add(&mut self.history, Event::GiveBack(claim.pair));
        }
    }

    /// Gives a claim back: its pair is active again, where the claim is kept. Takes no memory.
    pub fn give_back(&mut self, claim: Claim) -> Scratch
        ensures answer { TellsGiveBack self.old claim self.new }
        ensures stays { Keeps self.old self.new }
    {
        self.free(&claim);
        claim.into_scratch()
    }
}
