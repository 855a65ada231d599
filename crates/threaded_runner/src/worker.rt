//! The worker of one thread.
ghost use Rattle.std.specs.Prelude.{◌≡◌, ◌+◌, ◌≤◌, ◌<◌, length, MatchOption};
ghost use Rattle.shared_memory.specs.Slot.{params_for};
ghost use Rattle.shared_memory.specs.Passes.{IsPassOf, own_calls};
ghost use Rattle.thread_core.specs.Programs.{IsProperProgram};
ghost use Rattle.thread_core.specs.Steps.{stack_in, ArePositions};
ghost use Rattle.threaded_runner.specs.Worked.{Worked};
ghost use Rattle.threaded_runner.specs.Underway.{IsUnderway};

use crate::gate::Gate;
use crate::steps::{carry_on, next_access};
use chooser::Draw;
use il_syntax::Program;
use message_memory::MessageMemory;
use shared_memory::{Answer, Pass, Shared};
use std::sync::Wait;
use thread_core::Local;

/// A thread with what it works with: its pass, its local state, and its generator.
#[derive(Drop)]
pub struct Worker<M: MessageMemory> {
    pub pass: Pass<M>,
    pub local: Local,
    pub draw: Draw,
}

impl<M: MessageMemory> Worker<M> {
    /// Makes the silent steps up to the next access, and the access. It tells how many steps of the budget are left after it;
    /// none where the thread has come to its end, or some thread has failed.
    fn make_access<R: Wait, G: Gate>(
        &mut self,
        rt: &R,
        p: &Program,
        shared: &Shared<M>,
        seed: u64,
        steps: u64,
        left: u64,
        own: u64,
        gate: &G,
    ) -> Option<u64>
        requires proper { IsProperProgram p.now }
        requires params { shared.now.params ≡ params_for p.now shared.now.params.share }
        requires share { steps < shared.now.params.share }
        requires pass { IsPassOf shared.now self.old.pass }
        requires at { ArePositions p.now self.old.local }
        requires underway { IsUnderway p.now self.old.pass.thread self.old.pass.seen (stack_in p.now self.old.local) self.old.draw seed steps left }
        ensures pass { IsPassOf shared.now self.new.pass }
        ensures thread { self.new.pass.thread ≡ self.old.pass.thread }
        ensures at { ArePositions p.now self.new.local }
        ensures over { MatchOption result
            (Worked p.now self.old.pass.thread self.new.pass.seen (own_calls self.new.pass) seed steps)
            (λ n. (n < left) × IsUnderway p.now self.old.pass.thread self.new.pass.seen (stack_in p.now self.new.local) self.new.draw seed steps n) }
    {
        let (silent, next) = self.local.run_to(p, left);
        let a = next_access(p, next, silent == left);
        gate.before(self.pass.thread(), own);
        match shared.access(rt, &mut self.pass, silent, &a, &mut self.draw) {
            Answer::Done { event } => carry_on(&mut self.local, p, &event, left - silent),
            Answer::Stopped { .. } => None,
        }
    }

    /// Runs the thread to its end, to the end of its budget or to a failure.
    pub fn work<R: Wait, G: Gate>(
        &mut self,
        rt: &R,
        p: &Program,
        shared: &Shared<M>,
        seed: u64,
        steps: u64,
        gate: &G,
    )
        requires proper { IsProperProgram p.now }
        requires params { shared.now.params ≡ params_for p.now shared.now.params.share }
        requires share { steps < shared.now.params.share }
        requires pass { IsPassOf shared.now self.old.pass }
        requires at { ArePositions p.now self.old.local }
        requires underway { IsUnderway p.now self.old.pass.thread self.old.pass.seen (stack_in p.now self.old.local) self.old.draw seed steps steps }
        ensures pass { IsPassOf shared.now self.new.pass }
        ensures thread { self.new.pass.thread ≡ self.old.pass.thread }
        ensures worked { Worked p.now self.old.pass.thread self.new.pass.seen (own_calls self.new.pass) seed steps }
    {
        let mut left = steps;
        let mut own = 0;
        while let Some(n) = self.make_access(rt, p, shared, seed, steps, left, own, gate) {
            left = n;
            own += 1;
        }
    }
}
