//! What each event does to a pair.
ghost use Rattle.std.specs.Prelude.{◌≡◌, ℕ, ◌≤◌, ◌++◌, true, IfOk};
ghost use Rattle.seq_semantics.specs.Held.{seq_in, IsSeqOf};
ghost use Rattle.seq_semantics.specs.Seq.{head_in};
ghost use Rattle.seq_pair.specs.Laws.{IsInStep};
ghost use Rattle.seq_pair.specs.Pair.{is_lawful, pair_after, at_call, goes_on, steps, pair_step, register_count, both_stepped, labels_after, lowered_at_call, arrives, may_get, takes_value};
ghost use Rattle.seq_pair.specs.Pairing.{pair_in, ArePaired, IsPairOf, IsLed};

use crate::event::EnvEvent;
use crate::pairing::Pairing;
use crate::stage::Stage;
use crate::trace::PairLabel;
use crate::{functions, labels, states};
use il_syntax::Program;
use seq_semantics::Seen;
use std::alloc::Global;
use values_undef::{NoMemory, Val};

impl Pairing {
    /// Plays a lawful event. Without memory the pair is of no more use.
    pub fn play(
        &mut self,
        alloc: Global,
        p: &Program,
        q: &Program,
        f: u32,
        e: &EnvEvent,
    ) -> Result<(), NoMemory>
        requires programs { ArePaired p.now q.now f }
        requires pair { IsPairOf p.now q.now f self.old }
        requires lawful { is_lawful p.now f (pair_in p.now q.now self.old) e.now ≡ true }
        requires led { IsLed p.now q.now f (pair_in p.now q.now self.old) }
        ensures state { IfOk result (λ _. pair_in p.now q.now self.new ≡ pair_after p.now q.now f (pair_in p.now q.now self.old) e.now) }
        ensures pair { IfOk result (λ _. IsPairOf p.now q.now f self.new) }
    {
        match *e {
            EnvEvent::Enter => self.enter(alloc, p, q, f),
            EnvEvent::Run { n } => self.run(p, q, f, n),
            EnvEvent::Value { target, source } => self.give(p, q, f, target, source),
            EnvEvent::Pass => self.pass(p, q, f),
            EnvEvent::Take { x } => {
                self.take(p, q, f, x);
                Ok(())
            }
            EnvEvent::Hide { x } => {
                self.hide(p, q, f, x);
                Ok(())
            }
            EnvEvent::Gain { x, target, source } => {
                self.gain(p, q, f, x, target, source);
                Ok(())
            }
            EnvEvent::See { x, v } => {
                self.see(p, q, f, x, v);
                Ok(())
            }
        }
    }

    /// Ends the entry: both functions begin with the values that they were given.
    fn enter(&mut self, alloc: Global, p: &Program, q: &Program, f: u32) -> Result<(), NoMemory>
        requires programs { ArePaired p.now q.now f }
        requires pair { IsPairOf p.now q.now f self.old }
        requires lawful { is_lawful p.now f (pair_in p.now q.now self.old) EnvEvent.Enter ≡ true }
        requires next { IsInStep (register_count p.now f) (pair_after p.now q.now f (pair_in p.now q.now self.old) EnvEvent.Enter) }
        ensures state { IfOk result (λ _. pair_in p.now q.now self.new ≡ pair_after p.now q.now f (pair_in p.now q.now self.old) EnvEvent.Enter) }
        ensures pair { IfOk result (λ _. IsPairOf p.now q.now f self.new) }
    {
        if let Stage::AtEntry { targets, sources } = &self.stage {
            self.target.enter(alloc, q, f, targets.as_slice())?;
            self.source.enter(alloc, p, f, sources.as_slice())?;
            self.stage = Stage::Inside;
            self.lower_at_call(p, q, f);
        }
        Ok(())
    }

    /// Makes at most so many steps of the target, and its partner steps of the source.
    fn run(&mut self, p: &Program, q: &Program, f: u32, n: u32) -> Result<(), NoMemory>
        requires programs { ArePaired p.now q.now f }
        requires pair { IsPairOf p.now q.now f self.old }
        requires in_step { (k : ℕ) → k ≤ n → IsInStep (register_count p.now f) (steps p.now q.now (register_count p.now f) k (pair_in p.now q.now self.old)) }
        ensures state { IfOk result (λ _. pair_in p.now q.now self.new ≡ steps p.now q.now (register_count p.now f) n (pair_in p.now q.now self.old)) }
        ensures pair { IfOk result (λ _. IsPairOf p.now q.now f self.new) }
    {
        let old = functions::register_count(p, f);
        let mut left = n;
        while left > 0 && self.goes_on(p, q, f) {
            self.step(p, q, f, old)?;
            left -= 1;
        }
        Ok(())
    }

    /// Makes a step of the target, and of the source but at an inserted load.
    fn step(&mut self, p: &Program, q: &Program, f: u32, old: usize) -> Result<(), NoMemory>
        requires programs { ArePaired p.now q.now f }
        requires pair { IsPairOf p.now q.now f self.old }
        requires registers { old ≡ register_count p.now f }
        requires goes { goes_on (pair_in p.now q.now self.old) ≡ true }
        requires now { IsInStep old (pair_in p.now q.now self.old) }
        requires next { IsInStep old (pair_step p.now q.now old (pair_in p.now q.now self.old)) }
        ensures state { IfOk result (λ _. pair_in p.now q.now self.new ≡ pair_step p.now q.now old (pair_in p.now q.now self.old)) }
        ensures pair { IfOk result (λ _. IsPairOf p.now q.now f self.new) }
    {
        if states::at_new_load(&self.target, q, old) {
            self.target.step(q);
            self.lower_at_call(p, q, f);
            return Ok(());
        }
        let target = self.target.step(q);
        let source = self.source.step(p);
        self.meet(p, q, f, target, source)
    }

    /// Gives a parameter its value, or the value that is wanted.
    fn give(
        &mut self,
        p: &Program,
        q: &Program,
        f: u32,
        target: Val,
        source: Val,
    ) -> Result<(), NoMemory>
        requires programs { ArePaired p.now q.now f }
        requires pair { IsPairOf p.now q.now f self.old }
        requires takes { takes_value p.now f (pair_in p.now q.now self.old) ≡ true }
        requires now { IsInStep (register_count p.now f) (pair_in p.now q.now self.old) }
        requires next { IsInStep (register_count p.now f) (pair_after p.now q.now f (pair_in p.now q.now self.old) (EnvEvent.Value target source)) }
        ensures state { IfOk result (λ _. pair_in p.now q.now self.new ≡ pair_after p.now q.now f (pair_in p.now q.now self.old) (EnvEvent.Value target source)) }
        ensures pair { IfOk result (λ _. IsPairOf p.now q.now f self.new) }
    {
        if let Stage::AtEntry { targets, sources } = &mut self.stage {
            targets.push(target);
            sources.push(source);
            return Ok(());
        }
        let target_seen = self.target.value(q, target);
        let source_seen = self.source.value(p, source);
        self.meet(p, q, f, target_seen, source_seen)
    }

    /// Both pass a fence.
    fn pass(&mut self, p: &Program, q: &Program, f: u32) -> Result<(), NoMemory>
        requires programs { ArePaired p.now q.now f }
        requires pair { IsPairOf p.now q.now f self.old }
        requires lawful { is_lawful p.now f (pair_in p.now q.now self.old) EnvEvent.Pass ≡ true }
        requires now { IsInStep (register_count p.now f) (pair_in p.now q.now self.old) }
        requires next { IsInStep (register_count p.now f) (pair_after p.now q.now f (pair_in p.now q.now self.old) EnvEvent.Pass) }
        ensures state { IfOk result (λ _. pair_in p.now q.now self.new ≡ pair_after p.now q.now f (pair_in p.now q.now self.old) EnvEvent.Pass) }
        ensures pair { IfOk result (λ _. IsPairOf p.now q.now f self.new) }
    {
        let target = self.target.pass(q);
        let source = self.source.pass(p);
        self.meet(p, q, f, target, source)
    }

    /// Both have made a step, of which this was seen.
    fn meet(
        &mut self,
        p: &Program,
        q: &Program,
        f: u32,
        target: Seen,
        source: Seen,
    ) -> Result<(), NoMemory>
        requires programs { ArePaired p.now q.now f }
        requires target { IsSeqOf q.now self.old.target }
        requires source { IsSeqOf p.now self.old.source }
        requires next { IsInStep (register_count p.now f) (both_stepped (pair_in p.now q.now self.old) target source (seq_in q.now self.old.target) (seq_in p.now self.old.source)) }
        ensures state { IfOk result (λ _. pair_in p.now q.now self.new ≡ both_stepped (pair_in p.now q.now self.old) target source (seq_in q.now self.old.target) (seq_in p.now self.old.source)) }
        ensures pair { IfOk result (λ _. IsPairOf p.now q.now f self.new) }
    {
        self.stage = labels::stage_after(&target, &source);
        self.write_down(target, source)?;
        self.lower_at_call(p, q, f);
        Ok(())
    }

    /// Writes down what was seen of a step.
    fn write_down(&mut self, target: Seen, source: Seen) -> Result<(), NoMemory>
        ensures labels { IfOk result (λ _. self.new ≡ record self.old { labels = self.old.labels ++ labels_after target source }) }
    {
        if !labels::is_failed(&source) && (labels::is_label(&target) || labels::is_label(&source)) {
            self.labels.push(PairLabel { target, source })?;
        }
        Ok(())
    }

    /// At a call what was owned becomes shared, in both.
    fn lower_at_call(&mut self, p: &Program, q: &Program, f: u32)
        requires programs { ArePaired p.now q.now f }
        requires pair { IsPairOf p.now q.now f self.old }
        requires calls { arrives (pair_in p.now q.now self.old) ≡ true → at_call (head_in (seq_in p.now self.old.source)) ≡ true }
        ensures state { pair_in p.now q.now self.new ≡ lowered_at_call (pair_in p.now q.now self.old) }
        ensures pair { IsPairOf p.now q.now f self.new }
    {
        if self.is_inside() && states::at_call(&self.target, q) {
            self.target.lower(q);
            self.source.lower(p);
        }
    }

    /// Both lose a location. The source may have lost it before.
    fn take(&mut self, p: &Program, q: &Program, f: u32, x: u32)
        requires programs { ArePaired p.now q.now f }
        requires pair { IsPairOf p.now q.now f self.old }
        requires lawful { is_lawful p.now f (pair_in p.now q.now self.old) (EnvEvent.Take x) ≡ true }
        ensures state { pair_in p.now q.now self.new ≡ pair_after p.now q.now f (pair_in p.now q.now self.old) (EnvEvent.Take x) }
        ensures pair { IsPairOf p.now q.now f self.new }
    {
        self.target.take(x);
        if states::is_shared(&self.source, x) {
            self.source.take(x);
        }
    }

    /// The source loses a location.
    fn hide(&mut self, p: &Program, q: &Program, f: u32, x: u32)
        requires programs { ArePaired p.now q.now f }
        requires pair { IsPairOf p.now q.now f self.old }
        requires lawful { is_lawful p.now f (pair_in p.now q.now self.old) (EnvEvent.Hide x) ≡ true }
        ensures state { pair_in p.now q.now self.new ≡ pair_after p.now q.now f (pair_in p.now q.now self.old) (EnvEvent.Hide x) }
        ensures pair { IsPairOf p.now q.now f self.new }
    {
        self.source.take(x);
    }

    /// Both are given a location.
    fn gain(&mut self, p: &Program, q: &Program, f: u32, x: u32, target: Val, source: Val)
        requires programs { ArePaired p.now q.now f }
        requires pair { IsPairOf p.now q.now f self.old }
        requires may_get { may_get p.now (pair_in p.now q.now self.old) x ≡ true }
        requires now { IsInStep (register_count p.now f) (pair_in p.now q.now self.old) }
        ensures state { pair_in p.now q.now self.new ≡ pair_after p.now q.now f (pair_in p.now q.now self.old) (EnvEvent.Gain x target source) }
        ensures pair { IsPairOf p.now q.now f self.new }
    {
        self.target.gain(q, x, target);
        self.source.gain(p, x, source);
    }

    /// The target is given a location.
    fn see(&mut self, p: &Program, q: &Program, f: u32, x: u32, v: Val)
        requires programs { ArePaired p.now q.now f }
        requires pair { IsPairOf p.now q.now f self.old }
        requires may_get { may_get p.now (pair_in p.now q.now self.old) x ≡ true }
        ensures state { pair_in p.now q.now self.new ≡ pair_after p.now q.now f (pair_in p.now q.now self.old) (EnvEvent.See x v) }
        ensures pair { IsPairOf p.now q.now f self.new }
    {
        self.target.gain(q, x, v);
    }
}
