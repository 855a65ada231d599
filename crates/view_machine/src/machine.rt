//! The machine: the threads of a program over one memory, one step at a time.
ghost use Rattle.std.specs.Prelude.{◌≡◌, ℕ, ◌+◌, ◌<◌, ◌≤◌, Some, None, IsTrue, ◌↔◌, false, length, IfOk, OnOk, OnErr, IfSome, MatchOption, IsSomeAnd, slice_get, slice_index_or};
ghost use Rattle.il_syntax.specs.Statements.{head_of};
ghost use Rattle.il_paths.specs.Code.{first_head};
ghost use Rattle.views.specs.ThreadView.{no_view};
ghost use Rattle.message_memory.specs.Memory.{IsWellFormedMemory, IsClosedView};
ghost use Rattle.message_memory.specs.Step.{IsLegal};
ghost use Rattle.values_undef.specs.Access.{choice_of_event};
ghost use Rattle.values_undef.specs.declared.access.Event.{Event};
ghost use Rattle.thread_core.specs.Programs.{IsProperProgram, IsProperAccess, IsProperNext};
ghost use Rattle.thread_core.specs.Frames.{next_of};
ghost use Rattle.thread_core.specs.Steps.{statement_at};
ghost use Rattle.view_machine.specs.State.{State, IsRunning, IsStep, IsSpendable, after_step, after_spend, initial_state, next_in, view_in, local_in, has_ended};
ghost use Rattle.view_machine.specs.Runs.{AreSilent, after_silent};
ghost use Rattle.view_machine.specs.Held.{Held, state_in, IsOf, HasRoom};

use crate::stepped::{NoStep, Stepped};
use crate::{locals, opening};
use il_syntax::{Program, Stmt};
use message_memory::MessageMemory;
use std::alloc::Global;
use std::marker::Model;
use thread_core::{Local, Next, declared_values, start_threads};
use values_undef::{Access, Choice, Event, NoMemory};
use views::View;

/// The threads of a program, and the memory that they share.
#[derive(Drop)]
pub struct Machine<M: MessageMemory> {
    locals: Vec<Local>,
    views: Vec<View>,
    ended: Vec<bool>,
    memory: M,
}

impl<M: MessageMemory> Model for Machine<M> {
    ghost use Rattle.view_machine.specs.Held.{Held};

    ghost Value = { Held };

    ghost use Rattle.view_machine.specs.Held.{IsWhole};

    ghost view = { λ m. record { locals = m.locals.items; views = m.views.items; ended = m.ended.items; memory = M.contents m.memory; spare = M.spare m.memory } };

    ghost invariant = { λ m. IsWhole (record { locals = m.locals.items; views = m.views.items; ended = m.ended.items; memory = M.contents m.memory; spare = M.spare m.memory }) };
}

impl<M: MessageMemory> Machine<M> {
    /// The initial state of a program.
    pub fn start(alloc: Global, p: &Program) -> Result<Machine<M>, NoMemory>
        requires { IsProperProgram p.now }
        ensures state { IfOk result (λ m. state_in p.now m ≡ initial_state p.now) }
        ensures program { IfOk result (λ m. IsOf p.now m) }
    {
        let locals = start_threads(alloc, p)?;
        let places = (p.na.len() + p.atomic.len()) as u32;
        let views = opening::views(alloc, places, p.threads.len())?;
        let ended = vec![in alloc; false; p.threads.len()]?;
        let na = declared_values(alloc, &p.na)?;
        let atomic = declared_values(alloc, &p.atomic)?;
        let memory = M::start(alloc, &na, &atomic)?;
        Ok(Machine {
            locals,
            views,
            ended,
            memory,
        })
    }

    /// Makes the step of a thread with this choice. `NoStep` comes exactly where there is none, and then the
    /// state is unchanged. It takes no memory.
    pub fn step(&mut self, p: &Program, thread: u32, c: &Choice) -> Result<Stepped, NoStep>
        requires proper { IsProperProgram p.now }
        requires program { IsOf p.now self.old }
        requires room { 1 ≤ self.old.spare }
        requires versions { HasRoom self.old.memory }
        ensures step { IfOk result (λ done. IsStep (state_in p.now self.old) thread c.now) }
        ensures made { IfOk result (λ done. after_step p.now (state_in p.now self.old) thread c.now ≡ record { state = state_in p.now self.new; done = done }) }
        ensures choice { IfOk result (λ done. (e : Event) → done ≡ Stepped.Did e → choice_of_event e ≡ c.now) }
        ensures none { OnErr result (IsStep (state_in p.now self.old) thread c.now → ⊥) }
        ensures same { OnErr result (self.new ≡ self.old) }
        ensures program { IsOf p.now self.new }
        ensures room { self.old.spare ≤ self.new.spare + 1 }
    {
        if !self.is_running(thread) {
            return Err(NoStep);
        }
        if *c == Choice::Plain {
            return self.step_plain(p, thread, c);
        }
        match self.next(p, thread) {
            Next::Silent => Err(NoStep),
            Next::Access { a } => self.step_by(p, thread, &a, c),
        }
    }

    /// Makes the step of a thread with the plain choice, if there is one.
    fn step_plain(&mut self, p: &Program, thread: u32, c: &Choice) -> Result<Stepped, NoStep>
        requires proper { IsProperProgram p.now }
        requires program { IsOf p.now self.old }
        requires running { IsRunning (state_in p.now self.old) thread }
        requires plain { c.now ≡ Choice.Plain }
        requires room { 1 ≤ self.old.spare }
        requires versions { HasRoom self.old.memory }
        ensures step { IfOk result (λ done. IsStep (state_in p.now self.old) thread c.now) }
        ensures made { IfOk result (λ done. after_step p.now (state_in p.now self.old) thread c.now ≡ record { state = state_in p.now self.new; done = done }) }
        ensures choice { IfOk result (λ done. (e : Event) → done ≡ Stepped.Did e → choice_of_event e ≡ c.now) }
        ensures none { OnErr result (IsStep (state_in p.now self.old) thread c.now → ⊥) }
        ensures same { OnErr result (self.new ≡ self.old) }
        ensures program { IsOf p.now self.new }
        ensures room { self.old.spare ≤ self.new.spare + 1 }
    {
        match self.proceed(p, thread) {
            Next::Silent => Ok(Stepped::Silent),
            Next::Access { a } => self.step_by(p, thread, &a, c),
        }
    }

    /// Makes the access that comes next in a thread with this choice, if it is legal.
    fn step_by(
        &mut self,
        p: &Program,
        thread: u32,
        a: &Access,
        c: &Choice,
    ) -> Result<Stepped, NoStep>
        requires proper { IsProperProgram p.now }
        requires program { IsOf p.now self.old }
        requires running { IsRunning (state_in p.now self.old) thread }
        requires asks { next_in (state_in p.now self.old) thread ≡ Next.Access a.now }
        requires named { IsProperAccess p.now a.now }
        requires room { 1 ≤ self.old.spare }
        requires versions { HasRoom self.old.memory }
        ensures step { IfOk result (λ done. IsStep (state_in p.now self.old) thread c.now) }
        ensures made { IfOk result (λ done. after_step p.now (state_in p.now self.old) thread c.now ≡ record { state = state_in p.now self.new; done = done }) }
        ensures choice { IfOk result (λ done. (e : Event) → done ≡ Stepped.Did e → choice_of_event e ≡ c.now) }
        ensures none { OnErr result (IsStep (state_in p.now self.old) thread c.now → ⊥) }
        ensures same { OnErr result (self.new ≡ self.old) }
        ensures program { IsOf p.now self.new }
        ensures room { self.old.spare ≤ self.new.spare + 1 }
    {
        if !self.is_legal(p, thread, a, c) {
            return Err(NoStep);
        }
        let event = self.access(p, thread, a, c);
        Ok(Stepped::Did { event })
    }

    /// Ends a thread whose budget of steps is used up, and leaves all else. `NoStep` comes exactly where the
    /// thread isn't there or has ended, the memory has failed, or the thread is at its end; then the state
    /// is unchanged. It takes no memory.
    pub fn spend(&mut self, p: &Program, thread: u32) -> Result<(), NoStep>
        requires proper { IsProperProgram p.now }
        requires program { IsOf p.now self.old }
        ensures able { IfOk result (λ _. IsSpendable (state_in p.now self.old) thread) }
        ensures state { IfOk result (λ _. state_in p.now self.new ≡ after_spend (state_in p.now self.old) thread) }
        ensures none { OnErr result (IsSpendable (state_in p.now self.old) thread → ⊥) }
        ensures same { OnErr result (self.new ≡ self.old) }
        ensures program { IsOf p.now self.new }
        ensures room { self.new.spare ≡ self.old.spare }
    {
        if !self.is_running(thread) || self.is_finishing(p, thread) {
            return Err(NoStep);
        }
        self.end(p, thread);
        Ok(())
    }

    /// Whether the thread is at its end.
    fn is_finishing(&self, p: &Program, thread: u32) -> bool
        requires proper { IsProperProgram p.now }
        requires program { IsOf p.now self.now }
        requires there { thread < length self.now.locals }
        ensures { IsTrue result ↔ (next_in (state_in p.now self.now) thread ≡ Next.Access Access.Finish) }
    {
        matches!(self.next(p, thread), Next::Access { a: Access::Finish })
    }

    /// Whether the thread is there and has not ended, and the memory has not failed.
    pub fn is_running(&self, thread: u32) -> bool
        ensures going { (p : Program) → IsTrue result ↔ IsRunning (state_in p self.now) thread }
        ensures there { IsTrue result → thread < length self.now.locals }
    {
        let i = thread as usize;
        i < self.locals.len() && !self.ended[i] && !self.memory.failed()
    }

    /// Whether the thread has ended, or isn't there.
    pub fn has_ended(&self, thread: u32) -> bool
        ensures value { (p : Program) → result ≡ has_ended (state_in p self.now) thread }
        ensures there { result ≡ false → thread < length self.now.locals }
    {
        let i = thread as usize;
        i >= self.ended.len() || self.ended[i]
    }

    /// The memory.
    pub fn memory(&self) -> &M
        ensures value { M.contents result.now ≡ self.now.memory }
        ensures well_formed { IsWellFormedMemory self.now.memory }
    {
        &self.memory
    }

    /// A thread's view.
    pub fn view(&self, thread: u32) -> &View
        requires there { thread < length self.now.locals }
        ensures value { result.now ≡ slice_index_or self.now.views thread no_view }
        ensures closed { IsClosedView self.now.memory result.now }
    {
        &self.views[thread as usize]
    }

    /// Makes room for at least `n` more accesses, and gives none up. After `NoMemory` all is as before.
    pub fn reserve(&mut self, n: u64) -> Result<(), NoMemory>
        ensures room { OnOk result (n ≤ self.new.spare) }
        ensures kept { self.old.spare ≤ self.new.spare }
        ensures same { self.new ≡ record self.old { spare = self.new.spare } }
        ensures err { OnErr result (self.new ≡ self.old) }
    {
        self.memory.reserve(n)
    }

    /// What comes next in a thread.
    pub fn next(&self, p: &Program, thread: u32) -> Next
        requires proper { IsProperProgram p.now }
        requires program { IsOf p.now self.now }
        requires there { thread < length self.now.locals }
        ensures value { result ≡ next_in (state_in p.now self.now) thread }
        ensures proper { IsProperNext p.now result }
    {
        locals::next_in(&self.locals, p, thread as usize)
    }

    /// The next statement of a thread's top call, or `None` exactly where nothing is left to do in it. It
    /// is the one at the site of the call, with its blocks.
    pub fn head<'p>(&self, p: &'p Program, thread: u32) -> Option<&'p Stmt>
        requires proper { IsProperProgram p.now }
        requires program { IsOf p.now self.now }
        requires there { thread < length self.now.locals }
        ensures statement { IfSome result (λ s. IsSomeAnd (slice_get self.now.locals thread) (λ l. statement_at p.now l.top ≡ Some s.now)) }
        ensures value { MatchOption result (first_head (local_in (state_in p.now self.now) thread).top.continuation ≡ None) (λ s. first_head (local_in (state_in p.now self.now) thread).top.continuation ≡ Some (head_of s.now)) }
    {
        locals::head_in(&self.locals, p, thread as usize)
    }

    /// The function of a thread's top call.
    pub fn function(&self, thread: u32) -> u32
        requires there { thread < length self.now.locals }
        ensures { (p : Program) → result ≡ (local_in (state_in p self.now) thread).top.function }
    {
        locals::function_in(&self.locals, thread as usize)
    }

    /// Tells what comes next in a thread, and makes it if it is a silent step.
    pub fn proceed(&mut self, p: &Program, thread: u32) -> Next
        requires proper { IsProperProgram p.now }
        requires program { IsOf p.now self.old }
        requires there { thread < length self.old.locals }
        ensures next { result ≡ next_in (state_in p.now self.old) thread }
        ensures proper { IsProperNext p.now result }
        ensures made { result ≡ Next.Silent → (after_step p.now (state_in p.now self.old) thread Choice.Plain).state ≡ state_in p.now self.new }
        ensures done { result ≡ Next.Silent → (after_step p.now (state_in p.now self.old) thread Choice.Plain).done ≡ Stepped.Silent }
        ensures same { (a : Access) → result ≡ Next.Access a → self.new ≡ self.old }
        ensures program { IsOf p.now self.new }
        ensures room { self.new.spare ≡ self.old.spare }
        ensures memory { self.new.memory ≡ self.old.memory }
        ensures ended { self.new.ended ≡ self.old.ended }
        ensures threads { length self.new.locals ≡ length self.old.locals }
    {
        locals::proceed_in(&mut self.locals, p, thread as usize)
    }

    /// Makes silent steps of a thread up to its next access, at most so many. It tells how many it made, fewer
    /// than `most` exactly where the thread stands at an access, and what comes next. Nothing but the thread
    /// changes.
    pub fn run_to(&mut self, p: &Program, thread: u32, most: u64) -> (u64, Next)
        requires proper { IsProperProgram p.now }
        requires program { IsOf p.now self.old }
        requires running { IsRunning (state_in p.now self.old) thread }
        ensures most { result.0 ≤ most }
        ensures silent { AreSilent p.now thread result.0 (state_in p.now self.old) }
        ensures state { state_in p.now self.new ≡ after_silent p.now thread result.0 (state_in p.now self.old) }
        ensures next { result.1 ≡ next_in (state_in p.now self.new) thread }
        ensures proper { IsProperNext p.now result.1 }
        ensures stops { result.1 ≡ Next.Silent → result.0 ≡ most }
        ensures running { IsRunning (state_in p.now self.new) thread }
        ensures program { IsOf p.now self.new }
        ensures room { self.new.spare ≡ self.old.spare }
        ensures memory { self.new.memory ≡ self.old.memory }
        ensures views { self.new.views ≡ self.old.views }
        ensures ended { self.new.ended ≡ self.old.ended }
    {
        locals::run_to_in(&mut self.locals, p, thread as usize, most)
    }

    /// Whether an access of a thread is legal with this choice.
    pub fn is_legal(&self, _p: &Program, thread: u32, a: &Access, c: &Choice) -> bool
        requires program { IsOf _p.now self.now }
        requires there { thread < length self.now.locals }
        requires named { IsProperAccess _p.now a.now }
        ensures { IsTrue result ↔ IsLegal self.now.memory (slice_index_or self.now.views thread no_view) a.now c.now }
    {
        self.memory.legal(self.view(thread), a, c)
    }

    /// Makes the access that comes next in a thread, with a choice with which it is legal, and tells its
    /// event. It takes no memory.
    pub fn access(&mut self, p: &Program, thread: u32, a: &Access, c: &Choice) -> Event
        requires proper { IsProperProgram p.now }
        requires program { IsOf p.now self.old }
        requires asks { next_in (state_in p.now self.old) thread ≡ Next.Access a.now }
        requires named { IsProperAccess p.now a.now }
        requires there { thread < length self.old.locals }
        requires legal { IsLegal self.old.memory (slice_index_or self.old.views thread no_view) a.now c.now }
        requires room { 1 ≤ self.old.spare }
        requires versions { HasRoom self.old.memory }
        ensures made { after_step p.now (state_in p.now self.old) thread c.now ≡ record { state = state_in p.now self.new; done = Stepped.Did result } }
        ensures choice { choice_of_event result ≡ c.now }
        ensures program { IsOf p.now self.new }
        ensures room { self.old.spare ≤ self.new.spare + 1 }
    {
        let i = thread as usize;
        let view = &mut self.views[i];
        let event = self.memory.access(thread, view, a, c);
        locals::take_in(&mut self.locals, p, i, &event);
        self.ended[i] = event.is_finish();
        event
    }

    /// Ends a thread whose budget of steps is used up and which isn't at its end, and leaves all else.
    pub fn end(&mut self, _p: &Program, thread: u32)
        requires program { IsOf _p.now self.old }
        requires able { IsSpendable (state_in _p.now self.old) thread }
        ensures state { state_in _p.now self.new ≡ after_spend (state_in _p.now self.old) thread }
        ensures program { IsOf _p.now self.new }
        ensures room { self.new.spare ≡ self.old.spare }
    {
        self.ended[thread as usize] = true;
    }
}
