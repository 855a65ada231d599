//! A journal of another program, played on this one.
ghost use Rattle.std.specs.Prelude.{◌≡◌, ℕ, ◌+◌, ◌^◌, ◌<◌, ◌≤◌, Bool, true, false, List, [], ◌∷◌, ◌++◌, length, replicate, slice_index, slice_set, take, drop, IfOk, OnOk, IsTrue, MatchOption, ◌↔◌};
ghost use Rattle.values_undef.specs.Journal.{used_steps, last_fails};
ghost use Rattle.values_undef.specs.declared.journal.Entry.{Entry};
ghost use Rattle.values_undef.specs.Matching.{without_place};
ghost use Rattle.thread_core.specs.Programs.{IsProperProgram};
ghost use Rattle.view_machine.specs.State.{IsStep, IsSpendable, after_spend, initial_state};
ghost use Rattle.view_machine.specs.Runs.{IsJournalRun};
ghost use Rattle.view_machine.specs.Held.{state_in, IsOf, HasRoom};
ghost use Rattle.refinement.specs.Refinement.{Refines};
ghost use Rattle.refinement.specs.Books.{recorded};
ghost use Rattle.refinement.specs.Playing.{IsPlayable, at_load, is_plain_load};
ghost use Rattle.il_syntax.specs.Statements.{head_of};
ghost use Rattle.values_undef.specs.Access.{ends_thread};
ghost use Rattle.values_undef.specs.declared.value.Val.{Val};
ghost use Rattle.refinement.specs.Playings.{played, IsNoted, IsMade, IsNoStep, IsReady, IsOpen, IsOver, IsPlayed, AreFew};

use il_syntax::{Program, Stmt};
use message_memory::MessageMemory;
use std::alloc::Global;
use values_undef::{Choice, Entry, Event, Journal, NoMemory, choice_of};
use view_machine::{Machine, NoStep, Stepped};

/// The machine, how many silent steps of each thread are not recorded yet, and the entries.
#[derive(Drop)]
struct Playing<M: MessageMemory> {
    machine: Machine<M>,
    silent: Vec<u64>,
    entries: Vec<Entry>,
}

/// What is left of a choice whose place is given up.
fn without_place(c: &Choice) -> Choice
    ensures { result ≡ without_place c.now }
{
    match *c {
        Choice::Plain => Choice::Plain,
        Choice::Message { to } => Choice::Message { to },
        Choice::Place { from, to } => Choice::Place { from, to },
        Choice::Take { read, .. } => Choice::Message { to: read },
    }
}

impl<M: MessageMemory> Playing<M> {
    /// Records an event of a thread, with the silent steps before it.
    fn record(&mut self, thread: u32, event: &Event) -> Result<(), NoMemory>
        requires there { thread < length self.old.silent.items }
        ensures silent { OnOk result (self.new.silent.items ≡ slice_set self.old.silent.items thread 0) }
        ensures entries { OnOk result (self.new.entries.items ≡ recorded self.old.entries.items self.old.silent.items thread event.now) }
        ensures machine { self.new.machine ≡ self.old.machine }
    {
        let i = thread as usize;
        let entry = Entry {
            thread,
            silent: self.silent[i],
            event: *event,
        };
        self.entries.push(entry)?;
        self.silent[i] = 0;
        Ok(())
    }

    /// Makes a step, and notes it. Tells whether it failed, or `None` where there is no such step, and then
    /// all is as before.
    fn step(&mut self, p: &Program, thread: u32, c: &Choice) -> Result<Option<bool>, NoMemory>
        requires proper { IsProperProgram p.now }
        requires program { IsOf p.now self.old.machine }
        requires threads { length self.old.silent.items ≡ length p.now.threads }
        requires versions { HasRoom self.old.machine.memory }
        requires few { (i : ℕ) → slice_index self.old.silent.items i < 2 ^ 40 }
        ensures made { IfOk result (λ o. MatchOption o (IsNoStep p.now thread c.now (played self.old.machine self.old.silent.items self.old.entries.items) (played self.new.machine self.new.silent.items self.new.entries.items)) (λ failed. IsMade p.now thread c.now (played self.old.machine self.old.silent.items self.old.entries.items) (played self.new.machine self.new.silent.items self.new.entries.items) failed)) }
    {
        self.machine.reserve(1)?;
        match self.machine.step(p, thread, c) {
            Err(NoStep) => Ok(None),
            Ok(Stepped::Silent) => {
                self.silent[thread as usize] += 1;
                Ok(Some(false))
            }
            Ok(Stepped::Did { event }) => {
                self.record(thread, &event)?;
                Ok(Some(event.is_failure()))
            }
        }
    }

    /// Makes the silent steps of an entry, and tells whether one failed.
    fn silent_steps(
        &mut self,
        p: &Program,
        done: &[Entry],
        entry: &Entry,
        rest: &[Entry],
        news: bool,
    ) -> Result<bool, NoMemory>
        requires proper { IsProperProgram p.now }
        requires few { AreFew (done.now ++ entry.now ∷ rest.now) }
        requires open { IsOpen p.now news done.now entry.now rest.now 0 (played self.old.machine self.old.silent.items self.old.entries.items) }
        ensures goes { IfOk result (λ failed. failed ≡ false → IsOpen p.now news done.now entry.now rest.now entry.now.silent (played self.new.machine self.new.silent.items self.new.entries.items)) }
        ensures over { IfOk result (λ failed. failed ≡ true → IsOver p.now (done.now ++ entry.now ∷ rest.now) (played self.new.machine self.new.silent.items self.new.entries.items)) }
    {
        for made in 0..entry.silent {
            match self.step(p, entry.thread, &Choice::Plain)? {
                Some(true) => return Ok(true),
                Some(false) => {}
                None => unreachable!(),
            }
        }
        Ok(false)
    }

    /// Ends a thread whose budget is used up, and records it.
    fn spend(&mut self, p: &Program, thread: u32) -> Result<(), NoMemory>
        requires proper { IsProperProgram p.now }
        requires program { IsOf p.now self.old.machine }
        requires there { thread < length self.old.silent.items }
        requires able { IsSpendable (state_in p.now self.old.machine) thread }
        ensures state { OnOk result (state_in p.now self.new.machine ≡ after_spend (state_in p.now self.old.machine) thread) }
        ensures silent { OnOk result (self.new.silent.items ≡ slice_set self.old.silent.items thread 0) }
        ensures entries { OnOk result (self.new.entries.items ≡ recorded self.old.entries.items self.old.silent.items thread Event.Spend) }
        ensures program { OnOk result (IsOf p.now self.new.machine) }
    {
        if self.machine.spend(p, thread).is_err() {
            unreachable!()
        }
        self.record(thread, &Event::Spend)
    }

    /// Whether a thread's next statement is a non-atomic load.
    fn at_load(&self, p: &Program, thread: u32) -> bool
        requires proper { IsProperProgram p.now }
        requires program { IsOf p.now self.now.machine }
        requires threads { length self.now.silent.items ≡ length p.now.threads }
        ensures { result ≡ at_load (state_in p.now self.now.machine) thread }
    {
        if thread as usize >= self.silent.len() {
            return false;
        }
        match self.machine.head(p, thread) {
            Some(statement) => is_load(statement),
            None => false,
        }
    }

    /// Makes the access of an entry: with the event's own choice, or without its place, and then it fails.
    fn access(
        &mut self,
        p: &Program,
        done: &[Entry],
        entry: &Entry,
        rest: &[Entry],
        news: bool,
    ) -> Result<bool, NoMemory>
        requires proper { IsProperProgram p.now }
        requires few { AreFew (done.now ++ entry.now ∷ rest.now) }
        requires open { IsOpen p.now news done.now entry.now rest.now entry.now.silent (played self.old.machine self.old.silent.items self.old.entries.items) }
        requires goes { ends_thread entry.now.event ≡ false }
        requires load { (x : ℕ) (v : Val) → entry.now.event ≡ Event.NaRead x v → at_load (state_in p.now self.old.machine) entry.now.thread ≡ true }
        ensures goes { IfOk result (λ failed. failed ≡ false → IsReady p.now news (done.now ++ entry.now ∷ []) rest.now (played self.new.machine self.new.silent.items self.new.entries.items)) }
        ensures over { IfOk result (λ failed. failed ≡ true → IsOver p.now (done.now ++ entry.now ∷ rest.now) (played self.new.machine self.new.silent.items self.new.entries.items)) }
    {
        let c = choice_of(&entry.event);
        if let Some(failed) = self.step(p, entry.thread, &c)? {
            return Ok(failed);
        }
        match self.step(p, entry.thread, &without_place(&c))? {
            Some(failed) => Ok(failed),
            None => unreachable!(),
        }
    }

    /// Makes the end of a thread, or of its budget.
    fn end(
        &mut self,
        p: &Program,
        done: &[Entry],
        entry: &Entry,
        rest: &[Entry],
        news: bool,
    ) -> Result<bool, NoMemory>
        requires proper { IsProperProgram p.now }
        requires few { AreFew (done.now ++ entry.now ∷ rest.now) }
        requires open { IsOpen p.now news done.now entry.now rest.now entry.now.silent (played self.old.machine self.old.silent.items self.old.entries.items) }
        requires ends { ends_thread entry.now.event ≡ true }
        ensures goes { IfOk result (λ failed. failed ≡ false) }
        ensures ready { OnOk result (IsReady p.now news (done.now ++ entry.now ∷ []) rest.now (played self.new.machine self.new.silent.items self.new.entries.items)) }
    {
        if entry.event.is_spend() {
            self.spend(p, entry.thread)?;
            return Ok(false);
        }
        match self.step(p, entry.thread, &Choice::Plain)? {
            Some(failed) => Ok(failed),
            None => unreachable!(),
        }
    }

    /// Plays the event of an entry, and tells whether it failed.
    fn event(
        &mut self,
        p: &Program,
        done: &[Entry],
        entry: &Entry,
        rest: &[Entry],
        news: bool,
    ) -> Result<bool, NoMemory>
        requires proper { IsProperProgram p.now }
        requires few { AreFew (done.now ++ entry.now ∷ rest.now) }
        requires open { IsOpen p.now news done.now entry.now rest.now entry.now.silent (played self.old.machine self.old.silent.items self.old.entries.items) }
        ensures goes { IfOk result (λ failed. failed ≡ false → IsReady p.now news (done.now ++ entry.now ∷ []) rest.now (played self.new.machine self.new.silent.items self.new.entries.items)) }
        ensures over { IfOk result (λ failed. failed ≡ true → IsOver p.now (done.now ++ entry.now ∷ rest.now) (played self.new.machine self.new.silent.items self.new.entries.items)) }
    {
        if entry.event.ends_thread() {
            return self.end(p, done, entry, rest, news);
        }
        if entry.event.is_read() && !self.at_load(p, entry.thread) {
            return Ok(false);
        }
        self.access(p, done, entry, rest, news)
    }

    /// Plays an entry, and tells whether a thread failed.
    fn entry(
        &mut self,
        p: &Program,
        done: &[Entry],
        entry: &Entry,
        rest: &[Entry],
        news: bool,
    ) -> Result<bool, NoMemory>
        requires proper { IsProperProgram p.now }
        requires few { AreFew (done.now ++ entry.now ∷ rest.now) }
        requires ready { IsReady p.now news done.now (entry.now ∷ rest.now) (played self.old.machine self.old.silent.items self.old.entries.items) }
        ensures goes { IfOk result (λ failed. failed ≡ false → IsReady p.now news (done.now ++ entry.now ∷ []) rest.now (played self.new.machine self.new.silent.items self.new.entries.items)) }
        ensures over { IfOk result (λ failed. failed ≡ true → IsOver p.now (done.now ++ entry.now ∷ rest.now) (played self.new.machine self.new.silent.items self.new.entries.items)) }
    {
        if self.silent_steps(p, done, entry, rest, news)? {
            return Ok(true);
        }
        self.event(p, done, entry, rest, news)
    }

    /// Plays all entries, up to the first in which a thread fails.
    fn entries(&mut self, p: &Program, all: &[Entry], news: bool) -> Result<(), NoMemory>
        requires proper { IsProperProgram p.now }
        requires few { AreFew all.now }
        requires ready { IsReady p.now news [] all.now (played self.old.machine self.old.silent.items self.old.entries.items) }
        ensures { OnOk result (IsPlayed p.now news all.now self.new.entries.items) }
    {
        for k in 0..all.len() {
            let entry = &all[k];
            if self.entry(p, &all[..k], entry, &all[k + 1..], news)? {
                return Ok(());
            }
        }
        Ok(())
    }

    /// The beginning of the program.
    fn start(alloc: Global, p: &Program) -> Result<Playing<M>, NoMemory>
        requires { IsProperProgram p.now }
        ensures state { IfOk result (λ w. state_in p.now w.machine ≡ initial_state p.now) }
        ensures program { IfOk result (λ w. IsOf p.now w.machine) }
        ensures silent { IfOk result (λ w. w.silent.items ≡ replicate (length p.now.threads) 0) }
        ensures entries { IfOk result (λ w. w.entries.items ≡ []) }
    {
        let machine = Machine::start(alloc, p)?;
        let silent = vec![in alloc; 0; p.threads.len()]?;
        Ok(Playing {
            machine,
            silent,
            entries: Vec::new(alloc),
        })
    }
}

/// Plays a journal of another program on this one: each silent step is answered by a step, each event by
/// one that it stands below, and where a thread fails the play ends. `news` says whether the other program
/// may have loads of its own. The answer is a run of this program that the journal refines; where the other
/// program has no loads of its own and no thread failed, each thread has used as many steps. The only error
/// is want of memory.
pub fn play<M: MessageMemory>(
    alloc: Global,
    p: &Program,
    j: &Journal,
    news: bool,
) -> Result<Journal, NoMemory>
    requires proper { IsProperProgram p.now }
    requires playable { IsPlayable p.now news (initial_state p.now) j.now }
    requires few { AreFew j.now }
    ensures { IfOk result (λ js. IsPlayed p.now news j.now js) }
{
    let mut playing = Playing::<M>::start(alloc, p)?;
    playing.entries(p, &j.entries, news)?;
    Ok(Journal {
        entries: playing.entries,
    })
}

/// Whether the statement is a non-atomic load.
fn is_load(statement: &Stmt) -> bool
    ensures { result ≡ is_plain_load (head_of statement.now) }
{
    matches!(statement, Stmt::Load { .. })
}
