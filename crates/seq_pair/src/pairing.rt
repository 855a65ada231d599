//! Target and source of a function, each alone, and which events they admit together.
ghost use Rattle.std.specs.Prelude.{◌≡◌, ◌<◌, ◌&&◌, nat_le, length};
ghost use Rattle.il_syntax.specs.declared.program.Program.{Program as TheProgram};
ghost use Rattle.seq_pair.specs.Pair.{is_inside, is_without_failure, is_below, may_hear, may_get, takes_value, is_lawful, goes_on};
ghost use Rattle.seq_pair.specs.Pairing.{pair_in, ArePaired, IsPairOf};

use crate::event::EnvEvent;
use crate::stage::Stage;
use crate::trace::{PairEnd, PairLabels};
use crate::{functions, states};
use il_syntax::Program;
use seq_semantics::SeqState;
use values_undef::{Val, below};

/// Target and source of a function, and what was written down of their steps.
#[derive(Drop)]
pub struct Pairing {
    pub stage: Stage,
    pub target: SeqState,
    pub source: SeqState,
    pub labels: PairLabels,
}

/// A value below another.
fn is_below(t: Val, s: Val) -> bool
    ensures { result ≡ is_below t s }
{
    below(t, s)
}

impl Pairing {
    /// The event is lawful.
    pub fn admits(&self, p: &Program, q: &Program, f: u32, e: &EnvEvent) -> bool
        requires programs { ArePaired p.now q.now f }
        requires pair { IsPairOf p.now q.now f self.now }
        ensures { result ≡ is_lawful p.now f (pair_in p.now q.now self.now) e.now }
    {
        match *e {
            EnvEvent::Enter => self.may_enter(p, f),
            EnvEvent::Run { n } => self.may_run(n),
            EnvEvent::Value { target, source } => {
                self.takes_value(p, q, f) && is_below(target, source)
            }
            EnvEvent::Take { x } => self.may_take(p, q, f, x),
            EnvEvent::Hide { x } => self.may_hide(p, q, f, x),
            EnvEvent::Gain { x, target, source } => {
                self.may_get(p, q, f, x) && is_below(target, source)
            }
            EnvEvent::See { x, .. } => self.may_get(p, q, f, x),
            EnvEvent::Pass => self.is_inside() && states::wants_fence(&self.target, q),
        }
    }

    /// The function is begun and not over.
    pub fn is_inside(&self) -> bool
        ensures { result ≡ is_inside self.now.stage }
    {
        match self.stage {
            Stage::Inside => true,
            _ => false,
        }
    }

    /// The source has not failed.
    fn is_without_failure(&self) -> bool
        ensures { result ≡ is_without_failure self.now.stage }
    {
        match self.stage {
            Stage::Over {
                end: PairEnd::SourceFailed,
            } => false,
            _ => true,
        }
    }

    /// The entry may end: each parameter has its value.
    fn may_enter(&self, p: &Program, f: u32) -> bool
        requires there { f < length p.now.functions }
        ensures { (q : TheProgram) → result ≡ is_lawful p.now f (pair_in p.now q self.now) EnvEvent.Enter }
    {
        match &self.stage {
            Stage::AtEntry { targets, .. } => {
                targets.as_slice().len() == functions::parameter_count(p, f)
            }
            _ => false,
        }
    }

    /// So many steps may be made.
    fn may_run(&self, n: u32) -> bool
        ensures { result ≡ (is_inside self.now.stage && (nat_le 1 n && nat_le n 16384)) }
    {
        self.is_inside() && 1 <= n && n <= 16384
    }

    /// A parameter has no value yet, or a value is wanted.
    fn takes_value(&self, p: &Program, q: &Program, f: u32) -> bool
        requires programs { ArePaired p.now q.now f }
        requires pair { IsPairOf p.now q.now f self.now }
        ensures { result ≡ takes_value p.now f (pair_in p.now q.now self.now) }
    {
        match &self.stage {
            Stage::AtEntry { targets, .. } => {
                targets.as_slice().len() < functions::parameter_count(p, f)
            }
            Stage::Inside => states::wants_value(&self.target, q),
            Stage::Over { .. } => false,
        }
    }

    /// Both may lose the location.
    fn may_take(&self, p: &Program, q: &Program, f: u32, x: u32) -> bool
        requires programs { ArePaired p.now q.now f }
        requires pair { IsPairOf p.now q.now f self.now }
        ensures { result ≡ is_lawful p.now f (pair_in p.now q.now self.now) (EnvEvent.Take x) }
    {
        self.is_without_failure()
            && (x as usize) < p.na.len()
            && states::is_shared(&self.target, x)
            && !states::is_owned(&self.source, x)
    }

    /// The source may lose the location.
    fn may_hide(&self, p: &Program, q: &Program, f: u32, x: u32) -> bool
        requires programs { ArePaired p.now q.now f }
        requires pair { IsPairOf p.now q.now f self.now }
        ensures { result ≡ is_lawful p.now f (pair_in p.now q.now self.now) (EnvEvent.Hide x) }
    {
        self.is_without_failure() && (x as usize) < p.na.len() && states::is_shared(&self.source, x)
    }

    /// Others may be heard.
    fn may_hear(&self, p: &Program, q: &Program, f: u32) -> bool
        requires programs { ArePaired p.now q.now f }
        requires pair { IsPairOf p.now q.now f self.now }
        ensures { result ≡ may_hear (pair_in p.now q.now self.now) }
    {
        match &self.stage {
            Stage::AtEntry { .. } => true,
            Stage::Inside => {
                (states::wants_value(&self.target, q) || states::wants_fence(&self.target, q))
                    && states::hears(&self.target, q)
            }
            Stage::Over { .. } => false,
        }
    }

    /// Others may be heard, and neither has the location.
    fn may_get(&self, p: &Program, q: &Program, f: u32, x: u32) -> bool
        requires programs { ArePaired p.now q.now f }
        requires pair { IsPairOf p.now q.now f self.now }
        ensures { result ≡ may_get p.now (pair_in p.now q.now self.now) x }
    {
        self.may_hear(p, q, f)
            && (x as usize) < p.na.len()
            && states::is_bare(&self.target, x)
            && states::is_bare(&self.source, x)
    }

    /// A step is to be made.
    pub fn goes_on(&self, p: &Program, q: &Program, f: u32) -> bool
        requires programs { ArePaired p.now q.now f }
        requires pair { IsPairOf p.now q.now f self.now }
        ensures { result ≡ goes_on (pair_in p.now q.now self.now) }
    {
        self.is_inside() && states::wants_step(&self.target, q)
    }
}
