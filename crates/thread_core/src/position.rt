//! One call of a function: the place where it stands, and its registers.
ghost use Rattle.std.specs.Prelude.{◌≡◌, ℕ, ◌<◌, ◌≤◌, Some, None, length, map, slice_set, slice_get, MatchOption, IfSome, IsSomeAnd};
ghost use Rattle.std.specs.List.{AllByRecursion};
ghost use Rattle.values_undef.specs.declared.value.Val.TheVariants.{Def};
ghost use Rattle.il_syntax.specs.Statements.{head_of};
ghost use Rattle.il_paths.specs.Code.{first_head};
ghost use Rattle.thread_core.specs.Programs.{function_at, body_of, IsProperAtom, IsProperUpdate, IsProperHead, IsProperFunction, IsProperProgram, IsProperNext};
ghost use Rattle.thread_core.specs.Frames.{evaluated, evaluated_kind, holds, passed, gave, worked, told, target, target_of, given_by, received, function_result, next_at, loaded, blank};
ghost use Rattle.thread_core.specs.Steps.{frame_in, statement_at, StandsAt, entered, first_path, IsPosition};

use crate::next::{Next, computed, decided, deepened, printed};
use crate::path::Path;
use il_syntax::{Atom, Function, Program, Rmw, Stmt};
use values_undef::{Access, Event, UpdateKind, Val, apply};

/// A call of a function: its next statement, by its place, and its registers.
#[derive(Drop)]
pub struct Position {
    pub function: u32,
    pub path: Path,
    pub registers: [Val; 64],
}

/// The function of this number.
pub fn function_at(p: &Program, f: u32) -> &Function
    requires there { f < length p.now.functions }
    ensures { slice_get p.now.functions f ≡ Some result.now }
{
    &p.functions.as_slice()[f as usize]
}

impl Position {
    /// The next statement, if anything is left to do.
    pub fn head<'p>(&self, p: &'p Program) -> Option<&'p Stmt>
        requires proper { IsProperProgram p.now }
        requires at { IsPosition p.now self.now }
        ensures value { MatchOption result (first_head (frame_in p.now self.now).continuation ≡ None) (λ s. first_head (frame_in p.now self.now).continuation ≡ Some (head_of s.now)) }
        ensures statement { IfSome result (λ s. statement_at p.now self.now ≡ Some s.now) }
        ensures proper { IfSome result (λ s. IsProperHead p.now 64 (head_of s.now)) }
        ensures stands { IfSome result (λ s. StandsAt p.now self.now s.now) }
    {
        self.path.statement(&function_at(p, self.function).body)
    }

    /// The next statement, which is this one, is done.
    pub fn pass(&mut self, p: &Program, statement: &Stmt, holds: bool)
        requires proper { IsProperProgram p.now }
        requires at { IsPosition p.now self.old }
        requires stands { StandsAt p.now self.old statement.now }
        ensures frame { frame_in p.now self.new ≡ passed (frame_in p.now self.old) holds }
        ensures at { IsPosition p.now self.new }
    {
        self.path
            .pass(&function_at(p, self.function).body, statement, holds);
    }

    /// The value of an atom.
    pub fn value(&self, a: &Atom) -> Val
        requires proper { IsProperAtom 64 a.now }
        ensures { result ≡ evaluated self.now.registers a.now }
    {
        match *a {
            Atom::Const(n) => Val::Def(n),
            Atom::Reg(r) => self.registers[r as usize],
        }
    }

    /// The update of a statement, with the values of its atoms.
    pub fn kind(&self, kind: &Rmw) -> UpdateKind
        requires proper { IsProperUpdate 64 kind.now }
        ensures { result ≡ evaluated_kind self.now.registers kind.now }
    {
        match kind {
            Rmw::Add { a } => UpdateKind::Add { a: self.value(a) },
            Rmw::Swap { a } => UpdateKind::Swap { a: self.value(a) },
            Rmw::Cas { expected, new } => UpdateKind::Cas {
                expected: self.value(expected),
                new: self.value(new),
            },
        }
    }

    /// The next statement, which is this one, is done, and gives a value.
    pub fn give(&mut self, p: &Program, statement: &Stmt, r: u32, v: Val)
        requires proper { IsProperProgram p.now }
        requires at { IsPosition p.now self.old }
        requires stands { StandsAt p.now self.old statement.now }
        requires register { r < 64 }
        ensures frame { frame_in p.now self.new ≡ gave (frame_in p.now self.old) r v }
        ensures at { IsPosition p.now self.new }
    {
        self.pass(p, statement, true);
        self.registers[r as usize] = v;
    }

    /// What the next statement wants, in a thread with this many calls.
    pub fn next_at(&self, p: &Program, depth: usize, statement: &Stmt) -> Next
        requires proper { IsProperHead p.now 64 (head_of statement.now) }
        ensures value { result ≡ next_at self.now.registers depth (head_of statement.now) }
        ensures proper { IsProperNext p.now result }
    {
        let a = match statement {
            Stmt::Skip | Stmt::Copy { .. } => return Next::Silent,
            Stmt::Compute { op, a, b, .. } => return computed(apply(
                *op,
                self.value(a),
                self.value(b),
            )),
            Stmt::If { a, .. } => return decided(self.value(a)),
            Stmt::While { a, .. } => return decided(self.value(a)),
            Stmt::Print { a } => return printed(self.value(a)),
            Stmt::Call { .. } => return deepened(depth),
            Stmt::Load { x, .. } => Access::NaRead { x: *x },
            Stmt::Store { x, a } => Access::NaWrite {
                x: *x,
                v: self.value(a),
            },
            Stmt::AtomicLoad { order, y, .. } => Access::Read {
                y: *y,
                order: *order,
            },
            Stmt::AtomicStore { order, y, a } => Access::Write {
                y: *y,
                order: *order,
                v: self.value(a),
            },
            Stmt::Fence { order } => Access::Fence { order: *order },
            Stmt::Update { order, y, kind, .. } => Access::Update {
                y: *y,
                order: *order,
                kind: self.kind(kind),
            },
        };
        Next::Access { a }
    }

    /// Makes the silent step of the next statement, which is this one and no call.
    pub fn work(&mut self, p: &Program, statement: &Stmt)
        requires proper { IsProperProgram p.now }
        requires at { IsPosition p.now self.old }
        requires stands { StandsAt p.now self.old statement.now }
        requires statement { IsProperHead p.now 64 (head_of statement.now) }
        ensures frame { frame_in p.now self.new ≡ worked (frame_in p.now self.old) (head_of statement.now) }
        ensures at { IsPosition p.now self.new }
    {
        match statement {
            Stmt::Skip => self.pass(p, statement, true),
            Stmt::Copy { r, a } => self.give(p, statement, *r, self.value(a)),
            Stmt::Compute { r, op, a, b } => {
                if let Some(v) = apply(*op, self.value(a), self.value(b)) {
                    self.give(p, statement, *r, v);
                }
            }
            Stmt::If { a, .. } => self.pass(p, statement, holds(self.value(a))),
            Stmt::While { a, .. } => self.pass(p, statement, holds(self.value(a))),
            _ => {}
        }
    }

    /// Takes the event of the access that comes next.
    pub fn resume(&mut self, p: &Program, e: &Event)
        requires proper { IsProperProgram p.now }
        requires at { IsPosition p.now self.old }
        ensures frame { frame_in p.now self.new ≡ told (frame_in p.now self.old) (target_of (first_head (frame_in p.now self.old).continuation)) (given_by e.now) }
        ensures at { IsPosition p.now self.new }
    {
        let Some(statement) = self.head(p) else {
            return;
        };
        match (target(p, statement), given_by(e)) {
            (Some(r), Some(v)) => self.give(p, statement, r, v),
            _ => self.pass(p, statement, true),
        }
    }

    /// Takes the result of the call that comes next.
    pub fn receive(&mut self, p: &Program, v: Val)
        requires proper { IsProperProgram p.now }
        requires at { IsPosition p.now self.old }
        ensures frame { frame_in p.now self.new ≡ received (frame_in p.now self.old) v }
        ensures at { IsPosition p.now self.new }
    {
        let Some(statement) = self.head(p) else {
            return;
        };
        if let Stmt::Call { r, .. } = statement {
            self.give(p, statement, *r, v);
        }
    }

    /// The result of the function, at its end.
    pub fn result(&self, p: &Program) -> Val
        requires proper { IsProperProgram p.now }
        requires at { IsPosition p.now self.now }
        ensures { result ≡ function_result p.now (frame_in p.now self.now) }
    {
        self.value(&function_at(p, self.function).result)
    }

    /// A call of a function with the values of these atoms.
    pub fn enter(&self, function: u32, args: &[Atom]) -> Position
        requires proper { AllByRecursion (IsProperAtom 64) args.now }
        requires few { length args.now ≤ 64 }
        ensures { result ≡ entered self.now function args.now }
    {
        let mut registers = [Val::Def(0); 64];
        for (i, a) in args.iter().enumerate() {
            registers[i] = self.value(a);
        }
        Position {
            function,
            path: Path::first(),
            registers,
        }
    }

    /// A call of a function with these values.
    pub fn begin(function: u32, values: &[Val]) -> Position
        requires { length values.now ≤ 64 }
        ensures { result ≡ record { function = function; path = first_path; registers = loaded 0 values.now blank } }
    {
        let mut registers = [Val::Def(0); 64];
        for (i, v) in values.iter().enumerate() {
            registers[i] = *v;
        }
        Position {
            function,
            path: Path::first(),
            registers,
        }
    }

    /// A call of a function with these numbers.
    pub fn begin_with(function: u32, numbers: &[i64]) -> Position
        requires { length numbers.now ≤ 64 }
        ensures { result ≡ record { function = function; path = first_path; registers = loaded 0 (map Def numbers.now) blank } }
    {
        let mut registers = [Val::Def(0); 64];
        for (i, n) in numbers.iter().enumerate() {
            registers[i] = Val::Def(*n);
        }
        Position {
            function,
            path: Path::first(),
            registers,
        }
    }
}

/// The register to which the access of a statement gives a value.
fn target(_p: &Program, statement: &Stmt) -> Option<u32>
    requires { IsProperHead _p.now 64 (head_of statement.now) }
    ensures value { result ≡ target (head_of statement.now) }
    ensures register { IfSome result (λ r. r < 64) }
{
    match statement {
        Stmt::Load { r, .. } => Some(*r),
        Stmt::AtomicLoad { r, .. } => Some(*r),
        Stmt::Update { r, .. } => Some(*r),
        _ => None,
    }
}

/// The value that an event gives.
fn given_by(e: &Event) -> Option<Val>
    ensures { result ≡ given_by e.now }
{
    match *e {
        Event::NaRead { v, .. } | Event::Read { v, .. } => Some(v),
        Event::Update { old, .. } | Event::Miss { old, .. } => Some(old),
        _ => None,
    }
}

/// The condition holds.
fn holds(v: Val) -> bool
    ensures { result ≡ holds v }
{
    match v {
        Val::Def(n) => n != 0,
        Val::Undef => false,
    }
}
