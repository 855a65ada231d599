//! Statements with numbers for names: one walk, with faults in the order of the text.

ghost use Rattle.std.specs.Prelude.{◌≡◌, ◌+◌, ◌<◌, ◌≤◌, ◌^◌, ℕ, List, length, true, IfOk, Some};
ghost use Rattle.il_syntax.specs.declared.statement.Atom.{Atom};
ghost use Rattle.il_syntax.specs.declared.statement.Stmt.{Stmt};
ghost use Rattle.il_grammar.specs.Grammar.{skip, store, fence, print, copy, compute, load, update, cas, call, simply, choice, repeat};
ghost use Rattle.il_grammar.specs.Reading.{snoc, simple_of, tree, trees};
ghost use Rattle.il_names.specs.Known.{Known, HasSmallNumbers, snoc_length};
ghost use Rattle.il_names.specs.Faults.{half_faults, function_faults, simple_faults, atoms_faults, tree_faults, trees_faults, count, count_all};
ghost use Rattle.il_names.specs.Meaning.{is_update, choice_meaning, number, simple_meaning, atom_meaning, atoms_meaning, tree_meaning, trees_meaning};
ghost use Rattle.il_names.specs.Names.{known_of};
ghost use Rattle.il_names.specs.Resolving.{Resolves, Walks};

use crate::fault::ResolveError;
use crate::names::{
    Names, atom, atomic_location, fence_order, function, load_order, na_location, register, room,
    store_order,
};
use il_grammar::{RawAtom, RawOrder, RawSimple, RawStatement, RawUpdate, Span};
use il_syntax::{Atom, Atoms, Block, Rmw, Stmt};
use sqlite_items::Items;
use std::alloc::Global;
use values_undef::Op;

fn skipped(word: Span, before: u32) -> Result<Stmt, ResolveError>
    ensures exact { (bytes : List ℕ) (known : Known) → Resolves result (simple_faults bytes known (skip word) before) (simple_meaning bytes known (skip word)) }
    ensures within { IfOk result (λ _. before < 4096) }
{
    room(before, word.start)?;
    Ok(Stmt::Skip)
}

fn stored(
    names: &Names,
    before: u32,
    word: Span,
    order: Option<RawOrder<Span>>,
    location: Span,
    value: RawAtom<Span>,
) -> Result<Stmt, ResolveError>
    requires { HasSmallNumbers (known_of names.now) }
    ensures exact { Resolves result (simple_faults names.now.bytes.now (known_of names.now) (store word order location value) before) (simple_meaning names.now.bytes.now (known_of names.now) (store word order location value)) }
    ensures within { IfOk result (λ _. before < 4096) }
{
    room(before, word.start)?;
    store_order(order)?;
    match order {
        None => {
            let x = na_location(names, location)?;
            let a = atom(names, value)?;
            Ok(Stmt::Store { x, a })
        }
        Some(RawOrder { order, .. }) => {
            let y = atomic_location(names, location)?;
            let a = atom(names, value)?;
            Ok(Stmt::AtomicStore { order, y, a })
        }
    }
}

fn fenced(before: u32, word: Span, order: RawOrder<Span>) -> Result<Stmt, ResolveError>
    ensures exact { (bytes : List ℕ) (known : Known) → Resolves result (simple_faults bytes known (fence word order) before) (simple_meaning bytes known (fence word order)) }
    ensures within { IfOk result (λ _. before < 4096) }
{
    room(before, word.start)?;
    fence_order(order)?;
    Ok(Stmt::Fence { order: order.order })
}

fn printed(
    names: &Names,
    before: u32,
    word: Span,
    value: RawAtom<Span>,
) -> Result<Stmt, ResolveError>
    requires { HasSmallNumbers (known_of names.now) }
    ensures exact { Resolves result (simple_faults names.now.bytes.now (known_of names.now) (print word value) before) (simple_meaning names.now.bytes.now (known_of names.now) (print word value)) }
    ensures within { IfOk result (λ _. before < 4096) }
{
    room(before, word.start)?;
    let a = atom(names, value)?;
    Ok(Stmt::Print { a })
}

fn copied(
    names: &Names,
    before: u32,
    target: Span,
    value: RawAtom<Span>,
) -> Result<Stmt, ResolveError>
    requires { HasSmallNumbers (known_of names.now) }
    ensures exact { Resolves result (simple_faults names.now.bytes.now (known_of names.now) (copy target value) before) (simple_meaning names.now.bytes.now (known_of names.now) (copy target value)) }
    ensures within { IfOk result (λ _. before < 4096) }
{
    let r = register(names, target)?;
    room(before, target.start)?;
    let a = atom(names, value)?;
    Ok(Stmt::Copy { r, a })
}

fn computed(
    names: &Names,
    before: u32,
    target: Span,
    first: RawAtom<Span>,
    op: Op,
    second: RawAtom<Span>,
) -> Result<Stmt, ResolveError>
    requires { HasSmallNumbers (known_of names.now) }
    ensures exact { Resolves result (simple_faults names.now.bytes.now (known_of names.now) (compute target first op second) before) (simple_meaning names.now.bytes.now (known_of names.now) (compute target first op second)) }
    ensures within { IfOk result (λ _. before < 4096) }
{
    let r = register(names, target)?;
    room(before, target.start)?;
    let a = atom(names, first)?;
    let b = atom(names, second)?;
    Ok(Stmt::Compute { r, op, a, b })
}

fn loaded(
    names: &Names,
    before: u32,
    target: Span,
    order: Option<RawOrder<Span>>,
    location: Span,
) -> Result<Stmt, ResolveError>
    requires { HasSmallNumbers (known_of names.now) }
    ensures exact { Resolves result (simple_faults names.now.bytes.now (known_of names.now) (load target order location) before) (simple_meaning names.now.bytes.now (known_of names.now) (load target order location)) }
    ensures within { IfOk result (λ _. before < 4096) }
{
    let r = register(names, target)?;
    room(before, target.start)?;
    load_order(order)?;
    match order {
        None => {
            let x = na_location(names, location)?;
            Ok(Stmt::Load { r, x })
        }
        Some(RawOrder { order, .. }) => {
            let y = atomic_location(names, location)?;
            Ok(Stmt::AtomicLoad { r, order, y })
        }
    }
}

fn updated(
    names: &Names,
    before: u32,
    target: Span,
    kind: RawUpdate,
    order: RawOrder<Span>,
    location: Span,
    operand: RawAtom<Span>,
) -> Result<Stmt, ResolveError>
    requires { HasSmallNumbers (known_of names.now) }
    ensures exact { Resolves result (simple_faults names.now.bytes.now (known_of names.now) (update target kind order location operand) before) (simple_meaning names.now.bytes.now (known_of names.now) (update target kind order location operand)) }
    ensures within { IfOk result (λ _. before < 4096) }
{
    let r = register(names, target)?;
    room(before, target.start)?;
    let y = atomic_location(names, location)?;
    let a = atom(names, operand)?;
    let kind = match kind {
        RawUpdate::Add => Rmw::Add { a },
        RawUpdate::Swap => Rmw::Swap { a },
    };
    Ok(Stmt::Update {
        r,
        order: order.order,
        y,
        kind,
    })
}

fn compared(
    names: &Names,
    before: u32,
    target: Span,
    order: RawOrder<Span>,
    location: Span,
    expected: RawAtom<Span>,
    new: RawAtom<Span>,
) -> Result<Stmt, ResolveError>
    requires { HasSmallNumbers (known_of names.now) }
    ensures exact { Resolves result (simple_faults names.now.bytes.now (known_of names.now) (cas target order location expected new) before) (simple_meaning names.now.bytes.now (known_of names.now) (cas target order location expected new)) }
    ensures within { IfOk result (λ _. before < 4096) }
{
    let r = register(names, target)?;
    room(before, target.start)?;
    let y = atomic_location(names, location)?;
    let expected = atom(names, expected)?;
    let new = atom(names, new)?;
    Ok(Stmt::Update {
        r,
        order: order.order,
        y,
        kind: Rmw::Cas { expected, new },
    })
}

/// The arguments of a call.
fn arguments(alloc: Global, names: &Names, written: &[RawAtom<Span>]) -> Result<Atoms, ResolveError>
    requires { HasSmallNumbers (known_of names.now) }
    ensures { Resolves result (atoms_faults names.now.bytes.now (known_of names.now) (snoc written.now)) (atoms_meaning names.now.bytes.now (known_of names.now) (snoc written.now)) }
{
    let mut atoms = Items::new(alloc);
    for argument in written {
        let a = atom(names, *argument)?;
        atoms.push(a)?;
    }
    Ok(atoms)
}

/// The function of a call with these arguments.
fn callee(names: &Names, name: Span, written: &[RawAtom<Span>]) -> Result<u32, ResolveError>
    requires { HasSmallNumbers (known_of names.now) }
    ensures { Resolves result (function_faults names.now.bytes.now (known_of names.now) name (snoc_length (snoc written.now))) (number names.now.bytes.now (known_of names.now) (known_of names.now).functions name) }
{
    function(names, name, written.len())
}

fn called(
    alloc: Global,
    names: &Names,
    before: u32,
    target: Span,
    name: Span,
    written: &[RawAtom<Span>],
) -> Result<Stmt, ResolveError>
    requires { HasSmallNumbers (known_of names.now) }
    ensures exact { Resolves result (simple_faults names.now.bytes.now (known_of names.now) (call target name (snoc written.now)) before) (simple_meaning names.now.bytes.now (known_of names.now) (call target name (snoc written.now))) }
    ensures within { IfOk result (λ _. before < 4096) }
{
    let r = register(names, target)?;
    room(before, target.start)?;
    let function = callee(names, name, written)?;
    let args = arguments(alloc, names, written)?;
    Ok(Stmt::Call { r, function, args })
}

/// An `add`, `swap` or `cas`.
fn update(names: &Names, before: u32, written: &RawSimple) -> Result<Stmt, ResolveError>
    requires small { HasSmallNumbers (known_of names.now) }
    requires update { is_update (simple_of written.now) ≡ true }
    ensures exact { Resolves result (simple_faults names.now.bytes.now (known_of names.now) (simple_of written.now) before) (simple_meaning names.now.bytes.now (known_of names.now) (simple_of written.now)) }
    ensures within { IfOk result (λ _. before < 4096) }
{
    match written {
        RawSimple::Update {
            register,
            kind,
            order,
            location,
            operand,
        } => updated(names, before, *register, *kind, *order, *location, *operand),
        RawSimple::Cas {
            register,
            order,
            location,
            expected,
            new,
        } => compared(names, before, *register, *order, *location, *expected, *new),
        _ => unreachable!(),
    }
}

/// A statement that ends in a semicolon, after so many of its function.
fn simple(
    alloc: Global,
    names: &Names,
    before: u32,
    written: &RawSimple,
) -> Result<Stmt, ResolveError>
    requires { HasSmallNumbers (known_of names.now) }
    ensures exact { Resolves result (simple_faults names.now.bytes.now (known_of names.now) (simple_of written.now) before) (simple_meaning names.now.bytes.now (known_of names.now) (simple_of written.now)) }
    ensures within { IfOk result (λ _. before < 4096) }
{
    match written {
        RawSimple::Skip { word } => skipped(*word, before),
        RawSimple::Store {
            word,
            order,
            location,
            value,
        } => stored(names, before, *word, *order, *location, *value),
        RawSimple::Fence { word, order } => fenced(before, *word, *order),
        RawSimple::Print { word, value } => printed(names, before, *word, *value),
        RawSimple::Copy { register, value } => copied(names, before, *register, *value),
        RawSimple::Compute {
            register,
            first,
            op,
            second,
        } => computed(names, before, *register, *first, *op, *second),
        RawSimple::Load {
            register,
            order,
            location,
        } => loaded(names, before, *register, *order, *location),
        RawSimple::Update { .. } | RawSimple::Cas { .. } => update(names, before, written),
        RawSimple::Call {
            register,
            function,
            arguments,
        } => called(
            alloc,
            names,
            before,
            *register,
            *function,
            arguments.as_slice(),
        ),
    }
}

fn simply(
    alloc: Global,
    names: &Names,
    before: u32,
    written: &RawSimple,
) -> Result<(Stmt, u32), ResolveError>
    requires { HasSmallNumbers (known_of names.now) }
    ensures exact { Walks result (tree_faults names.now.bytes.now (known_of names.now) (simply (simple_of written.now)) before) (tree_meaning names.now.bytes.now (known_of names.now) (simply (simple_of written.now))) (before + 1) }
    ensures within { IfOk result (λ x. x.1 ≤ 4096) }
{
    let statement = simple(alloc, names, before, written)?;
    Ok((statement, before + 1))
}

/// An `if` without an `else`.
#[cycle(walk)]
fn choice(
    alloc: Global,
    names: &Names,
    before: u32,
    word: Span,
    condition: RawAtom<Span>,
    first: &[RawStatement],
) -> Result<(Stmt, u32), ResolveError>
    requires { HasSmallNumbers (known_of names.now) }
    ensures exact { Walks result (tree_faults names.now.bytes.now (known_of names.now) (choice word condition (trees first.now)) before) (tree_meaning names.now.bytes.now (known_of names.now) (choice word condition (trees first.now))) (before + count (choice word condition (trees first.now))) }
    ensures within { IfOk result (λ x. x.1 ≤ 4096) }
{
    room(before, word.start)?;
    let a = atom(names, condition)?;
    let (yes, after) = statements(alloc, names, before + 1, first)?;
    let yes = Block { statements: yes };
    let no = Block {
        statements: Items::new(alloc),
    };
    Ok((Stmt::If { a, yes, no }, after))
}

/// An `if` with an `else`, up to the `else`.
#[cycle(walk)]
fn first_half(
    alloc: Global,
    names: &Names,
    before: u32,
    word: Span,
    condition: RawAtom<Span>,
    first: &[RawStatement],
) -> Result<((Atom, Items<Stmt>), u32), ResolveError>
    requires { HasSmallNumbers (known_of names.now) }
    ensures exact { Walks {X = Atom × List Stmt} result (half_faults names.now.bytes.now (known_of names.now) word condition (trees first.now) before) (atom_meaning names.now.bytes.now (known_of names.now) condition, trees_meaning names.now.bytes.now (known_of names.now) (trees first.now)) (before + 1 + count_all (trees first.now)) }
    ensures within { IfOk result (λ x. x.1 ≤ 4096) }
{
    room(before, word.start)?;
    let a = atom(names, condition)?;
    let (yes, after) = statements(alloc, names, before + 1, first)?;
    Ok(((a, yes), after))
}

/// A choice of two blocks.
fn choice_of(a: Atom, yes: Items<Stmt>, no: Items<Stmt>) -> Stmt
    ensures { result ≡ choice_meaning a yes no }
{
    let yes = Block { statements: yes };
    let no = Block { statements: no };
    Stmt::If { a, yes, no }
}

/// A loop.
#[cycle(walk)]
fn repeat(
    alloc: Global,
    names: &Names,
    before: u32,
    word: Span,
    condition: RawAtom<Span>,
    body: &[RawStatement],
) -> Result<(Stmt, u32), ResolveError>
    requires { HasSmallNumbers (known_of names.now) }
    ensures exact { Walks result (tree_faults names.now.bytes.now (known_of names.now) (repeat word condition (trees body.now)) before) (tree_meaning names.now.bytes.now (known_of names.now) (repeat word condition (trees body.now))) (before + count (repeat word condition (trees body.now))) }
    ensures within { IfOk result (λ x. x.1 ≤ 4096) }
{
    room(before, word.start)?;
    let a = atom(names, condition)?;
    let (body, after) = statements(alloc, names, before + 1, body)?;
    let body = Block { statements: body };
    Ok((Stmt::While { a, body }, after))
}

/// A statement, and how many there are of its function with it.
#[cycle(walk)]
fn statement(
    alloc: Global,
    names: &Names,
    before: u32,
    written: &RawStatement,
) -> Result<(Stmt, u32), ResolveError>
    requires { HasSmallNumbers (known_of names.now) }
    ensures exact { Walks result (tree_faults names.now.bytes.now (known_of names.now) (tree written.now) before) (tree_meaning names.now.bytes.now (known_of names.now) (tree written.now)) (before + count (tree written.now)) }
    ensures within { IfOk result (λ x. x.1 ≤ 4096) }
{
    match written {
        RawStatement::Simple(x) => simply(alloc, names, before, x),
        RawStatement::If(word, condition, first) => choice(
            alloc, names, before, *word, *condition, first,
        ),
        RawStatement::IfElse(word, condition, first, second) => {
            let ((a, yes), after) = first_half(alloc, names, before, *word, *condition, first)?;
            let (no, after) = statements(alloc, names, after, second)?;
            Ok((choice_of(a, yes, no), after))
        }
        RawStatement::While(word, condition, body) => repeat(
            alloc, names, before, *word, *condition, body,
        ),
    }
}

/// Statements one after another, and how many there are of their function with them.
#[cycle(walk)]
pub fn statements(
    alloc: Global,
    names: &Names,
    before: u32,
    written: &[RawStatement],
) -> Result<(Items<Stmt>, u32), ResolveError>
    requires small { HasSmallNumbers (known_of names.now) }
    requires within { before ≤ 4096 }
    ensures exact { Walks result (trees_faults names.now.bytes.now (known_of names.now) (trees written.now) before) (trees_meaning names.now.bytes.now (known_of names.now) (trees written.now)) (before + count_all (trees written.now)) }
    ensures within { IfOk result (λ x. x.1 ≤ 4096) }
{
    let mut steps = Items::new(alloc);
    let mut after = before;
    for each in written {
        let (step, next) = statement(alloc, names, after, each)?;
        steps.push(step)?;
        after = next;
    }
    Ok((steps, after))
}
