//! Whether two statements are the same, their blocks left aside.
ghost use Rattle.std.specs.Prelude.{◌≡◌};
ghost use Rattle.il_syntax.specs.Statements.{Head, head_of};
ghost use Rattle.il_paths.specs.Atoms.{atoms_equal};
ghost use Rattle.rewriting.specs.Heads as same;

use il_syntax::{Atom, Rmw, Stmt};
use values_undef::{Op, Order};

fn order_number(order: Order) -> u32
    ensures { result ≡ same.order_number order }
{
    match order {
        Order::Rlx => 0,
        Order::Acq => 1,
        Order::Rel => 2,
        Order::AcqRel => 3,
    }
}

fn op_number(op: Op) -> u32
    ensures { result ≡ same.op_number op }
{
    match op {
        Op::Add => 0,
        Op::Sub => 1,
        Op::Mul => 2,
        Op::Div => 3,
        Op::Rem => 4,
        Op::And => 5,
        Op::Or => 6,
        Op::Xor => 7,
        Op::Eq => 8,
        Op::Ne => 9,
        Op::Lt => 10,
        Op::Le => 11,
    }
}

fn is_order(order: Order, other: Order) -> bool
    ensures { result ≡ same.same_order order other }
{
    order_number(order) == order_number(other)
}

fn is_op(op: Op, other: Op) -> bool
    ensures { result ≡ same.same_op op other }
{
    op_number(op) == op_number(other)
}

fn is_atom(a: Atom, b: Atom) -> bool
    ensures { result ≡ atoms_equal a b }
{
    a == b
}

fn is_rmw(kind: Rmw, other: Rmw) -> bool
    ensures { result ≡ same.same_rmw kind other }
{
    match (kind, other) {
        (Rmw::Add { a }, Rmw::Add { a: b }) => is_atom(a, b),
        (Rmw::Swap { a }, Rmw::Swap { a: b }) => is_atom(a, b),
        (
            Rmw::Cas { expected, new },
            Rmw::Cas {
                expected: a,
                new: b,
            },
        ) => { is_atom(expected, a) && is_atom(new, b) }
        _ => false,
    }
}

fn are_atoms(args: &[Atom], others: &[Atom]) -> bool
    ensures { result ≡ same.same_atoms args.now others.now }
{
    match args {
        [] => match others {
            [] => true,
            [_, ..] => false,
        },
        [a, more @ ..] => match others {
            [] => false,
            [b, rest @ ..] => is_atom(*a, *b) && are_atoms(more, rest),
        },
    }
}

fn is_skip(statement: &Stmt) -> bool
    ensures { result ≡ same.is_skip (head_of statement.now) }
{
    matches!(statement, Stmt::Skip)
}

fn is_copy(statement: &Stmt, r: u32, a: Atom) -> bool
    ensures { result ≡ same.is_copy r a (head_of statement.now) }
{
    match statement {
        Stmt::Copy { r: s, a: b } => r == *s && is_atom(a, *b),
        _ => false,
    }
}

fn is_compute(statement: &Stmt, r: u32, op: Op, a: Atom, b: Atom) -> bool
    ensures { result ≡ same.is_compute r op a b (head_of statement.now) }
{
    match statement {
        Stmt::Compute {
            r: s,
            op: other,
            a: c,
            b: d,
        } => r == *s && is_op(op, *other) && is_atom(a, *c) && is_atom(b, *d),
        _ => false,
    }
}

fn is_load(statement: &Stmt, r: u32, x: u32) -> bool
    ensures { result ≡ same.is_load r x (head_of statement.now) }
{
    match statement {
        Stmt::Load { r: s, x: y } => r == *s && x == *y,
        _ => false,
    }
}

fn is_store(statement: &Stmt, x: u32, a: Atom) -> bool
    ensures { result ≡ same.is_store x a (head_of statement.now) }
{
    match statement {
        Stmt::Store { x: y, a: b } => x == *y && is_atom(a, *b),
        _ => false,
    }
}

fn is_atomic_load(statement: &Stmt, r: u32, order: Order, y: u32) -> bool
    ensures { result ≡ same.is_atomic_load r order y (head_of statement.now) }
{
    match statement {
        Stmt::AtomicLoad {
            r: s,
            order: other,
            y: z,
        } => r == *s && is_order(order, *other) && y == *z,
        _ => false,
    }
}

fn is_atomic_store(statement: &Stmt, order: Order, y: u32, a: Atom) -> bool
    ensures { result ≡ same.is_atomic_store order y a (head_of statement.now) }
{
    match statement {
        Stmt::AtomicStore {
            order: other,
            y: z,
            a: b,
        } => is_order(order, *other) && y == *z && is_atom(a, *b),
        _ => false,
    }
}

fn is_update(statement: &Stmt, r: u32, order: Order, y: u32, kind: Rmw) -> bool
    ensures { result ≡ same.is_update r order y kind (head_of statement.now) }
{
    match statement {
        Stmt::Update {
            r: s,
            order: other,
            y: z,
            kind: own,
        } => r == *s && is_order(order, *other) && y == *z && is_rmw(kind, *own),
        _ => false,
    }
}

fn is_fence(statement: &Stmt, order: Order) -> bool
    ensures { result ≡ same.is_fence order (head_of statement.now) }
{
    match statement {
        Stmt::Fence { order: other } => is_order(order, *other),
        _ => false,
    }
}

fn is_print(statement: &Stmt, a: Atom) -> bool
    ensures { result ≡ same.is_print a (head_of statement.now) }
{
    match statement {
        Stmt::Print { a: b } => is_atom(a, *b),
        _ => false,
    }
}

fn is_if(statement: &Stmt, a: Atom) -> bool
    ensures { result ≡ same.is_if a (head_of statement.now) }
{
    match statement {
        Stmt::If { a: b, .. } => is_atom(a, *b),
        _ => false,
    }
}

fn is_while(statement: &Stmt, a: Atom) -> bool
    ensures { result ≡ same.is_while a (head_of statement.now) }
{
    match statement {
        Stmt::While { a: b, .. } => is_atom(a, *b),
        _ => false,
    }
}

fn is_call(statement: &Stmt, r: u32, function: u32, args: &[Atom]) -> bool
    ensures { result ≡ same.is_call r function args.now (head_of statement.now) }
{
    match statement {
        Stmt::Call {
            r: s,
            function: other,
            args: own,
        } => r == *s && function == *other && are_atoms(args, own.as_slice()),
        _ => false,
    }
}

/// Whether two statements are the same, their blocks left aside.
pub fn same_head(one: &Stmt, other: &Stmt) -> bool
    ensures { result ≡ same.same_head (head_of one.now) (head_of other.now) }
{
    match one {
        Stmt::Skip => is_skip(other),
        Stmt::Copy { r, a } => is_copy(other, *r, *a),
        Stmt::Compute { r, op, a, b } => is_compute(other, *r, *op, *a, *b),
        Stmt::Load { r, x } => is_load(other, *r, *x),
        Stmt::Store { x, a } => is_store(other, *x, *a),
        Stmt::AtomicLoad { r, order, y } => is_atomic_load(other, *r, *order, *y),
        Stmt::AtomicStore { order, y, a } => is_atomic_store(other, *order, *y, *a),
        Stmt::Update { r, order, y, kind } => is_update(other, *r, *order, *y, *kind),
        Stmt::Fence { order } => is_fence(other, *order),
        Stmt::Print { a } => is_print(other, *a),
        Stmt::If { a, .. } => is_if(other, *a),
        Stmt::While { a, .. } => is_while(other, *a),
        Stmt::Call { r, function, args } => is_call(other, *r, *function, args.as_slice()),
    }
}
