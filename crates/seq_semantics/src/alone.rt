//! What a statement waits for.
ghost use Rattle.std.specs.Prelude.{◌≡◌};
ghost use Rattle.il_syntax.specs.Statements.{head_of};
ghost use Rattle.seq_semantics.specs.Seq.{wanted_at};

use crate::seen::Wants;
use il_syntax::Stmt;

/// What a statement waits for.
pub fn wanted_at(statement: &Stmt) -> Wants
    ensures { result ≡ wanted_at (head_of statement.now) }
{
    match statement {
        Stmt::AtomicLoad { .. } => Wants::Value,
        Stmt::Update { .. } => Wants::Value,
        Stmt::Call { .. } => Wants::Value,
        Stmt::Fence { order } if order.acquires() => Wants::Fence,
        _ => Wants::Step,
    }
}
