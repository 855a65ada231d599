//! Which of two atoms comes first.
ghost use Rattle.std.specs.Prelude.{◌≡◌, ◌⊎◌, Some, IfSome};
ghost use Rattle.il_paths.specs.Atoms.{AtMost, comes_first, first_of};

use il_syntax::Atom;

/// Whether the one comes no later: constants by value before registers by number.
fn comes_first(a: Atom, b: Atom) -> bool
    ensures { result ≡ comes_first a b }
{
    match (a, b) {
        (Atom::Const(m), Atom::Const(n)) => m <= n,
        (Atom::Const(_), Atom::Reg(_)) => true,
        (Atom::Reg(_), Atom::Const(_)) => false,
        (Atom::Reg(r), Atom::Reg(s)) => r <= s,
    }
}

/// The first of an atom and another, if there is one: constants by value come before registers by number.
#[tactic(auto, using(crate::proofs::AtomLaws::first_is_one, crate::proofs::AtomLaws::first_is_least, crate::proofs::AtomLaws::first_is_below))]
pub fn lower_atom(a: Atom, other: Option<Atom>) -> Atom
    ensures is { result ≡ first_of a other }
    ensures one { (result ≡ a) ⊎ (other ≡ Some result) }
    ensures least { AtMost result a }
    ensures below { IfSome other (AtMost result) }
{
    match other {
        Some(b) => { if comes_first(a, b) { a } else { b } }
        None => a,
    }
}
