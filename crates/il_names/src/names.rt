//! Looking a name up.

ghost use Rattle.std.specs.Prelude.{◌≡◌, ◌<◌, ◌^◌, length, IfOk};
ghost use Rattle.il_grammar.specs.Name.{name_text};
ghost use Rattle.il_names.specs.Known.{HasSmallNumbers};
ghost use Rattle.il_names.specs.Faults.{register_faults, atom_faults, na_faults, atomic_faults, function_faults, load_order_faults, store_order_faults, fence_order_faults, too_many_statements};
ghost use Rattle.il_names.specs.Meaning.{number, literal_value, atom_meaning};
ghost use Rattle.il_names.specs.Names.{known_of};
ghost use Rattle.il_names.specs.Resolving.{Resolves};

use crate::fault::{NameFault, ResolveError};
use crate::scope::Scope;
use il_grammar::{Literal, RawAtom, RawOrder, Rule, Span};
use il_syntax::Atom;
use values_undef::Order;

/// How many statements a function may have, those of its blocks among them.
const MOST_STATEMENTS: u32 = 4096;

/// The greatest number.
const GREATEST: u64 = i64::MAX as u64;

/// What a statement may speak of, and the text in which the names stand.
#[derive(Drop)]
pub struct Names<'a> {
    pub bytes: &'a [u8],
    pub na: Scope<'a>,
    pub atomic: Scope<'a>,
    pub functions: Scope<'a>,
    pub parameter_counts: Vec<usize>,
    pub registers: Scope<'a>,
}

/// The bytes from a place to another, as far as the text goes.
pub fn text(bytes: &[u8], span: Span) -> &[u8]
    ensures { result.now ≡ name_text bytes.now span }
{
    let start = bytes.len().min(span.start as usize);
    let rest = &bytes[start..];
    let end = rest
        .len()
        .min((span.end as usize).saturating_sub(span.start as usize));
    &rest[..end]
}

/// A rule that is broken at a place.
pub fn fault(rule: Rule, place: u32) -> ResolveError
    ensures { result ≡ ResolveError.Fault (record { rule = rule; place = place }) }
{
    ResolveError::Fault(NameFault { rule, place })
}

/// The number of a register.
pub fn register(names: &Names, name: Span) -> Result<u32, ResolveError>
    requires { HasSmallNumbers (known_of names.now) }
    ensures { Resolves result (register_faults names.now.bytes.now (known_of names.now) name) (number names.now.bytes.now (known_of names.now) (known_of names.now).registers name) }
{
    match names.registers.number(text(names.bytes, name)) {
        Some(number) => Ok(number),
        None => Err(fault(Rule::C1, name.start)),
    }
}

/// The number of a location without an order.
pub fn na_location(names: &Names, name: Span) -> Result<u32, ResolveError>
    requires { HasSmallNumbers (known_of names.now) }
    ensures { Resolves result (na_faults names.now.bytes.now (known_of names.now) name) (number names.now.bytes.now (known_of names.now) (known_of names.now).na name) }
{
    let name_bytes = text(names.bytes, name);
    match names.na.number(name_bytes) {
        Some(number) => Ok(number),
        None => match names.atomic.number(name_bytes) {
            Some(_) => Err(fault(Rule::C4, name.start)),
            None => Err(fault(Rule::C1, name.start)),
        },
    }
}

/// The number of a location with an order.
pub fn atomic_location(names: &Names, name: Span) -> Result<u32, ResolveError>
    requires { HasSmallNumbers (known_of names.now) }
    ensures { Resolves result (atomic_faults names.now.bytes.now (known_of names.now) name) (number names.now.bytes.now (known_of names.now) (known_of names.now).atomic name) }
{
    let name_bytes = text(names.bytes, name);
    match names.atomic.number(name_bytes) {
        Some(number) => Ok(number),
        None => match names.na.number(name_bytes) {
            Some(_) => Err(fault(Rule::C3, name.start)),
            None => Err(fault(Rule::C1, name.start)),
        },
    }
}

/// The number of a function that is called with so many arguments.
pub fn function(names: &Names, name: Span, arguments: usize) -> Result<u32, ResolveError>
    requires { HasSmallNumbers (known_of names.now) }
    ensures { Resolves result (function_faults names.now.bytes.now (known_of names.now) name arguments) (number names.now.bytes.now (known_of names.now) (known_of names.now).functions name) }
{
    let Some(number) = names.functions.number(text(names.bytes, name)) else {
        return Err(fault(Rule::C1, name.start));
    };
    match names.parameter_counts.get(number as usize) {
        Some(count) if arguments == *count => Ok(number),
        _ => Err(fault(Rule::C6, name.start)),
    }
}

/// The number that a literal stands for, as far as 64 bits go.
pub fn literal_value(literal: Literal) -> i64
    ensures { result ≡ literal_value literal }
{
    match literal {
        Literal::Positive(n) if n <= GREATEST => n as i64,
        Literal::Positive(_) => i64::MAX,
        Literal::Negative(n) if n <= GREATEST => -(n as i64),
        Literal::Negative(_) => i64::MIN,
    }
}

/// A constant, or the number of a register.
pub fn atom(names: &Names, atom: RawAtom<Span>) -> Result<Atom, ResolveError>
    requires { HasSmallNumbers (known_of names.now) }
    ensures { Resolves result (atom_faults names.now.bytes.now (known_of names.now) atom) (atom_meaning names.now.bytes.now (known_of names.now) atom) }
{
    match atom {
        RawAtom::Constant(literal) => Ok(Atom::Const(literal_value(literal))),
        RawAtom::Named(name) => {
            let number = register(names, name)?;
            Ok(Atom::Reg(number))
        }
    }
}

/// One statement more, after so many.
pub fn room(before: u32, place: u32) -> Result<(), ResolveError>
    ensures exact { Resolves {X = Unit {0}} result (too_many_statements before place) tt }
    ensures within { IfOk result (λ _. before < 4096) }
{
    if before < MOST_STATEMENTS {
        Ok(())
    } else {
        Err(fault(Rule::C7, place))
    }
}

/// The order of a load, where it has one.
pub fn load_order(order: Option<RawOrder<Span>>) -> Result<(), ResolveError>
    ensures { Resolves {X = Unit {0}} result (load_order_faults order) tt }
{
    let Some(RawOrder { order, word }) = order else {
        return Ok(());
    };
    match order {
        Order::Rlx | Order::Acq => Ok(()),
        Order::Rel | Order::AcqRel => Err(fault(Rule::C5, word.start)),
    }
}

/// The order of a fence.
pub fn fence_order(order: RawOrder<Span>) -> Result<(), ResolveError>
    ensures { Resolves {X = Unit {0}} result (fence_order_faults order) tt }
{
    if order.order.is_fence_order() {
        Ok(())
    } else {
        Err(fault(Rule::C5, order.word.start))
    }
}

/// The order of a store, where it has one.
pub fn store_order(order: Option<RawOrder<Span>>) -> Result<(), ResolveError>
    ensures { Resolves {X = Unit {0}} result (store_order_faults order) tt }
{
    let Some(RawOrder { order, word }) = order else {
        return Ok(());
    };
    match order {
        Order::Rlx | Order::Rel => Ok(()),
        Order::Acq | Order::AcqRel => Err(fault(Rule::C5, word.start)),
    }
}
