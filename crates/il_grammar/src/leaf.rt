//! Reading one token, or a name, an atom or a literal. Each function answers what follows it.

ghost use Rattle.std.specs.Prelude.{◌≡◌, ◌<◌, ◌≤◌, ℕ, List, [], ◌∷◌, length, Bool, false, Option, Some, None, Ok, Err, IfOk, IfSome, MatchOption};
ghost use Rattle.token_machine.specs.Reading.{Continues};
ghost use Rattle.il_grammar.specs.declared.syntax.Span.{Span};
ghost use Rattle.il_grammar.specs.declared.syntax.Literal.{Literal};
ghost use Rattle.il_grammar.specs.declared.syntax.RawAtom.{RawAtom};
ghost use Rattle.il_grammar.specs.declared.syntax.RawOrder.{RawOrder};
ghost use Rattle.il_grammar.specs.declared.syntax.RawLocation.{RawLocation};
ghost use Rattle.il_grammar.specs.Grammar.{Snoc, empty, append, Simple, simply, Routine, Thread, TextTree, Trees, no_tree, add_tree, choice};
ghost use Rattle.il_grammar.specs.Machine.{Opening, head, ReaderHead, ThreadHead, Stack, bottom, inner, Frame, in_no, inner_depth, UpdateUse, NameUse, of_parameter, of_register, updated, of_thread, of_location, of_function, AtomUse, argument_of, assigned, value_of, operand_of, new_of, returned, LiteralUse, of_location_value, of_thread_argument, begin, at_version, at_locations, at_name, at_location_equals, at_literal, at_literal_magnitude, at_location_end, at_functions, at_parameters, at_parameter_list, after_parameter, at_body, at_registers, after_register, ready, at_semicolon, at_equals, at_right, at_atom, at_magnitude, at_store, at_store_comma, at_load, at_update_order, at_update_comma, at_cas_comma, at_arguments, at_argument_list, after_argument, at_block, after_yes, at_return_end, at_function_close, at_threads, at_thread_arguments, at_literal_list, after_literal, at_thread_end, finished, finished_thread, text_tree, after_name, after_atom, after_literal_of, close_block, answer};
ghost use Rattle.il_grammar.specs.Reading.{begins_statement, text_end_of, parameter_or_body, register_or_statement, argument_or_end, literal_or_end, after_right_word, after_behind};

use crate::rule::Rule;
use crate::syntax::{Literal, RawAtom, RawOrder, Span};
use crate::terminal::Terminal;
use token_machine::{ReadError, fault_at, next};
use values_undef::Op;

/// The greatest number without a sign.
const LIMIT: u64 = i64::MAX as u64;

/// The greatest number after a sign.
const NEGATIVE_LIMIT: u64 = i64::MAX as u64 + 1;

/// A word that the right side of an assignment begins with.
#[derive(Clone, Copy)]
pub enum RightWord {
    Load,
    Add,
    Swap,
    Cas,
    Call,
}

/// What stands behind the name that a statement begins with.
#[derive(Clone, Copy)]
pub enum BehindName {
    Equals,
    /// The order of a fence, of which the name is the word.
    Order(RawOrder<Span>),
}

/// The header.
pub fn header(tokens: &[Terminal<Span>]) -> Result<&[Terminal<Span>], ReadError<Rule>>
    ensures { Continues result (answer begin tokens.now) (λ rest. answer (at_locations empty) rest.now) }
{
    let rest = il(tokens)?;
    version(rest)
}

fn il(tokens: &[Terminal<Span>]) -> Result<&[Terminal<Span>], ReadError<Rule>>
    ensures { Continues result (answer begin tokens.now) (λ rest. answer at_version rest.now) }
{
    match tokens {
        [Terminal::Il, rest @ ..] => Ok(rest),
        _ => Err(fault_at(Rule::P3, tokens)),
    }
}

fn version(tokens: &[Terminal<Span>]) -> Result<&[Terminal<Span>], ReadError<Rule>>
    ensures { Continues result (answer at_version tokens.now) (λ rest. answer (at_locations empty) rest.now) }
{
    match tokens {
        [Terminal::Version, rest @ ..] => Ok(rest),
        _ => Err(fault_at(Rule::P3, tokens)),
    }
}

/// A name.
pub fn name(tokens: &[Terminal<Span>]) -> Result<(Span, &[Terminal<Span>]), ReadError<Rule>>
    ensures exact { (u : NameUse Span) → Continues result (answer (at_name u) tokens.now) (λ x. answer (after_name u x.0) x.1.now) }
    ensures shorter { IfOk result (λ x. length x.1.now < length tokens.now) }
{
    match tokens {
        [Terminal::Name(name), rest @ ..] => Ok((*name, rest)),
        _ => Err(fault_at(Rule::P3, tokens)),
    }
}

/// A number after a sign, in a statement.
fn magnitude(
    tokens: &[Terminal<Span>],
) -> Result<(RawAtom<Span>, &[Terminal<Span>]), ReadError<Rule>>
    ensures exact { (u : AtomUse Span) → Continues result (answer (at_magnitude u) tokens.now) (λ x. answer (after_atom u x.0) x.1.now) }
    ensures shorter { IfOk result (λ x. length x.1.now < length tokens.now) }
{
    match tokens {
        [Terminal::Number(n), rest @ ..] if *n <= NEGATIVE_LIMIT => {
            Ok((RawAtom::Constant(Literal::Negative(*n)), rest))
        }
        [Terminal::Number(_), ..] => Err(fault_at(Rule::P4, tokens)),
        _ => Err(fault_at(Rule::P3, tokens)),
    }
}

/// A constant or a name.
pub fn atom(
    tokens: &[Terminal<Span>],
) -> Result<(RawAtom<Span>, &[Terminal<Span>]), ReadError<Rule>>
    ensures exact { (u : AtomUse Span) → Continues result (answer (at_atom u) tokens.now) (λ x. answer (after_atom u x.0) x.1.now) }
    ensures shorter { IfOk result (λ x. length x.1.now < length tokens.now) }
{
    match tokens {
        [Terminal::Name(name), rest @ ..] => Ok((RawAtom::Named(*name), rest)),
        [Terminal::Number(n), rest @ ..] if *n <= LIMIT => {
            Ok((RawAtom::Constant(Literal::Positive(*n)), rest))
        }
        [Terminal::Number(_), ..] => Err(fault_at(Rule::P4, tokens)),
        [Terminal::Operator(Op::Sub), rest @ ..] => magnitude(rest),
        _ => Err(fault_at(Rule::P3, tokens)),
    }
}

/// A number after a sign, outside statements.
fn literal_magnitude(
    tokens: &[Terminal<Span>],
) -> Result<(Literal, &[Terminal<Span>]), ReadError<Rule>>
    ensures exact { (u : LiteralUse Span) → Continues result (answer (at_literal_magnitude u) tokens.now) (λ x. answer (after_literal_of u x.0) x.1.now) }
    ensures shorter { IfOk result (λ x. length x.1.now < length tokens.now) }
{
    match tokens {
        [Terminal::Number(n), rest @ ..] if *n <= NEGATIVE_LIMIT => {
            Ok((Literal::Negative(*n), rest))
        }
        [Terminal::Number(_), ..] => Err(fault_at(Rule::P4, tokens)),
        _ => Err(fault_at(Rule::P3, tokens)),
    }
}

/// The value of a location, or an argument of a thread.
pub fn literal(tokens: &[Terminal<Span>]) -> Result<(Literal, &[Terminal<Span>]), ReadError<Rule>>
    ensures exact { (u : LiteralUse Span) → Continues result (answer (at_literal u) tokens.now) (λ x. answer (after_literal_of u x.0) x.1.now) }
    ensures shorter { IfOk result (λ x. length x.1.now < length tokens.now) }
{
    match tokens {
        [Terminal::Number(n), rest @ ..] if *n <= LIMIT => Ok((Literal::Positive(*n), rest)),
        [Terminal::Number(_), ..] => Err(fault_at(Rule::P4, tokens)),
        [Terminal::Operator(Op::Sub), rest @ ..] => literal_magnitude(rest),
        _ => Err(fault_at(Rule::P3, tokens)),
    }
}

/// The order of an update.
pub fn order(
    tokens: &[Terminal<Span>],
) -> Result<(RawOrder<Span>, &[Terminal<Span>]), ReadError<Rule>>
    ensures exact { (u : UpdateUse Span) → Continues result (answer (at_update_order u) tokens.now) (λ x. answer (at_name (updated u x.0)) x.1.now) }
    ensures shorter { IfOk result (λ x. length x.1.now < length tokens.now) }
{
    match tokens {
        [Terminal::OrderWord(order, word), rest @ ..] => Ok((
            RawOrder {
                order: *order,
                word: *word,
            },
            rest,
        )),
        _ => Err(fault_at(Rule::P3, tokens)),
    }
}

/// The end of a location, a statement, a result or a thread.
pub fn semicolon(tokens: &[Terminal<Span>]) -> Result<&[Terminal<Span>], ReadError<Rule>>
    ensures location { (ls : Snoc (RawLocation Span)) (l : RawLocation Span) → Continues result (answer (at_location_end ls l) tokens.now) (λ rest. answer (at_locations (append ls l)) rest.now) }
    ensures statement { (k : Stack Span) (xs : Trees Span) (x : Simple Span) → Continues result (answer (at_semicolon k xs x) tokens.now) (λ rest. answer (ready k (add_tree xs (simply x))) rest.now) }
    ensures returned { (h : ReaderHead Span) (xs : Trees Span) (a : RawAtom Span) → Continues result (answer (at_return_end h xs a) tokens.now) (λ rest. answer (at_function_close h xs a) rest.now) }
    ensures thread { (h : ThreadHead Span) (args : Snoc Literal) → Continues result (answer (at_thread_end h args) tokens.now) (λ rest. answer (at_threads h.locations h.functions (append h.threads (finished_thread h args))) rest.now) }
    ensures shorter { IfOk result (λ rest. length rest.now < length tokens.now) }
{
    match tokens {
        [Terminal::Semicolon, rest @ ..] => Ok(rest),
        _ => Err(fault_at(Rule::P3, tokens)),
    }
}

/// Between a location and its value.
pub fn equals(tokens: &[Terminal<Span>]) -> Result<&[Terminal<Span>], ReadError<Rule>>
    ensures exact { (ls : Snoc (RawLocation Span)) (kind : Bool) (n : Span) → Continues result (answer (at_location_equals ls kind n) tokens.now) (λ rest. answer (at_literal (of_location_value ls kind n)) rest.now) }
    ensures shorter { IfOk result (λ rest. length rest.now < length tokens.now) }
{
    match tokens {
        [Terminal::Equals, rest @ ..] => Ok(rest),
        _ => Err(fault_at(Rule::P3, tokens)),
    }
}

/// What stands behind the name that a statement begins with: `=`, or the order of a fence.
pub fn behind_name(
    tokens: &[Terminal<Span>],
) -> Result<(BehindName, &[Terminal<Span>]), ReadError<Rule>>
    ensures exact { (k : Stack Span) (xs : Trees Span) (r : Span) → Continues result (answer (at_equals k xs r) tokens.now) (λ x. answer (after_behind x.0 k xs r) x.1.now) }
    ensures shorter { IfOk result (λ x. length x.1.now < length tokens.now) }
{
    match tokens {
        [Terminal::Equals, rest @ ..] => Ok((BehindName::Equals, rest)),
        [Terminal::FenceOrder(order, word), rest @ ..] => Ok((
            BehindName::Order(RawOrder {
                order: *order,
                word: *word,
            }),
            rest,
        )),
        _ => Err(fault_at(Rule::P3, tokens)),
    }
}

/// Between a location and an atom, and between two atoms.
pub fn comma(tokens: &[Terminal<Span>]) -> Result<&[Terminal<Span>], ReadError<Rule>>
    ensures store { (k : Stack Span) (xs : Trees Span) (w : Span) (o : Option (RawOrder Span)) (x : Span) → Continues result (answer (at_store_comma k xs w o x) tokens.now) (λ rest. answer (at_atom (value_of k xs w o x)) rest.now) }
    ensures update { (u : UpdateUse Span) (o : RawOrder Span) (y : Span) → Continues result (answer (at_update_comma u o y) tokens.now) (λ rest. answer (at_atom (operand_of u o y)) rest.now) }
    ensures cas { (k : Stack Span) (xs : Trees Span) (r : Span) (o : RawOrder Span) (y : Span) (a : RawAtom Span) → Continues result (answer (at_cas_comma k xs r o y a) tokens.now) (λ rest. answer (at_atom (new_of k xs r o y a)) rest.now) }
    ensures shorter { IfOk result (λ rest. length rest.now < length tokens.now) }
{
    match tokens {
        [Terminal::Comma, rest @ ..] => Ok(rest),
        _ => Err(fault_at(Rule::P3, tokens)),
    }
}

/// Before parameters or arguments.
pub fn left_paren(tokens: &[Terminal<Span>]) -> Result<&[Terminal<Span>], ReadError<Rule>>
    ensures function { (o : Opening Span) → Continues result (answer (at_parameters o) tokens.now) (λ rest. answer (at_parameter_list o) rest.now) }
    ensures call { (k : Stack Span) (xs : Trees Span) (r g : Span) → Continues result (answer (at_arguments k xs r g) tokens.now) (λ rest. answer (at_argument_list k xs r g) rest.now) }
    ensures thread { (h : ThreadHead Span) → Continues result (answer (at_thread_arguments h) tokens.now) (λ rest. answer (at_literal_list h) rest.now) }
    ensures shorter { IfOk result (λ rest. length rest.now < length tokens.now) }
{
    match tokens {
        [Terminal::LeftParen, rest @ ..] => Ok(rest),
        _ => Err(fault_at(Rule::P3, tokens)),
    }
}

/// What follows where there are no parameters or arguments.
pub fn after_right_paren(tokens: &[Terminal<Span>]) -> Option<&[Terminal<Span>]>
    ensures function { (o : Opening Span) → MatchOption result
        (answer (at_parameter_list o) tokens.now ≡ answer (at_name (of_parameter o empty)) tokens.now)
        (λ rest. answer (at_parameter_list o) tokens.now ≡ answer (at_body o empty) rest.now) }
    ensures call { (k : Stack Span) (xs : Trees Span) (r g : Span) → MatchOption result
        (answer (at_argument_list k xs r g) tokens.now ≡ answer (at_atom (argument_of k xs r g empty)) tokens.now)
        (λ rest. answer (at_argument_list k xs r g) tokens.now ≡ answer (argument_or_end false k xs r g empty) rest.now) }
    ensures thread { (h : ThreadHead Span) → MatchOption result
        (answer (at_literal_list h) tokens.now ≡ answer (at_literal (of_thread_argument h empty)) tokens.now)
        (λ rest. answer (at_literal_list h) tokens.now ≡ answer (at_thread_end h empty) rest.now) }
    ensures shorter { IfSome result (λ rest. length rest.now < length tokens.now) }
{
    match tokens {
        [Terminal::RightParen, rest @ ..] => Some(rest),
        _ => None,
    }
}

/// Whether another parameter or argument comes, after one.
pub fn comma_or_right_paren(
    tokens: &[Terminal<Span>],
) -> Result<(bool, &[Terminal<Span>]), ReadError<Rule>>
    ensures function { (o : Opening Span) (ps : Snoc Span) (p : Span) → Continues result (answer (after_parameter o ps p) tokens.now) (λ x. answer (parameter_or_body x.0 o (append ps p)) x.1.now) }
    ensures call { (k : Stack Span) (xs : Trees Span) (r g : Span) (args : Snoc (RawAtom Span)) (a : RawAtom Span) → Continues result (answer (after_argument k xs r g args a) tokens.now) (λ x. answer (argument_or_end x.0 k xs r g (append args a)) x.1.now) }
    ensures thread { (h : ThreadHead Span) (args : Snoc Literal) (a : Literal) → Continues result (answer (after_literal h args a) tokens.now) (λ x. answer (literal_or_end x.0 h (append args a)) x.1.now) }
    ensures shorter { IfOk result (λ x. length x.1.now < length tokens.now) }
{
    match tokens {
        [Terminal::Comma, rest @ ..] => Ok((true, rest)),
        [Terminal::RightParen, rest @ ..] => Ok((false, rest)),
        _ => Err(fault_at(Rule::P3, tokens)),
    }
}

/// Whether another register comes, after one.
pub fn comma_or_semicolon(
    tokens: &[Terminal<Span>],
) -> Result<(bool, &[Terminal<Span>]), ReadError<Rule>>
    ensures exact { (o : Opening Span) (ps rs : Snoc Span) (r : Span) → Continues result (answer (after_register o ps rs r) tokens.now) (λ x. answer (register_or_statement x.0 o ps (append rs r)) x.1.now) }
    ensures shorter { IfOk result (λ x. length x.1.now < length tokens.now) }
{
    match tokens {
        [Terminal::Comma, rest @ ..] => Ok((true, rest)),
        [Terminal::Semicolon, rest @ ..] => Ok((false, rest)),
        _ => Err(fault_at(Rule::P3, tokens)),
    }
}

/// The word that the right side of an assignment begins with, where it is no atom.
pub fn right_word(tokens: &[Terminal<Span>]) -> Option<(RightWord, &[Terminal<Span>])>
    ensures exact { (k : Stack Span) (xs : Trees Span) (r : Span) → MatchOption result
        (answer (at_right k xs r) tokens.now ≡ answer (at_atom (assigned k xs r)) tokens.now)
        (λ x. answer (at_right k xs r) tokens.now ≡ answer (after_right_word x.0 k xs r) x.1.now) }
    ensures shorter { IfSome result (λ x. length x.1.now < length tokens.now) }
{
    match tokens {
        [Terminal::Load, rest @ ..] => Some((RightWord::Load, rest)),
        [Terminal::Add, rest @ ..] => Some((RightWord::Add, rest)),
        [Terminal::Swap, rest @ ..] => Some((RightWord::Swap, rest)),
        [Terminal::Cas, rest @ ..] => Some((RightWord::Cas, rest)),
        [Terminal::Call, rest @ ..] => Some((RightWord::Call, rest)),
        _ => None,
    }
}

/// The brace that opens the body of a function.
pub fn body_open(tokens: &[Terminal<Span>]) -> Result<&[Terminal<Span>], ReadError<Rule>>
    ensures exact { (o : Opening Span) (ps : Snoc Span) → Continues result (answer (at_body o ps) tokens.now) (λ rest. answer (at_registers o ps) rest.now) }
    ensures shorter { IfOk result (λ rest. length rest.now < length tokens.now) }
{
    match tokens {
        [Terminal::Open, rest @ ..] => Ok(rest),
        _ => Err(fault_at(Rule::P3, tokens)),
    }
}

/// The brace that closes it.
pub fn body_close(tokens: &[Terminal<Span>]) -> Result<&[Terminal<Span>], ReadError<Rule>>
    ensures exact { (h : ReaderHead Span) (xs : Trees Span) (a : RawAtom Span) → Continues result (answer (at_function_close h xs a) tokens.now) (λ rest. answer (at_functions h.opening.locations (append h.opening.functions (finished h xs a))) rest.now) }
    ensures shorter { IfOk result (λ rest. length rest.now < length tokens.now) }
{
    match tokens {
        [Terminal::Close, rest @ ..] => Ok(rest),
        _ => Err(fault_at(Rule::P3, tokens)),
    }
}

/// The `return` of a body, after its statements.
pub fn body_return(tokens: &[Terminal<Span>]) -> Result<&[Terminal<Span>], ReadError<Rule>>
    requires { begins_statement tokens.now ≡ false }
    ensures exact { (h : ReaderHead Span) (xs : Trees Span) → Continues result (answer (ready (bottom h) xs) tokens.now) (λ rest. answer (at_atom (returned h xs)) rest.now) }
    ensures shorter { IfOk result (λ rest. length rest.now < length tokens.now) }
{
    let Some((token, rest)) = next(tokens) else {
        return Err(fault_at(Rule::P3, tokens));
    };
    match token {
        Terminal::Return => Ok(rest),
        _ => Err(fault_at(Rule::P3, tokens)),
    }
}

/// The brace that opens a block this deep.
pub fn block_open(
    tokens: &[Terminal<Span>],
    depth: usize,
) -> Result<&[Terminal<Span>], ReadError<Rule>>
    ensures exact { (f : Frame Span) → inner_depth f ≡ depth → Continues result (answer (at_block f) tokens.now) (λ rest. answer (ready (inner f) no_tree) rest.now) }
    ensures within { IfOk result (λ _. depth ≤ 32) }
    ensures shorter { IfOk result (λ rest. length rest.now < length tokens.now) }
{
    match tokens {
        [Terminal::Open, rest @ ..] if depth <= 32 => Ok(rest),
        [Terminal::Open, ..] => Err(fault_at(Rule::P5, tokens)),
        _ => Err(fault_at(Rule::P3, tokens)),
    }
}

/// The brace that closes a block, after its statements.
pub fn block_close(tokens: &[Terminal<Span>]) -> Result<&[Terminal<Span>], ReadError<Rule>>
    requires { begins_statement tokens.now ≡ false }
    ensures exact { (f : Frame Span) (xs : Trees Span) → Continues result (answer (ready (inner f) xs) tokens.now) (λ rest. answer (close_block f xs) rest.now) }
    ensures shorter { IfOk result (λ rest. length rest.now < length tokens.now) }
{
    let Some((token, rest)) = next(tokens) else {
        return Err(fault_at(Rule::P3, tokens));
    };
    match token {
        Terminal::Close => Ok(rest),
        _ => Err(fault_at(Rule::P3, tokens)),
    }
}

/// What follows an `else`, where one comes.
pub fn after_else(tokens: &[Terminal<Span>]) -> Option<&[Terminal<Span>]>
    ensures exact { (k : Stack Span) (xs : Trees Span) (w : Span) (a : RawAtom Span) (first : Trees Span) → MatchOption result
        (answer (after_yes k xs w a first) tokens.now ≡ answer (ready k (add_tree xs (choice w a first))) tokens.now)
        (λ rest. answer (after_yes k xs w a first) tokens.now ≡ answer (at_block (in_no k xs w a first)) rest.now) }
    ensures shorter { IfSome result (λ rest. length rest.now < length tokens.now) }
{
    match tokens {
        [Terminal::Else, rest @ ..] => Some(rest),
        _ => None,
    }
}

/// What follows the word of a location, and whether it is atomic.
pub fn after_location_word(tokens: &[Terminal<Span>]) -> Option<(bool, &[Terminal<Span>])>
    ensures exact { (ls : Snoc (RawLocation Span)) → MatchOption result
        (answer (at_locations ls) tokens.now ≡ answer (at_functions ls empty) tokens.now)
        (λ x. answer (at_locations ls) tokens.now ≡ answer (at_name (of_location ls x.0)) x.1.now) }
    ensures shorter { IfSome result (λ x. length x.1.now < length tokens.now) }
{
    match tokens {
        [Terminal::Na, rest @ ..] => Some((false, rest)),
        [Terminal::Atomic, rest @ ..] => Some((true, rest)),
        _ => None,
    }
}

/// What follows a `fn`, where one comes.
pub fn after_fn(tokens: &[Terminal<Span>]) -> Option<&[Terminal<Span>]>
    ensures exact { (ls : Snoc (RawLocation Span)) (fs : Snoc (Routine Span)) → MatchOption result
        (answer (at_functions ls fs) tokens.now ≡ answer (at_threads ls fs empty) tokens.now)
        (λ rest. answer (at_functions ls fs) tokens.now ≡ answer (at_name (of_function ls fs)) rest.now) }
    ensures shorter { IfSome result (λ rest. length rest.now < length tokens.now) }
{
    match tokens {
        [Terminal::Fn, rest @ ..] => Some(rest),
        _ => None,
    }
}

/// What follows a `reg`, where one comes.
pub fn after_reg(tokens: &[Terminal<Span>]) -> Option<&[Terminal<Span>]>
    ensures exact { (o : Opening Span) (ps : Snoc Span) → MatchOption result
        (answer (at_registers o ps) tokens.now ≡ answer (ready (bottom (head o ps empty)) no_tree) tokens.now)
        (λ rest. answer (at_registers o ps) tokens.now ≡ answer (at_name (of_register o ps empty)) rest.now) }
    ensures shorter { IfSome result (λ rest. length rest.now < length tokens.now) }
{
    match tokens {
        [Terminal::Reg, rest @ ..] => Some(rest),
        _ => None,
    }
}

/// The word `thread` and what follows it, where one comes.
pub fn after_thread(tokens: &[Terminal<Span>]) -> Option<(Span, &[Terminal<Span>])>
    ensures exact { (ls : Snoc (RawLocation Span)) (fs : Snoc (Routine Span)) (ts : Snoc (Thread Span)) → MatchOption result
        (answer (at_threads ls fs ts) tokens.now ≡ text_end_of (text_tree ls fs ts) tokens.now)
        (λ x. answer (at_threads ls fs ts) tokens.now ≡ answer (at_name (of_thread ls fs ts x.0)) x.1.now) }
    ensures shorter { IfSome result (λ x. length x.1.now < length tokens.now) }
{
    match tokens {
        [Terminal::Thread(word), rest @ ..] => Some((*word, rest)),
        _ => None,
    }
}

/// Nothing follows a text.
pub fn end(tokens: &[Terminal<Span>]) -> Result<(), ReadError<Rule>>
    ensures { (p : TextTree Span) → Continues result (text_end_of p tokens.now) (λ _. Ok p) }
{
    match next(tokens) {
        None => Ok(()),
        Some(_) => Err(fault_at(Rule::P3, tokens)),
    }
}
