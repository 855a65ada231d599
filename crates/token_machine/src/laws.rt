//! What holds of each machine that reads a grammar.
//!
//! `S` is the sort of states, `T` of trees, `C` of terminals and `R` of rules.

ghost use Rattle.std.specs.Prelude.{◌≡◌, ◌↔◌, ◌⊎◌, List, Option, Ok, Err, map};
ghost use Rattle.token_machine.specs.declared.fault.Fault.{Fault};
ghost use Rattle.token_machine.specs.Text.{Mark, Spells, IsFirstFault};
ghost use Rattle.token_machine.specs.Machine.{Move, Reads, read_from};
ghost use Rattle.token_machine.specs.Mapped.{move_map, answer_map, finish_map};

/// A text spells one tree at most.
pub fn one_tree_at_most<S, T, C, R>()
    ensures { (spelling : T → List (Mark C R)) (step : S → C → Move R S) (finish : S → Option T) (begin : S) (unexpected : R)
        → Reads spelling step finish begin
        → (ts : List C) (xs ys : T) → Spells spelling ts xs → Spells spelling ts ys → xs ≡ ys }
{}

/// A text that spells a tree has no first fault.
pub fn spelled_is_faultless<S, T, C, R>()
    ensures { (spelling : T → List (Mark C R)) (step : S → C → Move R S) (finish : S → Option T) (begin : S) (unexpected : R)
        → Reads spelling step finish begin
        → (ts : List C) (xs : T) (f : Fault R) → Spells spelling ts xs → IsFirstFault spelling unexpected ts f → ⊥ }
{}

/// A text has one first fault at most.
pub fn one_first_fault<S, T, C, R>()
    ensures { (spelling : T → List (Mark C R)) (step : S → C → Move R S) (finish : S → Option T) (begin : S) (unexpected : R)
        → Reads spelling step finish begin
        → (ts : List C) (f g : Fault R) → IsFirstFault spelling unexpected ts f → IsFirstFault spelling unexpected ts g → f ≡ g }
{}

/// The machine's answer is the tree exactly where the text spells one.
pub fn read_where_spelled<S, T, C, R>()
    ensures { (spelling : T → List (Mark C R)) (step : S → C → Move R S) (finish : S → Option T) (begin : S) (unexpected : R)
        → Reads spelling step finish begin
        → (ts : List C) (xs : T) → read_from step finish unexpected begin ts ≡ Ok xs ↔ Spells spelling ts xs }
{}

/// The machine's answer is the first fault exactly where there is one.
pub fn refused_where_faulty<S, T, C, R>()
    ensures { (spelling : T → List (Mark C R)) (step : S → C → Move R S) (finish : S → Option T) (begin : S) (unexpected : R)
        → Reads spelling step finish begin
        → (ts : List C) (f : Fault R) → read_from step finish unexpected begin ts ≡ Err f ↔ IsFirstFault spelling unexpected ts f }
{}

/// Each text spells a tree or has a first fault.
pub fn spelled_or_faulty<S, T, C, R>()
    ensures { (spelling : T → List (Mark C R)) (step : S → C → Move R S) (finish : S → Option T) (begin : S) (unexpected : R)
        → Reads spelling step finish begin
        → (ts : List C) → ((xs : T) × Spells spelling ts xs) ⊎ ((f : Fault R) × IsFirstFault spelling unexpected ts f) }
{}

/// Two machines that go together under maps of states, trees and terminals answer alike under them:
/// so an answer that is known of names as places is known of names as texts.
pub fn read_under_a_map<S, S2, T, T2, C, C2, R>()
    ensures { (step : S → C → Move R S) (finish : S → Option T) (step' : S2 → C2 → Move R S2) (finish' : S2 → Option T2)
        (on_state : S → S2) (on_tree : T → T2) (on_terminal : C → C2) (unexpected : R)
        → ((s : S) (t : C) → step' (on_state s) (on_terminal t) ≡ move_map on_state (step s t))
        → ((s : S) → finish' (on_state s) ≡ finish_map on_tree (finish s))
        → (ts : List C) (s : S) → read_from step' finish' unexpected (on_state s) (map on_terminal ts) ≡ answer_map on_tree (read_from step finish unexpected s ts) }
{}
