//! All moves from where a run ends.
ghost use Rattle.std.specs.Prelude.{◌≡◌, ℕ, ◌+◌, ◌^◌, ◌<◌, ◌≤◌, true, Some, IfOk, OnOk, IfSome, length};
ghost use Rattle.std.specs.List.{AllByRecursion};
ghost use Rattle.values_undef.specs.Access.{leaves_choice};
ghost use Rattle.thread_core.specs.Programs.{IsProperProgram, IsProperAccess};
ghost use Rattle.view_machine.specs.Held.{state_in, IsOf};
ghost use Rattle.outcome_nodes.specs.Nodes.{Asks, IsMove};
ghost use Rattle.outcome_nodes.specs.Standing.{node_of, IsNodeRun};
ghost use Rattle.outcome_moves.specs.Room.{AreSmall};
ghost use Rattle.outcome_moves.specs.Ends.{end_in};
ghost use Rattle.outcome_moves.specs.Moves.{last_state, silent_there, HasMove, HasMovesOf, GrowsBy, IsSomeMove, IsSmallMove, StandsFrom};

use crate::moves::{Move, alone_move, end_in, location_of, only_move, try_move};
use crate::standing::{What, settle, stand, stand_at};
use il_syntax::Program;
use message_memory::PlainMemory;
use std::alloc::Global;
use values_undef::{Access, Entry, NoMemory};
use view_machine::Machine;

/// Adds the move of the access at the message that ends at `b`, if there is one.
fn add_move(
    alloc: Global,
    p: &Program,
    _steps: u64,
    entries: &[Entry],
    machine: &Machine<PlainMemory>,
    thread: u32,
    silent: u64,
    a: &Access,
    b: u64,
    moves: &mut Vec<Move>,
) -> Result<(), NoMemory>
    requires proper { IsProperProgram p.now }
    requires run { IsNodeRun p.now _steps entries.now }
    requires small { AreSmall (2 ^ 60) entries.now }
    requires program { IsOf p.now machine.now }
    requires memory { machine.now.memory ≡ (last_state p.now entries.now).memory }
    requires views { machine.now.views ≡ (last_state p.now entries.now).views }
    requires low { b ≤ 2 ^ 60 }
    requires lowest { (most : ℕ) → AreSmall most entries.now → b ≤ most }
    requires there { thread < length p.now.threads }
    requires silent { silent ≡ silent_there p.now _steps entries.now thread }
    requires asks { Asks _steps (node_of p.now _steps entries.now) thread a.now }
    requires choice { leaves_choice a.now ≡ true }
    requires named { IsProperAccess p.now a.now }
    ensures grows { OnOk result (GrowsBy p.now _steps (node_of p.now _steps entries.now) entries.now moves.old.items moves.new.items) }
    ensures added { OnOk result (IsMove (node_of p.now _steps entries.now) thread a.now b → HasMove p.now _steps (node_of p.now _steps entries.now) moves.new.items thread a.now b) }
{
    if let Some(m) = try_move(alloc, p, _steps, entries, machine, thread, silent, a, b)? {
        moves.push(m)?;
    }
    Ok(())
}

/// Adds the move of the access at the message of location `y` that an entry put in, if it put in one.
fn add_end(
    alloc: Global,
    p: &Program,
    _steps: u64,
    entries: &[Entry],
    machine: &Machine<PlainMemory>,
    thread: u32,
    silent: u64,
    a: &Access,
    y: u32,
    entry: &Entry,
    moves: &mut Vec<Move>,
) -> Result<(), NoMemory>
    requires proper { IsProperProgram p.now }
    requires run { IsNodeRun p.now _steps entries.now }
    requires small { AreSmall (2 ^ 60) entries.now }
    requires program { IsOf p.now machine.now }
    requires memory { machine.now.memory ≡ (last_state p.now entries.now).memory }
    requires views { machine.now.views ≡ (last_state p.now entries.now).views }
    requires low { (most : ℕ) (b : ℕ) → AreSmall most entries.now → end_in y entry.now.event ≡ Some b → b ≤ most }
    requires there { thread < length p.now.threads }
    requires silent { silent ≡ silent_there p.now _steps entries.now thread }
    requires asks { Asks _steps (node_of p.now _steps entries.now) thread a.now }
    requires choice { leaves_choice a.now ≡ true }
    requires named { IsProperAccess p.now a.now }
    ensures grows { OnOk result (GrowsBy p.now _steps (node_of p.now _steps entries.now) entries.now moves.old.items moves.new.items) }
    ensures added { OnOk result ((b : ℕ) → end_in y entry.now.event ≡ Some b → IsMove (node_of p.now _steps entries.now) thread a.now b → HasMove p.now _steps (node_of p.now _steps entries.now) moves.new.items thread a.now b) }
{
    match end_in(entry, y) {
        None => Ok(()),
        Some(b) => add_move(
            alloc, p, _steps, entries, machine, thread, silent, a, b, moves,
        ),
    }
}

/// Adds the moves of an access to an atomic location: at the first message, and at each that an entry put in.
fn add_moves_at(
    alloc: Global,
    p: &Program,
    _steps: u64,
    entries: &[Entry],
    machine: &Machine<PlainMemory>,
    thread: u32,
    silent: u64,
    a: &Access,
    moves: &mut Vec<Move>,
) -> Result<(), NoMemory>
    requires proper { IsProperProgram p.now }
    requires run { IsNodeRun p.now _steps entries.now }
    requires small { AreSmall (2 ^ 60) entries.now }
    requires program { IsOf p.now machine.now }
    requires memory { machine.now.memory ≡ (last_state p.now entries.now).memory }
    requires views { machine.now.views ≡ (last_state p.now entries.now).views }
    requires there { thread < length p.now.threads }
    requires silent { silent ≡ silent_there p.now _steps entries.now thread }
    requires asks { Asks _steps (node_of p.now _steps entries.now) thread a.now }
    requires choice { leaves_choice a.now ≡ true }
    requires named { IsProperAccess p.now a.now }
    ensures grows { OnOk result (GrowsBy p.now _steps (node_of p.now _steps entries.now) entries.now moves.old.items moves.new.items) }
    ensures all { OnOk result (HasMovesOf p.now _steps (node_of p.now _steps entries.now) moves.new.items thread) }
{
    add_move(
        alloc, p, _steps, entries, machine, thread, silent, a, 0, moves,
    )?;
    let y = location_of(a);
    for k in 0..entries.len() {
        let entry = &entries[k];
        add_end(
            alloc, p, _steps, entries, machine, thread, silent, a, y, entry, moves,
        )?;
    }
    Ok(())
}

/// Adds the moves of a thread, on a machine of its own.
fn add_moves_alone(
    alloc: Global,
    p: &Program,
    steps: u64,
    entries: &[Entry],
    thread: u32,
    moves: &mut Vec<Move>,
) -> Result<(), NoMemory>
    requires proper { IsProperProgram p.now }
    requires run { IsNodeRun p.now steps entries.now }
    requires few { length entries.now < 2 ^ 32 }
    requires steps { steps < 2 ^ 32 }
    requires small { AreSmall (2 ^ 60) entries.now }
    requires there { thread < length p.now.threads }
    ensures grows { OnOk result (GrowsBy p.now steps (node_of p.now steps entries.now) entries.now moves.old.items moves.new.items) }
    ensures all { OnOk result (HasMovesOf p.now steps (node_of p.now steps entries.now) moves.new.items thread) }
{
    let (mut machine, silent, what) = stand_at(alloc, p, steps, entries, thread)?;
    let What::Asks { a } = what else {
        return Ok(());
    };
    if !a.leaves_choice() {
        let m = only_move(alloc, p, steps, entries, &mut machine, thread, silent, &a)?;
        moves.push(m)?;
        return Ok(());
    }
    add_moves_at(
        alloc, p, steps, entries, &machine, thread, silent, &a, moves,
    )
}

/// Adds the moves of a thread. The machine stands where the run ends but for the threads before this one, and then but for
/// this one too.
fn add_moves(
    alloc: Global,
    p: &Program,
    steps: u64,
    entries: &[Entry],
    machine: &mut Machine<PlainMemory>,
    thread: u32,
    moves: &mut Vec<Move>,
) -> Result<(), NoMemory>
    requires proper { IsProperProgram p.now }
    requires run { IsNodeRun p.now steps entries.now }
    requires few { length entries.now < 2 ^ 32 }
    requires steps { steps < 2 ^ 32 }
    requires small { AreSmall (2 ^ 60) entries.now }
    requires there { thread < length p.now.threads }
    requires program { IsOf p.now machine.old }
    requires stands { StandsFrom p.now entries.now thread (state_in p.now machine.old) }
    ensures grows { OnOk result (GrowsBy p.now steps (node_of p.now steps entries.now) entries.now moves.old.items moves.new.items) }
    ensures all { OnOk result (HasMovesOf p.now steps (node_of p.now steps entries.now) moves.new.items thread) }
    ensures stands { StandsFrom p.now entries.now (thread + 1) (state_in p.now machine.new) }
    ensures program { IsOf p.now machine.new }
{
    let (silent, what) = settle(machine, p, steps, entries, thread);
    let What::Asks { a } = what else {
        return Ok(());
    };
    if a.leaves_choice() {
        return add_moves_at(alloc, p, steps, entries, machine, thread, silent, &a, moves);
    }
    if let Some(m) = alone_move(alloc, p, steps, entries, thread, silent, &a)? {
        moves.push(m)?;
        return Ok(());
    }
    add_moves_alone(alloc, p, steps, entries, thread, moves)
}

/// The moves of so many threads.
fn moves_by(
    alloc: Global,
    p: &Program,
    steps: u64,
    entries: &[Entry],
    threads: u32,
) -> Result<Vec<Move>, NoMemory>
    requires proper { IsProperProgram p.now }
    requires run { IsNodeRun p.now steps entries.now }
    requires few { length entries.now < 2 ^ 32 }
    requires steps { steps < 2 ^ 32 }
    requires small { AreSmall (2 ^ 60) entries.now }
    requires threads { length p.now.threads ≡ threads }
    ensures all { IfOk result (λ moves. (i : ℕ) → i < threads → HasMovesOf p.now steps (node_of p.now steps entries.now) moves.items i) }
    ensures only { IfOk result (λ moves. AllByRecursion (IsSomeMove p.now steps (node_of p.now steps entries.now)) moves.items) }
    ensures small { IfOk result (λ moves. AllByRecursion (IsSmallMove entries.now) moves.items) }
{
    let mut machine = stand(alloc, p, entries)?;
    let mut moves = Vec::new(alloc);
    for thread in 0..threads {
        add_moves(alloc, p, steps, entries, &mut machine, thread, &mut moves)?;
    }
    Ok(moves)
}

/// All moves that threads may make where the run ends, each with the run that it leads to.
pub fn moves_of(
    alloc: Global,
    p: &Program,
    steps: u64,
    entries: &[Entry],
) -> Result<Vec<Move>, NoMemory>
    requires proper { IsProperProgram p.now }
    requires run { IsNodeRun p.now steps entries.now }
    requires few { length entries.now < 2 ^ 32 }
    requires steps { steps < 2 ^ 32 }
    requires small { AreSmall (2 ^ 60) entries.now }
    ensures all { IfOk result (λ moves. (i : ℕ) → i < length p.now.threads → HasMovesOf p.now steps (node_of p.now steps entries.now) moves.items i) }
    ensures only { IfOk result (λ moves. AllByRecursion (IsSomeMove p.now steps (node_of p.now steps entries.now)) moves.items) }
    ensures small { IfOk result (λ moves. AllByRecursion (IsSmallMove entries.now) moves.items) }
{
    moves_by(alloc, p, steps, entries, p.threads.len() as u32)
}
