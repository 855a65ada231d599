//! Accesses by one thread and by two.
ghost use Rattle.std.specs.Prelude.{◌≡◌, ℕ, ◌<◌, ◌≤◌, IsTrue, length, slice_index_or};
ghost use Rattle.message_memory.specs.Step.{IsProper};
ghost use Rattle.shared_memory.specs.Slot.{first_memory, params_for};
ghost use Rattle.shared_memory.specs.Passes.{PassValue};
ghost use Rattle.threads_rows.specs.Each.{IsReadyPass, IsSamePass};

use chooser::Picks;
use il_syntax::{Atom, Block, Function, Location, Name, Program, Start, Stmt};
use message_memory::PlainMemory;
use shared_memory::{Answer, Pass, Shared};
use sqlite_items::Items;
use std::alloc::{AllocError, Global};
use std::sync::Wait;
use std::sync::atomic::{AtomicU64, Ordering};
use std::test::Fail;
use std::thread;
use std::thread::Threads;
use values_undef::{Access, Cause, Entry, Event, Journal, NoMemory, Order, Turns, Val};

fn list<T: Drop, const N: usize>(alloc: Global, items: [T; N]) -> Result<Items<T>, AllocError> {
    Ok(Items::from_vec(Vec::from_array(alloc, items)?))
}

fn name(alloc: Global, letter: u8) -> Result<Name, AllocError> {
    list(alloc, [letter])
}

fn location(alloc: Global, letter: u8) -> Result<Location, AllocError> {
    Ok(Location {
        name: name(alloc, letter)?,
        value: 0,
    })
}

fn start(alloc: Global, function: u32) -> Result<Start, AllocError> {
    Ok(Start {
        function,
        args: list(alloc, [])?,
    })
}

/// `store rlx y, 1; r = load rlx z; print r;`
fn half(alloc: Global, letter: u8, y: u32, z: u32) -> Result<Function, AllocError> {
    let statements = [
        Stmt::AtomicStore {
            order: Order::Rlx,
            y,
            a: Atom::Const(1),
        },
        Stmt::AtomicLoad {
            r: 0,
            order: Order::Rlx,
            y: z,
        },
        Stmt::Print { a: Atom::Reg(0) },
    ];
    Ok(Function {
        name: name(alloc, letter)?,
        params: 0,
        registers: list(alloc, [name(alloc, b'r')?])?,
        body: Block {
            statements: list(alloc, statements)?,
        },
        result: Atom::Const(0),
    })
}

/// Store buffering, of two threads.
fn store_buffering(alloc: Global) -> Result<Program, AllocError> {
    Ok(Program {
        na: list(alloc, [])?,
        atomic: list(alloc, [location(alloc, b'a')?, location(alloc, b'b')?])?,
        functions: list(alloc, [half(alloc, b'p', 0, 1)?, half(alloc, b'q', 1, 0)?])?,
        threads: list(alloc, [start(alloc, 0)?, start(alloc, 1)?])?,
    })
}

// ---- one access of each pass

/// Whether the access is one that the memory of the program has.
fn is_proper(p: &Program, a: &Access) -> bool
    ensures { IsTrue result → IsProper (first_memory (params_for p.now 8)) a.now }
{
    match a {
        Access::Read { y, order } => (*y as usize) < p.atomic.len() && !order.releases(),
        Access::Write { y, order, .. } => (*y as usize) < p.atomic.len() && !order.acquires(),
        Access::Fail { .. } => true,
        _ => false,
    }
}

/// An access, what it is to be answered, and whether it was.
#[derive(Drop)]
struct Asked<'a> {
    access: &'a Access,
    wanted: Answer,
    right: &'a AtomicU64,
}

/// Makes the access of the pass's thread, which picks the candidate of the thread's own number.
fn access_once<R: Wait>(
    rt: &R,
    alloc: Global,
    shared: &Shared<PlainMemory>,
    pass: &mut Pass<PlainMemory>,
    row: &Asked<'_>,
)
    requires proper { IsProper (first_memory shared.now.params) row.now.access.now }
    requires ready { IsReadyPass shared.now pass.old }
    ensures { IsSamePass shared.now pass.old pass.new }
{
    let Ok(turns) = Vec::from_slice(alloc, &[pass.thread()]) else {
        return;
    };
    let answer = shared.access(rt, pass, 0, row.access, &mut Picks::new(Turns { turns }));
    if answer == row.wanted {
        row.right.store(1, Ordering::SeqCst);
    }
}

/// Makes an access with each of the passes of two threads, in so many threads.
fn access_each<R: Threads + Wait + Sync>(
    rt: &R,
    alloc: Global,
    shared: &Shared<PlainMemory>,
    passes: &mut [Pass<PlainMemory>],
    threads: usize,
    first: &Asked<'_>,
    second: &Asked<'_>,
)
    requires some { 0 < threads }
    requires first { IsProper (first_memory shared.now.params) first.now.access.now }
    requires second { IsProper (first_memory shared.now.params) second.now.access.now }
    requires ready { (k : ℕ) (pass : PassValue) → k < length passes.old → IsReadyPass shared.now (slice_index_or passes.old k pass) }
    ensures { (k : ℕ) (pass : PassValue) → k < length passes.old → IsSamePass shared.now (slice_index_or passes.old k pass) (slice_index_or passes.new k pass) }
{
    thread::for_each_mut(
        rt,
        passes,
        threads,
        &|_, pass: &mut Pass<PlainMemory>|
            requires { IsProper (first_memory shared.now.params) first.now.access.now × IsProper (first_memory shared.now.params) second.now.access.now × IsReadyPass shared.now pass.now }
            ensures { IsSamePass shared.entry.now pass.entry.now pass.exit.now }
        {
            if pass.thread() == 0 {
                access_once(rt, alloc, shared, pass, first);
            } else {
                access_once(rt, alloc, shared, pass, second);
            }
        },
    );
}

/// The journal of one access of each thread, made in so many threads.
fn each_once<R: Threads + Wait + Sync>(
    rt: &R,
    alloc: Global,
    p: &Program,
    threads: usize,
    first: &Asked<'_>,
    second: &Asked<'_>,
) -> Result<Journal, NoMemory>
    requires some { 0 < threads }
    requires few_na { length p.now.na ≤ 16 }
    requires few_atomic { length p.now.atomic ≤ 16 }
    requires two { length p.now.threads ≡ 2 }
    requires first { IsProper (first_memory (params_for p.now 8)) first.now.access.now }
    requires second { IsProper (first_memory (params_for p.now 8)) second.now.access.now }
{
    let (shared, mut passes) = Shared::<PlainMemory>::make(alloc, p, 8)?;
    access_each(rt, alloc, &shared, passes.lent(), threads, first, second);
    Ok(shared.close(passes))
}

/// The journal of one access of each thread of store buffering, in so many threads, where each was answered as wanted.
fn row<R: Threads + Wait + Sync>(
    rt: &R,
    alloc: Global,
    threads: usize,
    first: (&Access, Answer),
    second: (&Access, Answer),
) -> Result<Journal, Fail> {
    let p = store_buffering(alloc)?;
    let small = p.na.len() <= 16 && p.atomic.len() <= 16 && p.threads.len() == 2;
    if !small || threads == 0 || !is_proper(&p, first.0) || !is_proper(&p, second.0) {
        return Err("no such row".into());
    }
    let (one, other) = (AtomicU64::new(0), AtomicU64::new(0));
    let first = Asked {
        access: first.0,
        wanted: first.1,
        right: &one,
    };
    let second = Asked {
        access: second.0,
        wanted: second.1,
        right: &other,
    };
    let journal = each_once(rt, alloc, &p, threads, &first, &second)?;
    if one.load(Ordering::SeqCst) != 1 || other.load(Ordering::SeqCst) != 1 {
        return Err("another answer".into());
    }
    Ok(journal)
}

const WRITE: Access = Access::Write {
    y: 0,
    order: Order::Rlx,
    v: Val::Def(1),
};

const READ: Access = Access::Read {
    y: 0,
    order: Order::Rlx,
};

/// The write of thread 0, whatever came before it.
const WROTE: Event = Event::Write {
    y: 0,
    order: Order::Rlx,
    v: Val::Def(1),
    from: 1048576,
    to: 2097152,
};

/// The read of thread 1, which takes the first message whether or not there is a second.
const FOUND_FIRST: Event = Event::Read {
    y: 0,
    order: Order::Rlx,
    v: Val::Def(0),
    to: 0,
};

/// The entry of a thread that has made nothing else.
fn entry(thread: u32, event: Event) -> Entry {
    Entry {
        thread,
        silent: 0,
        event,
    }
}

/// The journal of the write and the read.
fn written_and_read<R: Threads + Wait + Sync>(
    rt: &R,
    alloc: Global,
    threads: usize,
) -> Result<Journal, Fail> {
    row(
        rt,
        alloc,
        threads,
        (&WRITE, Answer::Done { event: WROTE }),
        (&READ, Answer::Done { event: FOUND_FIRST }),
    )
}

/// A write, and a read of an older message, by one thread.
#[test]
fn a_write_and_a_stale_read(rt: HostRuntime) -> Result<(), Fail> {
    let journal = written_and_read(&rt, rt.alloc(), 1)?;
    let want = [entry(0, WROTE), entry(1, FOUND_FIRST)];
    assert!(rt; journal.entries.as_slice() == want.as_slice());
    Ok(())
}

/// Each pass in a thread of its own: the answers are the same, and the journal has the same entries, in either order.
#[test]
fn each_pass_in_a_thread_of_its_own(rt: HostRuntime) -> Result<(), Fail> {
    let journal = written_and_read(&rt, rt.alloc(), 2)?;
    let (wrote, found) = (entry(0, WROTE), entry(1, FOUND_FIRST));
    let (want, other) = ([wrote, found], [found, wrote]);
    let entries = journal.entries.as_slice();
    assert!(rt; entries == want.as_slice() || entries == other.as_slice());
    Ok(())
}

/// After a failure nobody makes an access: the other is told where the failure stands, and has no call of its own.
#[test]
fn a_failure_stops_the_others(rt: HostRuntime) -> Result<(), Fail> {
    let failing = Access::Fail {
        cause: Cause::Print,
    };
    let failed = Event::Fail {
        cause: Cause::Print,
    };
    let journal = row(
        &rt,
        rt.alloc(),
        1,
        (&failing, Answer::Done { event: failed }),
        (&READ, Answer::Stopped { place: 0 }),
    )?;
    let want = [entry(0, failed)];
    assert!(rt; journal.entries.as_slice() == want.as_slice());
    Ok(())
}
