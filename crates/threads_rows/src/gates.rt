//! `run` through gates: what no clause says of it is that workers run beside each other, and that calls return.
ghost use Rattle.std.specs.Prelude.{◌<◌, ◌^◌, ◌-◌, length};

use replay_text::{Replayed, read_replay};
use sq_outside::{MemSink, SureSource};
use std::alloc::Global;
use std::sync::Wait;
use std::sync::atomic::{AtomicU64, Ordering};
use std::test::Fail;
use std::thread::Threads;
use threaded_runner::{Gate, NoGate};
use tool::{Status, run_command};
use values_undef::{Bytes, Cause, Ending, Entry, Event};

/// Store buffering, of two threads.
const STORE_BUFFERING: &str = "\
il 1
atomic a = 0;
atomic b = 0;
fn p() {
  reg r;
  store rlx a, 1;
  r = load rlx b;
  print r;
  return 0;
}
fn q() {
  reg r;
  store rlx b, 1;
  r = load rlx a;
  print r;
  return 0;
}
thread p();
thread q();
";

/// One thread goes round for ever, and the other fails at once.
const FAILS_BESIDE_A_LOOP: &str = "\
il 1
fn round() {
  while 1 {
    skip;
  }
  return 0;
}
fn fails() {
  reg r;
  r = 1 / 0;
  return r;
}
thread round();
thread fails();
";

/// What `run` answers to a program, with the seed 0 and 1000 steps, and what its report reads as.
fn run_through<R: Threads + Wait + Sync, G: Gate + Sync>(
    rt: &R,
    alloc: Global,
    text: &str,
    gate: &G,
) -> Result<(Status, Replayed), Fail> {
    let bytes = Vec::from_slice(alloc, text.as_bytes())?;
    let mut input = SureSource::new(Bytes { bytes });
    let mut output = MemSink::new(alloc, 4096, 4096, Vec::new(alloc)).map_err(|_| "no memory")?;
    let status = run_command(alloc, rt, 0, 1000, gate, &mut input, &mut output);
    let written = output.written();
    if written.len() > 4096 {
        return Err("more than the room".into());
    }
    let read = read_replay(alloc, written).map_err(|_| "no report")?;
    Ok((status, read))
}

/// Waits, for a while, until the flag is up; if it stays down, marks `late`.
fn wait_for(flag: &AtomicU64, late: &AtomicU64) {
    for _ in 0..1_000_000_000u64 {
        if flag.load(Ordering::SeqCst) == 1 {
            return;
        }
    }
    late.store(1, Ordering::SeqCst);
}

/// Holds thread 0 before its first access until thread 1 has made two.
#[derive(Drop)]
struct Behind<'a> {
    made: &'a AtomicU64,
    late: &'a AtomicU64,
}

impl Gate for Behind<'_> {
    fn before(&self, thread: u32, own: u64) {
        if thread == 1 && own == 2 {
            self.made.store(1, Ordering::SeqCst);
        }
        if thread == 0 && own == 0 {
            wait_for(self.made, self.late);
        }
    }
}

#[test]
fn a_gate_holds_a_thread(rt: HostRuntime) -> Result<(), Fail> {
    let (made, late) = (AtomicU64::new(0), AtomicU64::new(0));
    let gate = Behind {
        made: &made,
        late: &late,
    };
    let (status, read) = run_through(&rt, rt.alloc(), STORE_BUFFERING, &gate)?;
    assert_eq!(rt; late.load(Ordering::SeqCst), 0);
    assert_eq!(rt; status, Status::Done);
    assert_eq!(rt; read.ending, Ending::Done);
    let entries = read.journal.entries.as_slice();
    assert_eq!(rt; entries.len(), 8);
    assert_eq!(rt; entries[0].thread, 1);
    assert_eq!(rt; entries[1].thread, 1);
    Ok(())
}

/// Each of two threads waits for the other before its second access, so they must run beside each other.
#[derive(Drop)]
struct Meet<'a> {
    first: &'a AtomicU64,
    second: &'a AtomicU64,
    late: &'a AtomicU64,
}

impl Gate for Meet<'_> {
    fn before(&self, thread: u32, own: u64) {
        if own != 1 {
            return;
        }
        let (mine, other) = match thread {
            0 => (self.first, self.second),
            _ => (self.second, self.first),
        };
        mine.store(1, Ordering::SeqCst);
        wait_for(other, self.late);
    }
}

#[test]
fn two_threads_meet(rt: HostRuntime) -> Result<(), Fail> {
    let (first, second, late) = (AtomicU64::new(0), AtomicU64::new(0), AtomicU64::new(0));
    let gate = Meet {
        first: &first,
        second: &second,
        late: &late,
    };
    let (status, read) = run_through(&rt, rt.alloc(), STORE_BUFFERING, &gate)?;
    assert_eq!(rt; late.load(Ordering::SeqCst), 0);
    assert_eq!(rt; status, Status::Done);
    assert_eq!(rt; read.journal.entries.len(), 8);
    Ok(())
}

/// After a failure nobody makes an access. Whether the other thread came to the end of its budget before is open.
#[test]
fn a_failure_ends_the_run(rt: HostRuntime) -> Result<(), Fail> {
    let (status, read) = run_through(&rt, rt.alloc(), FAILS_BESIDE_A_LOOP, &NoGate)?;
    assert_eq!(rt; status, Status::Failed);
    let spent = Entry {
        thread: 0,
        silent: 1000,
        event: Event::Spend,
    };
    let failed = Entry {
        thread: 1,
        silent: 0,
        event: Event::Fail {
            cause: Cause::Divide,
        },
    };
    let (alone, both) = ([failed], [spent, failed]);
    let entries = read.journal.entries.as_slice();
    assert!(rt; entries == alone.as_slice() || entries == both.as_slice());
    Ok(())
}
