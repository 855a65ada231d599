//! Faults of the outside through the top call: each read of an input and each write of an output fails in turn. What no clause
//! says is that a failed call isn't tried once more.
ghost use Rattle.std.specs.Prelude.{◌≤◌};

use sq_outside::{MemSink, MemSource};
use std::alloc::Global;
use std::sync::Wait;
use std::test::Fail;
use std::thread::Threads;
use tool::{Status, seqopt};
use values_undef::{Bytes, Word, Words};

/// It prints 7.
const PRINTS: &str = "\
il 1
fn main() {
  print 7;
  return 0;
}
thread main();
";

/// The report of each run of it.
const REPORT: &str = "\
program
il 1
fn main() {
  print 7;
  return 0;
}
thread main();
journal
0 0 print 7
0 0 done
end done
source
0 0 print 7
0 0 done
end done
outputs
0 7
";

/// What a command answers to the program, and its sink, where the source and the sink take so many bytes a call and these of
/// their calls fail.
fn done<R: Threads + Wait + Sync>(
    rt: &R,
    alloc: Global,
    word: &str,
    piece: usize,
    reads: Vec<u64>,
    writes: Vec<u64>,
) -> Result<(Status, MemSink), Fail>
    requires { 1 ≤ piece }
{
    let bytes = Vec::from_slice(alloc, PRINTS.as_bytes())?;
    let mut words = Vec::new(alloc);
    words.push(Word {
        text: String::from_str(alloc, word)?,
    })?;
    let mut input = MemSource::new(Bytes { bytes }, piece, reads);
    let mut output = MemSink::new(alloc, 4096, piece, writes).map_err(|_| "no memory")?;
    let status = seqopt(alloc, rt, &Words { words }, &mut input, &mut output);
    Ok((status, output))
}

/// Whether a failing call of the source, among calls of one byte, is answered by the status of that fault, with nothing written.
fn is_read_fault<R: Threads + Wait + Sync>(rt: &R, alloc: Global, call: u64) -> Result<bool, Fail> {
    let (status, output) = done(rt, alloc, "walk", 1, vec![in alloc; call]?, Vec::new(alloc))?;
    Ok(status == Status::Read && output.written().is_empty())
}

/// Whether a failing call of the sink, among calls of one byte, is answered by the status of that fault, with the bytes before it
/// written.
fn is_write_fault<R: Threads + Wait + Sync>(
    rt: &R,
    alloc: Global,
    call: u64,
) -> Result<bool, Fail> {
    let (status, output) = done(rt, alloc, "walk", 1, Vec::new(alloc), vec![in alloc; call]?)?;
    let written = output.written();
    Ok(
        status == Status::Write
            && written.len() as u64 == call
            && REPORT.as_bytes().starts_with(written),
    )
}

/// Whether nothing fails, and the report is written.
fn is_report<R: Threads + Wait + Sync>(
    rt: &R,
    alloc: Global,
    word: &str,
    calls: u64,
) -> Result<bool, Fail> {
    let (status, output) = done(
        rt,
        alloc,
        word,
        1,
        vec![in alloc; calls]?,
        vec![in alloc; calls]?,
    )?;
    Ok(status == Status::Done && output.written() == REPORT.as_bytes())
}

/// Whether ten bytes are written where the second call of the sink fails, and none where the first one of the source does.
fn stops_in_pieces<R: Threads + Wait + Sync>(
    rt: &R,
    alloc: Global,
    word: &str,
) -> Result<bool, Fail> {
    let (status, output) = done(rt, alloc, word, 10, Vec::new(alloc), vec![in alloc; 1]?)?;
    let written = status == Status::Write && output.written() == b"program\nil".as_slice();
    let (status, output) = done(rt, alloc, word, 10, vec![in alloc; 0]?, Vec::new(alloc))?;
    Ok(written && status == Status::Read && output.written().is_empty())
}

/// The program has 57 bytes, and the call after them finds the end.
#[test]
fn each_read_may_fail(rt: HostRuntime) -> Result<(), Fail> {
    for call in 0..58u64 {
        assert!(rt; is_read_fault(&rt, rt.alloc(), call)?);
    }
    Ok(())
}

/// The report has 152 bytes.
#[test]
fn each_write_may_fail(rt: HostRuntime) -> Result<(), Fail> {
    for call in 0..152u64 {
        assert!(rt; is_write_fault(&rt, rt.alloc(), call)?);
    }
    Ok(())
}

#[test]
fn later_calls_may_fail(rt: HostRuntime) -> Result<(), Fail> {
    assert!(rt; is_report(&rt, rt.alloc(), "walk", 152)?);
    assert!(rt; is_report(&rt, rt.alloc(), "run", 152)?);
    Ok(())
}

#[test]
fn a_fault_stops_in_pieces(rt: HostRuntime) -> Result<(), Fail> {
    assert!(rt; stops_in_pieces(&rt, rt.alloc(), "walk")?);
    assert!(rt; stops_in_pieces(&rt, rt.alloc(), "run")?);
    Ok(())
}
