//! The program: the words after its name, standard input and standard output go to the top call, and the status that
//! comes back is its exit status. It writes nothing itself.
#![tactic(auto)]

use sq_outside::{StdSink, StdSource};
use std::env::{self, Env};
use std::io::{self, ErrorKind};
use std::process::ExitCode;
use tool::{Status, seqopt};
use values_undef::{Word, Words};

/// The status of words that could not be had: those that are not UTF-8 are refused words, and else memory ran out.
fn status_of(error: io::Error) -> Status {
    match error.kind() {
        ErrorKind::InvalidData => Status::Words,
        _ => Status::NoMemory,
    }
}

/// The words after the program's name.
fn words<R: Env + AllocGlobal>(rt: &R) -> Result<Words, Status> {
    let arguments = env::args(rt).map_err(status_of)?;
    let mut words = Vec::new(rt.alloc());
    for text in arguments.skip(1) {
        words.push(Word { text }).map_err(|_| Status::NoMemory)?;
    }
    Ok(Words { words })
}

fn main(rt: HostRuntime) -> ExitCode {
    let status = match words(&rt) {
        Ok(words) => {
            let mut input = StdSource::new(rt.stdin());
            let mut output = StdSink::new(rt.stdout());
            seqopt(rt.alloc(), &rt, &words, &mut input, &mut output)
        }
        Err(status) => status,
    };
    ExitCode::from(status.number())
}
