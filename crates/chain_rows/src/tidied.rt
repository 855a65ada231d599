//! Registers tidied, and what one function says of another: texts, and the first site that is refused.
ghost use Rattle.std.specs.Prelude.{IfOk, IfSome};
ghost use Rattle.il_syntax.specs.WellFormed.{IsWellFormed};

use il_parser::{InputFault, parse};
use il_printer::print;
use il_syntax::{Program, sites_within};
use std::alloc::Global;
use std::test::Fail;
use tidy::{Tidiness, judge, tidy_program};
use values_undef::NoMemory;

/// A copy of a copy, and a load that nobody reads.
const COPIED: &str = "il 1
na x = 0;
fn main() {
  reg a, b, r;
  a = 3;
  b = a;
  r = load x;
  print b;
  return 0;
}
thread main();
";

const COPIED_TIDIED: &str = "il 1
na x = 0;
fn main() {
  reg a, b, r;
  a = 3;
  skip;
  skip;
  print a;
  return 0;
}
thread main();
";

/// A division that fails, whose register nobody reads.
const DIVIDED: &str = "il 1
fn main() {
  reg r;
  r = 1 / 0;
  print 5;
  return 0;
}
thread main();
";

const DIVIDED_TIDIED: &str = "il 1
fn main() {
  reg r;
  skip;
  print 5;
  return 0;
}
thread main();
";

/// A register that is printed, one that a loop's condition alone reads, and one that is the result alone.
const READ: &str = "il 1
fn main() {
  reg r, c, d;
  r = 1;
  while c {
    c = r + 1;
    d = c;
  }
  print r;
  return d;
}
thread main();
";

/// The first one's assignment is left out.
const UNPRINTED: &str = "il 1
fn main() {
  reg r, c, d;
  skip;
  while c {
    c = r + 1;
    d = c;
  }
  print r;
  return d;
}
thread main();
";

/// The second one's is.
const UNTESTED: &str = "il 1
fn main() {
  reg r, c, d;
  r = 1;
  while c {
    skip;
    d = c;
  }
  print r;
  return d;
}
thread main();
";

/// The third one's is.
const UNRETURNED: &str = "il 1
fn main() {
  reg r, c, d;
  r = 1;
  while c {
    c = r + 1;
    skip;
  }
  print r;
  return d;
}
thread main();
";

/// The computation is done, with a constant that is known.
const COMPUTED: &str = "il 1
fn main() {
  reg r, c, d;
  r = 1;
  while c {
    c = 2;
    d = c;
  }
  print 1;
  return d;
}
thread main();
";

/// It is done wrong.
const MISCOMPUTED: &str = "il 1
fn main() {
  reg r, c, d;
  r = 1;
  while c {
    c = 3;
    d = c;
  }
  print r;
  return d;
}
thread main();
";

/// The result alone is another.
const OTHER_RESULT: &str = "il 1
fn main() {
  reg r, c, d;
  r = 1;
  while c {
    c = r + 1;
    d = c;
  }
  print r;
  return c;
}
thread main();
";

/// The program of a text; none where it is refused, or longer than any here.
fn parsed(alloc: Global, text: &str) -> Result<Option<Program>, NoMemory>
    ensures { IfOk result (λ found. IfSome found IsWellFormed) }
{
    let bytes = text.as_bytes();
    if bytes.len() > 4096 {
        return Ok(None);
    }
    match parse(alloc, bytes) {
        Ok(p) => Ok(Some(p)),
        Err(InputFault::NoMemory) => Err(NoMemory),
        Err(_) => Ok(None),
    }
}

/// What the first function of one text says of the other's.
fn judged(alloc: Global, text: &str, other: &str) -> Result<Option<Tidiness>, NoMemory> {
    let (Some(p), Some(q)) = (parsed(alloc, text)?, parsed(alloc, other)?) else {
        return Ok(None);
    };
    let (Some(f), Some(g)) = (p.functions.get(0), q.functions.get(0)) else {
        return Ok(None);
    };
    if f.registers.len() > 64 || sites_within(g.body.statements.as_slice(), 4096).is_none() {
        return Ok(None);
    }
    Ok(Some(judge(alloc, f, g)?))
}

/// Whether the program of one text is tidied to that of the other, which it accepts.
fn is_tidied(alloc: Global, text: &str, other: &str) -> Result<bool, NoMemory> {
    let Some(p) = parsed(alloc, text)? else {
        return Ok(false);
    };
    let q = tidy_program(alloc, &p)?;
    let printed = print(alloc, &q)?;
    Ok(
        printed.bytes.as_slice() == other.as_bytes()
            && judged(alloc, text, other)? == Some(Tidiness::Yes),
    )
}

#[test]
fn copies_are_read_and_cleared(rt: HostRuntime) -> Result<(), Fail> {
    let alloc = rt.alloc();
    assert!(rt; is_tidied(alloc, COPIED, COPIED_TIDIED)?);
    assert!(rt; is_tidied(alloc, DIVIDED, DIVIDED_TIDIED)?);
    Ok(())
}

#[test]
fn what_is_read_stays(rt: HostRuntime) -> Result<(), Fail> {
    let alloc = rt.alloc();
    assert!(rt; judged(alloc, READ, READ)? == Some(Tidiness::Yes));
    assert!(rt; judged(alloc, READ, COMPUTED)? == Some(Tidiness::Yes));
    assert!(rt; judged(alloc, READ, UNPRINTED)? == Some(Tidiness::No { site: 0 }));
    assert!(rt; judged(alloc, READ, UNTESTED)? == Some(Tidiness::No { site: 2 }));
    assert!(rt; judged(alloc, READ, UNRETURNED)? == Some(Tidiness::No { site: 3 }));
    assert!(rt; judged(alloc, READ, MISCOMPUTED)? == Some(Tidiness::No { site: 2 }));
    assert!(rt; judged(alloc, READ, OTHER_RESULT)? == Some(Tidiness::No { site: 5 }));
    assert!(rt; judged(alloc, COPIED, READ)? == Some(Tidiness::No { site: 5 }));
    Ok(())
}
