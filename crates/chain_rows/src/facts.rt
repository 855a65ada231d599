//! Levels, best atoms and effects of small functions, by values that were worked out by hand from the table of levels
//! in docs/OPTIMISATIONS.md.
use flow_facts::{Facts, Kind, Level, Walked};
use flow_summary::{Effect, Summed, effect_of};
use il_parser::{InputFault, parse};
use il_syntax::{Atom, Program, sites_within};
use std::alloc::Global;
use std::test::Fail;
use values_undef::NoMemory;

/// A store, a release and a load.
const RELEASED: &str = "il 1
na x = 0;
atomic f = 0;
fn main() {
  reg r;
  store x, 1;
  store rel f, 1;
  r = load x;
  return 0;
}
thread main();
";

/// A loop that loads, and then stores another value.
const STORED_AGAIN: &str = "il 1
na x = 0;
fn main() {
  reg c, r;
  store x, 1;
  while c {
    r = load x;
    store x, 2;
  }
  return 0;
}
thread main();
";

/// A loop that acquires and then releases.
const ACQUIRES_AND_RELEASES: &str = "il 1
na x = 0;
atomic f = 0;
atomic g = 0;
fn main() {
  reg c, a;
  while c {
    a = load acq g;
    store rel f, 1;
  }
  return 0;
}
thread main();
";

/// A store on one path.
const STORED_ON_ONE_PATH: &str = "il 1
na x = 0;
fn main() {
  reg c;
  if c {
    store x, 1;
  }
  return 0;
}
thread main();
";

const ONE: Atom = Atom::Const(1);

/// The program of a text; none where it is refused, or longer than any here.
fn parsed(alloc: Global, text: &str) -> Result<Option<Program>, NoMemory> {
    let bytes = text.as_bytes();
    if bytes.len() > 4096 {
        return Ok(None);
    }
    match parse(alloc, bytes) {
        Ok(p) => Ok(Some(p)),
        Err(InputFault::NoMemory) => Err(NoMemory),
        Err(_) => Ok(None),
    }
}

/// Whether the pair of location 0 and 1 has this level before the site of the first function, and location 0 this best
/// atom.
fn says<F: Facts>(
    alloc: Global,
    facts: &F,
    text: &str,
    kind: Kind,
    site: u32,
    level: Level,
    best: Option<Atom>,
) -> Result<bool, NoMemory> {
    let Some(p) = parsed(alloc, text)? else {
        return Ok(false);
    };
    let Some(f) = p.functions.get(0) else {
        return Ok(false);
    };
    if sites_within(f.body.statements.as_slice(), 4096).is_none() {
        return Ok(false);
    }
    let table = facts.before(alloc, f, kind)?;
    Ok(table.level(site, 0, ONE) == level && table.best(site, 0) == best)
}

/// Whether both tables say it.
fn both_say(
    alloc: Global,
    text: &str,
    kind: Kind,
    site: u32,
    level: Level,
    best: Option<Atom>,
) -> Result<bool, NoMemory> {
    Ok(
        says(alloc, &Walked, text, kind, site, level, best)?
            && says(alloc, &Summed, text, kind, site, level, best)?,
    )
}

/// Whether the statement at the site of the first function has this effect on the pair of location 0 and 1, in facts of
/// both kinds.
fn has_effect(
    alloc: Global,
    text: &str,
    site: u32,
    nothing: Level,
    held: Level,
    fresh: Level,
) -> Result<bool, NoMemory> {
    let Some(p) = parsed(alloc, text)? else {
        return Ok(false);
    };
    let Some(f) = p.functions.get(0) else {
        return Ok(false);
    };
    let Some(count) = sites_within(f.body.statements.as_slice(), 4096) else {
        return Ok(false);
    };
    if site >= count {
        return Ok(false);
    }
    let effect = effect_of(f, site, 0, ONE, Kind::Both)?;
    Ok(
        effect
            == Effect {
                nothing,
                held,
                fresh,
            },
    )
}

#[test]
fn what_was_stored_is_held_after_a_release(rt: HostRuntime) -> Result<(), Fail> {
    let alloc = rt.alloc();
    assert!(rt; both_say(alloc, RELEASED, Kind::Stores, 0, Level::Nothing, None)?);
    assert!(rt; both_say(alloc, RELEASED, Kind::Stores, 1, Level::Fresh, Some(ONE))?);
    assert!(rt; both_say(alloc, RELEASED, Kind::Stores, 2, Level::Held, Some(ONE))?);
    assert!(rt; both_say(alloc, RELEASED, Kind::Loads, 2, Level::Nothing, None)?);
    Ok(())
}

#[test]
fn a_loop_that_stores_another_value_knows_none(rt: HostRuntime) -> Result<(), Fail> {
    let alloc = rt.alloc();
    assert!(rt; both_say(alloc, STORED_AGAIN, Kind::Both, 1, Level::Nothing, None)?);
    assert!(rt; both_say(alloc, STORED_AGAIN, Kind::Both, 2, Level::Nothing, None)?);
    Ok(())
}

#[test]
fn a_release_leaves_what_was_fresh_held(rt: HostRuntime) -> Result<(), Fail> {
    assert!(rt;
        has_effect(
            rt.alloc(),
            RELEASED,
            1,
            Level::Nothing,
            Level::Held,
            Level::Held
        )?
    );
    Ok(())
}

#[test]
fn two_turns_take_away_what_one_leaves(rt: HostRuntime) -> Result<(), Fail> {
    let effect = has_effect(
        rt.alloc(),
        ACQUIRES_AND_RELEASES,
        0,
        Level::Nothing,
        Level::Nothing,
        Level::Nothing,
    )?;
    assert!(rt; effect);
    Ok(())
}

#[test]
fn the_path_without_the_store_decides(rt: HostRuntime) -> Result<(), Fail> {
    let effect = has_effect(
        rt.alloc(),
        STORED_ON_ONE_PATH,
        0,
        Level::Nothing,
        Level::Held,
        Level::Fresh,
    )?;
    assert!(rt; effect);
    Ok(())
}
