//! The command of the words.
ghost use Rattle.std.specs.List.{list_any};
ghost use Rattle.std.specs.Str.{bytes_eq};
ghost use Rattle.std.specs.Prelude.{◌≡◌, None, Some, ℕ, List, [], IfErr, IfOk, MatchResult, ◌↔◌, ◌≤◌, codes, map};
ghost use Rattle.clap.specs.Words.{fault_of, found_of, kind_of, rows_of, subcommand_of, subcommand_rows_of};
ghost use Rattle.words.specs.Commands.{commands};
ghost use Rattle.words.specs.Meaning.{Means, GivesDraws, GivesForm, GivesNumber, GivesNumbers, GivesSeed, GivesSteps, IsFormOf, SetsNumber, SetsWord};
ghost use Rattle.words.specs.Numbers.{AreNumbers};
ghost use Rattle.words.specs.Reading.{IsPicks, IsSeed, ListsPicks, ReadsCommand};
ghost use Rattle.words.specs.declared.command.Drawing.{Drawing};
ghost use Rattle.words.specs.declared.command.Form.{Form};
ghost use Rattle.words.specs.Options.{value_of};
ghost use Rattle.words.specs.Program.{clap_program, row_of};
ghost use Rattle.words.specs.Spelling.{Setting};

use crate::command::{Command, Drawing, Form, WordsFault};
use crate::names::word;
use crate::numbers::{number_within, numbers_within};
use crate::program::program;
use clap::ArgMatches;
use clap::error::ErrorKind;
use il_syntax::Name;
use std::alloc::{AllocError, Global};
use values_undef::{Turns, Words};

fn fault(error: &clap::Error) -> WordsFault
    ensures { (result ≡ WordsFault.NoMemory) ↔ (kind_of error.now ≡ ErrorKind.OutOfMemory) }
{
    match error.kind() {
        ErrorKind::OutOfMemory => WordsFault::NoMemory,
        _ => WordsFault::Refused,
    }
}

/// The words as texts.
fn texts<'a>(alloc: Global, words: &'a Words) -> Result<Vec<&'a str>, AllocError>
    ensures { IfOk result (λ v. map (λ x. x.now) v.items ≡ words.entry.now) }
{
    let mut texts = Vec::new(alloc);
    for word in words.words.iter() {
        texts.push(word.text.as_str())?;
    }
    Ok(texts)
}

/// What `clap` reads of the words.
fn matches<'a>(alloc: Global, words: &'a [&'a str]) -> Result<ArgMatches<'a>, WordsFault>
    ensures ok { IfOk result (λ m. (fault_of (clap_program commands) (map (λ x. x.now) words.entry.now) ≡ [])
        × (subcommand_rows_of m ≡ subcommand_of (clap_program commands) (map (λ x. x.now) words.entry.now))) }
    ensures err { IfErr result (λ e. e ≡ WordsFault.Refused → fault_of (clap_program commands) (map (λ x. x.now) words.entry.now) ≡ [] → ⊥) }
{
    let program = program(alloc)?;
    match program.try_get_matches_from(words) {
        Ok(matches) => Ok(matches),
        Err(error) => Err(fault(&error)),
    }
}

/// The number that an option gives, or the default.
fn number_or(
    settings: &ArgMatches,
    name: &str,
    low: u64,
    high: u64,
    default: u64,
) -> Result<u64, WordsFault>
    ensures value { (os : List Setting) → rows_of (found_of settings.now) ≡ map row_of os
        → MatchResult result (GivesNumber low high default (value_of name.now os))
        (λ e. (e ≡ WordsFault.Refused) × ((n : ℕ) → GivesNumber low high default (value_of name.now os) n → ⊥)) }
    ensures bound { default ≤ high → IfOk result (λ n. n ≤ high) }
{
    match settings.get_str(name) {
        None => Ok(default),
        Some(text) => number_within(text, low, high),
    }
}

/// The number that an option gives, which may not be left out.
fn required_number(
    settings: &ArgMatches,
    name: &str,
    low: u64,
    high: u64,
) -> Result<u64, WordsFault>
    ensures { (os : List Setting) → rows_of (found_of settings.now) ≡ map row_of os
        → MatchResult result (SetsNumber low high (value_of name.now os))
        (λ e. (e ≡ WordsFault.Refused) × ((n : ℕ) → SetsNumber low high (value_of name.now os) n → ⊥)) }
{
    match settings.get_str(name) {
        None => Err(WordsFault::Refused),
        Some(text) => number_within(text, low, high),
    }
}

/// The word of the language that an option gives, which may not be left out.
fn required_word(alloc: Global, settings: &ArgMatches, name: &str) -> Result<Name, WordsFault>
    ensures { (os : List Setting) → rows_of (found_of settings.now) ≡ map row_of os
        → MatchResult result (λ w. SetsWord (value_of name.now os) w)
        (λ e. e ≡ WordsFault.Refused → (w : List ℕ) → SetsWord (value_of name.now os) w → ⊥) }
{
    match settings.get_str(name) {
        None => Err(WordsFault::Refused),
        Some(text) => word(alloc, text),
    }
}

/// The numbers that an option lists, or none.
fn numbers_or_none(
    alloc: Global,
    settings: &ArgMatches,
    name: &str,
    high: u32,
) -> Result<Turns, WordsFault>
    ensures { (os : List Setting) → rows_of (found_of settings.now) ≡ map row_of os
        → MatchResult result (λ t. GivesNumbers high (value_of name.now os) t)
        (λ e. e ≡ WordsFault.Refused → (ns : List ℕ) → GivesNumbers high (value_of name.now os) ns → ⊥) }
{
    match settings.get_str(name) {
        None => Ok(Turns {
            turns: Vec::new(alloc),
        }),
        Some(text) => listed(alloc, text, high),
    }
}

fn listed(alloc: Global, text: &str, high: u32) -> Result<Turns, WordsFault>
    ensures { MatchResult result (λ t. AreNumbers high text.now t)
        (λ e. e ≡ WordsFault.Refused → (ns : List ℕ) → AreNumbers high text.now ns → ⊥) }
{
    let turns = numbers_within(alloc, text, high)?;
    Ok(Turns { turns })
}

/// Where the choices of a walk come from: picks, or else a seed.
fn draws(alloc: Global, settings: &ArgMatches) -> Result<Drawing, WordsFault>
    ensures { (os : List Setting) → rows_of (found_of settings.now) ≡ map row_of os
        → MatchResult result (GivesDraws os) (λ e. e ≡ WordsFault.Refused → (d : Drawing) → GivesDraws os d → ⊥) }
{
    match settings.get_str("picks") {
        None => seed(settings),
        Some(text) => picks(alloc, settings, text),
    }
}

/// The number that starts the generators of random numbers.
fn seed_number(settings: &ArgMatches) -> Result<u64, WordsFault>
    ensures { (os : List Setting) → rows_of (found_of settings.now) ≡ map row_of os
        → MatchResult result (GivesSeed os) (λ e. (e ≡ WordsFault.Refused) × ((n : ℕ) → GivesSeed os n → ⊥)) }
{
    number_or(settings, "seed", 0, u64::MAX, 0)
}

/// How many steps each thread may make.
fn steps(settings: &ArgMatches) -> Result<u64, WordsFault>
    ensures { (os : List Setting) → rows_of (found_of settings.now) ≡ map row_of os
        → MatchResult result (GivesSteps os) (λ e. (e ≡ WordsFault.Refused) × ((n : ℕ) → GivesSteps os n → ⊥)) }
{
    number_or(settings, "steps", 1, 16384, 1000)
}

fn seed(settings: &ArgMatches) -> Result<Drawing, WordsFault>
    ensures { (os : List Setting) → rows_of (found_of settings.now) ≡ map row_of os
        → MatchResult result (λ d. IsSeed os d) (λ e. e ≡ WordsFault.Refused → (n : ℕ) → GivesSeed os n → ⊥) }
{
    let seed = seed_number(settings)?;
    Ok(Drawing::Seed { seed })
}

fn picks(alloc: Global, settings: &ArgMatches, text: &str) -> Result<Drawing, WordsFault>
    ensures { (os : List Setting) → rows_of (found_of settings.now) ≡ map row_of os
        → MatchResult result (λ d. IsPicks os text.now d)
        (λ e. e ≡ WordsFault.Refused → (ns : List ℕ) → value_of (codes "seed") os ≡ None → AreNumbers 4294967295 text.now ns → ⊥) }
{
    match settings.get_str("seed") {
        None => picked(alloc, text),
        Some(_) => Err(WordsFault::Refused),
    }
}

fn picked(alloc: Global, text: &str) -> Result<Drawing, WordsFault>
    ensures { MatchResult result (λ d. ListsPicks text.now d)
        (λ e. e ≡ WordsFault.Refused → (ns : List ℕ) → AreNumbers 4294967295 text.now ns → ⊥) }
{
    let list = listed(alloc, text, u32::MAX)?;
    Ok(Drawing::Picks { list })
}

fn seq(alloc: Global, settings: &ArgMatches) -> Result<Command, WordsFault>
    ensures { (os : List Setting) → rows_of (found_of settings.now) ≡ map row_of os → ReadsCommand (codes "seq") os result }
{
    let function = required_word(alloc, settings, "function")?;
    Ok(Command::Seq { function })
}

fn tidy(alloc: Global, settings: &ArgMatches) -> Result<Command, WordsFault>
    ensures { (os : List Setting) → rows_of (found_of settings.now) ≡ map row_of os → ReadsCommand (codes "tidy") os result }
{
    let order = numbers_or_none(alloc, settings, "order", 15)?;
    let draws = draws(alloc, settings)?;
    let steps = steps(settings)?;
    Ok(Command::Tidy {
        order,
        draws,
        steps,
    })
}

fn walk(alloc: Global, settings: &ArgMatches) -> Result<Command, WordsFault>
    ensures { (os : List Setting) → rows_of (found_of settings.now) ≡ map row_of os → ReadsCommand (codes "walk") os result }
{
    let order = numbers_or_none(alloc, settings, "order", 15)?;
    let draws = draws(alloc, settings)?;
    let steps = steps(settings)?;
    Ok(Command::Walk {
        order,
        draws,
        steps,
    })
}

fn run(settings: &ArgMatches) -> Result<Command, WordsFault>
    ensures { (os : List Setting) → rows_of (found_of settings.now) ≡ map row_of os → ReadsCommand (codes "run") os result }
{
    let seed = seed_number(settings)?;
    let steps = steps(settings)?;
    Ok(Command::Run { seed, steps })
}

fn litmus(settings: &ArgMatches) -> Result<Command, WordsFault>
    ensures { (os : List Setting) → rows_of (found_of settings.now) ≡ map row_of os → ReadsCommand (codes "litmus") os result }
{
    let seed = number_or(settings, "seed", 0, 9223372036854775807, 0)?;
    let seeds = number_or(settings, "seeds", 1, 500, 100)?;
    let steps = number_or(settings, "steps", 1, 100, 100)?;
    Ok(Command::Litmus { seed, seeds, steps })
}

fn outcomes(settings: &ArgMatches) -> Result<Command, WordsFault>
    ensures { (os : List Setting) → rows_of (found_of settings.now) ≡ map row_of os → ReadsCommand (codes "outcomes") os result }
{
    let steps = number_or(settings, "steps", 1, 100, 100)?;
    let states = number_or(settings, "states", 1, 1048576, 65536)?;
    Ok(Command::Outcomes { steps, states })
}

fn refute(settings: &ArgMatches) -> Result<Command, WordsFault>
    ensures { (os : List Setting) → rows_of (found_of settings.now) ≡ map row_of os → ReadsCommand (codes "refute") os result }
{
    let steps = number_or(settings, "steps", 1, 100, 100)?;
    let states = number_or(settings, "states", 1, 1048576, 65536)?;
    Ok(Command::Refute { steps, states })
}

/// The form of this word.
fn form_of(word: &str) -> Result<Form, WordsFault>
    ensures { MatchResult result (IsFormOf (Some word.now))
        (λ e. (e ≡ WordsFault.Refused) × ((form : Form) → IsFormOf (Some word.now) form → ⊥)) }
{
    match word {
        "text" => Ok(Form::Text),
        "summary" => Ok(Form::Summary),
        _ => Err(WordsFault::Refused),
    }
}

/// The form that the settings give, or the text.
fn form(settings: &ArgMatches) -> Result<Form, WordsFault>
    ensures { (os : List Setting) → rows_of (found_of settings.now) ≡ map row_of os
        → MatchResult result (GivesForm os) (λ e. (e ≡ WordsFault.Refused) × ((form : Form) → GivesForm os form → ⊥)) }
{
    match settings.get_str("form") {
        None => Ok(Form::Text),
        Some(word) => form_of(word),
    }
}

fn generating(settings: &ArgMatches) -> Result<Command, WordsFault>
    ensures { (os : List Setting) → rows_of (found_of settings.now) ≡ map row_of os → ReadsCommand (codes "gen") os result }
{
    let number = required_number(settings, "number", 0, u64::MAX)?;
    let functions = number_or(settings, "functions", 1, 256, 4)? as u32;
    let form = form(settings)?;
    Ok(Command::Gen {
        number,
        functions,
        form,
    })
}

/// The command of a name, with the values that its settings give.
fn command(alloc: Global, name: &str, settings: &ArgMatches) -> Result<Command, WordsFault>
    ensures { (os : List Setting) → rows_of (found_of settings.now) ≡ map row_of os → ReadsCommand name.now os result }
{
    match name {
        "check" => Ok(Command::Check),
        "opt" => Ok(Command::Opt),
        "tidy" => tidy(alloc, settings),
        "validate" => Ok(Command::Validate),
        "seq" => seq(alloc, settings),
        "walk" => walk(alloc, settings),
        "run" => run(settings),
        "replay" => Ok(Command::Replay),
        "graph" => Ok(Command::Graph),
        "litmus" => litmus(settings),
        "outcomes" => outcomes(settings),
        "refute" => refute(settings),
        "gen" => generating(settings),
        _ => Err(WordsFault::Refused),
    }
}

/// Whether a word is `--`. It is looked for before `clap` reads the words, since `clap` would take it
/// as the end of the options and read `check --` as `check`.
fn has_dashes(words: &Words) -> bool
    ensures { result ≡ list_any (λ w. bytes_eq w (codes "--")) words.now }
{
    words.words.iter().any(|word| word.text.as_str() == "--")
}

/// The command that the words mean. They are refused exactly where they mean none: where there are
/// no words; where the first is no command; where another word is no option of the command, or an
/// option comes twice or has no value; where a required option is missing; where a value is out
/// of its range, or `--picks` stands with `--seed`. There is no help, no version, no short option and
/// no abbreviation. A number is `0` or digits with no leading zero; numbers are listed by commas.
///
/// - `check`, `opt`, `validate`
/// - `seq`: `--function` (required, a word of the language: a letter or `_`, then letters, digits and `_`)
/// - `walk`: `--order` (1 to 4096 numbers from 0 to 15, else the empty list), `--picks` (1 to 4096
///   numbers from 0 to 4294967295), `--seed` (a number of 64 bits, else 0), `--steps` (1 to 16384,
///   else 1000)
/// - `tidy`: as for `walk`
/// - `run`: `--seed` and `--steps`, as for `walk`
/// - `replay`, `graph`
/// - `litmus`: `--seed` (0 to 9223372036854775807, else 0), `--seeds` (1 to 500, else 100), `--steps` (1 to 100, else 100)
/// - `outcomes`: `--steps` (1 to 100, else 100), `--states` (1 to 1048576, else 65536)
/// - `refute`: as for `outcomes`
/// - `gen`: `--number` (required, a number of 64 bits), `--functions` (1 to 256, else 4), `--form`
///   (`text` or `summary`, else `text`)
pub fn read_words(alloc: Global, words: &Words) -> Result<Command, WordsFault>
    ensures meant { IfOk result (λ c. Means words.now c) }
    // What words mean is never refused, and never read as another command.
    ensures only { (c : Command) → Means words.now c → MatchResult result (λ r. r ≡ c) (λ e. e ≡ WordsFault.NoMemory) }
{
    if has_dashes(words) {
        return Err(WordsFault::Refused);
    }
    let texts = texts(alloc, words)?;
    let matches = matches(alloc, texts.as_slice())?;
    match matches.subcommand() {
        Some((name, settings)) => command(alloc, name, settings),
        None => Err(WordsFault::Refused),
    }
}
