//! The program's commands and their options, as `clap` takes them.
ghost use Rattle.std.specs.Prelude.{◌≡◌, List, [], ◌∷◌, Bool, true, false, IfOk, codes};
ghost use Rattle.clap.specs.Words.{app_of, rule_of};
ghost use Rattle.clap.specs.declared.builder.command.Command.TheViews.{out-Command as fields_of};
ghost use Rattle.words.specs.Program.{clap_rule, clap_command, clap_program};
ghost use Rattle.words.specs.Commands.{commands, gen_words, litmus_words, run_words, search_options, seq_words, walk_options};

use clap::{Arg, ArgAction, Command};
use std::alloc::{AllocError, Global};

/// An option that takes one value.
fn option<'a>(alloc: Global, name: &'a str) -> Arg<'a>
    ensures rule { rule_of result ≡ clap_rule (name.entry.now, false) }
    ensures local { result.global ≡ false }
{
    Arg::new(alloc, name).long(name).action(ArgAction::Set)
}

/// An option that takes one value and may not be left out.
fn required_option<'a>(alloc: Global, name: &'a str) -> Arg<'a>
    ensures rule { rule_of result ≡ clap_rule (name.entry.now, true) }
    ensures local { result.global ≡ false }
{
    option(alloc, name).required(true)
}

/// A command without options.
fn plain<'a>(alloc: Global, name: &'a str) -> Command<'a>
    ensures app { app_of result ≡ clap_command (name.entry.now, []) }
    ensures local { (fields_of result).has_globals ≡ false }
{
    Command::new(alloc, name)
}

fn seq<'a>(alloc: Global) -> Result<Command<'a>, AllocError>
    ensures app { IfOk result (λ c. app_of c ≡ clap_command seq_words) }
    ensures local { IfOk result (λ c. (fields_of c).has_globals ≡ false) }
{
    Command::new(alloc, "seq").arg(required_option(alloc, "function"))
}

/// A command that walks.
fn walking<'a>(alloc: Global, name: &'a str) -> Result<Command<'a>, AllocError>
    ensures app { IfOk result (λ c. app_of c ≡ clap_command (name.entry.now, walk_options)) }
    ensures local { IfOk result (λ c. (fields_of c).has_globals ≡ false) }
{
    Command::new(alloc, name)
        .arg(option(alloc, "order"))?
        .arg(option(alloc, "picks"))?
        .arg(option(alloc, "seed"))?
        .arg(option(alloc, "steps"))
}

fn run<'a>(alloc: Global) -> Result<Command<'a>, AllocError>
    ensures app { IfOk result (λ c. app_of c ≡ clap_command run_words) }
    ensures local { IfOk result (λ c. (fields_of c).has_globals ≡ false) }
{
    Command::new(alloc, "run")
        .arg(option(alloc, "seed"))?
        .arg(option(alloc, "steps"))
}

fn litmus<'a>(alloc: Global) -> Result<Command<'a>, AllocError>
    ensures app { IfOk result (λ c. app_of c ≡ clap_command litmus_words) }
    ensures local { IfOk result (λ c. (fields_of c).has_globals ≡ false) }
{
    Command::new(alloc, "litmus")
        .arg(option(alloc, "seed"))?
        .arg(option(alloc, "seeds"))?
        .arg(option(alloc, "steps"))
}

/// A command that searches for all outcomes.
fn searching<'a>(alloc: Global, name: &'a str) -> Result<Command<'a>, AllocError>
    ensures app { IfOk result (λ c. app_of c ≡ clap_command (name.entry.now, search_options)) }
    ensures local { IfOk result (λ c. (fields_of c).has_globals ≡ false) }
{
    Command::new(alloc, name)
        .arg(option(alloc, "steps"))?
        .arg(option(alloc, "states"))
}

fn generating<'a>(alloc: Global) -> Result<Command<'a>, AllocError>
    ensures app { IfOk result (λ c. app_of c ≡ clap_command gen_words) }
    ensures local { IfOk result (λ c. (fields_of c).has_globals ≡ false) }
{
    Command::new(alloc, "gen")
        .arg(required_option(alloc, "number"))?
        .arg(option(alloc, "functions"))?
        .arg(option(alloc, "form"))
}

/// The program without its commands, with help and version switched off.
fn bare<'a>(alloc: Global) -> Command<'a>
    ensures { app_of result ≡ record (clap_program []) { top = record (clap_program []).top { is_leaf = true } } }
{
    Command::new(alloc, "seqopt")
        .no_binary_name(true)
        .disable_help_flag(true)
        .disable_help_subcommand(true)
        .disable_version_flag(true)
        .subcommand_required(true)
}

/// The program with its commands.
pub(crate) fn program<'a>(alloc: Global) -> Result<Command<'a>, AllocError>
    ensures { IfOk result (λ c. app_of c ≡ clap_program commands) }
{
    bare(alloc)
        .subcommand(plain(alloc, "check"))?
        .subcommand(plain(alloc, "opt"))?
        .subcommand(walking(alloc, "tidy")?)?
        .subcommand(plain(alloc, "validate"))?
        .subcommand(seq(alloc)?)?
        .subcommand(walking(alloc, "walk")?)?
        .subcommand(run(alloc)?)?
        .subcommand(plain(alloc, "replay"))?
        .subcommand(plain(alloc, "graph"))?
        .subcommand(litmus(alloc)?)?
        .subcommand(searching(alloc, "outcomes")?)?
        .subcommand(searching(alloc, "refute")?)?
        .subcommand(generating(alloc)?)
}
