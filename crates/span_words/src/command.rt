//! The command by which `clap` reads the arguments.
ghost use Rattle.clap.specs.Words.{app_of, found_of, kind_of, new_rule, rows_of, rule_of, matches_of as rows_in};
ghost use Rattle.span_words.specs.Words.{spanbase_app, ClapTakes};
ghost use Rattle.std.specs.Prelude.{◌≡◌, ◌≢◌, IfOk, IfErr, Some, false, map, string_bytes};

use clap::builder::ValueParser;
use clap::error::ErrorKind;
use clap::{Arg, ArgAction, ArgMatches, Command, Error, value_parser};
use std::alloc::{AllocError, Global};

/// The option with this name for one value, which this parser reads.
fn option<'a>(alloc: Global, name: &'a str, help: &'a str, parser: ValueParser<'a>) -> Arg<'a>
    ensures rule { rule_of result ≡ record (new_rule name.entry.now) { long = Some name.entry.now; action = Some ArgAction.Set; parser = Some parser.entry } }
    ensures local { result.global ≡ false }
{
    Arg::new(alloc, name)
        .long(name)
        .help(help)
        .action(ArgAction::Set)
        .value_parser(parser)
}

/// The command `spanbase`, over the arguments after its name.
fn spanbase<'a>(alloc: Global) -> Result<Command<'a>, AllocError>
    ensures { IfOk result (λ command. app_of command ≡ spanbase_app) }
{
    let command = Command::new(alloc, "spanbase").no_binary_name(true);
    let parser = value_parser!(u8).range(1..=64);
    let help = "How many workers compute tables, 1 to 64; 1 if left out";
    let command = command.arg(option(alloc, "workers", help, parser))?;
    let parser = value_parser!(u16).range(128..=1024);
    let help = "How many states the automaton of a query may have, 128 to 1024; 128 if left out";
    let command = command.arg(option(alloc, "states", help, parser))?;
    let parser = value_parser!(u8).range(1..=46);
    let help = "Run the demo script with that many doublings, 1 to 46, instead of standard input";
    let command = command.arg(option(alloc, "demo", help, parser))?;
    Ok(command)
}

/// What `clap` makes of the arguments after the program's own name.
pub fn matches_of<'a>(alloc: Global, words: &'a [String]) -> Result<ArgMatches<'a>, Error>
    ensures taken { IfOk result (λ _. ClapTakes (map string_bytes words.entry.now)) }
    ensures matches { IfOk result (λ m. rows_of (found_of m) ≡ rows_in spanbase_app (map string_bytes words.entry.now)) }
    ensures refused { IfErr result (λ error. kind_of error ≢ ErrorKind.OutOfMemory → ClapTakes (map string_bytes words.entry.now) → ⊥) }
{
    let command = spanbase(alloc)?;
    command.try_get_matches_from(words)
}
