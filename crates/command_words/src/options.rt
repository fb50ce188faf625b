// Options of a command line, as clap reads them.
ghost use Rattle.std.specs.Prelude.{◌≡◌, IfOk, IfErr, IsSomeAnd, None, ℕ, List, false, map, string_bytes};
ghost use Rattle.clap.specs.Matches.{first_value, found_of};
ghost use Rattle.clap.specs.Simple.{app_of, with_rule};
ghost use Rattle.clap.specs.Walk.{rule_of};
ghost use Rattle.command_words.specs.Clap.{option_rule, serve_app};
ghost use Rattle.command_words.specs.declared.fault.WordsFault.TheVariants.{Usage};
ghost use Rattle.command_words.specs.Options.{options_of, value_for};
ghost use Rattle.command_words.specs.ServeGrammar.{serve_names};

use crate::fault::WordsFault;
use crate::parse::{bare_command, parsed};
use clap::{Arg, ArgAction, ArgMatches, Command};
use std::alloc::{AllocError, Global};

/// The options that words give to the program that relays between sockets.
pub fn serve_options<'a>(alloc: Global, words: &'a [String]) -> Result<ArgMatches<'a>, WordsFault>
    ensures read { IfOk result (λ m. IsSomeAnd (options_of serve_names (map string_bytes words.now))
        (λ given. (name : List ℕ) → first_value (found_of m) name ≡ value_for name given)) }
    ensures refused { IfErr result (λ fault. fault ≡ Usage → options_of serve_names (map string_bytes words.now) ≡ None) }
{
    parsed(serve_command(alloc)?, words)
}

fn serve_command<'a>(alloc: Global) -> Result<Command<'a>, AllocError>
    ensures { IfOk result (λ c. app_of c ≡ serve_app) }
{
    let command = bare_command(alloc, "evrelay");
    let command = with_option(alloc, command, "listen", true)?;
    let command = with_option(alloc, command, "to", true)?;
    let command = with_option(alloc, command, "links", true)?;
    let command = with_option(alloc, command, "hold", false)?;
    let command = with_option(alloc, command, "in-read", false)?;
    let command = with_option(alloc, command, "in-write", false)?;
    let command = with_option(alloc, command, "out-read", false)?;
    with_option(alloc, command, "out-write", false)
}

/// The command with one option more, which takes a value.
fn with_option<'a>(
    alloc: Global,
    command: Command<'a>,
    name: &'a str,
    required: bool,
) -> Result<Command<'a>, AllocError>
    ensures { IfOk result (λ c. app_of c ≡ with_rule (app_of command.entry) (option_rule (name.now, required))) }
{
    command.arg(option(alloc, name, required))
}

fn option<'a>(alloc: Global, name: &'a str, required: bool) -> Arg<'a>
    ensures rule { rule_of result ≡ option_rule (name.now, required) }
    ensures own { result.global ≡ false }
{
    Arg::new(alloc, name)
        .long(name)
        .action(ArgAction::Set)
        .required(required)
}
