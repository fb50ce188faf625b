// The words of the program that plays scripts.
ghost use Rattle.std.specs.Prelude.{◌≡◌, IfOk, IfErr, None, Some, false, map, option_map, string_bytes};
ghost use Rattle.clap.specs.Simple.{app_of};
ghost use Rattle.clap.specs.Walk.{rule_of};
ghost use Rattle.command_words.specs.declared.fault.WordsFault.TheVariants.{Usage};
ghost use Rattle.command_words.specs.Clap.{count_rule, drain_rule, mode_app, mode_rule};
ghost use Rattle.command_words.specs.ModeGrammar.{counted_named, drained_named, mode_named, mode_of};
ghost use Rattle.command_words.specs.ModeValues.{HasMode, mode_by};

use crate::fault::WordsFault;
use crate::parse::{bare_command, parsed};
use crate::values::read_positive;
use clap::{Arg, ArgAction, ArgMatches, Command};
use std::alloc::{AllocError, Global};

/// The most links of a generated script.
const MAX_BIG: u64 = 64;

/// How a run of links ends.
///
/// Own.
#[derive(Clone, Copy, Debug, PartialEq, Eq)]
pub enum Ending {
    /// With the last turn of its script.
    LastTurn,
    /// With closing turns behind that one, until no link is open.
    Drained,
}

/// What kind of script `evplay` plays.
///
/// Own.
#[derive(Clone, Copy, Debug, PartialEq, Eq)]
pub enum ScriptKind {
    /// A script of links over a port, and how its run ends.
    Relay(Ending),
    /// A script of sixteen buffers.
    Buffers,
    /// A script of events, timers and signals.
    Base,
    /// A script of the two halves of a pair.
    Pairs,
    /// The generated script of so many links, from 1 to 64.
    Big(u32),
}

/// Reads the words after the program's name: they are one mode word, `relay`, `buffers`, `base` or `pairs`; or `relay` with the flag
/// `--drain` in front of it or behind it; or `big` with a number from 1 to 64 behind it.
///
/// `Usage` for all other words, `--help` and `--version` among them. `Memory` where memory runs out, whatever the words are. Takes
/// memory for what clap keeps of the words, and gives it back. The time is linear in their length.
///
/// Own.
pub fn mode_words(alloc: Global, words: &[String]) -> Result<ScriptKind, WordsFault>
    ensures read { IfOk result (λ mode. mode_of (map string_bytes words.now) ≡ Some mode) }
    ensures refused { IfErr result (λ fault. fault ≡ Usage → mode_of (map string_bytes words.now) ≡ None) }
{
    let matches = mode_matches(alloc, words)?;
    let word = matches.get_str("mode");
    let count = matches.get_str("count");
    let drained = matches.get_flag("drain");
    match mode_by(word, count, drained) {
        Some(mode) => Ok(mode),
        None => Err(WordsFault::Usage),
    }
}

/// What clap makes of the words: the mode word, the number and the flag.
fn mode_matches<'a>(alloc: Global, words: &'a [String]) -> Result<ArgMatches<'a>, WordsFault>
    ensures read { IfOk result (HasMode (map string_bytes words.now)) }
    ensures refused { IfErr result (λ fault. fault ≡ Usage → mode_of (map string_bytes words.now) ≡ None) }
{
    parsed(mode_command(alloc)?, words)
}

fn mode_command<'a>(alloc: Global) -> Result<Command<'a>, AllocError>
    ensures { IfOk result (λ c. app_of c ≡ mode_app) }
{
    let command = bare_command(alloc, "evplay").arg(mode_arg(alloc))?;
    let command = command.arg(count_arg(alloc))?;
    command.arg(drain_arg(alloc))
}

fn mode_arg<'a>(alloc: Global) -> Arg<'a>
    ensures rule { rule_of result ≡ mode_rule }
    ensures own { result.global ≡ false }
{
    Arg::new(alloc, "mode")
        .action(ArgAction::Set)
        .required(true)
}

fn count_arg<'a>(alloc: Global) -> Arg<'a>
    ensures rule { rule_of result ≡ count_rule }
    ensures own { result.global ≡ false }
{
    Arg::new(alloc, "count").action(ArgAction::Set)
}

fn drain_arg<'a>(alloc: Global) -> Arg<'a>
    ensures rule { rule_of result ≡ drain_rule }
    ensures own { result.global ≡ false }
{
    Arg::new(alloc, "drain")
        .long("drain")
        .action(ArgAction::SetTrue)
}

/// The mode of a mode word, with the number behind it where there is one, and with the flag or not.
fn mode_by(word: Option<&str>, count: Option<&str>, drained: bool) -> Option<ScriptKind>
    ensures { result ≡ mode_by (option_map (λ w. w.now) word.entry) (option_map (λ w. w.now) count.entry) drained }
{
    match (word?, count, drained) {
        (word, None, false) => mode_named(word),
        (word, None, true) => drained_named(word),
        (word, Some(number), false) => counted_named(word, number),
        (_, Some(_), true) => None,
    }
}

/// The mode of a word that stands alone.
fn mode_named(word: &str) -> Option<ScriptKind>
    ensures { result ≡ mode_named word.now }
{
    if word == "relay" {
        Some(ScriptKind::Relay(Ending::LastTurn))
    } else if word == "buffers" {
        Some(ScriptKind::Buffers)
    } else if word == "base" {
        Some(ScriptKind::Base)
    } else if word == "pairs" {
        Some(ScriptKind::Pairs)
    } else {
        None
    }
}

/// The mode of a word with the flag beside it.
fn drained_named(word: &str) -> Option<ScriptKind>
    ensures { result ≡ drained_named word.now }
{
    if word == "relay" {
        Some(ScriptKind::Relay(Ending::Drained))
    } else {
        None
    }
}

/// The mode of a word with a number behind it.
fn counted_named(word: &str, number: &str) -> Option<ScriptKind>
    ensures { result ≡ counted_named word.now number.now }
{
    if word == "big" {
        Some(ScriptKind::Big(read_positive(number, MAX_BIG)? as u32))
    } else {
        None
    }
}
