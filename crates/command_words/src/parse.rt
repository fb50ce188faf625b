// What clap makes of words, for a command that is simple by its own account.
ghost use Rattle.std.specs.Prelude.{◌≡◌, IfOk, IfErr, map, string_bytes};
ghost use Rattle.std.specs.List.{list_any};
ghost use Rattle.clap.specs.Simple.{app_of};
ghost use Rattle.command_words.specs.Clap.{bare_app};
ghost use Rattle.command_words.specs.declared.fault.WordsFault.TheVariants.{Usage};
ghost use Rattle.command_words.specs.Options.{is_bare};
ghost use Rattle.command_words.specs.Parse.{ClapRefuses, ClapTakes};

use crate::fault::{WordsFault, words_fault};
use clap::{ArgMatches, Command};
use std::alloc::Global;

/// A command that answers for no word itself: it has no flags for help and for its version.
pub fn bare_command<'a>(alloc: Global, program: &'a str) -> Command<'a>
    ensures { app_of result ≡ bare_app program.now }
{
    Command::new(alloc, program)
        .no_binary_name(true)
        .disable_help_flag(true)
        .disable_version_flag(true)
}

/// What clap reads of the words. A word that no program takes is refused before clap is asked.
pub fn parsed<'a>(command: Command<'a>, words: &'a [String]) -> Result<ArgMatches<'a>, WordsFault>
    ensures taken { IfOk result (ClapTakes (app_of command.entry) (map string_bytes words.now)) }
    ensures refused { IfErr result (λ fault. fault ≡ Usage → ClapRefuses (app_of command.entry) (map string_bytes words.now)) }
{
    if has_bare(words) {
        return Err(WordsFault::Usage);
    }
    match command.try_get_matches_from(words) {
        Ok(matches) => Ok(matches),
        Err(error) => Err(words_fault(error)),
    }
}

/// Whether one of the words is of no program.
fn has_bare(words: &[String]) -> bool
    ensures { result ≡ list_any is_bare (map string_bytes words.now) }
{
    for word in words {
        if is_bare(word.as_str()) {
            return true;
        }
    }
    false
}

fn is_bare(word: &str) -> bool
    ensures { result ≡ is_bare word.now }
{
    word == "" || word == "-" || word == "--"
}
