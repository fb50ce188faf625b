// The words of the program that relays between sockets.
ghost use Rattle.std.specs.Prelude.{◌≡◌, IfOk, IfErr, None, Some, map, string_bytes, option_map, option_and_then};
ghost use Rattle.clap.specs.Matches.{first_value, found_of};
ghost use Rattle.script_text.specs.FilterNames.{filter_kind_of};
ghost use Rattle.script_text.specs.Grammar.{hold_of};
ghost use Rattle.command_words.specs.declared.fault.WordsFault.TheVariants.{Usage};
ghost use Rattle.command_words.specs.Options.{options_of};
ghost use Rattle.command_words.specs.ServeGrammar.{serve_by, serve_names, serve_words_of, unless_given};

use crate::fault::WordsFault;
use crate::options::serve_options;
use crate::values::{read_addr, read_positive};
use clap::ArgMatches;
use ev_types::{FilterKind, Route, Settings};
use script_text::filter_named;
use std::alloc::Global;

/// The most links that words can ask for.
const MAX_LINKS: u64 = u16::MAX as u64;

/// The most bytes of a hold mark.
const MAX_HOLD: u64 = 1 << 24;

/// Reads the words after the program's name: `--listen A`, `--to A` and `--links N` are required, and `--hold N`, `--in-read F`,
/// `--in-write F`, `--out-read F` and `--out-write F` may be left out; each at most once, as one word with `=` or as two.
///
/// `Usage` for all other words, `--help` and `--version` among them. A word that is empty, `-` or `--` is refused wherever it stands.
/// `Memory` where memory runs out, whatever the words are. Takes memory for what clap keeps of the words, and gives it back. The time
/// is linear in their length.
///
/// Own.
pub fn serve_words(alloc: Global, words: &[String]) -> Result<Route, WordsFault>
    ensures read { IfOk result (λ found. serve_words_of (map string_bytes words.now) ≡ Some found) }
    ensures refused { IfErr result (λ fault. fault ≡ Usage → serve_words_of (map string_bytes words.now) ≡ None) }
{
    let matches = serve_options(alloc, words)?;
    match serve_values(&matches) {
        Some(found) => Ok(found),
        None => Err(WordsFault::Usage),
    }
}

/// What options come to, by the values that clap has for them.
fn serve_values(matches: &ArgMatches<'_>) -> Option<Route>
    ensures { result ≡ serve_by (first_value (found_of matches.now)) }
{
    let listen = read_addr(matches.get_str("listen")?)?;
    let to = read_addr(matches.get_str("to")?)?;
    let links = read_positive(matches.get_str("links")?, MAX_LINKS)? as u32;
    let usual = Settings::usual();
    let hold = hold_or(usual.hold, matches.get_str("hold"))?;
    let in_read = filter_or(usual.in_read, matches.get_str("in-read"))?;
    let in_write = filter_or(usual.in_write, matches.get_str("in-write"))?;
    let out_read = filter_or(usual.out_read, matches.get_str("out-read"))?;
    let out_write = filter_or(usual.out_write, matches.get_str("out-write"))?;
    let settings = Settings {
        links,
        hold,
        in_read,
        in_write,
        out_read,
        out_write,
        ..usual
    };
    Some(Route {
        listen,
        to,
        settings,
    })
}

/// The hold mark that a word spells, or the usual one where there is no word.
fn hold_or(usual: u64, word: Option<&str>) -> Option<u64>
    ensures { result ≡ unless_given usual hold_of (option_map (λ w. w.now) word.entry) }
{
    match word {
        Some(word) => read_positive(word, MAX_HOLD),
        None => Some(usual),
    }
}

/// The filter that a word names, or the usual one where there is no word.
fn filter_or(usual: FilterKind, word: Option<&str>) -> Option<FilterKind>
    ensures { result ≡ unless_given usual filter_kind_of (option_map (λ w. w.now) word.entry) }
{
    match word {
        Some(word) => filter_named(word.as_bytes()),
        None => Some(usual),
    }
}
