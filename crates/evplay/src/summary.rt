// What is told of the generated run: some numbers of its trace, and what its links came to.
ghost use Rattle.std.specs.Prelude.{◌≡◌, ◌∷◌, [], IfOk, string_bytes};
ghost use Rattle.script_text.specs.Lines.{line_of};
ghost use Rattle.script_text.specs.ReportText.{total_words};
ghost use Rattle.evplay.specs.Big.{number_line, summary_text};

use ev_types::{LinkCount, LinkState, NoMemory};
use script_text::count_links;
use std::alloc::{AllocError, Global};
use sum_scribe::SumScribe;

/// A word and a number on a line.
fn number_line(alloc: Global, word: &str, number: u64) -> Result<String, AllocError>
    ensures { IfOk result (λ text. string_bytes text ≡ number_line word.now number) }
{
    format!(in alloc; "{word} {number}\n")
}

/// The line that counts the links by what they came to.
fn total_line(alloc: Global, links: &[LinkCount]) -> Result<String, AllocError>
    ensures { IfOk result (λ text. string_bytes text ≡ line_of (total_words links.now)) }
{
    let done = count_links(links, LinkState::Done);
    let live = count_links(links, LinkState::Live);
    let gone = count_links(links, LinkState::Gone);
    format!(in alloc; "done {done} open {live} gone {gone}\n")
}

/// What is told of a run of the generated script of so many links, whose trace a scribe summed and whose links came to this.
pub(crate) fn summary(
    alloc: Global,
    number: u32,
    scribe: &SumScribe,
    links: &[LinkCount],
) -> Result<String, NoMemory>
    ensures { IfOk result (λ text. string_bytes text ≡ summary_text number scribe.now.trace links.now) }
{
    let first = number_line(alloc, "links", u64::from(number))?;
    let turns = number_line(alloc, "turns", scribe.turns())?;
    let read = number_line(alloc, "read", scribe.read())?;
    let written = number_line(alloc, "written", scribe.written())?;
    let sum = number_line(alloc, "sum", scribe.sum())?;
    let total = total_line(alloc, links)?;
    Ok(format!(in alloc; "{first}{turns}{read}{written}{sum}{total}")?)
}
