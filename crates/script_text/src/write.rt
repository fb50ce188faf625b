// Writes a trace and a report, one line for each entry and for each link.
ghost use Rattle.std.specs.Prelude.{◌≡◌, ◌++◌, OnOk};
ghost use Rattle.script_text.specs.Lines.{line_of, BeginsWith};
ghost use Rattle.script_text.specs.Room.{HasRoom, GrewBy, room_of};
ghost use Rattle.script_text.specs.TraceText.{trace_text};
ghost use Rattle.script_text.specs.ReportText.{link_words, count_words, total_words, count_of, same_state, report_text};

use crate::entry_text::put_entry;
use crate::push::{put_last_number, put_number, put_word};
use crate::room::make_room;
use crate::value_text::state_text;
use ev_types::{LinkCount, LinkState, NoMemory, Tape};

/// Appends the text of a trace. After want of memory the text so far may stand behind what was there before. Takes
/// memory; linear in the trace.
///
/// Own.
pub fn write_trace(tape: &Tape, into: &mut Vec<u8>) -> Result<(), NoMemory>
    ensures text { OnOk result (into.new.items ≡ into.old.items ++ trace_text tape.now.trace) }
    ensures kept { BeginsWith into.old.items into.new.items }
{
    let (entries, bytes) = tape.parts();
    let mut rest = bytes;
    for entry in entries {
        let (beside, after) = rest.split_at(entry.byte_count());
        rest = after;
        make_room(into, 1, beside.len())?;
        put_entry(into, *entry, beside);
    }
    Ok(())
}

/// Appends the report of some links, whose numbers are their places. After want of memory the text so far may stand
/// behind what was there before. Takes memory; linear in the links.
///
/// Own.
pub fn write_report(links: &[LinkCount], into: &mut Vec<u8>) -> Result<(), NoMemory>
    ensures text { OnOk result (into.new.items ≡ into.old.items ++ report_text links.now) }
    ensures kept { BeginsWith into.old.items into.new.items }
{
    for (number, link) in links.iter().enumerate() {
        make_room(into, 1, 0)?;
        put_link(into, number, *link);
    }
    make_room(into, 1, 0)?;
    put_total(into, links);
    Ok(())
}

/// The line of the link with this number.
fn put_link(text: &mut Vec<u8>, number: usize, link: LinkCount)
    requires { HasRoom text.old (room_of 1 0) }
    ensures { GrewBy (line_of (link_words number link)) (room_of 1 0) text.old text.new }
{
    put_word(text, "link");
    put_number(text, number as u64);
    put_word(text, state_text(link.state));
    put_counts(text, link);
}

/// The end of a link's line, from the word `in` on.
fn put_counts(text: &mut Vec<u8>, link: LinkCount)
    requires { HasRoom text.old 91 }
    ensures { GrewBy (line_of (count_words link)) 91 text.old text.new }
{
    put_word(text, "in");
    put_number(text, link.in_read);
    put_number(text, link.in_given);
    put_word(text, "out");
    put_number(text, link.out_read);
    put_last_number(text, link.out_given);
}

/// The last line, which counts the links by what they came to.
fn put_total(text: &mut Vec<u8>, links: &[LinkCount])
    requires { HasRoom text.old (room_of 1 0) }
    ensures { GrewBy (line_of (total_words links.now)) (room_of 1 0) text.old text.new }
{
    put_word(text, "done");
    put_number(text, count_links(links, LinkState::Done) as u64);
    put_word(text, "open");
    put_number(text, count_links(links, LinkState::Live) as u64);
    put_word(text, "gone");
    put_last_number(text, count_links(links, LinkState::Gone) as u64);
}

/// How many of the links came to this. Takes no memory; linear in the links.
///
/// Own.
pub fn count_links(links: &[LinkCount], state: LinkState) -> usize
    ensures { result ≡ count_of state links.now }
{
    links
        .iter()
        .filter(|link| is_state(link.state, state))
        .count()
}

fn is_state(state: LinkState, wanted: LinkState) -> bool
    ensures { result ≡ same_state state wanted }
{
    matches!(
        (state, wanted),
        (LinkState::Done, LinkState::Done)
            | (LinkState::Live, LinkState::Live)
            | (LinkState::Gone, LinkState::Gone)
    )
}
