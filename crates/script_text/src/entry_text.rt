// Spells an entry of a trace as its line.
ghost use Rattle.std.specs.Prelude.{◌+◌, ◌*◌, ◌∷◌, [], false, length};
ghost use Rattle.std.specs.Fmt.{decimal};
ghost use Rattle.hex.specs.Hex.{encode_lower};
ghost use Rattle.script_text.specs.Lines.{line_of, side_word};
ghost use Rattle.script_text.specs.TraceText.{entry_words, read_words, write_words};
ghost use Rattle.script_text.specs.Room.{spaced, HasRoom, GrewBy, room_of};

use crate::act_text::{ask_text, put_act};
use crate::push::{put_digits, put_end, put_last, put_last_number, put_number, put_word};
use crate::value_text::{conn_text, marks_text, put_cause, put_why, side_text};
use ev_types::{Act, AskAnswer, Cause, Entry, ReadAnswer, SideId, Why, WriteAnswer};

/// Appends the line of an entry with the bytes beside it, and its LF. Takes no memory; linear in the bytes.
///
/// Own.
pub fn put_entry(text: &mut Vec<u8>, entry: Entry, beside: &[u8])
    requires { HasRoom text.old (room_of 1 (length beside.now)) }
    ensures { GrewBy (line_of (entry_words entry beside.now)) (room_of 1 (length beside.now)) text.old text.new }
{
    match entry {
        Entry::Turn { ms } => put_counted(text, "turn", ms),
        Entry::Poll { timeout: None } => put_bare(text, "poll", "none"),
        Entry::Poll { timeout: Some(ms) } => put_counted(text, "poll", ms),
        Entry::Want { side, read, write } => put_named(text, "want", side, marks_text(read, write)),
        Entry::Ready { side, read, write } => {
            put_named(text, "ready", side, marks_text(read, write))
        }
        Entry::PollFailed => put_last(text, "pollfail"),
        Entry::Opened {
            link,
            connected: true,
        } => put_counted(text, "open", u64::from(link)),
        Entry::Opened {
            link,
            connected: false,
        } => put_waiting(text, link),
        Entry::Conn { side, answer } => put_named(text, "conn", side, conn_text(answer)),
        Entry::Read { side, room, answer } => put_read(text, side, room, answer, beside),
        Entry::Write {
            side,
            offered,
            answer,
        } => put_write(text, side, offered, answer, beside),
        Entry::Fired { side, why } => put_fired(text, side, why),
        Entry::Asked { side, act, answer } => put_asked(text, side, act, answer),
        Entry::Freed {
            side,
            cause,
            moved,
            given,
        } => put_freed(text, side, cause, moved, given),
        Entry::CloseWrite { side } => put_close(text, "closewrite", side),
        Entry::Close { side } => put_close(text, "close", side),
    }
}

fn put_counted(text: &mut Vec<u8>, word: &str, number: u64)
    requires { HasRoom text.old (length word.now + 22) }
    ensures { GrewBy (line_of (word.now ∷ decimal number ∷ [])) (length word.now + 22) text.old text.new }
{
    put_word(text, word);
    put_last_number(text, number);
}

fn put_bare(text: &mut Vec<u8>, word: &str, name: &str)
    requires { HasRoom text.old (length word.now + length name.now + 2) }
    ensures { GrewBy (line_of (word.now ∷ name.now ∷ [])) (length word.now + length name.now + 2) text.old text.new }
{
    put_word(text, word);
    put_last(text, name);
}

fn put_waiting(text: &mut Vec<u8>, link: u32)
    requires { HasRoom text.old 31 }
    ensures { GrewBy (line_of (entry_words (Entry.Opened link false) [])) 31 text.old text.new }
{
    put_word(text, "open");
    put_number(text, u64::from(link));
    put_last(text, "wait");
}

fn put_close(text: &mut Vec<u8>, word: &str, side: SideId)
    requires { HasRoom text.old (length word.now + 26) }
    ensures { GrewBy (line_of (word.now ∷ decimal side.link ∷ side_word side.side ∷ [])) (length word.now + 26) text.old text.new }
{
    put_word(text, word);
    put_number(text, u64::from(side.link));
    put_last(text, side_text(side.side));
}

fn put_named(text: &mut Vec<u8>, word: &str, side: SideId, name: &str)
    requires { HasRoom text.old (length word.now + length name.now + 27) }
    ensures { GrewBy (line_of (word.now ∷ decimal side.link ∷ side_word side.side ∷ name.now ∷ [])) (length word.now + length name.now + 27) text.old text.new }
{
    put_word(text, word);
    put_end(text, side);
    put_last(text, name);
}

fn put_read(text: &mut Vec<u8>, side: SideId, room: u64, answer: ReadAnswer, beside: &[u8])
    requires { HasRoom text.old (room_of 1 (length beside.now)) }
    ensures { GrewBy (line_of (entry_words (Entry.Read side room answer) beside.now)) (room_of 1 (length beside.now)) text.old text.new }
{
    put_word(text, "read");
    put_end(text, side);
    put_number(text, room);
    match answer {
        ReadAnswer::Got(_) => put_moved(text, "got", beside),
        ReadAnswer::Ended => put_last(text, "end"),
        ReadAnswer::NotYet => put_last(text, "notyet"),
        ReadAnswer::Failed => put_last(text, "fail"),
    }
}

fn put_write(text: &mut Vec<u8>, side: SideId, offered: u64, answer: WriteAnswer, beside: &[u8])
    requires { HasRoom text.old (room_of 1 (length beside.now)) }
    ensures { GrewBy (line_of (entry_words (Entry.Write side offered answer) beside.now)) (room_of 1 (length beside.now)) text.old text.new }
{
    put_word(text, "write");
    put_end(text, side);
    put_number(text, offered);
    match answer {
        WriteAnswer::Took(_) => put_moved(text, "took", beside),
        WriteAnswer::NotYet => put_last(text, "notyet"),
        WriteAnswer::Failed => put_last(text, "fail"),
        WriteAnswer::NoMemory => put_last(text, "nomemory"),
    }
}

/// The end of the line of a read that got bytes, or of a write that took some.
fn put_moved(text: &mut Vec<u8>, word: &str, bytes: &[u8])
    requires { HasRoom text.old (length word.now + 2 * length bytes.now + 2) }
    ensures { GrewBy (line_of (word.now ∷ encode_lower bytes.now ∷ [])) (length word.now + 2 * length bytes.now + 2) text.old text.new }
{
    put_word(text, word);
    put_digits(text, bytes);
    text.push(b'\n').unwrap();
}

fn put_fired(text: &mut Vec<u8>, side: SideId, why: Why)
    requires { HasRoom text.old 41 }
    ensures { GrewBy (line_of (entry_words (Entry.Fired side why) [])) 41 text.old text.new }
{
    put_word(text, "fired");
    put_end(text, side);
    put_why(text, why);
}

fn put_asked(text: &mut Vec<u8>, side: SideId, act: Act, answer: AskAnswer)
    requires { HasRoom text.old 183 }
    ensures { GrewBy (line_of (entry_words (Entry.Asked side act answer) [])) 183 text.old text.new }
{
    put_word(text, "asked");
    put_end(text, side);
    put_act(text, act);
    put_last(text, ask_text(answer));
}

fn put_freed(text: &mut Vec<u8>, side: SideId, cause: Cause, moved: u64, given: u64)
    requires { HasRoom text.old 101 }
    ensures { GrewBy (line_of (entry_words (Entry.Freed side cause moved given) [])) 101 text.old text.new }
{
    put_word(text, "freed");
    put_end(text, side);
    put_cause(text, cause);
    put_number(text, moved);
    put_last_number(text, given);
}
