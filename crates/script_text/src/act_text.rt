// Spells what a hook asked and what it was answered.
ghost use Rattle.std.specs.Prelude.{◌≡◌, ◌≤◌, ◌+◌, ◌∷◌, [], Some, None, length};
ghost use Rattle.std.specs.Fmt.{decimal};
ghost use Rattle.script_text.specs.Lines.{phrase, side_word, dir_word};
ghost use Rattle.script_text.specs.ActLine.{act_words, ask_word, limit_words};
ghost use Rattle.script_text.specs.Room.{spaced, HasRoom, GrewBy};

use crate::push::{put_end, put_number, put_word};
use crate::value_text::dir_text;
use ev_types::{Act, AskAnswer, Dir, LimitCfg, SideId};

pub fn ask_text(answer: AskAnswer) -> &'static str
    ensures word { result.now ≡ ask_word answer }
    ensures short { length result.now ≤ 11 }
{
    match answer {
        AskAnswer::Ok => "ok",
        AskAnswer::NotLive => "notlive",
        AskAnswer::NoGroup => "nogroup",
        AskAnswer::BadValue => "badvalue",
        AskAnswer::TooManyRefs => "toomanyrefs",
        AskAnswer::Memory => "memory",
    }
}

/// The words of an ask, with a space behind each.
pub fn put_act(text: &mut Vec<u8>, act: Act)
    requires { HasRoom text.old 140 }
    ensures { GrewBy (spaced (phrase (act_words act))) 140 text.old text.new }
{
    match act {
        Act::Free(end) => put_plain(text, "free", end),
        Act::Enable(end, dir) => put_directed(text, "enable", end, dir),
        Act::Disable(end, dir) => put_directed(text, "disable", end, dir),
        Act::Marks(end, dir, low, high) => put_marks(text, end, dir, low, high),
        Act::Timeouts(end, read, write) => put_timeouts(text, end, read, write),
        Act::Rate(end, None) => put_no_rate(text, end),
        Act::Rate(end, Some(limit)) => put_rate(text, end, limit),
        Act::Join(end, group) => put_numbered(text, "join", end, u64::from(group)),
        Act::Leave(end) => put_plain(text, "leave", end),
        Act::Trigger(end, dir) => put_directed(text, "trigger", end, dir),
        Act::Timer(end, ms) => put_numbered(text, "timer", end, ms),
        Act::Cancel(end) => put_plain(text, "cancel", end),
        Act::Incref(end) => put_plain(text, "incref", end),
        Act::Decref(end) => put_plain(text, "decref", end),
        Act::Stop => put_word(text, "stop"),
    }
}

fn put_plain(text: &mut Vec<u8>, word: &str, end: SideId)
    requires { HasRoom text.old (length word.now + 26) }
    ensures { GrewBy (spaced (phrase (word.now ∷ decimal end.link ∷ side_word end.side ∷ []))) (length word.now + 26) text.old text.new }
{
    put_word(text, word);
    put_end(text, end);
}

fn put_directed(text: &mut Vec<u8>, word: &str, end: SideId, dir: Dir)
    requires { HasRoom text.old (length word.now + 32) }
    ensures { GrewBy (spaced (phrase (word.now ∷ decimal end.link ∷ side_word end.side ∷ dir_word dir ∷ []))) (length word.now + 32) text.old text.new }
{
    put_word(text, word);
    put_end(text, end);
    put_word(text, dir_text(dir));
}

fn put_numbered(text: &mut Vec<u8>, word: &str, end: SideId, number: u64)
    requires { HasRoom text.old (length word.now + 47) }
    ensures { GrewBy (spaced (phrase (word.now ∷ decimal end.link ∷ side_word end.side ∷ decimal number ∷ []))) (length word.now + 47) text.old text.new }
{
    put_word(text, word);
    put_end(text, end);
    put_number(text, number);
}

fn put_marks(text: &mut Vec<u8>, end: SideId, dir: Dir, low: u64, high: u64)
    requires { HasRoom text.old 79 }
    ensures { GrewBy (spaced (phrase (act_words (Act.Marks end dir low high)))) 79 text.old text.new }
{
    put_directed(text, "marks", end, dir);
    put_number(text, low);
    put_number(text, high);
}

fn put_timeouts(text: &mut Vec<u8>, end: SideId, read: u64, write: u64)
    requires { HasRoom text.old 76 }
    ensures { GrewBy (spaced (phrase (act_words (Act.Timeouts end read write)))) 76 text.old text.new }
{
    put_numbered(text, "timeouts", end, read);
    put_number(text, write);
}

fn put_no_rate(text: &mut Vec<u8>, end: SideId)
    requires { HasRoom text.old 35 }
    ensures { GrewBy (spaced (phrase (act_words (Act.Rate end None)))) 35 text.old text.new }
{
    put_plain(text, "rate", end);
    put_word(text, "none");
}

fn put_rate(text: &mut Vec<u8>, end: SideId, limit: LimitCfg)
    requires { HasRoom text.old 135 }
    ensures { GrewBy (spaced (phrase (act_words (Act.Rate end (Some limit))))) 135 text.old text.new }
{
    put_plain(text, "rate", end);
    put_limit(text, limit);
}

fn put_limit(text: &mut Vec<u8>, limit: LimitCfg)
    requires { HasRoom text.old 105 }
    ensures { GrewBy (spaced (phrase (limit_words (Some limit)))) 105 text.old text.new }
{
    put_number(text, limit.read_rate());
    put_number(text, limit.read_burst());
    put_number(text, limit.write_rate());
    put_number(text, limit.write_burst());
    put_number(text, limit.tick_ms());
}
