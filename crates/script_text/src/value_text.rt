// Spells single values.
ghost use Rattle.std.specs.Prelude.{◌≡◌, ◌≤◌, ◌∷◌, [], length};
ghost use Rattle.script_text.specs.Lines.{line_of, side_word, dir_word, marks_word, why_word, cause_word};
ghost use Rattle.ev_types.specs.declared.why.Why.TheVariants.{Event};
ghost use Rattle.ev_types.specs.declared.why.Cause.TheVariants.{Filter};
ghost use Rattle.script_text.specs.Room.{spaced, HasRoom, GrewBy};
ghost use Rattle.script_text.specs.TraceText.{conn_word};
ghost use Rattle.script_text.specs.ReportText.{state_word};

use crate::push::{put_digits, put_last, put_number, put_word};
use ev_types::{Cause, ConnAnswer, Dir, Flags, LinkState, Side, Why};

pub fn side_text(side: Side) -> &'static str
    ensures word { result.now ≡ side_word side }
    ensures short { length result.now ≤ 3 }
{
    match side {
        Side::In => "in",
        Side::Out => "out",
    }
}

pub fn dir_text(dir: Dir) -> &'static str
    ensures word { result.now ≡ dir_word dir }
    ensures short { length result.now ≤ 5 }
{
    match dir {
        Dir::Read => "read",
        Dir::Write => "write",
    }
}

pub fn marks_text(read: bool, write: bool) -> &'static str
    ensures word { result.now ≡ marks_word read write }
    ensures short { length result.now ≤ 4 }
{
    match (read, write) {
        (true, true) => "rw",
        (true, false) => "r",
        (false, true) => "w",
        (false, false) => "none",
    }
}

pub fn conn_text(answer: ConnAnswer) -> &'static str
    ensures word { result.now ≡ conn_word answer }
    ensures short { length result.now ≤ 4 }
{
    match answer {
        ConnAnswer::Connected => "ok",
        ConnAnswer::Pending => "wait",
        ConnAnswer::Failed => "fail",
    }
}

pub fn state_text(state: LinkState) -> &'static str
    ensures word { result.now ≡ state_word state }
    ensures short { length result.now ≤ 4 }
{
    match state {
        LinkState::Done => "done",
        LinkState::Live => "open",
        LinkState::Gone => "gone",
    }
}

/// A reason as the last word of a line.
pub fn put_why(text: &mut Vec<u8>, why: Why)
    requires { HasRoom text.old 10 }
    ensures { GrewBy (line_of (why_word why ∷ [])) 10 text.old text.new }
{
    match why {
        Why::Connected => put_last(text, "connected"),
        Why::Read => put_last(text, "read"),
        Why::Write => put_last(text, "write"),
        Why::Timer => put_last(text, "timer"),
        Why::Event(flags) => put_flags(text, flags),
    }
}

fn put_flags(text: &mut Vec<u8>, flags: Flags)
    requires { HasRoom text.old 9 }
    ensures { GrewBy (line_of (why_word (Event flags) ∷ [])) 9 text.old text.new }
{
    text.extend_from_slice(b"event:").unwrap();
    put_digits(text, &[flags.0]);
    text.push(b'\n').unwrap();
}

/// A cause, and the space behind it.
pub fn put_cause(text: &mut Vec<u8>, cause: Cause)
    requires { HasRoom text.old 28 }
    ensures { GrewBy (spaced (cause_word cause)) 28 text.old text.new }
{
    match cause {
        Cause::Hook => put_word(text, "hook"),
        Cause::Done => put_word(text, "done"),
        Cause::PeerGone => put_word(text, "peergone"),
        Cause::Failed => put_word(text, "failed"),
        Cause::Timeout => put_word(text, "timeout"),
        Cause::Filter(place) => put_filter(text, place),
    }
}

fn put_filter(text: &mut Vec<u8>, place: u64)
    requires { HasRoom text.old 28 }
    ensures { GrewBy (spaced (cause_word (Filter place))) 28 text.old text.new }
{
    text.extend_from_slice(b"filter:").unwrap();
    put_number(text, place);
}
