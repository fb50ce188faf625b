// What a script plans for the hooks of its sides, and the words of such a line.
ghost use Rattle.std.specs.Prelude.{◌≡◌, map};
ghost use Rattle.script_text.specs.ValueGrammar.{why_kind_of};
ghost use Rattle.script_text.specs.Grammar.{said_by};
ghost use Rattle.script_text.specs.GroupsAndPlans.{hooked_of, nth_of};

use crate::act_words::read_planned;
use crate::line::{Keyword, Line};
use crate::value_words::read_side;
use crate::words::{is_word, number};
use ev_types::{PlanLine, SideId, WhyKind};

/// The last link for whose sides something is planned.
const MAX_HOOKED: u64 = 31;

/// The last fire for which something is planned.
const MAX_FIRE: u64 = 1_000_000;

/// What a line plans with these words behind `on`.
pub fn on_line(more: &[&[u8]]) -> Option<Line>
    ensures { result ≡ said_by Keyword.On (map (λ w. w.now) more.now) }
{
    let [link, side, why, nth, act @ ..] = more else {
        return None;
    };
    let end = read_hooked(link, side)?;
    let why = read_kind(why)?;
    let nth = read_nth(nth)?;
    let act = read_planned(act)?;
    Some(Line::Plan(end, PlanLine { why, nth, act }))
}

/// The side of a planned hook, whether its link is opened or not.
fn read_hooked(link: &[u8], side: &[u8]) -> Option<SideId>
    ensures { result ≡ hooked_of link.now side.now }
{
    let side = read_side(side)?;
    let link = number(link, MAX_HOOKED)? as u32;
    Some(SideId { link, side })
}

fn read_nth(word: &[u8]) -> Option<u32>
    ensures { result ≡ nth_of word.now }
{
    let nth = number(word, MAX_FIRE)?;
    (nth > 0).then_some(nth as u32)
}

fn read_kind(word: &[u8]) -> Option<WhyKind>
    ensures { result ≡ why_kind_of word.now }
{
    if is_word(word, "connected") {
        Some(WhyKind::Connected)
    } else if is_word(word, "read") {
        Some(WhyKind::Read)
    } else if is_word(word, "write") {
        Some(WhyKind::Write)
    } else if is_word(word, "timer") {
        Some(WhyKind::Timer)
    } else if is_word(word, "event") {
        Some(WhyKind::Event)
    } else {
        None
    }
}
